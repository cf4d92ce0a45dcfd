ghost use Rattle.std.specs.Prelude.{◌≡◌, IfSome};
ghost use Rattle.ada_tree.specs.Rules.{MeetsRules};
ghost use Rattle.ada_tree.specs.Trees.{program_of};
ghost use Rattle.arrivals_tree.specs.Acceptance.{IsAccepted};
ghost use Rattle.arrivals_tree.specs.Arrived.{horizon_limit};
ghost use Rattle.arrivals_tree.specs.Arriving.{arrivals_of};
ghost use Rattle.guarantee.specs.Arrivals.{named_arrivals};
ghost use Rattle.guarantee.specs.Programs as programs;
ghost use Rattle.guarantee.specs.Software.{program_software, software};
ghost use Rattle.ods_rules.specs.Checks.{checked_design};
ghost use Rattle.law_traces.specs.Verdicts.{IsVerdict};
ghost use Rattle.law_traces.specs.Told.{HasPlainNames};
ghost use Rattle.design_accepts.specs.Answers.{verdict_of};
ghost use Rattle.design_accepts.specs.Units.{IsQuick};

use crate::unaccepted::Unaccepted;
use crate::units::judge_units;
use ada_tree::AdaProgram;
use arrivals_tree::Arrivals;
use ods_rules::Checked;
use std::alloc::Global;
use trace_checks::check_parts;
use trace_read::{Table, read_events};

/// How many lines a trace has that the machine of a program allows under arrivals, or else the first part that it breaks.
fn judge(
    alloc: Global,
    program: &AdaProgram,
    arrivals: &Arrivals,
    trace: &[u8],
) -> Result<u64, Unaccepted>
    requires meets { MeetsRules (program_of program.now) }
    requires plain { HasPlainNames (program_of program.now) }
    requires quick { IsQuick (program_of program.now) }
    requires arrivals { IsAccepted horizon_limit (program_of program.now) (arrivals_of arrivals.now) }
    ensures { IfSome (verdict_of result) (λ v. IsVerdict (program_software (program_of program.now)) (program_of program.now)
        (named_arrivals (program_of program.now) (arrivals_of arrivals.now)) trace.now v) }
{
    let lines = check_parts(alloc, program, arrivals, trace)?;
    let table = Table::new(alloc, program)?;
    let events = read_events(alloc, &table, trace)?;
    match judge_units(alloc, program, &events) {
        Ok(()) => Ok(lines),
        Err(why) => Err(why),
    }
}

/// How many lines a trace from anywhere has that the machine of a design allows under arrivals; else the first part that it breaks, of those
/// that `Unaccepted` lists, in their order.
///
/// The text is read once for its lines, times, releases, arrivals and requests, and where these are right several times more for its threads and
/// objects. That takes time by the bytes of the trace and of the program, with names looked up in tables: a line is read for the one operation or
/// activation that it belongs to, however deep operations are nested. Each activation is followed once, and each entry into an operation of an object
/// that is not yet found broken twice. Following takes time by the bytes of the data of its unit, and by the statements that it passes
/// (`seq_eval::follow_actions`). In a trace that is accepted these are at most as many as the ticks that its ends say were used, and as the ticks of
/// one activation more for each thread, and for operations as many again. In one that is refused each entry may pass as many as its operation can
/// take, up to 1,000,000,000.
///
/// Memory grows with the lines of the trace: 12 bytes are held for each in a table, and 4 more for each in the script of the operation that is
/// followed or of an activation that hasn't ended. No event is held but the one that is read.
pub fn accepts(
    alloc: Global,
    design: &Checked,
    program: &AdaProgram,
    arrivals: &Arrivals,
    trace: &[u8],
) -> Result<u64, Unaccepted>
    requires program { program_of program.now ≡ programs.program (checked_design design.now) }
    requires meets { MeetsRules (program_of program.now) }
    requires plain { HasPlainNames (program_of program.now) }
    requires arrivals { IsAccepted horizon_limit (program_of program.now) (arrivals_of arrivals.now) }
    ensures verdict { IfSome (verdict_of result) (λ v. IsVerdict (software (checked_design design.now)) (program_of program.now)
        (named_arrivals (program_of program.now) (arrivals_of arrivals.now)) trace.now v) }
{
    let _design = design.design();
    judge(alloc, program, arrivals, trace)
}
