ghost use Rattle.std.specs.Prelude.{List, ℕ, IfOk};
ghost use Rattle.hood_io.specs.Causes.{HasCause};
ghost use Rattle.hood_io.specs.Sinks.{Puts};
ghost use Rattle.ada_tree.specs.Rules.{MeetsRules};
ghost use Rattle.ada_tree.specs.Trees.{program_of};
ghost use Rattle.hrthood_top.specs.Ends.{EndsVerb, outside};
ghost use Rattle.hrthood_top.specs.Fetches.{texts_of};
ghost use Rattle.hrthood_top.specs.Replays.{replays, replay_line, ReadsAda, ReadsArrivals};
ghost use Rattle.hrthood_top.specs.Writing.{Streams};

use crate::ada_lines::put_unit;
use crate::arrival_lines::put_arrivals;
use crate::fetch::{File, fetch_files};
use crate::file_kind::FileKind;
use crate::finish::{tell_ending, tell_halt, tell_stop};
use crate::line::Line;
use crate::status::Status;
use crate::text_lines::put_fault;
use crate::texts::Texts;
use crate::trace::put_trace;
use ada_read::{AdaFault, read_ada};
use ada_rules::AdaRule;
use ada_tree::AdaProgram;
use arrivals_read::{ArrivalFault, read_arrivals};
use arrivals_tree::Arrivals;
use bridge::Halt;
use ceil_runtime::Machine;
use hood_io::{Failed, Shelf, Sink};
use seq_tree::{Name, NoMemory, TextFault};
use std::alloc::Global;

/// Why an Ada text is not replayed under arrivals.
#[derive(Drop, Debug)]
pub enum ReplayRefusal {
    /// The Ada text is no text of a program that is read, for this reason and at this place.
    Text(TextFault),
    /// The program breaks this rule first, at this unit; without a unit package `hrt` or the whole list of units does.
    Unit {
        /// The rule.
        rule: AdaRule,
        /// The unit.
        unit: Option<Name>,
    },
    /// The arrivals text is none for the program, for this reason; never for want of memory.
    Arrivals(ArrivalFault),
}

impl Line for ReplayRefusal {
    ghost line = { replay_line };

    fn put<E: Sink>(&self, err: &mut E) -> Result<(), Failed>
        ensures cause { HasCause (E.faults err.old) (E.faults err.new) result }
        ensures puts { Puts (E.written err.old) (E.written err.new) (replay_line self.now) result }
    {
        match self {
            ReplayRefusal::Text(fault) => put_fault(err, FileKind::Ada, *fault),
            ReplayRefusal::Unit { rule, unit } => put_unit(err, *rule, unit),
            ReplayRefusal::Arrivals(fault) => put_arrivals(err, fault),
        }
    }
}

/// The program of an Ada text.
fn read_program(alloc: Global, ada: &[u8]) -> Result<AdaProgram, Halt<ReplayRefusal>>
    ensures says { ReadsAda result ada.now }
    ensures meets { IfOk result (λ p. MeetsRules (program_of p)) }
{
    match read_ada(alloc, ada) {
        Ok(program) => Ok(program),
        Err(AdaFault::Text(fault)) => Err(Halt::Refused(ReplayRefusal::Text(fault))),
        Err(AdaFault::Rule { rule, unit }) => {
            Err(Halt::Refused(ReplayRefusal::Unit { rule, unit }))
        }
        Err(AdaFault::NoMemory) => Err(Halt::NoMemory),
    }
}

/// What an arrivals text says of a program that an Ada text says.
fn read_under(
    alloc: Global,
    arrivals: &[u8],
    program: &AdaProgram,
) -> Result<Arrivals, Halt<ReplayRefusal>>
    requires { MeetsRules (program_of program.now) }
    ensures { (ada : List ℕ) → ReadsArrivals result ada arrivals.now (program_of program.now) }
{
    match read_arrivals(alloc, arrivals, program) {
        Ok(under) => Ok(under),
        Err(ArrivalFault::NoMemory) => Err(Halt::NoMemory),
        Err(fault) => Err(Halt::Refused(ReplayRefusal::Arrivals(fault))),
    }
}

/// Replays an Ada text under an arrivals text, whatever the names of their files: nothing is written before both are read and the run can
/// begin, and then each line as its event comes.
fn replay_texts<O: Sink, E: Sink>(alloc: Global, texts: &Texts, out: &mut O, err: &mut E) -> Status
    ensures { (ada arrivals : List ℕ) → Streams (replays ada arrivals) (texts_of texts.now) result
        (O.written out.old) (O.written out.new) (O.faults out.old) (O.faults out.new)
        (E.written err.old) (E.written err.new) (E.faults err.old) (E.faults err.new) }
{
    let program = match read_program(alloc, &texts.ada) {
        Ok(program) => program,
        Err(why) => return tell_halt(err, why),
    };
    let under = match read_under(alloc, &texts.arrivals, &program) {
        Ok(under) => under,
        Err(why) => return tell_halt(err, why),
    };
    match Machine::new(alloc, &program, &under) {
        Ok(machine) => tell_ending(err, put_trace(&program, machine, out)),
        Err(NoMemory) => tell_halt(err, Halt::<ReplayRefusal>::NoMemory),
    }
}

/// Does the verb `replay`, from its files to what is written.
pub(crate) fn replay<F: Shelf, O: Sink, E: Sink>(
    alloc: Global,
    ada: &str,
    arrivals: &str,
    shelf: &mut F,
    out: &mut O,
    err: &mut E,
) -> Status
    ensures { EndsVerb result (replays ada.now arrivals.now)
        (outside (F.told shelf.old) (F.faults shelf.old) (O.written out.old) (O.faults out.old) (E.written err.old) (E.faults err.old))
        (outside (F.told shelf.new) (F.faults shelf.new) (O.written out.new) (O.faults out.new) (E.written err.new) (E.faults err.new)) }
{
    let files = [
        File {
            kind: FileKind::Ada,
            name: ada,
        },
        File {
            kind: FileKind::Arrivals,
            name: arrivals,
        },
    ];
    match fetch_files(alloc, shelf, &files) {
        Ok(texts) => replay_texts(alloc, &texts, out, err),
        Err(stop) => tell_stop(err, stop),
    }
}
