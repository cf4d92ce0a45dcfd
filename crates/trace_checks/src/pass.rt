ghost use Rattle.std.specs.Prelude.{◌≡◌, ◌<◌, ◌≤◌};
ghost use Rattle.seq_tree.specs.Lists.{Each};
ghost use Rattle.ada_tree.specs.Rules.{MeetsRules};
ghost use Rattle.ada_tree.specs.Trees.{program_of};
ghost use Rattle.trace_tree.specs.Placed.{IsUnit};
ghost use Rattle.arrivals_tree.specs.Arriving.{arrivals_of};
ghost use Rattle.law_traces.specs.Told.{HasPlainNames};
ghost use Rattle.guarantee.specs.Arrivals.{named_arrivals};
ghost use Rattle.trace_checks.specs.Accepted.{AcceptedArrivalsAreOfUnits};
ghost use Rattle.trace_checks.specs.Meanings.{Means};
ghost use Rattle.seq_tree.specs.Limits.{tick_limit};

use crate::broken::Broken;
use crate::parts::Parts;
use ada_tree::AdaProgram;
use arrivals_tree::Arrivals;
use std::alloc::Global;
use trace_read::Lines;

/// How many lines a trace of a program has, where times, the releases of cyclic threads, arrivals, and the requests and releases of sporadic
/// threads are as they should be under these arrivals; else the first of these parts that isn't, with the first thread in the order of units.
/// `Line` comes before all of them: the line of that number, from 1, is none of an event. A last line without its line feed is none.
///
/// The horizon is at most 1,000,000,000 ticks. The trace is read once. Beside it memory is taken for names and for each unit, and for each
/// request that waits.
pub fn check_parts(
    alloc: Global,
    program: &AdaProgram,
    arrivals: &Arrivals,
    trace: &[u8],
) -> Result<u64, Broken>
    requires meets { MeetsRules (program_of program.now) }
    requires plain { HasPlainNames (program_of program.now) }
    requires near { arrivals.now.until ≤ tick_limit }
    requires units { Each (λ a. IsUnit (program_of program.now) a.task) arrivals.now.items.items }
    ensures { Means (program_of program.now) (named_arrivals (program_of program.now) (arrivals_of arrivals.now)) trace.now result }
{
    let mut lines = Lines::new(alloc, program, trace)?;
    let mut parts = Parts::new(alloc, program, arrivals)?;
    let mut count: u64 = 0;
    'lines: while let Some(next) = lines.next() {
        let Ok(event) = next else {
            return Err(Broken::Line { line: count + 1 });
        };
        parts.note(program, arrivals.until, &event)?;
        count += 1;
    }
    match parts.judge(alloc, program, arrivals.until) {
        Ok(()) => Ok(count),
        Err(fault) => Err(fault),
    }
}

/// The horizon of arrivals that are accepted for a program is within the limit, in ticks, and each is of a unit of the program.
pub fn accepted_arrivals_are_of_units()
    ensures { AcceptedArrivalsAreOfUnits }
{}
