ghost use Rattle.std.specs.Prelude.{◌≡◌, ◌<◌, false, length};
ghost use Rattle.ada_tree.specs.Rules.{MeetsRules};
ghost use Rattle.ada_tree.specs.Trees.{program_of};
ghost use Rattle.arrivals_tree.specs.Arriving.{Arrivals};
ghost use Rattle.ceil_runtime.specs.Shown.{IsWhole, running_of};
ghost use Rattle.hood_io.specs.Causes.{HasCause};
ghost use Rattle.machine.specs.Systems.{system};
ghost use Rattle.seq_tree.specs.Lists.{Each};
ghost use Rattle.trace_tree.specs.Lines.{lines, unit_name};
ghost use Rattle.trace_tree.specs.Placed.{IsPlaced};
ghost use Rattle.hrthood_top.specs.Streaming.{Closes, Gathers, PutsRun, violation_of};

use crate::page::Page;
use crate::violation::{Ending, Violation};
use ada_tree::AdaProgram;
use ceil_runtime::{EventBuf, Machine, Turn};
use hood_io::{Failed, Sink};
use seq_tree::Name;
use trace_text::{LineBuf, line};
use trace_tree::Event;

/// Writes the lines of events of a program, each made in a buffer, through a page.
fn put_lines<O: Sink>(
    program: &AdaProgram,
    events: &[Event],
    buffer: &mut LineBuf,
    page: &mut Page,
    out: &mut O,
) -> Result<(), Failed>
    requires { Each (IsPlaced (program_of program.now)) events.now }
    ensures cause { HasCause (O.faults out.old) (O.faults out.new) result }
    ensures gathers { Gathers page.old (lines (program_of program.now) events.now) page.new (O.written out.old) (O.written out.new) result }
{
    'events: for event in events {
        line(program, event, buffer);
        page.put(buffer.bytes(), out)?;
    }
    Ok(())
}

/// The name of the unit at a place.
#[tactic(auto, using(trace_text::proofs::Shared::Names::read_steps))]
fn name_at(program: &AdaProgram, unit: u32) -> &Name
    requires { unit < length (program_of program.now).units }
    ensures { result.now ≡ unit_name (program_of program.now) unit }
{
    &program.units[unit as usize].name
}

/// The violation of the ceiling of a unit by the task of another, by their places.
fn violation_at<'a>(
    program: &'a AdaProgram,
    time: u64,
    task: u32,
    object: u32,
    priority: u32,
    ceiling: u32,
) -> Violation<'a>
    requires task { task < length (program_of program.now).units }
    requires object { object < length (program_of program.now).units }
    ensures { violation_of result ≡ record {
      time = time;
      task = unit_name (program_of program.now) task;
      object = unit_name (program_of program.now) object;
      priority = priority;
      ceiling = ceiling;
    } }
{
    Violation {
        time,
        task: name_at(program, task),
        object: name_at(program, object),
        priority,
        ceiling,
    }
}

/// Writes what a page holds at the end of a run; after a failure a proper front of it was written.
fn close<'a, O: Sink>(
    page: &mut Page,
    out: &mut O,
    ending: Ending<'a>,
) -> Result<Ending<'a>, Failed>
    ensures cause { HasCause (O.faults out.old) (O.faults out.new) result }
    ensures closes { Closes page.old ending.entry (O.written out.old) (O.written out.new) result }
{
    page.flush(out)?;
    Ok(ending)
}

/// Runs a program from where a machine stands up to the horizon, or to a stop, and writes the line of each event that it tells; it tells how the
/// run ended. After a failure a proper front of these lines was written. It takes no memory.
pub(crate) fn put_trace<'a, O: Sink>(
    program: &'a AdaProgram,
    machine: Machine<'_>,
    out: &mut O,
) -> Result<Ending<'a>, Failed>
    requires meets { MeetsRules (program_of program.now) }
    requires runs { (a : Arrivals) × ((running_of machine).system ≡ system (program_of program.now) a) }
    requires whole { IsWhole machine }
    requires goes_on { (running_of machine).state.stopped ≡ false }
    ensures cause { HasCause (O.faults out.old) (O.faults out.new) result }
    ensures puts { PutsRun (program_of program.now) (running_of machine.entry) (O.written out.old) (O.written out.new) result }
{
    let mut running = machine;
    let mut events = EventBuf::new();
    let mut buffer = LineBuf::new();
    let mut page = Page::new();
    'turns: loop {
        let turn = running.advance(&mut events);
        put_lines(program, events.events(), &mut buffer, &mut page, out)?;
        match turn {
            Turn::More => events.clear(),
            Turn::Horizon => return close(&mut page, out, Ending::Horizon),
            Turn::CeilingViolation {
                time,
                task,
                object,
                priority,
                ceiling,
            } => {
                let at = violation_at(program, time, task, object, priority, ceiling);
                return close(&mut page, out, Ending::Stopped(at));
            }
        }
    }
}
