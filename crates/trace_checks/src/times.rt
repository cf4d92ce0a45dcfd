ghost use Rattle.std.specs.Prelude.{◌≡◌};
ghost use Rattle.ada_tree.specs.Trees.{program_of};
ghost use Rattle.trace_tree.specs.Placed.{IsPlaced, IsUnit};
ghost use Rattle.trace_checks.specs.Timing.{acts, ends, times_after};

use crate::units::has_task;
use ada_tree::AdaProgram;
use trace_tree::Event;

/// How times stand after some events.
#[derive(Clone, Copy)]
pub(crate) enum Times {
    /// In order up to this time.
    Running(u64),
    /// In order up to the horizon.
    Ended,
    /// Out of order, or an event of no task, or a stop.
    Broken,
}

/// How times stand behind an event of a task.
fn acts(program: &AdaProgram, now: u64, time: u64, task: u32) -> Times
    requires { IsUnit (program_of program.now) task }
    ensures { result ≡ acts (program_of program.now) now time task }
{
    if now <= time && has_task(program, task) {
        Times::Running(time)
    } else {
        Times::Broken
    }
}

/// How times stand behind the horizon.
fn ends(until: u64, now: u64, time: u64) -> Times
    ensures { result ≡ ends until now time }
{
    if now <= time && time == until {
        Times::Ended
    } else {
        Times::Broken
    }
}

/// How times stand behind an event.
pub(crate) fn times_after(program: &AdaProgram, until: u64, times: Times, event: &Event) -> Times
    requires { IsPlaced (program_of program.now) event.now }
    ensures { result ≡ times_after (program_of program.now) until times event.now }
{
    let Times::Running(now) = times else {
        return Times::Broken;
    };
    match event {
        Event::Release { time, task, .. } => acts(program, now, *time, *task),
        Event::Arrive { time, task, .. } => acts(program, now, *time, *task),
        Event::Enter { time, task, .. } => acts(program, now, *time, *task),
        Event::Leave { time, task, .. } => acts(program, now, *time, *task),
        Event::Request { time, task, .. } => acts(program, now, *time, *task),
        Event::Print { time, task, .. } => acts(program, now, *time, *task),
        Event::End { time, task, .. } => acts(program, now, *time, *task),
        Event::Stop { .. } => Times::Broken,
        Event::Horizon { time } => ends(until, now, *time),
    }
}
