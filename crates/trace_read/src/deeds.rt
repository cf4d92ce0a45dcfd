ghost use Rattle.std.specs.Prelude.{◌≡◌, ◌==◌, if◌then◌else◌};
ghost use Rattle.trace_read.specs.Chains.{object_of};
ghost use Rattle.trace_read.specs.Deeds.{part_of, task_of};
ghost use Rattle.trace_read.specs.declared.deeds.Part.TheVariants.{Other as OtherOne};

use trace_tree::Event;

/// What an event is to a task.
#[derive(Clone, Copy, Drop)]
pub enum Part {
    /// It is none of its deeds.
    Other,
    /// It neither enters nor leaves an operation.
    Plain,
    /// It enters one.
    Opens,
    /// It leaves one.
    Closes,
}

/// A part of the deeds of a task, where an event is of this one.
fn if_own(own: u32, task: u32, part: Part) -> Part
    ensures { result ≡ (if own == task then part else OtherOne) }
{
    if own == task { part } else { Part::Other }
}

/// What an event is to a task.
pub fn part_of(task: u32, event: &Event) -> Part
    ensures { result ≡ part_of task event.now }
{
    match event {
        Event::Release { task: own, .. } => if_own(*own, task, Part::Plain),
        Event::Arrive { .. } => Part::Other,
        Event::Enter { task: own, .. } => if_own(*own, task, Part::Opens),
        Event::Leave { task: own, .. } => if_own(*own, task, Part::Closes),
        Event::Request { task: own, .. } => if_own(*own, task, Part::Plain),
        Event::Print { task: own, .. } => if_own(*own, task, Part::Plain),
        Event::End { task: own, .. } => if_own(*own, task, Part::Plain),
        Event::Stop { task: own, .. } => if_own(*own, task, Part::Plain),
        Event::Horizon { .. } => Part::Other,
    }
}

/// The task whose deed an event is, where it is one.
pub(crate) fn task_of(event: &Event) -> Option<u32>
    ensures { result ≡ task_of event.now }
{
    match event {
        Event::Release { task, .. } => Some(*task),
        Event::Enter { task, .. } => Some(*task),
        Event::Leave { task, .. } => Some(*task),
        Event::Request { task, .. } => Some(*task),
        Event::Print { task, .. } => Some(*task),
        Event::End { task, .. } => Some(*task),
        Event::Stop { task, .. } => Some(*task),
        Event::Arrive { .. } | Event::Horizon { .. } => None,
    }
}

/// The place of the unit whose operation an event enters or leaves, where it does.
pub(crate) fn object_of(event: &Event) -> Option<u32>
    ensures { result ≡ object_of event.now }
{
    match event {
        Event::Enter { unit, .. } => Some(*unit),
        Event::Leave { unit, .. } => Some(*unit),
        Event::Release { .. }
        | Event::Arrive { .. }
        | Event::Request { .. }
        | Event::Print { .. }
        | Event::End { .. }
        | Event::Stop { .. }
        | Event::Horizon { .. } => None,
    }
}
