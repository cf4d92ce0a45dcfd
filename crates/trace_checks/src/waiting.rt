ghost use Rattle.std.specs.Prelude.{◌≡◌, ◌<◌, ◌≤◌, IfOk, OnOk, length, map};
ghost use Rattle.ada_tree.specs.Trees.{program_of, unit_of};
ghost use Rattle.law_walks.specs.Walks.{same_value};
ghost use Rattle.trace_tree.specs.Placed.{IsPlaced};
ghost use Rattle.trace_checks.specs.Serving.{is_served, nothing_waits, serving_of, serving_after};
ghost use Rattle.trace_checks.specs.Serving as serving;

use ada_tree::Unit;
use seq_tree::NoMemory;
use std::alloc::Global;
use std::collections::VecDeque;
use trace_tree::Event;

/// A request that isn't served yet.
#[derive(Clone, Copy)]
pub(crate) struct Pending {
    /// When it came, in ticks.
    pub(crate) time: u64,
    /// Its value, where there is one.
    pub(crate) value: Option<u32>,
}

/// The requests of a unit that aren't served yet, and how it stands.
#[derive(Drop)]
pub(crate) struct Waiting {
    queue: VecDeque<Pending>,
    /// When the activation before has ended, where none is under way.
    idle: Option<u64>,
    /// Whether something was served that should not have been, or in another way.
    broken: bool,
}

/// Whether two values are one.
pub(crate) fn same_value(a: Option<u32>, b: Option<u32>) -> bool
    ensures { result ≡ same_value a b }
{
    match (a, b) {
        (None, None) => true,
        (Some(m), Some(n)) => m == n,
        _ => false,
    }
}

impl Waiting {
    /// No requests before the first event.
    fn new(alloc: Global) -> Waiting
        ensures { serving_of result ≡ nothing_waits }
    {
        Waiting {
            queue: VecDeque::new(alloc),
            idle: Some(0),
            broken: false,
        }
    }

    /// Notes a request.
    fn ask(&mut self, time: u64, value: Option<u32>) -> Result<(), NoMemory>
        ensures { OnOk result (serving_of self.new ≡ serving.asked time value (serving_of self.old)) }
    {
        self.queue.push_back(Pending { time, value })?;
        Ok(())
    }

    /// Notes a release.
    fn take(&mut self, time: u64, value: Option<u32>)
        ensures { serving_of self.new ≡ serving.taken time value (serving_of self.old) }
    {
        let Some(since) = self.idle else {
            self.broken = true;
            return;
        };
        let Some(first) = self.queue.pop_front() else {
            self.broken = true;
            return;
        };
        let right = time == first.time.max(since) && same_value(value, first.value);
        self.broken = self.broken || !right;
        self.idle = None;
    }

    /// Notes the end of an activation.
    fn end(&mut self, time: u64)
        ensures { serving_of self.new ≡ serving.done time (serving_of self.old) }
    {
        if self.idle.is_none() {
            self.idle = Some(time);
        }
    }

    /// Whether all is as it should be where no event follows.
    pub(crate) fn is_served(&self) -> bool
        ensures { result ≡ is_served (serving_of self.now) }
    {
        !self.broken && (self.queue.is_empty() || self.idle.is_none())
    }
}

/// Nothing waits at any unit.
pub(crate) fn all_waiting(alloc: Global, units: &[Unit]) -> Result<Vec<Waiting>, NoMemory>
    ensures { IfOk result (λ v. map serving_of v.items ≡ map (λ u. nothing_waits) (map unit_of units.now)) }
{
    let mut waiting = Vec::new(alloc);
    'units: for _unit in units {
        waiting.push(Waiting::new(alloc))?;
    }
    Ok(waiting)
}

/// Notes an event.
pub(crate) fn note_request(waiting: &mut Vec<Waiting>, event: &Event) -> Result<(), NoMemory>
    requires { serving.IsWithin (length waiting.old.items) event.now }
    ensures same { OnOk result (map serving_of waiting.new.items ≡ serving_after (map serving_of waiting.old.items) event.now) }
    ensures sized { length waiting.new.items ≡ length waiting.old.items }
{
    match event {
        Event::Release { time, task, value } => {
            waiting[*task as usize].take(*time, *value);
            Ok(())
        }
        Event::Arrive { time, task, value } => waiting[*task as usize].ask(*time, *value),
        Event::Request {
            time,
            target,
            value,
            ..
        } => waiting[*target as usize].ask(*time, *value),
        Event::End { time, task, .. } => {
            waiting[*task as usize].end(*time);
            Ok(())
        }
        Event::Enter { .. } => Ok(()),
        Event::Leave { .. } => Ok(()),
        Event::Print { .. } => Ok(()),
        Event::Stop { .. } => Ok(()),
        Event::Horizon { .. } => Ok(()),
    }
}
