ghost use Rattle.std.specs.Prelude.{◌≡◌, IfOk, IfSome, option_map, slice_get, drop};
ghost use Rattle.link_queue.specs.Queues.{AreQueues, HeadIsAtLeast, HeadIsAtMost, IsFree, after_due, at_head, at_tail, due, empty_queues};
ghost use Rattle.link_queue.specs.Queues.{in_time, lowered, with_level};

use crate::memory::NoMemory;
use crate::table::{Place, Rank, Slot, link, unlink};
use std::alloc::Global;
use std::marker::Model;

/// The ready tasks in order of dispatch, each with its level, and the sleeping tasks, each with the time at which it wakes.
///
/// Tasks are the numbers below that of `Links::new`; a task is in one of the two lists at most. A level is a priority: a greater one
/// goes first. Times are in ticks. What a call does not name stays as it was.
#[derive(Drop)]
pub struct Links {
    slots: Vec<Slot>,
    // The first ready task, and the first to wake.
    ready: Option<u32>,
    asleep: Option<u32>,
}

impl Model for Links {
    ghost use Rattle.link_queue.specs.Queues.{Queues};
    ghost use Rattle.link_queue.specs.Table.{IsTable, queues_of};

    ghost Value = { Queues };

    ghost view = { λ l. queues_of l.slots.items l.ready l.asleep };

    ghost invariant = { λ l. IsTable l.slots.items l.ready l.asleep (queues_of l.slots.items l.ready l.asleep) };
}

impl Links {
    /// Two lists without a task, with room for `n` tasks, numbered from 0. The one error is an allocation that is refused. No later
    /// call takes memory.
    pub fn new(alloc: Global, n: u32) -> Result<Links, NoMemory>
        ensures { IfOk result (λ l. l ≡ empty_queues n) }
    {
        let slot = Slot {
            place: Place::Apart,
            next: None,
        };
        let slots = vec![in alloc; slot; n as usize]?;
        Ok(Links {
            slots,
            ready: None,
            asleep: None,
        })
    }

    /// Makes a task ready, behind all of at least its level. It is a known task in neither list.
    pub fn push_tail(&mut self, task: u32, level: u32)
        requires { IsFree self.old task }
        ensures { self.new ≡ record self.old { ready = at_tail (task, level) self.old.ready } }
    {
        self.ready = link(
            self.slots.as_mut_slice(),
            self.ready,
            task,
            Rank::Tail(level),
        );
    }

    /// Makes a task ready, behind all of a greater level and before those of its own. It is a known task in neither list.
    pub fn push_head(&mut self, task: u32, level: u32)
        requires { IsFree self.old task }
        ensures { self.new ≡ record self.old { ready = at_head (task, level) self.old.ready } }
    {
        self.ready = link(
            self.slots.as_mut_slice(),
            self.ready,
            task,
            Rank::Head(level),
        );
    }

    /// Takes the first ready task, which is in neither list then. None where no task is ready.
    pub fn pop_head(&mut self) -> Option<u32>
        ensures task { result ≡ option_map (λ e. e.0) (slice_get self.old.ready 0) }
        ensures queues { self.new ≡ record self.old { ready = drop 1 self.old.ready } }
        ensures free { IfSome result (IsFree self.new) }
    {
        let task = self.ready?;
        self.ready = unlink(self.slots.as_mut_slice(), task);
        Some(task)
    }

    /// The first ready task and its level. None where no task is ready.
    pub fn head(&self) -> Option<(u32, u32)>
        ensures head { result ≡ slice_get self.now.ready 0 }
        ensures sound { AreQueues self.now }
    {
        let task = self.ready?;
        let level = self.slots[task as usize].place.level()?;
        Some((task, level))
    }

    /// Gives the first ready task another level, in its place. There is one, and its level is at most the new one.
    pub fn raise_head(&mut self, level: u32)
        requires { HeadIsAtMost level self.old.ready }
        ensures { self.new ≡ record self.old { ready = with_level level self.old.ready } }
    {
        if let Some(task) = self.ready {
            self.slots[task as usize].place = Place::Ready(level);
        }
    }

    /// Gives the first ready task another level, behind all of a greater level. There is one, and its level is at least the new one.
    pub fn lower_head(&mut self, level: u32)
        requires { HeadIsAtLeast level self.old.ready }
        ensures { self.new ≡ record self.old { ready = lowered level self.old.ready } }
    {
        if let Some(task) = self.pop_head() {
            self.push_head(task, level);
        }
    }

    /// Puts a task to sleep until this time, by time and then by task. It is a known task in neither list.
    pub fn sleep(&mut self, task: u32, time: u64)
        requires { IsFree self.old task }
        ensures { self.new ≡ record self.old { asleep = in_time (task, time) self.old.asleep } }
    {
        self.asleep = link(
            self.slots.as_mut_slice(),
            self.asleep,
            task,
            Rank::Wake(time),
        );
    }

    /// The time of the first sleeping task, which is the least. None where no task sleeps.
    pub fn next_wake(&self) -> Option<u64>
        ensures wake { result ≡ option_map (λ e. e.1) (slice_get self.now.asleep 0) }
        ensures sound { AreQueues self.now }
    {
        let task = self.asleep?;
        self.slots[task as usize].place.time()
    }

    /// Takes the first sleeping task whose time is at most `now`, which is in neither list then. None where there is no such task.
    pub fn wake_due(&mut self, now: u64) -> Option<u32>
        ensures task { result ≡ due now self.old.asleep }
        ensures queues { self.new ≡ record self.old { asleep = after_due now self.old.asleep } }
        ensures free { IfSome result (IsFree self.new) }
    {
        if self.next_wake()? > now {
            return None;
        }
        let task = self.asleep?;
        self.asleep = unlink(self.slots.as_mut_slice(), task);
        Some(task)
    }
}
