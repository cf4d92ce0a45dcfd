ghost use Rattle.std.specs.Prelude.{◌≡◌, ◌<◌, ◌≤◌, ◌^◌, ◌||◌, true, false, map, vec_capacity};
ghost use Rattle.arrivals_tree.specs.Acceptance.{has_nothing};
ghost use Rattle.ada_tree.specs.Trees.{unit_of};
ghost use Rattle.linker.specs.Programs.{AreLinked};
ghost use Rattle.task_runtime.specs.Effort.{IsLong};
ghost use Rattle.task_runtime.specs.Progressed.{is_idle};
ghost use Rattle.task_runtime.specs.Written.{durations_of};
ghost use Rattle.task_runtime.specs.Lefts.{pieces_left};
ghost use Rattle.task_runtime.specs.Readies.{is_ready, rests_as};

use crate::durations::joined;
use crate::inside::Held;
use crate::progress::Progress;
use crate::readiness::{Gate, Readiness};
use crate::reserve::Room;
use crate::thread::{Thread, Timing};
use crate::timing::{opening_rest, opening_time};
use linker::LinkedUnits;
use seq_tree::{Costs, NoMemory};
use std::alloc::Global;

/// A task at work: how far it has come, and what the processor counts of it.
#[derive(Drop)]
pub struct Task<'a> {
    pub progress: Progress<'a>,
    /// Whether it can run.
    pub readiness: Readiness,
    /// The active priority.
    pub active: u32,
    /// The sections that it is inside, the innermost last.
    pub inside: Vec<Held>,
    /// The nominal time of its next release, in ticks.
    pub next: u64,
    /// The ticks left of the piece that has started.
    pub left: u32,
    /// The ticks used since the release.
    pub used: u64,
    /// The `work` statements started.
    pub works: u64,
    /// How long each `work` statement takes at most, in the order in which they start, where that is handed in.
    pub durations: Vec<u32>,
    /// The control structure, which stays shut where no request reaches the task.
    pub gate: Gate,
    ghost asleep: { (is_ready readiness || is_idle (pieces_left progress)) ≡ true },
    ghost rests: { rests_as readiness progress.stack.thread.timing ≡ true },
    ghost handed: { durations.items ≡ durations_of progress.stack.thread },
    ghost long: { has_nothing durations.items ≡ false },
    ghost room: { progress.stack.frames.room ≤ vec_capacity inside },
}

impl<'a> Task<'a> {
    ghost use Rattle.std.specs.Prelude.{◌+◌, min, slice_get};
    ghost use Rattle.machine.specs.Releases.{is_waiting, next_time, released};
    ghost use Rattle.std.specs.Prelude.{◌&&◌, IfOk};
    ghost use Rattle.machine.specs.Effects.{resting};
    ghost use Rattle.task_runtime.specs.Bodies.{first_body};
    ghost use Rattle.task_runtime.specs.Reserving.{HasRoom, extent_in};
    ghost use Rattle.task_runtime.specs.Tasks.{IsFresh};
    ghost use Rattle.task_runtime.specs.Written.{timing_of};
    ghost use Rattle.task_runtime.specs.Works.{asked, used_ticks};
    ghost use Rattle.task_runtime.specs.Sounds.{CanWork, IsAtWork, IsTaskStart};
    ghost use Rattle.task_runtime.specs.Tasks.{task_of};
    ghost use Rattle.task_runtime.specs.Readies.{readiness_of};
    ghost use Rattle.ada_tree.specs.Ranges.{costs_break};

    /// A task before its first activation, whose block starts at this place, with so much room: it sleeps until its offset, or waits for a
    /// request. The one error is a failed allocation.
    pub fn new(
        alloc: Global,
        code: &LinkedUnits<'a>,
        thread: Thread<'a>,
        start: u32,
        room: Room,
    ) -> Result<Task<'a>, NoMemory>
        requires works { CanWork thread }
        requires linked { AreLinked (map unit_of thread.units.now) code.now }
        requires start { IsTaskStart code.now thread start }
        requires room { room.slots < 2 ^ 63 → HasRoom code.now room.bodies room.slots (extent_in (first_body thread start)) }
        requires long { has_nothing (durations_of thread) ≡ false }
        ensures fresh { IfOk result (λ t. IsFresh t thread.entry) }
        ensures at_work { IfOk result (λ t. IsAtWork code.now t.progress) }
    {
        let progress = Progress::new(alloc, code, thread, start, room)?;
        let durations = joined(alloc, thread.work, thread.unit)?;
        let inside = Vec::with_capacity(alloc, progress.stack.frames.room())?;
        Ok(Task {
            progress,
            readiness: opening_rest(thread.timing),
            active: thread.priority,
            inside,
            next: opening_time(thread.timing),
            left: 0,
            used: 0,
            works: 0,
            durations,
            gate: Gate::shut(),
        })
    }

    /// How long the next `work` statement takes at most, where that is handed in.
    pub fn duration(&self) -> Option<u32>
        requires { self.now.works < 2 ^ 63 }
        ensures next { result ≡ slice_get (durations_of self.now.progress.stack.thread) self.now.works }
        ensures long { IsLong result }
    {
        let place = self.works as usize;
        if place < self.durations.len() {
            Some(self.durations[place])
        } else {
            None
        }
    }

    /// Whether the task sleeps or waits after its activation.
    pub fn resting(&self) -> Readiness
        ensures readiness { readiness_of result self.now.next ≡ resting (timing_of self.now.progress.stack.thread.timing) self.now.next }
        ensures rests { is_ready result ≡ false }
        ensures fits { rests_as result self.now.progress.stack.thread.timing ≡ true }
    {
        match self.progress.stack.thread.timing {
            Timing::Periodic { .. } => Readiness::Asleep,
            Timing::Requested { .. } => Readiness::Waiting,
        }
    }

    /// Whether the task waits and its control structure is open.
    pub fn is_served(&self) -> bool
        ensures { result ≡ (is_waiting (task_of self.now).readiness && (task_of self.now).gate.open') }
    {
        match self.readiness {
            Readiness::Waiting => self.gate.open,
            Readiness::Asleep => false,
            Readiness::Ready => false,
        }
    }

    /// The nominal time of the release after the next one: that of a task that is released by requests stays.
    fn later(&self) -> u64
        requires { self.now.next < 2 ^ 63 }
        ensures time { result ≡ next_time (timing_of self.now.progress.stack.thread.timing) self.now.next }
        ensures near { result < self.now.next + 2 ^ 32 }
    {
        match self.progress.stack.thread.timing {
            Timing::Periodic { period, .. } => self.next + u64::from(period),
            Timing::Requested { .. } => self.next,
        }
    }

    /// The release of a task that isn't ready.
    pub fn release(&mut self, costs: &Costs, code: &LinkedUnits<'a>)
        requires at_work { IsAtWork code.now self.old.progress }
        requires rests { is_ready self.old.readiness ≡ false }
        requires near { self.old.next < 2 ^ 63 }
        requires few { self.old.works < 2 ^ 63 }
        requires ticking { costs_break costs.now ≡ false }
        ensures task { task_of self.new ≡ released costs.now (task_of self.old) }
        ensures thread { self.new.progress.stack.thread ≡ self.old.progress.stack.thread }
        ensures works { self.new.works ≤ self.old.works + min self.new.left 1 }
        ensures near { self.new.next < self.old.next + 2 ^ 32 }
        ensures at_work { IsAtWork code.now self.new.progress }
        // The first piece takes ticks.
        ensures some { 0 < self.new.left }
    {
        let duration = self.duration();
        self.progress.begin(code, self.gate.value);
        let start = self.progress.start(costs, duration);
        self.left = start.ticks;
        self.works += start.works;
        self.readiness = Readiness::Ready;
        self.next = self.later();
        self.used = 0;
        self.gate = Gate::shut();
    }

    /// The arrival of a request from outside, whose value replaces one that is kept.
    pub fn arrive(&mut self, value: Option<u32>)
        ensures task { task_of self.new ≡ asked value (task_of self.old) }
        ensures thread { self.new.progress.stack.thread ≡ self.old.progress.stack.thread }
        ensures same { self.new.readiness ≡ self.old.readiness }
        ensures progress { self.new.progress ≡ self.old.progress }
        ensures opened { self.new.gate ≡ record { value = value; «open» = true } }
    {
        self.gate = Gate { value, open: true };
    }

    /// The use of so many ticks.
    pub fn use_ticks(&mut self, ticks: u64)
        requires few { ticks < 2 ^ 32 }
        requires small { self.old.used < 2 ^ 63 }
        ensures task { task_of self.new ≡ used_ticks ticks (task_of self.old) }
        ensures thread { self.new.progress.stack.thread ≡ self.old.progress.stack.thread }
        ensures ready { self.new.readiness ≡ self.old.readiness }
        ensures progress { self.new.progress ≡ self.old.progress }
    {
        self.used += ticks;
        self.left = self.left.saturating_sub(ticks as u32);
    }
}
