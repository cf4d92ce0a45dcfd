ghost use Rattle.std.specs.Prelude.{◌≡◌, true, false};
ghost use Rattle.machine.specs.States.{first_time, first_wait};
ghost use Rattle.task_runtime.specs.Readies.{is_ready, readiness_of, rests_as};
ghost use Rattle.task_runtime.specs.Written.{timing_of};

use crate::readiness::Readiness;
use crate::thread::Timing;

/// Whether a task sleeps or waits first.
pub fn opening_rest(timing: Timing) -> Readiness
    ensures readiness { readiness_of result (first_time (timing_of timing.entry)) ≡ first_wait (timing_of timing.entry) }
    ensures rests { is_ready result ≡ false }
    ensures fits { rests_as result timing.entry ≡ true }
{
    match timing {
        Timing::Periodic { .. } => Readiness::Asleep,
        Timing::Requested { .. } => Readiness::Waiting,
    }
}

/// The first nominal time, in ticks.
pub fn opening_time(timing: Timing) -> u64
    ensures { result ≡ first_time (timing_of timing.entry) }
{
    match timing {
        Timing::Periodic { offset, .. } => u64::from(offset),
        Timing::Requested { .. } => 0,
    }
}
