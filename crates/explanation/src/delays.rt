ghost use Rattle.std.specs.Prelude.{◌≡◌, ◌≤◌};
ghost use Rattle.explanation.specs.Delays.{delay_by};

use crate::reasons::Reasons;
use crate::values::known_jitter;
use rt_response::ThreadRow;

/// What a thread of higher priority takes of a window.
#[derive(Clone, Copy, Debug, PartialEq, Eq)]
pub struct Delay {
    /// How many of its activations fall into the window at most.
    pub activations: u128,
    /// The ticks that they take.
    pub ticks: u128,
}

/// What a thread with this row takes of a window of a thread of lower priority.
pub fn delay_of(threads: &[Reasons], row: &ThreadRow, window: u64) -> Delay
    requires { 1 ≤ row.now.period }
    ensures { result ≡ delay_by threads.now window row.now }
{
    let reach = u128::from(window) + known_jitter(threads, row);
    let activations = reach.div_ceil(u128::from(row.period));
    Delay {
        activations,
        ticks: activations * u128::from(row.cost),
    }
}
