ghost use Rattle.std.specs.Prelude.{◌≡◌, ◌≤◌, ◌*◌};
ghost use Rattle.explanation.specs.Values.{end_of, known_jitter, value_at, value_of};

use crate::reasons::Reasons;
use late_response::Reach;
use rt_response::ThreadRow;

/// A jitter and a response time, in ticks.
#[derive(Clone, Copy, Debug, PartialEq, Eq)]
pub struct Value {
    /// How late after its nominal time a release may come.
    pub jitter: u64,
    /// The time from a release to its end.
    pub response: u64,
}

/// The jitter and the response time of a thread, where they are known.
pub fn value_of(reach: Reach) -> Option<Value>
    ensures { result ≡ value_of reach }
{
    match reach {
        Reach::Solved { jitter, response } => Some(Value { jitter, response }),
        Reach::Beyond { .. } => None,
        Reach::Behind { .. } => None,
    }
}

/// Those of the thread at a place, where one is there.
pub fn value_at(threads: &[Reasons], place: u32) -> Option<Value>
    ensures { result ≡ value_at threads.now place }
{
    match threads.get(place as usize) {
        None => None,
        Some(reasons) => value_of(reasons.reach),
    }
}

/// A jitter and a response time together, and 0 where they are not known.
fn end_of(value: Option<Value>) -> u128
    ensures value { result ≡ end_of value }
    ensures small { result ≤ 2 * 18446744073709551615 }
{
    match value {
        None => 0,
        Some(value) => u128::from(value.jitter) + u128::from(value.response),
    }
}

/// The jitter of a thread: its own, or the jitter and the response time of the thread that starts it.
pub(crate) fn known_jitter(threads: &[Reasons], row: &ThreadRow) -> u128
    ensures value { result ≡ known_jitter threads.now row.now row.now.starter }
    ensures small { result ≤ 2 * 18446744073709551615 }
{
    match row.starter {
        None => u128::from(row.jitter),
        Some(starter) => end_of(value_at(threads, starter)),
    }
}
