ghost use Rattle.std.specs.Prelude.{◌≡◌, ◌∷◌, [], List, option_and_then, option_map};
ghost use Rattle.trace_checks.specs.Arriving.{comes_by, due_after, due_behind, is_over};

use crate::waiting::same_value;
use arrivals_tree::Arrival;
use trace_tree::Event;

/// The arrivals that are due behind one, where this one is as it should be.
fn due_after<'a>(
    due: &'a [Arrival],
    until: u64,
    time: u64,
    task: u32,
    value: Option<u32>,
) -> Option<&'a [Arrival]>
    ensures { option_map (λ r. r.now) result ≡ due_after until due.entry.now time task value }
{
    let mut left = due;
    'due: while let Some((first, rest)) = left.split_first() {
        if first.time <= until {
            return comes_by(*first, rest, time, task, value);
        }
        left = rest;
    }
    None
}

/// The arrivals behind one, where it is at this time, of this task and with this value.
fn comes_by<'a>(
    first: Arrival,
    rest: &'a [Arrival],
    time: u64,
    task: u32,
    value: Option<u32>,
) -> Option<&'a [Arrival]>
    ensures { option_map (λ r. r.now) result ≡ comes_by first rest.entry.now time task value }
{
    if time == first.time && task == first.task && same_value(value, first.value) {
        Some(rest)
    } else {
        None
    }
}

/// The arrivals that are due behind an event.
pub(crate) fn due_behind<'a>(
    due: Option<&'a [Arrival]>,
    until: u64,
    event: &Event,
) -> Option<&'a [Arrival]>
    ensures { option_map (λ r. r.now) result ≡ due_behind until (option_map (λ r. r.now) due.entry) event.now }
{
    let Event::Arrive { time, task, value } = event else {
        return due;
    };
    match due {
        None => None,
        Some(left) => due_after(left, until, *time, *task, *value),
    }
}

/// Whether no arrival is due up to the horizon.
pub(crate) fn is_over(due: &[Arrival], until: u64) -> bool
    ensures { result ≡ is_over until due.now }
{
    let mut left = due;
    'due: while let Some((first, rest)) = left.split_first() {
        if first.time <= until {
            return false;
        }
        left = rest;
    }
    true
}
