ghost use Rattle.std.specs.Prelude.{◌≡◌, option_map};
ghost use Rattle.ada_tree.specs.Trees.{program_of};
ghost use Rattle.law_traces.specs.Cuts.{cut};
ghost use Rattle.trace_read.specs.Reading.{deed_of, event_of, happens, level_of, maybe_value, op_of, passage_of, request_of, stop_of, used_of};
ghost use Rattle.trace_read.specs.Reading.{values_of};

use crate::kind::{Kind, kind_of};
use crate::numbers::{number_of, value_of};
use crate::table::Table;
use crate::words::Words;
use trace_tree::{Event, Values};

/// A value, where there is a word.
#[tactic(auto, unfolding(crate::specs::Reading::maybe_value))]
fn maybe_value(words: &mut Words<'_>) -> Option<Option<u32>>
    ensures { result ≡ maybe_value words.old }
{
    match words.next() {
        None => Some(None),
        Some(word) => Some(Some(value_of(word)?)),
    }
}

/// Up to eight values.
#[tactic(auto, unfolding(crate::specs::Reading::values_of))]
fn values_of(words: &mut Words<'_>) -> Option<Values>
    ensures { result ≡ values_of words.old }
{
    let mut values = Values::new();
    'values: while let Some(word) = words.next() {
        if values.as_slice().len() == 8 {
            return None;
        }
        values.push(value_of(word)?);
    }
    Some(values)
}

/// The places of a unit and of its operation.
#[tactic(auto, unfolding(crate::specs::Reading::op_of))]
fn op_of(table: &Table<'_>, word: &[u8]) -> Option<(u32, u32)>
    ensures { result ≡ op_of (program_of table.now.program.now) word.now }
{
    let mut names = Words::new(b'.', word);
    let unit = table.unit(names.next()?)?;
    let op = table.op(unit, names.next()?)?;
    Some((unit, op))
}

/// The places of a unit and of its operation, and values.
#[tactic(auto, unfolding(crate::specs::Reading::passage_of))]
fn passage_of(table: &Table<'_>, words: &mut Words<'_>) -> Option<((u32, u32), Values)>
    ensures { result ≡ passage_of (program_of table.now.program.now) words.old }
{
    let op = op_of(table, words.next()?)?;
    let values = values_of(words)?;
    Some((op, values))
}

/// The place of a unit, and a value where there is one.
#[tactic(auto, unfolding(crate::specs::Reading::request_of))]
fn request_of(table: &Table<'_>, words: &mut Words<'_>) -> Option<(u32, Option<u32>)>
    ensures { result ≡ request_of (program_of table.now.program.now) words.old }
{
    let unit = table.unit(words.next()?)?;
    let value = maybe_value(words)?;
    Some((unit, value))
}

/// The number of the second word.
#[tactic(auto, unfolding(crate::specs::Reading::used_of))]
fn used_of(words: &mut Words<'_>) -> Option<u64>
    ensures { result ≡ used_of words.old }
{
    words.next()?;
    number_of(words.next()?)
}

/// The value of the second word.
#[tactic(auto, unfolding(crate::specs::Reading::level_of))]
fn level_of(words: &mut Words<'_>) -> Option<u32>
    ensures { option_map (λ n. (n, words.new)) result ≡ level_of words.old }
{
    words.next()?;
    value_of(words.next()?)
}

/// The place of a unit, and the levels of a task and of it.
#[tactic(auto, unfolding(crate::specs::Reading::stop_of))]
fn stop_of(table: &Table<'_>, words: &mut Words<'_>) -> Option<(u32, u32, u32)>
    ensures { result ≡ stop_of (program_of table.now.program.now) words.old }
{
    let unit = table.unit(words.next()?)?;
    let priority = level_of(words)?;
    let ceiling = level_of(words)?;
    Some((unit, priority, ceiling))
}

/// What a task does at a time.
#[tactic(auto, unfolding(crate::specs::Reading::deed_of))]
fn deed_of(
    table: &Table<'_>,
    time: u64,
    task: u32,
    kind: Kind,
    words: &mut Words<'_>,
) -> Option<Event>
    ensures { result ≡ deed_of (program_of table.now.program.now) time task kind words.old }
{
    match kind {
        Kind::Release => {
            let value = maybe_value(words)?;
            Some(Event::Release { time, task, value })
        }
        Kind::Arrive => {
            let value = maybe_value(words)?;
            Some(Event::Arrive { time, task, value })
        }
        Kind::Enter => {
            let ((unit, op), values) = passage_of(table, words)?;
            Some(Event::Enter {
                time,
                task,
                unit,
                op,
                values,
            })
        }
        Kind::Leave => {
            let ((unit, op), values) = passage_of(table, words)?;
            Some(Event::Leave {
                time,
                task,
                unit,
                op,
                values,
            })
        }
        Kind::Request => {
            let (target, value) = request_of(table, words)?;
            Some(Event::Request {
                time,
                task,
                target,
                value,
            })
        }
        Kind::Print => {
            let value = value_of(words.next()?)?;
            Some(Event::Print { time, task, value })
        }
        Kind::End => {
            let used = used_of(words)?;
            Some(Event::End { time, task, used })
        }
        Kind::Stop => {
            let (unit, priority, ceiling) = stop_of(table, words)?;
            Some(Event::Stop {
                time,
                task,
                unit,
                priority,
                ceiling,
            })
        }
        Kind::Horizon => None,
    }
}

/// What happens at a time.
#[tactic(auto, unfolding(crate::specs::Reading::happens))]
fn happens(table: &Table<'_>, time: u64, kind: Kind, words: &mut Words<'_>) -> Option<Event>
    ensures { result ≡ happens (program_of table.now.program.now) time kind words.old }
{
    if let Kind::Horizon = kind {
        return Some(Event::Horizon { time });
    }
    let task = table.unit(words.next()?)?;
    deed_of(table, time, task, kind, words)
}

/// The event that the words of a line tell.
#[tactic(auto, unfolding(crate::specs::Reading::event_of))]
fn event_of(table: &Table<'_>, words: &mut Words<'_>) -> Option<Event>
    ensures { result ≡ event_of (program_of table.now.program.now) words.old }
{
    let time = number_of(words.next()?)?;
    let kind = kind_of(words.next()?)?;
    happens(table, time, kind, words)
}

/// The event that a line tells, without its line feed.
pub(crate) fn read(table: &Table<'_>, text: &[u8]) -> Option<Event>
    ensures { result ≡ event_of (program_of table.now.program.now) (cut 32 text.now) }
{
    let mut words = Words::new(b' ', text);
    event_of(table, &mut words)
}
