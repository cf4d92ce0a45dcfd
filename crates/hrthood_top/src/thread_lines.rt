ghost use Rattle.std.specs.Prelude.{◌≡◌, ◌≤◌, ◌++◌, OnOk, flat_map, take};
ghost use Rattle.std.specs.List.{enumerate_from};
ghost use Rattle.seq_tree.specs.Lists.{Each};
ghost use Rattle.explanation.specs.Threads.{HasPeriod};
ghost use Rattle.hrthood_top.specs.Analyses.{labelled};
ghost use Rattle.hrthood_top.specs.Explanations.{behind_line, beyond_line, blocked_line, bound_line, bound_lines, costs_text, delay_text};
ghost use Rattle.hrthood_top.specs.Explanations.{delayed_line, delayed_lines, is_kept, limits_text, margin_line, margin_text, name_at, over_text};
ghost use Rattle.hrthood_top.specs.Explanations.{pair_text, reach_lines, section_text, slack_line, started_by, started_line, thread_lines, value_text};

use crate::report::add_number;
use explanation::{Blocker, Delay, Reasons, Value, delay_of, value_at};
use itoa::Buffer;
use late_response::Reach;
use rt_response::ThreadRow;
use seq_tree::{Name, NoMemory};

/// Adds a word and a number of any width.
pub(crate) fn add_wide(text: &mut Vec<u8>, label: &[u8], number: u128) -> Result<(), NoMemory>
    ensures { OnOk result (text.new.items ≡ text.old.items ++ labelled label.now number) }
{
    let mut digits = Buffer::new();
    text.extend_from_slice(label)?;
    text.extend_from_slice(digits.format(number).as_bytes())?;
    Ok(())
}

/// The name of the thread at a place; nothing where none is there.
pub(crate) fn name_at(threads: &[Reasons], place: u32) -> &[u8]
    ensures { result.now ≡ name_at threads.now place }
{
    match threads.get(place as usize) {
        None => b"",
        Some(thread) => thread.name.bytes(),
    }
}

/// Adds a thread behind a word, with its priority and its limits.
fn add_limits(text: &mut Vec<u8>, word: &[u8], thread: &Reasons) -> Result<(), NoMemory>
    ensures { OnOk result (text.new.items ≡ text.old.items ++ limits_text word.now thread.now) }
{
    text.extend_from_slice(word)?;
    text.extend_from_slice(thread.name.bytes())?;
    add_number(text, b" priority ", thread.priority)?;
    add_number(text, b" period ", thread.row.period)?;
    add_number(text, b" deadline ", thread.row.deadline)?;
    Ok(())
}

/// Adds the cost and the blocking of a thread.
fn add_costs(text: &mut Vec<u8>, row: &ThreadRow) -> Result<(), NoMemory>
    ensures { OnOk result (text.new.items ≡ text.old.items ++ costs_text row.now) }
{
    add_number(text, b" cost ", row.cost)?;
    add_number(text, b" blocking ", row.block)?;
    Ok(())
}

/// Adds a jitter and a response time.
fn add_value(text: &mut Vec<u8>, value: Value) -> Result<(), NoMemory>
    ensures { OnOk result (text.new.items ≡ text.old.items ++ value_text value) }
{
    add_wide(text, b" jitter ", u128::from(value.jitter))?;
    add_wide(text, b" response ", u128::from(value.response))?;
    Ok(())
}

/// Adds a thread behind a word, and another one.
fn add_pair(text: &mut Vec<u8>, word: &[u8], name: &Name, other: &[u8]) -> Result<(), NoMemory>
    ensures { OnOk result (text.new.items ≡ text.old.items ++ pair_text word.now name.now other.now) }
{
    text.extend_from_slice(word)?;
    text.extend_from_slice(name.bytes())?;
    text.extend_from_slice(b" by ")?;
    text.extend_from_slice(other)?;
    Ok(())
}

/// Adds the line of a bound.
fn add_bound(text: &mut Vec<u8>, thread: &Reasons, value: Value) -> Result<(), NoMemory>
    ensures { OnOk result (text.new.items ≡ text.old.items ++ bound_line thread.now value) }
{
    add_limits(text, b"thread ", thread)?;
    add_wide(text, b" jitter ", u128::from(value.jitter))?;
    add_costs(text, &thread.row)?;
    add_wide(text, b" response ", u128::from(value.response))?;
    text.extend_from_slice(b"\n")?;
    Ok(())
}

/// Adds the line of what starts a thread, where its bound is known.
fn add_starter(
    text: &mut Vec<u8>,
    thread: &Reasons,
    starter: &[u8],
    value: Option<Value>,
) -> Result<(), NoMemory>
    ensures { OnOk result (text.new.items ≡ text.old.items ++ started_by thread.now starter.now value) }
{
    match value {
        None => Ok(()),
        Some(value) => {
            add_pair(text, b"started ", &thread.name, starter)?;
            add_value(text, value)?;
            text.extend_from_slice(b"\n")?;
            Ok(())
        }
    }
}

/// Adds the line of what starts a thread, where a thread does.
fn add_started(text: &mut Vec<u8>, threads: &[Reasons], thread: &Reasons) -> Result<(), NoMemory>
    ensures { OnOk result (text.new.items ≡ text.old.items ++ started_line threads.now thread.now thread.now.row.starter) }
{
    match thread.row.starter {
        None => Ok(()),
        Some(place) => add_starter(
            text,
            thread,
            name_at(threads, place),
            value_at(threads, place),
        ),
    }
}

/// Adds the operation whose section blocks a thread.
fn add_section(text: &mut Vec<u8>, blocker: &Blocker) -> Result<(), NoMemory>
    ensures { OnOk result (text.new.items ≡ text.old.items ++ section_text blocker.now) }
{
    text.extend_from_slice(b" in ")?;
    text.extend_from_slice(blocker.object.bytes())?;
    text.extend_from_slice(b".")?;
    text.extend_from_slice(blocker.op.bytes())?;
    Ok(())
}

/// Adds the line of what blocks a thread.
fn add_blocker(text: &mut Vec<u8>, thread: &Reasons, blocker: &Blocker) -> Result<(), NoMemory>
    ensures { OnOk result (text.new.items ≡ text.old.items ++ blocked_line thread.now (Some blocker.now)) }
{
    add_pair(text, b"blocked ", &thread.name, blocker.thread.bytes())?;
    add_section(text, blocker)?;
    add_number(text, b" ticks ", thread.row.block)?;
    text.extend_from_slice(b"\n")?;
    Ok(())
}

/// Adds the line of what blocks a thread, where something does.
fn add_blocked(text: &mut Vec<u8>, thread: &Reasons) -> Result<(), NoMemory>
    ensures { OnOk result (text.new.items ≡ text.old.items ++ blocked_line thread.now thread.now.blocker) }
{
    match &thread.blocker {
        None => Ok(()),
        Some(blocker) => add_blocker(text, thread, blocker),
    }
}

/// Adds what of a window is taken.
fn add_taken(text: &mut Vec<u8>, window: u128, delay: Delay) -> Result<(), NoMemory>
    ensures { OnOk result (text.new.items ≡ text.old.items ++ delay_text window delay) }
{
    add_wide(text, b" window ", window)?;
    add_wide(text, b" activations ", delay.activations)?;
    add_wide(text, b" ticks ", delay.ticks)?;
    Ok(())
}

/// Adds the line of what a thread of higher priority takes of a window of a thread.
fn add_delay(
    text: &mut Vec<u8>,
    thread: &Reasons,
    window: u64,
    other: &[u8],
    delay: Delay,
) -> Result<(), NoMemory>
    ensures { OnOk result (text.new.items ≡ text.old.items ++ delayed_line thread.now window other.now delay) }
{
    add_pair(text, b"delayed ", &thread.name, other)?;
    add_taken(text, u128::from(window), delay)?;
    text.extend_from_slice(b"\n")?;
    Ok(())
}

/// Adds the lines of what these threads of higher priority take of a window of a thread.
fn add_delays(
    text: &mut Vec<u8>,
    threads: &[Reasons],
    above: &[Reasons],
    thread: &Reasons,
    window: u64,
) -> Result<(), NoMemory>
    requires { Each HasPeriod above.now }
    ensures { OnOk result (text.new.items ≡ text.old.items ++ delayed_lines threads.now above.now thread.now window) }
{
    let mut left = above;
    'threads: while let Some((other, more)) = left.split_first() {
        let delay = delay_of(threads, &other.row, window);
        add_delay(text, thread, window, other.name.bytes(), delay)?;
        left = more;
    }
    Ok(())
}

/// Whether a thread keeps its limits.
fn is_kept(row: &ThreadRow, value: Value) -> bool
    ensures { result ≡ is_kept row.now value }
{
    value.response <= u64::from(row.deadline)
        && u128::from(value.jitter) + u128::from(value.response) <= u128::from(row.period)
}

/// Adds how far something is from a deadline and from a separation.
fn add_distances(text: &mut Vec<u8>, deadline: u128, separation: u128) -> Result<(), NoMemory>
    ensures { OnOk result (text.new.items ≡ text.old.items ++ margin_text deadline separation) }
{
    add_wide(text, b" deadline ", deadline)?;
    add_wide(text, b" separation ", separation)?;
    Ok(())
}

/// Adds how far a thread is from its deadline and from its separation.
fn add_margin(
    text: &mut Vec<u8>,
    word: &[u8],
    thread: &Reasons,
    deadline: u128,
    separation: u128,
) -> Result<(), NoMemory>
    ensures { OnOk result (text.new.items ≡ text.old.items ++ margin_line word.now thread.now.name deadline separation) }
{
    text.extend_from_slice(word)?;
    text.extend_from_slice(thread.name.bytes())?;
    add_distances(text, deadline, separation)?;
    text.extend_from_slice(b"\n")?;
    Ok(())
}

/// Adds how far a thread is within its limits, or by how much it is over each.
fn add_slack(text: &mut Vec<u8>, thread: &Reasons, value: Value) -> Result<(), NoMemory>
    ensures { OnOk result (text.new.items ≡ text.old.items ++ slack_line thread.now value) }
{
    let (deadline, period) = (
        u128::from(thread.row.deadline),
        u128::from(thread.row.period),
    );
    let response = u128::from(value.response);
    let reach = u128::from(value.jitter) + response;
    if is_kept(&thread.row, value) {
        return add_margin(
            text,
            b"slack ",
            thread,
            deadline.saturating_sub(response),
            period.saturating_sub(reach),
        );
    }
    add_margin(
        text,
        b"late ",
        thread,
        response.saturating_sub(deadline),
        reach.saturating_sub(period),
    )
}

/// Adds the value that is over ten times a limit, and the limit.
fn add_over(
    text: &mut Vec<u8>,
    row: &ThreadRow,
    jitter: u64,
    response: u128,
) -> Result<(), NoMemory>
    ensures { OnOk result (text.new.items ≡ text.old.items ++ over_text row.now jitter response) }
{
    if 10 * u128::from(row.deadline) < response {
        add_wide(text, b" value ", response)?;
        return add_number(text, b" limit ", row.deadline);
    }
    add_wide(text, b" value ", u128::from(jitter) + response)?;
    add_number(text, b" limit ", row.period)
}

/// Adds the line of a thread that is over ten times a limit in a round, with what blocks it.
fn add_beyond(
    text: &mut Vec<u8>,
    thread: &Reasons,
    round: u64,
    jitter: u64,
    response: u128,
) -> Result<(), NoMemory>
    ensures { OnOk result (text.new.items ≡ text.old.items ++ (beyond_line thread.now round jitter response
        ++ blocked_line thread.now thread.now.blocker)) }
{
    add_limits(text, b"beyond ", thread)?;
    add_costs(text, &thread.row)?;
    add_over(text, &thread.row, jitter, response)?;
    add_wide(text, b" round ", u128::from(round))?;
    text.extend_from_slice(b"\n")?;
    add_blocked(text, thread)
}

/// Adds the line of a thread whose starter has no bound, with what blocks it.
fn add_behind(text: &mut Vec<u8>, thread: &Reasons, other: &[u8]) -> Result<(), NoMemory>
    ensures { OnOk result (text.new.items ≡ text.old.items ++ (behind_line thread.now other.now ++ blocked_line thread.now thread.now.blocker)) }
{
    add_limits(text, b"behind ", thread)?;
    add_costs(text, &thread.row)?;
    text.extend_from_slice(b" by ")?;
    text.extend_from_slice(other)?;
    text.extend_from_slice(b"\n")?;
    add_blocked(text, thread)
}

/// Adds the lines of a thread whose bound is known: the terms of its response time, and its slack.
fn add_terms(
    text: &mut Vec<u8>,
    threads: &[Reasons],
    above: &[Reasons],
    thread: &Reasons,
    value: Value,
) -> Result<(), NoMemory>
    requires { Each HasPeriod above.now }
    ensures { OnOk result (text.new.items ≡ text.old.items ++ bound_lines threads.now above.now thread.now value) }
{
    add_bound(text, thread, value)?;
    add_started(text, threads, thread)?;
    add_blocked(text, thread)?;
    add_delays(text, threads, above, thread, value.response)?;
    add_slack(text, thread, value)
}

/// Adds the lines of a thread, below these of higher priority.
fn add_thread(
    text: &mut Vec<u8>,
    threads: &[Reasons],
    above: &[Reasons],
    thread: &Reasons,
) -> Result<(), NoMemory>
    requires { Each HasPeriod above.now }
    ensures { OnOk result (text.new.items ≡ text.old.items ++ reach_lines threads.now above.now thread.now thread.now.reach) }
{
    match thread.reach {
        Reach::Solved { jitter, response } => add_terms(
            text,
            threads,
            above,
            thread,
            Value { jitter, response },
        ),
        Reach::Beyond {
            round,
            jitter,
            response,
        } => add_beyond(text, thread, round, jitter, response),
        Reach::Behind { starter } => add_behind(text, thread, name_at(threads, starter)),
    }
}

/// Adds the lines of all threads.
pub(crate) fn add_threads(text: &mut Vec<u8>, threads: &[Reasons]) -> Result<(), NoMemory>
    requires { Each HasPeriod threads.now }
    ensures { OnOk result (text.new.items ≡ text.old.items ++ flat_map (thread_lines threads.now) (enumerate_from 0 threads.now)) }
{
    let mut left = threads;
    let mut index = 0;
    'threads: while let Some((thread, more)) = left.split_first() {
        let (above, _) = threads.split_at(index);
        add_thread(text, threads, above, thread)?;
        left = more;
        index += 1;
    }
    Ok(())
}
