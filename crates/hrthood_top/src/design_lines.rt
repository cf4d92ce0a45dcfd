ghost use Rattle.std.specs.Prelude.{◌≡◌};
ghost use Rattle.hood_io.specs.Causes.{HasCause};
ghost use Rattle.hood_io.specs.Sinks.{Puts};
ghost use Rattle.hrthood_top.specs.Messages.{part_text, use_line, limit_text, misfit_line, rule_line, miss_line};
ghost use Rattle.background.specs.declared.delivery.BackgroundRule.TheVariants.{A6};
ghost use Rattle.ods_index.specs.declared.broken.Broken.TheVariants.{V09Calls, V10, V13, V14, V15Cost, V16};

use crate::line::{put_count, put_each, put_named};
use crate::text_lines::body_text;
use background::BackgroundRule;
use hood_io::{Failed, Sink, put_all};
use itoa::Buffer;
use ods_rules::Broken;
use rt_response::{Limit, Miss};
use seq_check::BodyFault;
use seq_tree::{Name, OpName};

/// The code of a limit.
pub(crate) fn limit_text<'a>(limit: Limit) -> &'a [u8]
    ensures { result.now ≡ limit_text limit }
{
    match limit {
        Limit::Deadline => b"U1 ",
        Limit::Separation => b"U2 ",
    }
}

/// A part of an object: the operation, or the thread.
pub(crate) fn part_text(part: &Option<Name>) -> &[u8]
    ensures { result.now ≡ part_text part.now }
{
    match part {
        Some(op) => op.bytes(),
        None => b"thread",
    }
}

/// Writes a line of a code, an object and an operation of another; after a failure a proper front of it was written.
fn put_use<E: Sink>(err: &mut E, code: &[u8], object: &Name, target: &OpName) -> Result<(), Failed>
    ensures cause { HasCause (E.faults err.old) (E.faults err.new) result }
    ensures puts { Puts (E.written err.old) (E.written err.new) (use_line code.now object.now target.now) result }
{
    put_each(
        err,
        &[
            code,
            object.bytes(),
            b" ".as_slice(),
            target.object.bytes(),
            b".".as_slice(),
            target.op.bytes(),
            b"\n".as_slice(),
        ],
    )
}

/// Writes the line of an operation on a ring; after a failure a proper front of it was written.
fn put_ringed<E: Sink>(err: &mut E, name: &OpName) -> Result<(), Failed>
    ensures cause { HasCause (E.faults err.old) (E.faults err.new) result }
    ensures puts { Puts (E.written err.old) (E.written err.new) (rule_line (V09Calls name.now)) result }
{
    put_each(
        err,
        &[
            b"refused V09 ".as_slice(),
            name.object.bytes(),
            b".".as_slice(),
            name.op.bytes(),
            b"\n".as_slice(),
        ],
    )
}

/// Writes the line of an object whose sources are wrong; after a failure a proper front of it was written.
fn put_sources<E: Sink>(err: &mut E, object: &Name, sources: u32, starts: u32) -> Result<(), Failed>
    ensures cause { HasCause (E.faults err.old) (E.faults err.new) result }
    ensures puts { Puts (E.written err.old) (E.written err.new) (rule_line (V10 object.now sources starts)) result }
{
    let mut threads = Buffer::new();
    let mut most = Buffer::new();
    put_each(
        err,
        &[
            b"refused V10 ".as_slice(),
            object.bytes(),
            b" sources ".as_slice(),
            threads.format(sources).as_bytes(),
            b" starts ".as_slice(),
            most.format(starts).as_bytes(),
            b"\n".as_slice(),
        ],
    )
}

/// Writes the line of a fault of a body; after a failure a proper front of it was written.
fn put_body<E: Sink>(
    err: &mut E,
    object: &Name,
    part: &Option<Name>,
    fault: BodyFault,
) -> Result<(), Failed>
    ensures cause { HasCause (E.faults err.old) (E.faults err.new) result }
    ensures puts { Puts (E.written err.old) (E.written err.new) (rule_line (V13 object.now part.now fault)) result }
{
    put_each(
        err,
        &[
            b"refused V13 ".as_slice(),
            object.bytes(),
            b" ".as_slice(),
            part_text(part),
            body_text(fault),
            b"\n".as_slice(),
        ],
    )
}

/// Writes the line of an activation over its budget; after a failure a proper front of it was written.
fn put_over<E: Sink>(err: &mut E, thread: &Name, cost: u32, budget: u32) -> Result<(), Failed>
    ensures cause { HasCause (E.faults err.old) (E.faults err.new) result }
    ensures puts { Puts (E.written err.old) (E.written err.new) (rule_line (V14 thread.now cost budget)) result }
{
    let mut spent = Buffer::new();
    let mut allowed = Buffer::new();
    put_each(
        err,
        &[
            b"refused V14 ".as_slice(),
            thread.bytes(),
            b" cost ".as_slice(),
            spent.format(cost).as_bytes(),
            b" budget ".as_slice(),
            allowed.format(budget).as_bytes(),
            b"\n".as_slice(),
        ],
    )
}

/// Writes the line of a body that costs too much; after a failure a proper front of it was written.
fn put_dear<E: Sink>(err: &mut E, object: &Name, part: &Option<Name>) -> Result<(), Failed>
    ensures cause { HasCause (E.faults err.old) (E.faults err.new) result }
    ensures puts { Puts (E.written err.old) (E.written err.new) (rule_line (V15Cost object.now part.now)) result }
{
    put_each(
        err,
        &[
            b"refused V15 cost ".as_slice(),
            object.bytes(),
            b" ".as_slice(),
            part_text(part),
            b"\n".as_slice(),
        ],
    )
}

/// Writes the line of a thread that starts another too often; after a failure a proper front of it was written.
fn put_start<E: Sink>(
    err: &mut E,
    starter: &Name,
    period: u32,
    target: &Name,
    separation: u32,
) -> Result<(), Failed>
    ensures cause { HasCause (E.faults err.old) (E.faults err.new) result }
    ensures puts { Puts (E.written err.old) (E.written err.new) (rule_line (V16 starter.now period target.now separation)) result }
{
    let mut every = Buffer::new();
    let mut apart = Buffer::new();
    put_each(
        err,
        &[
            b"refused V16 ".as_slice(),
            starter.bytes(),
            b" period ".as_slice(),
            every.format(period).as_bytes(),
            b" ".as_slice(),
            target.bytes(),
            b" separation ".as_slice(),
            apart.format(separation).as_bytes(),
            b"\n".as_slice(),
        ],
    )
}

/// Writes the line of a broken rule; after a failure a proper front of it was written.
pub(crate) fn put_rule<E: Sink>(err: &mut E, broken: &Broken) -> Result<(), Failed>
    ensures cause { HasCause (E.faults err.old) (E.faults err.new) result }
    ensures puts { Puts (E.written err.old) (E.written err.new) (rule_line broken.now) result }
{
    match broken {
        Broken::V01 { name } => put_named(err, b"refused V01 ", name, b"\n"),
        Broken::V02 { name } => put_named(err, b"refused V02 ", name, b"\n"),
        Broken::V03 { object } => put_named(err, b"refused V03 ", object, b"\n"),
        Broken::V04 { object } => put_named(err, b"refused V04 ", object, b"\n"),
        Broken::V05 { object } => put_named(err, b"refused V05 ", object, b"\n"),
        Broken::V06 { object, target } => put_use(err, b"refused V06 ", object, target),
        Broken::V07 { object, target } => put_use(err, b"refused V07 ", object, target),
        Broken::V08 { object, target } => put_use(err, b"refused V08 ", object, target),
        Broken::V09Calls { name } => put_ringed(err, name),
        Broken::V09Objects { object } => put_named(err, b"refused V09 ", object, b"\n"),
        Broken::V09Starts { thread } => put_named(err, b"refused V09 ", thread, b"\n"),
        Broken::V10 {
            object,
            sources,
            starts,
        } => put_sources(err, object, *sources, *starts),
        Broken::V11 {
            object: Some(object),
        } => put_named(err, b"refused V11 ", object, b"\n"),
        Broken::V11 { object: None } => put_all(err, b"refused V11 costs\n"),
        Broken::V12 { object } => put_named(err, b"refused V12 ", object, b"\n"),
        Broken::V13 {
            object,
            part,
            fault,
        } => put_body(err, object, part, *fault),
        Broken::V14 {
            thread,
            cost,
            budget,
        } => put_over(err, thread, *cost, *budget),
        Broken::V15Threads { count } => put_count(err, b"refused V15 threads ", *count),
        Broken::V15Objects { count } => put_count(err, b"refused V15 objects ", *count),
        Broken::V15Cost { object, part } => put_dear(err, object, part),
        Broken::V16 {
            starter,
            period,
            target,
            separation,
        } => put_start(err, starter, *period, target, *separation),
        Broken::V17Tick => put_all(err, b"refused V17 tick\n"),
        Broken::V17Priorities => put_all(err, b"refused V17 priorities\n"),
        Broken::V17 { object } => put_named(err, b"refused V17 ", object, b"\n"),
        Broken::NoMemory => put_all(err, b"refused\n"),
    }
}

/// Writes the line of a client that requests a sporadic object; after a failure a proper front of it was written.
fn put_request<E: Sink>(err: &mut E, object: &Name, target: &Name) -> Result<(), Failed>
    ensures cause { HasCause (E.faults err.old) (E.faults err.new) result }
    ensures puts { Puts (E.written err.old) (E.written err.new) (misfit_line (A6 object.now target.now)) result }
{
    put_each(
        err,
        &[
            b"refused A6 ".as_slice(),
            object.bytes(),
            b" ".as_slice(),
            target.bytes(),
            b"\n".as_slice(),
        ],
    )
}

/// Writes the line of what is wrong with background objects; after a failure a proper front of it was written.
pub(crate) fn put_misfit<E: Sink>(err: &mut E, rule: &BackgroundRule) -> Result<(), Failed>
    ensures cause { HasCause (E.faults err.old) (E.faults err.new) result }
    ensures puts { Puts (E.written err.old) (E.written err.new) (misfit_line rule.now) result }
{
    match rule {
        BackgroundRule::A1 { object } => put_named(err, b"refused A1 ", object, b"\n"),
        BackgroundRule::A2 { object, target } => put_use(err, b"refused A2 ", object, target),
        BackgroundRule::A3 { object } => put_named(err, b"refused A3 ", object, b"\n"),
        BackgroundRule::A4 { object, target } => put_use(err, b"refused A4 ", object, target),
        BackgroundRule::A5 { object } => put_named(err, b"refused A5 ", object, b"\n"),
        BackgroundRule::A6 { object, target } => put_request(err, object, target),
    }
}

/// Writes the line of a value over its limit; after a failure a proper front of it was written.
pub(crate) fn put_miss<E: Sink>(err: &mut E, thread: &Name, miss: &Miss) -> Result<(), Failed>
    ensures cause { HasCause (E.faults err.old) (E.faults err.new) result }
    ensures puts { Puts (E.written err.old) (E.written err.new) (miss_line thread.now miss.now) result }
{
    let mut value = Buffer::new();
    let mut limit = Buffer::new();
    let mut round = Buffer::new();
    put_each(
        err,
        &[
            b"refused ".as_slice(),
            limit_text(miss.which),
            thread.bytes(),
            b" value ".as_slice(),
            value.format(miss.value).as_bytes(),
            b" limit ".as_slice(),
            limit.format(miss.limit).as_bytes(),
            b" round ".as_slice(),
            round.format(miss.round).as_bytes(),
            b"\n".as_slice(),
        ],
    )
}
