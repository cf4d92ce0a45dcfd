ghost use Rattle.std.specs.Prelude.{◌≡◌, ◌+◌, ◌≤◌, ◌<◌, ℕ, List, IfOk, [], length, map, flat_map};
ghost use Rattle.ada_tree.specs.Trees.{program_of};
ghost use Rattle.arrivals_tree.specs.ArrivalTexts.{arrival_tokens, request_of, request_tokens, said, work_of, work_tokens};
ghost use Rattle.arrivals_tree.specs.Arriving.{Durations, arrivals_of};
ghost use Rattle.arrivals_tree.specs.FirstWrong.{first_wrong, wrong_request, wrong_work};
ghost use Rattle.arrivals_read.specs.Found.{Finds, durations_of};
ghost use Rattle.arrivals_read.specs.declared.items.Refusal.TheVariants as refusal;
ghost use Rattle.arrivals_read.specs.Texts.{request_text, text_of, ticks_of, work_text};

use crate::checks::{Cause, Seen, work_fault};
use crate::text::{RequestItem, Text, WorkItem};
use crate::units::Units;
use ada_tree::AdaProgram;
use arrivals_tree::{Arrival, Arrivals, WorkList};
use seq_tree::NoMemory;
use std::alloc::{AllocError, AllocFailed, Global};
use token_read::Word;

/// Why the items of a text are no arrivals.
pub(crate) enum Refusal<'a> {
    /// The first item in which something is wrong: what, the name that stands in it, and how many tokens stand before it.
    Wrong {
        cause: Cause,
        name: Word<'a>,
        before: usize,
    },
    /// Want of memory.
    NoMemory,
}

impl<'a> From<NoMemory> for Refusal<'a> {
    ghost from_gives = { λ _ e. e ≡ refusal.NoMemory };

    fn from(_e: NoMemory) -> Refusal<'a> {
        Refusal::NoMemory
    }
}

impl<'a, T: Drop> From<AllocFailed<T>> for Refusal<'a> {
    ghost from_gives = { λ _ e. e ≡ refusal.NoMemory };

    fn from(_e: AllocFailed<T>) -> Refusal<'a> {
        Refusal::NoMemory
    }
}

/// All durations of an item, in ticks.
fn ticks(alloc: Global, work: &WorkItem) -> Result<Vec<u32>, NoMemory>
    ensures { IfOk result (λ v. v.items ≡ ticks_of work.now) }
{
    let mut ticks = Vec::new(alloc);
    ticks.push(work.first)?;
    ticks.extend_from_slice(&work.others)?;
    Ok(ticks)
}

/// What durations say of a program's units.
fn work_list(alloc: Global, units: &Units, work: &WorkItem) -> Result<WorkList, NoMemory>
    ensures { IfOk result (λ w. durations_of w ≡ work_of (program_of units.now.program.now) (work_text work.now)) }
{
    let ticks = ticks(alloc, work)?;
    let task = units.place(work.name);
    Ok(WorkList { task, ticks })
}

/// How many tokens durations have.
fn work_len(work: &WorkItem) -> usize
    requires { length (work_tokens (work_text work.now)) ≤ 18446744073709551615 }
    ensures { result ≡ length (work_tokens (work_text work.now)) }
{
    4 + 2 * work.others.len()
}

/// What all durations say of a program's units, and how many tokens the text has to their end.
fn works<'a>(
    alloc: Global,
    units: &Units,
    items: &[WorkItem<'a>],
) -> Result<(Vec<WorkList>, usize), Refusal<'a>>
    requires { 3 + length (flat_map work_tokens (map work_text items.now)) ≤ 18446744073709551615 }
    ensures { Finds {V = List Durations × ℕ} (λ r. (map durations_of r.0.items, r.1)) result
        (wrong_work (program_of units.now.program.now) 3 (map work_text items.now))
        (map (work_of (program_of units.now.program.now)) (map work_text items.now), 3 + length (flat_map work_tokens (map work_text items.now))) }
{
    let mut lists = Vec::new(alloc);
    let mut before = 3;
    'works: for item in items {
        let list = work_list(alloc, units, item)?;
        if let Some(cause) = work_fault(units.unit(list.task), &list.ticks) {
            return Err(Refusal::Wrong {
                cause,
                name: item.name,
                before,
            });
        }
        lists.push(list)?;
        before += work_len(item);
    }
    Ok((lists, before))
}

/// What a request says of a program's units.
fn arrival(units: &Units, item: &RequestItem) -> Arrival
    ensures says { result ≡ request_of (program_of units.now.program.now) (request_text item.now) }
    ensures short { result.time ≤ 4294967295 }
{
    Arrival {
        time: u64::from(item.time),
        task: units.place(item.name),
        value: item.value,
    }
}

/// How many tokens a request has.
fn request_len(item: &RequestItem) -> usize
    ensures { result ≡ length (request_tokens (request_text item.now)) }
{
    match item.value {
        None => 4,
        Some(_) => 5,
    }
}

/// What all requests say of a program's units, which begin behind so many tokens.
fn requests<'a>(
    alloc: Global,
    units: &Units,
    items: &[RequestItem<'a>],
    start: usize,
) -> Result<Vec<Arrival>, Refusal<'a>>
    requires { start + length (flat_map request_tokens (map request_text items.now)) ≤ 18446744073709551615 }
    ensures { Finds (λ v. v.items) result (wrong_request (program_of units.now.program.now) [] start (map request_text items.now))
        (map (request_of (program_of units.now.program.now)) (map request_text items.now)) }
{
    let mut seen = Seen::new(alloc, units.program)?;
    let mut arrivals = Vec::new(alloc);
    let mut before = start;
    'requests: for item in items {
        let arrival = arrival(units, item);
        if let Err(cause) = seen.note(units, arrival) {
            return Err(Refusal::Wrong {
                cause,
                name: item.name,
                before,
            });
        }
        arrivals.push(arrival)?;
        before += request_len(item);
    }
    Ok(arrivals)
}

/// What a text says of a program, where something may be wrong.
pub(crate) fn items<'a>(
    alloc: Global,
    program: &AdaProgram,
    text: &Text<'a>,
) -> Result<Arrivals, Refusal<'a>>
    requires few { length (program_of program.now).units < 4294967296 }
    requires short { length (arrival_tokens (text_of text.now)) ≤ 18446744073709551615 }
    ensures { Finds arrivals_of result (first_wrong (program_of program.now) (text_of text.now)) (said (program_of program.now) (text_of text.now)) }
{
    let units = Units::new(alloc, program)?;
    let (work, before) = works(alloc, &units, &text.works)?;
    let items = requests(alloc, &units, &text.requests, before)?;
    Ok(Arrivals {
        until: u64::from(text.until),
        work,
        items,
    })
}
