ghost use Rattle.std.specs.Prelude.{◌≡◌, ◌≤◌, ◌∷◌, ◌++◌, [], IfOk, OnOk, filter_map, length, map, option_and_then, option_map, zip};
ghost use Rattle.ods_tree.specs.Trees.{flat_of};
ghost use Rattle.analysis.specs.Ceilings.{numbered};
ghost use Rattle.analysis.specs.Tables.{downwards};
ghost use Rattle.rt_block.specs.Causes.{cause_of};
ghost use Rattle.explanation.specs.Threads.{blocker_of, chains, reasons_at};

use crate::reasons::{Blocker, Reasons};
use analysis::Table;
use late_response::Reach;
use ods_tree::Flat;
use response_terms::chain_up;
use rt_block::Cause;
use rt_response::ThreadRow;
use seq_tree::NoMemory;
use std::alloc::Global;

/// The names of a cause, where its thread is there.
fn names_of(alloc: Global, flat: &Flat, cause: &Cause) -> Result<Option<Blocker>, NoMemory>
    ensures { IfOk result (λ b. b ≡ blocker_of (flat_of flat.now) (cause_of cause.now)) }
{
    match flat.threads.get(cause.thread as usize) {
        None => Ok(None),
        Some(thread) => Ok(Some(Blocker {
            thread: thread.name.copy(alloc)?,
            object: cause.object.copy(alloc)?,
            op: cause.op.copy(alloc)?,
        })),
    }
}

/// What blocks a thread, by its names, where something does.
fn blocker(alloc: Global, flat: &Flat, cause: &Option<Cause>) -> Result<Option<Blocker>, NoMemory>
    ensures { IfOk result (λ b. b ≡ option_and_then (blocker_of (flat_of flat.now)) (option_map cause_of cause.now)) }
{
    match cause {
        None => Ok(None),
        Some(cause) => names_of(alloc, flat, cause),
    }
}

/// Adds what is told of the thread at a place, where one is there.
fn add_reasons(
    alloc: Global,
    flat: &Flat,
    place: u32,
    row: &ThreadRow,
    reach: Reach,
    cause: &Option<Cause>,
    priority: u32,
    into: &mut Vec<Reasons>,
) -> Result<(), NoMemory>
    ensures { OnOk result (into.new.items ≡ into.old.items ++ filter_map (reasons_at (flat_of flat.now))
        ((place, (row.now, (reach, (option_map cause_of cause.now, priority)))) ∷ [])) }
{
    match flat.threads.get(place as usize) {
        None => Ok(()),
        Some(thread) => {
            into.push(Reasons {
                name: thread.name.copy(alloc)?,
                priority,
                row: *row,
                reach,
                blocker: blocker(alloc, flat, cause)?,
            })?;
            Ok(())
        }
    }
}

/// What is told of the threads of the rows of a table, in its order, with what is told of the rows, the causes of their blockings and their
/// priorities as they are written.
pub(crate) fn reasons_of(
    alloc: Global,
    flat: &Flat,
    table: &Table,
    reaches: &[Reach],
    causes: &[Option<Cause>],
    priorities: &[u32],
) -> Result<Vec<Reasons>, NoMemory>
    ensures { IfOk result (λ v. v.items ≡ filter_map (reasons_at (flat_of flat.now)) (zip table.now.thread.items
        (zip table.now.rows.items (zip reaches.now (zip (map (option_map cause_of) causes.now) priorities.now))))) }
{
    let (mut places, mut rows) = (table.thread.as_slice(), table.rows.as_slice());
    let (mut reaches, mut causes, mut priorities) = (reaches, causes, priorities);
    let mut found = Vec::new(alloc);
    'threads: while let Some((place, more_places)) = places.split_first() {
        let Some((row, more_rows)) = rows.split_first() else {
            break
        };
        let Some((reach, more_reaches)) = reaches.split_first() else {
            break
        };
        let Some((cause, more_causes)) = causes.split_first() else {
            break
        };
        let Some((priority, more_priorities)) = priorities.split_first() else {
            break
        };
        add_reasons(
            alloc, flat, *place, row, *reach, cause, *priority, &mut found,
        )?;
        places = more_places;
        rows = more_rows;
        reaches = more_reaches;
        causes = more_causes;
        priorities = more_priorities;
    }
    Ok(found)
}

/// The chain of requests of each row of a table.
pub(crate) fn chains_of(alloc: Global, table: &[ThreadRow]) -> Result<Vec<Vec<u32>>, NoMemory>
    requires { length table.now ≤ 30 }
    ensures { IfOk result (λ v. map (λ c. c.items) v.items ≡ chains table.now) }
{
    let mut found = Vec::new(alloc);
    let mut left = table;
    let mut at = 0;
    'rows: while let Some((_, more)) = left.split_first() {
        found.push(chain_up(alloc, table, at)?)?;
        left = more;
        at += 1;
    }
    Ok(found)
}

/// The numbers from this one down to 1, as priorities are written where the least is written as `first`.
pub(crate) fn downwards(alloc: Global, count: u32, first: u32) -> Result<Vec<u32>, NoMemory>
    requires count { count ≤ 31 }
    requires first { first ≤ 1000000000 }
    ensures { IfOk result (λ v. v.items ≡ numbered first (downwards count)) }
{
    let mut found = Vec::new(alloc);
    let mut left = count;
    'priorities: while left > 0 {
        found.push(left + first.saturating_sub(1))?;
        left -= 1;
    }
    Ok(found)
}
