ghost use Rattle.std.specs.Prelude.{◌≡◌, ◌-◌, ◌<◌, ◌&&◌, IfOk, Some, length, option_map, slice_get};
ghost use Rattle.ods_tree.specs.Trees.{flat_of, thread_of};
ghost use Rattle.analysis.specs.Ceilings.{ranks};
ghost use Rattle.analysis.specs.Priorities.{priorities_of};
ghost use Rattle.analysis.specs.Sound.{IsSound};
ghost use Rattle.analysis.specs.Tables.{starter_of, table as table_tree};
ghost use Rattle.analysis.specs.Trees.{ranks_of, table_of};
ghost use Rattle.ods_index.specs.Judging.{head_of};
ghost use Rattle.background_designs.specs.Misfits.{is_sporadic, A6};
ghost use Rattle.background.specs.Fronts.{first_started, is_row, request_fault, slow_requests};
ghost use Rattle.background.specs.Told.{Tells, misfit_of};

use crate::delivery::{BackgroundRefusal, BackgroundRule};
use crate::misfits::tell;
use crate::slow::{is_slow, is_sporadic};
use analysis::{Ranking, Table};
use ods_tree::{Flat, FlatThread};
use seq_tree::NoMemory;
use std::alloc::Global;

/// The row of the thread at a place: that of the greatest priority is row 0.
fn row_of(flat: &Flat, order: &Ranking, place: usize) -> usize
    requires order { ranks_of order.now ≡ ranks (flat_of flat.now) }
    requires inside { place < length flat.now.threads.items }
    ensures { Some result ≡ option_map (λ q. length (priorities_of (flat_of flat.now)) - q) (slice_get (priorities_of (flat_of flat.now)) place) }
{
    order.threads.len() - order.threads[place] as usize
}

/// Whether a starter is this row.
fn is_row(row: usize, starter: Option<u32>) -> bool
    ensures { result ≡ is_row row starter }
{
    match starter {
        None => false,
        Some(starter) => starter as usize == row,
    }
}

/// Whether the thread at a place is sporadic and started by the thread of a row.
fn is_started(
    flat: &Flat,
    order: &Ranking,
    table: &Table,
    thread: &FlatThread,
    place: usize,
    row: usize,
) -> bool
    requires sound { IsSound (flat_of flat.now) }
    requires order { ranks_of order.now ≡ ranks (flat_of flat.now) }
    requires table { table_of table.now ≡ table_tree (flat_of flat.now) }
    requires stands { slice_get (flat_of flat.now).threads place ≡ Some (thread_of thread.now) }
    ensures { result ≡ (is_sporadic (thread_of thread.now).timing
        && is_row row (starter_of (flat_of flat.now) (priorities_of (flat_of flat.now)) (thread_of thread.now).name (thread_of thread.now).timing)) }
{
    let own = row_of(flat, order, place);
    is_sporadic(&thread.timing) && is_row(row, table.rows[own].starter)
}

/// The first sporadic thread that the thread of a row starts.
fn first_started<'a>(
    flat: &'a Flat,
    order: &Ranking,
    table: &Table,
    row: usize,
) -> Option<&'a FlatThread>
    requires sound { IsSound (flat_of flat.now) }
    requires order { ranks_of order.now ≡ ranks (flat_of flat.now) }
    requires table { table_of table.now ≡ table_tree (flat_of flat.now) }
    ensures { option_map (λ t. thread_of t.now) result ≡ first_started (flat_of flat.entry.now) row }
{
    'threads: for (place, thread) in flat.threads.iter().enumerate() {
        if is_started(flat, order, table, thread, place, row) {
            return Some(thread);
        }
    }
    None
}

/// What is told of a client that can request a sporadic thread: both names.
fn told(alloc: Global, client: &FlatThread, target: &FlatThread) -> Result<BackgroundRule, NoMemory>
    ensures { IfOk result (λ r. misfit_of r ≡ A6 (thread_of client.now).name (thread_of target.now).name) }
{
    Ok(BackgroundRule::A6 {
        object: client.name.copy(alloc)?,
        target: target.name.copy(alloc)?,
    })
}

/// What is told of the thread at a place, where it is that of a client and can request a sporadic one.
fn request_fault(
    alloc: Global,
    flat: &Flat,
    order: &Ranking,
    table: &Table,
    thread: &FlatThread,
    place: usize,
) -> Result<Option<BackgroundRule>, NoMemory>
    requires sound { IsSound (flat_of flat.now) }
    requires order { ranks_of order.now ≡ ranks (flat_of flat.now) }
    requires table { table_of table.now ≡ table_tree (flat_of flat.now) }
    requires stands { slice_get (flat_of flat.now).threads place ≡ Some (thread_of thread.now) }
    ensures { IfOk result (λ o. option_map misfit_of o ≡ request_fault (flat_of flat.entry.now) (thread_of thread.now)) }
{
    if !is_slow(thread) {
        return Ok(None);
    }
    let row = row_of(flat, order, place);
    match first_started(flat, order, table, row) {
        None => Ok(None),
        Some(target) => Ok(Some(told(alloc, thread, target)?)),
    }
}

/// The first client that can request a sporadic thread, with the first such thread.
fn first_request(
    alloc: Global,
    flat: &Flat,
    order: &Ranking,
    table: &Table,
) -> Result<Option<BackgroundRule>, NoMemory>
    requires sound { IsSound (flat_of flat.now) }
    requires order { ranks_of order.now ≡ ranks (flat_of flat.now) }
    requires table { table_of table.now ≡ table_tree (flat_of flat.now) }
    ensures { IfOk result (λ o. option_map misfit_of o ≡ head_of (slow_requests (flat_of flat.entry.now))) }
{
    'threads: for (place, thread) in flat.threads.iter().enumerate() {
        let fault = request_fault(alloc, flat, order, table, thread, place)?;
        if fault.is_some() {
            return Ok(fault);
        }
    }
    Ok(None)
}

/// Tells the first client that can request a sporadic thread, with the first such thread, read off the table of a sound flat design.
pub(crate) fn clients_are_calm(
    alloc: Global,
    flat: &Flat,
    order: &Ranking,
    table: &Table,
) -> Result<(), BackgroundRefusal>
    requires sound { IsSound (flat_of flat.now) }
    requires order { ranks_of order.now ≡ ranks (flat_of flat.now) }
    requires table { table_of table.now ≡ table_tree (flat_of flat.now) }
    ensures { Tells result (head_of (slow_requests (flat_of flat.entry.now))) }
{
    tell(first_request(alloc, flat, order, table)?)
}
