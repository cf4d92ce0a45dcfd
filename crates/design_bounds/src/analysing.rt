ghost use Rattle.std.specs.Prelude.{◌≡◌, ◌≤◌, IfErr, IfOk, List};
ghost use Rattle.seq_tree.specs.Lists.{Each};
ghost use Rattle.rt_response.specs.Response.{Fits, IsLeastVector};
ghost use Rattle.rt_response.specs.Rounds.{IsMiss};
ghost use Rattle.rt_response.specs.declared.rows.Bound.{Bound as BoundTree};
ghost use Rattle.ods_tree.specs.Trees.{flat_of};
ghost use Rattle.analysis.specs.Ceilings.{ranks_for};
ghost use Rattle.analysis.specs.Sound.{IsSound};
ghost use Rattle.analysis.specs.Tables.{table as table_tree, table_for};
ghost use Rattle.analysis.specs.Trees.{ranks_of, table_of};
ghost use Rattle.design_bounds.specs.Analyses.{Analyses, IsRefused};
ghost use Rattle.design_bounds.specs.Rows.{ceiling_rows_by, named_bounds_by};

use crate::naming::{ceiling_rows, named_rows, numbered};
use crate::rows::{Analysis, CeilingRow, NoBounds};
use analysis::{Ranking, Table};
use ods_tree::Flat;
use rt_block::blocking;
use rt_order::order;
use rt_response::{Bound, Miss, respond};
use seq_tree::NoMemory;
use std::alloc::Global;
use trace_text::NamedBound;

/// The refusal of a value over its limit, with the thread of its row.
fn missed(alloc: Global, flat: &Flat, table: &Table, miss: Miss) -> NoBounds
    requires sound { IsSound (flat_of flat.now) }
    requires table { table_of table.now ≡ table_tree (flat_of flat.now) }
    requires first { IsMiss (table_tree (flat_of flat.now)).rows miss }
    requires none { (v : List BoundTree) → Fits (table_tree (flat_of flat.now)).rows v → ⊥ }
    ensures { IsRefused (flat_of flat.now) result }
{
    let place = table.thread[miss.index as usize] as usize;
    match flat.threads[place].name.copy(alloc) {
        Ok(thread) => NoBounds::Miss { thread, miss },
        Err(_) => NoBounds::NoMemory,
    }
}

/// The least bounds of the rows of the table of a sound flat design. `Miss` comes exactly where no vector of bounds fits, as in `analyse`.
/// `NoMemory` comes for want of memory alone.
pub fn bounds_of(alloc: Global, flat: &Flat, table: &Table) -> Result<Vec<Bound>, NoBounds>
    requires sound { IsSound (flat_of flat.now) }
    requires table { table_of table.now ≡ table_tree (flat_of flat.now) }
    ensures least { IfOk result (λ v. IsLeastVector (table_tree (flat_of flat.now)).rows v.items) }
    ensures refused { IfErr result (IsRefused (flat_of flat.now)) }
{
    let zero = Bound {
        jitter: 0,
        response: 0,
    };
    let mut bounds = vec![in alloc; zero; table.rows.len()]?;
    match respond(table.rows.as_slice(), bounds.as_mut_slice()) {
        Ok(()) => Ok(bounds),
        Err(miss) => Err(missed(alloc, flat, table, miss)),
    }
}

/// The bounds of the rows of a table with the names of their threads, and with the numbers and priorities as they are written. The table is
/// that for the priorities of `order`, which may be any from 0 to 31, and the least priority, 1, is written as `first`. `NoMemory` comes
/// for want of memory alone.
pub fn named(
    alloc: Global,
    flat: &Flat,
    order: &Ranking,
    table: &Table,
    bounds: &[Bound],
    first: u32,
) -> Result<Vec<NamedBound>, NoMemory>
    requires small { Each (λ n. n ≤ 31) order.now.threads.items }
    requires table { table_of table.now ≡ table_for (flat_of flat.now) order.now.threads.items }
    requires first { first ≤ 1000000000 }
    ensures { IfOk result (λ v. v.items ≡ named_bounds_by first (flat_of flat.now) order.now.threads.items bounds.now) }
{
    let priorities = numbered(alloc, order.threads.as_slice(), first)?;
    named_rows(alloc, flat, priorities.as_slice(), table, bounds)
}

/// The ceilings for any priorities from 0 to 31, with the names of what they are of and as they are written, where the least priority,
/// 1, is written as `first`. `NoMemory` comes for want of memory alone.
pub fn ceilings(
    alloc: Global,
    flat: &Flat,
    order: &Ranking,
    first: u32,
) -> Result<Vec<CeilingRow>, NoMemory>
    requires small { Each (λ n. n ≤ 31) order.now.threads.items }
    requires order { ranks_of order.now ≡ ranks_for (flat_of flat.now) order.now.threads.items }
    requires first { first ≤ 1000000000 }
    ensures { IfOk result (λ v. v.items ≡ ceiling_rows_by first (flat_of flat.now) order.now.threads.items) }
{
    let shared = numbered(alloc, order.shared.as_slice(), first)?;
    let obcs = numbered(alloc, order.obcs.as_slice(), first)?;
    ceiling_rows(alloc, flat, shared.as_slice(), obcs.as_slice())
}

/// Priorities by deadlines, ceilings, the table, the least bounds and their rows of a flat design, whose least priority is written
/// as `first`.
///
/// `Miss` comes exactly where no vector of bounds fits: it tells the first round with a value over its limit, and of it the thread
/// of the greatest priority, its deadline before its separation. `NoMemory` comes for want of memory alone.
pub fn analyse(alloc: Global, flat: &Flat, first: u32) -> Result<Analysis, NoBounds>
    requires sound { IsSound (flat_of flat.now) }
    requires first { first ≤ 1000000000 }
    ensures { Analyses first (flat_of flat.now) result }
{
    let order = order(alloc, flat)?;
    let table = blocking(alloc, flat, &order)?;
    let bounds = bounds_of(alloc, flat, &table)?;
    let named = named(alloc, flat, &order, &table, bounds.as_slice(), first)?;
    let ceilings = ceilings(alloc, flat, &order, first)?;
    Ok(Analysis {
        order,
        table,
        bounds,
        named,
        ceilings,
    })
}
