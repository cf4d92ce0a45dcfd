ghost use Rattle.std.specs.Prelude.{◌≡◌, ◌≤◌, ◌<◌, IfErr, IfOk, [], length, take};
ghost use Rattle.seq_tree.specs.Lists.{Each};
ghost use Rattle.ods_tree.specs.Flattening.{flat};
ghost use Rattle.ods_tree.specs.Ticks.{first_priority};
ghost use Rattle.ods_tree.specs.Trees.{flat_of};
ghost use Rattle.rt_response.specs.Response.{IsLeastVector};
ghost use Rattle.rt_response.specs.Tables.{IsTable};
ghost use Rattle.analysis.specs.Ceilings.{ranks};
ghost use Rattle.analysis.specs.Sound.{IsSound};
ghost use Rattle.analysis.specs.Tables.{table as table_tree};
ghost use Rattle.analysis.specs.Trees.{ranks_of, table_of};
ghost use Rattle.ods_rules.specs.Checks.{checked_design};
ghost use Rattle.background_designs.specs.Programs.{raised};
ghost use Rattle.background.specs.Fronts.{front_places, front_rows, slow_count, slow_requests};
ghost use Rattle.background.specs.Makes.{Finishes, HasRoom, IsMissOf, IsUnbounded, Makes, MakesCalm, bounds_for, text_for};

use crate::delivery::{Background, BackgroundRefusal};
use crate::raising::raise;
use crate::requests::clients_are_calm;
use crate::slow::{set_restless, slow_count};
use ada_gen::{generate, head};
use ada_print::print_ada;
use analysis::{Ranking, Table};
use design_bounds::{named_rows, numbered};
use ods_flat::{first_priority, flatten};
use ods_rules::Checked;
use ods_tree::Flat;
use rt_block::blocking;
use rt_order::order;
use rt_response::{Bound, Miss, respond};
use seq_tree::{ADA_LIMIT, NoMemory};
use std::alloc::Global;
use trace_text::NamedBound;

/// The most bytes that an Ada text may have.
const MOST_BYTES: usize = ADA_LIMIT;

/// The refusal of a value over its limit, with the thread of its row.
fn missed(alloc: Global, flat: &Flat, table: &Table, miss: Miss) -> BackgroundRefusal
    requires places { table.now.thread.items ≡ front_places (flat_of flat.now) }
    requires missed { IsMissOf (flat_of flat.now) miss }
    ensures { IsUnbounded (flat_of flat.now) result }
{
    let place = table.thread[miss.index as usize] as usize;
    match flat.threads[place].name.copy(alloc) {
        Ok(thread) => BackgroundRefusal::Miss { thread, miss },
        Err(_) => BackgroundRefusal::NoMemory,
    }
}

/// The least bounds of the rows of the threads that aren't slow. `table` has these rows alone.
fn bounds_of(alloc: Global, flat: &Flat, table: &Table) -> Result<Vec<Bound>, BackgroundRefusal>
    requires rows { table.now.rows.items ≡ front_rows (flat_of flat.now) }
    requires places { table.now.thread.items ≡ front_places (flat_of flat.now) }
    requires front { IsTable (front_rows (flat_of flat.now)) }
    ensures least { IfOk result (λ v. IsLeastVector (front_rows (flat_of flat.now)) v.items) }
    ensures refused { IfErr result (IsUnbounded (flat_of flat.now)) }
{
    let zero = Bound {
        jitter: 0,
        response: 0,
    };
    let mut bounds = vec![in alloc; zero; table.rows.len()]?;
    match respond(table.rows.as_slice(), bounds.as_mut_slice()) {
        Ok(()) => Ok(bounds),
        Err(miss) => Err(missed(alloc, flat, table, miss)),
    }
}

/// The text of a flat design with these priorities and ceilings, with bounds for the rows of `table` in its head; `first` is the number with
/// which the least priority is written.
fn text_of(
    alloc: Global,
    flat: &Flat,
    order: &Ranking,
    table: &Table,
    bounds: &[Bound],
    first: u32,
) -> Result<Vec<u8>, NoMemory>
    requires threads { length order.now.threads.items ≡ length flat.now.threads.items }
    requires shared { length order.now.shared.items ≡ length flat.now.shared.items }
    requires obcs { length order.now.obcs.items ≡ length flat.now.threads.items }
    requires bounds { length bounds.now ≡ length table.now.thread.items }
    requires places { Each (λ at. at < length flat.now.threads.items) table.now.thread.items }
    requires first { 1 ≤ first }
    requires room { HasRoom first (ranks_of order.now) }
    ensures { IfOk result (λ v. v.items ≡ text_for first (flat_of flat.now) (ranks_of order.now) table.now.thread.items bounds.now) }
{
    let mut text = head(alloc, flat, order, table, bounds, first)?;
    let program = generate(alloc, flat, order, first)?;
    print_ada(alloc, &program, &mut text)?;
    Ok(text)
}

/// Leaves the first rows of a table.
fn cut(table: &mut Table, count: usize)
    ensures rows { table.new.rows.items ≡ take count table.old.rows.items }
    ensures places { table.new.thread.items ≡ take count table.old.thread.items }
{
    table.rows.truncate(count);
    table.thread.truncate(count);
}

/// The bounds of the rows of `table` with their threads and their priorities as they are written.
fn named_of(
    alloc: Global,
    flat: &Flat,
    order: &Ranking,
    table: &Table,
    bounds: &[Bound],
    first: u32,
) -> Result<Vec<NamedBound>, NoMemory>
    requires small { Each (λ n. n ≤ 31) order.now.threads.items }
    requires first { first ≤ 1000000000 }
    ensures { IfOk result (λ v. v.items ≡ bounds_for first (flat_of flat.now) (ranks_of order.now) table.now.thread.items table.now.rows.items
        bounds.now) }
{
    let priorities = numbered(alloc, order.threads.as_slice(), first)?;
    named_rows(alloc, flat, priorities.as_slice(), table, bounds)
}

/// The text of a flat design with these priorities and ceilings and with bounds for the rows of `table`, and what goes with it.
fn finish(
    alloc: Global,
    flat: &Flat,
    order: &Ranking,
    table: &Table,
    bounds: &[Bound],
    first: u32,
) -> Result<Background, BackgroundRefusal>
    requires threads { length order.now.threads.items ≡ length flat.now.threads.items }
    requires shared { length order.now.shared.items ≡ length flat.now.shared.items }
    requires obcs { length order.now.obcs.items ≡ length flat.now.threads.items }
    requires bounds { length bounds.now ≡ length table.now.thread.items }
    requires places { Each (λ at. at < length flat.now.threads.items) table.now.thread.items }
    requires some { 1 ≤ first }
    requires first { first ≤ 1000000000 }
    requires room { HasRoom first (ranks_of order.now) }
    requires small { Each (λ n. n ≤ 31) order.now.threads.items }
    requires low { Each (λ n. n ≤ 31) order.now.shared.items }
    ensures { Finishes first (flat_of flat.now) (ranks_of order.now) table.now.thread.items table.now.rows.items bounds.now result }
{
    let text = text_of(alloc, flat, order, table, bounds, first)?;
    if text.len() > MOST_BYTES {
        return Err(BackgroundRefusal::Long);
    }
    let named = named_of(alloc, flat, order, table, bounds, first)?;
    let ceilings = numbered(alloc, order.shared.as_slice(), first)?;
    Ok(Background {
        text,
        bounds: named,
        ceilings,
    })
}

/// What is made of a flat design whose slow threads request no others; `first` is the number with which the least priority is written.
fn make_calm(
    alloc: Global,
    flat: Flat,
    order: Ranking,
    table: Table,
    first: u32,
) -> Result<Background, BackgroundRefusal>
    requires sound { IsSound (flat_of flat) }
    requires order { ranks_of order ≡ ranks (flat_of flat) }
    requires table { table_of table ≡ table_tree (flat_of flat) }
    requires front { IsTable (front_rows (flat_of flat)) }
    requires some { 1 ≤ first }
    requires first { first ≤ 1000000000 }
    requires room { HasRoom first (raised (slow_count (flat_of flat)) (ranks (flat_of flat))) }
    ensures { MakesCalm first (flat_of flat) result }
{
    let (mut flat, mut order, mut table) = (flat, order, table);
    let clients = slow_count(flat.threads.as_slice());
    cut(&mut table, flat.threads.len() - clients);
    let bounds = bounds_of(alloc, &flat, &table)?;
    set_restless(&mut flat);
    raise(&mut order, clients as u32);
    finish(alloc, &flat, &order, &table, bounds.as_slice(), first)
}

/// What is made of a hard part that meets the rules.
pub(crate) fn make(alloc: Global, checked: &Checked) -> Result<Background, BackgroundRefusal>
    requires { slow_requests (flat (checked_design checked.now)) ≡ [] → IsTable (front_rows (flat (checked_design checked.now))) }
    ensures { Makes (first_priority (checked_design checked.now)) (flat (checked_design checked.now)) result }
{
    let first = first_priority(checked.design());
    let flat = flatten(alloc, checked)?;
    let order = order(alloc, &flat)?;
    let table = blocking(alloc, &flat, &order)?;
    clients_are_calm(alloc, &flat, &order, &table)?;
    make_calm(alloc, flat, order, table, first)
}
