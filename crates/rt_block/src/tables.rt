ghost use Rattle.std.specs.Prelude.{◌≡◌, IfOk, length};
ghost use Rattle.ods_tree.specs.Trees.{flat_of};
ghost use Rattle.analysis.specs.Ceilings.{ranks_for};
ghost use Rattle.analysis.specs.Sound.{IsSound};
ghost use Rattle.analysis.specs.Tables.{table_for};
ghost use Rattle.analysis.specs.Trees.{ranks_of, table_of};
ghost use Rattle.rt_block.specs.Designs.{design_of};

use crate::bases::bases_of;
use crate::ceilings::levels_of;
use crate::facts::Facts;
use crate::operations::operations_of;
use crate::rows::{places_by_priority, rows_of};
use analysis::{Ranking, Table};
use ods_tree::Flat;
use seq_tree::NoMemory;
use std::alloc::Global;

/// The facts of a flat design, of which tables for any priorities are made. `NoMemory` comes for want of memory alone.
pub fn facts_of<'a>(alloc: Global, flat: &'a Flat) -> Result<Facts<'a>, NoMemory>
    ensures { IfOk result (λ k. design_of k ≡ flat_of flat.entry.now) }
{
    let operations = operations_of(alloc, flat)?;
    let bases = bases_of(alloc, &operations)?;
    Ok(Facts { operations, bases })
}

/// The table of a flat design for these priorities: a row for each thread, by priority from the greatest on, with its period,
/// deadline, jitter, cost and blocking in ticks and the row of the thread that requests it; and the place of each row's thread.
/// The blocking is the longest section of a thread of lower priority on what has a ceiling that reaches the priority, the sections
/// inside it among it. The ceilings are those for these priorities, as `rt_order` gives them. For other priorities the same facts serve.
/// `NoMemory` comes for want of memory alone.
pub fn table(alloc: Global, facts: &Facts<'_>, order: &Ranking) -> Result<Table, NoMemory>
    requires sound { IsSound (design_of facts.now) }
    requires threads { length order.now.threads.items ≡ length (design_of facts.now).threads }
    requires ceilings { ranks_of order.now ≡ ranks_for (design_of facts.now) order.now.threads.items }
    ensures { IfOk result (λ t. table_of t ≡ table_for (design_of facts.now) order.now.threads.items) }
{
    let levels = levels_of(alloc, facts.operations.flat, order)?;
    let thread = places_by_priority(alloc, order.threads.as_slice())?;
    let rows = rows_of(alloc, facts, &levels, thread.as_slice())?;
    Ok(Table { rows, thread })
}

/// The same, of a flat design of which no other table is asked.
pub fn blocking(alloc: Global, flat: &Flat, order: &Ranking) -> Result<Table, NoMemory>
    requires sound { IsSound (flat_of flat.now) }
    requires threads { length order.now.threads.items ≡ length flat.now.threads.items }
    requires ceilings { ranks_of order.now ≡ ranks_for (flat_of flat.now) order.now.threads.items }
    ensures { IfOk result (λ t. table_of t ≡ table_for (flat_of flat.now) order.now.threads.items) }
{
    let facts = facts_of(alloc, flat)?;
    table(alloc, &facts, order)
}
