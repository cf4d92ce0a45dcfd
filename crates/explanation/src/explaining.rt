ghost use Rattle.std.specs.Prelude.{◌≡◌, ◌≤◌, IfOk};
ghost use Rattle.seq_tree.specs.Lists.{Each};
ghost use Rattle.ods_tree.specs.Trees.{flat_of};
ghost use Rattle.analysis.specs.Sound.{IsSound};
ghost use Rattle.explanation.specs.Explanations.{IsExplanation};
ghost use Rattle.explanation.specs.Threads.{HasPeriod};

use crate::finding::find_bounds;
use crate::reasons::Explanation;
use crate::threads::{chains_of, downwards, reasons_of};
use design_bounds::ceilings;
use late_response::utilisation;
use ods_tree::Flat;
use rt_block::{causes_of, facts_of, table};
use rt_order::order;
use seq_tree::NoMemory;
use std::alloc::Global;

/// What explains the bounds of a sound flat design, or why it has none: its threads by priority, each with its row, what is told of its
/// bound and what blocks it; the chains of requests; the ceilings. Priorities are by deadlines, and the least is written as `first`.
///
/// Where each thread keeps its limits, its bound is the least. Where a value is over its limit, `late` has the first such value, and each
/// thread its least bound without limits, as far as ten times them. The utilisation is the exact sum, rounded down to per mille. `NoMemory` comes for want of memory alone.
pub fn explain(alloc: Global, flat: &Flat, first: u32) -> Result<Explanation, NoMemory>
    requires sound { IsSound (flat_of flat.now) }
    requires first { first ≤ 1000000000 }
    ensures told { IfOk result (IsExplanation first (flat_of flat.now)) }
    ensures periods { IfOk result (λ e. Each HasPeriod e.threads.items) }
{
    let order = order(alloc, flat)?;
    let facts = facts_of(alloc, flat)?;
    let table = table(alloc, &facts, &order)?;
    let causes = causes_of(alloc, &facts, &order)?;
    let found = find_bounds(alloc, flat, &table)?;
    let priorities = downwards(alloc, order.threads.len() as u32, first)?;
    let threads = reasons_of(
        alloc,
        flat,
        &table,
        found.reaches.as_slice(),
        causes.as_slice(),
        priorities.as_slice(),
    )?;
    Ok(Explanation {
        threads,
        chains: chains_of(alloc, table.rows.as_slice())?,
        ceilings: ceilings(alloc, flat, &order, first)?,
        late: found.late,
        utilisation: utilisation(table.rows.as_slice()),
    })
}
