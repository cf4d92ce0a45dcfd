ghost use Rattle.std.specs.Prelude.{◌≡◌, ◌≤◌, IfOk, length, map};
ghost use Rattle.std.specs.List.{range_with_len};
ghost use Rattle.ods_tree.specs.Trees.{flat_of};
ghost use Rattle.analysis.specs.Ceilings.{ranks_for};
ghost use Rattle.analysis.specs.Sound.{IsSound};
ghost use Rattle.analysis.specs.Tables.{table_for};
ghost use Rattle.analysis.specs.Trees.{ranks_of, table_of};
ghost use Rattle.rt_block.specs.Designs.{design_of};
ghost use Rattle.law_orders.specs.Orders.{priority_in, priorities_by, ranks_by};

use analysis::{Ranking, Table};
use ods_tree::Flat;
use rt_block::{Facts, facts_of, table};
use rt_order::{Sharing, ceilings, sharing_of};
use seq_tree::NoMemory;
use std::alloc::Global;

/// What the tables of a flat design are made from, for any priorities: it is worked out once.
#[derive(Drop)]
pub(crate) struct Basis<'a> {
    /// The flat design.
    pub(crate) flat: &'a Flat,
    /// Who uses what its threads share.
    pub(crate) sharing: Sharing<'a>,
    /// What its blocks call and cost.
    pub(crate) facts: Facts<'a>,
    ghost shared: { sharing.flat.now ≡ flat.now },
}

/// What the tables of a flat design are made from.
pub(crate) fn basis_of<'a>(alloc: Global, flat: &'a Flat) -> Result<Basis<'a>, NoMemory>
    ensures flat { IfOk result (λ b. b.flat.now ≡ flat.entry.now) }
    ensures known { IfOk result (λ b. design_of b.facts ≡ flat_of b.flat.now) }
{
    let sharing = sharing_of(alloc, flat)?;
    let facts = facts_of(alloc, flat)?;
    Ok(Basis {
        flat,
        sharing,
        facts,
    })
}

/// The priority of the thread at a place, by an order: one more than the number of threads that the order has behind it, and 0 where
/// it hasn't this one.
fn priority_in(order: &[u32], place: u32) -> u32
    requires { length order.now ≤ 30 }
    ensures { result ≡ priority_in order.now place }
{
    let mut left = order;
    'places: while let Some((first, rest)) = left.split_first() {
        if *first == place {
            return left.len() as u32;
        }
        left = rest;
    }
    0
}

/// The priorities by an order of the threads at places below `count`: one more than the number of threads that the order has behind
/// each. `NoMemory` comes for want of memory alone.
pub fn priorities_up_to(alloc: Global, order: &[u32], count: u32) -> Result<Vec<u32>, NoMemory>
    requires { length order.now ≤ 30 }
    ensures { IfOk result (λ v. v.items ≡ map (priority_in order.now) (range_with_len 0 count)) }
{
    let mut priorities = Vec::new(alloc);
    'places: for place in 0..count {
        priorities.push(priority_in(order, place))?;
    }
    Ok(priorities)
}

/// Priorities and ceilings by an order.
pub(crate) fn rank_by(alloc: Global, basis: &Basis<'_>, order: &[u32]) -> Result<Ranking, NoMemory>
    requires sound { IsSound (flat_of basis.now.flat.now) }
    requires few { length order.now ≤ 30 }
    ensures { IfOk result (λ r. ranks_of r ≡ ranks_by (flat_of basis.now.flat.now) order.now) }
{
    let priorities = priorities_up_to(alloc, order, basis.flat.threads.len() as u32)?;
    ceilings(alloc, &basis.sharing, priorities)
}

/// The table for these priorities and ceilings.
pub(crate) fn table_at(
    alloc: Global,
    basis: &Basis<'_>,
    ranking: &Ranking,
) -> Result<Table, NoMemory>
    requires sound { IsSound (flat_of basis.now.flat.now) }
    requires known { design_of basis.now.facts ≡ flat_of basis.now.flat.now }
    requires threads { length ranking.now.threads.items ≡ length basis.now.flat.now.threads.items }
    requires ceilings { ranks_of ranking.now ≡ ranks_for (flat_of basis.now.flat.now) ranking.now.threads.items }
    ensures { IfOk result (λ t. table_of t ≡ table_for (flat_of basis.now.flat.now) ranking.now.threads.items) }
{
    table(alloc, &basis.facts, ranking)
}

/// The table by an order.
pub(crate) fn table_by(alloc: Global, basis: &Basis<'_>, order: &[u32]) -> Result<Table, NoMemory>
    requires sound { IsSound (flat_of basis.now.flat.now) }
    requires known { design_of basis.now.facts ≡ flat_of basis.now.flat.now }
    requires few { length order.now ≤ 30 }
    ensures { IfOk result (λ t. table_of t ≡ table_for (flat_of basis.now.flat.now) (priorities_by (flat_of basis.now.flat.now) order.now)) }
{
    let ranking = rank_by(alloc, basis, order)?;
    table_at(alloc, basis, &ranking)
}
