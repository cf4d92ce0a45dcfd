ghost use Rattle.std.specs.Prelude.{◌≡◌, ◌≤◌, ◌<◌, ◌+◌, IfOk, IfSome, IfNone, OnOk, length, take, vec_len, slice_get, Some, ℕ};
ghost use Rattle.std.specs.List.{insert, remove};
ghost use Rattle.ods_tree.specs.Trees.{flat_of};
ghost use Rattle.analysis.specs.Sound.{IsSound};
ghost use Rattle.rt_block.specs.Designs.{design_of};
ghost use Rattle.law_orders.specs.Orders.{AllExternal, IsFilledFrom, IsOrder, NoneIsLast};
ghost use Rattle.priority_search.specs.Steps.{AreByDeadline, IsMoved, IsNext};

use crate::last::last_row;
use crate::orders::{Basis, table_by};
use seq_tree::NoMemory;
use std::alloc::Global;

/// The last of the first `free` threads of an order that can be last of them, by its place in the order.
fn next(
    alloc: Global,
    basis: &Basis<'_>,
    order: &[u32],
    free: usize,
) -> Result<Option<usize>, NoMemory>
    requires sound { IsSound (flat_of basis.now.flat.now) }
    requires known { design_of basis.now.facts ≡ flat_of basis.now.flat.now }
    requires external { AllExternal (flat_of basis.now.flat.now) }
    requires order { IsOrder (flat_of basis.now.flat.now) order.now }
    requires some { 1 ≤ free }
    requires free { free ≤ length order.now }
    ensures found { IfOk result (λ o. IfSome o (λ at. IsNext (flat_of basis.now.flat.now) order.now free at)) }
    ensures none { IfOk result (λ o. IfNone o (NoneIsLast (flat_of basis.now.flat.now) (take free order.now))) }
{
    let table = table_by(alloc, basis, order)?;
    let (rows, _) = table.rows.as_slice().split_at(free);
    let block = rows[free - 1].block;
    Ok(last_row(rows, block))
}

/// Moves the item at a place to a later one; those between them come one nearer to the front.
fn move_back(order: &mut Vec<u32>, from: usize, to: usize) -> Result<(), NoMemory>
    requires from { from ≤ to }
    requires to { to < vec_len order.old }
    ensures { OnOk result (IsMoved from to order.old.items order.new.items) }
{
    let place = order.remove(from);
    order.insert(to, place)?;
    Ok(())
}

/// Fills an order from its lowest place upwards, as far as it can be, and gives how many of its first threads are left.
///
/// The order begins by falling deadline-monotonic priority.
pub(crate) fn fill(
    alloc: Global,
    basis: &Basis<'_>,
    order: &mut Vec<u32>,
) -> Result<usize, NoMemory>
    requires sound { IsSound (flat_of basis.now.flat.now) }
    requires known { design_of basis.now.facts ≡ flat_of basis.now.flat.now }
    requires external { AllExternal (flat_of basis.now.flat.now) }
    requires order { IsOrder (flat_of basis.now.flat.now) order.old.items }
    requires by_deadline { AreByDeadline (flat_of basis.now.flat.now) (length order.old.items) order.old.items }
    ensures order { IfOk result (λ _. IsOrder (flat_of basis.now.flat.now) order.new.items) }
    ensures filled { IfOk result (λ left. IsFilledFrom (flat_of basis.now.flat.now) left order.new.items) }
    ensures left { IfOk result (λ left. left ≤ length order.new.items) }
    ensures stuck { IfOk result (λ left. 1 ≤ left → NoneIsLast (flat_of basis.now.flat.now) (take left order.new.items)) }
{
    let mut free = order.len();
    'places: while free > 0 {
        match next(alloc, basis, order.as_slice(), free)? {
            None => return Ok(free),
            Some(at) => {
                free -= 1;
                move_back(order, at, free)?;
            }
        }
    }
    Ok(0)
}
