ghost use Rattle.std.specs.Prelude.{◌≡◌, ◌++◌, IfOk, OnOk, flat_map, map};
ghost use Rattle.seq_tree.specs.Trees.{operation_of};
ghost use Rattle.ods_tree.specs.Trees.{guarded_of, library_of};
ghost use Rattle.rt_block.specs.Designs.{design_of};
ghost use Rattle.rt_block.specs.Known.{IsKnown, design};
ghost use Rattle.rt_block.specs.PartCosts.{body_cost, part_costs};

use crate::bases::{Base, block_ticks};
use crate::facts::Facts;
use crate::operations::Operations;
use ods_tree::{FlatPassive, FlatShared};
use seq_tree::{NoMemory, OpText};
use std::alloc::Global;

/// Adds what the bodies of operations cost.
fn add_bodies(
    operations: &Operations<'_>,
    ops: &[OpText],
    into: &mut Vec<u32>,
) -> Result<(), NoMemory>
    requires { IsKnown operations.now }
    ensures { OnOk result (into.new.items ≡ into.old.items ++ map (body_cost (design operations.now)) (map operation_of ops.now)) }
{
    'ops: for op in ops {
        into.push(block_ticks(operations, &op.block))?;
    }
    Ok(())
}

/// Adds what the bodies of passive objects cost.
fn add_libraries(
    operations: &Operations<'_>,
    passive: &[FlatPassive],
    into: &mut Vec<u32>,
) -> Result<(), NoMemory>
    requires { IsKnown operations.now }
    ensures { OnOk result (into.new.items ≡ into.old.items
        ++ flat_map (λ l. map (body_cost (design operations.now)) l.ops) (map library_of passive.now)) }
{
    'passive: for object in passive {
        add_bodies(operations, object.ops.as_slice(), into)?;
    }
    Ok(())
}

/// Adds what the bodies of protected objects cost.
fn add_shared(
    operations: &Operations<'_>,
    shared: &[FlatShared],
    into: &mut Vec<u32>,
) -> Result<(), NoMemory>
    requires { IsKnown operations.now }
    ensures { OnOk result (into.new.items ≡ into.old.items
        ++ flat_map (λ g. map (body_cost (design operations.now)) g.ops) (map guarded_of shared.now)) }
{
    'shared: for object in shared {
        add_bodies(operations, object.ops.as_slice(), into)?;
    }
    Ok(())
}

/// Adds what the activations of threads cost.
fn add_threads(bases: &[Base], into: &mut Vec<u32>) -> Result<(), NoMemory>
    ensures { OnOk result (into.new.items ≡ into.old.items ++ map (λ b. b.cost) bases.now) }
{
    'bases: for base in bases {
        into.push(base.cost)?;
    }
    Ok(())
}

/// What each body of an operation and each activation of a thread costs, in ticks, or 1,000,000,001 where it is more: bodies of passive
/// objects, then of protected ones, then threads, in the order of the flat design. It is for a design of which it isn't known whether
/// its costs are within 1,000,000,000, as soundness asks. `NoMemory` comes for want of memory alone.
pub fn part_costs(alloc: Global, facts: &Facts<'_>) -> Result<Vec<u32>, NoMemory>
    ensures { IfOk result (λ v. v.items ≡ part_costs (design_of facts.now)) }
{
    let flat = facts.operations.flat;
    let mut costs = Vec::new(alloc);
    add_libraries(&facts.operations, flat.passive.as_slice(), &mut costs)?;
    add_shared(&facts.operations, flat.shared.as_slice(), &mut costs)?;
    add_threads(facts.bases.as_slice(), &mut costs)?;
    Ok(costs)
}
