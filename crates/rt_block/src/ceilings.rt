ghost use Rattle.std.specs.Prelude.{◌≡◌, ◌++◌, IfOk, OnOk, flat_map, length, map, zip};
ghost use Rattle.seq_tree.specs.Trees.{operation_of};
ghost use Rattle.ods_tree.specs.Trees.{flat_of, guarded_of, library_of, thread_of};
ghost use Rattle.analysis.specs.Ceilings.{ranks_for};
ghost use Rattle.analysis.specs.Trees.{ranks_of};
ghost use Rattle.rt_block.specs.Ceilings.{AreLevels, asked_ceiling, for_each};

use analysis::Ranking;
use ods_tree::{Flat, FlatPassive, FlatShared, FlatThread, Timing};
use seq_tree::{NoMemory, OpText};
use std::alloc::Global;

/// Priorities by the places of threads, and ceilings by the places of operations: 0 for a plain procedure.
#[derive(Drop)]
pub(crate) struct Levels<'a> {
    pub(crate) priorities: &'a [u32],
    pub(crate) ceilings: Vec<u32>,
}

/// Adds the ceiling of an object for each of its operations.
fn add_ceilings(ceiling: u32, ops: &[OpText], into: &mut Vec<u32>) -> Result<(), NoMemory>
    ensures { OnOk result (into.new.items ≡ into.old.items ++ for_each ceiling (map operation_of ops.now)) }
{
    'ops: for _op in ops {
        into.push(ceiling)?;
    }
    Ok(())
}

/// Adds 0 for each operation of passive objects.
fn add_libraries(passive: &[FlatPassive], into: &mut Vec<u32>) -> Result<(), NoMemory>
    ensures { OnOk result (into.new.items ≡ into.old.items ++ flat_map (λ l. for_each 0 l.ops) (map library_of passive.now)) }
{
    'passive: for object in passive {
        add_ceilings(0, object.ops.as_slice(), into)?;
    }
    Ok(())
}

/// Adds the ceilings of protected objects for their operations.
fn add_shared(shared: &[FlatShared], ceilings: &[u32], into: &mut Vec<u32>) -> Result<(), NoMemory>
    requires { length ceilings.now ≡ length shared.now }
    ensures { OnOk result (into.new.items ≡ into.old.items ++ flat_map (λ g. for_each g.1 g.0.ops) (zip (map guarded_of shared.now) ceilings.now)) }
{
    'shared: for (i, object) in shared.iter().enumerate() {
        add_ceilings(ceilings[i], object.ops.as_slice(), into)?;
    }
    Ok(())
}

/// Adds the ceiling of a thread's control structure, where it is sporadic.
fn add_control(thread: &FlatThread, ceiling: u32, into: &mut Vec<u32>) -> Result<(), NoMemory>
    ensures { OnOk result (into.new.items ≡ into.old.items ++ asked_ceiling (thread_of thread.now).timing ceiling) }
{
    match &thread.timing {
        Timing::Cyclic { .. } => Ok(()),
        Timing::Sporadic { .. } => {
            into.push(ceiling)?;
            Ok(())
        }
    }
}

/// Adds the ceilings of the control structures of sporadic threads.
fn add_controls(
    threads: &[FlatThread],
    ceilings: &[u32],
    into: &mut Vec<u32>,
) -> Result<(), NoMemory>
    requires { length ceilings.now ≡ length threads.now }
    ensures { OnOk result (into.new.items ≡ into.old.items
        ++ flat_map (λ t. asked_ceiling t.0.timing t.1) (zip (map thread_of threads.now) ceilings.now)) }
{
    'threads: for (i, thread) in threads.iter().enumerate() {
        add_control(thread, ceilings[i], into)?;
    }
    Ok(())
}

/// The priorities of this ranking, with the ceilings at which operations run.
pub(crate) fn levels_of<'a>(
    alloc: Global,
    flat: &Flat,
    order: &'a Ranking,
) -> Result<Levels<'a>, NoMemory>
    requires { ranks_of order.now ≡ ranks_for (flat_of flat.now) order.now.threads.items }
    ensures levels { IfOk result (AreLevels (flat_of flat.now)) }
    ensures order { IfOk result (λ l. l.priorities.now ≡ order.entry.now.threads.items) }
{
    let mut ceilings = Vec::new(alloc);
    add_libraries(flat.passive.as_slice(), &mut ceilings)?;
    add_shared(
        flat.shared.as_slice(),
        order.shared.as_slice(),
        &mut ceilings,
    )?;
    add_controls(
        flat.threads.as_slice(),
        order.obcs.as_slice(),
        &mut ceilings,
    )?;
    Ok(Levels {
        priorities: order.threads.as_slice(),
        ceilings,
    })
}
