ghost use Rattle.std.specs.Prelude.{◌≡◌, ◌++◌, IfOk, OnOk};
ghost use Rattle.seq_tree.specs.Trees.{block_of};
ghost use Rattle.ods_tree.specs.Trees.{guarded_of, thread_of};
ghost use Rattle.rt_order.specs.Called.{called_objects, names_called, names_of, names_used};

use ods_tree::{FlatShared, FlatThread};
use seq_cost::written_calls;
use seq_tree::{Block, Name, NoMemory};
use std::alloc::Global;

/// Adds the names of the objects that a block calls, in order, as often as they are called.
fn add_called<'a>(alloc: Global, block: &'a Block, into: &mut Vec<&'a Name>) -> Result<(), NoMemory>
    ensures { OnOk result (names_of into.new.items ≡ names_of into.old.items ++ called_objects (block_of block.entry.now)) }
{
    let calls = written_calls(alloc, block)?;
    'calls: for call in &calls {
        into.push(call.object)?;
    }
    Ok(())
}

/// The names that a thread uses: its own, which is that of its control structure, and those of the objects that its block calls.
pub(crate) fn names_used<'a>(
    alloc: Global,
    thread: &'a FlatThread,
) -> Result<Vec<&'a Name>, NoMemory>
    ensures { IfOk result (λ v. names_of v.items ≡ names_used (thread_of thread.entry.now)) }
{
    let mut names = Vec::new(alloc);
    names.push(&thread.name)?;
    add_called(alloc, &thread.block, &mut names)?;
    Ok(names)
}

/// The names of the objects that the operations of a protected object call, and of the threads that they request.
pub(crate) fn names_called<'a>(
    alloc: Global,
    object: &'a FlatShared,
) -> Result<Vec<&'a Name>, NoMemory>
    ensures { IfOk result (λ v. names_of v.items ≡ names_called (guarded_of object.entry.now)) }
{
    let mut names = Vec::new(alloc);
    'ops: for op in &object.ops {
        add_called(alloc, &op.block, &mut names)?;
    }
    Ok(names)
}
