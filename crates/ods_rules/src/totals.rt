ghost use Rattle.std.specs.Prelude.{◌≡◌, IfOk, length};
ghost use Rattle.ods_tree.specs.Walk.{objects};
ghost use Rattle.design_rules.specs.Rings.{thread_objects};
ghost use Rattle.ods_rules.specs.Checks.{checked_design};

use crate::checked::Checked;
use ods_calls::threads_of;
use ods_index::objects_of;
use seq_tree::NoMemory;
use std::alloc::Global;

/// How many objects a design has, and how many of them are terminal and have threads.
pub fn count(alloc: Global, checked: &Checked) -> Result<(usize, usize), NoMemory>
    ensures { IfOk result (λ r. (r.0 ≡ length (objects (checked_design checked.now)))
        × (r.1 ≡ length (thread_objects (checked_design checked.now)))) }
{
    let objects = objects_of(alloc, checked.design())?;
    let threads = threads_of(alloc, objects.as_slice())?;
    Ok((objects.len(), threads.len()))
}
