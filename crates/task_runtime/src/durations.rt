ghost use Rattle.std.specs.Prelude.{◌≡◌, ◌++◌, ◌∷◌, [], IfOk, OnOk};
ghost use Rattle.arrivals_tree.specs.Arriving.{durations};
ghost use Rattle.task_runtime.specs.Libraries.{handed};

use arrivals_tree::WorkList;
use seq_tree::NoMemory;
use std::alloc::Global;

/// Adds the durations of a list, where they are handed to the task at this place among the units.
fn add_list(ticks: &mut Vec<u32>, list: &WorkList, task: u32) -> Result<(), NoMemory>
    ensures { OnOk result (ticks.new.items ≡ ticks.old.items ++ durations (handed (list.now ∷ [])) task) }
{
    if list.task != task {
        return Ok(());
    }
    ticks.extend_from_slice(list.ticks.as_slice())?;
    Ok(())
}

/// The durations that are handed to the task at this place among the units, in order. A failed allocation is the one error.
pub fn joined(alloc: Global, work: &[WorkList], task: u32) -> Result<Vec<u32>, NoMemory>
    ensures { IfOk result (λ v. v.items ≡ durations (handed work.now) task) }
{
    let mut ticks = Vec::new(alloc);
    'lists: for list in work {
        add_list(&mut ticks, list, task)?;
    }
    Ok(ticks)
}
