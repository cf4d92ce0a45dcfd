ghost use Rattle.std.specs.Prelude.{◌≡◌, IfOk};
ghost use Rattle.ods_tree.specs.Trees.{guarded_of, library_of, thread_of, timing_of};
ghost use Rattle.ada_tree.specs.Trees.{form_of, unit_of};
ghost use Rattle.guarantee.specs.Programs.{passive_unit, shared_unit, thread_form, thread_unit};

use crate::copying::{copy_data, copy_ops};
use ada_tree::{Form, Unit};
use ods_tree::{FlatPassive, FlatShared, FlatThread, Timing};
use seq_tree::NoMemory;
use std::alloc::Global;

/// The unit of a passive object.
pub(crate) fn passive_unit(alloc: Global, object: &FlatPassive) -> Result<Unit, NoMemory>
    ensures { IfOk result (λ u. unit_of u ≡ passive_unit (library_of object.now)) }
{
    let name = object.name.copy(alloc)?;
    let ops = copy_ops(alloc, &object.ops)?;
    Ok(Unit {
        name,
        form: Form::Passive { ops },
    })
}

/// The unit of a protected object with this ceiling.
pub(crate) fn shared_unit(
    alloc: Global,
    object: &FlatShared,
    ceiling: u32,
) -> Result<Unit, NoMemory>
    ensures { IfOk result (λ u. unit_of u ≡ shared_unit (guarded_of object.now, ceiling)) }
{
    let name = object.name.copy(alloc)?;
    let vars = copy_data(alloc, &object.vars)?;
    let ops = copy_ops(alloc, &object.ops)?;
    Ok(Unit {
        name,
        form: Form::Shared { ceiling, vars, ops },
    })
}

/// What the unit of a thread is, with its priority and the ceiling of its control structure.
fn thread_form(
    alloc: Global,
    priority: u32,
    ceiling: u32,
    thread: &FlatThread,
) -> Result<Form, NoMemory>
    ensures { IfOk result (λ f. form_of f ≡ thread_form priority ceiling (timing_of thread.now.timing) (thread_of thread.now)) }
{
    let vars = copy_data(alloc, &thread.vars)?;
    let block = thread.block.copy(alloc)?;
    match &thread.timing {
        Timing::Cyclic { period, offset } => Ok(Form::Cyclic {
            priority,
            offset: *offset,
            period: *period,
            vars,
            block,
        }),
        Timing::Sporadic {
            op,
            separation,
            jitter,
        } => {
            let op = op.copy(alloc)?;
            Ok(Form::Sporadic {
                priority,
                ceiling,
                op,
                separation: *separation,
                jitter: jitter.unwrap_or(0),
                external: jitter.is_some(),
                vars,
                block,
            })
        }
    }
}

/// The unit of a thread, with its priority and the ceiling of its control structure.
pub(crate) fn thread_unit(
    alloc: Global,
    priority: u32,
    ceiling: u32,
    thread: &FlatThread,
) -> Result<Unit, NoMemory>
    ensures { IfOk result (λ u. unit_of u ≡ thread_unit (thread_of thread.now, (priority, ceiling))) }
{
    let name = thread.name.copy(alloc)?;
    let form = thread_form(alloc, priority, ceiling, thread)?;
    Ok(Unit { name, form })
}
