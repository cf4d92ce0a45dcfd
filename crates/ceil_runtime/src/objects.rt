ghost use Rattle.std.specs.Prelude.{◌≡◌, ◌+◌, ◌++◌, ◌≤◌, ◌<◌, ◌^◌, length, map, vec_len, vec_capacity, IfOk};
ghost use Rattle.seq_tree.specs.Variables.{written};
ghost use Rattle.task_runtime.specs.Stacked.{vars_of};
ghost use Rattle.ada_tree.specs.Trees.{unit_of};
ghost use Rattle.ceil_runtime.specs.Objects.{AddsObject, first_object, shown};
ghost use Rattle.machine.specs.Systems.{objects_from};

use crate::object::Object;
use ada_tree::{Form, Unit};
use seq_tree::{Datum, NoMemory};
use std::alloc::Global;
use task_runtime::Var;

/// Adds the data of an object at their written values.
fn fill_data<'a>(vars: &mut Vec<Var<'a>>, data: &'a [Datum])
    requires { vec_len vars.old + length «data».now ≤ vec_capacity vars.old }
    ensures vars { vars_of vars.new.items ≡ written «data».entry.now ++ vars_of vars.old.items }
    ensures len { vec_len vars.new ≡ vec_len vars.old + length «data».entry.now }
    ensures room { vec_capacity vars.new ≡ vec_capacity vars.old }
{
    let mut at = data.len();
    'data: while at > 0 {
        at -= 1;
        vars.push_reserved(Var {
            name: &data[at].name,
            value: data[at].value,
        });
    }
}

/// Adds the protected object of a unit, where it is one, with its data as they are written. The one error is a failed allocation, or
/// an object with more operations than an event has places for.
fn add_object<'a>(
    alloc: Global,
    objects: &mut Vec<Object<'a>>,
    place: u32,
    unit: &'a Unit,
) -> Result<(), NoMemory>
    requires room { vec_len objects.old < vec_capacity objects.old }
    ensures adds { IfOk result (λ done. AddsObject place unit.entry.now objects.old.items objects.new.items) }
    ensures capacity { vec_capacity objects.new ≡ vec_capacity objects.old }
{
    match &unit.form {
        Form::Shared { ceiling, vars, ops } => {
            if ops.len() > u32::MAX as usize {
                return Err(NoMemory);
            }
            let written = vars.as_slice();
            let mut data = Vec::with_capacity(alloc, written.len())?;
            fill_data(&mut data, written);
            objects.push_reserved(Object {
                unit: place,
                ceiling: *ceiling,
                ops: ops.len(),
                written,
                data,
            });
        }
        Form::Passive { .. } => {}
        Form::Cyclic { .. } => {}
        Form::Sporadic { .. } => {}
    }
    Ok(())
}

/// The protected objects among units, in their order. The one error is a failed allocation, or an object with more operations than an
/// event has places for.
pub fn objects_in<'a>(alloc: Global, units: &'a [Unit]) -> Result<Vec<Object<'a>>, NoMemory>
    requires few { length units.now < 2 ^ 32 }
    ensures { IfOk result (λ os. map shown os.items ≡ map first_object (objects_from 0 (map unit_of units.entry.now))) }
{
    let mut objects = Vec::with_capacity(alloc, units.len())?;
    let mut place: u32 = 0;
    'units: for unit in units {
        add_object(alloc, &mut objects, place, unit)?;
        place += 1;
    }
    Ok(objects)
}
