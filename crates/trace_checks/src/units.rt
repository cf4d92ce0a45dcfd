ghost use Rattle.std.specs.Prelude.{◌≡◌, ◌<◌, Some, is_some, length, slice_get};
ghost use Rattle.ada_tree.specs.Trees.{form_of, program_of, unit_of};
ghost use Rattle.law_trace_places.specs.Places.{task_at};
ghost use Rattle.ada_tree.specs.Programs.{is_task};

use ada_tree::{AdaProgram, Form, Unit};

/// The unit at a place.
#[tactic(auto, using(crate::proofs::UnitSteps::unit_steps))]
pub(crate) fn unit_at(program: &AdaProgram, unit: u32) -> &Unit
    requires { unit < length (program_of program.now).units }
    ensures { slice_get (program_of program.now).units unit ≡ Some (unit_of result.now) }
{
    &program.units[unit as usize]
}

/// Whether a unit is a task.
fn is_task(form: &Form) -> bool
    ensures { result ≡ is_task (form_of form.now) }
{
    match form {
        Form::Passive { .. } => false,
        Form::Shared { .. } => false,
        Form::Cyclic { .. } => true,
        Form::Sporadic { .. } => true,
    }
}

/// Whether the unit at a place is a task.
#[tactic(auto, using(crate::proofs::UnitSteps::task_steps))]
pub(crate) fn has_task(program: &AdaProgram, unit: u32) -> bool
    requires { unit < length (program_of program.now).units }
    ensures { result ≡ is_some (task_at (program_of program.now) unit) }
{
    is_task(&unit_at(program, unit).form)
}
