ghost use Rattle.std.specs.Prelude.{◌≡◌, ◌<◌, Some, length, option_map, slice_get};
ghost use Rattle.ada_tree.specs.Bodies.{heads};
ghost use Rattle.ada_tree.specs.Trees.{form_of, program_of, unit_of};
ghost use Rattle.trace_tree.specs.Lines.{unit_name};
ghost use Rattle.trace_tree.specs.Placed.{IsUnit};

use ada_tree::{AdaProgram, Form, Unit};
use seq_tree::Name;

/// The unit at a place.
#[tactic(auto, using(crate::proofs::Readings::unit_steps))]
pub(crate) fn unit_at(program: &AdaProgram, unit: u32) -> &Unit
    requires { IsUnit (program_of program.now) unit }
    ensures unit { slice_get (program_of program.now).units unit ≡ Some (unit_of result.now) }
    ensures name { unit_name (program_of program.now) unit ≡ result.now.name }
{
    &program.units[unit as usize]
}

/// The name of the operation at a place of a unit. That of a sporadic unit is its request operation.
#[tactic(auto, using(crate::proofs::Readings::name_steps))]
pub(crate) fn op_name(form: &Form, op: u32) -> &Name
    requires { op < length (heads (form_of form.now)) }
    ensures { option_map (λ h. h.name) (slice_get (heads (form_of form.now)) op) ≡ Some result.now }
{
    match form {
        Form::Passive { ops } => &ops[op as usize].sig.name,
        Form::Shared { ops, .. } => &ops[op as usize].sig.name,
        Form::Cyclic { .. } => unreachable!(),
        Form::Sporadic { op, .. } => &op.name,
    }
}
