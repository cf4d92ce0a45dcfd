ghost use Rattle.std.specs.Prelude.{◌≡◌, ◌<◌, ◌&&◌, ℕ, List, Some, is_some, length, option_and_then, option_map, slice_get};
ghost use Rattle.ada_tree.specs.Bodies.{heads};
ghost use Rattle.ada_tree.specs.Programs.{Program};
ghost use Rattle.ada_tree.specs.Rules.{MeetsRules};
ghost use Rattle.ada_tree.specs.Trees.{form_of, program_of, unit_of};
ghost use Rattle.seq_tree.specs.Calls.{same_op};
ghost use Rattle.seq_tree.specs.Names.{same_name};
ghost use Rattle.law_walks.specs.Walks.{same_value, sees_enter, sees_print, sees_request};
ghost use Rattle.seq_eval.specs.Scripts.{sees_exit};
ghost use Rattle.guarantee.specs.Events.{named_event, op_at};
ghost use Rattle.trace_tree.specs.Placed.{IsOp, IsPlaced, IsUnit};
ghost use Rattle.trace_scripts.specs.Scripts.{action_by, asked_name};

use crate::names::{op_name, unit_at};
use crate::services::is_same;
use ada_tree::{AdaProgram, Form, Unit};
use seq_tree::Name;
use trace_tree::Event;

/// Whether an event shows an action.
pub(crate) fn shows(event: &Event) -> bool
    ensures { (p : Program) → is_some (action_by p (named_event p event.now)) ≡ result }
{
    match event {
        Event::Enter { .. } | Event::Leave { .. } | Event::Request { .. } | Event::Print { .. } =>
            true,
        Event::Release { .. }
        | Event::Arrive { .. }
        | Event::End { .. }
        | Event::Stop { .. }
        | Event::Horizon { .. } => false,
    }
}

/// The name of the operation by which a unit is requested, and its own where there is none.
fn asked_op(unit: &Unit) -> &Name
    ensures { result.now ≡ asked_name unit.now.name (form_of unit.now.form) }
{
    match &unit.form {
        Form::Passive { .. } | Form::Shared { .. } | Form::Cyclic { .. } => &unit.name,
        Form::Sporadic { op, .. } => &op.name,
    }
}

/// Whether these names are those by which a unit is requested.
fn is_asked(unit: &Unit, object: &Name, op: &Name) -> bool
    ensures { result ≡ (same_name object.now unit.now.name && same_name op.now (asked_name unit.now.name (form_of unit.now.form))) }
{
    is_same(object, &unit.name) && is_same(op, asked_op(unit))
}

/// Whether these names are those of the operation at a place.
#[tactic(auto, using(crate::proofs::Readings::read_steps))]
fn is_op(program: &AdaProgram, unit: u32, op: u32, object: &Name, name: &Name) -> bool
    requires unit { IsUnit (program_of program.now) unit }
    requires op { IsOp (program_of program.now) unit op }
    ensures { result ≡ same_op (record { object = object.now; op = name.now }) (op_at (program_of program.now) unit op) }
{
    let owner = unit_at(program, unit);
    let is_object = is_same(object, &owner.name);
    let is_name = is_same(name, op_name(&owner.form, op));
    is_object && is_name
}

/// Whether two values are there and the same, or neither is there.
fn is_same_value(one: Option<u32>, other: Option<u32>) -> bool
    ensures { result ≡ same_value one other }
{
    match (one, other) {
        (None, None) => true,
        (Some(a), Some(b)) => a == b,
        (None, Some(_)) | (Some(_), None) => false,
    }
}

/// The values that an event hands in where it enters an operation.
pub(crate) fn entry_values<'a>(
    program: &AdaProgram,
    event: &'a Event,
    object: &Name,
    op: &Name,
) -> Option<&'a [u32]>
    requires { IsPlaced (program_of program.now) event.now }
    ensures { option_map (λ r. r.now) result ≡ option_and_then (sees_enter (record { object = object.now; op = op.now }))
        (action_by (program_of program.now) (named_event (program_of program.now) event.entry.now)) }
{
    match event {
        Event::Enter {
            unit,
            op: place,
            values,
            ..
        } => {
            if is_op(program, *unit, *place, object, op) {
                Some(values.as_slice())
            } else {
                None
            }
        }
        Event::Release { .. }
        | Event::Arrive { .. }
        | Event::Leave { .. }
        | Event::Request { .. }
        | Event::Print { .. }
        | Event::End { .. }
        | Event::Stop { .. }
        | Event::Horizon { .. } => None,
    }
}

/// The values that an event hands out where it leaves an operation.
pub(crate) fn exit_values<'a>(
    program: &AdaProgram,
    event: &'a Event,
    object: &Name,
    op: &Name,
) -> Option<&'a [u32]>
    requires { IsPlaced (program_of program.now) event.now }
    ensures { option_map (λ r. r.now) result ≡ option_and_then (sees_exit (record { object = object.now; op = op.now }))
        (action_by (program_of program.now) (named_event (program_of program.now) event.entry.now)) }
{
    match event {
        Event::Leave {
            unit,
            op: place,
            values,
            ..
        } => {
            if is_op(program, *unit, *place, object, op) {
                Some(values.as_slice())
            } else {
                None
            }
        }
        Event::Release { .. }
        | Event::Arrive { .. }
        | Event::Enter { .. }
        | Event::Request { .. }
        | Event::Print { .. }
        | Event::End { .. }
        | Event::Stop { .. }
        | Event::Horizon { .. } => None,
    }
}

/// Whether an event requests a task by an operation with this value.
pub(crate) fn asks(
    program: &AdaProgram,
    event: &Event,
    object: &Name,
    op: &Name,
    asked: Option<u32>,
) -> bool
    requires rules { MeetsRules (program_of program.now) }
    requires placed { IsPlaced (program_of program.now) event.now }
    ensures { result ≡ is_some (option_and_then (sees_request (record { object = object.now; op = op.now }) asked)
        (action_by (program_of program.now) (named_event (program_of program.now) event.now))) }
{
    match event {
        Event::Request { target, value, .. } => {
            let unit = unit_at(program, *target);
            let is_named = is_asked(unit, object, op);
            let is_value = is_same_value(asked, *value);
            is_named && is_value
        }
        Event::Release { .. }
        | Event::Arrive { .. }
        | Event::Enter { .. }
        | Event::Leave { .. }
        | Event::Print { .. }
        | Event::End { .. }
        | Event::Stop { .. }
        | Event::Horizon { .. } => false,
    }
}

/// Whether an event prints this value.
pub(crate) fn prints(_program: &AdaProgram, event: &Event, printed: u32) -> bool
    ensures { result ≡ is_some (option_and_then (sees_print printed)
        (action_by (program_of _program.now) (named_event (program_of _program.now) event.now))) }
{
    match event {
        Event::Print { value, .. } => printed == *value,
        Event::Release { .. }
        | Event::Arrive { .. }
        | Event::Enter { .. }
        | Event::Leave { .. }
        | Event::Request { .. }
        | Event::End { .. }
        | Event::Stop { .. }
        | Event::Horizon { .. } => false,
    }
}
