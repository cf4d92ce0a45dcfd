ghost use Rattle.std.specs.Prelude.{◌≡◌, is_some, option_map};
ghost use Rattle.seq_tree.specs.Calls.{same_op};
ghost use Rattle.law_walks.specs.Walks.{same_value, sees_enter, sees_print, sees_request};
ghost use Rattle.seq_eval.specs.Actions.{action_of};
ghost use Rattle.seq_eval.specs.Scripts.{sees_exit};

use crate::action::Action;
use seq_tree::{Name, OpName};

/// Whether these names are those of an operation.
#[tactic(auto, using(crate::proofs::Shared::Reading::names))]
fn is_same_op(object: &Name, op: &Name, other: &OpName) -> bool
    ensures { result ≡ same_op (record { object = object.now; op = op.now }) other.now }
{
    object.same(&other.object) && op.same(&other.op)
}

/// Whether two values are there and the same, or neither is there.
fn is_same_value(one: Option<u32>, other: Option<u32>) -> bool
    ensures { result ≡ same_value one other }
{
    match (one, other) {
        (None, None) => true,
        (Some(a), Some(b)) => a == b,
        (None, Some(_)) | (Some(_), None) => false,
    }
}

/// The values that an action hands in where it enters an operation.
pub(crate) fn entry_values<'a>(action: &'a Action, object: &Name, op: &Name) -> Option<&'a [u32]>
    ensures { option_map (λ r. r.now) result ≡ sees_enter (record { object = object.now; op = op.now }) (action_of action.entry.now) }
{
    match action {
        Action::Enter { name, values } => {
            if is_same_op(object, op, name) {
                Some(values.as_slice())
            } else {
                None
            }
        }
        _ => None,
    }
}

/// The values that an action hands out where it leaves an operation.
pub(crate) fn exit_values<'a>(action: &'a Action, object: &Name, op: &Name) -> Option<&'a [u32]>
    ensures { option_map (λ r. r.now) result ≡ sees_exit (record { object = object.now; op = op.now }) (action_of action.entry.now) }
{
    match action {
        Action::Leave { name, values } => {
            if is_same_op(object, op, name) {
                Some(values.as_slice())
            } else {
                None
            }
        }
        _ => None,
    }
}

/// Whether an action requests a task by an operation with this value.
pub(crate) fn asks(action: &Action, object: &Name, op: &Name, asked: Option<u32>) -> bool
    ensures { result ≡ is_some (sees_request (record { object = object.now; op = op.now }) asked (action_of action.now)) }
{
    match action {
        Action::Request { name, value } => is_same_op(object, op, name)
            && is_same_value(asked, *value),
        _ => false,
    }
}

/// Whether an action prints this value.
pub(crate) fn prints(action: &Action, printed: u32) -> bool
    ensures { result ≡ is_some (sees_print printed (action_of action.now)) }
{
    match action {
        Action::Print(value) => printed == *value,
        _ => false,
    }
}
