ghost use Rattle.std.specs.Prelude.{◌≡◌, List, [], map, IfSome};
ghost use Rattle.arrivals_tree.specs.declared.arrivals.WorkList.{WorkList};
ghost use Rattle.seq_tree.specs.Names.{Name as NameBytes};
ghost use Rattle.seq_tree.specs.Trees.{operation_of};
ghost use Rattle.ada_tree.specs.Trees.{unit_of};
ghost use Rattle.task_runtime.specs.Callable.{calls_room, ops_room};
ghost use Rattle.task_runtime.specs.Libraries.{system_from};
ghost use Rattle.task_runtime.specs.Written.{reserve};

use crate::thread::{Thread, params_len};
use ada_tree::{Form, Unit};
use seq_tree::OpText;

/// The room for a call of each of these operations of a unit with so many data, and None where no number tells it.
fn ops_room(ops: &[OpText], data: usize) -> Option<usize>
    ensures { IfSome result (λ room. (object : NameBytes) → ops_room [] object «data» (map operation_of ops.now) ≡ room) }
{
    let each = data.checked_add(194)?;
    let mut room: usize = 0;
    'ops: for op in ops {
        room = room
            .checked_add(op.sig.params.len())?
            .checked_add(op.locals.len())?
            .checked_add(each)?;
    }
    Some(room)
}

/// The room for a call of each operation of these units that has a body, and None where no number tells it.
fn calls_room(units: &[Unit]) -> Option<usize>
    ensures { IfSome result (λ room. (work : List WorkList) → calls_room [] (system_from work (map unit_of units.now)) ≡ room) }
{
    let mut room: usize = 0;
    'units: for unit in units {
        match &unit.form {
            Form::Passive { ops } => room = room.checked_add(ops_room(ops.as_slice(), 0)?)?,
            Form::Shared { vars, ops, .. } => {
                room = room.checked_add(ops_room(ops.as_slice(), vars.len())?)?;
            }
            Form::Cyclic { .. } => {}
            Form::Sporadic { .. } => {}
        }
    }
    Some(room)
}

/// The room that is enough for every run of a task, and None where no number tells it.
pub fn room_of(thread: Thread) -> Option<usize>
    ensures { IfSome result (λ room. reserve thread.entry ≡ room) }
{
    let calls = calls_room(thread.units)?;
    let own = thread
        .data
        .len()
        .checked_add(params_len(thread.timing))?
        .checked_add(196)?;
    let room = own.checked_add(calls)?;
    Some(room)
}
