ghost use Rattle.std.specs.Prelude.{◌≡◌, ◌∷◌, ◌++◌, [], IfOk, OnOk, filter, flat_map, map};
ghost use Rattle.ods_tree.specs.Trees.{provided_of};
ghost use Rattle.ods_tree.specs.Walk.{is_terminal};
ghost use Rattle.ods_index.specs.OwnOps.{own_ops};
ghost use Rattle.ods_index.specs.Walking.{standing_of};
ghost use Rattle.seq_cost.specs.Different.{call_of};

use crate::kinds::is_terminal;
use crate::walk::Standing;
use ods_tree::Provided;
use seq_cost::Call;
use seq_tree::{Name, NoMemory};
use std::alloc::Global;

/// Adds the operations that an object provides.
fn add_provided<'a>(
    ops: &mut Vec<Call<'a>>,
    object: &'a Name,
    provides: &'a [Provided],
) -> Result<(), NoMemory>
    ensures { OnOk result (map call_of ops.new.items ≡ map call_of ops.old.items
        ++ map (λ p. record { object = object.entry.now; op = p.sig.name }) (map provided_of provides.entry.now)) }
{
    'provides: for provided in provides {
        ops.push(Call {
            object,
            op: &provided.sig.name,
        })?;
    }
    Ok(())
}

/// Adds the operations of an object, where it has no children.
fn add_ops<'a>(ops: &mut Vec<Call<'a>>, standing: &Standing<'a>) -> Result<(), NoMemory>
    ensures { OnOk result (map call_of ops.new.items ≡ map call_of ops.old.items
        ++ flat_map own_ops (filter is_terminal (standing_of standing.entry.now ∷ []))) }
{
    if !is_terminal(standing.node) {
        return Ok(());
    }
    add_provided(ops, &standing.node.name, standing.node.provides.as_slice())
}

/// The operations of the terminal ones of these objects, in order, and of each in order of providing.
pub fn ops_of<'a>(alloc: Global, objects: &[Standing<'a>]) -> Result<Vec<Call<'a>>, NoMemory>
    ensures { IfOk result (λ v. map call_of v.items ≡ flat_map own_ops (filter is_terminal (map standing_of objects.entry.now))) }
{
    let mut ops = Vec::new(alloc);
    'objects: for standing in objects {
        add_ops(&mut ops, standing)?;
    }
    Ok(ops)
}
