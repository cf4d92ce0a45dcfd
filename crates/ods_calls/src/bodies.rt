ghost use Rattle.std.specs.Prelude.{◌≡◌, ◌∷◌, ◌++◌, [], IfOk, OnOk, filter, flat_map, map};
ghost use Rattle.seq_tree.specs.declared.tree.OpName.{OpName as OpTree};
ghost use Rattle.ods_index.specs.Calling.{calls_of};
ghost use Rattle.ods_calls.specs.Held.{is_held};
ghost use Rattle.ods_calls.specs.Requested.{bodies_at, held_named};

use name_sets::OpTable;
use ods_index::{OpCalls, is_protected};
use seq_tree::NoMemory;
use std::alloc::Global;

/// A body of a protected operation. The prover has rules for slices of such a struct, and none for slices of the references in it.
#[derive(Clone, Copy)]
pub(crate) struct Body<'k, 'a> {
    pub(crate) calls: &'k OpCalls<'a>,
}

/// The bodies of protected operations by the names of these.
pub(crate) type Bodies<'k, 'a> = OpTable<'a, Vec<Body<'k, 'a>>>;

/// Adds a body behind those of its operation, where its object is protected.
#[tactic(auto, unfolding(crate::specs::Requested::bodies_at))]
fn add_body<'k, 'a>(
    alloc: Global,
    table: &mut Bodies<'k, 'a>,
    calls: &'k OpCalls<'a>,
) -> Result<(), NoMemory>
    ensures { OnOk result ((n : OpTree) → bodies_at table.new n ≡ bodies_at table.old n
        ++ flat_map (held_named n) (filter is_held (calls_of calls.entry.now ∷ []))) }
{
    if !is_protected(calls.kind) {
        return Ok(());
    }
    let more = vec![in alloc; Body { calls }]?;
    table.extend(alloc, calls.object, calls.op, more)
}

/// Those of protected objects of these bodies, by the names of their operations.
#[tactic(auto, unfolding(crate::specs::Requested::bodies_at))]
pub(crate) fn table_of<'k, 'a>(
    alloc: Global,
    calls: &'k [OpCalls<'a>],
) -> Result<Bodies<'k, 'a>, NoMemory>
    ensures { IfOk result (λ t. (n : OpTree) → bodies_at t n ≡ flat_map (held_named n) (filter is_held (map calls_of calls.entry.now))) }
{
    let mut table = OpTable::new(alloc);
    'calls: for body in calls {
        add_body(alloc, &mut table, body)?;
    }
    Ok(table)
}
