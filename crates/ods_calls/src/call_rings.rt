ghost use Rattle.std.specs.Prelude.{IfOk, map, option_map, slice_get};
ghost use Rattle.ods_tree.specs.Trees.{design_of};
ghost use Rattle.design_rules.specs.Broken.{V09Calls};
ghost use Rattle.design_rules.specs.Rules.{CallRing, RingedOp};
ghost use Rattle.ods_index.specs.Indexing.{IsIndex};
ghost use Rattle.ods_index.specs.Judging.{Judges, PassesBefore, Tells};
ghost use Rattle.ods_calls.specs.Graphed.{calls_step};
ghost use Rattle.rings.specs.Reached.{IsFirstOnRing};
ghost use Rattle.seq_cost.specs.Different.{call_of};

use crate::edges::edges_of;
use call_graph::op_places;
use ods_index::{Broken, Index, ops_of};
use rings::first_on_ring;
use seq_cost::Call;
use seq_tree::{NoMemory, OpName};
use std::alloc::Global;

/// Tells an operation on a ring of calls, by its place.
fn tell_op(alloc: Global, ops: &[Call<'_>], place: usize) -> Result<(), Broken>
    ensures { Tells result (option_map (λ o. V09Calls (call_of o)) (slice_get ops.now place)) }
{
    let Some(op) = ops.get(place) else {
        return Ok(());
    };
    let object = op.object.copy(alloc)?;
    let op = op.op.copy(alloc)?;
    Err(Broken::V09Calls {
        name: OpName { object, op },
    })
}

/// The place of the first of these operations that is on a ring of calls.
fn first_ringed<'a>(
    alloc: Global,
    index: &Index<'a>,
    ops: &[Call<'a>],
) -> Result<Option<usize>, NoMemory>
    requires { IsIndex index.now }
    ensures { IfOk result (IsFirstOnRing (calls_step (design_of index.entry.now.design.now) (map call_of ops.entry.now))) }
{
    let places = op_places(alloc, ops)?;
    let edges = edges_of(alloc, &places, index.calls.as_slice())?;
    first_on_ring(alloc, ops.len(), edges.as_slice())
}

/// V09: tells the first operation on a ring of calls.
pub fn first_ringed_op(alloc: Global, index: &Index<'_>) -> Result<(), Broken>
    requires indexed { IsIndex index.now }
    requires before { PassesBefore (design_of index.now.design.now) CallRing }
    ensures { Judges (RingedOp (design_of index.entry.now.design.now)) result }
{
    let ops = ops_of(alloc, index.objects.as_slice())?;
    match first_ringed(alloc, index, ops.as_slice())? {
        None => Ok(()),
        Some(place) => tell_op(alloc, ops.as_slice(), place),
    }
}
