ghost use Rattle.std.specs.Prelude.{◌≡◌, ◌∷◌, ◌++◌, [], IfOk, OnOk, flat_map, map};
ghost use Rattle.seq_tree.specs.Trees.{operation_of};
ghost use Rattle.seq_tree.specs.declared.tree.OpName.{OpName};
ghost use Rattle.seq_cost.specs.Different.{call_of};
ghost use Rattle.name_sets.specs.FirstPlaces.{op_place_from};
ghost use Rattle.name_sets.specs.Tables.{at};
ghost use Rattle.ada_tree.specs.Trees.{form_of, unit_of};
ghost use Rattle.ada_tree.specs.Uses.{passive_ops, shared_ops};
ghost use Rattle.ada_rules.specs.Callers.{caller_edges, caller_of, names, op_caller, ops_in, unit_callers};

use ada_tree::{Form, Unit};
use call_graph::{CallPlaces, add_edges, op_places};
use name_sets::OpTable;
use seq_cost::{Call, written_calls};
use seq_tree::{Name, NoMemory, OpText};
use std::alloc::Global;

/// Which operations are meant.
#[derive(Clone, Copy)]
pub(crate) enum Sort {
    /// Those of passive units.
    Passive,
    /// Those of protected units.
    Shared,
}

/// An operation, and what its body calls.
#[derive(Drop)]
pub(crate) struct OpCalls<'a> {
    pub(crate) name: Call<'a>,
    pub(crate) calls: Vec<Call<'a>>,
}

/// The passive operations of a unit.
fn passive_ops<'a>(form: &'a Form) -> &'a [OpText]
    ensures { map operation_of result.now ≡ passive_ops (form_of form.entry.now) }
{
    match form {
        Form::Passive { ops } => ops.as_slice(),
        Form::Shared { .. } => &[],
        Form::Cyclic { .. } => &[],
        Form::Sporadic { .. } => &[],
    }
}

/// The protected operations of a unit.
fn shared_ops<'a>(form: &'a Form) -> &'a [OpText]
    ensures { map operation_of result.now ≡ shared_ops (form_of form.entry.now) }
{
    match form {
        Form::Passive { .. } => &[],
        Form::Shared { ops, .. } => ops.as_slice(),
        Form::Cyclic { .. } => &[],
        Form::Sporadic { .. } => &[],
    }
}

/// The operations of this sort of a unit.
fn ops_in<'a>(sort: Sort, form: &'a Form) -> &'a [OpText]
    ensures { map operation_of result.now ≡ ops_in sort (form_of form.entry.now) }
{
    match sort {
        Sort::Passive => passive_ops(form),
        Sort::Shared => shared_ops(form),
    }
}

/// Adds an operation with the calls of its body.
fn add_op<'a>(
    alloc: Global,
    object: &'a Name,
    op: &'a OpText,
    into: &mut Vec<OpCalls<'a>>,
) -> Result<(), NoMemory>
    ensures { OnOk result (map caller_of into.new.items ≡ map caller_of into.old.items
        ++ op_caller object.entry.now (operation_of op.entry.now) ∷ []) }
{
    let calls = written_calls(alloc, &op.block)?;
    let name = Call {
        object,
        op: &op.sig.name,
    };
    into.push(OpCalls { name, calls })?;
    Ok(())
}

/// Adds operations with the calls of their bodies.
fn add_ops<'a>(
    alloc: Global,
    object: &'a Name,
    ops: &'a [OpText],
    into: &mut Vec<OpCalls<'a>>,
) -> Result<(), NoMemory>
    ensures { OnOk result (map caller_of into.new.items ≡ map caller_of into.old.items
        ++ map (op_caller object.entry.now) (map operation_of ops.entry.now)) }
{
    'ops: for op in ops {
        add_op(alloc, object, op, into)?;
    }
    Ok(())
}

/// The operations of this sort of units, with the calls of their bodies.
pub(crate) fn callers_of<'a>(
    alloc: Global,
    sort: Sort,
    units: &'a [Unit],
) -> Result<Vec<OpCalls<'a>>, NoMemory>
    ensures { IfOk result (λ v. map caller_of v.items ≡ flat_map (unit_callers sort) (map unit_of units.entry.now)) }
{
    let mut callers = Vec::new(alloc);
    'units: for unit in units {
        add_ops(alloc, &unit.name, ops_in(sort, &unit.form), &mut callers)?;
    }
    Ok(callers)
}

/// The names of operations.
fn names_of<'a>(alloc: Global, callers: &[OpCalls<'a>]) -> Result<Vec<Call<'a>>, NoMemory>
    ensures { IfOk result (λ v. map call_of v.items ≡ names (map caller_of callers.entry.now)) }
{
    let mut all = Vec::new(alloc);
    'callers: for caller in callers {
        all.push(caller.name)?;
    }
    Ok(all)
}

/// The places of operations by their names: of those of one name the first.
pub(crate) fn places_of<'a>(
    alloc: Global,
    callers: &[OpCalls<'a>],
) -> Result<OpTable<'a, usize>, NoMemory>
    ensures { IfOk result (λ t. (n : OpName) → at t n ≡ op_place_from 0 (names (map caller_of callers.entry.now)) n) }
{
    let all = names_of(alloc, callers)?;
    op_places(alloc, all.as_slice())
}

/// The edges between places: one for each call in a body.
pub(crate) fn edges_of<P: CallPlaces>(
    alloc: Global,
    places: &P,
    callers: &[OpCalls<'_>],
) -> Result<Vec<(usize, usize)>, NoMemory>
    ensures { IfOk result (λ v. v.items ≡ caller_edges (P.places places.now) (map caller_of callers.now)) }
{
    let mut edges = Vec::new(alloc);
    'callers: for caller in callers {
        let from = places.place(caller.name.object, caller.name.op);
        add_edges(places, from, caller.calls.as_slice(), &mut edges)?;
    }
    Ok(edges)
}
