ghost use Rattle.std.specs.Prelude.{◌≡◌, ◌∷◌, ◌++◌, [], IfOk, OnOk, filter, flat_map, map};
ghost use Rattle.std.specs.List.{list_any};
ghost use Rattle.seq_tree.specs.Calls.{same_op};
ghost use Rattle.seq_tree.specs.Trees.{block_of};
ghost use Rattle.seq_cost.specs.Different.{call_of};
ghost use Rattle.ods_tree.specs.Links.{resolve};
ghost use Rattle.ods_tree.specs.Trees.{body_of, design_of};
ghost use Rattle.ods_tree.specs.Walk.{is_terminal};
ghost use Rattle.ods_index.specs.Calling.{body_calls, calls_of, object_calls, meant_by};
ghost use Rattle.ods_index.specs.Walking.{object_of, standing_of};

use crate::kinds::is_terminal;
use crate::links::Links;
use crate::required::Required;
use crate::walk::Standing;
use ods_tree::{Kind, Node, OpBody};
use seq_cost::{Call, written_calls};
use seq_tree::{Block, Name, NoMemory};
use std::alloc::Global;
use std::rc::Rc;

/// What the body of an operation calls, as its object requires it, links followed. All bodies of an object share what it requires.
#[derive(Drop)]
pub struct OpCalls<'a> {
    pub kind: Kind,
    pub object: &'a Name,
    pub op: &'a Name,
    pub needs: Rc<Required<'a>>,
    pub block: &'a Block,
    pub meant: Vec<Call<'a>>,
}

/// Adds what a call means, where it is required.
fn add_meant<'a>(
    links: &Links<'a>,
    needs: &Required<'a>,
    call: &Call<'a>,
    into: &mut Vec<Call<'a>>,
) -> Result<(), NoMemory>
    ensures { OnOk result (map call_of into.new.items ≡ map call_of into.old.items
        ++ map (resolve (design_of links.now.design.now)) (filter (λ c. list_any (same_op c) needs.now.ops.now) (call_of call.entry.now ∷ []))) }
{
    if !needs.has(call) {
        return Ok(());
    }
    into.push(links.resolve(*call))?;
    Ok(())
}

/// Adds what calls mean, where they are required.
fn add_all_meant<'a>(
    links: &Links<'a>,
    needs: &Required<'a>,
    calls: &[Call<'a>],
    into: &mut Vec<Call<'a>>,
) -> Result<(), NoMemory>
    ensures { OnOk result (map call_of into.new.items ≡ map call_of into.old.items
        ++ map (resolve (design_of links.now.design.now)) (filter (λ c. list_any (same_op c) needs.now.ops.now) (map call_of calls.entry.now))) }
{
    'calls: for call in calls {
        add_meant(links, needs, call, into)?;
    }
    Ok(())
}

/// What a block of an object calls, as it is required, links followed.
pub fn meant_calls<'a>(
    alloc: Global,
    links: &Links<'a>,
    needs: &Required<'a>,
    block: &'a Block,
) -> Result<Vec<Call<'a>>, NoMemory>
    ensures { IfOk result (λ v. map call_of v.items
        ≡ meant_by (design_of links.now.design.now) needs.now.ops.now (block_of block.entry.now)) }
{
    let calls = written_calls(alloc, block)?;
    let mut meant = Vec::new(alloc);
    add_all_meant(links, needs, calls.as_slice(), &mut meant)?;
    Ok(meant)
}

/// Adds what a body of an object of this kind and name calls.
fn add_body<'a>(
    alloc: Global,
    links: &Links<'a>,
    kind: Kind,
    object: &'a Name,
    needs: &Rc<Required<'a>>,
    body: &'a OpBody,
    into: &mut Vec<OpCalls<'a>>,
) -> Result<(), NoMemory>
    ensures { OnOk result (map calls_of into.new.items ≡ map calls_of into.old.items
        ++ body_calls (design_of links.now.design.now) kind object.entry.now needs.now.value.ops.now (body_of body.entry.now) ∷ []) }
{
    let meant = meant_calls(alloc, links, needs, &body.block)?;
    into.push(OpCalls {
        kind,
        object,
        op: &body.name,
        needs: needs.clone()?,
        block: &body.block,
        meant,
    })?;
    Ok(())
}

/// Adds what the bodies of an object of this kind and name call.
fn add_bodies<'a>(
    alloc: Global,
    links: &Links<'a>,
    kind: Kind,
    object: &'a Name,
    needs: &Rc<Required<'a>>,
    bodies: &'a [OpBody],
    into: &mut Vec<OpCalls<'a>>,
) -> Result<(), NoMemory>
    ensures { OnOk result (map calls_of into.new.items ≡ map calls_of into.old.items
        ++ map (body_calls (design_of links.now.design.now) kind object.entry.now needs.now.value.ops.now) (map body_of bodies.entry.now)) }
{
    'bodies: for body in bodies {
        add_body(alloc, links, kind, object, needs, body, into)?;
    }
    Ok(())
}

/// Adds what the bodies of an object call.
#[tactic(auto, using(crate::proofs::Shared::WalkSteps::node_steps))]
fn add_own<'a>(
    alloc: Global,
    links: &Links<'a>,
    node: &'a Node,
    into: &mut Vec<OpCalls<'a>>,
) -> Result<(), NoMemory>
    ensures { OnOk result (map calls_of into.new.items ≡ map calls_of into.old.items
        ++ object_calls (design_of links.now.design.now) (object_of node.entry.now)) }
{
    let needs = Rc::new(alloc, Required::new(alloc, node.needs.as_slice())?)?;
    add_bodies(
        alloc,
        links,
        node.kind,
        &node.name,
        &needs,
        node.bodies.as_slice(),
        into,
    )
}

/// Adds what the bodies of an object call, where it has no children.
fn add_object<'a>(
    alloc: Global,
    links: &Links<'a>,
    standing: &Standing<'a>,
    into: &mut Vec<OpCalls<'a>>,
) -> Result<(), NoMemory>
    ensures { OnOk result (map calls_of into.new.items ≡ map calls_of into.old.items
        ++ flat_map (λ s. object_calls (design_of links.now.design.now) s.own) (filter is_terminal (standing_of standing.entry.now ∷ []))) }
{
    if !is_terminal(standing.node) {
        return Ok(());
    }
    add_own(alloc, links, standing.node, into)
}

/// What the bodies of the terminal ones of these objects call, in order.
pub(crate) fn op_calls<'a>(
    alloc: Global,
    links: &Links<'a>,
    objects: &[Standing<'a>],
) -> Result<Vec<OpCalls<'a>>, NoMemory>
    ensures { IfOk result (λ v. map calls_of v.items
        ≡ flat_map (λ s. object_calls (design_of links.now.design.now) s.own) (filter is_terminal (map standing_of objects.entry.now))) }
{
    let mut calls = Vec::new(alloc);
    'objects: for standing in objects {
        add_object(alloc, links, standing, &mut calls)?;
    }
    Ok(calls)
}
