ghost use Rattle.std.specs.Prelude.{◌≡◌, ◌∷◌, ◌++◌, [], Some, IfOk, OnOk, map, option_map, slice_get};
ghost use Rattle.ods_tree.specs.Trees.{design_of};
ghost use Rattle.design_rules.specs.Broken.{V09Objects};
ghost use Rattle.design_rules.specs.Rules.{RingedObject};
ghost use Rattle.ods_calls.specs.Guarded.{guards_among, guards_step};
ghost use Rattle.ods_index.specs.Indexing.{IsIndex};
ghost use Rattle.ods_index.specs.Judging.{Judges, Tells};
ghost use Rattle.ods_index.specs.Nodes.{node_name, node_object};
ghost use Rattle.ods_index.specs.Walking.{object_of, standing_of};
ghost use Rattle.rings.specs.Reached.{IsFirstOnRing};

use crate::edges::edges_of;
use ods_index::{Broken, Index, Standing, is_protected, is_terminal, places_of};
use ods_tree::Node;
use rings::first_on_ring;
use seq_tree::NoMemory;
use std::alloc::Global;

/// Adds an object, where it is protected and has no children.
fn add_guard<'a>(standing: &Standing<'a>, into: &mut Vec<&'a Node>) -> Result<(), NoMemory>
    ensures { OnOk result (map node_object into.new.items ≡ map node_object into.old.items ++ guards_among (standing_of standing.entry.now ∷ [])) }
{
    let node = standing.node;
    if !is_terminal(node) {
        return Ok(());
    }
    if !is_protected(node.kind) {
        return Ok(());
    }
    into.push(node)?;
    Ok(())
}

/// The protected ones of these objects that have no children, in order.
fn guards_of<'a>(alloc: Global, objects: &[Standing<'a>]) -> Result<Vec<&'a Node>, NoMemory>
    ensures { IfOk result (λ v. map node_object v.items ≡ guards_among (map standing_of objects.entry.now)) }
{
    let mut guards = Vec::new(alloc);
    'objects: for standing in objects {
        add_guard(standing, &mut guards)?;
    }
    Ok(guards)
}

/// Tells an object on a ring of calls.
#[tactic(auto, using(ods_index::proofs::Shared::WalkSteps::node_steps))]
fn tell_node(alloc: Global, node: &Node) -> Result<(), Broken>
    ensures { Tells result (Some (V09Objects (object_of node.entry.now).name)) }
{
    let object = node.name.copy(alloc)?;
    Err(Broken::V09Objects { object })
}

/// Tells an object on a ring of calls, by its place.
fn tell_object(alloc: Global, guards: &[&Node], place: usize) -> Result<(), Broken>
    ensures { Tells result (option_map (λ n. V09Objects (node_name n)) (slice_get guards.now place)) }
{
    match guards.get(place) {
        None => Ok(()),
        Some(node) => tell_node(alloc, node),
    }
}

/// The place of the first of these objects that is on a ring of calls.
fn first_ringed<'a>(
    alloc: Global,
    index: &Index<'a>,
    guards: &[&'a Node],
) -> Result<Option<usize>, NoMemory>
    requires { IsIndex index.now }
    ensures { IfOk result (IsFirstOnRing (guards_step (design_of index.entry.now.design.now) (map node_object guards.entry.now))) }
{
    let places = places_of(alloc, guards)?;
    let edges = edges_of(alloc, &places, index.calls.as_slice())?;
    first_on_ring(alloc, guards.len(), edges.as_slice())
}

/// V09: tells the first protected object on a ring of calls.
pub fn first_ringed_object(alloc: Global, index: &Index<'_>) -> Result<(), Broken>
    requires { IsIndex index.now }
    ensures { Judges (RingedObject (design_of index.entry.now.design.now)) result }
{
    let guards = guards_of(alloc, index.objects.as_slice())?;
    match first_ringed(alloc, index, guards.as_slice())? {
        None => Ok(()),
        Some(place) => tell_object(alloc, guards.as_slice(), place),
    }
}
