ghost use Rattle.std.specs.Prelude.{◌≡◌, ◌∷◌, ◌++◌, ◌||◌, [], IfOk, OnOk, filter, is_some, map};
ghost use Rattle.std.specs.List.{list_any};
ghost use Rattle.seq_tree.specs.Calls.{same_op};
ghost use Rattle.seq_tree.specs.Names.{Name as NameTree};
ghost use Rattle.seq_tree.specs.Trees.{block_of};
ghost use Rattle.name_sets.specs.Places.{place_in};
ghost use Rattle.seq_cost.specs.Different.{call_of};
ghost use Rattle.call_graph.specs.Once.{caller_of};
ghost use Rattle.ods_tree.specs.Links.{resolve};
ghost use Rattle.ods_tree.specs.Trees.{design_of};
ghost use Rattle.design_rules.specs.Lookups.{is_sporadic};
ghost use Rattle.ods_index.specs.Calling.{calls_of};
ghost use Rattle.ods_index.specs.Nodes.{node_object};
ghost use Rattle.ods_index.specs.Walking.{object_of};
ghost use Rattle.ods_calls.specs.Held.{is_held};
ghost use Rattle.ods_calls.specs.Keys.{has_target, held_caller, is_target, key, keys_in, thread_keys};

use call_graph::{Caller, listed_calls};
use name_sets::Places;
use ods_index::{Links, OpCalls, Required, is_protected, is_sporadic};
use ods_tree::Node;
use seq_cost::Call;
use seq_tree::{Block, NoMemory};
use std::alloc::Global;

/// Adds the name of a thread, where it is sporadic.
#[tactic(auto, using(ods_index::proofs::Shared::WalkSteps::node_steps, crate::proofs::TargetSteps::target_steps))]
fn add_target<'a>(node: &'a Node, names: &mut Places<'a>) -> Result<(), NoMemory>
    ensures { OnOk result ((n : NameTree) → is_some (place_in names.new n)
        ≡ (is_some (place_in names.old n) || is_target n (object_of node.entry.now))) }
{
    if !is_sporadic(node.kind) {
        return Ok(());
    }
    names.put(&node.name, 0)
}

/// A table of the names of sporadic threads.
pub(crate) fn targets_of<'a>(alloc: Global, threads: &[&'a Node]) -> Result<Places<'a>, NoMemory>
    ensures { IfOk result (λ t. (n : NameTree) → is_some (place_in t n) ≡ has_target (map node_object threads.entry.now) n) }
{
    let mut names = Places::new(alloc);
    'threads: for node in threads {
        add_target(node, &mut names)?;
    }
    Ok(names)
}

/// Whether one of these threads is sporadic. Where none is, none is started and none is requested.
#[tactic(auto, using(ods_index::proofs::Shared::WalkSteps::node_steps))]
pub(crate) fn any_sporadic(threads: &[&Node]) -> bool
    ensures { result ≡ list_any (λ o. is_sporadic o.kind) (map node_object threads.now) }
{
    'threads: for node in threads {
        if is_sporadic(node.kind) {
            return true;
        }
    }
    false
}

/// The name by which the way of an operation is found: of all operations of a target one.
fn key_of<'a>(targets: &Places<'a>, meant: Call<'a>) -> Call<'a>
    ensures { call_of result ≡ key targets.now (call_of meant.entry) }
{
    match targets.get(meant.object) {
        None => meant,
        Some(_) => Call {
            object: meant.object,
            op: meant.object,
        },
    }
}

/// Adds the name of what a call means, where it is required.
fn add_key<'a>(
    targets: &Places<'a>,
    links: &Links<'a>,
    needs: &Required<'a>,
    call: &Call<'a>,
    into: &mut Vec<Call<'a>>,
) -> Result<(), NoMemory>
    ensures { OnOk result (map call_of into.new.items ≡ map call_of into.old.items
        ++ map (λ c. key targets.now (resolve (design_of links.now.design.now) c))
        (filter (λ c. list_any (same_op c) needs.now.ops.now) (call_of call.entry.now ∷ []))) }
{
    if !needs.has(call) {
        return Ok(());
    }
    let meant = links.resolve(*call);
    into.push(key_of(targets, meant))?;
    Ok(())
}

/// Adds the names of what calls mean, where they are required.
fn add_keys<'a>(
    targets: &Places<'a>,
    links: &Links<'a>,
    needs: &Required<'a>,
    calls: &[Call<'a>],
    into: &mut Vec<Call<'a>>,
) -> Result<(), NoMemory>
    ensures { OnOk result (map call_of into.new.items ≡ map call_of into.old.items
        ++ map (λ c. key targets.now (resolve (design_of links.now.design.now) c))
        (filter (λ c. list_any (same_op c) needs.now.ops.now) (map call_of calls.entry.now))) }
{
    'calls: for call in calls {
        add_key(targets, links, needs, call, into)?;
    }
    Ok(())
}

/// The names of what a block calls, as it is required, those inside loops twice.
fn keys_of<'a>(
    alloc: Global,
    targets: &Places<'a>,
    links: &Links<'a>,
    needs: &Required<'a>,
    block: &'a Block,
) -> Result<Vec<Call<'a>>, NoMemory>
    ensures { IfOk result (λ v. map call_of v.items
        ≡ keys_in targets.now (design_of links.now.design.now) needs.now.ops.now (block_of block.entry.now)) }
{
    let calls = listed_calls(alloc, block)?;
    let mut keys = Vec::new(alloc);
    add_keys(targets, links, needs, calls.as_slice(), &mut keys)?;
    Ok(keys)
}

/// Adds a body, where its object is protected.
fn add_body<'a>(
    alloc: Global,
    targets: &Places<'a>,
    links: &Links<'a>,
    body: &OpCalls<'a>,
    into: &mut Vec<Caller<'a>>,
) -> Result<(), NoMemory>
    ensures { OnOk result (map caller_of into.new.items ≡ map caller_of into.old.items
        ++ map (held_caller targets.now (design_of links.now.design.now)) (filter is_held (calls_of body.entry.now ∷ []))) }
{
    if !is_protected(body.kind) {
        return Ok(());
    }
    let calls = keys_of(alloc, targets, links, &body.needs, body.block)?;
    let from = key_of(
        targets,
        Call {
            object: body.object,
            op: body.op,
        },
    );
    into.push(Caller {
        from: Some(from),
        calls,
    })?;
    Ok(())
}

/// Adds those of protected objects of these bodies.
pub(crate) fn add_callers<'a>(
    alloc: Global,
    targets: &Places<'a>,
    links: &Links<'a>,
    calls: &[OpCalls<'a>],
    into: &mut Vec<Caller<'a>>,
) -> Result<(), NoMemory>
    ensures { OnOk result (map caller_of into.new.items ≡ map caller_of into.old.items
        ++ map (held_caller targets.now (design_of links.now.design.now)) (filter is_held (map calls_of calls.entry.now))) }
{
    'calls: for body in calls {
        add_body(alloc, targets, links, body, into)?;
    }
    Ok(())
}

/// The names of what the thread of an object calls.
#[tactic(auto, using(ods_index::proofs::Shared::WalkSteps::node_steps, crate::proofs::KeySteps::thread_laws))]
pub(crate) fn thread_keys<'a>(
    alloc: Global,
    targets: &Places<'a>,
    links: &Links<'a>,
    node: &'a Node,
) -> Result<Vec<Call<'a>>, NoMemory>
    ensures { IfOk result (λ v. map call_of v.items
        ≡ thread_keys targets.now (design_of links.now.design.now) (object_of node.entry.now)) }
{
    match &node.thread {
        None => Ok(Vec::new(alloc)),
        Some(block) => {
            let needs = Required::new(alloc, node.needs.as_slice())?;
            keys_of(alloc, targets, links, &needs, block)
        }
    }
}
