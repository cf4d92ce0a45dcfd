ghost use Rattle.std.specs.Prelude.{◌≡◌, ◌∷◌, ◌++◌, [], IfOk, OnOk, filter_map, flat_map, map, option_map};
ghost use Rattle.ods_tree.specs.Trees.{design_of};
ghost use Rattle.call_graph.specs.Entries.{entry_at, work_of};
ghost use Rattle.ods_calls.specs.Costed.{body_entry, body_work, request_served, services_in};
ghost use Rattle.ods_index.specs.Calling.{calls_of};
ghost use Rattle.ods_index.specs.Indexing.{IsIndex};
ghost use Rattle.ods_index.specs.Walking.{standing_of};

use call_graph::{Body, Served};
use ods_index::{Index, OpCalls, Standing, is_sporadic, is_terminal};
use ods_tree::Kind;
use seq_tree::NoMemory;
use std::alloc::Global;

/// What a call of an operation runs by its body, where its object is of this kind, passive or protected.
fn body_in<'a>(kind: Kind, calls: &OpCalls<'a>) -> Option<Body<'a>>
    ensures { option_map work_of result ≡ body_work kind (calls_of calls.entry.now).kind (calls_of calls.entry.now).block }
{
    match (kind, calls.kind) {
        (Kind::Passive, Kind::Passive) => Some(Body::Plain(calls.block)),
        (Kind::Protected, Kind::Protected) => Some(Body::Protected(calls.block)),
        _ => None,
    }
}

/// Adds an operation by its body, where its object is of this kind.
fn add_body<'a>(kind: Kind, calls: &OpCalls<'a>, into: &mut Vec<Served<'a>>) -> Result<(), NoMemory>
    ensures { OnOk result (map entry_at into.new.items ≡ map entry_at into.old.items
        ++ filter_map (body_entry kind) (calls_of calls.entry.now ∷ [])) }
{
    match body_in(kind, calls) {
        None => Ok(()),
        Some(body) => {
            into.push(Served {
                object: calls.object,
                op: calls.op,
                body,
            })?;
            Ok(())
        }
    }
}

/// Adds the operations of objects of a kind by their bodies.
fn add_bodies<'a>(
    kind: Kind,
    bodies: &[OpCalls<'a>],
    into: &mut Vec<Served<'a>>,
) -> Result<(), NoMemory>
    ensures { OnOk result (map entry_at into.new.items ≡ map entry_at into.old.items
        ++ filter_map (body_entry kind) (map calls_of bodies.entry.now)) }
{
    'bodies: for calls in bodies {
        add_body(kind, calls, into)?;
    }
    Ok(())
}

/// Adds the request of a sporadic object with a thread and without children.
fn add_request<'a>(standing: &Standing<'a>, into: &mut Vec<Served<'a>>) -> Result<(), NoMemory>
    ensures { OnOk result (map entry_at into.new.items ≡ map entry_at into.old.items ++ request_served (standing_of standing.entry.now)) }
{
    let node = standing.node;
    if !is_terminal(node) || !is_sporadic(node.kind) || node.thread.is_none() {
        return Ok(());
    }
    match node.provides.as_slice().first() {
        None => Ok(()),
        Some(provided) => {
            into.push(Served {
                object: &node.name,
                op: &provided.sig.name,
                body: Body::Asked,
            })?;
            Ok(())
        }
    }
}

/// Adds the requests of objects.
fn add_requests<'a>(objects: &[Standing<'a>], into: &mut Vec<Served<'a>>) -> Result<(), NoMemory>
    ensures { OnOk result (map entry_at into.new.items ≡ map entry_at into.old.items
        ++ flat_map request_served (map standing_of objects.entry.now)) }
{
    'objects: for standing in objects {
        add_request(standing, into)?;
    }
    Ok(())
}

/// The operations of a design that may be called: those of passive objects and of protected ones by their bodies, and the requests.
pub(crate) fn services_of<'a>(alloc: Global, index: &Index<'a>) -> Result<Vec<Served<'a>>, NoMemory>
    requires { IsIndex index.now }
    ensures { IfOk result (λ v. map entry_at v.items ≡ services_in (design_of index.entry.now.design.now)) }
{
    let mut services = Vec::new(alloc);
    add_bodies(Kind::Passive, index.calls.as_slice(), &mut services)?;
    add_bodies(Kind::Protected, index.calls.as_slice(), &mut services)?;
    add_requests(index.objects.as_slice(), &mut services)?;
    Ok(services)
}
