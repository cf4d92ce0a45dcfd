ghost use Rattle.std.specs.Prelude.{◌≡◌, ◌++◌, IfOk, OnOk, is_some, map, option_map, slice_get};
ghost use Rattle.name_sets.specs.Places.{place_in};
ghost use Rattle.ods_tree.specs.Trees.{design_of};
ghost use Rattle.design_rules.specs.Broken.{V09Starts};
ghost use Rattle.design_rules.specs.Rings.{thread_objects};
ghost use Rattle.design_rules.specs.Rules.{RingedThread, StartRing};
ghost use Rattle.ods_index.specs.Calling.{calls_of};
ghost use Rattle.ods_index.specs.Indexing.{IsIndex};
ghost use Rattle.ods_index.specs.Judging.{Judges, PassesBefore, Tells};
ghost use Rattle.ods_index.specs.Nodes.{node_name, node_object};
ghost use Rattle.ods_index.specs.Walking.{object_of};
ghost use Rattle.ods_calls.specs.Spotted.{spot_in};
ghost use Rattle.ods_calls.specs.Starting.{source_place, start_edges, starts_step, thread_edges};
ghost use Rattle.rings.specs.Reached.{IsFirstOnRing};

use crate::keys::{any_sporadic, targets_of};
use crate::spots::{Aim, Part, Spots, held_edges, spots_of};
use crate::starts::{thread_starts, threads_of};
use call_graph::add_edges;
use name_sets::Places;
use ods_index::{Broken, Index, Links, OpCalls};
use ods_tree::Node;
use rings::first_on_ring;
use seq_tree::NoMemory;
use std::alloc::Global;

/// The place from which the edges of a thread go, where one of its name is sporadic. No other is started, so that it is on no ring.
#[tactic(auto, using(ods_index::proofs::Shared::WalkSteps::node_steps))]
fn source_of(spots: &Spots<'_>, targets: &Places<'_>, node: &Node) -> Option<usize>
    ensures { result ≡ source_place (spot_in spots.now) (λ n. is_some (place_in targets.now n)) (object_of node.now) }
{
    match targets.get(&node.name) {
        None => None,
        Some(_) => spots.thread(&node.name),
    }
}

/// Adds the edges of a thread.
fn add_thread<'a>(
    alloc: Global,
    links: &Links<'a>,
    spots: &Spots<'a>,
    targets: &Places<'a>,
    node: &'a Node,
    edges: &mut Vec<(usize, usize)>,
) -> Result<(), NoMemory>
    ensures { OnOk result (edges.new.items ≡ edges.old.items
        ++ thread_edges (design_of links.now.design.now) (spot_in spots.now) (λ n. is_some (place_in targets.now n)) (object_of node.entry.now)) }
{
    match source_of(spots, targets, node) {
        None => Ok(()),
        Some(from) => {
            let calls = thread_starts(alloc, links, node)?;
            let threads = Aim {
                spots,
                part: Part::Threads,
            };
            add_edges(&threads, Some(from), calls.as_slice(), edges)?;
            let ops = Aim {
                spots,
                part: Part::Operations,
            };
            add_edges(&ops, Some(from), calls.as_slice(), edges)
        }
    }
}

/// The edges of bodies and of threads.
fn start_edges<'a>(
    alloc: Global,
    links: &Links<'a>,
    spots: &Spots<'a>,
    targets: &Places<'a>,
    calls: &[OpCalls<'a>],
    threads: &[&'a Node],
) -> Result<Vec<(usize, usize)>, NoMemory>
    ensures { IfOk result (λ v. v.items ≡ start_edges (design_of links.now.design.now) (spot_in spots.now)
        (λ n. is_some (place_in targets.now n)) (map calls_of calls.now) (map node_object threads.entry.now)) }
{
    let mut edges = held_edges(alloc, spots, calls)?;
    'threads: for node in threads {
        add_thread(alloc, links, spots, targets, node, &mut edges)?;
    }
    Ok(edges)
}

/// The first place of the graph of starts that is on a ring.
fn first_ringed<'a>(
    alloc: Global,
    index: &Index<'a>,
    threads: &[&'a Node],
) -> Result<Option<usize>, NoMemory>
    requires indexed { IsIndex index.now }
    requires threads { map node_object threads.now ≡ thread_objects (design_of index.now.design.now) }
    ensures { IfOk result (IsFirstOnRing (starts_step (design_of index.entry.now.design.now))) }
{
    let calls = index.calls.as_slice();
    let listed = spots_of(alloc, threads, calls)?;
    let spots = Spots::new(alloc, listed.as_slice())?;
    let targets = targets_of(alloc, threads)?;
    let edges = start_edges(alloc, &index.links, &spots, &targets, calls, threads)?;
    first_on_ring(alloc, listed.len(), edges.as_slice())
}

/// Tells a thread on a ring of starts, by its place.
#[tactic(auto, using(ods_index::proofs::Shared::WalkSteps::node_steps))]
fn tell_thread(alloc: Global, threads: &[&Node], place: usize) -> Result<(), Broken>
    ensures { Tells result (option_map (λ n. V09Starts (node_name n)) (slice_get threads.now place)) }
{
    let Some(node) = threads.get(place) else {
        return Ok(());
    };
    let thread = node.name.copy(alloc)?;
    Err(Broken::V09Starts { thread })
}

/// V09: tells the first thread on a ring of starts. Where no thread is sporadic, none is started.
pub fn first_ringed_thread(alloc: Global, index: &Index<'_>) -> Result<(), Broken>
    requires indexed { IsIndex index.now }
    requires before { PassesBefore (design_of index.now.design.now) StartRing }
    ensures { Judges (RingedThread (design_of index.entry.now.design.now)) result }
{
    let threads = threads_of(alloc, index.objects.as_slice())?;
    if !any_sporadic(threads.as_slice()) {
        return Ok(());
    }
    match first_ringed(alloc, index, threads.as_slice())? {
        None => Ok(()),
        Some(place) => tell_thread(alloc, threads.as_slice(), place),
    }
}
