ghost use Rattle.std.specs.Prelude.{◌≡◌, ◌∷◌, ◌++◌, [], ℕ, false, Some, IfOk, OnOk, filter, flat_map, get_or, length, map};
ghost use Rattle.std.specs.List.{list_any};
ghost use Rattle.seq_tree.specs.Names.{Name as NameTree};
ghost use Rattle.ods_tree.specs.Trees.{design_of};
ghost use Rattle.ods_tree.specs.Walk.{is_terminal};
ghost use Rattle.design_rules.specs.Lookups.{has_thread};
ghost use Rattle.design_rules.specs.Rings.{thread_objects};
ghost use Rattle.design_rules.specs.Rules.{Fitting};
ghost use Rattle.ods_index.specs.Calling.{calls_of, design_calls};
ghost use Rattle.ods_index.specs.Indexing.{IsIndex};
ghost use Rattle.ods_index.specs.Judging.{Passes};
ghost use Rattle.ods_index.specs.Nodes.{node_object};
ghost use Rattle.ods_calls.specs.Spotted.{spot_in};
ghost use Rattle.ods_calls.specs.Starting.{Spot, Thread, all_held, spot_from, spots_of, turned};
ghost use Rattle.rings.specs.Graphs.{is_step};
ghost use Rattle.rings.specs.Reached.{leads};
ghost use Rattle.ods_calls.specs.Spreading.{direct_calls, led, reaches};
ghost use Rattle.ods_index.specs.Walking.{object_of, standing_of};
ghost use Rattle.seq_cost.specs.Different.{call_of};

use crate::spots::{Aim, Part, Spots, held_edges, spots_of};
use call_graph::places_called;
use ods_index::{Index, Links, OpCalls, Required, Standing, has_thread, is_terminal, meant_calls};
use ods_tree::Node;
use rings::Graph;
use seq_cost::Call;
use seq_tree::NoMemory;
use std::alloc::Global;

/// Adds an object, where it has a thread and no children.
fn add_thread<'a>(standing: &Standing<'a>, into: &mut Vec<&'a Node>) -> Result<(), NoMemory>
    ensures { OnOk result (map (λ n. object_of n.now) into.new.items ≡ map (λ n. object_of n.now) into.old.items
        ++ map (λ s. s.own) (filter (λ s. has_thread s.own.kind) (filter is_terminal (standing_of standing.entry.now ∷ [])))) }
{
    let node = standing.node;
    if !is_terminal(node) {
        return Ok(());
    }
    if !has_thread(node.kind) {
        return Ok(());
    }
    into.push(node)?;
    Ok(())
}

/// The terminal ones of these objects that have threads, in order.
pub fn threads_of<'a>(alloc: Global, objects: &[Standing<'a>]) -> Result<Vec<&'a Node>, NoMemory>
    ensures { IfOk result (λ v. map (λ n. object_of n.now) v.items
        ≡ map (λ s. s.own) (filter (λ s. has_thread s.own.kind) (filter is_terminal (map standing_of objects.entry.now)))) }
{
    let mut threads = Vec::new(alloc);
    'objects: for standing in objects {
        add_thread(standing, &mut threads)?;
    }
    Ok(threads)
}

/// What the thread of an object calls itself.
#[tactic(auto, using(ods_index::proofs::Shared::WalkSteps::node_steps, crate::proofs::KeySteps::thread_laws))]
pub(crate) fn thread_starts<'a>(
    alloc: Global,
    links: &Links<'a>,
    node: &'a Node,
) -> Result<Vec<Call<'a>>, NoMemory>
    ensures { IfOk result (λ v. map call_of v.items ≡ direct_calls (design_of links.now.design.now) (object_of node.entry.now)) }
{
    match &node.thread {
        None => Ok(Vec::new(alloc)),
        Some(block) => {
            let needs = Required::new(alloc, node.needs.as_slice())?;
            meant_calls(alloc, links, &needs, block)
        }
    }
}

/// Adds what the thread of an object calls itself.
#[tactic(auto, using(crate::proofs::LoopEnds::added_laws))]
fn add_starts<'a>(
    alloc: Global,
    links: &Links<'a>,
    node: &'a Node,
    into: &mut Vec<Call<'a>>,
) -> Result<(), NoMemory>
    ensures { OnOk result (map call_of into.new.items ≡ map call_of into.old.items
        ++ direct_calls (design_of links.now.design.now) (object_of node.entry.now)) }
{
    let calls = thread_starts(alloc, links, node)?;
    into.extend_from_slice(calls.as_slice())?;
    Ok(())
}

/// What threads call themselves.
fn all_starts<'a>(
    alloc: Global,
    links: &Links<'a>,
    threads: &[&'a Node],
) -> Result<Vec<Call<'a>>, NoMemory>
    ensures { IfOk result (λ v. map call_of v.items
        ≡ flat_map (direct_calls (design_of links.now.design.now)) (map (λ t. object_of t.now) threads.entry.now)) }
{
    let mut calls = Vec::new(alloc);
    'threads: for node in threads {
        add_starts(alloc, links, node, &mut calls)?;
    }
    Ok(calls)
}

/// Edges the other way round.
fn turned_edges(alloc: Global, edges: &[(usize, usize)]) -> Result<Vec<(usize, usize)>, NoMemory>
    ensures { IfOk result (λ v. v.items ≡ map turned edges.now) }
{
    let mut turned = Vec::new(alloc);
    'edges: for edge in edges {
        turned.push((edge.1, edge.0))?;
    }
    Ok(turned)
}

/// What threads can start: a graph of what the calls of protected operations lead to.
#[derive(Drop)]
pub(crate) struct Starts<'k, 'a> {
    pub links: &'k Links<'a>,
    pub(crate) spots: Spots<'a>,
    count: usize,
    graph: Graph,
    ghost fits: { Passes (design_of links.now.design.now) Fitting },
    ghost placed: { (s : Spot) → spot_in spots s ≡ spot_from 0 (spots_of (design_of links.now.design.now)) s },
    ghost long: { count ≡ length (spots_of (design_of links.now.design.now)) },
    ghost counted: { graph.count ≡ length (spots_of (design_of links.now.design.now)) },
    ghost stepped: { (a b : ℕ) → leads graph a b ≡ is_step (length (spots_of (design_of links.now.design.now)))
        (all_held (spot_in spots) (design_calls (design_of links.now.design.now))) a b },
}

impl<'k, 'a> Starts<'k, 'a> {
    /// What these threads of a design can start.
    pub(crate) fn new(
        alloc: Global,
        index: &'k Index<'a>,
        threads: &[&'a Node],
    ) -> Result<Starts<'k, 'a>, NoMemory>
        requires indexed { IsIndex index.now }
        requires threads { map node_object threads.now ≡ thread_objects (design_of index.now.design.now) }
        requires fits { Passes (design_of index.now.design.now) Fitting }
        ensures { IfOk result (λ s. s.links.now.design.now ≡ index.now.design.now) }
    {
        let calls = index.calls.as_slice();
        let listed = spots_of(alloc, threads, calls)?;
        let spots = Spots::new(alloc, listed.as_slice())?;
        let edges = held_edges(alloc, &spots, calls)?;
        let count = listed.len();
        let graph = Graph::new(alloc, count, edges.as_slice())?;
        Ok(Starts {
            links: &index.links,
            spots,
            count,
            graph,
        })
    }

    /// The graph the other way round, by what bodies call.
    pub(crate) fn turned(&self, alloc: Global, calls: &[OpCalls<'a>]) -> Result<Graph, NoMemory>
        requires { map calls_of calls.now ≡ design_calls (design_of self.now.links.now.design.now) }
        ensures edges { IfOk result (λ g. (a b : ℕ) → leads g a b ≡ is_step (length (spots_of (design_of self.now.links.now.design.now)))
            (map turned (all_held (spot_in self.now.spots) (design_calls (design_of self.now.links.now.design.now)))) a b) }
        ensures count { IfOk result (λ g. g.count ≡ length (spots_of (design_of self.now.links.now.design.now))) }
    {
        let edges = held_edges(alloc, &self.spots, calls)?;
        let turned = turned_edges(alloc, edges.as_slice())?;
        Graph::new(alloc, self.count, turned.as_slice())
    }

    /// Marks of the places to which these calls lead.
    fn led_to(&self, alloc: Global, calls: &[Call<'a>]) -> Result<Vec<bool>, NoMemory>
        ensures { IfOk result (λ v. (n : NameTree) (p : ℕ) → spot_in self.now.spots (Thread n) ≡ Some p
            → get_or v.items p false ≡ list_any (led (design_of self.now.links.now.design.now) n) (map call_of calls.entry.now)) }
    {
        let spots = &self.spots;
        let threads = Aim {
            spots,
            part: Part::Threads,
        };
        let ops = Aim {
            spots,
            part: Part::Operations,
        };
        let mut starts = places_called(alloc, &threads, calls)?;
        let more = places_called(alloc, &ops, calls)?;
        starts.extend_from_slice(more.as_slice())?;
        self.graph.reached(alloc, starts.as_slice())
    }

    /// Marks of the places of the threads of whose objects a thread calls operations, itself or through protected ones.
    pub(crate) fn reached(&self, alloc: Global, node: &'a Node) -> Result<Vec<bool>, NoMemory>
        ensures { IfOk result (λ v. (n : NameTree) (p : ℕ) → spot_in self.now.spots (Thread n) ≡ Some p
            → get_or v.items p false ≡ reaches (design_of self.now.links.now.design.now) (object_of node.entry.now) n) }
    {
        let starts = thread_starts(alloc, self.links, node)?;
        self.led_to(alloc, starts.as_slice())
    }

    /// Those of which one of these threads does.
    pub(crate) fn reached_by_any(
        &self,
        alloc: Global,
        threads: &[&'a Node],
    ) -> Result<Vec<bool>, NoMemory>
        ensures { IfOk result (λ v. (n : NameTree) (p : ℕ) → spot_in self.now.spots (Thread n) ≡ Some p → get_or v.items p false
            ≡ list_any (λ o. reaches (design_of self.now.links.now.design.now) o n) (map node_object threads.entry.now)) }
    {
        let starts = all_starts(alloc, self.links, threads)?;
        self.led_to(alloc, starts.as_slice())
    }
}
