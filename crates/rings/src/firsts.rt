ghost use Rattle.std.specs.Prelude.{◌≡◌, IfOk, false, get_or};
ghost use Rattle.rings.specs.Graphs.{is_step};
ghost use Rattle.rings.specs.Reached.{IsFirstOnRing, TellsRing, leads};

use crate::components::{any_falls, first_level, ranks_of};
use crate::graph::Graph;
use seq_tree::NoMemory;
use std::alloc::Global;

/// Whether a node is marked.
fn is_marked(marks: &[bool], node: usize) -> bool
    ensures { result ≡ get_or marks.now node false }
{
    match marks.get(node) {
        None => false,
        Some(mark) => *mark,
    }
}

/// Whether a node leads back to itself.
fn is_on_ring(alloc: Global, graph: &Graph, node: usize) -> Result<bool, NoMemory>
    ensures { IfOk result (TellsRing (leads graph.now) node) }
{
    let reached = graph.reached(alloc, graph.targets(node))?;
    Ok(is_marked(reached.as_slice(), node))
}

/// The first node of a graph that leads back to itself, by a search for each node.
fn first_by_search(
    alloc: Global,
    count: usize,
    edges: &[(usize, usize)],
) -> Result<Option<usize>, NoMemory>
    ensures { IfOk result (IsFirstOnRing (is_step count edges.now)) }
{
    let graph = Graph::new(alloc, count, edges)?;
    'nodes: for node in 0..count {
        if is_on_ring(alloc, &graph, node)? {
            return Ok(Some(node));
        }
    }
    Ok(None)
}

/// The first of this many nodes, by number, from which a path of one edge or more leads back to it. An edge to another number
/// counts for nothing. It takes near-linear time.
pub fn first_on_ring(
    alloc: Global,
    count: usize,
    edges: &[(usize, usize)],
) -> Result<Option<usize>, NoMemory>
    ensures { IfOk result (IsFirstOnRing (is_step count edges.now)) }
{
    let graph = Graph::new(alloc, count, edges)?;
    let ranks = ranks_of(alloc, &graph, count, edges)?;
    if any_falls(ranks.as_slice(), count, edges) {
        return first_by_search(alloc, count, edges);
    }
    match first_level(ranks.as_slice(), count, edges) {
        None => Ok(None),
        Some(node) => {
            if is_on_ring(alloc, &graph, node)? {
                return Ok(Some(node));
            }
            first_by_search(alloc, count, edges)
        }
    }
}
