ghost use Rattle.std.specs.Prelude.{◌≡◌, ◌==◌, ◌&&◌, ℕ, get_or, nat_lt, not};
ghost use Rattle.std.specs.List.{list_any};
ghost use Rattle.rings.specs.Ranks.{falls, is_before, stays};

use crate::graph::Graph;
use crate::ranks::sources_of;
use crate::targets::Targets;
use seq_tree::NoMemory;
use std::alloc::Global;

/// What a walk does next.
#[derive(Clone, Copy)]
enum Turn {
    /// It comes to a node.
    Enter(usize),
    /// It leaves a node, behind all to which the edges of that lead.
    Leave(usize),
}

/// A walk along edges.
#[derive(Drop)]
struct Walk {
    /// Whether it came to each node.
    seen: Vec<bool>,
    /// What it still does, the next one last.
    turns: Vec<Turn>,
}

/// Marks a node, and answers whether that is new.
fn is_new(seen: &mut Vec<bool>, node: usize) -> bool {
    match seen.get_mut(node) {
        None => false,
        Some(mark) => {
            let new = !*mark;
            *mark = true;
            new
        }
    }
}

/// Comes to a node, where the walk didn't before.
fn enter(graph: &Graph, walk: &mut Walk, node: usize) -> Result<(), NoMemory> {
    if !is_new(&mut walk.seen, node) {
        return Ok(());
    }
    walk.turns.push(Turn::Leave(node))?;
    'targets: for target in graph.targets(node) {
        walk.turns.push(Turn::Enter(*target))?;
    }
    Ok(())
}

/// A walk that comes to all of this many nodes.
fn begun(alloc: Global, count: usize) -> Result<Walk, NoMemory> {
    let seen = vec![in alloc; false; count]?;
    let mut turns = Vec::new(alloc);
    'nodes: for node in 0..count {
        turns.push(Turn::Enter(node))?;
    }
    Ok(Walk { seen, turns })
}

/// Does what a walk does next.
fn go_on(
    graph: &Graph,
    walk: &mut Walk,
    turn: Turn,
    left: &mut Vec<usize>,
) -> Result<(), NoMemory> {
    match turn {
        Turn::Enter(node) => enter(graph, walk, node),
        Turn::Leave(node) => {
            left.push(node)?;
            Ok(())
        }
    }
}

/// The nodes in the order in which a walk leaves them. It comes to a node by each edge and once more, and leaves it once.
fn leaving_order(
    alloc: Global,
    graph: &Graph,
    count: usize,
    edges: usize,
) -> Result<Vec<usize>, NoMemory> {
    let mut walk = begun(alloc, count)?;
    let mut left = Vec::new(alloc);
    let most = edges.saturating_add(count).saturating_add(count);
    'turns: for _ in 0..most {
        let Some(turn) = walk.turns.pop() else {
            break;
        };
        go_on(graph, &mut walk, turn, &mut left)?;
    }
    Ok(left)
}

/// Gives a node this rank and takes it up, where it has none.
fn put_rank(
    ranks: &mut Vec<usize>,
    todo: &mut Vec<usize>,
    node: usize,
    rank: usize,
) -> Result<(), NoMemory> {
    if let Some(slot) = ranks.get_mut(node) {
        if *slot == 0 {
            *slot = rank;
            todo.push(node)?;
        }
    }
    Ok(())
}

/// Gives nodes this rank and takes them up, where they have none.
fn put_ranks(
    ranks: &mut Vec<usize>,
    todo: &mut Vec<usize>,
    nodes: &[usize],
    rank: usize,
) -> Result<(), NoMemory> {
    'nodes: for node in nodes {
        put_rank(ranks, todo, *node, rank)?;
    }
    Ok(())
}

/// Gives a node this rank, and what leads to it, where they have none.
fn put_component(
    alloc: Global,
    sources: &Targets,
    count: usize,
    ranks: &mut Vec<usize>,
    node: usize,
    rank: usize,
) -> Result<(), NoMemory> {
    let mut todo = Vec::new(alloc);
    put_rank(ranks, &mut todo, node, rank)?;
    'nodes: for _ in 0..count {
        let Some(next) = todo.pop() else {
            break;
        };
        put_ranks(ranks, &mut todo, sources.get(next), rank)?;
    }
    Ok(())
}

/// Ranks of nodes from 1, one for all that lead to each other, so that no edge leads to a lower one (Kosaraju 1978; Sharir 1981).
/// What is answered is checked by `any_falls` and a search, so that nothing is promised here.
pub(crate) fn ranks_of(
    alloc: Global,
    graph: &Graph,
    count: usize,
    edges: &[(usize, usize)],
) -> Result<Vec<usize>, NoMemory> {
    let mut left = leaving_order(alloc, graph, count, edges.len())?;
    let sources = sources_of(alloc, count, edges)?;
    let mut ranks = vec![in alloc; 0usize; count]?;
    'ranks: for place in 0..left.len() {
        let Some(node) = left.pop() else {
            break;
        };
        put_component(alloc, &sources, count, &mut ranks, node, place + 1)?;
    }
    Ok(ranks)
}

/// The rank of a node, and 0 where it has none.
fn rank(ranks: &[usize], node: usize) -> usize
    ensures { result ≡ get_or ranks.now node 0 }
{
    match ranks.get(node) {
        None => 0,
        Some(rank) => *rank,
    }
}

/// Whether an edge leads to a lower rank.
pub(crate) fn any_falls(ranks: &[usize], count: usize, edges: &[(usize, usize)]) -> bool
    ensures { result ≡ list_any (falls count ranks.now) edges.now }
{
    'edges: for edge in edges {
        if edge.1 < count && rank(ranks, edge.1) < rank(ranks, edge.0) {
            return true;
        }
    }
    false
}

/// Whether an edge leads to a node of the same rank.
fn is_level(ranks: &[usize], count: usize, edge: &(usize, usize)) -> bool
    ensures { result ≡ (nat_lt edge.now.1 count && get_or ranks.now edge.now.0 0 == get_or ranks.now edge.now.1 0) }
{
    edge.1 < count && rank(ranks, edge.0) == rank(ranks, edge.1)
}

/// The lower of a node and another, where there is one.
fn earlier(first: Option<usize>, node: usize) -> Option<usize>
    ensures { (n : ℕ) → is_before n result ≡ (is_before n first && nat_lt n node) }
{
    match first {
        None => Some(node),
        Some(other) => {
            if other < node {
                Some(other)
            } else {
                Some(node)
            }
        }
    }
}

/// The first node, where an edge that leads to the same rank may be one that leaves it.
fn with_edge(
    ranks: &[usize],
    count: usize,
    edge: &(usize, usize),
    first: Option<usize>,
) -> Option<usize>
    ensures { (n : ℕ) → is_before n result ≡ (is_before n first && not (stays count ranks.now n edge.now)) }
{
    if is_level(ranks, count, edge) {
        earlier(first, edge.0)
    } else {
        first
    }
}

/// The first node that an edge to a node of the same rank leaves.
pub(crate) fn first_level(ranks: &[usize], count: usize, edges: &[(usize, usize)]) -> Option<usize>
    ensures { (n : ℕ) → is_before n result ≡ not (list_any (stays count ranks.now n) edges.now) }
{
    let mut first = None;
    'edges: for edge in edges {
        first = with_edge(ranks, count, edge, first);
    }
    first
}
