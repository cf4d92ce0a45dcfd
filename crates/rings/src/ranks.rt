ghost use Rattle.std.specs.Prelude.{◌≤◌, IfOk, length};

use crate::targets::Targets;
use seq_tree::NoMemory;
use std::alloc::Global;

/// What is still to be ranked.
#[derive(Drop)]
struct Unranked {
    /// The nodes that edges to a node leave.
    sources: Targets,
    /// For each node, how many of the edges that leave it lead to a node without a rank.
    left: Vec<usize>,
    /// The nodes of which none does, and that have no rank.
    ready: Vec<usize>,
}

/// The nodes that edges leave, by the targets of these.
pub(crate) fn sources_of(
    alloc: Global,
    count: usize,
    edges: &[(usize, usize)],
) -> Result<Targets, NoMemory> {
    let mut sources = Targets::new(alloc);
    'edges: for edge in edges {
        if edge.1 < count {
            sources.add(alloc, edge.1, edge.0)?;
        }
    }
    Ok(sources)
}

/// Counts the edges that leave each node, and turns them round.
fn begun(alloc: Global, count: usize, edges: &[(usize, usize)]) -> Result<Unranked, NoMemory> {
    let sources = sources_of(alloc, count, edges)?;
    let mut left = vec![in alloc; 0usize; count]?;
    'edges: for edge in edges {
        if edge.1 < count {
            if let Some(number) = left.get_mut(edge.0) {
                *number = number.saturating_add(1);
            }
        }
    }
    let mut ready = Vec::new(alloc);
    'left: for (node, number) in left.iter().enumerate() {
        if *number == 0 {
            ready.push(node)?;
        }
    }
    Ok(Unranked {
        sources,
        left,
        ready,
    })
}

/// Takes the edges to a node off, since it has a rank.
fn take_off(unranked: &mut Unranked, node: usize) -> Result<(), NoMemory> {
    'sources: for source in unranked.sources.get(node) {
        if let Some(number) = unranked.left.get_mut(*source) {
            *number = number.saturating_sub(1);
            if *number == 0 {
                unranked.ready.push(*source)?;
            }
        }
    }
    Ok(())
}

/// The nodes in an order in which each stands behind the targets of its edges, as far as that can be: those that lead to a ring
/// are left out. Whoever rests on the order looks at it: promised is only that it isn't longer than there are nodes.
pub fn targets_first(
    alloc: Global,
    count: usize,
    edges: &[(usize, usize)],
) -> Result<Vec<usize>, NoMemory>
    ensures { IfOk result (λ v. length v.items ≤ count) }
{
    let mut unranked = begun(alloc, count, edges)?;
    let mut order = Vec::new(alloc);
    'nodes: for _ in 0..count {
        let Some(node) = unranked.ready.pop() else {
            break;
        };
        take_off(&mut unranked, node)?;
        order.push(node)?;
    }
    Ok(order)
}
