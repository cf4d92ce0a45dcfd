ghost use Rattle.std.specs.Prelude.{◌≡◌, ℕ, false, true, IfOk, get_or};
ghost use Rattle.rings.specs.Graphs.{AreInside, has_number, is_step};

use crate::targets::{Targets, mark_all, targets_of};
use seq_tree::NoMemory;
use std::alloc::Global;

/// A graph: nodes by their numbers from 0, and the edges between them.
#[derive(Drop)]
pub struct Graph {
    count: usize,
    targets: Targets,
    ghost inside: { AreInside count targets },
}

impl Graph {
    ghost use Rattle.rings.specs.Reached.{IsReached, leads};

    /// The graph of this many nodes, with these edges between them. An edge to another number is left out.
    pub fn new(alloc: Global, count: usize, edges: &[(usize, usize)]) -> Result<Graph, NoMemory>
        ensures edges { IfOk result (λ g. (a b : ℕ) → leads g a b ≡ is_step count edges.now a b) }
        ensures count { IfOk result (λ g. g.count ≡ count) }
    {
        let targets = targets_of(alloc, count, edges)?;
        Ok(Graph { count, targets })
    }

    /// The nodes to which an edge leads from this one.
    pub fn targets(&self, node: usize) -> &[usize]
        ensures { (b : ℕ) → has_number result.now b ≡ leads self.now node b }
    {
        self.targets.get(node)
    }

    /// Whether each node is one of these or is led to from one, by its number.
    pub fn reached(&self, alloc: Global, starts: &[usize]) -> Result<Vec<bool>, NoMemory>
        ensures sound { IfOk result (λ v. (n : ℕ) → get_or v.items n false ≡ true → IsReached self.now starts.now n) }
        ensures complete { IfOk result (λ v. (n : ℕ) → IsReached self.now starts.now n → get_or v.items n false ≡ true) }
    {
        let mut marks = vec![in alloc; false; self.count]?;
        let mut todo = Vec::new(alloc);
        mark_all(starts, &mut marks, &mut todo)?;
        'nodes: while let Some(node) = todo.pop() {
            mark_all(self.targets.get(node), &mut marks, &mut todo)?;
        }
        Ok(marks)
    }
}
