ghost use Rattle.std.specs.Prelude.{◌≡◌, ◌<◌, ◌+◌, ◌==◌, ◌&&◌, ◌||◌, ◌++◌, ◌∷◌, ℕ, [], true, false, not, IfOk, OnOk, get_or, if◌then◌else◌};
ghost use Rattle.std.specs.Prelude.{length, nat_lt};
ghost use Rattle.std.specs.List.{count_by};
ghost use Rattle.rings.specs.Graphs.{has_number, is_step, targets_at};

use seq_tree::NoMemory;
use std::alloc::Global;
use std::collections::BTreeMap;

/// The targets of edges by the nodes that these leave.
#[derive(Drop)]
pub(crate) struct Targets {
    map: BTreeMap<usize, Vec<usize>>,
}

impl Targets {
    /// No edges.
    #[tactic(auto, unfolding(crate::specs::Graphs::targets_at))]
    pub(crate) fn new(alloc: Global) -> Targets
        ensures { (a : ℕ) → targets_at result a ≡ [] }
    {
        Targets {
            map: BTreeMap::new(alloc),
        }
    }

    /// The targets of the edges that leave a node.
    #[tactic(auto, unfolding(crate::specs::Graphs::targets_at))]
    pub(crate) fn get(&self, node: usize) -> &[usize]
        ensures { result.now ≡ targets_at self.now node }
    {
        match self.map.get(&node) {
            None => &[],
            Some(targets) => targets.as_slice(),
        }
    }

    /// Adds an edge.
    #[tactic(auto, unfolding(crate::specs::Graphs::targets_at))]
    pub(crate) fn add(&mut self, alloc: Global, from: usize, to: usize) -> Result<(), NoMemory>
        ensures { OnOk result ((a : ℕ) → targets_at self.new a ≡ (if from == a then targets_at self.old from ++ to ∷ [] else targets_at self.old a)) }
    {
        let targets = self.map.entry(from)?.or_insert(Vec::new(alloc));
        targets.push(to)?;
        Ok(())
    }
}

/// Adds an edge, where its target is among this many nodes.
fn add_inside(
    alloc: Global,
    targets: &mut Targets,
    count: usize,
    edge: &(usize, usize),
) -> Result<(), NoMemory>
    ensures { OnOk result ((a b : ℕ) → has_number (targets_at targets.new a) b
        ≡ (has_number (targets_at targets.old a) b || is_step count (edge.now ∷ []) a b)) }
{
    if edge.1 < count {
        targets.add(alloc, edge.0, edge.1)?;
    }
    Ok(())
}

/// Edges by the nodes that they leave, without those to others than this many nodes.
pub(crate) fn targets_of(
    alloc: Global,
    count: usize,
    edges: &[(usize, usize)],
) -> Result<Targets, NoMemory>
    ensures { IfOk result (λ t. (a b : ℕ) → has_number (targets_at t a) b ≡ is_step count edges.now a b) }
{
    let mut targets = Targets::new(alloc);
    'edges: for edge in edges {
        add_inside(alloc, &mut targets, count, edge)?;
    }
    Ok(targets)
}

/// Marks a node, where it is one, and takes it up where it wasn't marked.
fn mark(node: usize, marks: &mut Vec<bool>, todo: &mut Vec<usize>) -> Result<(), NoMemory>
    ensures len { OnOk result (length marks.new.items ≡ length marks.old.items) }
    ensures marks { OnOk result ((n : ℕ) → get_or marks.new.items n false
        ≡ (get_or marks.old.items n false || (node == n && nat_lt n (length marks.old.items)))) }
    ensures todo { OnOk result ((n : ℕ) → has_number todo.new.items n
        ≡ (has_number todo.old.items n || (get_or marks.new.items n false && not (get_or marks.old.items n false)))) }
    ensures fewer { OnOk result (count_by not marks.new.items + length todo.new.items ≡ count_by not marks.old.items + length todo.old.items) }
{
    if node < marks.len() && !marks[node] {
        marks[node] = true;
        todo.push(node)?;
    }
    Ok(())
}

/// Marks nodes, and takes up those that weren't marked.
pub(crate) fn mark_all(
    nodes: &[usize],
    marks: &mut Vec<bool>,
    todo: &mut Vec<usize>,
) -> Result<(), NoMemory>
    ensures len { OnOk result (length marks.new.items ≡ length marks.old.items) }
    ensures marks { OnOk result ((n : ℕ) → get_or marks.new.items n false
        ≡ (get_or marks.old.items n false || (has_number nodes.now n && nat_lt n (length marks.old.items)))) }
    ensures todo { OnOk result ((n : ℕ) → has_number todo.new.items n
        ≡ (has_number todo.old.items n || (get_or marks.new.items n false && not (get_or marks.old.items n false)))) }
    ensures fewer { OnOk result (count_by not marks.new.items + length todo.new.items ≡ count_by not marks.old.items + length todo.old.items) }
{
    'nodes: for node in nodes {
        mark(*node, marks, todo)?;
    }
    Ok(())
}
