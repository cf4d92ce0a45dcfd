ghost use Rattle.std.specs.Prelude.{◌≡◌, ◌||◌, false, not, IfOk, OnErr, OnOk};
ghost use Rattle.seq_tree.specs.Calls.{same_op};
ghost use Rattle.seq_tree.specs.Names.{Name as NameTree, same_name};
ghost use Rattle.seq_tree.specs.declared.tree.OpName.{OpName};
ghost use Rattle.name_sets.specs.Sets.{has, has_op};

use crate::op_places::OpPlaces;
use crate::places::Places;
use seq_tree::{Name, NoMemory};
use std::alloc::Global;

/// A set of names.
#[derive(Drop)]
pub struct Names<'a> {
    places: Places<'a>,
}

impl<'a> Names<'a> {
    /// No names.
    #[tactic(auto, unfolding(crate::specs::Sets::has))]
    pub fn new(alloc: Global) -> Names<'a>
        ensures { (n : NameTree) → has result n ≡ false }
    {
        Names {
            places: Places::new(alloc),
        }
    }

    /// Whether a name is in the set.
    #[tactic(auto, unfolding(crate::specs::Sets::has))]
    pub fn has(&self, name: &Name) -> bool
        ensures { result ≡ has self.now name.now }
    {
        self.places.get(name).is_some()
    }

    /// Adds a name, and says whether it is new. Without memory for it all is as before.
    #[tactic(auto, unfolding(crate::specs::Sets::has))]
    pub fn add(&mut self, name: &'a Name) -> Result<bool, NoMemory>
        ensures new { IfOk result (λ new. new ≡ not (has self.old name.entry.now)) }
        ensures added { OnOk result ((n : NameTree) → has self.new n ≡ (same_name name.entry.now n || has self.old n)) }
        ensures unchanged { OnErr result ((n : NameTree) → has self.new n ≡ has self.old n) }
    {
        let new = !self.has(name);
        self.places.put(name, 0)?;
        Ok(new)
    }
}

/// A set of operations, by their objects and their own names.
#[derive(Drop)]
pub struct Ops<'a> {
    places: OpPlaces<'a>,
}

impl<'a> Ops<'a> {
    /// No operations.
    #[tactic(auto, unfolding(crate::specs::Sets::has_op))]
    pub fn new(alloc: Global) -> Ops<'a>
        ensures { (n : OpName) → has_op result n ≡ false }
    {
        Ops {
            places: OpPlaces::new(alloc),
        }
    }

    /// Whether an operation is in the set.
    #[tactic(auto, unfolding(crate::specs::Sets::has_op))]
    pub fn has(&self, object: &Name, op: &Name) -> bool
        ensures { result ≡ has_op self.now (record { object = object.now; op = op.now }) }
    {
        self.places.get(object, op).is_some()
    }

    /// Adds an operation. Without memory for it all is as before.
    #[tactic(auto, unfolding(crate::specs::Sets::has_op))]
    pub fn add(&mut self, alloc: Global, object: &'a Name, op: &'a Name) -> Result<(), NoMemory>
        ensures added { OnOk result ((n : OpName)
            → has_op self.new n ≡ (same_op (record { object = object.entry.now; op = op.entry.now }) n || has_op self.old n)) }
        ensures unchanged { OnErr result ((n : OpName) → has_op self.new n ≡ has_op self.old n) }
    {
        self.places.put(alloc, object, op, 0)
    }
}
