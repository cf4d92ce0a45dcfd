ghost use Rattle.std.specs.Prelude.{◌≡◌, ◌<◌, ℕ, Some, true, length};
ghost use Rattle.seq_tree.specs.Names.{Name as NameTree, same_name};
ghost use Rattle.name_sets.specs.Places.{place_in};

use crate::places::Places;
use seq_tree::{Name, NoMemory};
use std::alloc::Global;

/// Numbers by operations, which are named by their objects and their own names: for each the one that was put last.
#[derive(Drop)]
pub struct OpPlaces<'a> {
    objects: Places<'a>,
    ops: Vec<Places<'a>>,
    ghost inside: { (n : NameTree) (p : ℕ) → place_in objects n ≡ Some p → p < length ops.items },
    ghost apart: { (m n : NameTree) (p : ℕ) → place_in objects m ≡ Some p → place_in objects n ≡ Some p → same_name m n ≡ true },
}

impl<'a> OpPlaces<'a> {
    ghost use Rattle.std.specs.Prelude.{None, OnErr, OnOk, cond};
    ghost use Rattle.seq_tree.specs.Calls.{same_op};
    ghost use Rattle.seq_tree.specs.declared.tree.OpName.{OpName};
    ghost use Rattle.name_sets.specs.OpPlaces.{op_place_in};

    /// No operations.
    #[tactic(auto, unfolding(crate::specs::OpPlaces::op_place_in))]
    pub fn new(alloc: Global) -> OpPlaces<'a>
        ensures { (n : OpName) → op_place_in result n ≡ None }
    {
        OpPlaces {
            objects: Places::new(alloc),
            ops: Vec::new(alloc),
        }
    }

    /// The number of an operation, where it has one.
    #[tactic(auto, unfolding(crate::specs::OpPlaces::op_place_in))]
    pub fn get(&self, object: &Name, op: &Name) -> Option<usize>
        ensures { result ≡ op_place_in self.now (record { object = object.now; op = op.now }) }
    {
        match self.objects.get(object) {
            None => None,
            Some(place) => self.ops.get(place)?.get(op),
        }
    }

    /// Gives an operation this number, whatever number it had. Without memory for it all is as before.
    #[tactic(auto, unfolding(crate::specs::OpPlaces::op_place_in))]
    pub fn put(
        &mut self,
        alloc: Global,
        object: &'a Name,
        op: &'a Name,
        place: usize,
    ) -> Result<(), NoMemory>
        ensures put { OnOk result ((n : OpName) → op_place_in self.new n
            ≡ cond (same_op (record { object = object.entry.now; op = op.entry.now }) n) (Some place) (op_place_in self.old n)) }
        ensures unchanged { OnErr result ((n : OpName) → op_place_in self.new n ≡ op_place_in self.old n) }
    {
        match self.objects.get(object) {
            Some(found) => self.ops[found].put(op, place)?,
            None => {
                let mut first = Places::new(alloc);
                first.put(op, place)?;
                let last = self.ops.len();
                self.ops.push(first)?;
                self.objects.put(object, last)?;
            }
        }
        Ok(())
    }
}
