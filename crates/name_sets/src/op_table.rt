ghost use Rattle.std.specs.Prelude.{◌≡◌, ◌<◌, ℕ, Some, true, length};
ghost use Rattle.seq_tree.specs.Calls.{same_op};
ghost use Rattle.seq_tree.specs.declared.tree.OpName.{OpName};
ghost use Rattle.name_sets.specs.OpPlaces.{op_place_in};

use crate::op_places::OpPlaces;
use seq_tree::{Name, NoMemory};
use std::alloc::Global;

/// Values by operations, which are named by their objects and their own names.
#[derive(Drop)]
pub struct OpTable<'a, V> {
    places: OpPlaces<'a>,
    values: Vec<V>,
    ghost inside: { (n : OpName) (p : ℕ) → op_place_in places n ≡ Some p → p < length values.items },
    ghost apart: { (m n : OpName) (p : ℕ) → op_place_in places m ≡ Some p → op_place_in places n ≡ Some p → same_op m n ≡ true },
}

impl<'a, V: Drop> OpTable<'a, V> {
    ghost use Rattle.std.specs.Prelude.{None, OnErr, OnOk, if◌then◌else◌, option_map};
    ghost use Rattle.name_sets.specs.Tables.{at};

    /// No operation has a value.
    #[tactic(auto, unfolding(crate::specs::Tables::at))]
    pub fn new(alloc: Global) -> OpTable<'a, V>
        ensures { (n : OpName) → at result n ≡ None }
    {
        OpTable {
            places: OpPlaces::new(alloc),
            values: Vec::new(alloc),
        }
    }

    /// The value of an operation, where it has one.
    #[tactic(auto, unfolding(crate::specs::Tables::at))]
    pub fn find(&self, object: &Name, op: &Name) -> Option<&V>
        ensures { option_map (λ v. v.now) result ≡ at self.now (record { object = object.now; op = op.now }) }
    {
        match self.places.get(object, op) {
            None => None,
            Some(place) => self.values.get(place),
        }
    }

    /// Gives an operation a value, in place of the one that it has, if any. Without memory for it all is as before.
    #[tactic(auto, unfolding(crate::specs::Tables::at))]
    pub fn put(
        &mut self,
        alloc: Global,
        object: &'a Name,
        op: &'a Name,
        value: V,
    ) -> Result<(), NoMemory>
        ensures put { OnOk result ((n : OpName)
            → at self.new n ≡ (if same_op (record { object = object.entry.now; op = op.entry.now }) n then Some value else at self.old n)) }
        ensures unchanged { OnErr result ((n : OpName) → at self.new n ≡ at self.old n) }
    {
        match self.places.get(object, op) {
            Some(place) => self.values[place] = value,
            None => {
                let place = self.values.len();
                self.values.push(value)?;
                self.places.put(alloc, object, op, place)?;
            }
        }
        Ok(())
    }
}

impl<'a, V: Copy + Drop> OpTable<'a, V> {
    ghost use Rattle.name_sets.specs.Tables.{at};

    /// A copy of the value of an operation, where it has one.
    pub fn get(&self, object: &Name, op: &Name) -> Option<V>
        ensures { result ≡ at self.now (record { object = object.now; op = op.now }) }
    {
        self.find(object, op).copied()
    }
}

impl<'a, V: Drop> OpTable<'a, Vec<V>> {
    ghost use Rattle.std.specs.Prelude.{◌++◌, [], OnErr, OnOk, if◌then◌else◌, option_map};
    ghost use Rattle.name_sets.specs.Tables.{at, listed};

    /// Adds items behind those of an operation, which may have had none. Without memory for all of them none is added.
    pub fn extend(
        &mut self,
        alloc: Global,
        object: &'a Name,
        op: &'a Name,
        items: Vec<V>,
    ) -> Result<(), NoMemory>
        ensures added { OnOk result ((n : OpName) → listed (at self.new n) ≡ listed (at self.old n)
            ++ (if same_op (record { object = object.entry.now; op = op.entry.now }) n then items.items else [])) }
        ensures unchanged { OnErr result ((n : OpName)
            → option_map (λ v. v.items) (at self.new n) ≡ option_map (λ v. v.items) (at self.old n)) }
    {
        let mut items = items;
        match self.places.get(object, op) {
            Some(place) => self.values[place].append(&mut items)?,
            None => self.put(alloc, object, op, items)?,
        }
        Ok(())
    }
}
