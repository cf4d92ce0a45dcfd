ghost use Rattle.std.specs.Prelude.{◌≡◌, ◌<◌, ℕ, Some, true, length};
ghost use Rattle.seq_tree.specs.Names.{Name as NameTree, same_name};
ghost use Rattle.name_sets.specs.Places.{place_in};

use crate::places::Places;
use seq_tree::{Name, NoMemory};
use std::alloc::Global;

/// Values by names.
#[derive(Drop)]
pub struct NameTable<'a, V> {
    places: Places<'a>,
    values: Vec<V>,
    ghost inside: { (n : NameTree) (p : ℕ) → place_in places n ≡ Some p → p < length values.items },
    ghost apart: { (m n : NameTree) (p : ℕ) → place_in places m ≡ Some p → place_in places n ≡ Some p → same_name m n ≡ true },
}

impl<'a, V: Drop> NameTable<'a, V> {
    ghost use Rattle.std.specs.Prelude.{None, OnErr, OnOk, if◌then◌else◌, option_map};
    ghost use Rattle.name_sets.specs.Tables.{named};

    /// No name has a value.
    #[tactic(auto, unfolding(crate::specs::Tables::named))]
    pub fn new(alloc: Global) -> NameTable<'a, V>
        ensures { (n : NameTree) → named result n ≡ None }
    {
        NameTable {
            places: Places::new(alloc),
            values: Vec::new(alloc),
        }
    }

    /// The value of a name, where it has one.
    #[tactic(auto, unfolding(crate::specs::Tables::named))]
    pub fn find(&self, name: &Name) -> Option<&V>
        ensures { option_map (λ v. v.now) result ≡ named self.now name.now }
    {
        match self.places.get(name) {
            None => None,
            Some(place) => self.values.get(place),
        }
    }

    /// Gives a name a value, in place of the one that it has, if any. Without memory for it all is as before.
    #[tactic(auto, unfolding(crate::specs::Tables::named))]
    pub fn put(&mut self, name: &'a Name, value: V) -> Result<(), NoMemory>
        ensures put { OnOk result ((n : NameTree) → named self.new n ≡ (if same_name name.entry.now n then Some value else named self.old n)) }
        ensures unchanged { OnErr result ((n : NameTree) → named self.new n ≡ named self.old n) }
    {
        match self.places.get(name) {
            Some(place) => self.values[place] = value,
            None => {
                let place = self.values.len();
                self.values.push(value)?;
                self.places.put(name, place)?;
            }
        }
        Ok(())
    }
}

impl<'a, V: Copy + Drop> NameTable<'a, V> {
    ghost use Rattle.name_sets.specs.Tables.{named};

    /// A copy of the value of a name, where it has one.
    pub fn get(&self, name: &Name) -> Option<V>
        ensures { result ≡ named self.now name.now }
    {
        self.find(name).copied()
    }
}

impl<'a, V: Drop> NameTable<'a, Vec<V>> {
    ghost use Rattle.std.specs.Prelude.{◌++◌, [], OnErr, OnOk, if◌then◌else◌, option_map};
    ghost use Rattle.name_sets.specs.Tables.{named, listed};

    /// Adds items behind those of a name, which may have had none. Without memory for all of them none is added.
    pub fn extend(&mut self, name: &'a Name, items: Vec<V>) -> Result<(), NoMemory>
        ensures added { OnOk result ((n : NameTree) → listed (named self.new n) ≡ listed (named self.old n)
            ++ (if same_name name.entry.now n then items.items else [])) }
        ensures unchanged { OnErr result ((n : NameTree)
            → option_map (λ v. v.items) (named self.new n) ≡ option_map (λ v. v.items) (named self.old n)) }
    {
        let mut items = items;
        match self.places.get(name) {
            Some(place) => self.values[place].append(&mut items)?,
            None => self.put(name, items)?,
        }
        Ok(())
    }
}
