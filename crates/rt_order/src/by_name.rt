ghost use Rattle.std.specs.Prelude.{◌≡◌, ◌++◌, ◌∷◌, ◌||◌, [], ℕ, List, IfOk, OnOk, if◌then◌else◌};
ghost use Rattle.seq_tree.specs.Names.{Name as NameTree, is_named, same_name};
ghost use Rattle.name_sets.specs.Sets.{has};
ghost use Rattle.rt_order.specs.ByNames.{IsMarked, places_at};
ghost use Rattle.rt_order.specs.Called.{names_of};
ghost use Rattle.rt_order.specs.Numbers.{place_if};

use name_sets::{NameTable, Names};
use seq_tree::{Name, NoMemory};
use std::alloc::Global;

/// Places by names, in the order in which they were added.
#[derive(Drop)]
pub(crate) struct PlacesByName<'a> {
    lists: NameTable<'a, Vec<usize>>,
}

impl<'a> PlacesByName<'a> {
    /// No name has a place.
    #[tactic(auto, unfolding(crate::specs::ByNames::places_at))]
    pub(crate) fn new(alloc: Global) -> PlacesByName<'a>
        ensures { (n : NameTree) → places_at result n ≡ [] }
    {
        PlacesByName {
            lists: NameTable::new(alloc),
        }
    }

    /// The places of a name.
    #[tactic(auto, unfolding(crate::specs::ByNames::places_at))]
    pub(crate) fn get(&self, alloc: Global, name: &Name) -> Result<Vec<usize>, NoMemory>
        ensures { IfOk result (λ v. v.items ≡ places_at self.now name.now) }
    {
        match self.lists.find(name) {
            None => Ok(Vec::new(alloc)),
            Some(places) => Ok(places.as_slice().to_vec(alloc)?),
        }
    }

    /// Adds a place behind those of a name.
    #[tactic(auto, unfolding(crate::specs::ByNames::places_at))]
    fn add(&mut self, alloc: Global, name: &'a Name, place: usize) -> Result<(), NoMemory>
        ensures { OnOk result ((n : NameTree) → places_at self.new n
            ≡ places_at self.old n ++ (if same_name name.entry.now n then place ∷ [] else [])) }
    {
        let mut places = Vec::new(alloc);
        places.push(place)?;
        self.lists.extend(name, places)
    }

    /// Adds a place behind those of a name, where the name is new in a set, in which it is then.
    fn add_once(
        &mut self,
        alloc: Global,
        seen: &mut Names<'a>,
        name: &'a Name,
        place: usize,
    ) -> Result<(), NoMemory>
        ensures marked { OnOk result ((before : NameTree → List ℕ) → IsMarked before place self.old seen.old
            → IsMarked before place self.new seen.new) }
        ensures seen { OnOk result ((n : NameTree) → has seen.new n ≡ (same_name name.entry.now n || has seen.old n)) }
    {
        if seen.add(name)? {
            self.add(alloc, name, place)?;
        }
        Ok(())
    }

    /// Adds a place behind those of each of these names, once where a name stands there more often.
    pub(crate) fn add_each(
        &mut self,
        alloc: Global,
        names: &[&'a Name],
        place: usize,
    ) -> Result<(), NoMemory>
        ensures { OnOk result ((n : NameTree) → places_at self.new n
            ≡ places_at self.old n ++ place_if (is_named (names_of names.entry.now) n) place) }
    {
        let mut seen = Names::new(alloc);
        'names: for name in names {
            self.add_once(alloc, &mut seen, *name, place)?;
        }
        Ok(())
    }
}
