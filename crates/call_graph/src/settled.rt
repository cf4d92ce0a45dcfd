ghost use Rattle.std.specs.Prelude.{◌≡◌, ℕ, List, IfOk, IfSome, length, true};
ghost use Rattle.std.specs.List.{list_all};
ghost use Rattle.call_graph.specs.Settled.{Agrees, HasPlaces, IsPut, is_done};

use seq_tree::NoMemory;
use std::alloc::Global;

/// Numbers by places, and which of them are worked out.
#[derive(Drop)]
pub struct Settled {
    pub numbers: Vec<u32>,
    pub done: Vec<bool>,
}

/// Whether all marks are set.
fn all_set(marks: &[bool]) -> bool
    ensures { result ≡ list_all (λ b. b) marks.now }
{
    'marks: for mark in marks {
        if !*mark {
            return false;
        }
    }
    true
}

impl Settled {
    /// So many places, of which none is worked out.
    pub fn new(alloc: Global, count: usize) -> Result<Settled, NoMemory>
        ensures none { IfOk result (λ s. (xs : List ℕ) → Agrees s xs) }
        ensures long { IfOk result (HasPlaces count) }
    {
        let numbers = vec![in alloc; 0u32; count]?;
        let done = vec![in alloc; false; count]?;
        Ok(Settled { numbers, done })
    }

    /// Whether a place is worked out.
    fn has(&self, place: usize) -> bool
        ensures { result ≡ is_done self.now place }
    {
        match self.done.get(place) {
            None => false,
            Some(mark) => *mark,
        }
    }

    /// Whether all of these places are.
    pub fn has_all(&self, places: &[usize]) -> bool
        ensures { result ≡ list_all (is_done self.now) places.now }
    {
        'places: for place in places {
            if !self.has(*place) {
                return false;
            }
        }
        true
    }

    /// Works out a place.
    pub fn put(&mut self, place: usize, number: u32)
        ensures put { IsPut self.old place number self.new }
        ensures long { (count : ℕ) → HasPlaces count self.old → HasPlaces count self.new }
    {
        if place < self.numbers.len() && place < self.done.len() {
            self.numbers[place] = number;
            self.done[place] = true;
        }
    }

    /// The numbers, where all are worked out.
    pub fn whole(self) -> Option<Vec<u32>>
        ensures { IfSome result (λ v. (v.items ≡ self.numbers.items) × (list_all (λ b. b) self.done.items ≡ true)) }
    {
        if all_set(self.done.as_slice()) {
            Some(self.numbers)
        } else {
            None
        }
    }
}
