ghost use Rattle.std.specs.Prelude.{◌≡◌, None, Some, OnErr, OnOk, cond};
ghost use Rattle.seq_tree.specs.Names.{Name as NameTree, same_name};
ghost use Rattle.std.specs.BTreeMap.{get_by};
ghost use Rattle.std.specs.Ordering.{nat_cmp};
ghost use Rattle.name_sets.specs.Places.{ends, is_another, number_behind, place_in};

use seq_tree::{Name, NoMemory};
use std::alloc::Global;
use std::collections::BTreeMap;

/// Numbers by names: for each the one that was put last. A name is found by its ends, as a number; only names whose ends an earlier one has
/// are compared byte by byte, so that no names are slow to find.
#[derive(Drop)]
pub struct Places<'a> {
    firsts: BTreeMap<u64, (&'a [u8], usize)>,
    others: BTreeMap<&'a [u8], usize>,
}

/// A number with these bytes behind its own, of which the last eight count.
fn number_behind(before: u64, bytes: &[u8]) -> u64
    ensures { result ≡ number_behind before bytes.now }
{
    let mut number = before;
    'bytes: for byte in bytes {
        number = number.wrapping_mul(256).wrapping_add(u64::from(*byte));
    }
    number
}

/// The first four bytes of a name and its last four, as one number.
#[tactic(auto, unfolding(crate::specs::Places::ends))]
fn ends(name: &[u8]) -> u64
    ensures { result ≡ ends name.now }
{
    let (first, _) = name.split_at(name.len().min(4));
    let (_, last) = name.split_at(name.len().saturating_sub(4));
    number_behind(number_behind(0, first), last)
}

impl<'a> Places<'a> {
    /// No names.
    #[tactic(auto, unfolding(crate::specs::Places::place_in))]
    pub fn new(alloc: Global) -> Places<'a>
        ensures { (n : NameTree) → place_in result n ≡ None }
    {
        Places {
            firsts: BTreeMap::new(alloc),
            others: BTreeMap::new(alloc),
        }
    }

    // Whether another name was the first with these ends.
    fn is_taken(&self, number: u64, name: &[u8]) -> bool
        ensures { result ≡ is_another name.now (get_by (nat_cmp number) self.now.firsts) }
    {
        match self.firsts.get(&number) {
            None => false,
            Some(first) => first.0 != name,
        }
    }

    /// The number of the name with these bytes, where it has one.
    #[tactic(auto, unfolding(crate::specs::Places::place_in))]
    pub fn get_bytes(&self, name: &[u8]) -> Option<usize>
        ensures { result ≡ place_in self.now name.now }
    {
        if let Some(first) = self.firsts.get(&ends(name)) {
            if first.0 == name {
                return Some(first.1);
            }
        }
        self.others.get(name).copied()
    }

    /// The number of a name, where it has one.
    pub fn get(&self, name: &Name) -> Option<usize>
        ensures { result ≡ place_in self.now name.now }
    {
        self.get_bytes(name.bytes())
    }

    /// Gives a name this number, whatever number it had. Without memory for it all is as before.
    #[tactic(auto, unfolding(crate::specs::Places::place_in))]
    pub fn put(&mut self, name: &'a Name, place: usize) -> Result<(), NoMemory>
        ensures put { OnOk result ((n : NameTree) → place_in self.new n ≡ cond (same_name name.entry.now n) (Some place) (place_in self.old n)) }
        ensures unchanged { OnErr result ((n : NameTree) → place_in self.new n ≡ place_in self.old n) }
    {
        let bytes = name.bytes();
        let number = ends(bytes);
        if self.is_taken(number, bytes) {
            self.others.insert(bytes, place)?;
            return Ok(());
        }
        self.firsts.insert(number, (bytes, place))?;
        Ok(())
    }
}
