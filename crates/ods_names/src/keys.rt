ghost use Rattle.std.specs.Prelude.{◌≡◌, ◌&&◌, ◌||◌, ◌==◌, ℕ, false, OnOk};
ghost use Rattle.seq_tree.specs.Names.{Name as NameTree, same_name};
ghost use Rattle.ods_names.specs.Keys.{end_of, has_key};

use seq_tree::NoMemory;
use std::alloc::Global;
use std::collections::BTreeSet;

/// A set of names by two numbers and a further name. Names are compared by their ends first, as numbers, and byte by byte only where these are
/// the same.
#[derive(Drop)]
pub(crate) struct Keys<'a> {
    set: BTreeSet<(usize, usize, u64, &'a [u8], &'a [u8])>,
}

/// The last eight bytes of a name, as a number.
#[tactic(auto, unfolding(crate::specs::Keys::end_of))]
fn end_of(name: &[u8]) -> u64
    ensures { result ≡ end_of name.now }
{
    let mut number: u64 = 0;
    'bytes: for byte in name {
        number = number.wrapping_mul(256).wrapping_add(u64::from(*byte));
    }
    number
}

impl<'a> Keys<'a> {
    /// No names.
    #[tactic(auto, unfolding(crate::specs::Keys::has_key))]
    pub(crate) fn new(alloc: Global) -> Keys<'a>
        ensures { (place number : ℕ) (op n : NameTree) → has_key result place number op n ≡ false }
    {
        Keys {
            set: BTreeSet::new(alloc),
        }
    }

    /// Whether a name is in the set with these numbers and this further name.
    #[tactic(auto, unfolding(crate::specs::Keys::has_key))]
    pub(crate) fn has(&self, place: usize, number: usize, op: &'a [u8], name: &'a [u8]) -> bool
        ensures { result ≡ has_key self.now place number op.entry.now name.entry.now }
    {
        self.set.contains(&(place, number, end_of(name), op, name))
    }

    /// Adds a name with these numbers and this further name.
    #[tactic(auto, unfolding(crate::specs::Keys::has_key))]
    pub(crate) fn add(
        &mut self,
        place: usize,
        number: usize,
        op: &'a [u8],
        name: &'a [u8],
    ) -> Result<(), NoMemory>
        ensures { OnOk result ((p q : ℕ) (o n : NameTree) → has_key self.new p q o n
            ≡ (((place == p && number == q) && (same_name op.entry.now o && same_name name.entry.now n)) || has_key self.old p q o n)) }
    {
        self.set.insert((place, number, end_of(name), op, name))?;
        Ok(())
    }

    /// Adds a name with these numbers and this further name, where it is to be added.
    pub(crate) fn add_where(
        &mut self,
        wanted: bool,
        place: usize,
        number: usize,
        op: &'a [u8],
        name: &'a [u8],
    ) -> Result<(), NoMemory>
        ensures { OnOk result ((p q : ℕ) (o n : NameTree) → has_key self.new p q o n
            ≡ ((wanted && ((place == p && number == q) && (same_name op.entry.now o && same_name name.entry.now n))) || has_key self.old p q o n)) }
    {
        match wanted {
            true => self.add(place, number, op, name),
            false => Ok(()),
        }
    }
}
