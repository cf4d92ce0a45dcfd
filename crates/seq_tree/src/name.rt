ghost use Rattle.std.specs.Prelude.{◌≡◌, ◌<◌, ◌≤◌, IfOk, IfErr, IsTrue, ◌↔◌, length};
ghost use Rattle.std.specs.Str.{str_to_ascii_lowercase};
ghost use Rattle.seq_tree.specs.declared.name.NameFault.TheVariants.{NoMemory};
ghost use Rattle.seq_tree.specs.Lexis.{is_name};

use crate::memory::NoMemory;
use crate::runs::is_name;
use smallvec::SmallVec;
use std::alloc::Global;
use std::marker::Model;

/// Why bytes make no name.
#[derive(Clone, Copy, Debug, PartialEq, Eq)]
pub enum NameFault {
    /// The bytes aren't a letter, then letters and digits with single underscores between them, or are over 64.
    NotAName,
    /// Want of memory.
    NoMemory,
}

impl From<NoMemory> for NameFault {
    ghost from_gives = { λ _ e. e ≡ NoMemory };

    fn from(_e: NoMemory) -> NameFault {
        NameFault::NoMemory
    }
}

/// A name, folded to lower case, of 1 to 64 bytes. Contracts see it as its bytes. It is one pointer, since a tree holds up to two
/// names in each statement, and most statements hold none. Up to 24 bytes stand behind that pointer, so such a name is one block of
/// memory, and a longer one is two.
#[derive(Drop, Debug)]
pub struct Name {
    bytes: Box<SmallVec<u8, 24>>,
}

impl Model for Name {
    ghost use Rattle.std.specs.Prelude.{List, ℕ, ◌<◌, ◌≤◌, length, box_value};

    ghost Value = { List ℕ };

    ghost view = { λ n. (box_value n.bytes).items };

    ghost invariant = { λ n. (0 < length (box_value n.bytes).items) × (length (box_value n.bytes).items ≤ 64) };
}

impl Name {
    /// The name that these bytes spell, folded to lower case. `NotAName` comes exactly where they aren't one name of at most
    /// 64 bytes.
    pub fn make(alloc: Global, bytes: &[u8]) -> Result<Name, NameFault>
        ensures name { IfOk result (λ n. n ≡ str_to_ascii_lowercase bytes.now) }
        ensures spelled { IfOk result (λ n. IsTrue (is_name bytes.now) × (length bytes.now ≤ 64)) }
        ensures not_spelled { IfErr result (λ e. e ≡ NameFault.NotAName → IsTrue (is_name bytes.now) → length bytes.now ≤ 64 → ⊥) }
    {
        if bytes.len() > 64 || !is_name(bytes) {
            return Err(NameFault::NotAName);
        }
        Ok(Name::folded(alloc, bytes)?)
    }

    /// The name with these bytes, of which there are 1 to 64, folded to lower case.
    pub fn folded(alloc: Global, bytes: &[u8]) -> Result<Name, NoMemory>
        requires { (0 < length bytes.now) × (length bytes.now ≤ 64) }
        ensures { IfOk result (λ n. n ≡ str_to_ascii_lowercase bytes.now) }
    {
        let mut folded = SmallVec::from_slice(alloc, bytes)?;
        folded.as_mut_slice().make_ascii_lowercase();
        let bytes = Box::new(alloc, folded)?;
        Ok(Name { bytes })
    }

    /// An equal name.
    pub fn copy(&self, alloc: Global) -> Result<Name, NoMemory>
        ensures { IfOk result (λ n. n ≡ self.now) }
    {
        let bytes = Box::new(alloc, SmallVec::from_slice(alloc, self.bytes.as_slice())?)?;
        Ok(Name { bytes })
    }

    /// The folded bytes of the name, 1 to 64 of them.
    pub fn bytes(&self) -> &[u8]
        ensures bytes { result.now ≡ self.now }
        ensures some { 0 < length result.now }
        ensures short { length result.now ≤ 64 }
    {
        self.bytes.as_slice()
    }

    /// Whether two names are one.
    pub fn same(&self, other: &Name) -> bool
        ensures { IsTrue result ↔ (self.now ≡ other.now) }
    {
        self.bytes.as_slice() == other.bytes.as_slice()
    }
}
