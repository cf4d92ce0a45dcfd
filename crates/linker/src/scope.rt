ghost use Rattle.std.specs.Prelude.{◌≡◌, [], ◌∷◌, drop, OnErr, OnOk, IfOk};
ghost use Rattle.seq_eval.specs.Lookups.{found};
ghost use Rattle.law_flat_code.specs.Codes.{in_turn, next_slot};
ghost use Rattle.linker.specs.Scopes.{scope_of};

use crate::fill::after;
use name_sets::NameTable;
use seq_eval::Lookup;
use seq_tree::{Name, NoMemory};
use std::alloc::Global;
use std::marker::Model;

/// A name with its slot, and the slot of the next variable outwards that has the same name, where there is one.
#[derive(Clone, Copy, Drop)]
pub(crate) struct Slot<'a> {
    pub name: &'a Name,
    pub slot: u32,
    pub hidden: Option<u32>,
}

/// The names of a body with their slots, the innermost last, and a table by which a slot is found in the time of the logarithm of their
/// number. Contracts see them as pairs of a name and a slot, the innermost first.
#[derive(Drop)]
pub struct Scope<'a> {
    slots: Vec<Slot<'a>>,
    // The innermost slot of each name that was here, where there is still one.
    innermost: NameTable<'a, Option<u32>>,
}

impl<'a> Model for Scope<'a> {
    ghost use Rattle.seq_tree.specs.Variables.{Variables};
    ghost use Rattle.linker.specs.Scopes.{IsTable, scope_of};

    ghost Value = { Variables };

    ghost view = { λ s. scope_of s.slots.items };

    ghost invariant = { λ s. IsTable s.slots.items s.innermost };
}

/// The lowest slot above those of a stack. The one error is that there are too many.
fn next_of(slots: &[Slot]) -> Result<u32, NoMemory>
    ensures { IfOk result (λ slot. slot ≡ next_slot (scope_of slots.now)) }
{
    match slots.split_last() {
        None => Ok(0),
        Some((last, _)) => after(last.slot),
    }
}

impl<'a> Scope<'a> {
    /// No names.
    pub fn new(alloc: Global) -> Scope<'a>
        ensures { result ≡ [] }
    {
        Scope {
            slots: Vec::new(alloc),
            innermost: NameTable::new(alloc),
        }
    }

    /// The lowest slot that no name has. The one error is that there are too many.
    pub fn next(&self) -> Result<u32, NoMemory>
        ensures { IfOk result (λ slot. slot ≡ next_slot self.now) }
    {
        next_of(&self.slots)
    }

    /// Adds a name inside the others, in this slot. Without memory for it all is as before.
    pub fn push(&mut self, name: &'a Name, slot: u32) -> Result<(), NoMemory>
        ensures pushed { OnOk result (self.new ≡ (name.entry.now, slot) ∷ self.old) }
        ensures unchanged { OnErr result (self.new ≡ self.old) }
    {
        let hidden = self.value(name);
        self.slots.reserve(1)?;
        self.innermost.put(name, Some(slot))?;
        self.slots.push_reserved(Slot { name, slot, hidden });
        Ok(())
    }

    /// Adds a name inside the others, in the lowest slot above theirs. Without memory for it all is as before.
    pub fn add(&mut self, name: &'a Name) -> Result<(), NoMemory>
        ensures added { OnOk result (self.new ≡ (name.entry.now, next_slot self.old) ∷ self.old) }
        ensures unchanged { OnErr result (self.new ≡ self.old) }
    {
        let slot = self.next()?;
        self.push(name, slot)
    }

    /// Adds the variable of a loop inside the others, and tells the slot of its count of turns. Without memory for it all is as before.
    pub fn enter(&mut self, name: &'a Name) -> Result<u32, NoMemory>
        ensures scope { OnOk result (self.new ≡ in_turn name.entry.now self.old) }
        ensures counter { IfOk result (λ counter. counter ≡ next_slot self.old) }
        ensures unchanged { OnErr result (self.new ≡ self.old) }
    {
        let counter = self.next()?;
        let slot = after(counter)?;
        self.push(name, slot)?;
        Ok(counter)
    }

    /// Takes the innermost name off, where there is one. Without memory for it all is as before.
    pub fn leave(&mut self) -> Result<(), NoMemory>
        ensures left { OnOk result (self.new ≡ drop 1 self.old) }
        ensures unchanged { OnErr result (self.new ≡ self.old) }
    {
        let Some((last, _)) = self.slots.split_last() else {
            return Ok(());
        };
        self.innermost.put(last.name, last.hidden)?;
        self.slots.pop();
        Ok(())
    }
}

impl Lookup for Scope<'_> {
    ghost meaning = { λ s. s };

    /// The slot of the innermost variable of this name, where there is one.
    fn value(&self, name: &Name) -> Option<u32>
        ensures { result ≡ found name.now self.now }
    {
        self.innermost.get(name).unwrap_or(None)
    }
}
