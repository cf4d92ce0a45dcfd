ghost use Rattle.std.specs.Prelude.{◌≡◌, [], ◌∷◌, drop, map, OnOk, IfOk};
ghost use Rattle.seq_tree.specs.Variables.{read, write};
ghost use Rattle.seq_eval.specs.Lookups.{found};

use crate::env::is_same;
use crate::lookup::Lookup;
use seq_tree::{Name, NoMemory};
use std::alloc::Global;
use std::marker::Model;

/// A variable and its value.
#[derive(Clone, Copy, Drop)]
pub(crate) struct Var<'a> {
    pub name: &'a Name,
    pub value: u32,
}

/// The variables of a body, the innermost last. Contracts see them as pairs of a name and a value, the innermost first.
#[derive(Drop)]
pub(crate) struct Scope<'a> {
    vars: Vec<Var<'a>>,
}

impl<'a> Model for Scope<'a> {
    ghost use Rattle.seq_tree.specs.Variables.{Variables};
    ghost use Rattle.seq_eval.specs.Scopes.{vars_of};

    ghost Value = { Variables };

    ghost view = { λ s. vars_of s.vars.items };
}

impl<'a> Scope<'a> {
    /// No variables.
    pub fn new(alloc: Global) -> Scope<'a>
        ensures { result ≡ [] }
    {
        Scope {
            vars: Vec::new(alloc),
        }
    }

    /// Adds a variable inside the others.
    pub fn push(&mut self, name: &'a Name, value: u32) -> Result<(), NoMemory>
        ensures { OnOk result (self.new ≡ (name.entry.now, value) ∷ self.old) }
    {
        self.vars.push(Var { name, value })?;
        Ok(())
    }

    /// Takes the innermost variable off, where there is one.
    pub fn pop(&mut self)
        ensures { self.new ≡ drop 1 self.old }
    {
        self.vars.pop();
    }

    /// Gives the innermost variable of this name a value, where there is one.
    pub fn write(&mut self, name: &Name, value: u32)
        ensures { self.new ≡ write name.now value self.old }
    {
        let mut at = self.vars.len();
        'vars: while at > 0 {
            at -= 1;
            if is_same(name, self.vars[at].name) {
                self.vars[at].value = value;
                return;
            }
        }
    }

    /// The value of the innermost variable of this name, and 0 where there is none.
    #[tactic(auto, using(crate::proofs::Shared::Reading::found_read))]
    pub fn read(&self, name: &Name) -> u32
        ensures { result ≡ read name.now self.now }
    {
        self.value(name).unwrap_or(0)
    }

    /// The values of the variables, the innermost first.
    pub fn values(&self, alloc: Global) -> Result<Vec<u32>, NoMemory>
        ensures { IfOk result (λ v. v.items ≡ map (λ x. x.1) self.now) }
    {
        let mut values = Vec::new(alloc);
        let mut at = self.vars.len();
        'vars: while at > 0 {
            at -= 1;
            values.push(self.vars[at].value)?;
        }
        Ok(values)
    }
}

impl Lookup for Scope<'_> {
    ghost meaning = { λ s. s };

    /// The value of the innermost variable of this name, where there is one.
    fn value(&self, name: &Name) -> Option<u32>
        ensures { result ≡ found name.now self.now }
    {
        let mut at = self.vars.len();
        'vars: while at > 0 {
            at -= 1;
            if is_same(name, self.vars[at].name) {
                return Some(self.vars[at].value);
            }
        }
        None
    }
}
