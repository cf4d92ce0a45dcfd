ghost use Rattle.std.specs.Prelude.{◌≡◌};
ghost use Rattle.seq_tree.specs.Names.{Name as NameBytes};
ghost use Rattle.linker.specs.Leads.{Leads};
ghost use Rattle.linker.specs.Targets.{leads_of};

use seq_tree::{Name, Param};

/// What a call leads to, by places.
#[derive(Clone, Copy, Drop)]
pub enum Target<'a> {
    /// An operation with a body: its place among all of them, and its parameters.
    Body { place: u32, params: &'a [Param] },
    /// The request of a task, by its place among the tasks.
    Request(u32),
    /// Nothing.
    Nowhere,
}

/// What calls lead to.
pub trait Calls {
    /// What a call of this operation of the unit of this name leads to.
    ghost leads: { Self → NameBytes → NameBytes → Leads };

    /// What a call of this operation of the unit of this name leads to. It takes no memory.
    fn target(&self, unit: &Name, op: &Name) -> Target
        ensures { leads_of result ≡ leads self.now unit.now op.now };
}
