ghost use Rattle.std.specs.Prelude.{◌≡◌};
ghost use Rattle.hrthood_top.specs.Fetches.{texts_of};

use crate::file_kind::FileKind;
use std::alloc::Global;

/// The bytes of a command's files, by their kind; none of a kind that it has no file of.
#[derive(Drop)]
pub(crate) struct Texts {
    pub design: Vec<u8>,
    pub ada: Vec<u8>,
    pub arrivals: Vec<u8>,
    pub trace: Vec<u8>,
}

impl Texts {
    /// No bytes of any kind.
    pub(crate) fn new(alloc: Global) -> Texts {
        Texts {
            design: Vec::new(alloc),
            ada: Vec::new(alloc),
            arrivals: Vec::new(alloc),
            trace: Vec::new(alloc),
        }
    }

    /// Takes these bytes as those of a kind; those of the other kinds stay.
    pub(crate) fn put(&mut self, kind: FileKind, text: Vec<u8>)
        ensures taken { texts_of self.new kind ≡ text.items }
        ensures others { (other : FileKind) → (other ≡ kind → ⊥) → texts_of self.new other ≡ texts_of self.old other }
    {
        match kind {
            FileKind::Design => self.design = text,
            FileKind::Ada => self.ada = text,
            FileKind::Arrivals => self.arrivals = text,
            FileKind::Trace => self.trace = text,
        }
    }
}
