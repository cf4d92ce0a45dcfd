ghost use Rattle.std.specs.Prelude.{◌≡◌, ◌∷◌, [], MatchOption};
ghost use Rattle.law_traces.specs.Cuts.{cut};

use crate::split::split;
use std::marker::Model;

/// Pieces of bytes, between bytes of one kind. Contracts see the list of those that are left.
#[derive(Drop)]
pub(crate) struct Words<'a> {
    by: u8,
    left: Option<&'a [u8]>,
}

impl<'a> Model for Words<'a> {
    ghost use Rattle.std.specs.Prelude.{List, ℕ};
    ghost use Rattle.trace_read.specs.Pieces.{pieces};

    ghost Value = { List (List ℕ) };

    ghost view = { λ w. pieces w.by w.left };
}

impl<'a> Words<'a> {
    /// The pieces of bytes.
    pub(crate) fn new(by: u8, bytes: &'a [u8]) -> Words<'a>
        ensures { result ≡ cut by bytes.entry.now }
    {
        Words {
            by,
            left: Some(bytes),
        }
    }

    /// The same pieces once more.
    pub(crate) fn copy(&self) -> Words<'a>
        ensures { result ≡ self.now }
    {
        Words {
            by: self.by,
            left: self.left,
        }
    }

    /// The next piece, where one is left.
    pub(crate) fn next(&mut self) -> Option<&'a [u8]>
        ensures { MatchOption result ((self.old ≡ []) × (self.new ≡ [])) (λ w. self.old ≡ w.now ∷ self.new) }
    {
        let bytes = self.left.take()?;
        let (front, rest) = split(self.by, bytes);
        self.left = rest;
        Some(front)
    }
}
