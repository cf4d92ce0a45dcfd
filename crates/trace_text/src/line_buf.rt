ghost use Rattle.std.specs.Prelude.{◌≡◌, ◌+◌, ◌≤◌, [], ◌∷◌, ◌++◌, length, decimal};
ghost use Rattle.trace_tree.specs.Lines.{option_words, value_words};
ghost use Rattle.trace_text.specs.Spaced.{spaced};

use itoa::Buffer;
use std::marker::Model;
use trace_tree::Values;

/// Room for the line of one event: up to 512 bytes, none at first. Contracts see it as the list of its bytes.
#[derive(Drop)]
pub struct LineBuf {
    bytes: [u8; 512],
    len: usize,
}

impl Model for LineBuf {
    ghost use Rattle.std.specs.Prelude.{List, ℕ, ◌≤◌, take};

    ghost Value = { List ℕ };

    ghost view = { λ b. take b.len b.bytes };

    ghost invariant = { λ b. b.len ≤ 512 };
}

impl LineBuf {
    /// A buffer that holds no bytes.
    pub fn new() -> LineBuf
        ensures { result ≡ [] }
    {
        LineBuf {
            bytes: [0; 512],
            len: 0,
        }
    }

    /// The bytes, at most 512.
    pub fn bytes(&self) -> &[u8]
        ensures bytes { result.now ≡ self.now }
        ensures short { length result.now ≤ 512 }
    {
        &self.bytes[..self.len]
    }

    // Drops all bytes.
    pub(crate) fn clear(&mut self)
        ensures { self.new ≡ [] }
    {
        self.len = 0;
    }

    // Adds bytes.
    pub(crate) fn put(&mut self, piece: &[u8])
        requires { length self.old + length piece.now ≤ 512 }
        ensures text { self.new ≡ self.old ++ piece.now }
        ensures len { length self.new ≡ length self.old + length piece.now }
    {
        let end = self.len + piece.len();
        self.bytes[self.len..end].copy_from_slice(piece);
        self.len = end;
    }

    // Adds a number.
    pub(crate) fn digits(&mut self, n: u64)
        requires { length self.old + 20 ≤ 512 }
        ensures text { self.new ≡ self.old ++ decimal n }
        ensures len { length self.new ≤ length self.old + 20 }
    {
        let mut buffer = Buffer::new();
        self.put(buffer.format(n).as_bytes());
    }

    // Adds a word after a space.
    pub(crate) fn word(&mut self, word: &[u8])
        requires { length self.old + length word.now + 1 ≤ 512 }
        ensures text { self.new ≡ self.old ++ spaced (word.now ∷ []) }
        ensures len { length self.new ≡ length self.old + length word.now + 1 }
    {
        self.put(b" ");
        self.put(word);
    }

    // Adds a number after a space.
    pub(crate) fn number(&mut self, n: u64)
        requires { length self.old + 21 ≤ 512 }
        ensures text { self.new ≡ self.old ++ spaced (decimal n ∷ []) }
        ensures len { length self.new ≤ length self.old + 21 }
    {
        self.put(b" ");
        self.digits(n);
    }

    // Adds a value after a space, where there is one.
    pub(crate) fn value(&mut self, value: &Option<u32>)
        requires { length self.old + 21 ≤ 512 }
        ensures text { self.new ≡ self.old ++ spaced (option_words value.now) }
        ensures len { length self.new ≤ length self.old + 21 }
    {
        if let Some(n) = value {
            self.number(u64::from(*n));
        }
    }

    // Adds values, each after a space.
    #[tactic(auto, using(crate::proofs::Spacing::spaced_steps))]
    pub(crate) fn values(&mut self, values: &Values)
        requires { length self.old + 168 ≤ 512 }
        ensures text { self.new ≡ self.old ++ spaced (value_words values.now) }
        ensures len { length self.new ≤ length self.old + 168 }
    {
        'values: for n in values.as_slice() {
            self.number(u64::from(*n));
        }
    }
}
