ghost use Rattle.std.specs.Prelude.{◌≡◌, ◌≤◌, ◌+◌, ◌++◌, [], length, OnOk};
ghost use Rattle.hood_io.specs.Causes.{HasCause};
ghost use Rattle.hood_io.specs.Sinks.{Puts};
ghost use Rattle.hrthood_top.specs.Streaming.{Gathers};

use hood_io::{Failed, Sink, put_all};
use std::marker::Model;

/// Bytes that are gathered before a sink gets them, so that it gets few pieces: up to 4096, none at first. Contracts see it as
/// the list of its bytes.
#[derive(Drop)]
pub(crate) struct Page {
    bytes: [u8; 4096],
    len: usize,
}

impl Model for Page {
    ghost use Rattle.std.specs.Prelude.{List, ℕ, ◌≤◌, take};

    ghost Value = { List ℕ };

    ghost view = { λ p. take p.len p.bytes };

    ghost invariant = { λ p. p.len ≤ 4096 };
}

impl Page {
    /// A page that holds no bytes.
    pub(crate) fn new() -> Page
        ensures { result ≡ [] }
    {
        Page {
            bytes: [0; 4096],
            len: 0,
        }
    }

    /// The bytes that it holds.
    fn bytes(&self) -> &[u8]
        ensures { result.now ≡ self.now }
    {
        &self.bytes[..self.len]
    }

    /// Adds bytes that there is room for.
    fn add(&mut self, piece: &[u8])
        requires { length self.old + length piece.now ≤ 4096 }
        ensures { self.new ≡ self.old ++ piece.now }
    {
        let end = self.len + piece.len();
        self.bytes[self.len..end].copy_from_slice(piece);
        self.len = end;
    }

    /// Writes the bytes that it holds, and then holds none; after a failure a proper front of them was written.
    pub(crate) fn flush<O: Sink>(&mut self, out: &mut O) -> Result<(), Failed>
        ensures cause { HasCause (O.faults out.old) (O.faults out.new) result }
        ensures puts { Puts (O.written out.old) (O.written out.new) self.old result }
        ensures empty { OnOk result (self.new ≡ []) }
    {
        put_all(out, self.bytes())?;
        self.len = 0;
        Ok(())
    }

    /// Adds bytes; where there is no room for them, it writes those that it holds first.
    pub(crate) fn put<O: Sink>(&mut self, piece: &[u8], out: &mut O) -> Result<(), Failed>
        requires { length piece.now ≤ 512 }
        ensures cause { HasCause (O.faults out.old) (O.faults out.new) result }
        ensures gathers { Gathers self.old piece.now self.new (O.written out.old) (O.written out.new) result }
    {
        if self.len > 4096 - 512 {
            self.flush(out)?;
        }
        self.add(piece);
        Ok(())
    }
}
