ghost use Rattle.std.specs.Prelude.{◌++◌, List, ℕ};
ghost use Rattle.hood_io.specs.Causes.{HasCause};
ghost use Rattle.hood_io.specs.Sinks.{Puts};
ghost use Rattle.hrthood_top.specs.Messages.{joined, count_line};
ghost use Rattle.hrthood_top.specs.Tells.{Tells};

use hood_io::{Failed, Sink, put_all};
use itoa::Buffer;
use seq_tree::Name;

/// What is told in one line.
pub(crate) trait Line {
    /// The line.
    ghost line: { Self → List ℕ };

    /// Writes the line; after a failure a proper front of it was written.
    fn put<E: Sink>(&self, err: &mut E) -> Result<(), Failed>
        ensures cause { HasCause (E.faults err.old) (E.faults err.new) result }
        ensures puts { Puts (E.written err.old) (E.written err.new) (line self.now) result };
}

/// Tells a line; where the sink fails, a front of it.
pub(crate) fn tell<L: Line, E: Sink>(err: &mut E, told: &L)
    ensures { Tells (E.written err.old) (E.written err.new) (E.faults err.old) (E.faults err.new) (L.line told.now) }
{
    match told.put(err) {
        Ok(()) => {}
        Err(Failed) => {}
    }
}

/// Writes pieces one after another; after a failure a proper front of them all was written.
pub(crate) fn put_each<O: Sink>(out: &mut O, pieces: &[&[u8]]) -> Result<(), Failed>
    ensures cause { HasCause (O.faults out.old) (O.faults out.new) result }
    ensures puts { Puts (O.written out.old) (O.written out.new) (joined pieces.now) result }
{
    'pieces: for piece in pieces {
        put_all(out, piece)?;
    }
    Ok(())
}

/// Writes bytes between others; after a failure a proper front of them all was written.
pub(crate) fn put_between<E: Sink>(
    err: &mut E,
    before: &[u8],
    between: &[u8],
    behind: &[u8],
) -> Result<(), Failed>
    ensures cause { HasCause (E.faults err.old) (E.faults err.new) result }
    ensures puts { Puts (E.written err.old) (E.written err.new) (before.now ++ (between.now ++ behind.now)) result }
{
    put_each(err, &[before, between, behind])
}

/// Writes a name between other bytes; after a failure a proper front of them all was written.
pub(crate) fn put_named<E: Sink>(
    err: &mut E,
    before: &[u8],
    name: &Name,
    behind: &[u8],
) -> Result<(), Failed>
    ensures cause { HasCause (E.faults err.old) (E.faults err.new) result }
    ensures puts { Puts (E.written err.old) (E.written err.new) (before.now ++ (name.now ++ behind.now)) result }
{
    put_between(err, before, name.bytes(), behind)
}

/// Writes a line of a code and one number; after a failure a proper front of it was written.
pub(crate) fn put_count<E: Sink>(err: &mut E, code: &[u8], count: u32) -> Result<(), Failed>
    ensures cause { HasCause (E.faults err.old) (E.faults err.new) result }
    ensures puts { Puts (E.written err.old) (E.written err.new) (count_line code.now count) result }
{
    let mut number = Buffer::new();
    put_each(
        err,
        &[code, number.format(count).as_bytes(), b"\n".as_slice()],
    )
}
