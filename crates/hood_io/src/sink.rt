ghost use Rattle.std.specs.Prelude.{List, ℕ, Option};
ghost use Rattle.hood_io.specs.Causes.{HasCause};
ghost use Rattle.hood_io.specs.Sinks.{Appends, Takes, taken_of};

/// A write that failed: the sink took no byte of a piece that isn't empty.
#[derive(Clone, Copy, Debug, PartialEq, Eq)]
pub struct Failed;

/// Where a text goes.
pub trait Sink {
    /// The bytes written so far, where the sink tells them.
    ghost written: { Self → Option (List ℕ) };
    /// How many faults there were. The count stays at the greatest `u64` once it is there.
    ghost faults: { Self → ℕ };

    /// Writes the first bytes of the piece and answers how many: at least one of a piece that isn't
    /// empty, and 0 of an empty one. `Failed` comes only of a piece that isn't empty, and only
    /// where the count of faults rose; then nothing was written. The count never falls. It takes no
    /// memory.
    fn write(&mut self, bytes: &[u8]) -> Result<usize, Failed>
        ensures cause { HasCause (faults self.old) (faults self.new) result }
        ensures takes { Takes bytes.now result }
        ensures appends { Appends (written self.old) (written self.new) (taken_of bytes.now result) };
}
