ghost use Rattle.std.specs.Prelude.{◌≡◌, None};
ghost use Rattle.std.specs.Io.KnownBytes.{WriteAppends};
ghost use Rattle.hood_io.specs.Causes.{HasCause};
ghost use Rattle.hood_io.specs.MemSink.{counted};
ghost use Rattle.hood_io.specs.Sinks.{Appends, Takes, taken_of};

use crate::sink::{Failed, Sink};
use std::io::{Stderr, Stdout, Write};

/// A sink over a stream. It tells nothing of what was written, since a stream need not tell what it holds. Where the stream tells it, the
/// clause `given` of `write` says what the stream was given.
#[derive(Drop)]
pub struct StreamSink<W: Write + Drop> {
    stream: W,
    faults: u64,
}

/// Standard output.
pub type OutSink = StreamSink<Stdout>;

/// Standard error.
pub type ErrSink = StreamSink<Stderr>;

impl<W: Write + Drop> StreamSink<W> {
    /// A sink over this stream, with no faults.
    pub fn new(stream: W) -> StreamSink<W>
        ensures stream { result.stream ≡ stream }
        ensures faults { result.faults ≡ 0 }
    {
        StreamSink { stream, faults: 0 }
    }
}

impl<W: Write + Drop> Sink for StreamSink<W> {
    ghost written = { λ _. None };

    ghost faults = { λ s. s.faults };

    /// Writes the piece to the stream, once. It fails where the stream does, or takes none of a piece that isn't empty; the count of faults
    /// then rises by one, and else stays. What is told as taken is at the end of what the stream holds, where the stream tells that.
    fn write(&mut self, bytes: &[u8]) -> Result<usize, Failed>
        ensures cause { HasCause self.old.faults self.new.faults result }
        ensures takes { Takes bytes.now result }
        ensures appends { Appends None None (taken_of bytes.now result) }

        // What a stream says beyond other sinks.
        ensures given { WriteAppends (W.contents self.old.stream) (W.contents self.new.stream) result bytes.now }
        ensures counted { self.new.faults ≡ counted result self.old.faults }
    {
        if bytes.is_empty() {
            return Ok(0);
        }
        match self.stream.write(bytes) {
            Ok(count) if count > 0 => Ok(count),
            _ => {
                self.faults = self.faults.saturating_add(1);
                Err(Failed)
            }
        }
    }
}
