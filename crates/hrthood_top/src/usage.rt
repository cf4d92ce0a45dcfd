ghost use Rattle.std.specs.Prelude.{◌++◌, map};
ghost use Rattle.hood_io.specs.Causes.{HasCause};
ghost use Rattle.hood_io.specs.Sinks.{Puts};
ghost use Rattle.hrthood_words.specs.Views.{listed};
ghost use Rattle.hrthood_words.specs.Words.{operands_text, usage_of};

use crate::line::put_between;
use hood_io::{Failed, Sink, put_all};
use hrthood_words::{Shape, operands_text};

/// Writes a verb with its operands behind other bytes; after a failure a proper front of them all was written.
fn put_verb<E: Sink>(err: &mut E, before: &[u8], verb: &str, shape: Shape) -> Result<(), Failed>
    ensures cause { HasCause (E.faults err.old) (E.faults err.new) result }
    ensures puts { Puts (E.written err.old) (E.written err.new) (before.now ++ (verb.now ++ operands_text shape)) result }
{
    put_between(err, before, verb.as_bytes(), operands_text(shape))
}

/// Writes the usage line of these verbs; after a failure a proper front of it was written.
pub(crate) fn put_usage<E: Sink>(err: &mut E, words: &[(&str, Shape)]) -> Result<(), Failed>
    ensures cause { HasCause (E.faults err.old) (E.faults err.new) result }
    ensures puts { Puts (E.written err.old) (E.written err.new) (usage_of (map listed words.now)) result }
{
    let mut before = b"usage: hrthood ".as_slice();
    'words: for word in words {
        let (verb, shape) = *word;
        put_verb(err, before, verb, shape)?;
        before = b" | ".as_slice();
    }
    put_all(err, b"\n")
}
