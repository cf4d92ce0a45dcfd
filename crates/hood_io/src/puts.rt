ghost use Rattle.hood_io.specs.Causes.{HasCause};
ghost use Rattle.hood_io.specs.Sinks.{Puts};

use crate::sink::{Failed, Sink};

/// Writes the whole text, piece by piece. `Failed` comes only where the sink's count of faults rose
/// in this call; then a part of the text, from its beginning and never all of it, was written. The
/// count never falls. It takes no memory.
pub fn put_all<O: Sink>(out: &mut O, bytes: &[u8]) -> Result<(), Failed>
    ensures cause { HasCause (O.faults out.old) (O.faults out.new) result }
    ensures puts { Puts (O.written out.old) (O.written out.new) bytes.now result }
{
    let mut rest = bytes;
    'pieces: while !rest.is_empty() {
        let count = out.write(rest)?;
        let (_, after) = rest.split_at(count);
        rest = after;
    }
    Ok(())
}
