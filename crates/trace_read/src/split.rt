ghost use Rattle.std.specs.Prelude.{◌≡◌, ◌∷◌};
ghost use Rattle.law_traces.specs.Cuts.{cut};
ghost use Rattle.trace_read.specs.Pieces.{pieces};

/// The first piece of bytes between bytes of one kind, and the bytes behind it, where a byte of this kind ends it.
pub(crate) fn split(by: u8, bytes: &[u8]) -> (&[u8], Option<&[u8]>)
    ensures { cut by bytes.now ≡ result.0.now ∷ pieces by result.1 }
{
    let mut len = 0;
    let mut left = bytes;
    'bytes: while let Some((first, rest)) = left.split_first() {
        if *first == by {
            let (front, _) = bytes.split_at(len);
            return (front, Some(rest));
        }
        len += 1;
        left = rest;
    }
    (bytes, None)
}
