ghost use Rattle.std.specs.Prelude.{◌≡◌};
ghost use Rattle.hrthood_top.specs.Files.{limit_of, kind_text};

use seq_tree::{ADA_LIMIT, TEXT_LIMIT};

/// What a file is read as.
#[derive(Clone, Copy, Debug, PartialEq, Eq)]
pub enum FileKind {
    /// The text of a design.
    Design,
    /// An Ada text.
    Ada,
    /// The arrivals of a run.
    Arrivals,
    /// The lines of a trace.
    Trace,
}

/// The most bytes that a file of a kind may have.
pub(crate) fn limit_of(kind: FileKind) -> usize
    ensures { result ≡ limit_of kind }
{
    match kind {
        FileKind::Design => TEXT_LIMIT,
        FileKind::Ada => ADA_LIMIT,
        FileKind::Arrivals => TEXT_LIMIT,
        FileKind::Trace => ADA_LIMIT,
    }
}

/// What a file of a kind is called in a message.
pub(crate) fn kind_text(kind: FileKind) -> &'static [u8]
    ensures { result.now ≡ kind_text kind }
{
    match kind {
        FileKind::Design => b"design",
        FileKind::Ada => b"ada",
        FileKind::Arrivals => b"arrivals",
        FileKind::Trace => b"trace",
    }
}
