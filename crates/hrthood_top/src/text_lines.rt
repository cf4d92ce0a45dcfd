ghost use Rattle.std.specs.Prelude.{◌≡◌, ◌++◌, option_map};
ghost use Rattle.hood_io.specs.Causes.{HasCause};
ghost use Rattle.hood_io.specs.Sinks.{Puts};
ghost use Rattle.hrthood_top.specs.Files.{kind_text};
ghost use Rattle.hrthood_top.specs.Messages.{place_text, text_line, body_text, FaultAt};

use crate::file_kind::FileKind;
use crate::line::put_each;
use hood_io::{Failed, Sink, put_all};
use itoa::Buffer;
use seq_check::BodyFault;
use seq_tree::{Place, TextFault};

/// The code of what is wrong with a text, and its place.
fn fault_of(kind: FileKind, fault: TextFault) -> Option<(&'static [u8], Place)>
    ensures { FaultAt kind fault (option_map (λ p. (p.0.now, p.1)) result) }
{
    match fault {
        TextFault::Byte(place) => Some((b"refused L1", place)),
        TextFault::Number(place) => Some((b"refused L2", place)),
        TextFault::Long(place) => Some((b"refused L3", place)),
        TextFault::Syntax(place) => Some((b"refused S1", place)),
        TextFault::TooDeep(place) => Some((b"refused S2", place)),
        TextFault::FileTooLong | TextFault::NoMemory => None,
    }
}

/// What a file of a kind is called in a message, for as long as a line is written.
fn kind_word<'a>(kind: FileKind) -> &'a [u8]
    ensures { result.now ≡ kind_text kind }
{
    match kind {
        FileKind::Design => b"design",
        FileKind::Ada => b"ada",
        FileKind::Arrivals => b"arrivals",
        FileKind::Trace => b"trace",
    }
}

/// Writes a code and a place in a file of a kind; after a failure a proper front of them was written.
fn put_place<E: Sink>(err: &mut E, code: &[u8], kind: FileKind, place: Place) -> Result<(), Failed>
    ensures cause { HasCause (E.faults err.old) (E.faults err.new) result }
    ensures puts { Puts (E.written err.old) (E.written err.new) (code.now ++ place_text kind place) result }
{
    let mut line = Buffer::new();
    let mut column = Buffer::new();
    put_each(
        err,
        &[
            code,
            b" ".as_slice(),
            kind_word(kind),
            b" line ".as_slice(),
            line.format(place.line).as_bytes(),
            b" column ".as_slice(),
            column.format(place.column).as_bytes(),
            b"\n".as_slice(),
        ],
    )
}

/// Writes the line of what is wrong with the text of a file; after a failure a proper front of it was written.
pub(crate) fn put_fault<E: Sink>(
    err: &mut E,
    kind: FileKind,
    fault: TextFault,
) -> Result<(), Failed>
    ensures cause { HasCause (E.faults err.old) (E.faults err.new) result }
    ensures puts { Puts (E.written err.old) (E.written err.new) (text_line kind fault) result }
{
    match fault_of(kind, fault) {
        Some((code, place)) => put_place(err, code, kind, place),
        None => put_all(err, b"refused\n"),
    }
}

/// The code of a fault of a body.
pub(crate) fn body_text<'a>(fault: BodyFault) -> &'a [u8]
    ensures { result.now ≡ body_text fault }
{
    match fault {
        BodyFault::Unknown => b" B1",
        BodyFault::Sort => b" B2",
        BodyFault::Divisor => b" B3",
        BodyFault::Exit => b" B4",
        BodyFault::Assigned => b" B5",
        BodyFault::Actual => b" B6",
        BodyFault::Count => b" B7",
        BodyFault::NoMemory => b"",
    }
}
