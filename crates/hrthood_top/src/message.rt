ghost use Rattle.hood_io.specs.Causes.{HasCause};
ghost use Rattle.hood_io.specs.Sinks.{Puts};
ghost use Rattle.hrthood_top.specs.Messages.{message_line};

use crate::file_kind::{FileKind, kind_text};
use crate::line::{Line, put_each};
use crate::usage::put_usage;
use hood_io::{Failed, Sink, put_all};
use hrthood_words::VERBS;

/// What is told where a command was not done, for a reason that all verbs share.
#[derive(Clone, Copy)]
pub(crate) enum Message<'a> {
    /// The words are no command.
    Usage,
    /// A file of this kind has more bytes than its kind may have.
    TooLong(FileKind),
    /// The file with this name could not be read.
    ReadFault(&'a str),
    /// Standard output did not take all.
    WriteFault,
    /// Memory was wanted.
    NoMemory,
}

impl<'a> Line for Message<'a> {
    ghost line = { message_line };

    fn put<E: Sink>(&self, err: &mut E) -> Result<(), Failed>
        ensures cause { HasCause (E.faults err.old) (E.faults err.new) result }
        ensures puts { Puts (E.written err.old) (E.written err.new) (message_line self.now) result }
    {
        match self {
            Message::Usage => put_usage(err, &VERBS),
            Message::TooLong(kind) => put_each(
                err,
                &[
                    b"refused S3 ".as_slice(),
                    kind_text(*kind),
                    b"\n".as_slice(),
                ],
            ),
            Message::ReadFault(name) => put_each(
                err,
                &[
                    b"fault reading ".as_slice(),
                    name.as_bytes(),
                    b"\n".as_slice(),
                ],
            ),
            Message::WriteFault => put_all(err, b"fault writing\n"),
            Message::NoMemory => put_all(err, b"no memory\n"),
        }
    }
}
