ghost use Rattle.hood_io.specs.Causes.{HasCause};
ghost use Rattle.hood_io.specs.Sinks.{Puts};
ghost use Rattle.hrthood_top.specs.Formats.{format_line, IsFormatted, RefusesFormat};
ghost use Rattle.hrthood_top.specs.Writing.{IsMade};

use crate::file_kind::FileKind;
use crate::line::Line;
use crate::text_lines::put_fault;
use bridge::Halt;
use hood_io::{Failed, Sink};
use ods_print::format as print_design;
use ods_read::read_design;
use seq_tree::{NoMemory, TextFault};
use std::alloc::Global;

/// Why a design is not printed.
#[derive(Drop, Debug)]
pub enum FormatRefusal {
    /// The bytes are not the text of a design, for this reason and at this place.
    Text(TextFault),
}

impl Line for FormatRefusal {
    ghost line = { format_line };

    fn put<E: Sink>(&self, err: &mut E) -> Result<(), Failed>
        ensures cause { HasCause (E.faults err.old) (E.faults err.new) result }
        ensures puts { Puts (E.written err.old) (E.written err.new) (format_line self.now) result }
    {
        match self {
            FormatRefusal::Text(fault) => put_fault(err, FileKind::Design, *fault),
        }
    }
}

/// The text of a design, printed again.
pub(crate) fn format_text(alloc: Global, design: &[u8]) -> Result<Vec<u8>, Halt<FormatRefusal>>
    ensures { IsMade (λ v. v.items) (IsFormatted design.now) (RefusesFormat design.now) result }
{
    let read = match read_design(alloc, design) {
        Ok(read) => read,
        Err(TextFault::NoMemory) => return Err(Halt::NoMemory),
        Err(fault) => return Err(Halt::Refused(FormatRefusal::Text(fault))),
    };
    match print_design(alloc, &read) {
        Ok(text) => Ok(text),
        Err(NoMemory) => Err(Halt::NoMemory),
    }
}
