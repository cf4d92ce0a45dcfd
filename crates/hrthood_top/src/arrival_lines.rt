ghost use Rattle.hood_io.specs.Causes.{HasCause};
ghost use Rattle.hood_io.specs.Sinks.{Puts};
ghost use Rattle.arrivals_read.specs.declared.fault.ArrivalFault.TheVariants.{Q4};
ghost use Rattle.hrthood_top.specs.Messages.{arrivals_line, item_line};

use crate::file_kind::FileKind;
use crate::line::{put_count, put_each};
use crate::text_lines::put_fault;
use arrivals_read::ArrivalFault;
use hood_io::{Failed, Sink, put_all};
use itoa::Buffer;
use seq_tree::Name;

/// Writes a code, the line of an item and a name; after a failure a proper front of them was written.
fn put_item<E: Sink>(err: &mut E, code: &[u8], line: u32, name: &Name) -> Result<(), Failed>
    ensures cause { HasCause (E.faults err.old) (E.faults err.new) result }
    ensures puts { Puts (E.written err.old) (E.written err.new) (item_line code.now line name.now) result }
{
    let mut number = Buffer::new();
    put_each(
        err,
        &[
            code,
            number.format(line).as_bytes(),
            b" ".as_slice(),
            name.bytes(),
            b"\n".as_slice(),
        ],
    )
}

/// Writes the line of a horizon that is too far; after a failure a proper front of it was written.
fn put_far<E: Sink>(err: &mut E, value: u32, limit: u32) -> Result<(), Failed>
    ensures cause { HasCause (E.faults err.old) (E.faults err.new) result }
    ensures puts { Puts (E.written err.old) (E.written err.new) (arrivals_line (Q4 value limit)) result }
{
    let mut until = Buffer::new();
    let mut most = Buffer::new();
    put_each(
        err,
        &[
            b"refused Q4 value ".as_slice(),
            until.format(value).as_bytes(),
            b" limit ".as_slice(),
            most.format(limit).as_bytes(),
            b"\n".as_slice(),
        ],
    )
}

/// Writes the line of what is wrong with arrivals; after a failure a proper front of it was written.
pub(crate) fn put_arrivals<E: Sink>(err: &mut E, fault: &ArrivalFault) -> Result<(), Failed>
    ensures cause { HasCause (E.faults err.old) (E.faults err.new) result }
    ensures puts { Puts (E.written err.old) (E.written err.new) (arrivals_line fault.now) result }
{
    match fault {
        ArrivalFault::Text(found) => put_fault(err, FileKind::Arrivals, *found),
        ArrivalFault::Q1 { line } => put_count(err, b"refused Q1 line ", *line),
        ArrivalFault::Q2 { line, name } => put_item(err, b"refused Q2 line ", *line, name),
        ArrivalFault::Q3 { line, object } => put_item(err, b"refused Q3 line ", *line, object),
        ArrivalFault::Q4 { value, limit } => put_far(err, *value, *limit),
        ArrivalFault::Q5 { line } => put_count(err, b"refused Q5 line ", *line),
        ArrivalFault::NoMemory => put_all(err, b"refused\n"),
    }
}
