ghost use Rattle.std.specs.Prelude.{◌≡◌};
ghost use Rattle.hrthood_top.specs.Messages.{message_line};
ghost use Rattle.hrthood_top.specs.Tells.{Tells};
ghost use Rattle.hrthood_top.specs.Writing.{Finishes, TellsEnding, TellsHalt, TellsStop, TellsUnread, TellsWritten};

use crate::fetch::Stop;
use crate::line::{Line, tell};
use crate::message::Message;
use crate::status::Status;
use crate::violation::Ending;
use bridge::Halt;
use hood_io::{Failed, Sink, put_all};
use hrthood_words::Unread;

/// Tells that the words are no command.
fn tell_usage<E: Sink>(err: &mut E) -> Status
    ensures ended { result ≡ Status.Usage }
    ensures told { Tells (E.written err.old) (E.written err.new) (E.faults err.old) (E.faults err.new) (message_line Message.Usage) }
{
    tell(err, &Message::Usage);
    Status::Usage
}

/// Tells that memory was wanted.
pub(crate) fn tell_no_memory<E: Sink>(err: &mut E) -> Status
    ensures ended { result ≡ Status.NoMemory }
    ensures told { Tells (E.written err.old) (E.written err.new) (E.faults err.old) (E.faults err.new) (message_line Message.NoMemory) }
{
    tell(err, &Message::NoMemory);
    Status::NoMemory
}

/// Tells why no command was read.
pub(crate) fn tell_unread<E: Sink>(err: &mut E, why: Unread) -> Status
    ensures { TellsUnread why result (E.written err.old) (E.written err.new) (E.faults err.old) (E.faults err.new) }
{
    match why {
        Unread::NoCommand => tell_usage(err),
        Unread::NoMemory => tell_no_memory(err),
    }
}

/// Tells why a verb made nothing.
pub(crate) fn tell_halt<R: Line + Drop, E: Sink>(err: &mut E, why: Halt<R>) -> Status
    ensures { TellsHalt R.line why result (E.written err.old) (E.written err.new) (E.faults err.old) (E.faults err.new) }
{
    match why {
        Halt::Refused(refusal) => {
            tell(err, &refusal);
            Status::Refused
        }
        Halt::NoMemory => tell_no_memory(err),
    }
}

/// Tells that a text could not be written whole.
fn tell_failed<E: Sink>(err: &mut E) -> Status
    ensures ended { result ≡ Status.WriteFault }
    ensures told { Tells (E.written err.old) (E.written err.new) (E.faults err.old) (E.faults err.new) (message_line Message.WriteFault) }
{
    tell(err, &Message::WriteFault);
    Status::WriteFault
}

/// Tells where a text could not be written whole.
pub(crate) fn tell_written<E: Sink>(err: &mut E, written: Result<(), Failed>) -> Status
    ensures { TellsWritten written result (E.written err.old) (E.written err.new) (E.faults err.old) (E.faults err.new) }
{
    match written {
        Ok(()) => Status::Done,
        Err(Failed) => tell_failed(err),
    }
}

/// Tells how a run ended, where its trace could not be written whole or it stopped at a ceiling.
pub(crate) fn tell_ending<E: Sink>(err: &mut E, ran: Result<Ending<'_>, Failed>) -> Status
    ensures { TellsEnding ran.entry result (E.written err.old) (E.written err.new) (E.faults err.old) (E.faults err.new) }
{
    match ran {
        Ok(Ending::Horizon) => Status::Done,
        Ok(Ending::Stopped(violation)) => {
            tell(err, &violation);
            Status::Refused
        }
        Err(Failed) => tell_failed(err),
    }
}

/// Writes what a verb made, or tells why it made nothing.
pub(crate) fn finish<R: Line + Drop, O: Sink, E: Sink>(
    out: &mut O,
    err: &mut E,
    made: Result<Vec<u8>, Halt<R>>,
) -> Status
    ensures { Finishes (λ v. v.items) (TellsHalt R.line) made result (O.written out.old) (O.written out.new) (O.faults out.old) (O.faults out.new)
        (E.written err.old) (E.written err.new) (E.faults err.old) (E.faults err.new) }
{
    match made {
        Ok(text) => tell_written(err, put_all(out, &text)),
        Err(why) => tell_halt(err, why),
    }
}

/// Tells why the files of a command could not be had.
pub(crate) fn tell_stop<E: Sink>(err: &mut E, stop: Stop) -> Status
    ensures { TellsStop result stop.entry (E.written err.old) (E.written err.new) (E.faults err.old) (E.faults err.new) }
{
    match stop {
        Stop::TooLong(kind) => {
            tell(err, &Message::TooLong(kind));
            Status::Refused
        }
        Stop::ReadFault(name) => {
            tell(err, &Message::ReadFault(name));
            Status::ReadFault
        }
        Stop::NoMemory => tell_no_memory(err),
    }
}
