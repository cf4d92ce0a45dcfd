//! The program: it hands the words of the command line, the files and the standard streams to `run`, and ends
//! with the status that `run` answers.
#![tactic(auto)]

ghost use Rattle.std.specs.Prelude.{◌≡◌, IfOk, OnErr, map, string_bytes};
ghost use Rattle.std.specs.Process.{exit_status as number_of};
ghost use Rattle.hrthood_top.specs.Ends.{Ends, outside};
ghost use Rattle.hrthood_top.specs.Exits.{exit_status};
ghost use Rattle.hrthood_words.specs.Words.{command_of};

#[cfg(test)]
mod tests;

use hood_io::{ErrSink, FileShelf, NoMemory, OutSink, Shelf, Sink, given_words};
use hrthood_top::{Status, run};
use std::alloc::Global;
use std::process::ExitCode;

/// The exit status of a status.
fn exit_code(status: Status) -> ExitCode
    ensures { number_of result ≡ exit_status status }
{
    ExitCode::from(status.code())
}

/// Runs the words over a shelf and sinks, and answers the exit status: that of the status with which the run ends. Where memory for the
/// words was refused, nothing is run.
fn answer<F: Shelf, O: Sink, E: Sink>(
    alloc: Global,
    words: Result<Vec<String>, NoMemory>,
    shelf: &mut F,
    out: &mut O,
    err: &mut E,
) -> ExitCode
    ensures ends { IfOk words (λ w. (status : Status) × (number_of result ≡ exit_status status)
        × Ends status (command_of (map string_bytes w.items))
        (outside (F.told shelf.old) (F.faults shelf.old) (O.written out.old) (O.faults out.old) (E.written err.old) (E.faults err.old))
        (outside (F.told shelf.new) (F.faults shelf.new) (O.written out.new) (O.faults out.new) (E.written err.new) (E.faults err.new))) }
    ensures unread { OnErr words (number_of result ≡ exit_status Status.NoMemory) }
{
    match words {
        Ok(words) => exit_code(run(alloc, &words, shelf, out, err)),
        Err(NoMemory) => exit_code(Status::NoMemory),
    }
}

fn main(rt: HostRuntime) -> ExitCode {
    let alloc = rt.alloc();
    let mut shelf = FileShelf::new(&rt);
    let mut out = OutSink::new(rt.stdout());
    let mut err = ErrSink::new(rt.stderr());
    answer(
        alloc,
        given_words(&rt, alloc),
        &mut shelf,
        &mut out,
        &mut err,
    )
}
