ghost use Rattle.std.specs.Prelude.{◌≡◌, IfOk};
ghost use Rattle.hood_io.specs.Causes.{HasCause};
ghost use Rattle.hood_io.specs.Sinks.{Puts};
ghost use Rattle.ada_tree.specs.Rules.{MeetsRules};
ghost use Rattle.guarantee.specs.Programs as programs;
ghost use Rattle.ods_rules.specs.Checks.{checked_design};
ghost use Rattle.law_traces.specs.Told.{HasPlainNames};
ghost use Rattle.hrthood_top.specs.Acceptances.{acceptances, accepts_line, halted_trace, trace_line, yes_line};
ghost use Rattle.hrthood_top.specs.Acceptances.{IsAcceptedSo, IsYes, RefusesAccepts, RefusesTrace};
ghost use Rattle.hrthood_top.specs.Ends.{EndsVerb, outside};
ghost use Rattle.hrthood_top.specs.Messages.{count_line};
ghost use Rattle.hrthood_top.specs.Writing.{IsMade};

use crate::arrival_lines::put_arrivals;
use crate::design_program::design_program;
use crate::fetch::{File, fetch_files};
use crate::file_kind::FileKind;
use crate::finish::{finish, tell_stop};
use crate::line::{Line, put_each, put_named};
use crate::status::Status;
use ada_tree::AdaProgram;
use arrivals_read::{ArrivalFault, read_arrivals};
use arrivals_tree::Arrivals;
use bridge::{Halt, Untaken, take};
use design_accepts::{Unaccepted, accepts as judge};
use hood_io::{Failed, Shelf, Sink, put_all};
use itoa::Buffer;
use ods_rules::Checked;
use seq_tree::NoMemory;
use std::alloc::Global;

/// Why a trace is not accepted.
#[derive(Drop, Debug)]
pub enum AcceptsRefusal {
    /// The bytes are not the text of a design, or the design breaks a rule.
    Untaken(Untaken),
    /// The arrivals text is none for the program of the design, for this reason; never for want of memory.
    Arrivals(ArrivalFault),
    /// The text is no trace that the design's machine allows, for this reason; never for want of memory.
    Trace(Unaccepted),
}

/// Writes a line of a code and a number; after a failure a proper front of it was written.
fn put_number<E: Sink>(err: &mut E, code: &[u8], number: u64) -> Result<(), Failed>
    ensures cause { HasCause (E.faults err.old) (E.faults err.new) result }
    ensures puts { Puts (E.written err.old) (E.written err.new) (count_line code.now number) result }
{
    let mut digits = Buffer::new();
    put_each(
        err,
        &[code, digits.format(number).as_bytes(), b"\n".as_slice()],
    )
}

/// Writes the line of why a text is no trace that is allowed; after a failure a proper front of it was written.
fn put_unaccepted<E: Sink>(err: &mut E, why: &Unaccepted) -> Result<(), Failed>
    ensures cause { HasCause (E.faults err.old) (E.faults err.new) result }
    ensures puts { Puts (E.written err.old) (E.written err.new) (trace_line why.now) result }
{
    match why {
        Unaccepted::Line { line } => put_number(err, b"refused T1 line ", *line),
        Unaccepted::Times => put_all(err, b"refused T2 a\n"),
        Unaccepted::Cyclic { thread } => put_named(err, b"refused T2 b ", thread, b"\n"),
        Unaccepted::Arrivals => put_all(err, b"refused T2 c\n"),
        Unaccepted::Requests { thread } => put_named(err, b"refused T2 c ", thread, b"\n"),
        Unaccepted::Script { thread } => put_named(err, b"refused T2 d ", thread, b"\n"),
        Unaccepted::Shared { object } => put_named(err, b"refused T2 e ", object, b"\n"),
        Unaccepted::NoMemory => put_all(err, b"refused\n"),
    }
}

impl Line for AcceptsRefusal {
    ghost line = { accepts_line };

    fn put<E: Sink>(&self, err: &mut E) -> Result<(), Failed>
        ensures cause { HasCause (E.faults err.old) (E.faults err.new) result }
        ensures puts { Puts (E.written err.old) (E.written err.new) (accepts_line self.now) result }
    {
        match self {
            AcceptsRefusal::Untaken(refusal) => refusal.put(err),
            AcceptsRefusal::Arrivals(fault) => put_arrivals(err, fault),
            AcceptsRefusal::Trace(why) => put_unaccepted(err, why),
        }
    }
}

/// The line of a trace that is accepted.
fn yes_line(alloc: Global, lines: u64) -> Result<Vec<u8>, NoMemory>
    ensures { IfOk result (λ v. v.items ≡ yes_line lines) }
{
    let mut digits = Buffer::new();
    let mut line = Vec::new(alloc);
    line.extend_from_slice(b"yes lines ")?;
    line.extend_from_slice(digits.format(lines).as_bytes())?;
    line.extend_from_slice(b"\n")?;
    Ok(line)
}

/// Why a trace is not accepted, as why nothing is told.
fn trace_halt(why: Unaccepted) -> Halt<AcceptsRefusal>
    ensures { result ≡ halted_trace why }
{
    match why {
        Unaccepted::NoMemory => Halt::NoMemory,
        other => Halt::Refused(AcceptsRefusal::Trace(other)),
    }
}

/// What is told of a text as a trace of a design that meets the rules, under arrivals.
fn accepts_checked(
    alloc: Global,
    checked: &Checked,
    arrivals: &[u8],
    trace: &[u8],
) -> Result<Vec<u8>, Halt<AcceptsRefusal>>
    requires meets { MeetsRules (programs.program (checked_design checked.now)) }
    requires plain { HasPlainNames (programs.program (checked_design checked.now)) }
    ensures { IsMade (λ v. v.items) (IsYes (checked_design checked.now) arrivals.now trace.now)
        (RefusesTrace (checked_design checked.now) arrivals.now trace.now) result }
{
    let program = match design_program(alloc, checked) {
        Ok(program) => program,
        Err(NoMemory) => return Err(Halt::NoMemory),
    };
    let under = match read_arrivals(alloc, arrivals, &program) {
        Ok(under) => under,
        Err(ArrivalFault::NoMemory) => return Err(Halt::NoMemory),
        Err(fault) => return Err(Halt::Refused(AcceptsRefusal::Arrivals(fault))),
    };
    let lines = match judge(alloc, checked, &program, &under, trace) {
        Ok(lines) => lines,
        Err(why) => return Err(trace_halt(why)),
    };
    match yes_line(alloc, lines) {
        Ok(line) => Ok(line),
        Err(NoMemory) => Err(Halt::NoMemory),
    }
}

/// What is told of a text as a trace of the text of a design, under arrivals.
fn accepts_text(
    alloc: Global,
    design: &[u8],
    arrivals: &[u8],
    trace: &[u8],
) -> Result<Vec<u8>, Halt<AcceptsRefusal>>
    ensures { IsMade (λ v. v.items) (IsAcceptedSo design.now arrivals.now trace.now) (RefusesAccepts design.now arrivals.now trace.now) result }
{
    match take(alloc, design) {
        Ok(checked) => accepts_checked(alloc, &checked, arrivals, trace),
        Err(Halt::Refused(refusal)) => Err(Halt::Refused(AcceptsRefusal::Untaken(refusal))),
        Err(Halt::NoMemory) => Err(Halt::NoMemory),
    }
}

/// Does the verb `accepts`, from its files to what is written.
pub(crate) fn accepts<F: Shelf, O: Sink, E: Sink>(
    alloc: Global,
    design: &str,
    arrivals: &str,
    trace: &str,
    shelf: &mut F,
    out: &mut O,
    err: &mut E,
) -> Status
    ensures { EndsVerb result (acceptances design.now arrivals.now trace.now)
        (outside (F.told shelf.old) (F.faults shelf.old) (O.written out.old) (O.faults out.old) (E.written err.old) (E.faults err.old))
        (outside (F.told shelf.new) (F.faults shelf.new) (O.written out.new) (O.faults out.new) (E.written err.new) (E.faults err.new)) }
{
    let files = [
        File {
            kind: FileKind::Design,
            name: design,
        },
        File {
            kind: FileKind::Arrivals,
            name: arrivals,
        },
        File {
            kind: FileKind::Trace,
            name: trace,
        },
    ];
    match fetch_files(alloc, shelf, &files) {
        Ok(texts) => finish(
            out,
            err,
            accepts_text(alloc, &texts.design, &texts.arrivals, &texts.trace),
        ),
        Err(stop) => tell_stop(err, stop),
    }
}
