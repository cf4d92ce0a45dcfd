ghost use Rattle.std.specs.Prelude.{◌≡◌, ◌++◌, List, ℕ, IfOk, false};
ghost use Rattle.ada_tree.specs.Rules.{MeetsRules};
ghost use Rattle.ada_tree.specs.Trees.{program_of};
ghost use Rattle.arrivals_tree.specs.Arriving.{Arrivals as Arriving};
ghost use Rattle.bridge.specs.Delivers.{IsTextFor};
ghost use Rattle.ceil_runtime.specs.Shown.{IsWhole, running_of};
ghost use Rattle.hood_io.specs.Causes.{HasCause};
ghost use Rattle.hood_io.specs.Sinks.{Puts};
ghost use Rattle.machine.specs.Systems.{system};
ghost use Rattle.hrthood_top.specs.Ends.{EndsVerb, outside};
ghost use Rattle.hrthood_top.specs.Fetches.{texts_of};
ghost use Rattle.hrthood_top.specs.Replays.{SaysProgram};
ghost use Rattle.hrthood_top.specs.Verifies.{PutsBehind, halted_arrivals, halted_design, trace_mark, verifies, verify_line};
ghost use Rattle.hrthood_top.specs.Writing.{Streams};

use crate::arrival_lines::put_arrivals;
use crate::fetch::{File, fetch_files};
use crate::file_kind::FileKind;
use crate::finish::{tell_ending, tell_halt, tell_stop};
use crate::generate::{GenerateRefusal, generate_text};
use crate::line::{Line, put_each};
use crate::status::Status;
use crate::texts::Texts;
use crate::trace::put_trace;
use crate::violation::Ending;
use ada_read::{AdaFault, read_ada};
use ada_tree::AdaProgram;
use arrivals_read::{ArrivalFault, read_arrivals};
use bridge::Halt;
use ceil_runtime::Machine;
use hood_io::{Failed, Shelf, Sink};
use seq_tree::NoMemory;
use std::alloc::Global;

/// Why a design is not verified under arrivals.
#[derive(Drop, Debug)]
pub enum VerifyRefusal {
    /// No Ada text is made of the design, for this reason.
    Design(GenerateRefusal),
    /// The arrivals text is none for the program of the design, for this reason; never for want of memory.
    Arrivals(ArrivalFault),
}

impl Line for VerifyRefusal {
    ghost line = { verify_line };

    fn put<E: Sink>(&self, err: &mut E) -> Result<(), Failed>
        ensures cause { HasCause (E.faults err.old) (E.faults err.new) result }
        ensures puts { Puts (E.written err.old) (E.written err.new) (verify_line self.now) result }
    {
        match self {
            VerifyRefusal::Design(refusal) => refusal.put(err),
            VerifyRefusal::Arrivals(fault) => put_arrivals(err, fault),
        }
    }
}

/// The program of the text that was made of a design. Such a text is never refused.
pub(crate) fn read_made(alloc: Global, text: &[u8]) -> Result<AdaProgram, NoMemory>
    requires { (design : List ℕ) × IsTextFor design text.now }
    ensures says { IfOk result (λ p. SaysProgram text.now (program_of p)) }
    ensures meets { IfOk result (λ p. MeetsRules (program_of p)) }
{
    match read_ada(alloc, text) {
        Ok(program) => Ok(program),
        Err(AdaFault::NoMemory) => Err(NoMemory),
        Err(AdaFault::Text(_)) => unreachable!(),
        Err(AdaFault::Rule { .. }) => unreachable!(),
    }
}

/// Why no text is made, as why nothing is verified.
fn design_halt(why: Halt<GenerateRefusal>) -> Halt<VerifyRefusal>
    ensures { result ≡ halted_design why }
{
    match why {
        Halt::Refused(refusal) => Halt::Refused(VerifyRefusal::Design(refusal)),
        Halt::NoMemory => Halt::NoMemory,
    }
}

/// Why there are no arrivals, as why nothing is verified.
fn arrivals_halt(fault: ArrivalFault) -> Halt<VerifyRefusal>
    ensures { result ≡ halted_arrivals fault }
{
    match fault {
        ArrivalFault::NoMemory => Halt::NoMemory,
        other => Halt::Refused(VerifyRefusal::Arrivals(other)),
    }
}

/// Writes the text of a design, the line between, and then the trace of its program line by line; it tells how the run ended. After a failure a
/// proper front of these was written. It takes no memory.
fn put_verified<'a, O: Sink>(
    text: &[u8],
    program: &'a AdaProgram,
    machine: Machine<'_>,
    out: &mut O,
) -> Result<Ending<'a>, Failed>
    requires meets { MeetsRules (program_of program.now) }
    requires runs { (a : Arriving) × ((running_of machine).system ≡ system (program_of program.now) a) }
    requires whole { IsWhole machine }
    requires goes_on { (running_of machine).state.stopped ≡ false }
    ensures cause { HasCause (O.faults out.old) (O.faults out.new) result }
    ensures puts { PutsBehind (text.now ++ trace_mark) (program_of program.now) (running_of machine.entry) (O.written out.old)
        (O.written out.new) result }
{
    put_each(out, &[text, b"-- trace\n".as_slice()])?;
    put_trace(program, machine, out)
}

/// Verifies a design under an arrivals text, whatever the names of their files: nothing is written before its text is made and read, the arrivals
/// are read, and the run can begin. The program is read back from the text, and not taken from where the text was made, since what is promised is
/// promised of the text.
fn verify_texts<O: Sink, E: Sink>(alloc: Global, texts: &Texts, out: &mut O, err: &mut E) -> Status
    ensures { (design arrivals : List ℕ) → Streams (verifies design arrivals) (texts_of texts.now) result
        (O.written out.old) (O.written out.new) (O.faults out.old) (O.faults out.new)
        (E.written err.old) (E.written err.new) (E.faults err.old) (E.faults err.new) }
{
    let text = match generate_text(alloc, &texts.design) {
        Ok(text) => text,
        Err(why) => return tell_halt(err, design_halt(why)),
    };
    let program = match read_made(alloc, &text) {
        Ok(program) => program,
        Err(NoMemory) => return tell_halt(err, Halt::<VerifyRefusal>::NoMemory),
    };
    let under = match read_arrivals(alloc, &texts.arrivals, &program) {
        Ok(under) => under,
        Err(fault) => return tell_halt(err, arrivals_halt(fault)),
    };
    match Machine::new(alloc, &program, &under) {
        Ok(machine) => tell_ending(err, put_verified(&text, &program, machine, out)),
        Err(NoMemory) => tell_halt(err, Halt::<VerifyRefusal>::NoMemory),
    }
}

/// Does the verb `verify`, from its files to what is written.
pub(crate) fn verify<F: Shelf, O: Sink, E: Sink>(
    alloc: Global,
    design: &str,
    arrivals: &str,
    shelf: &mut F,
    out: &mut O,
    err: &mut E,
) -> Status
    ensures { EndsVerb result (verifies design.now arrivals.now)
        (outside (F.told shelf.old) (F.faults shelf.old) (O.written out.old) (O.faults out.old) (E.written err.old) (E.faults err.old))
        (outside (F.told shelf.new) (F.faults shelf.new) (O.written out.new) (O.faults out.new) (E.written err.new) (E.faults err.new)) }
{
    let files = [
        File {
            kind: FileKind::Design,
            name: design,
        },
        File {
            kind: FileKind::Arrivals,
            name: arrivals,
        },
    ];
    match fetch_files(alloc, shelf, &files) {
        Ok(texts) => verify_texts(alloc, &texts, out, err),
        Err(stop) => tell_stop(err, stop),
    }
}
