ghost use Rattle.std.specs.Prelude.{◌≡◌, ◌≤◌, ◌++◌, IfOk, List, ℕ, Option, false, length};
ghost use Rattle.ada_tree.specs.Trees.{program_of};
ghost use Rattle.arrivals_tree.specs.Arrived.{Arrives, horizon_limit};
ghost use Rattle.arrivals_tree.specs.Arriving.{Arrivals as Arriving, arrivals_of};
ghost use Rattle.bridge.specs.Delivers.{IsDelivered};
ghost use Rattle.ceil_runtime.specs.Shown.{IsWhole, running_of};
ghost use Rattle.hood_io.specs.Shelves.{Told};
ghost use Rattle.machine.specs.Meanings.{Tells};
ghost use Rattle.machine.specs.Systems.{system};
ghost use Rattle.seq_tree.specs.Lists.{Each};
ghost use Rattle.trace_text.specs.Tallies.{IsBelow, tallies};
ghost use Rattle.trace_tree.specs.declared.event.Event.{Event as Happening};
ghost use Rattle.hrthood_top.specs.Ends.{EndsVerb, outside};
ghost use Rattle.hrthood_top.specs.Generates.{CanGenerate};
ghost use Rattle.hrthood_top.specs.Replays.{SaysArrivals};
ghost use Rattle.hrthood_top.specs.Samples.{IsSummed, SummaryEnds, samples};
ghost use Rattle.hrthood_top.specs.Writing.{Finishes, TellsMemory};

use crate::finish::{tell_no_memory, tell_written};
use crate::status::Status;
use crate::verify::read_made;
use ada_tree::AdaProgram;
use arrivals_read::{ArrivalFault, read_arrivals};
use arrivals_tree::Arrivals;
use bridge::{Delivery, Refusal, deliver};
use ceil_runtime::{EventBuf, Machine, Turn};
use hood_io::{Sink, put_all};
use sample_design::sample;
use seq_tree::NoMemory;
use std::alloc::Global;
use trace_text::Summary;
use trace_tree::Event;

/// The text of a design that is not refused, with its bounds.
fn deliver_text(alloc: Global, design: &[u8]) -> Result<Delivery, NoMemory>
    requires { CanGenerate design.now }
    ensures { IfOk result (λ d. IsDelivered design.now d) }
{
    match deliver(alloc, design) {
        Ok(delivery) => Ok(delivery),
        Err(Refusal::NoMemory) => Err(NoMemory),
        Err(Refusal::Text(_)) => unreachable!(),
        Err(Refusal::Rule(_)) => unreachable!(),
        Err(Refusal::Miss { .. }) => unreachable!(),
        Err(Refusal::Long) => unreachable!(),
    }
}

/// The arrivals that a text says of a program, where it says some.
fn read_accepted(alloc: Global, arrivals: &[u8], program: &AdaProgram) -> Result<Arrivals, NoMemory>
    requires few { length (program_of program.now).units ≤ 500 }
    requires says { (a : Arriving) × Arrives horizon_limit arrivals.now (program_of program.now) a }
    ensures { IfOk result (λ a. SaysArrivals arrivals.now (program_of program.now) (arrivals_of a)) }
{
    match read_arrivals(alloc, arrivals, program) {
        Ok(under) => Ok(under),
        Err(ArrivalFault::NoMemory) => Err(NoMemory),
        Err(ArrivalFault::Text(_)) => unreachable!(),
        Err(ArrivalFault::Q1 { .. }) => unreachable!(),
        Err(ArrivalFault::Q2 { .. }) => unreachable!(),
        Err(ArrivalFault::Q3 { .. }) => unreachable!(),
        Err(ArrivalFault::Q4 { .. }) => unreachable!(),
        Err(ArrivalFault::Q5 { .. }) => unreachable!(),
    }
}

/// Counts events of a program, one after another.
fn note_events(summary: &mut Summary, events: &[Event])
    requires { (size : ℕ) × (told : List Happening) × (summary.old ≡ tallies size told) × Each (IsBelow size) events.now }
    ensures { (size : ℕ) (told : List Happening) → summary.old ≡ tallies size told → summary.new ≡ tallies size (told ++ events.now) }
{
    'events: for event in events {
        summary.note(event);
    }
}

/// Runs a program from where a machine stands up to the horizon, or to a stop, and counts each event that it tells.
fn summarise(alloc: Global, program: &AdaProgram, machine: Machine<'_>) -> Result<Summary, NoMemory>
    requires runs { (a : Arriving) × ((running_of machine).system ≡ system (program_of program.now) a) }
    requires whole { IsWhole machine }
    requires goes_on { (running_of machine).state.stopped ≡ false }
    ensures { IfOk result (λ s. (told : List Happening) × Tells (running_of machine.entry) told
        × (s ≡ tallies (length (program_of program.now).units) told)) }
{
    let mut summary = Summary::new(alloc, program)?;
    let mut running = machine;
    let mut events = EventBuf::new();
    'turns: loop {
        let turn = running.advance(&mut events);
        note_events(&mut summary, events.events());
        match turn {
            Turn::More => events.clear(),
            Turn::Horizon => return Ok(summary),
            // No text of a design comes here.
            Turn::CeilingViolation { .. } => return Ok(summary),
        }
    }
}

/// The summary of the sample of so many threads: its text is made and read, its arrivals are read, and the run is summed up.
fn sample_text(alloc: Global, threads: u32) -> Result<Vec<u8>, NoMemory>
    requires { (1 ≤ threads) × (threads ≤ 30) }
    ensures { IfOk result (λ v. IsSummed threads v.items) }
{
    let texts = sample(alloc, threads)?;
    let delivery = deliver_text(alloc, &texts.design)?;
    let program = read_made(alloc, &delivery.text)?;
    let under = read_accepted(alloc, &texts.arrivals, &program)?;
    let machine = Machine::new(alloc, &program, &under)?;
    let summary = summarise(alloc, &program, machine)?;
    summary.text(alloc, &program, &delivery.bounds)
}

/// Writes a text, or tells that memory was wanted for it.
fn finish_text<O: Sink, E: Sink>(
    out: &mut O,
    err: &mut E,
    made: Result<Vec<u8>, NoMemory>,
) -> Status
    ensures { Finishes (λ v. v.items) (λ e. TellsMemory) made result (O.written out.old) (O.written out.new) (O.faults out.old) (O.faults out.new)
        (E.written err.old) (E.written err.new) (E.faults err.old) (E.faults err.new) }
{
    match made {
        Ok(text) => tell_written(err, put_all(out, &text)),
        Err(NoMemory) => tell_no_memory(err),
    }
}

/// Does the verb `sample`, for 1 to 30 threads. It needs no shelf.
pub(crate) fn write_sample<O: Sink, E: Sink>(
    alloc: Global,
    threads: u32,
    out: &mut O,
    err: &mut E,
) -> Status
    requires { (1 ≤ threads) × (threads ≤ 30) }
    ensures ends { (told : Option Told) (faults : ℕ) → EndsVerb result (samples threads)
        (outside told faults (O.written out.old) (O.faults out.old) (E.written err.old) (E.faults err.old))
        (outside told faults (O.written out.new) (O.faults out.new) (E.written err.new) (E.faults err.new)) }
    ensures summed { SummaryEnds threads result (O.written out.old) (O.written out.new) }
{
    finish_text(out, err, sample_text(alloc, threads))
}
