ghost use Rattle.std.specs.Prelude.{◌≡◌, ◌∷◌, ◌++◌, [], List, ℕ, length, map, IfOk, OnOk};
ghost use Rattle.ada_tree.specs.Programs.{is_task};
ghost use Rattle.ada_tree.specs.Trees.{program_of, unit_of};
ghost use Rattle.trace_text.specs.Summaries.{bound_of, count_line, counts, labelled, task_line};
ghost use Rattle.trace_text.specs.Tallies.{tally_lines};

use crate::bound::NamedBound;
use crate::tally::Tally;
use ada_tree::{AdaProgram, Form, Unit};
use itoa::Buffer;
use seq_tree::{Name, NoMemory};
use std::alloc::Global;
use std::marker::Model;
use trace_tree::Event;

/// Adds a number in decimal, with words before it.
#[tactic(auto, using(crate::proofs::Spacing::append_steps))]
fn put_number(text: &mut Vec<u8>, label: &[u8], n: u64) -> Result<(), NoMemory>
    ensures { OnOk result (text.new.items ≡ text.old.items ++ labelled label.now n) }
{
    let mut buffer = Buffer::new();
    text.extend_from_slice(label)?;
    text.extend_from_slice(buffer.format(n).as_bytes())?;
    Ok(())
}

/// Adds what was counted of a task.
#[tactic(auto, using(crate::proofs::Spacing::append_steps))]
fn put_counts(text: &mut Vec<u8>, tally: &Tally) -> Result<(), NoMemory>
    ensures { OnOk result (text.new.items ≡ text.old.items ++ counts tally.now.releases tally.now.ends tally.now.greatest) }
{
    put_number(text, b" releases ", tally.releases)?;
    put_number(text, b" ends ", tally.ends)?;
    put_number(text, b" greatest ", tally.greatest)
}

/// The bound of this name, and 0 where there is none.
fn bound_named(name: &Name, bounds: &[NamedBound]) -> u32
    ensures { result ≡ bound_of name.now bounds.now }
{
    let mut left = bounds;
    'bounds: while let Some((bound, others)) = left.split_first() {
        if bound.name.bytes() == name.bytes() {
            return bound.response;
        }
        left = others;
    }
    0
}

/// Whether a unit is a task.
fn has_task(unit: &Unit) -> bool
    ensures { result ≡ is_task (unit_of unit.now).form }
{
    match &unit.form {
        Form::Passive { .. } => false,
        Form::Shared { .. } => false,
        Form::Cyclic { .. } => true,
        Form::Sporadic { .. } => true,
    }
}

/// Adds the line of a task.
#[tactic(auto, using(crate::proofs::Spacing::append_steps))]
fn put_task(
    text: &mut Vec<u8>,
    name: &Name,
    tally: &Tally,
    bounds: &[NamedBound],
) -> Result<(), NoMemory>
    ensures { OnOk result (text.new.items ≡ text.old.items ++ task_line bounds.now name.now tally.now.releases tally.now.ends tally.now.greatest) }
{
    text.extend_from_slice(b"thread ")?;
    text.extend_from_slice(name.bytes())?;
    put_counts(text, tally)?;
    put_number(text, b" bound ", u64::from(bound_named(name, bounds)))?;
    text.extend_from_slice(b"\n")?;
    Ok(())
}

/// Adds the lines of the units that are tasks.
fn put_tasks(
    text: &mut Vec<u8>,
    units: &[Unit],
    tallies: &[Tally],
    bounds: &[NamedBound],
) -> Result<(), NoMemory>
    ensures { OnOk result (text.new.items ≡ text.old.items ++ tally_lines bounds.now (map unit_of units.now) tallies.now) }
{
    let mut units_left = units;
    let mut tallies_left = tallies;
    'units: while let Some((unit, others)) = units_left.split_first() {
        let Some((tally, more)) = tallies_left.split_first() else {
            return Ok(());
        };
        if has_task(unit) {
            put_task(text, &unit.name, tally, bounds)?;
        }
        units_left = others;
        tallies_left = more;
    }
    Ok(())
}

/// The lines of the units that are tasks, and the count of events.
#[tactic(auto, using(crate::proofs::Spacing::append_steps))]
fn summary_text(
    alloc: Global,
    units: &[Unit],
    tallies: &[Tally],
    lines: u64,
    bounds: &[NamedBound],
) -> Result<Vec<u8>, NoMemory>
    ensures { IfOk result (λ t. t.items ≡ tally_lines bounds.now (map unit_of units.now) tallies.now ++ count_line lines) }
{
    let mut text = Vec::new(alloc);
    put_tasks(&mut text, units, tallies, bounds)?;
    put_number(&mut text, b"lines ", lines)?;
    text.extend_from_slice(b"\n")?;
    Ok(text)
}

/// The summary of a trace as its events come: of each task how often it was released and ended, and its greatest response, the
/// time from a release to the task's next end. Times are in ticks. Counts stop at 18,446,744,073,709,551,615.
#[derive(Drop)]
pub struct Summary {
    // One of each unit.
    tasks: Vec<Tally>,
    lines: u64,
}

impl Model for Summary {
    ghost use Rattle.trace_text.specs.Tallies.{Tallies};

    ghost Value = { Tallies };

    ghost view = { λ s. record { tasks = s.tasks.items; lines = s.lines } };
}

impl Summary {
    ghost use Rattle.trace_tree.specs.declared.event.Event.{Event};
    ghost use Rattle.trace_text.specs.Summaries.{summary};
    ghost use Rattle.trace_text.specs.Tallies.{IsBelow, ended, noted, released, tallies};
    ghost use Rattle.seq_tree.specs.Lists.{change};
    ghost use Rattle.std.specs.Prelude.{◌<◌};

    /// The summary of no events of a program. A failed allocation is the one error.
    pub fn new(alloc: Global, program: &AdaProgram) -> Result<Summary, NoMemory>
        ensures { IfOk result (λ s. s ≡ tallies (length (program_of program.now).units) []) }
    {
        let tasks = vec![in alloc; Tally::empty(); program.units.len()]?;
        Ok(Summary { tasks, lines: 0 })
    }

    /// Counts a release of a task at a time.
    fn count_release(&mut self, task: usize, time: u64)
        requires { task < length self.old.tasks }
        ensures tasks { self.new.tasks ≡ change task (released time) self.old.tasks }
        ensures lines { self.new.lines ≡ self.old.lines }
    {
        let tally = self.tasks[task];
        self.tasks[task] = tally.released(time);
    }

    /// Counts an end of a task at a time.
    fn count_end(&mut self, task: usize, time: u64)
        requires { task < length self.old.tasks }
        ensures tasks { self.new.tasks ≡ change task (ended time) self.old.tasks }
        ensures lines { self.new.lines ≡ self.old.lines }
    {
        let tally = self.tasks[task];
        self.tasks[task] = tally.ended(time);
    }

    /// Counts one more event.
    fn count(&mut self, event: &Event)
        requires { IsBelow (length self.old.tasks) event.now }
        ensures { self.new ≡ noted event.now self.old }
    {
        match event {
            Event::Release { time, task, .. } => self.count_release(*task as usize, *time),
            Event::End { time, task, .. } => self.count_end(*task as usize, *time),
            _ => {}
        }
        self.lines = self.lines.saturating_add(1);
    }

    /// Counts one more event. What it releases or ends is a task of the program. No memory is taken.
    pub fn note(&mut self, event: &Event)
        requires { IsBelow (length self.old.tasks) event.now }
        ensures { (size : ℕ) (told : List Event) → self.old ≡ tallies size told → self.new ≡ tallies size (told ++ event.now ∷ []) }
    {
        self.count(event);
    }

    /// The lines of the events noted: of each task, in the order of units, `thread NAME releases R ends E greatest G bound W`, where
    /// the bound is the response of that name among `bounds`, and then `lines N`, the count of events. A failed allocation is the
    /// one error.
    pub fn text(
        &self,
        alloc: Global,
        program: &AdaProgram,
        bounds: &[NamedBound],
    ) -> Result<Vec<u8>, NoMemory>
        ensures { (told : List Event) → self.now ≡ tallies (length (program_of program.now).units) told
            → IfOk result (λ t. t.items ≡ summary (program_of program.now) bounds.now told) }
    {
        let text = summary_text(
            alloc,
            program.units.as_slice(),
            self.tasks.as_slice(),
            self.lines,
            bounds,
        )?;
        Ok(text)
    }
}
