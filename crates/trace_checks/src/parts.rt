ghost use Rattle.std.specs.Prelude.{◌≡◌, ◌<◌, ◌≤◌, [], IfOk, OnOk, List, ℕ, length, map, option_map};
ghost use Rattle.ada_tree.specs.Trees.{form_of, program_of, unit_of};
ghost use Rattle.trace_tree.specs.Placed.{IsPlaced};
ghost use Rattle.trace_checks.specs.First.{first_failing, is_periodic_by, is_requested_by, periodic_by, requested_by};
ghost use Rattle.trace_checks.specs.Serving.{serving_of};
ghost use Rattle.trace_checks.specs.Parts.{AreAfter, AreFirst, Judges, has_all, has_ended};
ghost use Rattle.seq_tree.specs.Limits.{tick_limit};

use crate::arrivals::{due_behind, is_over};
use crate::broken::Broken;
use crate::cyclic::{first_releases, note_release};
use crate::times::{Times, times_after};
use crate::waiting::{Waiting, all_waiting, note_request};
use ada_tree::{AdaProgram, Form, Unit};
use arrivals_tree::{Arrival, Arrivals};
use seq_tree::{Name, NoMemory};
use std::alloc::Global;
use trace_tree::Event;

/// What is kept of the events so far.
#[derive(Drop)]
pub(crate) struct Parts<'a> {
    times: Times,
    /// The next release of each unit that is cyclic, where all before were as they should be.
    nexts: Vec<Option<u64>>,
    /// The arrivals that are due, where all before were as they should be.
    due: Option<&'a [Arrival]>,
    /// The requests that wait at each unit.
    waiting: Vec<Waiting>,
}

/// Whether times are in order up to the horizon.
fn has_ended(times: Times) -> bool
    ensures { result ≡ has_ended times }
{
    match times {
        Times::Running(_) => false,
        Times::Ended => true,
        Times::Broken => false,
    }
}

/// Whether no further release of a unit is missing, and all before were as they should be.
fn is_periodic(form: &Form, until: u64, next: Option<u64>) -> bool
    ensures { (name : List ℕ) → result ≡ periodic_by until name (form_of form.now) next [] }
{
    match form {
        Form::Passive { .. } => true,
        Form::Shared { .. } => true,
        Form::Cyclic { .. } => match next {
            None => false,
            Some(time) => until < time,
        },
        Form::Sporadic { .. } => true,
    }
}

/// The first unit whose releases aren't as they should be.
fn first_late<'a>(units: &'a [Unit], nexts: &[Option<u64>], until: u64) -> Option<&'a Name>
    ensures { option_map (λ n. n.now) result ≡ first_failing (is_periodic_by until) (map unit_of units.entry.now) nexts.now [] }
{
    let mut units_left = units;
    let mut nexts_left = nexts;
    'units: while let Some((unit, others)) = units_left.split_first() {
        let Some((next, more)) = nexts_left.split_first() else {
            return None;
        };
        if !is_periodic(&unit.form, until, *next) {
            return Some(&unit.name);
        }
        units_left = others;
        nexts_left = more;
    }
    None
}

/// Whether no release of a unit is missing, and all before were as they should be.
#[tactic(auto, using(crate::proofs::Servings::served_steps))]
fn is_requested(form: &Form, waiting: &Waiting) -> bool
    ensures { (name : List ℕ) → result ≡ requested_by name (form_of form.now) (serving_of waiting.now) [] }
{
    match form {
        Form::Passive { .. } => true,
        Form::Shared { .. } => true,
        Form::Cyclic { .. } => true,
        Form::Sporadic { .. } => waiting.is_served(),
    }
}

/// The first unit whose requests aren't served as they should be.
fn first_unserved<'a>(units: &'a [Unit], waiting: &[Waiting]) -> Option<&'a Name>
    ensures { option_map (λ n. n.now) result ≡ first_failing is_requested_by (map unit_of units.entry.now) (map serving_of waiting.now) [] }
{
    let mut units_left = units;
    let mut waiting_left = waiting;
    'units: while let Some((unit, others)) = units_left.split_first() {
        let Some((one, more)) = waiting_left.split_first() else {
            return None;
        };
        if !is_requested(&unit.form, one) {
            return Some(&unit.name);
        }
        units_left = others;
        waiting_left = more;
    }
    None
}

/// Whether all arrivals up to the horizon came.
fn has_all(due: Option<&[Arrival]>, until: u64) -> bool
    ensures { result ≡ has_all until (option_map (λ r. r.now) due.entry) }
{
    match due {
        None => false,
        Some(left) => is_over(left, until),
    }
}

impl<'a> Parts<'a> {
    /// Before the first event.
    pub(crate) fn new(
        alloc: Global,
        program: &AdaProgram,
        arrivals: &'a Arrivals,
    ) -> Result<Parts<'a>, NoMemory>
        ensures { IfOk result (λ s. AreFirst (program_of program.now) arrivals.entry.now.items.items s) }
    {
        let nexts = first_releases(alloc, program.units.as_slice())?;
        let waiting = all_waiting(alloc, program.units.as_slice())?;
        Ok(Parts {
            times: Times::Running(0),
            nexts,
            due: Some(arrivals.items.as_slice()),
            waiting,
        })
    }

    /// Notes an event of the program.
    pub(crate) fn note(
        &mut self,
        program: &AdaProgram,
        until: u64,
        event: &Event,
    ) -> Result<(), NoMemory>
        requires near { until ≤ tick_limit }
        requires placed { IsPlaced (program_of program.now) event.now }
        requires nexts { length self.old.nexts.items ≡ length (program_of program.now).units }
        requires waiting { length self.old.waiting.items ≡ length (program_of program.now).units }
        ensures { OnOk result (AreAfter (program_of program.now) until self.old event.now self.new) }
    {
        self.times = times_after(program, until, self.times, event);
        note_release(program, until, &mut self.nexts, event);
        self.due = due_behind(self.due, until, event);
        note_request(&mut self.waiting, event)
    }

    /// Which part is broken first, where no event follows.
    pub(crate) fn judge(
        &self,
        alloc: Global,
        program: &AdaProgram,
        until: u64,
    ) -> Result<(), Broken>
        ensures { Judges (program_of program.now) until self.now result }
    {
        if !has_ended(self.times) {
            return Err(Broken::Times);
        }
        if let Some(name) = first_late(program.units.as_slice(), self.nexts.as_slice(), until) {
            return Err(Broken::Cyclic {
                thread: name.copy(alloc)?,
            });
        }
        if !has_all(self.due, until) {
            return Err(Broken::Arrivals);
        }
        if let Some(name) = first_unserved(program.units.as_slice(), self.waiting.as_slice()) {
            return Err(Broken::Requests {
                thread: name.copy(alloc)?,
            });
        }
        Ok(())
    }
}
