ghost use Rattle.std.specs.Prelude.{◌≡◌, ◌≤◌, List, None, IfOk, OnOk, [], option_map};
ghost use Rattle.seq_tree.specs.Trees.{signature_of};
ghost use Rattle.ada_tree.specs.Programs.{is_task};
ghost use Rattle.ada_tree.specs.Trees.{form_of, program_of, unit_of};
ghost use Rattle.arrivals_tree.specs.declared.arrivals.Arrival.{Arrival as ArrivalTree};
ghost use Rattle.arrivals_tree.specs.Acceptance.{durations_fault, fits, has_nothing, next_nominal};
ghost use Rattle.arrivals_read.specs.Checked.{IsNear, IsOf, IsSized, Judges, Notes, fault_named, moved, moved_by};

use crate::units::Units;
use ada_tree::{AdaProgram, Form, Unit};
use arrivals_tree::Arrival;
use seq_tree::{NoMemory, OpSig};
use std::alloc::Global;

/// What is wrong with an item.
#[derive(Clone, Copy, Debug, PartialEq, Eq)]
pub(crate) enum Cause {
    /// A time below the one before.
    Falling,
    /// Durations of what is no task, or a request of what is no task that is requested from outside.
    Unknown,
    /// A value that is missing or isn't asked for, or a duration of 0.
    Unfit,
    /// A separation that isn't kept.
    Early,
}

/// Whether a unit has a task.
fn is_task(form: &Form) -> bool
    ensures { result ≡ is_task (form_of form.now) }
{
    match form {
        Form::Passive { .. } => false,
        Form::Shared { .. } => false,
        Form::Cyclic { .. } => true,
        Form::Sporadic { .. } => true,
    }
}

/// Whether a duration of 0 is among these.
fn has_nothing(ticks: &[u32]) -> bool
    ensures { result ≡ has_nothing ticks.now }
{
    ticks.iter().any(|ticks| *ticks == 0)
}

/// What is wrong with durations of this unit.
pub(crate) fn work_fault(unit: Option<&Unit>, ticks: &[u32]) -> Option<Cause>
    ensures { option_map fault_named result ≡ durations_fault (option_map (λ u. unit_of u.now) unit.entry) ticks.now }
{
    let Some(unit) = unit else {
        return Some(Cause::Unknown);
    };
    if !is_task(&unit.form) {
        Some(Cause::Unknown)
    } else if has_nothing(ticks) {
        Some(Cause::Unfit)
    } else {
        None
    }
}

/// Whether a value is there exactly where the operation has a parameter.
fn fits(op: &OpSig, value: Option<u32>) -> bool
    ensures { result ≡ fits (signature_of op.now) value }
{
    match value {
        None => op.params.is_empty(),
        Some(_) => !op.params.is_empty(),
    }
}

/// The nominal time plus the jitter of an arrival, in ticks, behind that of the one before.
fn next_nominal(separation: u32, before: Option<u64>, time: u64) -> u64
    requires { IsNear before }
    ensures { result ≡ next_nominal separation before time }
{
    match before {
        None => time,
        Some(before) => time.max(before + u64::from(separation)),
    }
}

/// The nominal time plus the jitter, in ticks, to which a request moves a task with these constants, or what is wrong with it.
/// `before` is that of the request before.
fn moved(
    external: bool,
    op: &OpSig,
    separation: u32,
    jitter: u32,
    before: Option<u64>,
    arrival: Arrival,
) -> Result<u64, Cause>
    requires near { IsNear before }
    requires short { arrival.time ≤ 4294967295 }
    ensures judges { Judges result (moved external (signature_of op.now) separation jitter before arrival) }
    ensures near { IfOk result (λ n. n ≤ 8589934592) }
{
    if !external {
        return Err(Cause::Unknown);
    }
    if !fits(op, arrival.value) {
        return Err(Cause::Unfit);
    }
    let next = next_nominal(separation, before, arrival.time);
    if arrival.time + u64::from(jitter) < next {
        return Err(Cause::Early);
    }
    Ok(next)
}

/// The same for a request of a unit.
fn moved_by(form: &Form, before: Option<u64>, arrival: Arrival) -> Result<u64, Cause>
    requires near { IsNear before }
    requires short { arrival.time ≤ 4294967295 }
    ensures judges { Judges result (moved_by (form_of form.now) before arrival) }
    ensures near { IfOk result (λ n. n ≤ 8589934592) }
{
    match form {
        Form::Passive { .. } => Err(Cause::Unknown),
        Form::Shared { .. } => Err(Cause::Unknown),
        Form::Cyclic { .. } => Err(Cause::Unknown),
        Form::Sporadic {
            op,
            separation,
            jitter,
            external,
            ..
        } => moved(*external, op, *separation, *jitter, before, arrival),
    }
}

/// What is kept of the requests so far.
#[derive(Drop)]
pub(crate) struct Seen {
    /// The time of the last one, in ticks, and 0 where there is none.
    last: u64,
    /// For each unit the nominal time plus the jitter of its last one, where it has one.
    nominals: Vec<Option<u64>>,
}

impl Seen {
    /// No requests of a program.
    pub(crate) fn new(alloc: Global, program: &AdaProgram) -> Result<Seen, NoMemory>
        ensures { IfOk result (λ s. IsSized (program_of program.now) s × IsOf (program_of program.now) [] s) }
    {
        let nominals = vec![in alloc; None; program.units.len()]?;
        Ok(Seen { last: 0, nominals })
    }

    /// Judges a request behind those so far, and notes it where nothing is wrong.
    pub(crate) fn note(&mut self, units: &Units, arrival: Arrival) -> Result<(), Cause>
        requires sized { IsSized (program_of units.now.program.now) self.old }
        requires short { arrival.time ≤ 4294967295 }
        ensures notes { (earlier : List ArrivalTree) → IsOf (program_of units.now.program.now) earlier self.old
            → Notes (program_of units.now.program.now) earlier arrival result self.new }
        ensures sized { OnOk result (IsSized (program_of units.now.program.now) self.new) }
    {
        if arrival.time < self.last {
            return Err(Cause::Falling);
        }
        let Some(unit) = units.unit(arrival.task) else {
            return Err(Cause::Unknown);
        };
        let place = arrival.task as usize;
        let next = moved_by(&unit.form, self.nominals[place], arrival)?;
        self.nominals[place] = Some(next);
        self.last = arrival.time;
        Ok(())
    }
}
