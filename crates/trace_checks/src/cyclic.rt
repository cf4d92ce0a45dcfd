ghost use Rattle.std.specs.Prelude.{◌≡◌, ◌<◌, ◌≤◌, IfOk, length, map};
ghost use Rattle.ada_tree.specs.Trees.{form_of, program_of, unit_of};
ghost use Rattle.trace_tree.specs.Placed.{IsPlaced};
ghost use Rattle.trace_checks.specs.Cycles.{first_release, next_after, nexts_after, nexts_by};
ghost use Rattle.seq_tree.specs.Limits.{tick_limit};

use crate::units::unit_at;
use ada_tree::{AdaProgram, Form, Unit};
use seq_tree::NoMemory;
use std::alloc::Global;
use trace_tree::Event;

/// The first release of a unit, where it is cyclic.
fn first_release(unit: &Unit) -> Option<u64>
    ensures { result ≡ first_release (unit_of unit.now).form }
{
    match &unit.form {
        Form::Passive { .. } => None,
        Form::Shared { .. } => None,
        Form::Cyclic { offset, .. } => Some(u64::from(*offset)),
        Form::Sporadic { .. } => None,
    }
}

/// The first release of each unit.
pub(crate) fn first_releases(alloc: Global, units: &[Unit]) -> Result<Vec<Option<u64>>, NoMemory>
    ensures { IfOk result (λ v. v.items ≡ map (λ u. first_release u.form) (map unit_of units.now)) }
{
    let mut nexts = Vec::new(alloc);
    'units: for unit in units {
        nexts.push(first_release(unit))?;
    }
    Ok(nexts)
}

/// The release that is next behind one, where this one is as it should be.
fn next_after(
    period: u32,
    until: u64,
    next: Option<u64>,
    time: u64,
    value: Option<u32>,
) -> Option<u64>
    requires { until ≤ tick_limit }
    ensures { result ≡ next_after period until next time value }
{
    let next = next?;
    if next <= until && time == next && value.is_none() {
        Some(next + u64::from(period))
    } else {
        None
    }
}

/// Notes a release of a unit.
fn note(
    form: &Form,
    until: u64,
    nexts: &mut Vec<Option<u64>>,
    time: u64,
    task: u32,
    value: Option<u32>,
)
    requires near { until ≤ tick_limit }
    requires task { task < length nexts.old.items }
    ensures { nexts.new.items ≡ nexts_by until (form_of form.now) nexts.old.items time task value }
{
    match form {
        Form::Passive { .. } => {}
        Form::Shared { .. } => {}
        Form::Cyclic { period, .. } => {
            let place = task as usize;
            nexts[place] = next_after(*period, until, nexts[place], time, value);
        }
        Form::Sporadic { .. } => {}
    }
}

/// Notes an event.
pub(crate) fn note_release(
    program: &AdaProgram,
    until: u64,
    nexts: &mut Vec<Option<u64>>,
    event: &Event,
)
    requires near { until ≤ tick_limit }
    requires placed { IsPlaced (program_of program.now) event.now }
    requires sized { length nexts.old.items ≡ length (program_of program.now).units }
    ensures { nexts.new.items ≡ nexts_after (program_of program.now) until nexts.old.items event.now }
{
    if let Event::Release { time, task, value } = event {
        let unit = unit_at(program, *task);
        note(&unit.form, until, nexts, *time, *task, *value);
    }
}
