ghost use Rattle.std.specs.Prelude.{◌≡◌, ◌<◌, ℕ, suc, IfOk, OnOk, Some, drop, length, is_some, option_map};
ghost use Rattle.seq_tree.specs.Lists.{Each};
ghost use Rattle.ada_tree.specs.Trees.{program_of};
ghost use Rattle.trace_tree.specs.Lines.{unit_name};
ghost use Rattle.trace_tree.specs.Placed.{IsOp, IsPlaced, IsUnit};
ghost use Rattle.trace_read.specs.Deeds.{first_task};
ghost use Rattle.trace_scripts.specs.Insides.{entries_from, entry_from, known_from};
ghost use Rattle.trace_scripts.specs.Scripts.{IsAt};
ghost use Rattle.trace_scripts.specs.Objects.{charge_of, object_of, services_of};
ghost use Rattle.trace_scripts.specs.Scenes.{IsScene, program_in};
ghost use Rattle.trace_scripts.specs.Serving.{MayAll, charge_with, charged_at, entered_at, first_by, left_at, objects_from};
ghost use Rattle.trace_scripts.specs.Serving.{objects_with, services_first};
ghost use Rattle.law_trace_places.specs.Places.{guarded_at};

use crate::data::first_data;
use crate::names::unit_at;
use crate::services::{Charge, Service, enter};
use crate::walks::Scene;
use ada_tree::{AdaProgram, Form};
use seq_tree::{Datum, Name, NoMemory, OpText};
use std::alloc::Global;
use std::mem::replace;
use trace_read::Events;
use trace_tree::{Event, Values};

/// What each object is at, by the places of units.
#[derive(Drop)]
pub(crate) struct Objects<'a> {
    pub states: Vec<Service<'a>>,
}

/// The data and the operations of a unit that is an object.
#[derive(Clone, Copy, Drop)]
struct Object<'a> {
    vars: &'a [Datum],
    ops: &'a [OpText],
}

/// The object at a place, where the unit is one.
fn object_at<'a>(program: &'a AdaProgram, unit: u32) -> Option<Object<'a>>
    requires { unit < length (program_of program.now).units }
    ensures { option_map (object_of (unit_name (program_of program.entry.now) unit)) result ≡ guarded_at (program_of program.entry.now) unit }
{
    match &unit_at(program, unit).form {
        Form::Shared { vars, ops, .. } => Some(Object {
            vars: vars.as_slice(),
            ops: ops.as_slice(),
        }),
        Form::Passive { .. } | Form::Cyclic { .. } | Form::Sporadic { .. } => None,
    }
}

/// Whether the unit at a place is an object.
#[tactic(auto, using(crate::proofs::Readings::unit_steps))]
pub(crate) fn is_object(program: &AdaProgram, unit: usize) -> bool
    requires { unit < length (program_of program.now).units }
    ensures { result ≡ is_some (guarded_at (program_of program.now) unit) }
{
    match &program.units[unit].form {
        Form::Shared { .. } => true,
        Form::Passive { .. } | Form::Cyclic { .. } | Form::Sporadic { .. } => false,
    }
}

impl<'a> Objects<'a> {
    /// At first: every object at its written data.
    pub fn first(alloc: Global, program: &AdaProgram) -> Result<Objects<'a>, NoMemory>
        ensures { IfOk result (λ o. services_of o ≡ services_first (program_of program.now)) }
    {
        let mut states = Vec::new(alloc);
        'units: for unit in &program.units {
            states.push(match &unit.form {
                Form::Shared { vars, .. } => Service::Free(first_data(alloc, vars)?),
                Form::Passive { .. } | Form::Cyclic { .. } | Form::Sporadic { .. } =>
                    Service::Broken,
            })?;
        }
        Ok(Objects { states })
    }

    /// Enters an operation, where the entry stands at index `here`.
    fn enter(
        &mut self,
        scene: &Scene<'a, '_>,
        alloc: Global,
        task: u32,
        unit: u32,
        op: u32,
        values: &[u32],
        events: &Events,
        here: u32,
        most: u64,
    ) -> Result<Charge, NoMemory>
        requires scene { IsScene scene.now }
        requires placed { Each (IsPlaced (program_in scene.now)) events.now }
        requires own { first_task (drop here events.now) ≡ Some task }
        requires task { IsUnit (program_in scene.now) task }
        requires unit { IsUnit (program_in scene.now) unit }
        requires op { IsOp (program_in scene.now) unit op }
        requires states { length self.old.states.items ≡ length (program_in scene.now).units }
        ensures len { length self.new.states.items ≡ length self.old.states.items }
        ensures states { (depth : ℕ) → MayAll (program_in scene.now) depth
            → OnOk result (services_of self.new
            ≡ entered_at (program_in scene.now) depth task unit op values.now
            (known_from (program_in scene.now) task unit (drop (suc here) events.now))
            (services_of self.old)) }
        ensures charge { (depth : ℕ) → MayAll (program_in scene.now) depth
            → IfOk result (λ c. charge_of c
            ≡ charged_at (program_in scene.now) depth most unit op values.now
            (known_from (program_in scene.now) task unit (drop (suc here) events.now))
            (services_of self.old)) }
    {
        let none = Charge { low: 0, high: most };
        let thread = &unit_at(scene.program, task).name;
        let Some(object) = object_at(scene.program, unit) else {
            return Ok(none);
        };
        let body = &object.ops[op as usize];
        let before = replace(&mut self.states[unit as usize], Service::Broken);
        let (after, charge) = enter(
            scene,
            alloc,
            before,
            task,
            unit,
            thread,
            body,
            object.vars,
            values,
            events,
            here,
            most,
        )?;
        self.states[unit as usize] = after;
        Ok(charge)
    }

    /// Leaves an operation.
    fn leave(&mut self, scene: &Scene<'a, '_>, task: u32, unit: u32, op: u32, values: &[u32])
        requires scene { IsScene scene.now }
        requires task { IsUnit (program_in scene.now) task }
        requires unit { IsUnit (program_in scene.now) unit }
        requires op { IsOp (program_in scene.now) unit op }
        requires states { length self.old.states.items ≡ length (program_in scene.now).units }
        ensures len { length self.new.states.items ≡ length self.old.states.items }
        ensures states { services_of self.new ≡ left_at (program_in scene.now) task unit op values.now (services_of self.old) }
    {
        let thread = &unit_at(scene.program, task).name;
        let Some(object) = object_at(scene.program, unit) else {
            return;
        };
        let body = &object.ops[op as usize];
        let before = replace(&mut self.states[unit as usize], Service::Broken);
        self.states[unit as usize] = before.leave(thread, &body.sig.name, values);
    }

    /// Takes the event at index `here`, and tells the ticks of the way through the operation that it enters, where it enters one.
    #[tactic(auto, unfolding(crate::specs::Serving::objects_with, crate::specs::Serving::charge_with, crate::specs::Insides::entry_from))]
    pub fn note(
        &mut self,
        scene: &Scene<'a, '_>,
        alloc: Global,
        events: &Events,
        here: u32,
        event: &Event,
        most: u64,
    ) -> Result<Charge, NoMemory>
        requires scene { IsScene scene.now }
        requires placed { IsPlaced (program_in scene.now) event.now }
        requires all { Each (IsPlaced (program_in scene.now)) events.now }
        requires at { IsAt events.now here event.now }
        requires states { length self.old.states.items ≡ length (program_in scene.now).units }
        ensures len { length self.new.states.items ≡ length self.old.states.items }
        ensures states { (depth : ℕ) → MayAll (program_in scene.now) depth
            → OnOk result (services_of self.new
            ≡ objects_with (program_in scene.now) depth event.now (entry_from (program_in scene.now) event.now (drop (suc here) events.now))
            (services_of self.old)) }
        ensures charge { (depth : ℕ) → MayAll (program_in scene.now) depth
            → IfOk result (λ c. charge_of c
            ≡ charge_with (program_in scene.now) depth most event.now (entry_from (program_in scene.now) event.now (drop (suc here) events.now))
            (services_of self.old)) }
    {
        match event {
            Event::Enter {
                task,
                unit,
                op,
                values,
                ..
            } => {
                let charge = self.enter(
                    scene,
                    alloc,
                    *task,
                    *unit,
                    *op,
                    values.as_slice(),
                    events,
                    here,
                    most,
                )?;
                Ok(charge)
            }
            Event::Leave {
                task,
                unit,
                op,
                values,
                ..
            } => {
                self.leave(scene, *task, *unit, *op, values.as_slice());
                Ok(Charge { low: 0, high: 0 })
            }
            Event::Release { .. }
            | Event::Arrive { .. }
            | Event::Request { .. }
            | Event::Print { .. }
            | Event::End { .. }
            | Event::Stop { .. }
            | Event::Horizon { .. } => Ok(Charge { low: 0, high: 0 }),
        }
    }
}

/// What the objects are at behind a trace.
pub(crate) fn serve<'a>(
    scene: &Scene<'a, '_>,
    alloc: Global,
    events: &Events,
) -> Result<Objects<'a>, NoMemory>
    requires scene { IsScene scene.now }
    requires placed { Each (IsPlaced (program_in scene.now)) events.now }
    ensures len { IfOk result (λ o. length o.states.items ≡ length (program_in scene.now).units) }
    ensures states { (depth : ℕ) → MayAll (program_in scene.now) depth → IfOk result (λ o. services_of o
        ≡ objects_from (program_in scene.now) depth events.now (entries_from (program_in scene.now) events.now) (services_first
        (program_in scene.now))) }
{
    let mut objects = Objects::first(alloc, scene.program)?;
    let mut at: u32 = 0;
    let mut here: u32 = 0;
    'events: while let Some(event) = events.next(&mut at) {
        objects.note(scene, alloc, events, here, &event, 0)?;
        here = at;
    }
    Ok(objects)
}
