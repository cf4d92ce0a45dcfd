ghost use Rattle.std.specs.Prelude.{◌≡◌, ◌<◌, ℕ, IfOk, OnOk, false, length};
ghost use Rattle.seq_tree.specs.Lists.{Each};
ghost use Rattle.ada_tree.specs.Trees.{program_of};
ghost use Rattle.trace_tree.specs.Placed.{IsPlaced, IsUnit};
ghost use Rattle.guarantee.specs.Events.{named_event};
ghost use Rattle.law_trace_places.specs.Places.{task_at};
ghost use Rattle.trace_scripts.specs.Objects.{charge_of, services_of};
ghost use Rattle.trace_scripts.specs.Scenes.{IsScene, program_in, software_of};
ghost use Rattle.trace_scripts.specs.Insides.{entries_from};
ghost use Rattle.trace_scripts.specs.Scripts.{IsAt};
ghost use Rattle.trace_scripts.specs.Serving.{MayAll, charges_by, services_first};
ghost use Rattle.trace_scripts.specs.Threads.{is_at_horizon, progress_of};
ghost use Rattle.trace_scripts.specs.Moving.{AreOf, good_at, good_with, moved_at, threads_first, threads_from, threads_of, threads_with, well_by};

use crate::data::first_data;
use crate::objects::{Objects, is_object};
use crate::progress::{Progress, Thread, advance};
use crate::services::Charge;
use crate::walks::Scene;
use ada_tree::{AdaProgram, Form};
use seq_tree::NoMemory;
use std::alloc::Global;
use std::mem::replace;
use trace_read::Events;
use trace_tree::Event;

/// How far each thread is, by the places of units.
#[derive(Drop)]
pub(crate) struct Threads {
    pub states: Vec<Progress>,
}

/// The thread at a place, where the unit has one.
#[tactic(auto, using(crate::proofs::Readings::unit_steps))]
fn thread_at<'a>(program: &'a AdaProgram, unit: usize) -> Option<Thread<'a>>
    requires { unit < length (program_of program.now).units }
    ensures { AreOf (task_at (program_of program.entry.now) unit) result }
{
    match &program.units[unit].form {
        Form::Cyclic { vars, block, .. } => Some(Thread {
            params: &[],
            vars: vars.as_slice(),
            block,
        }),
        Form::Sporadic {
            op,
            vars,
            block,
            ..
        } => Some(Thread {
            params: op.params.as_slice(),
            vars: vars.as_slice(),
            block,
        }),
        Form::Passive { .. } | Form::Shared { .. } => None,
    }
}

/// Whether the unit at a place is no object, or one that is served.
fn is_good(program: &AdaProgram, objects: &Objects, unit: u32) -> bool
    requires states { length objects.now.states.items ≡ length (program_of program.now).units }
    requires unit { IsUnit (program_of program.now) unit }
    ensures { result ≡ good_at (program_of program.now) (services_of objects.now) unit }
{
    let unit = unit as usize;
    if !is_object(program, unit) {
        return true;
    }
    objects.states[unit].is_sound()
}

/// Whether the object that an event enters is served.
fn is_good_entry(program: &AdaProgram, objects: &Objects, event: &Event) -> bool
    requires states { length objects.now.states.items ≡ length (program_of program.now).units }
    requires placed { IsPlaced (program_of program.now) event.now }
    ensures { result ≡ good_with (program_of program.now) (services_of objects.now) event.now }
{
    match event {
        Event::Enter { unit, .. } => is_good(program, objects, *unit),
        Event::Release { .. }
        | Event::Arrive { .. }
        | Event::Leave { .. }
        | Event::Request { .. }
        | Event::Print { .. }
        | Event::End { .. }
        | Event::Stop { .. }
        | Event::Horizon { .. } => true,
    }
}

impl Threads {
    /// At first: every thread at its written data.
    pub fn first(alloc: Global, program: &AdaProgram, _events: &Events) -> Result<Threads, NoMemory>
        ensures { IfOk result (λ h. threads_of (program_of program.now) _events.now h ≡ threads_first (program_of program.now)) }
    {
        let mut states = Vec::new(alloc);
        'units: for unit in &program.units {
            states.push(match &unit.form {
                Form::Cyclic { vars, .. } => Progress::Idle(first_data(alloc, vars)?),
                Form::Sporadic { vars, .. } => Progress::Idle(first_data(alloc, vars)?),
                Form::Passive { .. } | Form::Shared { .. } => Progress::Astray,
            })?;
        }
        Ok(Threads { states })
    }

    /// Takes an event of a thread, at index `here`.
    fn step(
        &mut self,
        scene: &Scene,
        alloc: Global,
        events: &Events,
        here: u32,
        task: u32,
        event: &Event,
        good: bool,
        charge: Charge,
    ) -> Result<(), NoMemory>
        requires scene { IsScene scene.now }
        requires task { IsUnit (program_in scene.now) task }
        requires placed { Each (IsPlaced (program_in scene.now)) events.now }
        requires at { IsAt events.now here event.now }
        requires own { is_at_horizon (named_event (program_in scene.now) event.now) ≡ false }
        requires states { length self.old.states.items ≡ length (program_in scene.now).units }
        ensures len { length self.new.states.items ≡ length self.old.states.items }
        ensures states { (depth : ℕ) → MayAll (program_in scene.now) depth
            → OnOk result (threads_of (program_in scene.now) events.now self.new
            ≡ moved_at (program_in scene.now) depth good (charge_of charge) event.now task (threads_of (program_in scene.now) events.now self.old)) }
    {
        let Some(thread) = thread_at(scene.program, task as usize) else {
            return Ok(());
        };
        let before = replace(&mut self.states[task as usize], Progress::Astray);
        let after = advance(
            scene, alloc, events, here, thread, before, event, good, charge,
        )?;
        self.states[task as usize] = after;
        Ok(())
    }

    /// Takes the event at index `here`.
    #[tactic(auto, unfolding(crate::specs::Moving::threads_with))]
    fn note(
        &mut self,
        scene: &Scene,
        alloc: Global,
        events: &Events,
        here: u32,
        event: &Event,
        good: bool,
        charge: Charge,
    ) -> Result<(), NoMemory>
        requires scene { IsScene scene.now }
        requires placed { IsPlaced (program_in scene.now) event.now }
        requires all { Each (IsPlaced (program_in scene.now)) events.now }
        requires at { IsAt events.now here event.now }
        requires states { length self.old.states.items ≡ length (program_in scene.now).units }
        ensures len { length self.new.states.items ≡ length self.old.states.items }
        ensures states { (depth : ℕ) → MayAll (program_in scene.now) depth
            → OnOk result (threads_of (program_in scene.now) events.now self.new ≡ threads_with (program_in scene.now) depth good event.now
            (charge_of charge) (threads_of (program_in scene.now) events.now self.old)) }
    {
        match event {
            Event::Release { task, .. } => self.step(
                scene, alloc, events, here, *task, event, good, charge,
            )?,
            Event::Enter { task, .. } => self.step(
                scene, alloc, events, here, *task, event, good, charge,
            )?,
            Event::Leave { task, .. } => self.step(
                scene, alloc, events, here, *task, event, good, charge,
            )?,
            Event::Request { task, .. } => self.step(
                scene, alloc, events, here, *task, event, good, charge,
            )?,
            Event::Print { task, .. } => self.step(
                scene, alloc, events, here, *task, event, good, charge,
            )?,
            Event::End { task, .. } => self.step(
                scene, alloc, events, here, *task, event, good, charge,
            )?,
            Event::Stop { task, .. } => self.step(
                scene, alloc, events, here, *task, event, good, charge,
            )?,
            Event::Arrive { .. } | Event::Horizon { .. } => {}
        }
        Ok(())
    }
}

/// How far threads are behind a trace, where the objects are at these states behind it. The ticks of each way through an operation are found again:
/// `most` is the greatest number of ticks that an event says were used.
pub(crate) fn move_all(
    scene: &Scene,
    alloc: Global,
    events: &Events,
    most: u64,
    objects: &Objects,
) -> Result<Threads, NoMemory>
    requires scene { IsScene scene.now }
    requires placed { Each (IsPlaced (program_in scene.now)) events.now }
    requires objects { length objects.now.states.items ≡ length (program_in scene.now).units }
    ensures len { IfOk result (λ h. length h.states.items ≡ length (program_in scene.now).units) }
    ensures states { (depth : ℕ) → MayAll (program_in scene.now) depth → IfOk result (λ h. threads_of (program_in scene.now) events.now h
        ≡ threads_from (program_in scene.now) depth (services_of objects.now) events.now
        (charges_by (program_in scene.now) depth most events.now (entries_from (program_in scene.now) events.now)
        (services_first (program_in scene.now))) (threads_first (program_in scene.now))) }
{
    let mut threads = Threads::first(alloc, scene.program, events)?;
    let mut served = Objects::first(alloc, scene.program)?;
    let mut at: u32 = 0;
    let mut here: u32 = 0;
    'events: while let Some(event) = events.next(&mut at) {
        let charge = served.note(scene, alloc, events, here, &event, most)?;
        let good = is_good_entry(scene.program, objects, &event);
        threads.note(scene, alloc, events, here, &event, good, charge)?;
        here = at;
    }
    Ok(threads)
}

/// Whether the steps of a thread are activations, where the unit at a place has one.
pub(crate) fn is_well(
    scene: &Scene,
    alloc: Global,
    events: &Events,
    unit: usize,
    state: Progress,
) -> Result<bool, NoMemory>
    requires scene { IsScene scene.now }
    requires placed { Each (IsPlaced (program_in scene.now)) events.now }
    requires unit { IsUnit (program_in scene.now) unit }
    ensures { (depth : ℕ) → MayAll (program_in scene.now) depth → IfOk result (λ b. b
        ≡ well_by (software_of scene.now) depth (task_at (program_in scene.now) unit) (progress_of (program_in scene.now) events.now state)) }
{
    let Some(thread) = thread_at(scene.program, unit) else {
        return Ok(true);
    };
    match state {
        Progress::Idle(_) => Ok(true),
        Progress::Active(kept_now, course) => {
            let ends = course.ends(scene, alloc, events, thread, kept_now)?;
            Ok(ends)
        }
        Progress::Astray => Ok(false),
    }
}
