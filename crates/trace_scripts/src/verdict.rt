ghost use Rattle.std.specs.Prelude.{◌≡◌, ◌<◌, ℕ, Bool, IfOk, find, length, not, option_map};
ghost use Rattle.ods_tree.specs.Flats.{Guarded};
ghost use Rattle.ada_tree.specs.Trees.{program_of};
ghost use Rattle.trace_tree.specs.Lines.{unit_name};
ghost use Rattle.guarantee.specs.Events.{named, named_event};
ghost use Rattle.guarantee.specs.Software.{Task, program_software};
ghost use Rattle.law_trace_places.specs.Places.{guarded_at};
ghost use Rattle.law_traces.specs.Checks.{most_used, used_in};
ghost use Rattle.law_traces.specs.Clear.{IsClear};
ghost use Rattle.seq_tree.specs.Lists.{Each};
ghost use Rattle.trace_tree.specs.Placed.{IsPlaced};
ghost use Rattle.trace_scripts.specs.Scenes.{IsScene, program_in, software_of};
ghost use Rattle.trace_scripts.specs.Moving.{AreFollowing, threads_of};
ghost use Rattle.trace_scripts.specs.Objects.{AreServing, broken_by, services_of};
ghost use Rattle.trace_scripts.specs.Serving.{MayAll};
ghost use Rattle.trace_scripts.specs.Wrongs.{judged_last, verdict_by};
ghost use Rattle.law_traces.specs.Verdicts.{Verdict};

use crate::moves::{Threads, is_well, move_all};
use crate::objects::{Objects, is_object, serve};
use crate::progress::Progress;
use crate::walks::Scene;
use ada_tree::AdaProgram;
use seq_tree::NoMemory;
use std::alloc::Global;
use std::mem::replace;
use trace_read::Events;
use trace_tree::Event;

/// The greatest number of ticks that an event of a trace says were used.
pub(crate) fn most_used(program: &AdaProgram, events: &Events) -> u64
    ensures { result ≡ most_used (named (program_of program.now) events.now) }
{
    let mut most = 0;
    let mut at: u32 = 0;
    'events: while let Some(event) = events.next(&mut at) {
        let used = used_in(program, &event);
        if most < used {
            most = used;
        }
    }
    most
}

/// The ticks that an event says were used.
fn used_in(_program: &AdaProgram, event: &Event) -> u64
    ensures { result ≡ used_in (named_event (program_of _program.now) event.now) }
{
    match event {
        Event::End { used, .. } => *used,
        Event::Release { .. }
        | Event::Arrive { .. }
        | Event::Enter { .. }
        | Event::Leave { .. }
        | Event::Request { .. }
        | Event::Print { .. }
        | Event::Stop { .. }
        | Event::Horizon { .. } => 0,
    }
}

/// Whether the unit at a place is an object whose operations are not run one by one.
fn is_broken(program: &AdaProgram, objects: &Objects, unit: usize) -> bool
    requires states { length objects.now.states.items ≡ length (program_of program.now).units }
    requires unit { unit < length (program_of program.now).units }
    ensures { (serving : Guarded → Bool) → AreServing (program_of program.now) (services_of objects.now) serving
        → result ≡ broken_by serving (guarded_at (program_of program.now) unit) }
{
    if !is_object(program, unit) {
        return false;
    }
    !objects.states[unit].is_sound()
}

/// The place of the first object whose operations are not run one by one, where there is one.
pub(crate) fn first_broken(program: &AdaProgram, objects: &Objects) -> Option<usize>
    requires states { length objects.now.states.items ≡ length (program_of program.now).units }
    ensures { (serving : Guarded → Bool) → AreServing (program_of program.now) (services_of objects.now) serving
        → option_map (unit_name (program_of program.now)) result
        ≡ option_map (λ g. g.name) (find (λ g. not (serving g)) (program_software (program_of program.now)).shared) }
{
    let mut at = 0;
    'units: while at < program.units.len() {
        if is_broken(program, objects, at) {
            return Some(at);
        }
        at += 1;
    }
    None
}

/// The place of the first thread whose steps are no activations, where there is one.
fn first_astray(
    scene: &Scene,
    alloc: Global,
    events: &Events,
    threads: Threads,
) -> Result<Option<usize>, NoMemory>
    requires scene { IsScene scene.now }
    requires placed { Each (IsPlaced (program_in scene.now)) events.now }
    requires states { length threads.states.items ≡ length (program_in scene.now).units }
    ensures { (depth : ℕ) → MayAll (program_in scene.now) depth → (following : Task → Bool)
        → AreFollowing (program_in scene.now) depth (threads_of (program_in scene.now) events.now threads) following → IfOk result (λ r. option_map
        (unit_name (program_in scene.now)) r
        ≡ option_map (λ t. t.name) (find (λ t. not (following t)) (software_of scene.now).tasks)) }
{
    let mut threads = threads;
    let mut at = 0;
    'units: while at < scene.program.units.len() {
        let state = replace(&mut threads.states[at], Progress::Astray);
        if !is_well(scene, alloc, events, at, state)? {
            return Ok(Some(at));
        }
        at += 1;
    }
    Ok(None)
}

/// What a trace shows wrong, by the place of its unit.
#[derive(Clone, Copy, Drop)]
pub enum Wrong {
    /// The activations of a thread.
    Thread(usize),
    /// The operations of an object, which are not run one by one.
    Object(usize),
}

/// The first thread of a program whose activations a trace shows wrong, else the first object whose operations it does not run one by one,
/// where there is one: threads and objects in the order of units, whose places count from 0.
///
/// The ticks that an activation used are asked for only where it enters no object of the latter kind. The trace is passed three times: for the
/// greatest number of ticks that an end tells, for the objects, and for the threads with the objects once more. Behind an entry into an operation
/// of an object that is free what its thread does inside is read ahead, from one of its events to the next, over each operation that it enters there.
/// Nothing is held of an event but its index, in four bytes, in the script of an operation that is followed, or of an activation until it ends: each
/// is read again when it is followed.
pub fn first_wrong(alloc: Global, scene: &Scene, events: &Events) -> Result<Option<Wrong>, NoMemory>
    requires scene { IsScene scene.now }
    requires placed { Each (IsPlaced (program_in scene.now)) events.now }
    ensures { (clear : IsClear (software_of scene.now)) (other : Verdict) → IfOk result (λ r. verdict_by (program_in scene.now) r other
        ≡ judged_last (software_of scene.now) clear.depth (named (program_in scene.now) events.now) other) }
{
    let most = most_used(scene.program, events);
    let objects = serve(scene, alloc, events)?;
    let threads = move_all(scene, alloc, events, most, &objects)?;
    let astray = first_astray(scene, alloc, events, threads)?;
    if let Some(unit) = astray {
        return Ok(Some(Wrong::Thread(unit)));
    }
    let broken = first_broken(scene.program, &objects);
    if let Some(unit) = broken {
        return Ok(Some(Wrong::Object(unit)));
    }
    Ok(None)
}
