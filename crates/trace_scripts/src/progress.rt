ghost use Rattle.seq_tree.specs.Lists.{Each};
ghost use Rattle.seq_tree.specs.Trees.{block_of};
ghost use Rattle.std.specs.Prelude.{◌≡◌, ◌≤◌, ℕ, ◌+◌, ◌++◌, ◌&&◌, IfOk, List, OnOk, None, Some, false, is_some, true};
ghost use Rattle.std.specs.Prelude.{nat_le, option_map, option_to_list};
ghost use Rattle.seq_tree.specs.Variables.{entered};
ghost use Rattle.ada_tree.specs.Programs.{Program};
ghost use Rattle.ada_tree.specs.Trees.{program_of};
ghost use Rattle.law_walks.specs.Fit.{MayRun};
ghost use Rattle.seq_eval.specs.Bounds.{most_ticks};
ghost use Rattle.guarantee.specs.Events.{named_event};
ghost use Rattle.guarantee.specs.Software.{Task, leads_to};
ghost use Rattle.trace_tree.specs.declared.event.Event as machine;
ghost use Rattle.trace_tree.specs.Placed.{IsPlaced};
ghost use Rattle.law_traces.specs.Progress.{Active, again_by, all_shown, course_from, ends_by, left_by_course, with_last};
ghost use Rattle.trace_scripts.specs.Objects.{charge_of};
ghost use Rattle.trace_scripts.specs.Scripts.{IsAt, action_at};
ghost use Rattle.trace_scripts.specs.Scenes.{IsScene, calls_of, program_in, software_of};
ghost use Rattle.trace_scripts.specs.Threads.{IsOf, after_event, charged_by, course_of, entered_if, finished_if, is_at_horizon, left_if};
ghost use Rattle.trace_scripts.specs.Threads.{progress_of, released_in, seen_if, step_by, times_of};
ghost use Rattle.seq_tree.specs.Limits.{tick_limit};

use crate::data::{add_all, add_params, keep};
use crate::scripts::Script;
use crate::services::Charge;
use crate::walks::{Scene, Walked};
use ada_tree::AdaProgram;
use seq_eval::Env;
use seq_tree::{Block, Datum, NoMemory, Param};
use std::alloc::Global;
use trace_read::Events;
use trace_tree::Event;

/// The parameters that a release hands to a thread, its data and its block.
#[derive(Clone, Copy, Drop)]
pub(crate) struct Thread<'a> {
    pub params: &'a [Param],
    pub vars: &'a [Datum],
    pub block: &'a Block,
}

/// An activation so far: its release, how many operations the thread is inside, the script of what it did outside of them before an end that
/// came last, the time of that end and the ticks that it says were used, and the ticks of the operations that it entered, where all their
/// objects are served.
#[derive(Drop)]
pub(crate) struct Course {
    pub time: u64,
    pub value: Option<u32>,
    pub depth: u64,
    pub script: Script,
    pub end: Option<(u64, u64)>,
    pub among: bool,
    pub low: u128,
    pub high: u128,
}

/// A sum of ticks. There are never so many events that it doesn't fit.
fn plus(a: u128, b: u64) -> Result<u128, NoMemory>
    ensures { IfOk result (λ c. c ≡ a + b) }
{
    a.checked_add(u128::from(b)).ok_or(NoMemory)
}

impl Course {
    /// An activation at its release.
    pub fn begin(alloc: Global, time: u64, value: Option<u32>) -> Course
        ensures { (p : Program) (es : List machine.Event) → course_of p es result ≡ course_from time value }
    {
        Course {
            time,
            value,
            depth: 0,
            script: Script::empty(alloc),
            end: None,
            among: true,
            low: 0,
            high: 0,
        }
    }

    /// Adds a deed outside of operations that is no end, at an index, which shows an action or shows none.
    #[tactic(auto, using(crate::proofs::Coursing::show_steps))]
    fn show(&mut self, here: u32, shows: bool) -> Result<(), NoMemory>
        ensures { (p : Program) (es : List machine.Event) → is_some (action_at p es here) ≡ shows
            → OnOk result (course_of p es self.new
            ≡ record (course_of p es self.old) {
              shown = with_last (all_shown (course_of p es self.old).shown (course_of p es self.old).end) (action_at p es here);
              end = None;
            }) }
    {
        if self.end.is_some() {
            self.script.shows = false;
        }
        self.script.add(here, shows)?;
        self.end = None;
        Ok(())
    }

    /// Adds an end outside of operations.
    #[tactic(auto, using(crate::proofs::Coursing::show_steps))]
    fn finish(&mut self, time: u64, used: u64)
        ensures { (p : Program) (es : List machine.Event) → course_of p es self.new
            ≡ record (course_of p es self.old) {
              shown = all_shown (course_of p es self.old).shown (course_of p es self.old).end;
              end = Some (time, used);
            } }
    {
        if self.end.is_some() {
            self.script.shows = false;
        }
        self.end = Some((time, used));
    }
}

/// The variables of an activation at its release.
fn release(alloc: Global, params: &[Param], value: Option<u32>, kept: Env) -> Result<Env, NoMemory>
    ensures { IfOk result (λ e. e.slots.items ≡ entered params.now (option_to_list value) ++ kept.slots.items) }
{
    let mut env = Env {
        slots: Vec::new(alloc),
    };
    match value {
        None => add_params(alloc, &mut env, params, &[])?,
        Some(value) => add_params(alloc, &mut env, params, &[value])?,
    }
    add_all(&mut env, kept)?;
    Ok(env)
}

/// Whether a number of ticks lies between the least and the most of a run, of the operations that were entered and of the end.
fn is_within(finish: u32, course: &Course, low: u64, high: u64, used: u64) -> Result<bool, NoMemory>
    ensures { IfOk result (λ b. b ≡ (nat_le (low + course.now.low + finish) used && nat_le used (high + course.now.high + finish))) }
{
    let least = plus(plus(course.low, low)?, u64::from(finish))?;
    let most = plus(plus(course.high, high)?, u64::from(finish))?;
    let used = u128::from(used);
    Ok(least <= used && used <= most)
}

/// Whether an activation from a release ended with so many ticks within the time since, and within the bounds of the run where they are asked.
fn is_charged(
    finish: u32,
    course: &Course,
    low: u64,
    high: u64,
    at: u64,
    used: u64,
) -> Result<bool, NoMemory>
    ensures { IfOk result (λ b. b ≡ charged_by finish (times_of course.now) low high at used) }
{
    if plus(u128::from(course.time), used)? > u128::from(at) {
        return Ok(false);
    }
    if !course.among {
        return Ok(true);
    }
    is_within(finish, course, low, high, used)
}

impl Course {
    /// The data that an activation leaves, where it is a whole run and an end.
    pub fn close(
        &self,
        scene: &Scene,
        alloc: Global,
        events: &Events,
        thread: Thread,
        kept_now: Env,
    ) -> Result<Option<Env>, NoMemory>
        requires scene { IsScene scene.now }
        requires placed { Each (IsPlaced (program_in scene.now)) events.now }
        requires ticks { (depth : ℕ) → most_ticks scene.now.program.now.costs (calls_of scene.now) depth (block_of thread.block.now) ≤ tick_limit }
        ensures { (depth : ℕ) (t : Task) → IsOf t thread.entry → MayRun (leads_to (software_of scene.now)) depth (block_of thread.entry.block.now)
            → IfOk result (λ o. option_map (λ e. e.slots.items) o
            ≡ left_by_course (software_of scene.now) depth t kept_now.slots.items
            (course_of (program_in scene.now) events.now self.now)) }
    {
        let Some((at, used)) = self.end else {
            return Ok(None);
        };
        let mut env = release(alloc, thread.params, self.value, kept_now)?;
        match scene.walk(alloc, events, thread.block, &mut env, &self.script)? {
            Walked::Ran { low, high } => {
                let finish = scene.program.costs.finish;
                if is_charged(finish, self, low, high, at, used)? {
                    Ok(Some(keep(alloc, thread.vars, &env)?))
                } else {
                    Ok(None)
                }
            }
            Walked::Begun => Ok(None),
            Walked::Astray => Ok(None),
        }
    }

    /// Whether the last activation may stand: it is whole, or it has no end and begins a run.
    pub fn ends(
        &self,
        scene: &Scene,
        alloc: Global,
        events: &Events,
        thread: Thread,
        kept_now: Env,
    ) -> Result<bool, NoMemory>
        requires scene { IsScene scene.now }
        requires placed { Each (IsPlaced (program_in scene.now)) events.now }
        requires ticks { (depth : ℕ) → most_ticks scene.now.program.now.costs (calls_of scene.now) depth (block_of thread.block.now) ≤ tick_limit }
        ensures { (depth : ℕ) (t : Task) → IsOf t thread.entry → MayRun (leads_to (software_of scene.now)) depth (block_of thread.entry.block.now)
            → IfOk result (λ b. b ≡ ends_by (software_of scene.now) depth t kept_now.slots.items
            (course_of (program_in scene.now) events.now self.now) self.now.end) }
    {
        if self.end.is_some() {
            let left = self.close(scene, alloc, events, thread, kept_now)?;
            return Ok(left.is_some());
        }
        let mut env = release(alloc, thread.params, self.value, kept_now)?;
        match scene.walk(alloc, events, thread.block, &mut env, &self.script)? {
            Walked::Ran { .. } => Ok(true),
            Walked::Begun => Ok(true),
            Walked::Astray => Ok(false),
        }
    }

    /// Adds a deed that is no end, at an index, which shows an action or shows none, where it stands outside of operations.
    fn see(&mut self, outside: bool, here: u32, shows: bool) -> Result<(), NoMemory>
        ensures { (p : Program) (es : List machine.Event) → is_some (action_at p es here) ≡ shows
            → OnOk result (course_of p es self.new ≡ seen_if outside (action_at p es here) (course_of p es self.old)) }
    {
        if outside {
            self.show(here, shows)?;
        }
        Ok(())
    }

    /// Adds an entry into an operation, at an index, with the ticks of the way through it.
    #[tactic(auto, using(crate::proofs::Coursing::deed_steps))]
    fn enter(&mut self, here: u32, good: bool, charge: Charge) -> Result<(), NoMemory>
        ensures { (p : Program) (es : List machine.Event) → is_some (action_at p es here) ≡ true
            → OnOk result (course_of p es self.new ≡ entered_if (action_at p es here) good (charge_of charge) (course_of p es self.old)) }
    {
        self.see(self.depth == 0, here, true)?;
        let Some(depth) = self.depth.checked_add(1) else {
            return Err(NoMemory);
        };
        self.depth = depth;
        if good {
            self.low = plus(self.low, charge.low)?;
            self.high = plus(self.high, charge.high)?;
        } else {
            self.among = false;
        }
        Ok(())
    }

    /// Adds an exit, at an index.
    #[tactic(auto, using(crate::proofs::Coursing::deed_steps))]
    fn leave(&mut self, here: u32) -> Result<(), NoMemory>
        ensures { (p : Program) (es : List machine.Event) → is_some (action_at p es here) ≡ true
            → OnOk result (course_of p es self.new ≡ left_if (action_at p es here) (course_of p es self.old)) }
    {
        self.depth = self.depth.saturating_sub(1);
        self.see(self.depth == 0, here, true)
    }

    /// Adds an end.
    fn end(&mut self, outside: bool, time: u64, used: u64)
        ensures { (p : Program) (es : List machine.Event) → course_of p es self.new ≡ finished_if outside time used (course_of p es self.old) }
    {
        if outside {
            self.finish(time, used);
        }
    }

    /// Adds the event of the thread at index `here`, with the ticks of the way through the operation that it enters, and whether the object is
    /// served.
    #[tactic(auto, using(crate::proofs::Coursing::step_steps))]
    pub fn step(
        &mut self,
        here: u32,
        event: &Event,
        good: bool,
        charge: Charge,
    ) -> Result<(), NoMemory>
        ensures { (p : Program) (es : List machine.Event) → IsAt es here event.now
            → OnOk result (course_of p es self.new ≡ after_event p good (charge_of charge) (named_event p event.now) (course_of p es self.old)) }
    {
        match event {
            Event::Enter { .. } => self.enter(here, good, charge)?,
            Event::Leave { .. } => self.leave(here)?,
            Event::End { time, used, .. } => self.end(self.depth == 0, *time, *used),
            Event::Release { .. } => self.see(self.depth == 0, here, false)?,
            Event::Arrive { .. } => self.see(self.depth == 0, here, false)?,
            Event::Request { .. } => self.see(self.depth == 0, here, true)?,
            Event::Print { .. } => self.see(self.depth == 0, here, true)?,
            Event::Stop { .. } => self.see(self.depth == 0, here, false)?,
            Event::Horizon { .. } => {}
        }
        Ok(())
    }
}

/// How far a thread is.
#[derive(Drop)]
pub(crate) enum Progress {
    /// It was not released, and its data are these.
    Idle(Env),
    /// It runs from these data.
    Active(Env, Course),
    /// Its steps are no activations.
    Astray,
}

/// The next activation, from the data that the one before left.
fn again(alloc: Global, time: u64, value: Option<u32>, left: Option<Env>) -> Progress
    ensures { (p : Program) (es : List machine.Event) → progress_of p es result ≡ again_by time value (option_map (λ e. e.slots.items) left) }
{
    match left {
        None => Progress::Astray,
        Some(env) => Progress::Active(env, Course::begin(alloc, time, value)),
    }
}

/// An activation that goes on by the event at index `here`.
fn go_on(
    kept_now: Env,
    course: Course,
    here: u32,
    event: &Event,
    good: bool,
    charge: Charge,
) -> Result<Progress, NoMemory>
    ensures { (p : Program) (es : List machine.Event) → IsAt es here event.now → IfOk result (λ r. progress_of p es r ≡ Active kept_now.slots.items
        (after_event p good (charge_of charge) (named_event p event.now) (course_of p es course))) }
{
    let mut course = course;
    course.step(here, event, good, charge)?;
    Ok(Progress::Active(kept_now, course))
}

/// The time and the value of a release, where an event is one.
fn released(_program: &AdaProgram, event: &Event) -> Option<(u64, Option<u32>)>
    ensures { result ≡ released_in (named_event (program_of _program.now) event.now) }
{
    match event {
        Event::Release { time, value, .. } => Some((*time, *value)),
        Event::Arrive { .. }
        | Event::Enter { .. }
        | Event::Leave { .. }
        | Event::Request { .. }
        | Event::Print { .. }
        | Event::End { .. }
        | Event::Stop { .. }
        | Event::Horizon { .. } => None,
    }
}

/// An activation after the event of its thread at index `here`: it ends where another release stands outside of operations.
#[tactic(auto, using(crate::proofs::Going::going_steps))]
fn proceed(
    scene: &Scene,
    alloc: Global,
    events: &Events,
    here: u32,
    thread: Thread,
    kept_now: Env,
    course: Course,
    event: &Event,
    good: bool,
    charge: Charge,
) -> Result<Progress, NoMemory>
    requires scene { IsScene scene.now }
    requires placed { Each (IsPlaced (program_in scene.now)) events.now }
    requires at { IsAt events.now here event.now }
    requires ticks { (depth : ℕ) → most_ticks scene.now.program.now.costs (calls_of scene.now) depth (block_of thread.block.now) ≤ tick_limit }
    ensures { (depth : ℕ) (t : Task) → IsOf t thread.entry → MayRun (leads_to (software_of scene.now)) depth (block_of thread.entry.block.now)
        → IfOk result (λ r. progress_of (program_in scene.now) events.now r ≡ step_by (program_in scene.now) depth t good (charge_of charge)
        (named_event (program_in scene.now) event.now)
        (Active kept_now.slots.items (course_of (program_in scene.now) events.now course))) }
{
    if course.depth == 0 {
        if let Some((time, value)) = released(scene.program, event) {
            let left = course.close(scene, alloc, events, thread, kept_now)?;
            return Ok(again(alloc, time, value, left));
        }
    }
    let next = go_on(kept_now, course, here, event, good, charge)?;
    Ok(next)
}

/// How far a thread is after one of its own events, at index `here`, with the ticks of the way through the operation that it enters, and whether
/// the object is served.
#[tactic(auto, using(crate::proofs::Going::going_steps))]
pub(crate) fn advance(
    scene: &Scene,
    alloc: Global,
    events: &Events,
    here: u32,
    thread: Thread,
    state: Progress,
    event: &Event,
    good: bool,
    charge: Charge,
) -> Result<Progress, NoMemory>
    requires scene { IsScene scene.now }
    requires placed { Each (IsPlaced (program_in scene.now)) events.now }
    requires at { IsAt events.now here event.now }
    requires own { is_at_horizon (named_event (program_in scene.now) event.now) ≡ false }
    requires ticks { (depth : ℕ) → most_ticks scene.now.program.now.costs (calls_of scene.now) depth (block_of thread.block.now) ≤ tick_limit }
    ensures { (depth : ℕ) (t : Task) → IsOf t thread.entry → MayRun (leads_to (software_of scene.now)) depth (block_of thread.entry.block.now)
        → IfOk result (λ r. progress_of (program_in scene.now) events.now r ≡ step_by (program_in scene.now) depth t good (charge_of charge)
        (named_event (program_in scene.now) event.now) (progress_of (program_in scene.now) events.now state)) }
{
    match state {
        Progress::Astray => Ok(Progress::Astray),
        Progress::Idle(kept_now) => match released(scene.program, event) {
            None => Ok(Progress::Astray),
            Some((time, value)) => {
                Ok(Progress::Active(kept_now, Course::begin(alloc, time, value)))
            }
        },
        Progress::Active(kept_now, course) => {
            let next = proceed(
                scene, alloc, events, here, thread, kept_now, course, event, good, charge,
            )?;
            Ok(next)
        }
    }
}
