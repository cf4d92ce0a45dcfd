ghost use Rattle.std.specs.Prelude.{◌≡◌, ◌≤◌, ℕ, suc, true, IfOk, Some, drop};
ghost use Rattle.seq_tree.specs.Lists.{Each};
ghost use Rattle.seq_tree.specs.Names.{same_name};
ghost use Rattle.seq_tree.specs.Trees.{block_of, operation_of};
ghost use Rattle.ods_tree.specs.Flats.{Guarded};
ghost use Rattle.law_walks.specs.Fit.{MayRun};
ghost use Rattle.trace_tree.specs.Placed.{IsPlaced};
ghost use Rattle.seq_eval.specs.Bounds.{most_ticks};
ghost use Rattle.guarantee.specs.Software.{leads_to};
ghost use Rattle.law_traces.specs.Services.{charge_by, charge_in, entered_in, inside_by, is_sound, last_by, left_in};
ghost use Rattle.law_traces.specs.Services.{Free as FreeOne};
ghost use Rattle.law_traces.specs.Checks.{begins_along, op_named, run_along};
ghost use Rattle.trace_read.specs.Deeds.{first_task};
ghost use Rattle.trace_scripts.specs.Insides.{entry_of, known_from};
ghost use Rattle.trace_scripts.specs.Scripts.{shown_of};
ghost use Rattle.trace_scripts.specs.Objects.{charge_of, service_of};
ghost use Rattle.trace_scripts.specs.Scenes.{IsScene, calls_of, program_in, software_of};
ghost use Rattle.seq_tree.specs.Limits.{tick_limit};

use crate::data::{keep, open, results};
use crate::insides::{Entry, known};
use crate::scripts::Script;
use crate::walks::{Scene, Walked};
use seq_eval::Env;
use seq_tree::{Datum, Name, NoMemory, OpText};
use std::alloc::Global;
use trace_read::Events;

/// What an object is at.
#[derive(Drop)]
pub(crate) enum Service<'a> {
    /// No operation is entered, and the data are these.
    Free(Env),
    /// A thread is inside an operation, that hands these results out and leaves these data.
    Inside {
        thread: &'a Name,
        op: &'a Name,
        gives: Vec<u32>,
        after: Env,
    },
    /// A thread is inside an operation that is never left.
    Last,
    /// Its operations are not run one by one.
    Broken,
}

/// The fewest and the most ticks of the way through an operation.
#[derive(Clone, Copy, Drop)]
pub(crate) struct Charge {
    pub low: u64,
    pub high: u64,
}

/// Whether two names are one.
#[tactic(auto, using(crate::proofs::Entries::names))]
pub(crate) fn is_same(one: &Name, other: &Name) -> bool
    ensures { result ≡ same_name one.now other.now }
{
    one.same(other)
}

impl<'a> Service<'a> {
    /// Whether the operations of the object are run one by one so far.
    pub fn is_sound(&self) -> bool
        ensures { result ≡ is_sound (service_of self.now) }
    {
        match self {
            Service::Broken => false,
            Service::Free(_) | Service::Inside { .. } | Service::Last => true,
        }
    }

    /// Behind an exit with these results.
    #[tactic(auto, using(crate::proofs::Entries::values))]
    pub fn leave(self, thread: &Name, op: &Name, values: &[u32]) -> Service<'a>
        ensures { service_of result ≡ left_in thread.now op.now values.now (service_of self.entry) }
    {
        match self {
            Service::Inside {
                thread: other,
                op: same,
                gives,
                after,
            } => {
                if is_same(other, thread) && is_same(same, op) && values == gives.as_slice() {
                    Service::Free(after)
                } else {
                    Service::Broken
                }
            }
            Service::Free(_) | Service::Last | Service::Broken => Service::Broken,
        }
    }
}

/// Behind an entry into an operation that is left later: the variables are those of its body as it begins.
fn pass<'a>(
    scene: &Scene,
    alloc: Global,
    mut env: Env,
    thread: &'a Name,
    op: &'a OpText,
    vars: &[Datum],
    events: &Events,
    script: &Script,
    most: u64,
) -> Result<(Service<'a>, Charge), NoMemory>
    requires scene { IsScene scene.now }
    requires placed { Each (IsPlaced (program_in scene.now)) events.now }
    requires ticks { (depth : ℕ) → most_ticks scene.now.program.now.costs (calls_of scene.now) depth (block_of op.now.block) ≤ tick_limit }
    ensures service { (depth : ℕ) (g : Guarded) → MayRun (leads_to (software_of scene.now)) depth (block_of op.entry.now.block) → g.vars ≡ vars.now
        → IfOk result (λ r. service_of r.0 ≡ inside_by g thread.entry.now op.entry.now.sig.name (operation_of op.entry.now)
        (run_along (software_of scene.now) depth (block_of op.entry.now.block) env.slots.items (shown_of
        (program_in scene.now) events.now script.now))) }
    ensures charge { (depth : ℕ) → MayRun (leads_to (software_of scene.now)) depth (block_of op.entry.now.block)
        → IfOk result (λ r. charge_of r.1 ≡ charge_by most true
        (run_along (software_of scene.now) depth (block_of op.entry.now.block) env.slots.items (shown_of
        (program_in scene.now) events.now script.now))) }
{
    let none = Charge { low: 0, high: most };
    match scene.walk(alloc, events, &op.block, &mut env, script)? {
        Walked::Ran { low, high } => {
            let gives = results(alloc, &op.sig.params, &env)?;
            let after = keep(alloc, vars, &env)?;
            let inside = Service::Inside {
                thread,
                op: &op.sig.name,
                gives,
                after,
            };
            Ok((inside, Charge { low, high }))
        }
        Walked::Begun => Ok((Service::Broken, none)),
        Walked::Astray => Ok((Service::Broken, none)),
    }
}

/// Behind an entry into an operation that is never left.
fn stay<'a>(
    scene: &Scene,
    alloc: Global,
    mut env: Env,
    op: &OpText,
    events: &Events,
    script: &Script,
) -> Result<Service<'a>, NoMemory>
    requires scene { IsScene scene.now }
    requires placed { Each (IsPlaced (program_in scene.now)) events.now }
    requires ticks { (depth : ℕ) → most_ticks scene.now.program.now.costs (calls_of scene.now) depth (block_of op.now.block) ≤ tick_limit }
    ensures { (depth : ℕ) → MayRun (leads_to (software_of scene.now)) depth (block_of op.now.block)
        → IfOk result (λ r. service_of r ≡ last_by
        (begins_along (software_of scene.now) depth (block_of op.now.block) env.slots.items (shown_of
        (program_in scene.now) events.now script.now))) }
{
    match scene.walk(alloc, events, &op.block, &mut env, script)? {
        Walked::Ran { .. } => Ok(Service::Last),
        Walked::Begun => Ok(Service::Last),
        Walked::Astray => Ok(Service::Broken),
    }
}

/// Behind an entry into an operation of an object that is free, with the ticks of the way through it.
fn begin<'a>(
    scene: &Scene,
    alloc: Global,
    kept: Env,
    thread: &'a Name,
    op: &'a OpText,
    vars: &[Datum],
    values: &[u32],
    events: &Events,
    entry: &Entry,
    most: u64,
) -> Result<(Service<'a>, Charge), NoMemory>
    requires scene { IsScene scene.now }
    requires placed { Each (IsPlaced (program_in scene.now)) events.now }
    requires ticks { (depth : ℕ) → most_ticks scene.now.program.now.costs (calls_of scene.now) depth (block_of op.now.block) ≤ tick_limit }
    ensures service { (depth : ℕ) (g : Guarded) → MayRun (leads_to (software_of scene.now)) depth (block_of op.entry.now.block) → g.vars ≡ vars.now
        → op_named g op.entry.now.sig.name ≡ Some (operation_of op.entry.now)
        → IfOk result (λ r. service_of r.0
        ≡ entered_in (software_of scene.now) depth g thread.entry.now op.entry.now.sig.name values.now (entry_of
        (program_in scene.now) events.now entry.now) (FreeOne kept.slots.items)) }
    ensures charge { (depth : ℕ) (g : Guarded) → MayRun (leads_to (software_of scene.now)) depth (block_of op.entry.now.block) → g.vars ≡ vars.now
        → op_named g op.entry.now.sig.name ≡ Some (operation_of op.entry.now)
        → IfOk result (λ r. charge_of r.1
        ≡ charge_in (software_of scene.now) depth most g op.entry.now.sig.name values.now (entry_of (program_in scene.now) events.now entry.now)
        (FreeOne kept.slots.items)) }
{
    let env = open(alloc, op, values, kept)?;
    if entry.again {
        let passed = pass(
            scene,
            alloc,
            env,
            thread,
            op,
            vars,
            events,
            &entry.script,
            most,
        )?;
        Ok(passed)
    } else {
        let none = Charge { low: 0, high: most };
        Ok((stay(scene, alloc, env, op, events, &entry.script)?, none))
    }
}

/// Behind an entry of a task into an operation of an object at a place, with the ticks of the way through it. The entry stands at index `here`, and
/// what its task does inside is read where the object is free.
pub(crate) fn enter<'a>(
    scene: &Scene,
    alloc: Global,
    state: Service<'a>,
    task: u32,
    unit: u32,
    thread: &'a Name,
    op: &'a OpText,
    vars: &[Datum],
    values: &[u32],
    events: &Events,
    here: u32,
    most: u64,
) -> Result<(Service<'a>, Charge), NoMemory>
    requires scene { IsScene scene.now }
    requires placed { Each (IsPlaced (program_in scene.now)) events.now }
    requires own { first_task (drop here events.now) ≡ Some task }
    requires ticks { (depth : ℕ) → most_ticks scene.now.program.now.costs (calls_of scene.now) depth (block_of op.now.block) ≤ tick_limit }
    ensures service { (depth : ℕ) (g : Guarded) → MayRun (leads_to (software_of scene.now)) depth (block_of op.entry.now.block) → g.vars ≡ vars.now
        → op_named g op.entry.now.sig.name ≡ Some (operation_of op.entry.now)
        → IfOk result (λ r. service_of r.0
        ≡ entered_in (software_of scene.now) depth g thread.entry.now op.entry.now.sig.name values.now
        (known_from (program_in scene.now) task unit (drop (suc here) events.now)) (service_of state.entry)) }
    ensures charge { (depth : ℕ) (g : Guarded) → MayRun (leads_to (software_of scene.now)) depth (block_of op.entry.now.block) → g.vars ≡ vars.now
        → op_named g op.entry.now.sig.name ≡ Some (operation_of op.entry.now)
        → IfOk result (λ r. charge_of r.1
        ≡ charge_in (software_of scene.now) depth most g op.entry.now.sig.name values.now
        (known_from (program_in scene.now) task unit (drop (suc here) events.now)) (service_of state.entry)) }
{
    match state {
        Service::Free(kept) => {
            let entry = known(alloc, task, unit, events, here)?;
            let begun = begin(
                scene, alloc, kept, thread, op, vars, values, events, &entry, most,
            )?;
            Ok(begun)
        }
        Service::Inside { .. } => Ok((Service::Broken, Charge { low: 0, high: most })),
        Service::Last => Ok((Service::Broken, Charge { low: 0, high: most })),
        Service::Broken => Ok((Service::Broken, Charge { low: 0, high: most })),
    }
}
