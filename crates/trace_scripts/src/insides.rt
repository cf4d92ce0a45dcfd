ghost use Rattle.std.specs.Prelude.{◌≡◌, ◌≤◌, List, suc, IfOk, OnOk, Some, drop, length};
ghost use Rattle.ada_tree.specs.Programs.{Program};
ghost use Rattle.law_traces.specs.Checks.{both};
ghost use Rattle.law_traces.specs.Entries.{Shown};
ghost use Rattle.guarantee.specs.Events.{named_event};
ghost use Rattle.trace_tree.specs.declared.event.Event as machine;
ghost use Rattle.trace_read.specs.Deeds.{first_task};
ghost use Rattle.trace_scripts.specs.Insides.{after_if, entry_of, inside_from, joined, known_from};
ghost use Rattle.trace_scripts.specs.Scripts.{IsAt, action_by, shown_of};

use crate::actions::shows;
use crate::scripts::Script;
use seq_tree::NoMemory;
use std::alloc::Global;
use trace_read::{Events, Part, part_of};
use trace_tree::Event;

/// What is known of an entry into an operation from the events behind it: the script of what its thread does inside, and whether the object is
/// passed again.
#[derive(Drop)]
pub(crate) struct Entry {
    pub script: Script,
    pub again: bool,
}

/// Adds the event at index `here` to a script.
fn add(here: u32, event: &Event, script: &mut Script) -> Result<(), NoMemory>
    ensures { (p : Program) (es : List machine.Event) → IsAt es here event.now → (more : Shown) → OnOk result (joined (shown_of p es script.new) more
        ≡ joined (shown_of p es script.old) (both (action_by p (named_event p event.now)) more)) }
{
    script.add(here, shows(event))?;
    Ok(())
}

/// Adds an entry into another operation, at index `last`, and the exit from that one, where there is one; `last` is then the index of the exit.
/// Whether there is one.
fn add_passage(
    task: u32,
    events: &Events,
    last: &mut u32,
    entry: &Event,
    script: &mut Script,
) -> Result<bool, NoMemory>
    requires at { IsAt events.now last.old entry.now }
    requires own { first_task (drop last.old events.now) ≡ Some task }
    ensures own { first_task (drop last.new events.now) ≡ Some task }
    ensures shorter { length (drop last.new events.now) ≤ length (drop last.old events.now) }
    ensures shown { (p : Program) → IfOk result (λ is. after_if is (shown_of p events.now script.new) (inside_from p task (drop
        (suc last.new) events.now) 0)
        ≡ joined (shown_of p events.now script.old) (both (action_by p (named_event p entry.now)) (inside_from p task (drop
        (suc last.old) events.now) 1))) }
{
    add(*last, entry, script)?;
    match events.exit_of(task, last) {
        None => Ok(false),
        Some(exit) => {
            add(*last, &exit, script)?;
            Ok(true)
        }
    }
}

/// Adds an event of a task inside an operation, at index `last`, and the exit too where it enters another one; `last` is then the index of the
/// exit. Nothing comes behind it where it is the exit of the operation itself, or enters one that is not left. Whether more may come.
fn take(
    task: u32,
    events: &Events,
    last: &mut u32,
    event: &Event,
    script: &mut Script,
) -> Result<bool, NoMemory>
    requires at { IsAt events.now last.old event.now }
    requires own { first_task (drop last.old events.now) ≡ Some task }
    ensures own { first_task (drop last.new events.now) ≡ Some task }
    ensures shorter { length (drop last.new events.now) ≤ length (drop last.old events.now) }
    ensures shown { (p : Program) → IfOk result (λ is. after_if is (shown_of p events.now script.new) (inside_from p task (drop
        (suc last.new) events.now) 0)
        ≡ joined (shown_of p events.now script.old) (inside_from p task (drop last.old events.now) 0)) }
{
    match part_of(task, event) {
        Part::Other => Ok(true),
        Part::Plain => {
            add(*last, event, script)?;
            Ok(true)
        }
        Part::Opens => {
            let more = add_passage(task, events, last, event, script)?;
            Ok(more)
        }
        Part::Closes => Ok(false),
    }
}

/// The script of what a task does inside the operation that it enters at an index: up to the exit, or to the end.
fn script_inside(alloc: Global, task: u32, events: &Events, entry: u32) -> Result<Script, NoMemory>
    requires { first_task (drop entry events.now) ≡ Some task }
    ensures { (p : Program) → IfOk result (λ s. shown_of p events.now s ≡ inside_from p task (drop (suc entry) events.now) 0) }
{
    let mut script = Script::empty(alloc);
    let mut last = entry;
    'deeds: while let Some(event) = events.next_of(task, &mut last) {
        if !take(task, events, &mut last, &event, &mut script)? {
            return Ok(script);
        }
    }
    Ok(script)
}

/// What is known of the entry of a task into an operation of a unit, at an index.
pub(crate) fn known(
    alloc: Global,
    task: u32,
    unit: u32,
    events: &Events,
    entry: u32,
) -> Result<Entry, NoMemory>
    requires { first_task (drop entry events.now) ≡ Some task }
    ensures { (p : Program) → IfOk result (λ e. entry_of p events.now e ≡ known_from p task unit (drop (suc entry) events.now)) }
{
    let Some(behind) = entry.checked_add(1) else {
        return Err(NoMemory);
    };
    let script = script_inside(alloc, task, events, entry)?;
    let again = events.is_passed(unit, behind);
    Ok(Entry { script, again })
}
