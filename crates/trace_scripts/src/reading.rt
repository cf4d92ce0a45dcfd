ghost use Rattle.std.specs.Prelude.{◌≡◌, List, MatchOption, None, ℕ, option_map};
ghost use Rattle.seq_tree.specs.Lists.{Each};
ghost use Rattle.ada_tree.specs.Rules.{MeetsRules};
ghost use Rattle.ada_tree.specs.Trees.{program_of};
ghost use Rattle.guarantee.specs.Events.{named_event};
ghost use Rattle.trace_tree.specs.declared.event.Event as machine;
ghost use Rattle.trace_tree.specs.Placed.{IsPlaced};
ghost use Rattle.seq_eval.specs.Scripts.{is_over, next_entry, next_exit, next_prints, next_requests};
ghost use Rattle.trace_scripts.specs.Scripts.{IsNext, action_at, action_by, actions_at, left_of};

use crate::actions::{asks, entry_values, exit_values, prints, shows};
use ada_tree::AdaProgram;
use seq_eval::Actions;
use seq_tree::{Name, NoMemory};
use std::marker::Model;
use trace_read::Events;
use trace_tree::Event;

/// The event at an index, where it shows an action.
fn shown_at(_program: &AdaProgram, events: &Events, line: u32) -> Option<Event>
    requires { Each (IsPlaced (program_of _program.now)) events.now }
    ensures next { IsNext (program_of _program.now) result }
    ensures shown { MatchOption result (action_at (program_of _program.now) events.now line ≡ None)
        (λ e. action_at (program_of _program.now) events.now line ≡ action_by (program_of _program.now) (named_event (program_of _program.now) e)) }
{
    match events.event(line) {
        None => None,
        Some(event) => if shows(&event) { Some(event) } else { None },
    }
}

/// The first of the events at these indices that shows an action, where one does, and the indices behind it.
fn first_shown<'l>(
    program: &AdaProgram,
    events: &Events,
    lines: &'l [u32],
) -> (Option<Event>, &'l [u32])
    requires { Each (IsPlaced (program_of program.now)) events.now }
    ensures next { IsNext (program_of program.now) result.0 }
    ensures left { left_of (program_of program.now) events.now result.0 result.1.now ≡ actions_at
        (program_of program.now) events.now lines.entry.now }
{
    let mut left = lines;
    'lines: while let Some((line, rest)) = left.split_first() {
        left = rest;
        if let Some(event) = shown_at(program, events, *line) {
            return (Some(event), left);
        }
    }
    (None, left)
}

/// Whether no event is next.
fn is_past(_program: &AdaProgram, next: &Option<Event>) -> bool
    requires { IsNext (program_of _program.now) next.now }
    ensures { (es : List machine.Event) (more : List ℕ) → result ≡ is_over (left_of (program_of _program.now) es next.now more) }
{
    match next {
        None => true,
        Some(_) => false,
    }
}

/// The values that the next event hands in, where it enters this operation.
fn next_entry<'r>(
    program: &AdaProgram,
    next: &'r Option<Event>,
    object: &Name,
    op: &Name,
) -> Option<&'r [u32]>
    requires { IsNext (program_of program.now) next.now }
    ensures { (es : List machine.Event) (more : List ℕ) → option_map (λ r. r.now) result
        ≡ next_entry (record { object = object.now; op = op.now }) (left_of (program_of program.now) es next.entry.now more) }
{
    match next {
        None => None,
        Some(event) => entry_values(program, event, object, op),
    }
}

/// The values that the next event hands out, where it leaves this operation.
fn next_exit<'r>(
    program: &AdaProgram,
    next: &'r Option<Event>,
    object: &Name,
    op: &Name,
) -> Option<&'r [u32]>
    requires { IsNext (program_of program.now) next.now }
    ensures { (es : List machine.Event) (more : List ℕ) → option_map (λ r. r.now) result
        ≡ next_exit (record { object = object.now; op = op.now }) (left_of (program_of program.now) es next.entry.now more) }
{
    match next {
        None => None,
        Some(event) => exit_values(program, event, object, op),
    }
}

/// Whether the next event requests a task by this operation with this value.
fn next_asks(
    program: &AdaProgram,
    next: &Option<Event>,
    object: &Name,
    op: &Name,
    value: Option<u32>,
) -> bool
    requires rules { MeetsRules (program_of program.now) }
    requires next { IsNext (program_of program.now) next.now }
    ensures { (es : List machine.Event) (more : List ℕ)
        → result ≡ next_requests (record { object = object.now; op = op.now }) value (left_of (program_of program.now) es next.now more) }
{
    match next {
        None => false,
        Some(event) => asks(program, event, object, op, value),
    }
}

/// Whether the next event prints this value.
fn next_prints(program: &AdaProgram, next: &Option<Event>, value: u32) -> bool
    requires { IsNext (program_of program.now) next.now }
    ensures { (es : List machine.Event) (more : List ℕ) → result ≡ next_prints value (left_of (program_of program.now) es next.now more) }
{
    match next {
        None => false,
        Some(event) => prints(program, event, value),
    }
}

/// A script that is read along: the event that comes next, where one is left, and the indices of those behind it. Each event is read where it
/// comes next, and none is held behind that. Contracts see the actions that are left.
#[derive(Drop)]
pub(crate) struct Reading<'a, 'e, 't, 'p, 'x, 'l> {
    program: &'a AdaProgram,
    events: &'e Events<'t, 'p, 'x>,
    next: Option<Event>,
    left: &'l [u32],
}

impl<'a, 'e, 't, 'p, 'x, 'l> Model for Reading<'a, 'e, 't, 'p, 'x, 'l> {
    ghost use Rattle.std.specs.Prelude.{List};
    ghost use Rattle.seq_tree.specs.Runs.{Action};
    ghost use Rattle.ada_tree.specs.Trees.{program_of};
    ghost use Rattle.trace_scripts.specs.Scripts.{IsReading, left_of};

    ghost Value = { List Action };

    ghost view = { λ r. left_of (program_of r.program.now) r.events.now r.next r.left.now };

    ghost invariant = { λ r. IsReading (program_of r.program.now) r.events.now r.next };
}

impl<'a, 'e, 't, 'p, 'x, 'l> Reading<'a, 'e, 't, 'p, 'x, 'l> {
    /// The script of the events at these indices.
    pub fn new(
        program: &'a AdaProgram,
        events: &'e Events<'t, 'p, 'x>,
        lines: &'l [u32],
    ) -> Reading<'a, 'e, 't, 'p, 'x, 'l>
        requires rules { MeetsRules (program_of program.now) }
        requires placed { Each (IsPlaced (program_of program.now)) events.now }
        ensures { result ≡ actions_at (program_of program.entry.now) events.entry.now lines.entry.now }
    {
        let (next, left) = first_shown(program, events, lines);
        Reading {
            program,
            events,
            next,
            left,
        }
    }
}

impl<'a, 'e, 't, 'p, 'x, 'l> Actions for Reading<'a, 'e, 't, 'p, 'x, 'l> {
    ghost meaning = { λ us. us };

    fn is_over(&self) -> bool {
        is_past(self.program, &self.next)
    }

    fn enters(&self, object: &Name, op: &Name) -> Option<&[u32]> {
        next_entry(self.program, &self.next, object, op)
    }

    fn leaves(&self, object: &Name, op: &Name) -> Option<&[u32]> {
        next_exit(self.program, &self.next, object, op)
    }

    fn requests(&self, object: &Name, op: &Name, value: Option<u32>) -> bool {
        next_asks(self.program, &self.next, object, op, value)
    }

    fn prints(&self, value: u32) -> bool {
        next_prints(self.program, &self.next, value)
    }

    fn pass(&mut self) -> Result<(), NoMemory> {
        if self.next.is_none() {
            return Ok(());
        }
        let (next, left) = first_shown(self.program, self.events, self.left);
        self.next = next;
        self.left = left;
        Ok(())
    }
}
