ghost use Rattle.std.specs.Prelude.{◌≡◌, ◌∷◌, ◌<◌, List, [], IfOk, MatchOption, Some, drop, length, suc};
ghost use Rattle.trace_tree.specs.declared.event.Event as machine;
ghost use Rattle.trace_read.specs.Chains.{AreStarts, Stands};
ghost use Rattle.trace_read.specs.Deeds.{Reaches, Reads, first_task, from_exit, from_own, passed_in};
ghost use Rattle.trace_read.specs.Telling.{events_in};

use crate::chains::{Links, link};
use crate::reads::read_at;
use crate::table::Table;
use seq_tree::NoMemory;
use std::alloc::Global;
use std::marker::Model;
use trace_tree::Event;

/// The events of a text. None of them is held: each is read from its line where it is asked for, by its index, that is how many stand before it.
/// Beside the text there are 12 bytes for each line, and 4 for each unit of the program. Contracts see the list of all events.
#[derive(Drop)]
pub struct Events<'t, 'p, 'x> {
    table: &'t Table<'p>,
    text: &'x [u8],
    starts: Vec<u32>,
    links: Links,
}

impl<'t, 'p, 'x> Model for Events<'t, 'p, 'x> {
    ghost use Rattle.std.specs.Prelude.{List};
    ghost use Rattle.ada_tree.specs.Trees.{program_of};
    ghost use Rattle.trace_tree.specs.declared.event.Event as machine;
    ghost use Rattle.trace_read.specs.Chains.{IsTold};
    ghost use Rattle.trace_read.specs.Telling.{events_in};

    ghost Value = { List machine.Event };

    ghost view = { λ e. events_in (program_of e.table.now.program.now) e.text.now };

    ghost invariant = { λ e. IsTold (program_of e.table.now.program.now) e.text.now e.starts.items e.links };
}

impl<'t, 'p, 'x> Events<'t, 'p, 'x> {
    ghost use Rattle.trace_read.specs.Texts.{table_program};

    /// The events of a text whose lines begin at these bytes. The lines are read once, from the last to the first. The one error is want of memory.
    pub(crate) fn of(
        alloc: Global,
        table: &'t Table<'p>,
        text: &'x [u8],
        starts: Vec<u32>,
    ) -> Result<Events<'t, 'p, 'x>, NoMemory>
        requires { AreStarts (table_program table.now) text.now starts.items }
        ensures { IfOk result (λ e. e ≡ events_in (table_program table.entry.now) text.entry.now) }
    {
        let links = link(alloc, table, text, starts.as_slice())?;
        Ok(Events {
            table,
            text,
            starts,
            links,
        })
    }

    /// The event at an index, where there is one. No memory is taken, and one line is read.
    pub fn event(&self, at: u32) -> Option<Event>
        ensures { MatchOption result (drop at self.now ≡ []) (λ e. drop at self.now ≡ e ∷ drop (suc at) self.now) }
    {
        read_at(self.table, self.text, self.starts.as_slice(), at)
    }

    /// The event at an index, where there is one; `at` is then the index behind it. No memory is taken, and one line is read.
    pub fn next(&self, at: &mut u32) -> Option<Event>
        ensures { Reads self.now at.old at.new result }
    {
        let event = read_at(self.table, self.text, self.starts.as_slice(), *at)?;
        *at += 1;
        Some(event)
    }

    /// The event at an index, where there is one; `last` is then the index.
    fn reach(&self, index: u32, last: &mut u32) -> Option<Event>
        ensures { (these : List machine.Event) → Stands self.now index these → length these < length (drop last.old self.now)
            → Reaches self.now these last.old last.new result }
    {
        let event = self.event(index)?;
        *last = index;
        Some(event)
    }

    /// Behind a deed of a task, at the index `last`: the next deed of the task, where there is one; `last` is then its index, and else as before. No
    /// memory is taken, and one line is read, however far it is.
    pub fn next_of(&self, task: u32, last: &mut u32) -> Option<Event>
        requires own { first_task (drop last.old self.now) ≡ Some task }
        ensures reached { Reaches self.now (from_own task (drop (suc last.old) self.now)) last.old last.new result }
        ensures own { first_task (drop last.new self.now) ≡ Some task }
    {
        let index = self.links.nexts[*last as usize];
        self.reach(index, last)
    }

    /// Behind a deed of a task, at the index `last`: the exit by which the task leaves the operation that it is inside there, which is the one that
    /// it enters by the deed, where that is an entry. Where there is an exit, `last` is then its index, and else as before. No memory is taken, and
    /// one line is read, however far it is.
    pub fn exit_of(&self, task: u32, last: &mut u32) -> Option<Event>
        requires own { first_task (drop last.old self.now) ≡ Some task }
        ensures reached { Reaches self.now (from_exit task (drop (suc last.old) self.now) 0) last.old last.new result }
        ensures own { first_task (drop last.new self.now) ≡ Some task }
    {
        let index = self.links.exits[*last as usize];
        self.reach(index, last)
    }

    /// Whether an event from an index on enters or leaves an operation of the unit at a place. No line is read.
    pub fn is_passed(&self, unit: u32, at: u32) -> bool
        ensures { result ≡ passed_in unit (drop at self.now) }
    {
        match self.links.lasts.get(unit as usize) {
            None => false,
            Some(last) => at < *last,
        }
    }
}
