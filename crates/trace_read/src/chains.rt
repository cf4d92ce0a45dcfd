ghost use Rattle.std.specs.Prelude.{◌≡◌, ◌∷◌, ◌<◌, ℕ, List, [], IfOk, IfSome, drop, get_or, length, replicate, set, suc};
ghost use Rattle.trace_tree.specs.declared.event.Event as machine;
ghost use Rattle.trace_read.specs.Chains.{AreLasts, AreLinks, AreStarts, Behind, IsChain, from_out, object_of, out_by};
ghost use Rattle.trace_read.specs.Deeds.{from_own, task_of};
ghost use Rattle.trace_read.specs.Telling.{events_in};
ghost use Rattle.trace_read.specs.Texts.{table_program};

use crate::deeds::{Part, object_of, part_of, task_of};
use crate::reads::read_at;
use crate::table::Table;
use seq_tree::NoMemory;
use std::alloc::Global;
use trace_tree::Event;

/// Indices of events: from each deed to what is found behind it, and for each task to what is found of it from an event on. Where nothing is
/// found stands the number of all events.
#[derive(Drop)]
pub(crate) struct Chain {
    pub next: Vec<u32>,
    pub head: Vec<u32>,
}

impl Chain {
    /// Behind the last of so many events, of so many tasks.
    fn new(alloc: Global, lines: u32, units: usize) -> Result<Chain, NoMemory>
        ensures chain { (found : Behind) (es : List machine.Event) → length es ≡ lines → ((task : ℕ) → found task [] ≡ [])
            → IfOk result (IsChain found es lines) }
        ensures long { IfOk result (λ c. length c.next.items ≡ lines) }
        ensures wide { IfOk result (λ c. length c.head.items ≡ units) }
    {
        let next = zeros(alloc, lines as usize)?;
        let head = vec![in alloc; lines; units]?;
        Ok(Chain { next, head })
    }

    /// Adds a deed of a task before the others, and what is found of the task from it on.
    fn put(&mut self, task: u32, at: u32, head: u32)
        requires task { task < length self.old.head.items }
        requires at { at < length self.old.next.items }
        ensures next { self.new.next.items ≡ set self.old.next.items at (get_or self.old.head.items task 0) }
        ensures head { self.new.head.items ≡ set self.old.head.items task head }
    {
        self.next[at as usize] = self.head[task as usize];
        self.head[task as usize] = head;
    }

    /// The exit from what a task is inside from one of its deeds on.
    fn out(&self, task: u32, at: u32, part: Part) -> u32
        requires { task < length self.now.head.items }
        ensures { result ≡ out_by part self.now.next.items (get_or self.now.head.items task 0) at }
    {
        let outer = self.head[task as usize];
        match part {
            Part::Other => outer,
            Part::Plain => outer,
            Part::Opens => match self.next.get(outer as usize) {
                None => outer,
                Some(next) => *next,
            },
            Part::Closes => at,
        }
    }
}

/// So many zeros.
fn zeros(alloc: Global, count: usize) -> Result<Vec<u32>, NoMemory>
    ensures { IfOk result (λ v. v.items ≡ replicate count 0) }
{
    Ok(vec![in alloc; 0u32; count]?)
}

/// Takes an event into the table of the next deeds.
fn note_next(chain: &mut Chain, event: &Event, at: u32)
    requires task { IfSome (task_of event.now) (λ t. t < length chain.old.head.items) }
    requires at { at < length chain.old.next.items }
    ensures chain { (es : List machine.Event) → drop at es ≡ event.now ∷ drop (suc at) es → IsChain from_own es (suc at) chain.old
        → IsChain from_own es at chain.new }
    ensures long { length chain.new.next.items ≡ length chain.old.next.items }
    ensures wide { length chain.new.head.items ≡ length chain.old.head.items }
{
    match task_of(event) {
        None => {}
        Some(task) => chain.put(task, at, at),
    }
}

/// Takes an event into the table of exits.
fn note_exit(chain: &mut Chain, event: &Event, at: u32)
    requires task { IfSome (task_of event.now) (λ t. t < length chain.old.head.items) }
    requires at { at < length chain.old.next.items }
    ensures chain { (es : List machine.Event) → drop at es ≡ event.now ∷ drop (suc at) es → IsChain from_out es (suc at) chain.old
        → IsChain from_out es at chain.new }
    ensures long { length chain.new.next.items ≡ length chain.old.next.items }
    ensures wide { length chain.new.head.items ≡ length chain.old.head.items }
{
    match task_of(event) {
        None => {}
        Some(task) => {
            let head = chain.out(task, at, part_of(task, event));
            chain.put(task, at, head);
        }
    }
}

/// Takes an event into the table of the last that passes each unit.
fn note_last(lasts: &mut Vec<u32>, event: &Event, at: u32)
    requires unit { IfSome (object_of event.now) (λ u. u < length lasts.old.items) }
    requires at { at < 4294967295 }
    ensures lasts { (es : List machine.Event) → drop at es ≡ event.now ∷ drop (suc at) es → AreLasts es (suc at) lasts.old.items
        → AreLasts es at lasts.new.items }
    ensures wide { length lasts.new.items ≡ length lasts.old.items }
{
    match object_of(event) {
        None => {}
        Some(unit) => {
            let last = lasts[unit as usize];
            lasts[unit as usize] = last.max(at + 1);
        }
    }
}

/// Tables of all events: for each the index of the next of its task, and of the exit from what its task is inside behind it; and for each unit
/// how many events there are up to the last that passes it.
#[derive(Drop)]
pub(crate) struct Links {
    pub nexts: Vec<u32>,
    pub exits: Vec<u32>,
    pub lasts: Vec<u32>,
}

/// How many units the program of a table has.
fn count_units(table: &Table<'_>) -> usize
    ensures { result ≡ length (table_program table.now).units }
{
    table.program.units.len()
}

/// The tables of the events of a text whose lines begin at these bytes. The lines are read once, from the last to the first.
pub(crate) fn link(
    alloc: Global,
    table: &Table<'_>,
    text: &[u8],
    starts: &[u32],
) -> Result<Links, NoMemory>
    requires { AreStarts (table_program table.now) text.now starts.now }
    ensures { IfOk result (AreLinks (events_in (table_program table.now) text.now)) }
{
    let lines = starts.len() as u32;
    let units = count_units(table);
    let mut nexts = Chain::new(alloc, lines, units)?;
    let mut exits = Chain::new(alloc, lines, units)?;
    let mut lasts = zeros(alloc, units)?;
    let mut at = lines;
    'lines: while at > 0 {
        at -= 1;
        let Some(event) = read_at(table, text, starts, at) else {
            unreachable!();
        };
        note_next(&mut nexts, &event, at);
        note_exit(&mut exits, &event, at);
        note_last(&mut lasts, &event, at);
    }
    let Chain { next: nexts, .. } = nexts;
    let Chain { next: exits, .. } = exits;
    Ok(Links {
        nexts,
        exits,
        lasts,
    })
}
