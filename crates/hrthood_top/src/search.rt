ghost use Rattle.std.specs.Prelude.{◌≡◌, ◌<◌, ◌≤◌, IfOk, Some, length};
ghost use Rattle.hood_io.specs.Causes.{HasCause};
ghost use Rattle.hood_io.specs.Sinks.{Puts};
ghost use Rattle.ods_tree.specs.Flattening.{flat};
ghost use Rattle.ods_tree.specs.Ticks.{first_priority};
ghost use Rattle.ods_tree.specs.Trees.{flat_of};
ghost use Rattle.analysis.specs.Sound.{IsSound};
ghost use Rattle.ods_rules.specs.Checks.{checked_design};
ghost use Rattle.hrthood_top.specs.Searches.{search_line, name_at, report_by, IsOrdered, IsSearched, RefusesOrder, RefusesSearch};
ghost use Rattle.hrthood_top.specs.Writing.{IsMade};
ghost use Rattle.priority_search.specs.Searches.{IsFound, IsNotFound};

use crate::line::{Line, put_named};
use crate::report::report;
use crate::thread_names::{ThreadNames, names_at, put_names};
use analysis::{Ranking, Table};
use bridge::{Halt, Untaken, take};
use design_bounds::{ceilings, named};
use hood_io::{Failed, Sink, put_all};
use ods_flat::{first_priority, flatten};
use ods_rules::Checked;
use ods_tree::Flat;
use priority_search::{Found, NotFound, priorities_up_to, search as search_order};
use seq_tree::{Name, NoMemory};
use std::alloc::Global;

/// Why no priority order is found for a design.
#[derive(Drop, Debug)]
pub enum SearchRefusal {
    /// The bytes are not the text of a design, or the design breaks a rule.
    Untaken(Untaken),
    /// This sporadic thread is requested by threads; it is the first in flattened order.
    Started(Name),
    /// No order passes: of these threads none can be last of them.
    None(ThreadNames),
}

impl Line for SearchRefusal {
    ghost line = { search_line };

    fn put<E: Sink>(&self, err: &mut E) -> Result<(), Failed>
        ensures cause { HasCause (E.faults err.old) (E.faults err.new) result }
        ensures puts { Puts (E.written err.old) (E.written err.new) (search_line self.now) result }
    {
        match self {
            SearchRefusal::Untaken(refusal) => refusal.put(err),
            SearchRefusal::Started(thread) => put_named(err, b"refused P1 ", thread, b"\n"),
            SearchRefusal::None(threads) => {
                put_all(err, b"refused P2")?;
                put_names(err, threads.names())?;
                put_all(err, b"\n")
            }
        }
    }
}

/// The lines of an order that was found, with its bounds and its ceilings; the least priority is written as `first`.
fn order_lines(alloc: Global, flat: &Flat, found: Found, first: u32) -> Result<Vec<u8>, NoMemory>
    requires sound { IsSound (flat_of flat.now) }
    requires found { IsFound (flat_of flat.now) found }
    requires first { first ≤ 1000000000 }
    ensures { IfOk result (λ v. v.items ≡ report_by first (flat_of flat.now) found.order.items found.bounds.items) }
{
    let Found {
        order,
        shared,
        obcs,
        rows,
        bounds,
    } = found;
    let threads = priorities_up_to(alloc, order.as_slice(), flat.threads.len() as u32)?;
    let ranking = Ranking {
        threads,
        shared,
        obcs,
    };
    let table = Table {
        rows,
        thread: order,
    };
    let named = named(alloc, flat, &ranking, &table, bounds.as_slice(), first)?;
    let ceilings = ceilings(alloc, flat, &ranking, first)?;
    report(alloc, named.as_slice(), ceilings.as_slice())
}

/// The name of the thread at a place.
fn name_of(alloc: Global, flat: &Flat, place: u32) -> Result<Name, NoMemory>
    requires { place < length flat.now.threads.items }
    ensures { IfOk result (λ n. name_at (flat_of flat.now) place ≡ Some n) }
{
    flat.threads[place as usize].name.copy(alloc)
}

/// Why no order was found, with the names of threads.
pub(crate) fn refusal_of(
    alloc: Global,
    flat: &Flat,
    why: NotFound,
) -> Result<SearchRefusal, NoMemory>
    requires { IsNotFound (flat_of flat.now) why }
    ensures { IfOk result (RefusesOrder (flat_of flat.now)) }
{
    match why {
        NotFound::Started { thread } => Ok(SearchRefusal::Started(name_of(alloc, flat, thread)?)),
        NotFound::None { threads } => {
            Ok(SearchRefusal::None(names_at(alloc, flat, threads.as_slice())?))
        }
        NotFound::NoMemory => Err(NoMemory),
    }
}

/// What is told of a flat design, whose least priority is written as `first`.
fn search_flat(alloc: Global, flat: &Flat, first: u32) -> Result<Vec<u8>, Halt<SearchRefusal>>
    requires sound { IsSound (flat_of flat.now) }
    requires first { first ≤ 1000000000 }
    ensures { IsMade (λ v. v.items) (IsOrdered first (flat_of flat.now)) (RefusesOrder (flat_of flat.now)) result }
{
    match search_order(alloc, flat) {
        Ok(found) => match order_lines(alloc, flat, found, first) {
            Ok(lines) => Ok(lines),
            Err(NoMemory) => Err(Halt::NoMemory),
        },
        Err(why) => match refusal_of(alloc, flat, why) {
            Ok(refusal) => Err(Halt::Refused(refusal)),
            Err(NoMemory) => Err(Halt::NoMemory),
        },
    }
}

/// What is told of a design that meets the rules.
fn search_checked(alloc: Global, checked: &Checked) -> Result<Vec<u8>, Halt<SearchRefusal>>
    ensures { IsMade (λ v. v.items) (IsOrdered (first_priority (checked_design checked.now)) (flat (checked_design checked.now)))
        (RefusesOrder (flat (checked_design checked.now))) result }
{
    let first = first_priority(checked.design());
    match flatten(alloc, checked) {
        Ok(flat) => search_flat(alloc, &flat, first),
        Err(NoMemory) => Err(Halt::NoMemory),
    }
}

/// What is told of the text of a design.
pub(crate) fn search_text(alloc: Global, design: &[u8]) -> Result<Vec<u8>, Halt<SearchRefusal>>
    ensures { IsMade (λ v. v.items) (IsSearched design.now) (RefusesSearch design.now) result }
{
    match take(alloc, design) {
        Ok(checked) => search_checked(alloc, &checked),
        Err(Halt::Refused(refusal)) => Err(Halt::Refused(SearchRefusal::Untaken(refusal))),
        Err(Halt::NoMemory) => Err(Halt::NoMemory),
    }
}
