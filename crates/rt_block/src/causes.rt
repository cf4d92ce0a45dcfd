ghost use Rattle.std.specs.Prelude.{◌≡◌, ◌≤◌, ◌-◌, ◌&&◌, ◌==◌, IfOk, Option, Some, None, if◌then◌else◌, length, map, nat_le, nat_lt, option_map, slice_get, zip};
ghost use Rattle.call_graph.specs.Numbers.{greatest_of};
ghost use Rattle.analysis.specs.Ceilings.{ranks_for};
ghost use Rattle.analysis.specs.Sound.{IsSound};
ghost use Rattle.analysis.specs.Tables.{downwards};
ghost use Rattle.analysis.specs.Trees.{ranks_of};
ghost use Rattle.block_causes.specs.Causes.{cause, cause_by};
ghost use Rattle.rt_block.specs.Causes.{cause_in, cause_numbers, cause_of, first_number, op_of, AreNamed};
ghost use Rattle.rt_block.specs.Ceilings.{AreLevels};
ghost use Rattle.rt_block.specs.Designs.{design_of};
ghost use Rattle.rt_block.specs.Known.{IsKnown, design};
ghost use Rattle.rt_block.specs.Spreads.{spread};

use crate::ceilings::{Levels, levels_of};
use crate::facts::Facts;
use crate::operations::Operations;
use crate::sections::blocking_at;
use crate::spread::spread;
use analysis::Ranking;
use call_graph::{Served, greatest_of};
use seq_tree::{Name, NoMemory};
use std::alloc::Global;

/// What a thread waits for when it is blocked: a section of a thread of lower priority.
#[derive(Debug, Drop)]
pub struct Cause {
    /// The place of the thread of lower priority.
    pub thread: u32,
    /// The protected object, or the sporadic thread whose control structure it is.
    pub object: Name,
    /// Its operation.
    pub op: Name,
}

/// The number of an operation, where its section has a ceiling that reaches a level, and so many ticks; and else 0.
fn number_of(level: u32, ticks: u32, ceiling: u32, section: u32, number: u32) -> u32
    ensures { result ≡ (if nat_le level ceiling && section == ticks then number else 0) }
{
    if level <= ceiling && section == ticks {
        number
    } else {
        0
    }
}

/// The same for each operation, the first with the greatest number.
fn numbers_of(
    alloc: Global,
    level: u32,
    ticks: u32,
    ceilings: &[u32],
    sections: &[u32],
) -> Result<Vec<u32>, NoMemory>
    requires same { length sections.now ≡ length ceilings.now }
    requires few { length ceilings.now ≤ 4294967295 }
    ensures same { IfOk result (λ v. v.items ≡ cause_numbers level ticks ceilings.now sections.now) }
    ensures long { IfOk result (λ v. length v.items ≡ length ceilings.now) }
{
    let mut numbers = Vec::new(alloc);
    let (mut ceilings, mut sections) = (ceilings, sections);
    'operations: while let Some((ceiling, more_ceilings)) = ceilings.split_first() {
        let Some((section, more_sections)) = sections.split_first() else {
            break
        };
        numbers.push(number_of(level, ticks, *ceiling, *section, ceilings.len() as u32))?;
        ceilings = more_ceilings;
        sections = more_sections;
    }
    Ok(numbers)
}

/// The greatest number at the places that a thread calls, where its priority is lower.
fn number_at(places: &[usize], priority: u32, level: u32, known: &[u32]) -> u32
    ensures { result ≡ (if nat_lt priority level then greatest_of known.now 0 places.now else 0) }
{
    if priority < level {
        greatest_of(known, 0, places)
    } else {
        0
    }
}

/// The first thread of lower priority with a number above 0, and the number.
fn first_number(
    live: &[Vec<usize>],
    priorities: &[u32],
    level: u32,
    known: &[u32],
) -> Option<(u32, u32)>
    requires many { length priorities.now ≡ length live.now }
    requires few { length live.now ≤ 30 }
    ensures { result ≡ first_number known.now level 0 (zip (map (λ l. l.items) live.now) priorities.now) }
{
    let (mut live, mut priorities) = (live, priorities);
    let mut at = 0;
    'threads: while let Some((places, more)) = live.split_first() {
        let Some((priority, others)) = priorities.split_first() else {
            break
        };
        let number = number_at(places.as_slice(), *priority, level, known);
        if number > 0 {
            return Some((at, number));
        }
        at += 1;
        live = more;
        priorities = others;
    }
    None
}

/// The numbers of operations whose sections keep a level waiting for so many ticks.
fn numbers_at(
    alloc: Global,
    operations: &Operations<'_>,
    levels: &Levels<'_>,
    level: u32,
    ticks: u32,
) -> Result<Vec<u32>, NoMemory>
    requires known { IsKnown operations.now }
    requires levels { AreLevels (design operations.now) levels.now }
    requires few { length operations.now.services.items ≤ 4294967295 }
    ensures same { IfOk result (λ v. v.items
        ≡ cause_numbers level ticks levels.now.ceilings.items operations.now.sections.items) }
    ensures long { IfOk result (λ v. length v.items ≡ length operations.now.services.items) }
{
    numbers_of(
        alloc,
        level,
        ticks,
        levels.ceilings.as_slice(),
        operations.sections.as_slice(),
    )
}

/// The greatest of these numbers to which calls lead.
fn leading_at(
    alloc: Global,
    operations: &Operations<'_>,
    levels: &Levels<'_>,
    level: u32,
    ticks: u32,
) -> Result<Vec<u32>, NoMemory>
    requires known { IsKnown operations.now }
    requires levels { AreLevels (design operations.now) levels.now }
    requires few { length operations.now.services.items ≤ 4294967295 }
    ensures { IfOk result (λ v. v.items
        ≡ spread (length operations.now.services.items) (map (λ l. l.items) operations.now.live_inner.items)
        (cause_numbers level ticks levels.now.ceilings.items operations.now.sections.items)) }
{
    let own = numbers_at(alloc, operations, levels, level, ticks)?;
    spread(
        alloc,
        operations.live_inner.as_slice(),
        own.as_slice(),
        operations.callees_first.as_slice(),
    )
}

/// The operation of a number, where there is one.
fn numbered(
    alloc: Global,
    services: &[Served<'_>],
    thread: u32,
    number: u32,
) -> Result<Option<Cause>, NoMemory>
    ensures { IfOk result (λ o. option_map cause_of o
        ≡ option_map (cause_in thread) (slice_get (map op_of services.now) (length services.now - number))) }
{
    match services.get(services.len().saturating_sub(number as usize)) {
        None => Ok(None),
        Some(served) => Ok(Some(Cause {
            thread,
            object: served.object.copy(alloc)?,
            op: served.op.copy(alloc)?,
        })),
    }
}

/// The cause of a blocking of so many ticks, a tick at least.
fn cause_at(
    alloc: Global,
    operations: &Operations<'_>,
    levels: &Levels<'_>,
    level: u32,
    ticks: u32,
) -> Result<Option<Cause>, NoMemory>
    requires known { IsKnown operations.now }
    requires named { AreNamed operations.now }
    requires levels { AreLevels (design operations.now) levels.now }
    requires ranked { length levels.now.priorities.now ≡ length (design operations.now).threads }
    requires few { length levels.now.priorities.now ≤ 30 }
    requires some { 1 ≤ ticks }
    requires cheap { ticks ≤ 1000000000 }
    ensures { IfOk result (λ o. option_map cause_of o ≡ cause_by (design operations.now) levels.now.priorities.now level ticks) }
{
    if operations.services.len() > u32::MAX as usize {
        return Err(NoMemory);
    }
    let known = leading_at(alloc, operations, levels, level, ticks)?;
    match first_number(
        operations.live.as_slice(),
        levels.priorities,
        level,
        known.as_slice(),
    ) {
        None => Ok(None),
        Some((thread, number)) => {
            numbered(alloc, operations.services.as_slice(), thread, number)
        }
    }
}

/// The cause of the blocking of a priority, where it is blocked.
fn cause_of_level(
    alloc: Global,
    operations: &Operations<'_>,
    levels: &Levels<'_>,
    level: u32,
) -> Result<Option<Cause>, NoMemory>
    requires sound { IsSound (design operations.now) }
    requires known { IsKnown operations.now }
    requires named { AreNamed operations.now }
    requires levels { AreLevels (design operations.now) levels.now }
    requires ranked { length levels.now.priorities.now ≡ length (design operations.now).threads }
    requires few { length levels.now.priorities.now ≤ 30 }
    ensures { IfOk result (λ o. option_map cause_of o ≡ cause (design operations.now) levels.now.priorities.now level) }
{
    let ticks = blocking_at(alloc, operations, levels, level)?;
    if ticks == 0 {
        return Ok(None);
    }
    cause_at(alloc, operations, levels, level, ticks)
}

/// What blocks each thread, by priority from the greatest on: the thread of lower priority and the operation whose section is its blocking,
/// and None where nothing blocks it. Of several such threads it is the first, and of its operations the first, both in the order of the flat
/// design. `NoMemory` comes for want of memory, and where there are more than 4,294,967,295 operations.
pub fn causes_of(
    alloc: Global,
    facts: &Facts<'_>,
    order: &Ranking,
) -> Result<Vec<Option<Cause>>, NoMemory>
    requires sound { IsSound (design_of facts.now) }
    requires threads { length order.now.threads.items ≡ length (design_of facts.now).threads }
    requires ceilings { ranks_of order.now ≡ ranks_for (design_of facts.now) order.now.threads.items }
    ensures { IfOk result (λ v. map (option_map cause_of) v.items
        ≡ map (cause (design_of facts.now) order.now.threads.items) (downwards (length order.now.threads.items))) }
{
    let levels = levels_of(alloc, facts.operations.flat, order)?;
    let mut found = Vec::new(alloc);
    let mut level = order.threads.len() as u32;
    'levels: while level > 0 {
        found.push(cause_of_level(alloc, &facts.operations, &levels, level)?)?;
        level -= 1;
    }
    Ok(found)
}
