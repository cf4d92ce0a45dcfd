ghost use Rattle.std.specs.Prelude.{◌≤◌};
ghost use Rattle.hood_io.specs.Causes.{HasCause};
ghost use Rattle.hood_io.specs.Sinks.{Puts};
ghost use Rattle.ods_tree.specs.Flattening.{flat};
ghost use Rattle.ods_tree.specs.Ticks.{first_priority};
ghost use Rattle.ods_tree.specs.Trees.{flat_of};
ghost use Rattle.analysis.specs.Sound.{IsSound};
ghost use Rattle.ods_rules.specs.Checks.{checked_design};
ghost use Rattle.arranging.specs.Arrangements.{HasRoomFor, IsArrangedText};
ghost use Rattle.hrthood_top.specs.Arrangements.{arrange_line, CanWhereGenerated, IsArrangedFor, RefusesArrangement, RefusesArranging, WritesAsGenerated};
ghost use Rattle.hrthood_top.specs.Writing.{IsMade};

use crate::line::Line;
use crate::search::{SearchRefusal, refusal_of};
use arranging::{NotArranged, arrange};
use bridge::{Halt, take};
use hood_io::{Failed, Sink, put_all};
use ods_flat::{first_priority, flatten};
use ods_rules::Checked;
use ods_tree::Flat;
use seq_tree::NoMemory;
use std::alloc::Global;

/// Why no Ada text is made of a design by an order that is found.
#[derive(Drop, Debug)]
pub enum ArrangeRefusal {
    /// There is no order, for the cause that `search` reports.
    Unordered(SearchRefusal),
    /// The text that is to be made has more bytes than an Ada text may have.
    Long,
}

impl Line for ArrangeRefusal {
    ghost line = { arrange_line };

    fn put<E: Sink>(&self, err: &mut E) -> Result<(), Failed>
        ensures cause { HasCause (E.faults err.old) (E.faults err.new) result }
        ensures puts { Puts (E.written err.old) (E.written err.new) (arrange_line self.now) result }
    {
        match self {
            ArrangeRefusal::Unordered(refusal) => refusal.put(err),
            ArrangeRefusal::Long => put_all(err, b"refused S3 text\n"),
        }
    }
}

/// What is made of a flat design, whose least priority is written as `first`.
fn arrange_flat(alloc: Global, flat: &Flat, first: u32) -> Result<Vec<u8>, Halt<ArrangeRefusal>>
    requires sound { IsSound (flat_of flat.now) }
    requires first { 1 ≤ first }
    requires room { HasRoomFor first (flat_of flat.now) }
    ensures { IsMade (λ v. v.items) (IsArrangedText first (flat_of flat.now)) (RefusesArranging first (flat_of flat.now)) result }
{
    match arrange(alloc, flat, first) {
        Ok(text) => Ok(text),
        Err(NotArranged::Long) => Err(Halt::Refused(ArrangeRefusal::Long)),
        Err(NotArranged::NotFound(why)) => match refusal_of(alloc, flat, why) {
            Ok(refusal) => Err(Halt::Refused(ArrangeRefusal::Unordered(refusal))),
            Err(NoMemory) => Err(Halt::NoMemory),
        },
    }
}

/// What is made of a design that meets the rules.
fn arrange_checked(alloc: Global, checked: &Checked) -> Result<Vec<u8>, Halt<ArrangeRefusal>>
    ensures { IsMade (λ v. v.items) (IsArrangedText (first_priority (checked_design checked.now)) (flat (checked_design checked.now)))
        (RefusesArranging (first_priority (checked_design checked.now)) (flat (checked_design checked.now))) result }
{
    let first = first_priority(checked.design());
    match flatten(alloc, checked) {
        Ok(flat) => arrange_flat(alloc, &flat, first),
        Err(NoMemory) => Err(Halt::NoMemory),
    }
}

/// What is made of the text of a design.
pub(crate) fn arrange_text(alloc: Global, design: &[u8]) -> Result<Vec<u8>, Halt<ArrangeRefusal>>
    ensures { IsMade (λ v. v.items) (IsArrangedFor design.now) (RefusesArrangement design.now) result }
{
    match take(alloc, design) {
        Ok(checked) => arrange_checked(alloc, &checked),
        Err(Halt::Refused(refusal)) => Err(Halt::Refused(ArrangeRefusal::Unordered(
            SearchRefusal::Untaken(refusal),
        ))),
        Err(Halt::NoMemory) => Err(Halt::NoMemory),
    }
}

/// Where a design keeps its limits by the order of deadlines, `arrange` writes the text of `generate`, byte for byte.
pub fn arranged_as_generated()
    // By what both write.
    ensures same { WritesAsGenerated }
    // Which `arrange` does wherever `generate` does, unless a thread starts another.
    ensures can { CanWhereGenerated }
{}
