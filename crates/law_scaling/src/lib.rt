//! What becomes of a design whose `work` takes more or less, as laws over definitions: no code runs here.
//!
//! `work` alone is changed, object by object (`Working`); a scaled design has all of it at so many per mille (`Scaling`). Where `work`
//! grows, costs, sections, blocking, the rows of the table and the least vector do not fall; priorities, ceilings and starters stay. So
//! a design that holds at so many per mille holds at less (`holding_is_kept`), and the greatest per mille at which it holds can be found
//! by halving. The laws hold of any two changes of which one is nowhere above the other (`less_work_holds`), and so of the `work` of one object
//! alone, as that of one thread's own body (`holding_alone_is_kept`).
//!
//! It stands on `analysis`. Each law is the contract of a public function with an empty body.
//!
//! Other crates may cite these proofs of it (`proofs/Shared`):
//!
//! - `Blocks`: a block whose `work` is changed calls what it called, and weighs what it weighed with its `work` so changed.
//! - `Cheap`: a design is sound with other `work` exactly as far as no body or thread is too dear.
//! - `Designs`: what runs of a design whose `work` is changed, and its objects, links and attributes.
//! - `Holding`: a design that holds at so many per mille holds at less, and a sound one is nowhere too dear at one per mille.
//! - `Ranks`: priorities and ceilings don't change with `work`: they are read off deadlines and calls.
//! - `Sound`: a design stays sound with other `work` as long as no body or thread is too dear.
#![tactic(auto)]

ghost use Rattle.law_scaling.specs.Laws.{BlockingGrows, CostsGrow, FittingIsKept, FlatDesignsScale, HoldingIsKept, LeastScaleIsCheap};
ghost use Rattle.law_scaling.specs.Laws.{LeastVectorsGrow};
ghost use Rattle.law_scaling.specs.Laws.{FlatDesignsScaleAlone, HoldingAloneIsKept, LeastScaleAloneIsCheap, LessWorkHolds};
ghost use Rattle.law_scaling.specs.Laws.{RanksStay, RowsGrow, SectionsGrow, SoundnessStays, SpacingStays};

/// Bodies and threads cost no less where `work` takes no less.
pub fn costs_grow()
    ensures { CostsGrow }
{}

/// Sections are on the same objects and no shorter where `work` takes no less.
pub fn sections_grow()
    ensures { SectionsGrow }
{}

/// Blocking is no less where `work` takes no less.
pub fn blocking_grows()
    ensures { BlockingGrows }
{}

/// The rows of the table ask no less where `work` takes no less: costs and blocking are no less, and the rest is the same.
pub fn rows_grow()
    ensures { RowsGrow }
{}

/// What fits the rows of a table fits rows that ask no more.
pub fn fitting_is_kept()
    ensures { FittingIsKept }
{}

/// The least vector of rows that ask no less is nowhere below.
pub fn least_vectors_grow()
    ensures { LeastVectorsGrow }
{}

/// Priorities, ceilings and the order of the rows are the same, whatever `work` takes.
pub fn ranks_stay()
    ensures { RanksStay }
{}

/// A sound design is sound with other `work` too, as long as no body or thread costs more than 1,000,000,000 ticks.
pub fn soundness_stays()
    ensures { SoundnessStays }
{}

/// No thread of a spaced design requests another more often with other `work`: periods and separations stay.
pub fn spacing_stays()
    ensures { SpacingStays }
{}

/// A design that holds at so many per mille holds at less.
pub fn holding_is_kept()
    ensures { HoldingIsKept }
{}

/// A design that holds with some `work` holds with `work` that is nowhere above.
pub fn less_work_holds()
    ensures { LessWorkHolds }
{}

/// A design that holds with the `work` of one object alone at so many per mille, all else as it was, holds with it at less.
pub fn holding_alone_is_kept()
    ensures { HoldingAloneIsKept }
{}

/// No body and no thread of a sound design is too dear at one per mille.
pub fn least_scale_is_cheap()
    ensures { LeastScaleIsCheap }
{}

/// Nor where the `work` of one object alone is at one per mille.
pub fn least_scale_alone_is_cheap()
    ensures { LeastScaleAloneIsCheap }
{}

/// What runs of a design in ticks with all its `work` at so many per mille is its flat design at so many per mille: links, attributes and
/// all that is no `work` stay, and budgets are no part of what runs.
pub fn flat_designs_scale()
    ensures { FlatDesignsScale }
{}

/// And so with the `work` of one object alone at so many per mille: what runs is the flat design with that object's `work` so scaled.
pub fn flat_designs_scale_alone()
    ensures { FlatDesignsScaleAlone }
{}
