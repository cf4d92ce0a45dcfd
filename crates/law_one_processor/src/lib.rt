//! The law of one processor: in no interval of a run do the activations that are released and end in it use more ticks than it has. No
//! code runs here.
//!
//! The definition of what a design allows has no sentence on the ticks of several tasks together, so it allows traces for which one
//! processor is not enough. No run of the processor is such a trace: each tick is used by one task at most. It stands on `machine`
//! and speaks of every program and all arrivals, with no premise on priorities or bounds.
//!
//! Other crates may cite these proofs of it (`proofs/Shared`):
//!
//! - `Accounts`: which tasks are running, and the ticks that they have used and will use: how one account changes.
//! - `Fitting`: each step of the processor keeps the accounts of its tasks, so the events of a run fit one processor.
//! - `Programs`: the law for programs, by the places of units and by their names.
#![tactic(auto)]

ghost use Rattle.law_one_processor.specs.Laws.{NamedRunsFit, RunsFit};

/// In every run of every program the ticks used by the activations that are released and end in an interval are at most its length.
pub fn runs_fit_one_processor()
    ensures { RunsFit }
{}

/// The same of the trace by names, where the program meets the rules and so its units have different names.
pub fn named_runs_fit_one_processor()
    ensures { NamedRunsFit }
{}
