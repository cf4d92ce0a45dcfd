//! The law of whole runs: what a program tells under arrivals is what its texts say. No code runs here.
//!
//! It joins what one task does by itself (`law_tasks`) with exclusion (`law_ceilings`), from the stop of a run backwards: what is
//! claimed of a state and of what is told from it on is carried over each step. Its one call carries the law.
//!
//! Other crates may cite these proofs of it (`proofs/Shared`):
//!
//! - `Back`: from behind a change of one task to before it: what is claimed of the other tasks and of the objects stays.
//! - `Claims`: what is claimed of a state and of what is told from it on: each thread lives as its block says, and each object serves one
//!   by one.
//! - `EveryRun`: every run without a stop, of a program that can be read and under arrivals that are accepted, does as the program's texts
//!   say.
//! - `Excluded`: what exclusion keeps of the tasks of each state of a run, as the law of a whole run asks for it.
//! - `InOrder`: the order of what a run tells: times don't fall, every deed is one of a task, and the horizon comes once and last.
//! - `Moves`: what releases and effects keep and tell: threads and the time stay, and every event is one of a thread at this time.
//! - `Namings`: the names of a program that can be read tell its tasks and its objects apart, and those of its operations.
//! - `StepsBack`: from behind a step to before it, and so from the stop of a run to its opening.
//! - `Units`: the tasks and the objects of a program's software are those of its system.
//! - `Walks`: what a step does to the order of a trace: it goes on within an instant or to the next one, or the run ends at the horizon or
//!   at a stop.
#![tactic(auto)]

ghost use Rattle.guarantee.specs.MachineLaw.{RunsAsWritten};
ghost use Rattle.std.specs.Prelude.{ℕ};

/// Every run without a stop does as the texts of its program say, for each program that can be read and each arrivals that are accepted.
///
/// So the times of what is told don't fall and the horizon comes last, each activation of a task is a run of its block, begun at the
/// release with the data that the one before left, each operation of a protected object is a run of its body, one after another, and
/// the ticks used lie between the fewest and the most. `limit` is the farthest horizon allowed, in ticks.
pub fn every_run_does_as_written()
    ensures { (limit : ℕ) → RunsAsWritten limit }
{}
