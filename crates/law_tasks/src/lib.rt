//! What one task does by itself, and that every run ends. Laws over definitions alone: no code runs here.
//!
//! What a task does from a release on is a run of its block (`activation` in `proofs/Entries.antt`), and a script has one run. Each part of an
//! instant ends, since pieces that take no tick only become fewer, and so do tasks that are due and arrivals: every program has a meaning.
//!
//! Other crates may cite these proofs of it (`proofs/Shared`):
//!
//! - `Acts`: which piece an act comes from, and the laws of what a task does from its pieces on, by the act.
//! - `Aheads`: what a task does from its pieces on, found from what it does after the effect of the first of them: one law for each act.
//! - `AptPrograms`: the setting of the tasks of a program that meets the rules is apt: names and calls are those of the texts, good calls
//!   lead to fit bodies, and passive operations call each other in no ring.
//! - `Courses`: what one task does by itself: the setting in which it runs, which pieces it may have left, and the ticks of a piece.
//! - `Depths`: steps and their depths: steps that stay within an operation, seen from inside and from outside of it.
//! - `Entries`: entry into a protected operation: what the task does inside it is a run of its body, and its caller goes on with what the
//!   body hands out.
//! - `Fits`: the pieces of a fit block are fit, and a task's pieces stay fit, whatever it does.
//! - `Fresh`: a task whose first piece has just started: where that piece takes ticks, some are left.
//! - `Halts`: every run comes to its stop: each part of an instant ends, and time goes on to the horizon.
//! - `ProgramFacts`: what is known of a program that meets the rules: its costs are of a tick at least, and the blocks of its tasks are
//!   fit.
//! - `Programs`: the setting of the tasks of a program: its system, its calls and its names.
//! - `Ways`: the ways through pieces up to the end of the innermost protected body or of the activation, and what a task does from its
//!   pieces on.
#![tactic(auto)]

ghost use Rattle.law_tasks.specs.Laws.{ScriptsHaveOneRun, ProgramsMean};

/// Two runs of a block from the same variables that show the same are one: they end with the same variables, and take the same fewest and
/// most ticks. What protected operations hand out is part of what a run shows.
pub fn a_script_has_one_run()
    ensures { ScriptsHaveOneRun }
{}

/// A program that meets the rules has a meaning under any arrivals, accepted or not: its run stops, at the horizon at the latest.
pub fn every_program_means()
    ensures { ProgramsMean }
{}
