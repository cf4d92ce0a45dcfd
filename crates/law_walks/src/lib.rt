//! A block read along a script: laws over definitions alone, no code runs here.
//!
//! What a run of a block shows to others is a script of actions, and the results that protected operations hand out are part of it. So a
//! script is to the runs of a block what a text is to a grammar, and a walk along it is a reader (`grammar`). `specs/Walks.antt` has the
//! walk, by the same cases as the runs of `seq_tree`. It takes the whole script exactly where a run shows it, and that run is then the only
//! one; else it tells how many actions are left at the first one with which no run goes on, and none where the script ends inside a run.
//!
//! Other crates may cite these proofs of it (`proofs/Shared`):
//!
//! - `Bodies`: ways through bodies: calls may go deeper than they need, and each way has some depth.
//! - `Deeper`: a block that may be walked with calls so deep may be walked with deeper ones.
//! - `Exact`: walks are exact: of statements, blocks, branches and calls, by induction on the depth of calls and on the block.
#![tactic(auto)]

ghost use Rattle.law_walks.specs.Laws.{WalksAreExact};

/// The walk of a block along a script gives the run that shows the script, exactly where there is one. Else the script ends inside a run, or
/// the walk stops at the first action that can't stand there.
pub fn walks_are_exact()
    ensures { WalksAreExact }
{}
