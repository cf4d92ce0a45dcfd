//! What a block costs, how often it calls an operation, and which operations it calls.
//!
//! It stands on seq_tree, which has the trees and what the dearest path through one is. `cost` carries the promise: the ticks of
//! the dearest path, exactly where they are at most 1,000,000,000, and else the first statement that brings the sum over that.
//! `starts` and `starts_through` count calls along a path by the same definition, and `calls` lists the different calls. `gathered_calls`
//! is the walk that gathers calls: as they are written, or outside loops of no turn.
//!
//! `cost` and `starts_through` search their list for each call. Where there are many callees, `cost_by`, `capped_cost`,
//! `starts_by` and `counted_by` take any account of them, as the `OpTable` of `name_sets`, which searches by halves.
//!
//! Other crates may cite these proofs of it (`proofs/Shared`):
//!
//! - `CutCosts`: costs cut at a limit: cutting what calls count changes no cut cost.
//! - `Listed`: the cost of a block, where its callees have what each call of it costs by another account, is the cost by that account.
#![tactic(auto)]

mod accounts;
mod counted;
mod paths;
mod starting;
mod ticks;
mod written;

pub use accounts::{Account, Callee, Started};
pub use starting::{counted_by, starts, starts_by, starts_through};
pub use ticks::{TooDear, capped_cost, cost, cost_by};
pub use written::{Call, Gathered, calls, gathered_calls, written_calls};
