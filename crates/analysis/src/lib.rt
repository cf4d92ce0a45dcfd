//! Priorities, ceilings and blocking of a flat design, and the table of numbers that its response times are solved from.
//!
//! It stands on the designs of `ods_tree`, the costs of statements of `seq_tree` and the tables of `rt_response`. It has no calls:
//! its promise is the definitions that contracts above cite, of what an activation costs (`Execution`), how threads are ordered
//! (`Priorities`), how long one is kept waiting (`Ceilings`, `Blocking`), and what the response equations ask of each (`Tables`).
//!
//! Other crates may cite these proofs of it (`proofs/Shared`):
//!
//! - `CeilingLaws`: the ceiling of what a protected object calls is at least its own, and at least the priority of each thread that uses
//!   it.
//! - `CostRanges`: what a sound flat design costs: its operations, its calls and its blocking are at most the greatest cost.
//! - `Nested`: protected operations inside protected operations, and a request inside one: tables, bounds and ceilings.
#![tactic(auto)]

mod ranking;
mod table;

pub use ranking::Ranking;
pub use table::Table;
