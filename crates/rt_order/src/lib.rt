//! Deadline-monotonic priorities and priority ceilings of a flat design.
//!
//! It stands on the flat designs of `ods_tree`, the calls of `seq_cost`, the numbers of `call_graph` and the definitions of `analysis`.
//! `order` carries its promise: the shorter a thread's deadline, the greater its priority, and the ceiling of what threads share is the
//! greatest priority of those that come to it, in their blocks or through protected objects. `rank` gives the ceilings for any other
//! priorities, and where they are asked for many, `sharing_of` walks each block once and `ceilings` reads what it found.
//!
//! Other crates may cite these proofs of it (`proofs/Shared`):
//!
//! - `CeilingSteps`: ceilings that are found round by round are those of the definition.
#![tactic(auto)]

mod by_name;
mod called;
mod deadlines;
mod ordering;
mod rises;
mod sharing;
mod users;

pub use ordering::{ceilings, order, rank};
pub use sharing::{Sharing, sharing_of};
