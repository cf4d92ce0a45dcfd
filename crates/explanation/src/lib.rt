//! What explains the bounds of a flat design: of each thread its row, what is told of its response time, and what blocks it.
//!
//! It stands on the table and the causes of `rt_block`, the bounds of `design_bounds` and, where a value is over its limit, on what
//! `late_response` tells of each row. `explain` carries its promise: all threads by priority, the chains of requests and the ceilings,
//! whether or not the design keeps its limits, and the utilisation. `delay_of` gives what a thread of higher priority takes of a window,
//! `chain_response` what a chain of requests takes.
#![tactic(auto)]

mod chains;
mod delays;
mod explaining;
mod finding;
mod reasons;
mod threads;
mod values;

pub use chains::{chain_jitter, chain_response};
pub use delays::{Delay, delay_of};
pub use explaining::explain;
pub use reasons::{Blocker, Explanation, Late, Reasons};
pub use values::{Value, value_at, value_of};
