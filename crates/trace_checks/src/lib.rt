//! What is asked of a trace in one pass over its events: times and their order, the releases of cyclic threads, arrivals, and the requests and
//! releases of sporadic threads.
//!
//! It stands on the reader of `trace_read`, and on the checks of `law_traces`, each of which tells whether its part of the machine of a design
//! holds. `check_parts` carries the promise: the answers of these checks on the events that a text tells, in the order of the parts.
//!
//! Other crates may cite these proofs of it (`proofs/Shared`):
//!
//! - `Accepting`: arrivals that are accepted for a program: their horizon is within the limit, and each is of a unit.
#![tactic(auto)]

mod arrivals;
mod broken;
mod cyclic;
mod parts;
mod pass;
mod times;
mod units;
mod waiting;

pub use broken::Broken;
pub use pass::{accepted_arrivals_are_of_units, check_parts};
