//! The modelled processor at work: from a program and its arrivals, one event after another up to the horizon or a stop.
//! It stands on the definitions of `machine`, on the queues of `link_queue`, and on `task_runtime` for what one task does. It runs every
//! program that meets the rules: any number of cyclic and sporadic tasks, the protected objects that they enter, nested where they call each
//! other, and the requests between tasks. `Machine::advance` carries its promise: what it tells, followed by all that is told afterwards, is
//! what was to be told.
//!
//! Other crates may cite these proofs of it (`proofs/Shared`):
//!
//! - `Standing`: where a machine stands: not past its horizon, and before it where a tick is to be used.
#![tactic(auto)]

mod buffer;
mod law;
mod object;
mod objects;
mod processor;
mod threads;

pub use buffer::EventBuf;
pub use law::one_meaning;
pub use processor::{Machine, Turn};
