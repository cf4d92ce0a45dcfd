//! The line of an event, and the summary of a trace.
//!
//! An event names tasks, units and operations by their places in a program; its line names them in words. It stands on `trace_tree` for
//! events, on `seq_tree` and `ada_tree` for the program, and on `itoa` for numbers. `line` carries the promise: a buffer that
//! holds exactly the line of an event, and no memory asked for. `Summary` counts events as they come, and its text is the summary of them all.
//!
//! Other crates may cite these proofs of it (`proofs/Shared`):
//!
//! - `Names`: what stands at a place of a program that the code reads.
#![tactic(auto)]

mod bound;
mod line_buf;
mod printer;
mod summary;
mod tally;

pub use bound::NamedBound;
pub use line_buf::LineBuf;
pub use printer::line;
pub use summary::Summary;
