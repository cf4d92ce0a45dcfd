//! Events as types and definitions: what the modelled processor tells, the lines that are written of it, and what it is for no object to be
//! inside two operations.
//!
//! An event names tasks, units and operations by their places in a program. The processor and all laws of runs stand on it, and so does
//! the writer of lines, `trace_text`, of which they know nothing.
#![tactic(auto)]

mod event;

pub use event::{Event, Values};
