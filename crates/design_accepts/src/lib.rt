//! Whether a trace from anywhere is one that the machine of a design allows.
//!
//! It stands on `trace_checks`, which tells times, cyclic releases, arrivals and requests in one pass, and on `trace_scripts`, which tells the
//! activations of threads and the operations of objects. `accepts` carries the promise: the verdict of `law_traces`, the first part of the
//! machine that the trace breaks, or how many lines it has.
#![tactic(auto)]

mod accepting;
mod called;
mod unaccepted;
mod units;

pub use accepting::accepts;
pub use unaccepted::Unaccepted;
