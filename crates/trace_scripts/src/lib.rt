//! A trace as its threads and objects: whether the operations of each object are run one by one, and what each activation shows.
//!
//! The definitions are those of `law_traces`, in the passes of `law_traces`. `first_wrong` carries the promise: the first thread
//! whose activations the trace shows wrong, else the first object whose operations it does not run one by one.
#![tactic(auto)]

mod actions;
mod data;
mod insides;
mod moves;
mod names;
mod objects;
mod progress;
mod reading;
mod scripts;
mod services;
mod verdict;
mod walks;

pub use verdict::{Wrong, first_wrong};
pub use walks::Scene;
