//! Arrivals as types and definitions: the horizon, lists of durations and requests from outside, their text, and what it is for a program to
//! accept them. No code runs here.
//!
//! The processor and all laws of runs stand on it, and so does the reader, `arrivals_read`, of which they know nothing.
#![tactic(auto)]

mod arrivals;

pub use arrivals::{Arrival, Arrivals, WorkList};
