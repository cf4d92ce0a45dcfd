//! The modelled processor in definitions and laws: what a program tells under arrivals. No code runs here.
//!
//! Other crates may cite these proofs of it (`proofs/Shared`):
//!
//! - `RunLaws`: laws of runs: steps add up, a run that has stopped stays as it is, and what is told from a state on is one list.
#![tactic(auto)]
