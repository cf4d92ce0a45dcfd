//! The law that every sample is valid. No code runs here.
//!
//! It stands on the definitions of the samples in `sample_design`, and on those of what is read, of the rules, of the response equations and
//! of arrivals. `samples_are_valid` carries the promise: the design of each sample is read and meets the rules, its bounds are those that
//! are stated, its arrivals are accepted, and its Ada text is within the limit of bytes.
//!
//! Other crates may cite these proofs of it (`proofs/Shared`):
//!
//! - `Valid`: each sample is valid.
#![tactic(auto)]

ghost use Rattle.law_samples.specs.Laws.{SamplesAreValid};
ghost use Rattle.law_samples.specs.Orders.{RequestsAreAll};

/// The sample of each number of threads from 1 to 30 is valid.
pub fn samples_are_valid()
    ensures { SamplesAreValid }
{}

/// The arrivals of each sample hold the requests of its sporadic threads, all of them up to the horizon, by time and then by thread.
pub fn requests_are_all()
    ensures { RequestsAreAll }
{}
