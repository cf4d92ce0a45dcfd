//! The sample designs: a design of one to thirty threads with arrivals for it, to try the tools on.
//!
//! It stands on the designs of `ods_tree`, on their printer in `ods_print` and on the bytes of `seq_print`. `sample` carries its
//! promise: exactly the text of the sample design of so many threads, and exactly its arrivals.
//!
//! Other crates may cite these proofs of it (`proofs/Shared`):
//!
//! - `NumberSteps`: the numbers from one on and below another, one after another.
#![tactic(auto)]

mod names;
mod objects;
mod requests;
mod sampling;
mod threads;

pub use sampling::{SampleTexts, sample};
