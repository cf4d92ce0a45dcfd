//! What runs of a design: its terminal objects by sort, with each call naming the operation that it means.
//!
//! It stands on the designs that `ods_rules` has checked, and on the walk and the links of `ods_index`. `flatten` carries its
//! promise: exactly the flat design of the definitions.
#![tactic(auto)]

mod blocks;
mod entries;
mod flattening;
mod priorities;
mod terminals;
mod timings;

pub use flattening::flatten;
pub use priorities::first_priority;
