//! The rules of a design: what is broken, and what of it is told first.
//!
//! It stands on the rules of `design_rules` and on the crates that find the offenders: `ods_names`, `ods_forms` and
//! `ods_calls`, over the index of `ods_index`. `check` carries its promise: it takes a design exactly where the design
//! meets the rules, and else tells the first rule that is broken, by number, and of it the first offender.
//!
//! Other crates may cite these proofs of it (`proofs/Shared`):
//!
//! - `CountLaws`: a design has as many objects in ticks as it has as it is written.
//! - `VerdictLaws`: the first rule that is broken, found rule by rule.
#![tactic(auto)]

mod checked;
mod totals;
mod verdict;

pub use checked::Checked;
pub use ods_index::{Broken, attribute};
pub use totals::count;
pub use verdict::check;
