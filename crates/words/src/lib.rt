//! Which words may be names.
//!
//! It stands on the definitions of `ada_tree` and `ods_tree`. `is_ada_name` and `is_design_name` carry its promise: they are true
//! exactly of the names that may stand in an Ada text, those that are neither reserved nor kept for what the text uses itself, and of
//! those that may stand in a design, which are none of the words of its grammar.
#![tactic(auto)]

mod names;

pub use names::{is_ada_name, is_among, is_design_name};
