//! Examples that pin the definitions of the lowest crates: each holds of a case, or is broken by one that differs from it alone.
//!
//! They stand here and not beside the definitions, since nothing stands on this crate: what is added here proves nothing else again. It has
//! no calls, and nothing is promised by it.
#![tactic(auto)]
