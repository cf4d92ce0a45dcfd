//! The rules of a design, as definitions: what each rule asks, which is broken first, and what is told of it.
//!
//! It stands on the designs of `ods_tree` and the costs of `analysis`. It has no calls: `ods_rules` decides the rules, and the laws of
//! programs and runs take a design that meets them (`Rules`, with one module a rule or two beside it).
//!
//! Other crates may cite these proofs of it (`proofs/Shared`):
//!
//! - `Rows`: worked examples: which rule is broken first, and what is told of it.
//! - `WorkedRules`: a design meets the rules where the lists of what is told are empty, and no way of calls or starts is longer than some
//!   number of steps.
#![tactic(auto)]
