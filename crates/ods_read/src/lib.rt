//! The reader of designs.
//!
//! It stands on the blocks and names of `seq_read`, the laws of readers of `grammar` and the designs of `ods_tree`. `read_design`
//! carries its promise: it answers exactly the design whose tokens a text has, and refuses exactly the texts that have the tokens of
//! none, at the first token with which none goes on.
//!
//! Other crates may cite these proofs of it (`proofs/Shared`):
//!
//! - `Counting`: a text has no more tokens than bytes, and a design no more objects than tokens: so few that each can be counted.
//! - `OneReading`: that bytes read as one design, have one fault, and have none where they read as a design.
//! - `ReadingLaws`: the reader of designs within its limits: what it reads is a text, and where it stops is the fault of the tokens.
#![tactic(auto)]

mod attributes;
mod bodies;
mod design;
mod names;
mod objects;
mod operations;
mod reader;
mod sections;
mod values;

pub use reader::read_design;
