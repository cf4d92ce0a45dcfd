//! The reader of Ada texts.
//!
//! It stands on the tokens of `token_read`, the laws of readers of `grammar`, the blocks of `seq_read` and the programs of
//! `ada_tree`. `read_ada` carries its promise: the program that a text reads as, or the exact place and kind of the first fault, or the
//! first rule of programs that it breaks, which `ada_rules` judges.
//!
//! Other crates may cite these proofs of it (`proofs/Shared`):
//!
//! - `ReadingLaws`: the reader of programs within its limits: what it reads is a text, and where it stops is the fault of the tokens.
#![tactic(auto)]

mod bodies;
mod fault;
mod fixed_text;
mod heads;
mod names;
mod params;
mod program;
mod reader;
mod renamings;
mod requests;

pub use fault::AdaFault;
pub use reader::read_ada;
