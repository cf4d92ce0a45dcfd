//! Whether a flat design meets its deadlines, and by which margin: priorities, ceilings, the table and the least bounds.
//!
//! It stands on the order of `rt_order`, the table of `rt_block` and the rounds of `rt_response`. `analyse` carries its promise: of
//! every sound flat design the priorities, ceilings, table and least bounds, with the names of threads and objects and in the
//! numbers of the design, or else the first value that is over its limit. `bounds_of` says the same of a table that
//! is at hand, and `named` and `ceilings` give names and written numbers for any other priorities; `named_rows` and `numbered` do so
//! for rows and numbers that are chosen from among those.
//!
//! Other crates may cite these proofs of it (`proofs/Shared`):
//!
//! - `CheckedDesigns`: a design in ticks that meets the rules can be analysed: its flat design is sound, and its least priority is written
//!   as a small number.
//! - `RankLaws`: where priorities are small, ceilings are; and the priorities of a sound flat design by deadlines are.
//! - `RowLaws`: what stands at a place of the threads and of their priorities gives the bound of a row its name and its number.
//! - `TablePlaces`: each row of the table of a flat design has a place, at which a thread stands; a value over its limit is that of a row.
#![tactic(auto)]

mod analysing;
mod naming;
mod rows;

pub use analysing::{analyse, bounds_of, ceilings, named};
pub use naming::{named_rows, numbered};
pub use rows::{Analysis, CeilingRow, NoBounds};
