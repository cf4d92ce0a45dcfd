//! Ada programs as text.
//!
//! It stands on the programs of `ada_tree`, on the layout of `seq_tree` and on the printer of blocks of `seq_print`.
//! `print_ada` carries its promise: exactly the text of a program is added to a text, or nothing is. `reads_back` is its law:
//! the text of a proper program, within its limit of bytes, reads as the same program.
//!
//! Other crates may cite these proofs of it (`proofs/Shared`):
//!
//! - `ApartLines`: in each line of a program dots stay apart from each other, so that a program whose tokens can be read has readable
//!   lines.
#![tactic(auto)]

mod costs;
mod heads;
mod law;
mod operations;
mod program;
mod requests;
mod tasks;
mod units;

pub use law::reads_back;
pub use program::print_ada;
