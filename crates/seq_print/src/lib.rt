//! Blocks of statements as text, and the law of all printers of this project.
//!
//! It stands on the trees and the layout of `seq_tree`, on the laws of tokens of `token_read`, and on `itoa` for numbers.
//! `print_block` carries its promise: exactly the lines of a block are added to a text, or nothing is. Its two laws are
//! `reads_back`, that what is laid out reads back as the tokens of its lines, and `tokens_are_readable`, that what is read from a
//! text can be laid out so. `put` and its kin are for other printers.
//!
//! Other crates may cite these proofs of it (`proofs/Shared`):
//!
//! - `BackLaws`: printed lines read back as their tokens.
//! - `Chains`: texts that are added one after another, and fronts of them.
//! - `Depths`: from ten levels on, deeper lines begin with as many spaces, so that a block has the same text at each such level.
//! - `Following`: what may follow a token directly, so that the token is read as it is.
//! - `Fronts`: a token at the front of a text is read as it is, where what follows leaves it so.
//! - `Spacing`: the tokens of a line, one after another, with the spaces between them.
//! - `TokenForms`: each token of a text is readable: a name is folded and has at most 64 bytes, and a number is below 2 ^ 32.
#![tactic(auto)]

mod block;
mod expression;
mod law;
mod lines;
mod params;
mod puts;

pub use block::print_block;
pub use law::{reads_back, tokens_are_readable};
pub use lines::{put_indent, put_line};
pub use params::put_params;
pub use puts::{put, put_digits, put_name, put_number};
