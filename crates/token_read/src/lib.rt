//! The tokens of a text with their places, and readers of single tokens.
//!
//! It stands on seq_tree, which has the tokens and what a text's tokens are, and on the laws of `grammar`. `Tokens::of`
//! carries the promise: exactly the tokens of the text, taken from it as they are read, without memory, or exactly its first fault
//! and the place; `tokens` answers them as a list. Each reader of one token takes the tokens that are left, and answers what the front of
//! them is with the tokens behind it, or how many tokens were left where it stopped:
//! its contract is a reader of the definitions (`Readers`), of which `TokenLaws` proves that it reads exactly its grammar.
//!
//! Other crates may cite these proofs of it (`proofs/Shared`):
//!
//! - `BehindSteps`: the tokens of a text by themselves: whether they are found, and which they are, is the same wherever the text stands.
//! - `FrontLaws`: the front of a text, by what its first byte begins.
//! - `MarkLaws`: the marks of one byte and of two, and the mark at the front of a text.
//! - `TokenLaws`: the laws of the readers of one token, and of a phrase.
//! - `TokenSteps`: the tokens of a text, one front at a time.
#![tactic(auto)]

mod fault;
mod fronts;
mod lexemes;
mod lexer;
mod marks;
mod numbers;
mod places;
mod token_fault;
mod token_places;
mod tokens_left;
mod words;

pub use fault::LexFault;
pub use lexemes::{Folded, Lexeme, Word};
pub use lexer::tokens;
pub use token_fault::TokenFault;
pub use token_places::place_behind;
pub use tokens_left::Tokens;
pub use words::{
    Item, any_word, mark, next_is_mark, next_is_number, next_is_word, number, number_within,
    phrase, word,
};
