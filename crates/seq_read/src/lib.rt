//! Blocks and expressions from tokens, and what the readers of designs and of Ada texts share.
//!
//! It stands on the tokens of `token_read` and the laws of readers of `grammar`. `read_block` and `read_expr` carry its
//! promise: the longest block or expression from a place on, or exactly the token with which none goes on, or none within the limits.
//! `block` and `expression` are the same for the readers of whole texts.
//!
//! Other crates may cite these proofs of it (`proofs/Shared`):
//!
//! - `BlockLaws`: the reader of blocks reads the proper blocks within its limits.
//! - `Bounds`: trees without limits keep some limits, and trees that keep limits are trees without them.
//! - `ChainLevels`: what a chain of one class reads is a level of expressions: its trees, grouped to the left.
//! - `CostLaws`: the reader of the costs of all kinds of statements reads its grammar, however one cost is spelled and read.
//! - `DatumLaws`: the reader of variables reads its grammar, whichever words are names.
//! - `ExpressionLaws`: the reader of expressions reads the levelled expressions within its limits.
//! - `Reaches`: how far a reader goes is how far texts go.
//! - `Spelled`: the law of lists whose items are each spelled in one way.
//! - `StatementLaws`: the reader of statements reads the proper statements within its limits.
//! - `StatementTokens`: the tokens of statements, whatever the level at which their lines stand.
//! - `StatementWidening`: readers of statements and blocks with limits, against those with wider ones.
//! - `Takes`: how many tokens the readers take at least, one form after another.
//! - `TextFaultLaws`: a text has at most one fault, and one that reads as a tree within the limits has none.
//! - `TokenTakes`: each expression and each statement takes tokens.
//! - `TokenWidening`: readers of single tokens and of phrases have no limits.
//! - `Turns`: repetitions, one turn after another.
//! - `WholeSteps`: a tree that is read from all of the tokens.
#![tactic(auto)]

mod expressions;
mod fault;
mod fronts;
mod halt;
mod names;
mod operators;
mod parts;
mod places;
mod statements;
mod tokens;

pub use expressions::expression;
pub use fault::ReadFault;
pub use fronts::{read_block, read_expr};
pub use halt::Halt;
pub use names::{Text, may_name, next_is_name};
pub use parts::{data, datum, end_of, more_data, param, params_from};
pub use places::place_of;
pub use statements::block;
pub use tokens::{any_word, mark, name, number, phrase, word};
