//! The sequential language: names, tokens, expressions, statements, blocks and operations, and the definitions of what they
//! mean.
//!
//! It stands on no other crate, and all readers, printers and machines stand on it. `Name::make` carries the promise on names:
//! exactly the bytes that are one name of at most 64 bytes give one, folded to lower case. Each `copy` has an equal tree.
//!
//! Other crates may cite these proofs of it (`proofs/Shared`):
//!
//! - `Longest`: how far the longest run goes, one part at a time.
//! - `LoopSteps`: a loop over a list: the item at its index and those behind it, and what is added for each item.
//! - `Rounds`: what stands on a ring has both what each step begins with and what each step ends with, so that there is no ring where
//!   nothing has both.
//! - `SameNames`: the test that two names are the same tells whether they are.
//! - `TreeForms`: the trees of what the code puts together, by their parts: of a block, of an arm, and of the statements with parts.
//! - `Walks`: walks over a graph of operations: what is within a depth, and that the number of nodes is depth enough.
#![tactic(auto)]

mod copies;
mod limits;
mod memory;
mod name;
mod runs;
mod text_fault;
mod token;
mod tree;

pub use limits::{ADA_LIMIT, TEXT_LIMIT, TICK_LIMIT};
pub use memory::NoMemory;
pub use name::{Name, NameFault};
pub use runs::{Part, run_len};
pub use text_fault::TextFault;
pub use token::{Mark, Place, Spanned, Token};
pub use tree::{
    Arm, BinOp, Block, Callable, Costs, Datum, Expr, Mode, OpName, OpSig, OpText, Param, Stmt,
};
