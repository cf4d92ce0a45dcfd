//! Sets of names and of operations, and values by them.
//!
//! It stands on the names of `seq_tree`. `Names::has` and `Ops::has` carry the promise of sets, that they have exactly what was added;
//! `NameTable::find` and `OpTable::find` that of tables, that a value is the one that was put last. All of them borrow their names, and
//! look one up in the time of the logarithm of their number. Whatever the values are, names lead to places, and values stand there.
//!
//! Other crates may cite these proofs of it (`proofs/Shared`):
//!
//! - `PlaceLaws`: the first place of a test, of a name and of an operation: what stands there, and what has one.
#![tactic(auto)]

mod name_table;
mod op_places;
mod op_table;
mod places;
mod sets;

pub use name_table::NameTable;
pub use op_places::OpPlaces;
pub use op_table::OpTable;
pub use places::Places;
pub use sets::{Names, Ops};
