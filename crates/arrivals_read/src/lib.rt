//! The reader of an arrivals file.
//!
//! It stands on `arrivals_tree` for what is read, on `token_read` for tokens and readers of them, on `grammar` for their laws, on `seq_read`
//! for places, on `ada_tree` for the program that the text speaks of, and on `name_sets` for the table of its units. `read_arrivals` carries
//! the promise: exactly the arrivals that a text says, or why it says none, at the first place that is at fault. It reads the whole text first
//! (`text`), then checks its items one after another (`items`), each by what was kept of those before it (`checks`).
//!
//! Other crates may cite these proofs of it (`proofs/Shared`):
//!
//! - `Refusals`: a text is refused for one reason, and none is that says arrivals.
#![tactic(auto)]

mod checks;
mod fault;
mod items;
mod reader;
mod text;
mod units;

pub use fault::ArrivalFault;
pub use reader::read_arrivals;
