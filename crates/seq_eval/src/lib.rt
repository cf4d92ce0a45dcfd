//! The values of expressions, over any table of variables, and which run of a block, if any, shows a script of actions.
//!
//! It stands on `seq_tree`, which defines values and runs, and on `law_walks`, which reads a block along a script as a text is read by a
//! grammar. `eval` carries the first promise: it answers exactly the value of an expression, over the variables that a `Lookup` stands for.
//! `Env` is the plainest `Lookup`, a list of names and values. `follow` carries the second: its answer is that of the walk
//! (`specs/Following.antt`), and in words of runs the same. It keeps what is left to do on a stack of its own, so that no chain of calls makes
//! it recur, and looks up each call in a table, `Calls`, which `follow_in` is handed, so that it can be made once for many scripts.
//! `follow_actions` does the same over whatever gives `Actions`, so that a script need not be held as a list.
//!
//! Other crates may cite these proofs of it (`proofs/Shared`):
//!
//! - `Reading`: a variable reads as what is found under its name, and as 0 where nothing is.
#![tactic(auto)]

mod action;
mod along;
mod calls;
mod env;
mod lookup;
mod operators;
mod params;
mod scope;
mod script;
mod seen;
mod values;
mod walk;

pub use action::{Action, Followed};
pub use along::{follow, follow_actions, follow_in};
pub use calls::Calls;
pub use env::Env;
pub use lookup::Lookup;
pub use operators::{combine, gives_boolean, invert};
pub use params::target;
pub use script::{Actions, Along};
pub use values::eval;
