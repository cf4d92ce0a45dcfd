//! The table of a flat design: what the response equations ask of each thread, with blocking terms.
//!
//! It stands on the flat designs of `ods_tree`, the definitions of `analysis`, the calls of `seq_cost` and the prices of `call_graph`.
//! `blocking` carries its promise: the table of the definitions, for the priorities and ceilings that are handed in. Where tables are
//! asked for many priorities, `facts_of` works out once what doesn't depend on them, and `table` reads it. `part_costs` says of any
//! design what its bodies and threads cost.
#![tactic(auto)]

mod bases;
mod calls;
mod causes;
mod ceilings;
mod facts;
mod operations;
mod parts;
mod rows;
mod sections;
mod services;
mod spread;
mod starters;
mod tables;

pub use causes::{Cause, causes_of};
pub use facts::Facts;
pub use parts::part_costs;
pub use tables::{blocking, facts_of, table};
