//! The linker: the units of a program as flat code, in which every name is a slot, every expression an operand, and every call leads to a place.
//! `task_runtime` runs it.
//!
//! It stands on `seq_eval` for tables of names and the values of operators, on `law_flat_code`, which says when a block stands in code and what
//! is ahead of each place, and on `machine`, which says what a call leads to.
//!
//! `link_expr` writes the nodes of an expression, with the slot of each variable that a table gives; `value_at` carries the promise: its answer
//! is the value of each expression that the code stands for, over the variables that the slots hold.
//!
//! `link_units` carries the promise of whole programs (`specs/Programs.antt`): the body of each operation to which calls lead and the block of
//! each task stand in the code, and each call there leads to what the definitions say. `link_body` does it for one body, behind the code that
//! was there, and `link_block` for a block in front of a place of the code, whatever is written elsewhere later. It writes a block from its
//! last statement to its first, so that every place behind it is known when a jump leads there.
//!
//! Other crates may cite these proofs of it (`proofs/Shared`):
//!
//! - `BodySlots`: the slots of a body that begins are the variables that the machine gives it.
//! - `Growths`: nodes to which others are added stand for what they stood for.
//! - `NodeValues`: the value of an operand is that of each expression that it stands for.
//! - `Placing`: a slot above those of a scope may be set; with a name it is one variable more; values stored one after another.
//! - `Starts`: each body and each block of a task stands in the code of linked units at its place.
//! - `Writing`: a slot that got a value is the variable that got it.
#![tactic(auto)]

mod actuals;
mod body;
mod call;
mod callees;
mod code;
mod expressions;
mod fill;
mod law;
mod link;
mod nodes;
mod plain;
mod program;
mod scope;
mod size;
mod tables;
mod values;

pub use body::link_body;
pub use callees::{Calls, Target};
pub use code::{Code, Ins};
pub use expressions::link_expr;
pub use law::stores_are_writes;
pub use link::link_block;
pub use nodes::{Linked, Node, Operand};
pub use program::{LinkedUnits, link_units};
pub use scope::Scope;
pub use tables::OpBody;
pub use values::value_at;
