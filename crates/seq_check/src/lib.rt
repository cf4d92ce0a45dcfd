//! The faults of a body of the sequential language: unknown names, sorts, divisors, exits, assignments and actuals.
//!
//! It stands on seq_tree, which has the trees and what their faults are, and on the sets and tables of name_sets and seq_cost.
//! `check_block` carries the promise: the first statement that has a fault is told with its first fault, and nothing is told exactly
//! where no statement has one. It searches its lists for each name. Where there are many names or operations, `check_known` promises
//! the same and looks them up in the sets and tables of a `Known`.
#![tactic(auto)]

mod actuals;
mod check;
mod expressions;
mod fault;
mod known;
mod names;
mod offers;
mod place;
mod scope;
mod sorts;

pub use check::{check_block, check_known};
pub use fault::BodyFault;
pub use known::{Data, Known};
pub use offers::{Calls, Offer};
pub use scope::Scope;
