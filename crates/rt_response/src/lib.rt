//! Response times by the response equations, from a table of numbers alone.
//!
//! It stands on no other crate. The promise is in the contract of `respond`: the least vector that
//! meets the equations within the limits, or else the first value that is over its limit, and then
//! no vector fits. The definitions are in `specs/`: `Response` has the equations, `Rounds` the rounds
//! by which they are solved, and `Tables` the tables for which they can be.
//!
//! Other crates may cite these proofs of it (`proofs/Shared`):
//!
//! - `Least`: the rounds stay below every vector that meets the equations, so where one goes over a limit no vector fits.
//! - `Places`: the right sides of the equations by their places, and the ranges that keep products and sums small.
//! - `Solving`: the rounds rise from zeros within their limits, so they come to rest at the least vector or go over a limit.
#![tactic(auto)]

mod excess;
mod rounds;
mod rows;
mod sides;

pub use rounds::respond;
pub use rows::{Bound, Limit, Miss, ThreadRow};
