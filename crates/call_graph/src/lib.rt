//! The graph of calls: which calls a block makes, which operations a path comes to once at most, and what calls of operations count.
//!
//! It stands on the trees of `seq_tree` and `ods_tree`, the tables of `name_sets`, the calls of `seq_cost`, the order of `rings` and the
//! definitions of `analysis`. Whose operations they are, and what a call means, is its callers' matter. `ways_of` carries its promise:
//! what has a way in its answer has one caller, which has one too, and that caller makes the call once. So no path comes there twice.
//! `prices_of` carries the promise on costs: what calls count of any operations, where a `CallPlaces` tells to which of them calls lead;
//! it is worked out callees first, as `Settled` lets any numbers be worked out.
//!
//! Other crates may cite these proofs of it (`proofs/Shared`):
//!
//! - `DepthLaws`: lists that are made again and again by one step stay as they are once a step changes nothing.
//! - `EdgeLaws`: an edge between two places is a call of what stands at one to what stands at the other.
//! - `ListedLaws`: no call counts more often on a path than it is listed, where it is listed once at most.
//! - `NumberSteps`: what is left of numbers after a place, and the number there.
//! - `OnceLaws`: where ways fit all callers, all that leads on to what has a way leads there by one.
//! - `PlaceLaws`: numbers by the places of operations are those of the operations by their names.
//! - `PriceLaws`: prices by places are the costs of calls of a flat design, cut at one tick over the greatest cost.
//! - `SettledLaws`: numbers that are worked out callees first are those of calls that are followed as deep as there were turns, or deeper.
#![tactic(auto)]

mod call_places;
mod callees;
mod edges;
mod listed;
mod numbers;
mod order;
mod prices;
mod services;
mod settled;
mod ways;

pub use call_places::{CallPlaces, op_places, places_called};
pub use edges::add_edges;
pub use listed::listed_calls;
pub use numbers::{greatest_of, same, value};
pub use prices::{CAP, Prices, prices_of, ticks_of};
pub use services::{Body, Served, places_of};
pub use settled::Settled;
pub use ways::{Caller, Ways, ways_of};
