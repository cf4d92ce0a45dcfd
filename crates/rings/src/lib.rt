//! Rings of graphs: the first node that leads back to itself, and what nodes lead to.
//!
//! It stands on `LeadsTo` and `IsOnRing` of `seq_tree`. Nodes are numbers from 0 and edges are pairs of them. `first_on_ring` carries
//! the promise: the first node by number from which a path of edges leads back to it, in near-linear time. `Graph::reached` tells all
//! nodes to which paths lead.
//!
//! Other crates may cite these proofs of it (`proofs/Shared`):
//!
//! - `NamedRings`: rings between named things are rings between the places of their names, where of those with one name the first counts.
//! - `Reaching`: marks of what is reached: they are sound and, where no node is left to be taken up, complete.
#![tactic(auto)]

mod components;
mod firsts;
mod graph;
mod ranks;
mod targets;

pub use firsts::first_on_ring;
pub use graph::Graph;
pub use ranks::targets_first;
