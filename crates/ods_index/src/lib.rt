//! A design as its rules read it: its objects in flattened order, tables of their names and operations, what calls mean by links, and
//! the graph of calls of its bodies.
//!
//! It stands on the designs of `ods_tree`, the rules of `design_rules`, the faults of bodies of `seq_check` and the calls of
//! `seq_cost`. `Broken` is what is told of a rule that a design breaks; the crates above find it.
//!
//! Other crates may cite these proofs of it (`proofs/Shared`):
//!
//! - `AccountSteps`: steps of the loops that gather what the calls of a block count.
//! - `SmallDesign`: a small design for examples: a passive object, a protected one that calls it, a cyclic one that calls both, and a
//!   sporadic one; the root hands an operation on.
//! - `TableSteps`: the place that a table has for a name, and what stands there.
//! - `TellSteps`: what an answer tells, of lists one after another.
//! - `WalkSteps`: the objects inside an object, and how an object opens into itself and those inside it.
#![tactic(auto)]

mod attributes;
mod broken;
mod calls;
mod index;
mod kinds;
mod links;
mod ops;
mod required;
mod scopes;
mod tables;
mod walk;

pub use attributes::{attribute, attribute_count, attribute_or_0};
pub use broken::Broken;
pub use calls::{OpCalls, meant_calls};
pub use index::Index;
pub use kinds::{
    has_thread, is_empty, is_idle_active, is_passive, is_protected, is_sporadic, is_terminal,
    kind_place,
};
pub use links::Links;
pub use ops::ops_of;
pub use required::Required;
pub use scopes::Scope;
pub use tables::{ProvidedOps, places_of};
pub use walk::{Standing, objects_of};
