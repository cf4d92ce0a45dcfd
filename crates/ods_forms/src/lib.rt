//! The rules on what objects are made of: the first offender against V03 to V05, V11 to V13 and V17, and a design in ticks.
//!
//! They are on kinds and what these include and provide, on parts that fit, numbers, bodies and times. It stands on the index of
//! `ods_index`, the rules of `design_rules` and the faults of bodies of `seq_check`. Each call that tells an offender is silent exactly
//! where nothing offends against its rule, and else tells the first that does; `set_ticks` gives each time in ticks.
//!
//! Other crates may cite these proofs of it (`proofs/Shared`):
//!
//! - `SetSteps`: a list that is changed item by item, and an object whose attributes and children are.
//! - `TickLaws`: designs in ticks: nothing is wrong with their version, and their ticks are their own.
#![tactic(auto)]

mod actives;
mod bodies;
mod counts;
mod fittings;
mod includes;
mod limits;
mod numbers;
mod objects;
mod operations;
mod ticks;
mod versions;
mod works;

pub use actives::first_idle_active;
pub use bodies::first_bad_body;
pub use fittings::first_bad_fitting;
pub use includes::first_bad_include;
pub use numbers::first_bad_number;
pub use operations::first_bad_operation;
pub use ticks::set_ticks;
pub use versions::first_bad_version;
