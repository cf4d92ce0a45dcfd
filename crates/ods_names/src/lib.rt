//! The rules on names of a design: the first offender against V01 and V02, the names that are written, and V06 to V08, the operations
//! that objects require.
//!
//! It stands on the index of `ods_index`, the rules of `design_rules` and the names of `words`. Each call carries its promise: it is
//! silent exactly where nothing offends against its rule, and else tells the first that does.
//!
//! Other crates may cite these proofs of it (`proofs/Shared`):
//!
//! - `NeedSteps`: what is told first of the operations that objects require: of one object, then of those inside it, one child at a time.
#![tactic(auto)]

mod clashes;
mod kept;
mod keys;
mod mentions;
mod taken;
mod uses;

pub use clashes::first_clash;
pub use kept::first_kept_name;
pub use uses::{first_absent, first_forbidden, first_stranger};
