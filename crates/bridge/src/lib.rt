//! From the bytes of a design to its Ada text, with the guarantee.
//!
//! It stands on the readers of `ods_read`, the rules of `ods_rules`, the flat design of `ods_flat`, its bounds by `design_bounds`, the generator
//! of `ada_gen`, the printer of `ada_print` and the law of `law_texts`. `take` reads a design and checks its rules, and `deliver` carries
//! the promise of the crate: the text that it makes is guaranteed for the design that the bytes are, and each refusal comes for its
//! cause alone.
//!
//! Other crates may cite these proofs of it (`proofs/Shared`):
//!
//! - `MadeDesigns`: what is made of a design in ticks that meets the rules, from its flat design, its analysis and its text.
#![tactic(auto)]

mod delivering;
mod delivery;
mod halt;
mod making;
mod taking;

pub use delivering::deliver;
pub use delivery::{Delivery, Refusal};
pub use design_bounds::CeilingRow;
pub use halt::Halt;
pub use taking::{Untaken, take};
