//! The Ada text of a design with background objects, with the guarantee for its hard threads.
//!
//! It stands on the definitions of `background_designs` and their laws in `law_backgrounds` and `law_backgrounds`, on the rules of `ods_rules`
//! and the flat design of `ods_flat`, on the order, table and rounds of `rt_order`, `rt_block` and `rt_response`, and on the generator of
//! `ada_gen` and the printer of `ada_print`. `deliver_background` carries its promise: the text that it makes is guaranteed for the hard
//! part of the design, with the sections of clients in the blocking of hard threads, and each refusal comes for its cause alone.
#![tactic(auto)]

mod clients;
mod delivering;
mod delivery;
mod hardening;
mod making;
mod misfits;
mod raising;
mod requests;
mod slow;

pub use delivering::deliver_background;
pub use delivery::{Background, BackgroundRefusal, BackgroundRule};
