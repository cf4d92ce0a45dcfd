//! The Ada text of a flat design by the priority order that a search finds.
//!
//! It uses the search of `priority_search`, the generator of `ada_gen` and the printer of `ada_print`. `arrange` carries its promise: the text
//! of the flat design with the priorities of an order that is filled from its lowest place upwards, with the ceilings that follow from
//! them and the least bounds in its head; otherwise the cause for which there is none.
#![tactic(auto)]

mod arranged;
mod making;

pub use arranged::NotArranged;
pub use making::arrange;
