//! What the name of a unit tells in the software of a program: laws over definitions alone, no code runs here.
//!
//! Events name tasks and objects by the places of their units, and the checks of a trace (`law_traces`) by names. Where a program meets its
//! rules both are one: each place has a name of its own, and what is found by that name is what the unit at the place is.
//!
//! Other crates may cite these proofs of it (`proofs/Shared`):
//!
//! - `Units`: units by their places and by their names.
#![tactic(auto)]

ghost use Rattle.law_trace_places.specs.Laws.{UnitNamesTellUnits, UnitsTellWhatTheyAre};

/// The names of two units of a program that meets the rules are one only where their places are.
pub fn unit_names_tell_units()
    ensures { UnitNamesTellUnits }
{}

/// What is found in the software of a program that meets the rules by the name of a unit is what that unit is: a thread, a protected
/// object, with its operations, or neither.
pub fn units_tell_what_they_are()
    ensures { UnitsTellWhatTheyAre }
{}
