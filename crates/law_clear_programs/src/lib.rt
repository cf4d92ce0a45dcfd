//! Programs and designs that meet the rules can be followed along a trace: laws over definitions alone, no code runs here.
//!
//! The checks of a trace (`law_traces`) ask that blocks can be walked and that names tell what they name. Both hold of every program that
//! meets the rules of programs, and so of every design that meets those of designs.
//!
//! Other crates may cite these proofs of it (`proofs/Shared`):
//!
//! - `Clear`: the software of a program that meets the rules is clear.
#![tactic(auto)]

ghost use Rattle.law_clear_programs.specs.Laws.{DesignsAreClear, ProgramsAreClear};

/// The blocks of a program that meets the rules can be walked, a request is of the one operation by which its task is requested, and
/// protected objects have names of their own.
pub fn programs_are_clear()
    ensures { ProgramsAreClear }
{}

/// The same of a proper design that meets the rules, in ticks: its software is that of its program.
pub fn designs_are_clear()
    ensures { DesignsAreClear }
{}
