//! What the lines of a run of a design's program tell: laws over definitions alone, no code runs here.
//!
//! The lines of a trace tell its events where names hold no line feed, space or dot (`law_traces`). Names that were read from a text are
//! letters, digits and underscores.
//!
//! An event names units and operations by their places in the program, and has times and values. The places are those of the program, since
//! calls lead to its operations; values are words, since those of the texts were read as words and every operator gives a word; and there are
//! at most eight of them, since a rule says so of parameters. So the lines of a run tell its events back, and the trace that the processor
//! writes is one that the checks of a trace can read.
//!
//! Other crates may cite these proofs of it (`proofs/Shared`):
//!
//! - `Events`: what is told are events of the program, and none of them is a stop.
//! - `Names`: the names of units and of their operations, by the objects that they are from.
#![tactic(auto)]

ghost use Rattle.law_event_lines.specs.Laws.{DesignsTellEvents};
ghost use Rattle.law_event_lines.specs.NameLaws.{DesignsHavePlainNames};

/// Under arrivals that a text says of the program of a design that was read from a text and meets the rules, each event that the program tells
/// has places of the program and numbers that fit their types.
pub fn designs_tell_events()
    ensures { DesignsTellEvents }
{}

/// The units and operations of the program of a design that was read from a text and meets the rules, in ticks, have plain names.
pub fn designs_have_plain_names()
    ensures { DesignsHavePlainNames }
{}
