//! Whether a design allows a trace, from its text to each of its parts: laws over definitions alone, no code runs here.
//!
//! The lines of a trace tell its events (`specs/Told.antt`). A trace from anywhere is a text. Where its lines are lines of events of a
//! program, they are so of one list of events only, by names: words have no space in them, names no dot, and a number is written in one
//! way. So what a trace is asked depends on its text alone.
//!
//! The machine of a design (`guarantee`) says of a whole trace that there are ways through the operations of its protected objects with
//! which all parts hold. `specs/Parts.antt` asks each part by itself, and `specs/Checks.antt` computes an answer to each. Here it is proved
//! that each answer is right, and that the parts together are the machine.
//!
//! Whether a thread's activations are runs of its block, and whether the operations of an object are run one by one, is defined there with a
//! look ahead at each entry into an operation. Both are also computed in passes over the events: one from the end of the trace for the
//! scripts of entries (`specs/Entries.antt`), one for the objects (`specs/Services.antt`), and one for the threads (`specs/Progress.antt`).
//! An object that is found broken is passed over from then on, and the ticks of an activation are asked for only where it enters no such
//! object.
//!
//! Other crates may cite these proofs of it (`proofs/Shared`):
//!
//! - `Charged`: the ways of objects that are served are those that are computed of the whole trace; those of broken objects are asked of
//!   no activation.
//! - `Events`: the words of a line give its event back, by names.
//! - `Finding`: names that differ either way round, and what is found by a test.
//! - `Joins`: all parts together: each is decided, and they are the machine.
//! - `Judging`: verdicts: what the checks say is the verdict on a list of events, and a text has one list of events.
//! - `Leveling`: the levels of a thread's deeds are what is inside its operations.
//! - `Pairs`: two lists whose items are alike in pairs: the steps of a thread, their depths and what is inside an operation don't depend
//!   on the ways.
//! - `Served`: an object's operations, one passage at a time, are those that are asked all at once; and the ways of an object that is
//!   served are those that are computed of the whole trace.
//! - `Simple`: times, periodic releases, arrivals and requests: each check decides its part.
//! - `Stacks`: the scripts of a thread's levels, one event at a time from the end of a trace; the first of them is what is inside an
//!   operation.
//! - `Told`: the checks of threads and objects over a whole trace, as passes tell them: an activation is charged where all objects that it
//!   enters are served.
//! - `Words`: words and lines, cut at the bytes between them: what was joined is cut into the same words again.
#![tactic(auto)]

ghost use Rattle.law_traces.specs.Levels.{LevelsTellInsides};
ghost use Rattle.law_traces.specs.Laws.{ChecksJudge, MachineIsItsParts, PartsAreDecided, VerdictsAreOne};
ghost use Rattle.law_traces.specs.LineLaws.{LineTellsEvent, LinesTellEvents};
ghost use Rattle.law_traces.specs.PassLaws.{PassesTellChecks, StacksTellScripts};

/// Each check of a trace tells whether its part of the machine holds.
pub fn parts_are_decided()
    ensures { PartsAreDecided }
{}

/// A trace is permitted exactly where every part of the machine holds of it.
pub fn machine_is_its_parts()
    ensures { MachineIsItsParts }
{}

/// What the checks say of a list of events is the verdict on it, and no other is.
pub fn checks_judge()
    ensures { ChecksJudge }
{}

/// A text has one verdict at most.
pub fn verdicts_are_one()
    ensures { VerdictsAreOne }
{}

/// What is inside each operation of a thread is told by one pass over the thread's deeds from the end of the trace.
pub fn levels_tell_insides()
    ensures { LevelsTellInsides }
{}

/// A line in front of others tells one event by names, and what is behind it.
pub fn line_tells_event()
    ensures { LineTellsEvent }
{}

/// Two lists of events of a program with the same lines are the same by names, and equally long.
pub fn lines_tell_events()
    ensures { LinesTellEvents }
{}

/// The script of what a thread does inside an operation is told by one pass over the trace from its end.
pub fn stacks_tell_scripts()
    ensures { StacksTellScripts }
{}

/// What objects and threads are at behind a trace, one event at a time, tells whether each object is served and each thread follows its
/// block.
pub fn passes_tell_checks()
    ensures { PassesTellChecks }
{}
