//! What the calls of a program lead to, on the processor and by its texts: the operation, its body, the unit that it is of, how deep calls
//! go, what they cost and which tasks they request. Laws over definitions alone: no code runs here.
//!
//! Where no operation leads to itself by calls, no way of calls is longer than there are operations. So what is worked out through so many
//! bodies (the cost of a call, its sections, what it leads to, how often it requests a task) is that of the body which the call leads to.
//! The operations of every program that meets the rules are such.
//!
//! Other crates may cite these proofs of it (`proofs/Shared`):
//!
//! - `Accepted`: what accepted arrivals are: of tasks that take requests from outside, which no task can request, and with durations of a
//!   tick at least.
//! - `Apart`: the units of a program that meets the rules have different names.
//! - `Bodies`: what calls lead to by the bodies of operations: without rings no deeper than there are operations, so that what is worked
//!   out through so many bodies holds for every call.
//! - `Callees`: what a call of a program leads to, on the processor and by the texts: the same, where the units have names of their own.
//! - `Costs`: on the processor what a call costs covers what it leads to, also where protected bodies call further: it is enough that no
//!   operation leads to itself.
//! - `Instants`: what releases and effects keep of a state: the time, the part of the instant, the task that ran and the arrivals.
//! - `Live`: the calls of a block that are made at all, outside loops of no turn, are among its calls.
//! - `Named`: what a call leads to, by the names of a program's operations: its sort, its body, and the ceiling of its unit.
//! - `Nominals`: the times and nominal times of the arrivals for a task, as one more arrival comes.
//! - `Outside`: requests from outside: accepted arrivals are for units that say so, and no task of a program that meets the rules can
//!   request these.
//! - `Passives`: passive operations call each other in no ring, and so no deeper than there are operations.
//! - `Pieces`: the pieces that a task has left: whether they stand inside a loop, and what does not depend on those that a loop that is
//!   left passes over.
//! - `RankedTasks`: a task that runs is one of the tasks of its program, with its priority.
//! - `Remaining`: what the pieces left to a task may still take, by any weights: the dearest way through them, the bodies of calls among
//!   them.
//! - `Requests`: what tasks can call, in their blocks or through protected operations: it is closed under what the bodies of protected
//!   operations call.
//! - `Resolved`: what a call of a program leads to, with the unit that it names: one answer for the processor and for the texts.
//! - `Rings`: no operation of a program that meets the rules leads to itself by calls: a way from a passive operation stays among passive
//!   ones, and one that ends in a protected unit stays among these.
//! - `Sections`: the sections that a call leads to by calls that are made at all, one inside another, are among its sections.
//! - `Services`: the operations of a program by its units: each is one of a passive unit, one of a protected unit, or the request of a
//!   task.
//! - `Starting`: how often calls request a task, in blocks and through protected operations: a block that can't request it counts nothing,
//!   what a call counts covers the body that it leads to, and what a task's block leads to is among what tasks can call.
//! - `Systems`: what runs of a program: each library, object and task is that of a unit, and what a call leads to is one of their
//!   operations.
//! - `Tasks`: what a task keeps as it goes on, as it is released, and as it leaves a section.
//! - `Threads`: the unit of each task and of each object of a system: at its place, by its name, and told apart by it.
//! - `UnitNames`: units by their names: where names differ, what is made of the units is found by the one unit of a name.
//! - `UnitRules`: what the rules of a program say of its units: bodies have no fault, passive ones call passive operations alone, numbers
//!   are in their ranges.
#![tactic(auto)]

ghost use Rattle.law_calls.specs.CallLaws.{CallsEnd, CostsCoverCalls, SectionsCoverCalls, ReachCoversCalls, StartsCoverCalls, ProgramsHaveNoRing};

/// No way of calls is longer than there are operations, where no operation leads to itself by calls.
pub fn calls_end()
    ensures { CallsEnd }
{}

/// Where no operation leads to itself, the cost of a call, in ticks besides those of the call itself, is the cost of the body that it
/// leads to, that of the calls of this body among it (worst-case execution time by paths: Joseph and Pandya 1986).
pub fn costs_cover_calls()
    ensures { CostsCoverCalls }
{}

/// Where no operation leads to itself, the sections of a call are its own, on the object or control structure that it enters, and
/// those of the calls of its body (Sha, Rajkumar and Lehoczky 1990).
pub fn sections_cover_calls()
    ensures { SectionsCoverCalls }
{}

/// Where no operation leads to itself, what a call leads to through protected operations is the call itself, and what the calls of its body
/// lead to.
pub fn reach_covers_calls()
    ensures { ReachCoversCalls }
{}

/// Where no operation leads to itself, a call requests an operation on one path as often as the body that it leads to does, where it
/// isn't itself a call of that operation.
pub fn starts_cover_calls()
    ensures { StartsCoverCalls }
{}

/// No operation of a program that meets the rules leads to itself by calls, so that all laws above speak of its operations.
pub fn programs_have_no_ring()
    ensures { ProgramsHaveNoRing }
{}
