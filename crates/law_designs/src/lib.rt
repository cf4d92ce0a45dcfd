//! What the rules of a design give, as laws over definitions: no code runs here.
//!
//! Of every design that meets the rules three things hold. Its flat design is sound, which contracts on flat designs ask, and spaced
//! (`flat_designs_are_sound`). Its program can be read, so laws on programs hold of it (`design_programs_are_readable`). And the tasks of
//! its program stand in the table that its response times are found from, so the response law of the processor speaks of them
//! (`sound_designs_are_tabled`). The last two hold by deadline-monotonic priorities since they hold by every ranking of the threads, that
//! is by any priorities from 1 to the number of threads, each given once (`ranked_programs_are_readable`, `ranked_designs_are_tabled`).
//!
//! It stands on `design_rules`, `analysis` and `guarantee`, and on facts of calls from `law_calls`.
//!
//! Other crates may cite these proofs of it (`proofs/Shared`):
//!
//! - `Blocks`: the blocks of a flat design: each is a written block of a terminal object with its calls read by what they mean, and each
//!   call is one of an operation that its object requires.
//! - `Flattened`: the entries of a flat design: each comes from one terminal object, and each terminal object of a sort that runs gives
//!   one.
//! - `Lists`: what stands in a list that is made of others, what tests and first finds say of it, and names that differ.
//! - `ObjectNames`: names of a design without clashes: objects, their operations and their data differ, and so do the entries of the flat
//!   design.
//! - `ObjectRules`: what the rules say of each object of a design: that nothing is told of it means that it passes each test.
//! - `Offers`: what a program of a flat design offers is what the flat design has, so a body without a fault in the design has none in the
//!   program.
//! - `PriorityLists`: the threads of a flat design by priority, each with its row: the list of tasks that the table is of.
//! - `PriorityOrders`: deadline-monotonic priorities: no two threads have the same, and they are 1 to the number of threads.
//! - `PriorityPlaces`: each priority of a ranking has its thread, deadline-monotonic priorities are a ranking, and the thread's entry stands at the place that counts down to it: as many different
//!   numbers from 1 on as there are entries are all of these.
//! - `ProgramRanges`: the numbers of the program are in their ranges where its priorities and ceilings are.
//! - `ProgramTasks`: the tasks of a flat design's program are its threads with their priorities, and its ceilings are at most those of the
//!   design.
//! - `ProperProgram`: the program of a design that is proper and meets the rules is proper as an Ada program.
//! - `ProperTicks`: the objects of a proper design in ticks are proper.
//! - `RankRanges`: the priorities and ceilings of a design by any ranking, as they are written, are 1 to 60, and no thread is above its
//!   control structure's ceiling.
//! - `RankedPrograms`: the table of a flat design by a ranking is one of the tasks of its program by that ranking, taken by priority.
//! - `ReadablePrograms`: the program of a proper design that meets the rules can be read, by any ranking.
//! - `Resolving`: what a call means: an operation that is there leads to one of a terminal object, and the two agree.
//! - `Served`: what a required operation leads to: its call, read by what it means, names an operation of the flat design whose parameters
//!   agree.
//! - `SoundDesigns`: the flat design of a design that meets the rules is sound and spaced.
//! - `Started`: each sporadic thread of the flat design is requested as its jitter says.
//! - `Starting`: what a call of the flat design leads to through protected operations is what the design says of it, and so is how often
//!   it requests.
//! - `TableRanges`: the table of a sound flat design is in its ranges, by any ranking.
//! - `TabledPrograms`: the table of a flat design is one of its program's tasks, taken by priority: its priorities are a ranking.
//! - `TabledTasks`: each task of the program of a sound and spaced flat design stands in the table of the design, by any ranking.
//! - `Units`: the units of the program of a flat design, and that no body of one has a fault.
#![tactic(auto)]

ghost use Rattle.law_designs.specs.Laws.{FlatDesignsAreSound, DesignProgramsAreReadable, SoundDesignsAreTabled};
ghost use Rattle.law_designs.specs.Laws.{RankedProgramsAreReadable, RankedDesignsAreTabled};

/// The flat design of a design that meets the rules is sound: well formed, without rings, within the greatest cost, and each sporadic
/// thread requested as its jitter says. It is spaced too: no thread requests a sporadic one more often than its separation allows.
pub fn flat_designs_are_sound()
    ensures { FlatDesignsAreSound }
{}

/// The program of a design that a text can have and that meets the rules can be read: a text can have its tree, and it meets the rules of
/// programs on names, uses, rings, bodies, ranges and requests from outside.
pub fn design_programs_are_readable()
    ensures { DesignProgramsAreReadable }
{}

/// The tasks of the program of a design whose flat design is sound and spaced stand in the design's table, all of them and by falling priority:
/// periods, costs, blocking, ceilings and starters are those that the rows say, in ticks and priority levels.
///
/// The priorities are deadline monotonic (Leung and Whitehead 1982), the ceilings immediate (ISO/IEC 8652:2012, D.3).
pub fn sound_designs_are_tabled()
    ensures { SoundDesignsAreTabled }
{}

/// The program of such a design by any ranking of its threads can be read: with these priorities and the ceilings that follow from them.
pub fn ranked_programs_are_readable()
    ensures { RankedProgramsAreReadable }
{}

/// The tasks of the program of such a design by any ranking of its threads stand in the design's table by that ranking, all of them and by
/// falling priority.
pub fn ranked_designs_are_tabled()
    ensures { RankedDesignsAreTabled }
{}
