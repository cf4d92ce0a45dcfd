//! What is promised of designs with background objects, as laws over definitions: no code runs here.
//!
//! A design that is not refused has a sound hard part, a program that can be read, and runs that are right for all arrivals that keep the
//! separations of its hard part (`background_designs_are_right`): no run stops, no object is ever inside two operations, all threads and
//! objects do as they are written, hard threads are released on time and respond within their bounds, and each client is released again as
//! soon as it has ended. The proof, in the order of reading (`proofs/`):
//!
//! 1. The hard part. Its terminal objects and threads are those of the design, made hard (`HardObjects`, `HardThreads`), its objects are
//!    proper (`ProperHard`) and in ticks (`HardTicks`), and clients have the least priorities, as many as there are clients
//!    (`SlowPriorities`, `HardRanks`).
//! 2. Raised programs. A program that can be read can be read with its lower priorities and ceilings raised and with tasks released at once
//!    (`Lifts`, `LiftedRules`, `LeastNumbers`), and its first tasks stand in the first rows of its table (`LiftedTables`). The program of a
//!    design is such a one of its hard part (`BackgroundPrograms`). What is said of software doesn't depend on periods, but for releases
//!    (`Retimed`).
//! 3. Clients. A cyclic task of period 1 is released again at once: this is carried from the stop of a run backwards (`Restless`), as `law_releases`
//!    carries any such claim (`RestlessLaw`).
//! 4. The laws (`BackgroundRuns`), by `law_runs` for the tasks that stand in the table; that one fault comes first
//!    (`FirstFaults`), that requests can be read off the table (`StarterRows`) and are those of the tree (`ClientStarts`), and that a design without
//!    background objects keeps its text (`NoBackground`).
//! 5. The text (`BackgroundTexts`). A text can hold each name and each number of such a design; those of its hard part are the same but for
//!    the longest time (`LegibleHard`), and what is computed of them is in its range; so a text can hold each token of the program and each
//!    comment at its head. It reads back as the design's program, and it is guaranteed.
//!
//! `Worked` is a design that meets all premises, with its bounds and a run.
//!
//! Other crates may cite these proofs of it (`proofs/Shared`):
//!
//! - `BackgroundPrograms`: the program of a design with background objects is that of its hard part with raised numbers, it can be read,
//!   and its hard threads stand in the first rows of the table.
//! - `BackgroundRuns`: every run of the program of a design with background objects is right, where bounds fit the rows of its hard
//!   threads.
//! - `BackgroundTexts`: the text of a proper design with background objects that a text can hold: its tokens are those of the design's
//!   program, so it is guaranteed.
//! - `FirstFaults`: one fault of a design with background objects comes first, and none where the design passes all steps.
//! - `HardObjects`: the terminal objects of the hard part of a design are those of the design, each as a hard one, in the same order.
//! - `HardRanks`: the priorities of the hard part: those of clients are the least, as many as there are clients, and so the rows of the
//!   other threads come first.
//! - `HardThreads`: the threads of the hard part: those of clients have the longest deadline, and the others have not, where no hard
//!   thread is slow.
//! - `HardTicks`: the hard part of a design in ticks is in ticks.
//! - `Lifts`: a program whose priorities and ceilings are raised to a least number, and of whose cyclic tasks some are released again at
//!   once.
//! - `ProperHard`: the objects of the hard part of a design are proper where those of the design are.
//! - `StarterRows`: in a sound flat design a thread can request a sporadic one exactly where its row is the starter of the other's: so
//!   what clients can request is read off the table.
#![tactic(auto)]

ghost use Rattle.law_backgrounds.specs.Laws.{RestlessTasksReturnAtOnce, FaultsAreOne, HardPartsAreInTicks, HardPartsAreSound, HardRowsAreTables};
ghost use Rattle.law_backgrounds.specs.Laws.{RequestsAreByRows, RequestsAreByTree, BackgroundProgramsAreReadable, BackgroundDesignsAreRight};
ghost use Rattle.law_backgrounds.specs.Laws.{BackgroundReplaysAreRight, BackgroundTokensAreGuaranteed, OwnTextsAreKept, OwnDesignsPass};
ghost use Rattle.std.specs.Prelude.{ℕ};
ghost use Rattle.law_backgrounds.specs.TextLaws.{BackgroundTextsReadBack, BackgroundTextsAreGuaranteed};

/// In every run without a stop, each cyclic task of offset 0 and period 1 is released at 0, and again at each instant at which it ends,
/// and at no other time (ISO/IEC 8652:2012, D.9, `delay until` a time that is past).
///
/// The program meets its rules and the arrivals are accepted. `limit` is the farthest horizon allowed, in ticks.
pub fn restless_tasks_return_at_once()
    ensures { (limit : ℕ) → RestlessTasksReturnAtOnce limit }
{}

/// Two first faults of a design are one, and there is none where the design passes all steps.
pub fn faults_are_one()
    ensures { FaultsAreOne }
{}

/// The hard part of a design in ticks is in ticks, so that what is checked of it is said of it as it is written.
pub fn hard_parts_are_in_ticks()
    ensures { HardPartsAreInTicks }
{}

/// The flat design of the hard part of a design that is not refused is sound.
pub fn hard_parts_are_sound()
    ensures { HardPartsAreSound }
{}

/// In a sound flat design a thread can request a sporadic one, itself or through protected operations, exactly where its row is the starter
/// of the other's: so which sporadic threads clients can request is read off the table.
pub fn requests_are_by_rows()
    ensures { RequestsAreByRows }
{}

/// Which sporadic objects clients can request is the same by the flat design of the hard part and by its tree, where the hard part meets the rules:
/// each client with each sporadic object that its thread can start, in flattened order.
pub fn requests_are_by_tree()
    ensures { RequestsAreByTree }
{}

/// The rows of the hard threads of such a design are a table by themselves: each starter is one of them.
pub fn hard_rows_are_tables()
    ensures { HardRowsAreTables }
{}

/// The program of such a design can be read, where a text can have the design.
pub fn background_programs_are_readable()
    ensures { BackgroundProgramsAreReadable }
{}

/// Every run of the program of a design with background objects is right, for all arrivals that keep the separations of its hard part.
///
/// The design is one that a text can have, it is not refused, and `v` fits the rows of its hard threads. `limit` is the farthest horizon
/// allowed, in ticks.
pub fn background_designs_are_right()
    ensures { (limit : ℕ) → BackgroundDesignsAreRight limit }
{}

/// What is told of such a design's program under arrivals that are accepted for it is permitted by the design, within the bounds.
pub fn background_replays_are_right()
    ensures { (limit : ℕ) → BackgroundReplaysAreRight limit }
{}

/// A text with the tokens of such a design's program, within the limit of bytes, is guaranteed for the design and those bounds.
pub fn background_tokens_are_guaranteed()
    ensures { (limit : ℕ) → BackgroundTokensAreGuaranteed limit }
{}

/// A design that meets the rules has no background objects, and what is made of it here is what is made of it there: it is its own hard part,
/// and its rows and its text are its own.
pub fn own_texts_are_kept()
    ensures { OwnTextsAreKept }
{}

/// Such a design is not refused, where none of its threads has the deadline of clients.
pub fn own_designs_pass()
    ensures { OwnDesignsPass }
{}

/// The text of a proper design that a text can hold, is not refused and has bounds for its hard threads has the tokens of its program, in
/// ticks.
pub fn background_texts_read_back()
    ensures { BackgroundTextsReadBack }
{}

/// Such a text is guaranteed for the design, in ticks, and its bounds, where it is within the limit of bytes.
///
/// `limit` is the farthest horizon allowed, in ticks.
pub fn background_texts_are_guaranteed()
    ensures { (limit : ℕ) → BackgroundTextsAreGuaranteed limit }
{}
