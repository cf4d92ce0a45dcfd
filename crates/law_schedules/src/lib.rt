//! The schedule law: response times that meet the response equations hold in every schedule.
//!
//! It stands on `rt_response` for the equations, and speaks of numbers alone: `specs/Schedules.antt`
//! says what a schedule is, with no program, no statement and no section, and `specs/Rests.antt` when a
//! level rests. The promises are the contracts of `schedules_respond`, `levels_rest` and `chains_rest`,
//! whose bodies are empty.
//!
//! Other crates may cite these proofs of it (`proofs/Shared`):
//!
//! - `Equations`: what a vector that fits gives each row: its equation, its limits, and the entries of its level.
//! - `Law`: the schedule law, by induction on time: from each start of a level the next comes within the level's response time.
//! - `RestSteps`: a level rests within its response time, and the activations of a chain that begins within it end by then.
#![tactic(auto)]

ghost use Rattle.std.specs.Prelude.{List};
ghost use Rattle.rt_response.specs.declared.rows.ThreadRow.{ThreadRow};
ghost use Rattle.rt_response.specs.declared.rows.Bound.{Bound};
ghost use Rattle.rt_response.specs.Tables.{IsTable};
ghost use Rattle.rt_response.specs.Response.{Fits};
ghost use Rattle.law_schedules.specs.Rests.{ChainsRest, LevelsRest};
ghost use Rattle.law_schedules.specs.Schedules.{Schedule, IsSchedule, AllOnTime, horizon};

/// In every schedule of a table of `respond`'s condition and of a vector that fits it, each activation
/// whose response time is within the horizon has ended by its release and that response time
/// (Joseph and Pandya 1986; with release jitter Tindell, Burns and Wellings 1994).
pub fn schedules_respond()
    ensures { (rows : List ThreadRow) (v : List Bound) (s : Schedule) → IsTable rows → Fits rows v → IsSchedule rows v s
        → AllOnTime rows v s (horizon s) }
{}

/// From any time on, a level rests within its response time: a time comes at which all of its activations that were released before are
/// over.
pub fn levels_rest()
    ensures { LevelsRest }
{}

/// A chain of activations of a level, each released before the one before it is over, is over within the response time of the level, from the
/// release of its first on. So a chain takes no longer than the response time of its thread of lowest priority.
pub fn chains_rest()
    ensures { ChainsRest }
{}
