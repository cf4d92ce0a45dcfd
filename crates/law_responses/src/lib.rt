//! The response law of the processor: in every run of a program whose table fits, each tabled task responds within its bound. No code runs here.
//!
//! `guarantee` states the law (`ProcessorResponds`) and what a table has to say of a program (`AreTabled`): costs of blocks, ceilings, the
//! sections of lower tasks, and the one starter of a task that no arrival requests. `law_schedules` proves the response equations for
//! schedules in numbers alone: a list of activations, each of a row, with its nominal time, release, end and need, and for each tick the
//! activation that used it. So what is proved here is that every run of the machine is a schedule of its table. The proof, in the order
//! of reading (`proofs/`):
//!
//! 1. The log. Beside a run a log is kept of the activations so far and of who used each tick (`Logs`, `Logged`, `Later`); `Numbers` reads
//!    a schedule off it. What matters of a state to its log is its view (`Views`); a system with its table is a frame (`Frames`).
//! 2. Ticks. A task has used the ticks of its activation, and those and the dearest way through the pieces left to it are at most its row's
//!    cost (`Remaining`, `Endings`, `Base`, `BaseMoves`).
//! 3. Requests. Activations of a row are a period apart: a cyclic task sleeps until its next time, arrivals keep their separation, and an
//!    activation of a starter requests a task at most once (`Tidy`, `Asking` and the files that begin with its name, `Releasing`).
//! 4. Steps. Each step of the machine takes a log that belongs to its state to one of the next state (`Seen`, `Moves`, `Effecting`,
//!    `Stepping`), from the empty one on (`Opening`), so each state of a run has its log, and each grows into the last (`History`).
//! 5. Windows. While an activation of a row is pending, tasks below it use no more ticks than the row's blocking: one section of one of
//!    them, by `law_ceilings` (`Windows`, `Blocking`).
//! 6. Jitters. A task is released when it is requested, or when its activation before ends; so it is late by no more than its starter's
//!    response, as long as all are on time (`Jitters`).
//! 7. The law. A run without a stop ends at the horizon (`Stops`), is a schedule (`Schedules`), and its trace tells the releases and ends of
//!    the log (`Told`, `Answering`): the law for systems (`SystemLaw`). A program gives such a system (`TwinTasks`, `Tabling`,
//!    `TabledTasks`, `Requesting`, `Positive`): the law for programs (`ProgramLaw`).
//! 8. Two more laws of the same logs. After any time a level rests within its response time (`Resting`, `LevelLaw`), and an activation uses at
//!    most the cost of its row (`Using`, `CostLaw`).
//!
//! `Example` is a program of three tasks, with a request inside nested sections, that meets all that the law asks, with its table, its bounds
//! and a run.
//!
//! Other crates may cite these proofs of it (`proofs/Shared`):
//!
//! - `CostLaw`: in every run of a program with a table, each activation of a task uses at most the cost of its row.
//! - `LevelLaw`: in every run of a program whose table fits, after any time each level rests within its response time.
//! - `ProgramLaw`: the response law of the processor: in every run of a program whose table fits, no stop is told and each tabled task
//!   responds within its bound.
#![tactic(auto)]

ghost use Rattle.guarantee.specs.ResponseLaw.{ProcessorResponds};
ghost use Rattle.law_responses.specs.Resting.{LevelsOfTasksRest};
ghost use Rattle.law_responses.specs.Using.{TasksKeepToCosts};
ghost use Rattle.std.specs.Prelude.{ℕ};

/// In every run of a readable program under accepted arrivals up to any horizon, where a table fits the program and bounds fit the table:
/// no stop is told, and each release of a tabled task has its end within the task's bound, in ticks, where that is within the horizon
/// (Joseph and Pandya 1986, Audsley et al. 1993; with release jitter Tindell, Burns and Wellings 1994; under immediate ceilings Sha,
/// Rajkumar and Lehoczky 1990).
pub fn processor_responds()
    ensures { (limit : ℕ) → ProcessorResponds limit }
{}

/// In every run of a readable program under accepted arrivals, where bounds fit its table: from any time on, a time comes within the response
/// time of a tabled task by which every activation of that task and of those of higher priority that was released before has ended. So the
/// busy periods of a level are no longer than its response time (Lehoczky 1990).
///
/// `limit` is the farthest horizon allowed, in ticks.
pub fn levels_of_tasks_rest()
    ensures { (limit : ℕ) → LevelsOfTasksRest limit }
{}

/// In every run of a readable program under accepted arrivals, each activation of a tabled task uses at most the cost of its row, in ticks.
///
/// No bounds are asked for. `limit` is the farthest horizon allowed, in ticks.
pub fn tasks_keep_to_costs()
    ensures { (limit : ℕ) → TasksKeepToCosts limit }
{}
