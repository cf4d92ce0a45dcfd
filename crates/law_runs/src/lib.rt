//! Every run of the program of a design is right: what is told is allowed by the design, and every thread responds within its bound. No
//! code runs here.
//!
//! It joins the laws of whole runs (`law_written`), of releases (`law_releases`) and of responses (`law_responses`), first for any program
//! whose tasks all stand in a table that fits, and then for the program of a design (`law_designs`). `designs_are_right` is the heart of
//! the guarantee: it holds of every design that meets the rules and has bounds. It holds by deadline-monotonic priorities since it holds by
//! every ranking of the threads by which the design has bounds (`ranked_designs_are_right`).
//!
//! Other crates may cite these proofs of it (`proofs/Shared`):
//!
//! - `Bounded`: every run of a program whose tasks all stand in a table that fits is permitted by the program's texts and within its
//!   bounds, where the processor responds.
//! - `Chained`: requests are served at once, and chains of requests respond within the response times along them, together.
//! - `DesignLaw`: every run of the program of a proper design that meets the rules and has bounds is right, and a text with that program's
//!   tokens is guaranteed.
//! - `KeptAccepted`: arrivals that keep the separations of a program's software are accepted for the program: a name of an arrival is that
//!   of one unit, since no unit has the empty name.
//! - `RankedRuns`: the same by any ranking of the design's threads: every run of the program by it is right, and a text with that program's
//!   tokens is guaranteed.
//! - `Worked`: worked examples: the premises of the law on designs can be met, so that every run of these is right.
//! - `WorkedBounds`: a round of the response equations that the next one leaves as it is, with no value over its limit, is the least
//!   vector that fits.
#![tactic(auto)]

ghost use Rattle.std.specs.Prelude.{ℕ};
ghost use Rattle.law_runs.specs.Laws.{TabledRunsAreRight, TabledTasksAreServed, AcceptedWhereKept, SoundDesignsAreRight};
ghost use Rattle.law_runs.specs.Chains.{TabledTasksAreServedAtOnce, TabledChainsRespond, DesignsServeAtOnce, DesignChainsRespond};
ghost use Rattle.law_runs.specs.Laws.{DesignsAreRight, TextsAreGuaranteed, ReplaysAreRight};
ghost use Rattle.law_runs.specs.Ranked.{RankedDesignsAreRight, RankedTextsAreGuaranteed, RankedReplaysAreRight};

/// Every run of a program whose tasks all stand in a table that fits is permitted by the program's texts and within its bounds.
///
/// The program can be read and the arrivals are accepted. So the releases of cyclic tasks come at their times, requests are served in
/// order and none is lost, and arrivals are told as they come. `limit` is the farthest horizon allowed, in ticks.
pub fn tabled_runs_are_right()
    ensures { (limit : ℕ) → TabledRunsAreRight limit }
{}

/// Every run of a program, some of whose tasks stand in a table that fits, serves these: each is released on time, has its requests served in
/// order, and responds within its bound, whatever tasks of lower priority there are besides. The run has no stop and does as written.
///
/// The program can be read and the arrivals are accepted. `limit` is the farthest horizon allowed, in ticks.
pub fn tabled_tasks_are_served()
    ensures { (limit : ℕ) → TabledTasksAreServed limit }
{}

/// Arrivals are accepted for a program exactly where they keep the separations of its software.
///
/// The program can be read. `limit` is the farthest horizon allowed, in ticks.
pub fn arrivals_are_accepted_where_kept()
    ensures { (limit : ℕ) → AcceptedWhereKept limit }
{}

/// Every run of the program of a design whose flat design is sound and spaced is right: for all arrivals that keep the separations, what is
/// told is allowed, and every thread responds within its bound.
///
/// The program can be read, and `v` fits the table. `limit` is the farthest horizon allowed, in ticks.
pub fn sound_designs_are_right()
    ensures { (limit : ℕ) → SoundDesignsAreRight limit }
{}

/// Every run of the program of a design is right: for all arrivals that keep the separations, what is told is allowed by the design, and
/// every activation whose bound falls within the horizon ends within it.
///
/// The design is one that a text can have, it meets the rules, and `v` fits its table, in ticks. `limit` is the farthest horizon allowed,
/// in ticks.
pub fn designs_are_right()
    ensures { (limit : ℕ) → DesignsAreRight limit }
{}

/// A text with the tokens of such a design's program, within the limit of bytes, is guaranteed for the design and those bounds.
pub fn texts_are_guaranteed()
    ensures { (limit : ℕ) → TextsAreGuaranteed limit }
{}

/// What is told of such a design's program under arrivals that are accepted for it is allowed by the design and within the bounds.
///
/// So whoever replays the program needs nothing of the design: neither its rules nor its separations are asked of the arrivals again.
pub fn replays_are_right()
    ensures { (limit : ℕ) → ReplaysAreRight limit }
{}

/// In every run of a program, requests of the sporadic tasks that stand in a table that fits are served at once: each by one release, at its
/// own time and with its own value, before the next request of the task. So none is lost, and none is overwritten.
///
/// The program can be read and the arrivals are accepted. `limit` is the farthest horizon allowed, in ticks.
pub fn tabled_tasks_are_served_at_once()
    ensures { (limit : ℕ) → TabledTasksAreServedAtOnce limit }
{}

/// In every run of a program, a chain of tasks that stand in a table that fits, all but the first of them sporadic, responds within their
/// response times together: each release of the first leads, by requests of each to the next, to ends of the last within that many ticks.
///
/// The program can be read and the arrivals are accepted. `limit` is the farthest horizon allowed, in ticks.
pub fn tabled_chains_respond()
    ensures { (limit : ℕ) → TabledChainsRespond limit }
{}

/// In every run of the program of a design that meets the rules and has bounds, each request of a sporadic thread is served at once: by one
/// release, at its own time and with its own value, before the next request of the thread. So none is lost, and none is overwritten.
///
/// The arrivals are accepted. `limit` is the farthest horizon allowed, in ticks.
pub fn designs_serve_at_once()
    ensures { (limit : ℕ) → DesignsServeAtOnce limit }
{}

/// In every run of the program of a design that meets the rules and has bounds, a chain of its threads, all but the first of them sporadic,
/// responds within their response times together: from a release of the first to the end of the last that it leads to.
///
/// The arrivals are accepted. `limit` is the farthest horizon allowed, in ticks.
pub fn design_chains_respond()
    ensures { (limit : ℕ) → DesignChainsRespond limit }
{}

/// Every run of the program of a design by any ranking of its threads is right: for all arrivals that keep the separations, what is told is
/// allowed by the design, and every activation whose bound by that ranking falls within the horizon ends within it.
///
/// The design is one that a text can have, it meets the rules, and `v` fits its table by the ranking, in ticks. Threads may start others.
/// `limit` is the farthest horizon allowed, in ticks.
pub fn ranked_designs_are_right()
    ensures { (limit : ℕ) → RankedDesignsAreRight limit }
{}

/// A text with the tokens of such a design's program by any ranking, within the limit of bytes, is guaranteed for the design and the bounds by
/// that ranking.
pub fn ranked_texts_are_guaranteed()
    ensures { (limit : ℕ) → RankedTextsAreGuaranteed limit }
{}

/// What is told of such a design's program by any ranking, under arrivals that are accepted for it, is allowed by the design and within the
/// bounds by that ranking.
pub fn ranked_replays_are_right()
    ensures { (limit : ℕ) → RankedReplaysAreRight limit }
{}
