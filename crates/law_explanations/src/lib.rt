//! That the reports of `explain` hold: the terms of a thread add up to its bound, the numbers are the least, late threads are late, what blocks a
//! thread is the longest section that does, and chains respond within what is printed. No code runs here.
//!
//! It stands on the definitions of `explanation` and the laws of `late_response`, `block_causes` and `law_chain_bounds`. Each law is the
//! contract of a public function without a body: its statement is in `specs/Laws.antt` (terms and limits), `specs/LateThreads.antt`,
//! `specs/Blockers.antt` or `specs/Responding.antt`.
#![tactic(auto)]

ghost use Rattle.std.specs.Prelude.{ℕ};
ghost use Rattle.law_explanations.specs.Blockers.{BlockersAreLongest};
ghost use Rattle.law_explanations.specs.LateThreads.{LateThreadsAreLate, NumbersAreLeast};
ghost use Rattle.law_explanations.specs.Laws.{LateIsMissed, TermsAddUp};
ghost use Rattle.law_explanations.specs.Responding.{ExplainedChainsRespond};

use block_causes::{blocking_is_caused, causes_block, sections_are_of_operations};
use late_response::{
    bounds_are_solved_rows, rows_beyond_are_late, solved_rows_are_least,
    solved_rows_in_time_are_bounds, solved_rows_meet_their_equations,
};
use law_chain_bounds::printed_chains_keep_to_levels;

/// The terms that are reported of a thread whose bound is known add up to it: its blocking, its cost and the ticks of all threads of higher
/// priority are its response time, and its jitter is its own, or that and the response time of the thread that starts it.
pub fn terms_add_up()
    ensures { TermsAddUp }
{
    solved_rows_meet_their_equations();
    bounds_are_solved_rows();
}

/// Each thread is reported to be within its limits exactly where the design has bounds, so that no value over a limit is reported.
pub fn none_is_late_where_limits_are_kept()
    ensures { LateIsMissed }
{
    solved_rows_in_time_are_bounds();
}

/// The jitter and the response time that are reported of a thread are at most those that any solution of the equations has for it; where a
/// thread is given up, each solution has it over ten times one of its limits.
pub fn numbers_are_least()
    ensures { NumbersAreLeast }
{
    bounds_are_solved_rows();
    solved_rows_are_least();
    rows_beyond_are_late();
}

/// A thread that is reported late, or that is given up, is over one of its limits in every solution of the equations.
pub fn late_threads_are_late_in_every_solution()
    ensures { LateThreadsAreLate }
{
    numbers_are_least();
}

/// What is reported to block a thread is a section of the operation that is named, in the block of the thread of lower priority that is named, on
/// an object whose ceiling reaches the thread, of as many ticks as its blocking; no other such section is longer. Where nothing is reported,
/// none takes a tick.
pub fn blockers_are_longest()
    ensures { BlockersAreLongest }
{
    bounds_are_solved_rows();
    sections_are_of_operations();
    causes_block();
    blocking_is_caused();
}

/// In every run of the program of a design that keeps its limits, each chain that is reported takes at most the response time that is printed of
/// it: from a release of its first thread to the end of the last that it leads to.
///
/// The arrivals are accepted. `limit` is the farthest horizon allowed, in ticks.
pub fn explained_chains_respond()
    ensures { (limit : ℕ) → ExplainedChainsRespond limit }
{
    printed_chains_keep_to_levels();
}
