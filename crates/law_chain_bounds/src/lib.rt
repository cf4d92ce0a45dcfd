//! What the chains of a design take from the release of their first thread to the end of their last, and what activations use: laws over
//! definitions alone, no code runs here.
//!
//! A chain takes at most the response times along it, together (`law_chains`); and at most the response time of its thread of lowest
//! priority. For each of its activations is requested before the one before it ends, so that all of them lie in one busy period of that
//! level, and such a period is no longer than the response time (`law_responses`). Both are said of each chain that a table has: a row, the row
//! that starts it, and so on up.
//!
//! `specs/Requests.antt` says that requests come before ends, `specs/Levels.antt` what a chain of a level takes, `specs/Printed.antt` what is
//! promised of a design, and `specs/Served.antt` all of it for one trace.
//!
//! Other crates may cite these proofs of it (`proofs/Shared`):
//!
//! - `DesignService`: in every run of the program of a design that meets the rules and has bounds, requests are served at once, and chains
//!   and costs are within bounds.
#![tactic(auto)]

ghost use Rattle.std.specs.Prelude.{ℕ};
ghost use Rattle.law_chain_bounds.specs.Levels.{ChainsOfLevelsRespond, TabledChainsKeepToLevels};
ghost use Rattle.law_chain_bounds.specs.Printed.{LevelsAreWithinSums, PrintedChainsKeepToLevels, PrintedChainsRespond, ThreadsKeepToCosts};
ghost use Rattle.law_chain_bounds.specs.Requests.{RunsRequestBeforeEnds};
ghost use Rattle.law_chain_bounds.specs.Served.{DesignsServe, RankedDesignsServe};

/// In every run of a program that meets the rules, a request comes a tick or more before each later end of an activation.
pub fn runs_request_before_ends()
    ensures { RunsRequestBeforeEnds }
{}

/// A chain of threads that all rest within so many ticks, from any time on, takes no longer, where all but the first are served at once.
///
/// Requests come before the ends of activations. All times are in ticks.
pub fn chains_of_levels_respond()
    ensures { ChainsOfLevelsRespond }
{}

/// In every run of a program, a chain of tasks of a table that fits, all but the first of them sporadic, takes at most the response time of a
/// task of the table whose priority is not above theirs.
///
/// The program can be read and the arrivals are accepted. `limit` is the farthest horizon allowed, in ticks.
pub fn tabled_chains_keep_to_levels()
    ensures { (limit : ℕ) → TabledChainsKeepToLevels limit }
{}

/// In every run of the program of a design that meets the rules and has bounds, each printed chain takes at most the response times along it,
/// together: from a release of its first thread to the end of the last that it leads to.
///
/// The arrivals are accepted. `limit` is the farthest horizon allowed, in ticks.
pub fn printed_chains_respond()
    ensures { (limit : ℕ) → PrintedChainsRespond limit }
{}

/// In every run of the program of a design that meets the rules and has bounds, each printed chain takes at most the response time of its thread
/// of lowest priority (by the busy periods of Lehoczky 1990).
///
/// The arrivals are accepted. `limit` is the farthest horizon allowed, in ticks.
pub fn printed_chains_keep_to_levels()
    ensures { (limit : ℕ) → PrintedChainsKeepToLevels limit }
{}

/// The response time of the lowest row of a chain is at most the sum of the response times along it: so the second bound is never the worse one.
pub fn levels_are_within_sums()
    ensures { LevelsAreWithinSums }
{}

/// In every run of the program of a design that meets the rules, each activation of a thread uses at most the cost that is printed of the
/// thread, in ticks.
///
/// The arrivals are accepted, and no bounds are asked for. `limit` is the farthest horizon allowed, in ticks.
pub fn threads_keep_to_costs()
    ensures { (limit : ℕ) → ThreadsKeepToCosts limit }
{}

/// In every run of the program of a design that meets the rules and has bounds, each request is served at once, each printed chain takes at most
/// the response time of its thread of lowest priority, and each activation uses at most the cost that is printed.
///
/// The arrivals are accepted. `limit` is the farthest horizon allowed, in ticks.
pub fn designs_serve()
    ensures { (limit : ℕ) → DesignsServe limit }
{}

/// The same of the program by any ranking of the threads, where the design has bounds by it.
///
/// The arrivals are accepted. `limit` is the farthest horizon allowed, in ticks.
pub fn ranked_designs_serve()
    ensures { (limit : ℕ) → RankedDesignsServe limit }
{}
