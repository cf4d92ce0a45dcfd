//! The least solution of the response equations without limits, row by row, as far as ten times each row's limits: what to tell of the
//! rows of a table that misses.
//!
//! It stands on the equations and the rounds of `rt_response`. `respond_late` carries its promise: what it tells of each row is so by the
//! definitions of `specs/Late`. That solved rows are the least solution, that they are the bounds of `respond` where there are some, and
//! that a row that is given up is late in every solution, are laws over the definitions. `utilisation` is the sum of cost / period of all
//! rows in whole per mille, computed as an exact fraction.
//!
//! Other crates may cite these proofs of it (`proofs/Shared`):
//!
//! - `Places`: rows, rounds and vectors by their places, and what a row needs.
//! - `LateLaws`: each row is told once; solved rows are the least solution, and bounds are solved rows.
#![tactic(auto)]

mod behind;
mod limbs;
mod per_mille;
mod progress;
mod reach;
mod sides;
mod solving;

ghost use Rattle.late_response.specs.Laws.{SolvedIsLeast, SolvedMeetsItsEquation, SolvedInTimeIsLeast, LeastIsSolved, BeyondIsLate, ToldOnce};
ghost use Rattle.late_response.specs.Laws.{TableToldOnce, ToldMeetsItsEquation, NoneIsLate, LeastIsTold};

pub use per_mille::utilisation;
pub use reach::Reach;
pub use solving::respond_late;

/// No vector that meets the equations has less for a solved row.
pub fn solved_rows_are_least()
    ensures { SolvedIsLeast }
{}

/// A solved row meets its own equation with equality.
pub fn solved_rows_meet_their_equations()
    ensures { SolvedMeetsItsEquation }
{}

/// Where all rows are solved within their limits, they are the least vector within the limits, which is what `respond` gives.
pub fn solved_rows_in_time_are_bounds()
    ensures { SolvedInTimeIsLeast }
{}

/// Where there is a least vector within the limits, all rows are solved with it. So some row is late exactly where `respond` answers a miss.
pub fn bounds_are_solved_rows()
    ensures { LeastIsSolved }
{}

/// A row that is given up is late in every vector that meets the equations.
pub fn rows_beyond_are_late()
    ensures { BeyondIsLate }
{}

/// What is told of a row is the only thing that can be, and one list is told of a table.
pub fn rows_are_told_once()
    ensures row { ToldOnce }
    ensures table { TableToldOnce }
{}

/// The numbers that are told of a solved row are those of its equation, with the jitters that are told of the starters above it.
pub fn told_rows_meet_their_equations()
    ensures { ToldMeetsItsEquation }
{}

/// No row is late exactly where there is a least vector within the limits, so where `respond` answers Ok.
pub fn none_is_late_where_bounds_are()
    ensures { NoneIsLate }
{}

/// Where there is a least vector within the limits, it is what is told.
pub fn bounds_are_told()
    ensures { LeastIsTold }
{}
