//! Flat code: blocks as instructions with jumps, and the laws that what is ahead of each place are the pieces that the definitions of the
//! processor have. Laws over definitions alone: no code runs here, and none runs over flat code yet.
//!
//! An instruction stands at a place for a scope, which says in which slot each name is kept (`specs/Codes.antt`). What stands where is a
//! relation, and in the laws a test, so that they hold of every representation of code. `specs/Aheads.antt` says when pieces are ahead of a
//! place, `specs/Withins.antt` reads off a place of a block and the turns of its open loops which pieces are left, and
//! `specs/Following.antt` says where and with which turns each instruction goes on, and `specs/Levels.antt` how many loops are around it.
//!
//! Other crates may cite these proofs of it (`proofs/Shared`), which are over relations:
//!
//! - `Begins`: from the first instruction of a block on, its pieces are left.
//! - `Calling`: calls, requests, and the ends of bodies and of activations.
//! - `Ends`: where a block ends, what is behind it is left, in the scope around it.
//! - `Entering`: ahead of a block stand its pieces.
//! - `Follows`: after each instruction of a block, what is left is read off the place to which it leads, and how many loops are around it.
//! - `Going`: where it goes on after a piece.
//! - `Moves`: a move in no time inside a block leaves the same pieces in the same scope.
//! - `Places`: ahead of a place inside a block stand the pieces from its instruction on.
//! - `Scoping`: what holds of a scope holds at each place of a block, where each loop keeps it.
#![tactic(auto)]

ghost use Rattle.law_flat_code.specs.Laws.{ActivationsFinish, BlockIsAhead, BlocksBegin, BodiesReturn, CallsEnter, InstructionsFollow};
ghost use Rattle.law_flat_code.specs.Laws.{MovesStay, PartsPass};
ghost use Rattle.law_flat_code.specs.Laws.{PiecesGoOn, PlacesAreAhead, RequestsGoOn, SectionsEnter, TurnsEnd, UnknownGoesOn};
ghost use Rattle.law_flat_code.specs.Levels.{LevelsFollow};

/// Ahead of a block that stands in code are its pieces, and then those that are ahead of its end.
pub fn blocks_are_ahead()
    ensures { BlockIsAhead }
{}

/// What the first piece ahead does to the pieces, its instruction does to the place: a condition, an assignment, an output, a `null`, a
/// `work`, the beginning of a turn and the leaving of a loop.
pub fn pieces_go_on()
    ensures { PiecesGoOn }
{}

/// The end of a turn is where the next turn starts, or else it goes on behind the loop.
pub fn turns_end()
    ensures { TurnsEnd }
{}

/// A call of a passive operation goes on at its body, and the place behind the call is where it returns to.
pub fn calls_enter()
    ensures { CallsEnter }
{}

/// So does a call of a protected operation.
pub fn sections_enter()
    ensures { SectionsEnter }
{}

/// The request of a task goes on behind its call, with the parts of the request.
pub fn requests_go_on()
    ensures { RequestsGoOn }
{}

/// A call that leads nowhere goes on behind it.
pub fn unknown_calls_go_on()
    ensures { UnknownGoesOn }
{}

/// A part of a request leaves the place as it is.
pub fn parts_pass()
    ensures { PartsPass }
{}

/// The end of a body, passive or protected, goes on at the place where its call returns to.
pub fn bodies_return()
    ensures { BodiesReturn }
{}

/// The end of an activation is an instruction of its own.
pub fn activations_finish()
    ensures { ActivationsFinish }
{}

/// Ahead of each place inside a block are the pieces from its instruction on.
pub fn places_are_ahead()
    ensures { PlacesAreAhead }
{}

/// The pieces from the first instruction of a block on are those of the block.
pub fn blocks_begin()
    ensures { BlocksBegin }
{}

/// A jump inside a block, and the beginning of a loop of no turn, lead to a place of the block from which the same pieces are left, in the same
/// scope.
pub fn moves_stay()
    ensures { MovesStay }
{}

/// What each instruction of a block is, and what is left after it, read off the place where it goes on and the turns of the loops around that
/// place: the first turn of a loop and the end of a turn set the count of that loop, and no other instruction touches one.
pub fn instructions_follow()
    ensures { InstructionsFollow }
{}

/// What each instruction of a block is, what is left after it, and how many loops are around it: the slot in which a loop's turns are counted
/// tells that, what is left depends on the turns of the loops whose variables are in the scope, and a jump leads forwards.
pub fn levels_follow()
    ensures { LevelsFollow }
{}
