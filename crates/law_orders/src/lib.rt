//! Laws of priority orders of a flat design, over definitions alone: no code runs here.
//!
//! Whether a thread can be last of some threads depends on which these are, and not on their order. So the lowest place of an order can
//! be filled by itself, then the next one, and where none of the threads left can be last of them, no order passes. This is optimal
//! priority assignment (Audsley 1991), with release jitter, and with blocking by ceilings that depend on the order: a thread that goes
//! from above another to below it adds its sections to the blocking, and takes away at least as much from what is above.
//!
//! It stands on `analysis` for tables, ceilings and blocking at any priorities.
//!
//! Other crates may cite these proofs of it (`proofs/Shared`):
//!
//! - `DeadlineFound`: where the deadline-monotonic order passes, each place that is filled from the lowest on goes to the thread that it
//!   has there.
//! - `DeadlineOrders`: the deadline-monotonic order is an order, and its priorities fall.
//! - `Fewer`: a thread that is last of some threads is last of fewer: a thread that goes from above it to below takes away at least the
//!   section that it adds.
//! - `FilledOrders`: two orders that are filled from their lowest places have the same thread at each filled place, and the same threads
//!   left.
//! - `LevelBlocking`: blocking and ceilings where a function gives each thread its level, by its place.
//! - `Obstacles`: where none of some threads can be last of them, no order passes: the one of them that an order has lowest would be last
//!   of them.
//! - `OrderBlocking`: the blocking of a thread by an order is that of the last of the threads that aren't below it.
//! - `OrderPlaces`: orders by their places: each thread stands in an order once, and its priority counts the places from its own to the
//!   end.
//! - `OrderRankings`: the priorities by an order are a ranking, and what is worked out by it is its table and its ceilings.
//! - `OrderRows`: the table of an order: its rows stand in the order's places.
//! - `OrderSums`: what the threads above a place of an order take of a window, over its rows.
//! - `OrderTables`: the table of an order is in its ranges, and so are its rows by themselves where no thread starts another.
//! - `Passing`: an order passes exactly where each thread can be last of those that aren't below it.
//! - `Permutations`: different places below a number, as many as that, are all places below it in some order.
//! - `SamePlaces`: whether a thread can be last of some threads depends on which they are alone.
//! - `Shares`: what threads take of a window, summed over their places.
#![tactic(auto)]

ghost use Rattle.law_orders.specs.Laws.{DeadlineOrdersAreFound, FewerAboveIsNoWorse, LeftThreadsAreOne, ObstaclesRefuse, OrdersPassByLasts};
ghost use Rattle.law_orders.specs.Laws.{PassingOrdersHaveLasts, OrdersAreRankings};

/// A thread that can be last of some threads can be last of fewer, where the flat design is sound.
pub fn fewer_above_is_no_worse()
    ensures { FewerAboveIsNoWorse }
{}

/// An order passes where each of its threads can be last of those that aren't below it.
///
/// The flat design is sound, and its sporadic threads are all requested from outside.
pub fn orders_pass_by_lasts()
    ensures { OrdersPassByLasts }
{}

/// In an order that passes, each thread can be last of those that aren't below it.
///
/// The flat design is sound, and its sporadic threads are all requested from outside.
pub fn passing_orders_have_lasts()
    ensures { PassingOrdersHaveLasts }
{}

/// Where none of some threads can be last of them, no order passes (Audsley 1991).
///
/// The flat design is sound, and its sporadic threads are all requested from outside.
pub fn obstacles_refuse()
    ensures { ObstaclesRefuse }
{}

/// Where the deadline-monotonic order passes, it is the one that is filled from its lowest place upwards.
///
/// The flat design is sound, and its sporadic threads are all requested from outside.
pub fn deadline_orders_are_found()
    ensures { DeadlineOrdersAreFound }
{}

/// Orders that are filled from their lowest places as far as they can be have the same threads left, where the flat design is sound.
///
/// So the threads that show that no order passes are one answer.
pub fn left_threads_are_one()
    ensures { LeftThreadsAreOne }
{}

/// The priorities by an order are a ranking of the threads: from 1 to the number of threads, each given once.
///
/// So what holds of a design's program by any ranking (`law_designs`) holds by any order.
pub fn orders_are_rankings()
    ensures { OrdersAreRankings }
{}
