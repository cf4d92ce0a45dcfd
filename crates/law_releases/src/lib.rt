//! What else makes a run right beside doing as its texts say: releases on time, requests served in order and each once, and arrivals as
//! they come. Laws over definitions alone: no code runs here.
//!
//! A cyclic task whose activations end within its period is released at its times. Requests are served in order as long as none comes while
//! another is pending, and none does where they keep the separation and activations end soon enough. A task that one other requests, once
//! on each way through its block at most, is requested once in each activation of it, and inherits its jitter and response time as release
//! jitter. The statements are in `specs/Laws.antt`.
//!
//! What is claimed of one task is carried from the stop of a run back to its opening in one walk (`CarriedSteps`), for every claim that may be
//! carried over each thing that a run does (`Carrying`): so a further claim of cyclic tasks, here or above, needs no walk of its own
//! (`CarriedRuns`).
//!
//! Other crates may cite these proofs of it (`proofs/Shared`):
//!
//! - `AcceptedArrivals`: what is known of arrivals that are accepted: their times don't fall, and each is for the unit of a task.
//! - `ArrivalsTold`: requests from outside are told as they arrive, in order, up to the horizon, in every run without a stop.
//! - `CarriedRuns`: what is claimed of a cyclic task and carried back holds of each run without a stop, from its opening on.
//! - `Carrying`: what a claim about a task must allow, so that it is carried from the stop of a run back to its opening: a claim speaks of
//!   a part of an instant, of the task's state and of all that is told from there on.
//! - `ExternalRequests`: the requests of a thread that is requested from outside are its arrivals, so they keep its separation where those
//!   do.
//! - `InheritedJitter`: a thread that one other requests, at most once in each of its activations, has requests that keep the separation
//!   of that starter's releases, with the starter's jitter and response time together as their jitter.
//! - `Overruns`: a thread whose requests are apart by its separation, but for the jitter, and whose activations end soon enough has no
//!   overrun, and its releases are apart as its requests are.
//! - `PeriodicLaw`: the releases of each cyclic task of a program are on time in every run without a stop in which each of its activations
//!   ends within its period.
//! - `Permitted`: every run without a stop, in which cyclic tasks end within their periods and no request overruns another, is one that
//!   the program's texts permit.
//! - `ServedLaw`: every run of a program that meets the rules, under arrivals that are accepted, serves the requests of each sporadic task
//!   in order and each once, up to the first that comes while another is not yet served.
//! - `StarterLaw`: in every run of a program that meets the rules, a sporadic task that one task alone requests, once on each way at most,
//!   is requested by it at most once from each of its releases to the end of that activation.
//! - `Tasks`: the tasks of a program are the threads that the processor runs, in the same order.
#![tactic(auto)]

ghost use Rattle.law_releases.specs.Laws.{RequestsAreServed, AllRequestsAreServed, StartersAskOnce, CyclicTasksAreOnTime, ArrivalsAreTold};
ghost use Rattle.law_releases.specs.Laws.{RunsArePermitted, SeparateRequestsDontOverrun, StartersHandOnJitter};
ghost use Rattle.std.specs.Prelude.{ℕ};

/// In every run of a program, the requests of each sporadic task are served in order and each once, as long as none comes while another is
/// pending: a release is there exactly where a request and the end of the activation before are both there, at the later of their times,
/// with the request's value (Burns and Wellings 1995).
///
/// The program meets its rules and the arrivals are accepted; a stop may end the run. `limit` is the farthest horizon allowed, in ticks.
pub fn requests_are_served()
    ensures up_to_an_overrun { (limit : ℕ) → RequestsAreServed limit }
    ensures all { (limit : ℕ) → AllRequestsAreServed limit }
{}

/// A sporadic task that one task alone can request, at most once on each way through its block, is requested at most once in each
/// activation of it: from a release of the starter to the end of that activation.
///
/// It takes no requests from outside; the program meets its rules and the arrivals are accepted. `limit` is the farthest horizon allowed,
/// in ticks.
pub fn starters_ask_once()
    ensures { (limit : ℕ) → StartersAskOnce limit }
{}

/// In every run without a stop, each cyclic task whose activations end within its period is released at its offset and at each period after
/// it, up to the horizon, and at no other time (ISO/IEC 8652:2012, D.9, `delay until`).
///
/// An activation ends within the period where some response time of at most the period bounds it. The program meets its rules and the
/// arrivals are accepted. `limit` is the farthest horizon allowed, in ticks.
pub fn cyclic_tasks_are_released_on_time()
    ensures { (limit : ℕ) → CyclicTasksAreOnTime limit }
{}

/// In every run without a stop, requests from outside are told as they arrive: each at its time and with its value, in order, up to the
/// horizon.
///
/// The arrivals are accepted for the program. `limit` is the farthest horizon allowed, in ticks.
pub fn arrivals_are_told()
    ensures { (limit : ℕ) → ArrivalsAreTold limit }
{}

/// Every run without a stop, in which cyclic tasks end within their periods and no request comes while another is pending, is one that the
/// program's texts permit.
///
/// The program can be read and the arrivals are accepted. `limit` is the farthest horizon allowed, in ticks.
pub fn runs_are_permitted()
    ensures { (limit : ℕ) → RunsArePermitted limit }
{}

/// No request of a thread comes while another is pending, where the requests keep a separation that is at least the thread's response time
/// and their release jitter together; and the thread's releases keep that separation with that jitter.
///
/// The trace is in order, requests are served as above, and a response time is at least a tick. All times are in ticks.
pub fn separate_requests_dont_overrun()
    ensures { SeparateRequestsDontOverrun }
{}

/// The requests that a thread gets from one starter, at most one in each activation of it, keep the starter's period, with the starter's
/// release jitter and response time together as their jitter (Tindell and Clark 1994).
///
/// The trace is in order, and the starter's releases keep its period with its own jitter. All times are in ticks.
pub fn starters_hand_on_jitter()
    ensures { StartersHandOnJitter }
{}
