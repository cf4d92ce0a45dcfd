//! Laws of dispatching on the modelled processor: what order numbers are for, what ticks at which nothing is due come to, and how two
//! lists stand for what is dispatched and what wakes. No code runs here.
//!
//! It stands on `machine` for the processor and on `link_queue` for the lists. Each law is the contract of a public function without
//! a body:
//!
//! - `renumbered_states_tell_the_same`: of order numbers only the order among ready tasks of one active priority matters;
//! - `ticks_can_be_used_at_once`: where nothing is due, a processor may go on by many ticks in one;
//! - `first_ready_task_is_dispatched` and `places_are_order_numbers`: a ready list says which task is dispatched, and a task's place in
//!   it serves as its order number;
//! - `first_due_sleeper_is_released`: a list of sleeping tasks says which one is released next.
//!
//! `specs/Queueing` says when two lists stand for a state. That they go on doing so after each release, entry, exit and end is in
//! `proofs/`, for the processor's code.
//!
//! Other crates may cite these proofs of it (`proofs/Shared`):
//!
//! - `Acts`: what the acts of a running task that is apart from the ready list do to the order of dispatch.
//! - `Heads`: the first task of the ready list is the one that is dispatched.
//! - `Jumps`: the law of jumps: where nothing is due before so many ticks have passed, they can be used at once.
//! - `Places`: tasks and numbers by their places, and what a change of one leaves of the others.
//! - `Queued`: the ready list stands for the order of dispatch, and goes on doing so after each release, entry, exit and end.
//! - `Ranks`: places in the ready list serve as order numbers: they rank the ready tasks as any numbers do for which the list is in order
//!   of dispatch.
//! - `Renumbered`: the law of renumbering: two states that differ in order numbers alone, ranked alike, tell the same from there on.
//! - `Running`: the running task apart from the ready list: while it has effects it is in no list, and the order of dispatch is the ready
//!   list with it before the others of its active priority.
//! - `Sleeping`: the delay list stands for the sleeping tasks: its first task is the one that is released next.
#![tactic(auto)]

ghost use Rattle.std.specs.Prelude.{◌≡◌, ◌↔◌, ℕ, suc, ◌+◌, ◌*◌, ◌<◌, false, List, [], length, option_map, slice_get, ℤ};
ghost use Rattle.seq_tree.specs.Lists.{first_where};
ghost use Rattle.link_queue.specs.Queues.{Entry, due};
ghost use Rattle.machine.specs.Dispatch.{dispatched};
ghost use Rattle.machine.specs.Meanings.{Rest, run};
ghost use Rattle.machine.specs.States.{State, Task, Use};
ghost use Rattle.machine.specs.Steps.{is_due};
ghost use Rattle.machine.specs.Systems.{System};
ghost use Rattle.trace_tree.specs.declared.event.Event.{Event};
ghost use Rattle.law_dispatching.specs.Jumping.{HasTicks, IsQuiet, ticks_later};
ghost use Rattle.law_dispatching.specs.Queueing.{AreQueued, AreSleeping, places};
ghost use Rattle.law_dispatching.specs.Renumbering.{DifferInOrders, RankAlike};

/// Two states tell the same from there on where they differ in order numbers alone, and the numbers of the ready tasks of each active
/// priority stand in the same order. So a processor may count places in its ready list instead.
pub fn renumbered_states_tell_the_same()
    ensures { (y : System) (s t : State) (told : List Event) → DifferInOrders s t → Rest y s told ↔ Rest y t told }
{}

/// Where no release, arrival or horizon is due at the next n instants, and the task that is dispatched has n + 1 ticks left of its
/// piece, n + 1 ticks tell nothing. The state after them differs in the time and in two counts of that task, and stands before the
/// effects of the last instant. One tick and the parts of one instant are four steps.
pub fn ticks_can_be_used_at_once()
    ensures { (y : System) (n : ℕ) (s : State) → s.phase ≡ Use → s.stopped ≡ false → HasTicks s.tasks (suc n) (dispatched s.tasks s.orders)
        → ((j : ℕ) → j < n → IsQuiet y s (s.time + suc j)) → run y (4 * n + 1) s ≡ (ticks_later (dispatched s.tasks s.orders) (suc n) s, []) }
{}

/// The first task of a ready list is the one that uses the next tick, and none does where the list is empty.
pub fn first_ready_task_is_dispatched()
    ensures { (tasks : List Task) (orders : List ℤ) (ready : List Entry) → AreQueued tasks orders ready
        → dispatched tasks orders ≡ option_map (λ e. e.0) (slice_get ready 0) }
{}

/// The places of the ready tasks in their list, counted from 1, with 0 for every other task, rank them as their order numbers do.
pub fn places_are_order_numbers()
    ensures { (tasks : List Task) (orders : List ℤ) (ready : List Entry) → AreQueued tasks orders ready
        → RankAlike tasks orders (places (length tasks) ready) }
{}

/// The first of the sleeping tasks, where its time has come, is the one that the processor releases next, and it releases none where
/// there is no such task.
pub fn first_due_sleeper_is_released()
    ensures { (tasks : List Task) (time : ℕ) (asleep : List Entry) → AreSleeping tasks time asleep
        → option_map (λ t. t.0) (first_where (λ t. is_due time t.readiness) tasks) ≡ due time asleep }
{}
