ghost use Rattle.std.specs.Prelude.{◌≡◌, ◌+◌, length, filter, map};
ghost use Rattle.ods_tree.specs.Trees.{flat_of, thread_of, timing_of};
ghost use Rattle.background.specs.Fronts.{at_once, is_slow, restless_flat};
ghost use Rattle.background_designs.specs.Misfits.{is_sporadic};

use ods_tree::{Flat, FlatThread, Timing};
use seq_tree::TICK_LIMIT;

/// Whether a thread has the deadline of clients, which no hard thread has.
pub(crate) fn is_slow(thread: &FlatThread) -> bool
    ensures { result ≡ is_slow (thread_of thread.now) }
{
    thread.deadline == TICK_LIMIT
}

/// Whether a thread is sporadic.
pub(crate) fn is_sporadic(timing: &Timing) -> bool
    ensures { result ≡ is_sporadic (timing_of timing.now) }
{
    match timing {
        Timing::Cyclic { .. } => false,
        Timing::Sporadic { .. } => true,
    }
}

/// The number of threads with the deadline of clients.
pub(crate) fn slow_count(threads: &[FlatThread]) -> usize
    ensures { result ≡ length (filter is_slow (map thread_of threads.now)) }
{
    let mut count = 0;
    'threads: for thread in threads {
        if is_slow(thread) {
            count += 1;
        }
    }
    count
}

/// Lets a thread be released again as soon as it has ended, where it has the deadline of clients.
fn set_thread(thread: &mut FlatThread)
    ensures { thread_of thread.new ≡ at_once (thread_of thread.old) }
{
    if is_slow(thread) {
        thread.timing = Timing::Cyclic {
            period: 1,
            offset: 0,
        };
    }
}

/// Lets the threads with the deadline of clients be released again as soon as they have ended.
#[tactic(auto, using(ods_forms::proofs::Shared::SetSteps::set_steps))]
fn set_threads(threads: &mut [FlatThread])
    ensures { map thread_of threads.new ≡ map at_once (map thread_of threads.old) }
{
    'threads: for place in 0..threads.len() {
        set_thread(&mut threads[place]);
    }
}

/// The same in a flat design.
pub(crate) fn set_restless(flat: &mut Flat)
    ensures { flat_of flat.new ≡ restless_flat (flat_of flat.old) }
{
    set_threads(flat.threads.as_mut_slice());
}
