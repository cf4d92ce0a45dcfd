//! Designs for which a priority order is looked for.

use super::analyses::{by_deadline, untaken};
use super::rows::run_table;

/// What rows of designs for which an order is found have.
const FOUND: &str = "words: search d
    status: done";

/// What rows of designs that are refused have.
const REFUSED: &str = "words: search d
    status: refused";

/// Designs that pass under some order.
const ORDERED: &[&str] = &[
    "name: a jitter for which the order of deadlines fails
    children: OBJECT a IS SPORADIC ATTRIBUTES SEPARATION = 20; DEADLINE = 20; THREAD_BUDGET = 1000; ARRIVAL_JITTER = 12; \
        PROVIDES start (v : in word) ASER; THREAD work (4); END THREAD; END a; OBJECT b IS CYCLIC ATTRIBUTES PERIOD = 15; DEADLINE = 15; \
        THREAD_BUDGET = 1000; THREAD work (4); END THREAD; END b;
    out: thread a priority 2 period 20 deadline 20 jitter 12 cost 5 blocking 0 response 5
    out: thread b priority 1 period 15 deadline 15 jitter 0 cost 5 blocking 0 response 15
    out: ceiling a 2",
    "name: the same with priorities from 31 on
    head: TICK = 1 ms; PRIORITIES 31 .. 60;
    root: OBJECT r IS ACTIVE OBJECTS OBJECT a IS SPORADIC ATTRIBUTES SEPARATION = 20; DEADLINE = 20; THREAD_BUDGET = 1000; \
        ARRIVAL_JITTER = 12; PROVIDES start (v : in word) ASER; THREAD work (4); END THREAD; END a; OBJECT b IS CYCLIC ATTRIBUTES \
        PERIOD = 15; DEADLINE = 15; THREAD_BUDGET = 1000; THREAD work (4); END THREAD; END b; END r;
    out: thread a priority 32 period 20 deadline 20 jitter 12 cost 5 blocking 0 response 5
    out: thread b priority 31 period 15 deadline 15 jitter 0 cost 5 blocking 0 response 15
    out: ceiling a 32",
];

/// Designs that are refused, by `search` and by `arrange`.
pub fn unordered() -> &'static [&'static str] {
    UNORDERED
}

const UNORDERED: &[&str] = &[
    "name: three cyclic threads that pass under no order
    children: OBJECT a IS CYCLIC ATTRIBUTES PERIOD = 7; DEADLINE = 7; THREAD_BUDGET = 1000; THREAD work (2); END THREAD; END a; \
        OBJECT b IS CYCLIC ATTRIBUTES PERIOD = 12; DEADLINE = 12; THREAD_BUDGET = 1000; THREAD work (2); END THREAD; END b; \
        OBJECT c IS CYCLIC ATTRIBUTES PERIOD = 20; DEADLINE = 20; THREAD_BUDGET = 1000; THREAD work (5); END THREAD; END c;
    err: refused P2 a b c",
    "name: one thread can be last, and of the two that are left none
    children: OBJECT a IS CYCLIC ATTRIBUTES PERIOD = 10; DEADLINE = 4; THREAD_BUDGET = 1000; THREAD work (2); END THREAD; END a; \
        OBJECT m IS CYCLIC ATTRIBUTES PERIOD = 100; DEADLINE = 100; THREAD_BUDGET = 1000; THREAD work (2); END THREAD; END m; \
        OBJECT b IS CYCLIC ATTRIBUTES PERIOD = 10; DEADLINE = 4; THREAD_BUDGET = 1000; THREAD work (2); END THREAD; END b;
    err: refused P2 a b",
    "name: a thread that starts another
    children: @started
    err: refused P1 s",
    "name: a thread that starts another, where no order passes
    children: OBJECT p IS CYCLIC ATTRIBUTES PERIOD = 50; DEADLINE = 50; THREAD_BUDGET = 1000; REQUIRES s.start; THREAD s.start (7); \
        work (49); END THREAD; END p; OBJECT s IS SPORADIC ATTRIBUTES SEPARATION = 50; DEADLINE = 20; THREAD_BUDGET = 1000; \
        PROVIDES start (v : in word) ASER; THREAD work (4); END THREAD; END s;
    err: refused P1 s",
];

#[test]
fn orders_are_searched(rt: HostRuntime) {
    let alloc = rt.alloc();
    run_table(&rt, alloc, FOUND, ORDERED);
    run_table(&rt, alloc, FOUND, by_deadline());
    run_table(&rt, alloc, REFUSED, UNORDERED);
    run_table(&rt, alloc, REFUSED, untaken())
}
