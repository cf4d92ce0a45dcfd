//! Designs whose margin is told: how far all their `work` may grow, and what fails at the next per mille.

use super::analyses::untaken;
use super::rows::run_table;

/// What rows of designs with a margin have.
const SCALED: &str = "words: scale d
    status: done";

/// What rows of designs that are refused have.
const REFUSED: &str = "words: scale d
    status: refused";

/// Margins that end at a limit of a thread.
const MISSED: &[&str] = &[
    "name: a response over its deadline, whatever the budget
    root: OBJECT a IS CYCLIC ATTRIBUTES PERIOD = 10; DEADLINE = 10; THREAD_BUDGET = 4; THREAD work (3); END THREAD; END a;
    out: scale 3000
    out: next U1 a value 11 limit 10 round 0",
    "name: three cyclic threads that fill the processor
    children: OBJECT a IS CYCLIC ATTRIBUTES PERIOD = 7; DEADLINE = 7; THREAD_BUDGET = 1000; THREAD work (2); END THREAD; END a; \
        OBJECT b IS CYCLIC ATTRIBUTES PERIOD = 12; DEADLINE = 12; THREAD_BUDGET = 1000; THREAD work (2); END THREAD; END b; \
        OBJECT c IS CYCLIC ATTRIBUTES PERIOD = 20; DEADLINE = 20; THREAD_BUDGET = 1000; THREAD work (4); END THREAD; END c;
    out: scale 1000
    out: next U1 c value 22 limit 20 round 2",
    "name: a design without bounds that has some at less
    children: OBJECT a IS CYCLIC ATTRIBUTES PERIOD = 7; DEADLINE = 7; THREAD_BUDGET = 1000; THREAD work (2); END THREAD; END a; \
        OBJECT b IS CYCLIC ATTRIBUTES PERIOD = 12; DEADLINE = 12; THREAD_BUDGET = 1000; THREAD work (2); END THREAD; END b; \
        OBJECT c IS CYCLIC ATTRIBUTES PERIOD = 20; DEADLINE = 20; THREAD_BUDGET = 1000; THREAD work (5); END THREAD; END c;
    why: at 800 the last `work` takes 4 ticks and the others 2; at 801 it takes 5
    out: scale 800
    out: next U1 c value 21 limit 20 round 3",
    "name: jitter and response over the separation
    root: OBJECT s IS SPORADIC ATTRIBUTES SEPARATION = 10; DEADLINE = 10; THREAD_BUDGET = 1000; ARRIVAL_JITTER = 6; \
        PROVIDES start (v : in word) ASER; THREAD work (2); END THREAD; END s;
    why: 6 ticks of jitter leave 4, of which 1 ends the activation
    out: scale 1500
    out: next U2 s value 11 limit 10 round 0",
];

/// Margins that end elsewhere.
const OTHERS: &[&str] = &[
    "name: nothing that grows
    root: OBJECT a IS CYCLIC ATTRIBUTES PERIOD = 10; DEADLINE = 10; THREAD_BUDGET = 1000; THREAD null; END THREAD; END a;
    out: scale 1000000
    out: next limit",
    "name: a thread that is too dear and late at once
    root: OBJECT a IS CYCLIC ATTRIBUTES PERIOD = 1000000000; DEADLINE = 1000000000; THREAD_BUDGET = 2000001; \
        THREAD work (1000000); work (1000000); END THREAD; END a;
    out: scale 499999
    out: next cost a thread",
    "name: a body that nobody calls
    children: OBJECT p IS PASSIVE PROVIDES f; OPERATION f IS BEGIN work (1000000); work (1000000); END f; END p; \
        OBJECT a IS CYCLIC ATTRIBUTES PERIOD = 10; DEADLINE = 10; THREAD_BUDGET = 1000; THREAD null; END THREAD; END a;
    out: scale 500000
    out: next cost p f",
];

/// Designs without a margin, and some that are not taken.
const NOT_SCALED: &[&str] = &[
    "name: statements that take too long by themselves
    root: OBJECT a IS CYCLIC ATTRIBUTES PERIOD = 5; DEADLINE = 5; THREAD_BUDGET = 1000; THREAD null; null; null; null; work (1); \
        END THREAD; END a;
    err: refused U1 a value 6 limit 5 round 0",
];

#[test]
fn designs_are_scaled(rt: HostRuntime) {
    let alloc = rt.alloc();
    run_table(&rt, alloc, SCALED, MISSED);
    run_table(&rt, alloc, SCALED, OTHERS);
    run_table(&rt, alloc, REFUSED, NOT_SCALED);
    run_table(&rt, alloc, REFUSED, untaken())
}
