//! Designs whose bounds and ceilings are computed.

use super::rows::run_table;

/// What rows of designs that keep their limits have.
const KEPT: &str = "words: analyse d
    status: done";

/// What rows of designs that are refused have.
const REFUSED: &str = "words: analyse d
    status: refused";

/// Designs that pass by the order of their deadlines: `search` writes of them what `analyse` does.
pub fn by_deadline() -> &'static [&'static str] {
    BY_DEADLINE
}

const BY_DEADLINE: &[&str] = &[
    "name: three cyclic threads
    children: OBJECT a IS CYCLIC ATTRIBUTES PERIOD = 7; DEADLINE = 7; THREAD_BUDGET = 1000; THREAD work (2); END THREAD; END a; \
        OBJECT b IS CYCLIC ATTRIBUTES PERIOD = 12; DEADLINE = 12; THREAD_BUDGET = 1000; THREAD work (2); END THREAD; END b; \
        OBJECT c IS CYCLIC ATTRIBUTES PERIOD = 20; DEADLINE = 20; THREAD_BUDGET = 1000; THREAD work (4); END THREAD; END c;
    out: thread a priority 3 period 7 deadline 7 jitter 0 cost 3 blocking 0 response 3
    out: thread b priority 2 period 12 deadline 12 jitter 0 cost 3 blocking 0 response 6
    out: thread c priority 1 period 20 deadline 20 jitter 0 cost 5 blocking 0 response 20",
    "name: two protected objects
    children: @two objects
    out: thread x priority 3 period 40 deadline 20 jitter 0 cost 9 blocking 2 response 11
    out: thread y priority 2 period 40 deadline 30 jitter 0 cost 5 blocking 2 response 16
    out: thread z priority 1 period 40 deadline 40 jitter 0 cost 5 blocking 0 response 19
    out: ceiling q1 3
    out: ceiling q2 3",
];

/// Bounds and ceilings of threads and protected objects.
const BOUNDS: &[&str] = &[
    "name: a section at the end of an activation
    children: @section at the end
    out: thread h priority 2 period 10 deadline 9 jitter 0 cost 6 blocking 3 response 9
    out: thread l priority 1 period 20 deadline 20 jitter 0 cost 6 blocking 0 response 18
    out: ceiling q 2",
    "name: a loop of no turn and an exit
    root: OBJECT a IS CYCLIC ATTRIBUTES PERIOD = 20; DEADLINE = 20; THREAD_BUDGET = 1000; THREAD for i in word range 1 .. 0 loop put (i); \
        end loop; for j in word range 1 .. 3 loop exit when j = 1; null; end loop; END THREAD; END a;
    out: thread a priority 1 period 20 deadline 20 jitter 0 cost 10 blocking 0 response 10",
];

/// Bounds and ceilings where threads are started.
const STARTS: &[&str] = &[
    "name: a thread that starts another
    children: @started
    out: thread s priority 2 period 50 deadline 20 jitter 10 cost 5 blocking 2 response 7
    out: thread p priority 1 period 50 deadline 50 jitter 0 cost 5 blocking 0 response 10
    out: ceiling s 2",
    "name: a protected operation that calls another
    children: @inner calls
    out: thread h priority 2 period 20 deadline 10 jitter 0 cost 5 blocking 2 response 7
    out: thread l priority 1 period 40 deadline 40 jitter 0 cost 10 blocking 0 response 15
    out: ceiling q 1
    out: ceiling e 2",
    "name: a protected operation that starts a thread
    children: @inner start
    out: thread s priority 2 period 50 deadline 20 jitter 12 cost 5 blocking 2 response 7
    out: thread p priority 1 period 50 deadline 50 jitter 0 cost 7 blocking 0 response 12
    out: ceiling q 1
    out: ceiling s 2",
];

/// Bounds and ceilings of whole designs.
const DESIGNS: &[&str] = &[
    "name: a terminal object of every kind
    children: OBJECT scale IS PASSIVE PROVIDES double (a : in word; y : out word); OPERATION double IS BEGIN y := a * 2; END double; \
        END scale; OBJECT board IS PROTECTED PROVIDES note (v : in word) PAER; DATA last : word := 0; OPERATION note IS BEGIN last := v; \
        work (2); END note; END board; OBJECT sampler IS CYCLIC ATTRIBUTES PERIOD = 100; OFFSET = 10; DEADLINE = 80; THREAD_BUDGET = 50; \
        REQUIRES scale.double; board.note; printer.print; DATA x : word := 1; THREAD work (5); scale.double (x, x); board.note (x); \
        printer.print (x); END THREAD; END sampler; OBJECT printer IS SPORADIC ATTRIBUTES SEPARATION = 100; DEADLINE = 60; \
        THREAD_BUDGET = 20; PROVIDES print (v : in word) ASER; THREAD put (v); END THREAD; END printer; \
        OBJECT button IS SPORADIC ATTRIBUTES SEPARATION = 200; DEADLINE = 20; THREAD_BUDGET = 20; ARRIVAL_JITTER = 3; \
        PROVIDES press (v : in word) ASER; REQUIRES board.note; THREAD board.note (v); END THREAD; END button;
    out: thread button priority 3 period 200 deadline 20 jitter 3 cost 6 blocking 3 response 9
    out: thread printer priority 2 period 100 deadline 60 jitter 26 cost 2 blocking 3 response 11
    out: thread sampler priority 1 period 100 deadline 80 jitter 0 cost 18 blocking 0 response 26
    out: ceiling board 3
    out: ceiling printer 2
    out: ceiling button 3",
    "name: the mine pump
    whole: @mine
    out: thread ch4_sensor priority 6 period 80 deadline 30 jitter 0 cost 21 blocking 2 response 23
    out: thread alarm_console priority 5 period 80 deadline 50 jitter 23 cost 6 blocking 2 response 29
    out: thread co_sensor priority 4 period 100 deadline 60 jitter 0 cost 14 blocking 4 response 45
    out: thread air_flow priority 3 period 100 deadline 100 jitter 0 cost 10 blocking 4 response 55
    out: thread water_handler priority 2 period 6000 deadline 200 jitter 5 cost 11 blocking 4 response 72
    out: thread flow_sensor priority 1 period 1000 deadline 900 jitter 0 cost 15 blocking 0 response 128
    out: ceiling motor 6
    out: ceiling ch4_status 6
    out: ceiling data_logger 4
    out: ceiling water_handler 2
    out: ceiling alarm_console 6",
    "name: times in milliseconds and priorities from 31 on
    head: TICK = 500 us; PRIORITIES 31 .. 60;
    root: @milliseconds
    out: thread a priority 31 period 10 deadline 10 jitter 0 cost 4 blocking 0 response 4",
    "name: ceilings from 31 on
    head: TICK = 1 ms; PRIORITIES 31 .. 60;
    root: OBJECT r IS ACTIVE OBJECTS OBJECT p IS CYCLIC ATTRIBUTES PERIOD = 50; DEADLINE = 50; THREAD_BUDGET = 1000; REQUIRES s.start; \
        THREAD s.start (7); END THREAD; END p; OBJECT s IS SPORADIC ATTRIBUTES SEPARATION = 50; DEADLINE = 20; THREAD_BUDGET = 1000; \
        PROVIDES start (v : in word) ASER; THREAD work (4); END THREAD; END s; END r;
    out: thread s priority 32 period 50 deadline 20 jitter 10 cost 5 blocking 2 response 7
    out: thread p priority 31 period 50 deadline 50 jitter 0 cost 5 blocking 0 response 10
    out: ceiling s 32",
];

/// Designs whose threads don't keep their limits.
const MISSES: &[&str] = &[
    "name: a response over its deadline in a later round
    children: OBJECT a IS CYCLIC ATTRIBUTES PERIOD = 7; DEADLINE = 7; THREAD_BUDGET = 1000; THREAD work (2); END THREAD; END a; \
        OBJECT b IS CYCLIC ATTRIBUTES PERIOD = 12; DEADLINE = 12; THREAD_BUDGET = 1000; THREAD work (2); END THREAD; END b; \
        OBJECT c IS CYCLIC ATTRIBUTES PERIOD = 20; DEADLINE = 20; THREAD_BUDGET = 1000; THREAD work (5); END THREAD; END c;
    err: refused U1 c value 21 limit 20 round 3",
    "name: jitter and response over the separation at once
    root: OBJECT s IS SPORADIC ATTRIBUTES SEPARATION = 10; DEADLINE = 10; THREAD_BUDGET = 1000; ARRIVAL_JITTER = 6; \
        PROVIDES start (v : in word) ASER; THREAD work (4); END THREAD; END s;
    err: refused U2 s value 11 limit 10 round 0",
    "name: jitter and response over the separation in a later round
    children: OBJECT a IS SPORADIC ATTRIBUTES SEPARATION = 20; DEADLINE = 20; THREAD_BUDGET = 1000; ARRIVAL_JITTER = 12; \
        PROVIDES start (v : in word) ASER; THREAD work (4); END THREAD; END a; OBJECT b IS CYCLIC ATTRIBUTES PERIOD = 15; DEADLINE = 15; \
        THREAD_BUDGET = 1000; THREAD work (4); END THREAD; END b;
    err: refused U2 a value 22 limit 20 round 1",
];

/// Designs that are not taken, for which no bounds are looked for.
pub fn untaken() -> &'static [&'static str] {
    UNTAKEN
}

const UNTAKEN: &[&str] = &[
    "name: the front of a design
    whole: DESIGN d
    err: refused S1 design line 1 column 9",
    "name: a thread over its deadline that assigns what isn't there
    root: OBJECT a IS CYCLIC ATTRIBUTES PERIOD = 10; DEADLINE = 10; THREAD_BUDGET = 1000; THREAD work (20); y := 1; END THREAD; END a;
    err: refused V13 a thread B1",
    "name: a design over its limit
    root: @cyclic
    design_len: 1048577
    err: refused S3 design",
];

/// A design whose Ada text is too long.
const LONG: &[&str] = &[
    "name: bounds of a design of 650,000 bytes whose text is over its limit
    linked: 130000
    err_room: 1000
    err: refused S3 text",
];

#[test]
fn designs_are_analysed(rt: HostRuntime) {
    let alloc = rt.alloc();
    run_table(&rt, alloc, KEPT, by_deadline());
    run_table(&rt, alloc, KEPT, BOUNDS);
    run_table(&rt, alloc, KEPT, STARTS);
    run_table(&rt, alloc, KEPT, DESIGNS);
    run_table(&rt, alloc, REFUSED, MISSES);
    run_table(&rt, alloc, REFUSED, untaken());
    run_table(&rt, alloc, REFUSED, LONG)
}
