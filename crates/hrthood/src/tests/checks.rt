//! Designs whose rules are checked.

use super::rows::run_table;

/// What rows of designs that are taken have.
const TAKEN: &str = "words: check d
    status: done";

/// What rows of designs that are refused have.
const REFUSED: &str = "words: check d
    status: refused";

/// Designs that are taken.
const ACCEPTED: &[&str] = &[
    "name: one cyclic object
    root: @cyclic
    out: ok d objects 1 threads 1",
    "name: the mine pump
    whole: @mine
    out: ok mine objects 12 threads 6",
    "name: an activation of its budget
    root: OBJECT a IS CYCLIC ATTRIBUTES PERIOD = 50; DEADLINE = 50; THREAD_BUDGET = 12; THREAD work (11); END THREAD; END a;
    out: ok d objects 1 threads 1",
    "name: a thread that starts another
    children: @started
    out: ok d objects 3 threads 2",
    "name: a protected operation that calls another
    children: @inner calls
    out: ok d objects 5 threads 2",
    "name: a protected operation that starts a thread
    children: @inner start
    out: ok d objects 4 threads 2",
    "name: the deepest nesting
    parenthesised: 63
    out: ok d objects 1 threads 1",
    "name: the longest chain
    sum: 32
    out: ok d objects 1 threads 1",
    "name: a design at its limit
    root: @cyclic
    design_len: 1048576
    out: ok d objects 1 threads 1",
    "name: as many objects as there may be
    many: 499
    out: ok d objects 500 threads 0",
    "name: times in milliseconds
    head: TICK = 500 us; PRIORITIES 31 .. 60;
    root: @milliseconds
    out: ok d objects 1 threads 1",
];

/// Designs that break a rule on names, kinds or uses.
const BROKEN_STRUCTURES: &[&str] = &[
    "name: two objects of one name
    children: OBJECT A IS PASSIVE PROVIDES f; OPERATION f IS BEGIN null; END f; END A; OBJECT a IS PASSIVE PROVIDES f; \
        OPERATION f IS BEGIN null; END f; END a;
    err: refused V01 a",
    "name: an object with a reserved name
    root: OBJECT task IS PASSIVE PROVIDES f; OPERATION f IS BEGIN null; END f; END task;
    err: refused V02 task",
    "name: two protected objects in one
    root: OBJECT m IS PROTECTED OBJECTS OBJECT q IS PROTECTED PROVIDES set PAER; OPERATION set IS BEGIN null; END set; END q; \
        OBJECT e IS PROTECTED PROVIDES set PAER; OPERATION set IS BEGIN null; END set; END e; END m;
    err: refused V03 m",
    "name: a constrained operation of a passive object
    root: OBJECT p IS PASSIVE PROVIDES f PAER; OPERATION f IS BEGIN null; END f; END p;
    err: refused V04 p",
    "name: an operation without a body
    root: OBJECT p IS PASSIVE PROVIDES f; END p;
    err: refused V05 p",
    "name: an operation of an uncle that the parent does not require
    children: OBJECT u IS PASSIVE PROVIDES f; OPERATION f IS BEGIN null; END f; END u; \
        OBJECT g IS ACTIVE OBJECTS OBJECT p IS PASSIVE PROVIDES f; REQUIRES u.f; OPERATION f IS BEGIN u.f; END f; END p; END g;
    err: refused V06 p u.f",
    "name: an operation that isn't there
    children: OBJECT u IS PASSIVE PROVIDES f; OPERATION f IS BEGIN null; END f; END u; OBJECT p IS PASSIVE PROVIDES f; REQUIRES u.g; \
        OPERATION f IS BEGIN u.g; END f; END p;
    err: refused V07 p u.g",
    "name: a cyclic object that waits for another
    children: OBJECT srv IS ACTIVE PROVIDES get (v : out Word) HSER; OPERATION get IS BEGIN v := 1; END get; END srv; \
        OBJECT a IS CYCLIC ATTRIBUTES PERIOD = 10; DEADLINE = 10; THREAD_BUDGET = 1000; REQUIRES srv.get; DATA x : word := 0; \
        THREAD srv.get (x); END THREAD; END a;
    err: refused V08 a srv.get",
];

/// Designs that break a rule on rings, sources or numbers.
const BROKEN_CALLS: &[&str] = &[
    "name: two operations on a ring
    children: OBJECT p IS PASSIVE PROVIDES f; REQUIRES q.g; OPERATION f IS BEGIN q.g; END f; END p; OBJECT q IS PASSIVE PROVIDES g; \
        REQUIRES p.f; OPERATION g IS BEGIN p.f; END g; END q;
    err: refused V09 p.f",
    "name: two protected operations on a ring
    children: OBJECT q IS PROTECTED PROVIDES f PAER; REQUIRES e.g; OPERATION f IS BEGIN e.g; END f; END q; \
        OBJECT e IS PROTECTED PROVIDES g PAER; REQUIRES q.f; OPERATION g IS BEGIN q.f; END g; END e;
    err: refused V09 q.f",
    "name: two protected objects on a ring
    children: OBJECT q IS PROTECTED PROVIDES a PAER; b PAER; REQUIRES e.x; OPERATION a IS BEGIN e.x; END a; OPERATION b IS BEGIN null; \
        END b; END q; OBJECT e IS PROTECTED PROVIDES x PAER; y PAER; REQUIRES q.b; OPERATION x IS BEGIN null; END x; \
        OPERATION y IS BEGIN q.b; END y; END e;
    err: refused V09 q",
    "name: two threads on a ring
    children: OBJECT s IS SPORADIC ATTRIBUTES SEPARATION = 50; DEADLINE = 20; THREAD_BUDGET = 1000; PROVIDES start ASER; \
        REQUIRES t.start; THREAD t.start; END THREAD; END s; OBJECT t IS SPORADIC ATTRIBUTES SEPARATION = 50; DEADLINE = 20; \
        THREAD_BUDGET = 1000; PROVIDES start ASER; REQUIRES s.start; THREAD s.start; END THREAD; END t;
    err: refused V09 s",
    "name: two requests on a path
    children: OBJECT p IS CYCLIC ATTRIBUTES PERIOD = 50; DEADLINE = 50; THREAD_BUDGET = 1000; REQUIRES s.start; THREAD s.start (7); \
        s.start (8); END THREAD; END p; OBJECT s IS SPORADIC ATTRIBUTES SEPARATION = 50; DEADLINE = 20; THREAD_BUDGET = 1000; \
        PROVIDES start (v : in word) ASER; THREAD work (4); END THREAD; END s;
    err: refused V10 s sources 1 starts 2",
    "name: requests in three turns, which are told as two
    children: OBJECT p IS CYCLIC ATTRIBUTES PERIOD = 50; DEADLINE = 50; THREAD_BUDGET = 1000; REQUIRES s.start; \
        THREAD for i in word range 1 .. 3 loop s.start; end loop; END THREAD; END p; \
        OBJECT s IS SPORADIC ATTRIBUTES SEPARATION = 50; DEADLINE = 20; THREAD_BUDGET = 1000; PROVIDES start ASER; THREAD work (4); \
        END THREAD; END s;
    err: refused V10 s sources 1 starts 2",
    "name: requests of a thread and from outside
    children: OBJECT p IS CYCLIC ATTRIBUTES PERIOD = 50; DEADLINE = 50; THREAD_BUDGET = 1000; REQUIRES s.start; THREAD s.start; \
        END THREAD; END p; OBJECT s IS SPORADIC ATTRIBUTES SEPARATION = 50; DEADLINE = 20; THREAD_BUDGET = 1000; ARRIVAL_JITTER = 5; \
        PROVIDES start ASER; THREAD work (4); END THREAD; END s;
    err: refused V10 s sources 2 starts 1",
    "name: a thread that nobody requests
    root: OBJECT s IS SPORADIC ATTRIBUTES SEPARATION = 50; DEADLINE = 20; THREAD_BUDGET = 1000; PROVIDES start ASER; THREAD work (4); \
        END THREAD; END s;
    err: refused V10 s sources 0 starts 0",
    "name: a period that is missing
    root: OBJECT a IS CYCLIC ATTRIBUTES DEADLINE = 10; THREAD_BUDGET = 1000; THREAD work (3); END THREAD; END a;
    err: refused V11 a",
    "name: a terminal active object
    root: OBJECT a IS ACTIVE END a;
    err: refused V12 a",
    "name: an unknown variable
    root: OBJECT a IS CYCLIC ATTRIBUTES PERIOD = 10; DEADLINE = 10; THREAD_BUDGET = 1000; THREAD y := 1; END THREAD; END a;
    err: refused V13 a thread B1",
    "name: an activation over its budget
    root: OBJECT a IS CYCLIC ATTRIBUTES PERIOD = 50; DEADLINE = 50; THREAD_BUDGET = 10; THREAD work (11); END THREAD; END a;
    err: refused V14 a cost 12 budget 10",
    "name: more objects than there may be
    many: 500
    err: refused V15 objects 501",
    "name: a cost that doubles thirty times
    doubling: 31
    err: refused V15 cost p1 f",
    "name: a starter that is too fast
    children: OBJECT p IS CYCLIC ATTRIBUTES PERIOD = 49; DEADLINE = 49; THREAD_BUDGET = 1000; REQUIRES s.start; THREAD s.start; \
        END THREAD; END p; OBJECT s IS SPORADIC ATTRIBUTES SEPARATION = 50; DEADLINE = 20; THREAD_BUDGET = 1000; PROVIDES start ASER; \
        THREAD work (4); END THREAD; END s;
    err: refused V16 p period 49 s separation 50",
];

/// Designs with a fault of a body.
const BROKEN_BODIES: &[&str] = &[
    "name: a word as a condition
    root: OBJECT a IS CYCLIC ATTRIBUTES PERIOD = 10; DEADLINE = 10; THREAD_BUDGET = 1000; DATA x : word := 0; \
        THREAD if x then null; end if; END THREAD; END a;
    err: refused V13 a thread B2",
    "name: a divisor that is a name, in an operation
    root: OBJECT p IS PASSIVE PROVIDES f (x : in word; y : out word); OPERATION f IS BEGIN y := 1 / x; END f; END p;
    err: refused V13 p f B3",
    "name: an exit outside of a loop
    root: OBJECT a IS CYCLIC ATTRIBUTES PERIOD = 10; DEADLINE = 10; THREAD_BUDGET = 1000; DATA x : word := 0; \
        THREAD exit when x = 1; END THREAD; END a;
    err: refused V13 a thread B4",
    "name: an in parameter that is assigned
    root: OBJECT p IS PASSIVE PROVIDES f (x : in word; y : out word); OPERATION f IS BEGIN x := 1; END f; END p;
    err: refused V13 p f B5",
    "name: a number for an out parameter
    children: OBJECT p IS PASSIVE PROVIDES f (y : out word); OPERATION f IS BEGIN y := 1; END f; END p; \
        OBJECT q IS PASSIVE PROVIDES f; REQUIRES p.f; OPERATION f IS BEGIN p.f (1); END f; END q;
    err: refused V13 q f B6",
    "name: a call without its actual
    children: OBJECT p IS PASSIVE PROVIDES f (y : out word); OPERATION f IS BEGIN y := 1; END f; END p; \
        OBJECT q IS PASSIVE PROVIDES f; REQUIRES p.f; OPERATION f IS BEGIN p.f; END f; END q;
    err: refused V13 q f B7",
];

/// Designs of version 2 that are refused.
const BROKEN_VERSIONS: &[&str] = &[
    "name: a time that is no whole number of ticks
    head: TICK = 3 ms; PRIORITIES 31 .. 60;
    root: @milliseconds
    err: refused V17 a",
    "name: a tick of nothing
    head: TICK = 0 us; PRIORITIES 31 .. 60;
    root: @milliseconds
    err: refused V17 tick",
    "name: too many ticks
    head: TICK = 1 us;
    root: OBJECT a IS CYCLIC ATTRIBUTES PERIOD = 4294967295 s; DEADLINE = 5 ms; THREAD_BUDGET = 1000; THREAD work (3); END THREAD; END a;
    err: refused V17 a",
    "name: priorities over 60
    head: TICK = 500 us; PRIORITIES 5 .. 61;
    root: @milliseconds
    err: refused V17 priorities",
    "name: more threads than priorities
    head: TICK = 1 ms; PRIORITIES 1 .. 2;
    root: OBJECT r IS ACTIVE OBJECTS OBJECT a IS CYCLIC ATTRIBUTES PERIOD = 7; DEADLINE = 7; THREAD_BUDGET = 1000; THREAD work (2); \
        END THREAD; END a; OBJECT b IS CYCLIC ATTRIBUTES PERIOD = 12; DEADLINE = 12; THREAD_BUDGET = 1000; THREAD work (2); END THREAD; \
        END b; OBJECT c IS CYCLIC ATTRIBUTES PERIOD = 20; DEADLINE = 20; THREAD_BUDGET = 1000; THREAD work (4); END THREAD; END c; END r;
    err: refused V15 threads 3",
];

/// An object that breaks nearly every rule but that on versions.
pub const WRONG: &str = "OBJECT task IS PROTECTED ATTRIBUTES PERIOD = 0; REQUIRES x.y; OBJECTS \
     OBJECT task IS PASSIVE PROVIDES f PAER; REQUIRES task.g; DATA v : word := 0; END task; \
     OBJECT e IS PROTECTED PROVIDES h PAER; REQUIRES e.h; OPERATION h IS BEGIN e.h; END h; END e; \
     OBJECT s IS PROTECTED PROVIDES h PAER; OPERATION h IS BEGIN y := 1; work (0); END h; END s; \
     IMPLEMENTS f BY u.g; END task;";

/// The same, where no two things have one name.
pub const WRONG_WITHOUT_CLASHES: &str =
    "OBJECT m IS PROTECTED ATTRIBUTES PERIOD = 0; REQUIRES x.y; OBJECTS \
     OBJECT a IS PASSIVE PROVIDES f PAER; REQUIRES task.g; DATA v : word := 0; END a; \
     OBJECT e IS PROTECTED PROVIDES h PAER; REQUIRES e.h; OPERATION h IS BEGIN e.h; END h; END e; \
     OBJECT s IS PROTECTED PROVIDES h PAER; OPERATION h IS BEGIN y := 1; work (0); END h; END s; \
     IMPLEMENTS f BY u.g; END m;";

/// Designs that break many rules are told by the first.
const BROKEN_ALL_OVER: &[&str] = &[
    "name: the tick first
    head: TICK = 0 us; PRIORITIES 9 .. 5;
    root: @wrong
    err: refused V17 tick",
    "name: then the priorities
    head: TICK = 1 us; PRIORITIES 9 .. 5;
    root: @wrong
    err: refused V17 priorities",
    "name: then clashes of names
    root: @wrong
    err: refused V01 task",
    "name: then names that are kept, of what is required too
    root: @wrong without clashes
    err: refused V02 task",
];

#[test]
fn designs_are_checked(rt: HostRuntime) {
    let alloc = rt.alloc();
    run_table(&rt, alloc, TAKEN, ACCEPTED);
    run_table(&rt, alloc, REFUSED, BROKEN_STRUCTURES);
    run_table(&rt, alloc, REFUSED, BROKEN_CALLS);
    run_table(&rt, alloc, REFUSED, BROKEN_BODIES);
    run_table(&rt, alloc, REFUSED, BROKEN_VERSIONS);
    run_table(&rt, alloc, REFUSED, BROKEN_ALL_OVER)
}
