//! Designs with background objects: the texts that are made of them, the replays of these texts, and what is refused.

use super::generates::{check_heads, check_texts};
use super::rows::run_table;

/// A hard thread and a client that share an object, and a server that the client calls.
pub const LOGGED: &str =
    "OBJECT h IS CYCLIC ATTRIBUTES PERIOD = 8; DEADLINE = 8; THREAD_BUDGET = 1000; REQUIRES q.set; \
    THREAD q.set; END THREAD; END h; \
    OBJECT q IS PROTECTED PROVIDES set PAER; OPERATION set IS BEGIN work (2); END set; END q; \
    OBJECT idle IS ACTIVE REQUIRES q.set; log.note; THREAD q.set; log.note (1); END THREAD; END idle; \
    OBJECT log IS ACTIVE PROVIDES note (v : in word) HSER; OPERATION note IS BEGIN work (1); END note; END log;";

/// The same in one object.
pub const LOGGED_ROOT: &str = "OBJECT r IS ACTIVE OBJECTS \
    OBJECT h IS CYCLIC ATTRIBUTES PERIOD = 8; DEADLINE = 8; THREAD_BUDGET = 1000; REQUIRES q.set; THREAD q.set; END THREAD; END h; \
    OBJECT q IS PROTECTED PROVIDES set PAER; OPERATION set IS BEGIN work (2); END set; END q; \
    OBJECT idle IS ACTIVE REQUIRES q.set; log.note; THREAD q.set; log.note (1); END THREAD; END idle; \
    OBJECT log IS ACTIVE PROVIDES note (v : in word) HSER; OPERATION note IS BEGIN work (1); END note; END log; \
    END r;";

/// What both do, and so does a program with the same tasks.
pub const LOGGED_TRACE: &str = "arrivals: UNTIL 16;
    out: 0 release h
    out: 0 release idle
    out: 2 enter h q.set
    out: 4 leave h q.set
    out: 5 end h used 5
    out: 7 enter idle q.set
    out: 8 release h
    out: 9 leave idle q.set
    out: 11 enter h q.set
    out: 13 leave h q.set
    out: 14 end h used 5
    out: 16 enter idle log.note 1
    out: 16 release h
    out: 16 horizon";

/// Two clients of one server.
pub const TURNS: &str = "OBJECT a IS ACTIVE REQUIRES srv.f; THREAD srv.f; END THREAD; END a; \
    OBJECT b IS ACTIVE REQUIRES srv.f; THREAD srv.f; END THREAD; END b; \
    OBJECT srv IS ACTIVE PROVIDES f HSER; OPERATION f IS BEGIN work (1); END f; END srv;";

/// What rows of designs of which a text is made have.
const MADE: &str = "words: background d
    status: done";

/// Designs without background objects: their texts are those of `generate`.
const OWN: &[&str] = &[
    "name: one cyclic object
    told: ada",
    "name: a design of every kind of object
    whole: @every kind
    told: every kind text",
    "name: times with units and a range of priorities
    head: TICK = 500 us; PRIORITIES 31 .. 60;
    root: @milliseconds
    priority: 31
    told: ada",
];

/// The heads of texts: bounds of the hard threads alone, in which the sections of clients count.
const HEADS: &[&str] = &[
    "name: a hard thread, a client, an object of both and a server
    children: @logged
    why: 5 ticks of its own and the 2 of the section of idle
    out: -- design d
    out: -- thread h priority 2 jitter 0 response 7 deadline 8
    out: pragma task_dispatching_policy (fifo_within_priorities);",
    "name: two clients below a hard thread have one priority, and the thread is above them both
    children: OBJECT a IS ACTIVE THREAD null; END THREAD; END a; OBJECT b IS ACTIVE THREAD null; END THREAD; END b; \
        OBJECT h IS CYCLIC ATTRIBUTES PERIOD = 8; DEADLINE = 8; THREAD_BUDGET = 1000; THREAD null; END THREAD; END h;
    out: -- design d
    out: -- thread h priority 3 jitter 0 response 2 deadline 8
    out: pragma task_dispatching_policy (fifo_within_priorities);",
    "name: clients alone have no bounds
    children: @turns
    out: -- design d
    out: pragma task_dispatching_policy (fifo_within_priorities);",
    "name: a range of priorities that leaves just room
    head: TICK = 1 ms; PRIORITIES 10 .. 11;
    root: @logged root
    out: -- design d
    out: -- thread h priority 11 jitter 0 response 7 deadline 8
    out: pragma task_dispatching_policy (fifo_within_priorities);",
];

/// What rows of designs whose texts are replayed have.
const REPLAYED: &str = "words: background d
    arrivals: UNTIL 16;";

/// Designs whose texts are replayed.
const TRACES: &[&str] = &[
    "name: a client that runs again and again below a hard thread
    children: @logged
    why: idle is inside q at 8, where h waits for its end; it has called the server for one tick of two when h comes again at 8, and ends its \
        call at 16
    like: logged trace",
    "name: two clients and a server that both call take turns
    children: @turns
    arrivals: UNTIL 12;
    why: a call of two ticks, one in the server, and the one of the end; each is released where it ends, behind the other
    out: 0 release a
    out: 0 release b
    out: 2 enter a srv.f
    out: 3 leave a srv.f
    out: 4 end a used 4
    out: 4 release a
    out: 6 enter b srv.f
    out: 7 leave b srv.f
    out: 8 end b used 4
    out: 8 release b
    out: 10 enter a srv.f
    out: 11 leave a srv.f
    out: 12 end a used 4
    out: 12 release a
    out: 12 horizon",
];

/// What rows of designs that are refused have.
const REFUSED: &str = "words: background d
    status: refused";

/// Background objects that are wrong.
const MISFITS: &[&str] = &[
    "name: an active object that is neither client nor server
    root: OBJECT a IS ACTIVE END a;
    err: refused A1 a",
    "name: a client with an attribute
    root: OBJECT idle IS ACTIVE ATTRIBUTES PERIOD = 5; THREAD null; END THREAD; END idle;
    err: refused A1 idle",
    "name: a cyclic object that waits for a server
    children: OBJECT srv IS ACTIVE PROVIDES get (v : out Word) HSER; OPERATION get IS BEGIN v := 1; END get; END srv; \
        OBJECT a IS CYCLIC ATTRIBUTES PERIOD = 10; DEADLINE = 10; THREAD_BUDGET = 1000; REQUIRES srv.get; DATA x : word := 0; \
        THREAD srv.get (x); END THREAD; END a;
    err: refused A2 a srv.get",
    "name: a protected object that provides what its callers wait for
    root: OBJECT p IS PROTECTED PROVIDES f HSER; OPERATION f IS BEGIN null; END f; END p;
    err: refused A3 p",
    "name: a client that requests a sporadic object
    children: OBJECT s IS SPORADIC ATTRIBUTES SEPARATION = 50; DEADLINE = 20; THREAD_BUDGET = 1000; ARRIVAL_JITTER = 5; \
        PROVIDES start (v : in word) ASER; THREAD work (4); END THREAD; END s; \
        OBJECT idle IS ACTIVE REQUIRES s.start; THREAD s.start (1); END THREAD; END idle;
    err: refused A4 idle s.start",
    "name: a hard thread with the deadline of clients
    root: OBJECT a IS CYCLIC ATTRIBUTES PERIOD = 1000000000; DEADLINE = 1000000000; THREAD_BUDGET = 1000; THREAD null; END THREAD; END a;
    err: refused A5 a",
    "name: a client that requests a sporadic object by way of a protected one
    children: OBJECT s IS SPORADIC ATTRIBUTES SEPARATION = 50; DEADLINE = 20; THREAD_BUDGET = 1000; \
        PROVIDES start (v : in word) ASER; THREAD work (4); END THREAD; END s; \
        OBJECT q IS PROTECTED PROVIDES set PAER; REQUIRES s.start; OPERATION set IS BEGIN s.start (1); END set; END q; \
        OBJECT idle IS ACTIVE REQUIRES q.set; THREAD q.set; END THREAD; END idle;
    err: refused A6 idle s",
];

/// Other refusals, and which of two is told.
const OTHERS: &[&str] = &[
    "name: the version goes before background objects
    head: TICK = 0 us;
    root: OBJECT a IS ACTIVE END a;
    err: refused V17 tick",
    "name: background objects go before the other rules
    children: OBJECT a IS ACTIVE END a; OBJECT a IS ACTIVE THREAD null; END THREAD; END a;
    err: refused A1 a",
    "name: a client is judged by the rules of its hard part
    root: OBJECT idle IS ACTIVE THREAD y := 1; END THREAD; END idle;
    err: refused V13 idle thread B1",
    "name: a client that costs too much
    root: OBJECT idle IS ACTIVE THREAD for i in word range 1 .. 1001 loop work (1000000); end loop; END THREAD; END idle;
    err: refused V15 cost idle thread",
    "name: clients need priorities, though they share one
    head: TICK = 1 ms; PRIORITIES 10 .. 11;
    root: OBJECT r IS ACTIVE OBJECTS OBJECT a IS ACTIVE THREAD null; END THREAD; END a; OBJECT b IS ACTIVE THREAD null; END THREAD; END b; \
        OBJECT h IS CYCLIC ATTRIBUTES PERIOD = 8; DEADLINE = 8; THREAD_BUDGET = 1000; THREAD null; END THREAD; END h; END r;
    err: refused V15 threads 3",
    "name: the section of a client is too long for a hard thread
    children: OBJECT h IS CYCLIC ATTRIBUTES PERIOD = 8; DEADLINE = 8; THREAD_BUDGET = 1000; REQUIRES q.set; THREAD q.set; END THREAD; END h; \
        OBJECT q IS PROTECTED PROVIDES set PAER; long PAER; OPERATION set IS BEGIN work (2); END set; \
        OPERATION long IS BEGIN work (4); END long; END q; \
        OBJECT idle IS ACTIVE REQUIRES q.long; THREAD q.long; END THREAD; END idle;
    why: 5 ticks of its own and 4 of that section
    err: refused U1 h value 9 limit 8 round 0",
    "name: a text over its limit of a design of 650,000 bytes
    linked: 130000
    err_room: 1000
    err: refused S3 text",
    "name: no design
    whole: DESIGN d
    err: refused S1 design line 1 column 9",
];

/// The other verbs refuse designs with background objects.
const ELSEWHERE: &[&str] = &[
    "name: a client and a server
    words: check d
    children: @logged
    err: refused V05 idle",
    "name: a server
    words: check d
    root: OBJECT srv IS ACTIVE PROVIDES f HSER; OPERATION f IS BEGIN work (1); END f; END srv;
    err: refused V12 srv",
    "name: a client and a server
    words: analyse d
    children: @logged
    err: refused V05 idle",
    "name: a client and a server
    words: generate d
    children: @logged
    err: refused V05 idle",
    "name: a client and a server
    words: verify d r
    children: @logged
    arrivals: UNTIL 16;
    err: refused V05 idle",
];

#[test]
fn designs_without_background_objects(rt: HostRuntime) {
    run_table(&rt, rt.alloc(), MADE, OWN)
}

#[test]
fn heads_of_background_texts(rt: HostRuntime) {
    check_heads(&rt, rt.alloc(), MADE, HEADS)
}

#[test]
fn background_texts_are_replayed(rt: HostRuntime) {
    check_texts(&rt, rt.alloc(), REPLAYED, TRACES)
}

#[test]
fn background_designs_that_are_refused(rt: HostRuntime) {
    let alloc = rt.alloc();
    run_table(&rt, alloc, REFUSED, MISFITS);
    run_table(&rt, alloc, REFUSED, OTHERS);
    run_table(&rt, alloc, REFUSED, ELSEWHERE)
}
