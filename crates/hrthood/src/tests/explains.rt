//! Designs whose bounds are explained, and those that miss them.

use super::analyses::untaken;
use super::rows::run_table;

/// What rows of designs that meet the rules have.
const TAKEN: &str = "words: explain d
    status: done";

/// What rows of designs that are refused have.
const REFUSED: &str = "words: explain d
    status: refused";

/// Designs that keep their limits: the terms of each response time, the slack of each thread, and chains.
const KEPT: &[&str] = &[
    "name: the mine pump
    whole: @mine
    out: thread ch4_sensor priority 6 period 80 deadline 30 jitter 0 cost 21 blocking 2 response 23
    out: blocked ch4_sensor by water_handler in motor.set_pump ticks 2
    out: slack ch4_sensor deadline 7 separation 57
    out: thread alarm_console priority 5 period 80 deadline 50 jitter 23 cost 6 blocking 2 response 29
    out: started alarm_console by ch4_sensor jitter 0 response 23
    out: blocked alarm_console by water_handler in motor.set_pump ticks 2
    out: delayed alarm_console by ch4_sensor window 29 activations 1 ticks 21
    out: slack alarm_console deadline 21 separation 28
    out: thread co_sensor priority 4 period 100 deadline 60 jitter 0 cost 14 blocking 4 response 45
    out: blocked co_sensor by water_handler in data_logger.log ticks 4
    out: delayed co_sensor by ch4_sensor window 45 activations 1 ticks 21
    out: delayed co_sensor by alarm_console window 45 activations 1 ticks 6
    out: slack co_sensor deadline 15 separation 55
    out: thread air_flow priority 3 period 100 deadline 100 jitter 0 cost 10 blocking 4 response 55
    out: blocked air_flow by water_handler in data_logger.log ticks 4
    out: delayed air_flow by ch4_sensor window 55 activations 1 ticks 21
    out: delayed air_flow by alarm_console window 55 activations 1 ticks 6
    out: delayed air_flow by co_sensor window 55 activations 1 ticks 14
    out: slack air_flow deadline 45 separation 45
    out: thread water_handler priority 2 period 6000 deadline 200 jitter 5 cost 11 blocking 4 response 72
    out: blocked water_handler by flow_sensor in data_logger.log ticks 4
    out: delayed water_handler by ch4_sensor window 72 activations 1 ticks 21
    out: delayed water_handler by alarm_console window 72 activations 2 ticks 12
    out: delayed water_handler by co_sensor window 72 activations 1 ticks 14
    out: delayed water_handler by air_flow window 72 activations 1 ticks 10
    out: slack water_handler deadline 128 separation 5923
    out: thread flow_sensor priority 1 period 1000 deadline 900 jitter 0 cost 15 blocking 0 response 128
    out: delayed flow_sensor by ch4_sensor window 128 activations 2 ticks 42
    out: delayed flow_sensor by alarm_console window 128 activations 2 ticks 12
    out: delayed flow_sensor by co_sensor window 128 activations 2 ticks 28
    out: delayed flow_sensor by air_flow window 128 activations 2 ticks 20
    out: delayed flow_sensor by water_handler window 128 activations 1 ticks 11
    out: slack flow_sensor deadline 772 separation 872
    out: chain alarm_console jitter 0 response 29 by ch4_sensor
    out: ceiling motor 6
    out: ceiling ch4_status 6
    out: ceiling data_logger 4
    out: ceiling water_handler 2
    out: ceiling alarm_console 6
    out: utilisation 594",
    "name: a chain of three, by falling priorities
    children: OBJECT a IS CYCLIC ATTRIBUTES PERIOD = 100; DEADLINE = 20; THREAD_BUDGET = 1000; REQUIRES b.go; THREAD work (3); b.go; END \
        THREAD; END a; OBJECT b IS SPORADIC ATTRIBUTES SEPARATION = 100; DEADLINE = 40; THREAD_BUDGET = 1000; PROVIDES go ASER; REQUIRES c.go; \
        THREAD work (4); c.go; END THREAD; END b; OBJECT c IS SPORADIC ATTRIBUTES SEPARATION = 100; DEADLINE = 60; THREAD_BUDGET = 1000; \
        PROVIDES go ASER; THREAD work (5); END THREAD; END c;
    why: a chain takes what its lowest thread does, 17 and 23, and not 8 + 17 and 8 + 17 + 23; the jitters are 0, 8 and 8 + 17; 23/100 is 230
    out: thread a priority 3 period 100 deadline 20 jitter 0 cost 8 blocking 0 response 8
    out: slack a deadline 12 separation 92
    out: thread b priority 2 period 100 deadline 40 jitter 8 cost 9 blocking 0 response 17
    out: started b by a jitter 0 response 8
    out: delayed b by a window 17 activations 1 ticks 8
    out: slack b deadline 23 separation 75
    out: thread c priority 1 period 100 deadline 60 jitter 25 cost 6 blocking 0 response 23
    out: started c by b jitter 8 response 17
    out: delayed c by a window 23 activations 1 ticks 8
    out: delayed c by b window 23 activations 1 ticks 9
    out: slack c deadline 37 separation 52
    out: chain b jitter 0 response 17 by a
    out: chain c jitter 0 response 23 by b a
    out: ceiling b 3
    out: ceiling c 2
    out: utilisation 230",
    "name: a chain of three, by rising priorities
    children: OBJECT a IS CYCLIC ATTRIBUTES PERIOD = 100; DEADLINE = 60; THREAD_BUDGET = 1000; REQUIRES b.go; THREAD work (3); b.go; END \
        THREAD; END a; OBJECT b IS SPORADIC ATTRIBUTES SEPARATION = 100; DEADLINE = 40; THREAD_BUDGET = 1000; PROVIDES go ASER; REQUIRES c.go; \
        THREAD work (4); c.go; END THREAD; END b; OBJECT c IS SPORADIC ATTRIBUTES SEPARATION = 100; DEADLINE = 20; THREAD_BUDGET = 1000; \
        PROVIDES go ASER; THREAD work (5); END THREAD; END c;
    why: the lowest thread of both chains is a, with 23; the jitters are 0, 23 and 23 + 17
    out: thread c priority 3 period 100 deadline 20 jitter 40 cost 6 blocking 2 response 8
    out: started c by b jitter 23 response 17
    out: blocked c by b in c.go ticks 2
    out: slack c deadline 12 separation 52
    out: thread b priority 2 period 100 deadline 40 jitter 23 cost 9 blocking 2 response 17
    out: started b by a jitter 0 response 23
    out: blocked b by a in b.go ticks 2
    out: delayed b by c window 17 activations 1 ticks 6
    out: slack b deadline 23 separation 60
    out: thread a priority 1 period 100 deadline 60 jitter 0 cost 8 blocking 0 response 23
    out: delayed a by c window 23 activations 1 ticks 6
    out: delayed a by b window 23 activations 1 ticks 9
    out: slack a deadline 37 separation 77
    out: chain c jitter 0 response 23 by b a
    out: chain b jitter 0 response 23 by a
    out: ceiling b 2
    out: ceiling c 3
    out: utilisation 230",
    "name: a section inside another
    children: @inner calls
    why: l enters q.set, which enters e.set; the ceiling of q is 1, so e.set blocks, and not q.set
    out: thread h priority 2 period 20 deadline 10 jitter 0 cost 5 blocking 2 response 7
    out: blocked h by l in e.set ticks 2
    out: slack h deadline 3 separation 13
    out: thread l priority 1 period 40 deadline 40 jitter 0 cost 10 blocking 0 response 15
    out: delayed l by h window 15 activations 1 ticks 5
    out: slack l deadline 25 separation 25
    out: ceiling q 1
    out: ceiling e 2
    out: utilisation 500",
    "name: a control structure
    children: OBJECT s IS SPORADIC ATTRIBUTES SEPARATION = 50; DEADLINE = 20; THREAD_BUDGET = 1000; PROVIDES start ASER; THREAD work (4); END \
        THREAD; END s; OBJECT p IS CYCLIC ATTRIBUTES PERIOD = 50; DEADLINE = 50; THREAD_BUDGET = 1000; REQUIRES s.start; THREAD work (3); \
        s.start; END THREAD; END p;
    why: a request is two assignments inside it
    out: thread s priority 2 period 50 deadline 20 jitter 13 cost 5 blocking 2 response 7
    out: started s by p jitter 0 response 13
    out: blocked s by p in s.start ticks 2
    out: slack s deadline 13 separation 30
    out: thread p priority 1 period 50 deadline 50 jitter 0 cost 8 blocking 0 response 13
    out: delayed p by s window 13 activations 1 ticks 5
    out: slack p deadline 37 separation 37
    out: chain s jitter 0 response 13 by p
    out: ceiling s 2
    out: utilisation 260",
    "name: a chain that is requested from outside
    children: OBJECT s IS SPORADIC ATTRIBUTES SEPARATION = 60; DEADLINE = 10; THREAD_BUDGET = 1000; ARRIVAL_JITTER = 7; PROVIDES press ASER; \
        REQUIRES t.go; THREAD work (2); t.go; END THREAD; END s; OBJECT t IS SPORADIC ATTRIBUTES SEPARATION = 60; DEADLINE = 30; THREAD_BUDGET \
        = 1000; PROVIDES go ASER; THREAD work (4); END THREAD; END t;
    out: thread s priority 2 period 60 deadline 10 jitter 7 cost 7 blocking 0 response 7
    out: slack s deadline 3 separation 46
    out: thread t priority 1 period 60 deadline 30 jitter 14 cost 5 blocking 0 response 12
    out: started t by s jitter 7 response 7
    out: delayed t by s window 12 activations 1 ticks 7
    out: slack t deadline 18 separation 34
    out: chain t jitter 7 response 12 by s
    out: ceiling s 2
    out: ceiling t 2
    out: utilisation 200",
    "name: two lower threads with equal sections, of which the first in the design is told
    children: OBJECT q IS PROTECTED PROVIDES set PAER; OPERATION set IS BEGIN work (2); END set; END q; OBJECT z IS CYCLIC ATTRIBUTES PERIOD = \
        50; DEADLINE = 50; THREAD_BUDGET = 1000; REQUIRES q.set; THREAD q.set; END THREAD; END z; OBJECT y IS CYCLIC ATTRIBUTES PERIOD = 40; \
        DEADLINE = 40; THREAD_BUDGET = 1000; REQUIRES q.set; THREAD q.set; END THREAD; END y; OBJECT h IS CYCLIC ATTRIBUTES PERIOD = 20; \
        DEADLINE = 10; THREAD_BUDGET = 1000; REQUIRES q.set; THREAD q.set; END THREAD; END h;
    out: thread h priority 3 period 20 deadline 10 jitter 0 cost 5 blocking 2 response 7
    out: blocked h by z in q.set ticks 2
    out: slack h deadline 3 separation 13
    out: thread y priority 2 period 40 deadline 40 jitter 0 cost 5 blocking 2 response 12
    out: blocked y by z in q.set ticks 2
    out: delayed y by h window 12 activations 1 ticks 5
    out: slack y deadline 28 separation 28
    out: thread z priority 1 period 50 deadline 50 jitter 0 cost 5 blocking 0 response 15
    out: delayed z by h window 15 activations 1 ticks 5
    out: delayed z by y window 15 activations 1 ticks 5
    out: slack z deadline 35 separation 35
    out: ceiling q 3
    out: utilisation 475",
    "name: priorities and ceilings from 31 on
    head: TICK = 1 ms; PRIORITIES 31 .. 60;
    root: OBJECT r IS ACTIVE OBJECTS OBJECT p IS CYCLIC ATTRIBUTES PERIOD = 50; DEADLINE = 50; THREAD_BUDGET = 1000; REQUIRES s.start; \
        THREAD s.start (7); END THREAD; END p; OBJECT s IS SPORADIC ATTRIBUTES SEPARATION = 50; DEADLINE = 20; THREAD_BUDGET = 1000; \
        PROVIDES start (v : in word) ASER; THREAD work (4); END THREAD; END s; END r;
    out: thread s priority 32 period 50 deadline 20 jitter 10 cost 5 blocking 2 response 7
    out: started s by p jitter 0 response 10
    out: blocked s by p in s.start ticks 2
    out: slack s deadline 13 separation 33
    out: thread p priority 31 period 50 deadline 50 jitter 0 cost 5 blocking 0 response 10
    out: delayed p by s window 10 activations 1 ticks 5
    out: slack p deadline 40 separation 40
    out: chain s jitter 0 response 10 by p
    out: ceiling s 32
    out: utilisation 200",
    "name: a full processor
    children: OBJECT a IS CYCLIC ATTRIBUTES PERIOD = 4; DEADLINE = 4; THREAD_BUDGET = 1000; THREAD work (3); END THREAD; END a;
    why: 4/4 is 1000, which is not over 1000, so it comes last
    out: thread a priority 1 period 4 deadline 4 jitter 0 cost 4 blocking 0 response 4
    out: slack a deadline 0 separation 0
    out: utilisation 1000",
    "name: no thread and no protected object
    root: OBJECT q IS PASSIVE PROVIDES f; OPERATION f IS BEGIN null; END f; END q;
    out: utilisation 0",
];

/// Designs that don't: the first value over its limit, and all threads with their response times without limits, as far as ten times them.
const LATE: &[&str] = &[
    "name: a response over its deadline
    children: OBJECT a IS CYCLIC ATTRIBUTES PERIOD = 7; DEADLINE = 7; THREAD_BUDGET = 1000; THREAD work (2); END THREAD; END a; OBJECT b IS \
        CYCLIC ATTRIBUTES PERIOD = 12; DEADLINE = 12; THREAD_BUDGET = 1000; THREAD work (2); END THREAD; END b; OBJECT c IS CYCLIC ATTRIBUTES \
        PERIOD = 20; DEADLINE = 20; THREAD_BUDGET = 1000; THREAD work (5); END THREAD; END c;
    why: 6 + 3 * 3 + 2 * 3 = 21, which solves the equation
    out: miss U1 c value 21 limit 20 round 3
    out: thread a priority 3 period 7 deadline 7 jitter 0 cost 3 blocking 0 response 3
    out: slack a deadline 4 separation 4
    out: thread b priority 2 period 12 deadline 12 jitter 0 cost 3 blocking 0 response 6
    out: delayed b by a window 6 activations 1 ticks 3
    out: slack b deadline 6 separation 6
    out: thread c priority 1 period 20 deadline 20 jitter 0 cost 6 blocking 0 response 21
    out: delayed c by a window 21 activations 3 ticks 9
    out: delayed c by b window 21 activations 2 ticks 6
    out: late c deadline 1 separation 1
    out: utilisation 978",
    "name: a thread that is late by its jitter, and the one that starts it
    children: OBJECT s IS SPORADIC ATTRIBUTES SEPARATION = 20; DEADLINE = 10; THREAD_BUDGET = 1000; PROVIDES start ASER; THREAD work (5); END \
        THREAD; END s; OBJECT p IS CYCLIC ATTRIBUTES PERIOD = 20; DEADLINE = 20; THREAD_BUDGET = 1000; REQUIRES s.start; THREAD work (4); \
        s.start; END THREAD; END p;
    why: p responds in 9 + 6 * ((27 + 27) / 20, rounded up) = 27
    out: miss U2 s value 23 limit 20 round 2
    out: thread s priority 2 period 20 deadline 10 jitter 27 cost 6 blocking 2 response 8
    out: started s by p jitter 0 response 27
    out: blocked s by p in s.start ticks 2
    out: late s deadline 0 separation 15
    out: thread p priority 1 period 20 deadline 20 jitter 0 cost 9 blocking 0 response 27
    out: delayed p by s window 27 activations 3 ticks 18
    out: late p deadline 7 separation 7
    out: chain s jitter 0 response 27 by p
    out: ceiling s 2
    out: utilisation 750",
    "name: a thread over ten times its deadline, and two that need its response time
    children: OBJECT a IS CYCLIC ATTRIBUTES PERIOD = 10; DEADLINE = 10; THREAD_BUDGET = 1000; THREAD work (8); END THREAD; END a; OBJECT b IS \
        CYCLIC ATTRIBUTES PERIOD = 10; DEADLINE = 10; THREAD_BUDGET = 1000; REQUIRES c.go; THREAD work (7); c.go; END THREAD; END b; OBJECT c \
        IS SPORADIC ATTRIBUTES SEPARATION = 10; DEADLINE = 5; THREAD_BUDGET = 1000; PROVIDES go ASER; THREAD work (1); END THREAD; END c;
    why: the values of b are 12, 34, 58, 86 and 123; the jitter of c is the response of b, and delays a
    out: utilisation 2300
    out: miss U1 a value 11 limit 10 round 0
    out: behind c priority 3 period 10 deadline 5 cost 2 blocking 2 by b
    out: blocked c by b in c.go ticks 2
    out: behind a priority 2 period 10 deadline 10 cost 9 blocking 2 by b
    out: blocked a by b in c.go ticks 2
    out: beyond b priority 1 period 10 deadline 10 cost 12 blocking 0 value 123 limit 10 round 4
    out: ceiling c 3",
    "name: a thread over ten times its separation, and below it one that keeps its limits
    children: OBJECT p IS CYCLIC ATTRIBUTES PERIOD = 100; DEADLINE = 100; THREAD_BUDGET = 1000; REQUIRES c.go; THREAD work (35); c.go; END \
        THREAD; END p; OBJECT c IS SPORADIC ATTRIBUTES SEPARATION = 8; DEADLINE = 8; THREAD_BUDGET = 1000; PROVIDES go ASER; THREAD work (1); \
        END THREAD; END c;
    why: the values of p are 40, 50, 64, 70, 74, 76, 78, 80; c has the jitter 78 and the response 4 in round 7, and in the end 80 + 80 is 20 \
        times 8
    out: miss U2 c value 44 limit 8 round 1
    out: beyond c priority 2 period 8 deadline 8 cost 2 blocking 2 value 82 limit 8 round 7
    out: blocked c by p in c.go ticks 2
    out: thread p priority 1 period 100 deadline 100 jitter 0 cost 40 blocking 0 response 80
    out: delayed p by c window 80 activations 20 ticks 40
    out: slack p deadline 20 separation 20
    out: ceiling c 2
    out: utilisation 650",
    "name: a miss in round 0
    root: OBJECT s IS SPORADIC ATTRIBUTES SEPARATION = 10; DEADLINE = 10; THREAD_BUDGET = 1000; ARRIVAL_JITTER = 6; PROVIDES start ASER; THREAD \
        work (4); END THREAD; END s;
    out: miss U2 s value 11 limit 10 round 0
    out: thread s priority 1 period 10 deadline 10 jitter 6 cost 5 blocking 0 response 5
    out: late s deadline 0 separation 1
    out: ceiling s 1
    out: utilisation 500",
];

#[test]
fn bounds_are_explained(rt: HostRuntime) {
    let alloc = rt.alloc();
    run_table(&rt, alloc, TAKEN, KEPT);
    run_table(&rt, alloc, TAKEN, LATE);
    run_table(&rt, alloc, REFUSED, untaken())
}
