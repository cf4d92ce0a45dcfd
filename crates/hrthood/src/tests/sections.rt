//! Replays of protected objects: sections, their ceilings, and sections inside others. The traces were derived by hand: a row's `why` says
//! how, where the trace is not that of a schedule that was worked out before the program was there.

use super::replays::{REFUSED, REPLAYED};
use super::rows::{check_bytes, check_end, row_text, run_design, run_table};
use super::shapes::design_bytes;
use super::texts::ada_bytes;
use std::alloc::Global;
use std::process::Abort;

/// Two threads and an object, of which each activation of the first meets a section of the second.
pub const SECTION_AT_THE_END: &str =
    "OBJECT l IS CYCLIC ATTRIBUTES PERIOD = 20; DEADLINE = 20; THREAD_BUDGET = 1000; REQUIRES q.set; THREAD q.set; END THREAD; END l; \
     OBJECT h IS CYCLIC ATTRIBUTES PERIOD = 10; OFFSET = 3; DEADLINE = 9; THREAD_BUDGET = 1000; REQUIRES q.set; THREAD q.set; \
     END THREAD; END h; OBJECT q IS PROTECTED PROVIDES set PAER; OPERATION set IS BEGIN work (3); END set; END q;";

/// Three threads and two objects, of which the first thread uses both.
pub const TWO_OBJECTS: &str =
    "OBJECT x IS CYCLIC ATTRIBUTES PERIOD = 40; OFFSET = 2; DEADLINE = 20; THREAD_BUDGET = 1000; REQUIRES q1.set; q2.set; \
     THREAD q1.set; q2.set; END THREAD; END x; OBJECT y IS CYCLIC ATTRIBUTES PERIOD = 40; OFFSET = 4; DEADLINE = 30; \
     THREAD_BUDGET = 1000; REQUIRES q2.set; THREAD q2.set; END THREAD; END y; OBJECT z IS CYCLIC ATTRIBUTES PERIOD = 40; DEADLINE = 40; \
     THREAD_BUDGET = 1000; REQUIRES q1.set; THREAD q1.set; END THREAD; END z; OBJECT q1 IS PROTECTED PROVIDES set PAER; \
     OPERATION set IS BEGIN work (2); END set; END q1; OBJECT q2 IS PROTECTED PROVIDES set PAER; OPERATION set IS BEGIN work (2); \
     END set; END q2;";

/// Worked schedules: each with a design, the units of its Ada text, and the trace. Their designs are analysed in `analyses.rt`.
pub fn worked() -> &'static [&'static str] {
    WORKED
}

const WORKED: &[&str] = &[
    "name: a task waits for the section of one of lower priority, the second time at the end of its activation
    children: @section at the end
    protected: q 2 set is begin work (3);
    cyclic: l 1 0 20 is begin q.set;
    cyclic: h 2 3 10 is begin q.set;
    arrivals: UNTIL 32;
    out: 0 release l
    out: 2 enter l q.set
    out: 3 release h
    out: 5 leave l q.set
    out: 7 enter h q.set
    out: 10 leave h q.set
    out: 11 end h used 6
    out: 12 end l used 6
    out: 13 release h
    out: 15 enter h q.set
    out: 18 leave h q.set
    out: 19 end h used 6
    out: 20 release l
    out: 22 enter l q.set
    out: 23 release h
    out: 25 leave l q.set
    out: 27 enter h q.set
    out: 30 leave h q.set
    out: 31 end h used 6
    out: 32 end l used 6
    out: 32 horizon",
    "name: a task that enters at the instant of a release goes before the task that is released
    children: @two objects
    protected: q1 3 set is begin work (2);
    protected: q2 3 set is begin work (2);
    cyclic: x 3 2 40 is begin q1.set; q2.set;
    cyclic: y 2 4 40 is begin q2.set;
    cyclic: z 1 0 40 is begin q1.set;
    out: 0 release z
    out: 2 enter z q1.set
    out: 2 release x
    out: 4 leave z q1.set
    out: 4 release y
    out: 6 enter x q1.set
    out: 8 leave x q1.set
    out: 10 enter x q2.set
    out: 12 leave x q2.set
    out: 13 end x used 9
    out: 15 enter y q2.set
    out: 17 leave y q2.set
    out: 18 end y used 5
    out: 19 end z used 5
    out: 20 horizon",
    "name: a task that requests another of greater priority
    children: @started
    cyclic: p 1 0 50 is begin s.start (7);
    started: s 2 2 50 0 start (v : in word) is begin work (4);
    like: started trace",
    "name: a protected operation that calls another, for which a task waits
    children: @inner calls
    protected: q 1 set is begin work (2); e.set; work (1);
    protected: e 2 set is begin work (2);
    cyclic: l 1 0 40 is begin q.set;
    cyclic: h 2 7 20 is begin e.set;
    out: 0 release l
    out: 2 enter l q.set
    out: 6 enter l e.set
    out: 7 release h
    out: 8 leave l e.set
    out: 10 enter h e.set
    out: 12 leave h e.set
    out: 13 end h used 5
    out: 14 leave l q.set
    out: 15 end l used 10
    out: 20 horizon",
    "name: a protected operation that requests a task, which comes when the operation has been left
    children: @inner start
    protected: q 1 set is begin s.start (7);
    cyclic: p 1 0 50 is begin q.set;
    started: s 2 2 50 0 start (v : in word) is begin work (4);
    arrivals: UNTIL 15;
    out: 0 release p
    out: 2 enter p q.set
    out: 6 request p s 7
    out: 6 release s 7
    out: 6 leave p q.set
    out: 11 end s used 5
    out: 12 end p used 7
    out: 15 horizon",
];

/// Sections at a ceiling.
const SECTIONS: &[&str] = &[
    "name: a protected unit beside a passive one
    like: protected
    why: the section takes 2 and 3, the call of the passive operation 4 and 5, its body 6, and the end of the activation 7
    out: 0 release a
    out: 2 enter a q.set
    out: 4 leave a q.set
    out: 8 end a used 8
    out: 10 release a
    out: 12 enter a q.set
    out: 14 leave a q.set
    out: 18 end a used 8
    out: 20 release a
    out: 20 horizon",
    "name: a task that leaves a section keeps its place before the tasks of its priority
    protected: q 3 set is begin work (2);
    cyclic: x 2 0 40 is begin q.set; null;
    cyclic: y 2 3 40 is begin null;
    arrivals: UNTIL 10;
    out: 0 release x
    out: 2 enter x q.set
    out: 3 release y
    out: 4 leave x q.set
    out: 6 end x used 6
    out: 8 end y used 2
    out: 10 horizon",
    "name: a task that is preempted inside a section goes on in it
    protected: q 1 set is begin work (4);
    cyclic: l 1 0 50 is begin q.set;
    cyclic: h 2 4 50 is begin work (2);
    why: l has worked in 2 and 3 when h comes, whose priority is above the ceiling; h takes 4 to 6, and l works in 7 and 8
    out: 0 release l
    out: 2 enter l q.set
    out: 4 release h
    out: 7 end h used 3
    out: 9 leave l q.set
    out: 10 end l used 7
    out: 20 horizon",
    "name: a release above the ceiling at the instant of an enter
    protected: q 1 set is begin work (2);
    cyclic: l 1 0 50 is begin q.set;
    cyclic: h 2 2 50 is begin null;
    why: l enters at the end of its call, and h comes at the same instant and takes 2 and 3 before the first tick in the section
    out: 0 release l
    out: 2 enter l q.set
    out: 2 release h
    out: 4 end h used 2
    out: 6 leave l q.set
    out: 7 end l used 5
    out: 20 horizon",
    "name: a release at the ceiling at the instant of an enter
    protected: q 2 set is begin work (2);
    cyclic: l 1 0 50 is begin q.set;
    cyclic: h 2 2 50 is begin null;
    why: l has entered at the ceiling, which is the priority of h, and stands before h until it leaves; then h takes 4 and 5
    out: 0 release l
    out: 2 enter l q.set
    out: 2 release h
    out: 4 leave l q.set
    out: 6 end h used 2
    out: 7 end l used 5
    out: 20 horizon",
    "name: a preempted task goes on before the tasks of its priority that came meanwhile
    cyclic: x 2 0 50 is begin work (4);
    cyclic: h 3 1 50 is begin work (2);
    cyclic: y 2 2 50 is begin null;
    why: x works in 0, h takes 1 to 3, and x keeps its place before y: it works in 4 to 6 and ends with 7, and y takes 8 and 9
    out: 0 release x
    out: 1 release h
    out: 2 release y
    out: 4 end h used 3
    out: 8 end x used 5
    out: 10 end y used 2
    out: 20 horizon",
    "name: a task that is released as soon as it ends, below one that uses its object
    protected: q 2 set is begin work (2);
    protected: log 1 note (v : in word) is begin work (1);
    cyclic: h 2 0 8 is begin q.set;
    cyclic: idle 1 0 1 is begin q.set; log.note (1);
    like: logged trace",
    "name: tasks of one priority that are released as soon as they end take turns
    protected: q 1 set is begin null;
    cyclic: a 1 0 1 is begin q.set;
    cyclic: b 1 0 1 is begin null;
    arrivals: UNTIL 10;
    why: an activation of a takes four ticks and one of b two; each comes behind the other when it is released
    out: 0 release a
    out: 0 release b
    out: 2 enter a q.set
    out: 3 leave a q.set
    out: 4 end a used 4
    out: 4 release a
    out: 6 end b used 2
    out: 6 release b
    out: 8 enter a q.set
    out: 9 leave a q.set
    out: 10 end a used 4
    out: 10 release a
    out: 10 horizon",
    "name: a task of priority 60 at a ceiling of 60
    protected: q 60 set is begin work (3);
    cyclic: a 60 0 10 is begin q.set;
    arrivals: UNTIL 10;
    out: 0 release a
    out: 2 enter a q.set
    out: 5 leave a q.set
    out: 6 end a used 6
    out: 10 release a
    out: 10 horizon",
];

/// What is handed to operations and back, and what an object keeps.
const VALUES: &[&str] = &[
    "name: a value that an object hands out and one that it keeps
    protected: q 1 swap (v : in word; w : out word) is last : word := 7; begin w := last; last := v;
    cyclic: a 1 0 10 is x : word := 3; begin q.swap (x, x); put (x);
    why: two assignments inside the section and an output behind it; the second activation hands in the 7 that the first took out
    out: 0 release a
    out: 2 enter a q.swap 3
    out: 4 leave a q.swap 7
    out: 5 put a 7
    out: 6 end a used 6
    out: 10 release a
    out: 12 enter a q.swap 7
    out: 14 leave a q.swap 3
    out: 15 put a 3
    out: 16 end a used 6
    out: 20 release a
    out: 20 horizon",
    "name: a value that an object hands out and never assigns
    protected: q 1 get (w : out word) is last : word := 7; begin null;
    cyclic: a 1 0 50 is x : word := 3; begin q.get (x); put (x);
    out: 0 release a
    out: 2 enter a q.get
    out: 3 leave a q.get 0
    out: 4 put a 0
    out: 5 end a used 5
    out: 20 horizon",
    "name: an object that two tasks write
    protected: q 2 add (v : in word; w : out word) is sum : word := 0; begin sum := sum + v; w := sum;
    cyclic: l 1 0 50 is x : word := 0; begin q.add (1, x); q.add (2, x); put (x);
    cyclic: h 2 4 50 is y : word := 0; begin q.add (4, y); put (y);
    why: the first section of l takes 2 and 3, and then h takes 4 to 9; l calls in 10 and 11, its second section takes 12 and 13
    out: 0 release l
    out: 2 enter l q.add 1
    out: 4 leave l q.add 1
    out: 4 release h
    out: 6 enter h q.add 4
    out: 8 leave h q.add 5
    out: 9 put h 5
    out: 10 end h used 6
    out: 12 enter l q.add 2
    out: 14 leave l q.add 7
    out: 15 put l 7
    out: 16 end l used 10
    out: 20 horizon",
    "name: a loop with sections
    protected: q 1 add (v : in word; w : out word) is sum : word := 5; begin sum := sum + v; w := sum;
    cyclic: a 1 0 50 is x : word := 0; begin for i in word range 1 .. 2 loop q.add (i * 10, x); put (x); end loop;
    why: a turn takes one tick, its call two, the section two, and the output one
    out: 0 release a
    out: 3 enter a q.add 10
    out: 5 leave a q.add 15
    out: 6 put a 15
    out: 9 enter a q.add 20
    out: 11 leave a q.add 35
    out: 12 put a 35
    out: 13 end a used 13
    out: 20 horizon",
    "name: a loop inside a section that is left early, and an output there
    protected: q 1 find (v : in word; w : out word) is begin for k in word range 1 .. 9 loop w := k; exit when k = v; end loop; put (w);
    cyclic: a 1 0 50 is x : word := 0; begin q.find (2, x); put (x + 1);
    why: a turn, an assignment and a test take three ticks, twice; the output inside takes 8
    out: 0 release a
    out: 2 enter a q.find 2
    out: 9 put a 2
    out: 9 leave a q.find 2
    out: 10 put a 3
    out: 11 end a used 11
    out: 20 horizon",
    "name: durations of statements that a task starts in a section
    protected: q 1 set is begin work (3);
    cyclic: l 1 0 50 is begin work (3); q.set; work (3);
    arrivals: UNTIL 20; WORK l 1, 2;
    why: the first of its statements takes one tick, the second, in the section, two, and the third its three
    out: 0 release l
    out: 3 enter l q.set
    out: 5 leave l q.set
    out: 9 end l used 9
    out: 20 horizon",
];

/// Sections inside others.
const NESTED: &[&str] = &[
    "name: priorities are given back in order
    protected: q 2 set is begin e.set; work (2);
    protected: e 3 set is begin work (3);
    cyclic: l 1 0 50 is begin q.set;
    cyclic: m 2 4 50 is begin work (1);
    cyclic: h 3 5 50 is begin work (2);
    why: l is at ceiling 3 from 4 to 7, and then at 2, where h goes before it and m does not: h takes 7 to 9, l works in 10 and 11
    out: 0 release l
    out: 2 enter l q.set
    out: 4 enter l e.set
    out: 4 release m
    out: 5 release h
    out: 7 leave l e.set
    out: 10 end h used 3
    out: 12 leave l q.set
    out: 14 end m used 2
    out: 15 end l used 10
    out: 20 horizon",
    "name: two sections of one ceiling that are left at one instant
    protected: q 2 set is begin e.set;
    protected: e 2 set is begin work (2);
    cyclic: l 1 0 50 is begin q.set;
    cyclic: h 2 5 50 is begin null;
    why: both calls take two ticks, the work 4 and 5; h stands behind l until both are left, and takes 6 and 7
    out: 0 release l
    out: 2 enter l q.set
    out: 4 enter l e.set
    out: 5 release h
    out: 6 leave l e.set
    out: 6 leave l q.set
    out: 8 end h used 2
    out: 9 end l used 7
    out: 20 horizon",
    "name: values through three objects
    protected: q 1 f (v : in word; w : out word) is n : word := 1; begin e.f (v + n, w); n := w;
    protected: e 1 f (v : in word; w : out word) is m : word := 2; begin g.f (v + m, w); m := w;
    protected: g 1 f (v : in word; w : out word) is begin w := v * 2;
    cyclic: a 1 0 50 is x : word := 4; begin q.f (x, x); put (x);
    why: 4 + 1 and 5 + 2 are handed in, 14 is handed out; each call takes two ticks, and each assignment one
    out: 0 release a
    out: 2 enter a q.f 4
    out: 4 enter a e.f 5
    out: 6 enter a g.f 7
    out: 7 leave a g.f 14
    out: 8 leave a e.f 14
    out: 9 leave a q.f 14
    out: 10 put a 14
    out: 11 end a used 11
    out: 20 horizon",
    "name: an object that calls two others, one after the other
    protected: q 1 set is begin e.set; g.set;
    protected: e 2 set is begin work (1);
    protected: g 3 set is begin work (1);
    cyclic: l 1 0 50 is begin q.set;
    cyclic: h 3 4 50 is begin null;
    why: h comes above the ceiling of e, and takes 4 and 5; then l works in 6, calls in 7 and 8, and works in 9
    out: 0 release l
    out: 2 enter l q.set
    out: 4 enter l e.set
    out: 4 release h
    out: 6 end h used 2
    out: 7 leave l e.set
    out: 9 enter l g.set
    out: 10 leave l g.set
    out: 10 leave l q.set
    out: 11 end l used 9
    out: 20 horizon",
];

/// Horizons within sections, far ones, and output that takes no more.
const ENDS: &[&str] = &[
    "name: the horizon within a section
    protected: q 1 set is begin work (3);
    cyclic: l 1 0 50 is begin q.set;
    arrivals: UNTIL 4;
    out: 0 release l
    out: 2 enter l q.set
    out: 4 horizon",
    "name: the horizon at the instant of a leave
    protected: q 1 set is begin work (3);
    cyclic: l 1 0 50 is begin q.set;
    arrivals: UNTIL 5;
    out: 0 release l
    out: 2 enter l q.set
    out: 5 leave l q.set
    out: 5 horizon",
    "name: the farthest horizon, idle but for a section
    protected: q 1 set is begin work (3);
    cyclic: l 1 0 1000000000 is begin q.set;
    arrivals: UNTIL 1000000000;
    out: 0 release l
    out: 2 enter l q.set
    out: 5 leave l q.set
    out: 6 end l used 6
    out: 1000000000 release l
    out: 1000000000 horizon",
    "name: the farthest horizon, nearly all of it in a section
    protected: q 1 set is begin work (999999997);
    cyclic: l 1 0 1000000000 is begin q.set;
    arrivals: UNTIL 1000000000;
    why: two ticks of the call before the section and one of the end behind it
    out: 0 release l
    out: 2 enter l q.set
    out: 999999999 leave l q.set
    out: 1000000000 end l used 1000000000
    out: 1000000000 release l
    out: 1000000000 horizon",
    "name: a full sink has the beginning of a trace with sections
    protected: q 2 set is begin work (3);
    cyclic: l 1 0 20 is begin q.set;
    cyclic: h 2 3 10 is begin q.set;
    room: 30
    status: write fault
    why: the first two lines have 28 bytes
    out: 0 release l
    out: 2 enter l q.set
    out: 3 release h
    err: fault writing",
    "name: a sink that is full at the end of a line
    protected: q 2 set is begin work (3);
    cyclic: l 1 0 20 is begin q.set;
    cyclic: h 2 3 10 is begin q.set;
    room: 28
    status: write fault
    out: 0 release l
    out: 2 enter l q.set
    err: fault writing",
];

/// Programs with protected units that are refused.
const UNTAKEN: &[&str] = &[
    "name: a ceiling of 61
    protected: q 61 set is begin null;
    cyclic: a 60 0 10 is begin q.set;
    err: refused G5 q",
    "name: a ceiling of nothing
    protected: q 0 set is begin null;
    cyclic: a 1 0 10 is begin null;
    err: refused G5 q",
    "name: protected units that call each other in a ring
    protected: q 1 set is begin e.set;
    protected: e 1 set is begin q.set;
    cyclic: a 1 0 10 is begin q.set;
    err: refused G3 q",
    "name: a passive unit that calls a protected one
    passive: p f is begin q.set;
    protected: q 1 set is begin null;
    cyclic: a 1 0 10 is begin p.f;
    err: refused G2 p",
];

#[test]
fn sections_are_run(rt: HostRuntime) {
    let alloc = rt.alloc();
    run_table(&rt, alloc, REPLAYED, worked());
    run_table(&rt, alloc, REPLAYED, SECTIONS);
    run_table(&rt, alloc, REPLAYED, VALUES);
    run_table(&rt, alloc, REPLAYED, NESTED);
    run_table(&rt, alloc, REPLAYED, ENDS);
    run_table(&rt, alloc, REFUSED, UNTAKEN)
}

/// What a text says, without white space and the comments before it.
fn said(rt: &impl Abort, alloc: Global, text: &[u8]) -> Vec<u8> {
    let mut all = Vec::new(alloc);
    let mut in_comment = false;
    for byte in text {
        match *byte {
            b'-' => in_comment = true,
            b'\n' => in_comment = false,
            b' ' => {}
            _ if in_comment => {}
            other => all.push(other).expect(rt, "memory"),
        }
    }
    all
}

/// Looks whether the text of a row's design says what the text of its units does.
fn check_text(rt: &impl Abort, alloc: Global, given: &str) {
    let row = row_text(rt, alloc, given, REPLAYED);
    let units = said(rt, alloc, &ada_bytes(rt, alloc, &row));
    let told = run_design(rt, alloc, "generate d", &design_bytes(rt, alloc, &row));
    let text = told.out.bytes();
    check_end(rt, &told, "done", b"", given);
    check_bytes(rt, &said(rt, alloc, text), &units, given);
}

/// The designs of the worked schedules have the Ada texts of their units.
#[test]
fn designs_have_the_texts_of_their_units(rt: HostRuntime) {
    for given in worked() {
        check_text(&rt, rt.alloc(), given);
    }
}
