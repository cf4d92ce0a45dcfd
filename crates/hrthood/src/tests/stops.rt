//! Replays that stop where a task calls at a priority above the ceiling: the lines up to that are written, and then the call is told.

use super::rows::run_table;

/// What rows of replays that stop have.
const STOPPED: &str = "words: replay a.ada r
    arrivals: UNTIL 32;
    status: refused";

/// Calls above a ceiling. In a row without a `why` the first call of the task that is told takes two ticks from its release.
const CALLS: &[&str] = &[
    "name: a second task above the ceiling of an object, which it finds held
    protected: q 1 set is begin work (3);
    cyclic: l 1 0 20 is begin q.set;
    cyclic: h 2 3 10 is begin q.set;
    out: 0 release l
    out: 2 enter l q.set
    out: 3 release h
    out: 5 stop h q priority 2 ceiling 1
    err: refused C1 time 5 task h object q priority 2 ceiling 1",
    "name: the first call of a task
    protected: q 1 set is begin work (3);
    cyclic: h 2 0 10 is begin q.set;
    out: 0 release h
    out: 2 stop h q priority 2 ceiling 1
    err: refused C1 time 2 task h object q priority 2 ceiling 1",
    "name: a request
    cyclic: p 3 0 50 is begin s.start (7);
    started: s 1 2 50 0 start (v : in word) is begin work (4);
    out: 0 release p
    out: 2 stop p s priority 3 ceiling 2
    err: refused C1 time 2 task p object s priority 3 ceiling 2",
    "name: a call inside a section, at the ceiling of its object
    protected: q 3 set is begin e.set;
    protected: e 2 set is begin null;
    cyclic: l 1 0 50 is begin q.set;
    why: the second call takes two ticks more, at priority 3
    out: 0 release l
    out: 2 enter l q.set
    out: 4 stop l e priority 3 ceiling 2
    err: refused C1 time 4 task l object e priority 3 ceiling 2",
    "name: a request inside a section, at the ceiling of its object
    protected: q 3 set is begin s.start (1);
    cyclic: l 1 0 50 is begin q.set;
    started: s 1 1 50 0 start (v : in word) is begin null;
    why: the request is called in 2 and 3, at priority 3
    out: 0 release l
    out: 2 enter l q.set
    out: 4 stop l s priority 3 ceiling 1
    err: refused C1 time 4 task l object s priority 3 ceiling 1",
    "name: a call in a branch that is taken in the second activation
    protected: q 1 set is begin null;
    cyclic: a 2 0 10 is n : word := 0; begin n := n + 1; if n = 2 then q.set; end if;
    why: an assignment, a test and the end take three ticks; at 10 the assignment, the test and the call take four
    out: 0 release a
    out: 3 end a used 3
    out: 10 release a
    out: 14 stop a q priority 2 ceiling 1
    err: refused C1 time 14 task a object q priority 2 ceiling 1",
    "name: a task that was requested
    protected: q 1 set is begin null;
    cyclic: p 1 0 50 is begin s.start (7);
    started: s 2 2 50 0 start (v : in word) is begin put (v); q.set;
    why: s puts in 4 and calls in 5 and 6
    out: 0 release p
    out: 4 request p s 7
    out: 4 release s 7
    out: 5 put s 7
    out: 7 stop s q priority 2 ceiling 1
    err: refused C1 time 7 task s object q priority 2 ceiling 1",
    "name: at the horizon, of which nothing is told then
    protected: q 1 set is begin null;
    cyclic: h 2 0 10 is begin q.set;
    arrivals: UNTIL 2;
    out: 0 release h
    out: 2 stop h q priority 2 ceiling 1
    err: refused C1 time 2 task h object q priority 2 ceiling 1",
    "name: a release at the same instant, of which nothing is told then
    protected: q 1 set is begin null;
    cyclic: h 2 0 10 is begin q.set;
    cyclic: l 1 2 10 is begin null;
    why: effects come before releases
    out: 0 release h
    out: 2 stop h q priority 2 ceiling 1
    err: refused C1 time 2 task h object q priority 2 ceiling 1",
];

/// What the run would come to behind its horizon, and output that takes no more.
const ENDS: &[&str] = &[
    "name: the horizon before a call above a ceiling
    protected: q 1 set is begin null;
    cyclic: h 2 0 10 is begin q.set;
    arrivals: UNTIL 1;
    status: done
    out: 0 release h
    out: 1 horizon",
    "name: a full sink has the beginning of a trace that stops
    protected: q 1 set is begin work (3);
    cyclic: l 1 0 20 is begin q.set;
    cyclic: h 2 3 10 is begin q.set;
    room: 30
    status: write fault
    out: 0 release l
    out: 2 enter l q.set
    out: 3 release h
    err: fault writing",
    "name: a sink without room for the last byte of the stop
    protected: q 1 set is begin null;
    cyclic: h 2 0 10 is begin q.set;
    room: 43
    status: write fault
    why: the lines have 12 and 32 bytes
    out: 0 release h
    out: 2 stop h q priority 2 ceiling 1
    err: fault writing",
    "name: a sink with room for just the stop
    protected: q 1 set is begin null;
    cyclic: h 2 0 10 is begin q.set;
    room: 44
    out: 0 release h
    out: 2 stop h q priority 2 ceiling 1
    err: refused C1 time 2 task h object q priority 2 ceiling 1",
    "name: arrivals that are refused before anything is written
    protected: q 1 set is begin null;
    cyclic: h 2 0 10 is begin q.set;
    arrivals: UNTIL 20; AT 1 h;
    err: refused Q2 line 1 h",
];

#[test]
fn calls_above_a_ceiling_stop(rt: HostRuntime) {
    let alloc = rt.alloc();
    run_table(&rt, alloc, STOPPED, CALLS);
    run_table(&rt, alloc, STOPPED, ENDS)
}
