//! Replays of tasks that other tasks request. The traces were derived by hand: a row's `why` says how.

use super::replays::REPLAYED;
use super::rows::run_table;

/// Requests of tasks, and what they release.
const STARTS: &[&str] = &[
    "name: a sporadic unit that another unit requests
    like: starting
    why: a call of two ticks and a request of two; s takes five and a the one of its end, each period the same
    out: 0 release a
    out: 4 request a s 7
    out: 4 release s 7
    out: 9 end s used 5
    out: 10 end a used 5
    out: 10 release a
    out: 14 request a s 7
    out: 14 release s 7
    out: 19 end s used 5
    out: 20 end a used 5
    out: 20 release a
    out: 20 horizon",
    "name: a request without a value
    cyclic: p 1 0 50 is begin s.start;
    started: s 2 2 50 0 start is begin work (2);
    out: 0 release p
    out: 4 request p s
    out: 4 release s
    out: 7 end s used 3
    out: 8 end p used 5
    out: 20 horizon",
    "name: a second request before the release replaces the value
    cyclic: p 2 0 50 is begin s.start (1); s.start (2); s.start (3);
    started: s 1 2 50 0 start (v : in word) is begin put (v); put (v * 10);
    why: the first request releases s, which comes when p has ended; of the others, which wait for its end, it gets the last
    out: 0 release p
    out: 4 request p s 1
    out: 4 release s 1
    out: 8 request p s 2
    out: 12 request p s 3
    out: 13 end p used 13
    out: 14 put s 1
    out: 15 put s 10
    out: 16 end s used 3
    out: 16 release s 3
    out: 17 put s 3
    out: 18 put s 30
    out: 19 end s used 3
    out: 20 horizon",
    "name: a task whose control structure is open is released when it ends
    cyclic: p 2 0 10 is n : word := 0; begin n := n + 1; s.start (n);
    started: s 1 2 10 0 start (v : in word) is begin work (5);
    why: p takes six ticks of each ten, so that s has four ticks before the second request and its last two behind it
    out: 0 release p
    out: 5 request p s 1
    out: 5 release s 1
    out: 6 end p used 6
    out: 10 release p
    out: 15 request p s 2
    out: 16 end p used 6
    out: 18 end s used 6
    out: 18 release s 2
    out: 20 release p
    out: 20 horizon",
    "name: a task that a requested task requests
    cyclic: p 1 0 50 is begin s.start (1);
    started: s 2 2 50 0 start (v : in word) is begin t.start (v + 1);
    started: t 3 3 50 0 start (v : in word) is begin put (v);
    why: s calls and requests in 4 to 7, t takes 8 and 9, and the ends of s and of p 10 and 11
    out: 0 release p
    out: 4 request p s 1
    out: 4 release s 1
    out: 8 request s t 2
    out: 8 release t 2
    out: 9 put t 2
    out: 10 end t used 2
    out: 11 end s used 5
    out: 12 end p used 5
    out: 20 horizon",
    "name: two tasks that request one
    cyclic: p 1 0 50 is begin s.start (1);
    cyclic: r 2 3 50 is begin s.start (2);
    started: s 3 3 50 0 start (v : in word) is begin null;
    why: r comes while p is at the ceiling, and goes before the end of p: the second request finds s waiting once more
    out: 0 release p
    out: 3 release r
    out: 4 request p s 1
    out: 4 release s 1
    out: 6 end s used 2
    out: 10 request r s 2
    out: 10 release s 2
    out: 12 end s used 2
    out: 13 end r used 5
    out: 14 end p used 5
    out: 20 horizon",
];

/// Requests at a ceiling, and inside sections.
const CEILINGS: &[&str] = &[
    "name: a task of the ceiling waits while another requests
    cyclic: p 1 0 50 is begin s.start (7);
    cyclic: h 2 3 50 is begin null;
    started: s 2 2 50 0 start (v : in word) is begin work (4);
    why: p is at the ceiling in 2 and 3; then h, which came first, goes before s
    out: 0 release p
    out: 3 release h
    out: 4 request p s 7
    out: 4 release s 7
    out: 6 end h used 2
    out: 11 end s used 5
    out: 12 end p used 5
    out: 20 horizon",
    "name: a release at the instant at which a request begins
    cyclic: p 1 0 50 is begin s.start (7);
    cyclic: h 2 2 50 is begin null;
    started: s 2 2 50 0 start (v : in word) is begin work (4);
    why: p comes to the ceiling at 2, and so stands before h up to 4
    out: 0 release p
    out: 2 release h
    out: 4 request p s 7
    out: 4 release s 7
    out: 6 end h used 2
    out: 11 end s used 5
    out: 12 end p used 5
    out: 20 horizon",
    "name: a task that is requested in a section of its priority comes behind it
    protected: q 2 set is begin s.start (7); work (2);
    cyclic: p 1 0 50 is begin q.set;
    started: s 2 2 50 0 start (v : in word) is begin work (4);
    why: s is released at 6 behind p, which is at ceiling 2 and stands before the others of that priority until it has worked in 6 and 7
    out: 0 release p
    out: 2 enter p q.set
    out: 6 request p s 7
    out: 6 release s 7
    out: 8 leave p q.set
    out: 13 end s used 5
    out: 14 end p used 9
    out: 20 horizon",
    "name: a task that is requested in a section of lower ceiling comes within it
    protected: q 1 set is begin s.start (7); work (2);
    cyclic: p 1 0 50 is begin q.set;
    started: s 2 2 50 0 start (v : in word) is begin work (4);
    why: s takes 6 to 10, and the section goes on in 11 and 12
    out: 0 release p
    out: 2 enter p q.set
    out: 6 request p s 7
    out: 6 release s 7
    out: 11 end s used 5
    out: 13 leave p q.set
    out: 14 end p used 9
    out: 20 horizon",
    "name: two sections that end with a request are left before the task that it releases
    protected: q 1 set is begin e.set;
    protected: e 1 set is begin s.start (7);
    cyclic: p 1 0 50 is begin q.set;
    started: s 2 2 50 0 start (v : in word) is begin work (4);
    why: three calls take 0 to 5 and the request 6 and 7; at 8 nothing more of e and q takes a tick, and s takes 8 to 12
    out: 0 release p
    out: 2 enter p q.set
    out: 4 enter p e.set
    out: 8 request p s 7
    out: 8 release s 7
    out: 8 leave p e.set
    out: 8 leave p q.set
    out: 13 end s used 5
    out: 14 end p used 9
    out: 20 horizon",
    "name: a loop of requests inside a section
    protected: q 2 set is begin for i in word range 1 .. 2 loop s.start (i); end loop;
    cyclic: p 1 0 50 is begin q.set;
    started: s 2 2 50 0 start (v : in word) is begin put (v);
    why: a turn and a request take five ticks; at 12 the second waits, as s, released at 7, stands behind p until it has left
    out: 0 release p
    out: 2 enter p q.set
    out: 7 request p s 1
    out: 7 release s 1
    out: 12 request p s 2
    out: 12 leave p q.set
    out: 13 put s 1
    out: 14 end s used 2
    out: 14 release s 2
    out: 15 put s 2
    out: 16 end s used 2
    out: 17 end p used 13
    out: 20 horizon",
];

/// Requests from outside among sections and requests of tasks.
const OUTSIDE: &[&str] = &[
    "name: a request from outside waits for a section, with its value
    protected: board 2 note (v : in word) is last : word := 0; begin last := v; work (2);
    cyclic: l 1 0 50 is begin board.note (1);
    external: s 2 2 50 0 press (v : in word) is begin board.note (v);
    r: UNTIL 20;
    r: AT 3 s 9;
    why: the section of l takes 2 to 4; s calls in 5 and 6, and its section takes 7 to 9
    out: 0 release l
    out: 2 enter l board.note 1
    out: 3 arrive s 9
    out: 3 release s 9
    out: 5 leave l board.note
    out: 7 enter s board.note 9
    out: 10 leave s board.note
    out: 11 end s used 6
    out: 12 end l used 6
    out: 20 horizon",
    "name: a request from outside with durations that run short
    protected: board 2 note (v : in word) is last : word := 0; begin last := v; work (2);
    external: s 2 2 10 0 press (v : in word) is begin work (4); board.note (v);
    r: UNTIL 20;
    r: WORK s 2, 1, 9;
    r: AT 0 s 5;
    r: AT 10 s 6;
    why: the work of the first activation takes 2 and, in the section, 1; that of the second its 4, which are below 9, and 2
    out: 0 arrive s 5
    out: 0 release s 5
    out: 4 enter s board.note 5
    out: 6 leave s board.note
    out: 7 end s used 7
    out: 10 arrive s 6
    out: 10 release s 6
    out: 16 enter s board.note 6
    out: 19 leave s board.note
    out: 20 end s used 10
    out: 20 horizon",
    "name: a release by time, one from outside and one by a request at one instant
    cyclic: p 1 0 50 is begin s.start (1);
    cyclic: c 2 4 50 is begin null;
    started: s 2 2 50 0 start (v : in word) is begin null;
    external: x 2 2 50 0 press (v : in word) is begin null;
    r: UNTIL 20;
    r: AT 4 x 3;
    why: at 4 the request takes effect first, then comes c and then x; each takes two ticks in that order
    out: 0 release p
    out: 4 request p s 1
    out: 4 release s 1
    out: 4 release c
    out: 4 arrive x 3
    out: 4 release x 3
    out: 6 end s used 2
    out: 8 end c used 2
    out: 10 end x used 2
    out: 11 end p used 5
    out: 20 horizon",
    "name: the horizon within a request
    cyclic: p 1 0 50 is begin s.start (7);
    started: s 2 2 50 0 start (v : in word) is begin work (4);
    arrivals: UNTIL 3;
    out: 0 release p
    out: 3 horizon",
    "name: the horizon at the instant of a request
    cyclic: p 1 0 50 is begin s.start (7);
    started: s 2 2 50 0 start (v : in word) is begin work (4);
    arrivals: UNTIL 4;
    out: 0 release p
    out: 4 request p s 7
    out: 4 release s 7
    out: 4 horizon",
    "name: a full sink has the beginning of a trace with requests
    cyclic: p 1 0 50 is begin s.start (7);
    started: s 2 2 50 0 start (v : in word) is begin work (4);
    room: 30
    status: write fault
    why: the first line has 12 bytes, and the second 16
    out: 0 release p
    out: 4 request p s 7
    out: 4 release s 7
    err: fault writing",
];

#[test]
fn tasks_are_started(rt: HostRuntime) {
    let alloc = rt.alloc();
    run_table(&rt, alloc, REPLAYED, STARTS);
    run_table(&rt, alloc, REPLAYED, CEILINGS);
    run_table(&rt, alloc, REPLAYED, OUTSIDE)
}
