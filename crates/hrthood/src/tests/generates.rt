//! Designs of every kind of object, and the Ada texts that are made of them.

use super::rows::{
    arrivals_bytes, check_end, check_replay, check_that, lines, row_text, run_row, run_table,
};
use super::texts::{ASKED_BODY, ASKED_SPEC, HRT, MAIN};
use super::verifies::traces;
use std::alloc::Global;
use std::process::Abort;

/// A passive, a protected, a cyclic and a sporadic object.
pub const EVERY_KIND: &str = "DESIGN d IS
COSTS ASSIGN = 1; TEST = 1; TURN = 1; CALL = 2; NULL = 1; PUT = 1; FINISH = 1; END COSTS;
OBJECT whole IS ACTIVE
OBJECTS
  OBJECT p IS PASSIVE
  PROVIDES next (a : in word; r : out word);
  OPERATION next IS t : word := 1; BEGIN r := a * 3 + t; END next;
  END p;
  OBJECT q IS PROTECTED
  PROVIDES set (v : in word) PAER;
  DATA last : word := 0;
  OPERATION set IS BEGIN last := v; END set;
  END q;
  OBJECT c IS CYCLIC
  ATTRIBUTES PERIOD = 100; DEADLINE = 100; THREAD_BUDGET = 20;
  REQUIRES p.next; s.start;
  DATA x : word := 0;
  THREAD p.next (x, x); s.start (x); END THREAD;
  END c;
  OBJECT s IS SPORADIC
  ATTRIBUTES SEPARATION = 50; DEADLINE = 50; THREAD_BUDGET = 20;
  PROVIDES start (v : in word) ASER;
  REQUIRES q.set;
  THREAD q.set (v); work (4); END THREAD;
  END s;
END whole;
END d;
";

/// The text of its program. The request takes 2 ticks of the structure of `s`, which `s` can meet: it responds within 10. In the 8 ticks of
/// `c` come the 8 of one activation of `s`, and `s` inherits those 16.
pub const EVERY_KIND_TEXT: &[&str] = &[
    "-- design d
-- thread s priority 2 jitter 16 response 10 deadline 50
-- thread c priority 1 jitter 0 response 16 deadline 100
",
    HRT,
    "package d is
   package p is
      procedure next (a : in word; r : out word);
   end p;
   package q is
      protected hrt_object is
         pragma priority (2);
         procedure set (v : in word);
      private
         last : word := 0;
      end hrt_object;
      procedure set (v : in word) renames hrt_object.set;
   end q;
   package c is
      task hrt_thread is
         pragma priority (1);
      end hrt_thread;
   end c;
   package s is
      protected hrt_obcs is
         pragma priority (2);
",
    ASKED_SPEC,
    "         pragma priority (2);
      end hrt_thread;
      hrt_separation : constant := 50;
      hrt_jitter : constant := 0;
      hrt_external : constant boolean := false;
   end s;
end d;
package body d is
   package body p is
      procedure next (a : in word; r : out word) is
         t : word := 1;
      begin
         r := a * 3 + t;
      end next;
   end p;
   package body q is
      protected body hrt_object is
         procedure set (v : in word) is
         begin
            last := v;
         end set;
      end hrt_object;
   end q;
   package body c is
      x : word := 0;
      task body hrt_thread is
         hrt_next : hrt.moment := hrt.after (hrt.epoch, 0);
      begin
         loop
            delay until hrt_next;
            hrt_next := hrt.after (hrt_next, 100);
            p.next (x, x);
            s.start (x);
            activation_end;
         end loop;
      end hrt_thread;
   end c;
",
    ASKED_BODY,
    "            q.set (v);
            work (4);
            activation_end;
         end loop;
      end hrt_thread;
   end s;
",
    MAIN,
];

/// What rows of designs of which a text is made have.
const MADE: &str = "words: generate d
    status: done";

/// Designs under `generate`.
const GENERATED: &[&str] = &[
    "name: a design of every kind of object
    whole: @every kind
    told: every kind text",
    "name: times with units and a range of priorities
    head: TICK = 500 us; PRIORITIES 31 .. 60;
    root: @milliseconds
    priority: 31
    told: ada",
    "name: the rounds of the last of three threads
    children: OBJECT a IS CYCLIC ATTRIBUTES PERIOD = 7; DEADLINE = 7; THREAD_BUDGET = 1000; THREAD work (2); END THREAD; END a; \
        OBJECT b IS CYCLIC ATTRIBUTES PERIOD = 12; DEADLINE = 12; THREAD_BUDGET = 1000; THREAD work (2); END THREAD; END b; \
        OBJECT c IS CYCLIC ATTRIBUTES PERIOD = 20; DEADLINE = 20; THREAD_BUDGET = 1000; THREAD work (5); END THREAD; END c;
    status: refused
    err: refused U1 c value 21 limit 20 round 3",
    "name: jitter and response over the separation
    root: OBJECT s IS SPORADIC ATTRIBUTES SEPARATION = 10; DEADLINE = 10; THREAD_BUDGET = 1000; ARRIVAL_JITTER = 6; \
        PROVIDES start (v : in word) ASER; THREAD work (4); END THREAD; END s;
    status: refused
    err: refused U2 s value 11 limit 10 round 0",
    "name: a text over its limit of a design of 650,000 bytes
    linked: 130000
    err_room: 1000
    status: refused
    err: refused S3 text",
    "name: a rule that is broken goes before bounds
    root: OBJECT a IS ACTIVE END a;
    status: refused
    err: refused V12 a",
];

/// The heads of texts: the comments before the first line of the program.
const HEADS: &[&str] = &[
    "name: a thread that starts another
    children: @started
    out: -- design d
    out: -- thread s priority 2 jitter 10 response 7 deadline 20
    out: -- thread p priority 1 jitter 0 response 10 deadline 50
    out: pragma task_dispatching_policy (fifo_within_priorities);",
    "name: the mine pump
    whole: @mine
    out: -- design mine
    out: -- thread ch4_sensor priority 6 jitter 0 response 23 deadline 30
    out: -- thread alarm_console priority 5 jitter 23 response 29 deadline 50
    out: -- thread co_sensor priority 4 jitter 0 response 45 deadline 60
    out: -- thread air_flow priority 3 jitter 0 response 55 deadline 100
    out: -- thread water_handler priority 2 jitter 5 response 72 deadline 200
    out: -- thread flow_sensor priority 1 jitter 0 response 128 deadline 900
    out: pragma task_dispatching_policy (fifo_within_priorities);",
];

#[test]
fn texts_of_designs(rt: HostRuntime) {
    run_table(&rt, rt.alloc(), MADE, GENERATED)
}

/// Looks at the head of the text of a row's design, where rows have these keys too.
fn check_head(rt: &impl Abort, alloc: Global, usual: &str, given: &str) {
    let row = row_text(rt, alloc, given, usual);
    let head = lines(rt, alloc, &row, "out");
    let told = run_row(rt, alloc, &row);
    let text = told.out.bytes();
    check_end(rt, &told, "done", b"", given);
    check_that(rt, text.starts_with(&head), given);
}

/// Looks at the heads of texts, of a table whose rows have these keys too.
pub fn check_heads(rt: &impl Abort, alloc: Global, usual: &str, table: &[&str]) {
    for given in table {
        check_head(rt, alloc, usual, given);
    }
}

#[test]
fn heads_of_texts_of_designs(rt: HostRuntime) {
    check_heads(&rt, rt.alloc(), MADE, HEADS)
}

/// What rows of designs whose texts are replayed have.
const GENERATES: &str = "words: generate d
    arrivals: UNTIL 20;";

/// A design whose text is replayed.
const REPLAYED: &[&str] = &[
    "name: a design of every kind of object
    whole: @every kind
    why: the passive operation takes 0 to 2 and hands out 1; the call and the request of s take 3 to 6, its section 9, its work 10 to 13
    out: 0 release c
    out: 7 request c s 1
    out: 7 release s 1
    out: 9 enter s q.set 1
    out: 10 leave s q.set
    out: 15 end s used 8
    out: 16 end c used 8
    out: 20 horizon",
];

/// Makes the text of a row's design, where rows have these keys too, and looks at its replay.
fn check_made(rt: &impl Abort, alloc: Global, usual: &str, given: &str) {
    let row = row_text(rt, alloc, given, usual);
    let arrivals = arrivals_bytes(rt, alloc, &row);
    let trace = lines(rt, alloc, &row, "out");
    let made = run_row(rt, alloc, &row);
    let text = made.out.bytes();
    check_end(rt, &made, "done", b"", given);
    check_replay(rt, alloc, text, &arrivals, &trace, given)
}

/// Makes texts and looks at their replays, of a table whose rows have these keys too.
pub fn check_texts(rt: &impl Abort, alloc: Global, usual: &str, table: &[&str]) {
    for given in table {
        check_made(rt, alloc, usual, given);
    }
}

/// The text of a design that one command writes another replays. Traces of other designs are those that `verify` has of them.
#[test]
fn texts_of_designs_are_replayed(rt: HostRuntime) {
    let alloc = rt.alloc();
    check_texts(&rt, alloc, GENERATES, REPLAYED);
    check_texts(&rt, alloc, GENERATES, traces())
}
