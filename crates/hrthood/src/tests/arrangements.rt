//! Designs under `arrange`: texts by the order of deadlines and by others, and their replays.

use super::analyses::{by_deadline, untaken};
use super::generates::{check_heads, check_texts};
use super::rows::{check_told, row_text, run_design, run_table};
use super::searches::unordered;
use super::shapes::design_bytes;
use super::texts::{ASKED_BODY, ASKED_SPEC, HRT, MAIN};
use std::alloc::Global;
use std::process::Abort;

/// The text of a design that passes by another order than that of deadlines. By that of deadlines `c` goes first, and `s` responds within 10 ticks,
/// which with its jitter of 12 is over its separation of 20. By the other one `s` responds within 5 and `c` within 15: in these may come two
/// activations of `s`, of 5 ticks each.
pub const ARRANGED_TEXT: &[&str] = &[
    "-- design d
-- thread s priority 2 jitter 12 response 5 deadline 20
-- thread c priority 1 jitter 0 response 15 deadline 15
",
    HRT,
    "package d is
   package s is
      protected hrt_obcs is
         pragma priority (2);
",
    ASKED_SPEC,
    "         pragma priority (2);
      end hrt_thread;
      hrt_separation : constant := 20;
      hrt_jitter : constant := 12;
      hrt_external : constant boolean := true;
   end s;
   package c is
      task hrt_thread is
         pragma priority (1);
      end hrt_thread;
   end c;
end d;
package body d is
",
    ASKED_BODY,
    "            work (4);
            activation_end;
         end loop;
      end hrt_thread;
   end s;
   package body c is
      task body hrt_thread is
         hrt_next : hrt.moment := hrt.after (hrt.epoch, 0);
      begin
         loop
            delay until hrt_next;
            hrt_next := hrt.after (hrt_next, 15);
            work (4);
            activation_end;
         end loop;
      end hrt_thread;
   end c;
",
    MAIN,
];

/// What rows of designs of which a text is made have.
const MADE: &str = "words: arrange d
    status: done";

/// What rows of designs that are refused have.
const REFUSED: &str = "words: arrange d
    status: refused";

/// A design that passes by another order than that of deadlines.
const ARRANGED: &[&str] = &[
    "name: a jitter for which the order of deadlines fails
    children: OBJECT s IS SPORADIC ATTRIBUTES SEPARATION = 20; DEADLINE = 20; THREAD_BUDGET = 1000; ARRIVAL_JITTER = 12; \
        PROVIDES start (v : in word) ASER; THREAD work (4); END THREAD; END s; OBJECT c IS CYCLIC ATTRIBUTES PERIOD = 15; DEADLINE = 15; \
        THREAD_BUDGET = 1000; THREAD work (4); END THREAD; END c;
    told: another order text",
];

/// The heads of texts by another order than that of deadlines.
const HEADS: &[&str] = &[
    "name: the same with priorities from 31 on
    head: TICK = 1 ms; PRIORITIES 31 .. 60;
    root: OBJECT r IS ACTIVE OBJECTS OBJECT s IS SPORADIC ATTRIBUTES SEPARATION = 20; DEADLINE = 20; THREAD_BUDGET = 1000; ARRIVAL_JITTER = 12; \
        PROVIDES start (v : in word) ASER; THREAD work (4); END THREAD; END s; OBJECT c IS CYCLIC ATTRIBUTES PERIOD = 15; DEADLINE = 15; \
        THREAD_BUDGET = 1000; THREAD work (4); END THREAD; END c; END r;
    out: -- design d
    out: -- thread s priority 32 jitter 12 response 5 deadline 20
    out: -- thread c priority 31 jitter 0 response 15 deadline 15
    out: pragma task_dispatching_policy (fifo_within_priorities);",
    "name: a thread that is requested from outside between two cyclic ones
    why: by deadlines b is last and responds within 3 + 3 + 3 ticks, which with its jitter of 12 are over its separation of 20; of a and c only c \
        can be last, within 3 + 2 * 3 + 2 * 3 ticks; b responds within 3 + 3
    children: OBJECT a IS CYCLIC ATTRIBUTES PERIOD = 10; DEADLINE = 10; THREAD_BUDGET = 1000; THREAD work (2); END THREAD; END a; \
        OBJECT b IS SPORADIC ATTRIBUTES SEPARATION = 20; DEADLINE = 20; THREAD_BUDGET = 1000; ARRIVAL_JITTER = 12; \
        PROVIDES start (v : in word) ASER; THREAD work (2); END THREAD; END b; OBJECT c IS CYCLIC ATTRIBUTES PERIOD = 16; DEADLINE = 16; \
        THREAD_BUDGET = 1000; THREAD work (2); END THREAD; END c;
    out: -- design d
    out: -- thread a priority 3 jitter 0 response 3 deadline 10
    out: -- thread b priority 2 jitter 12 response 6 deadline 20
    out: -- thread c priority 1 jitter 0 response 15 deadline 16
    out: pragma task_dispatching_policy (fifo_within_priorities);",
];

/// Designs that are refused, besides those that `search` refuses.
const LONG: &[&str] = &[
    "name: a text over its limit of a design of 650,000 bytes
    linked: 130000
    err_room: 1000
    err: refused S3 text",
];

/// What rows of designs whose texts are replayed have.
const ARRANGES: &str = "words: arrange d";

/// A design whose text by another order is replayed.
const REPLAYED: &[&str] = &[
    "name: a jitter for which the order of deadlines fails
    why: s, which is requested at 2, goes before c, which has used 2 of its 5 ticks then
    children: OBJECT s IS SPORADIC ATTRIBUTES SEPARATION = 20; DEADLINE = 20; THREAD_BUDGET = 1000; ARRIVAL_JITTER = 12; \
        PROVIDES start (v : in word) ASER; THREAD work (4); END THREAD; END s; OBJECT c IS CYCLIC ATTRIBUTES PERIOD = 15; DEADLINE = 15; \
        THREAD_BUDGET = 1000; THREAD work (4); END THREAD; END c;
    r: UNTIL 21;
    r: AT 2 s 7;
    out: 0 release c
    out: 2 arrive s 7
    out: 2 release s 7
    out: 7 end s used 5
    out: 10 end c used 5
    out: 15 release c
    out: 20 end c used 5
    out: 21 horizon",
];

#[test]
fn texts_by_another_order(rt: HostRuntime) {
    let alloc = rt.alloc();
    run_table(&rt, alloc, MADE, ARRANGED);
    check_heads(&rt, alloc, MADE, HEADS)
}

#[test]
fn texts_by_another_order_are_replayed(rt: HostRuntime) {
    check_texts(&rt, rt.alloc(), ARRANGES, REPLAYED)
}

/// Looks whether `arrange` writes of a row's design what `generate` writes.
fn check_same(rt: &impl Abort, alloc: Global, given: &str) {
    let row = row_text(rt, alloc, given, "");
    let design = design_bytes(rt, alloc, &row);
    let made = run_design(rt, alloc, "generate d", &design);
    let told = run_design(rt, alloc, "arrange d", &design);
    check_told(rt, &told, "done", made.out.bytes(), b"", given)
}

#[test]
fn designs_that_pass_by_deadlines_have_one_text(rt: HostRuntime) {
    for given in by_deadline() {
        check_same(&rt, rt.alloc(), given);
    }
}

#[test]
fn designs_without_a_text_by_an_order(rt: HostRuntime) {
    let alloc = rt.alloc();
    run_table(&rt, alloc, REFUSED, unordered());
    run_table(&rt, alloc, REFUSED, untaken());
    run_table(&rt, alloc, REFUSED, LONG)
}
