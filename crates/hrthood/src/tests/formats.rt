//! Designs that are printed again, and texts that are no design.

use super::rows::{check_end, check_told, row_text, run_design, run_table};
use super::shapes::design_bytes;
use std::alloc::Global;
use std::process::Abort;

/// What rows of designs that are printed have.
const WRITTEN: &str = "words: format d
    status: done";

/// What rows of texts that are refused have.
const REFUSED: &str = "words: format d
    status: refused";

/// Texts that are no design.
const NO_DESIGNS: &[&str] = &[
    "name: an empty design
    whole:
    err: refused S1 design line 1 column 1",
    "name: the beginning of a design
    whole: DESIGN d
    err: refused S1 design line 1 column 9",
    "name: a nesting too deep
    parenthesised: 64
    err: refused S2 design line 4 column 69",
    "name: objects nested too deep, of which the first stands on line 2
    nested: 65
    err: refused S2 design line 66 column 1",
    "name: as many objects as may be nested, and an end in the place of the next
    nested: 64
    err: refused S1 design line 67 column 1",
    "name: a chain too long
    sum: 33
    err: refused S2 design line 4 column 136",
    "name: a design over its limit
    root: @cyclic
    design_len: 1048577
    err: refused S3 design",
    "name: a number that is too great
    root: @too great
    err: refused L2 design line 9 column 6",
    "name: a unit without a version
    root: @milliseconds
    err: refused S1 design line 2 column 42",
    "name: another version
    whole: DESIGN d VERSION 3 IS
    err: refused S1 design line 1 column 18",
];

/// A design with a number that is too great on its line 9.
pub const TOO_GREAT: &str = "OBJECT a IS CYCLIC
ATTRIBUTES PERIOD = 10;
DEADLINE = 10;
THREAD_BUDGET = 1000;
DATA x : word := 0;
THREAD
null;
x := 4294967296;
END THREAD; END a;";

/// How a small design is printed.
pub const FORMATTED: &str = "DESIGN d IS
   COSTS
      ASSIGN = 1;
      TEST = 1;
      TURN = 1;
      CALL = 2;
      NULL = 1;
      PUT = 1;
      FINISH = 1;
   END COSTS;
   OBJECT a IS CYCLIC
      ATTRIBUTES
         PERIOD = 10;
         DEADLINE = 10;
         THREAD_BUDGET = 1000;
      THREAD
         work (3);
      END THREAD;
   END a;
END d;
";

/// The same design on one line, with comments.
pub const COMMENTED: &str =
    "design d is costs assign = 1; test = 1; turn = 1; call = 2; null = 1; put = 1; finish = 1; end costs; \
    object a is cyclic attributes period = 10; deadline = 10; thread_budget = 1_000; thread work (3); \
    end thread; end a; -- the object\n--\nend d; -- the design";

/// Designs that are printed again.
const PRINTED: &[&str] = &[
    "name: one cyclic object
    root: @cyclic
    told: formatted",
    "name: a design on one line, with comments
    whole: @commented
    told: formatted",
    "name: a design as it is printed
    whole: @formatted
    told: formatted",
    "name: a design that breaks a rule is printed
    head: TICK = 0 S;
    root: OBJECT Task IS Active END task;
    out: DESIGN d VERSION 2 IS
    out:    TICK = 0 s;
    out:    COSTS
    out:       ASSIGN = 1;
    out:       TEST = 1;
    out:       TURN = 1;
    out:       CALL = 2;
    out:       NULL = 1;
    out:       PUT = 1;
    out:       FINISH = 1;
    out:    END COSTS;
    out:    OBJECT task IS ACTIVE
    out:    END task;
    out: END d;",
    "name: a text that is no design isn't printed
    whole: DESIGN d IS COSTS ASSIGN : 1;
    status: refused
    err: refused S1 design line 1 column 26",
];

/// Designs of every form, which are printed again as they were printed.
const STEADY: &[&str] = &[
    "whole: @mine",
    "children: @started",
    "children: @inner calls",
    "children: @inner start",
    "head: TICK = 500 us; PRIORITIES 31 .. 60;
    root: @milliseconds",
    "parenthesised: 63",
    "sum: 32",
    "doubling: 31",
    "root: @cyclic
    design_len: 1048576",
];

#[test]
fn designs_are_printed_or_refused(rt: HostRuntime) {
    let alloc = rt.alloc();
    run_table(&rt, alloc, REFUSED, NO_DESIGNS);
    run_table(&rt, alloc, WRITTEN, PRINTED)
}

/// Looks whether what is printed of a row's design is printed the same once more.
fn check_steady(rt: &impl Abort, alloc: Global, given: &str) {
    let design = design_bytes(rt, alloc, &row_text(rt, alloc, given, ""));
    let once = run_design(rt, alloc, "format d", &design);
    let text = once.out.bytes();
    check_end(rt, &once, "done", b"", given);
    let twice = run_design(rt, alloc, "format d", text);
    check_told(rt, &twice, "done", text, b"", given);
}

#[test]
fn what_is_printed_is_printed_the_same(rt: HostRuntime) {
    for given in STEADY {
        check_steady(&rt, rt.alloc(), given);
    }
}
