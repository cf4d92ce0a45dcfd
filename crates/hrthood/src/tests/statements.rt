//! Replays of small programs of the sequential language, with traces that were derived by hand.

use super::rows::run_table;

/// What rows of replays have.
const REPLAYED: &str = "words: replay a.ada r
    arrivals: UNTIL 20;
    status: done";

/// Blocks of a task and what they tell.
const BLOCKS: &[&str] = &[
    "name: a sum that wraps
    block: put (4294967295 + 1);
    arrivals: UNTIL 5;
    out: 0 release a
    out: 1 put a 0
    out: 2 end a used 2
    out: 5 horizon",
    "name: an empty loop and a loop that is left
    block: for i in word range 1 .. 0 loop put (i); end loop; for j in word range 1 .. 3 loop exit when j = 1; null; end loop;
    arrivals: UNTIL 5;
    out: 0 release a
    out: 3 end a used 3
    out: 5 horizon",
    "name: a variable that is kept
    vars: y : word := 7;
    block: put (y); y := y * 2; if y > 20 then put (y mod 5); else null; end if;
    arrivals: UNTIL 16;
    out: 0 release a
    out: 1 put a 7
    out: 5 end a used 5
    out: 10 release a
    out: 11 put a 14
    out: 14 put a 3
    out: 15 end a used 5
    out: 16 horizon",
];

/// Every operator, loops in loops, and branches.
const STATEMENTS: &[&str] = &[
    "name: arithmetic and logical operators
    period: 100
    vars: m : word := 4294967295;
    block: put (0 - 1); put (4294967295 * 4294967295); put (m / 2); put (m mod 10); put (m + 1); put (6 and 3); put (6 or 3); \
        put (6 xor 3); put (not 0); put (not m); put (2 + 3 * 4); put ((2 + 3) * 4); put (10 - 3 - 2); put (7 / 2 * 2);
    out: 0 release a
    out: 1 put a 4294967295
    out: 2 put a 1
    out: 3 put a 2147483647
    out: 4 put a 5
    out: 5 put a 0
    out: 6 put a 2
    out: 7 put a 7
    out: 8 put a 5
    out: 9 put a 4294967295
    out: 10 put a 0
    out: 11 put a 14
    out: 12 put a 20
    out: 13 put a 5
    out: 14 put a 6
    out: 15 end a used 15
    out: 20 horizon",
    "name: comparisons
    period: 100
    vars: z : word := 0; m : word := 4294967295;
    block: if z = 0 then put (1); end if; if z /= 0 then put (2); end if; if z < 1 then put (3); end if; if z < 0 then put (4); end if; \
        if z <= 0 then put (5); end if; if m > 4294967294 then put (6); end if; if m > 4294967295 then put (7); end if; \
        if m >= 4294967295 then put (8); end if; if z = 0 and m = 0 then put (9); end if; if z = 0 or m = 0 then put (10); end if; \
        if z = 0 xor m = 0 then put (11); end if; if not (z = 0) then put (12); end if;
    arrivals: UNTIL 25;
    out: 0 release a
    out: 2 put a 1
    out: 5 put a 3
    out: 8 put a 5
    out: 10 put a 6
    out: 13 put a 8
    out: 16 put a 10
    out: 18 put a 11
    out: 20 end a used 20
    out: 25 horizon",
    "name: a loop that is left inside another
    period: 100
    block: for i in word range 1 .. 2 loop for j in word range 1 .. 3 loop exit when j = 2; put (i * 10 + j); end loop; put (i); end loop;
    out: 0 release a
    out: 4 put a 11
    out: 7 put a 1
    out: 11 put a 21
    out: 14 put a 2
    out: 15 end a used 15
    out: 20 horizon",
    "name: each branch of an if
    period: 100
    block: for i in word range 1 .. 4 loop if i = 1 then put (10); elsif i = 2 then put (20); elsif i = 3 then put (30); else put (40); \
        end if; end loop;
    out: 0 release a
    out: 3 put a 10
    out: 7 put a 20
    out: 12 put a 30
    out: 17 put a 40
    out: 18 end a used 18
    out: 20 horizon",
    "name: the block of examples/sequential_task.ada
    period: 100
    vars: sum : word := 0;
    block: for i in word range 1 .. 4 loop exit when i = 4; if i mod 2 = 0 then put (sum + i); else sum := (sum + i) * 2; end if; end loop;
    arrivals: UNTIL 150;
    out: 0 release a
    out: 8 put a 4
    out: 15 end a used 15
    out: 100 release a
    out: 108 put a 24
    out: 115 end a used 15
    out: 150 horizon",
    "name: an activation past the next release time
    block: work (12);
    arrivals: UNTIL 30;
    out: 0 release a
    out: 13 end a used 13
    out: 13 release a
    out: 26 end a used 13
    out: 26 release a
    out: 30 horizon",
];

/// Calls of passive operations.
const CALLS: &[&str] = &[
    "name: a passive unit that nothing calls
    like: gives nothing
    told: trace",
    "name: an out value that is never assigned
    like: gives nothing
    period: 100
    block: p.f (x); put (x);
    out: 0 release a
    out: 4 put a 0
    out: 5 end a used 5
    out: 20 horizon",
    "name: an operation that calls another
    period: 100
    heads: package p is procedure next (v : in word; w : out word); end p; package q is procedure twice (v : in word; w : out word); end q;
    bodies: package body p is procedure next (v : in word; w : out word) is t : word := 1; begin w := v * 3 + t; end next; end p; \
        package body q is procedure twice (v : in word; w : out word) is m : word := 0; begin p.next (v, m); p.next (m, w); end twice; \
        end q;
    vars: x : word := 2; y : word := 0;
    block: q.twice (x, y); put (y); put (x);
    out: 0 release a
    out: 9 put a 22
    out: 10 put a 2
    out: 11 end a used 11
    out: 20 horizon",
    "name: the units of examples/passive_operation.ada
    period: 100
    heads: package filter is procedure smooth (sample : in word; past : in word; mean : out word); end filter;
    bodies: package body filter is procedure smooth (sample : in word; past : in word; \
        mean : out word) is begin mean := (past * 3 + sample) / 4; end smooth; end filter;
    vars: level : word := 0;
    block: for i in word range 1 .. 3 loop filter.smooth (i * 100, level, level); put (level); end loop;
    arrivals: UNTIL 150;
    out: 0 release a
    out: 5 put a 25
    out: 10 put a 68
    out: 15 put a 126
    out: 16 end a used 16
    out: 100 release a
    out: 105 put a 119
    out: 110 put a 139
    out: 115 put a 179
    out: 116 end a used 16
    out: 150 horizon",
    "name: locals that begin afresh
    period: 100
    heads: package p is procedure count (w : out word); end p;
    bodies: package body p is procedure count (w : out word) is n : word := 3; begin n := n + 1; w := n; end count; end p;
    vars: x : word := 0;
    block: p.count (x); put (x); p.count (x); put (x);
    out: 0 release a
    out: 5 put a 4
    out: 10 put a 4
    out: 11 end a used 11
    out: 20 horizon",
    "name: values that change places
    period: 100
    heads: package p is procedure swap (v : in word; u : in word; w : out word; z : out word); end p;
    bodies: package body p is procedure swap (v : in word; u : in word; w : out word; z : out word) is begin w := u; z := v; end swap; \
        end p;
    vars: x : word := 1; y : word := 2;
    block: p.swap (x, y, x, y); put (x); put (y);
    out: 0 release a
    out: 5 put a 2
    out: 6 put a 1
    out: 7 end a used 7
    out: 20 horizon",
    "name: a loop that is left inside a call inside a loop
    period: 100
    heads: package p is procedure find (v : in word; w : out word); end p;
    bodies: package body p is procedure find (v : in word; w : out word) is begin for k in word range 1 .. 5 loop w := k; \
        exit when k = v; end loop; end find; end p;
    vars: x : word := 0;
    block: for i in word range 2 .. 3 loop p.find (i, x); put (x); end loop;
    arrivals: UNTIL 30;
    out: 0 release a
    out: 10 put a 2
    out: 23 put a 3
    out: 24 end a used 24
    out: 30 horizon",
    "name: calls of an operation that takes nothing
    period: 100
    heads: package p is procedure f; end p;
    bodies: package body p is procedure f is begin for k in word range 1 .. 0 loop null; end loop; end f; end p;
    block: for i in word range 1 .. 2 loop p.f; end loop;
    out: 0 release a
    out: 7 end a used 7
    out: 20 horizon",
];

#[test]
fn statements_are_run(rt: HostRuntime) {
    let alloc = rt.alloc();
    run_table(&rt, alloc, REPLAYED, BLOCKS);
    run_table(&rt, alloc, REPLAYED, STATEMENTS);
    run_table(&rt, alloc, REPLAYED, CALLS)
}
