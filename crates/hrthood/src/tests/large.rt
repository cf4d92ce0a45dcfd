//! Replays of programs whose calls are nested deep, and of long traces that stop. Their rows are made by counting.

use super::replays::REPLAYED;
use super::rows::run_table;
use super::texts::{counted, joined};
use std::alloc::Global;
use std::process::Abort;

/// 400 passive units, of which each calls the next one twice.
fn doubled(rt: &impl Abort, alloc: Global) -> String {
    let units = counted(
        rt,
        alloc,
        1,
        400,
        "passive: p{k} f is begin p{next}.f; p{next}.f;\n",
    );
    joined(
        rt,
        alloc,
        &[
            "name: calls of more ticks than any horizon\n",
            &units,
            "passive: p400 f is begin null;
            cyclic: a 1 0 100 is begin p1.f;
            arrivals: UNTIL 100;
            out: 0 release a
            out: 100 horizon",
        ],
    )
}

/// A task that holds 400 protected objects at once, of which each calls the next one. Each call takes two ticks as it goes down the chain,
/// and it takes none to come up again.
fn held(rt: &impl Abort, alloc: Global) -> String {
    let units = counted(
        rt,
        alloc,
        1,
        400,
        "protected: p{k} 1 f is begin p{next}.f;\n",
    );
    let enters = counted(rt, alloc, 1, 401, "out: {twice} enter a p{k}.f\n");
    let leaves = counted(rt, alloc, 1, 401, "out: 801 leave a p{left}.f\n");
    joined(
        rt,
        alloc,
        &[
            "name: sections inside 399 others\n",
            &units,
            "protected: p400 1 f is begin null;
            cyclic: a 1 0 2000 is begin p1.f;
            arrivals: UNTIL 1000;
            out: 0 release a\n",
            &enters,
            &leaves,
            "out: 802 end a used 802
            out: 1000 horizon",
        ],
    )
}

/// A task that calls above a ceiling in its activation behind 200 of three ticks each: an assignment, a test and the end. Their lines have
/// more than 5,000 bytes.
fn stopped(rt: &impl Abort, alloc: Global) -> String {
    let activations = counted(
        rt,
        alloc,
        1,
        200,
        "out: {k}0 release a\nout: {k}3 end a used 3\n",
    );
    joined(
        rt,
        alloc,
        &[
            "name: a stop behind 200 activations
            protected: q 1 set is begin null;
            cyclic: a 2 0 10 is n : word := 0; begin n := n + 1; if n = 201 then q.set; end if;
            arrivals: UNTIL 5000;
            status: refused
            out: 0 release a
            out: 3 end a used 3\n",
            &activations,
            "out: 2000 release a
            out: 2004 stop a q priority 2 ceiling 1
            err: refused C1 time 2004 task a object q priority 2 ceiling 1",
        ],
    )
}

fn check_large(rt: &impl Abort, alloc: Global, row: &str) {
    run_table(rt, alloc, REPLAYED, &[row])
}

#[test]
fn large_programs_are_run(rt: HostRuntime) {
    let alloc = rt.alloc();
    check_large(&rt, alloc, &doubled(&rt, alloc));
    check_large(&rt, alloc, &held(&rt, alloc));
    check_large(&rt, alloc, &stopped(&rt, alloc))
}
