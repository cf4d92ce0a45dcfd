//! Texts of designs, and designs that are refused.

use super::rows::run_table;

/// What rows of designs of which a text is made have.
const MADE: &str = "words: generate d
    status: done";

/// What rows of designs that are refused have.
const REFUSED: &str = "words: generate d
    status: refused";

/// Examples of `generate` by files and words.
const TEXTS: &[&str] = &[
    "name: the text of one cyclic object
    told: ada",
    "name: a design at its limit
    design_len: 1048576
    told: ada",
    "name: an activation of its budget
    attributes: PERIOD = 50; DEADLINE = 50; THREAD_BUDGET = 12;
    thread: work (11);
    period: 50
    deadline: 50
    response: 12
    block: work (11);
    told: ada",
    "name: a full sink has the beginning of an Ada text
    room: 30
    status: write fault
    told: ada
    err: fault writing",
    "name: a design that can't be fetched
    fails: 0
    status: read fault
    err: fault reading d",
    "name: an absent design
    words: generate e
    status: read fault
    err: fault reading e",
    "name: a design is missing
    like: no command
    words: generate",
    "name: a design that begins with a dash
    like: no command
    words: generate -d",
    "name: a design too many
    like: no command
    words: generate d d",
    "name: a check of two designs
    like: no command
    words: check a b",
    "name: arrivals are missing
    like: no command
    words: verify a",
    "name: a word for help, which is no verb
    like: no command
    words: help",
];

/// Designs that are refused for their text, their attributes or their length.
const REFUSED_SOURCES: &[&str] = &[
    "name: a design over its limit
    design_len: 1048577
    err: refused S3 design",
    "name: an empty design
    whole:
    err: refused S1 design line 1 column 1",
    "name: the beginning of a design
    whole: DESIGN d
    err: refused S1 design line 1 column 9",
    "name: a period is missing
    attributes: DEADLINE = 10; THREAD_BUDGET = 1000;
    err: refused V11 a",
    "name: a period twice
    attributes: PERIOD = 10; PERIOD = 10; DEADLINE = 10; THREAD_BUDGET = 1000;
    err: refused V11 a",
    "name: a period of nothing
    attributes: PERIOD = 0; DEADLINE = 10; THREAD_BUDGET = 1000;
    err: refused V11 a",
    "name: a period that is too long
    attributes: PERIOD = 1000000001; DEADLINE = 10; THREAD_BUDGET = 1000;
    err: refused V11 a",
    "name: a deadline over the period
    attributes: PERIOD = 10; DEADLINE = 11; THREAD_BUDGET = 1000;
    err: refused V11 a",
];

/// Designs of one object that are refused for a rule or a bound.
const REFUSED_OBJECTS: &[&str] = &[
    "name: an object with the design's name
    object: D
    err: refused V01 d",
    "name: an object with a reserved name
    object: task
    err: refused V02 task",
    "name: an object with a kept name
    object: hrt_x
    err: refused V02 hrt_x",
    "name: work of nothing
    thread: work (0);
    err: refused V11 a",
    "name: a cost of nothing
    null: 0
    err: refused V11 costs",
    "name: a cost that is too great
    null: 1001
    err: refused V11 costs",
    "name: an activation over its budget
    attributes: PERIOD = 50; DEADLINE = 50; THREAD_BUDGET = 10;
    thread: work (11);
    err: refused V14 a cost 12 budget 10",
    "name: an activation that is too dear
    attributes: PERIOD = 1000000000; DEADLINE = 1000000000; THREAD_BUDGET = 1000000000;
    thread: work (1000000000);
    err: refused V15 cost a thread",
    "name: a response over its deadline
    attributes: PERIOD = 50; DEADLINE = 5; THREAD_BUDGET = 1000;
    thread: work (5);
    err: refused U1 a value 6 limit 5 round 0",
];

#[test]
fn designs_are_written_or_refused(rt: HostRuntime) {
    let alloc = rt.alloc();
    run_table(&rt, alloc, MADE, TEXTS);
    run_table(&rt, alloc, REFUSED, REFUSED_SOURCES);
    run_table(&rt, alloc, REFUSED, REFUSED_OBJECTS)
}
