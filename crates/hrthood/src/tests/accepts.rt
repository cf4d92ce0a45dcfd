//! Traces that are judged: those that a design's machine allows, and the first part that others break.

use super::rows::{check_told, judge, lines, row_text, run_table};
use super::verifies::{VERIFIED, traces};
use std::alloc::Global;
use std::process::Abort;

/// What rows of a thread that starts another have.
const STARTED: &str = "words: accepts d r t
    children: @started
    arrivals: UNTIL 12;
    status: refused";

/// Traces of a thread that starts another: two that are allowed, and one for each part that a trace may break, and for each order of two parts.
const JUDGED: &[&str] = &[
    "name: what the processor does
    status: done
    t: 0 release p
    t: 4 request p s 7
    t: 4 release s 7
    t: 9 end s used 5
    t: 10 end p used 5
    t: 12 horizon
    out: yes lines 6",
    "name: what a processor without priorities might do
    status: done
    t: 0 release p
    t: 4 request p s 7
    t: 4 release s 7
    t: 5 end p used 5
    t: 10 end s used 5
    t: 12 horizon
    out: yes lines 6",
    "name: a thread that takes a tick too many
    t: 0 release p
    t: 4 request p s 7
    t: 4 release s 7
    t: 9 end s used 6
    t: 10 end p used 5
    t: 12 horizon
    err: refused T2 d s",
    "name: a release with another value than the request
    t: 0 release p
    t: 4 request p s 7
    t: 4 release s 8
    t: 9 end s used 5
    t: 10 end p used 5
    t: 12 horizon
    err: refused T2 c s",
    "name: a number with a zero before it is none
    t: 0 release p
    t: 4 request p s 7
    t: 4 release s 7
    t: 9 end s used 5
    t: 10 end p used 5
    t: 012 horizon
    err: refused T1 line 6",
    "name: a line of no event goes before all else that is wrong
    t: 5 release p
    t: 4 release nobody
    err: refused T1 line 2",
    "name: a last line without its line feed
    t: 0 release p
    t: 4 request p s 7
    t: 4 release s 7
    t: 9 end s used 5
    t: 10 end p used 5
    t_open: 12 horizon
    err: refused T1 line 6",
    "name: no lines
    err: refused T2 a",
    "name: no horizon
    t: 0 release p
    err: refused T2 a",
    "name: another horizon than that of the arrivals
    t: 0 release p
    t: 4 request p s 7
    t: 4 release s 7
    t: 9 end s used 5
    t: 10 end p used 5
    t: 11 horizon
    err: refused T2 a",
    "name: times that fall go before a release that is missing
    t: 4 request p s 7
    t: 3 release s 7
    t: 12 horizon
    err: refused T2 a",
    "name: a cyclic thread that is not released goes before a request that it did not make
    t: 4 release s 7
    t: 12 horizon
    err: refused T2 b p",
    "name: an arrival that was not said goes before a release with another value
    t: 0 release p
    t: 4 arrive s 7
    t: 4 release s 8
    t: 12 horizon
    err: refused T2 c",
    "name: a request that is not made
    t: 0 release p
    t: 5 end p used 5
    t: 12 horizon
    err: refused T2 d p",
];

/// What rows of two threads that share an object have.
const SHARED: &str = "words: accepts d r t
    children: @section at the end
    arrivals: UNTIL 13;
    status: refused";

/// Traces of two threads that share an object.
const ENTERED: &[&str] = &[
    "name: one operation after the other
    status: done
    t: 0 release l
    t: 2 enter l q.set
    t: 3 release h
    t: 5 leave l q.set
    t: 7 enter h q.set
    t: 10 leave h q.set
    t: 11 end h used 6
    t: 12 end l used 6
    t: 13 release h
    t: 13 horizon
    out: yes lines 10",
    "name: what is put by an object
    t: 0 release l
    t: 2 enter l q.set
    t: 3 release h
    t: 4 put q 1
    t: 13 horizon
    err: refused T2 a",
    "name: two operations inside each other
    t: 0 release l
    t: 2 enter l q.set
    t: 3 release h
    t: 5 enter h q.set
    t: 6 leave l q.set
    t: 8 leave h q.set
    t: 9 end h used 6
    t: 10 end l used 6
    t: 13 release h
    t: 13 horizon
    err: refused T2 e q",
];

/// Designs and arrivals that are refused, and files and streams that fail, before a trace is looked at.
const UNJUDGED: &[&str] = &[
    "name: a rule that is broken goes before the arrivals
    root: OBJECT a IS ACTIVE END a;
    arrivals: UNTIL
    err: refused V12 a",
    "name: a text of arrivals that breaks off goes before the trace
    arrivals: UNTIL
    t: x
    err: refused S1 arrivals line 1 column 6",
    "name: a request of what is not requested from outside goes before the trace
    arrivals: UNTIL 20; AT 0 a;
    t: x
    err: refused Q2 line 1 a",
    "name: a design without bounds has traces all the same
    thread: work (10);
    arrivals: UNTIL 5;
    status: done
    t: 0 release a
    t: 5 horizon
    out: yes lines 2",
    "name: a design that can't be read
    fails: 0
    status: read fault
    err: fault reading d",
    "name: arrivals that can't be read
    fails: 1
    status: read fault
    err: fault reading r",
    "name: a trace that can't be read
    fails: 2
    status: read fault
    err: fault reading t",
    "name: a trace that can't be read goes before a design that is none
    whole: x
    fails: 2
    status: read fault
    err: fault reading t",
];

#[test]
fn traces_of_a_start(rt: HostRuntime) {
    run_table(&rt, rt.alloc(), STARTED, JUDGED)
}

#[test]
fn traces_of_an_object(rt: HostRuntime) {
    run_table(&rt, rt.alloc(), SHARED, ENTERED)
}

/// What rows have whose trace is not looked at.
const BEFORE: &str = "words: accepts d r t
    arrivals: UNTIL 20;
    status: refused";

#[test]
fn what_goes_before_a_trace(rt: HostRuntime) {
    run_table(&rt, rt.alloc(), BEFORE, UNJUDGED)
}

/// Traces that are too long, and one that is just short enough.
const LONG: &[&str] = &[
    "name: a trace of the greatest length
    t: x
    t_len: 16777216
    err: refused T1 line 1",
    "name: a trace that is a byte too long
    t: x
    t_len: 16777217
    err: refused S3 trace",
    "name: a trace that is too long goes before a design that is none
    whole: x
    t_len: 16777217
    err: refused S3 trace",
    "name: a design that is too long goes before a trace that is
    design_len: 1048577
    t_len: 16777217
    err: refused S3 design",
];

#[test]
fn traces_that_are_too_long(rt: HostRuntime) {
    run_table(&rt, rt.alloc(), BEFORE, LONG)
}

/// How many lines these bytes are.
fn line_count(text: &[u8]) -> usize {
    let mut count = 0_usize;
    for byte in text {
        if *byte == b'\n' {
            count = count.saturating_add(1);
        }
    }
    count
}

/// Looks whether the trace that `verify` writes of a row's design is accepted.
fn check_accepted(rt: &impl Abort, alloc: Global, given: &str) {
    let row = row_text(rt, alloc, given, VERIFIED);
    let trace = lines(rt, alloc, &row, "out");
    let told = judge(rt, alloc, &row, &trace);
    let out = format!(in alloc; "yes lines {}\n", line_count(&trace)).expect(rt, "memory");
    check_told(rt, &told, "done", out.as_bytes(), b"", given);
}

/// The trace of each design that is verified, the mine pump among them, is accepted.
#[test]
fn what_verify_writes_is_accepted(rt: HostRuntime) {
    for given in traces() {
        check_accepted(&rt, rt.alloc(), given);
    }
}
