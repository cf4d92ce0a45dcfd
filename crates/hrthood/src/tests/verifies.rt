//! Designs that are verified: the text of each, and the trace of that text.

use super::rows::{check_told, lines, row_text, run_design, run_row, run_table};
use super::shapes::design_bytes;
use std::alloc::Global;
use std::process::Abort;

/// What rows of designs that are verified have. `out` is the trace.
pub const VERIFIED: &str = "words: verify d r
    arrivals: UNTIL 20;
    status: done";

/// The line between the text and the trace.
const MARK: &[u8] = b"-- trace\n";

/// What a thread does that another starts.
pub const STARTED_TRACE: &str = "arrivals: UNTIL 12;
    out: 0 release p
    out: 4 request p s 7
    out: 4 release s 7
    out: 9 end s used 5
    out: 10 end p used 5
    out: 12 horizon";

/// Two requests from outside, of which the second comes as soon as it may behind one that is late by its jitter.
pub const LATE_REQUEST: &str = "r: UNTIL 600;
    r: AT 0 s 1;
    r: AT 495 s 1;
    out: 0 arrive s 1
    out: 0 release s 1
    out: 5 end s used 5
    out: 495 arrive s 1
    out: 495 release s 1
    out: 500 end s used 5
    out: 600 horizon";

/// Designs with their traces.
const TRACES: &[&str] = &[
    "name: one cyclic task
    out: 0 release a
    out: 4 end a used 4
    out: 10 release a
    out: 14 end a used 4
    out: 20 release a
    out: 20 horizon",
    "name: a thread that starts another
    children: @started
    like: started trace",
    "name: two threads that share an object
    children: @section at the end
    arrivals: UNTIL 13;
    out: 0 release l
    out: 2 enter l q.set
    out: 3 release h
    out: 5 leave l q.set
    out: 7 enter h q.set
    out: 10 leave h q.set
    out: 11 end h used 6
    out: 12 end l used 6
    out: 13 release h
    out: 13 horizon",
    "name: requests from outside, one of them late by its jitter
    root: OBJECT s IS SPORADIC ATTRIBUTES SEPARATION = 500; DEADLINE = 20; THREAD_BUDGET = 1000; ARRIVAL_JITTER = 5; \
        PROVIDES start (v : in word) ASER; THREAD work (4); END THREAD; END s;
    like: late request",
    "name: the mine pump
    whole: @mine
    r: UNTIL 100;
    r: AT 30 water_handler 1;
    out: 0 release flow_sensor
    out: 0 release ch4_sensor
    out: 0 release co_sensor
    out: 0 release air_flow
    out: 9 enter ch4_sensor ch4_status.write 7
    out: 10 leave ch4_sensor ch4_status.write
    out: 13 enter ch4_sensor motor.set_safety 0
    out: 15 leave ch4_sensor motor.set_safety
    out: 16 end ch4_sensor used 16
    out: 25 enter co_sensor data_logger.log 3
    out: 29 leave co_sensor data_logger.log
    out: 30 end co_sensor used 14
    out: 30 arrive water_handler 1
    out: 30 release water_handler 1
    out: 36 enter air_flow ch4_status.read
    out: 37 leave air_flow ch4_status.read 7
    out: 39 end air_flow used 9
    out: 41 enter water_handler motor.set_pump 1
    out: 43 leave water_handler motor.set_pump
    out: 45 enter water_handler data_logger.log 1
    out: 49 leave water_handler data_logger.log
    out: 50 end water_handler used 11
    out: 57 enter flow_sensor motor.state
    out: 58 leave flow_sensor motor.state 1
    out: 60 enter flow_sensor data_logger.log 1
    out: 64 leave flow_sensor data_logger.log
    out: 65 end flow_sensor used 15
    out: 80 release ch4_sensor
    out: 89 enter ch4_sensor ch4_status.write 14
    out: 90 leave ch4_sensor ch4_status.write
    out: 93 enter ch4_sensor motor.set_safety 0
    out: 95 leave ch4_sensor motor.set_safety
    out: 96 end ch4_sensor used 16
    out: 100 release co_sensor
    out: 100 release air_flow
    out: 100 horizon",
];

/// Designs and arrivals that are refused, and files and streams that fail.
const REFUSED: &[&str] = &[
    "name: a rule that is broken goes before the arrivals
    root: OBJECT a IS ACTIVE END a;
    arrivals: UNTIL
    status: refused
    err: refused V12 a",
    "name: bounds that are not met
    thread: work (10);
    status: refused
    err: refused U1 a value 11 limit 10 round 0",
    "name: a text of arrivals that breaks off
    arrivals: UNTIL
    status: refused
    err: refused S1 arrivals line 1 column 6",
    "name: a request of what is not requested from outside
    arrivals: UNTIL 20; AT 0 a;
    status: refused
    err: refused Q2 line 1 a",
    "name: a design that can't be read
    whole: @mine
    fails: 0
    status: read fault
    err: fault reading d",
    "name: arrivals that can't be read
    whole: @mine
    fails: 1
    status: read fault
    err: fault reading r",
    "name: a full sink has the beginning of the text
    room: 30
    status: write fault
    told: ada
    err: fault writing",
];

pub fn traces() -> &'static [&'static str] {
    TRACES
}

/// What a row wants to be written: the text that `generate` makes of its design, the line between, and the trace.
fn wanted(rt: &impl Abort, alloc: Global, row: &str) -> Vec<u8> {
    let made = run_design(rt, alloc, "generate d", &design_bytes(rt, alloc, row));
    let mut all = made.out.bytes().to_vec(alloc).expect(rt, "memory");
    all.extend_from_slice(MARK).expect(rt, "memory");
    all.extend_from_slice(&lines(rt, alloc, row, "out"))
        .expect(rt, "memory");
    all
}

/// Looks at what is told of a row's design.
fn check_verified(rt: &impl Abort, alloc: Global, given: &str) {
    let row = row_text(rt, alloc, given, VERIFIED);
    let wanted = wanted(rt, alloc, &row);
    let told = run_row(rt, alloc, &row);
    check_told(rt, &told, "done", &wanted, b"", given);
}

#[test]
fn traces_of_designs(rt: HostRuntime) {
    for given in traces() {
        check_verified(&rt, rt.alloc(), given);
    }
}

#[test]
fn designs_that_are_not_verified(rt: HostRuntime) {
    run_table(&rt, rt.alloc(), VERIFIED, REFUSED)
}
