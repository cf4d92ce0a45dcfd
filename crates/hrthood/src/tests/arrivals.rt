//! Replays under arrivals: requests from outside, durations and horizons, and what is refused.

use super::replays::{REFUSED, REPLAYED};
use super::rows::{check_replay, lines, row_text, run_table};
use super::texts::ada_text;

/// Requests from outside, and what they release.
const REQUESTS: &[&str] = &[
    "name: a request that is late by its jitter
    like: late request
    separation: 500
    jitter: 5
    block: work (4);",
    "name: a request before a task of lower priority
    like: requested
    arrivals: UNTIL 20; AT 1 s 7;
    out: 0 release a
    out: 1 arrive s 7
    out: 1 release s 7
    out: 6 end s used 5
    out: 9 end a used 4
    out: 10 release a
    out: 14 end a used 4
    out: 20 release a
    out: 20 horizon",
    "name: a request behind a release at the same time and priority, in other letters
    like: requested
    priority: 2
    arrivals: until 20; at 10 S 7;
    out: 0 release a
    out: 4 end a used 4
    out: 10 release a
    out: 10 arrive s 7
    out: 10 release s 7
    out: 14 end a used 4
    out: 19 end s used 5
    out: 20 release a
    out: 20 horizon",
    "name: requests that wait for the activation before
    like: asked
    separation: 3
    arrivals: UNTIL 16; AT 0 s 1; AT 3 s 2; AT 6 s 3;
    out: 0 arrive s 1
    out: 0 release s 1
    out: 3 arrive s 2
    out: 5 end s used 5
    out: 5 release s 2
    out: 6 arrive s 3
    out: 10 end s used 5
    out: 10 release s 3
    out: 15 end s used 5
    out: 16 horizon",
    "name: a request in place of one that waits
    like: asked
    separation: 1
    arrivals: UNTIL 11; AT 0 s 1; AT 1 s 2; AT 2 s 3;
    out: 0 arrive s 1
    out: 0 release s 1
    out: 1 arrive s 2
    out: 2 arrive s 3
    out: 5 end s used 5
    out: 5 release s 3
    out: 10 end s used 5
    out: 11 horizon",
    "name: a value that the task puts
    like: asked
    block: put (v); put (v + 1);
    arrivals: UNTIL 10; AT 4 s 4294967295;
    out: 4 arrive s 4294967295
    out: 4 release s 4294967295
    out: 5 put s 4294967295
    out: 6 put s 0
    out: 7 end s used 3
    out: 10 horizon",
    "name: a request without a value
    like: asked without a value
    arrivals: UNTIL 9; AT 5 s;
    out: 0 release a
    out: 4 end a used 4
    out: 5 arrive s
    out: 5 release s
    out: 9 horizon",
    "name: a request at the horizon, and one behind it
    like: asked
    separation: 50
    arrivals: UNTIL 10; AT 10 s 7; AT 60 s 8;
    out: 10 arrive s 7
    out: 10 release s 7
    out: 10 horizon",
    "name: a full sink has the beginning of the first line
    like: asked
    arrivals: UNTIL 10; AT 10 s 7;
    room: 9
    status: write fault
    out: 10 arrive s 7
    err: fault writing",
];

/// The farthest horizon, nearly all of it idle.
const LONGEST: &str = "name: the farthest horizon, nearly all of it idle
    period: 1000000000
    arrivals: UNTIL 1000000000;
    out: 0 release a
    out: 4 end a used 4
    out: 1000000000 release a
    out: 1000000000 horizon";

/// Durations, and the farthest horizon.
const DURATIONS: &[&str] = &[
    "name: a duration below the number of the statement
    arrivals: UNTIL 20; WORK a 1;
    out: 0 release a
    out: 2 end a used 2
    out: 10 release a
    out: 14 end a used 4
    out: 20 release a
    out: 20 horizon",
    "name: lists of two tasks, of which one is joined and goes over its number
    like: requested
    arrivals: UNTIL 25; WORK a 1, 2; WORK s 3; WORK a 9; AT 6 s 7;
    out: 0 release a
    out: 2 end a used 2
    out: 6 arrive s 7
    out: 6 release s 7
    out: 10 end s used 4
    out: 10 release a
    out: 13 end a used 3
    out: 20 release a
    out: 24 end a used 4
    out: 25 horizon",
    LONGEST,
    "name: the farthest horizon, all of it in use
    period: 1000000000
    block: work (999999999);
    arrivals: UNTIL 1000000000;
    out: 0 release a
    out: 1000000000 end a used 1000000000
    out: 1000000000 release a
    out: 1000000000 horizon",
    "name: an arrivals file over its limit
    arrivals_len: 1048577
    status: refused
    err: refused S3 arrivals",
    "name: an arrivals file at its limit
    arrivals_len: 1048576
    told: trace",
];

/// Arrivals that are refused for a program, and the line of the first item with something wrong.
const REFUSED_ITEMS: &[&str] = &[
    "name: a separation that is broken
    like: asked
    r: UNTIL 600;
    r: AT 0 s 1;
    r: AT 499 s 1;
    err: refused Q3 line 3 s",
    "name: a separation that nominal times break
    like: asked
    jitter: 5
    r: UNTIL 600;
    r: AT 0 s 1;
    r: AT 495 s 1;
    r: AT 990 s 1;
    err: refused Q3 line 4 s",
    "name: a time that falls
    like: asked
    arrivals: UNTIL 10; AT 5 s 1; AT 4 s 1;
    err: refused Q1 line 1",
    "name: a time that falls, of nothing and without a value
    like: asked
    r: UNTIL 10;
    r: AT 5 s 1;
    r: AT 4 x;
    err: refused Q1 line 3",
    "name: a request of nothing
    like: asked
    arrivals: UNTIL 10; AT 5 x 1;
    err: refused Q2 line 1 x",
    "name: a request of nothing and without a value, in the line of its first token
    like: asked
    r: UNTIL 10;
    r:
    r:   AT
    r: 5 x;
    err: refused Q2 line 3 x",
    "name: a request of a cyclic task
    like: requested
    r: UNTIL 10;
    r: AT 5 a 1;
    err: refused Q2 line 2 a",
    "name: a value that is missing
    like: asked
    arrivals: UNTIL 10; AT 5 s;
    err: refused Q5 line 1",
    "name: a value that is missing where the separation is broken
    like: asked
    r: UNTIL 10;
    r: AT 0 s 1;
    r: AT 1 s;
    err: refused Q5 line 3",
    "name: a value that is not asked for
    like: asked without a value
    arrivals: UNTIL 10; AT 5 s 1;
    err: refused Q5 line 1",
    "name: a request behind the horizon that breaks the separation
    like: asked
    r: UNTIL 10;
    r: AT 5 s 1;
    r: AT 500 s 1;
    err: refused Q3 line 3 s",
    "name: durations of nothing, one of no tick
    r: UNTIL 10;
    r: WORK until 0;
    err: refused Q2 line 2 until",
    "name: durations of a passive unit
    like: gives nothing
    r: UNTIL 10;
    r: WORK p 1;
    err: refused Q2 line 2 p",
    "name: a duration of no tick, before a request of nothing
    r: UNTIL 10;
    r: WORK a 1, 0;
    r: AT 5 x 1;
    err: refused Q5 line 2",
    "name: a horizon over its limit, before durations of nothing
    r: UNTIL 1000000001;
    r: WORK x 0;
    err: refused Q4 value 1000000001 limit 1000000000",
];

/// Texts of no arrivals, and the place where none goes on.
const UNREAD: &[&str] = &[
    "name: an empty arrivals file
    arrivals:
    err: refused S1 arrivals line 1 column 1",
    "name: an arrivals file that ends in the horizon
    arrivals: UNTIL 20
    err: refused S1 arrivals line 1 column 9",
    "name: another word for the horizon
    arrivals: UNTL 20;
    err: refused S1 arrivals line 1 column 1",
    "name: something behind the horizon
    arrivals: UNTIL 20;;
    err: refused S1 arrivals line 1 column 10",
    "name: durations without a comma
    arrivals: UNTIL 9; WORK a 1 2;
    err: refused S1 arrivals line 1 column 19",
    "name: durations behind a request of nothing
    arrivals: UNTIL 9; AT 1 s 1; WORK a 1;
    err: refused S1 arrivals line 1 column 20",
    "name: a byte that begins no token
    arrivals: UNTIL 20; #
    err: refused L1 arrivals line 1 column 11",
    "name: a letter behind a number
    arrivals: UNTIL 9x;
    err: refused L1 arrivals line 1 column 8",
    "name: a horizon that is no number of 32 bits
    arrivals: UNTIL 4294967296;
    err: refused L2 arrivals line 1 column 7",
    "name: a name of 65 bytes in arrivals
    r: UNTIL 20;
    r: WORK x1234567890123456789012345678901234567890123456789012345678901234 1;
    err: refused L3 arrivals line 2 column 6",
    "name: an Ada text that is refused before its arrivals
    ada_cut: 2
    arrivals: UNTL 20;
    err: refused S1 ada line 49 column 13",
];

#[test]
fn arrivals_are_kept(rt: HostRuntime) {
    let alloc = rt.alloc();
    run_table(&rt, alloc, REPLAYED, REQUESTS);
    run_table(&rt, alloc, REPLAYED, DURATIONS)
}

#[test]
fn arrivals_are_refused(rt: HostRuntime) {
    let alloc = rt.alloc();
    run_table(&rt, alloc, REFUSED, REFUSED_ITEMS);
    run_table(&rt, alloc, REFUSED, UNREAD)
}

/// A processor that counts each tick does not end this in time: it is 1,000,000,000,000 of them.
#[test]
fn idle_ticks_take_no_time(rt: HostRuntime) {
    let alloc = rt.alloc();
    let ada = ada_text(&rt, alloc, &row_text(&rt, alloc, LONGEST, REPLAYED));
    let wanted = lines(&rt, alloc, LONGEST, "out");
    for _ in 0..1000_u32 {
        check_replay(&rt, alloc, &ada, b"UNTIL 1000000000;", &wanted, LONGEST);
    }
}
