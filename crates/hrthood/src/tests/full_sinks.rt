//! Runs whose standard output or standard error has no room for all that is written.

use super::rows::{
    Outcome, check_end, check_row, check_that, check_told, lines, number, row_text, run_row, value,
    word_of,
};
use std::alloc::Global;
use std::process::Abort;

/// What rows of full sinks have: the design of one cyclic object, and its text.
const USUAL: &str = "arrivals: UNTIL 20;";

/// Each verb, and a replay that stops. The text that `generate` and `background` make has 1,240 bytes, the line behind it 9, and the trace 80;
/// the first line of the summary has 53 bytes, and the second 11.
const WRITTEN: &[&str] = &[
    "words: check d",
    "words: format d",
    "words: analyse d",
    "words: search d",
    "words: scale d",
    "words: generate d
    rooms: 0 1 620 1239",
    "words: background d
    rooms: 0 1 620 1239",
    "words: replay a.ada r",
    "words: verify d r
    rooms: 0 1 1239 1240 1241 1248 1249 1250 1328",
    "words: accepts d r t
    t: 0 release a
    t: 4 end a used 4
    t: 10 release a
    t: 14 end a used 4
    t: 20 release a
    t: 20 horizon",
    "words: sample 1
    rooms: 0 1 52 53 54 63",
    "words: replay a.ada r
    protected: q 1 set is begin null;
    cyclic: h 2 0 10 is begin q.set;",
];

/// Looks at what a row writes into a room that is too small for it, of whose whole text these are the bytes.
fn check_room(rt: &impl Abort, alloc: Global, row: &str, whole: &[u8], room: usize) {
    let row = format!(in alloc; "room: {room}\n{row}").expect(rt, "memory");
    let told = run_row(rt, alloc, &row);
    let out = told.out.bytes();
    check_end(rt, &told, "write fault", b"fault writing\n", &row);
    check_that(rt, out.len() == room && whole.starts_with(out), &row);
}

/// Looks whether a row is told so.
fn check_same(rt: &impl Abort, alloc: Global, row: &str, whole: &Outcome) {
    let told = run_row(rt, alloc, row);
    let status = word_of(whole.status);
    check_told(rt, &told, status, whole.out.bytes(), whole.err.bytes(), row);
}

/// Looks at what a row writes into the rooms that it names, or else into each that is too small for it.
fn check_small(rt: &impl Abort, alloc: Global, row: &str, whole: &[u8]) {
    if let Some(rooms) = value(row, "rooms") {
        for room in rooms.split_whitespace() {
            check_room(rt, alloc, row, whole, number(room));
        }
        return;
    }
    for room in 0..whole.len() {
        check_room(rt, alloc, row, whole, room);
    }
}

/// Looks at what a row writes into rooms that are too small for it, and into one that is just enough.
fn check_rooms(rt: &impl Abort, alloc: Global, given: &str) {
    let row = row_text(rt, alloc, given, USUAL);
    let whole = run_row(rt, alloc, &row);
    let bytes = whole.out.bytes();
    check_that(rt, !bytes.is_empty(), &row);
    check_small(rt, alloc, &row, bytes);
    let room = bytes.len();
    let row = format!(in alloc; "room: {room}\n{row}").expect(rt, "memory");
    check_same(rt, alloc, &row, &whole)
}

/// Of each verb, in each room of standard output from 0 bytes to one less than it writes, or in those that its row names: just so many bytes
/// are written, which are the beginning of the whole; the status is that of a fault of writing, and standard error tells that fault. With room
/// for all, all is as with ample room.
#[test]
fn each_room_of_standard_output(rt: HostRuntime) {
    for given in WRITTEN {
        check_rooms(&rt, rt.alloc(), given);
    }
}

/// Looks whether a row is told a byte at a time as at once.
fn check_pieces(rt: &impl Abort, alloc: Global, given: &str) {
    let row = row_text(rt, alloc, given, USUAL);
    let whole = run_row(rt, alloc, &row);
    let row = format!(in alloc; "most: 1\n{row}").expect(rt, "memory");
    check_same(rt, alloc, &row, &whole)
}

/// Of each verb, and of a replay that stops: a byte at a time, all is written as at once.
#[test]
fn a_byte_at_a_time(rt: HostRuntime) {
    for given in WRITTEN {
        check_pieces(&rt, rt.alloc(), given);
    }
}

/// Runs that tell something on standard error.
const TOLD: &[&str] = &[
    "words: check
    status: usage
    err: usage: hrthood check D | analyse D | format D | generate D | replay A R | verify D R | sample N | background D | \
        accepts D R T | search D | scale D | explain D | arrange D",
    "words: check x
    status: read fault
    err: fault reading x",
    "words: check d
    thread: x := 1;
    status: refused
    err: refused V13 a thread B1",
    "words: replay a.ada r
    room: 20
    status: write fault
    told: trace
    err: fault writing",
];

/// Looks at what a row tells in each room of standard error.
fn check_err_rooms(rt: &impl Abort, alloc: Global, given: &str) {
    let row = row_text(rt, alloc, given, USUAL);
    let line = lines(rt, alloc, &row, "err");
    for room in 0..line.len().saturating_add(1) {
        let row = format!(in alloc; "err_room: {room}\n{row}").expect(rt, "memory");
        check_row(rt, alloc, &row);
    }
}

/// Of a run of each status but that of no memory, in each room of standard error from 0 bytes to the length of its line: the beginning of just
/// that length is told, and the status and standard output are as with ample room.
#[test]
fn each_room_of_standard_error(rt: HostRuntime) {
    for given in TOLD {
        check_err_rooms(&rt, rt.alloc(), given);
    }
}
