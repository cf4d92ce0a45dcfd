//! The exit status of the program, as a number: of a run of each status over a shelf and sinks in memory, and of runs over the system's files
//! and streams.

use super::rows::{row_text, words};
use super::shapes::design_bytes;
use crate::answer;
use hood_io::{ErrSink, FileShelf, MemShelf, MemSink, NoMemory, OutSink, Sink, StreamSink};
use std::alloc::Global;
use std::fs::{self, File};
use std::process::{Abort, ExitCode};

/// Command lines over a shelf that has the design `d` and an empty file, the room of standard output in bytes, and the exit status.
const STATUSES: &[(&str, usize, u8)] = &[
    ("check d", 100, 0),
    ("check empty", 100, 1),
    ("check", 100, 2),
    ("check absent", 100, 3),
    ("check d", 5, 4),
];

/// Looks whether an exit status is the one with this number. An assertion beside values that are dropped is dear to prove.
fn check_code(rt: &impl Abort, found: ExitCode, code: u8, line: &str) {
    assert_eq!(rt; found, ExitCode::from(code), "{line}");
}

/// The exit status of words over a shelf in memory, with so much room in standard output.
fn code_in_memory(
    rt: &impl Abort,
    alloc: Global,
    words: Result<Vec<String>, NoMemory>,
    room: usize,
) -> ExitCode {
    let mut shelf = MemShelf::new(alloc, &[]).expect(rt, "memory");
    shelf
        .put("d", &design_bytes(rt, alloc, &row_text(rt, alloc, "", "")))
        .expect(rt, "memory");
    shelf.put("empty", b"").expect(rt, "memory");
    let mut out = MemSink::new(alloc, room).expect(rt, "memory");
    let mut err = MemSink::new(alloc, 1000).expect(rt, "memory");
    answer(alloc, words, &mut shelf, &mut out, &mut err)
}

#[test]
fn each_status_has_its_number(rt: HostRuntime) {
    let alloc = rt.alloc();
    for (line, room, code) in STATUSES {
        let found = code_in_memory(&rt, alloc, Ok(words(&rt, alloc, line)), *room);
        check_code(&rt, found, *code, line);
    }
    let found = code_in_memory(&rt, alloc, Err(NoMemory), 100);
    check_code(&rt, found, 5, "no memory");
}

/// The exit status of words over the system's files and standard error, with this standard output.
fn code_over_the_system(rt: &HostRuntime, words: Vec<String>, out: &mut impl Sink) -> ExitCode {
    let mut shelf = FileShelf::new(rt);
    let mut err = ErrSink::new(rt.stderr());
    answer(rt.alloc(), Ok(words), &mut shelf, out, &mut err)
}

/// Command lines that write nothing to standard output, with the exit status; `hrthood_empty` is an empty file.
const TOLD: &[(&str, u8)] = &[
    ("check hrthood_empty", 1),
    ("replay", 2),
    ("replay hrthood_absent r", 3),
];

#[test]
fn the_system_gives_the_status_of_the_words(rt: HostRuntime) {
    fs::write(&rt, "hrthood_empty", b"").expect(&rt, "a file");
    for (line, code) in TOLD {
        let mut out = OutSink::new(rt.stdout());
        let found = code_over_the_system(&rt, words(&rt, rt.alloc(), line), &mut out);
        check_code(&rt, found, *code, line);
    }
    fs::remove_file(&rt, "hrthood_empty").expect(&rt, "a file");
}

#[test]
fn a_full_device_gives_the_status_of_a_fault_of_writing(rt: HostRuntime) {
    let full = File::options()
        .write(true)
        .open(&rt, "/dev/full")
        .expect(&rt, "a file");
    let mut out = StreamSink::new(full);
    let found = code_over_the_system(&rt, words(&rt, rt.alloc(), "sample 1"), &mut out);
    check_code(&rt, found, 4, "a full device");
}
