//! Tables of worked examples: what `run` is given, and what it must answer and write.
//!
//! A table is a list of rows, and a row is a text: lines of a key, a colon, a space and a value. So a table is one constant of bytes for
//! the prover, whatever its rows say, and costs it some half a second a KB; rows that were structs took a second and more each.
//!
//! | Key | What it says | Where a row has none |
//! |---|---|---|
//! | `name` | what the row shows | |
//! | `like` | the rows' part whose keys the row has too (`texts.rt`) | none |
//! | `words` | the words of the command line, `''` for the empty one | those of the table |
//! | `fails` | the place of the fetch that fails, from 0 | none fails |
//! | `room` | the room of standard output in bytes | 100,000 |
//! | `err_room` | the room of standard error in bytes | 1,000 |
//! | `most` | how many bytes one write to either takes at most, from 1 | 100,000 |
//! | `r` | a line of the file `r`; a row may have several, with a line feed between them | `arrivals` |
//! | `arrivals`, `arrivals_len` | the file `r`, and its length, with spaces behind a text that is shorter | those of the table |
//! | `t` | a line of the file `t`, with a line feed behind it; a row may have several | it is empty |
//! | `t_open` | a last line of the file `t` without its line feed | none |
//! | `t_len` | the length of the file `t`, with spaces behind a text that is shorter | its own |
//! | `status` | how the run ends | that of the table |
//! | `out`, `err` | a line of standard output, and of standard error; a row may have several | nothing is written |
//! | `told` | the text of standard output by its name, where it stands elsewhere; `ada` is that of the row's task | |
//! | `why` | how `out` was derived, for a reader; no test reads it | |
//!
//! `shapes.rt` has the keys of the design, which is the file `d`, and `texts.rt` and `units.rt` those of the Ada text, which is `a.ada`. Of
//! `out`, `told` and `err` so much is wanted as there is room for. A row of another status than `done` without an `err_room`
//! is run once more without room in standard error, which changes nothing else.

use super::shapes::design_bytes;
use super::texts::{USUAL, ada_bytes, ada_text, joined, named, padded, text_named};
use hood_io::{MemShelf, MemSink};
use hrthood_top::{Status, run};
use std::alloc::Global;
use std::process::Abort;

/// The value of a key in a row: what stands behind the key on its first line, if it has one.
pub fn value<'a>(row: &'a str, key: &str) -> Option<&'a str> {
    for line in row.lines() {
        if let Some((name, text)) = line.split_once(':') {
            if name.trim_start() == key {
                return Some(text.strip_prefix(' ').unwrap_or(text));
            }
        }
    }
    None
}

/// The value of a key, or the text that it names behind an `@`; empty where the row has no such key.
pub fn text<'a>(row: &'a str, key: &str) -> &'a str {
    let found = value(row, key).unwrap_or("");
    match found.strip_prefix('@') {
        Some(name) => named(name),
        None => found,
    }
}

/// The number that these digits write.
pub fn number(digits: &str) -> usize {
    let mut sum = 0_usize;
    for digit in digits.as_bytes() {
        let digit = usize::from(digit.wrapping_sub(b'0'));
        sum = sum.saturating_mul(10).saturating_add(digit);
    }
    sum
}

/// The text with spaces behind it, up to the length that the key has, if it is longer.
pub fn lengthened(rt: &impl Abort, alloc: Global, text: &[u8], row: &str, key: &str) -> Vec<u8> {
    let len = number(value(row, key).unwrap_or(""));
    padded(rt, alloc, text, len.max(text.len()))
}

/// The lines of a key, each with a line feed behind it.
pub fn lines(rt: &impl Abort, alloc: Global, row: &str, key: &str) -> Vec<u8> {
    let mut all = Vec::new(alloc);
    for line in row.lines() {
        if let Some((name, text)) = line.split_once(':') {
            if name.trim_start() == key {
                let text = text.strip_prefix(' ').unwrap_or(text);
                all.extend_from_slice(text.as_bytes()).expect(rt, "memory");
                all.push(b'\n').expect(rt, "memory");
            }
        }
    }
    all
}

/// The bytes of a row's file `r`.
pub fn arrivals_bytes(rt: &impl Abort, alloc: Global, row: &str) -> Vec<u8> {
    let mut arrivals = lines(rt, alloc, row, "r");
    let _ = arrivals.pop();
    if arrivals.is_empty() {
        arrivals
            .extend_from_slice(text(row, "arrivals").as_bytes())
            .expect(rt, "memory");
    }
    lengthened(rt, alloc, &arrivals, row, "arrivals_len")
}

/// The bytes of a row's file `t`.
fn trace_bytes(rt: &impl Abort, alloc: Global, row: &str) -> Vec<u8> {
    let mut trace = lines(rt, alloc, row, "t");
    trace
        .extend_from_slice(text(row, "t_open").as_bytes())
        .expect(rt, "memory");
    lengthened(rt, alloc, &trace, row, "t_len")
}

/// The part of rows that a row is like.
fn part<'x>(given: &'x str) -> &'x str {
    match value(given, "like") {
        Some(name) => named(name),
        None => "",
    }
}

/// A row of a table whose rows have these keys too, where they don't say otherwise.
pub fn row_text<'x>(rt: &impl Abort, alloc: Global, given: &'x str, usual: &'x str) -> String {
    joined(
        rt,
        alloc,
        &[given, "\n", part(given), "\n", usual, "\n", USUAL],
    )
}

/// The words of a command line, apart from each other by spaces.
pub fn words(rt: &impl Abort, alloc: Global, line: &str) -> Vec<String> {
    let mut all = Vec::new(alloc);
    for word in line.split_whitespace() {
        let word = if word == "''" { "" } else { word };
        all.push(String::from_str(alloc, word).expect(rt, "memory"))
            .expect(rt, "memory");
    }
    all
}

/// What a run answers and writes.
#[derive(Drop)]
pub struct Outcome {
    pub status: Status,
    pub out: MemSink,
    pub err: MemSink,
}

/// What a run wrote to standard output; empty where that is no text.
pub fn text_of<'x>(told: &'x Outcome) -> &'x str {
    str::from_utf8(told.out.bytes()).unwrap_or("")
}

/// Runs words over a shelf and two sinks.
fn run_over(
    alloc: Global,
    words: &[String],
    shelf: &mut MemShelf,
    out: MemSink,
    err: MemSink,
) -> Outcome {
    let mut out = out;
    let mut err = err;
    let status = run(alloc, words, shelf, &mut out, &mut err);
    Outcome { status, out, err }
}

/// Runs a command line over a shelf, with ample room.
fn run_line(rt: &impl Abort, alloc: Global, line: &str, shelf: &mut MemShelf) -> Outcome {
    let words = words(rt, alloc, line);
    let out = MemSink::new(alloc, 100_000).expect(rt, "memory");
    let err = MemSink::new(alloc, 1000).expect(rt, "memory");
    run_over(alloc, &words, shelf, out, err)
}

/// What a command line does with the bytes of the design `d`.
pub fn run_design(rt: &impl Abort, alloc: Global, line: &str, design: &[u8]) -> Outcome {
    let mut shelf = MemShelf::new(alloc, &[]).expect(rt, "memory");
    shelf.put("d", design).expect(rt, "memory");
    run_line(rt, alloc, line, &mut shelf)
}

/// Replays an Ada text under an arrivals file.
pub fn replay_under(rt: &impl Abort, alloc: Global, ada: &[u8], arrivals: &[u8]) -> Outcome {
    let mut shelf = MemShelf::new(alloc, &[]).expect(rt, "memory");
    shelf.put("a.ada", ada).expect(rt, "memory");
    shelf.put("r", arrivals).expect(rt, "memory");
    run_line(rt, alloc, "replay a.ada r", &mut shelf)
}

/// The Ada text that arrivals are given to: of a task with a sporadic unit.
pub fn requested_text(rt: &impl Abort, alloc: Global) -> Vec<u8> {
    ada_text(rt, alloc, &row_text(rt, alloc, "like: requested", ""))
}

/// What is told of the bytes of a file of this kind: of `ada` and `arrivals` by a replay, and else of a design by the command line that
/// its kind is.
pub fn run_file(rt: &impl Abort, alloc: Global, kind: &str, bytes: &[u8]) -> Outcome {
    match kind {
        "ada" => replay_under(rt, alloc, bytes, b"UNTIL 20;"),
        "arrivals" => replay_under(rt, alloc, &requested_text(rt, alloc), bytes),
        line => run_design(rt, alloc, line, bytes),
    }
}

/// An empty shelf, on which the fetch that a row names fails.
fn empty_shelf(rt: &impl Abort, alloc: Global, row: &str) -> MemShelf {
    match value(row, "fails") {
        Some(place) => MemShelf::new(alloc, &[number(place) as u64]).expect(rt, "memory"),
        None => MemShelf::new(alloc, &[]).expect(rt, "memory"),
    }
}

/// The bytes of a row's file of this name.
fn file_bytes(rt: &impl Abort, alloc: Global, row: &str, name: &str) -> Vec<u8> {
    match name {
        "d" => design_bytes(rt, alloc, row),
        "a.ada" => ada_bytes(rt, alloc, row),
        "t" => trace_bytes(rt, alloc, row),
        _ => arrivals_bytes(rt, alloc, row),
    }
}

/// The shelf with a row's files.
fn shelf_of(rt: &impl Abort, alloc: Global, row: &str) -> MemShelf {
    let mut shelf = empty_shelf(rt, alloc, row);
    for name in ["d", "a.ada", "r", "t"] {
        shelf
            .put(name, &file_bytes(rt, alloc, row, name))
            .expect(rt, "memory");
    }
    shelf
}

/// A stream of a row, with the room of this key.
fn sink_of(rt: &impl Abort, alloc: Global, row: &str, room: &str) -> MemSink {
    let most = number(text(row, "most")).max(1);
    MemSink::piecewise(alloc, number(text(row, room)), most).expect(rt, "memory")
}

/// Runs a row.
pub fn run_row(rt: &impl Abort, alloc: Global, row: &str) -> Outcome {
    let words = words(rt, alloc, text(row, "words"));
    let mut shelf = shelf_of(rt, alloc, row);
    let out = sink_of(rt, alloc, row, "room");
    let err = sink_of(rt, alloc, row, "err_room");
    run_over(alloc, &words, &mut shelf, out, err)
}

/// What is told of a trace by the design and the arrivals of a row.
pub fn judge(rt: &impl Abort, alloc: Global, row: &str, trace: &[u8]) -> Outcome {
    let mut shelf = empty_shelf(rt, alloc, row);
    for name in ["d", "r"] {
        shelf
            .put(name, &file_bytes(rt, alloc, row, name))
            .expect(rt, "memory");
    }
    shelf.put("t", trace).expect(rt, "memory");
    run_line(rt, alloc, "accepts d r t", &mut shelf)
}

/// The word for a status in a row.
pub fn word_of(status: Status) -> &'static str {
    match status {
        Status::Done => "done",
        Status::Refused => "refused",
        Status::Usage => "usage",
        Status::ReadFault => "read fault",
        Status::WriteFault => "write fault",
        Status::NoMemory => "no memory",
    }
}

/// What a row wants in standard output.
fn wanted_out(rt: &impl Abort, alloc: Global, row: &str) -> Vec<u8> {
    let mut out = match value(row, "told") {
        None => lines(rt, alloc, row, "out"),
        Some(name) => text_named(rt, alloc, row, name),
    };
    out.truncate(number(text(row, "room")));
    out
}

/// What a row wants in standard error.
fn wanted_err(rt: &impl Abort, alloc: Global, row: &str) -> Vec<u8> {
    let mut err = lines(rt, alloc, row, "err");
    err.truncate(number(text(row, "err_room")));
    err
}

/// Looks whether something is so in a row. An assertion in a function beside values that are dropped is dear to prove, so this and the next
/// have nearly all of them.
pub fn check_that(rt: &impl Abort, is_so: bool, row: &str) {
    assert!(rt; is_so, "{row}");
}

/// Looks whether these are the bytes that a row wants.
pub fn check_bytes(rt: &impl Abort, found: &[u8], wanted: &[u8], row: &str) {
    assert_eq!(rt; found, wanted, "{row}");
}

/// Looks at what a run answered, by the word for its status, and at all that it wrote to standard error.
pub fn check_end(rt: &impl Abort, told: &Outcome, status: &str, err: &[u8], row: &str) {
    check_bytes(rt, word_of(told.status).as_bytes(), status.as_bytes(), row);
    check_bytes(rt, told.err.bytes(), err, row);
}

/// Looks at what a run answered, and at all that it wrote to standard output and standard error.
pub fn check_told(
    rt: &impl Abort,
    told: &Outcome,
    status: &str,
    out: &[u8],
    err: &[u8],
    row: &str,
) {
    check_end(rt, told, status, err, row);
    check_bytes(rt, told.out.bytes(), out, row);
}

/// Replays an Ada text under an arrivals file, which is done and gives this trace.
pub fn check_replay(
    rt: &impl Abort,
    alloc: Global,
    ada: &[u8],
    arrivals: &[u8],
    trace: &[u8],
    row: &str,
) {
    let told = replay_under(rt, alloc, ada, arrivals);
    check_told(rt, &told, "done", trace, b"", row);
}

/// Runs a row, and looks at all that is told of it.
pub fn check_row(rt: &impl Abort, alloc: Global, row: &str) {
    let out = wanted_out(rt, alloc, row);
    let err = wanted_err(rt, alloc, row);
    let told = run_row(rt, alloc, row);
    check_told(rt, &told, text(row, "status"), &out, &err, row);
}

/// Runs a row that has these keys too, and looks at all that is told of it, with room in standard error and without.
fn check_given(rt: &impl Abort, alloc: Global, usual: &str, given: &str) {
    let row = row_text(rt, alloc, given, usual);
    check_row(rt, alloc, &row);
    if value(given, "err_room").is_none() && text(&row, "status") != "done" {
        let row = format!(in alloc; "err_room: 0\n{row}").expect(rt, "memory");
        return check_row(rt, alloc, &row);
    }
}

/// Runs each row of a table, whose rows have these keys too, and looks at all that is told of it.
pub fn run_table(rt: &impl Abort, alloc: Global, usual: &str, table: &[&str]) {
    for given in table {
        check_given(rt, alloc, usual, given);
    }
}
