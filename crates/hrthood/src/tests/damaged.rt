//! Texts that break off before one of their tokens, and texts with a byte of value 0 in the place of the first byte of one. What reads
//! them tells the place behind all that stands before that token: of the end of the text, or of the byte.

use super::rows::{check_replay, check_that, check_told, requested_text, row_text, run_file};
use super::texts::{TRACE, beside, text_named};
use std::alloc::Global;
use std::process::Abort;

/// Designs by their names, and how many tokens each has: of one object, of an object of every kind, and of version 2 with links and every
/// statement.
const DESIGNS: &[(&str, usize)] = &[
    ("formatted", 67),
    ("every kind", 230),
    ("changed design", 300),
];

/// Ada texts by their names, and how many tokens each has: with units of every kind, with every statement, and of one cyclic task.
const TEXTS: &[(&str, usize)] = &[("every kind text", 571), ("changed ada", 331), ("ada", 227)];

/// What stands before an item of the arrivals files below is a whole file. What a replay tells under it: `a` takes one tick more than its work.
const WHOLE: &[(&str, &str)] = &[
    ("UNTIL 20; ", TRACE),
    ("UNTIL 20;\n", TRACE),
    (
        "UNTIL 20;\nWORK a 1, 2;\n",
        "0 release a\n2 end a used 2\n10 release a\n13 end a used 3\n20 release a\n20 horizon\n",
    ),
];

/// Whether this byte is one of a name or a number.
fn is_of_word(byte: u8) -> bool {
    byte.is_ascii_alphanumeric() || byte == b'_'
}

/// Whether these two bytes are one mark.
fn is_double(first: u8, second: u8) -> bool {
    match second {
        b'=' => matches!(first, b':' | b'/' | b'<' | b'>'),
        b'.' | b'*' => first == second,
        _ => false,
    }
}

/// Whether a token begins with this byte behind another.
fn begins_token(before: u8, byte: u8) -> bool {
    if is_of_word(byte) {
        return !is_of_word(before);
    }
    !byte.is_ascii_whitespace() && !is_double(before, byte)
}

/// What stands before each token of a text.
fn fronts<'x>(rt: &impl Abort, alloc: Global, text: &'x [u8]) -> Vec<&'x [u8]> {
    let mut fronts = Vec::new(alloc);
    let mut before = b'\n';
    let mut is_comment = false;
    for place in 0..text.len() {
        let (front, back) = text.split_at(place);
        let byte = back.first().copied().unwrap_or(b'\n');
        is_comment = byte != b'\n' && (is_comment || back.starts_with(b"--"));
        if !is_comment && begins_token(before, byte) {
            fronts.push(front).expect(rt, "memory");
        }
        before = byte;
    }
    fronts
}

/// The text with a byte of value 0 at this place.
fn zeroed(rt: &impl Abort, alloc: Global, text: &[u8], place: usize) -> Vec<u8> {
    let mut bytes = Vec::new(alloc);
    for byte in text {
        let is_place = bytes.len() == place;
        bytes
            .push(if is_place { 0 } else { *byte })
            .expect(rt, "memory");
    }
    bytes
}

/// The name of a file of this kind in a refusal: a command line reads a design.
fn file_of<'x>(kind: &'x str) -> &'x str {
    match kind {
        "ada" | "arrivals" => kind,
        _ => "design",
    }
}

/// The line that refuses a file of this kind at the place behind these bytes: lines and columns count from 1, and a line ends with a line feed.
fn refusal(rt: &impl Abort, alloc: Global, code: &str, kind: &str, front: &[u8]) -> String {
    let mut line = 1_usize;
    let mut column = 1_usize;
    for byte in front {
        column = column.saturating_add(1);
        if *byte == b'\n' {
            line = line.saturating_add(1);
            column = 1;
        }
    }
    let file = file_of(kind);
    format!(in alloc; "refused {code} {file} line {line} column {column}\n").expect(rt, "memory")
}

/// Looks at what is told of a file of this kind that is refused with this code behind a front.
fn check_refused(
    rt: &impl Abort,
    alloc: Global,
    kind: &str,
    code: &str,
    bytes: &[u8],
    front: &[u8],
) {
    let refusal = refusal(rt, alloc, code, kind, front);
    let told = run_file(rt, alloc, kind, bytes);
    check_told(rt, &told, "refused", b"", refusal.as_bytes(), &refusal);
}

/// What a replay tells under a front of the arrivals that is a whole file; empty where it is none.
fn whole(front: &[u8]) -> &'static str {
    beside(WHOLE, str::from_utf8(front).unwrap_or(""))
}

/// Looks at what is told of a file that is cut off behind a front.
fn check_front(rt: &impl Abort, alloc: Global, kind: &str, front: &[u8]) {
    let trace = whole(front);
    if trace.is_empty() {
        return check_refused(rt, alloc, kind, "S1", front, front);
    }
    let ada = requested_text(rt, alloc);
    check_replay(rt, alloc, &ada, front, trace.as_bytes(), trace)
}

/// Looks at what is told of a file that has a byte of value 0 behind a front.
fn check_zeroed(rt: &impl Abort, alloc: Global, kind: &str, bytes: &[u8], front: &[u8]) {
    let zeroed = zeroed(rt, alloc, bytes, front.len());
    check_refused(rt, alloc, kind, "L1", &zeroed, front)
}

/// Looks at what is told of a file, of which so many tokens are found, damaged at each of them.
fn check_damaged(rt: &impl Abort, alloc: Global, kind: &str, bytes: &[u8], tokens: usize) {
    let fronts = fronts(rt, alloc, bytes);
    check_that(rt, fronts.len() == tokens, kind);
    for front in &fronts {
        check_front(rt, alloc, kind, front);
        check_zeroed(rt, alloc, kind, bytes, front);
    }
}

/// Looks at what is told of each text of a table, which has their names, damaged at each of its tokens.
fn check_table(rt: &impl Abort, alloc: Global, kind: &str, table: &[(&str, usize)]) {
    let row = row_text(rt, alloc, "", "");
    for (name, tokens) in table {
        let bytes = text_named(rt, alloc, &row, name);
        check_damaged(rt, alloc, kind, &bytes, *tokens);
    }
}

/// For each token of each design, of which all are found: with the text cut off before it, `check`, `format` and `analyse` end with the
/// status of a refusal and nothing on standard output, and tell S1 behind the last byte that is left; with a byte of value 0 in its place
/// they tell L1 at that byte.
#[test]
fn designs_damaged_at_each_token(rt: HostRuntime) {
    for line in ["check d", "format d", "analyse d"] {
        check_table(&rt, rt.alloc(), line, DESIGNS);
    }
}

/// For each token of each Ada text, of which all are found: with the text cut off before it, `replay` ends with the status of a refusal
/// and nothing on standard output, and tells S1 behind the last byte that is left; with a byte of value 0 in its place it tells L1 at that
/// byte.
#[test]
fn ada_texts_damaged_at_each_token(rt: HostRuntime) {
    check_table(&rt, rt.alloc(), "ada", TEXTS)
}

/// For each token of each arrivals file, of which all are found: with the file cut off before it, `replay` ends with the status of a
/// refusal and nothing on standard output, and tells S1 behind the last byte that is left, but replays under what is a whole file; with a
/// byte of value 0 in its place it tells L1 at that byte.
#[test]
fn arrivals_damaged_at_each_token(rt: HostRuntime) {
    let alloc = rt.alloc();
    check_damaged(&rt, alloc, "arrivals", b"UNTIL 20; WORK a 1;", 7);
    let requested = b"UNTIL 20;\nWORK a 1, 2;\nAT 6 s 7;\n";
    check_damaged(&rt, alloc, "arrivals", requested, 14)
}
