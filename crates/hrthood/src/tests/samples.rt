//! Samples: the summaries of their runs, and words that ask for none.
//!
//! The numbers are those of a simulation in ticks that knows nothing of the toolset: of the ready threads the one with the shortest
//! deadline runs, but a thread on the board is not preempted. An activation uses 10 ticks, one more on the board, and one to end.

use super::rows::{check_end, check_that, number, row_text, run_row, run_table, text_of};
use super::units::cut;
use std::alloc::Global;
use std::process::Abort;

/// What rows of samples have.
const SUMMED: &str = "status: done";

/// Samples with their summaries.
const SUMMARIES: &[&str] = &[
    "name: one thread
    words: sample 1
    out: thread t1 releases 334 ends 333 greatest 12 bound 12
    out: lines 1335",
    "name: one thread, written with two digits
    words: sample 01
    out: thread t1 releases 334 ends 333 greatest 12 bound 12
    out: lines 1335",
    "name: two threads, the second requested from outside
    words: sample 2
    out: thread t1 releases 201 ends 200 greatest 13 bound 13
    out: thread t2 releases 167 ends 167 greatest 24 bound 24
    out: lines 1637",
    "name: seven threads in two groups
    words: sample 7
    out: thread t1 releases 67 ends 67 greatest 13 bound 13
    out: thread t2 releases 63 ends 63 greatest 24 bound 25
    out: thread t3 releases 59 ends 59 greatest 36 bound 37
    out: thread t4 releases 56 ends 56 greatest 48 bound 49
    out: thread t5 releases 53 ends 53 greatest 60 bound 61
    out: thread t6 releases 51 ends 50 greatest 72 bound 73
    out: thread t7 releases 48 ends 48 greatest 84 bound 84
    out: lines 1756",
    "name: thirty threads
    words: sample 30
    out: thread t1 releases 17 ends 17 greatest 13 bound 13
    out: thread t2 releases 17 ends 17 greatest 24 bound 25
    out: thread t3 releases 16 ends 16 greatest 36 bound 37
    out: thread t4 releases 16 ends 16 greatest 48 bound 49
    out: thread t5 releases 16 ends 16 greatest 60 bound 61
    out: thread t6 releases 16 ends 16 greatest 72 bound 73
    out: thread t7 releases 15 ends 15 greatest 84 bound 85
    out: thread t8 releases 15 ends 15 greatest 96 bound 97
    out: thread t9 releases 15 ends 15 greatest 108 bound 109
    out: thread t10 releases 15 ends 15 greatest 120 bound 121
    out: thread t11 releases 15 ends 15 greatest 132 bound 133
    out: thread t12 releases 14 ends 14 greatest 144 bound 145
    out: thread t13 releases 14 ends 14 greatest 156 bound 157
    out: thread t14 releases 14 ends 14 greatest 168 bound 169
    out: thread t15 releases 14 ends 14 greatest 180 bound 181
    out: thread t16 releases 14 ends 14 greatest 192 bound 193
    out: thread t17 releases 13 ends 13 greatest 204 bound 205
    out: thread t18 releases 13 ends 13 greatest 216 bound 217
    out: thread t19 releases 13 ends 13 greatest 228 bound 229
    out: thread t20 releases 13 ends 13 greatest 240 bound 241
    out: thread t21 releases 13 ends 13 greatest 252 bound 253
    out: thread t22 releases 13 ends 13 greatest 264 bound 265
    out: thread t23 releases 13 ends 13 greatest 276 bound 277
    out: thread t24 releases 12 ends 12 greatest 288 bound 289
    out: thread t25 releases 12 ends 12 greatest 300 bound 301
    out: thread t26 releases 12 ends 12 greatest 312 bound 313
    out: thread t27 releases 12 ends 12 greatest 324 bound 325
    out: thread t28 releases 12 ends 12 greatest 336 bound 337
    out: thread t29 releases 12 ends 12 greatest 348 bound 349
    out: thread t30 releases 12 ends 12 greatest 360 bound 360
    out: lines 1881",
    "name: no file is fetched
    fails: 0
    words: sample 1
    out: thread t1 releases 334 ends 333 greatest 12 bound 12
    out: lines 1335",
];

/// A full sink has the beginning of the summary.
const FULL: &[&str] = &[
    "name: a full sink
    words: sample 1
    room: 30
    status: write fault
    err: fault writing
    out: thread t1 releases 334 ends 333 greatest 12 bound 12
    out: lines 1335",
];

/// Words that ask for no sample.
const NO_SAMPLES: &[&str] = &[
    "name: too many threads
    like: no command
    words: sample 31",
    "name: no threads
    like: no command
    words: sample 0",
    "name: no threads, with two digits
    like: no command
    words: sample 00",
    "name: no count
    like: no command
    words: sample",
    "name: no digits
    like: no command
    words: sample x",
    "name: a letter behind a digit
    like: no command
    words: sample 1x",
    "name: a sign
    like: no command
    words: sample +1",
    "name: a dash
    like: no command
    words: sample -1",
    "name: three digits
    like: no command
    words: sample 001",
    "name: an empty count
    like: no command
    words: sample ''",
    "name: two counts
    like: no command
    words: sample 1 2",
    "name: a verb that is no sample
    like: no command
    words: samples 1",
];

/// The number behind a word of a line, which has a space before it and behind it.
fn behind(line: &str, word: &str) -> usize {
    number(cut(cut(line, word).1, " ").0)
}

/// Looks at the line of a thread in the summary of a sample of so many: it is within its bound.
fn check_line(rt: &impl Abort, alloc: Global, line: &str, thread: usize, threads: usize) {
    let start = format!(in alloc; "thread t{thread} releases ").expect(rt, "memory");
    check_that(rt, line.starts_with(start.as_str()), line);
    let last = usize::from(thread == threads);
    let bound = thread
        .saturating_mul(12)
        .saturating_add(1)
        .saturating_sub(last);
    check_that(rt, behind(line, " bound ") == bound, line);
    let greatest = behind(line, " greatest ");
    check_that(rt, 0 < greatest && greatest <= bound, line);
}

/// Looks at the summary of a sample: there is a line for each of so many threads, in order, and one with the number of lines.
fn check_summary(rt: &impl Abort, alloc: Global, summary: &str, threads: usize) {
    let mut lines = summary.lines();
    for thread in 1..threads.saturating_add(1) {
        check_line(rt, alloc, lines.next().unwrap_or(""), thread, threads);
    }
    let last = lines.next().unwrap_or("");
    check_that(rt, last.starts_with("lines "), summary);
    check_that(rt, lines.next().is_none(), summary);
}

/// Looks at the summary of the sample of so many threads: there is a line for each of them, in order, with its bound, and no time is
/// over it.
fn check_sample(rt: &impl Abort, alloc: Global, threads: usize) {
    let row = format!(in alloc; "words: sample {threads}\n").expect(rt, "memory");
    let row = row_text(rt, alloc, &row, "");
    let told = run_row(rt, alloc, &row);
    check_end(rt, &told, "done", b"", &row);
    check_summary(rt, alloc, text_of(&told), threads)
}

#[test]
fn each_sample_keeps_its_bounds(rt: HostRuntime) {
    for threads in 1..31_usize {
        check_sample(&rt, rt.alloc(), threads);
    }
}

#[test]
fn samples_are_summed_up(rt: HostRuntime) {
    let alloc = rt.alloc();
    run_table(&rt, alloc, SUMMED, SUMMARIES);
    run_table(&rt, alloc, SUMMED, FULL)
}

#[test]
fn other_words_are_no_samples(rt: HostRuntime) {
    run_table(&rt, rt.alloc(), "", NO_SAMPLES)
}
