//! Responses in traces beside the bounds that `analyse` tells of the design.

use super::replays::REPLAYED;
use super::rows::{check_that, number, replay_under, row_text, run_design, text_of};
use super::sections::worked;
use super::shapes::design_bytes;
use super::texts::named;
use std::alloc::Global;
use std::process::Abort;

/// The greatest time from a release of a task to its next end; 0 where it has no end.
fn greatest(trace: &str, task: &str) -> usize {
    let mut released = 0_usize;
    let mut greatest = 0_usize;
    for line in trace.lines() {
        let mut words = line.split_whitespace();
        let time = number(words.next().unwrap_or(""));
        let event = words.next();
        if words.next() == Some(task) {
            if event == Some("release") {
                released = time;
            }
            if event == Some("end") {
                greatest = greatest.max(time.saturating_sub(released));
            }
        }
    }
    greatest
}

/// The name and the bound of a thread in a line of `analyse`; a ceiling has none.
fn bound_of<'x>(line: &'x str) -> Option<(&'x str, usize)> {
    let (thread, bound) = line.split_once(" response ")?;
    let name = thread.split_whitespace().nth(1)?;
    Some((name, number(bound)))
}

/// Looks whether each thread of these bounds has ends in a trace, all of them within its bound.
fn check_ends(rt: &impl Abort, bounds: &str, trace: &str) {
    let mut threads = 0_usize;
    for line in bounds.lines() {
        if let Some((name, bound)) = bound_of(line) {
            let greatest = greatest(trace, name);
            check_that(rt, 0 < greatest && greatest <= bound, line);
            threads = threads.saturating_add(1);
        }
    }
    check_that(rt, 0 < threads, trace);
}

/// Replays the text of a design, and looks whether each thread has ends, all of them within its bound.
fn check_bounds(rt: &impl Abort, alloc: Global, design: &[u8], arrivals: &[u8]) {
    let bounds = run_design(rt, alloc, "analyse d", design);
    let text = run_design(rt, alloc, "generate d", design);
    let replay = replay_under(rt, alloc, text.out.bytes(), arrivals);
    check_ends(rt, text_of(&bounds), text_of(&replay));
}

/// Looks at the bounds of the design of a worked schedule.
fn check_worked(rt: &impl Abort, alloc: Global, given: &str) {
    let row = row_text(rt, alloc, given, REPLAYED);
    check_bounds(rt, alloc, &design_bytes(rt, alloc, &row), b"UNTIL 40;")
}

#[test]
fn activations_end_within_their_bounds(rt: HostRuntime) {
    let alloc = rt.alloc();
    for given in worked() {
        check_worked(&rt, alloc, given);
    }
    let mine = named("mine").as_bytes();
    check_bounds(&rt, alloc, mine, b"UNTIL 1000; AT 30 water_handler 1;")
}
