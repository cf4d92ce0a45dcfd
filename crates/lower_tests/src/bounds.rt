//! Tables of threads and their bounds.

ghost use Rattle.std.specs.Prelude.{◌≡◌, true};
ghost use Rattle.rt_response.specs.Tables.{IsRow, IsTable};

use super::looks::{check_same, check_that};
use rt_response::{Bound, Limit, Miss, ThreadRow, respond};
use std::alloc::Global;
use std::process::Abort;
use std::str::SplitWhitespace;

/// Tables and what is answered, each a text of lines: `row` has the period, the deadline, the jitter, the cost and the blocking of a row,
/// and the place of its starter, where it has one; `bound` the jitter and the response of a row; `miss` the row, the limit that is
/// missed, the value, the limit's number and the round. Texts, since a table of structs is dear to prove.
const TABLES: &[&str] = &[
    "name: three cyclic threads
    row: 7 7 0 3 0
    row: 12 12 0 3 0
    row: 20 20 0 5 0
    bound: 0 3
    bound: 0 6
    bound: 0 20",
    "name: the last of three too dear
    row: 7 7 0 3 0
    row: 12 12 0 3 0
    row: 20 20 0 6 0
    bound: 0 3
    bound: 0 6
    bound: 0 15
    miss: 2 deadline 21 20 3",
    "name: a jitter that is inherited, from a starter behind its row
    row: 50 20 0 5 2 1
    row: 50 50 0 5 0
    bound: 10 7
    bound: 0 10",
    "name: blocked by a section
    row: 10 9 0 6 3
    row: 20 20 0 6 0
    bound: 0 9
    bound: 0 18",
    "name: two shared objects
    row: 40 20 0 9 2
    row: 40 30 0 5 2
    row: 40 40 0 5 0
    bound: 0 11
    bound: 0 16
    bound: 0 19",
    "name: over the separation at first
    row: 10 10 6 5 0
    bound: 0 0
    miss: 0 separation 11 10 0",
    "name: at both limits
    row: 10 9 1 6 3
    bound: 1 9",
    "name: over its deadline by one
    row: 10 9 0 7 3
    bound: 0 0
    miss: 0 deadline 10 9 0",
    "name: over both limits
    row: 10 9 6 7 3
    bound: 0 0
    miss: 0 deadline 10 9 0",
    "name: the greatest periods
    row: 1000000000 1000000000 0 400000000 0
    row: 1000000000 1000000000 0 600000000 0
    bound: 0 400000000
    bound: 0 1000000000",
    "name: a value over the greatest period
    row: 1000000000 1000000000 0 1000000000 1000000000
    bound: 0 0
    miss: 0 deadline 2000000000 1000000000 0",
    "name: two started rows in a chain
    row: 50 50 9 5 0 1
    row: 50 50 9 5 0 2
    row: 50 50 0 5 0
    bound: 25 5
    bound: 15 10
    bound: 0 15",
    "name: a chain over the separation of its end
    row: 29 29 9 5 0 1
    row: 50 50 9 5 0 2
    row: 50 50 0 5 0
    bound: 15 5
    bound: 15 10
    bound: 0 15
    miss: 0 separation 30 29 3",
    "name: a row that starts itself
    row: 50 50 0 20 0 0
    bound: 20 20
    miss: 0 separation 60 50 2",
    "name: no rows",
];

/// The number that these digits write.
fn number(digits: &str) -> u32 {
    let mut sum = 0_u32;
    for digit in digits.as_bytes() {
        let digit = u32::from(digit.wrapping_sub(b'0'));
        sum = sum.saturating_mul(10).saturating_add(digit);
    }
    sum
}

/// The next number, or 0 where there is none.
fn next_number(words: &mut SplitWhitespace<'_>) -> u32 {
    match words.next() {
        Some(word) => number(word),
        None => 0,
    }
}

fn row_of(numbers: &str) -> ThreadRow {
    let mut words = numbers.split_whitespace();
    ThreadRow {
        period: next_number(&mut words),
        deadline: next_number(&mut words),
        jitter: next_number(&mut words),
        cost: next_number(&mut words),
        block: next_number(&mut words),
        starter: words.next().map(|word| number(word)),
    }
}

fn bound_of(numbers: &str) -> Bound {
    let mut words = numbers.split_whitespace();
    Bound {
        jitter: next_number(&mut words),
        response: next_number(&mut words),
    }
}

fn miss_of(words: &str) -> Miss {
    let mut words = words.split_whitespace();
    Miss {
        index: next_number(&mut words),
        which: if words.next() == Some("deadline") {
            Limit::Deadline
        } else {
            Limit::Separation
        },
        value: u128::from(next_number(&mut words)),
        limit: next_number(&mut words),
        round: u64::from(next_number(&mut words)),
    }
}

/// The rows of a text.
fn rows(rt: &impl Abort, alloc: Global, text: &str) -> Vec<ThreadRow> {
    let mut all = Vec::new(alloc);
    for line in text.lines() {
        if let Some(numbers) = line.trim_start().strip_prefix("row: ") {
            all.push(row_of(numbers)).expect(rt, "memory");
        }
    }
    all
}

/// The bounds of a text.
fn bounds(rt: &impl Abort, alloc: Global, text: &str) -> Vec<Bound> {
    let mut all = Vec::new(alloc);
    for line in text.lines() {
        if let Some(numbers) = line.trim_start().strip_prefix("bound: ") {
            all.push(bound_of(numbers)).expect(rt, "memory");
        }
    }
    all
}

/// What a text misses.
fn miss(text: &str) -> Option<Miss> {
    for line in text.lines() {
        if let Some(words) = line.trim_start().strip_prefix("miss: ") {
            return Some(miss_of(words));
        }
    }
    None
}

/// Whether a row is one of a table of so many rows.
fn is_row(count: usize, row: &ThreadRow) -> bool
    ensures { result ≡ true → IsRow count row.now }
{
    let starter = match row.starter {
        Some(starter) => (starter as usize) < count,
        None => true,
    };
    1 <= row.deadline
        && row.deadline <= row.period
        && row.period <= 1_000_000_000
        && 1 <= row.cost
        && row.cost <= 1_000_000_000
        && row.block <= 1_000_000_000
        && row.jitter <= 1_000_000_000
        && starter
}

/// Whether these are rows of a table.
fn is_table(rows: &[ThreadRow]) -> bool
    ensures { result ≡ true → IsTable rows.now }
{
    let mut left = rows;
    'rows: while let Some((row, more)) = left.split_first() {
        if !is_row(rows.len(), row) {
            return false;
        }
        left = more;
    }
    rows.len() <= 30
}

/// Looks at what is answered to the table of a text, of which these bounds are wanted.
fn check_answer(rt: &impl Abort, text: &str, rows: &[ThreadRow], wanted: &[Bound]) {
    let mut found = [Bound {
        jitter: 7,
        response: 7,
    }; 30];
    check_that(rt, is_table(rows), text);
    let (found, _) = found.split_at_mut(rows.len());
    let answer = respond(rows, found);
    check_same(rt, &answer.err(), &miss(text), text);
    check_that(rt, *found == *wanted, text);
}

#[test]
fn answers_the_least_vector_or_the_first_miss(rt: HostRuntime) {
    for text in TABLES {
        check_answer(
            &rt,
            text,
            &rows(&rt, rt.alloc(), text),
            &bounds(&rt, rt.alloc(), text),
        );
    }
}

#[test]
fn thirty_rows_are_answered(rt: HostRuntime) {
    let row = ThreadRow {
        period: 1000,
        deadline: 1000,
        jitter: 0,
        cost: 1,
        block: 0,
        starter: None,
    };
    let rows = [row; 30];
    let mut found = [Bound {
        jitter: 7,
        response: 7,
    }; 30];
    check_that(&rt, is_table(&rows), "a table");
    check_same(&rt, &respond(&rows, &mut found).err(), &None, "no miss");
    for (index, bound) in found.iter().enumerate() {
        let wanted = Bound {
            jitter: 0,
            response: (index as u32).saturating_add(1),
        };
        check_same(&rt, bound, &wanted, "a bound");
    }
}
