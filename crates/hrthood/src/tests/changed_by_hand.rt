//! Where no design goes on, for some changed tokens of the design of `changed_tokens.rt`: found by hand in the grammar, not by
//! the recogniser that its table comes from.

use super::changed_tokens::{CHANGES, exception, line_of_design_fault};
use super::rows::number;
use super::units::cut;

/// What is done, the place of the token from 0, the line of the fault, and why it is told there. A word that is kept nowhere, as
/// `version`, is a name where one may stand.
const BY_HAND: &str = "cut 1 3 the name is `version`, and `2` follows no name
    cut 3 4 `2` follows `version`
    cut 13 14 a range ends with a number
    cut 61 63 one more operation is provided, `object`, and no name follows it
    cut 89 91 one more object is required from, `x`, and a point follows it
    cut 96 98 one more datum is `p`, and a colon follows it
    cut 106 108 `x` begins an assignment or a call, and neither has `=`
    cut 118 120 `x` begins an assignment or a call, and neither has `>`
    cut 131 133 `if` begins a statement, and a condition follows it
    cut 134 136 `i` begins an assignment or a call, and neither has `in`
    cut 159 163 nothing is open that `)` could close
    cut 163 166 `(` is open still at the semicolon
    cut 194 196 one more datum is `set`, and a colon follows it
    cut 197 199 a local is `level`, and a colon follows it
    cut 202 204 `set` begins an assignment or a call, and no semicolon follows it
    cut 224 226 a parameter follows the semicolon, and `operation` is no name
    cut 288 290 the operation of the link is `by`, and another `by` follows it
    cut 294 296 one more link is of `r`, and `by` follows it
    doubled 0 3 the name is `design`, and no other name follows it
    doubled 16 18 `=` follows the name of a cost
    doubled 47 50 the name is `object`, and no other name follows it
    doubled 100 104 an expression in parentheses has no comma
    doubled 114 119 the first `(` is open still at the semicolon
    doubled 289 292 the object that is meant is `by`, and a point follows it
    replaced 53 56 one more operation is provided, `v`, and no colon follows it
    replaced 58 61 one more parameter is `paer`, and a colon follows it
    replaced 59 61 a semicolon has ended the operation, and no part begins with one
    replaced 70 72 a semicolon has ended the attribute, and no part begins with one
    replaced 146 148 no statement begins with a number
    replaced 239 242 `n` begins an assignment or a call, and no semicolon follows it";

/// How many of the places that were found by hand the table of changed tokens has.
fn agreeing() -> usize {
    let mut count = 0_usize;
    for change in CHANGES {
        for place in 0_usize..300 {
            let line = cut(exception(BY_HAND, change, place), " ").0;
            if !line.is_empty() && number(line) == line_of_design_fault(change, place) {
                count = count.saturating_add(1);
            }
        }
    }
    count
}

#[test]
fn places_found_by_hand_are_told(rt: HostRuntime) {
    assert_eq!(rt; agreeing(), 30);
}
