//! Calls on the paths through a block, and the different calls that it has.

use super::looks::{check_same, check_that};
use seq_cost::{Started, calls, starts, starts_through};
use seq_read::read_block;
use seq_tree::{Block, Name, OpName};
use std::alloc::Global;
use std::process::Abort;
use token_read::tokens;

/// Two calls of `p.f` on the longer path for it, two of `q.g` on the other, and three of `r.h` in a loop.
const PATHS: &str =
    "if x = 1 then p.f; else q.g; q.g; end if; p.f; for i in word range 1 .. 3 loop r.h; end loop; end";

/// One call of `p.f` or of `q.g`, and a loop without a turn.
const ONE_OF_TWO: &str =
    "if x = 1 then p.f; else q.g; end if; for i in word range 2 .. 1 loop p.f; end loop; end";

/// The block that a short text begins with.
pub fn block(rt: &impl Abort, alloc: Global, text: &str) -> Block {
    let bytes = text.as_bytes();
    let (bytes, _) = bytes.split_at(bytes.len().min(1000));
    let found = tokens(alloc, bytes).expect(rt, "a text");
    let (block, _) = read_block(alloc, &found, 0, 0).expect(rt, "a text");
    block
}

/// The operation of an object, by their names.
pub fn operation(rt: &impl Abort, alloc: Global, object: &str, op: &str) -> OpName {
    OpName {
        object: Name::make(alloc, object.as_bytes()).expect(rt, "memory"),
        op: Name::make(alloc, op.as_bytes()).expect(rt, "memory"),
    }
}

#[test]
fn calls_are_counted_on_the_path_that_has_most_of_them(rt: HostRuntime) {
    for (text, object, op, wanted) in [
        (PATHS, "p", "f", 2_u32),
        (PATHS, "q", "g", 2),
        (PATHS, "r", "h", 2),
        (PATHS, "p", "g", 0),
        (ONE_OF_TWO, "p", "f", 1),
        (ONE_OF_TWO, "q", "g", 1),
        (ONE_OF_TWO, "r", "h", 0),
    ] {
        let target = operation(&rt, rt.alloc(), object, op);
        let count = starts(&block(&rt, rt.alloc(), text), &target);
        check_same(&rt, &count, &wanted, text);
    }
}

#[test]
fn calls_of_others_count_what_they_have(rt: HostRuntime) {
    for (object, op, each, wanted) in [
        ("q", "g", 0_u32, 1_u32),
        ("q", "g", 1, 1),
        ("q", "g", 2, 2),
        ("r", "h", 2, 1),
    ] {
        let target = operation(&rt, rt.alloc(), "p", "f");
        let callees = [Started {
            name: operation(&rt, rt.alloc(), object, op),
            starts: each,
        }];
        let count = starts_through(&block(&rt, rt.alloc(), ONE_OF_TWO), &target, &callees);
        check_same(&rt, &count, &wanted, object);
    }
}

#[test]
fn each_call_is_told_once(rt: HostRuntime) {
    let found = calls(rt.alloc(), &block(&rt, rt.alloc(), PATHS)).expect(&rt, "memory");
    check_same(&rt, &found.len(), &3, PATHS);
    for (call, (object, op)) in found.iter().zip([("p", "f"), ("q", "g"), ("r", "h")]) {
        check_that(&rt, call.object.bytes() == object.as_bytes(), object);
        check_that(&rt, call.op.bytes() == op.as_bytes(), op);
    }
}
