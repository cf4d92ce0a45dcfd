//! Blocks and expressions that are read apart from a text.

use super::looks::{check_same, check_that};
use seq_read::{ReadFault, read_block, read_expr};
use seq_tree::Expr;
use token_read::tokens;

#[test]
fn the_longest_block_is_read_from_a_place(rt: HostRuntime) {
    let found = tokens(rt.alloc(), b"x := 1; null; end").expect(&rt, "a text");
    for (from, len, next) in [(0_usize, 2_usize, 6_usize), (4, 1, 6)] {
        let from = from.min(found.len());
        let (block, after) = read_block(rt.alloc(), &found, from, 0).expect(&rt, "a text");
        check_same(&rt, &block.stmts.len(), &len, "the statements");
        check_same(
            &rt,
            &block.copy(rt.alloc()).expect(&rt, "memory").stmts.len(),
            &len,
            "those of a copy",
        );
        check_same(&rt, &after, &next, "the place behind a block");
    }
    let last = found.len().saturating_sub(1);
    let fault = read_block(rt.alloc(), &found, last, 0).err();
    check_same(&rt, &fault, &Some(ReadFault::Syntax(6)), "no block");
}

#[test]
fn the_longest_expression_is_read_from_a_place(rt: HostRuntime) {
    let found = tokens(rt.alloc(), b"7 + (1 * 2) ; not").expect(&rt, "a text");
    for (from, next) in [(0_usize, 7_usize), (2, 7), (3, 6)] {
        let from = from.min(found.len());
        let (_, after) = read_expr(rt.alloc(), &found, from, 0).expect(&rt, "a text");
        check_same(&rt, &after, &next, "the place behind an expression");
    }
    let (expr, _) = read_expr(rt.alloc(), &found, 0, 0).expect(&rt, "a text");
    let copy = expr.copy(rt.alloc()).expect(&rt, "memory");
    check_that(&rt, matches!(copy, Expr::Binary(..)), "a copy");
    let last = found.len().saturating_sub(1);
    let fault = read_expr(rt.alloc(), &found, last, 0).err();
    check_same(&rt, &fault, &Some(ReadFault::Syntax(9)), "no expression");
}
