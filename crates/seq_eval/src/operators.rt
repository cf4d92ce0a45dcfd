ghost use Rattle.std.specs.Prelude.{◌≡◌};
ghost use Rattle.seq_tree.specs.Values.{combined, inverted, is_boolean_op};

use seq_tree::BinOp;

/// The value of an operator at two values, modulo 2^32. A comparison answers a truth value, which is 1 or 0, and `and`, `or` and `xor` work bit
/// by bit. No program that meets the rules divides by 0; the quotient is 0 there, and the remainder the left value. It takes no memory.
#[tactic(auto, using(crate::proofs::Divisions::by_nothing))]
pub fn combine(op: BinOp, left: u32, right: u32) -> u32
    ensures { result ≡ combined op left right }
{
    match op {
        BinOp::And => left & right,
        BinOp::Or => left | right,
        BinOp::Xor => left ^ right,
        BinOp::Eq => u32::from(left == right),
        BinOp::Ne => u32::from(left != right),
        BinOp::Lt => u32::from(left < right),
        BinOp::Le => u32::from(left <= right),
        BinOp::Gt => u32::from(left > right),
        BinOp::Ge => u32::from(left >= right),
        BinOp::Add => left.wrapping_add(right),
        BinOp::Sub => left.wrapping_sub(right),
        BinOp::Mul => left.wrapping_mul(right),
        BinOp::Div => left.checked_div(right).unwrap_or(0),
        BinOp::Mod => left.checked_rem(right).unwrap_or(left),
    }
}

/// The value of `not` at the value of a Boolean, which is 1 or 0, or at a word, whose 32 bits are inverted. For a Boolean any value but 0
/// counts as 1. It takes no memory.
pub fn invert(is_boolean: bool, value: u32) -> u32
    ensures { result ≡ inverted is_boolean value }
{
    if is_boolean {
        u32::from(value == 0)
    } else {
        u32::MAX - value
    }
}

/// Whether an operator gives a Boolean, where its left operand is one or not: a comparison always does, a logical operator where its operands
/// do, and an operator of arithmetic never.
pub fn gives_boolean(op: BinOp, left: bool) -> bool
    ensures { result ≡ is_boolean_op op left }
{
    match op {
        BinOp::And | BinOp::Or | BinOp::Xor => left,
        BinOp::Eq | BinOp::Ne | BinOp::Lt | BinOp::Le | BinOp::Gt | BinOp::Ge => true,
        BinOp::Add | BinOp::Sub | BinOp::Mul | BinOp::Div | BinOp::Mod => false,
    }
}
