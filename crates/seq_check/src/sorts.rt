ghost use Rattle.std.specs.Prelude.{◌≡◌, ◌&&◌, ◌||◌};
ghost use Rattle.seq_tree.specs.Levels.{level_of};
ghost use Rattle.seq_tree.specs.Sorts.{Boolean, Word, contains_name, has_sort};
ghost use Rattle.seq_tree.specs.Trees.{expression_of};
ghost use Rattle.seq_check.specs.LevelViews.{level_view};

use seq_tree::{BinOp, Expr};

/// What an operator does with its operands.
enum Level {
    Logical,
    Relational,
    Arithmetic,
}

/// The level of an operator.
fn level_of(op: BinOp) -> Level
    ensures { result ≡ level_view (level_of op) }
{
    match op {
        BinOp::And | BinOp::Or | BinOp::Xor => Level::Logical,
        BinOp::Eq | BinOp::Ne | BinOp::Lt | BinOp::Le | BinOp::Gt | BinOp::Ge => Level::Relational,
        BinOp::Add | BinOp::Sub | BinOp::Mul | BinOp::Div | BinOp::Mod => Level::Arithmetic,
    }
}

/// Whether an expression contains a name.
fn contains_name(expr: &Expr) -> bool
    ensures { result ≡ contains_name (expression_of expr.now) }
{
    match expr {
        Expr::Number(_) => false,
        Expr::Variable(_) => true,
        Expr::Paren(inner) | Expr::Not(inner) => contains_name(inner),
        Expr::Binary(_, left, right) => contains_name(left) || contains_name(right),
    }
}

/// Whether an expression is a Word.
#[tactic(auto, using(crate::proofs::SortLaws::sort_laws))]
pub(crate) fn is_word(expr: &Expr) -> bool
    ensures { result ≡ has_sort Word (expression_of expr.now) }
{
    match expr {
        Expr::Number(_) | Expr::Variable(_) => true,
        Expr::Paren(inner) | Expr::Not(inner) => is_word(inner),
        Expr::Binary(op, left, right) => match level_of(*op) {
            Level::Relational => false,
            Level::Logical | Level::Arithmetic => is_word(left) && is_word(right),
        },
    }
}

/// Whether an expression is a Boolean. A comparison without a name is none.
#[tactic(auto, using(crate::proofs::SortLaws::sort_laws))]
pub(crate) fn is_boolean(expr: &Expr) -> bool
    ensures { result ≡ has_sort Boolean (expression_of expr.now) }
{
    match expr {
        Expr::Number(_) | Expr::Variable(_) => false,
        Expr::Paren(inner) | Expr::Not(inner) => is_boolean(inner),
        Expr::Binary(op, left, right) => match level_of(*op) {
            Level::Logical => is_boolean(left) && is_boolean(right),
            Level::Relational => compares_words(left, right),
            Level::Arithmetic => false,
        },
    }
}

/// Whether both operands of a comparison are Words, and one of them contains a name.
fn compares_words(left: &Expr, right: &Expr) -> bool
    ensures { result ≡ (has_sort Word (expression_of left.now) && has_sort Word (expression_of right.now)
        && (contains_name (expression_of left.now) || contains_name (expression_of right.now))) }
{
    is_word(left) && is_word(right) && (contains_name(left) || contains_name(right))
}
