ghost use Rattle.std.specs.Prelude.{◌≡◌, map, [], ◌∷◌, Option};
ghost use Rattle.seq_tree.specs.Faults.{has_unknown, is_bad_literal, is_bad_divisor, has_bad_divisor, condition, conditions, expressions_fault};
ghost use Rattle.seq_tree.specs.Faults.{word, words};
ghost use Rattle.seq_tree.specs.Statements.{Statements};
ghost use Rattle.seq_tree.specs.Trees.{arm_of, branches_of, expression_of, otherwise};
ghost use Rattle.seq_check.specs.Answers.{answer_of, first_of};
ghost use Rattle.seq_check.specs.Places.{place_of};

use crate::fault::BodyFault;
use crate::place::Place;
use crate::sorts::{is_boolean, is_word};
use seq_tree::{Arm, BinOp, Expr};

/// Whether an expression has a name that can't be read here.
fn has_unknown(expr: &Expr, place: &Place) -> bool
    ensures { result ≡ has_unknown (place_of place.now) (expression_of expr.now) }
{
    match expr {
        Expr::Number(_) => false,
        Expr::Variable(name) => !place.reads(name),
        Expr::Paren(inner) | Expr::Not(inner) => has_unknown(inner, place),
        Expr::Binary(_, left, right) => has_unknown(left, place) || has_unknown(right, place),
    }
}

/// Whether an expression is no literal, or 0.
fn is_bad_literal(expr: &Expr) -> bool
    ensures { result ≡ is_bad_literal (expression_of expr.now) }
{
    match expr {
        Expr::Number(n) => *n == 0,
        Expr::Variable(_) | Expr::Paren(_) | Expr::Not(_) | Expr::Binary(..) => true,
    }
}

/// Whether an operator divides by such an expression.
fn is_bad_divisor(op: BinOp, right: &Expr) -> bool
    ensures { result ≡ is_bad_divisor op (expression_of right.now) }
{
    match op {
        BinOp::Div | BinOp::Mod => is_bad_literal(right),
        _ => false,
    }
}

/// Whether an expression has such a divisor.
fn has_bad_divisor(expr: &Expr) -> bool
    ensures { result ≡ has_bad_divisor (expression_of expr.now) }
{
    match expr {
        Expr::Number(_) | Expr::Variable(_) => false,
        Expr::Paren(inner) | Expr::Not(inner) => has_bad_divisor(inner),
        Expr::Binary(op, left, right) => {
            is_bad_divisor(*op, right) || has_bad_divisor(left) || has_bad_divisor(right)
        }
    }
}

/// The first of three faults, of those that stand.
fn first_fault(is_unknown: bool, is_missorted: bool, has_divisor: bool) -> Result<(), BodyFault>
    ensures { result ≡ answer_of (first_of is_unknown is_missorted has_divisor) }
{
    if is_unknown {
        return Err(BodyFault::Unknown);
    }
    if is_missorted {
        return Err(BodyFault::Sort);
    }
    if has_divisor {
        return Err(BodyFault::Divisor);
    }
    Ok(())
}

/// Tells the first fault of an expression that is to be a Word.
pub(crate) fn check_word(expr: &Expr, place: &Place) -> Result<(), BodyFault>
    ensures { result ≡ answer_of (expressions_fault (place_of place.now) (word (expression_of expr.now) ∷ [])) }
{
    first_fault(
        has_unknown(expr, place),
        !is_word(expr),
        has_bad_divisor(expr),
    )
}

/// Tells the first fault of an expression that is to be a Boolean.
pub(crate) fn check_condition(expr: &Expr, place: &Place) -> Result<(), BodyFault>
    ensures { result ≡ answer_of (expressions_fault (place_of place.now) (condition (expression_of expr.now) ∷ [])) }
{
    first_fault(
        has_unknown(expr, place),
        !is_boolean(expr),
        has_bad_divisor(expr),
    )
}

/// Tells the first fault of expressions that are to be Words.
pub(crate) fn check_words(exprs: &[Expr], place: &Place) -> Result<(), BodyFault>
    ensures { result ≡ answer_of (expressions_fault (place_of place.now) (words (map expression_of exprs.now))) }
{
    first_fault(
        exprs.iter().any(|e| has_unknown(e, place)),
        exprs.iter().any(|e| !is_word(e)),
        exprs.iter().any(|e| has_bad_divisor(e)),
    )
}

/// Tells the first fault of the conditions of an `if`.
pub(crate) fn check_conditions(arms: &[Arm], place: &Place) -> Result<(), BodyFault>
    ensures { (other : Option Statements)
        → result ≡ answer_of (expressions_fault (place_of place.now) (conditions (branches_of (map arm_of arms.now) (otherwise other)))) }
{
    first_fault(
        arms.iter().any(|a| has_unknown(&a.cond, place)),
        arms.iter().any(|a| !is_boolean(&a.cond)),
        arms.iter().any(|a| has_bad_divisor(&a.cond)),
    )
}
