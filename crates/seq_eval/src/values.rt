ghost use Rattle.std.specs.Prelude.{◌≡◌, ◌≤◌, false, Some};
ghost use Rattle.seq_tree.specs.Trees.{expression_of};
ghost use Rattle.seq_tree.specs.Values.{value, is_boolean};
ghost use Rattle.seq_tree.specs.Variables.{read};
ghost use Rattle.seq_tree.specs.Sorts.{sort_of, Boolean};

use crate::lookup::Lookup;
use crate::operators::{combine, gives_boolean, invert};
use seq_tree::{Expr, Name};

/// The value of an expression, and whether the expression is a Boolean.
#[derive(Clone, Copy)]
struct Valued {
    value: u32,
    is_boolean: bool,
}

/// A word.
fn word(value: u32) -> Valued
    ensures value { result.value ≡ value }
    ensures is_boolean { result.is_boolean ≡ false }
{
    Valued {
        value,
        is_boolean: false,
    }
}

/// The value of the first variable of that name, and 0 where there is none.
#[tactic(auto, using(crate::proofs::Shared::Reading::found_read))]
fn read<L: Lookup>(name: &Name, env: &L) -> u32
    ensures { result ≡ read name.now (L.meaning env.now) }
{
    env.value(name).unwrap_or(0)
}

/// The value of the expression over the variables, and whether the expression is a Boolean.
fn evaluate<L: Lookup>(expr: &Expr, env: &L) -> Valued
    ensures value { result.value ≡ value (expression_of expr.now) (L.meaning env.now) }
    ensures is_boolean { result.is_boolean ≡ is_boolean (expression_of expr.now) }
{
    match expr {
        Expr::Number(value) => word(*value),
        Expr::Variable(name) => word(read(name, env)),
        Expr::Paren(inner) => evaluate(inner, env),
        Expr::Not(inner) => {
            let inner = evaluate(inner, env);
            Valued {
                value: invert(inner.is_boolean, inner.value),
                is_boolean: inner.is_boolean,
            }
        }
        Expr::Binary(op, left, right) => {
            let left = evaluate(left, env);
            let right = evaluate(right, env);
            Valued {
                value: combine(*op, left.value, right.value),
                is_boolean: gives_boolean(*op, left.is_boolean),
            }
        }
    }
}

/// The value of the expression over the variables: a word modulo 2^32, and 1 or 0 for a Boolean. A name that no variable has
/// counts as 0, and so does a quotient by 0; in a program that meets the rules there is neither. It takes no memory.
#[tactic(auto, using(crate::proofs::Truths::truths))]
pub fn eval<L: Lookup>(expr: &Expr, env: &L) -> u32
    ensures value { result ≡ value (expression_of expr.now) (L.meaning env.now) }
    ensures truth { sort_of (expression_of expr.now) ≡ Some Boolean → result ≤ 1 }
{
    evaluate(expr, env).value
}
