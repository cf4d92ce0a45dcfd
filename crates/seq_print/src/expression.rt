ghost use Rattle.std.specs.Prelude.{◌≡◌, ◌++◌, codes, map};
ghost use Rattle.seq_tree.specs.Layout.{token_text};
ghost use Rattle.seq_tree.specs.Spelling.{op_token};
ghost use Rattle.seq_tree.specs.Trees.{expression_of};
ghost use Rattle.seq_print.specs.Printing.{Writes, actuals_text, expression_text, more_text};

use crate::puts::{put, put_digits};
use seq_tree::{BinOp, Expr, NoMemory};

/// The text of an operator, with a space before it and one behind it.
fn op_text(op: BinOp) -> &'static [u8]
    ensures { result.now ≡ codes " " ++ (token_text (op_token op) ++ codes " ") }
{
    match op {
        BinOp::And => b" and ",
        BinOp::Or => b" or ",
        BinOp::Xor => b" xor ",
        BinOp::Eq => b" = ",
        BinOp::Ne => b" /= ",
        BinOp::Lt => b" < ",
        BinOp::Le => b" <= ",
        BinOp::Gt => b" > ",
        BinOp::Ge => b" >= ",
        BinOp::Add => b" + ",
        BinOp::Sub => b" - ",
        BinOp::Mul => b" * ",
        BinOp::Div => b" / ",
        BinOp::Mod => b" mod ",
    }
}

/// Adds the text of an expression.
pub(crate) fn add_expression(expr: &Expr, into: &mut Vec<u8>) -> Result<(), NoMemory>
    ensures { Writes result into.old.items into.new.items (expression_text (expression_of expr.now)) }
{
    match expr {
        Expr::Number(value) => put_digits(into, *value),
        Expr::Variable(name) => put(into, name.bytes()),
        Expr::Paren(inner) => {
            put(into, b"(")?;
            add_expression(inner, into)?;
            put(into, b")")
        }
        Expr::Not(inner) => {
            put(into, b"not ")?;
            add_expression(inner, into)
        }
        Expr::Binary(op, left, right) => {
            add_expression(left, into)?;
            put(into, op_text(*op))?;
            add_expression(right, into)
        }
    }
}

/// Adds further actuals, each behind a comma.
fn add_more(actuals: &[Expr], into: &mut Vec<u8>) -> Result<(), NoMemory>
    ensures { Writes result into.old.items into.new.items (more_text (map expression_of actuals.now)) }
{
    'actuals: for actual in actuals {
        put(into, b", ")?;
        add_expression(actual, into)?;
    }
    Ok(())
}

/// Adds actuals in parentheses, where there are any, with a space before them.
pub(crate) fn add_actuals(actuals: &[Expr], into: &mut Vec<u8>) -> Result<(), NoMemory>
    ensures { Writes result into.old.items into.new.items (actuals_text (map expression_of actuals.now)) }
{
    match actuals.split_first() {
        None => Ok(()),
        Some((first, rest)) => {
            put(into, b" (")?;
            add_expression(first, into)?;
            add_more(rest, into)?;
            put(into, b")")
        }
    }
}
