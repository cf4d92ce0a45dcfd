ghost use Rattle.seq_tree.specs.Trees.{expression_of};
ghost use Rattle.token_read.specs.Ahead.{ahead};
ghost use Rattle.seq_read.specs.Halts.{Gives};
ghost use Rattle.seq_read.specs.Names.{may_name};
ghost use Rattle.seq_read.specs.Expressions.{literal_at, variable_at, primary_at, inverse_at, factor_at, chain_at, term_at, simple_at};
ghost use Rattle.seq_read.specs.Expressions.{comparison_at, relation_at, expression_at};
ghost use Rattle.seq_read.specs.Levels.{opened_at, operand_at, binary_at, expression_from};

use crate::halt::Halt;
use crate::names::Text;
use crate::operators::{Class, begins, goes_on, logical_class, operator};
use crate::tokens::{mark, name, number, word};
use seq_tree::{Expr, Mark};
use std::alloc::Global;
use token_read::{Tokens, next_is_mark, next_is_number, next_is_word};

/// A number.
#[tactic(auto, unfolding(crate::specs::Expressions::literal_at))]
fn literal(tokens: Tokens) -> Result<(Expr, Tokens), Halt>
    ensures { Gives (λ r. (expression_of r.0, ahead r.1)) result (literal_at (ahead tokens.entry)) }
{
    let (value, tokens) = number(tokens)?;
    Ok((Expr::Number(value), tokens))
}

/// A variable.
#[tactic(auto, unfolding(crate::specs::Expressions::variable_at))]
fn variable(alloc: Global, tokens: Tokens, text: Text) -> Result<(Expr, Tokens), Halt>
    ensures { Gives (λ r. (expression_of r.0, ahead r.1)) result (variable_at (may_name text) (ahead tokens.entry)) }
{
    let (variable, tokens) = name(alloc, tokens, text)?;
    Ok((Expr::Variable(variable), tokens))
}

/// An expression in parentheses, inside which they nest less deep than `deeper`.
#[cycle(levels)]
#[tactic(auto, unfolding(crate::specs::Expressions::paren_at))]
fn paren(alloc: Global, tokens: Tokens, text: Text, deeper: u32) -> Result<(Expr, Tokens), Halt>
    ensures { Gives (λ r. (expression_of r.0, ahead r.1)) result (opened_at (may_name text) 32 deeper (ahead tokens.entry)) }
{
    let Some(deeper) = deeper.checked_sub(1) else {
        return Err(Halt::TooDeep(tokens.len()));
    };
    let tokens = mark(tokens, Mark::LeftParen)?;
    let (inner, tokens) = expression(alloc, tokens, text, deeper)?;
    let tokens = mark(tokens, Mark::RightParen)?;
    Ok((Expr::Paren(Box::new(alloc, inner)?), tokens))
}

/// A number, a variable, or an expression in parentheses.
#[cycle(levels)]
#[tactic(auto, unfolding(crate::specs::Expressions::primary_at))]
fn primary(alloc: Global, tokens: Tokens, text: Text, deeper: u32) -> Result<(Expr, Tokens), Halt>
    ensures { Gives (λ r. (expression_of r.0, ahead r.1)) result (primary_at (may_name text) (opened_at (may_name text) 32 deeper)
        (ahead tokens.entry)) }
{
    if next_is_mark(tokens, Mark::LeftParen) {
        paren(alloc, tokens, text, deeper)
    } else if next_is_number(tokens) {
        literal(tokens)
    } else {
        variable(alloc, tokens, text)
    }
}

/// `not` and a primary.
#[cycle(levels)]
#[tactic(auto, unfolding(crate::specs::Expressions::inverse_at))]
fn inverse(alloc: Global, tokens: Tokens, text: Text, deeper: u32) -> Result<(Expr, Tokens), Halt>
    ensures { Gives (λ r. (expression_of r.0, ahead r.1)) result (inverse_at (may_name text) (opened_at (may_name text) 32 deeper)
        (ahead tokens.entry)) }
{
    let tokens = word(tokens, b"not")?;
    let (inner, tokens) = primary(alloc, tokens, text, deeper)?;
    Ok((Expr::Not(Box::new(alloc, inner)?), tokens))
}

/// A primary, or `not` and a primary.
#[cycle(levels)]
#[tactic(auto, unfolding(crate::specs::Expressions::factor_at))]
fn factor(alloc: Global, tokens: Tokens, text: Text, deeper: u32) -> Result<(Expr, Tokens), Halt>
    ensures { Gives (λ r. (expression_of r.0, ahead r.1)) result (factor_at (may_name text) (opened_at (may_name text) 32 deeper)
        (ahead tokens.entry)) }
{
    if next_is_word(tokens, b"not") {
        inverse(alloc, tokens, text, deeper)
    } else {
        primary(alloc, tokens, text, deeper)
    }
}

/// What stands between operators of a class.
#[cycle(levels)]
fn operand(
    alloc: Global,
    tokens: Tokens,
    text: Text,
    deeper: u32,
    class: Class,
) -> Result<(Expr, Tokens), Halt>
    ensures { Gives (λ r. (expression_of r.0, ahead r.1)) result (operand_at (may_name text) 32 (opened_at (may_name text) 32 deeper) class
        (ahead tokens.entry)) }
{
    match class {
        Class::Multiplying => factor(alloc, tokens, text, deeper),
        Class::Adding => term(alloc, tokens, text, deeper),
        Class::Relational => simple(alloc, tokens, text, deeper),
        Class::And | Class::Or | Class::Xor => relation(alloc, tokens, text, deeper),
    }
}

/// An operator of a class behind its left side, and its right side.
#[cycle(levels)]
fn binary(
    alloc: Global,
    left: Expr,
    tokens: Tokens,
    text: Text,
    deeper: u32,
    class: Class,
) -> Result<(Expr, Tokens), Halt>
    ensures { Gives (λ r. (expression_of r.0, ahead r.1)) result
        (binary_at class (operand_at (may_name text) 32 (opened_at (may_name text) 32 deeper) class) (expression_of left) (ahead tokens.entry)) }
{
    let (op, tokens) = operator(tokens, class)?;
    let (right, tokens) = operand(alloc, tokens, text, deeper, class)?;
    let left = Box::new(alloc, left)?;
    let right = Box::new(alloc, right)?;
    Ok((Expr::Binary(op, left, right), tokens))
}

/// What operators of a class, at most 32, make of the first operand. They group to the left.
#[cycle(levels)]
#[tactic(auto, using(crate::proofs::Chains::chain_steps))]
fn chain(
    alloc: Global,
    first: Expr,
    tokens: Tokens,
    text: Text,
    deeper: u32,
    class: Class,
) -> Result<(Expr, Tokens), Halt>
    ensures { Gives (λ r. (expression_of r.0, ahead r.1)) result
        (chain_at class (operand_at (may_name text) 32 (opened_at (may_name text) 32 deeper) class) 32 (expression_of first) (ahead tokens.entry)) }
{
    let mut left = first;
    let mut rest = tokens;
    let mut room: u32 = 32;
    'operators: while begins(rest, class) {
        if room == 0 {
            return Err(Halt::TooDeep(rest.len()));
        }
        let (more, after) = binary(alloc, left, rest, text, deeper, class)?;
        left = more;
        rest = after;
        room -= 1;
    }
    Ok((left, rest))
}

/// Factors.
#[cycle(levels)]
#[tactic(auto, unfolding(crate::specs::Expressions::term_at))]
fn term(alloc: Global, tokens: Tokens, text: Text, deeper: u32) -> Result<(Expr, Tokens), Halt>
    ensures { Gives (λ r. (expression_of r.0, ahead r.1)) result (term_at (may_name text) 32 (opened_at (may_name text) 32 deeper)
        (ahead tokens.entry)) }
{
    let (first, tokens) = factor(alloc, tokens, text, deeper)?;
    chain(alloc, first, tokens, text, deeper, Class::Multiplying)
}

/// Terms.
#[cycle(levels)]
#[tactic(auto, unfolding(crate::specs::Expressions::simple_at))]
fn simple(alloc: Global, tokens: Tokens, text: Text, deeper: u32) -> Result<(Expr, Tokens), Halt>
    ensures { Gives (λ r. (expression_of r.0, ahead r.1)) result (simple_at (may_name text) 32 (opened_at (may_name text) 32 deeper)
        (ahead tokens.entry)) }
{
    let (first, tokens) = term(alloc, tokens, text, deeper)?;
    chain(alloc, first, tokens, text, deeper, Class::Adding)
}

/// A comparison behind its first side, or that side alone.
#[cycle(levels)]
#[tactic(auto, unfolding(crate::specs::Expressions::comparison_at))]
fn compared(
    alloc: Global,
    left: Expr,
    tokens: Tokens,
    text: Text,
    deeper: u32,
) -> Result<(Expr, Tokens), Halt>
    ensures { Gives (λ r. (expression_of r.0, ahead r.1)) result (comparison_at (may_name text) 32 (opened_at (may_name text) 32 deeper)
        (expression_of left) (ahead tokens.entry)) }
{
    if begins(tokens, Class::Relational) {
        binary(alloc, left, tokens, text, deeper, Class::Relational)
    } else {
        Ok((left, tokens))
    }
}

/// A comparison, or one side alone.
#[cycle(levels)]
#[tactic(auto, unfolding(crate::specs::Expressions::relation_at))]
fn relation(alloc: Global, tokens: Tokens, text: Text, deeper: u32) -> Result<(Expr, Tokens), Halt>
    ensures { Gives (λ r. (expression_of r.0, ahead r.1)) result (relation_at (may_name text) 32 (opened_at (may_name text) 32 deeper)
        (ahead tokens.entry)) }
{
    let (left, tokens) = simple(alloc, tokens, text, deeper)?;
    compared(alloc, left, tokens, text, deeper)
}

/// What operators of all classes make of a first factor.
#[cycle(levels)]
#[tactic(auto, unfolding(crate::specs::Levels::expression_from), using(crate::proofs::Chains::logic_steps))]
fn onward(
    alloc: Global,
    first: Expr,
    tokens: Tokens,
    text: Text,
    deeper: u32,
) -> Result<(Expr, Tokens), Halt>
    ensures { Gives (λ r. (expression_of r.0, ahead r.1)) result (expression_from (may_name text) 32 (opened_at (may_name text) 32 deeper)
        (expression_of first) (ahead tokens.entry)) }
{
    let (left, tokens) = chain(alloc, first, tokens, text, deeper, Class::Multiplying)?;
    let (left, tokens) = chain(alloc, left, tokens, text, deeper, Class::Adding)?;
    let (left, tokens) = compared(alloc, left, tokens, text, deeper)?;
    chain(alloc, left, tokens, text, deeper, logical_class(tokens))
}

/// The longest expression at the front, and the tokens after it.
///
/// Parentheses nest at most `deeper` deep, and a chain has at most 32 operators. `Syntax` comes at the token with which no
/// expression goes on, `TooDeep` at the one with which none within these limits does.
// Most expressions are one factor, so the classes of operators are gone through only where an operator follows it.
#[cycle(levels)]
#[tactic(auto, using(crate::proofs::Chains::expression_steps))]
pub fn expression(
    alloc: Global,
    tokens: Tokens,
    text: Text,
    deeper: u32,
) -> Result<(Expr, Tokens), Halt>
    ensures { Gives (λ r. (expression_of r.0, ahead r.1)) result (expression_at (may_name text) 32 deeper (ahead tokens.entry)) }
{
    let (first, tokens) = factor(alloc, tokens, text, deeper)?;
    if goes_on(tokens) {
        onward(alloc, first, tokens, text, deeper)
    } else {
        Ok((first, tokens))
    }
}
