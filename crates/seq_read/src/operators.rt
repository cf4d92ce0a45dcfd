ghost use Rattle.std.specs.Prelude.{◌≡◌, Some};
ghost use Rattle.grammar.specs.Reading.{first, token_at};
ghost use Rattle.token_read.specs.Ahead.{ahead};
ghost use Rattle.token_read.specs.Lexemes.{token_of};
ghost use Rattle.seq_read.specs.Halts.{Gives};
ghost use Rattle.seq_read.specs.Operators.{begins, goes_on, logical_class, sees_operator};

use crate::halt::Halt;
use seq_tree::{BinOp, Mark};
use token_read::{Lexeme, Tokens};

/// The operators that may stand in one chain. Relational ones make no chain.
#[derive(Clone, Copy, Debug, PartialEq, Eq)]
pub(crate) enum Class {
    Multiplying,
    Adding,
    Relational,
    And,
    Or,
    Xor,
}

/// The operator of a class that a token is.
#[inline(always)]
#[tactic(auto, unfolding(crate::specs::Operators::sees_operator))]
fn operator_of(lexeme: Lexeme, class: Class) -> Option<BinOp>
    ensures { result ≡ sees_operator class (token_of lexeme.entry) }
{
    match (class, lexeme) {
        (Class::Multiplying, Lexeme::Sign(Mark::Star)) => Some(BinOp::Mul),
        (Class::Multiplying, Lexeme::Sign(Mark::Slash)) => Some(BinOp::Div),
        (Class::Multiplying, Lexeme::Word(word)) if word.is(b"mod") => Some(BinOp::Mod),
        (Class::Adding, Lexeme::Sign(Mark::Plus)) => Some(BinOp::Add),
        (Class::Adding, Lexeme::Sign(Mark::Minus)) => Some(BinOp::Sub),
        (Class::Relational, Lexeme::Sign(Mark::Equal)) => Some(BinOp::Eq),
        (Class::Relational, Lexeme::Sign(Mark::NotEqual)) => Some(BinOp::Ne),
        (Class::Relational, Lexeme::Sign(Mark::Less)) => Some(BinOp::Lt),
        (Class::Relational, Lexeme::Sign(Mark::LessEqual)) => Some(BinOp::Le),
        (Class::Relational, Lexeme::Sign(Mark::Greater)) => Some(BinOp::Gt),
        (Class::Relational, Lexeme::Sign(Mark::GreaterEqual)) => Some(BinOp::Ge),
        (Class::And, Lexeme::Word(word)) if word.is(b"and") => Some(BinOp::And),
        (Class::Or, Lexeme::Word(word)) if word.is(b"or") => Some(BinOp::Or),
        (Class::Xor, Lexeme::Word(word)) if word.is(b"xor") => Some(BinOp::Xor),
        _ => None,
    }
}

/// The operator of a class that is first, and the tokens after it.
pub(crate) fn operator(tokens: Tokens, class: Class) -> Result<(BinOp, Tokens), Halt>
    ensures { Gives (λ r. (r.0, ahead r.1)) result (token_at (sees_operator class) (ahead tokens.entry)) }
{
    let Some((lexeme, rest)) = tokens.split_first() else {
        return Err(Halt::Syntax(0));
    };
    match operator_of(lexeme, class) {
        Some(op) => Ok((op, rest)),
        None => Err(Halt::Syntax(tokens.len())),
    }
}

/// Whether an operator of a class is next.
pub(crate) fn begins(tokens: Tokens, class: Class) -> bool
    ensures { result ≡ begins class (first (ahead tokens.entry)) }
{
    match tokens.first() {
        Some(lexeme) => operator_of(lexeme, class).is_some(),
        None => false,
    }
}

/// Whether a token is an operator of any class.
fn is_operator(lexeme: Lexeme) -> bool
    ensures { result ≡ goes_on (Some (token_of lexeme.entry)) }
{
    operator_of(lexeme, Class::Multiplying).is_some()
        || operator_of(lexeme, Class::Adding).is_some()
        || operator_of(lexeme, Class::Relational).is_some()
        || operator_of(lexeme, Class::And).is_some()
        || operator_of(lexeme, Class::Or).is_some()
        || operator_of(lexeme, Class::Xor).is_some()
}

/// Whether an operator of any class is next.
pub(crate) fn goes_on(tokens: Tokens) -> bool
    ensures { result ≡ goes_on (first (ahead tokens.entry)) }
{
    match tokens.first() {
        Some(lexeme) => is_operator(lexeme),
        None => false,
    }
}

/// The class of logical operators that is next, or that of `xor`.
#[tactic(auto, unfolding(crate::specs::Operators::logical_class))]
pub(crate) fn logical_class(tokens: Tokens) -> Class
    ensures { result ≡ logical_class (first (ahead tokens.entry)) }
{
    if begins(tokens, Class::And) {
        Class::And
    } else if begins(tokens, Class::Or) {
        Class::Or
    } else {
        Class::Xor
    }
}
