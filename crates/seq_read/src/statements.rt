ghost use Rattle.std.specs.Prelude.{◌≡◌, map, option_map};
ghost use Rattle.grammar.specs.Reading.{first};
ghost use Rattle.seq_tree.specs.Trees.{arm_of, block_of, expression_of, otherwise, statement_of};
ghost use Rattle.token_read.specs.Ahead.{ahead};
ghost use Rattle.seq_read.specs.Halts.{Gives};
ghost use Rattle.seq_read.specs.Names.{may_name};
ghost use Rattle.seq_read.specs.Expressions.{expression_at};
ghost use Rattle.seq_read.specs.Statements.{actuals_at, arm_at, assignment_at, begins_statement, block_at, call_at, else_at, exit_at};
ghost use Rattle.seq_read.specs.Statements.{for_behind, further_at, guarded_at, if_at, kind_of, list_at, named_at, next_is_name, null_at};
ghost use Rattle.seq_read.specs.Statements.{otherwise_at, put_at, statement_at, statement_with, work_at};
ghost use Rattle.seq_read.specs.Nesting.{branching_at, looping_at};

use crate::expressions::expression;
use crate::halt::Halt;
use crate::names::{Text, next_is_name};
use crate::tokens::{mark, name, number, word};
use seq_tree::{Arm, Block, Expr, Mark, Name, Stmt};
use std::alloc::Global;
use token_read::{Tokens, next_is_mark, next_is_word};

/// The kinds of statements, by how they begin.
#[derive(Clone, Copy, Debug, PartialEq, Eq)]
pub(crate) enum Kind {
    Null,
    If,
    For,
    Exit,
    Work,
    Put,
    /// An assignment or a call, which begin with a name.
    Named,
}

/// The kind of statement that the next token begins: by its word, or by a name.
#[inline(always)]
#[tactic(auto, unfolding(crate::specs::Statements::kind_of))]
fn kind_of(tokens: Tokens) -> Kind
    ensures { result ≡ kind_of (first (ahead tokens.entry)) }
{
    if next_is_word(tokens, b"null") {
        Kind::Null
    } else if next_is_word(tokens, b"if") {
        Kind::If
    } else if next_is_word(tokens, b"for") {
        Kind::For
    } else if next_is_word(tokens, b"exit") {
        Kind::Exit
    } else if next_is_word(tokens, b"work") {
        Kind::Work
    } else if next_is_word(tokens, b"put") {
        Kind::Put
    } else {
        Kind::Named
    }
}

/// Whether a statement is next.
#[inline(always)]
#[tactic(auto, unfolding(crate::specs::Statements::begins_statement))]
fn begins_statement(tokens: Tokens, text: Text) -> bool
    ensures { result ≡ begins_statement (may_name text) (first (ahead tokens.entry)) }
{
    match kind_of(tokens) {
        Kind::Named => next_is_name(tokens, text),
        _ => true,
    }
}

/// `null;`
#[tactic(auto, unfolding(crate::specs::Statements::null_at))]
fn null(tokens: Tokens) -> Result<(Stmt, Tokens), Halt>
    ensures { Gives (λ r. (statement_of r.0, ahead r.1)) result (null_at (ahead tokens.entry)) }
{
    let tokens = word(tokens, b"null")?;
    let tokens = mark(tokens, Mark::Semicolon)?;
    Ok((Stmt::Null, tokens))
}

/// `work (n);`
#[tactic(auto, unfolding(crate::specs::Statements::work_at))]
fn work(tokens: Tokens) -> Result<(Stmt, Tokens), Halt>
    ensures { Gives (λ r. (statement_of r.0, ahead r.1)) result (work_at (ahead tokens.entry)) }
{
    let tokens = word(tokens, b"work")?;
    let tokens = mark(tokens, Mark::LeftParen)?;
    let (ticks, tokens) = number(tokens)?;
    let tokens = mark(tokens, Mark::RightParen)?;
    let tokens = mark(tokens, Mark::Semicolon)?;
    Ok((Stmt::Work(ticks), tokens))
}

/// `put (e);`
#[tactic(auto, unfolding(crate::specs::Statements::put_at))]
fn put(alloc: Global, tokens: Tokens, text: Text, deeper: u32) -> Result<(Stmt, Tokens), Halt>
    ensures { Gives (λ r. (statement_of r.0, ahead r.1)) result (put_at (expression_at (may_name text) 32 deeper) (ahead tokens.entry)) }
{
    let tokens = word(tokens, b"put")?;
    let tokens = mark(tokens, Mark::LeftParen)?;
    let (value, tokens) = expression(alloc, tokens, text, deeper)?;
    let tokens = mark(tokens, Mark::RightParen)?;
    let tokens = mark(tokens, Mark::Semicolon)?;
    Ok((Stmt::Put(value), tokens))
}

/// `exit when e;`
#[tactic(auto, unfolding(crate::specs::Statements::exit_at))]
fn exit(alloc: Global, tokens: Tokens, text: Text, deeper: u32) -> Result<(Stmt, Tokens), Halt>
    ensures { Gives (λ r. (statement_of r.0, ahead r.1)) result (exit_at (expression_at (may_name text) 32 deeper) (ahead tokens.entry)) }
{
    let tokens = word(tokens, b"exit")?;
    let tokens = word(tokens, b"when")?;
    let (condition, tokens) = expression(alloc, tokens, text, deeper)?;
    let tokens = mark(tokens, Mark::Semicolon)?;
    Ok((Stmt::ExitWhen(condition), tokens))
}

/// An assignment, behind its target.
#[tactic(auto, unfolding(crate::specs::Statements::assignment_at))]
fn assignment(
    alloc: Global,
    target: Name,
    tokens: Tokens,
    text: Text,
    deeper: u32,
) -> Result<(Stmt, Tokens), Halt>
    ensures { Gives (λ r. (statement_of r.0, ahead r.1)) result (assignment_at (expression_at (may_name text) 32 deeper) target
        (ahead tokens.entry)) }
{
    let tokens = mark(tokens, Mark::Becomes)?;
    let (value, tokens) = expression(alloc, tokens, text, deeper)?;
    let tokens = mark(tokens, Mark::Semicolon)?;
    Ok((Stmt::Assign { target, value }, tokens))
}

/// A further actual.
#[tactic(auto, unfolding(crate::specs::Statements::further_at))]
fn further(alloc: Global, tokens: Tokens, text: Text, deeper: u32) -> Result<(Expr, Tokens), Halt>
    ensures { Gives (λ r. (expression_of r.0, ahead r.1)) result (further_at (expression_at (may_name text) 32 deeper) (ahead tokens.entry)) }
{
    let tokens = mark(tokens, Mark::Comma)?;
    expression(alloc, tokens, text, deeper)
}

/// Actuals in parentheses.
#[tactic(auto, unfolding(crate::specs::Statements::list_at), using(crate::proofs::ActualSteps::actual_steps))]
fn list(alloc: Global, tokens: Tokens, text: Text, deeper: u32) -> Result<(Vec<Expr>, Tokens), Halt>
    ensures { Gives (λ r. (map expression_of r.0.items, ahead r.1)) result (list_at (expression_at (may_name text) 32 deeper) (ahead tokens.entry)) }
{
    let opened = mark(tokens, Mark::LeftParen)?;
    let (head, mut rest) = expression(alloc, opened, text, deeper)?;
    let mut actuals = Vec::new(alloc);
    actuals.push(head)?;
    'actuals: while next_is_mark(rest, Mark::Comma) {
        let (next, after) = further(alloc, rest, text, deeper)?;
        actuals.push(next)?;
        rest = after;
    }
    let closed = mark(rest, Mark::RightParen)?;
    actuals.shrink_to_fit();
    Ok((actuals, closed))
}

/// Actuals, where there are any.
#[tactic(auto, unfolding(crate::specs::Statements::actuals_at))]
fn actuals(
    alloc: Global,
    tokens: Tokens,
    text: Text,
    deeper: u32,
) -> Result<(Vec<Expr>, Tokens), Halt>
    ensures { Gives (λ r. (map expression_of r.0.items, ahead r.1)) result
        (actuals_at (expression_at (may_name text) 32 deeper) (ahead tokens.entry)) }
{
    if next_is_mark(tokens, Mark::LeftParen) {
        list(alloc, tokens, text, deeper)
    } else {
        Ok((Vec::new(alloc), tokens))
    }
}

/// A call, behind the name of its object.
#[tactic(auto, unfolding(crate::specs::Statements::call_at))]
fn call(
    alloc: Global,
    object: Name,
    tokens: Tokens,
    text: Text,
    deeper: u32,
) -> Result<(Stmt, Tokens), Halt>
    ensures { Gives (λ r. (statement_of r.0, ahead r.1)) result (call_at (may_name text) (expression_at (may_name text) 32 deeper) object
        (ahead tokens.entry)) }
{
    let tokens = mark(tokens, Mark::Dot)?;
    let (op, tokens) = name(alloc, tokens, text)?;
    let (actuals, tokens) = actuals(alloc, tokens, text, deeper)?;
    let tokens = mark(tokens, Mark::Semicolon)?;
    Ok((
        Stmt::Call {
            object,
            op,
            actuals,
        },
        tokens,
    ))
}

/// An assignment or a call.
#[tactic(auto, unfolding(crate::specs::Statements::named_at))]
fn named(alloc: Global, tokens: Tokens, text: Text, deeper: u32) -> Result<(Stmt, Tokens), Halt>
    ensures { Gives (λ r. (statement_of r.0, ahead r.1)) result (named_at (may_name text) (expression_at (may_name text) 32 deeper)
        (ahead tokens.entry)) }
{
    let (first, tokens) = name(alloc, tokens, text)?;
    if next_is_mark(tokens, Mark::Becomes) {
        assignment(alloc, first, tokens, text, deeper)
    } else {
        call(alloc, first, tokens, text, deeper)
    }
}

/// A condition, and the block behind `then`.
#[cycle(nesting)]
#[tactic(auto, unfolding(crate::specs::Statements::guarded_at))]
fn guarded(alloc: Global, tokens: Tokens, text: Text, deeper: u32) -> Result<(Arm, Tokens), Halt>
    ensures { Gives (λ r. (arm_of r.0, ahead r.1)) result (guarded_at (expression_at (may_name text) 32 deeper) (block_at (may_name text) 32 deeper)
        (ahead tokens.entry)) }
{
    let (cond, tokens) = expression(alloc, tokens, text, deeper)?;
    let tokens = word(tokens, b"then")?;
    let (block, tokens) = block(alloc, tokens, text, deeper)?;
    Ok((Arm { cond, block }, tokens))
}

/// `elsif` with its condition and its block.
#[cycle(nesting)]
#[tactic(auto, unfolding(crate::specs::Statements::arm_at))]
fn arm(alloc: Global, tokens: Tokens, text: Text, deeper: u32) -> Result<(Arm, Tokens), Halt>
    ensures { Gives (λ r. (arm_of r.0, ahead r.1)) result (arm_at (expression_at (may_name text) 32 deeper) (block_at (may_name text) 32 deeper)
        (ahead tokens.entry)) }
{
    let tokens = word(tokens, b"elsif")?;
    guarded(alloc, tokens, text, deeper)
}

/// `else` with its block, or nothing.
#[cycle(nesting)]
#[tactic(auto, unfolding(crate::specs::Statements::otherwise_at, crate::specs::Statements::else_at))]
fn other(
    alloc: Global,
    tokens: Tokens,
    text: Text,
    deeper: u32,
) -> Result<(Option<Block>, Tokens), Halt>
    ensures { Gives (λ r. (otherwise (option_map block_of r.0), ahead r.1)) result
        (otherwise_at (block_at (may_name text) 32 deeper) (ahead tokens.entry)) }
{
    if next_is_word(tokens, b"else") {
        let tokens = word(tokens, b"else")?;
        let (block, tokens) = block(alloc, tokens, text, deeper)?;
        Ok((Some(block), tokens))
    } else {
        Ok((None, tokens))
    }
}

/// An `if`, inside whose parts constructs nest at most `deeper` deep.
#[cycle(nesting)]
#[tactic(auto, unfolding(crate::specs::Statements::if_at), using(crate::proofs::BlockSteps::branch_steps))]
fn conditional(
    alloc: Global,
    tokens: Tokens,
    text: Text,
    deeper: u32,
) -> Result<(Stmt, Tokens), Halt>
    ensures { Gives (λ r. (statement_of r.0, ahead r.1)) result (if_at (expression_at (may_name text) 32 deeper) (block_at (may_name text) 32 deeper)
        (ahead tokens.entry)) }
{
    let begun = word(tokens, b"if")?;
    let (head, mut rest) = guarded(alloc, begun, text, deeper)?;
    let mut arms = Vec::new(alloc);
    arms.push(head)?;
    'arms: while next_is_word(rest, b"elsif") {
        let (next, after) = arm(alloc, rest, text, deeper)?;
        arms.push(next)?;
        rest = after;
    }
    let (other, ended) = other(alloc, rest, text, deeper)?;
    let ended = word(ended, b"end")?;
    let ended = word(ended, b"if")?;
    let ended = mark(ended, Mark::Semicolon)?;
    arms.shrink_to_fit();
    let arms = Box::new(alloc, arms)?;
    Ok((Stmt::If { arms, other }, ended))
}

/// An `if`, inside which constructs nest less deep than `deeper`.
#[cycle(nesting)]
fn branching(alloc: Global, tokens: Tokens, text: Text, deeper: u32) -> Result<(Stmt, Tokens), Halt>
    ensures { Gives (λ r. (statement_of r.0, ahead r.1)) result (branching_at (may_name text) 32 deeper (ahead tokens.entry)) }
{
    match deeper.checked_sub(1) {
        None => Err(Halt::TooDeep(tokens.len())),
        Some(inner) => conditional(alloc, tokens, text, inner),
    }
}

/// The body of a loop with these bounds, inside which constructs nest at most `deeper` deep, and the loop's end.
#[cycle(nesting)]
fn loop_behind(
    alloc: Global,
    tokens: Tokens,
    text: Text,
    deeper: u32,
    name: Name,
    low: u32,
    high: u32,
) -> Result<(Stmt, Tokens), Halt>
    ensures { Gives (λ r. (statement_of r.0, ahead r.1)) result (for_behind name low high (block_at (may_name text) 32 deeper)
        (ahead tokens.entry)) }
{
    let (body, tokens) = block(alloc, tokens, text, deeper)?;
    let tokens = word(tokens, b"end")?;
    let tokens = word(tokens, b"loop")?;
    let tokens = mark(tokens, Mark::Semicolon)?;
    Ok((
        Stmt::For {
            name,
            low,
            high,
            body,
        },
        tokens,
    ))
}

/// A loop, inside which constructs nest less deep than `deeper`.
#[cycle(nesting)]
#[tactic(auto, unfolding(crate::specs::Statements::for_at))]
fn looping(alloc: Global, tokens: Tokens, text: Text, deeper: u32) -> Result<(Stmt, Tokens), Halt>
    ensures { Gives (λ r. (statement_of r.0, ahead r.1)) result (looping_at (may_name text) 32 deeper (ahead tokens.entry)) }
{
    let Some(deeper) = deeper.checked_sub(1) else {
        return Err(Halt::TooDeep(tokens.len()));
    };
    let tokens = word(tokens, b"for")?;
    let (name, tokens) = name(alloc, tokens, text)?;
    let tokens = word(tokens, b"in")?;
    let tokens = word(tokens, b"word")?;
    let tokens = word(tokens, b"range")?;
    let (low, tokens) = number(tokens)?;
    let tokens = mark(tokens, Mark::DotDot)?;
    let (high, tokens) = number(tokens)?;
    let tokens = word(tokens, b"loop")?;
    loop_behind(alloc, tokens, text, deeper, name, low, high)
}

/// A statement of a kind, inside which constructs nest at most `deeper` deep.
#[cycle(nesting)]
#[tactic(auto, unfolding(crate::specs::Statements::statement_with))]
fn of_kind(
    alloc: Global,
    tokens: Tokens,
    text: Text,
    deeper: u32,
    kind: Kind,
) -> Result<(Stmt, Tokens), Halt>
    ensures { Gives (λ r. (statement_of r.0, ahead r.1)) result (statement_with (may_name text) (expression_at (may_name text) 32 deeper)
        (branching_at (may_name text) 32 deeper) (looping_at (may_name text) 32 deeper) kind (ahead tokens.entry)) }
{
    match kind {
        Kind::Null => null(tokens),
        Kind::If => branching(alloc, tokens, text, deeper),
        Kind::For => looping(alloc, tokens, text, deeper),
        Kind::Exit => exit(alloc, tokens, text, deeper),
        Kind::Work => work(tokens),
        Kind::Put => put(alloc, tokens, text, deeper),
        Kind::Named => named(alloc, tokens, text, deeper),
    }
}

/// A statement, inside which constructs nest at most `deeper` deep.
#[cycle(nesting)]
#[tactic(auto, using(crate::proofs::BlockSteps::statement_whole))]
fn statement(alloc: Global, tokens: Tokens, text: Text, deeper: u32) -> Result<(Stmt, Tokens), Halt>
    ensures { Gives (λ r. (statement_of r.0, ahead r.1)) result (statement_at (may_name text) 32 deeper (ahead tokens.entry)) }
{
    of_kind(alloc, tokens, text, deeper, kind_of(tokens))
}

/// The longest block at the front, and the tokens after it.
///
/// `if`, loops and parentheses nest at most `deeper` deep, and a chain has at most 32 operators. `Syntax` comes at the token
/// with which no block goes on, `TooDeep` at the one with which none within these limits does.
#[cycle(nesting)]
#[tactic(auto, unfolding(crate::specs::Statements::block_with), using(crate::proofs::BlockSteps::block_steps))]
pub fn block(
    alloc: Global,
    tokens: Tokens,
    text: Text,
    deeper: u32,
) -> Result<(Block, Tokens), Halt>
    ensures { Gives (λ r. (block_of r.0, ahead r.1)) result (block_at (may_name text) 32 deeper (ahead tokens.entry)) }
{
    let (head, mut rest) = statement(alloc, tokens, text, deeper)?;
    let mut stmts = Vec::new(alloc);
    stmts.push(head)?;
    'stmts: while begins_statement(rest, text) {
        let (next, after) = statement(alloc, rest, text, deeper)?;
        stmts.push(next)?;
        rest = after;
    }
    stmts.shrink_to_fit();
    Ok((Block { stmts }, rest))
}
