ghost use Rattle.std.specs.Prelude.{map};
ghost use Rattle.ods_tree.specs.Trees.{provided_of};
ghost use Rattle.token_read.specs.Ahead.{ahead};
ghost use Rattle.seq_read.specs.Halts.{Gives};
ghost use Rattle.ods_read.specs.Heads.{params_from_at};
ghost use Rattle.ods_read.specs.Readers.{param_at, param_list_at, enclosed_at, params_at, provided_at, provided_list_at, provides_at, needed_at};
ghost use Rattle.ods_read.specs.Readers.{needed_list_at, requires_at};

use crate::names::{name, next_is_name, op_name};
use crate::values::constraint;
use ods_tree::Provided;
use seq_read::{Halt, Text, mark, word};
use seq_tree::{Mark, OpName, OpSig, Param};
use std::alloc::Global;
use token_read::{Tokens, next_is_mark, next_is_word};

/// A parameter, and the tokens after it.
#[tactic(auto, unfolding(seq_read::specs::Names::may_name, seq_read::specs::Parts::param_at, crate::specs::Readers::param_at))]
fn param(alloc: Global, tokens: Tokens) -> Result<(Param, Tokens), Halt>
    ensures { Gives (λ r. (r.0, ahead r.1)) result (param_at (ahead tokens.entry)) }
{
    seq_read::param(alloc, tokens, Text::Design)
}

/// All parameters from this first one on, and the tokens after them.
#[tactic(auto, unfolding(seq_read::specs::Names::may_name, seq_read::specs::Parts::params_from_at, seq_read::specs::Parts::more_param_at, seq_read::specs::Parts::param_at, crate::specs::Readers::more_param_at, crate::specs::Readers::param_at, crate::specs::Heads::params_from_at))]
fn params_from(alloc: Global, tokens: Tokens, head: Param) -> Result<(Vec<Param>, Tokens), Halt>
    ensures { Gives (λ r. (r.0.items, ahead r.1)) result (params_from_at head (ahead tokens.entry)) }
{
    seq_read::params_from(alloc, tokens, Text::Design, head)
}

/// Parameters, one at least, and the tokens after them.
#[tactic(auto, unfolding(crate::specs::Readers::param_list_at, crate::specs::Heads::params_from_at))]
fn param_list(alloc: Global, tokens: Tokens) -> Result<(Vec<Param>, Tokens), Halt>
    ensures { Gives (λ r. (r.0.items, ahead r.1)) result (param_list_at (ahead tokens.entry)) }
{
    let (head, tokens) = param(alloc, tokens)?;
    params_from(alloc, tokens, head)
}

/// Parameters in parentheses, and the tokens after them.
#[tactic(auto, unfolding(crate::specs::Readers::enclosed_at))]
fn enclosed(alloc: Global, tokens: Tokens) -> Result<(Vec<Param>, Tokens), Halt>
    ensures { Gives (λ r. (r.0.items, ahead r.1)) result (enclosed_at (ahead tokens.entry)) }
{
    let tokens = mark(tokens, Mark::LeftParen)?;
    let (params, tokens) = param_list(alloc, tokens)?;
    let tokens = mark(tokens, Mark::RightParen)?;
    Ok((params, tokens))
}

/// The parameters of an operation, none where no parenthesis is next, and the tokens after them.
#[tactic(auto, unfolding(crate::specs::Readers::params_at))]
fn params(alloc: Global, tokens: Tokens) -> Result<(Vec<Param>, Tokens), Halt>
    ensures { Gives (λ r. (r.0.items, ahead r.1)) result (params_at (ahead tokens.entry)) }
{
    if next_is_mark(tokens, Mark::LeftParen) {
        enclosed(alloc, tokens)
    } else {
        Ok((Vec::new(alloc), tokens))
    }
}

/// A provided operation, and the tokens after it.
#[tactic(auto, unfolding(crate::specs::Readers::provided_at))]
fn provided(alloc: Global, tokens: Tokens) -> Result<(Provided, Tokens), Halt>
    ensures { Gives (λ r. (provided_of r.0, ahead r.1)) result (provided_at (ahead tokens.entry)) }
{
    let (name, tokens) = name(alloc, tokens)?;
    let (params, tokens) = params(alloc, tokens)?;
    let (constraint, tokens) = constraint(tokens)?;
    let tokens = mark(tokens, Mark::Semicolon)?;
    let sig = OpSig { name, params };
    Ok((Provided { sig, constraint }, tokens))
}

/// Provided operations, one at least, and the tokens after them.
#[tactic(auto, unfolding(crate::specs::Readers::provided_list_at), using(crate::proofs::ListSteps::provided_steps))]
fn provided_list(alloc: Global, tokens: Tokens) -> Result<(Vec<Provided>, Tokens), Halt>
    ensures { Gives (λ r. (map provided_of r.0.items, ahead r.1)) result (provided_list_at (ahead tokens.entry)) }
{
    let (head, mut rest) = provided(alloc, tokens)?;
    let mut provides = Vec::new(alloc);
    provides.push(head)?;
    'provides: while next_is_name(rest) {
        let (next, after) = provided(alloc, rest)?;
        provides.push(next)?;
        rest = after;
    }
    Ok((provides, rest))
}

/// The operations that an object provides, none where it has no section of them, and the tokens after them.
#[tactic(auto, unfolding(crate::specs::Readers::provides_at))]
pub(crate) fn provides(alloc: Global, tokens: Tokens) -> Result<(Vec<Provided>, Tokens), Halt>
    ensures { Gives (λ r. (map provided_of r.0.items, ahead r.1)) result (provides_at (ahead tokens.entry)) }
{
    if next_is_word(tokens, b"provides") {
        let tokens = word(tokens, b"provides")?;
        provided_list(alloc, tokens)
    } else {
        Ok((Vec::new(alloc), tokens))
    }
}

/// A required operation, and the tokens after it.
#[tactic(auto, unfolding(crate::specs::Readers::needed_at))]
fn needed(alloc: Global, tokens: Tokens) -> Result<(OpName, Tokens), Halt>
    ensures { Gives (λ r. (r.0, ahead r.1)) result (needed_at (ahead tokens.entry)) }
{
    let (op, tokens) = op_name(alloc, tokens)?;
    let tokens = mark(tokens, Mark::Semicolon)?;
    Ok((op, tokens))
}

/// Required operations, one at least, and the tokens after them.
#[tactic(auto, unfolding(crate::specs::Readers::needed_list_at), using(crate::proofs::ListSteps::needed_steps))]
fn needed_list(alloc: Global, tokens: Tokens) -> Result<(Vec<OpName>, Tokens), Halt>
    ensures { Gives (λ r. (r.0.items, ahead r.1)) result (needed_list_at (ahead tokens.entry)) }
{
    let (head, mut rest) = needed(alloc, tokens)?;
    let mut needs = Vec::new(alloc);
    needs.push(head)?;
    'needs: while next_is_name(rest) {
        let (next, after) = needed(alloc, rest)?;
        needs.push(next)?;
        rest = after;
    }
    Ok((needs, rest))
}

/// The operations that an object requires, none where it has no section of them, and the tokens after them.
#[tactic(auto, unfolding(crate::specs::Readers::requires_at))]
pub(crate) fn required(alloc: Global, tokens: Tokens) -> Result<(Vec<OpName>, Tokens), Halt>
    ensures { Gives (λ r. (r.0.items, ahead r.1)) result (requires_at (ahead tokens.entry)) }
{
    if next_is_word(tokens, b"requires") {
        let tokens = word(tokens, b"requires")?;
        needed_list(alloc, tokens)
    } else {
        Ok((Vec::new(alloc), tokens))
    }
}
