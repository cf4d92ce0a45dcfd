ghost use Rattle.std.specs.Prelude.{map};
ghost use Rattle.seq_tree.specs.Trees.{signature_of};
ghost use Rattle.ada_tree.specs.Words.{is_ada_name};
ghost use Rattle.token_read.specs.Ahead.{ahead};
ghost use Rattle.seq_read.specs.Halts.{Gives};
ghost use Rattle.seq_read.specs.Parts.{param_at, params_from_at};
ghost use Rattle.ada_read.specs.Readers.{listed_at, unlisted_at, params_at, declaration_at, declarations_at};

use crate::fixed_text::{FixedText, fixed};
use crate::names::name;
use seq_read::{Halt, Text, mark, word};
use seq_tree::{Mark, OpSig, Param};
use std::alloc::Global;
use token_read::{Tokens, next_is_mark, next_is_word};

/// A parameter, and the tokens after it.
#[tactic(auto, unfolding(seq_read::specs::Names::may_name))]
fn param(alloc: Global, tokens: Tokens) -> Result<(Param, Tokens), Halt>
    ensures { Gives (λ r. (r.0, ahead r.1)) result (param_at is_ada_name (ahead tokens.entry)) }
{
    seq_read::param(alloc, tokens, Text::Ada)
}

/// All parameters from this first one on, and the tokens after them.
#[tactic(auto, unfolding(seq_read::specs::Names::may_name))]
fn params_from(alloc: Global, tokens: Tokens, head: Param) -> Result<(Vec<Param>, Tokens), Halt>
    ensures { Gives (λ r. (r.0.items, ahead r.1)) result (params_from_at is_ada_name head (ahead tokens.entry)) }
{
    seq_read::params_from(alloc, tokens, Text::Ada, head)
}

/// Parameters, one at least, and the tokens after the end of their declaration.
#[tactic(auto, unfolding(crate::specs::Readers::listed_at))]
fn listed(alloc: Global, tokens: Tokens) -> Result<(Vec<Param>, Tokens), Halt>
    ensures { Gives (λ r. (r.0.items, ahead r.1)) result (listed_at (ahead tokens.entry)) }
{
    let tokens = mark(tokens, Mark::LeftParen)?;
    let (head, tokens) = param(alloc, tokens)?;
    let (params, tokens) = params_from(alloc, tokens, head)?;
    let tokens = fixed(tokens, FixedText::Close)?;
    Ok((params, tokens))
}

/// No parameters, and the tokens after the end of their declaration.
#[tactic(auto, unfolding(crate::specs::Readers::unlisted_at))]
pub(crate) fn unlisted(alloc: Global, tokens: Tokens) -> Result<(Vec<Param>, Tokens), Halt>
    ensures { Gives (λ r. (r.0.items, ahead r.1)) result (unlisted_at (ahead tokens.entry)) }
{
    let tokens = mark(tokens, Mark::Semicolon)?;
    Ok((Vec::new(alloc), tokens))
}

/// The parameters of a declaration, and the tokens after its end.
#[tactic(auto, unfolding(crate::specs::Readers::params_at))]
fn params(alloc: Global, tokens: Tokens) -> Result<(Vec<Param>, Tokens), Halt>
    ensures { Gives (λ r. (r.0.items, ahead r.1)) result (params_at (ahead tokens.entry)) }
{
    if next_is_mark(tokens, Mark::LeftParen) {
        listed(alloc, tokens)
    } else {
        unlisted(alloc, tokens)
    }
}

/// The declaration of an operation, and the tokens after it.
#[tactic(auto, unfolding(crate::specs::Readers::declaration_at))]
fn declaration(alloc: Global, tokens: Tokens) -> Result<(OpSig, Tokens), Halt>
    ensures { Gives (λ r. (signature_of r.0, ahead r.1)) result (declaration_at (ahead tokens.entry)) }
{
    let tokens = word(tokens, b"procedure")?;
    let (name, tokens) = name(alloc, tokens)?;
    let (params, tokens) = params(alloc, tokens)?;
    Ok((OpSig { name, params }, tokens))
}

/// Declarations of operations, as many as there are, and the tokens after them.
#[tactic(auto, using(crate::proofs::Repeats::declaration_steps))]
pub(crate) fn declarations(alloc: Global, tokens: Tokens) -> Result<(Vec<OpSig>, Tokens), Halt>
    ensures { Gives (λ r. (map signature_of r.0.items, ahead r.1)) result (declarations_at (ahead tokens.entry)) }
{
    let mut sigs = Vec::new(alloc);
    let mut rest = tokens;
    'sigs: while next_is_word(rest, b"procedure") {
        let (next, after) = declaration(alloc, rest)?;
        sigs.push(next)?;
        rest = after;
    }
    Ok((sigs, rest))
}
