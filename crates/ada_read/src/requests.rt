ghost use Rattle.std.specs.Prelude.{◌∷◌, []};
ghost use Rattle.grammar.specs.Reading.{choose_at};
ghost use Rattle.seq_tree.specs.Trees.{signature_of};
ghost use Rattle.seq_tree.specs.declared.token.Token.TheVariants.{Sign};
ghost use Rattle.seq_tree.specs.declared.token.Mark.TheVariants.{LeftParen};
ghost use Rattle.ada_tree.specs.Spelling.{kept_token, request_token};
ghost use Rattle.token_read.specs.Ahead.{ahead};
ghost use Rattle.token_read.specs.Readers.{fixed_at, next_is, phrase_at};
ghost use Rattle.seq_read.specs.Halts.{Gives};
ghost use Rattle.ada_read.specs.Readers.{keeping_at, request_at, request_param_at, unlisted_at, waiting_at};

use crate::fixed_text::{FixedText, fixed};
use crate::names::name;
use crate::params::unlisted;
use crate::renamings::same_head;
use seq_read::{Halt, mark, word};
use seq_tree::{Mark, Mode, OpSig, Param};
use std::alloc::Global;
use token_read::{Tokens, next_is_mark};

/// The parameter of a request, and the tokens after the end of its declaration.
#[tactic(auto, unfolding(crate::specs::Readers::request_param_at))]
fn request_param(alloc: Global, tokens: Tokens) -> Result<(Vec<Param>, Tokens), Halt>
    ensures { Gives (λ r. (r.0.items, ahead r.1)) result (request_param_at (ahead tokens.entry)) }
{
    let tokens = mark(tokens, Mark::LeftParen)?;
    let (name, tokens) = name(alloc, tokens)?;
    let tokens = fixed(tokens, FixedText::RequestParam)?;
    let mut params = Vec::new(alloc);
    params.push(Param {
        name,
        mode: Mode::In,
    })?;
    Ok((params, tokens))
}

/// The parameters of a request, none or one, and the tokens after the end of their declaration.
fn request_params(alloc: Global, tokens: Tokens) -> Result<(Vec<Param>, Tokens), Halt>
    ensures { Gives (λ r. (r.0.items, ahead r.1)) result (choose_at (next_is (Sign LeftParen)) request_param_at unlisted_at (ahead tokens.entry)) }
{
    if next_is_mark(tokens, Mark::LeftParen) {
        request_param(alloc, tokens)
    } else {
        unlisted(alloc, tokens)
    }
}

/// The declaration of a request, and the tokens after it.
#[tactic(auto, unfolding(crate::specs::Readers::request_at))]
pub(crate) fn request(alloc: Global, tokens: Tokens) -> Result<(OpSig, Tokens), Halt>
    ensures { Gives (λ r. (signature_of r.0, ahead r.1)) result (request_at (ahead tokens.entry)) }
{
    let tokens = word(tokens, b"procedure")?;
    let (name, tokens) = name(alloc, tokens)?;
    let (params, tokens) = request_params(alloc, tokens)?;
    Ok((OpSig { name, params }, tokens))
}

/// The tokens after the value that a request keeps.
fn kept<'a>(tokens: Tokens<'a>, params: &[Param]) -> Result<Tokens<'a>, Halt>
    ensures { Gives (λ r. (tt, ahead r)) result (phrase_at (kept_token params.now ∷ []) (ahead tokens.entry)) }
{
    match params.split_first() {
        None => fixed(tokens, FixedText::Zero),
        Some((param, _)) => {
            let tokens = word(tokens, param.name.bytes())?;
            Ok(tokens)
        }
    }
}

/// The tokens after the body of this request.
#[tactic(auto, unfolding(crate::specs::Readers::keeping_at))]
pub(crate) fn keeping<'a>(tokens: Tokens<'a>, op: &OpSig) -> Result<Tokens<'a>, Halt>
    ensures { Gives (λ r. (tt, ahead r)) result (keeping_at (signature_of op.now) (ahead tokens.entry)) }
{
    let tokens = fixed(tokens, FixedText::RequestBody)?;
    let tokens = same_head(tokens, op)?;
    let tokens = fixed(tokens, FixedText::Keep)?;
    let tokens = kept(tokens, &op.params)?;
    let tokens = fixed(tokens, FixedText::Opened)?;
    let tokens = word(tokens, op.name.bytes())?;
    fixed(tokens, FixedText::Wait)
}

/// The tokens after the variable in which a task gets a request.
fn requested<'a>(tokens: Tokens<'a>, params: &[Param]) -> Result<Tokens<'a>, Halt>
    ensures { Gives (λ r. (tt, ahead r)) result (fixed_at (request_token params.now) (ahead tokens.entry)) }
{
    match params.split_first() {
        None => word(tokens, b"hrt_request"),
        Some((param, _)) => word(tokens, param.name.bytes()),
    }
}

/// The tokens after the beginning of a task's body, to where it has got a request.
#[tactic(auto, unfolding(crate::specs::Readers::waiting_at))]
pub(crate) fn waiting<'a>(tokens: Tokens<'a>, params: &[Param]) -> Result<Tokens<'a>, Halt>
    ensures { Gives (λ r. (tt, ahead r)) result (waiting_at params.now (ahead tokens.entry)) }
{
    let tokens = requested(tokens, params)?;
    let tokens = fixed(tokens, FixedText::Waiting)?;
    let tokens = requested(tokens, params)?;
    fixed(tokens, FixedText::Close)
}
