ghost use Rattle.std.specs.Prelude.{◌∷◌, []};
ghost use Rattle.seq_tree.specs.Trees.{signature_of};
ghost use Rattle.seq_tree.specs.declared.token.Token.TheVariants.{Word, Sign};
ghost use Rattle.seq_tree.specs.declared.token.Mark.TheVariants.{Semicolon};
ghost use Rattle.ada_tree.specs.Spelling.{head_tokens, param_tokens, params_tokens};
ghost use Rattle.token_read.specs.Ahead.{ahead};
ghost use Rattle.token_read.specs.Readers.{phrase_at};
ghost use Rattle.seq_read.specs.Halts.{Gives};
ghost use Rattle.ada_read.specs.FixedTexts.{rest_tokens};
ghost use Rattle.ada_read.specs.Readers.{renaming_at, request_renaming_at};

use crate::fixed_text::{FixedText, fixed};
use seq_read::{Halt, mark, word};
use seq_tree::{Mark, Mode, OpSig, Param};
use token_read::Tokens;

/// The tokens after this parameter, which is first.
fn same_param<'a>(tokens: Tokens<'a>, param: &Param) -> Result<Tokens<'a>, Halt>
    ensures { Gives (λ r. (tt, ahead r)) result (phrase_at (param_tokens param.now) (ahead tokens.entry)) }
{
    let tokens = word(tokens, param.name.bytes())?;
    let tokens = mark(tokens, Mark::Colon)?;
    let tokens = match param.mode {
        Mode::In => word(tokens, b"in")?,
        Mode::Out => word(tokens, b"out")?,
    };
    word(tokens, b"word")
}

/// The tokens after these further parameters, which are first, and the end of their list.
fn same_rest<'a>(tokens: Tokens<'a>, params: &[Param]) -> Result<Tokens<'a>, Halt>
    ensures { Gives (λ r. (tt, ahead r)) result (phrase_at (rest_tokens params.now) (ahead tokens.entry)) }
{
    let mut rest = tokens;
    'params: for param in params {
        rest = mark(rest, Mark::Semicolon)?;
        rest = same_param(rest, param)?;
    }
    mark(rest, Mark::RightParen)
}

/// The tokens after these parameters, which are first.
fn same_params<'a>(tokens: Tokens<'a>, params: &[Param]) -> Result<Tokens<'a>, Halt>
    ensures { Gives (λ r. (tt, ahead r)) result (phrase_at (params_tokens params.now) (ahead tokens.entry)) }
{
    let Some((head, others)) = params.split_first() else {
        return Ok(tokens);
    };
    let tokens = mark(tokens, Mark::LeftParen)?;
    let tokens = same_param(tokens, head)?;
    same_rest(tokens, others)
}

/// The tokens after this head of an operation, which is first.
pub(crate) fn same_head<'a>(tokens: Tokens<'a>, sig: &OpSig) -> Result<Tokens<'a>, Halt>
    ensures { Gives (λ r. (tt, ahead r)) result (phrase_at (head_tokens (signature_of sig.now)) (ahead tokens.entry)) }
{
    let tokens = word(tokens, b"procedure")?;
    let tokens = word(tokens, sig.name.bytes())?;
    same_params(tokens, &sig.params)
}

/// The tokens after this name and the end of a line.
fn named_end<'a>(tokens: Tokens<'a>, sig: &OpSig) -> Result<Tokens<'a>, Halt>
    ensures { Gives (λ r. (tt, ahead r)) result (phrase_at (Word sig.now.name ∷ Sign Semicolon ∷ []) (ahead tokens.entry)) }
{
    let tokens = word(tokens, sig.name.bytes())?;
    mark(tokens, Mark::Semicolon)
}

/// The tokens after the name by which this operation of a protected unit is called.
#[tactic(auto, unfolding(crate::specs::Readers::renaming_at))]
pub(crate) fn renaming<'a>(tokens: Tokens<'a>, sig: &OpSig) -> Result<Tokens<'a>, Halt>
    ensures { Gives (λ r. (tt, ahead r)) result (renaming_at (signature_of sig.now) (ahead tokens.entry)) }
{
    let tokens = same_head(tokens, sig)?;
    let tokens = fixed(tokens, FixedText::Renames)?;
    named_end(tokens, sig)
}

/// The tokens after the name by which this request of a sporadic unit is called.
#[tactic(auto, unfolding(crate::specs::Readers::request_renaming_at))]
pub(crate) fn request_renaming<'a>(tokens: Tokens<'a>, sig: &OpSig) -> Result<Tokens<'a>, Halt>
    ensures { Gives (λ r. (tt, ahead r)) result (request_renaming_at (signature_of sig.now) (ahead tokens.entry)) }
{
    let tokens = same_head(tokens, sig)?;
    let tokens = fixed(tokens, FixedText::RequestRenames)?;
    named_end(tokens, sig)
}
