ghost use Rattle.std.specs.Prelude.{◌≡◌, IfErr, map};
ghost use Rattle.seq_tree.specs.declared.token.Token.TheVariants as token;
ghost use Rattle.token_read.specs.Ahead.{ahead};
ghost use Rattle.token_read.specs.Lexemes.{word_bytes};
ghost use Rattle.token_read.specs.Words.{item_token};
ghost use Rattle.token_read.specs.Readers.{fixed_at, phrase_at, number_at, word_at, name_at};
ghost use Rattle.seq_read.specs.declared.halt.Halt.TheVariants as halt;
ghost use Rattle.seq_read.specs.Halts.{Gives};
ghost use Rattle.seq_read.specs.Names.{may_name};

use crate::halt::Halt;
use crate::names::{Text, may_name};
use seq_tree::{Mark, Name};
use std::alloc::Global;
use token_read::{Item, TokenFault, Tokens, Word};

/// The tokens after this word, which is first.
#[inline(always)]
pub fn word<'a>(tokens: Tokens<'a>, text: &[u8]) -> Result<Tokens<'a>, Halt>
    ensures gives { Gives (λ r. (tt, ahead r)) result (fixed_at (token.Word text.now) (ahead tokens.entry)) }
    ensures ample { IfErr result (λ e. e ≡ halt.NoMemory → ⊥) }
{
    match token_read::word(tokens, text) {
        Ok(rest) => Ok(rest),
        Err(TokenFault::Syntax(left)) => Err(Halt::Syntax(left)),
        Err(TokenFault::NoMemory) => Err(Halt::NoMemory),
    }
}

/// The tokens after this mark, which is first.
#[inline(always)]
pub fn mark(tokens: Tokens, mark: Mark) -> Result<Tokens, Halt>
    ensures gives { Gives (λ r. (tt, ahead r)) result (fixed_at (token.Sign mark) (ahead tokens.entry)) }
    ensures ample { IfErr result (λ e. e ≡ halt.NoMemory → ⊥) }
{
    match token_read::mark(tokens, mark) {
        Ok(rest) => Ok(rest),
        Err(TokenFault::Syntax(left)) => Err(Halt::Syntax(left)),
        Err(TokenFault::NoMemory) => Err(Halt::NoMemory),
    }
}

/// The number that is first, and the tokens after it.
#[inline(always)]
pub fn number(tokens: Tokens) -> Result<(u32, Tokens), Halt>
    ensures gives { Gives (λ r. (r.0, ahead r.1)) result (number_at (ahead tokens.entry)) }
    ensures ample { IfErr result (λ e. e ≡ halt.NoMemory → ⊥) }
{
    match token_read::number(tokens) {
        Ok(found) => Ok(found),
        Err(TokenFault::Syntax(left)) => Err(Halt::Syntax(left)),
        Err(TokenFault::NoMemory) => Err(Halt::NoMemory),
    }
}

/// The tokens after these, which are first in this order.
pub fn phrase<'a>(tokens: Tokens<'a>, items: &[Item]) -> Result<Tokens<'a>, Halt>
    ensures gives { Gives (λ r. (tt, ahead r)) result (phrase_at (map item_token items.now) (ahead tokens.entry)) }
    ensures ample { IfErr result (λ e. e ≡ halt.NoMemory → ⊥) }
{
    match token_read::phrase(tokens, items) {
        Ok(rest) => Ok(rest),
        Err(TokenFault::Syntax(left)) => Err(Halt::Syntax(left)),
        Err(TokenFault::NoMemory) => Err(Halt::NoMemory),
    }
}

/// The word that is first, whatever it is, and the tokens after it.
#[inline(always)]
pub fn any_word(tokens: Tokens) -> Result<(Word, Tokens), Halt>
    ensures gives { Gives (λ r. (word_bytes r.0, ahead r.1)) result (word_at (ahead tokens.entry)) }
    ensures ample { IfErr result (λ e. e ≡ halt.NoMemory → ⊥) }
{
    match token_read::any_word(tokens) {
        Ok(found) => Ok(found),
        Err(TokenFault::Syntax(left)) => Err(Halt::Syntax(left)),
        Err(TokenFault::NoMemory) => Err(Halt::NoMemory),
    }
}

/// The name that is first, where the word may be one in this kind of text, and the tokens after it.
#[tactic(auto, unfolding(token_read::specs::Readers::name_at, token_read::specs::Readers::word_at))]
pub fn name(alloc: Global, tokens: Tokens, text: Text) -> Result<(Name, Tokens), Halt>
    ensures { Gives (λ r. (r.0, ahead r.1)) result (name_at (may_name text) (ahead tokens.entry)) }
{
    let (word, rest) = any_word(tokens)?;
    if may_name(word, text) {
        Ok((word.name(alloc)?, rest))
    } else {
        Err(Halt::Syntax(tokens.len()))
    }
}
