ghost use Rattle.std.specs.Prelude.{◌≡◌, IfErr, map};
ghost use Rattle.grammar.specs.Reading.{first};
ghost use Rattle.seq_tree.specs.declared.token.Token.TheVariants as token;
ghost use Rattle.token_read.specs.declared.token_fault.TokenFault.TheVariants as fault;
ghost use Rattle.token_read.specs.Ahead.{ahead};
ghost use Rattle.token_read.specs.Lexemes.{token_of, word_bytes};
ghost use Rattle.token_read.specs.Words.{Gives, item_token, same_token};
ghost use Rattle.token_read.specs.Readers.{fixed_at, phrase_at, number_at, number_within_at, word_at, next_is, next_is_number};

use crate::lexemes::{Lexeme, Word};
use crate::token_fault::TokenFault;
use crate::tokens_left::Tokens;
use seq_tree::Mark;

/// A fixed token of a text.
#[derive(Clone, Copy, Debug)]
pub enum Item {
    /// A word, in lower case.
    Word(&'static str),
    /// A mark.
    Sign(Mark),
    /// A number.
    Number(u32),
}

/// Whether a token is this one.
fn is_item(lexeme: Lexeme, item: &Item) -> bool
    ensures { result ≡ same_token (token_of lexeme.entry) (item_token item.now) }
{
    match (lexeme, item) {
        (Lexeme::Word(word), Item::Word(text)) => word.is(text.as_bytes()),
        (Lexeme::Sign(found), Item::Sign(mark)) => found == *mark,
        (Lexeme::Number(found), Item::Number(number)) => found == *number,
        _ => false,
    }
}

/// The tokens after this one, which is first.
#[tactic(auto, unfolding(crate::specs::Readers::fixed_at))]
fn one<'a>(tokens: Tokens<'a>, item: &Item) -> Result<Tokens<'a>, TokenFault>
    ensures gives { Gives (λ r. (tt, ahead r)) result (fixed_at (item_token item.now) (ahead tokens.entry)) }
    ensures ample { IfErr result (λ e. e ≡ fault.NoMemory → ⊥) }
{
    match tokens.split_first() {
        Some((lexeme, rest)) if is_item(lexeme, item) => Ok(rest),
        _ => Err(TokenFault::Syntax(tokens.len())),
    }
}

/// The tokens after these, which are first in this order. `Syntax` comes at the first that is another.
pub fn phrase<'a>(tokens: Tokens<'a>, items: &[Item]) -> Result<Tokens<'a>, TokenFault>
    ensures gives { Gives (λ r. (tt, ahead r)) result (phrase_at (map item_token items.now) (ahead tokens.entry)) }
    ensures ample { IfErr result (λ e. e ≡ fault.NoMemory → ⊥) }
{
    let mut rest = tokens;
    'items: for item in items {
        rest = one(rest, item)?;
    }
    Ok(rest)
}

/// The tokens after this word, which is first. `Syntax` comes where it isn't.
#[inline(always)]
#[tactic(auto, unfolding(crate::specs::Readers::fixed_at))]
pub fn word<'a>(tokens: Tokens<'a>, text: &[u8]) -> Result<Tokens<'a>, TokenFault>
    ensures gives { Gives (λ r. (tt, ahead r)) result (fixed_at (token.Word text.now) (ahead tokens.entry)) }
    ensures ample { IfErr result (λ e. e ≡ fault.NoMemory → ⊥) }
{
    let Some((lexeme, rest)) = tokens.split_first() else {
        return Err(TokenFault::Syntax(0));
    };
    match lexeme {
        Lexeme::Word(word) if word.is(text) => Ok(rest),
        _ => Err(TokenFault::Syntax(tokens.len())),
    }
}

/// The tokens after this mark, which is first. `Syntax` comes where it isn't.
#[inline(always)]
#[tactic(auto, unfolding(crate::specs::Readers::fixed_at))]
pub fn mark(tokens: Tokens, mark: Mark) -> Result<Tokens, TokenFault>
    ensures gives { Gives (λ r. (tt, ahead r)) result (fixed_at (token.Sign mark) (ahead tokens.entry)) }
    ensures ample { IfErr result (λ e. e ≡ fault.NoMemory → ⊥) }
{
    let Some((lexeme, rest)) = tokens.split_first() else {
        return Err(TokenFault::Syntax(0));
    };
    match lexeme {
        Lexeme::Sign(found) if found == mark => Ok(rest),
        _ => Err(TokenFault::Syntax(tokens.len())),
    }
}

/// The number that is first, and the tokens after it. `Syntax` comes where there is none.
#[inline(always)]
#[tactic(auto, unfolding(crate::specs::Readers::number_at))]
pub fn number(tokens: Tokens) -> Result<(u32, Tokens), TokenFault>
    ensures gives { Gives (λ r. (r.0, ahead r.1)) result (number_at (ahead tokens.entry)) }
    ensures ample { IfErr result (λ e. e ≡ fault.NoMemory → ⊥) }
{
    let Some((lexeme, rest)) = tokens.split_first() else {
        return Err(TokenFault::Syntax(0));
    };
    match lexeme {
        Lexeme::Number(n) => Ok((n, rest)),
        _ => Err(TokenFault::Syntax(tokens.len())),
    }
}

/// The number from `low` to `high` that is first, and the tokens after it. `Syntax` comes where there is none.
#[tactic(auto, unfolding(crate::specs::Readers::number_within_at))]
pub fn number_within(tokens: Tokens, low: u32, high: u32) -> Result<(u32, Tokens), TokenFault>
    ensures gives { Gives (λ r. (r.0, ahead r.1)) result (number_within_at low high (ahead tokens.entry)) }
    ensures ample { IfErr result (λ e. e ≡ fault.NoMemory → ⊥) }
{
    let Some((lexeme, rest)) = tokens.split_first() else {
        return Err(TokenFault::Syntax(0));
    };
    match lexeme {
        Lexeme::Number(n) if low <= n && n <= high => Ok((n, rest)),
        _ => Err(TokenFault::Syntax(tokens.len())),
    }
}

/// The word that is first, whatever it is, and the tokens after it. `Syntax` comes where there is none. A reader of names
/// tests the word, and refuses it with the tokens that it was first of.
#[inline(always)]
#[tactic(auto, unfolding(crate::specs::Readers::word_at))]
pub fn any_word(tokens: Tokens) -> Result<(Word, Tokens), TokenFault>
    ensures gives { Gives (λ r. (word_bytes r.0, ahead r.1)) result (word_at (ahead tokens.entry)) }
    ensures ample { IfErr result (λ e. e ≡ fault.NoMemory → ⊥) }
{
    let Some((lexeme, rest)) = tokens.split_first() else {
        return Err(TokenFault::Syntax(0));
    };
    match lexeme {
        Lexeme::Word(word) => Ok((word, rest)),
        _ => Err(TokenFault::Syntax(tokens.len())),
    }
}

/// Whether the next token is this word.
#[inline(always)]
pub fn next_is_word(tokens: Tokens, text: &[u8]) -> bool
    ensures { result ≡ next_is (token.Word text.now) (first (ahead tokens.entry)) }
{
    let Some(lexeme) = tokens.first() else {
        return false;
    };
    match lexeme {
        Lexeme::Word(word) => word.is(text),
        _ => false,
    }
}

/// Whether the next token is this mark.
#[inline(always)]
pub fn next_is_mark(tokens: Tokens, mark: Mark) -> bool
    ensures { result ≡ next_is (token.Sign mark) (first (ahead tokens.entry)) }
{
    let Some(lexeme) = tokens.first() else {
        return false;
    };
    match lexeme {
        Lexeme::Sign(found) => found == mark,
        _ => false,
    }
}

/// Whether the next token is a number.
#[inline(always)]
pub fn next_is_number(tokens: Tokens) -> bool
    ensures { result ≡ next_is_number (first (ahead tokens.entry)) }
{
    let Some(lexeme) = tokens.first() else {
        return false;
    };
    matches!(lexeme, Lexeme::Number(_))
}
