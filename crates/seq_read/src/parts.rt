ghost use Rattle.std.specs.Prelude.{◌≡◌};
ghost use Rattle.token_read.specs.Ahead.{ahead};
ghost use Rattle.token_read.specs.Readers.{phrase_at};
ghost use Rattle.seq_read.specs.Halts.{Gives};
ghost use Rattle.seq_read.specs.Names.{may_name};
ghost use Rattle.seq_read.specs.Parts.{end_tokens, mode_named, named_at, param_at, more_param_at, params_from_at, datum_at, data_at, more_data_at};

use crate::halt::Halt;
use crate::names::{Text, next_is_name};
use crate::tokens::{any_word, mark, name, number, word};
use seq_tree::{Datum, Mark, Mode, Param};
use std::alloc::Global;
use token_read::{Tokens, next_is_mark};

/// The tokens after a closing `end`, the word behind it and a semicolon.
pub fn end_of<'a>(tokens: Tokens<'a>, text: &[u8]) -> Result<Tokens<'a>, Halt>
    ensures { Gives (λ r. (tt, ahead r)) result (phrase_at (end_tokens text.now) (ahead tokens.entry)) }
{
    let tokens = word(tokens, b"end")?;
    let tokens = word(tokens, text)?;
    mark(tokens, Mark::Semicolon)
}

/// The mode that a word stands for, where it does so.
#[tactic(auto, unfolding(crate::specs::Parts::mode_named))]
fn mode_named(name: &[u8]) -> Option<Mode>
    ensures { result ≡ mode_named name.now }
{
    if name == b"in".as_slice() {
        Some(Mode::In)
    } else if name == b"out".as_slice() {
        Some(Mode::Out)
    } else {
        None
    }
}

/// The mode that is first, and the tokens after it.
#[tactic(auto, unfolding(crate::specs::Parts::named_at, token_read::specs::Readers::word_at))]
fn mode(tokens: Tokens) -> Result<(Mode, Tokens), Halt>
    ensures { Gives (λ r. (r.0, ahead r.1)) result (named_at mode_named (ahead tokens.entry)) }
{
    let (word, rest) = any_word(tokens)?;
    let folded = word.folded();
    match mode_named(folded.bytes()) {
        Some(mode) => Ok((mode, rest)),
        None => Err(Halt::Syntax(tokens.len())),
    }
}

/// A parameter, `name : mode word`, and the tokens after it.
#[tactic(auto, unfolding(crate::specs::Parts::param_at))]
pub fn param(alloc: Global, tokens: Tokens, text: Text) -> Result<(Param, Tokens), Halt>
    ensures { Gives (λ r. (r.0, ahead r.1)) result (param_at (may_name text) (ahead tokens.entry)) }
{
    let (name, tokens) = name(alloc, tokens, text)?;
    let tokens = mark(tokens, Mark::Colon)?;
    let (mode, tokens) = mode(tokens)?;
    let tokens = word(tokens, b"word")?;
    Ok((Param { name, mode }, tokens))
}

/// A further parameter, and the tokens after it.
#[tactic(auto, unfolding(crate::specs::Parts::more_param_at))]
fn more_param(alloc: Global, tokens: Tokens, text: Text) -> Result<(Param, Tokens), Halt>
    ensures { Gives (λ r. (r.0, ahead r.1)) result (more_param_at (may_name text) (ahead tokens.entry)) }
{
    let tokens = mark(tokens, Mark::Semicolon)?;
    param(alloc, tokens, text)
}

/// All parameters from this first one on, as many as follow behind semicolons, and the tokens after them.
#[tactic(auto, using(crate::proofs::PartSteps::param_steps))]
pub fn params_from(
    alloc: Global,
    tokens: Tokens,
    text: Text,
    head: Param,
) -> Result<(Vec<Param>, Tokens), Halt>
    ensures { Gives (λ r. (r.0.items, ahead r.1)) result (params_from_at (may_name text) head (ahead tokens.entry)) }
{
    let mut params = Vec::new(alloc);
    params.push(head)?;
    let mut rest = tokens;
    'params: while next_is_mark(rest, Mark::Semicolon) {
        let (next, after) = more_param(alloc, rest, text)?;
        params.push(next)?;
        rest = after;
    }
    params.shrink_to_fit();
    Ok((params, rest))
}

/// A variable with its first value, `name : word := number;`, and the tokens after it.
#[tactic(auto, unfolding(crate::specs::Parts::datum_at))]
pub fn datum(alloc: Global, tokens: Tokens, text: Text) -> Result<(Datum, Tokens), Halt>
    ensures { Gives (λ r. (r.0, ahead r.1)) result (datum_at (may_name text) (ahead tokens.entry)) }
{
    let (name, tokens) = name(alloc, tokens, text)?;
    let tokens = mark(tokens, Mark::Colon)?;
    let tokens = word(tokens, b"word")?;
    let tokens = mark(tokens, Mark::Becomes)?;
    let (value, tokens) = number(tokens)?;
    let tokens = mark(tokens, Mark::Semicolon)?;
    Ok((Datum { name, value }, tokens))
}

/// These variables and all that follow them, and the tokens after those.
#[tactic(auto, using(crate::proofs::PartSteps::datum_steps))]
pub fn more_data(
    alloc: Global,
    tokens: Tokens,
    text: Text,
    front: Vec<Datum>,
) -> Result<(Vec<Datum>, Tokens), Halt>
    ensures { Gives (λ r. (r.0.items, ahead r.1)) result (more_data_at (may_name text) front.items (ahead tokens.entry)) }
{
    let mut data = front;
    let mut rest = tokens;
    'data: while next_is_name(rest, text) {
        let (next, after) = datum(alloc, rest, text)?;
        data.push(next)?;
        rest = after;
    }
    data.shrink_to_fit();
    Ok((data, rest))
}

/// Variables, as many as there are, and the tokens after them.
#[tactic(auto, using(crate::proofs::PartSteps::data_steps))]
pub fn data(alloc: Global, tokens: Tokens, text: Text) -> Result<(Vec<Datum>, Tokens), Halt>
    ensures { Gives (λ r. (r.0.items, ahead r.1)) result (data_at (may_name text) (ahead tokens.entry)) }
{
    more_data(alloc, tokens, text, Vec::new(alloc))
}
