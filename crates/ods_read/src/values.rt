ghost use Rattle.std.specs.Prelude.{◌≡◌};
ghost use Rattle.grammar.specs.Reading.{first};
ghost use Rattle.token_read.specs.Ahead.{ahead};
ghost use Rattle.seq_read.specs.Halts.{Gives};
ghost use Rattle.seq_read.specs.Parts.{named_at};
ghost use Rattle.ods_read.specs.Readers.{next_by, kind_named, key_named, constraint_named, constraint_at, unit_named, unit_at};

use ods_tree::{AttrKey, Constraint, Kind, TickUnit};
use seq_read::{Halt, any_word};
use token_read::{Lexeme, Tokens};

/// The kind of an object that a word stands for, where it does so.
#[tactic(auto, unfolding(crate::specs::Readers::kind_named))]
fn kind_named(name: &[u8]) -> Option<Kind>
    ensures { result ≡ kind_named name.now }
{
    if name == b"passive".as_slice() {
        Some(Kind::Passive)
    } else if name == b"active".as_slice() {
        Some(Kind::Active)
    } else if name == b"protected".as_slice() {
        Some(Kind::Protected)
    } else if name == b"cyclic".as_slice() {
        Some(Kind::Cyclic)
    } else if name == b"sporadic".as_slice() {
        Some(Kind::Sporadic)
    } else {
        None
    }
}

/// The constraint that a word stands for, where it does so.
#[tactic(auto, unfolding(crate::specs::Readers::constraint_named))]
fn constraint_named(name: &[u8]) -> Option<Constraint>
    ensures { result ≡ constraint_named name.now }
{
    if name == b"aser".as_slice() {
        Some(Constraint::Aser)
    } else if name == b"hser".as_slice() {
        Some(Constraint::Hser)
    } else if name == b"pser".as_slice() {
        Some(Constraint::Pser)
    } else if name == b"paer".as_slice() {
        Some(Constraint::Paer)
    } else {
        None
    }
}

/// What a word states as an attribute, where it does so.
#[tactic(auto, unfolding(crate::specs::Readers::key_named))]
fn key_named(name: &[u8]) -> Option<AttrKey>
    ensures { result ≡ key_named name.now }
{
    if name == b"period".as_slice() {
        Some(AttrKey::Period)
    } else if name == b"offset".as_slice() {
        Some(AttrKey::Offset)
    } else if name == b"separation".as_slice() {
        Some(AttrKey::Separation)
    } else if name == b"deadline".as_slice() {
        Some(AttrKey::Deadline)
    } else if name == b"thread_budget".as_slice() {
        Some(AttrKey::ThreadBudget)
    } else if name == b"arrival_jitter".as_slice() {
        Some(AttrKey::ArrivalJitter)
    } else {
        None
    }
}

/// The unit of time that a word stands for, where it does so.
#[tactic(auto, unfolding(crate::specs::Readers::unit_named))]
fn unit_named(name: &[u8]) -> Option<TickUnit>
    ensures { result ≡ unit_named name.now }
{
    if name == b"us".as_slice() {
        Some(TickUnit::Us)
    } else if name == b"ms".as_slice() {
        Some(TickUnit::Ms)
    } else if name == b"s".as_slice() {
        Some(TickUnit::S)
    } else {
        None
    }
}

/// The kind of an object, and the tokens after it.
#[tactic(auto, unfolding(seq_read::specs::Parts::named_at, token_read::specs::Readers::word_at))]
pub(crate) fn kind(tokens: Tokens) -> Result<(Kind, Tokens), Halt>
    ensures { Gives (λ r. (r.0, ahead r.1)) result (named_at kind_named (ahead tokens.entry)) }
{
    let (word, rest) = any_word(tokens)?;
    let folded = word.folded();
    match kind_named(folded.bytes()) {
        Some(kind) => Ok((kind, rest)),
        None => Err(Halt::Syntax(tokens.len())),
    }
}

/// What an attribute states, and the tokens after it.
#[tactic(auto, unfolding(seq_read::specs::Parts::named_at, token_read::specs::Readers::word_at))]
pub(crate) fn key(tokens: Tokens) -> Result<(AttrKey, Tokens), Halt>
    ensures { Gives (λ r. (r.0, ahead r.1)) result (named_at key_named (ahead tokens.entry)) }
{
    let (word, rest) = any_word(tokens)?;
    let folded = word.folded();
    match key_named(folded.bytes()) {
        Some(key) => Ok((key, rest)),
        None => Err(Halt::Syntax(tokens.len())),
    }
}

/// A unit of time, and the tokens after it.
#[tactic(auto, unfolding(seq_read::specs::Parts::named_at, token_read::specs::Readers::word_at))]
pub(crate) fn unit(tokens: Tokens) -> Result<(TickUnit, Tokens), Halt>
    ensures { Gives (λ r. (r.0, ahead r.1)) result (named_at unit_named (ahead tokens.entry)) }
{
    let (word, rest) = any_word(tokens)?;
    let folded = word.folded();
    match unit_named(folded.bytes()) {
        Some(unit) => Ok((unit, rest)),
        None => Err(Halt::Syntax(tokens.len())),
    }
}

/// Whether an attribute is next.
pub(crate) fn next_is_key(tokens: Tokens) -> bool
    ensures { result ≡ next_by key_named (first (ahead tokens.entry)) }
{
    let Some(Lexeme::Word(word)) = tokens.first() else {
        return false;
    };
    let folded = word.folded();
    key_named(folded.bytes()).is_some()
}

/// A constraint where one is next, and the tokens after it.
#[tactic(auto, unfolding(crate::specs::Readers::constraint_at, seq_read::specs::Parts::named_at))]
pub(crate) fn constraint(tokens: Tokens) -> Result<(Option<Constraint>, Tokens), Halt>
    ensures { Gives (λ r. (r.0, ahead r.1)) result (constraint_at (ahead tokens.entry)) }
{
    let Some((Lexeme::Word(word), rest)) = tokens.split_first() else {
        return Ok((None, tokens));
    };
    let folded = word.folded();
    match constraint_named(folded.bytes()) {
        Some(constraint) => Ok((Some(constraint), rest)),
        None => Ok((None, tokens)),
    }
}

/// A unit of time where one is next and units may stand, and the tokens after it.
#[tactic(auto, unfolding(crate::specs::Readers::unit_at, seq_read::specs::Parts::named_at))]
pub(crate) fn unit_after(tokens: Tokens, units: bool) -> Result<(Option<TickUnit>, Tokens), Halt>
    ensures { Gives (λ r. (r.0, ahead r.1)) result (unit_at units (ahead tokens.entry)) }
{
    if !units {
        return Ok((None, tokens));
    }
    let Some((Lexeme::Word(word), rest)) = tokens.split_first() else {
        return Ok((None, tokens));
    };
    let folded = word.folded();
    match unit_named(folded.bytes()) {
        Some(unit) => Ok((Some(unit), rest)),
        None => Ok((None, tokens)),
    }
}
