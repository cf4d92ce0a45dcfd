ghost use Rattle.std.specs.Prelude.{◌≡◌, map};
ghost use Rattle.seq_tree.specs.Trees.{signature_of};
ghost use Rattle.token_read.specs.Ahead.{ahead};
ghost use Rattle.seq_read.specs.Halts.{Gives};
ghost use Rattle.seq_read.specs.Parts.{named_at};
ghost use Rattle.ada_read.specs.Heads.{head_of, head_name};
ghost use Rattle.ada_read.specs.Readers.{constants_at, cyclic_head_at, head_at, heads_at, inner_at, object_head_at, passive_head_at};
ghost use Rattle.ada_read.specs.Readers.{renamings_at, shared_head_at, sporadic_head_at, truth_named};

use crate::fixed_text::{FixedText, fixed};
use crate::names::{data, name};
use crate::params::declarations;
use crate::renamings::{renaming, request_renaming};
use crate::requests::request;
use seq_read::{Halt, any_word, end_of, mark, number, word};
use seq_tree::{Datum, Mark, Name, OpSig};
use std::alloc::Global;
use token_read::{Tokens, next_is_word};

/// The specification of a unit, apart from its body.
#[derive(Drop)]
pub(crate) enum UnitHead {
    /// Operations alone, by their heads.
    Passive {
        name: Name,
        sigs: Vec<OpSig>,
    },
    /// A protected object with this ceiling, with operations by their heads, and with data.
    Shared {
        name: Name,
        ceiling: u32,
        sigs: Vec<OpSig>,
        vars: Vec<Datum>,
    },
    /// A cyclic task of this priority.
    Cyclic {
        name: Name,
        priority: u32,
    },
    /// A task that waits for requests, with its protected object's ceiling and its constants.
    Sporadic {
        name: Name,
        priority: u32,
        ceiling: u32,
        op: OpSig,
        separation: u32,
        jitter: u32,
        external: bool,
    },
}

/// The name of the unit.
pub(crate) fn head_name(head: &UnitHead) -> &Name
    ensures { result.now ≡ head_name (head_of head.now) }
{
    match head {
        UnitHead::Passive { name, .. } => name,
        UnitHead::Shared { name, .. } => name,
        UnitHead::Cyclic { name, .. } => name,
        UnitHead::Sporadic { name, .. } => name,
    }
}

/// The specification of a cyclic unit of this name, behind the name, and the tokens after it.
#[tactic(auto, unfolding(crate::specs::Readers::cyclic_head_at))]
fn cyclic_head(name: Name, tokens: Tokens) -> Result<(UnitHead, Tokens), Halt>
    ensures { Gives (λ r. (head_of r.0, ahead r.1)) result (cyclic_head_at name (ahead tokens.entry)) }
{
    let tokens = fixed(tokens, FixedText::TaskHead)?;
    let (priority, tokens) = number(tokens)?;
    let tokens = fixed(tokens, FixedText::TaskEnd)?;
    let tokens = end_of(tokens, name.bytes())?;
    Ok((UnitHead::Cyclic { name, priority }, tokens))
}

/// The specification of a passive unit of this name, behind the name, and the tokens after it.
#[tactic(auto, unfolding(crate::specs::Readers::passive_head_at))]
fn passive_head(alloc: Global, name: Name, tokens: Tokens) -> Result<(UnitHead, Tokens), Halt>
    ensures { Gives (λ r. (head_of r.0, ahead r.1)) result (passive_head_at name (ahead tokens.entry)) }
{
    let (sigs, tokens) = declarations(alloc, tokens)?;
    let tokens = end_of(tokens, name.bytes())?;
    Ok((UnitHead::Passive { name, sigs }, tokens))
}

/// The tokens after the names by which these operations of a protected unit are called.
fn renamings<'a>(tokens: Tokens<'a>, sigs: &[OpSig]) -> Result<Tokens<'a>, Halt>
    ensures { Gives (λ r. (tt, ahead r)) result (renamings_at (map signature_of sigs.now) (ahead tokens.entry)) }
{
    let mut rest = tokens;
    'sigs: for sig in sigs {
        rest = renaming(rest, sig)?;
    }
    Ok(rest)
}

/// The specification of a protected unit of this name, behind `protected`, and the tokens after it.
#[tactic(auto, unfolding(crate::specs::Readers::shared_head_at))]
fn shared_head(alloc: Global, name: Name, tokens: Tokens) -> Result<(UnitHead, Tokens), Halt>
    ensures { Gives (λ r. (head_of r.0, ahead r.1)) result (shared_head_at name (ahead tokens.entry)) }
{
    let tokens = fixed(tokens, FixedText::ObjectHead)?;
    let (ceiling, tokens) = number(tokens)?;
    let tokens = fixed(tokens, FixedText::Close)?;
    let (sigs, tokens) = declarations(alloc, tokens)?;
    let tokens = word(tokens, b"private")?;
    let (vars, tokens) = data(alloc, tokens)?;
    let tokens = fixed(tokens, FixedText::ObjectEnd)?;
    let tokens = renamings(tokens, &sigs)?;
    let tokens = end_of(tokens, name.bytes())?;
    let head = UnitHead::Shared {
        name,
        ceiling,
        sigs,
        vars,
    };
    Ok((head, tokens))
}

/// The truth value that a word stands for, where it does so.
#[tactic(auto, unfolding(crate::specs::Readers::truth_named))]
fn truth_named(name: &[u8]) -> Option<bool>
    ensures { result ≡ truth_named name.now }
{
    if name == b"true".as_slice() {
        Some(true)
    } else if name == b"false".as_slice() {
        Some(false)
    } else {
        None
    }
}

/// The truth value that is first, and the tokens after it.
#[tactic(auto, unfolding(seq_read::specs::Parts::named_at, token_read::specs::Readers::word_at))]
fn truth(tokens: Tokens) -> Result<(bool, Tokens), Halt>
    ensures { Gives (λ r. (r.0, ahead r.1)) result (named_at truth_named (ahead tokens.entry)) }
{
    let (word, rest) = any_word(tokens)?;
    let folded = word.folded();
    match truth_named(folded.bytes()) {
        Some(value) => Ok((value, rest)),
        None => Err(Halt::Syntax(tokens.len())),
    }
}

/// The specification of a sporadic unit of this name, with this ceiling and this request, from its priority on, and the tokens
/// after it.
#[tactic(auto, unfolding(crate::specs::Readers::constants_at))]
fn constants(
    name: Name,
    ceiling: u32,
    op: OpSig,
    tokens: Tokens,
) -> Result<(UnitHead, Tokens), Halt>
    ensures { Gives (λ r. (head_of r.0, ahead r.1)) result (constants_at name ceiling (signature_of op) (ahead tokens.entry)) }
{
    let tokens = fixed(tokens, FixedText::TaskHead)?;
    let (priority, tokens) = number(tokens)?;
    let tokens = fixed(tokens, FixedText::Separation)?;
    let (separation, tokens) = number(tokens)?;
    let tokens = fixed(tokens, FixedText::Jitter)?;
    let (jitter, tokens) = number(tokens)?;
    let tokens = fixed(tokens, FixedText::External)?;
    let (external, tokens) = truth(tokens)?;
    let tokens = mark(tokens, Mark::Semicolon)?;
    let tokens = end_of(tokens, name.bytes())?;
    let head = UnitHead::Sporadic {
        name,
        priority,
        ceiling,
        op,
        separation,
        jitter,
        external,
    };
    Ok((head, tokens))
}

/// The specification of a sporadic unit of this name, behind `protected`, and the tokens after it.
#[tactic(auto, unfolding(crate::specs::Readers::sporadic_head_at))]
fn sporadic_head(alloc: Global, name: Name, tokens: Tokens) -> Result<(UnitHead, Tokens), Halt>
    ensures { Gives (λ r. (head_of r.0, ahead r.1)) result (sporadic_head_at name (ahead tokens.entry)) }
{
    let tokens = fixed(tokens, FixedText::RequestHead)?;
    let (ceiling, tokens) = number(tokens)?;
    let tokens = fixed(tokens, FixedText::Close)?;
    let (op, tokens) = request(alloc, tokens)?;
    let tokens = fixed(tokens, FixedText::Entry)?;
    let tokens = request_renaming(tokens, &op)?;
    constants(name, ceiling, op, tokens)
}

/// The specification of a unit of this name with a protected object, behind the name, and the tokens after it.
#[tactic(auto, unfolding(crate::specs::Readers::object_head_at))]
fn object_head(alloc: Global, name: Name, tokens: Tokens) -> Result<(UnitHead, Tokens), Halt>
    ensures { Gives (λ r. (head_of r.0, ahead r.1)) result (object_head_at name (ahead tokens.entry)) }
{
    let tokens = word(tokens, b"protected")?;
    if next_is_word(tokens, b"hrt_object") {
        shared_head(alloc, name, tokens)
    } else {
        sporadic_head(alloc, name, tokens)
    }
}

/// The specification of a unit of this name, behind the name, and the tokens after it.
#[tactic(auto, unfolding(crate::specs::Readers::inner_at))]
fn inner(alloc: Global, name: Name, tokens: Tokens) -> Result<(UnitHead, Tokens), Halt>
    ensures { Gives (λ r. (head_of r.0, ahead r.1)) result (inner_at name (ahead tokens.entry)) }
{
    if next_is_word(tokens, b"task") {
        cyclic_head(name, tokens)
    } else if next_is_word(tokens, b"protected") {
        object_head(alloc, name, tokens)
    } else {
        passive_head(alloc, name, tokens)
    }
}

/// The specification of a unit, and the tokens after it.
#[tactic(auto, unfolding(crate::specs::Readers::head_at))]
fn head(alloc: Global, tokens: Tokens) -> Result<(UnitHead, Tokens), Halt>
    ensures { Gives (λ r. (head_of r.0, ahead r.1)) result (head_at (ahead tokens.entry)) }
{
    let tokens = word(tokens, b"package")?;
    let (name, tokens) = name(alloc, tokens)?;
    let tokens = word(tokens, b"is")?;
    inner(alloc, name, tokens)
}

/// The specifications of all units, and the tokens after them.
#[tactic(auto, using(crate::proofs::Repeats::head_steps))]
pub(crate) fn heads(alloc: Global, tokens: Tokens) -> Result<(Vec<UnitHead>, Tokens), Halt>
    ensures { Gives (λ r. (map head_of r.0.items, ahead r.1)) result (heads_at (ahead tokens.entry)) }
{
    let mut heads = Vec::new(alloc);
    let mut rest = tokens;
    'heads: while next_is_word(rest, b"package") {
        let (next, after) = head(alloc, rest)?;
        heads.push(next)?;
        rest = after;
    }
    Ok((heads, rest))
}
