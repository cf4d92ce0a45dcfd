ghost use Rattle.token_read.specs.Ahead.{ahead};
ghost use Rattle.seq_read.specs.Halts.{Gives};
ghost use Rattle.ods_read.specs.Heads.{data_from_at};
ghost use Rattle.ods_read.specs.Readers.{datum_at, locals_at, datum_list_at, data_at, link_at, link_list_at, implements_at};

use crate::names::{name, next_is_name, op_name};
use ods_tree::Link;
use seq_read::{Halt, Text, mark, word};
use seq_tree::{Datum, Mark};
use std::alloc::Global;
use token_read::{Tokens, next_is_word};

/// Local variables, as many as there are, and the tokens after them.
#[tactic(auto, unfolding(seq_read::specs::Names::may_name, seq_read::specs::Parts::data_at, seq_read::specs::Parts::datum_at, crate::specs::Readers::locals_at, crate::specs::Readers::datum_at))]
pub(crate) fn locals(alloc: Global, tokens: Tokens) -> Result<(Vec<Datum>, Tokens), Halt>
    ensures { Gives (λ r. (r.0.items, ahead r.1)) result (locals_at (ahead tokens.entry)) }
{
    seq_read::data(alloc, tokens, Text::Design)
}

/// A variable with its first value, and the tokens after it.
#[tactic(auto, unfolding(seq_read::specs::Names::may_name, seq_read::specs::Parts::datum_at, crate::specs::Readers::datum_at))]
fn datum(alloc: Global, tokens: Tokens) -> Result<(Datum, Tokens), Halt>
    ensures { Gives (λ r. (r.0, ahead r.1)) result (datum_at (ahead tokens.entry)) }
{
    seq_read::datum(alloc, tokens, Text::Design)
}

/// These variables and all that follow them, and the tokens after those.
#[tactic(auto, unfolding(seq_read::specs::Names::may_name, seq_read::specs::Parts::more_data_at, seq_read::specs::Parts::data_at, seq_read::specs::Parts::datum_at, crate::specs::Readers::datum_at, crate::specs::Readers::locals_at, crate::specs::Heads::data_from_at))]
fn more_data(alloc: Global, tokens: Tokens, front: Vec<Datum>) -> Result<(Vec<Datum>, Tokens), Halt>
    ensures { Gives (λ r. (r.0.items, ahead r.1)) result (data_from_at front.items (ahead tokens.entry)) }
{
    seq_read::more_data(alloc, tokens, Text::Design, front)
}

/// Data, one at least, and the tokens after them.
#[tactic(auto, unfolding(seq_read::specs::Parts::data_at, crate::specs::Readers::datum_at, crate::specs::Readers::datum_list_at, crate::specs::Readers::locals_at, crate::specs::Heads::data_from_at))]
fn datum_list(alloc: Global, tokens: Tokens) -> Result<(Vec<Datum>, Tokens), Halt>
    ensures { Gives (λ r. (r.0.items, ahead r.1)) result (datum_list_at (ahead tokens.entry)) }
{
    let (head, tokens) = datum(alloc, tokens)?;
    let mut vars = Vec::new(alloc);
    vars.push(head)?;
    more_data(alloc, tokens, vars)
}

/// The data of an object, none where it has no section of them, and the tokens after them.
#[tactic(auto, unfolding(crate::specs::Readers::data_at))]
pub(crate) fn data(alloc: Global, tokens: Tokens) -> Result<(Vec<Datum>, Tokens), Halt>
    ensures { Gives (λ r. (r.0.items, ahead r.1)) result (data_at (ahead tokens.entry)) }
{
    if next_is_word(tokens, b"data") {
        let tokens = word(tokens, b"data")?;
        datum_list(alloc, tokens)
    } else {
        Ok((Vec::new(alloc), tokens))
    }
}

/// A link from an operation to that of an object inside, and the tokens after it.
#[tactic(auto, unfolding(crate::specs::Readers::link_at))]
fn link(alloc: Global, tokens: Tokens) -> Result<(Link, Tokens), Halt>
    ensures { Gives (λ r. (r.0, ahead r.1)) result (link_at (ahead tokens.entry)) }
{
    let (op, tokens) = name(alloc, tokens)?;
    let tokens = word(tokens, b"by")?;
    let (to, tokens) = op_name(alloc, tokens)?;
    let tokens = mark(tokens, Mark::Semicolon)?;
    Ok((Link { op, to }, tokens))
}

/// Links, one at least, and the tokens after them.
#[tactic(auto, unfolding(crate::specs::Readers::link_list_at), using(crate::proofs::ListSteps::link_steps))]
fn link_list(alloc: Global, tokens: Tokens) -> Result<(Vec<Link>, Tokens), Halt>
    ensures { Gives (λ r. (r.0.items, ahead r.1)) result (link_list_at (ahead tokens.entry)) }
{
    let (head, mut rest) = link(alloc, tokens)?;
    let mut links = Vec::new(alloc);
    links.push(head)?;
    'links: while next_is_name(rest) {
        let (next, after) = link(alloc, rest)?;
        links.push(next)?;
        rest = after;
    }
    Ok((links, rest))
}

/// The links of an object, none where it has no section of them, and the tokens after them.
#[tactic(auto, unfolding(crate::specs::Readers::implements_at))]
pub(crate) fn implements(alloc: Global, tokens: Tokens) -> Result<(Vec<Link>, Tokens), Halt>
    ensures { Gives (λ r. (r.0.items, ahead r.1)) result (implements_at (ahead tokens.entry)) }
{
    if next_is_word(tokens, b"implements") {
        let tokens = word(tokens, b"implements")?;
        link_list(alloc, tokens)
    } else {
        Ok((Vec::new(alloc), tokens))
    }
}
