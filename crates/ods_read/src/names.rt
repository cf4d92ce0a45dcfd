ghost use Rattle.std.specs.Prelude.{◌≡◌};
ghost use Rattle.grammar.specs.Reading.{first};
ghost use Rattle.ods_tree.specs.Words.{is_design_name};
ghost use Rattle.token_read.specs.Ahead.{ahead};
ghost use Rattle.token_read.specs.Readers.{name_at};
ghost use Rattle.seq_read.specs.Halts.{Gives};
ghost use Rattle.seq_read.specs.Statements.{next_is_name};
ghost use Rattle.ods_read.specs.Readers.{op_name_at};

use seq_read::{Halt, Text, mark};
use seq_tree::{Mark, Name, OpName};
use std::alloc::Global;
use token_read::Tokens;

/// The name that is first, and the tokens after it.
#[tactic(auto, unfolding(seq_read::specs::Names::may_name))]
pub(crate) fn name(alloc: Global, tokens: Tokens) -> Result<(Name, Tokens), Halt>
    ensures { Gives (λ r. (r.0, ahead r.1)) result (name_at is_design_name (ahead tokens.entry)) }
{
    seq_read::name(alloc, tokens, Text::Design)
}

/// Whether a name is next.
#[tactic(auto, unfolding(seq_read::specs::Names::may_name))]
pub(crate) fn next_is_name(tokens: Tokens) -> bool
    ensures { result ≡ next_is_name is_design_name (first (ahead tokens.entry)) }
{
    seq_read::next_is_name(tokens, Text::Design)
}

/// An operation of an object, `object . operation`, and the tokens after it.
#[tactic(auto, unfolding(crate::specs::Readers::op_name_at))]
pub(crate) fn op_name(alloc: Global, tokens: Tokens) -> Result<(OpName, Tokens), Halt>
    ensures { Gives (λ r. (r.0, ahead r.1)) result (op_name_at (ahead tokens.entry)) }
{
    let (object, tokens) = name(alloc, tokens)?;
    let tokens = mark(tokens, Mark::Dot)?;
    let (op, tokens) = name(alloc, tokens)?;
    Ok((OpName { object, op }, tokens))
}
