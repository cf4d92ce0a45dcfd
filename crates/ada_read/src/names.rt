ghost use Rattle.ada_tree.specs.Words.{is_ada_name};
ghost use Rattle.token_read.specs.Ahead.{ahead};
ghost use Rattle.token_read.specs.Readers.{name_at};
ghost use Rattle.seq_read.specs.Halts.{Gives};
ghost use Rattle.seq_read.specs.Parts.{data_at};

use seq_read::{Halt, Text};
use seq_tree::{Datum, Name};
use std::alloc::Global;
use token_read::Tokens;

/// The name that is first, and the tokens after it.
#[tactic(auto, unfolding(seq_read::specs::Names::may_name))]
pub(crate) fn name(alloc: Global, tokens: Tokens) -> Result<(Name, Tokens), Halt>
    ensures { Gives (λ r. (r.0, ahead r.1)) result (name_at is_ada_name (ahead tokens.entry)) }
{
    seq_read::name(alloc, tokens, Text::Ada)
}

/// Variables, as many as there are, and the tokens after them.
#[tactic(auto, unfolding(seq_read::specs::Names::may_name))]
pub(crate) fn data(alloc: Global, tokens: Tokens) -> Result<(Vec<Datum>, Tokens), Halt>
    ensures { Gives (λ r. (r.0.items, ahead r.1)) result (data_at is_ada_name (ahead tokens.entry)) }
{
    seq_read::data(alloc, tokens, Text::Ada)
}
