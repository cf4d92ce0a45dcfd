ghost use Rattle.std.specs.Prelude.{map, option_map};
ghost use Rattle.seq_tree.specs.Trees.{block_of};
ghost use Rattle.ods_tree.specs.Trees.{body_of};
ghost use Rattle.ods_tree.specs.Words.{is_design_name};
ghost use Rattle.token_read.specs.Ahead.{ahead};
ghost use Rattle.seq_read.specs.Halts.{Gives};
ghost use Rattle.seq_read.specs.Statements.{block_at};
ghost use Rattle.ods_read.specs.Readers.{body_at, bodies_at, activation_at, thread_at};

use crate::names::name;
use crate::sections::locals;
use ods_tree::OpBody;
use seq_read::{Halt, Text, end_of, word};
use seq_tree::Block;
use std::alloc::Global;
use token_read::{Tokens, next_is_word};

/// The longest block at the front, inside which constructs nest at most `deeper` deep, and the tokens after it.
#[tactic(auto, unfolding(seq_read::specs::Names::may_name))]
fn block(alloc: Global, tokens: Tokens, deeper: u32) -> Result<(Block, Tokens), Halt>
    ensures { Gives (λ r. (block_of r.0, ahead r.1)) result (block_at is_design_name 32 deeper (ahead tokens.entry)) }
{
    seq_read::block(alloc, tokens, Text::Design, deeper)
}

/// The body of an operation, and the tokens after it.
#[tactic(auto, unfolding(crate::specs::Readers::body_at))]
fn body(alloc: Global, tokens: Tokens, deeper: u32) -> Result<(OpBody, Tokens), Halt>
    ensures { Gives (λ r. (body_of r.0, ahead r.1)) result (body_at (block_at is_design_name 32 deeper) (ahead tokens.entry)) }
{
    let tokens = word(tokens, b"operation")?;
    let (name, tokens) = name(alloc, tokens)?;
    let tokens = word(tokens, b"is")?;
    let (locals, tokens) = locals(alloc, tokens)?;
    let tokens = word(tokens, b"begin")?;
    let (block, tokens) = block(alloc, tokens, deeper)?;
    let tokens = end_of(tokens, name.bytes())?;
    let body = OpBody {
        name,
        locals,
        block,
    };
    Ok((body, tokens))
}

/// The bodies of operations, as many as there are, and the tokens after them.
#[tactic(auto, using(crate::proofs::ListSteps::body_steps))]
pub(crate) fn bodies(
    alloc: Global,
    tokens: Tokens,
    deeper: u32,
) -> Result<(Vec<OpBody>, Tokens), Halt>
    ensures { Gives (λ r. (map body_of r.0.items, ahead r.1)) result (bodies_at (block_at is_design_name 32 deeper) (ahead tokens.entry)) }
{
    let mut bodies = Vec::new(alloc);
    let mut rest = tokens;
    'bodies: while next_is_word(rest, b"operation") {
        let (next, after) = body(alloc, rest, deeper)?;
        bodies.push(next)?;
        rest = after;
    }
    Ok((bodies, rest))
}

/// What the thread of an object does, where it has one, and the tokens after it.
#[tactic(auto, unfolding(crate::specs::Readers::thread_at, crate::specs::Readers::activation_at))]
pub(crate) fn thread(
    alloc: Global,
    tokens: Tokens,
    deeper: u32,
) -> Result<(Option<Block>, Tokens), Halt>
    ensures { Gives (λ r. (option_map block_of r.0, ahead r.1)) result (thread_at (block_at is_design_name 32 deeper) (ahead tokens.entry)) }
{
    if next_is_word(tokens, b"thread") {
        let tokens = word(tokens, b"thread")?;
        let (block, tokens) = block(alloc, tokens, deeper)?;
        let tokens = end_of(tokens, b"thread")?;
        Ok((Some(block), tokens))
    } else {
        Ok((None, tokens))
    }
}
