ghost use Rattle.std.specs.Prelude.{◌≡◌, ◌≤◌, drop, length};
ghost use Rattle.token_read.specs.Words.{bare};
ghost use Rattle.seq_read.specs.Answers.{SaysBlock, SaysExpression, fault_at};

use crate::expressions::expression;
use crate::fault::ReadFault;
use crate::halt::Halt;
use crate::names::Text;
use crate::statements::block;
use seq_tree::{Block, Expr, Spanned};
use std::alloc::Global;
use token_read::Tokens;

/// How many constructs may stand in one another.
const MOST_NESTING: u32 = 64;

/// The fault of so many tokens, by how many were left.
fn told(count: usize, halt: Halt) -> ReadFault
    ensures { result ≡ fault_at count halt }
{
    match halt {
        Halt::Syntax(left) => ReadFault::Syntax(count.saturating_sub(left)),
        Halt::TooDeep(left) => ReadFault::TooDeep(count.saturating_sub(left)),
        Halt::NoMemory => ReadFault::NoMemory,
    }
}

/// The longest block that starts at the token with the index `from`, and the index of the token after it.
///
/// `depth` is how many constructs are open there, at most 64. `Syntax` comes exactly at the first token with which no block goes on,
/// where the tokens before it are no whole block; `TooDeep` exactly at the token that opens the 65th nesting or is the 33rd operator
/// of a chain, where it comes before that; `NoMemory` for want of memory.
pub fn read_block(
    alloc: Global,
    tokens: &[Spanned],
    from: usize,
    depth: u32,
) -> Result<(Block, usize), ReadFault>
    requires { (from ≤ length tokens.now) × (depth ≤ 64) }
    ensures { SaysBlock depth from (drop from (bare tokens.now)) result }
{
    let (_, front) = tokens.split_at(from);
    let here = Tokens::listed(front);
    match block(alloc, here, Text::Plain, MOST_NESTING - depth) {
        Ok((block, rest)) => Ok((block, tokens.len().saturating_sub(rest.len()))),
        Err(halt) => Err(told(tokens.len(), halt)),
    }
}

/// The longest expression that starts at the token with the index `from`, and the index of the token after it.
///
/// The conditions and the answers are those of `read_block`, with expressions in the place of blocks.
pub fn read_expr(
    alloc: Global,
    tokens: &[Spanned],
    from: usize,
    depth: u32,
) -> Result<(Expr, usize), ReadFault>
    requires { (from ≤ length tokens.now) × (depth ≤ 64) }
    ensures { SaysExpression depth from (drop from (bare tokens.now)) result }
{
    let (_, front) = tokens.split_at(from);
    let here = Tokens::listed(front);
    match expression(alloc, here, Text::Plain, MOST_NESTING - depth) {
        Ok((expr, rest)) => Ok((expr, tokens.len().saturating_sub(rest.len()))),
        Err(halt) => Err(told(tokens.len(), halt)),
    }
}
