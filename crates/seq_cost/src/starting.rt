ghost use Rattle.std.specs.Prelude.{◌≡◌, min};
ghost use Rattle.seq_tree.specs.Dearest.{counted, starts, starts_through};
ghost use Rattle.seq_tree.specs.Trees.{block_of};
ghost use Rattle.seq_cost.specs.Callees.{callee_starts};

use crate::accounts::{Account, ListedStarts, Started};
use crate::counted::Counted;
use crate::paths::block_weight;
use seq_tree::{Block, OpName};

/// The greatest number of calls of an operation on a path through a block, or 2 where it is more. It takes no memory.
pub fn starts(block: &Block, target: &OpName) -> u32
    ensures { result ≡ min 2 (starts target.now (block_of block.now)) }
{
    let counted: Counted<ListedStarts> = Counted::Calls { target };
    block_weight(block, &counted, 2) as u32
}

/// The same, where a call of another operation counts the number of the first callee of its name, and nothing where none has it.
///
/// It searches the list for each call: `starts_by` takes an account that may search faster. It takes no memory.
pub fn starts_through(block: &Block, target: &OpName, callees: &[Started]) -> u32
    ensures { result ≡ min 2 (starts_through target.now (callee_starts callees.now) (block_of block.now)) }
{
    starts_by(block, target, &ListedStarts { callees })
}

/// The same, where a call of another operation counts what an account says.
pub fn starts_by<A: Account>(block: &Block, target: &OpName, account: &A) -> u32
    ensures { result ≡ min 2 (starts_through target.now (A.counts account.now) (block_of block.now)) }
{
    block_weight(block, &Counted::Through { target, account }, 2) as u32
}

/// The greatest number on a path through a block, or 2 where it is more, where each call counts what an account says. It takes no
/// memory.
pub fn counted_by<A: Account>(block: &Block, account: &A) -> u32
    ensures { result ≡ min 2 (counted (A.counts account.now) (block_of block.now)) }
{
    block_weight(block, &Counted::Weighed { account }, 2) as u32
}
