ghost use Rattle.std.specs.Prelude.{◌≡◌, ◌<◌, ◌≤◌, ◌+◌, IfOk, IfErr, min};
ghost use Rattle.seq_tree.specs.Dearest.{cost, dearest_statement};
ghost use Rattle.seq_tree.specs.Trees.{block_of, statement_of};
ghost use Rattle.seq_cost.specs.Callees.{callee_cost};
ghost use Rattle.seq_cost.specs.Counting.{weights_of};
ghost use Rattle.seq_cost.specs.Over.{BringsOver, most, within_most};

use crate::accounts::{Account, Callee, Listed};
use crate::counted::Counted;
use crate::paths::{block_weight, statement_weight};
use seq_tree::{Block, Costs, Stmt, TICK_LIMIT};
use thiserror::Error;

/// The most that a block may cost, in ticks.
const MOST: u64 = TICK_LIMIT as u64;

/// A block costs more than 1,000,000,000 ticks.
#[derive(Clone, Copy, Debug, PartialEq, Eq, Error)]
#[error("the cost is over 1,000,000,000 ticks")]
pub struct TooDear {
    /// The first statement of the block that brings the sum over it, counted from 0.
    pub statement: usize,
}

/// These ticks and those of a statement, where they are at most 1,000,000,000.
fn spent_with<A: Account>(spent: u64, stmt: &Stmt, counted: &Counted<A>) -> Option<u64>
    requires { spent ≤ most }
    ensures { result ≡ within_most (spent + dearest_statement (weights_of A.counts counted.now) (statement_of stmt.now)) }
{
    let total = spent + statement_weight(stmt, counted, MOST + 1);
    if total > MOST {
        return None;
    }
    Some(total)
}

/// The ticks of the dearest path through a block, where a call costs what the first callee of its name does, besides the call.
///
/// `TooDear` comes exactly where they are over 1,000,000,000, and names the first statement that brings the sum over that. A call
/// of an operation that isn't among `callees` costs the call alone. It takes no memory, and searches the list for each call:
/// `cost_by` takes an account that may search faster.
pub fn cost(block: &Block, costs: &Costs, callees: &[Callee]) -> Result<u32, TooDear>
    ensures ticks { IfOk result (λ n. n ≡ cost costs.now (callee_cost callees.now) (block_of block.now)) }
    ensures fits { IfOk result (λ n. n ≤ most) }
    ensures over { IfErr result (λ e. most < cost costs.now (callee_cost callees.now) (block_of block.now)) }
    ensures first { IfErr result (λ e. BringsOver costs.now (callee_cost callees.now) (block_of block.now) e.statement) }
{
    cost_by(block, costs, &Listed { callees })
}

/// The same, where a call costs what an account says, besides the call.
pub fn cost_by<A: Account>(block: &Block, costs: &Costs, account: &A) -> Result<u32, TooDear>
    ensures ticks { IfOk result (λ n. n ≡ cost costs.now (A.counts account.now) (block_of block.now)) }
    ensures fits { IfOk result (λ n. n ≤ most) }
    ensures over { IfErr result (λ e. most < cost costs.now (A.counts account.now) (block_of block.now)) }
    ensures first { IfErr result (λ e. BringsOver costs.now (A.counts account.now) (block_of block.now) e.statement) }
{
    let counted = Counted::Ticks { costs, account };
    let mut total: u64 = 0;
    let mut statement: usize = 0;
    'stmts: for stmt in &block.stmts {
        let Some(spent) = spent_with(total, stmt, &counted) else {
            return Err(TooDear { statement });
        };
        total = spent;
        statement += 1;
    }
    Ok(total as u32)
}

/// The same ticks, or 1,000,000,001 where they are more: so many are too dear, and so is each block that calls for them.
pub fn capped_cost<A: Account>(block: &Block, costs: &Costs, account: &A) -> u32
    ensures { result ≡ min 1000000001 (cost costs.now (A.counts account.now) (block_of block.now)) }
{
    block_weight(block, &Counted::Ticks { costs, account }, MOST + 1) as u32
}
