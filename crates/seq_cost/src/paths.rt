ghost use Rattle.std.specs.Prelude.{◌≡◌, ◌≤◌, map, min, option_map};
ghost use Rattle.seq_tree.specs.Dearest.{dearest, dearest_branch, dearest_statement, turn_count};
ghost use Rattle.seq_tree.specs.Trees.{arm_of, block_of, otherwise, statement_of};
ghost use Rattle.seq_cost.specs.Counting.{arms_weight, weights_of};

use crate::accounts::Account;
use crate::counted::Counted;
use seq_tree::{Arm, Block, Stmt};

/// The number of turns of a loop.
fn turn_count(low: u32, high: u32) -> u64
    ensures turns { result ≡ turn_count low high }
    ensures few { result ≤ 4294967296 }
{
    if low > high {
        return 0;
    }
    u64::from(high - low) + 1
}

/// What a statement counts along its dearest path, or `limit` where that is more.
#[cycle(dearest)]
#[tactic(auto, using(crate::proofs::Caps::cap_laws))]
pub(crate) fn statement_weight<A: Account>(stmt: &Stmt, counted: &Counted<A>, limit: u64) -> u64
    requires { limit ≤ 1000000001 }
    ensures { result ≡ min limit (dearest_statement (weights_of A.counts counted.now) (statement_of stmt.now)) }
{
    let costs = counted.costs();
    match stmt {
        Stmt::Null => limit.min(u64::from(costs.nothing)),
        Stmt::Assign { .. } => limit.min(u64::from(costs.assign)),
        Stmt::If { arms, other } => {
            let others = other_weight(other, counted, limit);
            arms_weight(arms, others, counted, limit)
        }
        Stmt::For {
            low,
            high,
            body,
            ..
        } => {
            let turn = limit.min(u64::from(costs.turn) + block_weight(body, counted, limit));
            limit.min(turn_count(*low, *high) * turn)
        }
        Stmt::ExitWhen(_) => limit.min(u64::from(costs.test)),
        Stmt::Call { object, op, .. } => {
            limit.min(u64::from(costs.call) + u64::from(counted.called(object, op)))
        }
        Stmt::Work(ticks) => limit.min(u64::from(counted.work(*ticks))),
        Stmt::Put(_) => limit.min(u64::from(costs.put)),
    }
}

/// What an `else`, or its absence, counts along its dearest path, or `limit` where that is more.
#[cycle(dearest)]
fn other_weight<A: Account>(other: &Option<Block>, counted: &Counted<A>, limit: u64) -> u64
    requires { limit ≤ 1000000001 }
    ensures { result ≡ min limit (dearest_branch (weights_of A.counts counted.now) (otherwise (option_map block_of other.now))) }
{
    match other {
        None => 0,
        Some(block) => block_weight(block, counted, limit),
    }
}

/// What arms count along their dearest path, or `limit` where that is more: the conditions tested and the branch that is taken,
/// where what follows all of them counts `others`.
#[cycle(dearest)]
#[tactic(auto, using(crate::proofs::Caps::cap_laws))]
fn arms_weight<A: Account>(arms: &[Arm], others: u64, counted: &Counted<A>, limit: u64) -> u64
    requires { (limit ≤ 1000000001) × (others ≤ limit) }
    ensures { result ≡ min limit (arms_weight (weights_of A.counts counted.now) (map arm_of arms.now) others) }
{
    let test = u64::from(counted.costs().test);
    let mut tested: u64 = 0;
    let mut greatest: u64 = 0;
    'arms: for arm in arms {
        tested = limit.min(tested + test);
        greatest = greatest.max(tested + block_weight(&arm.block, counted, limit));
    }
    limit.min(greatest.max(tested + others))
}

/// What a block counts along its dearest path, or `limit` where that is more.
#[cycle(dearest)]
#[tactic(auto, using(crate::proofs::Caps::cap_laws))]
pub(crate) fn block_weight<A: Account>(block: &Block, counted: &Counted<A>, limit: u64) -> u64
    requires { limit ≤ 1000000001 }
    ensures { result ≡ min limit (dearest (weights_of A.counts counted.now) (block_of block.now)) }
{
    let mut total: u64 = 0;
    'stmts: for stmt in &block.stmts {
        total = limit.min(total + statement_weight(stmt, counted, limit));
    }
    total
}
