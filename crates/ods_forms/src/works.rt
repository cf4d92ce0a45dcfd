ghost use Rattle.std.specs.Prelude.{◌≡◌, map, option_map};
ghost use Rattle.std.specs.List.{list_all};
ghost use Rattle.seq_tree.specs.Calls.{block_works, branch_works, statement_works};
ghost use Rattle.seq_tree.specs.Statements.{Nothing};
ghost use Rattle.seq_tree.specs.Trees.{arm_of, block_of, branches_of, otherwise, statement_of};
ghost use Rattle.seq_tree.specs.Limits.{is_within};
ghost use Rattle.ods_forms.specs.Limits.{most_ticks};

use crate::limits::MOST_TICKS;
use seq_tree::{Arm, Block, Stmt};

/// Whether a number is in a range.
pub(crate) fn is_within(low: u32, high: u32, n: u32) -> bool
    ensures { result ≡ is_within low high n }
{
    low <= n && n <= high
}

/// Whether the numbers of `work` in the blocks of arms are in their range.
#[cycle(works)]
#[tactic(auto, using(crate::proofs::WorkSteps::work_steps))]
fn do_arms_fit(arms: &[Arm]) -> bool
    ensures { result ≡ list_all (is_within 1 most_ticks) (branch_works (branches_of (map arm_of arms.now) Nothing)) }
{
    'arms: for arm in arms {
        if !do_works_fit(&arm.block) {
            return false;
        }
    }
    true
}

/// Whether those of an `else` are, where there is one.
#[cycle(works)]
fn does_other_fit(other: &Option<Block>) -> bool
    ensures { result ≡ list_all (is_within 1 most_ticks) (branch_works (otherwise (option_map block_of other.now))) }
{
    match other {
        None => true,
        Some(block) => do_works_fit(block),
    }
}

/// Whether those of a statement are.
#[cycle(works)]
#[tactic(auto, using(crate::proofs::WorkSteps::work_steps))]
fn does_statement_fit(stmt: &Stmt) -> bool
    ensures { result ≡ list_all (is_within 1 most_ticks) (statement_works (statement_of stmt.now)) }
{
    match stmt {
        Stmt::Null => true,
        Stmt::Assign { .. } => true,
        Stmt::If { arms, other } => {
            if do_arms_fit(arms.as_slice()) {
                return does_other_fit(other);
            }
            false
        }
        Stmt::For { body, .. } => do_works_fit(body),
        Stmt::ExitWhen(_) => true,
        Stmt::Call { .. } => true,
        Stmt::Work(ticks) => is_within(1, MOST_TICKS, *ticks),
        Stmt::Put(_) => true,
    }
}

/// Whether each number of `work` in a block is 1 to 1,000,000,000.
#[cycle(works)]
#[tactic(auto, using(crate::proofs::WorkSteps::work_steps))]
pub(crate) fn do_works_fit(block: &Block) -> bool
    ensures { result ≡ list_all (is_within 1 most_ticks) (block_works (block_of block.now)) }
{
    'stmts: for stmt in &block.stmts {
        if !does_statement_fit(stmt) {
            return false;
        }
    }
    true
}
