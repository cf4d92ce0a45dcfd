ghost use Rattle.std.specs.Prelude.{◌≡◌, ◌+◌, IfOk, map, option_map};
ghost use Rattle.seq_tree.specs.Statements.{Nothing};
ghost use Rattle.seq_tree.specs.Trees.{arm_of, block_of, branches_of, otherwise, statement_of};
ghost use Rattle.law_flat_code.specs.Codes.{block_size, branch_size, size};

use seq_tree::{Arm, Block, NoMemory, Stmt};

/// The sum of two numbers. The one error is that no number tells it.
fn sum(first: u32, second: u32) -> Result<u32, NoMemory>
    ensures { IfOk result (λ n. n ≡ first + second) }
{
    first.checked_add(second).ok_or(NoMemory)
}

/// How many instructions a statement has.
#[cycle(statements)]
fn statement_len(stmt: &Stmt) -> Result<u32, NoMemory>
    ensures { IfOk result (λ n. n ≡ size (statement_of stmt.now)) }
{
    match stmt {
        Stmt::Null => Ok(1),
        Stmt::Assign { .. } => Ok(1),
        Stmt::If { arms, other } => {
            let first = arms_len(arms)?;
            let last = other_len(other)?;
            sum(first, last)
        }
        Stmt::For { body, .. } => {
            let turn = block_len(body)?;
            sum(turn, 2)
        }
        Stmt::ExitWhen(_) => Ok(1),
        Stmt::Call { .. } => Ok(1),
        Stmt::Work(_) => Ok(1),
        Stmt::Put(_) => Ok(1),
    }
}

/// How many instructions conditions with their blocks have.
#[cycle(statements)]
fn arms_len(arms: &[Arm]) -> Result<u32, NoMemory>
    ensures { IfOk result (λ n. n ≡ branch_size (branches_of (map arm_of arms.now) Nothing)) }
{
    let mut len = 0;
    'arms: for arm in arms {
        let block = block_len(&arm.block)?;
        let both = sum(block, 2)?;
        let next = sum(len, both)?;
        len = next;
    }
    Ok(len)
}

/// How many instructions an `else` has, where there is one.
#[cycle(statements)]
fn other_len(other: &Option<Block>) -> Result<u32, NoMemory>
    ensures { IfOk result (λ n. n ≡ branch_size (otherwise (option_map block_of other.now))) }
{
    match other {
        None => Ok(0),
        Some(block) => block_len(block),
    }
}

/// How many instructions a block has. The one error is that 32 bits can't count them.
#[cycle(statements)]
pub(crate) fn block_len(block: &Block) -> Result<u32, NoMemory>
    ensures { IfOk result (λ n. n ≡ block_size (block_of block.now)) }
{
    let mut len = 0;
    'stmts: for stmt in &block.stmts {
        let lines = statement_len(stmt)?;
        let next = sum(len, lines)?;
        len = next;
    }
    Ok(len)
}
