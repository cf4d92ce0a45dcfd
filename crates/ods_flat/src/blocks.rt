ghost use Rattle.std.specs.Prelude.{◌≡◌, IfOk, map, option_map};
ghost use Rattle.seq_tree.specs.Trees.{arm_of, block_of, expression_of, statement_of};
ghost use Rattle.ods_tree.specs.Links.{renamed, renamed_statement, resolve, resolved};
ghost use Rattle.ods_tree.specs.Trees.{design_of};
ghost use Rattle.ods_flat.specs.Renaming.{call_by, renamed_arm};

use ods_index::Links;
use seq_cost::Call;
use seq_tree::{Arm, Block, Expr, Name, NoMemory, Stmt};
use std::alloc::Global;

/// Expressions with equal trees.
fn copy_all(alloc: Global, exprs: &[Expr]) -> Result<Vec<Expr>, NoMemory>
    ensures { IfOk result (λ v. map expression_of v.items ≡ map expression_of exprs.now) }
{
    let mut copies = Vec::new(alloc);
    'exprs: for expr in exprs {
        copies.push(expr.copy(alloc)?)?;
    }
    Ok(copies)
}

/// A call of what a call means.
fn resolved_call<'a>(
    alloc: Global,
    links: &Links<'a>,
    object: &'a Name,
    op: &'a Name,
    actuals: &[Expr],
) -> Result<Stmt, NoMemory>
    ensures { IfOk result (λ s. statement_of s
        ≡ call_by (resolve (design_of links.now.design.now) (record { object = object.entry.now; op = op.entry.now }))
        (map expression_of actuals.entry.now)) }
{
    let meant = links.resolve(Call { object, op });
    Ok(Stmt::Call {
        object: meant.object.copy(alloc)?,
        op: meant.op.copy(alloc)?,
        actuals: copy_all(alloc, actuals)?,
    })
}

/// A statement with each call of what it means.
#[cycle(resolving)]
#[tactic(auto, using(crate::proofs::RenamingLaws::renaming_laws))]
fn resolved_statement<'a>(
    alloc: Global,
    links: &Links<'a>,
    stmt: &'a Stmt,
) -> Result<Stmt, NoMemory>
    ensures { IfOk result (λ s. statement_of s ≡ renamed_statement (resolve (design_of links.now.design.now)) (statement_of stmt.entry.now)) }
{
    match stmt {
        Stmt::Null => Ok(Stmt::Null),
        Stmt::Assign { target, value } => Ok(Stmt::Assign {
            target: target.copy(alloc)?,
            value: value.copy(alloc)?,
        }),
        Stmt::If { arms, other } => {
            let copies = resolved_arms(alloc, links, arms.as_slice())?;
            let arms = Box::new(alloc, copies)?;
            let other = resolved_other(alloc, links, other)?;
            Ok(Stmt::If { arms, other })
        }
        Stmt::For {
            name,
            low,
            high,
            body,
        } => Ok(Stmt::For {
            name: name.copy(alloc)?,
            low: *low,
            high: *high,
            body: resolved_block(alloc, links, body)?,
        }),
        Stmt::ExitWhen(condition) => Ok(Stmt::ExitWhen(condition.copy(alloc)?)),
        Stmt::Call {
            object,
            op,
            actuals,
        } => resolved_call(alloc, links, object, op, actuals.as_slice()),
        Stmt::Work(ticks) => Ok(Stmt::Work(*ticks)),
        Stmt::Put(value) => Ok(Stmt::Put(value.copy(alloc)?)),
    }
}

/// An arm with each call of what it means.
#[cycle(resolving)]
fn resolved_arm<'a>(alloc: Global, links: &Links<'a>, arm: &'a Arm) -> Result<Arm, NoMemory>
    ensures { IfOk result (λ a. arm_of a ≡ renamed_arm (resolve (design_of links.now.design.now)) (arm_of arm.entry.now)) }
{
    let cond = arm.cond.copy(alloc)?;
    let block = resolved_block(alloc, links, &arm.block)?;
    Ok(Arm { cond, block })
}

/// Arms with each call of what it means.
#[cycle(resolving)]
fn resolved_arms<'a>(
    alloc: Global,
    links: &Links<'a>,
    arms: &'a [Arm],
) -> Result<Vec<Arm>, NoMemory>
    ensures { IfOk result (λ v. map arm_of v.items ≡ map (renamed_arm (resolve (design_of links.now.design.now))) (map arm_of arms.entry.now)) }
{
    let mut copies = Vec::new(alloc);
    'arms: for arm in arms {
        copies.push(resolved_arm(alloc, links, arm)?)?;
    }
    Ok(copies)
}

/// An `else` with each call of what it means, where there is one.
#[cycle(resolving)]
fn resolved_other<'a>(
    alloc: Global,
    links: &Links<'a>,
    other: &'a Option<Block>,
) -> Result<Option<Block>, NoMemory>
    ensures { IfOk result (λ o. option_map block_of o ≡ option_map (renamed (resolve (design_of links.now.design.now)))
        (option_map block_of other.entry.now)) }
{
    match other {
        None => Ok(None),
        Some(block) => Ok(Some(resolved_block(alloc, links, block)?)),
    }
}

/// A block with each call of what it means.
#[cycle(resolving)]
#[tactic(auto, using(crate::proofs::RenamingLaws::renaming_laws))]
pub(crate) fn resolved_block<'a>(
    alloc: Global,
    links: &Links<'a>,
    block: &'a Block,
) -> Result<Block, NoMemory>
    ensures { IfOk result (λ b. block_of b ≡ resolved (design_of links.now.design.now) (block_of block.entry.now)) }
{
    let mut stmts = Vec::new(alloc);
    'stmts: for stmt in &block.stmts {
        stmts.push(resolved_statement(alloc, links, stmt)?)?;
    }
    Ok(Block { stmts })
}
