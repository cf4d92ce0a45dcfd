ghost use Rattle.std.specs.Prelude.{◌≡◌, IfOk, OnOk, map, option_map};
ghost use Rattle.seq_tree.specs.Statements.{Branches, When};
ghost use Rattle.seq_tree.specs.Trees.{arm_of, block_of, branches_of, expression_of, otherwise, statement_of};
ghost use Rattle.linker.specs.Linking.{LinksBlock, LinksBranches, LinksStatement};
ghost use Rattle.linker.specs.Standing.{Lists, lists_of};

use crate::call::link_call;
use crate::callees::Calls;
use crate::code::{Code, Ins};
use crate::fill::{add_expr, before, fill};
use crate::plain::{close_loop, link_assign, link_exit, link_null, link_put, link_work};
use crate::scope::Scope;
use seq_tree::{Arm, Block, NoMemory, Stmt};

/// Links a statement in front of a place, and tells its own.
#[cycle(statements)]
fn link_statement<'a, C: Calls>(
    code: &mut Code,
    stmt: &'a Stmt,
    scope: &mut Scope<'a>,
    calls: &C,
    out: u32,
    end: u32,
) -> Result<u32, NoMemory>
    ensures scope { OnOk result (scope.new ≡ scope.old) }
    ensures links { IfOk result (λ start. LinksStatement (C.leads calls.now) scope.old out end (lists_of code.old) (lists_of code.new) start
        (statement_of stmt.entry.now)) }
{
    match stmt {
        Stmt::Null => link_null(code, end),
        Stmt::Assign { target, value } => link_assign(code, target, value, scope, end),
        Stmt::If { arms, other } => {
            let others = link_other(code, other, scope, calls, out, end)?;
            link_arms(code, arms, scope, calls, out, end, others)
        }
        Stmt::For {
            name,
            low,
            high,
            body,
        } => {
            let next = before(end)?;
            let counter = scope.enter(name)?;
            let start = link_block(code, body, scope, calls, end, next)?;
            scope.leave()?;
            close_loop(code, counter, *low, *high, start, end)
        }
        Stmt::ExitWhen(condition) => link_exit(code, condition, scope, out, end),
        Stmt::Call {
            object,
            op,
            actuals,
        } => link_call(code, object, op, actuals, scope, calls, end),
        Stmt::Work(ticks) => link_work(code, *ticks, end),
        Stmt::Put(value) => link_put(code, value, scope, end),
    }
}

/// Links a condition with its block in front of the other branches of an `if`, which begin at `others`.
#[cycle(statements)]
fn link_arm<'a, C: Calls>(
    code: &mut Code,
    arm: &'a Arm,
    scope: &mut Scope<'a>,
    calls: &C,
    out: u32,
    end: u32,
    others: u32,
) -> Result<u32, NoMemory>
    ensures scope { OnOk result (scope.new ≡ scope.old) }
    ensures links { IfOk result (λ start. (from : Lists) (bs : Branches)
        → LinksBranches (C.leads calls.now) scope.old out end from (lists_of code.old) others bs
        → LinksBranches (C.leads calls.now) scope.old out end from (lists_of code.new) start
        (When (expression_of arm.entry.now.cond) (block_of arm.entry.now.block) bs)) }
{
    let jump = before(others)?;
    fill(code, jump, Ins::Jump(end))?;
    let block = link_block(code, &arm.block, scope, calls, out, jump)?;
    let cond = add_expr(code, &arm.cond, scope)?;
    let start = before(block)?;
    fill(
        code,
        start,
        Ins::Test {
            cond,
            other: others,
        },
    )?;
    Ok(start)
}

/// Links conditions with their blocks, in front of the last branch of an `if`, which begins at `others`.
#[cycle(statements)]
fn link_arms<'a, C: Calls>(
    code: &mut Code,
    arms: &'a [Arm],
    scope: &mut Scope<'a>,
    calls: &C,
    out: u32,
    end: u32,
    others: u32,
) -> Result<u32, NoMemory>
    ensures scope { OnOk result (scope.new ≡ scope.old) }
    ensures links { IfOk result (λ start. (from : Lists) (bs : Branches)
        → LinksBranches (C.leads calls.now) scope.old out end from (lists_of code.old) others bs
        → LinksBranches (C.leads calls.now) scope.old out end from (lists_of code.new) start (branches_of (map arm_of arms.entry.now) bs)) }
{
    let mut start = others;
    let mut at = arms.len();
    'arms: while at > 0 {
        at -= 1;
        let linked = link_arm(code, &arms[at], scope, calls, out, end, start)?;
        start = linked;
    }
    Ok(start)
}

/// Links an `else` in front of the end of its `if`, where there is one.
#[cycle(statements)]
fn link_other<'a, C: Calls>(
    code: &mut Code,
    other: &'a Option<Block>,
    scope: &mut Scope<'a>,
    calls: &C,
    out: u32,
    end: u32,
) -> Result<u32, NoMemory>
    ensures scope { OnOk result (scope.new ≡ scope.old) }
    ensures links { IfOk result (λ start. LinksBranches (C.leads calls.now) scope.old out end (lists_of code.old) (lists_of code.new) start
        (otherwise (option_map block_of other.entry.now))) }
{
    match other {
        None => Ok(end),
        Some(block) => link_block(code, block, scope, calls, out, end),
    }
}

/// Links a block in front of a place, into code that has room for it there: loops that it doesn't begin are left to `out`. It tells where the
/// block begins. The one error is a failed allocation, or too little room, or more than 32 bits can count.
#[cycle(statements)]
pub fn link_block<'a, C: Calls>(
    code: &mut Code,
    block: &'a Block,
    scope: &mut Scope<'a>,
    calls: &C,
    out: u32,
    end: u32,
) -> Result<u32, NoMemory>
    ensures scope { OnOk result (scope.new ≡ scope.old) }
    ensures links { IfOk result (λ start. LinksBlock (C.leads calls.now) scope.old out end (lists_of code.old) (lists_of code.new) start
        (block_of block.entry.now)) }
{
    let mut start = end;
    let mut at = block.stmts.len();
    'stmts: while at > 0 {
        at -= 1;
        let linked = link_statement(code, &block.stmts[at], scope, calls, out, start)?;
        start = linked;
    }
    Ok(start)
}
