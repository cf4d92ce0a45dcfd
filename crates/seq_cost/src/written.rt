ghost use Rattle.std.specs.Prelude.{◌≡◌, IfOk, map, option_map, ◌++◌, Option, Some, None};
ghost use Rattle.seq_tree.specs.Calls.{block_calls};
ghost use Rattle.seq_tree.specs.Statements.{Nothing};
ghost use Rattle.seq_tree.specs.Trees.{arm_of, block_of, branches_of, otherwise, statement_of};
ghost use Rattle.seq_cost.specs.Different.{call_of, different};
ghost use Rattle.seq_cost.specs.Gathered.{block_gathered, branch_gathered, leaves_out, statement_gathered};

use name_sets::Ops;
use seq_tree::{Arm, Block, Name, NoMemory, OpName, Stmt};
use std::alloc::Global;

/// A call as it is written.
#[derive(Clone, Copy, Drop, Debug)]
pub struct Call<'a> {
    pub object: &'a Name,
    pub op: &'a Name,
}

/// Which calls of a block are gathered.
#[derive(Clone, Copy)]
pub enum Gathered {
    /// Each as it is written.
    Written,
    /// Those outside loops of no turn.
    Live,
}

/// Whether the calls inside a loop are left out.
fn leaves_out(how: Gathered, low: u32, high: u32) -> bool
    ensures { result ≡ leaves_out how low high }
{
    match how {
        Gathered::Live => low > high,
        Gathered::Written => false,
    }
}

/// Adds the calls of a statement.
#[cycle(gathering)]
#[tactic(auto, using(crate::proofs::Gathering::gathering_laws))]
fn add_statement<'a>(
    how: Gathered,
    stmt: &'a Stmt,
    found: &mut Vec<Call<'a>>,
) -> Result<(), NoMemory>
    ensures { IfOk result (λ _. map call_of found.new.items ≡ map call_of found.old.items
        ++ statement_gathered how (statement_of stmt.entry.now)) }
{
    match stmt {
        Stmt::If { arms, other } => {
            add_arms(how, arms, found)?;
            add_other(how, other, found)
        }
        Stmt::For {
            low,
            high,
            body,
            ..
        } => {
            if leaves_out(how, *low, *high) {
                Ok(())
            } else {
                add_block(how, body, found)
            }
        }
        Stmt::Call { object, op, .. } => {
            found.push(Call { object, op })?;
            Ok(())
        }
        Stmt::Null | Stmt::Assign { .. } | Stmt::ExitWhen(_) | Stmt::Work(_) | Stmt::Put(_) => {
            Ok(())
        }
    }
}

/// Adds the calls of the blocks that conditions guard.
#[cycle(gathering)]
#[tactic(auto, using(crate::proofs::Gathering::gathering_laws))]
fn add_arms<'a>(how: Gathered, arms: &'a [Arm], found: &mut Vec<Call<'a>>) -> Result<(), NoMemory>
    ensures { IfOk result (λ _. map call_of found.new.items ≡ map call_of found.old.items
        ++ branch_gathered how (branches_of (map arm_of arms.entry.now) Nothing)) }
{
    'arms: for arm in arms {
        add_block(how, &arm.block, found)?;
    }
    Ok(())
}

/// Adds the calls of an `else`, where there is one.
#[cycle(gathering)]
#[tactic(auto, using(crate::proofs::Gathering::gathering_laws))]
fn add_other<'a>(
    how: Gathered,
    other: &'a Option<Block>,
    found: &mut Vec<Call<'a>>,
) -> Result<(), NoMemory>
    ensures { IfOk result (λ _. map call_of found.new.items ≡ map call_of found.old.items
        ++ branch_gathered how (otherwise (option_map block_of other.entry.now))) }
{
    match other {
        None => Ok(()),
        Some(block) => add_block(how, block, found),
    }
}

/// Adds the calls of a block.
#[cycle(gathering)]
#[tactic(auto, using(crate::proofs::Gathering::gathering_laws))]
fn add_block<'a>(how: Gathered, block: &'a Block, found: &mut Vec<Call<'a>>) -> Result<(), NoMemory>
    ensures { IfOk result (λ _. map call_of found.new.items ≡ map call_of found.old.items ++ block_gathered how (block_of block.entry.now)) }
{
    'stmts: for stmt in &block.stmts {
        add_statement(how, stmt, found)?;
    }
    Ok(())
}

/// The calls of a block, gathered like this, in order.
pub fn gathered_calls<'a>(
    alloc: Global,
    how: Gathered,
    block: &'a Block,
) -> Result<Vec<Call<'a>>, NoMemory>
    ensures { IfOk result (λ v. map call_of v.items ≡ block_gathered how (block_of block.entry.now)) }
{
    let mut found = Vec::new(alloc);
    add_block(how, block, &mut found)?;
    Ok(found)
}

/// The calls of a block as they are written, in order.
pub fn written_calls<'a>(alloc: Global, block: &'a Block) -> Result<Vec<Call<'a>>, NoMemory>
    ensures { IfOk result (λ v. map call_of v.items ≡ block_calls (block_of block.entry.now)) }
{
    gathered_calls(alloc, Gathered::Written, block)
}

/// The name of what is called.
fn op_name(alloc: Global, call: &Call<'_>) -> Result<OpName, NoMemory>
    ensures { IfOk result (λ n. n ≡ call_of call.now) }
{
    Ok(OpName {
        object: call.object.copy(alloc)?,
        op: call.op.copy(alloc)?,
    })
}

/// The different calls among these, each where it is first.
fn firsts<'a>(alloc: Global, calls: &[Call<'a>]) -> Result<Vec<OpName>, NoMemory>
    ensures { IfOk result (λ v. v.items ≡ different (map call_of calls.entry.now)) }
{
    let mut found = Vec::new(alloc);
    let mut seen = Ops::new(alloc);
    'calls: for call in calls {
        if !seen.has(call.object, call.op) {
            found.push(op_name(alloc, call)?)?;
            seen.add(alloc, call.object, call.op)?;
        }
    }
    Ok(found)
}

/// The different calls of a block, in the order in which they are written first.
pub fn calls(alloc: Global, block: &Block) -> Result<Vec<OpName>, NoMemory>
    ensures { IfOk result (λ v. v.items ≡ different (block_calls (block_of block.now))) }
{
    let written = written_calls(alloc, block)?;
    firsts(alloc, written.as_slice())
}
