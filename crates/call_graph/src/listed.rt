ghost use Rattle.std.specs.Prelude.{◌≡◌, ◌&&◌, ◌++◌, IfOk, OnOk, None, Option, Some, false, map, not, option_map};
ghost use Rattle.seq_tree.specs.Statements.{Nothing};
ghost use Rattle.seq_tree.specs.Trees.{arm_of, block_of, branches_of, otherwise, statement_of};
ghost use Rattle.name_sets.specs.Sets.{has_op};
ghost use Rattle.seq_cost.specs.Different.{call_of};
ghost use Rattle.call_graph.specs.Branched.{AreNames};
ghost use Rattle.call_graph.specs.Listed.{block_listed, branch_listed, call_listed, listed_all, listed_more, statement_listed};

use name_sets::Ops;
use seq_cost::Call;
use seq_tree::{Arm, Block, NoMemory, Stmt};
use std::alloc::Global;

/// Adds a call, twice where that is asked for.
#[tactic(auto, using(crate::proofs::ListedSteps::listed_steps))]
fn add_call<'a>(twice: bool, call: Call<'a>, found: &mut Vec<Call<'a>>) -> Result<(), NoMemory>
    ensures { IfOk result (λ _. map call_of found.new.items ≡ map call_of found.old.items ++ call_listed twice (call_of call.entry)) }
{
    found.push(call)?;
    if twice {
        found.push(call)?;
    }
    Ok(())
}

/// Whether a call of a branch is among these and wasn't seen before.
fn is_passed(seen: &Ops<'_>, names: &Ops<'_>, call: &Call<'_>) -> bool
    ensures { result ≡ (has_op names.now (call_of call.now) && not (has_op seen.now (call_of call.now))) }
{
    names.has(call.object, call.op) && !seen.has(call.object, call.op)
}

/// Adds a call of a branch behind those that are listed, where it isn't among them, or was seen in its branch before.
#[tactic(auto, unfolding(crate::specs::Listed::listed_more))]
fn add_more<'a>(
    alloc: Global,
    call: &Call<'a>,
    seen: &Ops<'a>,
    names: &mut Ops<'a>,
    listed: &mut Vec<Call<'a>>,
) -> Result<(), NoMemory>
    requires { AreNames names.old (map call_of listed.old.items) }
    ensures listed { OnOk result (map call_of listed.new.items
        ≡ listed_more (has_op seen.entry.now) (map call_of listed.old.items) (call_of call.entry.now)) }
    ensures names { OnOk result (AreNames names.new (map call_of listed.new.items)) }
{
    if is_passed(seen, names, call) {
        return Ok(());
    }
    names.add(alloc, call.object, call.op)?;
    listed.push(*call)?;
    Ok(())
}

/// Adds the calls of a branch behind those that are listed.
fn add_branch<'a>(
    alloc: Global,
    calls: &[Call<'a>],
    names: &mut Ops<'a>,
    listed: &mut Vec<Call<'a>>,
) -> Result<(), NoMemory>
    requires { AreNames names.old (map call_of listed.old.items) }
    ensures listed { OnOk result (map call_of listed.new.items
        ≡ listed_all (λ n. false) (map call_of listed.old.items) (map call_of calls.entry.now)) }
    ensures names { OnOk result (AreNames names.new (map call_of listed.new.items)) }
{
    let mut seen = Ops::new(alloc);
    'calls: for call in calls {
        add_more(alloc, call, &seen, names, listed)?;
        seen.add(alloc, call.object, call.op)?;
    }
    Ok(())
}

/// Adds the calls of a statement.
#[cycle(gathering)]
#[tactic(auto, using(crate::proofs::ListedSteps::listed_steps))]
fn add_statement<'a>(
    alloc: Global,
    twice: bool,
    stmt: &'a Stmt,
    found: &mut Vec<Call<'a>>,
) -> Result<(), NoMemory>
    ensures { IfOk result (λ _. map call_of found.new.items ≡ map call_of found.old.items
        ++ statement_listed twice (statement_of stmt.entry.now)) }
{
    match stmt {
        Stmt::If { arms, other } => {
            let mut names = Ops::new(alloc);
            let mut listed = Vec::new(alloc);
            add_arms(alloc, twice, arms, &mut names, &mut listed)?;
            add_other(alloc, twice, other, &mut names, &mut listed)?;
            found.extend_from_slice(listed.as_slice())?;
            Ok(())
        }
        Stmt::For { body, .. } => add_block(alloc, true, body, found),
        Stmt::Call { object, op, .. } => add_call(twice, Call { object, op }, found),
        Stmt::Null | Stmt::Assign { .. } | Stmt::ExitWhen(_) | Stmt::Work(_) | Stmt::Put(_) => {
            Ok(())
        }
    }
}

/// Adds the calls of the blocks that conditions guard behind those that are listed.
#[cycle(gathering)]
#[tactic(auto, using(crate::proofs::ListedSteps::listed_steps))]
fn add_arms<'a>(
    alloc: Global,
    twice: bool,
    arms: &'a [Arm],
    names: &mut Ops<'a>,
    listed: &mut Vec<Call<'a>>,
) -> Result<(), NoMemory>
    requires { AreNames names.old (map call_of listed.old.items) }
    ensures listed { OnOk result (map call_of listed.new.items
        ≡ branch_listed twice (map call_of listed.old.items) (branches_of (map arm_of arms.entry.now) Nothing)) }
    ensures names { OnOk result (AreNames names.new (map call_of listed.new.items)) }
{
    'arms: for arm in arms {
        let mut own = Vec::new(alloc);
        add_block(alloc, twice, &arm.block, &mut own)?;
        add_branch(alloc, own.as_slice(), names, listed)?;
    }
    Ok(())
}

/// Adds the calls of an `else`, where there is one, behind those that are listed.
#[cycle(gathering)]
#[tactic(auto, using(crate::proofs::ListedSteps::listed_steps))]
fn add_other<'a>(
    alloc: Global,
    twice: bool,
    other: &'a Option<Block>,
    names: &mut Ops<'a>,
    listed: &mut Vec<Call<'a>>,
) -> Result<(), NoMemory>
    requires { AreNames names.old (map call_of listed.old.items) }
    ensures { OnOk result (map call_of listed.new.items
        ≡ branch_listed twice (map call_of listed.old.items) (otherwise (option_map block_of other.entry.now))) }
{
    match other {
        None => Ok(()),
        Some(block) => {
            let mut own = Vec::new(alloc);
            add_block(alloc, twice, block, &mut own)?;
            add_branch(alloc, own.as_slice(), names, listed)
        }
    }
}

/// Adds the calls of a block.
#[cycle(gathering)]
#[tactic(auto, using(crate::proofs::ListedSteps::listed_steps))]
fn add_block<'a>(
    alloc: Global,
    twice: bool,
    block: &'a Block,
    found: &mut Vec<Call<'a>>,
) -> Result<(), NoMemory>
    ensures { IfOk result (λ _. map call_of found.new.items ≡ map call_of found.old.items ++ block_listed twice (block_of block.entry.now)) }
{
    'stmts: for stmt in &block.stmts {
        add_statement(alloc, twice, stmt, found)?;
    }
    Ok(())
}

/// The calls of a block in order, those inside loops twice. A call that is in several branches of an `if` is listed once for all of them,
/// and more often only where one of them makes it again. The time grows as the block does, and as its statements are nested.
pub fn listed_calls<'a>(alloc: Global, block: &'a Block) -> Result<Vec<Call<'a>>, NoMemory>
    ensures { IfOk result (λ v. map call_of v.items ≡ block_listed false (block_of block.entry.now)) }
{
    let mut found = Vec::new(alloc);
    add_block(alloc, false, block, &mut found)?;
    Ok(found)
}
