ghost use Rattle.std.specs.Prelude.{◌≡◌, [], ◌∷◌, ◌++◌, IfOk, OnOk, map, option_map};
ghost use Rattle.seq_tree.specs.Trees.{arm_of, block_of, operation_of, otherwise, statement_of};
ghost use Rattle.ada_tree.specs.Bodies.{bodies, op_body};
ghost use Rattle.ada_tree.specs.Trees.{form_of};
ghost use Rattle.ada_rules.specs.Parts.{arms_parts, block_parts, body_of, branch_parts, part_of, statement_parts};

use ada_tree::Form;
use seq_tree::{Arm, Block, Datum, Name, NoMemory, OpText, Param, Stmt};
use std::alloc::Global;

/// What the rules read of a block, in order.
#[derive(Drop)]
pub(crate) enum Part<'a> {
    Loop(&'a Name),
    LoopEnd,
    Work(u32),
}

/// Adds the parts of a statement.
#[cycle(parts)]
fn add_statement<'a>(parts: &mut Vec<Part<'a>>, stmt: &'a Stmt) -> Result<(), NoMemory>
    ensures { OnOk result (map part_of parts.new.items ≡ map part_of parts.old.items ++ statement_parts (statement_of stmt.entry.now)) }
{
    match stmt {
        Stmt::Null => Ok(()),
        Stmt::Assign { .. } => Ok(()),
        Stmt::If { arms, other } => {
            add_arms(parts, arms.as_slice())?;
            add_other(parts, other)?;
            Ok(())
        }
        Stmt::For { name, body, .. } => {
            parts.push(Part::Loop(name))?;
            add_block(parts, body)?;
            parts.push(Part::LoopEnd)?;
            Ok(())
        }
        Stmt::ExitWhen(_) => Ok(()),
        Stmt::Call { .. } => Ok(()),
        Stmt::Work(ticks) => {
            parts.push(Part::Work(*ticks))?;
            Ok(())
        }
        Stmt::Put(_) => Ok(()),
    }
}

/// Adds the parts of the blocks of arms.
#[cycle(parts)]
fn add_arms<'a>(parts: &mut Vec<Part<'a>>, arms: &'a [Arm]) -> Result<(), NoMemory>
    ensures { OnOk result (map part_of parts.new.items ≡ map part_of parts.old.items ++ arms_parts (map arm_of arms.entry.now)) }
{
    'arms: for arm in arms {
        add_block(parts, &arm.block)?;
    }
    Ok(())
}

/// Adds the parts of an `else`, where there is one.
#[cycle(parts)]
fn add_other<'a>(parts: &mut Vec<Part<'a>>, other: &'a Option<Block>) -> Result<(), NoMemory>
    ensures { OnOk result (map part_of parts.new.items ≡ map part_of parts.old.items
        ++ branch_parts (otherwise (option_map block_of other.entry.now))) }
{
    match other {
        None => Ok(()),
        Some(block) => add_block(parts, block),
    }
}

/// Adds the parts of a block.
#[cycle(parts)]
fn add_block<'a>(parts: &mut Vec<Part<'a>>, block: &'a Block) -> Result<(), NoMemory>
    ensures { OnOk result (map part_of parts.new.items ≡ map part_of parts.old.items ++ block_parts (block_of block.entry.now)) }
{
    'stmts: for stmt in &block.stmts {
        add_statement(parts, stmt)?;
    }
    Ok(())
}

/// The parts of a block, in order.
pub(crate) fn parts_of<'a>(alloc: Global, block: &'a Block) -> Result<Vec<Part<'a>>, NoMemory>
    ensures { IfOk result (λ v. map part_of v.items ≡ block_parts (block_of block.entry.now)) }
{
    let mut parts = Vec::new(alloc);
    add_block(&mut parts, block)?;
    Ok(parts)
}

/// A body of a unit.
#[derive(Drop)]
pub(crate) struct BodyView<'a> {
    pub(crate) params: &'a [Param],
    pub(crate) locals: &'a [Datum],
    pub(crate) block: &'a Block,
}

/// The bodies of operations.
fn op_bodies<'a>(alloc: Global, ops: &'a [OpText]) -> Result<Vec<BodyView<'a>>, NoMemory>
    ensures { IfOk result (λ v. map body_of v.items ≡ map op_body (map operation_of ops.entry.now)) }
{
    let mut bodies = Vec::new(alloc);
    'ops: for op in ops {
        bodies.push(BodyView {
            params: op.sig.params.as_slice(),
            locals: op.locals.as_slice(),
            block: &op.block,
        })?;
    }
    Ok(bodies)
}

/// One body.
fn one_body<'a>(
    alloc: Global,
    params: &'a [Param],
    block: &'a Block,
) -> Result<Vec<BodyView<'a>>, NoMemory>
    ensures { IfOk result (λ v. map body_of v.items ≡ record { params = params.entry.now; locals = []; block = block_of block.entry.now } ∷ []) }
{
    let mut bodies = Vec::new(alloc);
    bodies.push(BodyView {
        params,
        locals: &[],
        block,
    })?;
    Ok(bodies)
}

/// The bodies of a unit.
pub(crate) fn bodies_of<'a>(alloc: Global, form: &'a Form) -> Result<Vec<BodyView<'a>>, NoMemory>
    ensures { IfOk result (λ v. map body_of v.items ≡ bodies (form_of form.entry.now)) }
{
    match form {
        Form::Passive { ops } => op_bodies(alloc, ops.as_slice()),
        Form::Shared { ops, .. } => op_bodies(alloc, ops.as_slice()),
        Form::Cyclic { block, .. } => one_body(alloc, &[], block),
        Form::Sporadic { op, block, .. } => one_body(alloc, op.params.as_slice(), block),
    }
}
