ghost use Rattle.std.specs.Prelude.{◌≡◌, [], ◌∷◌, ◌++◌, IfOk, OnOk, map};
ghost use Rattle.seq_tree.specs.Trees.{block_of, operation_of};
ghost use Rattle.seq_tree.specs.Calls.{block_calls};
ghost use Rattle.seq_cost.specs.Different.{call_of};
ghost use Rattle.ada_tree.specs.Bodies.{bodies, data_of, heads};
ghost use Rattle.ada_tree.specs.Naming.{block_loops, body_names, calls_of, own_names, inner_names};
ghost use Rattle.ada_tree.specs.Trees.{form_of};
ghost use Rattle.ada_rules.specs.Lists.{body_inner_names, head_of, names_of};
ghost use Rattle.ada_rules.specs.Parts.{body_of, loops_in, part_of};

use crate::parts::{BodyView, Part, bodies_of, parts_of};
use ada_tree::Form;
use seq_cost::{Call, written_calls};
use seq_tree::{Block, Datum, Name, NoMemory, OpSig, OpText, Param};
use std::alloc::Global;

/// The heads of operations.
pub(crate) fn op_heads<'a>(alloc: Global, ops: &'a [OpText]) -> Result<Vec<&'a OpSig>, NoMemory>
    ensures { IfOk result (λ v. map head_of v.items ≡ map (λ o. o.sig) (map operation_of ops.entry.now)) }
{
    let mut heads = Vec::new(alloc);
    'ops: for op in ops {
        heads.push(&op.sig)?;
    }
    Ok(heads)
}

/// The heads of the operations of a unit that can be called.
pub(crate) fn heads_of<'a>(alloc: Global, form: &'a Form) -> Result<Vec<&'a OpSig>, NoMemory>
    ensures { IfOk result (λ v. map head_of v.items ≡ heads (form_of form.entry.now)) }
{
    match form {
        Form::Passive { ops } => op_heads(alloc, ops.as_slice()),
        Form::Shared { ops, .. } => op_heads(alloc, ops.as_slice()),
        Form::Cyclic { .. } => Ok(Vec::new(alloc)),
        Form::Sporadic { op, .. } => {
            let mut heads = Vec::new(alloc);
            heads.push(op)?;
            Ok(heads)
        }
    }
}

/// The data of a unit.
pub(crate) fn data_of<'a>(form: &'a Form) -> &'a [Datum]
    ensures { result.now ≡ data_of (form_of form.entry.now) }
{
    match form {
        Form::Passive { .. } => &[],
        Form::Shared { vars, .. } => vars.as_slice(),
        Form::Cyclic { vars, .. } => vars.as_slice(),
        Form::Sporadic { vars, .. } => vars.as_slice(),
    }
}

/// Adds the names of heads.
fn add_heads<'a>(names: &mut Vec<&'a Name>, heads: &[&'a OpSig]) -> Result<(), NoMemory>
    ensures { OnOk result (names_of names.new.items ≡ names_of names.old.items ++ map (λ h. h.name) (map head_of heads.entry.now)) }
{
    'heads: for head in heads {
        names.push(&head.name)?;
    }
    Ok(())
}

/// Adds the names of data.
fn add_data<'a>(names: &mut Vec<&'a Name>, data: &'a [Datum]) -> Result<(), NoMemory>
    ensures { OnOk result (names_of names.new.items ≡ names_of names.old.items ++ map (λ d. d.name) data.entry.now) }
{
    'data: for datum in data {
        names.push(&datum.name)?;
    }
    Ok(())
}

/// Adds the names of parameters.
fn add_params<'a>(names: &mut Vec<&'a Name>, params: &'a [Param]) -> Result<(), NoMemory>
    ensures { OnOk result (names_of names.new.items ≡ names_of names.old.items ++ map (λ q. q.name) params.entry.now) }
{
    'params: for param in params {
        names.push(&param.name)?;
    }
    Ok(())
}

/// Adds the name of a loop, where one begins.
fn add_loop<'a>(names: &mut Vec<&'a Name>, part: &Part<'a>) -> Result<(), NoMemory>
    ensures { OnOk result (names_of names.new.items ≡ names_of names.old.items ++ loops_in (part_of part.entry.now ∷ [])) }
{
    match part {
        Part::Loop(name) => {
            names.push(*name)?;
            Ok(())
        }
        Part::LoopEnd => Ok(()),
        Part::Work(_) => Ok(()),
    }
}

/// Adds the names of loops.
#[tactic(auto, using(crate::proofs::PartLaws::part_laws))]
fn add_loops<'a>(names: &mut Vec<&'a Name>, parts: &[Part<'a>]) -> Result<(), NoMemory>
    ensures { OnOk result (names_of names.new.items ≡ names_of names.old.items ++ loops_in (map part_of parts.entry.now)) }
{
    'parts: for part in parts {
        add_loop(names, part)?;
    }
    Ok(())
}

/// The names of a unit's operations and data.
pub(crate) fn own_names<'a>(alloc: Global, form: &'a Form) -> Result<Vec<&'a Name>, NoMemory>
    ensures { IfOk result (λ v. names_of v.items ≡ own_names (form_of form.entry.now)) }
{
    let mut names = Vec::new(alloc);
    let heads = heads_of(alloc, form)?;
    add_heads(&mut names, heads.as_slice())?;
    add_data(&mut names, data_of(form))?;
    Ok(names)
}

/// The names of a body's parameters and locals.
pub(crate) fn body_names<'a>(alloc: Global, body: &BodyView<'a>) -> Result<Vec<&'a Name>, NoMemory>
    ensures { IfOk result (λ v. names_of v.items ≡ body_names (body_of body.entry.now)) }
{
    let mut names = Vec::new(alloc);
    add_params(&mut names, body.params)?;
    add_data(&mut names, body.locals)?;
    Ok(names)
}

/// Adds the names of the loops of a block.
#[tactic(auto, using(crate::proofs::PartLaws::part_laws))]
fn add_block_loops<'a>(
    alloc: Global,
    names: &mut Vec<&'a Name>,
    block: &'a Block,
) -> Result<(), NoMemory>
    ensures { OnOk result (names_of names.new.items ≡ names_of names.old.items ++ block_loops (block_of block.entry.now)) }
{
    let parts = parts_of(alloc, block)?;
    add_loops(names, parts.as_slice())
}

/// Adds the names of a body, those of its loops too.
fn add_body<'a>(
    alloc: Global,
    names: &mut Vec<&'a Name>,
    body: &BodyView<'a>,
) -> Result<(), NoMemory>
    ensures { OnOk result (names_of names.new.items ≡ names_of names.old.items ++ body_inner_names (body_of body.entry.now)) }
{
    add_params(names, body.params)?;
    add_data(names, body.locals)?;
    add_block_loops(alloc, names, body.block)?;
    Ok(())
}

/// All names inside a unit.
pub(crate) fn inner_names<'a>(alloc: Global, form: &'a Form) -> Result<Vec<&'a Name>, NoMemory>
    ensures { IfOk result (λ v. names_of v.items ≡ inner_names (form_of form.entry.now)) }
{
    let mut names = own_names(alloc, form)?;
    let bodies = bodies_of(alloc, form)?;
    'bodies: for body in &bodies {
        add_body(alloc, &mut names, body)?;
    }
    Ok(names)
}

/// Adds the calls of a block.
fn add_block_calls<'a>(
    alloc: Global,
    calls: &mut Vec<Call<'a>>,
    block: &'a Block,
) -> Result<(), NoMemory>
    ensures { OnOk result (map call_of calls.new.items ≡ map call_of calls.old.items ++ block_calls (block_of block.entry.now)) }
{
    let mut more = written_calls(alloc, block)?;
    calls.append(&mut more)?;
    Ok(())
}

/// The calls of a unit.
pub(crate) fn calls_of<'a>(alloc: Global, form: &'a Form) -> Result<Vec<Call<'a>>, NoMemory>
    ensures { IfOk result (λ v. map call_of v.items ≡ calls_of (form_of form.entry.now)) }
{
    let mut calls = Vec::new(alloc);
    let bodies = bodies_of(alloc, form)?;
    'bodies: for body in &bodies {
        add_block_calls(alloc, &mut calls, body.block)?;
    }
    Ok(calls)
}
