ghost use Rattle.std.specs.Prelude.{◌≡◌, IfOk, map};
ghost use Rattle.seq_tree.specs.Trees.{block_of, operation_of, signature_of};
ghost use Rattle.ada_tree.specs.Trees.{form_of, unit_of};
ghost use Rattle.token_read.specs.Ahead.{ahead};
ghost use Rattle.seq_read.specs.Halts.{Gives};
ghost use Rattle.ada_read.specs.Heads.{head_name, head_of};
ghost use Rattle.ada_read.specs.Readers.{ada_block_at, operation_at, operations_at, cyclic_at, passive_at, shared_at, serving_at, form_at};
ghost use Rattle.ada_read.specs.Readers.{body_head_at, body_at, bodies_at};

use crate::fixed_text::{FixedText, fixed};
use crate::heads::{UnitHead, head_name};
use crate::names::data;
use crate::renamings::same_head;
use crate::requests::{keeping, waiting};
use ada_tree::{Form, Unit};
use seq_read::{Halt, Text, end_of, number, word};
use seq_tree::{Block, Datum, Name, OpSig, OpText};
use std::alloc::Global;
use token_read::Tokens;

/// The longest block at the front, and the tokens after it.
#[tactic(auto, unfolding(seq_read::specs::Names::may_name))]
fn block(alloc: Global, tokens: Tokens) -> Result<(Block, Tokens), Halt>
    ensures { Gives (λ r. (block_of r.0, ahead r.1)) result (ada_block_at (ahead tokens.entry)) }
{
    seq_read::block(alloc, tokens, Text::Ada, 64)
}

/// The body of the operation with this head, and the tokens after it.
#[tactic(auto, unfolding(crate::specs::Readers::operation_at))]
fn operation(alloc: Global, tokens: Tokens, sig: OpSig) -> Result<(OpText, Tokens), Halt>
    ensures { Gives (λ r. (operation_of r.0, ahead r.1)) result (operation_at ada_block_at (signature_of sig) (ahead tokens.entry)) }
{
    let tokens = same_head(tokens, &sig)?;
    let tokens = word(tokens, b"is")?;
    let (locals, tokens) = data(alloc, tokens)?;
    let tokens = word(tokens, b"begin")?;
    let (block, tokens) = block(alloc, tokens)?;
    let tokens = end_of(tokens, sig.name.bytes())?;
    Ok((OpText { sig, locals, block }, tokens))
}

/// The operations with these heads, from their bodies in the same order, and the tokens after those.
#[tactic(auto, using(crate::proofs::Repeats::operation_steps))]
fn operations(
    alloc: Global,
    tokens: Tokens,
    sigs: Vec<OpSig>,
) -> Result<(Vec<OpText>, Tokens), Halt>
    ensures { Gives (λ r. (map operation_of r.0.items, ahead r.1)) result
        (operations_at ada_block_at (map signature_of sigs.items) (ahead tokens.entry)) }
{
    let mut ops = Vec::with_capacity(alloc, sigs.len())?;
    let mut rest = tokens;
    'sigs: for sig in sigs {
        let (next, after) = operation(alloc, rest, sig)?;
        ops.push(next)?;
        rest = after;
    }
    Ok((ops, rest))
}

/// What stands in the body of a passive unit with operations of these heads, and the tokens after it.
#[tactic(auto, unfolding(crate::specs::Readers::passive_at))]
fn passive(alloc: Global, tokens: Tokens, sigs: Vec<OpSig>) -> Result<(Form, Tokens), Halt>
    ensures { Gives (λ r. (form_of r.0, ahead r.1)) result (passive_at ada_block_at (map signature_of sigs.items) (ahead tokens.entry)) }
{
    let (ops, tokens) = operations(alloc, tokens, sigs)?;
    Ok((Form::Passive { ops }, tokens))
}

/// What stands in the body of a unit with a task of this priority, and the tokens after it.
#[tactic(auto, unfolding(crate::specs::Readers::cyclic_at))]
fn cyclic(alloc: Global, tokens: Tokens, priority: u32) -> Result<(Form, Tokens), Halt>
    ensures { Gives (λ r. (form_of r.0, ahead r.1)) result (cyclic_at ada_block_at priority (ahead tokens.entry)) }
{
    let (vars, tokens) = data(alloc, tokens)?;
    let tokens = fixed(tokens, FixedText::TaskBody)?;
    let (offset, tokens) = number(tokens)?;
    let tokens = fixed(tokens, FixedText::Delay)?;
    let (period, tokens) = number(tokens)?;
    let tokens = fixed(tokens, FixedText::Close)?;
    let (block, tokens) = block(alloc, tokens)?;
    let tokens = fixed(tokens, FixedText::TaskLoop)?;
    let form = Form::Cyclic {
        priority,
        offset,
        period,
        vars,
        block,
    };
    Ok((form, tokens))
}

/// What stands in the body of a protected unit with operations of these heads and with this ceiling and these data, and the tokens
/// after it.
#[tactic(auto, unfolding(crate::specs::Readers::shared_at))]
fn shared(
    alloc: Global,
    tokens: Tokens,
    ceiling: u32,
    sigs: Vec<OpSig>,
    vars: Vec<Datum>,
) -> Result<(Form, Tokens), Halt>
    ensures { Gives (λ r. (form_of r.0, ahead r.1)) result (shared_at ada_block_at ceiling (map signature_of sigs.items) vars.items
        (ahead tokens.entry)) }
{
    let tokens = fixed(tokens, FixedText::ObjectBody)?;
    let (ops, tokens) = operations(alloc, tokens, sigs)?;
    let tokens = fixed(tokens, FixedText::ObjectEnd)?;
    Ok((Form::Shared { ceiling, vars, ops }, tokens))
}

/// The statements of a task that waits for this request, and the tokens after the task.
#[tactic(auto, unfolding(crate::specs::Readers::serving_at))]
fn serving<'a>(alloc: Global, tokens: Tokens<'a>, op: &OpSig) -> Result<(Block, Tokens<'a>), Halt>
    ensures { Gives (λ r. (block_of r.0, ahead r.1)) result (serving_at ada_block_at (signature_of op.now) (ahead tokens.entry)) }
{
    let tokens = keeping(tokens, op)?;
    let tokens = waiting(tokens, &op.params)?;
    let (block, tokens) = block(alloc, tokens)?;
    let tokens = fixed(tokens, FixedText::TaskLoop)?;
    Ok((block, tokens))
}

/// The unit with this specification, from what stands in its body, and the tokens after that.
#[tactic(auto, unfolding(crate::specs::Readers::form_at))]
fn unit_from(alloc: Global, tokens: Tokens, head: UnitHead) -> Result<(Unit, Tokens), Halt>
    ensures form { Gives (λ r. ((unit_of r.0).form, ahead r.1)) result (form_at ada_block_at (head_of head) (ahead tokens.entry)) }
    ensures name { IfOk result (λ r. r.0.name ≡ head_name (head_of head)) }
{
    match head {
        UnitHead::Passive { name, sigs } => {
            let (form, tokens) = passive(alloc, tokens, sigs)?;
            Ok((Unit { name, form }, tokens))
        }
        UnitHead::Shared {
            name,
            ceiling,
            sigs,
            vars,
        } => {
            let (form, tokens) = shared(alloc, tokens, ceiling, sigs, vars)?;
            Ok((Unit { name, form }, tokens))
        }
        UnitHead::Cyclic { name, priority } => {
            let (form, tokens) = cyclic(alloc, tokens, priority)?;
            Ok((Unit { name, form }, tokens))
        }
        UnitHead::Sporadic {
            name,
            priority,
            ceiling,
            op,
            separation,
            jitter,
            external,
        } => {
            let (vars, tokens) = data(alloc, tokens)?;
            let (block, tokens) = serving(alloc, tokens, &op)?;
            let form = Form::Sporadic {
                priority,
                ceiling,
                op,
                separation,
                jitter,
                external,
                vars,
                block,
            };
            Ok((Unit { name, form }, tokens))
        }
    }
}

/// The tokens after the beginning of the body of a package of this name.
#[tactic(auto, unfolding(crate::specs::Readers::body_head_at))]
pub(crate) fn body_head<'a>(tokens: Tokens<'a>, name: &Name) -> Result<Tokens<'a>, Halt>
    ensures { Gives (λ r. (tt, ahead r)) result (body_head_at name.now (ahead tokens.entry)) }
{
    let tokens = fixed(tokens, FixedText::PackageBody)?;
    let tokens = word(tokens, name.bytes())?;
    word(tokens, b"is")
}

/// The unit with this specification, from its body, and the tokens after that.
#[tactic(auto, unfolding(crate::specs::Readers::body_at))]
fn body(alloc: Global, tokens: Tokens, head: UnitHead) -> Result<(Unit, Tokens), Halt>
    ensures { Gives (λ r. (unit_of r.0, ahead r.1)) result (body_at ada_block_at (head_of head) (ahead tokens.entry)) }
{
    let tokens = body_head(tokens, head_name(&head))?;
    let (unit, tokens) = unit_from(alloc, tokens, head)?;
    let tokens = end_of(tokens, unit.name.bytes())?;
    Ok((unit, tokens))
}

/// The units with these specifications, from their bodies in the same order, and the tokens after those.
#[tactic(auto, using(crate::proofs::Repeats::body_steps))]
pub(crate) fn bodies(
    alloc: Global,
    tokens: Tokens,
    heads: Vec<UnitHead>,
) -> Result<(Vec<Unit>, Tokens), Halt>
    ensures { Gives (λ r. (map unit_of r.0.items, ahead r.1)) result (bodies_at ada_block_at (map head_of heads.items) (ahead tokens.entry)) }
{
    let mut units = Vec::with_capacity(alloc, heads.len())?;
    let mut rest = tokens;
    'heads: for head in heads {
        let (next, after) = body(alloc, rest, head)?;
        units.push(next)?;
        rest = after;
    }
    Ok((units, rest))
}
