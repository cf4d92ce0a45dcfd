ghost use Rattle.std.specs.Prelude.{◌≡◌, find, option_map, unwrap_or};
ghost use Rattle.seq_tree.specs.Trees.{block_of};
ghost use Rattle.ods_tree.specs.Attributes.{has_key};
ghost use Rattle.ods_tree.specs.Trees.{design_of};
ghost use Rattle.ods_tree.specs.declared.design.AttrKey.TheVariants.{ThreadBudget};
ghost use Rattle.design_rules.specs.Budgets.{bad_budgets, is_over, over_budget};
ghost use Rattle.design_rules.specs.Lookups.{has_thread};
ghost use Rattle.ods_calls.specs.Costed.{over_budgets};
ghost use Rattle.ods_calls.specs.Pricing.{priced_design};
ghost use Rattle.ods_index.specs.Indexing.{IsIndex};
ghost use Rattle.ods_index.specs.Judging.{Tells, head_of};
ghost use Rattle.ods_index.specs.Walking.{object_of, standing_of};

use crate::costs::Priced;
use ods_index::{Broken, Index, Standing, has_thread, is_terminal};
use ods_tree::{Attr, AttrKey, Node};
use seq_tree::{Block, TICK_LIMIT};
use std::alloc::Global;

/// The greatest cost, in ticks.
const GREATEST: u64 = TICK_LIMIT as u64;

/// Whether an attribute states a budget.
fn is_budget(attr: &Attr) -> bool
    ensures { result ≡ has_key ThreadBudget attr.now }
{
    match attr.key {
        AttrKey::ThreadBudget => true,
        AttrKey::Period => false,
        AttrKey::Offset => false,
        AttrKey::Separation => false,
        AttrKey::Deadline => false,
        AttrKey::ArrivalJitter => false,
    }
}

/// The first budget among attributes, and 0 where there is none.
fn budget_of(attrs: &[Attr]) -> u32
    ensures { result ≡ unwrap_or (option_map (λ a. a.value) (find (has_key ThreadBudget) attrs.now)) 0 }
{
    'attrs: for attr in attrs {
        if is_budget(attr) {
            return attr.value;
        }
    }
    0
}

/// Whether a cost is over a budget, and not too great.
fn is_over(budget: u32, cost: u64) -> bool
    ensures { result ≡ is_over budget cost }
{
    u64::from(budget) < cost && cost <= GREATEST
}

/// Tells a thread whose activation costs more than its budget, and not too much.
fn thread_fits<'a>(
    alloc: Global,
    priced: &Priced<'_, 'a>,
    node: &'a Node,
    block: &'a Block,
) -> Result<(), Broken>
    ensures { Tells result (over_budget (design_of priced.now.links.now.design.now) (object_of node.entry.now) (block_of block.entry.now)) }
{
    let body = priced.body(block);
    let cost = u64::from(body) + u64::from(priced.links.design.costs.finish);
    let budget = budget_of(node.attrs.as_slice());
    if is_over(budget, cost) {
        return Err(Broken::V14 {
            thread: node.name.copy(alloc)?,
            cost: cost as u32,
            budget,
        });
    }
    Ok(())
}

/// Tells an object whose thread, if it has one, costs more than its budget.
fn object_fits<'a>(
    alloc: Global,
    priced: &Priced<'_, 'a>,
    standing: &Standing<'a>,
) -> Result<(), Broken>
    ensures { Tells result (head_of (over_budgets (design_of priced.now.links.now.design.now) (standing_of standing.entry.now))) }
{
    let node = standing.node;
    if !is_terminal(node) || !has_thread(node.kind) {
        return Ok(());
    }
    match &node.thread {
        None => Ok(()),
        Some(block) => thread_fits(alloc, priced, node, block),
    }
}

/// V14: tells the first thread whose activation costs more than its budget, and not too much, by what the blocks of the design cost.
pub fn first_bad_budget<'a>(
    alloc: Global,
    index: &Index<'a>,
    priced: &Priced<'_, 'a>,
) -> Result<(), Broken>
    requires indexed { IsIndex index.now }
    requires same { priced_design priced.now ≡ design_of index.now.design.now }
    ensures { Tells result (head_of (bad_budgets (design_of index.entry.now.design.now))) }
{
    'objects: for standing in &index.objects {
        object_fits(alloc, priced, standing)?;
    }
    Ok(())
}
