ghost use Rattle.std.specs.Prelude.{◌≡◌, flat_map, map, option_map, option_to_list};
ghost use Rattle.std.specs.List.{list_all};
ghost use Rattle.seq_tree.specs.Calls.{block_works};
ghost use Rattle.seq_tree.specs.Limits.{is_within};
ghost use Rattle.ods_tree.specs.Trees.{body_of, design_of, tree_of};
ghost use Rattle.ods_tree.specs.Walk.{is_empty};
ghost use Rattle.ods_tree.specs.declared.design.Kind.TheVariants.{Cyclic, Sporadic};
ghost use Rattle.seq_tree.specs.Trees.{block_of};
ghost use Rattle.design_rules.specs.Numbers.{are_attributes_right, are_common_right, are_right, bad_costs, bad_numbers, breaks_numbers};
ghost use Rattle.design_rules.specs.Numbers.{is_foreign, is_optional, is_required, works};
ghost use Rattle.ods_forms.specs.Limits.{most_ticks};
ghost use Rattle.ods_index.specs.Indexing.{IsIndex};
ghost use Rattle.ods_index.specs.Judging.{Tells, head_of};
ghost use Rattle.ods_index.specs.Walking.{inside, object_of, standing_of};

use crate::limits::{MOST_COST, MOST_PARAMS, MOST_TICKS};
use crate::objects::{ObjectRule, first_offender};
use crate::operations::any_long;
use crate::works::{do_works_fit, is_within};
use ods_index::{Broken, Index, Standing, attribute_count, attribute_or_0, is_terminal};
use ods_tree::{AttrKey, Design, Kind, Node, OpBody};
use seq_tree::Block;
use std::alloc::Global;

/// Whether an attribute is there once, in this range.
fn is_required(node: &Node, key: AttrKey, low: u32, high: u32) -> bool
    ensures { result ≡ is_required low high key (object_of node.now) }
{
    attribute_count(node, key) == 1 && is_within(low, high, attribute_or_0(node, key))
}

/// Whether an attribute is there at most once, in this range where it is.
fn is_optional(node: &Node, key: AttrKey, low: u32, high: u32) -> bool
    ensures { result ≡ is_optional low high key (object_of node.now) }
{
    attribute_count(node, key) == 0 || is_required(node, key, low, high)
}

/// Whether an attribute isn't there.
fn is_foreign(node: &Node, key: AttrKey) -> bool
    ensures { result ≡ is_foreign key (object_of node.now) }
{
    attribute_count(node, key) == 0
}

/// Whether the deadline and the budget are right, for this period or separation.
fn are_common_right(node: &Node, period: u32) -> bool
    ensures { result ≡ are_common_right period (object_of node.now) }
{
    is_required(node, AttrKey::Deadline, 1, period)
        && is_required(node, AttrKey::ThreadBudget, 1, MOST_TICKS)
}

/// Whether the attributes of a cyclic object are right.
fn is_cyclic_right(node: &Node) -> bool
    ensures { result ≡ are_attributes_right Cyclic (object_of node.now) }
{
    is_required(node, AttrKey::Period, 1, MOST_TICKS)
        && is_optional(node, AttrKey::Offset, 0, MOST_TICKS)
        && is_foreign(node, AttrKey::Separation)
        && is_foreign(node, AttrKey::ArrivalJitter)
        && are_common_right(node, attribute_or_0(node, AttrKey::Period))
}

/// Whether the attributes of a sporadic object are right.
fn is_sporadic_right(node: &Node) -> bool
    ensures { result ≡ are_attributes_right Sporadic (object_of node.now) }
{
    let separation = attribute_or_0(node, AttrKey::Separation);
    is_required(node, AttrKey::Separation, 1, MOST_TICKS)
        && is_optional(
            node,
            AttrKey::ArrivalJitter,
            0,
            separation.saturating_sub(1),
        )
        && is_foreign(node, AttrKey::Period)
        && is_foreign(node, AttrKey::Offset)
        && are_common_right(node, separation)
}

/// Whether an object has no attributes.
#[tactic(auto, using(ods_index::proofs::Shared::WalkSteps::node_steps))]
fn is_bare(node: &Node) -> bool
    ensures { result ≡ is_empty (object_of node.now).attrs }
{
    match node.attrs.as_slice().first() {
        None => true,
        Some(_) => false,
    }
}

/// Whether the attributes of an object of a kind are right, where it has no children.
fn are_attributes_right(node: &Node, kind: Kind) -> bool
    ensures { result ≡ are_attributes_right kind (object_of node.now) }
{
    match kind {
        Kind::Cyclic => is_cyclic_right(node),
        Kind::Sporadic => is_sporadic_right(node),
        Kind::Passive | Kind::Active | Kind::Protected => is_bare(node),
    }
}

/// Whether the attributes of an object are right; one with children has none.
#[tactic(auto, using(ods_index::proofs::Shared::WalkSteps::node_steps))]
fn are_right(node: &Node) -> bool
    ensures { result ≡ are_right (is_empty (inside (tree_of node.now))) (object_of node.now) }
{
    if is_terminal(node) {
        are_attributes_right(node, node.kind)
    } else {
        is_bare(node)
    }
}

/// Whether the numbers of `work` in bodies are in their range.
#[tactic(auto, using(crate::proofs::WorkSteps::work_steps))]
fn do_bodies_fit(bodies: &[OpBody]) -> bool
    ensures { result ≡ list_all (is_within 1 most_ticks) (flat_map (λ b. block_works b.block) (map body_of bodies.now)) }
{
    'bodies: for body in bodies {
        if !do_works_fit(&body.block) {
            return false;
        }
    }
    true
}

/// Whether those of a thread are, where there is one.
#[tactic(auto, using(crate::proofs::WorkSteps::work_steps))]
fn does_thread_fit(thread: &Option<Block>) -> bool
    ensures { result ≡ list_all (is_within 1 most_ticks) (flat_map block_works (option_to_list (option_map block_of thread.now))) }
{
    match thread {
        None => true,
        Some(block) => do_works_fit(block),
    }
}

/// Whether those of an object are.
#[tactic(auto, using(ods_index::proofs::Shared::WalkSteps::node_steps, crate::proofs::WorkSteps::work_steps))]
fn do_numbers_fit(node: &Node) -> bool
    ensures { result ≡ list_all (is_within 1 most_ticks) (works (object_of node.now)) }
{
    let bodies = do_bodies_fit(node.bodies.as_slice());
    let thread = does_thread_fit(&node.thread);
    bodies && thread
}

/// Whether a number of an object is out of its range.
#[tactic(auto, using(ods_index::proofs::Shared::WalkSteps::node_steps))]
pub(crate) fn breaks_numbers(standing: &Standing<'_>) -> bool
    ensures { result ≡ breaks_numbers (standing_of standing.entry.now) }
{
    let node = standing.node;
    let attributes = are_right(node);
    let works = do_numbers_fit(node);
    let params = any_long(MOST_PARAMS, node.provides.as_slice());
    !attributes || !works || params
}

/// Tells costs of which one isn't 1 to 1,000.
fn costs_fit(design: &Design) -> Result<(), Broken>
    ensures { Tells result (head_of (bad_costs (design_of design.now))) }
{
    let costs = &design.costs;
    let fit = is_within(1, MOST_COST, costs.assign)
        && is_within(1, MOST_COST, costs.test)
        && is_within(1, MOST_COST, costs.turn)
        && is_within(1, MOST_COST, costs.call)
        && is_within(1, MOST_COST, costs.nothing)
        && is_within(1, MOST_COST, costs.put)
        && is_within(1, MOST_COST, costs.finish);
    if fit {
        Ok(())
    } else {
        Err(Broken::V11 { object: None })
    }
}

/// V11: tells costs of which one isn't 1 to 1,000, and else the first object of which a number is out of its range.
pub fn first_bad_number(alloc: Global, index: &Index<'_>) -> Result<(), Broken>
    requires { IsIndex index.now }
    ensures { Tells result (head_of (bad_numbers (design_of index.entry.now.design.now))) }
{
    costs_fit(index.design)?;
    first_offender(alloc, index.objects.as_slice(), ObjectRule::Number)
}
