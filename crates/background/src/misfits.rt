ghost use Rattle.std.specs.Prelude.{◌≡◌, ◌&&◌, ◌==◌, IfOk, map, option_map};
ghost use Rattle.std.specs.List.{list_any};
ghost use Rattle.ods_tree.specs.Attributes.{has_key, key_place};
ghost use Rattle.ods_tree.specs.Trees.{design_of, provided_of};
ghost use Rattle.ods_tree.specs.declared.design.AttrKey.TheVariants.{Deadline};
ghost use Rattle.design_rules.specs.Clashes.{is_aser};
ghost use Rattle.background_designs.specs.Misfits.{has_foreign_parent, is_misfit, is_such, misfits};
ghost use Rattle.ods_index.specs.Indexing.{IsIndex};
ghost use Rattle.ods_index.specs.Judging.{head_of};
ghost use Rattle.ods_index.specs.Walking.{object_of, parent_of, standing_of};
ghost use Rattle.background.specs.Parts.{bad_needs, bad_objects, breaks, do_so, first_need, is_slow_thread, may_not, need_fault, serves};
ghost use Rattle.background.specs.Parts.{told_by, told_need};
ghost use Rattle.background.specs.Told.{Tells, misfit_of};
ghost use Rattle.seq_tree.specs.Limits.{tick_limit};

use crate::clients::{any_waits, is_active, is_client, is_hser, is_server};
use crate::delivery::{BackgroundRefusal, BackgroundRule};
use ods_index::{Index, Standing, has_thread, is_empty, is_terminal};
use ods_tree::{Attr, AttrKey, Constraint, Design, Node, Provided};
use seq_tree::{Name, NoMemory, OpName, TICK_LIMIT};
use std::alloc::Global;

/// What is asked of each object by itself.
#[derive(Clone, Copy)]
pub(crate) enum Part {
    /// Active objects without children are clients or servers, and stand where they may.
    Shape,
    /// Other objects provide no operation whose callers wait.
    Service,
    /// Hard threads don't have the deadline of clients.
    Deadline,
}

/// What the callers of an operation do, that some objects may not require.
#[derive(Clone, Copy)]
pub(crate) enum Callers {
    /// They wait until it has run. Objects that aren't active may not require it.
    Wait,
    /// They go on at once: it is a request. Clients and servers may not require it.
    GoOn,
}

/// Whether a constraint is that of a request.
fn is_aser(constraint: Option<Constraint>) -> bool
    ensures { result ≡ is_aser constraint }
{
    match constraint {
        Some(Constraint::Aser) => true,
        None | Some(Constraint::Hser | Constraint::Pser | Constraint::Paer) => false,
    }
}

/// Whether the callers of an operation of a constraint do so.
fn do_so(callers: Callers, constraint: Option<Constraint>) -> bool
    ensures { result ≡ do_so callers constraint }
{
    match callers {
        Callers::Wait => is_hser(constraint),
        Callers::GoOn => is_aser(constraint),
    }
}

/// Whether an operation is there and its callers do so.
fn is_such(callers: Callers, operation: Option<&Provided>) -> bool
    ensures { result ≡ is_such (do_so callers) (option_map (λ p. provided_of p.now) operation.entry) }
{
    match operation {
        None => false,
        Some(provided) => do_so(callers, provided.constraint),
    }
}

/// The first of required operations whose callers do so.
fn first_need<'a>(index: &Index<'_>, callers: Callers, needs: &'a [OpName]) -> Option<&'a OpName>
    requires { IsIndex index.now }
    ensures { option_map (λ n. n.now) result ≡ first_need callers (design_of index.entry.now.design.now) needs.entry.now }
{
    'needs: for need in needs {
        if is_such(callers, index.operation(need)) {
            return Some(need);
        }
    }
    None
}

/// Whether a parent isn't active, where there is one.
#[tactic(auto, using(ods_index::proofs::Shared::WalkSteps::node_steps))]
fn has_foreign_parent(parent: Option<&Node>) -> bool
    ensures { result ≡ has_foreign_parent (parent_of parent.entry) }
{
    match parent {
        None => false,
        Some(node) => !is_active(node.kind),
    }
}

/// Whether an object is active, and neither a client nor a server, or has attributes, or stands inside an object that isn't active.
#[tactic(auto, using(ods_index::proofs::Shared::WalkSteps::node_steps))]
fn is_misfit(standing: &Standing<'_>) -> bool
    ensures { result ≡ is_misfit (standing_of standing.entry.now) }
{
    let node = standing.node;
    let fits = is_client(node) || is_server(node);
    let bare = is_empty(node.attrs.as_slice());
    is_active(node.kind) && (!fits || !bare || has_foreign_parent(standing.parent))
}

/// Whether an object isn't active and provides an operation whose callers wait.
#[tactic(auto, using(ods_index::proofs::Shared::WalkSteps::node_steps))]
fn serves(node: &Node) -> bool
    ensures { result ≡ serves (object_of node.now) }
{
    !is_active(node.kind) && any_waits(node.provides.as_slice())
}

/// Whether a key is that of a deadline.
fn is_deadline(key: AttrKey) -> bool
    ensures { result ≡ (key_place key == key_place Deadline) }
{
    match key {
        AttrKey::Deadline => true,
        AttrKey::Period
        | AttrKey::Offset
        | AttrKey::Separation
        | AttrKey::ThreadBudget
        | AttrKey::ArrivalJitter => false,
    }
}

/// Whether some deadline is the longest, which clients have.
fn any_slow(attrs: &[Attr]) -> bool
    ensures { result ≡ list_any (λ a. has_key Deadline a && a.value == tick_limit) attrs.now }
{
    'attrs: for attr in attrs {
        if is_deadline(attr.key) && attr.value == TICK_LIMIT {
            return true;
        }
    }
    false
}

/// Whether an object has no children, and a thread with the deadline of clients.
#[tactic(auto, using(ods_index::proofs::Shared::WalkSteps::node_steps))]
fn is_slow_thread(standing: &Standing<'_>) -> bool
    ensures { result ≡ is_slow_thread (standing_of standing.entry.now) }
{
    let node = standing.node;
    is_terminal(node) && has_thread(node.kind) && any_slow(node.attrs.as_slice())
}

/// Whether an object by itself is wrong in a part.
fn breaks(part: Part, standing: &Standing<'_>) -> bool
    ensures { result ≡ breaks part (standing_of standing.entry.now) }
{
    match part {
        Part::Shape => is_terminal(standing.node) && is_misfit(standing),
        Part::Service => serves(standing.node),
        Part::Deadline => is_slow_thread(standing),
    }
}

/// What is told of an object that is wrong in a part.
fn told(part: Part, object: Name) -> BackgroundRule
    ensures { misfit_of result ≡ told_by part object }
{
    match part {
        Part::Shape => BackgroundRule::A1 { object },
        Part::Service => BackgroundRule::A3 { object },
        Part::Deadline => BackgroundRule::A5 { object },
    }
}

/// What is told of the first of objects that is wrong in a part.
fn first_object(
    alloc: Global,
    objects: &[Standing<'_>],
    part: Part,
) -> Result<Option<BackgroundRule>, NoMemory>
    ensures { IfOk result (λ o. option_map misfit_of o ≡ head_of (bad_objects part (map standing_of objects.entry.now))) }
{
    'objects: for standing in objects {
        if breaks(part, standing) {
            let object = standing.node.name.copy(alloc)?;
            return Ok(Some(told(part, object)));
        }
    }
    Ok(None)
}

/// Whether an object may not require operations whose callers do so.
#[tactic(auto, using(ods_index::proofs::Shared::WalkSteps::node_steps))]
fn may_not(callers: Callers, standing: &Standing<'_>) -> bool
    ensures { result ≡ may_not callers (standing_of standing.entry.now) }
{
    let node = standing.node;
    match callers {
        Callers::Wait => !is_active(node.kind),
        Callers::GoOn => is_terminal(node) && (is_client(node) || is_server(node)),
    }
}

/// What is told of an operation that an object requires and may not.
fn told_need(
    alloc: Global,
    callers: Callers,
    object: &Name,
    target: &OpName,
) -> Result<BackgroundRule, NoMemory>
    ensures { IfOk result (λ r. misfit_of r ≡ told_need callers object.now target.now) }
{
    let object = object.copy(alloc)?;
    let target = OpName {
        object: target.object.copy(alloc)?,
        op: target.op.copy(alloc)?,
    };
    Ok(match callers {
        Callers::Wait => BackgroundRule::A2 { object, target },
        Callers::GoOn => BackgroundRule::A4 { object, target },
    })
}

/// What is told of what an object requires, where something is.
#[tactic(auto, using(ods_index::proofs::Shared::WalkSteps::node_steps))]
fn need_fault(
    alloc: Global,
    index: &Index<'_>,
    callers: Callers,
    standing: &Standing<'_>,
) -> Result<Option<BackgroundRule>, NoMemory>
    requires { IsIndex index.now }
    ensures { IfOk result (λ o. option_map misfit_of o ≡ need_fault callers (design_of index.entry.now.design.now) (standing_of standing.entry.now)) }
{
    if !may_not(callers, standing) {
        return Ok(None);
    }
    match first_need(index, callers, standing.node.needs.as_slice()) {
        None => Ok(None),
        Some(target) => Ok(Some(told_need(alloc, callers, &standing.node.name, target)?)),
    }
}

/// What is told of the first of the objects that requires what it may not.
fn first_needing(
    alloc: Global,
    index: &Index<'_>,
    callers: Callers,
) -> Result<Option<BackgroundRule>, NoMemory>
    requires { IsIndex index.now }
    ensures { IfOk result (λ o. option_map misfit_of o ≡ head_of (bad_needs callers (design_of index.entry.now.design.now)
        (map standing_of index.entry.now.objects.items))) }
{
    'objects: for standing in &index.objects {
        let fault = need_fault(alloc, index, callers, standing)?;
        if fault.is_some() {
            return Ok(fault);
        }
    }
    Ok(None)
}

/// Tells a misfit, where there is one.
pub(crate) fn tell(found: Option<BackgroundRule>) -> Result<(), BackgroundRefusal>
    ensures { Tells result (option_map misfit_of found) }
{
    match found {
        None => Ok(()),
        Some(rule) => Err(BackgroundRefusal::Rule(rule)),
    }
}

/// Tells the first of the objects of a design that by itself is wrong in a part.
fn judge_objects(alloc: Global, index: &Index<'_>, part: Part) -> Result<(), BackgroundRefusal>
    requires { IsIndex index.now }
    ensures { Tells result (head_of (bad_objects part (map standing_of index.entry.now.objects.items))) }
{
    tell(first_object(alloc, index.objects.as_slice(), part)?)
}

/// Tells the first of the objects of a design that requires what it may not.
fn judge_needs(alloc: Global, index: &Index<'_>, callers: Callers) -> Result<(), BackgroundRefusal>
    requires { IsIndex index.now }
    ensures { Tells result (head_of (bad_needs callers (design_of index.entry.now.design.now) (map standing_of index.entry.now.objects.items))) }
{
    tell(first_needing(alloc, index, callers)?)
}

/// Tells what is wrong first with background objects, part by part.
fn judge_all(alloc: Global, index: &Index<'_>) -> Result<(), BackgroundRefusal>
    requires { IsIndex index.now }
    ensures { Tells result (head_of (misfits (design_of index.entry.now.design.now))) }
{
    judge_objects(alloc, index, Part::Shape)?;
    judge_needs(alloc, index, Callers::Wait)?;
    judge_objects(alloc, index, Part::Service)?;
    judge_needs(alloc, index, Callers::GoOn)?;
    judge_objects(alloc, index, Part::Deadline)
}

/// Tells what is wrong first with the background objects of a design in ticks, whatever its hard part.
pub(crate) fn misfits_fit(alloc: Global, design: &Design) -> Result<(), BackgroundRefusal>
    ensures { Tells result (head_of (misfits (design_of design.now))) }
{
    let index = Index::new(alloc, design)?;
    judge_all(alloc, &index)
}
