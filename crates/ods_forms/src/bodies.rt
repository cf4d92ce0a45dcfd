ghost use Rattle.std.specs.Prelude.{◌≡◌, ◌++◌, Option, Some, None, IfOk, OnOk, filter_map, map, option_map, option_to_list, slice_get};
ghost use Rattle.seq_tree.specs.Faults as faults;
ghost use Rattle.seq_tree.specs.Trees.{block_of};
ghost use Rattle.seq_check.specs.Answers.{Says};
ghost use Rattle.seq_check.specs.Scopes.{offer_view, scope_with};
ghost use Rattle.seq_check.specs.Views.{offers_of};
ghost use Rattle.ods_tree.specs.Flattening.{request_op};
ghost use Rattle.ods_tree.specs.Trees.{design_of, provided_of};
ghost use Rattle.ods_tree.specs.Walk as walk;
ghost use Rattle.design_rules.specs.Broken.{V13};
ghost use Rattle.design_rules.specs.Bodies.{bad_bodies, body_fault, offers, params_by, request_params, thread_fault};
ghost use Rattle.ods_forms.specs.BodyScopes.{faults_in, offer_by, part_fault};
ghost use Rattle.ods_index.specs.Indexing.{IsIndex};
ghost use Rattle.ods_index.specs.Judging.{Tells, head_of};
ghost use Rattle.ods_index.specs.Walking.{object_of};

use ods_index::{Broken, Index};
use ods_tree::{Kind, Node, OpBody, Provided};
use seq_check::{BodyFault, Calls, Data, Known, Offer, check_known};
use seq_tree::{Block, Datum, Name, NoMemory, OpName, Param};
use std::alloc::Global;

/// Adds an operation that an object requires, where it is there.
fn add_offer<'a>(
    index: &Index<'a>,
    calls: &mut Vec<Offer<'a>>,
    need: &'a OpName,
) -> Result<(), NoMemory>
    requires { IsIndex index.now }
    ensures { OnOk result (map offer_view calls.new.items ≡ map offer_view calls.old.items
        ++ option_to_list (offer_by (design_of index.entry.now.design.now) need.entry.now)) }
{
    match index.operation(need) {
        None => Ok(()),
        Some(provided) => {
            calls.push(Offer {
                object: &need.object,
                sig: &provided.sig,
            })?;
            Ok(())
        }
    }
}

/// The operations that an object requires, as far as they are there.
#[tactic(auto, using(crate::proofs::ScopeSteps::scope_steps))]
fn offers<'a>(alloc: Global, index: &Index<'a>, node: &'a Node) -> Result<Vec<Offer<'a>>, NoMemory>
    requires { IsIndex index.now }
    ensures { IfOk result (λ v. map offer_view v.items ≡ offers (design_of index.entry.now.design.now) (object_of node.entry.now)) }
{
    let mut calls = Vec::new(alloc);
    'needs: for need in &node.needs {
        add_offer(index, &mut calls, need)?;
    }
    Ok(calls)
}

/// An equal name, where there is one.
fn copy_part(alloc: Global, part: Option<&Name>) -> Result<Option<Name>, NoMemory>
    ensures { IfOk result (λ o. o ≡ option_map (λ n. n.now) part.entry) }
{
    match part {
        None => Ok(None),
        Some(name) => Ok(Some(name.copy(alloc)?)),
    }
}

/// Tells the fault of a part of an object, where there is one.
fn tell(
    alloc: Global,
    object: &Name,
    part: Option<&Name>,
    answer: Result<(), BodyFault>,
) -> Result<(), Broken>
    ensures { (first : Option faults.BodyFault) → Says answer first
        → Tells result (option_map (V13 object.now (option_map (λ n. n.now) part.entry)) first) }
{
    match answer {
        Ok(()) => Ok(()),
        Err(BodyFault::NoMemory) => Err(Broken::NoMemory),
        Err(fault) => {
            let object = object.copy(alloc)?;
            let part = copy_part(alloc, part)?;
            Err(Broken::V13 {
                object,
                part,
                fault,
            })
        }
    }
}

/// Tells the first fault of a part of an object.
fn judge_part<'k, 'a>(
    alloc: Global,
    shared: &'k Data<'a>,
    calls: &'k Calls<'a>,
    object: &Name,
    part: Option<&Name>,
    params: &'a [Param],
    locals: &'a [Datum],
    block: &Block,
) -> Result<(), Broken>
    ensures { Tells result (part_fault object.now (option_map (λ n. n.now) part.entry)
        (scope_with shared.entry.now.vars.now (offers_of calls.entry.now) params.entry.now locals.entry.now) (block_of block.now)) }
{
    let known = Known::new(alloc, shared, calls, params, locals)?;
    tell(alloc, object, part, check_known(&known, block))
}

/// The parameters of an operation, where it is there.
fn params_by<'a>(operation: Option<&'a Provided>) -> &'a [Param]
    ensures { result.now ≡ params_by (option_map (λ p. provided_of p.now) operation.entry) }
{
    match operation {
        None => &[],
        Some(provided) => provided.sig.params.as_slice(),
    }
}

/// The parameters of the request of an object.
fn request_params<'a>(node: &'a Node) -> &'a [Param]
    ensures { result.now ≡ request_params (object_of node.entry.now).kind (request_op (object_of node.entry.now).provides) }
{
    match node.kind {
        Kind::Sporadic => params_by(node.provides.first()),
        Kind::Passive | Kind::Active | Kind::Protected | Kind::Cyclic => &[],
    }
}

/// Tells the first fault of the bodies of the object at a place.
#[tactic(auto, using(crate::proofs::ScopeSteps::scope_steps))]
fn judge_bodies<'k, 'a>(
    alloc: Global,
    index: &Index<'a>,
    shared: &'k Data<'a>,
    calls: &'k Calls<'a>,
    place: usize,
    node: &'a Node,
) -> Result<(), Broken>
    requires indexed { IsIndex index.now }
    requires stands { option_map (λ s. s.own) (slice_get (walk.objects (design_of index.now.design.now)) place) ≡ Some (object_of node.now) }
    requires vars { shared.now.vars.now ≡ (object_of node.now).vars }
    requires calls { offers_of calls.now ≡ offers (design_of index.now.design.now) (object_of node.now) }
    ensures { Tells result (head_of (filter_map (body_fault (design_of index.entry.now.design.now) (object_of node.entry.now))
        (object_of node.entry.now).bodies)) }
{
    'bodies: for body in &node.bodies {
        let params = params_by(index.provided(place, &body.name));
        judge_part(
            alloc,
            shared,
            calls,
            &node.name,
            Some(&body.name),
            params,
            &body.locals,
            &body.block,
        )?;
    }
    Ok(())
}

/// Tells the first fault of the thread of an object, where it has one.
fn judge_thread<'k, 'a>(
    alloc: Global,
    index: &Index<'a>,
    shared: &'k Data<'a>,
    calls: &'k Calls<'a>,
    node: &'a Node,
) -> Result<(), Broken>
    requires indexed { IsIndex index.now }
    requires vars { shared.now.vars.now ≡ (object_of node.now).vars }
    requires calls { offers_of calls.now ≡ offers (design_of index.now.design.now) (object_of node.now) }
    ensures { Tells result (head_of (filter_map (thread_fault (design_of index.entry.now.design.now) (object_of node.entry.now))
        (option_to_list (object_of node.entry.now).thread))) }
{
    match &node.thread {
        None => Ok(()),
        Some(block) => judge_part(
            alloc,
            shared,
            calls,
            &node.name,
            None,
            request_params(node),
            &[],
            block,
        ),
    }
}

/// Tells the first fault in the object at a place.
#[tactic(auto, using(ods_index::proofs::Shared::TellSteps::tell_steps))]
fn judge_object<'a>(
    alloc: Global,
    index: &Index<'a>,
    place: usize,
    node: &'a Node,
) -> Result<(), Broken>
    requires indexed { IsIndex index.now }
    requires stands { option_map (λ s. s.own) (slice_get (walk.objects (design_of index.now.design.now)) place) ≡ Some (object_of node.now) }
    ensures { Tells result (head_of (faults_in (design_of index.entry.now.design.now) (object_of node.entry.now))) }
{
    let shared = Data::new(alloc, node.vars.as_slice())?;
    let calls = Calls::new(alloc, offers(alloc, index, node)?)?;
    judge_bodies(alloc, index, &shared, &calls, place, node)?;
    judge_thread(alloc, index, &shared, &calls, node)
}

/// V13: tells the first fault of a body or a thread.
#[tactic(auto, using(ods_index::proofs::Shared::TellSteps::tell_steps))]
pub fn first_bad_body(alloc: Global, index: &Index<'_>) -> Result<(), Broken>
    requires { IsIndex index.now }
    ensures { Tells result (head_of (bad_bodies (design_of index.entry.now.design.now))) }
{
    let objects = index.objects.as_slice();
    'objects: for (place, standing) in objects.iter().enumerate() {
        judge_object(alloc, index, place, standing.node)?;
    }
    Ok(())
}
