ghost use Rattle.std.specs.Prelude.{◌≡◌, length, map, nat_le, nat_lt, not};
ghost use Rattle.std.specs.List.{list_any};
ghost use Rattle.seq_tree.specs.Operations.{is_out};
ghost use Rattle.ods_tree.specs.Trees.{design_of, provided_of};
ghost use Rattle.design_rules.specs.Operations.{bad_operations, breaks_operations, breaks_table, hands_out, has_request, is_one_way};
ghost use Rattle.design_rules.specs.Operations.{may_pass_on, may_provide};
ghost use Rattle.ods_index.specs.Indexing.{IsIndex};
ghost use Rattle.ods_index.specs.Judging.{Tells, head_of};
ghost use Rattle.ods_forms.specs.ObjectFaults.{may_have};
ghost use Rattle.ods_index.specs.Walking.{object_of, standing_of};

use crate::objects::{ObjectRule, first_offender};
use ods_index::{Broken, Index, Standing, is_sporadic, is_terminal};
use ods_tree::{Constraint, Kind, Node, Provided};
use seq_tree::{Mode, Param};
use std::alloc::Global;

/// Whether a terminal object of a kind may provide an operation of a constraint.
fn may_provide(kind: Kind, constraint: Option<Constraint>) -> bool
    ensures { result ≡ may_provide kind constraint }
{
    match (kind, constraint) {
        (Kind::Active, _) => true,
        (Kind::Passive, None) => true,
        (Kind::Protected, Some(Constraint::Pser | Constraint::Paer)) => true,
        (Kind::Sporadic, Some(Constraint::Aser)) => true,
        _ => false,
    }
}

/// Whether an object with children may.
fn may_pass_on(kind: Kind, constraint: Option<Constraint>) -> bool
    ensures { result ≡ may_pass_on kind constraint }
{
    match (kind, constraint) {
        (Kind::Active, _) => true,
        (Kind::Passive, None) => true,
        (Kind::Passive, Some(_)) => false,
        (Kind::Protected, Some(Constraint::Aser)) => false,
        (_, Some(Constraint::Hser)) => false,
        _ => true,
    }
}

/// Whether an object may, by whether it has no children.
fn may_have(terminal: bool, kind: Kind, constraint: Option<Constraint>) -> bool
    ensures { result ≡ may_have terminal kind constraint }
{
    if terminal {
        may_provide(kind, constraint)
    } else {
        may_pass_on(kind, constraint)
    }
}

/// Whether some operation is one that an object may not have.
fn any_unfit(terminal: bool, kind: Kind, provides: &[Provided]) -> bool
    ensures { result ≡ list_any (λ p. not (may_have terminal kind p.constraint)) (map provided_of provides.now) }
{
    'ops: for provided in provides {
        if !may_have(terminal, kind, provided.constraint) {
            return true;
        }
    }
    false
}

/// Whether some operation has more parameters than this.
pub(crate) fn any_long(limit: usize, provides: &[Provided]) -> bool
    ensures { result ≡ list_any (λ p. nat_lt limit (length p.sig.params)) (map provided_of provides.now) }
{
    'ops: for provided in provides {
        if limit < provided.sig.params.len() {
            return true;
        }
    }
    false
}

/// Whether some operation has two parameters or more.
fn any_with_two(provides: &[Provided]) -> bool
    ensures { result ≡ list_any (λ p. not (nat_le (length p.sig.params) 1)) (map provided_of provides.now) }
{
    'ops: for provided in provides {
        if 1 < provided.sig.params.len() {
            return true;
        }
    }
    false
}

/// Whether a terminal object has as many operations as its kind asks, and no more parameters.
fn has_request(kind: Kind, provides: &[Provided]) -> bool
    ensures { result ≡ has_request kind (map provided_of provides.now) }
{
    match kind {
        Kind::Sporadic => provides.len() == 1 && !any_with_two(provides),
        Kind::Passive | Kind::Active | Kind::Protected | Kind::Cyclic => true,
    }
}

/// Whether the operations of a terminal object, or of one with children, break the table.
#[tactic(auto, using(ods_index::proofs::Shared::WalkSteps::node_steps))]
fn breaks_table(terminal: bool, node: &Node) -> bool
    ensures { result ≡ breaks_table terminal (object_of node.now) }
{
    let provides = node.provides.as_slice();
    let unfit = any_unfit(terminal, node.kind, provides);
    if terminal {
        unfit || !has_request(node.kind, provides)
    } else {
        unfit
    }
}

/// Whether a mode hands a value out.
pub(crate) fn is_out(mode: Mode) -> bool
    ensures { result ≡ is_out mode }
{
    match mode {
        Mode::In => false,
        Mode::Out => true,
    }
}

/// Whether a caller of a constraint doesn't wait for values.
fn is_one_way(constraint: Option<Constraint>) -> bool
    ensures { result ≡ is_one_way constraint }
{
    match constraint {
        None => false,
        Some(Constraint::Aser | Constraint::Paer) => true,
        Some(Constraint::Hser | Constraint::Pser) => false,
    }
}

/// Whether some parameter hands a value out.
fn any_out(params: &[Param]) -> bool
    ensures { result ≡ list_any (λ q. is_out q.mode) params.now }
{
    'params: for param in params {
        if is_out(param.mode) {
            return true;
        }
    }
    false
}

/// Whether an operation hands out values to a caller that doesn't wait for them.
fn hands_out(provided: &Provided) -> bool
    ensures { result ≡ hands_out (provided_of provided.now) }
{
    is_one_way(provided.constraint) && any_out(provided.sig.params.as_slice())
}

/// Whether some operation does.
fn any_hands_out(provides: &[Provided]) -> bool
    ensures { result ≡ list_any hands_out (map provided_of provides.now) }
{
    'ops: for provided in provides {
        if hands_out(provided) {
            return true;
        }
    }
    false
}

/// Whether an object provides what its kind may not, or an operation without waiting that hands out values.
#[tactic(auto, using(ods_index::proofs::Shared::WalkSteps::node_steps))]
pub(crate) fn breaks_operations(standing: &Standing<'_>) -> bool
    ensures { result ≡ breaks_operations (standing_of standing.entry.now) }
{
    let node = standing.node;
    let table = breaks_table(is_terminal(node), node);
    table || any_hands_out(node.provides.as_slice())
}

/// V04: tells the first object that provides what its kind may not, or an operation without waiting that hands out values.
pub fn first_bad_operation(alloc: Global, index: &Index<'_>) -> Result<(), Broken>
    requires { IsIndex index.now }
    ensures { Tells result (head_of (bad_operations (design_of index.entry.now.design.now))) }
{
    first_offender(alloc, index.objects.as_slice(), ObjectRule::Operation)
}
