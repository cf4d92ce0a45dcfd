ghost use Rattle.std.specs.Prelude.{◌≡◌, ◌++◌, IfOk, OnOk, flat_map, map};
ghost use Rattle.seq_tree.specs.Faults.{Scope as ScopeTree, block_fault};
ghost use Rattle.seq_tree.specs.Statements.{Statements};
ghost use Rattle.seq_check.specs.Answers.{Says};
ghost use Rattle.seq_check.specs.Scopes.{offer_view};
ghost use Rattle.seq_check.specs.Views.{offers_of};
ghost use Rattle.ada_tree.specs.Bodies.{bodies, data_of};
ghost use Rattle.ada_tree.specs.Trees.{form_of, program_of, unit_of};
ghost use Rattle.ada_rules.specs.FaultsTold.{IsFault, IsFirstFault, bodies_fault_at, body_scope, unit_offers};
ghost use Rattle.ada_rules.specs.Lists.{head_of};
ghost use Rattle.ada_rules.specs.Parts.{body_of};

use crate::lists::{data_of, heads_of};
use crate::parts::{BodyView, bodies_of};
use ada_tree::{AdaProgram, Form, Unit};
use seq_check::{BodyFault, Calls, Data, Known, Offer, check_known};
use seq_tree::{Name, NoMemory, OpSig};
use std::alloc::Global;

/// Adds the operations of an object with these heads.
fn add_offers<'a>(
    offers: &mut Vec<Offer<'a>>,
    object: &'a Name,
    heads: &[&'a OpSig],
) -> Result<(), NoMemory>
    ensures { OnOk result (map offer_view offers.new.items ≡ map offer_view offers.old.items
        ++ map (λ h. record { object = object.entry.now; sig = h }) (map head_of heads.entry.now)) }
{
    'heads: for head in heads {
        offers.push(Offer { object, sig: *head })?;
    }
    Ok(())
}

/// Adds the operations of a unit.
fn add_unit_offers<'a>(
    alloc: Global,
    offers: &mut Vec<Offer<'a>>,
    unit: &'a Unit,
) -> Result<(), NoMemory>
    ensures { OnOk result (map offer_view offers.new.items ≡ map offer_view offers.old.items ++ unit_offers (unit_of unit.entry.now)) }
{
    let heads = heads_of(alloc, &unit.form)?;
    add_offers(offers, &unit.name, heads.as_slice())
}

/// All operations that can be called.
fn all_offers<'a>(alloc: Global, units: &'a [Unit]) -> Result<Vec<Offer<'a>>, NoMemory>
    ensures { IfOk result (λ v. map offer_view v.items ≡ flat_map unit_offers (map unit_of units.entry.now)) }
{
    let mut offers = Vec::new(alloc);
    'units: for unit in units {
        add_unit_offers(alloc, &mut offers, unit)?;
    }
    Ok(offers)
}

/// The fault that is told, or none.
fn fault_told(answer: Result<(), BodyFault>) -> Result<Option<BodyFault>, NoMemory>
    ensures { IfOk result (λ o. (s : ScopeTree) (b : Statements) → Says answer (block_fault s b) → IsFault o (block_fault s b)) }
{
    match answer {
        Ok(()) => Ok(None),
        Err(BodyFault::Unknown) => Ok(Some(BodyFault::Unknown)),
        Err(BodyFault::Sort) => Ok(Some(BodyFault::Sort)),
        Err(BodyFault::Divisor) => Ok(Some(BodyFault::Divisor)),
        Err(BodyFault::Exit) => Ok(Some(BodyFault::Exit)),
        Err(BodyFault::Assigned) => Ok(Some(BodyFault::Assigned)),
        Err(BodyFault::Actual) => Ok(Some(BodyFault::Actual)),
        Err(BodyFault::Count) => Ok(Some(BodyFault::Count)),
        Err(BodyFault::NoMemory) => Err(NoMemory),
    }
}

/// The first fault of a body.
fn body_fault<'k, 'a>(
    alloc: Global,
    calls: &'k Calls<'a>,
    shared: &'k Data<'a>,
    body: &BodyView<'a>,
) -> Result<Option<BodyFault>, NoMemory>
    ensures { IfOk result (λ o. IsFault o (block_fault (body_scope (offers_of calls.entry.now) shared.entry.now.vars.now (body_of body.entry.now))
        (body_of body.entry.now).block)) }
{
    let known = Known::new(alloc, shared, calls, body.params, body.locals)?;
    fault_told(check_known(&known, body.block))
}

/// The first fault of bodies.
fn bodies_fault<'k, 'a>(
    alloc: Global,
    calls: &'k Calls<'a>,
    shared: &'k Data<'a>,
    bodies: &[BodyView<'a>],
) -> Result<Option<BodyFault>, NoMemory>
    ensures { IfOk result (λ o. IsFault o (bodies_fault_at (offers_of calls.entry.now) shared.entry.now.vars.now (map body_of bodies.entry.now))) }
{
    'bodies: for body in bodies {
        if let Some(fault) = body_fault(alloc, calls, shared, body)? {
            return Ok(Some(fault));
        }
    }
    Ok(None)
}

/// The first fault of a unit.
fn unit_fault<'a>(
    alloc: Global,
    calls: &Calls<'a>,
    form: &'a Form,
) -> Result<Option<BodyFault>, NoMemory>
    ensures { IfOk result (λ o. IsFault o (bodies_fault_at (offers_of calls.entry.now) (data_of (form_of form.entry.now))
        (bodies (form_of form.entry.now)))) }
{
    let shared = Data::new(alloc, data_of(form))?;
    let bodies = bodies_of(alloc, form)?;
    bodies_fault(alloc, calls, &shared, bodies.as_slice())
}

/// A unit with a fault in a body.
#[derive(Clone, Copy)]
pub(crate) struct FaultAt {
    pub(crate) place: usize,
    pub(crate) fault: BodyFault,
}

/// The place of the first unit with a fault in a body, and its first fault.
pub(crate) fn first_by_bodies(
    alloc: Global,
    program: &AdaProgram,
) -> Result<Option<FaultAt>, NoMemory>
    ensures { IfOk result (IsFirstFault (program_of program.now)) }
{
    let list = program.units.as_slice();
    let offers = all_offers(alloc, list)?;
    let calls = Calls::new(alloc, offers)?;
    'units: for (place, unit) in list.iter().enumerate() {
        match unit_fault(alloc, &calls, &unit.form)? {
            None => {}
            Some(fault) => return Ok(Some(FaultAt { place, fault })),
        }
    }
    Ok(None)
}
