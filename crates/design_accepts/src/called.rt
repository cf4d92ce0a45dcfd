ghost use Rattle.std.specs.Prelude.{◌≡◌, ◌++◌, IfOk, OnOk, map};
ghost use Rattle.seq_tree.specs.Trees.{offer_of, operation_of};
ghost use Rattle.ada_tree.specs.Trees.{program_of, unit_of};
ghost use Rattle.design_accepts.specs.Calling.{Gains, Holds, offered_by};

use ada_tree::{AdaProgram, Form, Unit};
use seq_tree::{Callable, Name, NoMemory, OpText};
use std::alloc::Global;

/// What calls in a program may lead to: the passive operations, each with its owner at the same place, the protected operations and the
/// requests.
#[derive(Drop)]
pub(crate) struct Called {
    pub passive: Vec<OpText>,
    pub owners: Vec<Name>,
    pub shared: Vec<Callable>,
    pub requests: Vec<Callable>,
}

/// Adds the operations of a passive object.
fn add_passive(
    alloc: Global,
    name: &Name,
    ops: &[OpText],
    passive: &mut Vec<OpText>,
    owners: &mut Vec<Name>,
) -> Result<(), NoMemory>
    ensures passive { OnOk result (map operation_of passive.new.items ≡ map operation_of passive.old.items ++ map operation_of ops.now) }
    ensures owners { OnOk result (owners.new.items ≡ owners.old.items ++ map (λ o. name.now) (map operation_of ops.now)) }
{
    'ops: for op in ops {
        passive.push(op.copy(alloc)?)?;
        owners.push(name.copy(alloc)?)?;
    }
    Ok(())
}

/// Adds the operations of a protected object.
fn add_shared(
    alloc: Global,
    name: &Name,
    ops: &[OpText],
    shared: &mut Vec<Callable>,
) -> Result<(), NoMemory>
    ensures { OnOk result (map offer_of shared.new.items ≡ map offer_of shared.old.items ++ map (offered_by name.now) (map operation_of ops.now)) }
{
    'ops: for op in ops {
        shared.push(Callable {
            object: name.copy(alloc)?,
            sig: op.sig.copy(alloc)?,
        })?;
    }
    Ok(())
}

/// Adds what calls may lead to in a unit.
fn add_unit(alloc: Global, unit: &Unit, called: &mut Called) -> Result<(), NoMemory>
    ensures { OnOk result (Gains called.old called.new (unit_of unit.now)) }
{
    match &unit.form {
        Form::Passive { ops } => add_passive(
            alloc,
            &unit.name,
            ops.as_slice(),
            &mut called.passive,
            &mut called.owners,
        ),
        Form::Shared { ops, .. } => {
            add_shared(alloc, &unit.name, ops.as_slice(), &mut called.shared)
        }
        Form::Cyclic { .. } => Ok(()),
        Form::Sporadic { op, .. } => {
            called.requests.push(Callable {
                object: unit.name.copy(alloc)?,
                sig: op.copy(alloc)?,
            })?;
            Ok(())
        }
    }
}

/// What calls in these units may lead to. The operations are copies.
fn called_of(alloc: Global, units: &[Unit]) -> Result<Called, NoMemory>
    ensures { IfOk result (λ c. Holds c (map unit_of units.now)) }
{
    let mut called = Called {
        passive: Vec::new(alloc),
        owners: Vec::new(alloc),
        shared: Vec::new(alloc),
        requests: Vec::new(alloc),
    };
    'units: for unit in units {
        add_unit(alloc, unit, &mut called)?;
    }
    Ok(called)
}

/// What calls in a program may lead to.
pub(crate) fn called_in(alloc: Global, program: &AdaProgram) -> Result<Called, NoMemory>
    ensures { IfOk result (λ c. Holds c (program_of program.now).units) }
{
    called_of(alloc, program.units.as_slice())
}
