ghost use Rattle.std.specs.Prelude.{[], map, flat_map};
ghost use Rattle.seq_tree.specs.Layout.{layout};
ghost use Rattle.seq_tree.specs.Trees.{operation_of};
ghost use Rattle.ada_tree.specs.Programs.{Shared};
ghost use Rattle.ada_tree.specs.Spelling.{inner_body, inner_specification, specification_lines, unit_body_lines};
ghost use Rattle.ada_tree.specs.Trees.{form_of, unit_of};
ghost use Rattle.seq_print.specs.Printing.{Writes};

use crate::heads::{add_data, add_declarations, add_renamings};
use crate::operations::add_bodies;
use crate::requests::{add_sporadic, add_sporadic_head};
use crate::tasks::{add_cyclic, add_task};
use ada_tree::{Form, Unit};
use seq_print::{put, put_name, put_number};
use seq_tree::{Datum, NoMemory, OpText};
use std::alloc::Global;

/// What a protected unit declares before its ceiling.
const OBJECT: &[u8] = b"      protected hrt_object is\n         pragma priority (";

/// Adds what stands in the specification of a protected unit.
fn add_shared_head(
    ceiling: u32,
    vars: &[Datum],
    ops: &[OpText],
    into: &mut Vec<u8>,
) -> Result<(), NoMemory>
    ensures { Writes result into.old.items into.new.items (layout (inner_specification (Shared ceiling vars.now (map operation_of ops.now)))) }
{
    put_number(into, OBJECT, ceiling, b");\n")?;
    add_declarations(ops, 3, into)?;
    put(into, b"      private\n")?;
    add_data(vars, 3, into)?;
    put(into, b"      end hrt_object;\n")?;
    add_renamings(ops, into)
}

/// Adds what stands in the body of a protected unit.
fn add_shared(alloc: Global, ops: &[OpText], into: &mut Vec<u8>) -> Result<(), NoMemory>
    ensures { Writes result into.old.items into.new.items (layout (inner_body (Shared 0 [] (map operation_of ops.now)))) }
{
    put(into, b"      protected body hrt_object is\n")?;
    add_bodies(alloc, ops, 3, into)?;
    put(into, b"      end hrt_object;\n")
}

/// Adds what stands in the specification of a unit.
fn add_inner_head(form: &Form, into: &mut Vec<u8>) -> Result<(), NoMemory>
    ensures { Writes result into.old.items into.new.items (layout (inner_specification (form_of form.now))) }
{
    match form {
        Form::Passive { ops } => add_declarations(ops, 2, into),
        Form::Shared { ceiling, vars, ops } => add_shared_head(*ceiling, vars, ops, into),
        Form::Cyclic { priority, .. } => add_task(*priority, into),
        Form::Sporadic {
            priority,
            ceiling,
            op,
            separation,
            jitter,
            external,
            ..
        } => add_sporadic_head(
            *priority,
            *ceiling,
            op,
            *separation,
            *jitter,
            *external,
            into,
        ),
    }
}

/// Adds the specification of a unit.
fn add_specification(unit: &Unit, into: &mut Vec<u8>) -> Result<(), NoMemory>
    ensures { Writes result into.old.items into.new.items (layout (specification_lines (unit_of unit.now))) }
{
    put_name(into, b"   package ", &unit.name, b" is\n")?;
    add_inner_head(&unit.form, into)?;
    put_name(into, b"   end ", &unit.name, b";\n")
}

/// Adds the specifications of units.
pub(crate) fn add_specifications(units: &[Unit], into: &mut Vec<u8>) -> Result<(), NoMemory>
    ensures { Writes result into.old.items into.new.items (layout (flat_map specification_lines (map unit_of units.now))) }
{
    'units: for unit in units {
        add_specification(unit, into)?;
    }
    Ok(())
}

/// Adds what stands in the body of a unit.
fn add_inner_body(alloc: Global, form: &Form, into: &mut Vec<u8>) -> Result<(), NoMemory>
    ensures { Writes result into.old.items into.new.items (layout (inner_body (form_of form.now))) }
{
    match form {
        Form::Passive { ops } => add_bodies(alloc, ops, 2, into),
        Form::Shared { ops, .. } => add_shared(alloc, ops, into),
        Form::Cyclic {
            offset,
            period,
            vars,
            block,
            ..
        } => add_cyclic(alloc, *offset, *period, vars, block, into),
        Form::Sporadic {
            op,
            vars,
            block,
            ..
        } => add_sporadic(alloc, op, vars, block, into),
    }
}

/// Adds the body of a unit.
fn add_unit_body(alloc: Global, unit: &Unit, into: &mut Vec<u8>) -> Result<(), NoMemory>
    ensures { Writes result into.old.items into.new.items (layout (unit_body_lines (unit_of unit.now))) }
{
    put_name(into, b"   package body ", &unit.name, b" is\n")?;
    add_inner_body(alloc, &unit.form, into)?;
    put_name(into, b"   end ", &unit.name, b";\n")
}

/// Adds the bodies of units.
pub(crate) fn add_unit_bodies(
    alloc: Global,
    units: &[Unit],
    into: &mut Vec<u8>,
) -> Result<(), NoMemory>
    ensures { Writes result into.old.items into.new.items (layout (flat_map unit_body_lines (map unit_of units.now))) }
{
    'units: for unit in units {
        add_unit_body(alloc, unit, into)?;
    }
    Ok(())
}
