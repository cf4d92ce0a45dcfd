ghost use Rattle.std.specs.Prelude.{◌≤◌, map, flat_map};
ghost use Rattle.seq_tree.specs.Layout.{layout};
ghost use Rattle.seq_tree.specs.Trees.{operation_of};
ghost use Rattle.ada_tree.specs.Spelling.{body_lines};
ghost use Rattle.seq_print.specs.Printing.{Writes};

use crate::heads::{add_data, add_head};
use seq_print::{print_block, put, put_indent, put_line, put_name};
use seq_tree::{NoMemory, OpText};
use std::alloc::Global;

/// Adds the body of a procedure.
fn add_body(alloc: Global, op: &OpText, level: u32, into: &mut Vec<u8>) -> Result<(), NoMemory>
    requires { level ≤ 3 }
    ensures { Writes result into.old.items into.new.items (layout (body_lines level (operation_of op.now))) }
{
    let inner = level + 1;
    put_indent(into, level)?;
    add_head(&op.sig, into)?;
    put(into, b" is\n")?;
    add_data(&op.locals, inner, into)?;
    put_line(into, level, b"begin")?;
    print_block(alloc, &op.block, inner, into)?;
    put_indent(into, level)?;
    put_name(into, b"end ", &op.sig.name, b";\n")
}

/// Adds the bodies of procedures.
pub(crate) fn add_bodies(
    alloc: Global,
    ops: &[OpText],
    level: u32,
    into: &mut Vec<u8>,
) -> Result<(), NoMemory>
    requires { level ≤ 3 }
    ensures { Writes result into.old.items into.new.items (layout (flat_map (body_lines level) (map operation_of ops.now))) }
{
    'ops: for op in ops {
        add_body(alloc, op, level, into)?;
    }
    Ok(())
}
