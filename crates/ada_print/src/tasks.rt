ghost use Rattle.seq_tree.specs.Layout.{layout};
ghost use Rattle.seq_tree.specs.Trees.{block_of};
ghost use Rattle.ada_tree.specs.Programs.{Cyclic};
ghost use Rattle.ada_tree.specs.Spelling.{inner_body, task_lines};
ghost use Rattle.seq_print.specs.Printing.{Writes};

use crate::heads::add_data;
use seq_print::{print_block, put, put_number};
use seq_tree::{Block, Datum, NoMemory};
use std::alloc::Global;

/// What the declaration of a task has before its priority.
const TASK: &[u8] = b"      task hrt_thread is\n         pragma priority (";

/// What the body of a cyclic unit has before its offset.
const FIRST: &[u8] =
    b"      task body hrt_thread is\n         hrt_next : hrt.moment := hrt.after (hrt.epoch, ";

/// What it has between its offset and the line of its period.
const NEXT: &[u8] = b");
      begin
         loop
            delay until hrt_next;
";

/// What the body of a task has behind its statements.
pub(crate) const LAST: &[u8] =
    b"            activation_end;\n         end loop;\n      end hrt_thread;\n";

/// Adds the declaration of a task.
pub(crate) fn add_task(priority: u32, into: &mut Vec<u8>) -> Result<(), NoMemory>
    ensures { Writes result into.old.items into.new.items (layout (task_lines priority)) }
{
    put_number(into, TASK, priority, b");\n      end hrt_thread;\n")
}

/// Adds what stands in the body of a cyclic unit.
pub(crate) fn add_cyclic(
    alloc: Global,
    offset: u32,
    period: u32,
    vars: &[Datum],
    block: &Block,
    into: &mut Vec<u8>,
) -> Result<(), NoMemory>
    ensures { Writes result into.old.items into.new.items (layout (inner_body (Cyclic 0 offset period vars.now (block_of block.now)))) }
{
    add_data(vars, 2, into)?;
    put_number(into, FIRST, offset, NEXT)?;
    put_number(
        into,
        b"            hrt_next := hrt.after (hrt_next, ",
        period,
        b");\n",
    )?;
    print_block(alloc, block, 4, into)?;
    put(into, LAST)
}
