ghost use Rattle.std.specs.Prelude.{◌*◌, ◌++◌, flat_map, map, min, option_map, replicate};
ghost use Rattle.seq_tree.specs.Trees.{block_of};
ghost use Rattle.seq_print.specs.Printing.{Writes};
ghost use Rattle.ods_tree.specs.Spelling.{body_lines, thread_lines};
ghost use Rattle.ods_tree.specs.Trees.{body_of};
ghost use Rattle.ods_print.specs.Parts.{lines_text};

use crate::sections::{add_items, deeper};
use ods_tree::OpBody;
use seq_print::{print_block, put_indent, put_line, put_name};
use seq_tree::{Block, Name, NoMemory};
use std::alloc::Global;

/// Adds a line of this level with a name between other bytes.
#[tactic(auto, using(seq_print::proofs::Shared::Chains::writing))]
pub(crate) fn put_named(
    into: &mut Vec<u8>,
    level: u32,
    before: &[u8],
    name: &Name,
    behind: &[u8],
) -> Result<(), NoMemory>
    ensures { Writes result into.old.items into.new.items (replicate (min 30 (3 * level)) 32 ++ (before.now ++ (name.now ++ behind.now))) }
{
    put_indent(into, level)?;
    put_name(into, before, name, behind)
}

/// Adds the body of an operation.
fn add_body(alloc: Global, body: &OpBody, level: u32, into: &mut Vec<u8>) -> Result<(), NoMemory>
    ensures { Writes result into.old.items into.new.items (lines_text (body_lines level (body_of body.now))) }
{
    let inner = deeper(level);
    put_named(into, level, b"OPERATION ", &body.name, b" IS\n")?;
    add_items(body.locals.as_slice(), inner, into)?;
    put_line(into, level, b"BEGIN")?;
    print_block(alloc, &body.block, inner, into)?;
    put_named(into, level, b"END ", &body.name, b";\n")
}

/// Adds the bodies of operations.
pub(crate) fn add_bodies(
    alloc: Global,
    bodies: &[OpBody],
    level: u32,
    into: &mut Vec<u8>,
) -> Result<(), NoMemory>
    ensures { Writes result into.old.items into.new.items (lines_text (flat_map (body_lines level) (map body_of bodies.now))) }
{
    'bodies: for body in bodies {
        add_body(alloc, body, level, into)?;
    }
    Ok(())
}

/// Adds the thread of an object, where it has one.
pub(crate) fn add_thread(
    alloc: Global,
    thread: &Option<Block>,
    level: u32,
    into: &mut Vec<u8>,
) -> Result<(), NoMemory>
    ensures { Writes result into.old.items into.new.items (lines_text (thread_lines level (option_map block_of thread.now))) }
{
    match thread {
        None => Ok(()),
        Some(block) => {
            put_line(into, level, b"THREAD")?;
            print_block(alloc, block, deeper(level), into)?;
            put_line(into, level, b"END THREAD;")
        }
    }
}
