ghost use Rattle.std.specs.Prelude.{map};
ghost use Rattle.seq_print.specs.Printing.{Writes};
ghost use Rattle.ods_tree.specs.Spelling.{back_lines, front_lines, tree_lines, trees_lines};
ghost use Rattle.ods_tree.specs.Trees.{tree_of, trees_of};
ghost use Rattle.ods_tree.specs.Walk.{own_of};
ghost use Rattle.ods_tree.specs.Layout.{design_line_text};
ghost use Rattle.ods_print.specs.Parts.{lines_text, object_line};

use crate::bodies::{add_bodies, add_thread, put_named};
use crate::sections::{add_heading, add_section, deeper};
use crate::words::kind_text;
use ods_tree::{Kind, Node};
use seq_print::put;
use seq_tree::{Name, NoMemory};
use std::alloc::Global;

/// Adds the line that an object begins with.
fn add_object(name: &Name, kind: Kind, level: u32, into: &mut Vec<u8>) -> Result<(), NoMemory>
    ensures { Writes result into.old.items into.new.items (design_line_text (object_line level name.now kind)) }
{
    put_named(into, level, b"OBJECT ", name, b" IS ")?;
    put(into, kind_text(kind))?;
    put(into, b"\n")
}

/// Adds the lines of an object before the objects inside it.
fn add_front(alloc: Global, node: &Node, level: u32, into: &mut Vec<u8>) -> Result<(), NoMemory>
    ensures { Writes result into.old.items into.new.items (lines_text (front_lines level (own_of (tree_of node.now)))) }
{
    let inner = deeper(level);
    add_object(&node.name, node.kind, level, into)?;
    add_section(b"ATTRIBUTES", node.attrs.as_slice(), inner, into)?;
    add_section(b"PROVIDES", node.provides.as_slice(), inner, into)?;
    add_section(b"REQUIRES", node.needs.as_slice(), inner, into)?;
    add_section(b"DATA", node.vars.as_slice(), inner, into)?;
    add_bodies(alloc, node.bodies.as_slice(), inner, into)?;
    add_thread(alloc, &node.thread, inner, into)
}

/// Adds the lines of an object behind the objects inside it.
fn add_back(node: &Node, level: u32, into: &mut Vec<u8>) -> Result<(), NoMemory>
    ensures { Writes result into.old.items into.new.items (lines_text (back_lines level (own_of (tree_of node.now)))) }
{
    add_section(b"IMPLEMENTS", node.links.as_slice(), deeper(level), into)?;
    put_named(into, level, b"END ", &node.name, b";\n")
}

/// Adds the lines of an object and of those inside it.
#[cycle(nodes)]
pub(crate) fn add_node(
    alloc: Global,
    node: &Node,
    level: u32,
    into: &mut Vec<u8>,
) -> Result<(), NoMemory>
    ensures { Writes result into.old.items into.new.items (lines_text (tree_lines level (tree_of node.now))) }
{
    let inner = deeper(level);
    add_front(alloc, node, level, into)?;
    add_heading(b"OBJECTS", node.children.as_slice(), inner, into)?;
    add_nodes(alloc, node.children.as_slice(), deeper(inner), into)?;
    add_back(node, level, into)
}

/// Adds the lines of objects beside each other.
#[cycle(nodes)]
fn add_nodes(alloc: Global, nodes: &[Node], level: u32, into: &mut Vec<u8>) -> Result<(), NoMemory>
    ensures { Writes result into.old.items into.new.items (lines_text (trees_lines level (trees_of (map tree_of nodes.now)))) }
{
    'nodes: for node in nodes {
        add_node(alloc, node, level, into)?;
    }
    Ok(())
}
