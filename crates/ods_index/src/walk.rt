ghost use Rattle.std.specs.Prelude.{◌≡◌, ◌++◌, IfOk, OnOk, map};
ghost use Rattle.ods_tree.specs.Trees.{design_of, tree_of};
ghost use Rattle.ods_tree.specs.Walk.{objects, standings};
ghost use Rattle.ods_index.specs.Walking.{object_of, parent_of, siblings_of, standing_of};

use ods_tree::{Design, Node};
use seq_tree::NoMemory;
use std::alloc::Global;

/// An object with those round it: its parent and the children of its parent, where it has one.
#[derive(Clone, Copy)]
pub struct Standing<'a> {
    pub node: &'a Node,
    pub parent: Option<&'a Node>,
    pub siblings: Option<&'a [Node]>,
}

/// Adds an object and those inside it, in flattened order.
#[cycle(walk)]
fn add_objects<'a>(
    into: &mut Vec<Standing<'a>>,
    node: &'a Node,
    parent: Option<&'a Node>,
    siblings: Option<&'a [Node]>,
) -> Result<(), NoMemory>
    ensures { OnOk result (map standing_of into.new.items ≡ map standing_of into.old.items
        ++ standings (parent_of parent.entry) (siblings_of (object_of node.entry.now) siblings.entry) (tree_of node.entry.now)) }
{
    into.push(Standing {
        node,
        parent,
        siblings,
    })?;
    'children: for child in &node.children {
        add_objects(into, child, Some(node), Some(node.children.as_slice()))?;
    }
    Ok(())
}

/// The objects of a design in flattened order.
pub fn objects_of<'a>(alloc: Global, design: &'a Design) -> Result<Vec<Standing<'a>>, NoMemory>
    ensures { IfOk result (λ v. map standing_of v.items ≡ objects (design_of design.entry.now)) }
{
    let mut objects = Vec::new(alloc);
    add_objects(&mut objects, &design.root, None, None)?;
    Ok(objects)
}
