ghost use Rattle.std.specs.Prelude.{◌≡◌, ◌∷◌, ◌++◌, [], IfOk, OnOk, filter, map};
ghost use Rattle.ods_tree.specs.Trees.{design_of};
ghost use Rattle.ods_tree.specs.Walk.{is_terminal, terminals};
ghost use Rattle.ods_index.specs.Nodes.{node_object};
ghost use Rattle.ods_index.specs.Walking.{standing_of};

use ods_index::{Standing, is_terminal, objects_of};
use ods_tree::{Design, Node};
use seq_tree::NoMemory;
use std::alloc::Global;

/// Adds an object, where it has no children.
fn add_terminal<'a>(into: &mut Vec<&'a Node>, standing: &Standing<'a>) -> Result<(), NoMemory>
    ensures { OnOk result (map node_object into.new.items ≡ map node_object into.old.items
        ++ map (λ s. s.own) (filter is_terminal (standing_of standing.entry.now ∷ []))) }
{
    if is_terminal(standing.node) {
        into.push(standing.node)?;
    }
    Ok(())
}

/// The terminal objects of a design, in flattened order.
pub(crate) fn terminals<'a>(alloc: Global, design: &'a Design) -> Result<Vec<&'a Node>, NoMemory>
    ensures { IfOk result (λ v. map node_object v.items ≡ map (λ s. s.own) (terminals (design_of design.entry.now))) }
{
    let objects = objects_of(alloc, design)?;
    let mut found = Vec::new(alloc);
    'objects: for standing in &objects {
        add_terminal(&mut found, standing)?;
    }
    Ok(found)
}
