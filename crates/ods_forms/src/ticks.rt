ghost use Rattle.std.specs.Prelude.{◌≡◌, ◌<◌, None, map};
ghost use Rattle.ods_tree.specs.Ticks.{in_ticks};
ghost use Rattle.ods_tree.specs.Trees.{design_of, tree_of};
ghost use Rattle.design_rules.specs.Versions.{version_faults};
ghost use Rattle.ods_index.specs.Judging.{head_of};
ghost use Rattle.ods_forms.specs.Whole.{attribute_set, count_set, tree_set};

use crate::limits::MOST_COUNT;
use crate::versions::{microseconds, tick_time};
use ods_tree::{Attr, Design, Node, TickUnit};

/// A number of ticks, or of a unit, in ticks of this many microseconds, and the greatest number where there would be more.
fn count_set(tick: u64, value: u32, unit: Option<TickUnit>) -> u32
    requires { 0 < tick }
    ensures { result ≡ count_set tick value unit }
{
    match unit {
        None => value,
        Some(unit) => {
            let count = u64::from(value) * microseconds(unit) / tick;
            if count <= MOST_COUNT {
                count as u32
            } else {
                MOST_COUNT as u32
            }
        }
    }
}

/// Sets attributes to their ticks.
fn set_attrs(attrs: &mut [Attr], tick: u64)
    requires { 0 < tick }
    ensures { attrs.new ≡ map (attribute_set tick) attrs.old }
{
    'attrs: for place in 0..attrs.len() {
        let attr = attrs[place];
        attrs[place] = Attr {
            key: attr.key,
            value: count_set(tick, attr.value, attr.unit),
            unit: None,
        };
    }
}

/// Sets the attributes of objects, and of those inside them, to their ticks.
#[cycle(ticks)]
#[tactic(auto, using(crate::proofs::Shared::SetSteps::set_steps))]
fn set_nodes(nodes: &mut [Node], tick: u64)
    requires { 0 < tick }
    ensures { map tree_of nodes.new ≡ map (tree_set tick) (map tree_of nodes.old) }
{
    'nodes: for place in 0..nodes.len() {
        set_node(&mut nodes[place], tick);
    }
}

/// Sets the attributes of an object, and of those inside it, to their ticks.
#[cycle(ticks)]
fn set_node(node: &mut Node, tick: u64)
    requires { 0 < tick }
    ensures { tree_of node.new ≡ tree_set tick (tree_of node.old) }
{
    set_attrs(node.attrs.as_mut_slice(), tick);
    set_nodes(node.children.as_mut_slice(), tick);
}

/// Sets each time of a design to its ticks, where nothing is wrong with its version.
#[tactic(auto, using(crate::proofs::Shared::TickLaws::tick_laws))]
pub fn set_ticks(design: &mut Design)
    requires { head_of (version_faults (design_of design.old)) ≡ None }
    ensures { design_of design.new ≡ in_ticks (design_of design.old) }
{
    match design.version {
        None => {}
        Some(version) => set_node(&mut design.root, tick_time(version)),
    }
}
