ghost use Rattle.std.specs.Prelude.{◌≡◌, filter, find, length, option_map};
ghost use Rattle.ods_tree.specs.Attributes.{attribute_count, attribute_or, has_key, key_place};
ghost use Rattle.ods_index.specs.Walking.{object_of};

use ods_tree::{Attr, AttrKey, Node};

/// The place of a key among the keys.
fn key_place(key: AttrKey) -> u8
    ensures { result ≡ key_place key }
{
    match key {
        AttrKey::Period => 0,
        AttrKey::Offset => 1,
        AttrKey::Separation => 2,
        AttrKey::Deadline => 3,
        AttrKey::ThreadBudget => 4,
        AttrKey::ArrivalJitter => 5,
    }
}

/// The number of attributes that state this.
fn count(attrs: &[Attr], key: AttrKey) -> usize
    ensures { result ≡ length (filter (has_key key) attrs.now) }
{
    let mut count = 0;
    'attrs: for attr in attrs {
        if key_place(attr.key) == key_place(key) {
            count += 1;
        }
    }
    count
}

/// The value of the first attribute that states this, where there is one.
pub fn attribute(attrs: &[Attr], key: AttrKey) -> Option<u32>
    ensures { result ≡ option_map (λ a. a.value) (find (has_key key) attrs.now) }
{
    'attrs: for attr in attrs {
        if key_place(attr.key) == key_place(key) {
            return Some(attr.value);
        }
    }
    None
}

/// The number of attributes of an object that state this.
#[tactic(auto, using(crate::proofs::Shared::WalkSteps::node_steps))]
pub fn attribute_count(node: &Node, key: AttrKey) -> usize
    ensures { result ≡ attribute_count key (object_of node.now) }
{
    count(node.attrs.as_slice(), key)
}

/// The value of the first attribute of an object that states this, and 0 where there is none.
#[tactic(auto, using(crate::proofs::Shared::WalkSteps::node_steps))]
pub fn attribute_or_0(node: &Node, key: AttrKey) -> u32
    ensures { result ≡ attribute_or 0 key (object_of node.now) }
{
    attribute(node.attrs.as_slice(), key).unwrap_or(0)
}
