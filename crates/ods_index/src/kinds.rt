ghost use Rattle.std.specs.Prelude.{◌≡◌, ◌&&◌};
ghost use Rattle.ods_tree.specs.Trees.{tree_of};
ghost use Rattle.ods_tree.specs.Walk.{is_empty, is_terminal};
ghost use Rattle.design_rules.specs.Bodies.{is_active};
ghost use Rattle.design_rules.specs.Includes.{kind_place};
ghost use Rattle.design_rules.specs.Lookups.{has_thread, is_sporadic};
ghost use Rattle.ods_tree.specs.Flattening.{is_passive, is_protected};
ghost use Rattle.ods_index.specs.Walking.{inside, standing_of};

use crate::walk::Standing;
use ods_tree::{Kind, Node};

/// The place of a kind among the kinds.
pub fn kind_place(kind: Kind) -> u8
    ensures { result ≡ kind_place kind }
{
    match kind {
        Kind::Passive => 0,
        Kind::Active => 1,
        Kind::Protected => 2,
        Kind::Cyclic => 3,
        Kind::Sporadic => 4,
    }
}

/// Whether an object of this kind has a thread, where it has no children.
pub fn has_thread(kind: Kind) -> bool
    ensures { result ≡ has_thread kind }
{
    match kind {
        Kind::Cyclic | Kind::Sporadic => true,
        Kind::Passive | Kind::Active | Kind::Protected => false,
    }
}

/// Whether a kind is sporadic.
pub fn is_sporadic(kind: Kind) -> bool
    ensures { result ≡ is_sporadic kind }
{
    match kind {
        Kind::Sporadic => true,
        Kind::Passive | Kind::Active | Kind::Protected | Kind::Cyclic => false,
    }
}

/// Whether a kind is passive.
pub fn is_passive(kind: Kind) -> bool
    ensures { result ≡ is_passive kind }
{
    match kind {
        Kind::Passive => true,
        Kind::Sporadic | Kind::Active | Kind::Protected | Kind::Cyclic => false,
    }
}

/// Whether a kind is active.
fn is_active(kind: Kind) -> bool
    ensures { result ≡ is_active kind }
{
    match kind {
        Kind::Active => true,
        Kind::Sporadic | Kind::Passive | Kind::Protected | Kind::Cyclic => false,
    }
}

/// Whether there is nothing in a list.
pub fn is_empty<T>(items: &[T]) -> bool
    ensures { result ≡ is_empty items.now }
{
    match items.first() {
        None => true,
        Some(_) => false,
    }
}

/// Whether a kind is protected.
pub fn is_protected(kind: Kind) -> bool
    ensures { result ≡ is_protected kind }
{
    match kind {
        Kind::Protected => true,
        Kind::Passive | Kind::Active | Kind::Cyclic | Kind::Sporadic => false,
    }
}

/// Whether an object has no children.
#[tactic(auto, using(crate::proofs::Shared::WalkSteps::node_steps))]
pub fn is_terminal(node: &Node) -> bool
    ensures { result ≡ is_empty (inside (tree_of node.now)) }
{
    match node.children.as_slice().first() {
        None => true,
        Some(_) => false,
    }
}

/// Whether an object is active and has no children.
#[tactic(auto, using(crate::proofs::Shared::WalkSteps::node_steps))]
pub fn is_idle_active(standing: &Standing<'_>) -> bool
    ensures { result ≡ (is_terminal (standing_of standing.entry.now) && is_active (standing_of standing.entry.now).own.kind) }
{
    is_terminal(standing.node) && is_active(standing.node.kind)
}
