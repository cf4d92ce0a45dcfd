ghost use Rattle.std.specs.Prelude.{◌≡◌, map};
ghost use Rattle.std.specs.List.{list_all, list_any};
ghost use Rattle.seq_tree.specs.Trees.{block_of};
ghost use Rattle.std.specs.Prelude.{option_map};
ghost use Rattle.ods_tree.specs.Trees.{provided_of};
ghost use Rattle.design_rules.specs.Bodies.{is_active};
ghost use Rattle.design_rules.specs.Clashes.{has_block};
ghost use Rattle.background_designs.specs.Clients.{is_client, is_hser, is_server};
ghost use Rattle.ods_index.specs.Walking.{object_of};

use ods_index::is_empty;
use ods_tree::{Constraint, Kind, Node, Provided};
use seq_tree::Block;

/// Whether a kind is active.
pub(crate) fn is_active(kind: Kind) -> bool
    ensures { result ≡ is_active kind }
{
    match kind {
        Kind::Active => true,
        Kind::Passive | Kind::Protected | Kind::Cyclic | Kind::Sporadic => false,
    }
}

/// Whether a constraint is that of an operation whose caller waits until it has run.
pub(crate) fn is_hser(constraint: Option<Constraint>) -> bool
    ensures { result ≡ is_hser constraint }
{
    match constraint {
        Some(Constraint::Hser) => true,
        None | Some(Constraint::Aser | Constraint::Pser | Constraint::Paer) => false,
    }
}

/// Whether there is a thread.
fn has_block(thread: &Option<Block>) -> bool
    ensures { result ≡ has_block (option_map block_of thread.now) }
{
    match thread {
        None => false,
        Some(_) => true,
    }
}

/// Whether the callers of all operations wait.
fn all_wait(provides: &[Provided]) -> bool
    ensures { result ≡ list_all (λ p. is_hser p.constraint) (map provided_of provides.now) }
{
    'ops: for provided in provides {
        if !is_hser(provided.constraint) {
            return false;
        }
    }
    true
}

/// Whether the callers of some operation wait.
pub(crate) fn any_waits(provides: &[Provided]) -> bool
    ensures { result ≡ list_any (λ p. is_hser p.constraint) (map provided_of provides.now) }
{
    'ops: for provided in provides {
        if is_hser(provided.constraint) {
            return true;
        }
    }
    false
}

/// Whether an object without children is a client.
#[tactic(auto, using(ods_index::proofs::Shared::WalkSteps::node_steps))]
pub(crate) fn is_client(node: &Node) -> bool
    ensures { result ≡ is_client (object_of node.now) }
{
    is_active(node.kind) && has_block(&node.thread) && is_empty(node.provides.as_slice())
}

/// Whether an object without children is a server.
#[tactic(auto, using(ods_index::proofs::Shared::WalkSteps::node_steps))]
pub(crate) fn is_server(node: &Node) -> bool
    ensures { result ≡ is_server (object_of node.now) }
{
    let provides = node.provides.as_slice();
    is_active(node.kind) && !has_block(&node.thread) && !is_empty(provides) && all_wait(provides)
}
