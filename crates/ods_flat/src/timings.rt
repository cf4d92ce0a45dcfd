ghost use Rattle.std.specs.Prelude.{◌≡◌, IfOk, option_map};
ghost use Rattle.seq_tree.specs.Trees.{signature_of};
ghost use Rattle.ods_tree.specs.Flattening.{request_op, timing_by};
ghost use Rattle.ods_tree.specs.Trees.{timing_of};
ghost use Rattle.ods_tree.specs.declared.design.Kind.TheVariants.{Sporadic};
ghost use Rattle.ods_index.specs.Nodes.{node_object};

use ods_index::{attribute, attribute_or_0};
use ods_tree::{AttrKey, Kind, Node, Timing};
use seq_tree::{NoMemory, OpSig};
use std::alloc::Global;

/// The operation by which a sporadic object is requested, where it provides one.
#[tactic(auto, using(ods_index::proofs::Shared::WalkSteps::node_steps))]
fn request_op<'a>(node: &'a Node) -> Option<&'a OpSig>
    ensures { option_map (λ s. signature_of s.now) result ≡ request_op (node_object node.entry).provides }
{
    match node.provides.as_slice().first() {
        None => None,
        Some(provided) => Some(&provided.sig),
    }
}

/// When a thread is released at requests, where its object provides an operation.
#[tactic(auto, using(ods_index::proofs::Shared::WalkSteps::node_steps))]
fn sporadic<'a>(alloc: Global, node: &'a Node) -> Result<Option<Timing>, NoMemory>
    ensures { IfOk result (λ t. option_map timing_of t ≡ timing_by Sporadic (node_object node.entry)) }
{
    match request_op(node) {
        None => Ok(None),
        Some(sig) => {
            let op = sig.copy(alloc)?;
            let separation = attribute_or_0(node, AttrKey::Separation);
            let jitter = attribute(node.attrs.as_slice(), AttrKey::ArrivalJitter);
            Ok(Some(Timing::Sporadic {
                op,
                separation,
                jitter,
            }))
        }
    }
}

/// When the thread of an object is released, where it can be.
#[tactic(auto, using(ods_index::proofs::Shared::WalkSteps::node_steps))]
pub(crate) fn timing<'a>(alloc: Global, node: &'a Node) -> Result<Option<Timing>, NoMemory>
    ensures { IfOk result (λ t. option_map timing_of t ≡ timing_by (node_object node.entry).kind (node_object node.entry)) }
{
    match node.kind {
        Kind::Cyclic => {
            let period = attribute_or_0(node, AttrKey::Period);
            let offset = attribute_or_0(node, AttrKey::Offset);
            Ok(Some(Timing::Cyclic { period, offset }))
        }
        Kind::Sporadic => sporadic(alloc, node),
        Kind::Passive | Kind::Active | Kind::Protected => Ok(None),
    }
}
