ghost use Rattle.std.specs.Prelude.{◌≡◌, IfOk, OnOk, map, true};
ghost use Rattle.std.specs.List.{list_any};
ghost use Rattle.seq_tree.specs.Operations.{is_out};
ghost use Rattle.ods_tree.specs.Trees.{design_of, provided_of, tree_of};
ghost use Rattle.ods_tree.specs.Walk.{is_empty};
ghost use Rattle.ods_index.specs.Walking.{inside};
ghost use Rattle.background_designs.specs.HardParts.{hard_part, hard_tree, longest, soft_operation, softened};
ghost use Rattle.background.specs.Hardening.{client_attributes, retyped};

use crate::clients::{is_client, is_server};
use ods_index::is_terminal;
use ods_tree::{Attr, AttrKey, Constraint, Design, Kind, Node, Provided};
use seq_tree::{Mode, NoMemory, Param, TICK_LIMIT};
use std::alloc::Global;

/// Whether a mode hands a value out.
fn is_out(mode: Mode) -> bool
    ensures { result ≡ is_out mode }
{
    match mode {
        Mode::In => false,
        Mode::Out => true,
    }
}

/// Whether some parameter hands a value out.
fn any_out(params: &[Param]) -> bool
    ensures { result ≡ list_any (λ q. is_out q.mode) params.now }
{
    'params: for param in params {
        if is_out(param.mode) {
            return true;
        }
    }
    false
}

/// The constraint of an operation whose caller waits as that of a protected one, by whether it hands values out.
fn softened(outs: bool, constraint: Option<Constraint>) -> Option<Constraint>
    ensures { result ≡ softened outs constraint }
{
    match constraint {
        Some(Constraint::Hser) => {
            if outs {
                Some(Constraint::Pser)
            } else {
                Some(Constraint::Paer)
            }
        }
        None => None,
        Some(Constraint::Aser) => Some(Constraint::Aser),
        Some(Constraint::Pser) => Some(Constraint::Pser),
        Some(Constraint::Paer) => Some(Constraint::Paer),
    }
}

/// Makes an operation whose caller waits a protected one.
fn soften(provided: &mut Provided)
    ensures { provided_of provided.new ≡ soft_operation (provided_of provided.old) }
{
    let outs = any_out(provided.sig.params.as_slice());
    provided.constraint = softened(outs, provided.constraint);
}

/// Makes operations whose callers wait protected ones.
#[tactic(auto, using(ods_forms::proofs::Shared::SetSteps::set_steps))]
fn soften_all(provides: &mut [Provided])
    ensures { map provided_of provides.new ≡ map soft_operation (map provided_of provides.old) }
{
    'provides: for place in 0..provides.len() {
        soften(&mut provides[place]);
    }
}

/// An attribute of the longest time, in ticks.
fn longest(key: AttrKey) -> Attr
    ensures { result ≡ longest key }
{
    Attr {
        key,
        value: TICK_LIMIT,
        unit: None,
    }
}

/// The attributes of a client as a cyclic object.
fn client_attributes(alloc: Global) -> Result<Vec<Attr>, NoMemory>
    ensures { IfOk result (λ v. v.items ≡ client_attributes) }
{
    let mut attrs = Vec::new(alloc);
    attrs.push(longest(AttrKey::Period))?;
    attrs.push(longest(AttrKey::Deadline))?;
    attrs.push(longest(AttrKey::ThreadBudget))?;
    Ok(attrs)
}

/// Gives an object without children its kind and attributes as a hard one.
fn retype(alloc: Global, node: &mut Node) -> Result<(), NoMemory>
    ensures { OnOk result (tree_of node.new ≡ retyped (tree_of node.old)) }
{
    if !is_terminal(node) {
        return Ok(());
    }
    if is_client(node) {
        node.kind = Kind::Cyclic;
        node.attrs = client_attributes(alloc)?;
    } else if is_server(node) {
        node.kind = Kind::Protected;
    }
    Ok(())
}

/// Makes an object without children a hard one.
fn harden_terminal(alloc: Global, node: &mut Node) -> Result<(), NoMemory>
    requires { is_empty (inside (tree_of node.old)) ≡ true }
    ensures { OnOk result (tree_of node.new ≡ hard_tree (tree_of node.old)) }
{
    retype(alloc, node)?;
    soften_all(node.provides.as_mut_slice());
    Ok(())
}

/// Makes an object and those inside it hard ones.
#[cycle(hardening)]
fn harden_node(alloc: Global, node: &mut Node) -> Result<(), NoMemory>
    ensures { OnOk result (tree_of node.new ≡ hard_tree (tree_of node.old)) }
{
    if is_terminal(node) {
        return harden_terminal(alloc, node);
    }
    soften_all(node.provides.as_mut_slice());
    harden_nodes(alloc, node.children.as_mut_slice())?;
    Ok(())
}

/// Makes objects beside each other, and those inside them, hard ones.
#[cycle(hardening)]
#[tactic(auto, using(ods_forms::proofs::Shared::SetSteps::set_steps))]
fn harden_nodes(alloc: Global, nodes: &mut [Node]) -> Result<(), NoMemory>
    ensures { OnOk result (map tree_of nodes.new ≡ map hard_tree (map tree_of nodes.old)) }
{
    'nodes: for place in 0..nodes.len() {
        harden_node(alloc, &mut nodes[place])?;
    }
    Ok(())
}

/// Makes the hard part of a design in ticks, in its place. After `NoMemory` the design may be hard in part.
pub(crate) fn harden(alloc: Global, design: &mut Design) -> Result<(), NoMemory>
    ensures { OnOk result (design_of design.new ≡ hard_part (design_of design.old)) }
{
    harden_node(alloc, &mut design.root)
}
