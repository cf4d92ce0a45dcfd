ghost use Rattle.std.specs.Prelude.{◌≡◌, ◌∷◌, ◌++◌, [], IfOk, OnOk, map, option_map};
ghost use Rattle.seq_tree.specs.Names.{Name as NameTree};
ghost use Rattle.seq_tree.specs.Trees.{operation_of, signature_of};
ghost use Rattle.name_sets.specs.Tables.{at};
ghost use Rattle.ods_tree.specs.Flattening.{body_named, operation_by, operations, thread_by};
ghost use Rattle.ods_tree.specs.Trees.{body_of, design_of, guarded_of, library_of, provided_of, thread_of};
ghost use Rattle.ods_index.specs.Nodes.{node_object};
ghost use Rattle.ods_flat.specs.Terminals.{guarded_among, guarded_by, libraries_among, library_by, operations_among, threads_among};

use crate::blocks::resolved_block;
use crate::timings::timing;
use name_sets::OpTable;
use ods_index::{Links, attribute_or_0};
use ods_tree::{AttrKey, FlatPassive, FlatShared, FlatThread, Kind, Node, OpBody, Provided};
use seq_tree::{Datum, Name, NoMemory, OpSig, OpText};
use std::alloc::Global;

/// Equal data with equal values.
fn copy_data(alloc: Global, variables: &[Datum]) -> Result<Vec<Datum>, NoMemory>
    ensures { IfOk result (λ v. v.items ≡ variables.now) }
{
    let mut copies = Vec::new(alloc);
    'variables: for datum in variables {
        copies.push(datum.copy(alloc)?)?;
    }
    Ok(copies)
}

/// The bodies of the operations of an object: of bodies of one name the first.
fn bodies_of<'a>(
    alloc: Global,
    object: &'a Name,
    bodies: &'a [OpBody],
) -> Result<OpTable<'a, &'a OpBody>, NoMemory>
    ensures { IfOk result (λ t. (op : NameTree) → option_map (λ b. body_of b.now) (at t (record { object = object.entry.now; op = op }))
        ≡ body_named op (map body_of bodies.entry.now)) }
{
    let mut found = OpTable::new(alloc);
    'bodies: for body in bodies {
        if found.get(object, &body.name).is_none() {
            found.put(alloc, object, &body.name, body)?;
        }
    }
    Ok(found)
}

/// An operation with its body, each call in it of what it means.
fn operation<'a>(
    alloc: Global,
    links: &Links<'a>,
    sig: &OpSig,
    body: &'a OpBody,
) -> Result<OpText, NoMemory>
    ensures { IfOk result (λ o. operation_of o ≡ operation_by (design_of links.now.design.now) (signature_of sig.entry.now)
        (body_of body.entry.now)) }
{
    Ok(OpText {
        sig: sig.copy(alloc)?,
        locals: copy_data(alloc, body.locals.as_slice())?,
        block: resolved_block(alloc, links, &body.block)?,
    })
}

/// Adds an operation that an object provides, where it has a body.
fn add_operation<'a>(
    alloc: Global,
    links: &Links<'a>,
    object: &'a Name,
    bodies: &OpTable<'a, &'a OpBody>,
    provided: &'a Provided,
    into: &mut Vec<OpText>,
) -> Result<(), NoMemory>
    ensures { OnOk result (map operation_of into.new.items ≡ map operation_of into.old.items
        ++ operations_among (design_of links.now.design.now) (λ op. option_map (λ b. body_of b.now)
        (at bodies.now (record { object = object.entry.now; op = op }))) (provided_of provided.entry.now ∷ [])) }
{
    match bodies.get(object, &provided.sig.name) {
        None => Ok(()),
        Some(body) => {
            into.push(operation(alloc, links, &provided.sig, body)?)?;
            Ok(())
        }
    }
}

/// The operations that are provided and have bodies, in order of providing.
fn operations_by<'a>(
    alloc: Global,
    links: &Links<'a>,
    object: &'a Name,
    bodies: &OpTable<'a, &'a OpBody>,
    provides: &'a [Provided],
) -> Result<Vec<OpText>, NoMemory>
    ensures { IfOk result (λ v. map operation_of v.items ≡ operations_among (design_of links.now.design.now)
        (λ op. option_map (λ b. body_of b.now) (at bodies.now (record { object = object.entry.now; op = op })))
        (map provided_of provides.entry.now)) }
{
    let mut found = Vec::new(alloc);
    'provides: for provided in provides {
        add_operation(alloc, links, object, bodies, provided, &mut found)?;
    }
    Ok(found)
}

/// The operations of an object, in the order in which it provides them.
fn operations<'a>(alloc: Global, links: &Links<'a>, node: &'a Node) -> Result<Vec<OpText>, NoMemory>
    ensures { IfOk result (λ v. map operation_of v.items ≡ operations (design_of links.now.design.now) (node_object node.entry)) }
{
    let bodies = bodies_of(alloc, &node.name, node.bodies.as_slice())?;
    operations_by(alloc, links, &node.name, &bodies, node.provides.as_slice())
}

/// A passive object.
#[tactic(auto, using(ods_index::proofs::Shared::WalkSteps::node_steps))]
fn library<'a>(alloc: Global, links: &Links<'a>, node: &'a Node) -> Result<FlatPassive, NoMemory>
    ensures { IfOk result (λ l. library_of l ≡ library_by (design_of links.now.design.now) (node_object node.entry)) }
{
    Ok(FlatPassive {
        name: node.name.copy(alloc)?,
        ops: operations(alloc, links, node)?,
    })
}

/// A protected object.
#[tactic(auto, using(ods_index::proofs::Shared::WalkSteps::node_steps))]
fn guarded<'a>(alloc: Global, links: &Links<'a>, node: &'a Node) -> Result<FlatShared, NoMemory>
    ensures { IfOk result (λ g. guarded_of g ≡ guarded_by (design_of links.now.design.now) (node_object node.entry)) }
{
    Ok(FlatShared {
        name: node.name.copy(alloc)?,
        vars: copy_data(alloc, node.vars.as_slice())?,
        ops: operations(alloc, links, node)?,
    })
}

/// The thread of an object, where it has one.
#[tactic(auto, using(ods_index::proofs::Shared::WalkSteps::node_steps))]
fn thread<'a>(
    alloc: Global,
    links: &Links<'a>,
    node: &'a Node,
) -> Result<Option<FlatThread>, NoMemory>
    ensures { IfOk result (λ t. option_map thread_of t ≡ thread_by (design_of links.now.design.now) (node_object node.entry)) }
{
    let Some(timing) = timing(alloc, node)? else {
        return Ok(None);
    };
    match &node.thread {
        None => Ok(None),
        Some(block) => Ok(Some(FlatThread {
            name: node.name.copy(alloc)?,
            timing,
            deadline: attribute_or_0(node, AttrKey::Deadline),
            vars: copy_data(alloc, node.vars.as_slice())?,
            block: resolved_block(alloc, links, block)?,
        })),
    }
}

/// Adds an object where it is passive.
#[tactic(auto, using(ods_index::proofs::Shared::WalkSteps::node_steps))]
fn add_library<'a>(
    alloc: Global,
    links: &Links<'a>,
    node: &'a Node,
    into: &mut Vec<FlatPassive>,
) -> Result<(), NoMemory>
    ensures { OnOk result (map library_of into.new.items ≡ map library_of into.old.items
        ++ libraries_among (design_of links.now.design.now) (node_object node.entry ∷ [])) }
{
    match node.kind {
        Kind::Passive => {
            into.push(library(alloc, links, node)?)?;
            Ok(())
        }
        Kind::Active => Ok(()),
        Kind::Protected => Ok(()),
        Kind::Cyclic => Ok(()),
        Kind::Sporadic => Ok(()),
    }
}

/// Adds an object where it is protected.
#[tactic(auto, using(ods_index::proofs::Shared::WalkSteps::node_steps))]
fn add_guarded<'a>(
    alloc: Global,
    links: &Links<'a>,
    node: &'a Node,
    into: &mut Vec<FlatShared>,
) -> Result<(), NoMemory>
    ensures { OnOk result (map guarded_of into.new.items ≡ map guarded_of into.old.items
        ++ guarded_among (design_of links.now.design.now) (node_object node.entry ∷ [])) }
{
    match node.kind {
        Kind::Protected => {
            into.push(guarded(alloc, links, node)?)?;
            Ok(())
        }
        Kind::Passive => Ok(()),
        Kind::Active => Ok(()),
        Kind::Cyclic => Ok(()),
        Kind::Sporadic => Ok(()),
    }
}

/// Adds the thread of an object, where it has one.
fn add_thread<'a>(
    alloc: Global,
    links: &Links<'a>,
    node: &'a Node,
    into: &mut Vec<FlatThread>,
) -> Result<(), NoMemory>
    ensures { OnOk result (map thread_of into.new.items ≡ map thread_of into.old.items
        ++ threads_among (design_of links.now.design.now) (node_object node.entry ∷ [])) }
{
    match thread(alloc, links, node)? {
        None => Ok(()),
        Some(thread) => {
            into.push(thread)?;
            Ok(())
        }
    }
}

/// The passive ones among objects.
pub(crate) fn libraries<'a>(
    alloc: Global,
    links: &Links<'a>,
    objects: &[&'a Node],
) -> Result<Vec<FlatPassive>, NoMemory>
    ensures { IfOk result (λ v. map library_of v.items ≡ libraries_among (design_of links.now.design.now) (map node_object objects.entry.now)) }
{
    let mut found = Vec::new(alloc);
    'objects: for node in objects {
        add_library(alloc, links, node, &mut found)?;
    }
    Ok(found)
}

/// The protected ones among objects.
pub(crate) fn protected<'a>(
    alloc: Global,
    links: &Links<'a>,
    objects: &[&'a Node],
) -> Result<Vec<FlatShared>, NoMemory>
    ensures { IfOk result (λ v. map guarded_of v.items ≡ guarded_among (design_of links.now.design.now) (map node_object objects.entry.now)) }
{
    let mut found = Vec::new(alloc);
    'objects: for node in objects {
        add_guarded(alloc, links, node, &mut found)?;
    }
    Ok(found)
}

/// The threads of objects.
pub(crate) fn threads<'a>(
    alloc: Global,
    links: &Links<'a>,
    objects: &[&'a Node],
) -> Result<Vec<FlatThread>, NoMemory>
    ensures { IfOk result (λ v. map thread_of v.items ≡ threads_among (design_of links.now.design.now) (map node_object objects.entry.now)) }
{
    let mut found = Vec::new(alloc);
    'objects: for node in objects {
        add_thread(alloc, links, node, &mut found)?;
    }
    Ok(found)
}
