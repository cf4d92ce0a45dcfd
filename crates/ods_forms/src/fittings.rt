ghost use Rattle.std.specs.Prelude.{◌≡◌, ◌==◌, ◌&&◌, IfOk, find, map, not, option_and_then, option_map, slice_get};
ghost use Rattle.std.specs.List.{list_any};
ghost use Rattle.seq_tree.specs.Names.{Name as NameTree, same_name};
ghost use Rattle.seq_tree.specs.Operations.{is_out};
ghost use Rattle.seq_tree.specs.Trees.{block_of};
ghost use Rattle.name_sets.specs.Places.{place_in};
ghost use Rattle.ods_tree.specs.Trees.{body_of, design_of, provided_of};
ghost use Rattle.ods_tree.specs.Flattening.{is_passive};
ghost use Rattle.ods_tree.specs.Walk.{is_empty, is_terminal};
ghost use Rattle.design_rules.specs.Clashes.{has_block, is_aser};
ghost use Rattle.design_rules.specs.Fittings.{agrees, bad_fittings, body_count, child_operation, constraint_place, is_provided};
ghost use Rattle.design_rules.specs.Fittings.{link_count, misfits, misfits_parent, misfits_terminal, same_mode, same_params, wanted_bodies};
ghost use Rattle.design_rules.specs.Lookups.{has_thread, provided_named};
ghost use Rattle.ods_forms.specs.Counts.{count_in};
ghost use Rattle.ods_forms.specs.Families.{IsFamily};
ghost use Rattle.ods_index.specs.Indexing.{IsIndex};
ghost use Rattle.ods_index.specs.Judging.{Tells, head_of};
ghost use Rattle.name_sets.specs.FirstPlaces.{place_from};
ghost use Rattle.ods_index.specs.Walking.{object_of, standing_of};

use crate::counts::{Counts, body_counts, link_counts};
use crate::operations::is_out;
use name_sets::Places;
use ods_index::{
    Broken, Index, ProvidedOps, Standing, has_thread, is_empty, is_passive, is_sporadic,
    is_terminal,
};
use ods_tree::{Constraint, Link, Node, OpBody, Provided};
use seq_tree::{Block, Name, NoMemory, OpName, Param};
use std::alloc::Global;

/// Whether a constraint is that of a request.
fn is_aser(constraint: Option<Constraint>) -> bool
    ensures { result ≡ is_aser constraint }
{
    match constraint {
        None => false,
        Some(Constraint::Aser) => true,
        Some(Constraint::Hser | Constraint::Pser | Constraint::Paer) => false,
    }
}

/// The number of bodies that an operation must have.
#[tactic(auto, using(ods_index::proofs::Shared::WalkSteps::node_steps))]
fn wanted_bodies(node: &Node, provided: &Provided) -> usize
    ensures { result ≡ wanted_bodies (object_of node.now) (provided_of provided.now) }
{
    let sporadic = is_sporadic(node.kind);
    let aser = is_aser(provided.constraint);
    if sporadic && aser { 0 } else { 1 }
}

/// Whether some operation has not as many bodies as it must.
fn any_unbodied(node: &Node, provides: &[Provided], counts: &Counts<'_>) -> bool
    requires { (n : NameTree) → count_in counts.now n ≡ body_count (object_of node.now) n }
    ensures { result ≡ list_any (λ p. not (body_count (object_of node.now) p.sig.name == wanted_bodies (object_of node.now) p))
        (map provided_of provides.now) }
{
    'ops: for provided in provides {
        if counts.get(&provided.sig.name) != wanted_bodies(node, provided) {
            return true;
        }
    }
    false
}

/// Whether some body is that of no operation.
fn any_stray(bodies: &[OpBody], table: &ProvidedOps<'_>) -> bool
    ensures { result ≡ list_any (λ b. not (is_provided (provided_named b.name (map provided_of table.entry.now.provides.now))))
        (map body_of bodies.now) }
{
    'bodies: for body in bodies {
        match table.find(&body.name) {
            None => return true,
            Some(_) => {}
        }
    }
    false
}

/// Whether a thread is there.
fn has_block(thread: &Option<Block>) -> bool
    ensures { result ≡ has_block (option_map block_of thread.now) }
{
    match thread {
        None => false,
        Some(_) => true,
    }
}

/// Whether a terminal object that must have a thread has none.
#[tactic(auto, using(ods_index::proofs::Shared::WalkSteps::node_steps))]
fn lacks_thread(node: &Node) -> bool
    ensures { result ≡ (has_thread (object_of node.now).kind && not (has_block (object_of node.now).thread)) }
{
    has_thread(node.kind) && !has_block(&node.thread)
}

/// Whether a terminal object that may have no thread has one.
#[tactic(auto, using(ods_index::proofs::Shared::WalkSteps::node_steps))]
fn has_stray_thread(node: &Node) -> bool
    ensures { result ≡ (not (has_thread (object_of node.now).kind) && has_block (object_of node.now).thread) }
{
    !has_thread(node.kind) && has_block(&node.thread)
}

/// Whether a passive object has data.
#[tactic(auto, using(ods_index::proofs::Shared::WalkSteps::node_steps))]
fn has_stray_data(node: &Node) -> bool
    ensures { result ≡ (is_passive (object_of node.now).kind && not (is_empty (object_of node.now).vars)) }
{
    is_passive(node.kind) && !is_empty(node.vars.as_slice())
}

/// Whether the parts of a terminal object don't fit.
#[tactic(auto, using(ods_index::proofs::Shared::WalkSteps::node_steps))]
fn misfits_terminal(alloc: Global, node: &Node) -> Result<bool, NoMemory>
    ensures { IfOk result (λ b. b ≡ misfits_terminal (object_of node.now)) }
{
    let provides = node.provides.as_slice();
    let counts = body_counts(alloc, node.bodies.as_slice())?;
    let unbodied = any_unbodied(node, provides, &counts);
    let table = ProvidedOps::new(alloc, provides)?;
    let stray = any_stray(node.bodies.as_slice(), &table);
    let lacks = lacks_thread(node);
    let idle = has_stray_thread(node);
    let data = has_stray_data(node);
    let linked = !is_empty(node.links.as_slice());
    Ok(unbodied || stray || lacks || idle || data || linked)
}

/// A constraint's place, or 0 where there is none.
fn constraint_place(constraint: Option<Constraint>) -> u8
    ensures { result ≡ constraint_place constraint }
{
    match constraint {
        None => 0,
        Some(Constraint::Aser) => 1,
        Some(Constraint::Hser) => 2,
        Some(Constraint::Pser) => 3,
        Some(Constraint::Paer) => 4,
    }
}

/// Whether two parameters agree in name and mode.
fn same_param(p: &Param, q: &Param) -> bool
    ensures { result ≡ (same_name p.now.name q.now.name && same_mode (is_out p.now.mode) (is_out q.now.mode)) }
{
    let name = p.name.same(&q.name);
    let one = is_out(p.mode);
    let other = is_out(q.mode);
    name && (if one { other } else { !other })
}

/// Whether parameters agree in number, names and modes.
fn same_params(ps: &[Param], qs: &[Param]) -> bool
    ensures { result ≡ same_params ps.now qs.now }
{
    let mut left = ps;
    let mut right = qs;
    'params: while let Some((p, more)) = left.split_first() {
        let Some((q, others)) = right.split_first() else {
            return false;
        };
        if !same_param(p, q) {
            return false;
        }
        left = more;
        right = others;
    }
    is_empty(right)
}

/// Whether two operations are there and agree.
fn agrees(one: Option<&Provided>, other: Option<&Provided>) -> bool
    ensures { result ≡ agrees (option_map (λ p. provided_of p.now) one.entry) (option_map (λ p. provided_of p.now) other.entry) }
{
    match (one, other) {
        (Some(p), Some(q)) => {
            let constraint = constraint_place(p.constraint) == constraint_place(q.constraint);
            constraint && same_params(p.sig.params.as_slice(), q.sig.params.as_slice())
        }
        _ => false,
    }
}

/// The children of an object, with tables of their names and of their operations.
#[derive(Drop)]
struct Family<'a> {
    children: &'a [Node],
    places: Places<'a>,
    ops: Vec<ProvidedOps<'a>>,
}

impl<'a> Family<'a> {
    /// A table of the names of children. From the last to the first, so that of two with one name the first stays.
    fn places_of(alloc: Global, children: &'a [Node]) -> Result<Places<'a>, NoMemory>
        ensures { IfOk result (λ t. (n : NameTree) → place_in t n ≡ place_from 0 n (map (λ c. (object_of c).name) children.entry.now)) }
    {
        let mut places = Places::new(alloc);
        let mut place = children.len();
        'children: while place > 0 {
            place -= 1;
            places.put(&children[place].name, place)?;
        }
        Ok(places)
    }

    /// Tables of the operations of children.
    fn ops_of(alloc: Global, children: &'a [Node]) -> Result<Vec<ProvidedOps<'a>>, NoMemory>
        ensures { IfOk result (λ v. map (λ t. map provided_of t.provides.now) v.items ≡ map (λ c. (object_of c).provides) children.entry.now) }
    {
        let mut ops = Vec::new(alloc);
        'children: for child in children {
            ops.push(ProvidedOps::new(alloc, child.provides.as_slice())?)?;
        }
        Ok(ops)
    }

    /// These children with their tables.
    fn new(alloc: Global, children: &'a [Node]) -> Result<Family<'a>, NoMemory>
        ensures told { IfOk result IsFamily }
        ensures same { IfOk result (λ f. f.children.now ≡ children.entry.now) }
    {
        let places = Family::places_of(alloc, children)?;
        let ops = Family::ops_of(alloc, children)?;
        Ok(Family {
            children,
            places,
            ops,
        })
    }

    /// The place of the first child of a name, where there is one.
    fn place(&self, name: &Name) -> Option<usize>
        requires { IsFamily self.now }
        ensures { option_and_then (slice_get (map object_of self.now.children.now)) result
            ≡ find (λ c. same_name c.name name.now) (map object_of self.now.children.now) }
    {
        self.places.get(name)
    }

    /// The first operation of a name that the child at a place provides, where there is one.
    fn provided(&self, place: usize, op: &Name) -> Option<&'a Provided>
        requires { IsFamily self.now }
        ensures { option_map (λ p. provided_of p.now) result
            ≡ option_and_then (λ c. provided_named op.now c.provides) (slice_get (map object_of self.now.children.now) place) }
    {
        match self.ops.get(place) {
            None => None,
            Some(ops) => ops.find(op),
        }
    }

    /// The operation of a child, where it is there.
    fn operation(&self, to: &OpName) -> Option<&'a Provided>
        requires { IsFamily self.now }
        ensures { option_map (λ p. provided_of p.now) result ≡ child_operation (map object_of self.now.children.now) to.now }
    {
        match self.place(&to.object) {
            None => None,
            Some(place) => self.provided(place, &to.op),
        }
    }
}

/// Whether some operation has not one link.
fn any_unlinked(provides: &[Provided], node: &Node, counts: &Counts<'_>) -> bool
    requires { (n : NameTree) → count_in counts.now n ≡ link_count (object_of node.now) n }
    ensures { result ≡ list_any (λ p. not (link_count (object_of node.now) p.sig.name == 1)) (map provided_of provides.now) }
{
    'ops: for provided in provides {
        if counts.get(&provided.sig.name) != 1 {
            return true;
        }
    }
    false
}

/// Whether some link stands for no operation of the object, or for one by none of a child that agrees.
fn any_unfit_link(links: &[Link], table: &ProvidedOps<'_>, family: &Family<'_>) -> bool
    requires { IsFamily family.now }
    ensures { result ≡ list_any (λ l. not (agrees (provided_named l.op (map provided_of table.entry.now.provides.now))
        (child_operation (map object_of family.entry.now.children.now) l.to))) links.now }
{
    'links: for link in links {
        if !agrees(table.find(&link.op), family.operation(&link.to)) {
            return true;
        }
    }
    false
}

/// Whether the parts of an object with children don't fit.
#[tactic(auto, using(ods_index::proofs::Shared::WalkSteps::node_steps))]
fn misfits_parent(alloc: Global, standing: &Standing<'_>) -> Result<bool, NoMemory>
    ensures { IfOk result (λ b. b ≡ misfits_parent (standing_of standing.entry.now)) }
{
    let node = standing.node;
    let provides = node.provides.as_slice();
    let links = node.links.as_slice();
    let counts = link_counts(alloc, links)?;
    let unlinked = any_unlinked(provides, node, &counts);
    let table = ProvidedOps::new(alloc, provides)?;
    let family = Family::new(alloc, node.children.as_slice())?;
    let unfit = any_unfit_link(links, &table, &family);
    let threaded = has_block(&node.thread);
    let data = !is_empty(node.vars.as_slice());
    let bodied = !is_empty(node.bodies.as_slice());
    Ok(threaded || data || bodied || unlinked || unfit)
}

/// Whether the parts of an object don't fit.
fn misfits(alloc: Global, standing: &Standing<'_>) -> Result<bool, NoMemory>
    ensures { IfOk result (λ b. b ≡ misfits (is_terminal (standing_of standing.entry.now)) (standing_of standing.entry.now)) }
{
    if is_terminal(standing.node) {
        misfits_terminal(alloc, standing.node)
    } else {
        misfits_parent(alloc, standing)
    }
}

/// V05: tells the first object whose parts don't fit.
pub fn first_bad_fitting(alloc: Global, index: &Index<'_>) -> Result<(), Broken>
    requires { IsIndex index.now }
    ensures { Tells result (head_of (bad_fittings (design_of index.entry.now.design.now))) }
{
    let objects = index.objects.as_slice();
    'objects: for standing in objects {
        if misfits(alloc, standing)? {
            let object = standing.node.name.copy(alloc)?;
            return Err(Broken::V05 { object });
        }
    }
    Ok(())
}
