ghost use Rattle.std.specs.Prelude.{◌≡◌, Some, IfOk, OnOk, map, option_and_then, option_map, slice_get, unwrap_or};
ghost use Rattle.seq_tree.specs.Names.{Name as NameTree};
ghost use Rattle.name_sets.specs.Tables.{at};
ghost use Rattle.ods_tree.specs.Links.{inner_named, link_for, resolve, tree_named};
ghost use Rattle.ods_tree.specs.Trees.{design_of, tree_of, trees_of};
ghost use Rattle.ods_index.specs.Linked.{meaning_in};
ghost use Rattle.ods_index.specs.Scoped.{AreChildren, AreNamed, Covers, Keeps, inner_of, meaning_at, scope_trees};
ghost use Rattle.seq_cost.specs.Different.{call_of};

use crate::scopes::Scope;
use name_sets::{NameTable, OpTable, Places};
use ods_tree::{Design, Link, Node};
use seq_cost::Call;
use seq_tree::{Name, NoMemory};
use std::alloc::Global;

/// The terminal operation that an operation of an object stands for, where the object has a place and its links lead to one.
fn meaning<'a>(
    scopes: &[Scope<'a>],
    places: &Places<'a>,
    object: &Name,
    op: &'a Name,
) -> Option<Call<'a>>
    ensures { option_map call_of result ≡ meaning_at (scope_trees scopes.now) places.now object.now op.entry.now }
{
    match places.get(object) {
        None => None,
        Some(place) => match scopes.get(place) {
            None => None,
            Some(scope) => scope.get(op),
        },
    }
}

/// The place of the terminal operation that an operation of an object stands for, or of its own name where there is none.
fn meaning_place(
    scopes: &[Scope<'_>],
    names: &Places<'_>,
    places: &OpTable<'_, usize>,
    object: &Name,
    op: &Name,
) -> Option<usize>
    ensures { result ≡ at places.now (unwrap_or (meaning_at (scope_trees scopes.now) names.now object.now op.now)
        (record { object = object.now; op = op.now })) }
{
    match names.get(object) {
        None => places.get(object, op),
        Some(place) => match scopes.get(place) {
            None => places.get(object, op),
            Some(scope) => scope.place(places, object, op),
        },
    }
}

/// What links give to operations. From the last to the first, so that of two of one operation the first stays.
fn meanings_of<'a>(
    alloc: Global,
    scopes: &[Scope<'a>],
    children: &Places<'a>,
    links: &'a [Link],
) -> Result<NameTable<'a, Option<Call<'a>>>, NoMemory>
    ensures { IfOk result (λ m. (op : NameTree) → meaning_in m op
        ≡ option_and_then (λ to. meaning_at (scope_trees scopes.now) children.now to.object to.op) (link_for op links.entry.now)) }
{
    let mut meanings = NameTable::new(alloc);
    let mut place = links.len();
    'links: while place > 0 {
        place -= 1;
        let link = &links[place];
        let meant = meaning(scopes, children, &link.to.object, &link.to.op);
        meanings.put(&link.op, meant)?;
    }
    Ok(meanings)
}

/// An object with what its operations mean, by the places of its children.
fn scope_of<'a>(
    alloc: Global,
    scopes: &[Scope<'a>],
    children: &Places<'a>,
    node: &'a Node,
) -> Result<Scope<'a>, NoMemory>
    requires { AreChildren (scope_trees scopes.now) children.now (inner_of (tree_of node.now)) }
    ensures { IfOk result (λ s. s.node.now ≡ node.entry.now) }
{
    let meanings = meanings_of(alloc, scopes, children, node.links.as_slice())?;
    Ok(Scope { node, meanings })
}

/// Adds an object and those inside it, from the last to the first, so that of those of one name the first stays. The place of the
/// object.
#[cycle(scopes)]
fn add_object<'a>(
    alloc: Global,
    scopes: &mut Vec<Scope<'a>>,
    names: &mut Places<'a>,
    node: &'a Node,
) -> Result<usize, NoMemory>
    ensures kept { OnOk result (Keeps (scope_trees scopes.old.items) (scope_trees scopes.new.items)) }
    ensures placed { IfOk result (λ p. slice_get (scope_trees scopes.new.items) p ≡ Some (tree_of node.entry.now)) }
    ensures named { OnOk result
        (Covers (λ n. tree_named n (tree_of node.entry.now)) (scope_trees scopes.old.items) names.old (scope_trees scopes.new.items) names.new) }
{
    let children = add_objects(alloc, scopes, names, node.children.as_slice())?;
    let scope = scope_of(alloc, scopes.as_slice(), &children, node)?;
    let place = scopes.len();
    scopes.push(scope)?;
    names.put(&node.name, place)?;
    Ok(place)
}

/// Adds the objects beside each other and those inside them, from the last to the first. The places of their names.
#[cycle(scopes)]
fn add_objects<'a>(
    alloc: Global,
    scopes: &mut Vec<Scope<'a>>,
    names: &mut Places<'a>,
    nodes: &'a [Node],
) -> Result<Places<'a>, NoMemory>
    ensures kept { OnOk result (Keeps (scope_trees scopes.old.items) (scope_trees scopes.new.items)) }
    ensures placed { IfOk result (λ c. AreChildren (scope_trees scopes.new.items) c (trees_of (map tree_of nodes.entry.now))) }
    ensures named { OnOk result
        (Covers (λ n. inner_named n (trees_of (map tree_of nodes.entry.now))) (scope_trees scopes.old.items) names.old
        (scope_trees scopes.new.items) names.new) }
{
    let mut children = Places::new(alloc);
    let mut left = nodes.len();
    'nodes: while left > 0 {
        left -= 1;
        let node = &nodes[left];
        let place = add_object(alloc, scopes, names, node)?;
        children.put(&node.name, place)?;
    }
    Ok(children)
}

/// What calls mean: the terminal operations to which links lead, found once for each link.
#[derive(Drop)]
pub struct Links<'a> {
    pub design: &'a Design,
    scopes: Vec<Scope<'a>>,
    names: Places<'a>,
    ghost named: { AreNamed (scope_trees scopes.items) names (tree_of design.now.root) },
}

impl<'a> Links<'a> {
    /// The links of a design.
    pub fn new(alloc: Global, design: &'a Design) -> Result<Links<'a>, NoMemory>
        ensures { IfOk result (λ l. l.design.now ≡ design.entry.now) }
    {
        let mut scopes = Vec::new(alloc);
        let mut names = Places::new(alloc);
        add_object(alloc, &mut scopes, &mut names, &design.root)?;
        Ok(Links {
            design,
            scopes,
            names,
        })
    }

    /// What a call means; a name that leads nowhere means itself.
    pub fn resolve(&self, name: Call<'a>) -> Call<'a>
        ensures { call_of result ≡ resolve (design_of self.now.design.now) (call_of name.entry) }
    {
        match meaning(self.scopes.as_slice(), &self.names, name.object, name.op) {
            None => name,
            Some(meant) => meant,
        }
    }
    /// The place of what a call means, where it is that of an operation.
    pub fn place(&self, places: &OpTable<'_, usize>, object: &Name, op: &Name) -> Option<usize>
        ensures { result ≡ at places.now (resolve (design_of self.now.design.now) (record { object = object.now; op = op.now })) }
    {
        meaning_place(self.scopes.as_slice(), &self.names, places, object, op)
    }
}
