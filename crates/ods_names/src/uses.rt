ghost use Rattle.std.specs.Prelude.{◌≡◌, ◌&&◌, ◌||◌, false, Some, None, IfOk, find, flat_map, map, not, option_map};
ghost use Rattle.std.specs.List.{list_any};
ghost use Rattle.seq_tree.specs.Names.{Name as NameTree, same_name};
ghost use Rattle.name_sets.specs.Sets.{has};
ghost use Rattle.ods_tree.specs.Trees.{design_of, provided_of, tree_of};
ghost use Rattle.ods_tree.specs.Walk.{standings};
ghost use Rattle.ods_tree.specs.declared.design.Node.{out-Node};
ghost use Rattle.design_rules.specs.Uses.{absent, forbidden, is_forbidden, is_there, may_call, strangers};
ghost use Rattle.ods_index.specs.Indexing.{IsIndex};
ghost use Rattle.ods_index.specs.Judging.{Tells, head_of};
ghost use Rattle.ods_names.specs.Needs.{IsNear, bad_needs, breaks, told_by};
ghost use Rattle.ods_index.specs.Told.{told_of, is_memory};
ghost use Rattle.ods_index.specs.Walking.{object_of, parent_of, siblings_of, standing_of};

use name_sets::Names;
use ods_index::{Broken, Index, Standing};
use ods_tree::{Constraint, Kind, Node, Provided};
use seq_tree::{Name, NoMemory, OpName};
use std::alloc::Global;

/// A rule on required operations.
#[derive(Clone, Copy)]
enum Rule {
    /// The operation is that of a sibling or an uncle.
    Near,
    /// The operation is there.
    There,
    /// The kind of the object may call it.
    Allowed,
}

/// The names of the objects near an object: of the children of its parent, and of the objects whose operations its parent requires.
#[derive(Drop)]
struct Near<'a> {
    siblings: Names<'a>,
    uncles: Names<'a>,
}

/// The names of objects.
fn object_names<'a>(alloc: Global, nodes: &'a [Node]) -> Result<Names<'a>, NoMemory>
    ensures { IfOk result (λ v. (n : NameTree) → has v n ≡ list_any (λ o. same_name o.name n) (map object_of nodes.entry.now)) }
{
    let mut names = Names::new(alloc);
    'nodes: for node in nodes {
        names.add(&node.name)?;
    }
    Ok(names)
}

/// The names of the objects of operations.
fn target_names<'a>(alloc: Global, needs: &'a [OpName]) -> Result<Names<'a>, NoMemory>
    ensures { IfOk result (λ v. (n : NameTree) → has v n ≡ list_any (λ m. same_name m.object n) needs.entry.now) }
{
    let mut names = Names::new(alloc);
    'needs: for need in needs {
        names.add(&need.object)?;
    }
    Ok(names)
}

/// The names near the children of an object.
fn near_inside<'a>(alloc: Global, node: &'a Node) -> Result<Near<'a>, NoMemory>
    ensures { IfOk result (λ near. IsNear near (Some (object_of node.entry.now)) (map object_of (out-Node node.entry.now).children.items)) }
{
    let siblings = object_names(alloc, node.children.as_slice())?;
    let uncles = target_names(alloc, node.needs.as_slice())?;
    Ok(Near { siblings, uncles })
}

/// The names near an object that has no parent: its own.
fn near_root<'a>(alloc: Global, node: &'a Node) -> Result<Near<'a>, NoMemory>
    ensures { IfOk result (λ near. IsNear near None (siblings_of (object_of node.entry.now) None)) }
{
    let mut siblings = Names::new(alloc);
    siblings.add(&node.name)?;
    Ok(Near {
        siblings,
        uncles: Names::new(alloc),
    })
}

/// Whether two names are one.
fn same_name(a: &Name, b: &Name) -> bool
    ensures { result ≡ same_name a.now b.now }
{
    a.bytes() == b.bytes()
}

/// Whether an object of this name is near, where the object is not it.
fn is_near(near: &Near<'_>, own: &Name, name: &Name) -> bool
    ensures { result ≡ ((not (same_name own.now name.now) && has near.entry.now.siblings name.now) || has near.entry.now.uncles name.now) }
{
    (!same_name(own, name) && near.siblings.has(name)) || near.uncles.has(name)
}

/// Whether an object of a kind may call an operation of a constraint.
fn may_call(kind: Kind, constraint: Option<Constraint>) -> bool
    ensures { result ≡ may_call kind constraint }
{
    match constraint {
        None => true,
        Some(Constraint::Hser) => match kind {
            Kind::Active => true,
            Kind::Passive | Kind::Protected | Kind::Cyclic | Kind::Sporadic => false,
        },
        Some(Constraint::Aser | Constraint::Pser | Constraint::Paer) => match kind {
            Kind::Passive => false,
            Kind::Active | Kind::Protected | Kind::Cyclic | Kind::Sporadic => true,
        },
    }
}

/// Whether an operation is there.
fn is_there(operation: Option<&Provided>) -> bool
    ensures { result ≡ is_there (option_map (λ p. provided_of p.now) operation.entry) }
{
    match operation {
        None => false,
        Some(_) => true,
    }
}

/// Whether an operation is there and an object of a kind may not call it.
fn is_forbidden(kind: Kind, operation: Option<&Provided>) -> bool
    ensures { result ≡ is_forbidden kind (option_map (λ p. provided_of p.now) operation.entry) }
{
    match operation {
        None => false,
        Some(provided) => !may_call(kind, provided.constraint),
    }
}

/// Whether an operation that an object requires breaks a rule.
fn breaks(
    index: &Index<'_>,
    rule: Rule,
    standing: &Standing<'_>,
    near: &Near<'_>,
    need: &OpName,
) -> bool
    requires indexed { IsIndex index.now }
    requires near { IsNear near.now (standing_of standing.now).parent (standing_of standing.now).siblings }
    ensures { result ≡ breaks rule (design_of index.entry.now.design.now) (standing_of standing.entry.now) need.now }
{
    match rule {
        Rule::Near => !is_near(near, &standing.node.name, &need.object),
        Rule::There => !is_there(index.operation(need)),
        Rule::Allowed => is_forbidden(standing.node.kind, index.operation(need)),
    }
}

/// The first operation that an object requires and that breaks a rule.
fn first_breaking<'a>(
    index: &Index<'_>,
    rule: Rule,
    standing: &Standing<'a>,
    near: &Near<'_>,
) -> Option<&'a OpName>
    requires indexed { IsIndex index.now }
    requires near { IsNear near.now (standing_of standing.now).parent (standing_of standing.now).siblings }
    ensures { option_map (λ n. n.now) result ≡ find (breaks rule (design_of index.entry.now.design.now) (standing_of standing.entry.now))
        (standing_of standing.entry.now).own.needs }
{
    'needs: for need in &standing.node.needs {
        if breaks(index, rule, standing, near, need) {
            return Some(need);
        }
    }
    None
}

/// What is told of an operation that breaks a rule.
fn told(alloc: Global, rule: Rule, object: &Name, target: &OpName) -> Result<Broken, NoMemory>
    ensures told { IfOk result (λ b. told_of b ≡ Some (told_by rule object.now target.now)) }
    ensures ample { IfOk result (λ b. is_memory b ≡ false) }
{
    let object = object.copy(alloc)?;
    let target = OpName {
        object: target.object.copy(alloc)?,
        op: target.op.copy(alloc)?,
    };
    Ok(match rule {
        Rule::Near => Broken::V06 { object, target },
        Rule::There => Broken::V07 { object, target },
        Rule::Allowed => Broken::V08 { object, target },
    })
}

/// Tells an operation that breaks a rule, where there is one.
fn tell(alloc: Global, rule: Rule, object: &Name, target: Option<&OpName>) -> Result<(), Broken>
    ensures { Tells result (option_map (told_by rule object.now) (option_map (λ n. n.now) target.entry)) }
{
    match target {
        None => Ok(()),
        Some(target) => Err(told(alloc, rule, object, target)?),
    }
}

/// Tells the first operation that an object requires and that breaks a rule.
fn judge_object(
    alloc: Global,
    index: &Index<'_>,
    rule: Rule,
    standing: &Standing<'_>,
    near: &Near<'_>,
) -> Result<(), Broken>
    requires indexed { IsIndex index.now }
    requires near { IsNear near.now (standing_of standing.now).parent (standing_of standing.now).siblings }
    ensures { Tells result (head_of (bad_needs rule (design_of index.entry.now.design.now) (standing_of standing.entry.now))) }
{
    let target = first_breaking(index, rule, standing, near);
    tell(alloc, rule, &standing.node.name, target)
}

/// Tells the first operation that breaks a rule where an object or one inside it requires it.
#[cycle(uses)]
#[tactic(auto, using(ods_index::proofs::Shared::TellSteps::tell_steps))]
fn judge_tree<'a>(
    alloc: Global,
    index: &Index<'_>,
    rule: Rule,
    near: &Near<'_>,
    node: &'a Node,
    parent: Option<&'a Node>,
    siblings: Option<&'a [Node]>,
) -> Result<(), Broken>
    requires indexed { IsIndex index.now }
    requires near { IsNear near.now (parent_of parent) (siblings_of (object_of node.now) siblings) }
    ensures { Tells result (head_of (flat_map (bad_needs rule (design_of index.entry.now.design.now))
        (standings (parent_of parent.entry) (siblings_of (object_of node.entry.now) siblings.entry) (tree_of node.entry.now)))) }
{
    let standing = Standing {
        node,
        parent,
        siblings,
    };
    judge_object(alloc, index, rule, &standing, near)?;
    let inside = near_inside(alloc, node)?;
    'children: for child in &node.children {
        judge_tree(
            alloc,
            index,
            rule,
            &inside,
            child,
            Some(node),
            Some(node.children.as_slice()),
        )?;
    }
    Ok(())
}

/// Tells the first operation that breaks a rule where some object requires it.
fn judge(alloc: Global, index: &Index<'_>, rule: Rule) -> Result<(), Broken>
    requires { IsIndex index.now }
    ensures { Tells result (head_of (flat_map (bad_needs rule (design_of index.entry.now.design.now))
        (standings None (siblings_of (object_of index.entry.now.design.now.root) None) (tree_of index.entry.now.design.now.root)))) }
{
    let root = &index.design.root;
    let near = near_root(alloc, root)?;
    judge_tree(alloc, index, rule, &near, root, None, None)
}

/// V06: tells the first object that requires an operation of an object that is neither sibling nor uncle.
pub fn first_stranger(alloc: Global, index: &Index<'_>) -> Result<(), Broken>
    requires { IsIndex index.now }
    ensures { Tells result (head_of (strangers (design_of index.entry.now.design.now))) }
{
    judge(alloc, index, Rule::Near)
}

/// V07: tells the first object that requires an operation that isn't there.
pub fn first_absent(alloc: Global, index: &Index<'_>) -> Result<(), Broken>
    requires { IsIndex index.now }
    ensures { Tells result (head_of (absent (design_of index.entry.now.design.now))) }
{
    judge(alloc, index, Rule::There)
}

/// V08: tells the first object that requires an operation that its kind may not call.
pub fn first_forbidden(alloc: Global, index: &Index<'_>) -> Result<(), Broken>
    requires { IsIndex index.now }
    ensures { Tells result (head_of (forbidden (design_of index.entry.now.design.now))) }
{
    judge(alloc, index, Rule::Allowed)
}
