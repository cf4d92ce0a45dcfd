ghost use Rattle.std.specs.Prelude.{◌≡◌, [], ◌∷◌, ◌++◌, IfOk, OnOk, flat_map, map, option_map};
ghost use Rattle.std.specs.List.{enumerate_from, list_any};
ghost use Rattle.seq_tree.specs.Names.{Name as NameTree, same_name};
ghost use Rattle.seq_tree.specs.Statements.{Nothing};
ghost use Rattle.seq_tree.specs.Trees.{arm_of, block_of, branches_of, otherwise, statement_of};
ghost use Rattle.name_sets.specs.Sets.{has};
ghost use Rattle.ods_tree.specs.Trees.{body_of, design_of, provided_of};
ghost use Rattle.design_rules.specs.Clashes as clashes;
ghost use Rattle.design_rules.specs.Clashes.{block_loops, body_mentions, branch_loops, is_bodied, is_request, mention, mentions};
ghost use Rattle.design_rules.specs.Clashes.{object_mentions, operation_mentions, request_names, statement_loops, thread_mentions};
ghost use Rattle.ods_index.specs.Indexing.{IsIndex};
ghost use Rattle.ods_names.specs.Mentions.{gathered, mention_by, requests_in, role_of};
ghost use Rattle.ods_names.specs.NameLists.{names_of};
ghost use Rattle.ods_index.specs.Walking.{object_of, standing_of};

use name_sets::Names;
use ods_index::{Index, Standing, is_sporadic};
use ods_tree::{Constraint, Node, OpBody, Provided};
use seq_tree::{Arm, Block, Datum, Name, NoMemory, Param, Stmt};
use std::alloc::Global;

/// What has a name.
#[derive(Clone, Copy)]
pub(crate) enum Role<'a> {
    /// The design.
    Whole,
    /// An object.
    Single,
    /// An operation or datum of the object at a place.
    Member {
        place: usize,
    },
    /// A parameter of an operation of the object at a place, with a body or without one.
    Parameter {
        place: usize,
        op: &'a Name,
        bodied: bool,
    },
    /// A local of a body of the object at a place.
    Local {
        place: usize,
        body: usize,
        op: &'a Name,
    },
    /// A loop of a body of the object at a place.
    Loop {
        place: usize,
        body: usize,
        op: &'a Name,
    },
    /// A loop of the thread of the object at a place, which is the body of each of its requests.
    ThreadLoop {
        place: usize,
        body: usize,
    },
}

/// A name where it is declared, with the loops that are open there, the innermost first.
#[derive(Drop)]
pub(crate) struct Mention<'a> {
    pub(crate) name: &'a Name,
    pub(crate) role: Role<'a>,
    pub(crate) open: Vec<&'a Name>,
}

/// The design whose names are gathered, and the allocator that holds them.
#[derive(Clone, Copy)]
struct Source<'s, 'a> {
    alloc: Global,
    index: &'s Index<'a>,
}

/// Adds names to others.
fn add_names<'a>(into: &mut Vec<&'a Name>, names: &[&'a Name]) -> Result<(), NoMemory>
    ensures { OnOk result (names_of into.new.items ≡ names_of into.old.items ++ names_of names.entry.now) }
{
    'names: for name in names {
        into.push(*name)?;
    }
    Ok(())
}

/// The loops that are open inside a further one.
fn within<'a>(alloc: Global, name: &'a Name, loops: &[&'a Name]) -> Result<Vec<&'a Name>, NoMemory>
    ensures { IfOk result (λ v. names_of v.items ≡ name.entry.now ∷ names_of loops.entry.now) }
{
    let mut names = Vec::new(alloc);
    names.push(name)?;
    add_names(&mut names, loops)?;
    Ok(names)
}

/// Adds a name where these loops are open.
fn add_inside<'a>(
    source: Source<'_, 'a>,
    into: &mut Vec<Mention<'a>>,
    role: Role<'a>,
    name: &'a Name,
    outer: &[&'a Name],
) -> Result<(), NoMemory>
    ensures { OnOk result (gathered source.entry.index.now into.new.items ≡ gathered source.entry.index.now into.old.items
        ++ mention_by (requests_in source.entry.index.now) role.entry name.entry.now (names_of outer.entry.now) ∷ []) }
{
    let mut open = Vec::new(source.alloc);
    add_names(&mut open, outer)?;
    into.push(Mention { name, role, open })?;
    Ok(())
}

/// Adds a name outside all loops.
fn add<'a>(
    source: Source<'_, 'a>,
    into: &mut Vec<Mention<'a>>,
    role: Role<'a>,
    name: &'a Name,
) -> Result<(), NoMemory>
    ensures { OnOk result (gathered source.entry.index.now into.new.items ≡ gathered source.entry.index.now into.old.items
        ++ mention (role_of (requests_in source.entry.index.now) role.entry) name.entry.now ∷ []) }
{
    into.push(Mention {
        name,
        role,
        open: Vec::new(source.alloc),
    })?;
    Ok(())
}

/// Adds the loops of the blocks that conditions guard.
#[cycle(mentions)]
fn add_arms<'a>(
    source: Source<'_, 'a>,
    into: &mut Vec<Mention<'a>>,
    role: Role<'a>,
    loops: &[&'a Name],
    arms: &'a [Arm],
) -> Result<(), NoMemory>
    ensures { OnOk result (gathered source.entry.index.now into.new.items ≡ gathered source.entry.index.now into.old.items
        ++ branch_loops (mention_by (requests_in source.entry.index.now) role.entry) (names_of loops.entry.now)
        (branches_of (map arm_of arms.entry.now) Nothing)) }
{
    'arms: for arm in arms {
        add_block(source, into, role, loops, &arm.block)?;
    }
    Ok(())
}

/// Adds the loops of an `else`, where there is one.
#[cycle(mentions)]
fn add_other<'a>(
    source: Source<'_, 'a>,
    into: &mut Vec<Mention<'a>>,
    role: Role<'a>,
    loops: &[&'a Name],
    other: &'a Option<Block>,
) -> Result<(), NoMemory>
    ensures { OnOk result (gathered source.entry.index.now into.new.items ≡ gathered source.entry.index.now into.old.items
        ++ branch_loops (mention_by (requests_in source.entry.index.now) role.entry) (names_of loops.entry.now)
        (otherwise (option_map block_of other.entry.now))) }
{
    match other {
        None => Ok(()),
        Some(block) => add_block(source, into, role, loops, block),
    }
}

/// Adds a loop and those inside it.
#[cycle(mentions)]
fn add_loop<'a>(
    source: Source<'_, 'a>,
    into: &mut Vec<Mention<'a>>,
    role: Role<'a>,
    loops: &[&'a Name],
    name: &'a Name,
    body: &'a Block,
) -> Result<(), NoMemory>
    ensures { OnOk result (gathered source.entry.index.now into.new.items ≡ gathered source.entry.index.now into.old.items
        ++ mention_by (requests_in source.entry.index.now) role.entry name.entry.now (names_of loops.entry.now)
        ∷ block_loops (mention_by (requests_in source.entry.index.now) role.entry) (name.entry.now ∷ names_of loops.entry.now)
        (block_of body.entry.now)) }
{
    add_inside(source, into, role, name, loops)?;
    let inner = within(source.alloc, name, loops)?;
    add_block(source, into, role, inner.as_slice(), body)
}

/// Adds the loops of a statement.
#[cycle(mentions)]
fn add_statement<'a>(
    source: Source<'_, 'a>,
    into: &mut Vec<Mention<'a>>,
    role: Role<'a>,
    loops: &[&'a Name],
    stmt: &'a Stmt,
) -> Result<(), NoMemory>
    ensures { OnOk result (gathered source.entry.index.now into.new.items ≡ gathered source.entry.index.now into.old.items
        ++ statement_loops (mention_by (requests_in source.entry.index.now) role.entry) (names_of loops.entry.now) (statement_of stmt.entry.now)) }
{
    match stmt {
        Stmt::If { arms, other } => {
            add_arms(source, into, role, loops, arms)?;
            add_other(source, into, role, loops, other)
        }
        Stmt::For { name, body, .. } => add_loop(source, into, role, loops, name, body),
        Stmt::Null
        | Stmt::Assign { .. }
        | Stmt::ExitWhen(_)
        | Stmt::Call { .. }
        | Stmt::Work(_)
        | Stmt::Put(_) => Ok(()),
    }
}

/// Adds the loops of a block.
#[cycle(mentions)]
fn add_block<'a>(
    source: Source<'_, 'a>,
    into: &mut Vec<Mention<'a>>,
    role: Role<'a>,
    loops: &[&'a Name],
    block: &'a Block,
) -> Result<(), NoMemory>
    ensures { OnOk result (gathered source.entry.index.now into.new.items ≡ gathered source.entry.index.now into.old.items
        ++ block_loops (mention_by (requests_in source.entry.index.now) role.entry) (names_of loops.entry.now) (block_of block.entry.now)) }
{
    'stmts: for stmt in &block.stmts {
        add_statement(source, into, role, loops, stmt)?;
    }
    Ok(())
}

/// The names of the operations that have bodies.
fn body_names<'a>(alloc: Global, bodies: &'a [OpBody]) -> Result<Names<'a>, NoMemory>
    ensures { IfOk result (λ v. (n : NameTree) → has v n ≡ list_any (λ b. same_name b.name n) (map body_of bodies.entry.now)) }
{
    let mut names = Names::new(alloc);
    'bodies: for body in bodies {
        names.add(&body.name)?;
    }
    Ok(names)
}

/// Whether an operation is a request of a sporadic object.
#[tactic(auto, using(ods_index::proofs::Shared::WalkSteps::node_steps))]
pub(crate) fn is_request(node: &Node, provided: &Provided) -> bool
    ensures { result ≡ is_request (object_of node.now) (provided_of provided.now) }
{
    is_sporadic(node.kind) && matches!(provided.constraint, Some(Constraint::Aser))
}

/// Whether an operation has a body; that of a request is the thread.
#[tactic(auto, using(crate::proofs::MentionSteps::body_steps))]
fn is_bodied(node: &Node, bodies: &Names<'_>, provided: &Provided) -> bool
    requires { (n : NameTree) → has bodies.now n ≡ list_any (λ b. same_name b.name n) (object_of node.now).bodies }
    ensures { result ≡ is_bodied (object_of node.now) (provided_of provided.now) }
{
    bodies.has(&provided.sig.name) || (is_request(node, provided) && node.thread.is_some())
}

/// Adds the parameters of an operation.
fn add_params<'a>(
    source: Source<'_, 'a>,
    into: &mut Vec<Mention<'a>>,
    place: usize,
    op: &'a Name,
    bodied: bool,
    params: &'a [Param],
) -> Result<(), NoMemory>
    ensures { OnOk result (gathered source.entry.index.now into.new.items ≡ gathered source.entry.index.now into.old.items
        ++ map (λ q. mention (clashes.Parameter place op.entry.now bodied) q.name) params.entry.now) }
{
    'params: for param in params {
        add(
            source,
            into,
            Role::Parameter { place, op, bodied },
            &param.name,
        )?;
    }
    Ok(())
}

/// Adds an operation and its parameters.
fn add_operation<'a>(
    source: Source<'_, 'a>,
    into: &mut Vec<Mention<'a>>,
    place: usize,
    node: &'a Node,
    bodies: &Names<'_>,
    provided: &'a Provided,
) -> Result<(), NoMemory>
    requires { (n : NameTree) → has bodies.now n ≡ list_any (λ b. same_name b.name n) (object_of node.now).bodies }
    ensures { OnOk result (gathered source.entry.index.now into.new.items ≡ gathered source.entry.index.now into.old.items
        ++ operation_mentions place (object_of node.entry.now) (provided_of provided.entry.now)) }
{
    let op = &provided.sig.name;
    let bodied = is_bodied(node, bodies, provided);
    add(source, into, Role::Member { place }, op)?;
    add_params(source, into, place, op, bodied, &provided.sig.params)
}

/// Adds operations and their parameters.
fn add_operations<'a>(
    source: Source<'_, 'a>,
    into: &mut Vec<Mention<'a>>,
    place: usize,
    node: &'a Node,
    bodies: &Names<'_>,
    provides: &'a [Provided],
) -> Result<(), NoMemory>
    requires { (n : NameTree) → has bodies.now n ≡ list_any (λ b. same_name b.name n) (object_of node.now).bodies }
    ensures { OnOk result (gathered source.entry.index.now into.new.items ≡ gathered source.entry.index.now into.old.items
        ++ flat_map (operation_mentions place (object_of node.entry.now)) (map provided_of provides.entry.now)) }
{
    'provides: for provided in provides {
        add_operation(source, into, place, node, bodies, provided)?;
    }
    Ok(())
}

/// Adds data of the object at a place.
fn add_data<'a>(
    source: Source<'_, 'a>,
    into: &mut Vec<Mention<'a>>,
    place: usize,
    vars: &'a [Datum],
) -> Result<(), NoMemory>
    ensures { OnOk result (gathered source.entry.index.now into.new.items ≡ gathered source.entry.index.now into.old.items
        ++ map (λ d. mention (clashes.Member place) d.name) vars.entry.now) }
{
    'vars: for datum in vars {
        add(source, into, Role::Member { place }, &datum.name)?;
    }
    Ok(())
}

/// Adds locals of a body.
fn add_locals<'a>(
    source: Source<'_, 'a>,
    into: &mut Vec<Mention<'a>>,
    place: usize,
    body: usize,
    op: &'a Name,
    locals: &'a [Datum],
) -> Result<(), NoMemory>
    ensures { OnOk result (gathered source.entry.index.now into.new.items ≡ gathered source.entry.index.now into.old.items
        ++ map (λ d. mention (clashes.Local place body op.entry.now) d.name) locals.entry.now) }
{
    'locals: for datum in locals {
        add(source, into, Role::Local { place, body, op }, &datum.name)?;
    }
    Ok(())
}

/// Adds the locals and loops of a body.
fn add_body<'a>(
    source: Source<'_, 'a>,
    into: &mut Vec<Mention<'a>>,
    place: usize,
    number: usize,
    body: &'a OpBody,
) -> Result<(), NoMemory>
    ensures { OnOk result (gathered source.entry.index.now into.new.items ≡ gathered source.entry.index.now into.old.items
        ++ body_mentions place (number, body_of body.entry.now)) }
{
    let op = &body.name;
    add_locals(source, into, place, number, op, &body.locals)?;
    let role = Role::Loop {
        place,
        body: number,
        op,
    };
    add_block(source, into, role, &[], &body.block)
}

/// Adds the locals and loops of bodies.
fn add_bodies<'a>(
    source: Source<'_, 'a>,
    into: &mut Vec<Mention<'a>>,
    place: usize,
    bodies: &'a [OpBody],
) -> Result<(), NoMemory>
    ensures { OnOk result (gathered source.entry.index.now into.new.items ≡ gathered source.entry.index.now into.old.items
        ++ flat_map (body_mentions place) (enumerate_from 0 (map body_of bodies.entry.now))) }
{
    'bodies: for (number, body) in bodies.iter().enumerate() {
        add_body(source, into, place, number, body)?;
    }
    Ok(())
}

/// Adds the loops of a thread, where there is one.
#[tactic(auto, using(ods_index::proofs::Shared::WalkSteps::node_steps))]
fn add_thread<'a>(
    source: Source<'_, 'a>,
    into: &mut Vec<Mention<'a>>,
    place: usize,
    node: &'a Node,
) -> Result<(), NoMemory>
    requires { request_names (object_of node.now) ≡ requests_in source.index.now place }
    ensures { OnOk result (gathered source.entry.index.now into.new.items ≡ gathered source.entry.index.now into.old.items
        ++ thread_mentions place (object_of node.entry.now) (object_of node.entry.now).thread) }
{
    match &node.thread {
        None => Ok(()),
        Some(block) => {
            let role = Role::ThreadLoop {
                place,
                body: node.bodies.len(),
            };
            add_block(source, into, role, &[], block)
        }
    }
}

/// Adds the names of the object at a place, in order of writing.
#[tactic(auto, using(ods_index::proofs::Shared::WalkSteps::node_steps))]
fn add_object<'a>(
    source: Source<'_, 'a>,
    into: &mut Vec<Mention<'a>>,
    place: usize,
    standing: &Standing<'a>,
) -> Result<(), NoMemory>
    requires { request_names (object_of standing.now.node.now) ≡ requests_in source.index.now place }
    ensures { OnOk result (gathered source.entry.index.now into.new.items ≡ gathered source.entry.index.now into.old.items
        ++ object_mentions (place, standing_of standing.entry.now)) }
{
    let node = standing.node;
    let bodies = body_names(source.alloc, node.bodies.as_slice())?;
    add(source, into, Role::Single, &node.name)?;
    add_operations(source, into, place, node, &bodies, node.provides.as_slice())?;
    add_data(source, into, place, node.vars.as_slice())?;
    add_bodies(source, into, place, node.bodies.as_slice())?;
    add_thread(source, into, place, node)
}

/// Adds the names of objects, in order of writing.
fn add_objects<'a>(
    source: Source<'_, 'a>,
    into: &mut Vec<Mention<'a>>,
    objects: &[Standing<'a>],
) -> Result<(), NoMemory>
    requires { source.index.now.objects.items ≡ objects.now }
    ensures { OnOk result (gathered source.entry.index.now into.new.items ≡ gathered source.entry.index.now into.old.items
        ++ flat_map object_mentions (enumerate_from 0 (map standing_of objects.entry.now))) }
{
    'objects: for (place, standing) in objects.iter().enumerate() {
        add_object(source, into, place, standing)?;
    }
    Ok(())
}

/// The names of a design in order.
pub(crate) fn all_mentions<'a>(
    alloc: Global,
    index: &Index<'a>,
) -> Result<Vec<Mention<'a>>, NoMemory>
    requires { IsIndex index.now }
    ensures { IfOk result (λ v. gathered index.entry.now v.items ≡ mentions (design_of index.entry.now.design.now)) }
{
    let source = Source { alloc, index };
    let mut all = Vec::new(alloc);
    add(source, &mut all, Role::Whole, &source.index.design.name)?;
    add_objects(source, &mut all, source.index.objects.as_slice())?;
    Ok(all)
}
