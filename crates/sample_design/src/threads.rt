ghost use Rattle.std.specs.Prelude.{◌≡◌, ◌<◌, ◌≤◌, ◌+◌, ◌/◌, length, map, IfOk};
ghost use Rattle.std.specs.Str.{str_to_ascii_lowercase};
ghost use Rattle.seq_tree.specs.Statements.{Call};
ghost use Rattle.seq_tree.specs.Trees.{block_of, expression_of, statement_of};
ghost use Rattle.ods_tree.specs.Trees.{provided_of, tree_of};
ghost use Rattle.sample_design.specs.Samples.{active, attr, block, from_to, group, is_sporadic, plant, thread};
ghost use Rattle.sample_design.specs.Samples.{thread_attrs, thread_kind, thread_provides, thread_time};

use crate::names::{datum, numbered, variable};
use crate::objects::{board, go, needed, step};
use ods_tree::{Attr, AttrKey, Kind, Node, Provided};
use seq_tree::{Block, Expr, Name, NoMemory, OpName, Stmt};
use std::alloc::Global;

/// A call of an operation of an object.
fn call(alloc: Global, object: &[u8], op: &[u8], actuals: Vec<Expr>) -> Result<Stmt, NoMemory>
    requires object_short { (0 < length object.now) × (length object.now ≤ 64) }
    requires op_short { (0 < length op.now) × (length op.now ≤ 64) }
    ensures { IfOk result (λ s. statement_of s ≡ Call (str_to_ascii_lowercase object.now) (str_to_ascii_lowercase op.now)
        (map expression_of actuals.items)) }
{
    Ok(Stmt::Call {
        object: Name::folded(alloc, object)?,
        op: Name::folded(alloc, op)?,
        actuals,
    })
}

/// What each thread does.
#[tactic(auto, using(crate::proofs::TreeSteps::tree_steps))]
fn block(alloc: Global) -> Result<Block, NoMemory>
    ensures { IfOk result (λ b. block_of b ≡ block) }
{
    let both = vec![in alloc; variable(alloc, b"x")?, variable(alloc, b"x")?]?;
    let told = vec![in alloc; variable(alloc, b"x")?]?;
    let next = call(alloc, b"step", b"next", both)?;
    let note = call(alloc, b"board", b"note", told)?;
    Ok(Block {
        stmts: vec![in alloc; Stmt::Work(5), next, note]?,
    })
}

/// Whether a thread is sporadic.
pub(crate) fn is_sporadic(k: u32) -> bool
    ensures { result ≡ is_sporadic k }
{
    k % 2 == 0
}

/// The kind of a thread.
fn thread_kind(k: u32) -> Kind
    ensures { result ≡ thread_kind k }
{
    if is_sporadic(k) {
        Kind::Sporadic
    } else {
        Kind::Cyclic
    }
}

/// The period or separation of a thread of so many, in ticks.
pub(crate) fn thread_time(n: u32, k: u32) -> u32
    requires { (n ≤ 30) × (k ≤ 30) }
    ensures { result ≡ thread_time n k }
{
    20 * n + 10 * k
}

/// An attribute in ticks.
fn attr(key: AttrKey, value: u32) -> Attr
    ensures { result ≡ attr key value }
{
    Attr {
        key,
        value,
        unit: None,
    }
}

/// The attributes of a thread of so many.
fn thread_attrs(alloc: Global, n: u32, k: u32) -> Result<Vec<Attr>, NoMemory>
    requires { (n ≤ 30) × (k ≤ 30) }
    ensures { IfOk result (λ v. v.items ≡ thread_attrs n k) }
{
    let time = thread_time(n, k);
    if is_sporadic(k) {
        Ok(vec![in alloc;
            attr(AttrKey::Separation, time),
            attr(AttrKey::Deadline, time),
            attr(AttrKey::ThreadBudget, 12),
            attr(AttrKey::ArrivalJitter, k),
        ]?)
    } else {
        Ok(vec![in alloc;
            attr(AttrKey::Period, time),
            attr(AttrKey::Deadline, time),
            attr(AttrKey::ThreadBudget, 12),
        ]?)
    }
}

/// What a thread provides.
fn thread_provides(alloc: Global, k: u32) -> Result<Vec<Provided>, NoMemory>
    ensures { IfOk result (λ v. map provided_of v.items ≡ thread_provides k) }
{
    if is_sporadic(k) {
        go(alloc)
    } else {
        Ok(Vec::new(alloc))
    }
}

/// A thread of so many.
#[tactic(auto, using(crate::proofs::TreeSteps::tree_steps))]
fn thread(alloc: Global, n: u32, k: u32) -> Result<Node, NoMemory>
    requires { (n ≤ 30) × (k ≤ 30) }
    ensures { IfOk result (λ t. tree_of t ≡ thread n k) }
{
    let vars = vec![in alloc; datum(alloc, b"x", k)?]?;
    Ok(Node {
        name: numbered(alloc, b't', k)?,
        kind: thread_kind(k),
        attrs: thread_attrs(alloc, n, k)?,
        provides: thread_provides(alloc, k)?,
        needs: needed(alloc)?,
        vars,
        bodies: Vec::new(alloc),
        thread: Some(block(alloc)?),
        children: Vec::new(alloc),
        links: Vec::new(alloc),
    })
}

/// Threads of so many, from one on and below another.
#[tactic(auto, using(crate::proofs::Shared::NumberSteps::number_steps))]
fn members(alloc: Global, n: u32, first: u32, end: u32) -> Result<Vec<Node>, NoMemory>
    requires { (n ≤ 30) × (end ≤ 31) }
    ensures { IfOk result (λ v. map tree_of v.items ≡ map (thread n) (from_to first end)) }
{
    let mut found = Vec::new(alloc);
    'members: for k in first..end {
        found.push(thread(alloc, n, k)?)?;
    }
    Ok(found)
}

/// An active object, without anything of its own but what it requires and the objects inside it.
#[tactic(auto, using(crate::proofs::TreeSteps::tree_steps))]
fn active(alloc: Global, name: Name, needs: Vec<OpName>, children: Vec<Node>) -> Node
    ensures { tree_of result ≡ active name needs.items (map tree_of children.items) }
{
    Node {
        name,
        kind: Kind::Active,
        attrs: Vec::new(alloc),
        provides: Vec::new(alloc),
        needs,
        vars: Vec::new(alloc),
        bodies: Vec::new(alloc),
        thread: None,
        children,
        links: Vec::new(alloc),
    }
}

/// The group of this number, from 1 on.
fn group(alloc: Global, n: u32, g: u32) -> Result<Node, NoMemory>
    requires { (n ≤ 30) × (1 ≤ g) × (g ≤ 6) }
    ensures { IfOk result (λ t. tree_of t ≡ group n g) }
{
    let first = 5 * (g - 1) + 1;
    let end = (5 * g + 1).min(n + 1);
    let children = members(alloc, n, first, end)?;
    let name = numbered(alloc, b'g', g)?;
    Ok(active(alloc, name, needed(alloc)?, children))
}

/// The object that holds all.
#[tactic(auto, using(crate::proofs::Shared::NumberSteps::number_steps))]
pub(crate) fn plant(alloc: Global, n: u32) -> Result<Node, NoMemory>
    requires { n ≤ 30 }
    ensures { IfOk result (λ t. tree_of t ≡ plant n) }
{
    let mut children = vec![in alloc; board(alloc)?, step(alloc)?]?;
    let end = (n + 4) / 5 + 1;
    'groups: for g in 1..end {
        children.push(group(alloc, n, g)?)?;
    }
    let name = Name::folded(alloc, b"plant")?;
    Ok(active(alloc, name, Vec::new(alloc), children))
}
