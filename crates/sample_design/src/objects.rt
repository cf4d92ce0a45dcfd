ghost use Rattle.std.specs.Prelude.{◌≡◌, ◌<◌, ◌≤◌, [], ◌∷◌, length, map, IfOk};
ghost use Rattle.std.specs.Str.{str_to_ascii_lowercase};
ghost use Rattle.seq_tree.specs.Expressions.{Binary};
ghost use Rattle.seq_tree.specs.Statements.{Assign, End, Then};
ghost use Rattle.seq_tree.specs.Trees.{block_of, expression_of};
ghost use Rattle.ods_tree.specs.Trees.{body_of, provided_of, tree_of};
ghost use Rattle.sample_design.specs.Samples.{board, body, go, needed, operation, step};

use crate::names::{datum, op_name, param, variable};
use ods_tree::{Constraint, Kind, Node, OpBody, Provided};
use seq_tree::{BinOp, Block, Expr, Mode, Name, NoMemory, OpName, OpSig, Param, Stmt};
use std::alloc::Global;

/// An operator between two operands.
fn binary(alloc: Global, op: BinOp, left: Expr, right: Expr) -> Result<Expr, NoMemory>
    ensures { IfOk result (λ e. expression_of e ≡ Binary op (expression_of left) (expression_of right)) }
{
    let left = Box::new(alloc, left)?;
    let right = Box::new(alloc, right)?;
    Ok(Expr::Binary(op, left, right))
}

/// A block of one assignment.
#[tactic(auto, using(crate::proofs::TreeSteps::tree_steps))]
fn assignment(alloc: Global, target: &[u8], value: Expr) -> Result<Block, NoMemory>
    requires { (0 < length target.now) × (length target.now ≤ 64) }
    ensures { IfOk result (λ b. block_of b ≡ Then (Assign (str_to_ascii_lowercase target.now) (expression_of value)) End) }
{
    let target = Name::folded(alloc, target)?;
    Ok(Block {
        stmts: vec![in alloc; Stmt::Assign { target, value }]?,
    })
}

/// The one operation that an object provides.
fn operation(
    alloc: Global,
    name: &[u8],
    params: Vec<Param>,
    constraint: Option<Constraint>,
) -> Result<Vec<Provided>, NoMemory>
    requires { (0 < length name.now) × (length name.now ≤ 64) }
    ensures { IfOk result (λ v. map provided_of v.items ≡ operation (str_to_ascii_lowercase name.now) params.items constraint ∷ []) }
{
    let sig = OpSig {
        name: Name::folded(alloc, name)?,
        params,
    };
    Ok(vec![in alloc; Provided { sig, constraint }]?)
}

/// The body of the one operation of an object, without locals.
fn body(alloc: Global, name: &[u8], block: Block) -> Result<Vec<OpBody>, NoMemory>
    requires { (0 < length name.now) × (length name.now ≤ 64) }
    ensures { IfOk result (λ v. map body_of v.items ≡ body (str_to_ascii_lowercase name.now) (block_of block) ∷ []) }
{
    let body = OpBody {
        name: Name::folded(alloc, name)?,
        locals: Vec::new(alloc),
        block,
    };
    Ok(vec![in alloc; body]?)
}

/// The protected object that adds up what it is told.
#[tactic(auto, using(crate::proofs::TreeSteps::tree_steps))]
pub(crate) fn board(alloc: Global) -> Result<Node, NoMemory>
    ensures { IfOk result (λ n. tree_of n ≡ board) }
{
    let params = vec![in alloc; param(alloc, b"v", Mode::In)?]?;
    let provides = operation(alloc, b"note", params, Some(Constraint::Paer))?;
    let total = variable(alloc, b"total")?;
    let told = variable(alloc, b"v")?;
    let sum = binary(alloc, BinOp::Add, total, told)?;
    let block = assignment(alloc, b"total", sum)?;
    let bodies = body(alloc, b"note", block)?;
    let vars = vec![in alloc; datum(alloc, b"total", 0)?]?;
    Ok(Node {
        name: Name::folded(alloc, b"board")?,
        kind: Kind::Protected,
        attrs: Vec::new(alloc),
        provides,
        needs: Vec::new(alloc),
        vars,
        bodies,
        thread: None,
        children: Vec::new(alloc),
        links: Vec::new(alloc),
    })
}

/// The passive object that takes one step.
#[tactic(auto, using(crate::proofs::TreeSteps::tree_steps))]
pub(crate) fn step(alloc: Global) -> Result<Node, NoMemory>
    ensures { IfOk result (λ n. tree_of n ≡ step) }
{
    let params = vec![in alloc;
        param(alloc, b"a", Mode::In)?,
        param(alloc, b"r", Mode::Out)?,
    ]?;
    let provides = operation(alloc, b"next", params, None)?;
    let a = variable(alloc, b"a")?;
    let tripled = binary(alloc, BinOp::Mul, a, Expr::Number(3))?;
    let value = binary(alloc, BinOp::Add, tripled, Expr::Number(1))?;
    let block = assignment(alloc, b"r", value)?;
    let bodies = body(alloc, b"next", block)?;
    Ok(Node {
        name: Name::folded(alloc, b"step")?,
        kind: Kind::Passive,
        attrs: Vec::new(alloc),
        provides,
        needs: Vec::new(alloc),
        vars: Vec::new(alloc),
        bodies,
        thread: None,
        children: Vec::new(alloc),
        links: Vec::new(alloc),
    })
}

/// What each thread and each group requires.
pub(crate) fn needed(alloc: Global) -> Result<Vec<OpName>, NoMemory>
    ensures { IfOk result (λ v. v.items ≡ needed) }
{
    Ok(vec![in alloc;
        op_name(alloc, b"step", b"next")?,
        op_name(alloc, b"board", b"note")?,
    ]?)
}

/// The request of a sporadic thread.
pub(crate) fn go(alloc: Global) -> Result<Vec<Provided>, NoMemory>
    ensures { IfOk result (λ v. map provided_of v.items ≡ go ∷ []) }
{
    let params = vec![in alloc; param(alloc, b"v", Mode::In)?]?;
    operation(alloc, b"go", params, Some(Constraint::Aser))
}
