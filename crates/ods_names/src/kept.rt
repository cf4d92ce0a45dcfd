ghost use Rattle.std.specs.Prelude.{◌≡◌, ◌∷◌, ◌++◌, IfOk, OnOk, find, flat_map, map, not, option_map};
ghost use Rattle.seq_tree.specs.Statements.{Nothing};
ghost use Rattle.seq_tree.specs.Trees.{arm_of, block_of, branches_of, expression_of, otherwise, statement_of};
ghost use Rattle.ods_tree.specs.Trees.{body_of, design_of, provided_of};
ghost use Rattle.ada_tree.specs.Words.{is_ada_name};
ghost use Rattle.design_rules.specs.Broken.{V02};
ghost use Rattle.design_rules.specs.Words.{block_names, body_names, branch_names, expression_names, kept_names, link_names, object_names};
ghost use Rattle.design_rules.specs.Words.{op_names, provided_names, statement_names, thread_names};
ghost use Rattle.ods_index.specs.Indexing.{IsIndex};
ghost use Rattle.ods_index.specs.Judging.{Tells, head_of};
ghost use Rattle.ods_names.specs.NameLists.{all_names, names_of};
ghost use Rattle.ods_index.specs.Walking.{object_of};

use ods_index::{Broken, Index};
use ods_tree::{Link, Node, OpBody, Provided};
use seq_tree::{Arm, Block, Datum, Expr, Name, NoMemory, OpName, Param, Stmt};
use std::alloc::Global;
use words::is_ada_name;

/// Adds the names in an expression.
fn add_expression<'a>(names: &mut Vec<&'a Name>, expr: &'a Expr) -> Result<(), NoMemory>
    ensures { OnOk result (names_of names.new.items ≡ names_of names.old.items ++ expression_names (expression_of expr.entry.now)) }
{
    match expr {
        Expr::Number(_) => Ok(()),
        Expr::Variable(name) => {
            names.push(name)?;
            Ok(())
        }
        Expr::Paren(inner) | Expr::Not(inner) => add_expression(names, inner),
        Expr::Binary(_, left, right) => {
            add_expression(names, left)?;
            add_expression(names, right)
        }
    }
}

/// Adds the names in expressions.
fn add_expressions<'a>(names: &mut Vec<&'a Name>, exprs: &'a [Expr]) -> Result<(), NoMemory>
    ensures { OnOk result (names_of names.new.items ≡ names_of names.old.items ++ flat_map expression_names (map expression_of exprs.entry.now)) }
{
    'exprs: for expr in exprs {
        add_expression(names, expr)?;
    }
    Ok(())
}

/// Adds the names in a call.
fn add_call<'a>(
    names: &mut Vec<&'a Name>,
    object: &'a Name,
    op: &'a Name,
    actuals: &'a [Expr],
) -> Result<(), NoMemory>
    ensures { OnOk result (names_of names.new.items ≡ names_of names.old.items ++ object.entry.now ∷ op.entry.now
        ∷ flat_map expression_names (map expression_of actuals.entry.now)) }
{
    names.push(object)?;
    names.push(op)?;
    add_expressions(names, actuals)
}

/// Adds the names in the blocks that conditions guard, and in the conditions.
#[cycle(kept)]
fn add_arms<'a>(names: &mut Vec<&'a Name>, arms: &'a [Arm]) -> Result<(), NoMemory>
    ensures { OnOk result (names_of names.new.items ≡ names_of names.old.items ++ branch_names (branches_of (map arm_of arms.entry.now) Nothing)) }
{
    'arms: for arm in arms {
        add_arm(names, arm)?;
    }
    Ok(())
}

/// Adds the names in a block that a condition guards, and in the condition.
#[cycle(kept)]
fn add_arm<'a>(names: &mut Vec<&'a Name>, arm: &'a Arm) -> Result<(), NoMemory>
    ensures { OnOk result (names_of names.new.items ≡ names_of names.old.items
        ++ (expression_names (arm_of arm.entry.now).0 ++ block_names (arm_of arm.entry.now).1)) }
{
    add_expression(names, &arm.cond)?;
    add_block(names, &arm.block)
}

/// Adds the names in an `else`, where there is one.
#[cycle(kept)]
fn add_other<'a>(names: &mut Vec<&'a Name>, other: &'a Option<Block>) -> Result<(), NoMemory>
    ensures { OnOk result (names_of names.new.items ≡ names_of names.old.items ++ branch_names (otherwise (option_map block_of other.entry.now))) }
{
    match other {
        None => Ok(()),
        Some(block) => add_block(names, block),
    }
}

/// Adds the names in a loop.
#[cycle(kept)]
fn add_loop<'a>(names: &mut Vec<&'a Name>, name: &'a Name, body: &'a Block) -> Result<(), NoMemory>
    ensures { OnOk result (names_of names.new.items ≡ names_of names.old.items ++ name.entry.now ∷ block_names (block_of body.entry.now)) }
{
    names.push(name)?;
    add_block(names, body)
}

/// Adds the names in a statement.
#[cycle(kept)]
fn add_statement<'a>(names: &mut Vec<&'a Name>, stmt: &'a Stmt) -> Result<(), NoMemory>
    ensures { OnOk result (names_of names.new.items ≡ names_of names.old.items ++ statement_names (statement_of stmt.entry.now)) }
{
    match stmt {
        Stmt::Null | Stmt::Work(_) => Ok(()),
        Stmt::Assign { target, value } => {
            names.push(target)?;
            add_expression(names, value)
        }
        Stmt::If { arms, other } => {
            add_arms(names, arms)?;
            add_other(names, other)
        }
        Stmt::For { name, body, .. } => add_loop(names, name, body),
        Stmt::ExitWhen(condition) => add_expression(names, condition),
        Stmt::Call {
            object,
            op,
            actuals,
        } => add_call(names, object, op, actuals),
        Stmt::Put(value) => add_expression(names, value),
    }
}

/// Adds the names in a block.
#[cycle(kept)]
fn add_block<'a>(names: &mut Vec<&'a Name>, block: &'a Block) -> Result<(), NoMemory>
    ensures { OnOk result (names_of names.new.items ≡ names_of names.old.items ++ block_names (block_of block.entry.now)) }
{
    'stmts: for stmt in &block.stmts {
        add_statement(names, stmt)?;
    }
    Ok(())
}

/// Adds the names of parameters.
fn add_params<'a>(names: &mut Vec<&'a Name>, params: &'a [Param]) -> Result<(), NoMemory>
    ensures { OnOk result (names_of names.new.items ≡ names_of names.old.items ++ map (λ q. q.name) params.entry.now) }
{
    'params: for param in params {
        names.push(&param.name)?;
    }
    Ok(())
}

/// Adds the names of data.
fn add_data<'a>(names: &mut Vec<&'a Name>, vars: &'a [Datum]) -> Result<(), NoMemory>
    ensures { OnOk result (names_of names.new.items ≡ names_of names.old.items ++ map (λ d. d.name) vars.entry.now) }
{
    'vars: for datum in vars {
        names.push(&datum.name)?;
    }
    Ok(())
}

/// Adds the names of a provided operation.
fn add_op<'a>(names: &mut Vec<&'a Name>, provided: &'a Provided) -> Result<(), NoMemory>
    ensures { OnOk result (names_of names.new.items ≡ names_of names.old.items ++ provided_names (provided_of provided.entry.now)) }
{
    names.push(&provided.sig.name)?;
    add_params(names, &provided.sig.params)
}

/// Adds the names of provided operations.
fn add_ops<'a>(names: &mut Vec<&'a Name>, provides: &'a [Provided]) -> Result<(), NoMemory>
    ensures { OnOk result (names_of names.new.items ≡ names_of names.old.items ++ flat_map provided_names (map provided_of provides.entry.now)) }
{
    'provides: for provided in provides {
        add_op(names, provided)?;
    }
    Ok(())
}

/// Adds the two names of an operation.
fn add_target<'a>(names: &mut Vec<&'a Name>, target: &'a OpName) -> Result<(), NoMemory>
    ensures { OnOk result (names_of names.new.items ≡ names_of names.old.items ++ op_names target.entry.now) }
{
    names.push(&target.object)?;
    names.push(&target.op)?;
    Ok(())
}

/// Adds the names of required operations.
fn add_needs<'a>(names: &mut Vec<&'a Name>, needs: &'a [OpName]) -> Result<(), NoMemory>
    ensures { OnOk result (names_of names.new.items ≡ names_of names.old.items ++ flat_map op_names needs.entry.now) }
{
    'needs: for need in needs {
        add_target(names, need)?;
    }
    Ok(())
}

/// Adds the names in a body.
fn add_body<'a>(names: &mut Vec<&'a Name>, body: &'a OpBody) -> Result<(), NoMemory>
    ensures { OnOk result (names_of names.new.items ≡ names_of names.old.items ++ body_names (body_of body.entry.now)) }
{
    names.push(&body.name)?;
    add_data(names, &body.locals)?;
    add_block(names, &body.block)
}

/// Adds the names in bodies.
fn add_bodies<'a>(names: &mut Vec<&'a Name>, bodies: &'a [OpBody]) -> Result<(), NoMemory>
    ensures { OnOk result (names_of names.new.items ≡ names_of names.old.items ++ flat_map body_names (map body_of bodies.entry.now)) }
{
    'bodies: for body in bodies {
        add_body(names, body)?;
    }
    Ok(())
}

/// Adds the names in a thread, where there is one.
fn add_thread<'a>(names: &mut Vec<&'a Name>, thread: &'a Option<Block>) -> Result<(), NoMemory>
    ensures { OnOk result (names_of names.new.items ≡ names_of names.old.items ++ thread_names (option_map block_of thread.entry.now)) }
{
    match thread {
        None => Ok(()),
        Some(block) => add_block(names, block),
    }
}

/// Adds the names of a link.
fn add_link<'a>(names: &mut Vec<&'a Name>, link: &'a Link) -> Result<(), NoMemory>
    ensures { OnOk result (names_of names.new.items ≡ names_of names.old.items ++ link_names link.entry.now) }
{
    names.push(&link.op)?;
    add_target(names, &link.to)
}

/// Adds the names of links.
fn add_links<'a>(names: &mut Vec<&'a Name>, links: &'a [Link]) -> Result<(), NoMemory>
    ensures { OnOk result (names_of names.new.items ≡ names_of names.old.items ++ flat_map link_names links.entry.now) }
{
    'links: for link in links {
        add_link(names, link)?;
    }
    Ok(())
}

/// Adds the names of an object by itself.
fn add_object<'a>(names: &mut Vec<&'a Name>, node: &'a Node) -> Result<(), NoMemory>
    ensures { OnOk result (names_of names.new.items ≡ names_of names.old.items ++ object_names (object_of node.entry.now)) }
{
    names.push(&node.name)?;
    add_ops(names, &node.provides)?;
    add_needs(names, &node.needs)?;
    add_data(names, &node.vars)?;
    add_bodies(names, &node.bodies)?;
    add_thread(names, &node.thread)?;
    add_links(names, &node.links)
}

/// The names that are written in a design.
fn all_names<'a>(alloc: Global, index: &Index<'a>) -> Result<Vec<&'a Name>, NoMemory>
    requires { IsIndex index.now }
    ensures { IfOk result (λ v. names_of v.items ≡ all_names (design_of index.entry.now.design.now)) }
{
    let mut names = Vec::new(alloc);
    names.push(&index.design.name)?;
    'objects: for standing in &index.objects {
        add_object(&mut names, standing.node)?;
    }
    Ok(names)
}

/// Whether a name can't stand in an Ada text.
fn is_kept(name: &Name) -> bool
    ensures { result ≡ not (is_ada_name name.now) }
{
    !is_ada_name(name.bytes())
}

/// The first of names that can't stand in an Ada text.
fn find_kept<'a>(names: &[&'a Name]) -> Option<&'a Name>
    ensures { option_map (λ n. n.now) result ≡ find (λ n. not (is_ada_name n)) (names_of names.entry.now) }
{
    'names: for name in names {
        if is_kept(*name) {
            return Some(*name);
        }
    }
    None
}

/// Tells a name, where there is one.
fn tell(alloc: Global, name: Option<&Name>) -> Result<(), Broken>
    ensures { Tells result (option_map V02 (option_map (λ n. n.now) name.entry)) }
{
    match name {
        None => Ok(()),
        Some(name) => Err(Broken::V02 {
            name: name.copy(alloc)?,
        }),
    }
}

/// V02: tells the first name that can't stand in an Ada text.
pub fn first_kept_name(alloc: Global, index: &Index<'_>) -> Result<(), Broken>
    requires { IsIndex index.now }
    ensures { Tells result (head_of (kept_names (design_of index.entry.now.design.now))) }
{
    let names = all_names(alloc, index)?;
    let first = find_kept(names.as_slice());
    tell(alloc, first)
}
