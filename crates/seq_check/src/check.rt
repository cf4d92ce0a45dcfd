ghost use Rattle.std.specs.Prelude.{◌≡◌, IfErr, map, option_map};
ghost use Rattle.seq_tree.specs.Faults.{block_fault, branches_fault, statement_fault};
ghost use Rattle.seq_tree.specs.Statements.{Assign, Call, ExitWhen, Nothing};
ghost use Rattle.seq_tree.specs.Trees.{arm_of, block_of, branches_of, expression_of, otherwise, statement_of};
ghost use Rattle.seq_check.specs.Answers.{Says, answer_of};
ghost use Rattle.seq_check.specs.Places.{place_of};
ghost use Rattle.seq_check.specs.Scopes.{scope_of};
ghost use Rattle.seq_check.specs.Views.{known_scope};
ghost use Rattle.seq_check.specs.declared.fault.BodyFault.TheVariants as fault;

use crate::actuals::{check_actuals, is_fixed};
use crate::expressions::{check_condition, check_conditions, check_word, check_words};
use crate::fault::BodyFault;
use crate::known::Known;
use crate::place::Place;
use crate::scope::Scope;
use seq_tree::{Arm, Block, Expr, Name, Stmt};
use std::alloc::Global;

/// Tells the first fault of an assignment.
fn check_assign(target: &Name, value: &Expr, place: &Place) -> Result<(), BodyFault>
    ensures { result ≡ answer_of (statement_fault (place_of place.now) (Assign target.now (expression_of value.now))) }
{
    if !place.reads(target) {
        return Err(BodyFault::Unknown);
    }
    check_word(value, place)?;
    if is_fixed(target, place) {
        return Err(BodyFault::Assigned);
    }
    Ok(())
}

/// Tells the first fault of an exit.
fn check_exit(condition: &Expr, place: &Place) -> Result<(), BodyFault>
    ensures { result ≡ answer_of (statement_fault (place_of place.now) (ExitWhen (expression_of condition.now))) }
{
    check_condition(condition, place)?;
    if !place.in_loop() {
        return Err(BodyFault::Exit);
    }
    Ok(())
}

/// Tells the first fault of a call.
fn check_call(object: &Name, op: &Name, actuals: &[Expr], place: &Place) -> Result<(), BodyFault>
    ensures { result ≡ answer_of (statement_fault (place_of place.now) (Call object.now op.now (map expression_of actuals.now))) }
{
    let Some(callable) = place.offer(object, op) else {
        return Err(BodyFault::Unknown);
    };
    check_words(actuals, place)?;
    check_actuals(&callable.sig.params, actuals, place)
}

/// Tells the first fault of the blocks that conditions guard.
#[cycle(check)]
#[tactic(auto, using(crate::proofs::FaultLaws::fault_laws))]
fn check_arms(arms: &[Arm], place: &Place) -> Result<(), BodyFault>
    ensures { result ≡ answer_of (branches_fault (place_of place.now) (branches_of (map arm_of arms.now) Nothing)) }
{
    'arms: for arm in arms {
        check_at(&arm.block, place)?;
    }
    Ok(())
}

/// Tells the first fault of an `else`, where there is one.
#[cycle(check)]
fn check_other(other: &Option<Block>, place: &Place) -> Result<(), BodyFault>
    ensures { result ≡ answer_of (branches_fault (place_of place.now) (otherwise (option_map block_of other.now))) }
{
    match other {
        None => Ok(()),
        Some(block) => check_at(block, place),
    }
}

/// Tells the first fault of a statement.
#[cycle(check)]
fn check_statement(stmt: &Stmt, place: &Place) -> Result<(), BodyFault>
    ensures { result ≡ answer_of (statement_fault (place_of place.now) (statement_of stmt.now)) }
{
    match stmt {
        Stmt::Null | Stmt::Work(_) => Ok(()),
        Stmt::Assign { target, value } => check_assign(target, value, place),
        Stmt::If { arms, other } => {
            check_conditions(arms, place)?;
            check_arms(arms, place)?;
            check_other(other, place)
        }
        Stmt::For { name, body, .. } => check_at(
            body,
            &Place::Loop {
                name,
                outer: &*place,
            },
        ),
        Stmt::ExitWhen(condition) => check_exit(condition, place),
        Stmt::Call {
            object,
            op,
            actuals,
        } => check_call(object, op, actuals, place),
        Stmt::Put(value) => check_word(value, place),
    }
}

/// Tells the first fault of a block at a place.
#[cycle(check)]
#[tactic(auto, using(crate::proofs::FaultLaws::fault_laws))]
fn check_at(block: &Block, place: &Place) -> Result<(), BodyFault>
    ensures { result ≡ answer_of (block_fault (place_of place.now) (block_of block.now)) }
{
    'stmts: for stmt in &block.stmts {
        check_statement(stmt, place)?;
    }
    Ok(())
}

/// Tells the first fault of a body: that of the first statement, in the order of writing, that has one, and of it the first in
/// the order of `BodyFault`.
///
/// All conditions of an `if`, those of its `elsif`s too, belong to that statement, which stands before the statements inside it.
/// `scope` is what is known at the beginning of the body, and stays as it is. No memory is reserved: `NoMemory` never comes.
#[tactic(auto, using(crate::proofs::FaultLaws::fault_laws))]
pub fn check_block(_alloc: Global, scope: &mut Scope, block: &Block) -> Result<(), BodyFault>
    ensures says { Says result (block_fault (scope_of scope.old) (block_of block.now)) }
    ensures ample { IfErr result (λ e. e ≡ fault.NoMemory → ⊥) }
    ensures same { scope_of scope.new ≡ scope_of scope.old }
{
    check_at(block, &Place::Body(scope))
}

/// Tells the first fault of a body as `check_block` does, by what is known at its beginning, which is the same where the scope is.
/// Each name is looked up in a set or a table, so that the time grows near-linearly with the body. For a call with more than 8
/// parameters memory is asked for, and done without where there is none: `NoMemory` never comes.
#[tactic(auto, using(crate::proofs::FaultLaws::fault_laws))]
pub fn check_known(known: &Known<'_, '_>, block: &Block) -> Result<(), BodyFault>
    ensures says { Says result (block_fault (known_scope known.now) (block_of block.now)) }
    ensures ample { IfErr result (λ e. e ≡ fault.NoMemory → ⊥) }
{
    check_at(block, &Place::Known(&*known))
}
