ghost use Rattle.std.specs.Prelude.{◌≡◌, ◌+◌, IfOk, OnOk, Some, ℕ, [], drop, length, map};
ghost use Rattle.seq_tree.specs.Trees.{expression_of};
ghost use Rattle.seq_tree.specs.Variables.{target_by, targets};
ghost use Rattle.seq_tree.specs.declared.tree.Mode.TheVariants.{Out};
ghost use Rattle.linker.specs.Leads.{Request as Requests};
ghost use Rattle.linker.specs.Linking.{Added};
ghost use Rattle.linker.specs.Standing.{AddsTarget, AddsValue, CallStands, TargetsStand, ValuesStand, first_or_0, lists_of, values_in};
ghost use Rattle.linker.specs.declared.code.Ins.TheVariants as InsIs;

use crate::code::Code;
use crate::fill::{add_expr, narrow};
use crate::nodes::Operand;
use crate::plain::slot_of;
use crate::scope::Scope;
use seq_tree::{Expr, Mode, NoMemory, Param};

/// The place behind the last of the actuals. The one error is that no number tells it.
fn place(code: &Code) -> Result<u32, NoMemory>
    ensures { IfOk result (λ at. at ≡ length code.now.actuals.items) }
{
    narrow(code.actuals.len())
}

/// Adds the operand of an actual, where it is handed in.
fn add_value(code: &mut Code, mode: Mode, actual: &Expr, scope: &Scope) -> Result<(), NoMemory>
    ensures added { OnOk result (Added (lists_of code.old) (lists_of code.new)) }
    ensures value { OnOk result (AddsValue scope.now mode (expression_of actual.now) (lists_of code.old) (lists_of code.new)) }
{
    match mode {
        Mode::In => {
            let value = add_expr(code, actual, scope)?;
            code.actuals.push(value)?;
            Ok(())
        }
        Mode::Out => Ok(()),
    }
}

/// Adds the number 0, where an actual is handed in that isn't there.
fn add_nothing(code: &mut Code, mode: Mode, scope: &Scope) -> Result<(), NoMemory>
    ensures added { OnOk result (Added (lists_of code.old) (lists_of code.new)) }
    ensures value { OnOk result (AddsValue scope.now mode (first_or_0 []) (lists_of code.old) (lists_of code.new)) }
{
    match mode {
        Mode::In => {
            code.actuals.push(Operand::Number(0))?;
            Ok(())
        }
        Mode::Out => Ok(()),
    }
}

/// Adds the operand of the first actual, where it is handed in, and tells the others.
fn add_first<'e>(
    code: &mut Code,
    mode: Mode,
    actuals: &'e [Expr],
    scope: &Scope,
) -> Result<&'e [Expr], NoMemory>
    ensures added { OnOk result (Added (lists_of code.old) (lists_of code.new)) }
    ensures value { OnOk result (AddsValue scope.now mode (first_or_0 (map expression_of actuals.entry.now)) (lists_of code.old)
        (lists_of code.new)) }
    ensures others { IfOk result (λ rest. map expression_of rest.now ≡ drop 1 (map expression_of actuals.entry.now)) }
{
    match actuals.split_first() {
        None => {
            add_nothing(code, mode, scope)?;
            Ok(actuals)
        }
        Some((actual, rest)) => {
            add_value(code, mode, actual, scope)?;
            Ok(rest)
        }
    }
}

/// Adds the operands of what is handed in, and tells where they begin.
pub(crate) fn add_values(
    code: &mut Code,
    params: &[Param],
    actuals: &[Expr],
    scope: &Scope,
) -> Result<u32, NoMemory>
    ensures added { OnOk result (Added (lists_of code.old) (lists_of code.new)) }
    ensures stand { IfOk result (λ first. ValuesStand (lists_of code.new) scope.now first (values_in params.now (map expression_of actuals.now))) }
    ensures long { IfOk result (λ first. first + length (values_in params.now (map expression_of actuals.now)) ≡ length code.new.actuals.items) }
{
    let first = place(code)?;
    let mut left = params;
    let mut rest = actuals;
    'params: while let Some((param, others)) = left.split_first() {
        left = others;
        let behind = add_first(code, param.mode, rest, scope)?;
        rest = behind;
    }
    Ok(first)
}

/// Adds the slot of a variable that a value is handed out to. Nothing else gets one.
fn put_target(code: &mut Code, actual: &Expr, scope: &Scope) -> Result<(), NoMemory>
    ensures added { OnOk result (Added (lists_of code.old) (lists_of code.new)) }
    ensures target { OnOk result (AddsTarget scope.now (target_by Out (expression_of actual.now) []) (lists_of code.old) (lists_of code.new)) }
{
    match actual {
        Expr::Variable(name) => {
            let slot = slot_of(name, scope)?;
            code.actuals.push(Operand::Slot(slot))?;
            Ok(())
        }
        Expr::Number(_) => Ok(()),
        Expr::Paren(_) => Ok(()),
        Expr::Not(_) => Ok(()),
        Expr::Binary(_, _, _) => Ok(()),
    }
}

/// Adds the slot of a target, where it is one.
fn add_target(code: &mut Code, mode: Mode, actual: &Expr, scope: &Scope) -> Result<(), NoMemory>
    ensures added { OnOk result (Added (lists_of code.old) (lists_of code.new)) }
    ensures target { OnOk result (AddsTarget scope.now (target_by mode (expression_of actual.now) []) (lists_of code.old) (lists_of code.new)) }
{
    match mode {
        Mode::In => Ok(()),
        Mode::Out => put_target(code, actual, scope),
    }
}

/// Adds the slots of targets.
fn put_targets(
    code: &mut Code,
    params: &[Param],
    actuals: &[Expr],
    scope: &Scope,
) -> Result<(), NoMemory>
    ensures added { OnOk result (Added (lists_of code.old) (lists_of code.new)) }
    ensures stand { OnOk result (TargetsStand (lists_of code.new) scope.now (length code.old.actuals.items)
        (targets params.now (map expression_of actuals.now))) }
    ensures long { OnOk result (length code.old.actuals.items + length (targets params.now (map expression_of actuals.now))
        ≡ length code.new.actuals.items) }
{
    let mut left = params;
    let mut rest = actuals;
    'params: while let Some((param, others)) = left.split_first() {
        let Some((actual, more)) = rest.split_first() else {
            return Ok(());
        };
        left = others;
        rest = more;
        add_target(code, param.mode, actual, scope)?;
    }
    Ok(())
}

/// Adds the slots of targets, and tells how many they are.
pub(crate) fn add_targets(
    code: &mut Code,
    params: &[Param],
    actuals: &[Expr],
    scope: &Scope,
) -> Result<u32, NoMemory>
    ensures added { OnOk result (Added (lists_of code.old) (lists_of code.new)) }
    ensures stand { OnOk result (TargetsStand (lists_of code.new) scope.now (length code.old.actuals.items)
        (targets params.now (map expression_of actuals.now))) }
    ensures count { IfOk result (λ outs. outs ≡ length (targets params.now (map expression_of actuals.now))) }
{
    let start = place(code)?;
    put_targets(code, params, actuals, scope)?;
    let end = place(code)?;
    Ok(end - start)
}

/// Adds the operand of the value of a request, where there is one.
pub(crate) fn first_value(
    code: &mut Code,
    actuals: &[Expr],
    scope: &Scope,
) -> Result<Option<Operand>, NoMemory>
    ensures added { OnOk result (Added (lists_of code.old) (lists_of code.new)) }
    ensures stands { IfOk result (λ v. (task : ℕ) → CallStands (lists_of code.new) scope.now (Requests task) (map expression_of actuals.now)
        (Some (InsIs.Request task v))) }
{
    match actuals.split_first() {
        None => Ok(None),
        Some((actual, _)) => {
            let value = add_expr(code, actual, scope)?;
            Ok(Some(value))
        }
    }
}
