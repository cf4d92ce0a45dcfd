ghost use Rattle.std.specs.Prelude.{◌≡◌, IfOk, OnOk, Some, ℕ, map};
ghost use Rattle.seq_tree.specs.Statements.{Call};
ghost use Rattle.seq_tree.specs.Trees.{expression_of};
ghost use Rattle.linker.specs.Linking.{Added, LinksStatement};
ghost use Rattle.linker.specs.Standing.{CallStands, lists_of};
ghost use Rattle.linker.specs.Targets.{leads_of};

use crate::actuals::{add_targets, add_values, first_value};
use crate::callees::{Calls, Target};
use crate::code::{Code, Ins};
use crate::fill::{before, fill};
use crate::scope::Scope;
use seq_tree::{Expr, Name, NoMemory};

/// Adds the actuals of a call, by what it leads to, and tells its instruction.
fn called(code: &mut Code, target: Target, actuals: &[Expr], scope: &Scope) -> Result<Ins, NoMemory>
    ensures added { OnOk result (Added (lists_of code.old) (lists_of code.new)) }
    ensures stands { IfOk result (λ i. CallStands (lists_of code.new) scope.now (leads_of target.entry) (map expression_of actuals.now) (Some i)) }
{
    match target {
        Target::Body { place, params } => {
            let first = add_values(code, params, actuals, scope)?;
            let outs = add_targets(code, params, actuals, scope)?;
            Ok(Ins::Call {
                op: place,
                actuals: first,
                outs,
            })
        }
        Target::Request(task) => {
            let value = first_value(code, actuals, scope)?;
            Ok(Ins::Request { task, value })
        }
        Target::Nowhere => Ok(Ins::Nowhere),
    }
}

/// Links a call, by what it leads to.
pub(crate) fn link_call<C: Calls>(
    code: &mut Code,
    unit: &Name,
    op: &Name,
    actuals: &[Expr],
    scope: &Scope,
    calls: &C,
    end: u32,
) -> Result<u32, NoMemory>
    ensures { IfOk result (λ at. (out : ℕ)
        → LinksStatement (C.leads calls.now) scope.now out end (lists_of code.old) (lists_of code.new) at
        (Call unit.now op.now (map expression_of actuals.now))) }
{
    let ins = called(code, calls.target(unit, op), actuals, scope)?;
    let at = before(end)?;
    fill(code, at, ins)?;
    Ok(at)
}
