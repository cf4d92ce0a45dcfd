ghost use Rattle.std.specs.Prelude.{◌≡◌, IfOk, ℕ, suc, cond, nat_le};
ghost use Rattle.seq_tree.specs.Names.{Name as NameBytes};
ghost use Rattle.seq_tree.specs.Statements.{Null, Assign, Work, Put, ExitWhen, For, Statements};
ghost use Rattle.seq_tree.specs.Trees.{expression_of};
ghost use Rattle.seq_tree.specs.Variables.{Variables};
ghost use Rattle.law_flat_code.specs.Codes.{in_turn, next_slot};
ghost use Rattle.linker.specs.Leads.{Leads};
ghost use Rattle.linker.specs.Linking.{LinksBlock, LinksStatement};
ghost use Rattle.linker.specs.Standing.{Lists, lists_of, target_slot};
ghost use Rattle.linker.specs.declared.code.Ins.TheVariants as InsIs;

use crate::code::{Code, Ins};
use crate::fill::{add_expr, before, fill};
use crate::scope::Scope;
use seq_eval::Lookup;
use seq_tree::{Expr, Name, NoMemory};

/// Links `null`.
pub(crate) fn link_null(code: &mut Code, end: u32) -> Result<u32, NoMemory>
    ensures { IfOk result (λ at. (leads : NameBytes → NameBytes → Leads) (scope : Variables) (out : ℕ)
        → LinksStatement leads scope out end (lists_of code.old) (lists_of code.new) at Null) }
{
    let at = before(end)?;
    fill(code, at, Ins::Null)?;
    Ok(at)
}

/// Links `work`.
pub(crate) fn link_work(code: &mut Code, ticks: u32, end: u32) -> Result<u32, NoMemory>
    ensures { IfOk result (λ at. (leads : NameBytes → NameBytes → Leads) (scope : Variables) (out : ℕ)
        → LinksStatement leads scope out end (lists_of code.old) (lists_of code.new) at (Work ticks)) }
{
    let at = before(end)?;
    fill(code, at, Ins::Work(ticks))?;
    Ok(at)
}

/// The slot that a value goes to: that of the variable, and one that no variable has where there is none.
pub(crate) fn slot_of(name: &Name, scope: &Scope) -> Result<u32, NoMemory>
    ensures { IfOk result (λ slot. slot ≡ target_slot name.now scope.now) }
{
    match scope.value(name) {
        Some(slot) => Ok(slot),
        None => scope.next(),
    }
}

/// Links an assignment.
pub(crate) fn link_assign(
    code: &mut Code,
    target: &Name,
    value: &Expr,
    scope: &Scope,
    end: u32,
) -> Result<u32, NoMemory>
    ensures { IfOk result (λ at. (leads : NameBytes → NameBytes → Leads) (out : ℕ)
        → LinksStatement leads scope.now out end (lists_of code.old) (lists_of code.new) at (Assign target.now (expression_of value.now))) }
{
    let slot = slot_of(target, scope)?;
    let value = add_expr(code, value, scope)?;
    let at = before(end)?;
    fill(code, at, Ins::Assign { slot, value })?;
    Ok(at)
}

/// Links `put`.
pub(crate) fn link_put(
    code: &mut Code,
    value: &Expr,
    scope: &Scope,
    end: u32,
) -> Result<u32, NoMemory>
    ensures { IfOk result (λ at. (leads : NameBytes → NameBytes → Leads) (out : ℕ)
        → LinksStatement leads scope.now out end (lists_of code.old) (lists_of code.new) at (Put (expression_of value.now))) }
{
    let value = add_expr(code, value, scope)?;
    let at = before(end)?;
    fill(code, at, Ins::Put(value))?;
    Ok(at)
}

/// Links `exit when`, where the loop is left to a place.
pub(crate) fn link_exit(
    code: &mut Code,
    condition: &Expr,
    scope: &Scope,
    out: u32,
    end: u32,
) -> Result<u32, NoMemory>
    ensures { IfOk result (λ at. (leads : NameBytes → NameBytes → Leads)
        → LinksStatement leads scope.now out end (lists_of code.old) (lists_of code.new) at (ExitWhen (expression_of condition.now))) }
{
    let cond = add_expr(code, condition, scope)?;
    let at = before(end)?;
    fill(code, at, Ins::Exit { cond, to: out })?;
    Ok(at)
}

/// How a loop begins, by whether it has a turn.
fn first_turn(counter: u32, low: u32, high: u32, behind: u32) -> Ins
    ensures { result ≡ cond (nat_le low high) (InsIs.Begin counter low) (InsIs.Jump behind) }
{
    if low <= high {
        Ins::Begin { counter, low }
    } else {
        Ins::Jump(behind)
    }
}

/// Links the beginning of a loop and the end of its turns, around its body, which is linked from `start` on up to `next`.
pub(crate) fn close_loop(
    code: &mut Code,
    counter: u32,
    low: u32,
    high: u32,
    start: u32,
    end: u32,
) -> Result<u32, NoMemory>
    ensures { IfOk result (λ at. (leads : NameBytes → NameBytes → Leads) (name : NameBytes) (scope : Variables) (out next : ℕ) (body : Statements)
        (from : Lists) → counter ≡ next_slot scope → suc next ≡ end
        → LinksBlock leads (in_turn name scope) end next from (lists_of code.old) start body
        → LinksStatement leads scope out end from (lists_of code.new) at (For name low high body)) }
{
    let next = before(end)?;
    fill(
        code,
        next,
        Ins::Next {
            counter,
            last: high,
            start,
        },
    )?;
    let at = before(start)?;
    fill(code, at, first_turn(counter, low, high, end))?;
    Ok(at)
}
