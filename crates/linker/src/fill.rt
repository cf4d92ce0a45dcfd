ghost use Rattle.std.specs.Prelude.{◌≡◌, IfOk, OnOk, suc};
ghost use Rattle.seq_tree.specs.Trees.{expression_of};
ghost use Rattle.linker.specs.Linking.{Added, Fills};
ghost use Rattle.linker.specs.Standing.{Reads, lists_of};

use crate::code::{Code, Ins};
use crate::expressions::link_expr;
use crate::nodes::Operand;
use crate::scope::Scope;
use seq_tree::{Expr, NoMemory};

/// The place before this one. The one error is that there is none.
pub(crate) fn before(end: u32) -> Result<u32, NoMemory>
    ensures { IfOk result (λ at. suc at ≡ end) }
{
    end.checked_sub(1).ok_or(NoMemory)
}

/// The place after this one. The one error is that no number tells it.
pub(crate) fn after(at: u32) -> Result<u32, NoMemory>
    ensures { IfOk result (λ end. end ≡ suc at) }
{
    at.checked_add(1).ok_or(NoMemory)
}

/// A number of items in 32 bits. The one error is that they don't tell it.
pub(crate) fn narrow(len: usize) -> Result<u32, NoMemory>
    ensures { IfOk result (λ count. count ≡ len) }
{
    u32::try_from(len).map_err(|_| NoMemory)
}

/// Writes an instruction at a place. The one error is that there is no such place.
pub(crate) fn fill(code: &mut Code, at: u32, ins: Ins) -> Result<(), NoMemory>
    ensures { OnOk result (Fills at ins (lists_of code.old) (lists_of code.new)) }
{
    let at = at as usize;
    if at < code.ins.len() {
        code.ins[at] = ins;
        Ok(())
    } else {
        Err(NoMemory)
    }
}

/// Adds the nodes of an expression.
pub(crate) fn add_expr(code: &mut Code, expr: &Expr, scope: &Scope) -> Result<Operand, NoMemory>
    ensures added { OnOk result (Added (lists_of code.old) (lists_of code.new)) }
    ensures reads { IfOk result (λ o. Reads (lists_of code.new) scope.now o (expression_of expr.now)) }
    ensures actuals { OnOk result (code.new.actuals.items ≡ code.old.actuals.items) }
{
    let linked = link_expr(&mut code.nodes, expr, scope)?;
    Ok(linked.operand)
}
