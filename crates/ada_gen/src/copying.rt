ghost use Rattle.std.specs.Prelude.{◌≡◌, IfOk, map};
ghost use Rattle.seq_tree.specs.Trees.{operation_of};

use seq_tree::{Datum, NoMemory, OpText};
use std::alloc::Global;

/// Equal variables with equal values.
pub(crate) fn copy_data(alloc: Global, vars: &[Datum]) -> Result<Vec<Datum>, NoMemory>
    ensures { IfOk result (λ v. v.items ≡ vars.now) }
{
    let mut copies = Vec::new(alloc);
    'vars: for var in vars {
        copies.push(var.copy(alloc)?)?;
    }
    Ok(copies)
}

/// Operations with equal trees.
pub(crate) fn copy_ops(alloc: Global, ops: &[OpText]) -> Result<Vec<OpText>, NoMemory>
    ensures { IfOk result (λ v. map operation_of v.items ≡ map operation_of ops.now) }
{
    let mut copies = Vec::new(alloc);
    'ops: for op in ops {
        copies.push(op.copy(alloc)?)?;
    }
    Ok(copies)
}
