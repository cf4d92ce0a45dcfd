ghost use Rattle.std.specs.Prelude.{◌≡◌, IfOk};
ghost use Rattle.std.specs.List.{list_any};
ghost use Rattle.seq_tree.specs.Calls.{same_op};
ghost use Rattle.seq_tree.specs.declared.tree.OpName.{OpName as OpTree};
ghost use Rattle.seq_cost.specs.Different.{call_of};
ghost use Rattle.name_sets.specs.Sets.{has_op};

use name_sets::Ops;
use seq_cost::Call;
use seq_tree::{NoMemory, OpName};
use std::alloc::Global;

/// The operations that an object requires, with a set of their names.
#[derive(Drop)]
pub struct Required<'a> {
    pub ops: &'a [OpName],
    set: Ops<'a>,
    ghost held: { (n : OpTree) → has_op set n ≡ list_any (λ need. same_op need n) ops.now },
}

impl<'a> Required<'a> {
    /// A set of these operations.
    pub fn new(alloc: Global, ops: &'a [OpName]) -> Result<Required<'a>, NoMemory>
        ensures { IfOk result (λ r. r.ops.now ≡ ops.entry.now) }
    {
        let mut set = Ops::new(alloc);
        'ops: for need in ops {
            set.add(alloc, &need.object, &need.op)?;
        }
        Ok(Required { ops, set })
    }

    /// Whether a call is one of these operations.
    pub fn has(&self, call: &Call<'a>) -> bool
        ensures { result ≡ list_any (same_op (call_of call.entry.now)) self.now.ops.now }
    {
        self.set.has(call.object, call.op)
    }
}
