ghost use Rattle.std.specs.Prelude.{◌≡◌};
ghost use Rattle.seq_cost.specs.Counting.{weights_of};

use crate::accounts::{Account, is_call_of};
use seq_tree::{Costs, Name, OpName};

/// What is counted along a path.
#[derive(Drop)]
pub(crate) enum Counted<'a, A> {
    /// The ticks of all statements.
    Ticks { costs: &'a Costs, account: &'a A },
    /// The calls of an operation.
    Calls { target: &'a OpName },
    /// The calls of an operation, and those in the bodies of what is called.
    Through { target: &'a OpName, account: &'a A },
    /// What an account says of each call.
    Weighed { account: &'a A },
}

/// No costs.
const FREE: Costs = Costs {
    assign: 0,
    test: 0,
    turn: 0,
    call: 0,
    nothing: 0,
    put: 0,
    finish: 0,
};

impl<'a, A: Account> Counted<'a, A> {
    /// What the parts of statements count.
    pub(crate) fn costs(&self) -> Costs
        ensures { result ≡ (weights_of A.counts self.now).costs }
    {
        match self {
            Counted::Ticks { costs, .. } => **costs,
            Counted::Calls { .. } | Counted::Through { .. } | Counted::Weighed { .. } => FREE,
        }
    }

    /// What `work` with this number counts.
    pub(crate) fn work(&self, ticks: u32) -> u32
        ensures { result ≡ (weights_of A.counts self.now).work ticks }
    {
        match self {
            Counted::Ticks { .. } => ticks,
            Counted::Calls { .. } | Counted::Through { .. } | Counted::Weighed { .. } => 0,
        }
    }

    /// What a call counts, by what is called.
    pub(crate) fn called(&self, object: &Name, op: &Name) -> u32
        ensures { result ≡ (weights_of A.counts self.now).called object.now op.now }
    {
        match self {
            Counted::Ticks { account, .. } => account.count(object, op),
            Counted::Calls { target } => { if is_call_of(target, object, op) { 1 } else { 0 } }
            Counted::Through { target, account } => {
                if is_call_of(target, object, op) {
                    1
                } else {
                    account.count(object, op)
                }
            }
            Counted::Weighed { account } => account.count(object, op),
        }
    }
}
