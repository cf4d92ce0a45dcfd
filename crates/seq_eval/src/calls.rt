ghost use Rattle.std.specs.Prelude.{◌≡◌, None, Some, IfOk, OnOk, cond, find, length, map, zip};
ghost use Rattle.seq_tree.specs.Calls.{same_op};
ghost use Rattle.seq_tree.specs.Runs.{Asked, Plain, Protected};
ghost use Rattle.seq_tree.specs.Trees.{offer_of, operation_of};
ghost use Rattle.seq_tree.specs.declared.tree.OpName.{OpName};
ghost use Rattle.seq_eval.specs.Following.{callees, is_offered, is_plain};
ghost use Rattle.seq_eval.specs.Calls.{callee_of, calls_in, first_callee, found_in};

use name_sets::OpTable;
use seq_tree::{Callable, Name, NoMemory, OpText, Param};
use std::alloc::Global;

/// What a call leads to.
#[derive(Clone, Copy, Drop)]
pub(crate) enum Target<'a> {
    /// A passive operation, whose body is followed.
    Plain(&'a OpText),
    /// A protected operation, with its parameters.
    Protected(&'a [Param]),
    /// A request.
    Asked,
}

/// What calls lead to, by the names of the object and of the operation. A call is looked up in the time of the logarithm of the number of
/// operations.
#[derive(Drop)]
pub struct Calls<'a> {
    table: OpTable<'a, Target<'a>>,
}

impl<'a> Calls<'a> {
    /// No operations.
    #[tactic(auto, unfolding(crate::specs::Calls::found_in))]
    fn none(alloc: Global) -> Calls<'a>
        ensures { (n : OpName) → found_in result n ≡ None }
    {
        Calls {
            table: OpTable::new(alloc),
        }
    }

    /// What a call leads to, and `None` where it leads nowhere.
    #[tactic(auto, unfolding(crate::specs::Calls::found_in))]
    pub(crate) fn find(&self, object: &Name, op: &Name) -> Option<Target<'a>>
        ensures { result ≡ found_in self.now (record { object = object.now; op = op.now }) }
    {
        self.table.get(object, op)
    }

    /// Lets the calls of an operation lead to this, whatever they led to.
    #[tactic(auto, unfolding(crate::specs::Calls::found_in))]
    fn put(
        &mut self,
        alloc: Global,
        object: &'a Name,
        op: &'a Name,
        target: Target<'a>,
    ) -> Result<(), NoMemory>
        ensures { OnOk result ((n : OpName) → found_in self.new n
            ≡ cond (same_op (record { object = object.entry.now; op = op.entry.now }) n) (Some target.entry) (found_in self.old n)) }
    {
        self.table.put(alloc, object, op, target)
    }

    /// Lets the calls of these lead to requests, whatever they led to. From the last to the first, as for the others, so that of two with
    /// one name the first stays.
    fn add_requests(&mut self, alloc: Global, requests: &'a [Callable]) -> Result<(), NoMemory>
        ensures { OnOk result ((n : OpName) → callee_of (found_in self.new n)
            ≡ first_callee (λ o. Asked) (find (is_offered n.object n.op) (map offer_of requests.entry.now)) (callee_of (found_in self.old n))) }
    {
        let mut at = requests.len();
        'requests: while at > 0 {
            at -= 1;
            let request = &requests[at];
            self.put(alloc, &request.object, &request.sig.name, Target::Asked)?;
        }
        Ok(())
    }

    /// Lets the calls of these lead to protected operations, whatever they led to.
    fn add_shared(&mut self, alloc: Global, shared: &'a [Callable]) -> Result<(), NoMemory>
        ensures { OnOk result ((n : OpName) → callee_of (found_in self.new n)
            ≡ first_callee (λ o. Protected o.sig.params) (find (is_offered n.object n.op) (map offer_of shared.entry.now))
            (callee_of (found_in self.old n))) }
    {
        let mut at = shared.len();
        'shared: while at > 0 {
            at -= 1;
            let op = &shared[at];
            let target = Target::Protected(op.sig.params.as_slice());
            self.put(alloc, &op.object, &op.sig.name, target)?;
        }
        Ok(())
    }

    /// Lets the calls of these lead to passive operations, each of the object at its place, whatever they led to.
    fn add_passive(
        &mut self,
        alloc: Global,
        passive: &'a [OpText],
        owners: &'a [Name],
    ) -> Result<(), NoMemory>
        requires { length owners.now ≡ length passive.now }
        ensures { OnOk result ((n : OpName) → callee_of (found_in self.new n)
            ≡ first_callee (λ o. Plain o.1) (find (is_plain n.object n.op) (zip owners.entry.now (map operation_of passive.entry.now)))
            (callee_of (found_in self.old n))) }
    {
        let mut at = passive.len();
        'passive: while at > 0 {
            at -= 1;
            let op = &passive[at];
            self.put(alloc, &owners[at], &op.sig.name, Target::Plain(op))?;
        }
        Ok(())
    }

    /// What calls lead to where these operations may be called: `owners` has the object of each of the `passive` operations, `shared` the
    /// protected operations, and `requests` the operations by which tasks are requested. Of two operations of one name the first counts, and a
    /// passive one before a protected one before a request.
    ///
    /// Time and memory grow with the number of operations, times its logarithm for the time.
    pub fn of(
        alloc: Global,
        passive: &'a [OpText],
        owners: &'a [Name],
        shared: &'a [Callable],
        requests: &'a [Callable],
    ) -> Result<Calls<'a>, NoMemory>
        requires { length owners.now ≡ length passive.now }
        ensures { IfOk result (λ c. calls_in c ≡ callees owners.entry.now (map operation_of passive.entry.now) (map offer_of shared.entry.now)
            (map offer_of requests.entry.now)) }
    {
        let mut calls = Calls::none(alloc);
        calls.add_requests(alloc, requests)?;
        calls.add_shared(alloc, shared)?;
        calls.add_passive(alloc, passive, owners)?;
        Ok(calls)
    }
}
