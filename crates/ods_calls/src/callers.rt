ghost use Rattle.std.specs.Prelude.{◌≡◌, ◌∷◌, ◌++◌, [], IfOk, OnOk, filter, flat_map, map};
ghost use Rattle.seq_tree.specs.Names.{Name as NameTree};
ghost use Rattle.seq_tree.specs.declared.tree.OpName.{OpName as OpTree};
ghost use Rattle.ods_index.specs.Calling.{calls_of};
ghost use Rattle.ods_calls.specs.Held.{is_held};
ghost use Rattle.ods_calls.specs.Requested.{object_caller, object_callers, op_caller, op_callers};
ghost use Rattle.ods_calls.specs.Requesters.{by_object, by_op};
ghost use Rattle.ods_calls.specs.Spreading.{IsSeen, found_all, found_more};
ghost use Rattle.seq_cost.specs.Different.{call_of};

use name_sets::{NameTable, OpTable, Ops};
use ods_index::{OpCalls, is_protected};
use seq_cost::Call;
use seq_tree::{Name, NoMemory};
use std::alloc::Global;

/// Adds an operation, where it wasn't found before.
#[tactic(auto, unfolding(crate::specs::Spreading::found_more))]
fn find<'a>(
    alloc: Global,
    op: &Call<'a>,
    seen: &mut Ops<'a>,
    found: &mut Vec<Call<'a>>,
) -> Result<(), NoMemory>
    requires { IsSeen seen.old (map call_of found.old.items) }
    ensures found { OnOk result (map call_of found.new.items ≡ found_more (map call_of found.old.items) (call_of op.entry.now)) }
    ensures seen { OnOk result (IsSeen seen.new (map call_of found.new.items)) }
{
    if seen.has(op.object, op.op) {
        return Ok(());
    }
    seen.add(alloc, op.object, op.op)?;
    found.push(*op)?;
    Ok(())
}

/// Adds operations that weren't found before.
fn find_all<'a>(
    alloc: Global,
    ops: &[Call<'a>],
    seen: &mut Ops<'a>,
    found: &mut Vec<Call<'a>>,
) -> Result<(), NoMemory>
    requires { IsSeen seen.old (map call_of found.old.items) }
    ensures found { OnOk result (map call_of found.new.items ≡ found_all (map call_of found.old.items) (map call_of ops.entry.now)) }
    ensures seen { OnOk result (IsSeen seen.new (map call_of found.new.items)) }
{
    'ops: for op in ops {
        find(alloc, op, seen, found)?;
    }
    Ok(())
}

/// Adds the callers of an operation, where they weren't found before.
#[tactic(auto, using(crate::proofs::FoundLaws::found_laws), unfolding(crate::specs::Requesters::by_op))]
fn follow<'a>(
    alloc: Global,
    callers: &OpTable<'a, Vec<Call<'a>>>,
    op: &Call<'a>,
    seen: &mut Ops<'a>,
    found: &mut Vec<Call<'a>>,
) -> Result<(), NoMemory>
    requires { IsSeen seen.old (map call_of found.old.items) }
    ensures found { OnOk result (map call_of found.new.items ≡ found_all (map call_of found.old.items) (by_op callers.entry.now (call_of op.entry.now))) }
    ensures seen { OnOk result (IsSeen seen.new (map call_of found.new.items)) }
{
    match callers.find(op.object, op.op) {
        None => Ok(()),
        Some(ops) => find_all(alloc, ops.as_slice(), seen, found),
    }
}

/// Adds the callers of these operations, where they weren't found before.
#[tactic(auto, using(crate::proofs::FoundLaws::found_laws))]
fn follow_all<'a>(
    alloc: Global,
    callers: &OpTable<'a, Vec<Call<'a>>>,
    ops: &[Call<'a>],
    seen: &mut Ops<'a>,
    found: &mut Vec<Call<'a>>,
) -> Result<(), NoMemory>
    requires { IsSeen seen.old (map call_of found.old.items) }
    ensures found { OnOk result (map call_of found.new.items
        ≡ found_all (map call_of found.old.items) (flat_map (by_op callers.entry.now) (map call_of ops.entry.now))) }
    ensures seen { OnOk result (IsSeen seen.new (map call_of found.new.items)) }
{
    'ops: for op in ops {
        follow(alloc, callers, op, seen, found)?;
    }
    Ok(())
}

/// Which protected operations call an operation, and which call operations of an object.
#[derive(Drop)]
pub(crate) struct Callers<'a> {
    ops: OpTable<'a, Vec<Call<'a>>>,
    objects: NameTable<'a, Vec<Call<'a>>>,
}

impl<'a> Callers<'a> {
    /// No calls.
    #[tactic(auto, unfolding(crate::specs::Requesters::by_op, crate::specs::Requesters::by_object))]
    fn new(alloc: Global) -> Callers<'a>
        ensures ops { (n : OpTree) → by_op result.ops n ≡ [] }
        ensures objects { (n : NameTree) → by_object result.objects n ≡ [] }
    {
        Callers {
            ops: OpTable::new(alloc),
            objects: NameTable::new(alloc),
        }
    }

    /// Adds a call.
    fn add_call(&mut self, alloc: Global, from: Call<'a>, to: &Call<'a>) -> Result<(), NoMemory>
        ensures ops { OnOk result ((n : OpTree) → by_op self.new.ops n ≡ by_op self.old.ops n
            ++ op_caller n (call_of from.entry) (call_of to.entry.now)) }
        ensures objects { OnOk result ((n : NameTree) → by_object self.new.objects n ≡ by_object self.old.objects n
            ++ object_caller n (call_of from.entry) (call_of to.entry.now)) }
    {
        let caller = vec![in alloc; from]?;
        self.ops.extend(alloc, to.object, to.op, caller)?;
        let again = vec![in alloc; from]?;
        self.objects.extend(to.object, again)?;
        Ok(())
    }

    /// Adds the calls of an operation.
    fn add_calls(
        &mut self,
        alloc: Global,
        from: Call<'a>,
        calls: &[Call<'a>],
    ) -> Result<(), NoMemory>
        ensures ops { OnOk result ((n : OpTree) → by_op self.new.ops n ≡ by_op self.old.ops n
            ++ flat_map (op_caller n (call_of from.entry)) (map call_of calls.entry.now)) }
        ensures objects { OnOk result ((n : NameTree) → by_object self.new.objects n ≡ by_object self.old.objects n
            ++ flat_map (object_caller n (call_of from.entry)) (map call_of calls.entry.now)) }
    {
        'calls: for to in calls {
            self.add_call(alloc, from, to)?;
        }
        Ok(())
    }

    /// Adds the calls of a body, where its object is protected.
    fn add_body(&mut self, alloc: Global, body: &OpCalls<'a>) -> Result<(), NoMemory>
        ensures ops { OnOk result ((n : OpTree) → by_op self.new.ops n ≡ by_op self.old.ops n
            ++ flat_map (op_callers n) (filter is_held (calls_of body.entry.now ∷ []))) }
        ensures objects { OnOk result ((n : NameTree) → by_object self.new.objects n ≡ by_object self.old.objects n
            ++ flat_map (object_callers n) (filter is_held (calls_of body.entry.now ∷ []))) }
    {
        if !is_protected(body.kind) {
            return Ok(());
        }
        let from = Call {
            object: body.object,
            op: body.op,
        };
        self.add_calls(alloc, from, body.meant.as_slice())
    }

    /// Which of these bodies call what, of protected objects.
    pub(crate) fn of_bodies(alloc: Global, calls: &[OpCalls<'a>]) -> Result<Callers<'a>, NoMemory>
        ensures ops { IfOk result (λ t. (n : OpTree) → by_op t.ops n ≡ flat_map (op_callers n) (filter is_held (map calls_of calls.entry.now))) }
        ensures objects { IfOk result (λ t. (n : NameTree) → by_object t.objects n
            ≡ flat_map (object_callers n) (filter is_held (map calls_of calls.entry.now))) }
    {
        let mut callers = Callers::new(alloc);
        'calls: for body in calls {
            callers.add_body(alloc, body)?;
        }
        Ok(callers)
    }

    /// The operations that call one of an object, each once.
    #[tactic(auto, using(crate::proofs::FoundLaws::found_laws), unfolding(crate::specs::Requesters::by_object))]
    pub(crate) fn of_object(&self, alloc: Global, object: &Name) -> Result<Vec<Call<'a>>, NoMemory>
        ensures { IfOk result (λ v. map call_of v.items ≡ found_all [] (by_object self.now.objects object.now)) }
    {
        let mut seen = Ops::new(alloc);
        let mut found = Vec::new(alloc);
        match self.objects.find(object) {
            None => Ok(found),
            Some(ops) => {
                find_all(alloc, ops.as_slice(), &mut seen, &mut found)?;
                Ok(found)
            }
        }
    }

    /// The operations that call one of these, each once.
    pub(crate) fn of_ops(&self, alloc: Global, ops: &[Call<'a>]) -> Result<Vec<Call<'a>>, NoMemory>
        ensures { IfOk result (λ v. map call_of v.items ≡ found_all [] (flat_map (by_op self.now.ops) (map call_of ops.entry.now))) }
    {
        let mut seen = Ops::new(alloc);
        let mut found = Vec::new(alloc);
        follow_all(alloc, &self.ops, ops, &mut seen, &mut found)?;
        Ok(found)
    }
}
