ghost use Rattle.std.specs.Prelude.{◌≡◌, ℕ};
ghost use Rattle.seq_tree.specs.Dearest.{is_call_of};
ghost use Rattle.seq_tree.specs.Names.{Name as NameTree};
ghost use Rattle.seq_cost.specs.Callees.{callee_cost, callee_starts};
ghost use Rattle.name_sets.specs.Tables.{number_at};

use name_sets::OpTable;
use seq_tree::{Name, OpName};

/// What the body of an operation costs, in ticks, besides the call of it.
#[derive(Drop, Debug)]
pub struct Callee {
    pub name: OpName,
    pub cost: u32,
}

/// The greatest number of calls, of an operation that is counted, on a path of the body of this one.
#[derive(Drop, Debug)]
pub struct Started {
    pub name: OpName,
    pub starts: u32,
}

/// An account of what operations count for their callers, besides the call.
pub trait Account {
    /// What each operation counts.
    ghost counts: { Self → NameTree → NameTree → ℕ };

    /// What an operation counts.
    fn count(&self, object: &Name, op: &Name) -> u32
        ensures { result ≡ counts self.now object.now op.now };
}

/// Callees in a list, by the first of each name; one without an entry counts nothing. Each search goes along the list.
#[derive(Drop)]
pub(crate) struct Listed<'a> {
    pub(crate) callees: &'a [Callee],
}

/// The same, by the calls that bodies make of an operation.
#[derive(Drop)]
pub(crate) struct ListedStarts<'a> {
    pub(crate) callees: &'a [Started],
}

/// Whether a call is one of this operation.
pub(crate) fn is_call_of(target: &OpName, object: &Name, op: &Name) -> bool
    ensures { result ≡ is_call_of target.now object.now op.now }
{
    target.object.bytes() == object.bytes() && target.op.bytes() == op.bytes()
}

impl Account for Listed<'_> {
    ghost counts = { λ l. callee_cost l.callees.now };

    fn count(&self, object: &Name, op: &Name) -> u32
        ensures { result ≡ callee_cost self.now.callees.now object.now op.now }
    {
        'callees: for callee in self.callees {
            if is_call_of(&callee.name, object, op) {
                return callee.cost;
            }
        }
        0
    }
}

impl Account for ListedStarts<'_> {
    ghost counts = { λ l. callee_starts l.callees.now };

    fn count(&self, object: &Name, op: &Name) -> u32
        ensures { result ≡ callee_starts self.now.callees.now object.now op.now }
    {
        'callees: for callee in self.callees {
            if is_call_of(&callee.name, object, op) {
                return callee.starts;
            }
        }
        0
    }
}

impl Account for OpTable<'_, u32> {
    ghost counts = { number_at };

    fn count(&self, object: &Name, op: &Name) -> u32
        ensures { result ≡ number_at self.now object.now op.now }
    {
        self.get(object, op).unwrap_or(0)
    }
}
