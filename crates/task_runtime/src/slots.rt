ghost use Rattle.std.specs.Prelude.{◌≡◌, ◌-◌, ◌<◌, ◌≤◌, ◌^◌, ◌++◌, [], drop, length, replicate, set, take, vec_capacity, IfOk};
ghost use Rattle.seq_tree.specs.Variables.{Variables};
ghost use Rattle.linker.specs.Slots.{slot_at, vars_at};
ghost use Rattle.task_runtime.specs.Slotted.{with_zeros};

use seq_tree::NoMemory;
use std::alloc::Global;
use std::marker::Model;

/// The slots of a task in one list: first those of the callers of the body that runs, the outermost first, and from the base on those of the
/// body. There is room for all of them, but they are written only as far as the task has come: the others hold 0. So a slot that is never
/// reached costs no memory, as a system gives none to room that nothing is written to.
#[derive(Drop)]
pub struct Slots {
    // The slots that are written.
    values: Vec<u32>,
    // How many slots the callers have: the place of the first one of the body that runs.
    base: usize,
    // How many slots there are.
    count: usize,
}

impl Model for Slots {
    ghost use Rattle.std.specs.Prelude.{◌≤◌, length, vec_capacity};
    ghost use Rattle.task_runtime.specs.Slotted.{Slotted, slotted, with_zeros};

    ghost Value = { Slotted };

    ghost view = { λ s. slotted s.base (with_zeros s.count s.values.items) };

    ghost invariant = { λ s. (s.base ≤ length s.values.items) × (length s.values.items ≤ s.count) × (s.count ≤ vec_capacity s.values) };
}

/// Adds slots that hold 0 to those that are written, until there are at least so many. There is room for them.
#[inline(never)]
fn fill(written: &mut Vec<u32>, count: usize)
    requires { count ≤ vec_capacity written.old }
    ensures items { written.new.items ≡ with_zeros count written.old.items }
    ensures room { vec_capacity written.new ≡ vec_capacity written.old }
{
    'slots: while written.len() < count {
        written.push_reserved(0);
    }
}

impl Slots {
    /// So many slots, which hold 0. The one error is a failed allocation. No later call takes memory.
    pub fn new(alloc: Global, count: usize) -> Result<Slots, NoMemory>
        ensures here { IfOk result (λ s. s.here ≡ replicate count 0) }
        ensures away { IfOk result (λ s. s.away ≡ []) }
        ensures small { IfOk result (λ s. count < 2 ^ 63) }
    {
        let values = Vec::with_capacity(alloc, count)?;
        Ok(Slots {
            values,
            base: 0,
            count,
        })
    }

    /// The slots of the body that runs, as far as they are written: a variable reads the same over them, since a slot that isn't there reads
    /// as 0.
    #[inline]
    pub fn here(&self) -> &[u32]
        ensures { (scope : Variables) → vars_at scope result.now ≡ vars_at scope self.now.here }
    {
        let (_, here) = self.values.split_at(self.base);
        here
    }

    /// What a slot of the body that runs holds.
    #[inline]
    pub fn get(&self, slot: usize) -> u32
        requires { slot < length self.now.here }
        ensures { result ≡ slot_at self.now.here slot }
    {
        let at = self.base + slot;
        if self.values.len() <= at {
            return 0;
        }
        self.values[at]
    }

    /// Puts a value in a slot of the body that runs.
    #[inline]
    pub fn put(&mut self, slot: usize, value: u32)
        requires { slot < length self.old.here }
        ensures here { self.new.here ≡ set self.old.here slot value }
        ensures away { self.new.away ≡ self.old.away }
    {
        let at = self.base + slot;
        if at < self.values.len() {
            self.values[at] = value;
        } else {
            fill(&mut self.values, at);
            self.values.push_reserved(value);
        }
    }

    /// Puts the first so many slots of the body away: another body begins in the others.
    pub fn enter(&mut self, count: usize)
        requires { count ≤ length self.old.here }
        ensures here { self.new.here ≡ drop count self.old.here }
        ensures away { self.new.away ≡ self.old.away ++ take count self.old.here }
    {
        self.base += count;
        fill(&mut self.values, self.base);
    }

    /// Takes so many slots back, the last of those that are away.
    pub fn leave(&mut self, count: usize)
        requires { count ≤ length self.old.away }
        ensures here { self.new.here ≡ drop (length self.old.away - count) self.old.away ++ self.old.here }
        ensures away { self.new.away ≡ take (length self.old.away - count) self.old.away }
    {
        self.base -= count;
    }
}
