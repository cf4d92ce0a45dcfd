ghost use Rattle.std.specs.Prelude.{◌≡◌, ◌<◌, ◌≤◌, ◌++◌, [], ◌∷◌, length, IfOk};
ghost use Rattle.std.specs.Option.{option_to_list};
ghost use Rattle.task_runtime.specs.Framed.{IsInnermost};

use crate::piece::Frame;
use seq_tree::NoMemory;
use smallvec::SmallVec;
use std::alloc::Global;
use std::marker::Model;

/// The calls that are under way, the innermost last, with room that is reserved once. Contracts see the calls, and how many may be under way.
#[derive(Drop)]
pub struct Frames<'a> {
    // Each place that holds a call holds one that is there. An empty place inside the value needs something that stands for no call.
    calls: SmallVec<Option<Frame<'a>>, 2>,
}

impl<'a> Model for Frames<'a> {
    ghost use Rattle.std.specs.Coded.{codes};
    ghost use Rattle.task_runtime.specs.Framed.{AreThere, Framed, framed};
    ghost use Rattle.seq_tree.specs.contracts.tree.OpText as op;

    ghost Value = { Framed };

    ghost coded = { Prim.hlevel (codes, op.the_row.coded) };

    ghost view = { λ f. framed f.calls.items f.calls.capacity };

    ghost invariant = { λ f. AreThere f.calls.items };
}

impl<'a> Frames<'a> {
    /// No calls, with room for so many. The one error is a failed allocation. No later call takes memory.
    pub fn new(alloc: Global, count: usize) -> Result<Frames<'a>, NoMemory>
        ensures items { IfOk result (λ f. f.items ≡ []) }
        ensures room { IfOk result (λ f. count ≤ f.room) }
    {
        let calls = SmallVec::with_capacity(alloc, count)?;
        Ok(Frames { calls })
    }

    /// How many calls may be under way.
    pub fn room(&self) -> usize
        ensures { result ≡ self.now.room }
    {
        self.calls.capacity()
    }

    /// Adds a call inside the others.
    pub fn push(&mut self, frame: Frame<'a>)
        requires { length self.old.items < self.old.room }
        ensures items { self.new.items ≡ self.old.items ++ frame.entry ∷ [] }
        ensures room { self.new.room ≡ self.old.room }
    {
        self.calls.push_reserved(Some(frame));
    }

    /// Takes the innermost call off, where there is one.
    pub fn pop(&mut self) -> Option<Frame<'a>>
        ensures items { self.old.items ≡ self.new.items ++ option_to_list result }
        ensures last { IsInnermost self.old.items result }
        ensures room { self.new.room ≡ self.old.room }
    {
        let Some(frame) = self.calls.pop() else {
            return None;
        };
        frame
    }

    /// The innermost call, where there is one.
    pub fn last(&self) -> Option<Frame<'a>>
        ensures { IsInnermost self.now.items result }
    {
        match self.calls.as_slice().split_last() {
            Some((frame, _)) => *frame,
            None => None,
        }
    }
}
