use linker::{Ins, OpBody};

/// A request that is under way: the task that is requested, by its place among the tasks from 0, and the value.
#[derive(Clone, Copy)]
pub struct Request {
    pub task: usize,
    pub value: Option<u32>,
}

/// The first of the pieces that a task has left.
#[derive(Clone, Copy)]
pub enum Piece {
    /// The instruction at the task's place. A `Return` here ends the body of a passive operation.
    Here(Ins),
    /// The next turn of a loop, which was counted at the end of the turn before, where the task's place still is: the slot of that count, and
    /// where the turn starts.
    Turn { counter: u32, start: u32 },
    /// The end of the body of an operation of a protected object.
    Close,
    /// The first part of a request: its value is kept.
    Keep(Request),
    /// The second part: the barrier opens.
    Open(Request),
    /// The end of a request.
    Requested(Request),
}

/// A call that is under way.
#[derive(Clone, Copy, Drop)]
pub struct Frame<'a> {
    /// The operation, and where its body starts in code.
    pub body: OpBody<'a>,
    pub start: u32,
    /// Where the call stands in code.
    pub at: usize,
    /// How many slots its caller has.
    pub away: usize,
}

/// An operation of a protected object: the place of the object among the objects and of the operation among those of its unit, from 0.
#[derive(Clone, Copy, Debug, PartialEq, Eq)]
pub struct Entry {
    pub object: usize,
    pub place: usize,
}

/// What a piece reaches before its effect.
#[derive(Clone, Copy, Debug, PartialEq, Eq)]
pub enum Deed {
    /// Nothing but the task itself.
    Own,
    /// A protected object, which it enters.
    Enter(Entry),
    /// A protected object, which it leaves.
    Leave(Entry),
    /// The control structure of the task at this place, which it enters.
    Ask(usize),
}
