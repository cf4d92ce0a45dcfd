ghost use Rattle.std.specs.Prelude.{◌≡◌, []};

use crate::nodes::{Node, Operand};
use std::alloc::Global;

/// An instruction, of 16 bytes. Places are those of instructions, slots those of variables.
#[derive(Clone, Copy)]
pub enum Ins {
    /// `null`.
    Null,
    /// `work` of so many ticks.
    Work(u32),
    /// An assignment.
    Assign { slot: u32, value: Operand },
    /// `put`.
    Put(Operand),
    /// A condition of an `if`: where it doesn't hold, it goes on at another place.
    Test { cond: Operand, other: u32 },
    /// `exit when`: where the condition holds, it goes on behind the loop.
    Exit { cond: Operand, to: u32 },
    /// It goes on there, in no time.
    Jump(u32),
    /// The first turn of a loop, which stands at `low`; its count of turns is kept in a slot, its variable in the next one.
    Begin { counter: u32, low: u32 },
    /// The end of a turn, and where the next one starts.
    Next { counter: u32, last: u32, start: u32 },
    /// A call of an operation, by its place among all of them: where its actuals stand, those that are handed in first, and how many slots
    /// for what is handed out stand behind these.
    Call { op: u32, actuals: u32, outs: u32 },
    /// The request of a task, by its place among the tasks.
    Request { task: u32, value: Option<Operand> },
    /// A call that leads nowhere.
    Nowhere,
    /// The end of an operation's body.
    Return,
    /// The end of an activation.
    Finish,
}

/// Linked code: instructions, the nodes of their expressions, and the actuals of calls.
#[derive(Drop)]
pub struct Code {
    pub ins: Vec<Ins>,
    pub nodes: Vec<Node>,
    pub actuals: Vec<Operand>,
}

impl Code {
    /// No code.
    pub fn new(alloc: Global) -> Code
        ensures ins { result.ins.items ≡ [] }
        ensures nodes { result.nodes.items ≡ [] }
        ensures actuals { result.actuals.items ≡ [] }
    {
        Code {
            ins: Vec::new(alloc),
            nodes: Vec::new(alloc),
            actuals: Vec::new(alloc),
        }
    }
}
