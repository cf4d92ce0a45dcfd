ghost use Rattle.std.specs.Prelude.{◌≡◌, ◌++◌, ◌<◌, ◌≤◌, ◌^◌, [], IfOk, length};
ghost use Rattle.seq_tree.specs.Expressions.{Expression};
ghost use Rattle.seq_tree.specs.Values.{value};
ghost use Rattle.seq_tree.specs.Variables.{Variables, written};
ghost use Rattle.machine.specs.Releases.{parameter};
ghost use Rattle.linker.specs.Nodes.{AreOrdered};
ghost use Rattle.linker.specs.Slots.{vars_at};
ghost use Rattle.linker.specs.Programs.{task_part};
ghost use Rattle.linker.specs.Scopes.{slots_of};
ghost use Rattle.linker.specs.Standing.{Reads, lists_of};
ghost use Rattle.linker.specs.declared.program.LinkedUnits.{LinkedUnits as Linked};
ghost use Rattle.task_runtime.specs.Written.{data_names, thread_of, timing_of};

use crate::frames::Frames;
use crate::opening::{open_data, open_params};
use crate::reserve::Room;
use crate::slots::Slots;
use crate::thread::{Thread, Timing};
use linker::{Code, Operand, value_at};
use seq_tree::NoMemory;
use std::alloc::Global;
use trace_tree::Values;

/// The stacks of a task: its slots, and the calls that are under way, the innermost last. There is room in both for the deepest chain of calls
/// that its block leads to.
#[derive(Drop)]
pub struct Stack<'a> {
    pub thread: Thread<'a>,
    /// Where the block of the task starts in code.
    pub start: u32,
    pub slots: Slots,
    pub frames: Frames<'a>,
}

impl<'a> Stack<'a> {
    ghost use Rattle.task_runtime.specs.Bodies.{size_of};
    ghost use Rattle.task_runtime.specs.Lefts.{running_of};
    ghost use Rattle.task_runtime.specs.Sounds.{IsStacked, owner_of};

    /// The stacks of a task before its first activation, with so much room, its data as they are written. The one error is a failed allocation.
    pub fn new(
        alloc: Global,
        thread: Thread<'a>,
        start: u32,
        room: Room,
    ) -> Result<Stack<'a>, NoMemory>
        requires { room.slots < 2 ^ 63 → length thread.data.now ≤ room.slots }
        ensures thread { IfOk result (λ s. s.thread ≡ thread.entry) }
        ensures start { IfOk result (λ s. s.start ≡ start) }
        ensures vars { IfOk result (λ s. vars_at (slots_of (data_names thread.entry)) s.slots.here ≡ written thread.entry.data.now) }
        ensures count { IfOk result (λ s. length s.slots.here ≡ room.slots) }
        ensures small { IfOk result (λ s. room.slots < 2 ^ 63) }
        ensures none { IfOk result (λ s. s.slots.away ≡ []) }
        ensures frames { IfOk result (λ s. s.frames.items ≡ []) }
        ensures room { IfOk result (λ s. room.bodies ≤ s.frames.room) }
    {
        let mut slots = Slots::new(alloc, room.slots)?;
        open_data(&mut slots, thread.data.len(), thread.data);
        let frames = Frames::new(alloc, room.bodies)?;
        Ok(Stack {
            thread,
            start,
            slots,
            frames,
        })
    }

    /// How many slots the body that runs has.
    pub fn size(&self) -> usize
        requires { (c : Linked) × IsStacked c self.now }
        ensures { result ≡ size_of (running_of self.now) }
    {
        match self.frames.last() {
            Some(frame) => {
                let op = frame.body.op;
                op.sig.params.len() + op.locals.len() + frame.body.vars.len() + 194
            }
            None => match self.thread.timing {
                Timing::Periodic { .. } => self.thread.data.len() + 194,
                Timing::Requested { op, .. } => op.params.len() + self.thread.data.len() + 194,
            },
        }
    }

    /// Where a protected object has the operation of the innermost call, where there is one.
    pub fn owner(&self) -> Option<(usize, usize)>
        ensures { result ≡ owner_of self.now }
    {
        match self.frames.last() {
            Some(frame) => frame.body.owner,
            None => None,
        }
    }

    /// The value of an operand, over the slots of the body that runs.
    pub fn value(&self, code: &Code, operand: Operand) -> u32
        requires ordered { AreOrdered code.now.nodes.items }
        requires reads { (scope : Variables) × (e : Expression) × Reads (lists_of code.now) scope operand e }
        ensures { (scope : Variables) (e : Expression) → Reads (lists_of code.now) scope operand e
            → result ≡ value e (vars_at scope self.now.slots.here) }
    {
        value_at(&code.nodes, operand, self.slots.here())
    }

    /// Opens an activation, with the value that was requested, where there is one: of a task that runs no body.
    pub fn open(&mut self, value: Option<u32>)
        requires { length ((task_part (thread_of self.old.thread)).names) ≤ length self.old.slots.here }
        ensures vars { vars_at (slots_of ((task_part (thread_of self.old.thread)).names)) self.new.slots.here
            ≡ parameter (timing_of self.old.thread.timing) value ++ vars_at (slots_of (data_names self.old.thread)) self.old.slots.here }
        ensures count { length self.new.slots.here ≡ length self.old.slots.here }
        ensures away { self.new.slots.away ≡ self.old.slots.away }
        ensures frames { self.new.frames ≡ self.old.frames }
        ensures thread { self.new.thread ≡ self.old.thread }
        ensures start { self.new.start ≡ self.old.start }
    {
        match self.thread.timing {
            Timing::Periodic { .. } => {}
            Timing::Requested { op, .. } => {
                let mut values = Values::new();
                if let Some(value) = value {
                    values.push(value);
                }
                let top = self.thread.data.len() + op.params.len();
                open_params(&mut self.slots, top, &op.params, values.as_slice());
            }
        }
    }
}
