ghost use Rattle.std.specs.Prelude.{◌≡◌, ◌+◌, ◌<◌, ◌≤◌, ◌^◌, ◌++◌, ◌∷◌, ℕ, [], IfOk, IfSome, IsSome, None, Some, map, min, length, slice_get, vec_capacity};
ghost use Rattle.ada_tree.specs.Trees.{unit_of};
ghost use Rattle.seq_tree.specs.Variables.{written};
ghost use Rattle.machine.specs.Deeds as deeds;
ghost use Rattle.machine.specs.Pieces.{Finishing, pieces, work_ticks};
ghost use Rattle.machine.specs.Releases.{parameter};
ghost use Rattle.machine.specs.Systems.{ProtectedUnit};
ghost use Rattle.linker.specs.Programs.{AreLinked, datum_names};
ghost use Rattle.linker.specs.Standing.{lists_of};
ghost use Rattle.linker.specs.Callees.{OpBody as OpTree};
ghost use Rattle.linker.specs.declared.code.Ins.TheVariants as InsIs;
ghost use Rattle.task_runtime.specs.Doing.{EndsAt, KeepsData, act_of, given};
ghost use Rattle.linker.specs.declared.program.LinkedUnits.{LinkedUnits as Linked};
ghost use Rattle.task_runtime.specs.Effort.{IsLong, first_ticks, first_works};
ghost use Rattle.task_runtime.specs.Fitting.{names_of};
ghost use Rattle.task_runtime.specs.Stacked.{vars_of};
ghost use Rattle.task_runtime.specs.Written.{block_of_thread, system_of, timing_of};
ghost use Rattle.task_runtime.specs.Alongs.{MayGo, goes_alone, has_no_owner, is_alone};
ghost use Rattle.task_runtime.specs.Doings.{DoesFirst, EndsBody, EntersFirst, IsDeed, IsEntry, Passes, StaysOutside, owner_at, piece_of};
ghost use Rattle.task_runtime.specs.Goings.{Goes, GoesOnAt, HasCalled, HasReturned};
ghost use Rattle.task_runtime.specs.Handing.{IsHanded};
ghost use Rattle.task_runtime.specs.Bodies.{first_body};
ghost use Rattle.task_runtime.specs.Reserving.{HasRoom, extent_in};
ghost use Rattle.task_runtime.specs.Settling.{IsAmid};
ghost use Rattle.task_runtime.specs.Silences.{ins_ticks, piece_ticks, piece_works};
ghost use Rattle.task_runtime.specs.declared.piece.Piece.TheVariants as PieceIs;

use crate::effects::Act;
use crate::hands::{hand_in, hand_out, ins_len, keep_data, store};
use crate::opening::{lend, open_data, open_params};
use crate::piece::{Deed, Entry, Frame, Piece, Request};
use crate::reserve::Room;
use crate::settle::settled;
use crate::stack::Stack;
use crate::thread::Thread;
use crate::values::Var;
use linker::{Ins, LinkedUnits, Operand};
use seq_tree::{Costs, NoMemory};
use std::alloc::Global;
use trace_tree::Values;

/// What starts with a piece: its ticks, and how many `work` statements start with it.
#[derive(Clone, Copy, Debug, PartialEq, Eq)]
pub struct Start {
    pub ticks: u32,
    pub works: u64,
}

/// The ticks of a `work`: the smaller of its number and the next duration, where there is one.
fn ticks_of_work(ticks: u32, duration: Option<u32>) -> u32
    ensures { result ≡ work_ticks ticks duration }
{
    match duration {
        Some(duration) => ticks.min(duration),
        None => ticks,
    }
}

/// The ticks of an instruction.
fn ticks_of(costs: &Costs, duration: Option<u32>, ins: Ins) -> u32
    ensures { result ≡ ins_ticks costs.now duration ins }
{
    match ins {
        Ins::Null => costs.nothing,
        Ins::Work(ticks) => ticks_of_work(ticks, duration),
        Ins::Assign { .. } => costs.assign,
        Ins::Put(_) => costs.put,
        Ins::Test { .. } => costs.test,
        Ins::Exit { .. } => costs.test,
        Ins::Jump(_) => 0,
        Ins::Begin { .. } => costs.turn,
        Ins::Next { .. } => 0,
        Ins::Call { .. } => costs.call,
        Ins::Request { .. } => costs.call,
        Ins::Nowhere => costs.call,
        Ins::Return => 0,
        Ins::Finish => costs.finish,
    }
}

/// What starts with a piece, with the duration that a `work` is handed.
fn start_of(costs: &Costs, duration: Option<u32>, piece: Piece) -> Start
    ensures ticks { result.ticks ≡ piece_ticks costs.now duration piece }
    ensures works { result.works ≡ piece_works piece }
{
    match piece {
        Piece::Here(ins) => {
            let ticks = ticks_of(costs, duration, ins);
            let works = match ins {
                Ins::Work(_) => 1,
                _ => 0,
            };
            Start { ticks, works }
        }
        Piece::Turn { .. } => Start {
            ticks: costs.turn,
            works: 0,
        },
        Piece::Close => Start { ticks: 0, works: 0 },
        Piece::Keep(_) => Start {
            ticks: costs.assign,
            works: 0,
        },
        Piece::Open(_) => Start {
            ticks: costs.assign,
            works: 0,
        },
        Piece::Requested(_) => Start { ticks: 0, works: 0 },
    }
}

/// How far a task has come: its stacks, its place in code, and the first of the pieces that it has left.
#[derive(Drop)]
pub struct Progress<'a> {
    pub stack: Stack<'a>,
    pub at: usize,
    pub piece: Option<Piece>,
}

impl<'a> Progress<'a> {
    ghost use Rattle.task_runtime.specs.Lefts.{pieces_left, running_of, vars_left};
    ghost use Rattle.task_runtime.specs.Sounds.{CanWork, IsAtWork, IsStacked, IsTaskStart, owner_of};

    /// A task before its first activation, its data as they are written.
    pub fn new(
        alloc: Global,
        code: &LinkedUnits<'a>,
        thread: Thread<'a>,
        start: u32,
        room: Room,
    ) -> Result<Progress<'a>, NoMemory>
        requires works { CanWork thread }
        requires linked { AreLinked (map unit_of thread.units.now) code.now }
        requires start { IsTaskStart code.now thread start }
        requires room { room.slots < 2 ^ 63 → HasRoom code.now room.bodies room.slots (extent_in (first_body thread start)) }
        ensures at_work { IfOk result (IsAtWork code.now) }
        ensures thread { IfOk result (λ p. p.stack.thread ≡ thread.entry) }
        ensures vars { IfOk result (λ p. vars_left p ≡ written thread.entry.data.now) }
        ensures pieces { IfOk result (λ p. pieces_left p ≡ []) }
    {
        let stack = Stack::new(alloc, thread, start, room)?;
        Ok(Progress {
            stack,
            at: start as usize,
            piece: None,
        })
    }

    /// Goes on at a place of the body that runs, behind jumps.
    fn go_to(&mut self, code: &LinkedUnits<'a>, at: usize)
        requires stacked { IsStacked code.now self.old.stack }
        requires amid { IsAmid (running_of self.old.stack).start (running_of self.old.stack).block at }
        ensures { GoesOnAt code.now self.old.stack at self.new }
    {
        let at = settled(&code.code, at);
        self.at = at;
        self.piece = Some(self.piece_at(code.code.ins[at]));
    }

    /// Goes on behind the instruction at its place.
    fn go_on(&mut self, code: &LinkedUnits<'a>)
        requires stacked { IsStacked code.now self.old.stack }
        requires amid { IsAmid (running_of self.old.stack).start (running_of self.old.stack).block (self.old.at + 1) }
        ensures { GoesOnAt code.now self.old.stack (self.old.at + 1) self.new }
    {
        let at = self.at + 1;
        self.go_to(code, at);
    }

    /// The piece that an instruction is: the end of a body is another one where a protected object has the operation.
    fn piece_at(&self, ins: Ins) -> Piece
        ensures { result ≡ piece_of (owner_of self.now.stack) ins }
    {
        if let Ins::Return = ins {
            if let Some(_) = self.stack.owner() {
                return Piece::Close;
            }
        }
        Piece::Here(ins)
    }

    /// Begins an activation, with the value that was requested, where there is one.
    pub fn begin(&mut self, code: &LinkedUnits<'a>, value: Option<u32>)
        requires at_work { IsAtWork code.now self.old }
        requires rests { self.old.piece ≡ None }
        ensures at_work { IsAtWork code.now self.new }
        ensures thread { self.new.stack.thread ≡ self.old.stack.thread }
        ensures frames { self.new.stack.frames.room ≡ self.old.stack.frames.room }
        ensures vars { vars_left self.new ≡ parameter (timing_of self.old.stack.thread.timing) value ++ vars_left self.old }
        ensures pieces { pieces_left self.new ≡ pieces (block_of_thread self.old.stack.thread) (Finishing ∷ []) }
    {
        self.stack.open(value);
        let start = self.stack.start as usize;
        self.go_to(code, start);
    }

    /// What the piece reaches that has started, before its effect.
    pub fn deed(&self, code: &LinkedUnits<'a>, piece: Piece) -> Deed
        requires at_work { IsAtWork code.now self.now }
        requires piece { self.now.piece ≡ Some piece }
        ensures { IsDeed code.now self.now.stack piece result }
    {
        match piece {
            Piece::Here(ins) => match ins {
                Ins::Call { op, .. } => match code.ops[op as usize].owner {
                    Some((object, place)) => Deed::Enter(Entry { object, place }),
                    None => Deed::Own,
                },
                Ins::Request { task, .. } => Deed::Ask(task as usize),
                _ => Deed::Own,
            },
            Piece::Close => match self.stack.owner() {
                Some((object, place)) => Deed::Leave(Entry { object, place }),
                None => unreachable!(),
            },
            Piece::Turn { .. } => Deed::Own,
            Piece::Keep(_) => Deed::Own,
            Piece::Open(_) => Deed::Own,
            Piece::Requested(_) => Deed::Own,
        }
    }

    /// A piece that changes nothing: it goes on behind the instruction.
    fn pass(&mut self, code: &LinkedUnits<'a>, ins: Ins)
        requires at_work { IsAtWork code.now self.old }
        requires piece { self.old.piece ≡ Some (PieceIs.Here ins) }
        requires passes { Passes ins }
        ensures { Goes code.now self.old deeds.Silent self.new }
    {
        self.go_on(code);
    }

    /// An assignment.
    fn assign(&mut self, code: &LinkedUnits<'a>, slot: u32, value: Operand)
        requires at_work { IsAtWork code.now self.old }
        requires piece { self.old.piece ≡ Some (PieceIs.Here (InsIs.Assign slot value)) }
        ensures { Goes code.now self.old deeds.Silent self.new }
    {
        let value = self.stack.value(&code.code, value);
        self.stack.slots.put(slot as usize, value);
        self.go_on(code);
    }

    /// An output.
    fn print(&mut self, code: &LinkedUnits<'a>, value: Operand) -> u32
        requires at_work { IsAtWork code.now self.old }
        requires piece { self.old.piece ≡ Some (PieceIs.Here (InsIs.Put value)) }
        ensures { Goes code.now self.old (deeds.Print result) self.new }
    {
        let value = self.stack.value(&code.code, value);
        self.go_on(code);
        value
    }

    /// A condition of an `if`.
    fn test(&mut self, code: &LinkedUnits<'a>, cond: Operand, other: u32)
        requires at_work { IsAtWork code.now self.old }
        requires piece { self.old.piece ≡ Some (PieceIs.Here (InsIs.Test cond other)) }
        ensures { Goes code.now self.old deeds.Silent self.new }
    {
        if self.stack.value(&code.code, cond) == 1 {
            self.go_on(code);
        } else {
            self.go_to(code, other as usize);
        }
    }

    /// An `exit when`.
    fn exit(&mut self, code: &LinkedUnits<'a>, cond: Operand, to: u32)
        requires at_work { IsAtWork code.now self.old }
        requires piece { self.old.piece ≡ Some (PieceIs.Here (InsIs.Exit cond to)) }
        ensures { Goes code.now self.old deeds.Silent self.new }
    {
        if self.stack.value(&code.code, cond) == 1 {
            self.go_to(code, to as usize);
        } else {
            self.go_on(code);
        }
    }

    /// The first turn of a loop.
    fn first_turn(&mut self, code: &LinkedUnits<'a>, counter: u32, low: u32)
        requires at_work { IsAtWork code.now self.old }
        requires piece { self.old.piece ≡ Some (PieceIs.Here (InsIs.Begin counter low)) }
        ensures { Goes code.now self.old deeds.Silent self.new }
    {
        let slot = counter as usize;
        self.stack.slots.put(slot, low);
        self.stack.slots.put(slot + 1, low);
        self.go_on(code);
    }

    /// The next turn of a loop, which was counted.
    fn next_turn(&mut self, code: &LinkedUnits<'a>, counter: u32, start: u32)
        requires at_work { IsAtWork code.now self.old }
        requires piece { self.old.piece ≡ Some (PieceIs.Turn counter start) }
        ensures { Goes code.now self.old deeds.Silent self.new }
    {
        let slot = counter as usize;
        let value = self.stack.slots.get(slot);
        self.stack.slots.put(slot + 1, value);
        self.go_to(code, start as usize);
    }

    /// The end of a turn: the next one is counted, where there is one.
    fn end_turn(&mut self, code: &LinkedUnits<'a>, counter: u32, last: u32, start: u32)
        requires at_work { IsAtWork code.now self.old }
        requires piece { self.old.piece ≡ Some (PieceIs.Here (InsIs.Next counter last start)) }
        ensures { Goes code.now self.old deeds.Silent self.new }
    {
        let slot = counter as usize;
        let value = self.stack.slots.get(slot);
        if value < last {
            self.stack.slots.put(slot, value + 1);
            self.piece = Some(Piece::Turn { counter, start });
        } else {
            self.go_on(code);
        }
    }

    /// The value of a request, by its operand, where there is one.
    fn request_value(&self, code: &LinkedUnits<'a>, value: Option<Operand>) -> Option<u32>
        requires at_work { IsAtWork code.now self.now }
        requires piece { (task : ℕ) × (self.now.piece ≡ Some (PieceIs.Here (InsIs.Request task value))) }
        ensures { IsHanded (lists_of code.now.code) self.now.stack.slots.here value result }
    {
        match value {
            Some(operand) => Some(self.stack.value(&code.code, operand)),
            None => None,
        }
    }

    /// The request of a task.
    fn ask(&mut self, code: &LinkedUnits<'a>, task: u32, value: Option<Operand>)
        requires at_work { IsAtWork code.now self.old }
        requires piece { self.old.piece ≡ Some (PieceIs.Here (InsIs.Request task value)) }
        ensures { Goes code.now self.old (deeds.Ask task) self.new }
    {
        let value = self.request_value(code, value);
        self.at += 1;
        self.piece = Some(Piece::Keep(Request {
            task: task as usize,
            value,
        }));
    }

    /// The call of an operation: the values are handed in, and the body begins, with what an object lends.
    fn call(&mut self, code: &LinkedUnits<'a>, op: u32, actuals: u32, lent: &[Var]) -> Values
        requires at_work { IsAtWork code.now self.old }
        requires piece { (outs : ℕ) × (self.old.piece ≡ Some (PieceIs.Here (InsIs.Call op actuals outs))) }
        requires lent { (b : OpTree) → owner_at code.now op ≡ Some b → names_of (vars_of lent.now) ≡ datum_names b.vars }
        ensures { HasCalled code.now self.old op (vars_of lent.now) result self.new }
    {
        let body = code.ops[op as usize];
        let start = code.starts[op as usize];
        let mut values = Values::new();
        hand_in(
            &mut values,
            &code.code,
            actuals as usize,
            &body.op.sig.params,
            &self.stack.slots,
        );
        let away = self.stack.size();
        self.stack.slots.enter(away);
        self.stack.frames.push(Frame {
            body,
            start,
            at: self.at,
            away,
        });
        lend(&mut self.stack.slots, lent);
        let top = lent.len() + body.op.locals.len();
        open_data(&mut self.stack.slots, top, &body.op.locals);
        let top = top + body.op.sig.params.len();
        open_params(
            &mut self.stack.slots,
            top,
            &body.op.sig.params,
            values.as_slice(),
        );
        self.go_to(code, start as usize);
        values
    }

    /// The end of the body of an operation: the values are handed out and stored, and the caller goes on.
    fn end_call(&mut self, code: &LinkedUnits<'a>) -> Values
        requires at_work { IsAtWork code.now self.old }
        requires piece { EndsBody self.old.piece }
        ensures { HasReturned code.now self.old result self.new }
    {
        let Some(frame) = self.stack.frames.pop() else {
            unreachable!()
        };
        let op = frame.body.op;
        let mut values = Values::new();
        let top = op.sig.params.len() + op.locals.len() + frame.body.vars.len();
        hand_out(&mut values, top, &op.sig.params, &self.stack.slots);
        self.stack.slots.leave(frame.away);
        let Ins::Call { actuals, outs, .. } = code.code.ins[frame.at] else {
            unreachable!()
        };
        let first = actuals as usize + ins_len(&op.sig.params);
        store(
            &mut self.stack.slots,
            &code.code,
            first,
            outs as usize,
            values.as_slice(),
        );
        self.go_to(code, frame.at + 1);
        values
    }

    /// Does what the piece does that has started, and that neither enters a protected object nor leaves one, and starts the next one.
    pub fn act(&mut self, code: &LinkedUnits<'a>, piece: Piece) -> Act
        requires at_work { IsAtWork code.now self.old }
        requires piece { self.old.piece ≡ Some piece }
        requires outside { StaysOutside code.now piece }
        ensures at_work { IsAtWork code.now self.new }
        ensures thread { self.new.stack.thread ≡ self.old.stack.thread }
        ensures frames { self.new.stack.frames.room ≡ self.old.stack.frames.room }
        ensures does { DoesFirst (system_of self.old.stack.thread) (pieces_left self.old) (vars_left self.old) (act_of result)
            (given result (vars_left self.old) (vars_left self.new)) (pieces_left self.new) }
        ensures keeps { KeepsData result self.old.stack.thread.data.now (vars_left self.old) (vars_left self.new) }
        ensures ends { EndsAt result (pieces_left self.new) }
    {
        match piece {
            Piece::Here(ins) => self.act_here(code, ins),
            Piece::Turn { counter, start } => {
                self.next_turn(code, counter, start);
                Act::Silent
            }
            Piece::Close => unreachable!(),
            Piece::Keep(request) => {
                self.piece = Some(Piece::Open(request));
                Act::Keep {
                    task: request.task,
                    value: request.value,
                }
            }
            Piece::Open(request) => {
                self.piece = Some(Piece::Requested(request));
                Act::Open(request.task)
            }
            Piece::Requested(request) => {
                let at = self.at;
                self.go_to(code, at);
                Act::Ended {
                    task: request.task,
                    value: request.value,
                }
            }
        }
    }

    /// Does what the instruction at the task's place does.
    fn act_here(&mut self, code: &LinkedUnits<'a>, ins: Ins) -> Act
        requires at_work { IsAtWork code.now self.old }
        requires piece { self.old.piece ≡ Some (PieceIs.Here ins) }
        requires outside { StaysOutside code.now (PieceIs.Here ins) }
        ensures at_work { IsAtWork code.now self.new }
        ensures thread { self.new.stack.thread ≡ self.old.stack.thread }
        ensures frames { self.new.stack.frames.room ≡ self.old.stack.frames.room }
        ensures does { DoesFirst (system_of self.old.stack.thread) (pieces_left self.old) (vars_left self.old) (act_of result)
            (given result (vars_left self.old) (vars_left self.new)) (pieces_left self.new) }
        ensures keeps { KeepsData result self.old.stack.thread.data.now (vars_left self.old) (vars_left self.new) }
        ensures ends { EndsAt result (pieces_left self.new) }
    {
        match ins {
            Ins::Null => {
                self.pass(code, ins);
                Act::Silent
            }
            Ins::Work(_) => {
                self.pass(code, ins);
                Act::Silent
            }
            Ins::Assign { slot, value } => {
                self.assign(code, slot, value);
                Act::Silent
            }
            Ins::Put(value) => Act::Print(self.print(code, value)),
            Ins::Test { cond, other } => {
                self.test(code, cond, other);
                Act::Silent
            }
            Ins::Exit { cond, to } => {
                self.exit(code, cond, to);
                Act::Silent
            }
            Ins::Jump(_) => unreachable!(),
            Ins::Begin { counter, low } => {
                self.first_turn(code, counter, low);
                Act::Silent
            }
            Ins::Next {
                counter,
                last,
                start,
            } => {
                self.end_turn(code, counter, last, start);
                Act::Silent
            }
            Ins::Call { op, actuals, .. } => {
                self.call(code, op, actuals, &[]);
                Act::Silent
            }
            Ins::Request { task, value } => {
                self.ask(code, task, value);
                Act::Ask(task as usize)
            }
            Ins::Nowhere => {
                self.pass(code, ins);
                Act::Silent
            }
            Ins::Return => {
                self.end_call(code);
                Act::Silent
            }
            Ins::Finish => {
                self.piece = None;
                Act::Finish
            }
        }
    }

    /// Does what the first piece does, where it is nothing to others: whether there is such a piece.
    #[inline(always)]
    pub fn act_alone(&mut self, code: &LinkedUnits<'a>) -> bool
        requires at_work { IsAtWork code.now self.old }
        ensures goes { MayGo result code.now self.old self.new }
        ensures alone { result ≡ goes_alone code.now self.old.piece }
    {
        let Some(piece) = self.piece else {
            return false;
        };
        match piece {
            Piece::Here(ins) => self.act_alone_here(code, ins),
            Piece::Turn { counter, start } => {
                self.next_turn(code, counter, start);
                true
            }
            Piece::Close => false,
            Piece::Keep(_) => false,
            Piece::Open(_) => false,
            Piece::Requested(_) => false,
        }
    }

    /// Does what the instruction at the task's place does, where it is nothing to others: whether it is.
    #[inline(always)]
    fn act_alone_here(&mut self, code: &LinkedUnits<'a>, ins: Ins) -> bool
        requires at_work { IsAtWork code.now self.old }
        requires piece { self.old.piece ≡ Some (PieceIs.Here ins) }
        ensures goes { MayGo result code.now self.old self.new }
        ensures alone { result ≡ is_alone code.now ins }
    {
        match ins {
            Ins::Null => {
                self.pass(code, ins);
                true
            }
            Ins::Work(_) => {
                self.pass(code, ins);
                true
            }
            Ins::Assign { slot, value } => {
                self.assign(code, slot, value);
                true
            }
            Ins::Put(_) => false,
            Ins::Test { cond, other } => {
                self.test(code, cond, other);
                true
            }
            Ins::Exit { cond, to } => {
                self.exit(code, cond, to);
                true
            }
            Ins::Jump(_) => unreachable!(),
            Ins::Begin { counter, low } => {
                self.first_turn(code, counter, low);
                true
            }
            Ins::Next {
                counter,
                last,
                start,
            } => {
                self.end_turn(code, counter, last, start);
                true
            }
            Ins::Call { op, actuals, .. } => self.call_alone(code, op, actuals),
            Ins::Request { .. } => false,
            Ins::Nowhere => {
                self.pass(code, ins);
                true
            }
            Ins::Return => {
                self.end_call(code);
                true
            }
            Ins::Finish => false,
        }
    }

    /// The call of an operation, where no protected object has it: whether none has.
    fn call_alone(&mut self, code: &LinkedUnits<'a>, op: u32, actuals: u32) -> bool
        requires at_work { IsAtWork code.now self.old }
        requires piece { (outs : ℕ) × (self.old.piece ≡ Some (PieceIs.Here (InsIs.Call op actuals outs))) }
        ensures goes { MayGo result code.now self.old self.new }
        ensures alone { result ≡ has_no_owner (owner_at code.now op) }
    {
        if let Some(_) = code.ops[op as usize].owner {
            return false;
        }
        self.call(code, op, actuals, &[]);
        true
    }

    /// Enters an operation of a protected object, and starts the first piece of its body. The data of the object are taken.
    pub fn enter(&mut self, code: &LinkedUnits<'a>, entry: Entry, data: &mut Vec<Var<'a>>) -> Values
        requires at_work { IsAtWork code.now self.old }
        requires entry { IfSome self.old.piece (λ p. IsEntry code.now p entry.object entry.place) }
        requires some { IsSome self.old.piece }
        requires names { (g : ProtectedUnit) → slice_get (system_of self.old.stack.thread).objects entry.object ≡ Some g
            → names_of (vars_of «data».old.items) ≡ datum_names g.vars }
        ensures at_work { IsAtWork code.now self.new }
        ensures thread { self.new.stack.thread ≡ self.old.stack.thread }
        ensures frames { self.new.stack.frames.room ≡ self.old.stack.frames.room }
        ensures does { EntersFirst (system_of self.old.stack.thread) (pieces_left self.old) (vars_left self.old) entry.object entry.place result
            (vars_of «data».old.items) (vars_left self.new) (pieces_left self.new) }
        ensures lent { «data».new.items ≡ [] }
        ensures room { vec_capacity «data».new ≡ vec_capacity «data».old }
    {
        let Some(Piece::Here(Ins::Call { op, actuals, .. })) = self.piece else {
            unreachable!()
        };
        let values = self.call(code, op, actuals, data.as_slice());
        data.clear();
        values
    }

    /// Leaves an operation of a protected object, and starts what the caller does next. The data of the object go back.
    pub fn leave(&mut self, code: &LinkedUnits<'a>, entry: Entry, data: &mut Vec<Var<'a>>) -> Values
        requires at_work { IsAtWork code.now self.old }
        requires piece { self.old.piece ≡ Some PieceIs.Close }
        requires entry { owner_of self.old.stack ≡ Some (entry.object, entry.place) }
        requires room { (g : ProtectedUnit) → slice_get (system_of self.old.stack.thread).objects entry.object ≡ Some g
            → length g.vars ≤ vec_capacity «data».old }
        ensures at_work { IsAtWork code.now self.new }
        ensures thread { self.new.stack.thread ≡ self.old.stack.thread }
        ensures frames { self.new.stack.frames.room ≡ self.old.stack.frames.room }
        ensures does { DoesFirst (system_of self.old.stack.thread) (pieces_left self.old) (vars_left self.old)
            (deeds.Leave entry.object entry.place result (vars_of «data».new.items)) (vars_left self.new) (pieces_left self.new) }
        ensures names { (g : ProtectedUnit) → slice_get (system_of self.old.stack.thread).objects entry.object ≡ Some g
            → names_of (vars_of «data».new.items) ≡ datum_names g.vars }
        ensures room { vec_capacity «data».new ≡ vec_capacity «data».old }
    {
        let Some(frame) = self.stack.frames.last() else {
            unreachable!()
        };
        keep_data(data, frame.body.vars, &self.stack.slots);
        self.end_call(code)
    }

    /// What has started, with the duration that a `work` is handed.
    pub fn start(&self, costs: &Costs, duration: Option<u32>) -> Start
        requires long { IsLong duration }
        requires sound { (c : Linked) × IsAtWork c self.now }
        ensures ticks { result.ticks ≡ first_ticks costs.now duration (pieces_left self.now) }
        ensures works { result.works ≡ first_works (pieces_left self.now) }
        // A `work` that starts takes a tick.
        ensures some { result.works ≤ min result.ticks 1 }
    {
        match self.piece {
            Some(piece) => start_of(costs, duration, piece),
            None => Start { ticks: 0, works: 0 },
        }
    }
}
