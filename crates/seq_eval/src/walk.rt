ghost use Rattle.std.specs.Prelude.{◌≡◌, ◌≤◌, ◌↔◌, IfOk, IsTrue, OnOk, length, map, option_map};
ghost use Rattle.seq_tree.specs.Operations.{out_names};
ghost use Rattle.seq_tree.specs.Trees.{arm_of, block_of, branches_of, expression_of, operation_of, otherwise, statement_of};
ghost use Rattle.seq_tree.specs.Variables.{targets};
ghost use Rattle.seq_eval.specs.Calls.{calls_in};
ghost use Rattle.seq_eval.specs.Stepping.{HasFew, begun, branched, called, done, entered_op, given_back, left_by, moved, passed};
ghost use Rattle.seq_eval.specs.Stepping.{passed_over, printed, requested, spent, step, turned_on, turned_over, turning};
ghost use Rattle.seq_eval.specs.States.{doing_of, state_of};

use crate::calls::{Calls, Target};
use crate::params::{asked, handed_out, hands, open_locals, open_params, out_count, store};
use crate::scope::Scope;
use crate::script::Actions;
use crate::values::eval;
use seq_tree::{Arm, Block, Costs, Expr, Name, NoMemory, OpText, Param, Stmt, TICK_LIMIT};
use std::alloc::Global;
use std::mem::replace;

/// The most ticks that a run takes of a block that may stand in a design, without those of the bodies of protected operations.
const MOST_TICKS: u64 = TICK_LIMIT as u64;

/// The turn of a loop at a value, up to the last one.
#[derive(Clone, Copy, Drop)]
pub(crate) struct Round<'a> {
    pub name: &'a Name,
    pub at: u32,
    pub last: u32,
    pub body: &'a Block,
}

/// What is left to do.
#[derive(Drop)]
pub(crate) enum Frame<'a> {
    /// The rest of a block.
    Stmts(&'a [Stmt]),
    /// The arms of an `if` that are not tested yet, and its `else`.
    Arms {
        arms: &'a [Arm],
        other: &'a Option<Block>,
    },
    /// The end of a turn.
    Turned(Round<'a>),
    /// The end of the body of a passive operation, with the variables of the caller.
    Returned {
        op: &'a OpText,
        actuals: &'a [Expr],
        vars: Scope<'a>,
    },
}

/// How far the following of a block is: what is left to do, the innermost last; whether a loop is being left; the variables of the body that
/// runs; the ticks so far; and the actions that are left.
#[derive(Drop)]
pub(crate) struct Walk<'a, S> {
    pub frames: Vec<Frame<'a>>,
    pub leaving: bool,
    pub vars: Scope<'a>,
    pub low: u64,
    pub high: u64,
    pub script: S,
}

impl<'a, S: Actions + Drop> Walk<'a, S> {
    /// Whether the ticks so far are not too many.
    pub fn has_few(&self) -> bool
        ensures { IsTrue result ↔ HasFew (state_of S.meaning self.now) }
    {
        self.low <= MOST_TICKS && self.high <= MOST_TICKS
    }

    /// Adds ticks.
    fn spend(&mut self, low: u64, high: u64)
        requires few { HasFew (state_of S.meaning self.old) }
        requires within { (low ≤ 20000000000) × (high ≤ 20000000000) }
        ensures { state_of S.meaning self.new ≡ spent low high (state_of S.meaning self.old) }
    {
        self.low += low;
        self.high += high;
    }

    /// Begins a turn of a loop.
    fn turn(&mut self, round: Round<'a>) -> Result<(), NoMemory>
        ensures { OnOk result (state_of S.meaning self.new
            ≡ turning round.entry.name.now round.entry.at round.entry.last (block_of round.entry.body.now) (state_of S.meaning self.old)) }
    {
        self.vars.push(round.name, round.at)?;
        self.frames.push(Frame::Turned(round))?;
        self.frames.push(Frame::Stmts(round.body.stmts.as_slice()))?;
        Ok(())
    }

    /// Ends a turn.
    fn end_turn(&mut self, costs: &Costs)
        requires { HasFew (state_of S.meaning self.old) }
        ensures { state_of S.meaning self.new ≡ turned_over costs.now (state_of S.meaning self.old) }
    {
        self.leaving = false;
        self.vars.pop();
        let ticks = u64::from(costs.turn);
        self.spend(ticks, ticks);
    }

    /// Ends the body of a passive operation: its `out` values are stored among the variables of the caller.
    fn give_back(
        &mut self,
        alloc: Global,
        op: &OpText,
        actuals: &[Expr],
        vars: Scope<'a>,
    ) -> Result<(), NoMemory>
        ensures { OnOk result (state_of S.meaning self.new
            ≡ given_back (operation_of op.now) (map expression_of actuals.now) vars.entry (state_of S.meaning self.old)) }
    {
        let params = op.sig.params.as_slice();
        let body = replace(&mut self.vars, vars);
        let values = handed_out(alloc, params, &body)?;
        store(&mut self.vars, params, actuals, values.as_slice());
        self.leaving = false;
        Ok(())
    }

    /// Begins the body of a passive operation.
    fn enter(
        &mut self,
        alloc: Global,
        costs: &Costs,
        op: &'a OpText,
        actuals: &'a [Expr],
    ) -> Result<(), NoMemory>
        requires { HasFew (state_of S.meaning self.old) }
        ensures { OnOk result (state_of S.meaning self.new ≡ entered_op costs.now (operation_of op.entry.now) (map expression_of actuals.entry.now)
            (state_of S.meaning self.old)) }
    {
        let mut vars = Scope::new(alloc);
        open_locals(&mut vars, op.locals.as_slice())?;
        open_params(&mut vars, op.sig.params.as_slice(), actuals, &self.vars)?;
        let vars = replace(&mut self.vars, vars);
        self.frames.push(Frame::Returned { op, actuals, vars })?;
        self.frames.push(Frame::Stmts(op.block.stmts.as_slice()))?;
        let ticks = u64::from(costs.call);
        self.spend(ticks, ticks);
        Ok(())
    }

    /// Prints a value, where the next action does. Else no action is taken.
    fn print(&mut self, costs: &Costs, value: u32) -> Result<bool, NoMemory>
        requires { HasFew (state_of S.meaning self.old) }
        ensures { IfOk result (λ on. moved on (state_of S.meaning self.new) ≡ printed costs.now value (state_of S.meaning self.old)) }
    {
        if !self.script.prints(value) {
            return Ok(false);
        }
        self.script.pass()?;
        let ticks = u64::from(costs.put);
        self.spend(ticks, ticks);
        Ok(true)
    }

    /// Requests a task, where the next action does. Else no action is taken.
    fn request(
        &mut self,
        costs: &Costs,
        object: &Name,
        op: &Name,
        actuals: &[Expr],
    ) -> Result<bool, NoMemory>
        requires { HasFew (state_of S.meaning self.old) }
        ensures { IfOk result (λ on. moved on (state_of S.meaning self.new)
            ≡ requested costs.now (record { object = object.now; op = op.now }) (map expression_of actuals.now) (state_of S.meaning self.old)) }
    {
        let value = asked(actuals, &self.vars);
        if !self.script.requests(object, op, value) {
            return Ok(false);
        }
        self.script.pass()?;
        let ticks = u64::from(costs.call) + 2 * u64::from(costs.assign);
        self.spend(ticks, ticks);
        Ok(true)
    }

    /// Leaves a protected operation, where the next action does, and stores the values that it hands out. Else no action is taken.
    fn leave_op(
        &mut self,
        costs: &Costs,
        object: &Name,
        op: &Name,
        params: &[Param],
        actuals: &[Expr],
    ) -> Result<bool, NoMemory>
        requires { HasFew (state_of S.meaning self.old) }
        ensures { IfOk result (λ on. moved on (state_of S.meaning self.new)
            ≡ left_by costs.now (record { object = object.now; op = op.now }) (length (out_names params.now))
            (targets params.now (map expression_of actuals.now)) (state_of S.meaning self.old).script (state_of S.meaning self.old)) }
    {
        let Some(results) = self.script.leaves(object, op) else {
            return Ok(false);
        };
        if results.len() != out_count(params) {
            return Ok(false);
        }
        store(&mut self.vars, params, actuals, results);
        self.script.pass()?;
        self.spend(u64::from(costs.call), u64::from(costs.call));
        Ok(true)
    }

    /// Passes a protected operation, where the next two actions do. Else the first of them that doesn't is not taken.
    fn pass(
        &mut self,
        costs: &Costs,
        object: &Name,
        op: &Name,
        params: &[Param],
        actuals: &[Expr],
    ) -> Result<bool, NoMemory>
        requires { HasFew (state_of S.meaning self.old) }
        ensures { IfOk result (λ on. moved on (state_of S.meaning self.new)
            ≡ passed costs.now (record { object = object.now; op = op.now }) params.now (map expression_of actuals.now)
            (state_of S.meaning self.old)) }
    {
        let Some(values) = self.script.enters(object, op) else {
            return Ok(false);
        };
        if !hands(params, actuals, &self.vars, values) {
            return Ok(false);
        }
        self.script.pass()?;
        self.leave_op(costs, object, op, params, actuals)
    }

    /// Makes a call, where the actions that come next let it.
    fn call<'c: 'a>(
        &mut self,
        alloc: Global,
        costs: &Costs,
        calls: &Calls<'c>,
        object: &Name,
        op: &Name,
        actuals: &'a [Expr],
    ) -> Result<bool, NoMemory>
        requires { HasFew (state_of S.meaning self.old) }
        ensures { IfOk result (λ on. moved on (state_of S.meaning self.new)
            ≡ called costs.now (record { object = object.now; op = op.now }) (calls_in calls.now object.now op.now)
            (map expression_of actuals.entry.now) (state_of S.meaning self.old)) }
    {
        match calls.find(object, op) {
            Some(Target::Plain(text)) => {
                self.enter(alloc, costs, text, actuals)?;
                Ok(true)
            }
            Some(Target::Protected(params)) => self.pass(costs, object, op, params, actuals),
            Some(Target::Asked) => self.request(costs, object, op, actuals),
            None => Ok(false),
        }
    }

    /// Begins a statement, where the actions that come next let it.
    fn begin<'c: 'a>(
        &mut self,
        alloc: Global,
        costs: &Costs,
        calls: &Calls<'c>,
        stmt: &'a Stmt,
    ) -> Result<bool, NoMemory>
        requires { HasFew (state_of S.meaning self.old) }
        ensures { IfOk result (λ on. moved on (state_of S.meaning self.new) ≡ begun costs.now (calls_in calls.now) (statement_of stmt.entry.now)
            (state_of S.meaning self.old)) }
    {
        match stmt {
            Stmt::Null => {
                let ticks = u64::from(costs.nothing);
                self.spend(ticks, ticks);
            }
            Stmt::Assign { target, value } => {
                let value = eval(value, &self.vars);
                self.vars.write(target, value);
                let ticks = u64::from(costs.assign);
                self.spend(ticks, ticks);
            }
            Stmt::If { arms, other } => {
                self.frames.push(Frame::Arms {
                    arms: arms.as_slice(),
                    other,
                })?;
            }
            Stmt::For {
                name,
                low,
                high,
                body,
            } => {
                if low <= high {
                    self.turn(Round {
                        name,
                        at: *low,
                        last: *high,
                        body,
                    })?;
                }
            }
            Stmt::ExitWhen(condition) => {
                self.leaving = eval(condition, &self.vars) == 1;
                let ticks = u64::from(costs.test);
                self.spend(ticks, ticks);
            }
            Stmt::Call {
                object,
                op,
                actuals,
            } => {
                return self.call(alloc, costs, calls, object, op, actuals.as_slice());
            }
            Stmt::Work(ticks) => self.spend(1, u64::from(*ticks)),
            Stmt::Put(value) => {
                let value = eval(value, &self.vars);
                return self.print(costs, value);
            }
        }
        Ok(true)
    }

    /// Takes a branch of an `if`, or passes an arm.
    fn branch(
        &mut self,
        costs: &Costs,
        arms: &'a [Arm],
        other: &'a Option<Block>,
    ) -> Result<(), NoMemory>
        requires { HasFew (state_of S.meaning self.old) }
        ensures { OnOk result (state_of S.meaning self.new
            ≡ branched costs.now (branches_of (map arm_of arms.entry.now) (otherwise (option_map block_of other.entry.now)))
            (state_of S.meaning self.old)) }
    {
        match arms.split_first() {
            Some((arm, rest)) => {
                if eval(&arm.cond, &self.vars) == 1 {
                    self.frames.push(Frame::Stmts(arm.block.stmts.as_slice()))?;
                } else {
                    self.frames.push(Frame::Arms { arms: rest, other })?;
                }
                let ticks = u64::from(costs.test);
                self.spend(ticks, ticks);
            }
            None => match other {
                Some(block) => self.frames.push(Frame::Stmts(block.stmts.as_slice()))?,
                None => {}
            },
        }
        Ok(())
    }

    /// Ends a turn, and begins the next one, where there is one.
    fn turn_on(&mut self, costs: &Costs, round: Round<'a>) -> Result<(), NoMemory>
        requires { HasFew (state_of S.meaning self.old) }
        ensures { OnOk result (state_of S.meaning self.new
            ≡ turned_on costs.now round.entry.name.now round.entry.at round.entry.last (block_of round.entry.body.now)
            (state_of S.meaning self.old)) }
    {
        self.end_turn(costs);
        if round.at < round.last {
            self.turn(Round {
                name: round.name,
                at: round.at + 1,
                last: round.last,
                body: round.body,
            })?;
        }
        Ok(())
    }

    /// Does what is to do, where no loop is being left.
    fn go_on<'c: 'a>(
        &mut self,
        alloc: Global,
        costs: &Costs,
        calls: &Calls<'c>,
        frame: Frame<'a>,
    ) -> Result<bool, NoMemory>
        requires { HasFew (state_of S.meaning self.old) }
        ensures { IfOk result (λ on. moved on (state_of S.meaning self.new)
            ≡ done costs.now (calls_in calls.now) (doing_of frame.entry) (state_of S.meaning self.old)) }
    {
        match frame {
            Frame::Stmts(stmts) => {
                let Some((first, rest)) = stmts.split_first() else {
                    return Ok(true);
                };
                self.frames.push(Frame::Stmts(rest))?;
                return self.begin(alloc, costs, calls, first);
            }
            Frame::Arms { arms, other } => self.branch(costs, arms, other)?,
            Frame::Turned(round) => self.turn_on(costs, round)?,
            Frame::Returned { op, actuals, vars } => self.give_back(alloc, op, actuals, vars)?,
        }
        Ok(true)
    }

    /// Passes over what is to do, where a loop is being left: it ends at the end of its turn, or of the body of an operation.
    fn pass_over(&mut self, alloc: Global, costs: &Costs, frame: Frame<'a>) -> Result<(), NoMemory>
        requires { HasFew (state_of S.meaning self.old) }
        ensures { OnOk result (state_of S.meaning self.new ≡ passed_over costs.now (doing_of frame.entry) (state_of S.meaning self.old)) }
    {
        match frame {
            Frame::Stmts(_) => {}
            Frame::Arms { .. } => {}
            Frame::Turned(_) => self.end_turn(costs),
            Frame::Returned { op, actuals, vars } => self.give_back(alloc, op, actuals, vars)?,
        }
        Ok(())
    }

    /// Makes a step, where the actions that come next let it: the innermost of what is to do, which is taken off.
    pub fn step<'c: 'a>(
        &mut self,
        alloc: Global,
        costs: &Costs,
        calls: &Calls<'c>,
        frame: Frame<'a>,
    ) -> Result<bool, NoMemory>
        requires { HasFew (state_of S.meaning self.old) }
        ensures { IfOk result (λ on. moved on (state_of S.meaning self.new)
            ≡ step costs.now (calls_in calls.now) (doing_of frame.entry) (state_of S.meaning self.old)) }
    {
        if self.leaving {
            self.pass_over(alloc, costs, frame)?;
            Ok(true)
        } else {
            self.go_on(alloc, costs, calls, frame)
        }
    }
}
