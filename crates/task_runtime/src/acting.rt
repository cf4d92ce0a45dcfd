ghost use Rattle.std.specs.Prelude.{◌≡◌, ◌+◌, ◌<◌, ◌≤◌, ◌^◌, [], IfSome, IsSome, length, min, slice_get, suc, true, false, vec_capacity, Some};
ghost use Rattle.ada_tree.specs.Ranges.{costs_break};
ghost use Rattle.linker.specs.Programs.{datum_names};
ghost use Rattle.machine.specs.Systems.{ProtectedUnit};
ghost use Rattle.task_runtime.specs.Doing.{IsAmong, act_of};
ghost use Rattle.task_runtime.specs.Effort.{sections_among};
ghost use Rattle.task_runtime.specs.Fitting.{names_of};
ghost use Rattle.task_runtime.specs.Readies.{is_ready};
ghost use Rattle.task_runtime.specs.Stacked.{vars_of};
ghost use Rattle.task_runtime.specs.Works.{Acts, EffortFalls, Enters, Leaves, StaysInside};
ghost use Rattle.task_runtime.specs.Written.{system_of};
ghost use Rattle.task_runtime.specs.Alongs.{GoesAlong, IsSpent, MayAct, MayUse, can_go};
ghost use Rattle.task_runtime.specs.Doings.{IsDeed, IsEntry, StaysOutside};
ghost use Rattle.task_runtime.specs.Sounds.{IsAtWork, owner_of};
ghost use Rattle.task_runtime.specs.Tasks.{ActsAs, task_of};
ghost use Rattle.task_runtime.specs.declared.piece.Piece.TheVariants as PieceIs;

use crate::effects::Act;
use crate::piece::{Deed, Entry, Piece};
use crate::progress::Start;
use crate::task::Task;
use crate::values::Var;
use linker::LinkedUnits;
use seq_tree::Costs;
use trace_tree::Values;

impl<'a> Task<'a> {
    /// What the piece reaches that has started, before its effect: a ceiling is tested then.
    pub fn deed(&self, code: &LinkedUnits<'a>, piece: Piece) -> Deed
        requires at_work { IsAtWork code.now self.now.progress }
        requires piece { self.now.progress.piece ≡ Some piece }
        ensures deed { IsDeed code.now self.now.progress.stack piece result }
        ensures acts { ActsAs (system_of self.now.progress.stack.thread) (task_of self.now) result }
    {
        self.progress.deed(code, piece)
    }

    /// The effect of a piece whose ticks are used, and that neither enters a protected object nor leaves one.
    pub fn act(&mut self, costs: &Costs, code: &LinkedUnits<'a>, piece: Piece) -> Act
        requires at_work { IsAtWork code.now self.old.progress }
        requires ready { is_ready self.old.readiness ≡ true }
        requires piece { self.old.progress.piece ≡ Some piece }
        requires outside { StaysOutside code.now piece }
        requires few { self.old.works < 2 ^ 63 }
        requires used { self.old.left ≡ 0 }
        requires ticking { costs_break costs.now ≡ false }
        ensures at_work { IsAtWork code.now self.new.progress }
        ensures acts { Acts (system_of self.old.progress.stack.thread) costs.now (task_of self.old) result (task_of self.new) }
        ensures thread { self.new.progress.stack.thread ≡ self.old.progress.stack.thread }
        ensures works { self.new.works ≤ self.old.works + min self.new.left 1 }
        ensures falls { EffortFalls self.old.progress.stack.thread (task_of self.old) (task_of self.new) }
        ensures among { IsAmong (system_of self.old.progress.stack.thread) (act_of result) }
        ensures inside { StaysInside (act_of result) (sections_among (task_of self.old).pieces) (sections_among (task_of self.new).pieces) }
    {
        let duration = self.duration();
        let act = self.progress.act(code, piece);
        let start = self.progress.start(costs, duration);
        self.left = start.ticks;
        self.works += start.works;
        if let Act::Finish = act {
            self.readiness = self.resting();
        }
        act
    }

    /// Uses what is left of the piece at once, where that is over by the limit: the time then.
    #[inline(always)]
    fn use_left(&mut self, time: u64, limit: u64) -> u64
        requires later { time ≤ limit }
        requires near { limit < 2 ^ 32 }
        requires small { self.old.used < 2 ^ 63 }
        ensures uses { MayUse limit time self.old result self.new }
        ensures spent { IsSpent limit result self.new }
    {
        let ticks = u64::from(self.left);
        if ticks == 0 {
            return time;
        }
        if limit - time < ticks {
            return time;
        }
        self.use_ticks(ticks);
        time + ticks
    }

    /// Does the piece whose ticks are used, where it is nothing to others: whether there is such a piece.
    #[inline(always)]
    fn act_alone(&mut self, costs: &Costs, code: &LinkedUnits<'a>) -> bool
        requires at_work { IsAtWork code.now self.old.progress }
        requires few { self.old.works < 2 ^ 63 }
        requires ticking { costs_break costs.now ≡ false }
        ensures acts { MayAct result code.now costs.now self.old self.new }
        ensures alone { result ≡ can_go code.now self.old }
    {
        if self.left != 0 {
            return false;
        }
        let duration = self.duration();
        if !self.progress.act_alone(code) {
            return false;
        }
        let Start { ticks, works } = self.progress.start(costs, duration);
        self.left = ticks;
        self.works += works;
        true
    }

    /// Goes on through pieces that are nothing to others, each as soon as its ticks are used, up to a time that no use of ticks passes: the time
    /// then. Nothing else has changed. It stops only where the ticks of its piece don't end by that time, or its piece is something to others.
    pub fn go_alone(&mut self, costs: &Costs, code: &LinkedUnits<'a>, from: u64, limit: u64) -> u64
        requires at_work { IsAtWork code.now self.old.progress }
        requires later { from ≤ limit }
        requires near { limit < 2 ^ 32 }
        requires used { self.old.used ≤ from }
        requires works { self.old.works ≤ from + min self.old.left 1 }
        requires ticking { costs_break costs.now ≡ false }
        ensures goes { GoesAlong code.now costs.now limit from self.old result self.new }
        ensures spent { IsSpent limit result self.new }
        ensures alone { can_go code.now self.new ≡ false }
    {
        let mut time = from;
        'pieces: loop {
            time = self.use_left(time, limit);
            if !self.act_alone(costs, code) {
                return time;
            }
        }
    }

    /// The entry into an operation of a protected object, whose ticks are used: the values are handed in, and the data of the
    /// object are taken.
    pub fn enter(
        &mut self,
        costs: &Costs,
        code: &LinkedUnits<'a>,
        entry: Entry,
        data: &mut Vec<Var<'a>>,
    ) -> Values
        requires at_work { IsAtWork code.now self.old.progress }
        requires ready { is_ready self.old.readiness ≡ true }
        requires entry { IfSome self.old.progress.piece (λ p. IsEntry code.now p entry.object entry.place) }
        requires some { IsSome self.old.progress.piece }
        requires names { (g : ProtectedUnit) → slice_get (system_of self.old.progress.stack.thread).objects entry.object ≡ Some g
            → names_of (vars_of «data».old.items) ≡ datum_names g.vars }
        requires few { self.old.works < 2 ^ 63 }
        requires ticking { costs_break costs.now ≡ false }
        ensures at_work { IsAtWork code.now self.new.progress }
        ensures enters { Enters (system_of self.old.progress.stack.thread) costs.now entry.object entry.place result
            (vars_of «data».old.items) (task_of self.old) (task_of self.new) }
        ensures thread { self.new.progress.stack.thread ≡ self.old.progress.stack.thread }
        ensures works { self.new.works ≤ self.old.works + min self.new.left 1 }
        ensures falls { EffortFalls self.old.progress.stack.thread (task_of self.old) (task_of self.new) }
        ensures inside { sections_among (task_of self.new).pieces ≡ suc (sections_among (task_of self.old).pieces) }
        ensures lent { «data».new.items ≡ [] }
        ensures room { vec_capacity «data».new ≡ vec_capacity «data».old }
    {
        let duration = self.duration();
        let values = self.progress.enter(code, entry, data);
        let start = self.progress.start(costs, duration);
        self.left = start.ticks;
        self.works += start.works;
        values
    }

    /// The exit from an operation of a protected object: the values are handed out, and the data of the object go back.
    pub fn leave(
        &mut self,
        costs: &Costs,
        code: &LinkedUnits<'a>,
        entry: Entry,
        data: &mut Vec<Var<'a>>,
    ) -> Values
        requires at_work { IsAtWork code.now self.old.progress }
        requires ready { is_ready self.old.readiness ≡ true }
        requires piece { self.old.progress.piece ≡ Some PieceIs.Close }
        requires entry { owner_of self.old.progress.stack ≡ Some (entry.object, entry.place) }
        requires room { (g : ProtectedUnit) → slice_get (system_of self.old.progress.stack.thread).objects entry.object ≡ Some g
            → length g.vars ≤ vec_capacity «data».old }
        requires few { self.old.works < 2 ^ 63 }
        requires ticking { costs_break costs.now ≡ false }
        ensures at_work { IsAtWork code.now self.new.progress }
        ensures leaves { Leaves (system_of self.old.progress.stack.thread) costs.now entry.object entry.place result
            (vars_of «data».new.items) (task_of self.old) (task_of self.new) }
        ensures thread { self.new.progress.stack.thread ≡ self.old.progress.stack.thread }
        ensures works { self.new.works ≤ self.old.works + min self.new.left 1 }
        ensures falls { EffortFalls self.old.progress.stack.thread (task_of self.old) (task_of self.new) }
        ensures inside { sections_among (task_of self.old).pieces ≡ suc (sections_among (task_of self.new).pieces) }
        ensures names { (g : ProtectedUnit) → slice_get (system_of self.old.progress.stack.thread).objects entry.object ≡ Some g
            → names_of (vars_of «data».new.items) ≡ datum_names g.vars }
        ensures room { vec_capacity «data».new ≡ vec_capacity «data».old }
    {
        let duration = self.duration();
        let values = self.progress.leave(code, entry, data);
        let start = self.progress.start(costs, duration);
        self.left = start.ticks;
        self.works += start.works;
        values
    }
}
