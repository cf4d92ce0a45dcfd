ghost use Rattle.std.specs.Prelude.{◌≡◌, List, OnOk, drop, option_map};
ghost use Rattle.seq_tree.specs.Runs.{Action as ActionTree};
ghost use Rattle.seq_eval.specs.Scripts.{is_over, next_entry, next_exit, next_prints, next_requests};

use crate::action::Action;
use crate::seen::{asks, entry_values, exit_values, prints};
use seq_tree::{Name, NoMemory};

/// A script: what gives actions, one after another. Contracts see it as the list of those that are left, so it need not hold them all.
pub trait Actions {
    /// The actions that are left, the next one first.
    ghost meaning: { Self → List ActionTree };

    /// Whether no action is left.
    fn is_over(&self) -> bool
        ensures { result ≡ is_over (meaning self.now) };

    /// The values that the next action hands in, where it enters this operation.
    fn enters(&self, object: &Name, op: &Name) -> Option<&[u32]>
        ensures { option_map (λ r. r.now) result ≡ next_entry (record { object = object.now; op = op.now }) (meaning self.now) };

    /// The values that the next action hands out, where it leaves this operation.
    fn leaves(&self, object: &Name, op: &Name) -> Option<&[u32]>
        ensures { option_map (λ r. r.now) result ≡ next_exit (record { object = object.now; op = op.now }) (meaning self.now) };

    /// Whether the next action requests a task by this operation with this value.
    fn requests(&self, object: &Name, op: &Name, value: Option<u32>) -> bool
        ensures { result ≡ next_requests (record { object = object.now; op = op.now }) value (meaning self.now) };

    /// Whether the next action prints this value.
    fn prints(&self, value: u32) -> bool
        ensures { result ≡ next_prints value (meaning self.now) };

    /// Passes the next action, where there is one. After `NoMemory` nothing is told of the script.
    fn pass(&mut self) -> Result<(), NoMemory>
        ensures { OnOk result (meaning self.new ≡ drop 1 (meaning self.old)) };
}

/// What the actions of a script are to the runs of a block. Ticks leave out the bodies of protected operations.
#[derive(Drop)]
pub enum Along<S> {
    /// They are the script of one run, whose ticks lie between these.
    Done { low: u64, high: u64 },
    /// They aren't, and these are left: the next of them can't stand at its place. Where none is left, they end inside a run.
    Stopped(S),
}

/// The actions of a list, in its order. It takes no memory.
impl Actions for &[Action] {
    ghost use Rattle.std.specs.Prelude.{map};
    ghost use Rattle.seq_eval.specs.Actions.{action_of};

    ghost meaning = { λ s. map action_of s.now };

    fn is_over(&self) -> bool {
        self.is_empty()
    }

    fn enters(&self, object: &Name, op: &Name) -> Option<&[u32]> {
        let (action, _) = self.split_first()?;
        entry_values(action, object, op)
    }

    fn leaves(&self, object: &Name, op: &Name) -> Option<&[u32]> {
        let (action, _) = self.split_first()?;
        exit_values(action, object, op)
    }

    fn requests(&self, object: &Name, op: &Name, value: Option<u32>) -> bool {
        match self.split_first() {
            Some((action, _)) => asks(action, object, op, value),
            None => false,
        }
    }

    fn prints(&self, value: u32) -> bool {
        match self.split_first() {
            Some((action, _)) => prints(action, value),
            None => false,
        }
    }

    fn pass(&mut self) -> Result<(), NoMemory> {
        let all = *self;
        if let Some((_, rest)) = all.split_first() {
            *self = rest;
        }
        Ok(())
    }
}
