ghost use Rattle.std.specs.Prelude.{◌≡◌, ◌≤◌, ◌<◌, ℕ, IfOk, OnOk, length, map};
ghost use Rattle.grammar.specs.Reading.{whole_at};
ghost use Rattle.seq_tree.specs.Trees.{block_of, offer_of, operation_of};
ghost use Rattle.law_walks.specs.Fit.{MayRun};
ghost use Rattle.law_walks.specs.Walks.{walk_at};
ghost use Rattle.seq_eval.specs.Actions.{action_of};
ghost use Rattle.seq_eval.specs.Bounds.{most_ticks};
ghost use Rattle.seq_eval.specs.Calls.{calls_in};
ghost use Rattle.seq_eval.specs.Ends.{FitsEnd, IsEnd, comes_to, names_of};
ghost use Rattle.seq_eval.specs.Following.{Follows, Means, callees};
ghost use Rattle.seq_eval.specs.Scripts.{IsWithin, answered};
ghost use Rattle.seq_tree.specs.Limits.{tick_limit};

use crate::action::{Action, Followed};
use crate::calls::Calls;
use crate::env::Env;
use crate::scope::Scope;
use crate::script::{Actions, Along};
use crate::walk::{Frame, Walk};
use seq_tree::{Block, Callable, Costs, Name, NoMemory, OpText};
use std::alloc::Global;

/// How the following of a block ended.
#[derive(Drop)]
enum Ended<S> {
    /// The script is that of a run: its ticks, and the values of the variables at its end.
    Done {
        low: u64,
        high: u64,
        values: Vec<u32>,
    },
    /// It isn't, and these actions are left.
    Stopped(S),
}

/// The variables of a list, in its order.
fn scope_of<'a>(alloc: Global, env: &'a Env) -> Result<Scope<'a>, NoMemory>
    ensures { IfOk result (λ s. s ≡ env.entry.now.slots.items) }
{
    let mut vars = Scope::new(alloc);
    let mut at = env.slots.len();
    'slots: while at > 0 {
        at -= 1;
        let slot = &env.slots[at];
        vars.push(&slot.0, slot.1)?;
    }
    Ok(vars)
}

/// Gives the variables of a list these values, in its order.
fn set_values(env: &mut Env, values: &[u32])
    requires { length values.now ≡ length env.old.slots.items }
    ensures names { names_of env.new.slots.items ≡ names_of env.old.slots.items }
    ensures values { map (λ v. v.1) env.new.slots.items ≡ values.now }
{
    let mut at = 0;
    'values: while at < values.len() {
        env.slots[at].1 = values[at];
        at += 1;
    }
}

/// Follows a block along a script, from these variables, where calls lead to these.
fn run<'a, 'c: 'a, S: Actions + Drop>(
    alloc: Global,
    block: &'a Block,
    costs: &Costs,
    calls: &Calls<'c>,
    env: &'a Env,
    script: S,
) -> Result<Ended<S>, NoMemory>
    ensures fits { IfOk result (FitsEnd S.meaning (names_of env.entry.now.slots.items) (length (S.meaning script))) }
    ensures ended { IfOk result (λ e. ((depth : ℕ) → most_ticks costs.now (calls_in calls.now) depth (block_of block.entry.now) ≤ tick_limit)
        → (depth : ℕ) → 18446744073709551615 < depth
        → IsEnd S.meaning (names_of env.entry.now.slots.items) (length (S.meaning script)) e
        (comes_to (whole_at (walk_at costs.now (calls_in calls.now) depth (block_of block.entry.now) env.entry.now.slots.items)
        (S.meaning script)))) }
{
    let mut frames = Vec::new(alloc);
    frames.push(Frame::Stmts(block.stmts.as_slice()))?;
    let mut walk = Walk {
        frames,
        leaving: false,
        vars: scope_of(alloc, env)?,
        low: 0,
        high: 0,
        script,
    };
    'frames: while let Some(frame) = walk.frames.pop() {
        if !walk.has_few() {
            return Ok(Ended::Stopped(walk.script));
        }
        if !walk.step(alloc, costs, calls, frame)? {
            return Ok(Ended::Stopped(walk.script));
        }
    }
    if !walk.script.is_over() {
        return Ok(Ended::Stopped(walk.script));
    }
    let values = walk.vars.values(alloc)?;
    Ok(Ended::Done {
        low: walk.low,
        high: walk.high,
        values,
    })
}

/// Reads a block along a script, which need not be held as a list: whether its actions are those of a run of the block from the variables of
/// `env`; else the actions that are left where they no longer are. What protected operations hand out is taken from the script.
///
/// `Done` tells the fewest and the most ticks of the run, without those of the bodies of protected operations, and `env` is then its last
/// state. After `Stopped` and `NoMemory` it is as before. This holds where the ticks of the block are at most 1,000,000,000, with nothing
/// for the bodies of protected operations, where each call leads to an operation, no passive operation calls itself through others, and exits
/// stand in loops; of other blocks nothing is told.
///
/// A statement that it passes is passed once for each time that the run does so, however short the script is: up to 1,000,000,000 times for a
/// block of as many ticks. Each time takes, for each name of a variable in it, up to the bytes of the variables of the body that runs, and for a
/// call what a look into `calls` takes. Memory grows with the variables of `env`, and with how deep statements and calls are nested.
pub fn follow_actions<S: Actions + Drop>(
    alloc: Global,
    block: &Block,
    costs: &Costs,
    calls: &Calls,
    env: &mut Env,
    script: S,
) -> Result<Along<S>, NoMemory>
    ensures says { ((depth : ℕ) → most_ticks costs.now (calls_in calls.now) depth (block_of block.now) ≤ tick_limit)
        → (depth : ℕ) → MayRun (calls_in calls.now) depth (block_of block.now)
        → Follows costs.now (calls_in calls.now) depth (block_of block.now) env.old.slots.items (S.meaning script)
        (answered S.meaning (length (S.meaning script)) result) env.new.slots.items }
    ensures means { ((depth : ℕ) → most_ticks costs.now (calls_in calls.now) depth (block_of block.now) ≤ tick_limit)
        → (depth : ℕ) → MayRun (calls_in calls.now) depth (block_of block.now)
        → Means costs.now (calls_in calls.now) (block_of block.now) env.old.slots.items (S.meaning script)
        (answered S.meaning (length (S.meaning script)) result) env.new.slots.items }
    ensures within { IfOk result (IsWithin S.meaning (length (S.meaning script))) }
{
    match run(alloc, block, costs, calls, env, script)? {
        Ended::Done { low, high, values } => {
            set_values(env, values.as_slice());
            Ok(Along::Done { low, high })
        }
        Ended::Stopped(rest) => Ok(Along::Stopped(rest)),
    }
}

/// Reads a block along a script of actions: whether the script is that of a run of the block from the variables of `env`, ends inside a run,
/// or has an action that can't stand at its place. What protected operations hand out is taken from the script.
///
/// It is `follow_actions` for a list, and tells the place of the action. After `Short`, `Off` and `NoMemory` `env` is as before.
pub fn follow_in(
    alloc: Global,
    block: &Block,
    costs: &Costs,
    calls: &Calls,
    env: &mut Env,
    script: &[Action],
) -> Result<Followed, NoMemory>
    ensures says { ((depth : ℕ) → most_ticks costs.now (calls_in calls.now) depth (block_of block.now) ≤ tick_limit)
        → (depth : ℕ) → MayRun (calls_in calls.now) depth (block_of block.now)
        → Follows costs.now (calls_in calls.now) depth (block_of block.now) env.old.slots.items (map action_of script.now) result
        env.new.slots.items }
    ensures means { ((depth : ℕ) → most_ticks costs.now (calls_in calls.now) depth (block_of block.now) ≤ tick_limit)
        → (depth : ℕ) → MayRun (calls_in calls.now) depth (block_of block.now)
        → Means costs.now (calls_in calls.now) (block_of block.now) env.old.slots.items (map action_of script.now) result env.new.slots.items }
{
    match follow_actions(alloc, block, costs, calls, env, script)? {
        Along::Done { low, high } => Ok(Followed::Done { low, high }),
        Along::Stopped(rest) => {
            if rest.is_empty() {
                Ok(Followed::Short)
            } else {
                Ok(Followed::Off(script.len() - rest.len()))
            }
        }
    }
}

/// Reads a block along a script of actions as `follow_in` does, where these operations may be called.
///
/// `owners` has the object of each of the `passive` operations, `shared` the protected operations that may be called, and `requests` the
/// operations by which tasks are requested; of two operations of one name the first counts. A table of all of them is made for this call alone:
/// who follows several blocks makes the `Calls` once.
pub fn follow(
    alloc: Global,
    block: &Block,
    costs: &Costs,
    passive: &[OpText],
    owners: &[Name],
    shared: &[Callable],
    requests: &[Callable],
    env: &mut Env,
    script: &[Action],
) -> Result<Followed, NoMemory>
    requires { length owners.now ≡ length passive.now }
    ensures says { ((depth : ℕ) → most_ticks costs.now (callees owners.now (map operation_of passive.now) (map offer_of shared.now)
        (map offer_of requests.now))
        depth (block_of block.now) ≤ tick_limit)
        → (depth : ℕ)
        → MayRun (callees owners.now (map operation_of passive.now) (map offer_of shared.now) (map offer_of requests.now)) depth (block_of block.now)
        → Follows costs.now (callees owners.now (map operation_of passive.now) (map offer_of shared.now) (map offer_of requests.now)) depth
        (block_of block.now) env.old.slots.items (map action_of script.now) result env.new.slots.items }
    ensures means { ((depth : ℕ) → most_ticks costs.now (callees owners.now (map operation_of passive.now) (map offer_of shared.now)
        (map offer_of requests.now))
        depth (block_of block.now) ≤ tick_limit)
        → (depth : ℕ)
        → MayRun (callees owners.now (map operation_of passive.now) (map offer_of shared.now) (map offer_of requests.now)) depth (block_of block.now)
        → Means costs.now (callees owners.now (map operation_of passive.now) (map offer_of shared.now) (map offer_of requests.now))
        (block_of block.now) env.old.slots.items (map action_of script.now) result env.new.slots.items }
{
    let calls = Calls::of(alloc, passive, owners, shared, requests)?;
    follow_in(alloc, block, costs, &calls, env, script)
}
