ghost use Rattle.std.specs.Prelude.{◌≡◌, ◌≤◌, ℕ, IfOk};
ghost use Rattle.seq_tree.specs.Lists.{Each};
ghost use Rattle.seq_tree.specs.Trees.{block_of};
ghost use Rattle.law_walks.specs.Fit.{MayRun};
ghost use Rattle.seq_eval.specs.Bounds.{most_ticks};
ghost use Rattle.guarantee.specs.Software.{leads_to};
ghost use Rattle.law_traces.specs.Checks.{begins_along, run_along};
ghost use Rattle.trace_tree.specs.Placed.{IsPlaced};
ghost use Rattle.trace_scripts.specs.Scripts.{shown_of};
ghost use Rattle.trace_scripts.specs.Scenes.{IsScene, IsWalk, calls_of, program_in, software_of};
ghost use Rattle.seq_tree.specs.Limits.{tick_limit};

use crate::reading::Reading;
use crate::scripts::Script;
use ada_tree::AdaProgram;
use seq_eval::{Actions, Along, Calls, Env, follow_actions};
use seq_tree::{Block, NoMemory};
use std::alloc::Global;
use trace_read::Events;

/// A program, and what calls in it lead to.
#[derive(Clone, Copy, Drop)]
pub struct Scene<'a, 'c> {
    pub program: &'a AdaProgram,
    pub calls: &'a Calls<'c>,
}

/// What a script is to the runs of a block, with the fewest and the most ticks of the run.
#[derive(Clone, Copy, Drop)]
pub(crate) enum Walked {
    /// It is the script of a run.
    Ran { low: u64, high: u64 },
    /// It begins one.
    Begun,
    /// It is neither.
    Astray,
}

impl Scene<'_, '_> {
    /// Follows a block along a script. Behind a run the variables are those that it leaves.
    #[tactic(auto)]
    pub(crate) fn walk(
        &self,
        alloc: Global,
        events: &Events,
        block: &Block,
        env: &mut Env,
        script: &Script,
    ) -> Result<Walked, NoMemory>
        requires scene { IsScene self.now }
        requires placed { Each (IsPlaced (program_in self.now)) events.now }
        requires ticks { (depth : ℕ) → most_ticks self.now.program.now.costs (calls_of self.now) depth (block_of block.now) ≤ tick_limit }
        ensures { (depth : ℕ) → MayRun (leads_to (software_of self.now)) depth (block_of block.now)
            → IfOk result (λ r. IsWalk (run_along (software_of self.now) depth (block_of block.now) env.old.slots.items (shown_of
            (program_in self.now) events.now script.now))
            (begins_along (software_of self.now) depth (block_of block.now) env.old.slots.items (shown_of
            (program_in self.now) events.now script.now)) r env.new.slots.items) }
    {
        if !script.shows {
            return Ok(Walked::Astray);
        }
        let costs = &self.program.costs;
        let reading = Reading::new(self.program, events, script.lines.as_slice());
        let answer = follow_actions(alloc, block, costs, self.calls, env, reading)?;
        match answer {
            Along::Done { low, high } => Ok(Walked::Ran { low, high }),
            Along::Stopped(rest) => {
                if rest.is_over() {
                    Ok(Walked::Begun)
                } else {
                    Ok(Walked::Astray)
                }
            }
        }
    }
}
