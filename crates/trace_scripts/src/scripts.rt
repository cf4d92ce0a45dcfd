ghost use Rattle.std.specs.Prelude.{◌≡◌, [], List, OnOk, Some, is_some};
ghost use Rattle.ada_tree.specs.Programs.{Program};
ghost use Rattle.law_traces.specs.Progress.{with_last};
ghost use Rattle.trace_tree.specs.declared.event.Event as machine;
ghost use Rattle.trace_scripts.specs.Scripts.{action_at, shown_of};

use seq_tree::NoMemory;
use std::alloc::Global;

/// The actions that events show, by the indices of the events, or that one of them shows none. An index takes four bytes.
#[derive(Drop)]
pub(crate) struct Script {
    pub lines: Vec<u32>,
    pub shows: bool,
}

impl Script {
    /// The script of no events.
    #[tactic(auto, unfolding(crate::specs::Scripts::actions_at))]
    pub fn empty(alloc: Global) -> Script
        ensures { (p : Program) (es : List machine.Event) → shown_of p es result ≡ Some [] }
    {
        Script {
            lines: Vec::new(alloc),
            shows: true,
        }
    }

    /// Adds the event at an index, which shows an action or shows none.
    pub fn add(&mut self, here: u32, shows: bool) -> Result<(), NoMemory>
        ensures { (p : Program) (es : List machine.Event) → is_some (action_at p es here) ≡ shows
            → OnOk result (shown_of p es self.new ≡ with_last (shown_of p es self.old) (action_at p es here)) }
    {
        if !shows {
            self.shows = false;
            return Ok(());
        }
        self.lines.push(here)?;
        Ok(())
    }
}
