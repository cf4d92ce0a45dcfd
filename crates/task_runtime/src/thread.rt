ghost use Rattle.std.specs.Prelude.{◌≡◌, length};
ghost use Rattle.machine.specs.Effects.{ceiling_by};
ghost use Rattle.task_runtime.specs.Written.{timing_of};
ghost use Rattle.machine.specs.Systems.{request_params};

use ada_tree::Unit;
use arrivals_tree::WorkList;
use seq_tree::{Datum, Name, OpSig, Stmt};

/// When a task is released.
#[derive(Clone, Copy, Drop)]
pub enum Timing<'a> {
    /// At its own times: the first one, and one each period from then on, in ticks.
    Periodic {
        offset: u32,
        period: u32,
    },
    /// At requests of its operation, whose control structure has this ceiling. The separation and the jitter are in ticks.
    Requested {
        op: &'a OpSig,
        ceiling: u32,
        separation: u32,
        jitter: u32,
        external: bool,
    },
}

/// How many parameters the requests of a task have.
pub fn params_len(timing: Timing) -> usize
    ensures { result ≡ length (request_params (timing_of timing.entry)) }
{
    match timing {
        Timing::Periodic { .. } => 0,
        Timing::Requested { op, .. } => op.params.len(),
    }
}

/// A task as it is written, with the units of its program and the durations that are handed to all tasks, the place of its
/// own unit, its priority, and when it is released.
#[derive(Clone, Copy, Drop)]
pub struct Thread<'a> {
    pub units: &'a [Unit],
    pub work: &'a [WorkList],
    pub unit: u32,
    pub name: &'a Name,
    pub priority: u32,
    pub timing: Timing<'a>,
    pub data: &'a [Datum],
    pub stmts: &'a [Stmt],
}

/// The ceiling of the control structure of a task, which is 0 where it has times of its own.
pub fn ceiling_of(timing: Timing) -> u32
    ensures { result ≡ ceiling_by (timing_of timing.entry) }
{
    match timing {
        Timing::Periodic { .. } => 0,
        Timing::Requested { ceiling, .. } => ceiling,
    }
}
