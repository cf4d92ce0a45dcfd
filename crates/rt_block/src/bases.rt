ghost use Rattle.std.specs.Prelude.{◌≡◌, IfOk, map, min, position};
ghost use Rattle.seq_tree.specs.Dearest.{cost};
ghost use Rattle.seq_tree.specs.Trees.{block_of};
ghost use Rattle.ods_tree.specs.Flats.{period_of};
ghost use Rattle.ods_tree.specs.Services.{flat_services};
ghost use Rattle.ods_tree.specs.Trees.{thread_of, timing_of};
ghost use Rattle.analysis.specs.Execution.{block_cost};
ghost use Rattle.analysis.specs.Tables.{jitter_of};
ghost use Rattle.rt_block.specs.Bases.{base_of, starter_place, thread_cost};
ghost use Rattle.rt_block.specs.Known.{IsKnown, IsServed, design};
ghost use Rattle.call_graph.specs.Prices.{cap};

use crate::operations::Operations;
use crate::starters::starter;
use call_graph::{CAP, ticks_of};
use ods_tree::{FlatThread, Timing};
use seq_tree::{Block, Name, NoMemory};
use std::alloc::Global;

/// What the rows of a thread have for any priorities: times and cost in ticks, and the place of the first thread that requests it, where
/// it isn't requested from outside.
#[derive(Clone, Copy)]
pub(crate) struct Base {
    pub(crate) period: u32,
    pub(crate) deadline: u32,
    pub(crate) jitter: u32,
    pub(crate) cost: u32,
    pub(crate) starter: Option<usize>,
}

/// The period of a cyclic thread, and the separation of a sporadic one.
fn period_of(timing: &Timing) -> u32
    ensures { result ≡ period_of (timing_of timing.now) }
{
    match timing {
        Timing::Cyclic { period, .. } => *period,
        Timing::Sporadic { separation, .. } => *separation,
    }
}

/// The jitter of a thread that is requested from outside, and 0 for others.
fn jitter_of(timing: &Timing) -> u32
    ensures { result ≡ jitter_of (timing_of timing.now) }
{
    match timing {
        Timing::Cyclic { .. } => 0,
        Timing::Sporadic { jitter, .. } => jitter.unwrap_or(0),
    }
}

/// The place of the first thread that can request a thread, where it isn't requested from outside.
fn starter_place(
    alloc: Global,
    operations: &Operations<'_>,
    name: &Name,
    timing: &Timing,
) -> Result<Option<usize>, NoMemory>
    requires known { IsKnown operations.now }
    requires served { IsServed operations.now }
    ensures { IfOk result (λ o. o ≡ starter_place (design operations.now) name.now (timing_of timing.now)) }
{
    match timing {
        Timing::Cyclic { .. } => Ok(None),
        Timing::Sporadic { jitter: None, .. } => starter(alloc, operations, name),
        Timing::Sporadic {
            jitter: Some(_),
            ..
        } => Ok(None),
    }
}

/// What a block costs, or 1,000,000,001 ticks where it is more.
pub(crate) fn block_ticks(operations: &Operations<'_>, block: &Block) -> u32
    requires { IsKnown operations.now }
    ensures { result ≡ min cap (block_cost (design operations.now).costs (flat_services (design operations.now)) (block_of block.now)) }
{
    ticks_of(
        &operations.flat.costs,
        &operations.places,
        operations.prices.as_slice(),
        block,
    )
}

/// What an activation of a thread costs, or 1,000,000,001 ticks where it is more.
fn thread_ticks(operations: &Operations<'_>, thread: &FlatThread) -> u32
    requires { IsKnown operations.now }
    ensures { result ≡ thread_cost (design operations.now) (thread_of thread.now) }
{
    let block = block_ticks(operations, &thread.block);
    CAP.min(u64::from(block) + u64::from(operations.flat.costs.finish)) as u32
}

/// What the rows of a thread have for any priorities.
fn base_of(
    alloc: Global,
    operations: &Operations<'_>,
    thread: &FlatThread,
) -> Result<Base, NoMemory>
    requires known { IsKnown operations.now }
    requires served { IsServed operations.now }
    ensures { IfOk result (λ b. b ≡ base_of (design operations.now) (thread_of thread.now)) }
{
    Ok(Base {
        period: period_of(&thread.timing),
        deadline: thread.deadline,
        jitter: jitter_of(&thread.timing),
        cost: thread_ticks(operations, thread),
        starter: starter_place(alloc, operations, &thread.name, &thread.timing)?,
    })
}

/// The same for each thread.
pub(crate) fn bases_of(alloc: Global, operations: &Operations<'_>) -> Result<Vec<Base>, NoMemory>
    requires known { IsKnown operations.now }
    requires served { IsServed operations.now }
    ensures { IfOk result (λ v. v.items ≡ map (base_of (design operations.now)) (design operations.now).threads) }
{
    let mut bases = Vec::new(alloc);
    'threads: for thread in &operations.flat.threads {
        bases.push(base_of(alloc, operations, thread)?)?;
    }
    Ok(bases)
}
