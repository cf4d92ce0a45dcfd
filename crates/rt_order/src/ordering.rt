ghost use Rattle.std.specs.Prelude.{◌≡◌, IfOk};
ghost use Rattle.ods_tree.specs.Trees.{flat_of};
ghost use Rattle.analysis.specs.Ceilings.{ranks, ranks_for};
ghost use Rattle.analysis.specs.Sound.{IsSound};
ghost use Rattle.analysis.specs.Trees.{ranks_of};

use crate::deadlines::priorities;
use crate::rises::{all_comers, control_ceilings, rise, settle};
use crate::sharing::{Sharing, sharing_of};
use analysis::Ranking;
use ods_tree::Flat;
use seq_tree::NoMemory;
use std::alloc::Global;

/// These priorities of the threads of a flat design, by place, with the ceilings that they give its protected objects and control
/// structures. For other priorities the same `sharing` serves. `NoMemory` comes for want of memory alone.
pub fn ceilings(
    alloc: Global,
    sharing: &Sharing<'_>,
    threads: Vec<u32>,
) -> Result<Ranking, NoMemory>
    ensures { IfOk result (λ r. ranks_of r ≡ ranks_for (flat_of sharing.now.flat.now) threads.items) }
{
    let comers = all_comers(alloc, sharing.objects.as_slice(), threads.as_slice())?;
    let below = settle(alloc, comers.as_slice())?;
    let shared = rise(alloc, comers.as_slice(), below.as_slice())?;
    let obcs = control_ceilings(
        alloc,
        sharing.controls.as_slice(),
        threads.as_slice(),
        below.as_slice(),
    )?;
    Ok(Ranking {
        threads,
        shared,
        obcs,
    })
}

/// These priorities with their ceilings, for a flat design of which no others are asked.
pub fn rank(alloc: Global, flat: &Flat, threads: Vec<u32>) -> Result<Ranking, NoMemory>
    ensures { IfOk result (λ r. ranks_of r ≡ ranks_for (flat_of flat.now) threads.items) }
{
    let sharing = sharing_of(alloc, flat)?;
    ceilings(alloc, &sharing, threads)
}

/// Deadline-monotonic priorities of the threads of a flat design, from 1, where of equal deadlines the earlier thread has the
/// greater one, and the ceilings of its protected objects and control structures. `NoMemory` comes for want of memory alone.
pub fn order(alloc: Global, flat: &Flat) -> Result<Ranking, NoMemory>
    requires { IsSound (flat_of flat.now) }
    ensures { IfOk result (λ r. ranks_of r ≡ ranks (flat_of flat.now)) }
{
    let threads = priorities(alloc, flat.threads.as_slice())?;
    rank(alloc, flat, threads)
}
