ghost use Rattle.std.specs.Prelude.{◌≡◌, IfOk, map};
ghost use Rattle.ods_tree.specs.Trees.{flat_of};
ghost use Rattle.rt_response.specs.Tables.{IsTable};
ghost use Rattle.analysis.specs.Sound.{IsSound};
ghost use Rattle.analysis.specs.Tables.{table as table_tree};
ghost use Rattle.analysis.specs.Trees.{table_of};
ghost use Rattle.late_response.specs.Late.{AreTold};
ghost use Rattle.explanation.specs.Findings.{IsFound, solved_of};

use crate::reasons::Late;
use analysis::Table;
use design_bounds::{NoBounds, bounds_of};
use late_response::{Reach, respond_late};
use ods_tree::Flat;
use rt_response::{Bound, ThreadRow};
use seq_tree::NoMemory;
use std::alloc::Global;

/// What is told of each row of a table, and the first value that is over its limit, where one is.
#[derive(Drop)]
pub(crate) struct Found {
    pub(crate) late: Option<Late>,
    pub(crate) reaches: Vec<Reach>,
}

/// Each row with its bound.
fn solved(alloc: Global, bounds: &[Bound]) -> Result<Vec<Reach>, NoMemory>
    ensures { IfOk result (λ v. v.items ≡ map solved_of bounds.now) }
{
    let mut reaches = Vec::new(alloc);
    'bounds: for bound in bounds {
        reaches.push(Reach::Solved {
            jitter: u64::from(bound.jitter),
            response: u64::from(bound.response),
        })?;
    }
    Ok(reaches)
}

/// What is told of each row of a table that misses.
fn unlimited(alloc: Global, table: &[ThreadRow]) -> Result<Vec<Reach>, NoMemory>
    requires { IsTable table.now }
    ensures { IfOk result (λ v. AreTold table.now v.items) }
{
    let mut reaches = vec![in alloc; Reach::Behind { starter: 0 }; table.len()]?;
    respond_late(table, reaches.as_mut_slice());
    Ok(reaches)
}

/// The bounds of the rows of the table of a sound flat design, or, where a value is over its limit, what is told of each row without
/// limits. `NoMemory` comes for want of memory alone.
pub(crate) fn find_bounds(alloc: Global, flat: &Flat, table: &Table) -> Result<Found, NoMemory>
    requires sound { IsSound (flat_of flat.now) }
    requires table { table_of table.now ≡ table_tree (flat_of flat.now) }
    ensures { IfOk result (λ r. IsFound (flat_of flat.now) r.reaches.items r.late) }
{
    match bounds_of(alloc, flat, table) {
        Ok(bounds) => Ok(Found {
            late: None,
            reaches: solved(alloc, bounds.as_slice())?,
        }),
        Err(NoBounds::Miss { thread, miss }) => Ok(Found {
            late: Some(Late { thread, miss }),
            reaches: unlimited(alloc, table.rows.as_slice())?,
        }),
        Err(NoBounds::NoMemory) => Err(NoMemory),
    }
}
