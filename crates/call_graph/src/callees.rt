ghost use Rattle.std.specs.Prelude.{◌≡◌, IfOk, length, map};
ghost use Rattle.call_graph.specs.Entries.{entry_at, work_of};
ghost use Rattle.call_graph.specs.Places.{work_places};

use crate::call_places::{CallPlaces, written_places};
use crate::services::{Body, Served};
use seq_tree::NoMemory;
use std::alloc::Global;

/// The places of all that an operation calls.
fn called_by<P: CallPlaces>(
    alloc: Global,
    places: &P,
    served: &Served<'_>,
) -> Result<Vec<usize>, NoMemory>
    ensures { IfOk result (λ v. v.items ≡ work_places (P.places places.now) (work_of served.now.body)) }
{
    match served.body {
        Body::Plain(block) => written_places(alloc, places, block),
        Body::Protected(block) => written_places(alloc, places, block),
        Body::Asked => Ok(Vec::new(alloc)),
    }
}

/// The places of all that operations call, by places.
pub(crate) fn all_calls<P: CallPlaces>(
    alloc: Global,
    places: &P,
    services: &[Served<'_>],
) -> Result<Vec<Vec<usize>>, NoMemory>
    ensures same { IfOk result (λ v. map (λ l. l.items) v.items ≡ map (λ e. work_places (P.places places.now) e.work) (map entry_at services.now)) }
    ensures long { IfOk result (λ v. length v.items ≡ length services.now) }
{
    let mut calls = Vec::new(alloc);
    'services: for served in services {
        calls.push(called_by(alloc, places, served)?)?;
    }
    Ok(calls)
}
