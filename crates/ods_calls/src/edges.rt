ghost use Rattle.std.specs.Prelude.{◌≡◌, ℕ, Option, IfOk, flat_map, map};
ghost use Rattle.name_sets.specs.Places.{place_in};
ghost use Rattle.name_sets.specs.Tables.{at};
ghost use Rattle.ods_index.specs.Calling.{Calls, calls_of};
ghost use Rattle.ods_calls.specs.Graphed.{body_edges};
ghost use Rattle.ods_calls.specs.Guarded.{guard_place};

use call_graph::{CallPlaces, add_edges};
use name_sets::{OpTable, Places};
use ods_index::{OpCalls, is_protected};
use seq_tree::NoMemory;
use std::alloc::Global;

/// Where calls lead, and where the bodies stand that make them.
pub(crate) trait BodyPlaces: CallPlaces {
    /// The place of each body, where it has one.
    ghost sources: { Self → Calls → Option ℕ };

    /// The place of a body, where it has one.
    fn source(&self, calls: &OpCalls<'_>) -> Option<usize>
        ensures { result ≡ sources self.now (calls_of calls.now) };
}

/// Bodies by the names of their operations.
impl BodyPlaces for OpTable<'_, usize> {
    ghost sources = { λ t c. at t c.name };

    fn source(&self, calls: &OpCalls<'_>) -> Option<usize>
        ensures { result ≡ at self.now (calls_of calls.now).name }
    {
        self.get(calls.object, calls.op)
    }
}

/// The bodies of protected objects, by the names of these.
impl BodyPlaces for Places<'_> {
    ghost sources = { λ t. guard_place (place_in t) };

    fn source(&self, calls: &OpCalls<'_>) -> Option<usize>
        ensures { result ≡ guard_place (place_in self.now) (calls_of calls.now) }
    {
        if !is_protected(calls.kind) {
            return None;
        }
        self.get(calls.object)
    }
}

/// The edges between places: one for each call in a body, links followed.
pub(crate) fn edges_of<P: BodyPlaces>(
    alloc: Global,
    places: &P,
    bodies: &[OpCalls<'_>],
) -> Result<Vec<(usize, usize)>, NoMemory>
    ensures { IfOk result (λ v. v.items
        ≡ flat_map (body_edges (P.sources places.now) (P.places places.now)) (map calls_of bodies.now)) }
{
    let mut edges = Vec::new(alloc);
    'bodies: for calls in bodies {
        let from = places.source(calls);
        add_edges(places, from, calls.meant.as_slice(), &mut edges)?;
    }
    Ok(edges)
}
