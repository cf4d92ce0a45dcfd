ghost use Rattle.std.specs.Prelude.{◌≡◌, true, None, IfOk, map};
ghost use Rattle.seq_tree.specs.Names.{Name as NameTree};
ghost use Rattle.name_sets.specs.FirstPlaces.{place_from};
ghost use Rattle.name_sets.specs.Places.{place_in};
ghost use Rattle.rings.specs.Graphs.{is_step};
ghost use Rattle.rings.specs.Reached.{IsFirstOnRing};
ghost use Rattle.ada_tree.specs.Naming.{breaks_naming};
ghost use Rattle.ada_tree.specs.Trees.{program_of, unit_of};
ghost use Rattle.ada_tree.specs.Uses.{BreaksRings};
ghost use Rattle.ada_rules.specs.Callers.{caller_edges, caller_of, callers};
ghost use Rattle.ada_rules.specs.Firsts.{IsFirst};
ghost use Rattle.ada_rules.specs.UnitPlaces.{earlier, unit_at};
ghost use Rattle.ada_rules.specs.declared.callers.Sort.TheVariants.{Shared};

use crate::callers::{OpCalls, Sort, callers_of, edges_of, places_of};
use ada_tree::{AdaProgram, Unit};
use call_graph::CallPlaces;
use name_sets::Places;
use rings::first_on_ring;
use seq_tree::NoMemory;
use std::alloc::Global;

/// The places of units by their names. From the last to the first, so that of two with one name the first stays.
fn unit_places<'a>(alloc: Global, units: &'a [Unit]) -> Result<Places<'a>, NoMemory>
    ensures { IfOk result (λ t. (n : NameTree) → place_in t n ≡ place_from 0 n (map (λ u. u.name) (map unit_of units.entry.now))) }
{
    let mut places = Places::new(alloc);
    let mut place = units.len();
    'units: while place > 0 {
        place -= 1;
        let unit = &units[place];
        places.put(&unit.name, place)?;
    }
    Ok(places)
}

/// The first of this many places that is on a ring of calls of these operations. It takes near-linear time.
fn first_ringed<P: CallPlaces>(
    alloc: Global,
    places: &P,
    count: usize,
    callers: &[OpCalls<'_>],
) -> Result<Option<usize>, NoMemory>
    ensures { IfOk result (IsFirstOnRing (is_step count (caller_edges (P.places places.now) (map caller_of callers.now)))) }
{
    let edges = edges_of(alloc, places, callers)?;
    first_on_ring(alloc, count, edges.as_slice())
}

/// The place of the unit of an operation, by the place of that.
fn unit_at(units: &Places<'_>, callers: &[OpCalls<'_>], op: Option<usize>) -> Option<usize>
    ensures { result ≡ unit_at (place_in units.now) (map caller_of callers.now) op }
{
    match op {
        None => None,
        Some(op) => match callers.get(op) {
            None => None,
            Some(caller) => units.get(caller.name.object),
        },
    }
}

/// The earlier of two places, where there are any.
fn earlier(one: Option<usize>, other: Option<usize>) -> Option<usize>
    ensures { result ≡ earlier one other }
{
    match one {
        None => other,
        Some(a) => match other {
            None => Some(a),
            Some(b) => { if b < a { Some(b) } else { Some(a) } }
        },
    }
}

/// The place of the first unit with an operation on a ring, or that is on a ring of protected units, where these are the operations of
/// protected units.
///
/// Names of units differ here, so that the first operation on a ring is one of the first such unit.
pub(crate) fn first_by_rings<'a>(
    alloc: Global,
    program: &'a AdaProgram,
    shared: &[OpCalls<'a>],
) -> Result<Option<usize>, NoMemory>
    requires naming { IsFirst (λ place u. breaks_naming (program_of program.now) place u ≡ true) (map unit_of program.now.units.items) None }
    requires shared { map caller_of shared.now ≡ callers Shared (program_of program.now) }
    ensures { IfOk result (IsFirst (λ place u. BreaksRings (program_of program.entry.now) u) (map unit_of program.entry.now.units.items)) }
{
    let list = program.units.as_slice();
    let units = unit_places(alloc, list)?;
    let passive = callers_of(alloc, Sort::Passive, list)?;
    let ops = passive.as_slice();
    let places = places_of(alloc, ops)?;
    let op = first_ringed(alloc, &places, ops.len(), ops)?;
    let object = first_ringed(alloc, &units, list.len(), shared)?;
    Ok(earlier(unit_at(&units, ops, op), object))
}
