ghost use Rattle.std.specs.Prelude.{◌≡◌, ◌∷◌, ◌++◌, [], None, Option, Some, ℕ, IfOk, OnOk, filter_map, if◌then◌else◌, map};
ghost use Rattle.seq_tree.specs.Calls.{block_calls, same_op};
ghost use Rattle.seq_tree.specs.Trees.{block_of};
ghost use Rattle.seq_tree.specs.declared.tree.OpName.{OpName};
ghost use Rattle.seq_cost.specs.Different.{call_of};
ghost use Rattle.name_sets.specs.Places.{place_in};
ghost use Rattle.name_sets.specs.Tables.{at};
ghost use Rattle.ods_tree.specs.Links.{first_of};
ghost use Rattle.name_sets.specs.FirstPlaces.{op_place_from};

use name_sets::{OpTable, Places};
use seq_cost::{Call, written_calls};
use seq_tree::{Block, Name, NoMemory};
use std::alloc::Global;

/// Where calls lead: the places of operations, by the names that calls have.
pub trait CallPlaces {
    /// The place to which each call leads, where it leads to one.
    ghost places: { Self → OpName → Option ℕ };

    /// The place to which a call leads, where it leads to one.
    fn place(&self, object: &Name, op: &Name) -> Option<usize>
        ensures { result ≡ places self.now (record { object = object.now; op = op.now }) };
}

/// Calls by the names of what they mean.
impl CallPlaces for OpTable<'_, usize> {
    ghost places = { λ t. at t };

    fn place(&self, object: &Name, op: &Name) -> Option<usize>
        ensures { result ≡ at self.now (record { object = object.now; op = op.now }) }
    {
        self.get(object, op)
    }
}

/// Calls by the names of their objects.
impl CallPlaces for Places<'_> {
    ghost places = { λ t k. place_in t k.object };

    fn place(&self, object: &Name, _op: &Name) -> Option<usize>
        ensures { result ≡ place_in self.now object.now }
    {
        self.get(object)
    }
}

/// Gives an operation a place, where it has none.
fn add_place<'a>(
    alloc: Global,
    places: &mut OpTable<'a, usize>,
    op: &Call<'a>,
    place: usize,
) -> Result<(), NoMemory>
    ensures { OnOk result ((n : OpName) → at places.new n
        ≡ first_of (at places.old n) (if same_op (call_of op.entry.now) n then Some place else None)) }
{
    match places.get(op.object, op.op) {
        Some(_) => Ok(()),
        None => Ok(places.put(alloc, op.object, op.op, place)?),
    }
}

/// The places of operations by their names: of those of one name the first. `NoMemory` comes for want of memory alone.
pub fn op_places<'a>(alloc: Global, ops: &[Call<'a>]) -> Result<OpTable<'a, usize>, NoMemory>
    ensures { IfOk result (λ t. (n : OpName) → at t n ≡ op_place_from 0 (map call_of ops.entry.now) n) }
{
    let mut places = OpTable::new(alloc);
    'ops: for (place, op) in ops.iter().enumerate() {
        add_place(alloc, &mut places, op, place)?;
    }
    Ok(places)
}

/// Adds the place to which a call leads, where it leads to one.
fn add_called<P: CallPlaces>(
    places: &P,
    call: &Call<'_>,
    into: &mut Vec<usize>,
) -> Result<(), NoMemory>
    ensures { OnOk result (into.new.items ≡ into.old.items ++ filter_map (P.places places.now) (call_of call.now ∷ [])) }
{
    match places.place(call.object, call.op) {
        None => Ok(()),
        Some(place) => {
            into.push(place)?;
            Ok(())
        }
    }
}

/// The places to which these calls lead. `NoMemory` comes for want of memory alone.
pub fn places_called<P: CallPlaces>(
    alloc: Global,
    places: &P,
    calls: &[Call<'_>],
) -> Result<Vec<usize>, NoMemory>
    ensures { IfOk result (λ v. v.items ≡ filter_map (P.places places.now) (map call_of calls.now)) }
{
    let mut found = Vec::new(alloc);
    'calls: for call in calls {
        add_called(places, call, &mut found)?;
    }
    Ok(found)
}

/// The places to which the calls of a block lead, as they are written.
pub(crate) fn written_places<P: CallPlaces>(
    alloc: Global,
    places: &P,
    block: &Block,
) -> Result<Vec<usize>, NoMemory>
    ensures { IfOk result (λ v. v.items ≡ filter_map (P.places places.now) (block_calls (block_of block.now))) }
{
    let calls = written_calls(alloc, block)?;
    places_called(alloc, places, calls.as_slice())
}
