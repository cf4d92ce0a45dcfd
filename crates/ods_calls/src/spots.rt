ghost use Rattle.std.specs.Prelude.{◌≡◌, ◌∷◌, ◌++◌, [], Some, None, Option, IfOk, OnOk, filter, if◌then◌else◌, map};
ghost use Rattle.ods_index.specs.Calling.{calls_of};
ghost use Rattle.ods_index.specs.Nodes.{node_object};
ghost use Rattle.seq_cost.specs.Different.{call_of};
ghost use Rattle.ods_calls.specs.Held.{is_held};
ghost use Rattle.ods_calls.specs.Spotted.{marked, spot_in, spot_of};
ghost use Rattle.ods_calls.specs.Starting.{Spot as SpotTree, aimed, all_held, held_place, same_spot, spot_from, spots_among};
ghost use Rattle.ods_calls.specs.Starting.{Thread as ThreadSpot, Op as OpSpot};

use crate::edges::{BodyPlaces, edges_of};
use call_graph::CallPlaces;
use name_sets::{OpTable, Places};
use ods_index::{OpCalls, is_protected};
use ods_tree::Node;
use seq_cost::Call;
use seq_tree::{Name, NoMemory};
use std::alloc::Global;

/// What stands at a place of the graph of starts.
#[derive(Clone, Copy)]
pub(crate) enum Spot<'a> {
    /// A thread, by the name of its object.
    Thread(&'a Name),
    /// A protected operation.
    Op(Call<'a>),
}

/// Adds threads.
#[tactic(auto, using(ods_index::proofs::Shared::WalkSteps::node_steps))]
fn add_threads<'a>(threads: &[&'a Node], spots: &mut Vec<Spot<'a>>) -> Result<(), NoMemory>
    ensures { OnOk result (map spot_of spots.new.items ≡ map spot_of spots.old.items
        ++ map (λ o. ThreadSpot o.name) (map node_object threads.entry.now)) }
{
    'threads: for node in threads {
        spots.push(Spot::Thread(&node.name))?;
    }
    Ok(())
}

/// Adds the operation of a body, where its object is protected.
fn add_op<'a>(body: &OpCalls<'a>, spots: &mut Vec<Spot<'a>>) -> Result<(), NoMemory>
    ensures { OnOk result (map spot_of spots.new.items ≡ map spot_of spots.old.items
        ++ map (λ h. OpSpot h.name) (filter is_held (calls_of body.entry.now ∷ []))) }
{
    if !is_protected(body.kind) {
        return Ok(());
    }
    spots.push(Spot::Op(Call {
        object: body.object,
        op: body.op,
    }))?;
    Ok(())
}

/// These threads in order, and then those of the operations of these bodies that are protected.
pub(crate) fn spots_of<'a>(
    alloc: Global,
    threads: &[&'a Node],
    calls: &[OpCalls<'a>],
) -> Result<Vec<Spot<'a>>, NoMemory>
    ensures { IfOk result (λ v. map spot_of v.items
        ≡ spots_among (map node_object threads.entry.now) (filter is_held (map calls_of calls.entry.now))) }
{
    let mut spots = Vec::new(alloc);
    add_threads(threads, &mut spots)?;
    'calls: for body in calls {
        add_op(body, &mut spots)?;
    }
    Ok(spots)
}

/// The places of threads and of protected operations in the graph of starts, of those of one name the first.
#[derive(Drop)]
pub(crate) struct Spots<'a> {
    threads: Places<'a>,
    ops: OpTable<'a, usize>,
}

impl<'a> Spots<'a> {
    /// Gives what stands at a place that place.
    fn put(&mut self, alloc: Global, spot: &Spot<'a>, place: usize) -> Result<(), NoMemory>
        ensures { OnOk result ((s : SpotTree) → spot_in self.new s
            ≡ (if same_spot (spot_of spot.entry.now) s then Some place else spot_in self.old s)) }
    {
        match spot {
            Spot::Thread(name) => self.threads.put(name, place),
            Spot::Op(op) => self.ops.put(alloc, op.object, op.op, place),
        }
    }

    /// The places of these, from the last to the first.
    pub(crate) fn new(alloc: Global, spots: &[Spot<'a>]) -> Result<Spots<'a>, NoMemory>
        ensures { IfOk result (λ t. (s : SpotTree) → spot_in t s ≡ spot_from 0 (map spot_of spots.entry.now) s) }
    {
        let mut table = Spots {
            threads: Places::new(alloc),
            ops: OpTable::new(alloc),
        };
        let mut place = spots.len();
        'spots: while place > 0 {
            place -= 1;
            table.put(alloc, &spots[place], place)?;
        }
        Ok(table)
    }

    /// The place of a thread, where it has one.
    pub(crate) fn thread(&self, name: &Name) -> Option<usize>
        ensures { result ≡ spot_in self.now (ThreadSpot name.now) }
    {
        self.threads.get(name)
    }

    /// The place of an operation, where it has one.
    pub(crate) fn op(&self, op: &Call<'_>) -> Option<usize>
        ensures { result ≡ spot_in self.now (OpSpot (call_of op.now)) }
    {
        self.ops.get(op.object, op.op)
    }
}

/// Whether a place is marked, where there is one.
pub(crate) fn is_marked(marks: &[bool], place: Option<usize>) -> bool
    ensures { result ≡ marked marks.now place }
{
    match place {
        None => false,
        Some(place) => match marks.get(place) {
            None => false,
            Some(mark) => *mark,
        },
    }
}

/// To what calls lead.
#[derive(Clone, Copy)]
pub(crate) enum Part {
    /// To the threads of their objects.
    Threads,
    /// To their operations.
    Operations,
}

/// The places of a part of what calls lead to.
#[derive(Drop)]
pub(crate) struct Aim<'k, 'a> {
    pub(crate) spots: &'k Spots<'a>,
    pub(crate) part: Part,
}

impl CallPlaces for Aim<'_, '_> {
    ghost places = { λ a k. spot_in a.spots.now (aimed a.part k) };

    fn place(&self, object: &Name, op: &Name) -> Option<usize>
        ensures { result ≡ spot_in self.now.spots.now (aimed self.now.part (record { object = object.now; op = op.now })) }
    {
        match self.part {
            Part::Threads => self.spots.threads.get(object),
            Part::Operations => self.spots.ops.get(object, op),
        }
    }
}

/// The bodies of protected objects, by the names of their operations.
impl BodyPlaces for Aim<'_, '_> {
    ghost sources = { λ a. held_place (spot_in a.spots.now) };

    fn source(&self, calls: &OpCalls<'_>) -> Option<usize>
        ensures { result ≡ held_place (spot_in self.now.spots.now) (calls_of calls.now) }
    {
        if !is_protected(calls.kind) {
            return None;
        }
        self.spots.ops.get(calls.object, calls.op)
    }
}

/// The edges of bodies of protected objects: from each to what its calls lead to.
pub(crate) fn held_edges<'a>(
    alloc: Global,
    spots: &Spots<'a>,
    calls: &[OpCalls<'a>],
) -> Result<Vec<(usize, usize)>, NoMemory>
    ensures { IfOk result (λ v. v.items
        ≡ all_held (spot_in spots.now) (map calls_of calls.now)) }
{
    let threads = Aim {
        spots,
        part: Part::Threads,
    };
    let ops = Aim {
        spots,
        part: Part::Operations,
    };
    let mut edges = edges_of(alloc, &threads, calls)?;
    let more = edges_of(alloc, &ops, calls)?;
    edges.extend_from_slice(more.as_slice())?;
    Ok(edges)
}
