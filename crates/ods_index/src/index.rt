ghost use Rattle.std.specs.Prelude.{◌≡◌, IfOk, map, option_map, option_and_then, slice_get};
ghost use Rattle.seq_tree.specs.Names.{Name as NameTree};
ghost use Rattle.name_sets.specs.Places.{place_in};
ghost use Rattle.ods_tree.specs.Trees.{design_of, provided_of};
ghost use Rattle.ods_tree.specs.Walk.{objects};
ghost use Rattle.design_rules.specs.Lookups.{object_named, operation_named, provided_named};
ghost use Rattle.ods_index.specs.Indexing.{IsIndex};
ghost use Rattle.name_sets.specs.FirstPlaces.{place_from};
ghost use Rattle.ods_index.specs.Tables.{object_name};
ghost use Rattle.ods_index.specs.Walking.{standing_of};

use crate::calls::{OpCalls, op_calls};
use crate::links::Links;
use crate::tables::ProvidedOps;
use crate::walk::{Standing, objects_of};
use name_sets::Places;
use ods_tree::{Design, Provided};
use seq_tree::{Name, NoMemory, OpName};
use std::alloc::Global;

/// The objects of a design in flattened order, with tables of their names and of the operations that they provide, with what calls mean by
/// links, and with the graph of calls: what the bodies of operations call. Each call that reads it requires `IsIndex`, which `new` ensures.
#[derive(Drop)]
pub struct Index<'a> {
    pub design: &'a Design,
    pub objects: Vec<Standing<'a>>,
    places: Places<'a>,
    ops: Vec<ProvidedOps<'a>>,
    pub links: Links<'a>,
    pub calls: Vec<OpCalls<'a>>,
}

/// A table of the names of objects. From the last to the first, so that of two with one name the first stays.
fn places_of<'a>(alloc: Global, objects: &[Standing<'a>]) -> Result<Places<'a>, NoMemory>
    ensures { IfOk result (λ t. (n : NameTree) → place_in t n ≡ place_from 0 n (map object_name objects.now)) }
{
    let mut places = Places::new(alloc);
    let mut place = objects.len();
    'objects: while place > 0 {
        place -= 1;
        let node = objects[place].node;
        places.put(&node.name, place)?;
    }
    Ok(places)
}

/// Tables of the operations of objects.
fn ops_of<'a>(alloc: Global, objects: &[Standing<'a>]) -> Result<Vec<ProvidedOps<'a>>, NoMemory>
    ensures { IfOk result (λ v. map (λ t. map provided_of t.provides.now) v.items ≡ map (λ s. (standing_of s).own.provides) objects.now) }
{
    let mut ops = Vec::new(alloc);
    'objects: for standing in objects {
        let node = standing.node;
        ops.push(ProvidedOps::new(alloc, node.provides.as_slice())?)?;
    }
    Ok(ops)
}

impl<'a> Index<'a> {
    /// The objects of a design with their tables and calls. The time grows as the design does.
    pub fn new(alloc: Global, design: &'a Design) -> Result<Index<'a>, NoMemory>
        ensures indexed { IfOk result IsIndex }
        ensures same { IfOk result (λ i. design_of i.design.now ≡ design_of design.entry.now) }
    {
        let objects = objects_of(alloc, design)?;
        let places = places_of(alloc, objects.as_slice())?;
        let ops = ops_of(alloc, objects.as_slice())?;
        let links = Links::new(alloc, design)?;
        let calls = op_calls(alloc, &links, objects.as_slice())?;
        Ok(Index {
            design,
            objects,
            places,
            ops,
            links,
            calls,
        })
    }

    /// The place of the first object of a name, where there is one.
    pub fn place(&self, name: &Name) -> Option<usize>
        requires { IsIndex self.now }
        ensures found { option_and_then (slice_get (objects (design_of self.now.design.now))) result
            ≡ object_named (design_of self.now.design.now) name.now }
        ensures first { result ≡ place_from 0 name.now (map object_name self.now.objects.items) }
    {
        self.places.get(name)
    }

    /// The first object of a name, where there is one.
    pub fn find(&self, name: &Name) -> Option<Standing<'a>>
        requires { IsIndex self.now }
        ensures { option_map standing_of result ≡ object_named (design_of self.now.design.now) name.now }
    {
        match self.place(name) {
            None => None,
            Some(place) => match self.objects.get(place) {
                None => None,
                Some(standing) => Some(*standing),
            },
        }
    }

    /// The first operation of a name that the object at a place provides, where there is one.
    pub fn provided(&self, place: usize, op: &Name) -> Option<&'a Provided>
        requires { IsIndex self.now }
        ensures { option_map (λ p. provided_of p.now) result
            ≡ option_and_then (λ s. provided_named op.now s.own.provides) (slice_get (objects (design_of self.now.design.now)) place) }
    {
        match self.ops.get(place) {
            None => None,
            Some(ops) => ops.find(op),
        }
    }

    /// The operation of a name, where there is one.
    pub fn operation(&self, name: &OpName) -> Option<&'a Provided>
        requires { IsIndex self.now }
        ensures { option_map (λ p. provided_of p.now) result ≡ operation_named (design_of self.now.design.now) name.now }
    {
        match self.place(&name.object) {
            None => None,
            Some(place) => self.provided(place, &name.op),
        }
    }
}
