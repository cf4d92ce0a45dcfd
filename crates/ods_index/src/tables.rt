ghost use Rattle.std.specs.Prelude.{◌≡◌, IfOk, map, option_map};
ghost use Rattle.seq_tree.specs.Names.{Name as NameTree};
ghost use Rattle.name_sets.specs.Places.{place_in};
ghost use Rattle.ods_tree.specs.Trees.{provided_of};
ghost use Rattle.design_rules.specs.Lookups.{provided_named};
ghost use Rattle.ods_index.specs.Nodes.{node_name};
ghost use Rattle.name_sets.specs.FirstPlaces.{place_from};
ghost use Rattle.ods_index.specs.Tables.{op_name};

use name_sets::Places;
use ods_tree::{Node, Provided};
use seq_tree::{Name, NoMemory};
use std::alloc::Global;

/// A table of the names of objects. From the last to the first, so that of two with one name the first stays.
pub fn places_of<'a>(alloc: Global, nodes: &[&'a Node]) -> Result<Places<'a>, NoMemory>
    ensures { IfOk result (λ t. (n : NameTree) → place_in t n ≡ place_from 0 n (map node_name nodes.now)) }
{
    let mut places = Places::new(alloc);
    let mut place = nodes.len();
    'nodes: while place > 0 {
        place -= 1;
        let node = nodes[place];
        places.put(&node.name, place)?;
    }
    Ok(places)
}

/// The operations that an object provides, with a table of their names.
#[derive(Drop)]
pub struct ProvidedOps<'a> {
    pub provides: &'a [Provided],
    places: Places<'a>,
    ghost held: { (n : NameTree) → place_in places n ≡ place_from 0 n (map op_name provides.now) },
}

impl<'a> ProvidedOps<'a> {
    /// A table of these operations. From the last to the first, so that of two with one name the first stays.
    pub fn new(alloc: Global, provides: &'a [Provided]) -> Result<ProvidedOps<'a>, NoMemory>
        ensures { IfOk result (λ t. t.provides.now ≡ provides.entry.now) }
    {
        let mut places = Places::new(alloc);
        let mut place = provides.len();
        'ops: while place > 0 {
            place -= 1;
            places.put(&provides[place].sig.name, place)?;
        }
        Ok(ProvidedOps { provides, places })
    }

    /// The first operation of a name, where there is one.
    pub fn find(&self, op: &Name) -> Option<&'a Provided>
        ensures { option_map (λ p. provided_of p.now) result ≡ provided_named op.now (map provided_of self.now.provides.now) }
    {
        match self.places.get(op) {
            None => None,
            Some(place) => self.provides.get(place),
        }
    }
}
