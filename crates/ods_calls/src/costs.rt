ghost use Rattle.std.specs.Prelude.{◌≡◌, ◌+◌, Option, IfOk, min};
ghost use Rattle.seq_tree.specs.Dearest.{cost};
ghost use Rattle.seq_tree.specs.Trees.{block_of};
ghost use Rattle.name_sets.specs.Tables.{at};
ghost use Rattle.ods_tree.specs.Trees.{design_of};
ghost use Rattle.call_graph.specs.Prices.{cap};
ghost use Rattle.design_rules.specs.Budgets.{body_cost};
ghost use Rattle.design_rules.specs.Rules.{Budget};
ghost use Rattle.ods_index.specs.Indexing.{IsIndex};
ghost use Rattle.ods_index.specs.Judging.{PassesBefore};
ghost use Rattle.ods_calls.specs.Costed.{ArePrices, meant_place};

use crate::services::services_of;
use call_graph::{CallPlaces, places_of, prices_of, ticks_of};
use name_sets::OpTable;
use ods_index::{Index, Links};
use seq_tree::{Block, Name, NoMemory};
use std::alloc::Global;

/// Where the calls of a design lead: to the places of what they mean.
#[derive(Drop)]
struct Meant<'k, 'a> {
    links: &'k Links<'a>,
    places: &'k OpTable<'a, usize>,
}

impl CallPlaces for Meant<'_, '_> {
    ghost places = { λ m. meant_place (design_of m.links.now.design.now) (at m.places.now) };

    fn place(&self, object: &Name, op: &Name) -> Option<usize>
        ensures { result ≡ meant_place (design_of self.now.links.now.design.now) (at self.now.places.now)
            (record { object = object.now; op = op.now }) }
    {
        self.links.place(self.places, object, op)
    }
}

/// What the blocks of a design cost, worked out once for all rules that ask for it.
#[derive(Drop)]
pub struct Priced<'k, 'a> {
    pub(crate) links: &'k Links<'a>,
    places: OpTable<'a, usize>,
    prices: Vec<u32>,
    ghost agrees: { ArePrices (design_of links.now.design.now) (at places) prices.items },
}

impl<'k, 'a> Priced<'k, 'a> {
    ghost use Rattle.ods_calls.specs.Pricing.{priced_design};

    /// Works out what the calls of a design count, where no rule before V14 is broken. The time grows as its bodies do. `NoMemory` comes for
    /// want of memory alone.
    pub fn new(alloc: Global, index: &'k Index<'a>) -> Result<Priced<'k, 'a>, NoMemory>
        requires indexed { IsIndex index.now }
        requires before { PassesBefore (design_of index.now.design.now) Budget }
        ensures { IfOk result (λ p. priced_design p ≡ design_of index.entry.now.design.now) }
    {
        let services = services_of(alloc, index)?;
        let places = places_of(alloc, services.as_slice())?;
        let links = &index.links;
        let meant = Meant {
            links,
            places: &places,
        };
        let priced = prices_of(alloc, &links.design.costs, &meant, services.as_slice())?;
        Ok(Priced {
            links,
            places,
            prices: priced.prices,
        })
    }

    /// What a block of the design costs, in ticks, or 1,000,000,001 where it is more.
    pub(crate) fn body(&self, block: &Block) -> u32
        ensures { result ≡ min cap (body_cost (design_of self.now.links.now.design.now) (block_of block.now)) }
    {
        let meant = Meant {
            links: self.links,
            places: &self.places,
        };
        ticks_of(
            &self.links.design.costs,
            &meant,
            self.prices.as_slice(),
            block,
        )
    }
}
