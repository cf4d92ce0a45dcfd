ghost use Rattle.std.specs.Prelude.{◌≡◌, IfOk};
ghost use Rattle.rt_block.specs.Known.{IsKnown, IsServed};

use crate::calls::{Scope, inner_calls, thread_calls};
use crate::sections::section_prices;
use crate::services::services_of;
use call_graph::{Served, places_of, prices_of};
use name_sets::OpTable;
use ods_tree::Flat;
use seq_tree::NoMemory;
use std::alloc::Global;

/// The operations of a flat design with their places, prices and sections, and what they and the threads call. Each call that reads it
/// requires `IsKnown`, which `operations_of` ensures.
#[derive(Drop)]
pub(crate) struct Operations<'a> {
    pub(crate) flat: &'a Flat,
    pub(crate) services: Vec<Served<'a>>,
    pub(crate) places: OpTable<'a, usize>,
    /// The places of operations, each behind those that it calls, as far as that can be.
    pub(crate) callees_first: Vec<usize>,
    pub(crate) prices: Vec<u32>,
    pub(crate) sections: Vec<u32>,
    pub(crate) live_inner: Vec<Vec<usize>>,
    pub(crate) live: Vec<Vec<usize>>,
    pub(crate) written_inner: Vec<Vec<usize>>,
    pub(crate) written: Vec<Vec<usize>>,
}

/// Works out what is known of the operations of a flat design.
pub(crate) fn operations_of<'a>(alloc: Global, flat: &'a Flat) -> Result<Operations<'a>, NoMemory>
    ensures known { IfOk result IsKnown }
    ensures served { IfOk result IsServed }
    ensures flat { IfOk result (λ k. k.flat.now ≡ flat.entry.now) }
{
    let services = services_of(alloc, flat)?;
    let places = places_of(alloc, services.as_slice())?;
    let priced = prices_of(alloc, &flat.costs, &places, services.as_slice())?;
    let sections = section_prices(alloc, services.as_slice(), priced.prices.as_slice())?;
    let live_inner = inner_calls(alloc, &places, Scope::Live, services.as_slice())?;
    let live = thread_calls(alloc, &places, Scope::Live, flat.threads.as_slice())?;
    let written_inner = inner_calls(alloc, &places, Scope::Written, services.as_slice())?;
    let written = thread_calls(alloc, &places, Scope::Written, flat.threads.as_slice())?;
    Ok(Operations {
        flat,
        services,
        places,
        callees_first: priced.callees_first,
        prices: priced.prices,
        sections,
        live_inner,
        live,
        written_inner,
        written,
    })
}
