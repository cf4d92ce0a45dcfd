ghost use Rattle.std.specs.Prelude.{◌≡◌, ◌≤◌, ◌+◌, ℕ, IfOk, IfSome, length, map, min};
ghost use Rattle.seq_tree.specs.Dearest.{cost};
ghost use Rattle.seq_tree.specs.Trees.{block_of};
ghost use Rattle.call_graph.specs.Entries.{entry_at, work_of};
ghost use Rattle.call_graph.specs.Places.{known_by, work_places};
ghost use Rattle.call_graph.specs.Prices.{cap, deeper_prices, price, prices};
ghost use Rattle.call_graph.specs.Settled.{AgreesFrom, HasPlaces};

use crate::call_places::CallPlaces;
use crate::callees::all_calls;
use crate::numbers::{same, value};
use crate::order::callees_first;
use crate::services::{Body, Served};
use crate::settled::Settled;
use seq_cost::{Account, capped_cost};
use seq_tree::{Block, Costs, Name, NoMemory};
use std::alloc::Global;

/// One tick over the greatest cost.
pub const CAP: u64 = 1_000_000_001;

/// Numbers of operations, by their places.
#[derive(Drop)]
struct Known<'a, P> {
    places: &'a P,
    numbers: &'a [u32],
}

impl<P: CallPlaces> Account for Known<'_, P> {
    ghost counts = { λ k. known_by (P.places k.places.now) k.numbers.now };

    fn count(&self, object: &Name, op: &Name) -> u32
        ensures { result ≡ known_by (P.places self.now.places.now) self.now.numbers.now object.now op.now }
    {
        match self.places.place(object, op) {
            None => 0,
            Some(place) => value(self.numbers, place),
        }
    }
}

/// What a block costs, where calls count what is known of what they lead to, or 1,000,000,001 ticks where it is more.
pub fn ticks_of<'a, P: CallPlaces>(
    costs: &Costs,
    places: &'a P,
    known: &'a [u32],
    block: &Block,
) -> u32
    ensures ticks { result ≡ min cap (cost costs.now (known_by (P.places places.entry.now) known.entry.now) (block_of block.now)) }
    ensures small { result ≤ 1000000001 }
{
    let account = Known {
        places,
        numbers: known,
    };
    capped_cost(block, costs, &account)
}

/// What a call counts, where the calls inside it count what is known, or 1,000,000,001 ticks where it is more.
fn price_of<'a, P: CallPlaces>(
    costs: &Costs,
    places: &'a P,
    known: &'a [u32],
    served: &Served<'_>,
) -> u32
    ensures { result ≡ price costs.now (known_by (P.places places.entry.now) known.entry.now) (work_of served.now.body) }
{
    match served.body {
        Body::Plain(block) => ticks_of(costs, places, known, block),
        Body::Protected(block) => ticks_of(costs, places, known, block),
        Body::Asked => CAP.min(2 * u64::from(costs.assign)) as u32,
    }
}

/// What calls count, followed one deeper than what is known.
fn deeper<'a, P: CallPlaces>(
    alloc: Global,
    costs: &Costs,
    places: &'a P,
    services: &[Served<'_>],
    known: &'a [u32],
) -> Result<Vec<u32>, NoMemory>
    ensures { IfOk result (λ v. v.items
        ≡ deeper_prices costs.now (known_by (P.places places.entry.now) known.entry.now) (map entry_at services.now)) }
{
    let mut next = Vec::new(alloc);
    'services: for served in services {
        next.push(price_of(costs, places, known, served))?;
    }
    Ok(next)
}

/// What calls count, where they are followed one deeper in each turn, until that changes nothing.
fn prices_by_depth<P: CallPlaces>(
    alloc: Global,
    costs: &Costs,
    places: &P,
    services: &[Served<'_>],
) -> Result<Vec<u32>, NoMemory>
    ensures { IfOk result (λ v. v.items ≡ prices (length services.now) costs.now (P.places places.now) (map entry_at services.now)) }
{
    let mut known = Vec::new(alloc);
    'depths: for _ in 0..services.len() {
        let next = deeper(alloc, costs, &*places, services, known.as_slice())?;
        if same(next.as_slice(), known.as_slice()) {
            return Ok(known);
        }
        known = next;
    }
    Ok(known)
}

/// Works out what a call of the operation at a place counts, where that is worked out of all that the operation calls.
fn settle<P: CallPlaces>(
    costs: &Costs,
    places: &P,
    services: &[Served<'_>],
    calls: &[Vec<usize>],
    place: usize,
    settled: &mut Settled,
)
    requires { map (λ l. l.items) calls.now ≡ map (λ e. work_places (P.places places.now) e.work) (map entry_at services.now) }
    ensures more { (from : ℕ) → AgreesFrom from (λ d. prices d costs.now (P.places places.now) (map entry_at services.now)) settled.old
        → AgreesFrom (from + 1) (λ d. prices d costs.now (P.places places.now) (map entry_at services.now)) settled.new }
    ensures long { (count : ℕ) → HasPlaces count settled.old → HasPlaces count settled.new }
{
    match services.get(place) {
        None => {}
        Some(served) => {
            if settled.has_all(calls[place].as_slice()) {
                let price = price_of(costs, &*places, settled.numbers.as_slice(), served);
                settled.put(place, price);
            }
        }
    }
}

/// What calls count, by operations in this order of their places, where the order has all, each behind those that it calls.
fn prices_in<P: CallPlaces>(
    alloc: Global,
    costs: &Costs,
    places: &P,
    services: &[Served<'_>],
    calls: &[Vec<usize>],
    order: &[usize],
) -> Result<Option<Vec<u32>>, NoMemory>
    requires same { map (λ l. l.items) calls.now ≡ map (λ e. work_places (P.places places.now) e.work) (map entry_at services.now) }
    requires few { length order.now ≤ length services.now }
    ensures { IfOk result (λ o. IfSome o (λ v. v.items ≡ prices (length services.now) costs.now (P.places places.now) (map entry_at services.now))) }
{
    let mut settled = Settled::new(alloc, services.len())?;
    'places: for place in order {
        settle(costs, places, services, calls, *place, &mut settled);
    }
    Ok(settled.whole())
}

/// What calls count besides themselves, by places: in this order, which is to have each operation behind those that it calls, and where
/// it hasn't, as on a ring of calls, depth by depth.
fn all_prices<P: CallPlaces>(
    alloc: Global,
    costs: &Costs,
    places: &P,
    services: &[Served<'_>],
    calls: &[Vec<usize>],
    order: &[usize],
) -> Result<Vec<u32>, NoMemory>
    requires same { map (λ l. l.items) calls.now ≡ map (λ e. work_places (P.places places.now) e.work) (map entry_at services.now) }
    requires few { length order.now ≤ length services.now }
    ensures { IfOk result (λ v. v.items ≡ prices (length services.now) costs.now (P.places places.now) (map entry_at services.now)) }
{
    match prices_in(alloc, costs, places, services, calls, order)? {
        Some(prices) => Ok(prices),
        None => prices_by_depth(alloc, costs, places, services),
    }
}

/// What calls of operations count besides themselves, and an order in which more is worked out of operations.
#[derive(Drop)]
pub struct Prices {
    /// The ticks that calls count, by the places of the operations, or 1,000,000,001 where it is more.
    pub prices: Vec<u32>,
    /// The places of the operations, each behind those that it calls, as far as that can be.
    pub callees_first: Vec<usize>,
}

/// What calls of operations count, where the calls of their bodies lead to the operations at these places. The time grows as the bodies
/// do, unless there is a ring of calls. `NoMemory` comes for want of memory alone.
pub fn prices_of<P: CallPlaces>(
    alloc: Global,
    costs: &Costs,
    places: &P,
    services: &[Served<'_>],
) -> Result<Prices, NoMemory>
    ensures prices { IfOk result (λ p. p.prices.items ≡ prices (length services.now) costs.now (P.places places.now) (map entry_at services.now)) }
    ensures long { IfOk result (λ p. length p.prices.items ≡ length services.now) }
    ensures order { IfOk result (λ p. length p.callees_first.items ≤ length services.now) }
{
    let calls = all_calls(alloc, places, services)?;
    let callees_first = callees_first(alloc, calls.as_slice())?;
    let prices = all_prices(
        alloc,
        costs,
        places,
        services,
        calls.as_slice(),
        callees_first.as_slice(),
    )?;
    Ok(Prices {
        prices,
        callees_first,
    })
}
