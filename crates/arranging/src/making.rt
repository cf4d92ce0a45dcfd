ghost use Rattle.std.specs.Prelude.{◌≡◌, ◌≤◌, IfOk};
ghost use Rattle.ods_tree.specs.Trees.{flat_of};
ghost use Rattle.analysis.specs.Sound.{IsSound};
ghost use Rattle.law_orders.specs.Orders.{priorities_by};
ghost use Rattle.priority_search.specs.Searches.{IsFound};
ghost use Rattle.arranging.specs.Arrangements.{Arranges, HasRoomFor, flat_text_by};

use crate::arranged::NotArranged;
use ada_gen::{generate, head};
use ada_print::print_ada;
use analysis::{Ranking, Table};
use ods_tree::Flat;
use priority_search::{Found, priorities_up_to, search};
use seq_tree::{ADA_LIMIT, NoMemory};
use std::alloc::Global;

/// The most bytes that an Ada text may have.
const MOST_BYTES: usize = ADA_LIMIT;

/// The text of a flat design by an order that was found, with its bounds in its head; the least priority is written as `first`.
fn text_by(alloc: Global, flat: &Flat, found: Found, first: u32) -> Result<Vec<u8>, NoMemory>
    requires sound { IsSound (flat_of flat.now) }
    requires found { IsFound (flat_of flat.now) found }
    requires first { 1 ≤ first }
    requires room { HasRoomFor first (flat_of flat.now) }
    ensures { IfOk result (λ v. v.items
        ≡ flat_text_by first (flat_of flat.now) (priorities_by (flat_of flat.now) found.order.items) found.bounds.items) }
{
    let Found {
        order,
        shared,
        obcs,
        rows,
        bounds,
    } = found;
    let threads = priorities_up_to(alloc, order.as_slice(), flat.threads.len() as u32)?;
    let ranking = Ranking {
        threads,
        shared,
        obcs,
    };
    let table = Table {
        rows,
        thread: order,
    };
    let mut text = head(alloc, flat, &ranking, &table, bounds.as_slice(), first)?;
    let program = generate(alloc, flat, &ranking, first)?;
    print_ada(alloc, &program, &mut text)?;
    Ok(text)
}

/// The Ada text of a flat design by the priority order that is found for it; the least priority is written as `first`.
///
/// The order is that of `priority_search::search`: filled from its lowest place upwards (Audsley 1991), so that it is the deadline-monotonic
/// one if the design passes by that. It fails with `NotFound` exactly if the search finds none, with its cause, or if an allocation fails; with
/// `Long` if the text would be over 16,777,216 bytes.
pub fn arrange(alloc: Global, flat: &Flat, first: u32) -> Result<Vec<u8>, NotArranged>
    requires sound { IsSound (flat_of flat.now) }
    requires first { 1 ≤ first }
    requires room { HasRoomFor first (flat_of flat.now) }
    ensures { Arranges (λ v. v.items) first (flat_of flat.now) result }
{
    let found = search(alloc, flat)?;
    let text = text_by(alloc, flat, found, first)?;
    if text.len() > MOST_BYTES {
        return Err(NotArranged::Long);
    }
    Ok(text)
}
