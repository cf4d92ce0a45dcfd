ghost use Rattle.std.specs.Prelude.{◌≡◌, ◌∷◌, [], IfOk, OnOk, map, option_map};
ghost use Rattle.name_sets.specs.Tables.{at};
ghost use Rattle.seq_tree.specs.Faults.{or_else};
ghost use Rattle.seq_tree.specs.declared.tree.OpName.{OpName};
ghost use Rattle.seq_check.specs.Scopes.{found_in, offer_view};

use name_sets::OpTable;
use seq_tree::{Name, NoMemory, OpSig};
use std::alloc::Global;

/// An operation of an object that can be called.
#[derive(Clone, Copy)]
pub struct Offer<'a> {
    pub object: &'a Name,
    pub sig: &'a OpSig,
}

/// Adds an operation to a table, where none of its name is there.
fn add_offer<'a>(
    alloc: Global,
    table: &mut OpTable<'a, Offer<'a>>,
    offer: &Offer<'a>,
) -> Result<(), NoMemory>
    ensures { OnOk result ((n : OpName) → option_map offer_view (at table.new n)
        ≡ or_else (option_map offer_view (at table.old n)) (found_in n (offer_view offer.entry.now ∷ []))) }
{
    match table.get(offer.object, &offer.sig.name) {
        Some(_) => Ok(()),
        None => Ok(table.put(alloc, offer.object, &offer.sig.name, *offer)?),
    }
}

/// A table of operations by their names: of those of one name the first.
fn table_of<'a>(alloc: Global, offers: &[Offer<'a>]) -> Result<OpTable<'a, Offer<'a>>, NoMemory>
    ensures { IfOk result (λ t. (n : OpName) → option_map offer_view (at t n) ≡ found_in n (map offer_view offers.entry.now)) }
{
    let mut table = OpTable::new(alloc);
    'offers: for offer in offers {
        add_offer(alloc, &mut table, offer)?;
    }
    Ok(table)
}

/// The operations that can be called, with a table of their names. It is made once for all bodies that may call the same.
#[derive(Drop)]
pub struct Calls<'a> {
    offers: Vec<Offer<'a>>,
    table: OpTable<'a, Offer<'a>>,
    ghost held: { (n : OpName) → option_map offer_view (at table n) ≡ found_in n (map offer_view offers.items) },
}

impl<'a> Calls<'a> {
    ghost use Rattle.seq_check.specs.Views.{offers_of};

    /// A table of these operations; of those of one name the first can be called.
    pub fn new(alloc: Global, offers: Vec<Offer<'a>>) -> Result<Calls<'a>, NoMemory>
        ensures { IfOk result (λ c. offers_of c ≡ map offer_view offers.entry.items) }
    {
        let table = table_of(alloc, offers.as_slice())?;
        Ok(Calls { offers, table })
    }

    /// The operation of an object that can be called.
    pub(crate) fn get(&self, object: &Name, op: &Name) -> Option<Offer<'a>>
        ensures { option_map offer_view result ≡ found_in (record { object = object.now; op = op.now }) (offers_of self.now) }
    {
        self.table.get(object, op)
    }
}
