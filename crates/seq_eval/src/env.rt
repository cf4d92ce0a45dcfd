ghost use Rattle.std.specs.Prelude.{◌≡◌};
ghost use Rattle.seq_tree.specs.Names.{same_name};
ghost use Rattle.seq_eval.specs.Lookups.{found};

use crate::lookup::Lookup;
use seq_tree::Name;

/// Variables in a list. Each slot has a name and the value of that variable; of two slots of one name the first counts.
#[derive(Drop, Debug)]
pub struct Env {
    pub slots: Vec<(Name, u32)>,
}

/// Whether two names are one.
#[tactic(auto, using(crate::proofs::Shared::Reading::names))]
pub(crate) fn is_same(one: &Name, other: &Name) -> bool
    ensures { result ≡ same_name one.now other.now }
{
    one.same(other)
}

impl Lookup for Env {
    ghost meaning = { λ e. e.slots.items };

    fn value(&self, name: &Name) -> Option<u32>
        ensures { result ≡ found name.now self.now.slots.items }
    {
        'slots: for slot in &self.slots {
            if is_same(name, &slot.0) {
                return Some(slot.1);
            }
        }
        None
    }
}
