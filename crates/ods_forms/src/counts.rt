ghost use Rattle.std.specs.Prelude.{◌≡◌, ◌+◌, ◌<◌, ◌^◌, IfOk, OnOk, cond, filter, length, map};
ghost use Rattle.seq_tree.specs.Names.{Name as NameTree, same_name};
ghost use Rattle.ods_tree.specs.Trees.{body_of};
ghost use Rattle.ods_forms.specs.Counts.{count_in};

use name_sets::Places;
use ods_tree::{Link, OpBody};
use seq_tree::{Name, NoMemory};
use std::alloc::Global;

/// How often each name was counted.
#[derive(Drop)]
pub(crate) struct Counts<'a> {
    places: Places<'a>,
}

impl<'a> Counts<'a> {
    /// Nothing counted.
    #[tactic(auto, unfolding(crate::specs::Counts::count_in))]
    fn new(alloc: Global) -> Counts<'a>
        ensures { (n : NameTree) → count_in result n ≡ 0 }
    {
        Counts {
            places: Places::new(alloc),
        }
    }

    /// How often a name was counted.
    #[tactic(auto, unfolding(crate::specs::Counts::count_in))]
    pub(crate) fn get(&self, name: &Name) -> usize
        ensures { result ≡ count_in self.now name.now }
    {
        self.places.get(name).unwrap_or(0)
    }

    /// Counts a name.
    #[tactic(auto, unfolding(crate::specs::Counts::count_in))]
    fn add(&mut self, name: &'a Name) -> Result<(), NoMemory>
        requires { count_in self.old name.now < 2 ^ 63 }
        ensures { OnOk result ((n : NameTree) → count_in self.new n ≡ count_in self.old n + cond (same_name name.entry.now n) 1 0) }
    {
        let count = self.get(name);
        self.places.put(name, count + 1)?;
        Ok(())
    }
}

/// How many bodies each operation has.
pub(crate) fn body_counts<'a>(alloc: Global, bodies: &'a [OpBody]) -> Result<Counts<'a>, NoMemory>
    ensures { IfOk result (λ t. (n : NameTree) → count_in t n ≡ length (filter (λ b. same_name b.name n) (map body_of bodies.entry.now))) }
{
    let mut counts = Counts::new(alloc);
    'bodies: for body in bodies {
        counts.add(&body.name)?;
    }
    Ok(counts)
}

/// How many links each operation has.
pub(crate) fn link_counts<'a>(alloc: Global, links: &'a [Link]) -> Result<Counts<'a>, NoMemory>
    ensures { IfOk result (λ t. (n : NameTree) → count_in t n ≡ length (filter (λ l. same_name l.op n) links.entry.now)) }
{
    let mut counts = Counts::new(alloc);
    'links: for link in links {
        counts.add(&link.op)?;
    }
    Ok(counts)
}
