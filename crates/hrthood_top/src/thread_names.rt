ghost use Rattle.std.specs.Prelude.{◌≡◌, ◌++◌, ◌∷◌, [], IfOk, OnOk, Some, codes};
ghost use Rattle.hood_io.specs.Causes.{HasCause};
ghost use Rattle.hood_io.specs.Sinks.{Puts};
ghost use Rattle.ods_tree.specs.Trees.{flat_of};
ghost use Rattle.hrthood_top.specs.Searches.{name_at, names_at, names_text};

use crate::line::put_between;
use hood_io::{Failed, Sink};
use ods_tree::Flat;
use seq_tree::{Name, NoMemory};
use std::alloc::Global;
use std::marker::Model;

/// Names of threads. Contracts see them as the list of their bytes.
#[derive(Drop, Debug)]
pub struct ThreadNames {
    names: Vec<Name>,
}

impl Model for ThreadNames {
    ghost use Rattle.std.specs.Prelude.{List, ℕ};

    ghost Value = { List (List ℕ) };

    ghost view = { λ n. n.names.items };
}

impl ThreadNames {
    /// The names.
    pub(crate) fn names(&self) -> &[Name]
        ensures { result.now ≡ self.now }
    {
        self.names.as_slice()
    }
}

/// Adds the name of the thread at a place, where one is there.
fn add_name(alloc: Global, flat: &Flat, place: u32, into: &mut Vec<Name>) -> Result<(), NoMemory>
    ensures { OnOk result (into.new.items ≡ into.old.items ++ names_at (flat_of flat.now) (place ∷ [])) }
{
    match flat.threads.get(place as usize) {
        None => Ok(()),
        Some(thread) => {
            into.push(thread.name.copy(alloc)?)?;
            Ok(())
        }
    }
}

/// The names of the threads at these places of a flat design. `NoMemory` comes for want of memory alone.
pub(crate) fn names_at(alloc: Global, flat: &Flat, places: &[u32]) -> Result<ThreadNames, NoMemory>
    ensures { IfOk result (λ n. n ≡ names_at (flat_of flat.now) places.now) }
{
    let mut names = Vec::new(alloc);
    'places: for place in places {
        add_name(alloc, flat, *place, &mut names)?;
    }
    Ok(ThreadNames { names })
}

/// Writes names, each behind a space; after a failure a proper front of them all was written.
pub(crate) fn put_names<E: Sink>(err: &mut E, names: &[Name]) -> Result<(), Failed>
    ensures cause { HasCause (E.faults err.old) (E.faults err.new) result }
    ensures puts { Puts (E.written err.old) (E.written err.new) (names_text names.now) result }
{
    'names: for name in names {
        put_between(err, b" ", name.bytes(), b"")?;
    }
    Ok(())
}
