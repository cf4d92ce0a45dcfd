ghost use Rattle.std.specs.Prelude.{◌≡◌, IfOk, map};
ghost use Rattle.seq_tree.specs.declared.tree.OpName.{OpName};
ghost use Rattle.seq_cost.specs.Different.{call_of};
ghost use Rattle.name_sets.specs.FirstPlaces.{op_place_from};
ghost use Rattle.name_sets.specs.Tables.{at};
ghost use Rattle.call_graph.specs.Entries.{entry_at};

use crate::call_places::op_places;
use name_sets::OpTable;
use seq_cost::Call;
use seq_tree::{Block, Name, NoMemory};
use std::alloc::Global;

/// What a call of an operation runs.
#[derive(Clone, Copy)]
pub enum Body<'a> {
    /// The body of a plain procedure.
    Plain(&'a Block),
    /// That of a protected operation.
    Protected(&'a Block),
    /// A request.
    Asked,
}

/// An operation that may be called.
#[derive(Clone, Copy)]
pub struct Served<'a> {
    /// The name of its object.
    pub object: &'a Name,
    /// Its own name.
    pub op: &'a Name,
    /// What a call of it runs.
    pub body: Body<'a>,
}

/// The names of operations.
fn names_of<'a>(alloc: Global, services: &[Served<'a>]) -> Result<Vec<Call<'a>>, NoMemory>
    ensures { IfOk result (λ v. map call_of v.items ≡ map (λ e. e.name) (map entry_at services.entry.now)) }
{
    let mut names = Vec::new(alloc);
    'services: for served in services {
        names.push(Call {
            object: served.object,
            op: served.op,
        })?;
    }
    Ok(names)
}

/// The places of operations by their names: of those of one name the first. `NoMemory` comes for want of memory alone.
pub fn places_of<'a>(alloc: Global, services: &[Served<'a>]) -> Result<OpTable<'a, usize>, NoMemory>
    ensures { IfOk result (λ t. (n : OpName) → at t n ≡ op_place_from 0 (map (λ e. e.name) (map entry_at services.entry.now)) n) }
{
    let names = names_of(alloc, services)?;
    op_places(alloc, names.as_slice())
}
