ghost use Rattle.std.specs.Prelude.{◌≡◌, IfOk, None, option_map};
ghost use Rattle.ods_tree.specs.Trees.{flat_of};
ghost use Rattle.analysis.specs.Ceilings.{ranks};
ghost use Rattle.analysis.specs.Sound.{IsSound};
ghost use Rattle.analysis.specs.Trees.{ranks_of};
ghost use Rattle.rt_block.specs.Designs.{design_of};
ghost use Rattle.law_scaling.specs.Parts.{first_dear};
ghost use Rattle.scaling.specs.Failures.{IsBounded, IsCheap, IsFailureIn, IsHolding, IsNamed};
ghost use Rattle.scaling.specs.Views.{view_of};

use crate::entries::scaled;
use crate::margin::Next;
use crate::parts::{PartView, first_dear, part_names};
use analysis::Ranking;
use design_bounds::{NoBounds, bounds_of};
use ods_tree::Flat;
use rt_block::{Facts, facts_of, part_costs, table};
use seq_tree::{Name, NoMemory};
use std::alloc::Global;

/// A body or a thread that is too dear, told by its names.
fn cost_of(alloc: Global, part: PartView<'_>) -> Result<Next, NoMemory>
    ensures { IfOk result (IsNamed (view_of part.entry)) }
{
    match part {
        PartView::Body { object, op } => Ok(Next::Cost {
            name: object.copy(alloc)?,
            part: Some(op.copy(alloc)?),
        }),
        PartView::Thread(object) => Ok(Next::Cost {
            name: object.copy(alloc)?,
            part: None,
        }),
    }
}

/// The first body or thread of a flat design that is too dear, if one is.
fn too_dear(alloc: Global, flat: &Flat, facts: &Facts<'_>) -> Result<Option<Next>, NoMemory>
    requires { design_of facts.now ≡ flat_of flat.now }
    ensures { IfOk result (IsCheap (flat_of flat.now)) }
{
    let costs = part_costs(alloc, facts)?;
    let names = part_names(alloc, flat)?;
    match first_dear(names.as_slice(), costs.as_slice()) {
        None => Ok(None),
        Some(part) => Ok(Some(cost_of(alloc, part)?)),
    }
}

/// The first value of a sound flat design that is over its limit, if one is.
fn missed(
    alloc: Global,
    flat: &Flat,
    facts: &Facts<'_>,
    order: &Ranking,
) -> Result<Option<Next>, NoMemory>
    requires sound { IsSound (flat_of flat.now) }
    requires known { design_of facts.now ≡ flat_of flat.now }
    requires order { ranks_of order.now ≡ ranks (flat_of flat.now) }
    ensures { IfOk result (IsBounded (flat_of flat.now)) }
{
    let table = table(alloc, facts, order)?;
    match bounds_of(alloc, flat, &table) {
        Ok(_) => Ok(None),
        Err(NoBounds::Miss { thread, miss }) => Ok(Some(Next::Miss { thread, miss })),
        Err(NoBounds::NoMemory) => Err(NoMemory),
    }
}

/// What of a copy that is scaled already fails, if anything does.
fn failure_of(alloc: Global, flat: &Flat, order: &Ranking) -> Result<Option<Next>, NoMemory>
    requires sound { first_dear (flat_of flat.now) ≡ None → IsSound (flat_of flat.now) }
    requires order { ranks_of order.now ≡ ranks (flat_of flat.now) }
    ensures { IfOk result (IsHolding (flat_of flat.now)) }
{
    let facts = facts_of(alloc, flat)?;
    match too_dear(alloc, flat, &facts)? {
        Some(next) => Ok(Some(next)),
        None => missed(alloc, flat, &facts, order),
    }
}

/// What of a flat design fails where all its `work`, or that of the object of this name alone, is at so many per mille, if anything does.
pub(crate) fn failure(
    alloc: Global,
    flat: &Flat,
    order: &Ranking,
    only: Option<&Name>,
    per_mille: u32,
) -> Result<Option<Next>, NoMemory>
    requires sound { IsSound (flat_of flat.now) }
    requires order { ranks_of order.now ≡ ranks (flat_of flat.now) }
    ensures { IfOk result (IsFailureIn (option_map (λ n. n.now) only.entry) (flat_of flat.now) per_mille) }
{
    let copy = scaled(alloc, flat, only, per_mille)?;
    failure_of(alloc, &copy, order)
}
