ghost use Rattle.std.specs.Prelude.{◌≡◌, IfOk};
ghost use Rattle.ods_tree.specs.Flattening.{flat};
ghost use Rattle.ods_tree.specs.Trees.{design_of, flat_of};
ghost use Rattle.ods_rules.specs.Checks.{checked_design};

use crate::entries::{libraries, protected, threads};
use crate::terminals::terminals;
use ods_index::Links;
use ods_rules::Checked;
use ods_tree::{Design, Flat};
use seq_tree::NoMemory;
use std::alloc::Global;

/// What runs of a design.
#[tactic(auto, using(crate::proofs::TerminalLaws::terminal_laws))]
fn flat(alloc: Global, design: &Design) -> Result<Flat, NoMemory>
    ensures { IfOk result (λ f. flat_of f ≡ flat (design_of design.now)) }
{
    let links = Links::new(alloc, design)?;
    let found = terminals(alloc, design)?;
    Ok(Flat {
        name: design.name.copy(alloc)?,
        costs: design.costs,
        passive: libraries(alloc, &links, found.as_slice())?,
        shared: protected(alloc, &links, found.as_slice())?,
        threads: threads(alloc, &links, found.as_slice())?,
    })
}

/// What runs of a design that meets the rules: its terminal objects by sort, passive, protected and those with a thread, each in
/// flattened order, with each call naming the terminal operation to which the links lead. Times are in ticks. `NoMemory` comes for
/// want of memory alone.
pub fn flatten(alloc: Global, checked: &Checked) -> Result<Flat, NoMemory>
    ensures { IfOk result (λ f. flat_of f ≡ flat (checked_design checked.now)) }
{
    flat(alloc, checked.design())
}
