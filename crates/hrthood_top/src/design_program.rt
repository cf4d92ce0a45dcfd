ghost use Rattle.std.specs.Prelude.{◌≡◌, ◌≤◌, IfOk};
ghost use Rattle.ods_tree.specs.Trees.{flat_of};
ghost use Rattle.ada_tree.specs.Trees.{program_of};
ghost use Rattle.analysis.specs.Ceilings.{ranks, written_ranks};
ghost use Rattle.analysis.specs.Sound.{IsSound};
ghost use Rattle.bridge.specs.Makes.{HasRoom};
ghost use Rattle.guarantee.specs.Programs.{program, program_for};
ghost use Rattle.ods_rules.specs.Checks.{checked_design};

use ada_gen::generate;
use ada_tree::AdaProgram;
use ods_flat::{first_priority, flatten};
use ods_rules::Checked;
use ods_tree::Flat;
use rt_order::order;
use seq_tree::NoMemory;
use std::alloc::Global;

/// The Ada program of a flat design; `first` is the number with which the least priority is written.
fn flat_program(alloc: Global, flat: &Flat, first: u32) -> Result<AdaProgram, NoMemory>
    requires sound { IsSound (flat_of flat.now) }
    requires first { 1 ≤ first }
    requires room { HasRoom first (flat_of flat.now) }
    ensures { IfOk result (λ p. program_of p ≡ program_for (flat_of flat.now) (written_ranks first (ranks (flat_of flat.now)))) }
{
    let ranking = order(alloc, flat)?;
    generate(alloc, flat, &ranking, first)
}

/// The Ada program of a design that meets the rules, whether or not it has bounds.
pub(crate) fn design_program(alloc: Global, checked: &Checked) -> Result<AdaProgram, NoMemory>
    ensures { IfOk result (λ p. program_of p ≡ program (checked_design checked.now)) }
{
    let first = first_priority(checked.design());
    let flat = flatten(alloc, checked)?;
    flat_program(alloc, &flat, first)
}
