ghost use Rattle.hrthood_top.specs.Analyses.{IsAnalysed};
ghost use Rattle.hrthood_top.specs.Generates.{RefusesDesign};
ghost use Rattle.hrthood_top.specs.Writing.{IsMade};

use crate::generate::{GenerateRefusal, deliver_design};
use crate::report::report;
use bridge::Halt;
use seq_tree::NoMemory;
use std::alloc::Global;

/// What is told of the text of a design: the bounds and the ceilings that go with its Ada text. That text is made too, and dropped, so that a
/// design is refused here exactly where `generate` refuses it, for a text that would be too long among others.
#[tactic(auto, using(crate::proofs::AnalyseLaws::analysed_as))]
pub(crate) fn analyse_text(alloc: Global, design: &[u8]) -> Result<Vec<u8>, Halt<GenerateRefusal>>
    ensures { IsMade (λ v. v.items) (IsAnalysed design.now) (RefusesDesign design.now) result }
{
    match deliver_design(alloc, design) {
        Ok(delivery) => {
            match report(
                alloc,
                delivery.bounds.as_slice(),
                delivery.ceilings.as_slice(),
            ) {
                Ok(lines) => Ok(lines),
                Err(NoMemory) => Err(Halt::NoMemory),
            }
        }
        Err(why) => Err(why),
    }
}
