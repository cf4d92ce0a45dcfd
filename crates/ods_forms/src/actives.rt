ghost use Rattle.ods_tree.specs.Trees.{design_of};
ghost use Rattle.design_rules.specs.Bodies.{idle_actives};
ghost use Rattle.ods_index.specs.Indexing.{IsIndex};
ghost use Rattle.ods_index.specs.Judging.{Tells, head_of};

use crate::objects::{ObjectRule, first_offender};
use ods_index::{Broken, Index};
use std::alloc::Global;

/// V12: tells the first terminal object that is active.
#[tactic(auto, using(crate::proofs::ObjectSteps::object_steps))]
pub fn first_idle_active(alloc: Global, index: &Index<'_>) -> Result<(), Broken>
    requires { IsIndex index.now }
    ensures { Tells result (head_of (idle_actives (design_of index.entry.now.design.now))) }
{
    first_offender(alloc, index.objects.as_slice(), ObjectRule::IdleActive)
}
