ghost use Rattle.std.specs.Prelude.{◌≡◌};
ghost use Rattle.ods_tree.specs.Ticks.{first_priority};
ghost use Rattle.ods_tree.specs.Trees.{design_of};

use ods_tree::Design;

/// The number with which the least priority of a design is written: 1 where the design states no priorities.
pub fn first_priority(design: &Design) -> u32
    ensures { result ≡ first_priority (design_of design.now) }
{
    match &design.version {
        None => 1,
        Some(version) => match version.priorities {
            None => 1,
            Some((first, _)) => first,
        },
    }
}
