ghost use Rattle.std.specs.Prelude.{◌≡◌};
ghost use Rattle.ods_tree.specs.Trees.{design_of};
ghost use Rattle.design_rules.specs.Rules.{AreMet, MeetsRules};

use ods_tree::Design;

/// A design that meets the rules, in ticks.
#[derive(Drop)]
pub struct Checked {
    pub(crate) design: Design,
    ghost meets: { MeetsRules (design_of design) },
    ghost ticked: { AreMet (design_of design) (design_of design) },
}

impl Checked {
    ghost use Rattle.ods_rules.specs.Checks.{checked_design};

    /// The design in ticks: each attribute with a unit is the number of ticks that its time takes, and it meets the rules.
    pub fn design(&self) -> &Design
        ensures same { design_of result.now ≡ checked_design self.now }
        ensures meets { MeetsRules (design_of result.now) }
        ensures ticked { AreMet (design_of result.now) (design_of result.now) }
    {
        &self.design
    }
}
