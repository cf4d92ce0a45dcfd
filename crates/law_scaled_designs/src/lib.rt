//! Scaled designs as designs that meet the rules: no code runs here.
//!
//! A scaled design has all its `work` at so many per mille, rounded up and at most 1,000,000,000 ticks, and the greatest THREAD_BUDGET
//! there is; names, structure, calls, links and all other attributes stay (`scaled_design` of `law_scaling`). No rule but those of
//! numbers, budgets and sizes reads `work` or a budget, so it meets the rules wherever the design does and no body or thread costs more
//! than 1,000,000,000 ticks. With `flat_designs_scale` and `holding_is_kept` of `law_scaling` a design that holds at so many per mille
//! gives a design that the verbs take.
//!
//! It stands on `law_scaling` for scaled designs and on `law_designs` for what the rules say of each object. Each law is the contract of
//! a public function with an empty body.
//!
//! Other crates may cite these proofs of it (`proofs/Shared`):
//!
//! - `ScaledRules`: a scaled design in ticks, what runs of it, and that it meets the rules.
#![tactic(auto)]

ghost use Rattle.law_scaled_designs.specs.Laws.{DearDesignsAreRefused, HoldingDesignsAreBounded, MissesAreOfScaledDesigns};
ghost use Rattle.law_scaled_designs.specs.Laws.{ScaledDesignsAreInTicks, ScaledDesignsMeetTheRules, ScaledDesignsRunScaled};

/// A scaled design in ticks is the design in ticks, scaled.
pub fn scaled_designs_are_in_ticks()
    ensures { ScaledDesignsAreInTicks }
{}

/// What runs of a scaled design is the flat design of the design in ticks, scaled: budgets are no part of what runs.
pub fn scaled_designs_run_scaled()
    ensures { ScaledDesignsRunScaled }
{}

/// A design that meets the rules meets them with all its `work` at so many per mille and the greatest budgets, as long as no body or
/// thread costs more than 1,000,000,000 ticks.
pub fn scaled_designs_meet_the_rules()
    ensures { ScaledDesignsMeetTheRules }
{}

/// A design that meets the rules and holds at so many per mille gives, at as many or less, a design that meets the rules and has bounds: what
/// `generate` asks of a design, but that its text is within the limit.
pub fn holding_designs_are_bounded()
    ensures { HoldingDesignsAreBounded }
{}

/// The first value over its limit at so many per mille, where no body or thread is too dear, is that of the scaled design, which meets the rules.
pub fn misses_are_of_scaled_designs()
    ensures { MissesAreOfScaledDesigns }
{}

/// Where a body or a thread is too dear at so many per mille, the first rule that the scaled design breaks is that of costs.
pub fn dear_designs_are_refused()
    ensures { DearDesignsAreRefused }
{}
