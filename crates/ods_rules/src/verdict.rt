ghost use Rattle.std.specs.Prelude.{◌≡◌, ◌<◌, ◌≤◌, IfOk, IfSome, Some, length, suc, true};
ghost use Rattle.ods_tree.specs.Trees.{design_of};
ghost use Rattle.ods_tree.specs.Walk.{objects};
ghost use Rattle.design_rules.specs.Budgets.{bad_budgets, bad_sizes};
ghost use Rattle.design_rules.specs.Rules.{Budget, Offends, Size, Version, number_of};
ghost use Rattle.ods_rules.specs.Checks.{Says};
ghost use Rattle.ods_index.specs.Indexing.{IsIndex};
ghost use Rattle.ods_index.specs.Judging.{Judges, Passes, PassesBefore, Tells, head_of};
ghost use Rattle.ods_calls.specs.Pricing.{priced_design};
ghost use Rattle.ods_rules.specs.Orders.{Verdict, limit, rule_of};

use crate::checked::Checked;
use ods_calls::{
    Priced, first_bad_budget, first_bad_size, first_bad_source, first_bad_spacing,
    first_ringed_object, first_ringed_op, first_ringed_thread,
};
use ods_forms::{
    first_bad_body, first_bad_fitting, first_bad_include, first_bad_number, first_bad_operation,
    first_bad_version, first_idle_active, set_ticks,
};
use ods_index::{Broken, Index};
use ods_names::{first_absent, first_clash, first_forbidden, first_kept_name, first_stranger};
use ods_tree::Design;
use seq_tree::NoMemory;
use std::alloc::Global;

/// The rules in the order of their numbers, but for that on versions.
#[derive(Clone, Copy)]
pub(crate) enum Rule {
    Clash,
    KeptName,
    Include,
    Operation,
    Fitting,
    Stranger,
    Absence,
    Use,
    CallRing,
    ObjectRing,
    StartRing,
    Source,
    Number,
    IdleActive,
    BodyFault,
    Budget,
    Size,
    Spacing,
}

/// The rule after this one, where there is one.
fn next(rule: Rule) -> Option<Rule>
    ensures { limit result ≡ suc (limit (Some rule)) }
{
    match rule {
        Rule::Clash => Some(Rule::KeptName),
        Rule::KeptName => Some(Rule::Include),
        Rule::Include => Some(Rule::Operation),
        Rule::Operation => Some(Rule::Fitting),
        Rule::Fitting => Some(Rule::Stranger),
        Rule::Stranger => Some(Rule::Absence),
        Rule::Absence => Some(Rule::Use),
        Rule::Use => Some(Rule::CallRing),
        Rule::CallRing => Some(Rule::ObjectRing),
        Rule::ObjectRing => Some(Rule::StartRing),
        Rule::StartRing => Some(Rule::Source),
        Rule::Source => Some(Rule::Number),
        Rule::Number => Some(Rule::IdleActive),
        Rule::IdleActive => Some(Rule::BodyFault),
        Rule::BodyFault => Some(Rule::Budget),
        Rule::Budget => Some(Rule::Size),
        Rule::Size => Some(Rule::Spacing),
        Rule::Spacing => None,
    }
}

/// Whether a rule asks for what blocks cost.
fn asks_costs(rule: Rule) -> bool
    ensures { result ≡ true → number_of Budget ≤ number_of (rule_of rule) }
{
    matches!(rule, Rule::Budget | Rule::Size)
}

/// What the blocks of a design cost, where it was known or the rule that is judged now asks for it. No lower one is broken.
fn priced_for<'k, 'a>(
    alloc: Global,
    index: &'k Index<'a>,
    rule: Rule,
    known: Option<Priced<'k, 'a>>,
) -> Result<Option<Priced<'k, 'a>>, NoMemory>
    requires indexed { IsIndex index.now }
    requires same { IfSome known (λ p. priced_design p ≡ design_of index.now.design.now) }
    requires before { PassesBefore (design_of index.now.design.now) (rule_of rule) }
    ensures { IfOk result (λ o. IfSome o (λ p. priced_design p ≡ design_of index.entry.now.design.now)) }
{
    if known.is_some() || !asks_costs(rule) {
        return Ok(known);
    }
    let priced = Priced::new(alloc, index)?;
    Ok(Some(priced))
}

/// V14: tells the first offender, where no lower rule is broken, by what blocks cost where that is known.
fn judge_budgets<'a>(
    alloc: Global,
    index: &Index<'a>,
    known: &Option<Priced<'_, 'a>>,
) -> Result<(), Broken>
    requires indexed { IsIndex index.now }
    requires same { IfSome known.now (λ p. priced_design p ≡ design_of index.now.design.now) }
    requires before { PassesBefore (design_of index.now.design.now) Budget }
    ensures { Tells result (head_of (bad_budgets (design_of index.entry.now.design.now))) }
{
    match known {
        Some(priced) => first_bad_budget(alloc, index, priced),
        None => {
            let priced = Priced::new(alloc, index)?;
            first_bad_budget(alloc, index, &priced)
        }
    }
}

/// V15: tells the first offender, where no lower rule is broken, by what blocks cost where that is known.
fn judge_sizes<'a>(
    alloc: Global,
    index: &Index<'a>,
    known: &Option<Priced<'_, 'a>>,
) -> Result<(), Broken>
    requires indexed { IsIndex index.now }
    requires few { length (objects (design_of index.now.design.now)) < 4294967296 }
    requires same { IfSome known.now (λ p. priced_design p ≡ design_of index.now.design.now) }
    requires before { PassesBefore (design_of index.now.design.now) Size }
    ensures { Tells result (head_of (bad_sizes (design_of index.entry.now.design.now))) }
{
    match known {
        Some(priced) => first_bad_size(alloc, index, priced),
        None => {
            let priced = Priced::new(alloc, index)?;
            first_bad_size(alloc, index, &priced)
        }
    }
}

/// Tells the first offender against a rule, where no lower one is broken, by what blocks cost where that is known.
#[tactic(auto, using(crate::proofs::Shared::VerdictLaws::judged_list))]
fn judge<'a>(
    alloc: Global,
    index: &Index<'a>,
    known: &Option<Priced<'_, 'a>>,
    rule: Rule,
) -> Result<(), Broken>
    requires indexed { IsIndex index.now }
    requires few { length (objects (design_of index.now.design.now)) < 4294967296 }
    requires same { IfSome known.now (λ p. priced_design p ≡ design_of index.now.design.now) }
    requires before { PassesBefore (design_of index.now.design.now) (rule_of rule) }
    ensures { Judges (Offends (design_of index.entry.now.design.now) (design_of index.entry.now.design.now) (rule_of rule)) result }
{
    match rule {
        Rule::Clash => first_clash(alloc, index),
        Rule::KeptName => first_kept_name(alloc, index),
        Rule::Include => first_bad_include(alloc, index),
        Rule::Operation => first_bad_operation(alloc, index),
        Rule::Fitting => first_bad_fitting(alloc, index),
        Rule::Stranger => first_stranger(alloc, index),
        Rule::Absence => first_absent(alloc, index),
        Rule::Use => first_forbidden(alloc, index),
        Rule::CallRing => first_ringed_op(alloc, index),
        Rule::ObjectRing => first_ringed_object(alloc, index),
        Rule::StartRing => first_ringed_thread(alloc, index),
        Rule::Source => first_bad_source(alloc, index),
        Rule::Number => first_bad_number(alloc, index),
        Rule::IdleActive => first_idle_active(alloc, index),
        Rule::BodyFault => first_bad_body(alloc, index),
        Rule::Budget => judge_budgets(alloc, index, known),
        Rule::Size => judge_sizes(alloc, index, known),
        Rule::Spacing => first_bad_spacing(alloc, index),
    }
}

/// Tells the first offender against the first rule that is broken, rule by rule. What blocks cost is worked out once.
#[tactic(auto, using(crate::proofs::Shared::VerdictLaws::order_laws))]
fn judge_all<'a>(alloc: Global, index: &Index<'a>) -> Result<(), Broken>
    requires indexed { IsIndex index.now }
    requires few { length (objects (design_of index.now.design.now)) < 4294967296 }
    requires version { Passes (design_of index.now.design.now) Version }
    ensures { Verdict (design_of index.entry.now.design.now) result }
{
    let mut rule = Some(Rule::Clash);
    let mut known = None;
    'rules: while let Some(now) = rule {
        known = priced_for(alloc, index, now, known)?;
        judge(alloc, index, &known, now)?;
        rule = next(now);
    }
    Ok(())
}

/// Tells what is wrong with a design in ticks, but for its version.
fn judge_design(alloc: Global, design: &Design) -> Result<(), Broken>
    requires few { length (objects (design_of design.now)) < 4294967296 }
    requires version { Passes (design_of design.now) Version }
    ensures { Verdict (design_of design.now) result }
{
    let index = Index::new(alloc, design)?;
    judge_all(alloc, &index)
}

/// Takes a design exactly where it meets the rules, and gives it in ticks; else tells the first rule that is broken, by number, and
/// of it the first offender in flattened order and order of writing.
///
/// The design has fewer than 4,294,967,296 objects. V17 speaks of the design as it is written, the others of the design in ticks.
/// `NoMemory` comes for want of memory.
#[tactic(auto, using(crate::proofs::Shared::VerdictLaws::check_laws, crate::proofs::Shared::CountLaws::count_laws))]
pub fn check(alloc: Global, design: Design) -> Result<Checked, Broken>
    requires { length (objects (design_of design)) < 4294967296 }
    ensures { Says (design_of design) result }
{
    let mut design = design;
    first_bad_version(alloc, &design)?;
    set_ticks(&mut design);
    judge_design(alloc, &design)?;
    Ok(Checked { design })
}
