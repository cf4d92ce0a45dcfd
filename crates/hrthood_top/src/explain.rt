ghost use Rattle.std.specs.Prelude.{◌≡◌, ◌≤◌, ◌++◌, IfOk, OnOk, flat_map, map};
ghost use Rattle.seq_tree.specs.Lists.{Each};
ghost use Rattle.ods_tree.specs.Flattening.{flat};
ghost use Rattle.ods_tree.specs.Ticks.{first_priority};
ghost use Rattle.ods_tree.specs.Trees.{flat_of};
ghost use Rattle.ods_rules.specs.Checks.{checked_design};
ghost use Rattle.analysis.specs.Sound.{IsSound};
ghost use Rattle.bridge.specs.Taking.{RefusesTaking};
ghost use Rattle.explanation.specs.Threads.{HasPeriod};
ghost use Rattle.hrthood_top.specs.Analyses.{ceiling_line};
ghost use Rattle.hrthood_top.specs.Explanations.{chain_line, explained, late_line, utilisation_line, with_utilisation, IsExplained, IsToldOf};
ghost use Rattle.hrthood_top.specs.Writing.{IsMade};

use crate::chain_lines::add_chain_line;
use crate::margin::add_miss;
use crate::report::add_ceiling;
use crate::thread_lines::{add_threads, add_wide};
use bridge::{Halt, Untaken, take};
use design_bounds::CeilingRow;
use explanation::{Explanation, Late, Reasons, explain as explain_flat};
use ods_flat::{first_priority, flatten};
use ods_rules::Checked;
use ods_tree::Flat;
use seq_tree::NoMemory;
use std::alloc::Global;

/// Adds the line of a value that is over its limit, where one is.
fn add_late(text: &mut Vec<u8>, late: &Option<Late>) -> Result<(), NoMemory>
    ensures { OnOk result (text.new.items ≡ text.old.items ++ late_line late.now) }
{
    match late {
        None => Ok(()),
        Some(late) => {
            text.extend_from_slice(b"miss ")?;
            add_miss(text, &late.thread, &late.miss)
        }
    }
}

/// Adds the lines of chains.
fn add_chains(text: &mut Vec<u8>, threads: &[Reasons], chains: &[Vec<u32>]) -> Result<(), NoMemory>
    ensures { OnOk result (text.new.items ≡ text.old.items ++ flat_map (chain_line threads.now) (map (λ c. c.items) chains.now)) }
{
    let mut left = chains;
    'chains: while let Some((chain, more)) = left.split_first() {
        add_chain_line(text, threads, chain.as_slice())?;
        left = more;
    }
    Ok(())
}

/// Adds the lines of ceilings.
fn add_ceilings(text: &mut Vec<u8>, ceilings: &[CeilingRow]) -> Result<(), NoMemory>
    ensures { OnOk result (text.new.items ≡ text.old.items ++ flat_map ceiling_line ceilings.now) }
{
    let mut left = ceilings;
    'ceilings: while let Some((ceiling, more)) = left.split_first() {
        add_ceiling(text, ceiling)?;
        left = more;
    }
    Ok(())
}

/// Adds the utilisation.
fn add_utilisation(text: &mut Vec<u8>, per_mille: u64) -> Result<(), NoMemory>
    ensures { OnOk result (text.new.items ≡ text.old.items ++ utilisation_line per_mille) }
{
    add_wide(text, b"utilisation ", u128::from(per_mille))?;
    text.extend_from_slice(b"\n")?;
    Ok(())
}

/// The lines of an explanation without the utilisation.
fn explained_lines(alloc: Global, explanation: &Explanation) -> Result<Vec<u8>, NoMemory>
    requires { Each HasPeriod explanation.now.threads.items }
    ensures { IfOk result (λ v. v.items ≡ explained explanation.now.late explanation.now.threads.items
        (map (λ c. c.items) explanation.now.chains.items) explanation.now.ceilings.items) }
{
    let threads = explanation.threads.as_slice();
    let mut text = Vec::new(alloc);
    add_late(&mut text, &explanation.late)?;
    add_threads(&mut text, threads)?;
    add_chains(&mut text, threads, explanation.chains.as_slice())?;
    add_ceilings(&mut text, explanation.ceilings.as_slice())?;
    Ok(text)
}

/// These lines with the utilisation: it comes first where it is over 1000, and else last.
fn utilised_lines(alloc: Global, lines: Vec<u8>, per_mille: u64) -> Result<Vec<u8>, NoMemory>
    ensures { IfOk result (λ v. v.items ≡ with_utilisation per_mille lines.items) }
{
    if per_mille > 1000 {
        let mut text = Vec::new(alloc);
        add_utilisation(&mut text, per_mille)?;
        text.extend_from_slice(lines.as_slice())?;
        return Ok(text);
    }
    let mut text = lines;
    add_utilisation(&mut text, per_mille)?;
    Ok(text)
}

/// The lines of an explanation.
fn lines_of(alloc: Global, explanation: &Explanation) -> Result<Vec<u8>, NoMemory>
    requires { Each HasPeriod explanation.now.threads.items }
    ensures { IfOk result (λ v. v.items ≡ with_utilisation explanation.now.utilisation (explained explanation.now.late
        explanation.now.threads.items (map (λ c. c.items) explanation.now.chains.items) explanation.now.ceilings.items)) }
{
    let lines = explained_lines(alloc, explanation)?;
    utilised_lines(alloc, lines, explanation.utilisation)
}

/// The lines of a flat design, whose least priority is written as `first`.
fn flat_lines(alloc: Global, flat: &Flat, first: u32) -> Result<Vec<u8>, NoMemory>
    requires sound { IsSound (flat_of flat.now) }
    requires first { first ≤ 1000000000 }
    ensures { IfOk result (λ v. IsToldOf first (flat_of flat.now) v.items) }
{
    let explanation = explain_flat(alloc, flat, first)?;
    lines_of(alloc, &explanation)
}

/// The lines of a design that meets the rules.
fn checked_lines(alloc: Global, checked: &Checked) -> Result<Vec<u8>, NoMemory>
    ensures { IfOk result (λ v. IsToldOf (first_priority (checked_design checked.now)) (flat (checked_design checked.now)) v.items) }
{
    let first = first_priority(checked.design());
    let flat = flatten(alloc, checked)?;
    flat_lines(alloc, &flat, first)
}

/// What is told of the text of a design.
pub(crate) fn explain_text(alloc: Global, design: &[u8]) -> Result<Vec<u8>, Halt<Untaken>>
    ensures { IsMade (λ v. v.items) (IsExplained design.now) (RefusesTaking design.now) result }
{
    let checked = take(alloc, design)?;
    match checked_lines(alloc, &checked) {
        Ok(lines) => Ok(lines),
        Err(NoMemory) => Err(Halt::NoMemory),
    }
}
