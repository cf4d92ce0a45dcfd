ghost use Rattle.std.specs.Prelude.{◌≡◌, ◌++◌, IfOk, OnOk};
ghost use Rattle.hrthood_top.specs.Analyses.{bound_line, ceiling_line, demands, findings, labelled, report};

use design_bounds::CeilingRow;
use itoa::Buffer;
use seq_tree::NoMemory;
use std::alloc::Global;
use trace_text::NamedBound;

/// Adds a word and a number.
pub(crate) fn add_number(text: &mut Vec<u8>, label: &[u8], number: u32) -> Result<(), NoMemory>
    ensures { OnOk result (text.new.items ≡ text.old.items ++ labelled label.now number) }
{
    let mut digits = Buffer::new();
    text.extend_from_slice(label)?;
    text.extend_from_slice(digits.format(number).as_bytes())?;
    Ok(())
}

/// Adds the priority, the period and the deadline of a thread.
fn add_demands(text: &mut Vec<u8>, bound: &NamedBound) -> Result<(), NoMemory>
    ensures { OnOk result (text.new.items ≡ text.old.items ++ demands bound.now) }
{
    add_number(text, b" priority ", bound.priority)?;
    add_number(text, b" period ", bound.period)?;
    add_number(text, b" deadline ", bound.deadline)?;
    Ok(())
}

/// Adds the jitter, the cost, the blocking and the response time of a thread.
fn add_findings(text: &mut Vec<u8>, bound: &NamedBound) -> Result<(), NoMemory>
    ensures { OnOk result (text.new.items ≡ text.old.items ++ findings bound.now) }
{
    add_number(text, b" jitter ", bound.jitter)?;
    add_number(text, b" cost ", bound.cost)?;
    add_number(text, b" blocking ", bound.block)?;
    add_number(text, b" response ", bound.response)?;
    Ok(())
}

/// Adds the line of a bound.
fn add_bound(text: &mut Vec<u8>, bound: &NamedBound) -> Result<(), NoMemory>
    ensures { OnOk result (text.new.items ≡ text.old.items ++ bound_line bound.now) }
{
    text.extend_from_slice(b"thread ")?;
    text.extend_from_slice(bound.name.bytes())?;
    add_demands(text, bound)?;
    add_findings(text, bound)?;
    text.extend_from_slice(b"\n")?;
    Ok(())
}

/// Adds the line of a ceiling.
pub(crate) fn add_ceiling(text: &mut Vec<u8>, row: &CeilingRow) -> Result<(), NoMemory>
    ensures { OnOk result (text.new.items ≡ text.old.items ++ ceiling_line row.now) }
{
    text.extend_from_slice(b"ceiling ")?;
    text.extend_from_slice(row.name.bytes())?;
    add_number(text, b" ", row.ceiling)?;
    text.extend_from_slice(b"\n")?;
    Ok(())
}

/// The lines of bounds, then those of ceilings.
pub(crate) fn report(
    alloc: Global,
    bounds: &[NamedBound],
    ceilings: &[CeilingRow],
) -> Result<Vec<u8>, NoMemory>
    ensures { IfOk result (λ v. v.items ≡ report bounds.now ceilings.now) }
{
    let mut text = Vec::new(alloc);
    'bounds: for bound in bounds {
        add_bound(&mut text, bound)?;
    }
    'ceilings: for row in ceilings {
        add_ceiling(&mut text, row)?;
    }
    Ok(text)
}
