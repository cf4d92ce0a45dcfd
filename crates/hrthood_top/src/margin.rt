ghost use Rattle.std.specs.Prelude.{◌≡◌, ◌++◌, IfOk, OnOk};
ghost use Rattle.hrthood_top.specs.Messages.{miss_text, value_text};
ghost use Rattle.hrthood_top.specs.Scales.{margin_lines, next_line};

use crate::design_lines::{limit_text, part_text};
use crate::report::add_number;
use itoa::Buffer;
use rt_response::Miss;
use scaling::{Margin, Next};
use seq_tree::{Name, NoMemory};
use std::alloc::Global;

/// Adds a value that is over its limit, to the end of its line.
fn add_value(text: &mut Vec<u8>, miss: &Miss) -> Result<(), NoMemory>
    ensures { OnOk result (text.new.items ≡ text.old.items ++ value_text miss.now) }
{
    let mut value = Buffer::new();
    let mut limit = Buffer::new();
    let mut round = Buffer::new();
    text.extend_from_slice(b" value ")?;
    text.extend_from_slice(value.format(miss.value).as_bytes())?;
    text.extend_from_slice(b" limit ")?;
    text.extend_from_slice(limit.format(miss.limit).as_bytes())?;
    text.extend_from_slice(b" round ")?;
    text.extend_from_slice(round.format(miss.round).as_bytes())?;
    text.extend_from_slice(b"\n")?;
    Ok(())
}

/// Adds a value of a thread that is over its limit, behind the code of the limit and the thread.
pub(crate) fn add_miss(text: &mut Vec<u8>, thread: &Name, miss: &Miss) -> Result<(), NoMemory>
    ensures { OnOk result (text.new.items ≡ text.old.items ++ miss_text thread.now miss.now) }
{
    text.extend_from_slice(limit_text(miss.which))?;
    text.extend_from_slice(thread.bytes())?;
    add_value(text, miss)
}

/// Adds the line of a body or a thread that is too dear.
fn add_cost(text: &mut Vec<u8>, name: &Name, part: &Option<Name>) -> Result<(), NoMemory>
    ensures { OnOk result (text.new.items ≡ text.old.items ++ next_line (Next.Cost name.now part.now)) }
{
    text.extend_from_slice(b"next cost ")?;
    text.extend_from_slice(name.bytes())?;
    text.extend_from_slice(b" ")?;
    text.extend_from_slice(part_text(part))?;
    text.extend_from_slice(b"\n")?;
    Ok(())
}

/// Adds the line of what fails at the next per mille.
fn add_next(text: &mut Vec<u8>, next: &Next) -> Result<(), NoMemory>
    ensures { OnOk result (text.new.items ≡ text.old.items ++ next_line next.now) }
{
    match next {
        Next::Limit => {
            text.extend_from_slice(b"next limit\n")?;
            Ok(())
        }
        Next::Cost { name, part } => add_cost(text, name, part),
        Next::Miss { thread, miss } => {
            text.extend_from_slice(b"next ")?;
            add_miss(text, thread, miss)
        }
    }
}

/// The lines of a margin: the per mille, and what fails at the next one.
pub(crate) fn margin_lines(alloc: Global, margin: &Margin) -> Result<Vec<u8>, NoMemory>
    ensures { IfOk result (λ v. v.items ≡ margin_lines margin.now) }
{
    let mut text = Vec::new(alloc);
    add_number(&mut text, b"scale ", margin.per_mille)?;
    text.extend_from_slice(b"\n")?;
    add_next(&mut text, &margin.next)?;
    Ok(text)
}
