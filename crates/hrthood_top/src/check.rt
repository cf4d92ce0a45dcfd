ghost use Rattle.std.specs.Prelude.{◌≡◌, IfOk};
ghost use Rattle.hood_io.specs.Causes.{HasCause};
ghost use Rattle.hood_io.specs.Sinks.{Puts};
ghost use Rattle.ods_rules.specs.Checks.{checked_design};
ghost use Rattle.bridge.specs.Taking.{RefusesTaking};
ghost use Rattle.hrthood_top.specs.Checks.{check_line, taken_line, IsTaken};
ghost use Rattle.hrthood_top.specs.Writing.{IsMade};

use crate::design_lines::put_rule;
use crate::file_kind::FileKind;
use crate::line::Line;
use crate::text_lines::put_fault;
use bridge::{Halt, Untaken, take};
use hood_io::{Failed, Sink};
use itoa::Buffer;
use ods_rules::{Checked, count};
use seq_tree::NoMemory;
use std::alloc::Global;

impl Line for Untaken {
    ghost line = { check_line };

    fn put<E: Sink>(&self, err: &mut E) -> Result<(), Failed>
        ensures cause { HasCause (E.faults err.old) (E.faults err.new) result }
        ensures puts { Puts (E.written err.old) (E.written err.new) (check_line self.now) result }
    {
        match self {
            Untaken::Text(fault) => put_fault(err, FileKind::Design, *fault),
            Untaken::Rule(broken) => put_rule(err, broken),
        }
    }
}

/// The line of a design that is taken.
fn taken_line(alloc: Global, checked: &Checked) -> Result<Vec<u8>, NoMemory>
    ensures { IfOk result (λ v. v.items ≡ taken_line (checked_design checked.now)) }
{
    let (objects, threads) = count(alloc, checked)?;
    let mut number = Buffer::new();
    let mut line = Vec::new(alloc);
    line.extend_from_slice(b"ok ")?;
    line.extend_from_slice(checked.design().name.bytes())?;
    line.extend_from_slice(b" objects ")?;
    line.extend_from_slice(number.format(objects).as_bytes())?;
    line.extend_from_slice(b" threads ")?;
    line.extend_from_slice(number.format(threads).as_bytes())?;
    line.extend_from_slice(b"\n")?;
    Ok(line)
}

/// What is told of the text of a design.
#[tactic(auto, using(crate::proofs::CheckLaws::check_laws))]
pub(crate) fn check_text(alloc: Global, design: &[u8]) -> Result<Vec<u8>, Halt<Untaken>>
    ensures { IsMade (λ v. v.items) (IsTaken design.now) (RefusesTaking design.now) result }
{
    let checked = take(alloc, design)?;
    match taken_line(alloc, &checked) {
        Ok(line) => Ok(line),
        Err(NoMemory) => Err(Halt::NoMemory),
    }
}
