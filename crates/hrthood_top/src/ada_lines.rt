ghost use Rattle.std.specs.Prelude.{◌≡◌};
ghost use Rattle.hood_io.specs.Causes.{HasCause};
ghost use Rattle.hood_io.specs.Sinks.{Puts};
ghost use Rattle.hrthood_top.specs.Messages.{rule_text, fault_text, gap_text, unit_text, unit_line};

use crate::line::put_each;
use crate::text_lines::body_text;
use ada_rules::AdaRule;
use hood_io::{Failed, Sink};
use seq_tree::Name;

/// The code of a rule of a program.
fn rule_text<'a>(rule: AdaRule) -> &'a [u8]
    ensures { result.now ≡ rule_text rule }
{
    match rule {
        AdaRule::G1 => b"G1",
        AdaRule::G2 => b"G2",
        AdaRule::G3 => b"G3",
        AdaRule::G4(_) => b"G4",
        AdaRule::G5 => b"G5",
        AdaRule::G6 => b"G6",
    }
}

/// The code of the fault of a body that a rule tells.
fn fault_text<'a>(rule: AdaRule) -> &'a [u8]
    ensures { result.now ≡ fault_text rule }
{
    match rule {
        AdaRule::G4(fault) => body_text(fault),
        _ => b"",
    }
}

/// What stands before the name of a unit.
fn gap_text<'a>(unit: &Option<Name>) -> &'a [u8]
    ensures { result.now ≡ gap_text unit.now }
{
    match unit {
        Some(_) => b" ",
        None => b"",
    }
}

/// The name of a unit, where one is told.
fn unit_text(unit: &Option<Name>) -> &[u8]
    ensures { result.now ≡ unit_text unit.now }
{
    match unit {
        Some(name) => name.bytes(),
        None => b"",
    }
}

/// Writes the line of a rule that a program breaks; after a failure a proper front of it was written.
pub(crate) fn put_unit<E: Sink>(
    err: &mut E,
    rule: AdaRule,
    unit: &Option<Name>,
) -> Result<(), Failed>
    ensures cause { HasCause (E.faults err.old) (E.faults err.new) result }
    ensures puts { Puts (E.written err.old) (E.written err.new) (unit_line rule unit.now) result }
{
    put_each(
        err,
        &[
            b"refused ".as_slice(),
            rule_text(rule),
            gap_text(unit),
            unit_text(unit),
            fault_text(rule),
            b"\n".as_slice(),
        ],
    )
}
