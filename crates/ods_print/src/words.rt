ghost use Rattle.std.specs.Prelude.{◌≡◌};
ghost use Rattle.ods_tree.specs.Layout.{part_text};
ghost use Rattle.ods_tree.specs.Spelling.{attribute_part, constraint_parts, kind_part, unit_parts};
ghost use Rattle.ods_print.specs.Parts.{behind};

use ods_tree::{AttrKey, Constraint, Kind, TickUnit};

/// What an attribute states.
pub(crate) fn key_text(key: AttrKey) -> &'static [u8]
    ensures { result.now ≡ part_text (attribute_part key) }
{
    match key {
        AttrKey::Period => b"PERIOD",
        AttrKey::Offset => b"OFFSET",
        AttrKey::Separation => b"SEPARATION",
        AttrKey::Deadline => b"DEADLINE",
        AttrKey::ThreadBudget => b"THREAD_BUDGET",
        AttrKey::ArrivalJitter => b"ARRIVAL_JITTER",
    }
}

/// A kind of an object.
pub(crate) fn kind_text(kind: Kind) -> &'static [u8]
    ensures { result.now ≡ part_text (kind_part kind) }
{
    match kind {
        Kind::Passive => b"PASSIVE",
        Kind::Active => b"ACTIVE",
        Kind::Protected => b"PROTECTED",
        Kind::Cyclic => b"CYCLIC",
        Kind::Sporadic => b"SPORADIC",
    }
}

/// A unit of time behind a space, where there is one.
pub(crate) fn unit_text(unit: Option<TickUnit>) -> &'static [u8]
    ensures { result.now ≡ behind (unit_parts unit) }
{
    match unit {
        None => b"",
        Some(TickUnit::Us) => b" us",
        Some(TickUnit::Ms) => b" ms",
        Some(TickUnit::S) => b" s",
    }
}

/// A constraint behind a space, where there is one.
pub(crate) fn constraint_text(constraint: Option<Constraint>) -> &'static [u8]
    ensures { result.now ≡ behind (constraint_parts constraint) }
{
    match constraint {
        None => b"",
        Some(Constraint::Aser) => b" ASER",
        Some(Constraint::Hser) => b" HSER",
        Some(Constraint::Pser) => b" PSER",
        Some(Constraint::Paer) => b" PAER",
    }
}
