ghost use Rattle.std.specs.Prelude.{◌≡◌, false, Some, map};
ghost use Rattle.ods_index.specs.Judging.{Tells, head_of};
ghost use Rattle.ods_forms.specs.ObjectFaults.{IsRightTick, bad_objects, breaks_rule, told_by};
ghost use Rattle.ods_index.specs.Told.{is_memory, told_of};
ghost use Rattle.ods_index.specs.Walking.{standing_of};

use crate::includes::breaks_includes;
use crate::numbers::breaks_numbers;
use crate::operations::breaks_operations;
use crate::versions::breaks_ticks;
use ods_index::{Broken, Standing, is_idle_active};
use seq_tree::Name;
use std::alloc::Global;

/// A rule on which each object is judged by itself.
#[derive(Clone, Copy)]
pub(crate) enum ObjectRule {
    /// Times that are whole numbers of ticks of so many microseconds.
    Whole(u64),
    Include,
    Operation,
    Number,
    IdleActive,
}

/// Whether an object breaks a rule.
fn breaks(standing: &Standing<'_>, rule: ObjectRule) -> bool
    requires { IsRightTick rule }
    ensures { result ≡ breaks_rule rule (standing_of standing.entry.now) }
{
    match rule {
        ObjectRule::Whole(tick) => breaks_ticks(standing.node, tick),
        ObjectRule::Include => breaks_includes(standing),
        ObjectRule::Operation => breaks_operations(standing),
        ObjectRule::Number => breaks_numbers(standing),
        ObjectRule::IdleActive => is_idle_active(standing),
    }
}

/// What is told of an object that breaks a rule.
fn told(rule: ObjectRule, object: Name) -> Broken
    ensures told { told_of result ≡ Some (told_by rule object) }
    ensures memory { is_memory result ≡ false }
{
    match rule {
        ObjectRule::Whole(_) => Broken::V17 { object },
        ObjectRule::Include => Broken::V03 { object },
        ObjectRule::Operation => Broken::V04 { object },
        ObjectRule::Number => Broken::V11 {
            object: Some(object),
        },
        ObjectRule::IdleActive => Broken::V12 { object },
    }
}

/// Tells the first of these objects that breaks a rule.
pub(crate) fn first_offender(
    alloc: Global,
    objects: &[Standing<'_>],
    rule: ObjectRule,
) -> Result<(), Broken>
    requires { IsRightTick rule }
    ensures { Tells result (head_of (bad_objects rule (map standing_of objects.entry.now))) }
{
    'objects: for standing in objects {
        if breaks(standing, rule) {
            let object = standing.node.name.copy(alloc)?;
            return Err(told(rule, object));
        }
    }
    Ok(())
}
