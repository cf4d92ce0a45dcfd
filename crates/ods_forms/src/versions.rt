ghost use Rattle.std.specs.Prelude.{◌≡◌, ◌<◌, ◌≤◌, false};
ghost use Rattle.std.specs.List.{list_any};
ghost use Rattle.ods_tree.specs.Ticks.{microseconds, tick_time};
ghost use Rattle.ods_tree.specs.Trees.{design_of};
ghost use Rattle.design_rules.specs.Versions.{bad_priorities, bad_tick, bad_version, breaks_ticks, misses_ticks, version_faults};
ghost use Rattle.ods_index.specs.Judging.{Tells, head_of};
ghost use Rattle.ods_index.specs.Walking.{object_of};

use crate::limits::{MOST_COUNT, MOST_PRIORITY, MOST_TICKS};
use crate::objects::{ObjectRule, first_offender};
use ods_index::{Broken, objects_of};
use ods_tree::{Attr, Design, Node, TickUnit, VersionTwo};
use std::alloc::Global;

/// The microseconds of a unit.
pub(crate) fn microseconds(unit: TickUnit) -> u64
    ensures micros { result ≡ microseconds unit }
    ensures few { result ≤ 1000000 }
{
    match unit {
        TickUnit::Us => 1,
        TickUnit::Ms => 1000,
        TickUnit::S => 1_000_000,
    }
}

/// The microseconds of a tick.
pub(crate) fn tick_time(version: VersionTwo) -> u64
    ensures { result ≡ tick_time version }
{
    u64::from(version.tick) * microseconds(version.unit)
}

/// Whether a number of a unit is no whole number of ticks of this many microseconds, or too many ticks.
fn misses_ticks(tick: u64, value: u32, unit: Option<TickUnit>) -> bool
    requires { 0 < tick }
    ensures { result ≡ misses_ticks tick value unit }
{
    match unit {
        None => false,
        Some(unit) => {
            let micros = u64::from(value) * microseconds(unit);
            micros % tick != 0 || MOST_COUNT < micros / tick
        }
    }
}

/// Whether some attribute does.
fn any_misses(tick: u64, attrs: &[Attr]) -> bool
    requires { 0 < tick }
    ensures { result ≡ list_any (λ a. misses_ticks tick a.value a.unit) attrs.now }
{
    'attrs: for attr in attrs {
        if misses_ticks(tick, attr.value, attr.unit) {
            return true;
        }
    }
    false
}

/// Whether an attribute of an object does.
#[tactic(auto, using(ods_index::proofs::Shared::WalkSteps::node_steps))]
pub(crate) fn breaks_ticks(node: &Node, tick: u64) -> bool
    requires { 0 < tick }
    ensures { result ≡ breaks_ticks tick (object_of node.now) }
{
    any_misses(tick, node.attrs.as_slice())
}

/// Tells a tick that isn't 1 to 1,000,000,000 microseconds.
fn tick_fits(tick: u64, version: VersionTwo) -> Result<(), Broken>
    requires { tick ≡ tick_time version }
    ensures { Tells result (head_of (bad_tick version)) }
{
    if 1 <= tick && tick <= u64::from(MOST_TICKS) {
        Ok(())
    } else {
        Err(Broken::V17Tick)
    }
}

/// Tells priorities that don't rise, or aren't 1 to 60.
fn priorities_fit(priorities: Option<(u32, u32)>) -> Result<(), Broken>
    ensures { Tells result (head_of (bad_priorities priorities)) }
{
    match priorities {
        None => Ok(()),
        Some((least, greatest)) => {
            if 1 <= least && least <= greatest && greatest <= MOST_PRIORITY {
                Ok(())
            } else {
                Err(Broken::V17Priorities)
            }
        }
    }
}

/// Tells what is wrong with this version of a design.
fn version_fits(alloc: Global, version: VersionTwo, design: &Design) -> Result<(), Broken>
    ensures { Tells result (head_of (bad_version (Some version) (design_of design.now))) }
{
    let tick = tick_time(version);
    tick_fits(tick, version)?;
    priorities_fit(version.priorities)?;
    let objects = objects_of(alloc, design)?;
    first_offender(alloc, objects.as_slice(), ObjectRule::Whole(tick))
}

/// V17: tells what is wrong with the version of a design as it is written.
pub fn first_bad_version(alloc: Global, design: &Design) -> Result<(), Broken>
    ensures { Tells result (head_of (version_faults (design_of design.now))) }
{
    match design.version {
        None => Ok(()),
        Some(version) => version_fits(alloc, version, design),
    }
}
