ghost use Rattle.std.specs.Prelude.{◌≡◌, Some, IfOk};
ghost use Rattle.ada_tree.specs.Trees.{program_of};
ghost use Rattle.ada_rules.specs.Verdicts.{FirstSays, Says, name_at, site_of};
ghost use Rattle.ada_rules.specs.declared.verdict.RuleBreak.TheVariants.{NoMemory};

use crate::bodies::first_by_bodies;
use crate::callers::{Sort, callers_of};
use crate::externals::first_by_externals;
use crate::naming::first_by_names;
use crate::ranges::{first_by_ranges, whole_breaks};
use crate::rounds::first_by_rings;
use crate::uses::first_by_uses;
use ada_tree::AdaProgram;
use seq_check::BodyFault;
use seq_tree::{Name, NoMemory};
use std::alloc::Global;

/// A rule of a program.
#[derive(Clone, Copy, Debug, PartialEq, Eq)]
pub enum AdaRule {
    /// Names clash, or a call names a unit or an operation that isn't there.
    G1,
    /// A passive or protected unit calls other than passive operations.
    G2,
    /// Passive operations call each other in a ring.
    G3,
    /// The first fault in the bodies of a unit; never want of memory.
    G4(BodyFault),
    /// A number is out of its range.
    G5,
    /// A request is said to come from outside where a unit calls it, or from inside where none does.
    G6,
}

/// Why a program was not found to meet the rules.
#[derive(Drop, Debug)]
pub enum RuleBreak {
    /// The first rule that is broken, by number, and the first unit that breaks it, in order; no unit where the costs, the number
    /// of tasks or the number of units break it.
    Rule { rule: AdaRule, unit: Option<Name> },
    /// Want of memory.
    NoMemory,
}

impl From<NoMemory> for RuleBreak {
    ghost from_gives = { λ _ e. e ≡ NoMemory };

    fn from(_e: NoMemory) -> RuleBreak {
        RuleBreak::NoMemory
    }
}

/// A rule, and the place of a unit that breaks it; no place for what breaks it before all units.
#[derive(Clone, Copy)]
struct Found {
    rule: AdaRule,
    place: Option<usize>,
}

/// The rule that is broken by the unit at a place.
fn broken_at(rule: AdaRule, place: usize) -> Option<Found>
    ensures { result ≡ Some (record { rule = rule; place = Some place }) }
{
    Some(Found {
        rule,
        place: Some(place),
    })
}

/// The first rule that is broken, and where.
fn find_broken(alloc: Global, program: &AdaProgram) -> Result<Option<Found>, NoMemory>
    ensures { IfOk result (FirstSays (program_of program.now)) }
{
    match first_by_names(alloc, program)? {
        None => {}
        Some(place) => return Ok(broken_at(AdaRule::G1, place)),
    }
    match first_by_uses(alloc, program)? {
        None => {}
        Some(place) => return Ok(broken_at(AdaRule::G2, place)),
    }
    let shared = callers_of(alloc, Sort::Shared, program.units.as_slice())?;
    match first_by_rings(alloc, program, shared.as_slice())? {
        None => {}
        Some(place) => return Ok(broken_at(AdaRule::G3, place)),
    }
    match first_by_bodies(alloc, program)? {
        None => {}
        Some(at) => return Ok(broken_at(AdaRule::G4(at.fault), at.place)),
    }
    if whole_breaks(program) {
        return Ok(Some(Found {
            rule: AdaRule::G5,
            place: None,
        }));
    }
    match first_by_ranges(alloc, program)? {
        None => {}
        Some(place) => return Ok(broken_at(AdaRule::G5, place)),
    }
    match first_by_externals(alloc, program, shared.as_slice())? {
        None => {}
        Some(place) => return Ok(broken_at(AdaRule::G6, place)),
    }
    Ok(None)
}

/// The name of the unit at a place, where there is one.
fn unit_name(
    alloc: Global,
    program: &AdaProgram,
    place: Option<usize>,
) -> Result<Option<Name>, NoMemory>
    ensures { IfOk result (λ n. n ≡ name_at (program_of program.now) (site_of place)) }
{
    match place {
        None => Ok(None),
        Some(place) => match program.units.as_slice().get(place) {
            None => Ok(None),
            Some(unit) => Ok(Some(unit.name.copy(alloc)?)),
        },
    }
}

/// Whether a program that was read meets the rules.
///
/// Each other answer is the first rule that is broken, by number, and the first unit that breaks it, in order; what is wrong with the
/// costs, the number of tasks or the number of units goes before all units. `NoMemory` may come wherever memory is asked for.
pub fn check_program(alloc: Global, program: &AdaProgram) -> Result<(), RuleBreak>
    ensures { Says (program_of program.now) result }
{
    match find_broken(alloc, program)? {
        None => Ok(()),
        Some(found) => {
            let unit = unit_name(alloc, program, found.place)?;
            Err(RuleBreak::Rule {
                rule: found.rule,
                unit,
            })
        }
    }
}
