ghost use Rattle.std.specs.Prelude.{◌≡◌, ◌||◌, true, not, IfOk, OnOk, map};
ghost use Rattle.std.specs.List.{list_any};
ghost use Rattle.seq_tree.specs.Names.{Name as NameTree, same_name, is_named};
ghost use Rattle.ada_tree.specs.Naming.{breaks_naming, calls_of, inner_names};
ghost use Rattle.ada_tree.specs.Trees.{form_of, program_of, unit_of};
ghost use Rattle.ada_rules.specs.Clashes.{clashes_inside};
ghost use Rattle.ada_rules.specs.Firsts.{IsFirst};
ghost use Rattle.ada_rules.specs.Lists.{names_of};
ghost use Rattle.ada_rules.specs.Parts.{body_of};
ghost use Rattle.name_sets.specs.Sets.{has, has_op};
ghost use Rattle.ada_rules.specs.UnitTests.{breaks_names, unit_clashes};

use crate::clashes::{add_new, body_clashes};
use crate::lists::{calls_of, inner_names, own_names};
use crate::ops::{Offered, any_missing, ops_of};
use crate::parts::{BodyView, bodies_of};
use ada_tree::{AdaProgram, Form, Unit};
use name_sets::{Names, Ops};
use seq_tree::{Name, NoMemory};
use std::alloc::Global;

/// Whether names clash inside some body.
fn bodies_clash<'a>(
    alloc: Global,
    taken: &Names<'a>,
    bodies: &[BodyView<'a>],
) -> Result<bool, NoMemory>
    ensures { IfOk result (λ b. b ≡ list_any (clashes_inside (has taken.entry.now)) (map body_of bodies.entry.now)) }
{
    'bodies: for body in bodies {
        if body_clashes(alloc, taken, body)? {
            return Ok(true);
        }
    }
    Ok(false)
}

/// Whether names clash inside a unit.
fn unit_clashes<'a>(alloc: Global, form: &'a Form) -> Result<bool, NoMemory>
    ensures { IfOk result (λ b. b ≡ unit_clashes (form_of form.entry.now)) }
{
    let own = own_names(alloc, form)?;
    let nothing = Names::new(alloc);
    let mut taken = Names::new(alloc);
    if !add_new(&nothing, &mut taken, own.as_slice())? {
        return Ok(true);
    }
    let bodies = bodies_of(alloc, form)?;
    bodies_clash(alloc, &taken, bodies.as_slice())
}

/// Whether some of these names is in the set.
fn any_taken(taken: &Names<'_>, names: &[&Name]) -> bool
    ensures { result ≡ list_any (has taken.entry.now) (names_of names.now) }
{
    'names: for name in names {
        if taken.has(*name) {
            return true;
        }
    }
    false
}

/// Whether a unit calls what is not offered.
fn calls_missing<'a>(alloc: Global, offered: &Ops<'a>, form: &'a Form) -> Result<bool, NoMemory>
    ensures { IfOk result (λ b. b ≡ list_any (λ c. not (has_op offered.entry.now c)) (calls_of (form_of form.entry.now))) }
{
    let calls = calls_of(alloc, form)?;
    Ok(any_missing(offered, calls.as_slice()))
}

/// Whether a unit has a name that is taken.
fn is_taken(units: &Names<'_>, inner: &Names<'_>, name: &Name, unit: &Name) -> bool
    ensures { result ≡ (has units.entry.now unit.now || has inner.entry.now unit.now || same_name name.now unit.now) }
{
    units.has(unit) || inner.has(unit) || name.bytes() == unit.bytes()
}

/// Whether a unit breaks the rule of names; its names are added to those of the units before it.
fn breaks_names<'a>(
    alloc: Global,
    units: &mut Names<'a>,
    inner: &mut Names<'a>,
    offered: &Ops<'a>,
    name: &Name,
    unit: &'a Unit,
) -> Result<bool, NoMemory>
    ensures told { IfOk result (λ b. b ≡ breaks_names (has units.old) (has inner.old) (has_op offered.entry.now) name.now (unit_of unit.entry.now)) }
    ensures units { OnOk result ((n : NameTree) → has units.new n ≡ (same_name unit.entry.now.name n || has units.old n)) }
    ensures inner { OnOk result ((n : NameTree) → has inner.new n ≡ (is_named (inner_names (form_of unit.entry.now.form)) n || has inner.old n)) }
{
    let taken = is_taken(units, inner, name, &unit.name);
    let nothing = Names::new(alloc);
    let names = inner_names(alloc, &unit.form)?;
    units.add(&unit.name)?;
    let hides = any_taken(units, names.as_slice());
    let clashes = unit_clashes(alloc, &unit.form)?;
    let missing = calls_missing(alloc, offered, &unit.form)?;
    add_new(&nothing, inner, names.as_slice())?;
    Ok(taken || hides || clashes || missing)
}

/// The place of the first unit that breaks the rule of names.
pub(crate) fn first_by_names<'a>(
    alloc: Global,
    program: &'a AdaProgram,
) -> Result<Option<usize>, NoMemory>
    ensures { IfOk result (IsFirst (λ place u. breaks_naming (program_of program.entry.now) place u
        ≡ true) (map unit_of program.entry.now.units.items)) }
{
    let list = program.units.as_slice();
    let offered = ops_of(alloc, Offered::All, list)?;
    let mut units = Names::new(alloc);
    let mut inner = Names::new(alloc);
    'units: for (place, unit) in list.iter().enumerate() {
        if breaks_names(alloc, &mut units, &mut inner, &offered, &program.name, unit)? {
            return Ok(Some(place));
        }
    }
    Ok(None)
}
