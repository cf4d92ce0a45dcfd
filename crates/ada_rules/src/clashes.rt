ghost use Rattle.std.specs.Prelude.{◌≡◌, not, ◌||◌, [], IfOk, OnOk, map};
ghost use Rattle.seq_tree.specs.Names.{Name as NameTree, same_name, is_named};
ghost use Rattle.ada_rules.specs.Clashes.{are_new, clashes_at, clashes_in, clashes_inside, front, inside_after};
ghost use Rattle.ada_rules.specs.Lists.{names_of};
ghost use Rattle.ada_rules.specs.Parts.{body_of, part_of};
ghost use Rattle.name_sets.specs.Sets.{has};

use crate::lists::body_names;
use crate::parts::{BodyView, Part, parts_of};
use name_sets::Names;
use seq_tree::{Name, NoMemory};
use std::alloc::Global;

/// Adds a name, and says whether it was neither taken nor there.
fn add_one<'a>(taken: &Names<'a>, inside: &mut Names<'a>, name: &'a Name) -> Result<bool, NoMemory>
    ensures new { IfOk result (λ new. new ≡ not (has inside.old name.entry.now || has taken.now name.entry.now)) }
    ensures added { OnOk result ((n : NameTree) → has inside.new n ≡ (same_name name.entry.now n || has inside.old n)) }
{
    let is_taken = taken.has(name);
    let is_new = inside.add(name)?;
    Ok(is_new && !is_taken)
}

/// Adds names, and says whether none of them is taken or stands twice.
pub(crate) fn add_new<'a>(
    taken: &Names<'a>,
    inside: &mut Names<'a>,
    names: &[&'a Name],
) -> Result<bool, NoMemory>
    ensures new { IfOk result (λ new. new ≡ are_new (λ n. has inside.old n || has taken.now n) (names_of names.entry.now)) }
    ensures added { OnOk result ((n : NameTree) → has inside.new n ≡ (is_named (names_of names.entry.now) n || has inside.old n)) }
{
    let mut all_new = true;
    'names: for name in names {
        let is_new = add_one(taken, inside, *name)?;
        all_new = all_new & is_new;
    }
    Ok(all_new)
}

/// Whether a name is among these.
fn is_among(names: &[&Name], name: &Name) -> bool
    ensures { result ≡ is_named (names_of names.now) name.now }
{
    'names: for other in names {
        if other.bytes() == name.bytes() {
            return true;
        }
    }
    false
}

/// Leaves the innermost loop.
fn leave(inside: &mut Vec<&Name>)
    ensures { names_of inside.new.items ≡ front (names_of inside.old.items) }
{
    inside.pop();
}

/// Whether a loop begins here whose name is taken, with the loops around what follows.
fn enter<'a>(
    taken: &Names<'a>,
    params: &Names<'a>,
    inside: &mut Vec<&'a Name>,
    part: &Part<'a>,
) -> Result<bool, NoMemory>
    ensures clash { IfOk result (λ b. b ≡ clashes_at (λ n. has params.now n || has taken.now n) (names_of inside.old.items)
        (part_of part.entry.now)) }
    ensures after { OnOk result (names_of inside.new.items ≡ inside_after (names_of inside.old.items) (part_of part.entry.now)) }
{
    match part {
        Part::Loop(name) => {
            let clashes = is_among(inside.as_slice(), *name)
                || params.has(*name)
                || taken.has(*name);
            inside.push(*name)?;
            Ok(clashes)
        }
        Part::LoopEnd => {
            leave(inside);
            Ok(false)
        }
        Part::Work(_) => Ok(false),
    }
}

/// Whether the name of some loop is taken where it begins.
fn loops_clash<'a>(
    alloc: Global,
    taken: &Names<'a>,
    params: &Names<'a>,
    parts: &[Part<'a>],
) -> Result<bool, NoMemory>
    ensures { IfOk result (λ b. b ≡ clashes_in (λ n. has params.now n || has taken.now n) [] (map part_of parts.entry.now)) }
{
    let mut inside = Vec::new(alloc);
    'parts: for part in parts {
        if enter(taken, params, &mut inside, part)? {
            return Ok(true);
        }
    }
    Ok(false)
}

/// Whether names clash inside a body.
pub(crate) fn body_clashes<'a>(
    alloc: Global,
    taken: &Names<'a>,
    body: &BodyView<'a>,
) -> Result<bool, NoMemory>
    ensures { IfOk result (λ b. b ≡ clashes_inside (has taken.now) (body_of body.entry.now)) }
{
    let mut inside = Names::new(alloc);
    let names = body_names(alloc, body)?;
    if !add_new(taken, &mut inside, names.as_slice())? {
        return Ok(true);
    }
    let parts = parts_of(alloc, body.block)?;
    loops_clash(alloc, taken, &inside, parts.as_slice())
}
