ghost use Rattle.std.specs.Prelude.{◌≡◌, ◌∷◌, ◌++◌, [], ℕ, None, Some, IfOk, OnOk, filter, flat_map, if◌then◌else◌, map, min};
ghost use Rattle.std.specs.List.{list_any};
ghost use Rattle.seq_tree.specs.Calls.{same_op};
ghost use Rattle.seq_tree.specs.Trees.{block_of};
ghost use Rattle.seq_tree.specs.declared.tree.OpName.{OpName as OpTree};
ghost use Rattle.name_sets.specs.Tables.{at};
ghost use Rattle.seq_cost.specs.Different.{call_of};
ghost use Rattle.ods_tree.specs.Trees.{design_of};
ghost use Rattle.design_rules.specs.Sources.{starts_within};
ghost use Rattle.ods_calls.specs.Requested.{Knows, block_count, bodies_at, call_weight, changes, greatest_count, held_named, held_of, known_in};
ghost use Rattle.ods_calls.specs.Held.{held_bodies};
ghost use Rattle.ods_calls.specs.Requesters.{HasCallers};

use crate::bodies::{Bodies, Body};
use crate::callers::Callers;
use name_sets::OpTable;
use ods_index::{Links, Required};
use seq_cost::{Call, counted_by, written_calls};
use seq_tree::{Block, Name, NoMemory};
use std::alloc::Global;

/// How often a call requests an object, by what is known of protected operations.
fn weight_of<'a>(
    links: &Links<'a>,
    needs: &Required<'a>,
    target: &Name,
    known: &OpTable<'a, u32>,
    call: &Call<'a>,
) -> u32
    ensures { result ≡ call_weight (design_of links.now.design.now) target.now (known_in known.now) needs.now.ops.now (call_of call.entry.now) }
{
    if !needs.has(call) {
        return 0;
    }
    let to = links.resolve(*call);
    if to.object.bytes() == target.bytes() {
        return 1;
    }
    known.get(to.object, to.op).unwrap_or(0)
}

/// How often these calls request an object, by their names as they are written.
fn account_of<'a>(
    alloc: Global,
    links: &Links<'a>,
    needs: &Required<'a>,
    target: &Name,
    known: &OpTable<'a, u32>,
    calls: &[Call<'a>],
) -> Result<OpTable<'a, u32>, NoMemory>
    ensures { IfOk result (λ t. (n : OpTree) → at t n
        ≡ (if list_any (λ c. same_op c n) (map call_of calls.entry.now)
        then Some (call_weight (design_of links.now.design.now) target.now (known_in known.now) needs.now.ops.now n) else None)) }
{
    let mut account = OpTable::new(alloc);
    'calls: for call in calls {
        let count = weight_of(links, needs, target, known, call);
        account.put(alloc, call.object, call.op, count)?;
    }
    Ok(account)
}

/// How often a block requests an object on one path at most, told as 2 where it is more, where what is known of protected
/// operations is cut so too.
pub(crate) fn block_requests<'a>(
    alloc: Global,
    links: &Links<'a>,
    needs: &Required<'a>,
    target: &Name,
    known: &OpTable<'a, u32>,
    block: &'a Block,
) -> Result<u32, NoMemory>
    ensures { IfOk result (λ n. (inner : OpTree → ℕ) → Knows known.now inner → n
        ≡ min 2 (block_count (design_of links.now.design.now) target.now inner needs.now.ops.now (block_of block.entry.now))) }
{
    let calls = written_calls(alloc, block)?;
    let account = account_of(alloc, links, needs, target, known, calls.as_slice())?;
    Ok(counted_by(block, &account))
}

/// The greatest of what these bodies request so.
fn greatest_of<'a>(
    alloc: Global,
    links: &Links<'a>,
    target: &Name,
    known: &OpTable<'a, u32>,
    bodies: &[Body<'_, 'a>],
) -> Result<u32, NoMemory>
    ensures { IfOk result (λ n. (inner : OpTree → ℕ) → Knows known.now inner → n
        ≡ min 2 (greatest_count (design_of links.now.design.now) target.now inner (map held_of bodies.entry.now))) }
{
    let mut greatest: u32 = 0;
    'bodies: for body in bodies {
        let calls = body.calls;
        let count = block_requests(alloc, links, &calls.needs, target, known, calls.block)?;
        greatest = greatest.max(count);
    }
    Ok(greatest)
}

/// How often the bodies of an operation request an object so.
#[tactic(auto, unfolding(crate::specs::Requested::bodies_at))]
fn count_of<'a>(
    alloc: Global,
    links: &Links<'a>,
    target: &Name,
    known: &OpTable<'a, u32>,
    bodies: &Bodies<'_, 'a>,
    op: &Call<'a>,
) -> Result<u32, NoMemory>
    ensures { IfOk result (λ n. (inner : OpTree → ℕ) → Knows known.now inner → n
        ≡ min 2 (greatest_count (design_of links.now.design.now) target.now inner (bodies_at bodies.now (call_of op.entry.now)))) }
{
    match bodies.find(op.object, op.op) {
        None => Ok(0),
        Some(held) => greatest_of(alloc, links, target, known, held.as_slice()),
    }
}

/// How often the bodies of these operations request an object so.
fn counts_of<'a>(
    alloc: Global,
    links: &Links<'a>,
    target: &Name,
    known: &OpTable<'a, u32>,
    bodies: &Bodies<'_, 'a>,
    ops: &[Call<'a>],
) -> Result<OpTable<'a, u32>, NoMemory>
    ensures { IfOk result (λ t. (inner : OpTree → ℕ) → Knows known.now inner → (n : OpTree) → at t n
        ≡ (if list_any (λ c. same_op c n) (map call_of ops.entry.now)
        then Some (min 2 (greatest_count (design_of links.now.design.now) target.now inner (bodies_at bodies.now n))) else None)) }
{
    let mut counts = OpTable::new(alloc);
    'ops: for op in ops {
        let count = count_of(alloc, links, target, known, bodies, op)?;
        counts.put(alloc, op.object, op.op, count)?;
    }
    Ok(counts)
}

/// Whether two tables count differently for an operation.
fn changes<'a>(known: &OpTable<'a, u32>, counts: &OpTable<'a, u32>, op: &Call<'a>) -> bool
    ensures { result ≡ changes known.now counts.now (call_of op.entry.now) }
{
    let before = known.get(op.object, op.op).unwrap_or(0);
    let after = counts.get(op.object, op.op).unwrap_or(0);
    before != after
}

/// Adds an operation for which two tables count differently.
fn add_changed<'a>(
    known: &OpTable<'a, u32>,
    counts: &OpTable<'a, u32>,
    op: &Call<'a>,
    into: &mut Vec<Call<'a>>,
) -> Result<(), NoMemory>
    ensures { OnOk result (map call_of into.new.items ≡ map call_of into.old.items ++ filter (changes known.now counts.now) (call_of op.entry.now ∷ [])) }
{
    if !changes(known, counts, op) {
        return Ok(());
    }
    into.push(*op)?;
    Ok(())
}

/// The operations among these for which two tables count differently.
fn changed_of<'a>(
    alloc: Global,
    known: &OpTable<'a, u32>,
    counts: &OpTable<'a, u32>,
    ops: &[Call<'a>],
) -> Result<Vec<Call<'a>>, NoMemory>
    ensures { IfOk result (λ v. map call_of v.items ≡ filter (changes known.now counts.now) (map call_of ops.entry.now)) }
{
    let mut changed = Vec::new(alloc);
    'ops: for op in ops {
        add_changed(known, counts, op, &mut changed)?;
    }
    Ok(changed)
}

/// Gives these operations the counts of a table.
fn put_counts<'a>(
    alloc: Global,
    known: &mut OpTable<'a, u32>,
    counts: &OpTable<'a, u32>,
    ops: &[Call<'a>],
) -> Result<(), NoMemory>
    ensures { OnOk result ((n : OpTree) → known_in known.new n
        ≡ (if list_any (λ c. same_op c n) (map call_of ops.entry.now) then known_in counts.now n else known_in known.old n)) }
{
    'ops: for op in ops {
        let count = counts.get(op.object, op.op).unwrap_or(0);
        known.put(alloc, op.object, op.op, count)?;
    }
    Ok(())
}

/// How often protected operations request an object on one path at most, told as 2 where it is more, where these call each other
/// at most so deep. Calls are followed one deeper in each turn, and only from what changed in the last one.
pub(crate) fn counts_within<'a>(
    alloc: Global,
    links: &Links<'a>,
    callers: &Callers<'a>,
    bodies: &Bodies<'_, 'a>,
    depth: usize,
    target: &Name,
) -> Result<OpTable<'a, u32>, NoMemory>
    requires named { (n : OpTree) → bodies_at bodies.now n ≡ flat_map (held_named n) (held_bodies (design_of links.now.design.now)) }
    requires called { HasCallers (design_of links.now.design.now) callers.now }
    ensures { IfOk result (λ t. Knows t (starts_within depth (design_of links.now.design.now) target.now)) }
{
    let mut known = OpTable::new(alloc);
    let mut due = callers.of_object(alloc, target)?;
    'levels: for _ in 0..depth {
        if due.is_empty() {
            return Ok(known);
        }
        let counts = counts_of(alloc, links, target, &known, bodies, due.as_slice())?;
        let changed = changed_of(alloc, &known, &counts, due.as_slice())?;
        put_counts(alloc, &mut known, &counts, changed.as_slice())?;
        due = callers.of_ops(alloc, changed.as_slice())?;
    }
    Ok(known)
}
