ghost use Rattle.std.specs.Prelude.{◌≡◌, ◌<◌, ◌≤◌, ◌&&◌, flat_map, length, map};
ghost use Rattle.seq_tree.specs.Trees.{block_of};
ghost use Rattle.ods_tree.specs.Ticks.{stated_priorities};
ghost use Rattle.ods_tree.specs.Trees.{body_of, design_of};
ghost use Rattle.ods_tree.specs.Walk.{is_terminal, objects};
ghost use Rattle.design_rules.specs.Broken.{V15Objects, V15Threads};
ghost use Rattle.design_rules.specs.Budgets.{bad_sizes, dear_body, dear_thread, over_limit, thread_limit};
ghost use Rattle.design_rules.specs.Lookups.{has_thread};
ghost use Rattle.ods_calls.specs.Costed.{dear_bodies, dear_parts, threads_among};
ghost use Rattle.ods_calls.specs.Pricing.{priced_design};
ghost use Rattle.ods_index.specs.Indexing.{IsIndex};
ghost use Rattle.ods_index.specs.Judging.{Tells, head_of};
ghost use Rattle.ods_index.specs.Walking.{object_of, standing_of};

use crate::costs::Priced;
use ods_index::{Broken, Index, Standing, has_thread, is_terminal};
use ods_tree::{Design, Node, OpBody};
use seq_tree::{Block, TICK_LIMIT};
use std::alloc::Global;

/// The greatest cost, in ticks.
const GREATEST: u64 = TICK_LIMIT as u64;

/// The most objects of a design.
const MOST_OBJECTS: usize = 500;

/// The priorities that a design states, where it does.
fn priorities_of(design: &Design) -> Option<(u32, u32)>
    ensures { result ≡ stated_priorities (design_of design.now) }
{
    match design.version {
        None => None,
        Some(version) => version.priorities,
    }
}

/// How many threads a design may have: 30, and not more than there are priorities where these are stated.
fn thread_limit(priorities: Option<(u32, u32)>) -> u64
    ensures { result ≡ thread_limit priorities }
{
    match priorities {
        None => 30,
        Some((least, greatest)) => (u64::from(greatest) + 1)
            .saturating_sub(u64::from(least))
            .min(30),
    }
}

/// Whether an object runs by a thread of its own.
fn is_thread(standing: &Standing<'_>) -> bool
    ensures { result ≡ (is_terminal (standing_of standing.now) && has_thread (standing_of standing.now).own.kind) }
{
    is_terminal(standing.node) && has_thread(standing.node.kind)
}

/// How many of these objects do.
#[tactic(auto, using(crate::proofs::SizeSteps::thread_steps))]
fn thread_count(objects: &[Standing<'_>]) -> usize
    ensures count { result ≡ length (threads_among (map standing_of objects.now)) }
    ensures few { result ≤ length objects.now }
{
    let mut count = 0;
    'objects: for standing in objects {
        if is_thread(standing) {
            count += 1;
        }
    }
    count
}

/// Tells threads that are more than there may be.
fn threads_fit(objects: &[Standing<'_>], limit: u64) -> Result<(), Broken>
    requires { length objects.now < 4294967296 }
    ensures { Tells result (head_of
        (over_limit limit (length (threads_among (map standing_of objects.entry.now)))
        (V15Threads (length (threads_among (map standing_of objects.entry.now)))))) }
{
    let count = thread_count(objects);
    if limit < count as u64 {
        return Err(Broken::V15Threads {
            count: count as u32,
        });
    }
    Ok(())
}

/// Tells objects that are more than there may be.
fn count_fits(count: usize) -> Result<(), Broken>
    requires { count < 4294967296 }
    ensures { Tells result (head_of (over_limit 500 count (V15Objects count))) }
{
    if MOST_OBJECTS < count {
        return Err(Broken::V15Objects {
            count: count as u32,
        });
    }
    Ok(())
}

/// Tells the body of an operation that is too dear.
fn body_fits<'a>(
    alloc: Global,
    priced: &Priced<'_, 'a>,
    node: &'a Node,
    body: &'a OpBody,
) -> Result<(), Broken>
    ensures { Tells result (dear_body (design_of priced.now.links.now.design.now) (object_of node.entry.now) (body_of body.entry.now)) }
{
    let cost = priced.body(&body.block);
    if u64::from(cost) > GREATEST {
        return Err(Broken::V15Cost {
            object: node.name.copy(alloc)?,
            part: Some(body.name.copy(alloc)?),
        });
    }
    Ok(())
}

/// Tells a thread that is too dear.
fn activation_fits<'a>(
    alloc: Global,
    priced: &Priced<'_, 'a>,
    node: &'a Node,
    block: &'a Block,
) -> Result<(), Broken>
    ensures { Tells result (dear_thread (design_of priced.now.links.now.design.now) (object_of node.entry.now) (block_of block.entry.now)) }
{
    let cost = u64::from(priced.body(block)) + u64::from(priced.links.design.costs.finish);
    if cost > GREATEST {
        return Err(Broken::V15Cost {
            object: node.name.copy(alloc)?,
            part: None,
        });
    }
    Ok(())
}

/// Tells the first body of an operation of an object that is too dear.
#[tactic(auto, using(ods_index::proofs::Shared::TellSteps::tell_steps))]
fn bodies_fit<'a>(
    alloc: Global,
    priced: &Priced<'_, 'a>,
    node: &'a Node,
    bodies: &'a [OpBody],
) -> Result<(), Broken>
    ensures { Tells result (head_of
        (flat_map (dear_bodies (design_of priced.now.links.now.design.now) (object_of node.entry.now)) (map body_of bodies.entry.now))) }
{
    'bodies: for body in bodies {
        body_fits(alloc, priced, node, body)?;
    }
    Ok(())
}

/// Tells the first part of an object that is too dear: the bodies of its operations, then its thread.
#[tactic(auto, using(ods_index::proofs::Shared::TellSteps::tell_steps))]
fn parts_fit<'a>(
    alloc: Global,
    priced: &Priced<'_, 'a>,
    standing: &Standing<'a>,
) -> Result<(), Broken>
    ensures { Tells result (head_of (dear_parts (design_of priced.now.links.now.design.now) (standing_of standing.entry.now))) }
{
    let node = standing.node;
    if !is_terminal(node) {
        return Ok(());
    }
    bodies_fit(alloc, priced, node, node.bodies.as_slice())?;
    match &node.thread {
        None => Ok(()),
        Some(block) => activation_fits(alloc, priced, node, block),
    }
}

/// Tells the first part of these objects that is too dear.
#[tactic(auto, using(ods_index::proofs::Shared::TellSteps::tell_steps))]
pub(crate) fn costs_fit<'a>(
    alloc: Global,
    priced: &Priced<'_, 'a>,
    objects: &[Standing<'a>],
) -> Result<(), Broken>
    ensures { Tells result (head_of (flat_map (dear_parts (design_of priced.now.links.now.design.now)) (map standing_of objects.entry.now))) }
{
    'objects: for standing in objects {
        parts_fit(alloc, priced, standing)?;
    }
    Ok(())
}

/// V15: tells what is too large, by what the blocks of the design cost: more threads than there may be, then more objects, then the first part
/// of an object that is too dear.
#[tactic(auto, using(ods_index::proofs::Shared::TellSteps::tell_steps))]
pub fn first_bad_size<'a>(
    alloc: Global,
    index: &Index<'a>,
    priced: &Priced<'_, 'a>,
) -> Result<(), Broken>
    requires indexed { IsIndex index.now }
    requires few { length (objects (design_of index.now.design.now)) < 4294967296 }
    requires same { priced_design priced.now ≡ design_of index.now.design.now }
    ensures { Tells result (head_of (bad_sizes (design_of index.entry.now.design.now))) }
{
    let objects = index.objects.as_slice();
    let limit = thread_limit(priorities_of(index.design));
    threads_fit(objects, limit)?;
    count_fits(objects.len())?;
    costs_fit(alloc, priced, objects)
}
