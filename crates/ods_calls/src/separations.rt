ghost use Rattle.std.specs.Prelude.{◌≡◌, filter_map, flat_map, map, nat_lt};
ghost use Rattle.std.specs.List.{list_any};
ghost use Rattle.ods_tree.specs.Trees.{design_of};
ghost use Rattle.design_rules.specs.Rings.{thread_objects};
ghost use Rattle.design_rules.specs.Rules.{Spacing};
ghost use Rattle.design_rules.specs.Separations.{bad_separations, spacing};
ghost use Rattle.ods_index.specs.Indexing.{IsIndex};
ghost use Rattle.ods_index.specs.Judging.{PassesBefore, Tells, head_of};
ghost use Rattle.ods_calls.specs.Spacings.{greatest_separation, separation_in, spaced};
ghost use Rattle.ods_calls.specs.Spotted.{marked, spot_in};
ghost use Rattle.ods_calls.specs.Spreading.{reaches};
ghost use Rattle.ods_calls.specs.Starting.{Thread};
ghost use Rattle.ods_index.specs.Walking.{object_of};

use crate::spots::{Spots, is_marked};
use crate::starts::{Starts, threads_of};
use ods_index::{Broken, Index, attribute_or_0, is_sporadic};
use ods_tree::{AttrKey, Kind, Node};
use std::alloc::Global;

/// The period or separation of a thread, in ticks.
#[tactic(auto, using(ods_index::proofs::Shared::WalkSteps::node_steps))]
fn spacing(node: &Node) -> u32
    ensures { result ≡ spacing (object_of node.now) }
{
    match node.kind {
        Kind::Sporadic => attribute_or_0(node, AttrKey::Separation),
        Kind::Passive => attribute_or_0(node, AttrKey::Period),
        Kind::Active => attribute_or_0(node, AttrKey::Period),
        Kind::Protected => attribute_or_0(node, AttrKey::Period),
        Kind::Cyclic => attribute_or_0(node, AttrKey::Period),
    }
}

/// The separation of a sporadic thread, in ticks, and 0 of another.
#[tactic(auto, using(ods_index::proofs::Shared::WalkSteps::node_steps))]
fn separation_in(node: &Node) -> u32
    ensures { result ≡ separation_in (object_of node.now) }
{
    if !is_sporadic(node.kind) {
        return 0;
    }
    attribute_or_0(node, AttrKey::Separation)
}

/// The greatest separation of these threads. One that comes no more often than that starts none too often, whatever it reaches.
fn greatest_separation(threads: &[&Node]) -> u32
    ensures { result ≡ greatest_separation (map (λ t. object_of t.now) threads.now) }
{
    let mut greatest: u32 = 0;
    'threads: for node in threads {
        greatest = greatest.max(separation_in(node));
    }
    greatest
}

/// Whether one of these threads comes more often than that.
fn any_closer(threads: &[&Node], greatest: u32) -> bool
    ensures { result ≡ list_any (λ f. nat_lt (spacing f) greatest) (map (λ t. object_of t.now) threads.now) }
{
    'threads: for node in threads {
        if spacing(node) < greatest {
            return true;
        }
    }
    false
}

/// Tells a thread that starts another, which is marked, more often than its separation allows.
#[tactic(auto, using(ods_index::proofs::Shared::WalkSteps::node_steps))]
fn target_fits(
    alloc: Global,
    from: &Node,
    spots: &Spots<'_>,
    reached: &[bool],
    to: &Node,
) -> Result<(), Broken>
    ensures { Tells result (spaced (λ n. marked reached.now (spot_in spots.now (Thread n))) (object_of from.now) (object_of to.now)) }
{
    if !is_sporadic(to.kind) || !is_marked(reached, spots.thread(&to.name)) {
        return Ok(());
    }
    let period = spacing(from);
    let separation = attribute_or_0(to, AttrKey::Separation);
    if period < separation {
        return Err(Broken::V16 {
            starter: from.name.copy(alloc)?,
            period,
            target: to.name.copy(alloc)?,
            separation,
        });
    }
    Ok(())
}

/// Tells the first of these threads that another starts more often than its separation allows.
#[tactic(auto, using(ods_index::proofs::Shared::TellSteps::tell_steps))]
fn targets_fit(
    alloc: Global,
    from: &Node,
    spots: &Spots<'_>,
    reached: &[bool],
    threads: &[&Node],
) -> Result<(), Broken>
    ensures { Tells result (head_of (filter_map (spaced (λ n. marked reached.now (spot_in spots.now (Thread n))) (object_of from.now))
        (map (λ t. object_of t.now) threads.now))) }
{
    'threads: for to in threads {
        target_fits(alloc, from, spots, reached, to)?;
    }
    Ok(())
}

/// Tells the first thread that this one starts more often than its separation allows. What it reaches is searched only where it comes more
/// often than the greatest separation.
fn starter_fits<'a>(
    alloc: Global,
    starts: &Starts<'_, 'a>,
    threads: &[&'a Node],
    greatest: u32,
    from: &'a Node,
) -> Result<(), Broken>
    requires greatest { greatest ≡ greatest_separation (map (λ t. object_of t.now) threads.now) }
    requires all { map (λ t. object_of t.now) threads.now ≡ thread_objects (design_of starts.now.links.now.design.now) }
    ensures { Tells result (head_of
        (filter_map (spaced (reaches (design_of starts.now.links.now.design.now) (object_of from.entry.now)) (object_of from.entry.now))
        (map (λ t. object_of t.now) threads.entry.now))) }
{
    if greatest <= spacing(from) {
        return Ok(());
    }
    let reached = starts.reached(alloc, from)?;
    targets_fit(alloc, from, &starts.spots, reached.as_slice(), threads)
}

/// Tells the first of these threads that starts another more often than its separation allows.
#[tactic(auto, using(ods_index::proofs::Shared::TellSteps::tell_steps))]
fn starters_fit<'a>(
    alloc: Global,
    starts: &Starts<'_, 'a>,
    threads: &[&'a Node],
    greatest: u32,
) -> Result<(), Broken>
    requires greatest { greatest ≡ greatest_separation (map (λ t. object_of t.now) threads.now) }
    requires all { map (λ t. object_of t.now) threads.now ≡ thread_objects (design_of starts.now.links.now.design.now) }
    ensures { Tells result (head_of
        (flat_map (λ f. filter_map (spaced (reaches (design_of starts.now.links.now.design.now) f) f)
        (map (λ t. object_of t.now) threads.entry.now)) (map (λ t. object_of t.now) threads.entry.now))) }
{
    'threads: for from in threads {
        starter_fits(alloc, starts, threads, greatest, from)?;
    }
    Ok(())
}

/// V16: tells the first thread, and of what it starts the first, that it starts more often than the separation of that allows.
pub fn first_bad_spacing(alloc: Global, index: &Index<'_>) -> Result<(), Broken>
    requires indexed { IsIndex index.now }
    requires before { PassesBefore (design_of index.now.design.now) Spacing }
    ensures { Tells result (head_of (bad_separations (design_of index.entry.now.design.now))) }
{
    let nodes = threads_of(alloc, index.objects.as_slice())?;
    let threads = nodes.as_slice();
    let greatest = greatest_separation(threads);
    if !any_closer(threads, greatest) {
        return Ok(());
    }
    let starts = Starts::new(alloc, index, threads)?;
    starters_fit(alloc, &starts, threads, greatest)
}
