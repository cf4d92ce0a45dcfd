ghost use Rattle.std.specs.Prelude.{◌≡◌, ◌<◌, ◌≤◌, ◌+◌, ◌||◌, ◌&&◌, ◌++◌, ◌∷◌, [], ◌==◌, ℕ, true, None, Some, IfOk, OnOk, filter, filter_map, fold};
ghost use Rattle.std.specs.Prelude.{length};
ghost use Rattle.std.specs.Prelude.{is_some, map, max, min, nat_le, not, option_to_list};
ghost use Rattle.seq_tree.specs.Names.{same_name};
ghost use Rattle.seq_tree.specs.declared.tree.OpName.{OpName as OpTree};
ghost use Rattle.ods_tree.specs.Attributes.{attribute};
ghost use Rattle.ods_tree.specs.Trees.{design_of};
ghost use Rattle.ods_tree.specs.Walk.{objects, only_if};
ghost use Rattle.ods_tree.specs.declared.design.AttrKey.TheVariants.{ArrivalJitter};
ghost use Rattle.design_rules.specs.Broken.{V10};
ghost use Rattle.design_rules.specs.Lookups.{is_sporadic};
ghost use Rattle.design_rules.specs.Rings.{terminal_ops, thread_objects};
ghost use Rattle.design_rules.specs.Rules.{Fitting, Source};
ghost use Rattle.design_rules.specs.Sources.{bad_sources, requests_by, source_count, starts_within};
ghost use Rattle.ods_index.specs.Indexing.{IsIndex};
ghost use Rattle.ods_index.specs.Judging.{Passes, PassesBefore, Tells, head_of};
ghost use Rattle.ods_calls.specs.Reaching.{AreRight, AreShown, reacher_of, thread_of};
ghost use Rattle.ods_calls.specs.Requested.{Knows, block_count, source_fault};
ghost use Rattle.ods_calls.specs.Singles.{is_once};
ghost use Rattle.ods_calls.specs.Sourced.{any_leads, reaches_by};
ghost use Rattle.ods_calls.specs.Spotted.{marked, spot_in};
ghost use Rattle.ods_calls.specs.Starting.{Op, Thread};
ghost use Rattle.ods_calls.specs.Spreading.{reaches};
ghost use Rattle.ods_index.specs.Walking.{object_of};
ghost use Rattle.seq_cost.specs.Different.{call_of};

use crate::bodies::{Bodies, table_of};
use crate::callers::Callers;
use crate::keys::any_sporadic;
use crate::once::Once;
use crate::reacher::Reacher;
use crate::requests::{block_requests, counts_within};
use crate::spots::{Spots, is_marked};
use crate::starts::{Starts, thread_starts, threads_of};
use name_sets::OpTable;
use ods_index::{Broken, Index, Links, attribute, is_sporadic, ops_of};
use ods_tree::{AttrKey, Node};
use rings::Graph;
use seq_cost::Call;
use seq_tree::{Name, NoMemory};
use std::alloc::Global;

/// Whether an operation is one of an object, or is marked.
fn leads(target: &Name, leading: &[bool], spots: &Spots<'_>, op: &Call<'_>) -> bool
    ensures { result ≡ (same_name (call_of op.now).object target.now || marked leading.now (spot_in spots.now (Op (call_of op.now)))) }
{
    op.object.bytes() == target.bytes() || is_marked(leading, spots.op(op))
}

/// Whether one of these does.
fn any_leads(target: &Name, leading: &[bool], spots: &Spots<'_>, ops: &[Call<'_>]) -> bool
    ensures { result ≡ any_leads target.now (λ m. marked leading.now (spot_in spots.now (Op m))) (map call_of ops.now) }
{
    'ops: for op in ops {
        if leads(target, leading, spots, op) {
            return true;
        }
    }
    false
}

/// Adds a thread, where it reaches an object, by the marks of what leads to it.
fn add_reacher<'a>(
    alloc: Global,
    starts: &Starts<'_, 'a>,
    target: &Name,
    leading: &[bool],
    thread: &'a Node,
    into: &mut Vec<Reacher<'a>>,
) -> Result<(), NoMemory>
    ensures { OnOk result (map reacher_of into.new.items ≡ map reacher_of into.old.items
        ++ filter (reaches_by (design_of starts.now.links.now.design.now) target.now
        (λ m. marked leading.now (spot_in starts.now.spots (Op m)))) (object_of thread.entry.now ∷ [])) }
{
    let calls = thread_starts(alloc, starts.links, thread)?;
    if !any_leads(target, leading, &starts.spots, calls.as_slice()) {
        return Ok(());
    }
    into.push(Reacher::new(alloc, thread)?)?;
    Ok(())
}

/// The threads among these that reach an object, by the marks of what leads to it.
fn reachers_by<'a>(
    alloc: Global,
    starts: &Starts<'_, 'a>,
    target: &Name,
    leading: &[bool],
    threads: &[&'a Node],
) -> Result<Vec<Reacher<'a>>, NoMemory>
    ensures { IfOk result (λ v. map reacher_of v.items ≡ filter (reaches_by (design_of starts.now.links.now.design.now) target.now
        (λ m. marked leading.now (spot_in starts.now.spots (Op m)))) (map thread_of threads.entry.now)) }
{
    let mut reachers = Vec::new(alloc);
    'threads: for thread in threads {
        add_reacher(alloc, starts, target, leading, thread, &mut reachers)?;
    }
    Ok(reachers)
}

/// 1 where an object is requested from outside, and else 0.
#[tactic(auto, using(ods_index::proofs::Shared::WalkSteps::node_steps))]
fn outside_count(node: &Node) -> usize
    ensures count { result ≡ length (option_to_list (attribute ArrivalJitter (object_of node.now))) }
    ensures one { result ≤ 1 }
{
    match attribute(node.attrs.as_slice(), AttrKey::ArrivalJitter) {
        None => 0,
        Some(_) => 1,
    }
}

/// How often a thread requests an object on one path at most, told as 2 where it is more.
#[tactic(auto, using(ods_index::proofs::Shared::WalkSteps::node_steps))]
fn requests_in<'a>(
    alloc: Global,
    links: &Links<'a>,
    target: &Name,
    known: &OpTable<'a, u32>,
    reacher: &Reacher<'a>,
) -> Result<u32, NoMemory>
    ensures { IfOk result (λ n. (inner : OpTree → ℕ) → Knows known.now inner → n
        ≡ min 2 (fold max 0 (map (block_count (design_of links.now.design.now) target.now inner (reacher_of reacher.entry.now).needs)
        (option_to_list (reacher_of reacher.entry.now).thread)))) }
{
    let node = reacher.thread;
    match &node.thread {
        None => Ok(0),
        Some(block) => block_requests(alloc, links, &reacher.needs, target, known, block),
    }
}

/// The greatest of what threads request so.
fn most_requests<'a>(
    alloc: Global,
    links: &Links<'a>,
    target: &Name,
    known: &OpTable<'a, u32>,
    reachers: &[Reacher<'a>],
) -> Result<u32, NoMemory>
    requires { Knows known.now (starts_within (length (terminal_ops (design_of links.now.design.now))) (design_of links.now.design.now) target.now) }
    ensures { IfOk result (λ n. n
        ≡ min 2 (fold max 0 (map (requests_by (design_of links.now.design.now) target.now) (map reacher_of reachers.entry.now)))) }
{
    let mut greatest: u32 = 0;
    'reachers: for reacher in reachers {
        let count = requests_in(alloc, links, target, known, reacher)?;
        greatest = greatest.max(count);
    }
    Ok(greatest)
}

/// The number of sources, inside and outside.
fn sum_of(inside: usize, outside: usize) -> u32
    requires { inside + outside < 4294967296 }
    ensures { result ≡ inside + outside }
{
    (inside + outside) as u32
}

/// Tells an object that has not one source, or is requested more than once on a path.
#[tactic(auto, using(ods_index::proofs::Shared::WalkSteps::node_steps))]
fn counts_fit(alloc: Global, node: &Node, sources: u32, starts: u32) -> Result<(), Broken>
    ensures { Tells result (only_if (not (sources == 1) || not (nat_le starts 1)) (V10 (object_of node.now).name sources starts)) }
{
    if sources == 1 && starts <= 1 {
        return Ok(());
    }
    Err(Broken::V10 {
        object: node.name.copy(alloc)?,
        sources,
        starts,
    })
}

/// What shows at once of who requests what.
#[derive(Drop)]
struct Shown<'k, 'a> {
    starts: Starts<'k, 'a>,
    threads: Vec<&'a Node>,
    reached: Vec<bool>,
    once: Once<'a>,
}

impl<'k, 'a> Shown<'k, 'a> {
    /// Works out what shows at once, of these threads of a design.
    fn new(
        alloc: Global,
        index: &'k Index<'a>,
        threads: Vec<&'a Node>,
    ) -> Result<Shown<'k, 'a>, NoMemory>
        requires indexed { IsIndex index.now }
        requires threads { map thread_of threads.items ≡ thread_objects (design_of index.now.design.now) }
        requires few { length (objects (design_of index.now.design.now)) < 4294967296 }
        requires fits { Passes (design_of index.now.design.now) Fitting }
        ensures same { IfOk result (λ s. s.starts.links.now.design.now ≡ index.entry.now.design.now) }
        ensures right { IfOk result AreShown }
    {
        let starts = Starts::new(alloc, index, threads.as_slice())?;
        let reached = starts.reached_by_any(alloc, threads.as_slice())?;
        let calls = index.calls.as_slice();
        let once = Once::new(alloc, starts.links, calls, threads.as_slice())?;
        Ok(Shown {
            starts,
            threads,
            reached,
            once,
        })
    }

    /// Whether an object isn't requested from outside, and shows at once that one thread alone reaches it, which requests it once at most.
    #[tactic(auto, using(ods_index::proofs::Shared::WalkSteps::node_steps))]
    fn is_alone(&self, node: &Node, outside: usize) -> bool
        ensures { result ≡ (outside == 0 && is_once self.now.once (object_of node.now).name) }
    {
        outside == 0 && self.once.has(&node.name)
    }

    /// Whether an object, which stands at this place, shows at once that it has one source, and that no path requests it twice.
    #[tactic(auto, using(ods_index::proofs::Shared::WalkSteps::node_steps))]
    fn is_fine_at(&self, node: &Node, place: usize) -> bool
        requires shown { AreShown self.now }
        requires at { spot_in self.now.starts.spots (Thread (object_of node.now).name) ≡ Some place }
        ensures { result ≡ true → source_fault (design_of self.now.starts.links.now.design.now) (object_of node.now) ≡ None }
    {
        let outside = outside_count(node);
        if is_marked(self.reached.as_slice(), Some(place)) {
            return self.is_alone(node, outside);
        }
        outside == 1
    }

    /// Whether that shows of an object, where it has a place.
    #[tactic(auto, using(ods_index::proofs::Shared::WalkSteps::node_steps))]
    fn is_fine(&self, node: &Node) -> bool
        requires { AreShown self.now }
        ensures { result ≡ true → source_fault (design_of self.now.starts.links.now.design.now) (object_of node.now) ≡ None }
    {
        match self.starts.spots.thread(&node.name) {
            None => false,
            Some(place) => self.is_fine_at(node, place),
        }
    }

    /// Whether that is so of a thread, or it isn't sporadic.
    #[tactic(auto, using(ods_index::proofs::Shared::WalkSteps::node_steps))]
    fn is_right(&self, node: &Node) -> bool
        requires { AreShown self.now }
        ensures { result ≡ true → source_fault (design_of self.now.starts.links.now.design.now) (object_of node.now) ≡ None }
    {
        if !is_sporadic(node.kind) {
            return true;
        }
        self.is_fine(node)
    }

    /// Whether that is so of all threads.
    fn all_right(&self) -> bool
        requires { AreShown self.now }
        ensures { result ≡ true
            → filter_map (source_fault (design_of self.now.starts.links.now.design.now)) (map thread_of self.now.threads.items) ≡ [] }
    {
        'threads: for thread in &self.threads {
            if !self.is_right(thread) {
                return false;
            }
        }
        true
    }
}

/// What requests are counted by.
#[derive(Drop)]
struct Requests<'k, 'a> {
    shown: Shown<'k, 'a>,
    bodies: Bodies<'k, 'a>,
    callers: Callers<'a>,
    back: Graph,
    depth: usize,
}

impl<'k, 'a> Requests<'k, 'a> {
    /// Works out what requests are counted by, from what shows at once and what bodies call.
    fn new(
        alloc: Global,
        shown: Shown<'k, 'a>,
        index: &'k Index<'a>,
    ) -> Result<Requests<'k, 'a>, NoMemory>
        requires indexed { IsIndex index.now }
        requires shown { AreShown shown }
        requires same { shown.starts.links.now.design.now ≡ index.now.design.now }
        ensures same { IfOk result (λ r. r.shown.starts.links.now.design.now ≡ shown.entry.starts.links.now.design.now) }
        ensures right { IfOk result AreRight }
    {
        let calls = index.calls.as_slice();
        let bodies = table_of(alloc, calls)?;
        let callers = Callers::of_bodies(alloc, calls)?;
        let back = shown.starts.turned(alloc, calls)?;
        let ops = ops_of(alloc, index.objects.as_slice())?;
        let depth = ops.len();
        Ok(Requests {
            shown,
            bodies,
            callers,
            back,
            depth,
        })
    }

    /// The threads that reach an object, which stands at this place, in order.
    fn reachers_of(
        &self,
        alloc: Global,
        name: &Name,
        place: usize,
    ) -> Result<Vec<Reacher<'a>>, NoMemory>
        requires right { AreRight self.now }
        requires at { spot_in self.now.shown.starts.spots (Thread name.now) ≡ Some place }
        ensures { IfOk result (λ v. map reacher_of v.items
            ≡ filter (λ o. reaches (design_of self.now.shown.starts.links.now.design.now) o name.now)
            (thread_objects (design_of self.now.shown.starts.links.now.design.now))) }
    {
        let target = [place];
        let leading = self.back.reached(alloc, &target)?;
        reachers_by(
            alloc,
            &self.shown.starts,
            name,
            leading.as_slice(),
            self.shown.threads.as_slice(),
        )
    }

    /// The number of sources of an object that is sporadic, by the threads that reach it.
    #[tactic(auto, using(ods_index::proofs::Shared::WalkSteps::node_steps))]
    fn source_count(&self, node: &Node, reachers: &[Reacher<'a>]) -> u32
        requires right { AreRight self.now }
        requires sporadic { is_sporadic (object_of node.now).kind ≡ true }
        requires all { map reacher_of reachers.now
            ≡ filter (λ o. reaches (design_of self.now.shown.starts.links.now.design.now) o (object_of node.now).name)
            (thread_objects (design_of self.now.shown.starts.links.now.design.now)) }
        ensures { result ≡ source_count (design_of self.now.shown.starts.links.now.design.now) (object_of node.now) }
    {
        let inside = reachers.len();
        let outside = outside_count(node);
        sum_of(inside, outside)
    }

    /// The most requests of an object by one of these threads on one path, told as 2 where there are more.
    fn start_count_by(
        &self,
        alloc: Global,
        name: &Name,
        reachers: &[Reacher<'a>],
    ) -> Result<u32, NoMemory>
        requires { AreRight self.now }
        ensures { IfOk result (λ n. n
            ≡ min 2 (fold max 0 (map (requests_by (design_of self.now.shown.starts.links.now.design.now) name.now)
            (map reacher_of reachers.entry.now)))) }
    {
        let links = self.shown.starts.links;
        let known = counts_within(alloc, links, &self.callers, &self.bodies, self.depth, name)?;
        most_requests(alloc, links, name, &known, reachers)
    }

    /// Tells an object that is sporadic, stands at this place and whose sources are wrong, by counting them.
    #[tactic(auto, using(ods_index::proofs::Shared::WalkSteps::node_steps))]
    fn counted_fits(&self, alloc: Global, node: &Node, place: usize) -> Result<(), Broken>
        requires right { AreRight self.now }
        requires at { spot_in self.now.shown.starts.spots (Thread (object_of node.now).name) ≡ Some place }
        requires sporadic { is_sporadic (object_of node.now).kind ≡ true }
        ensures { Tells result (source_fault (design_of self.now.shown.starts.links.now.design.now) (object_of node.now)) }
    {
        let reachers = self.reachers_of(alloc, &node.name, place)?;
        let sources = self.source_count(node, reachers.as_slice());
        let starts = self.start_count_by(alloc, &node.name, reachers.as_slice())?;
        counts_fit(alloc, node, sources, starts)
    }

    /// Tells an object whose sources are wrong.
    #[tactic(auto, using(ods_index::proofs::Shared::WalkSteps::node_steps))]
    fn target_fits(&self, alloc: Global, node: &Node) -> Result<(), Broken>
        requires right { AreRight self.now }
        requires stands { is_some (spot_in self.now.shown.starts.spots (Thread (object_of node.now).name)) ≡ true }
        ensures { Tells result (source_fault (design_of self.now.shown.starts.links.now.design.now) (object_of node.now)) }
    {
        if !is_sporadic(node.kind) {
            return Ok(());
        }
        if self.shown.is_fine(node) {
            return Ok(());
        }
        match self.shown.starts.spots.thread(&node.name) {
            None => Ok(()),
            Some(place) => self.counted_fits(alloc, node, place),
        }
    }

    /// Tells the first object of these whose sources are wrong.
    #[tactic(auto, using(ods_index::proofs::Shared::TellSteps::tell_steps))]
    fn targets_fit(&self, alloc: Global, threads: &[&'a Node]) -> Result<(), Broken>
        requires right { AreRight self.now }
        requires all { map thread_of threads.now ≡ thread_objects (design_of self.now.shown.starts.links.now.design.now) }
        ensures { Tells result
            (head_of (filter_map (source_fault (design_of self.now.shown.starts.links.now.design.now)) (map thread_of threads.now))) }
    {
        'threads: for thread in threads {
            self.target_fits(alloc, thread)?;
        }
        Ok(())
    }
}

/// V10: tells the first sporadic object that has not one source, or that is requested more than once on a path of an activation.
pub fn first_bad_source(alloc: Global, index: &Index<'_>) -> Result<(), Broken>
    requires indexed { IsIndex index.now }
    requires few { length (objects (design_of index.now.design.now)) < 4294967296 }
    requires before { PassesBefore (design_of index.now.design.now) Source }
    ensures { Tells result (head_of (bad_sources (design_of index.entry.now.design.now))) }
{
    let threads = threads_of(alloc, index.objects.as_slice())?;
    if !any_sporadic(threads.as_slice()) {
        return Ok(());
    }
    let shown = Shown::new(alloc, index, threads)?;
    if shown.all_right() {
        return Ok(());
    }
    let requests = Requests::new(alloc, shown, index)?;
    requests.targets_fit(alloc, requests.shown.threads.as_slice())
}
