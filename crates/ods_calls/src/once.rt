ghost use Rattle.std.specs.Prelude.{◌≡◌, ◌≤◌, ◌∷◌, ◌++◌, [], true, IfOk, OnOk, filter, flat_map, fold, length, map, max};
ghost use Rattle.seq_tree.specs.Names.{Name as NameTree};
ghost use Rattle.call_graph.specs.Once.{caller_of};
ghost use Rattle.seq_cost.specs.Different.{call_of};
ghost use Rattle.ods_tree.specs.Trees.{design_of};
ghost use Rattle.design_rules.specs.Sources.{requests_by};
ghost use Rattle.ods_index.specs.Calling.{calls_of, design_calls};
ghost use Rattle.ods_index.specs.Walking.{object_of};
ghost use Rattle.ods_calls.specs.Reaching.{thread_of};
ghost use Rattle.ods_calls.specs.Singles.{has_way, is_once, threads_caller};
ghost use Rattle.ods_calls.specs.Keys.{thread_keys};
ghost use Rattle.ods_calls.specs.Spreading.{reaches};

use crate::keys::{add_callers, targets_of, thread_keys};
use call_graph::{Caller, Ways, ways_of};
use name_sets::Places;
use ods_index::{Links, OpCalls};
use ods_tree::Node;
use seq_cost::Call;
use seq_tree::{Name, NoMemory};
use std::alloc::Global;

/// Adds the names of what the thread of an object calls.
#[tactic(auto, using(crate::proofs::LoopEnds::added_laws))]
fn add_thread<'a>(
    alloc: Global,
    targets: &Places<'a>,
    links: &Links<'a>,
    node: &'a Node,
    into: &mut Vec<Call<'a>>,
) -> Result<(), NoMemory>
    ensures { OnOk result (map call_of into.new.items ≡ map call_of into.old.items
        ++ thread_keys targets.now (design_of links.now.design.now) (object_of node.entry.now)) }
{
    let keys = thread_keys(alloc, targets, links, node)?;
    into.extend_from_slice(keys.as_slice())?;
    Ok(())
}

/// Adds the names of what threads call.
fn add_threads<'a>(
    alloc: Global,
    targets: &Places<'a>,
    links: &Links<'a>,
    threads: &[&'a Node],
    into: &mut Vec<Call<'a>>,
) -> Result<(), NoMemory>
    ensures { OnOk result (map call_of into.new.items ≡ map call_of into.old.items
        ++ flat_map (thread_keys targets.now (design_of links.now.design.now)) (map thread_of threads.entry.now)) }
{
    'threads: for node in threads {
        add_thread(alloc, targets, links, node, into)?;
    }
    Ok(())
}

/// What threads call, as if they were one.
fn threads_caller<'a>(
    alloc: Global,
    targets: &Places<'a>,
    links: &Links<'a>,
    threads: &[&'a Node],
) -> Result<Caller<'a>, NoMemory>
    ensures { IfOk result (λ c. caller_of c
        ≡ threads_caller targets.now (design_of links.now.design.now) (map thread_of threads.entry.now)) }
{
    let mut calls = Vec::new(alloc);
    add_threads(alloc, targets, links, threads, &mut calls)?;
    Ok(Caller { from: None, calls })
}

/// Adds threads, as if they were one.
fn add_threads_caller<'a>(
    alloc: Global,
    targets: &Places<'a>,
    links: &Links<'a>,
    threads: &[&'a Node],
    into: &mut Vec<Caller<'a>>,
) -> Result<(), NoMemory>
    ensures { OnOk result (map caller_of into.new.items ≡ map caller_of into.old.items
        ++ threads_caller targets.now (design_of links.now.design.now) (map thread_of threads.entry.now) ∷ []) }
{
    let caller = threads_caller(alloc, targets, links, threads)?;
    into.push(caller)?;
    Ok(())
}

/// The sporadic threads that one thread alone reaches, and that no path of an activation requests twice, as far as that shows by each call
/// being the only one: looking for these takes as long as there are calls, and counting the requests of each thread by itself as long as
/// there are ways to it.
#[derive(Drop)]
pub(crate) struct Once<'a> {
    targets: Places<'a>,
    ways: Option<Ways<'a>>,
}

impl<'a> Once<'a> {
    /// Whether a target has a way.
    fn has_way(&self, name: &Name) -> bool
        ensures { result ≡ has_way self.now.ways name.now }
    {
        match &self.ways {
            None => false,
            Some(ways) => ways.has(&Call {
                object: name,
                op: name,
            }),
        }
    }

    /// Whether a thread is one of these.
    pub(crate) fn has(&self, name: &Name) -> bool
        ensures { result ≡ is_once self.now name.now }
    {
        match self.targets.get(name) {
            None => false,
            Some(_) => self.has_way(name),
        }
    }

    /// Those of these threads, by what all bodies call.
    pub(crate) fn new(
        alloc: Global,
        links: &Links<'a>,
        calls: &[OpCalls<'a>],
        threads: &[&'a Node],
    ) -> Result<Once<'a>, NoMemory>
        requires { map calls_of calls.now ≡ design_calls (design_of links.now.design.now) }
        ensures starts { IfOk result (λ t. (n : NameTree) → is_once t n ≡ true
            → fold max 0 (map (requests_by (design_of links.now.design.now) n) (map thread_of threads.entry.now)) ≤ 1) }
        ensures sources { IfOk result (λ t. (n : NameTree) → is_once t n ≡ true
            → length (filter (λ o. reaches (design_of links.now.design.now) o n) (map thread_of threads.entry.now)) ≤ 1) }
    {
        let targets = targets_of(alloc, threads)?;
        let mut callers = Vec::new(alloc);
        add_callers(alloc, &targets, links, calls, &mut callers)?;
        add_threads_caller(alloc, &targets, links, threads, &mut callers)?;
        let ways = ways_of(alloc, callers.as_slice())?;
        Ok(Once { targets, ways })
    }
}
