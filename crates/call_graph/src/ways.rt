ghost use Rattle.std.specs.Prelude.{◌≡◌, ◌&&◌, ◌||◌, IfOk, IfSome, OnOk, false, is_some, map, not, option_map};
ghost use Rattle.std.specs.List.{list_any};
ghost use Rattle.seq_tree.specs.Calls.{same_op};
ghost use Rattle.seq_tree.specs.declared.tree.OpName.{OpName};
ghost use Rattle.name_sets.specs.Sets.{has_op};
ghost use Rattle.seq_cost.specs.Different.{call_of};
ghost use Rattle.call_graph.specs.Once.{caller_of, depth_at, fits, from_at, is_from, is_next, misfits, repeats};

use name_sets::{OpTable, Ops};
use seq_cost::Call;
use seq_tree::NoMemory;
use std::alloc::Global;

/// What makes calls, and what these are, each as often as it is to be counted.
#[derive(Drop)]
pub struct Caller<'a> {
    /// The operation whose body makes the calls, none where it is a thread.
    pub from: Option<Call<'a>>,
    /// What is called.
    pub calls: Vec<Call<'a>>,
}

/// Ways by the names of operations: how many calls deep each is, and from which caller it comes, where that is no thread.
#[derive(Drop)]
pub struct Ways<'a> {
    depths: OpTable<'a, u32>,
    froms: OpTable<'a, Call<'a>>,
}

impl<'a> Ways<'a> {
    /// No ways.
    fn new(alloc: Global) -> Ways<'a> {
        Ways {
            depths: OpTable::new(alloc),
            froms: OpTable::new(alloc),
        }
    }

    /// Whether an operation has a way.
    pub fn has(&self, op: &Call<'_>) -> bool
        ensures { result ≡ is_some (depth_at self.now (call_of op.now)) }
    {
        self.depths.get(op.object, op.op).is_some()
    }

    /// Whether the way of an operation comes from this caller.
    fn is_from(&self, op: &Call<'_>, caller: &Call<'_>) -> bool
        ensures { result ≡ is_from (from_at self.now (call_of op.now)) (call_of caller.now) }
    {
        match self.froms.get(op.object, op.op) {
            None => false,
            Some(from) => {
                from.object.bytes() == caller.object.bytes() && from.op.bytes() == caller.op.bytes()
            }
        }
    }

    /// Whether a depth is that of a call more than the way of this caller.
    fn is_next(&self, caller: &Call<'_>, depth: u32) -> bool
        ensures { result ≡ is_next (depth_at self.now (call_of caller.now)) depth }
    {
        match self.depths.get(caller.object, caller.op) {
            None => false,
            Some(before) => u64::from(before) + 1 == u64::from(depth),
        }
    }

    /// Whether the way of what is called, where it has one, comes from this caller.
    fn fits(&self, from: &Option<Call<'_>>, op: &Call<'_>) -> bool
        ensures { result ≡ fits (depth_at self.now) (from_at self.now) (option_map call_of from.now) (call_of op.now) }
    {
        let Some(depth) = self.depths.get(op.object, op.op) else {
            return true;
        };
        match from {
            None => depth == 0,
            Some(caller) => self.is_from(op, caller) && self.is_next(caller, depth),
        }
    }

    /// Whether the way of one of these doesn't.
    fn any_misfit(&self, from: &Option<Call<'_>>, calls: &[Call<'_>]) -> bool
        ensures { result ≡ list_any (λ k. not (fits (depth_at self.now) (from_at self.now) (option_map call_of from.now) k)) (map call_of calls.now) }
    {
        'calls: for op in calls {
            if !self.fits(from, op) {
                return true;
            }
        }
        false
    }

    /// Whether an operation that has a way was seen; now it is.
    fn sees(&self, alloc: Global, seen: &mut Ops<'a>, op: &Call<'a>) -> Result<bool, NoMemory>
        ensures again { IfOk result (λ b. b ≡ (is_some (depth_at self.now (call_of op.entry.now)) && has_op seen.old (call_of op.entry.now))) }
        ensures seen { OnOk result ((n : OpName) → has_op seen.new n
            ≡ ((is_some (depth_at self.now (call_of op.entry.now)) && same_op (call_of op.entry.now) n) || has_op seen.old n)) }
    {
        if !self.has(op) {
            return Ok(false);
        }
        let again = seen.has(op.object, op.op);
        seen.add(alloc, op.object, op.op)?;
        Ok(again)
    }

    /// Whether one of these that has a way is called again.
    fn repeats(&self, alloc: Global, calls: &[Call<'a>]) -> Result<bool, NoMemory>
        ensures { IfOk result (λ b. b ≡ repeats (λ k. is_some (depth_at self.now k)) (λ n. false) (map call_of calls.entry.now)) }
    {
        let mut seen = Ops::new(alloc);
        'calls: for op in calls {
            if self.sees(alloc, &mut seen, op)? {
                return Ok(true);
            }
        }
        Ok(false)
    }

    /// Whether these ways don't fit a caller.
    fn misfits(&self, alloc: Global, caller: &Caller<'a>) -> Result<bool, NoMemory>
        ensures { IfOk result (λ b. b ≡ misfits self.now (caller_of caller.entry.now)) }
    {
        let calls = caller.calls.as_slice();
        if self.any_misfit(&caller.from, calls) {
            return Ok(true);
        }
        self.repeats(alloc, calls)
    }

    /// Whether these ways don't fit one of these callers.
    fn misfit_one(&self, alloc: Global, callers: &[Caller<'a>]) -> Result<bool, NoMemory>
        ensures { IfOk result (λ b. b ≡ list_any (misfits self.now) (map caller_of callers.entry.now)) }
    {
        'callers: for caller in callers {
            if self.misfits(alloc, caller)? {
                return Ok(true);
            }
        }
        Ok(false)
    }
}

/// How often operations are called.
fn counts_of<'a>(alloc: Global, callers: &[Caller<'a>]) -> Result<OpTable<'a, u32>, NoMemory> {
    let mut counts = OpTable::new(alloc);
    'callers: for caller in callers {
        'calls: for op in &caller.calls {
            let count: u32 = counts.get(op.object, op.op).unwrap_or(0);
            counts.put(alloc, op.object, op.op, count.saturating_add(1))?;
        }
    }
    Ok(counts)
}

/// The places of callers by their names.
fn places_of<'a>(
    alloc: Global,
    callers: &[Caller<'a>],
) -> Result<OpTable<'a, Vec<usize>>, NoMemory> {
    let mut places = OpTable::new(alloc);
    'callers: for (place, caller) in callers.iter().enumerate() {
        if let Some(from) = caller.from {
            let more = vec![in alloc; place]?;
            places.extend(alloc, from.object, from.op, more)?;
        }
    }
    Ok(places)
}

/// A caller that is to be followed, and how deep what it calls is.
#[derive(Clone, Copy)]
struct Due {
    place: usize,
    depth: u32,
}

/// The threads among callers.
fn threads_of(alloc: Global, callers: &[Caller<'_>]) -> Result<Vec<Due>, NoMemory> {
    let mut due = Vec::new(alloc);
    'callers: for (place, caller) in callers.iter().enumerate() {
        if caller.from.is_none() {
            due.push(Due { place, depth: 0 })?;
        }
    }
    Ok(due)
}

/// Takes up the callers at these places.
fn take_up(due: &mut Vec<Due>, places: &[usize], depth: u32) -> Result<(), NoMemory> {
    'places: for place in places {
        due.push(Due {
            place: *place,
            depth,
        })?;
    }
    Ok(())
}

/// What ways are looked for in.
#[derive(Drop)]
struct Search<'a> {
    counts: OpTable<'a, u32>,
    places: OpTable<'a, Vec<usize>>,
    due: Vec<Due>,
    ways: Ways<'a>,
}

impl<'a> Search<'a> {
    /// Gives what is called a way, where it is called once and has none, and takes up the callers of its name.
    fn find(
        &mut self,
        alloc: Global,
        from: &Option<Call<'a>>,
        op: &Call<'a>,
        depth: u32,
    ) -> Result<(), NoMemory> {
        let once = self.counts.get(op.object, op.op).unwrap_or(0) == 1;
        if !once || self.ways.has(op) {
            return Ok(());
        }
        self.ways.depths.put(alloc, op.object, op.op, depth)?;
        if let Some(caller) = from {
            self.ways.froms.put(alloc, op.object, op.op, *caller)?;
        }
        match self.places.find(op.object, op.op) {
            None => Ok(()),
            Some(places) => take_up(&mut self.due, places.as_slice(), depth.saturating_add(1)),
        }
    }

    /// Follows the calls of a caller.
    fn follow(&mut self, alloc: Global, caller: &Caller<'a>, depth: u32) -> Result<(), NoMemory> {
        'calls: for op in &caller.calls {
            self.find(alloc, &caller.from, op, depth)?;
        }
        Ok(())
    }

    /// Follows callers as long as one is due; each is once at most.
    fn follow_all(&mut self, alloc: Global, callers: &[Caller<'a>]) -> Result<(), NoMemory> {
        'due: for _ in 0..callers.len() {
            let Some(due) = self.due.pop() else {
                return Ok(());
            };
            if let Some(caller) = callers.get(due.place) {
                self.follow(alloc, caller, due.depth)?;
            }
        }
        Ok(())
    }
}

/// The ways from threads to all that is called once, as far as they lead on by what is. Whoever rests on them looks whether they fit, so
/// that nothing is promised here.
fn found_ways<'a>(alloc: Global, callers: &[Caller<'a>]) -> Result<Ways<'a>, NoMemory> {
    let mut search = Search {
        counts: counts_of(alloc, callers)?,
        places: places_of(alloc, callers)?,
        due: threads_of(alloc, callers)?,
        ways: Ways::new(alloc),
    };
    search.follow_all(alloc, callers)?;
    Ok(search.ways)
}

/// The ways from threads to what is called once, which fit all these callers; none where they don't. The time grows as the calls do.
pub fn ways_of<'a>(alloc: Global, callers: &[Caller<'a>]) -> Result<Option<Ways<'a>>, NoMemory>
    ensures { IfOk result (λ o. IfSome o (λ w. list_any (misfits w) (map caller_of callers.entry.now) ≡ false)) }
{
    let ways = found_ways(alloc, callers)?;
    if ways.misfit_one(alloc, callers)? {
        return Ok(None);
    }
    Ok(Some(ways))
}
