ghost use Rattle.std.specs.Prelude.{◌≡◌, ◌<◌, ◌≤◌, ◌+◌, ◌++◌, List, length, [], true, false, Some, option_map, map, ◌==◌};
ghost use Rattle.ada_tree.specs.Ranges.{costs_break};
ghost use Rattle.link_queue.specs.Queues.{Each, IsFree};
ghost use Rattle.std.specs.Prelude.{◌^◌, ◌-◌, ◌∷◌, suc, ℕ};
ghost use Rattle.seq_tree.specs.Lists.{first_where};
ghost use Rattle.law_dispatching.specs.Jumping.{NoArrival};
ghost use Rattle.ceil_runtime.specs.Starts.{first_slept};
ghost use Rattle.ceil_runtime.specs.Turns.{last_turn};
ghost use Rattle.task_runtime.specs.Tasks.{task_of};
ghost use Rattle.ceil_runtime.specs.Objects.{AreObjectsOf};
ghost use Rattle.ceil_runtime.specs.Processing.{IsBelow, IsWithin};

use crate::buffer::EventBuf;
use crate::object::Object;
use crate::objects::objects_in;
use crate::threads::threads_in;
use ada_tree::{AdaProgram, Unit};
use arrivals_tree::{Arrival, Arrivals};
use link_queue::Links;
use linker::{LinkedUnits, link_units};
use seq_tree::{Costs, NoMemory};
use std::alloc::Global;
use task_runtime::{
    Act, Deed, Entry, Piece, Readiness, Section, Task, Thread, Timing, ceiling_of, rooms_of,
    task_room,
};
use trace_tree::Event;

/// What an advance of the machine came to.
#[derive(Clone, Copy, Debug, PartialEq, Eq)]
pub enum Turn {
    /// The run goes on.
    More,
    /// The run has come to the horizon, which is the last event told.
    Horizon,
    /// At this time, in ticks, the task at this place among the units called the object at that place with an active
    /// priority above the object's ceiling. The run has stopped, and the stop is the last event told.
    CeilingViolation {
        time: u64,
        task: u32,
        object: u32,
        priority: u32,
        ceiling: u32,
    },
}

/// The answer to the last event of a run: the horizon, or the stop at a ceiling.
fn turn_of(event: &Event) -> Turn
    ensures { result ≡ last_turn event.now }
{
    match event {
        Event::Stop {
            time,
            task,
            unit,
            priority,
            ceiling,
        } => Turn::CeilingViolation {
            time: *time,
            task: *task,
            object: *unit,
            priority: *priority,
            ceiling: *ceiling,
        },
        Event::Release { .. } => Turn::Horizon,
        Event::Arrive { .. } => Turn::Horizon,
        Event::Enter { .. } => Turn::Horizon,
        Event::Leave { .. } => Turn::Horizon,
        Event::Request { .. } => Turn::Horizon,
        Event::Print { .. } => Turn::Horizon,
        Event::End { .. } => Turn::Horizon,
        Event::Horizon { .. } => Turn::Horizon,
    }
}

/// A part of an instant.
#[derive(Clone, Copy, Debug, PartialEq, Eq)]
enum Phase {
    /// The task that used the tick before has effects, where there is one whose piece has no ticks left. It is not in the ready list
    /// then: it may enter and leave sections, and release other tasks, before it is put back.
    Effects(Option<u32>),
    Delays,
    Arriving,
    Use,
}

/// Puts a task to sleep until its first time, where it has times of its own.
fn sleep_first(links: &mut Links, task: u32, timing: Timing)
    requires { IsFree links.old task }
    ensures { links.new ≡ first_slept timing.entry task links.old }
{
    match timing {
        Timing::Periodic { offset, .. } => links.sleep(task, u64::from(offset)),
        Timing::Requested { .. } => {}
    }
}

/// The place of the task of a unit among tasks, where it has one.
fn place_of(tasks: &[Task], unit: u32) -> Option<u32>
    requires { length tasks.now < 2 ^ 32 }
    ensures { result ≡ option_map (λ t. t.0) (first_where (λ t. t.thread.unit == unit) (map task_of tasks.now)) }
{
    let mut place: u32 = 0;
    'tasks: for task in tasks {
        if task.progress.stack.thread.unit == unit {
            return Some(place);
        }
        place += 1;
    }
    None
}

/// At most so many ticks, and no more than stand before the first arrival, where that is still to come.
fn until_arrival(arrivals: &[Arrival], time: u64, most: u64) -> u64
    requires some { 0 < most }
    ensures some { 0 < result }
    ensures most { result ≤ most }
    ensures arrival { (j : ℕ) → j < result - 1 → NoArrival (time + suc j) arrivals.now }
{
    let Some((arrival, _)) = arrivals.split_first() else {
        return most;
    };
    if time < arrival.time {
        most.min(arrival.time - time)
    } else {
        most
    }
}

/// How many ticks stand before the next release and the horizon.
fn until_wake(links: &Links, time: u64, until: u64) -> u64
    requires before { time < until }
    requires later { Each (λ e. time < e.1) links.now.asleep }
    ensures some { 0 < result }
    ensures horizon { time + result ≤ until }
    ensures wake { Each (λ e. time + result ≤ e.1) links.now.asleep }
{
    match links.next_wake() {
        Some(wake) => (until - time).min(wake.saturating_sub(time)),
        None => until - time,
    }
}

/// At most so many ticks, and no more than are left of the piece of the first ready task.
fn until_effect(links: &Links, tasks: &[Task], most: u64) -> u64
    requires some { 0 < most }
    requires known { Each (λ e. e.0 < length tasks.now) links.now.ready }
    ensures some { 0 < result }
    ensures most { result ≤ most }
    ensures within { IsWithin tasks.now links.now.ready result }
{
    match links.head() {
        Some((task, _)) => most.min(u64::from(tasks[task as usize].left).max(1)),
        None => most,
    }
}

/// How many ticks can be used at once: as many as stand before the next effect, release or arrival and the horizon.
fn ticks_ahead(links: &Links, tasks: &[Task], arrivals: &[Arrival], time: u64, until: u64) -> u64
    requires before { time < until }
    requires later { Each (λ e. time < e.1) links.now.asleep }
    requires known { Each (λ e. e.0 < length tasks.now) links.now.ready }
    ensures some { 0 < result }
    ensures horizon { time + result ≤ until }
    ensures wake { Each (λ e. time + result ≤ e.1) links.now.asleep }
    ensures within { IsWithin tasks.now links.now.ready result }
    ensures arrival { (j : ℕ) → j < result - 1 → NoArrival (time + suc j) arrivals.now }
{
    let most = until_arrival(arrivals, time, until_wake(links, time, until));
    until_effect(links, tasks, most)
}

/// Whether the first ready task has a greater active priority than this one.
fn is_outranked(links: &Links, active: u32) -> bool
    ensures { result ≡ false → IsBelow active links.now.ready }
{
    match links.head() {
        Some((_, level)) => active < level,
        None => false,
    }
}

/// The time of the first release, or of the horizon where that comes before it.
fn first_release(links: &Links, time: u64, until: u64) -> u64
    requires in_time { time ≤ until }
    requires later { Each (λ e. time ≤ e.1) links.now.asleep }
    ensures later { time ≤ result }
    ensures horizon { result ≤ until }
    ensures wake { Each (λ e. result ≤ e.1) links.now.asleep }
{
    match links.next_wake() {
        Some(wake) => until.min(wake),
        None => until,
    }
}

/// The first time, from this one on, at which an arrival comes, or the one given where that comes before it.
fn first_arrival(arrivals: &[Arrival], time: u64, most: u64) -> u64
    requires later { time ≤ most }
    ensures later { time ≤ result }
    ensures most { result ≤ most }
    ensures arrival { (n : ℕ) → time ≤ n → n < result → NoArrival n arrivals.now }
{
    let Some((arrival, _)) = arrivals.split_first() else {
        return most;
    };
    if arrival.time < time {
        most
    } else {
        most.min(arrival.time)
    }
}

/// The processor at work on a program, in ticks of one processor. Between two calls, until the run has stopped, its lists are those of
/// its tasks, and its calls lead to what those of its units do (`IsWhole`). `new` gives that and `advance` keeps it, and no one else can
/// write a field of it, so who holds a machine from one call to the next has only to hand the fact on.
#[derive(Drop)]
pub struct Machine<'a> {
    tasks: Vec<Task<'a>>,
    objects: Vec<Object<'a>>,
    links: Links,
    // The arrivals left.
    arrivals: &'a [Arrival],
    units: &'a [Unit],
    // The units as code, which the tasks run.
    code: LinkedUnits<'a>,
    costs: Costs,
    until: u64,
    time: u64,
    phase: Phase,
    // The task that used the tick before, by its place among the tasks.
    ran: Option<u32>,
    stopped: bool,
    ghost ticking: { costs_break costs ≡ false },
    ghost known: { AreObjectsOf units.now objects.items },
}

impl<'a> Machine<'a> {
    ghost use Rattle.std.specs.Prelude.{IfOk};
    ghost use Rattle.ada_tree.specs.Trees.{program_of};
    ghost use Rattle.arrivals_tree.specs.Arriving.{arrivals_of};
    ghost use Rattle.machine.specs.Meanings.{Tells, begun};
    ghost use Rattle.trace_tree.specs.declared.event.Event.{Event};
    ghost use Rattle.ceil_runtime.specs.Replayable.{IsReplayable};
    ghost use Rattle.task_runtime.specs.Libraries.{no_costs};
    ghost use Rattle.ceil_runtime.specs.Starts.{CanStart, opened, system_for};
    ghost use Rattle.task_runtime.specs.Written.{system_of};
    ghost use Rattle.ceil_runtime.specs.Gathering.{AllThreads};
    ghost use Rattle.law_dispatching.specs.Queueing.{AreQueued, AreSleeping};
    ghost use Rattle.ceil_runtime.specs.Left.{left};
    ghost use Rattle.ceil_runtime.specs.Turns.{FallsAt, Turned};
    ghost use Rattle.ada_tree.specs.Programs.{Program};
    ghost use Rattle.arrivals_tree.specs.Arriving.{Arrivals as Arriving};
    ghost use Rattle.machine.specs.Systems.{system};
    ghost use Rattle.seq_tree.specs.Lists.{Each as EachEvent};
    ghost use Rattle.trace_tree.specs.Placed.{IsPlaced};
    ghost use Rattle.ceil_runtime.specs.Processing.{HasNoPiece, HasPiece, IsDue};
    ghost use Rattle.trace_tree.specs.declared.event.Event.TheVariants as event;
    ghost use Rattle.task_runtime.specs.declared.task.Task.{Task};
    ghost use Rattle.std.specs.Prelude.{slice_get};
    ghost use Rattle.ceil_runtime.specs.Shown.{IsSettled, IsWhole, running_of, snapshot_of};
    ghost use Rattle.ceil_runtime.specs.Snapshots.{AreAtWork, IsWholeAt};
    ghost use Rattle.law_ceilings.specs.Premises.{MayExclude};
    ghost use Rattle.ceil_runtime.specs.Acted.{HasActed, IsActing, IsDoing, with_tasks};
    ghost use Rattle.ceil_runtime.specs.Alone.{GoesAlone, IsAlone};
    ghost use Rattle.task_runtime.specs.Doings.{StaysOutside};
    ghost use Rattle.ceil_runtime.specs.Stepping.{HasStopped, IsStep, Nothing, Steps, StepsTelling, before_arrival};

    /// The opening of a program under arrivals that are accepted for it. The one error is want of memory: a failed allocation, and a limit
    /// that is told as one. A protected object may have fewer than 2^32 operations, since an event tells their places in 32 bits. No
    /// program that was read from 16,777,216 bytes comes near it.
    pub fn new(
        alloc: Global,
        program: &'a AdaProgram,
        arrivals: &'a Arrivals,
    ) -> Result<Machine<'a>, NoMemory>
        requires { IsReplayable (program_of program.now) (arrivals_of arrivals.now) }
        ensures opens { IfOk result (λ m. running_of m ≡ begun (program_of program.entry.now) (arrivals_of arrivals.entry.now)) }
        ensures whole { IfOk result IsWhole }
    {
        let units = program.units.as_slice();
        let work = arrivals.work.as_slice();
        let threads = threads_in(alloc, units, work)?;
        let machine = Machine::open(
            alloc,
            units,
            threads.as_slice(),
            program.costs,
            arrivals.until,
            arrivals.items.as_slice(),
        )?;
        Ok(machine)
    }

    /// The opening for these tasks of a program's units: each sleeps until its offset, or waits for a request. The errors are those of
    /// `new`.
    fn open(
        alloc: Global,
        units: &'a [Unit],
        threads: &[Thread<'a>],
        costs: Costs,
        until: u64,
        arrivals: &'a [Arrival],
    ) -> Result<Machine<'a>, NoMemory>
        requires few { length threads.now < 2 ^ 32 }
        requires near { until < 2 ^ 32 }
        requires known { length units.now < 2 ^ 32 }
        requires ticking { costs_break costs ≡ false }
        requires start { AllThreads (CanStart units.now) threads.now }
        requires alike { AllThreads (λ t. system_of t ≡ system_for 0 no_costs units.now threads.now) threads.now }
        requires excludes { MayExclude (system_for until costs units.now threads.now) arrivals.now }
        ensures opens { IfOk result (λ m. running_of m ≡ opened until costs units.entry.now arrivals.entry.now threads.entry.now) }
        ensures whole { IfOk result IsWhole }
    {
        let Ok(mut links) = Links::new(alloc, threads.len() as u32) else {
            return Err(NoMemory);
        };
        let objects = objects_in(alloc, units)?;
        let code = link_units(alloc, units)?;
        let rooms = rooms_of(alloc, &code)?;
        let mut tasks = Vec::with_capacity(alloc, threads.len())?;
        let mut task: u32 = 0;
        'threads: for thread in threads {
            let start = code.tasks[task as usize];
            let room = task_room(&code, rooms.as_slice(), *thread, start);
            let fresh = Task::new(alloc, &code, *thread, start, room)?;
            tasks.push_reserved(fresh);
            sleep_first(&mut links, task, thread.timing);
            task += 1;
        }
        Ok(Machine {
            tasks,
            objects,
            links,
            arrivals,
            units,
            code,
            costs,
            until,
            time: 0,
            phase: Phase::Effects(None),
            ran: None,
            stopped: false,
        })
    }

    /// Use: the task that is dispatched uses as many ticks as stand before the next effect, release or horizon.
    fn use_ticks(&mut self)
        requires whole { IsWhole self.old }
        requires phase { self.old.phase ≡ Phase.Use }
        requires goes_on { self.old.stopped ≡ false }
        ensures { Steps (snapshot_of self.old) Nothing (snapshot_of self.new) }
    {
        let ticks = ticks_ahead(
            &self.links,
            self.tasks.as_slice(),
            self.arrivals,
            self.time,
            self.until,
        );
        self.time += ticks;
        let Some(task) = self.links.pop_head() else {
            self.ran = None;
            self.phase = Phase::Effects(None);
            return;
        };
        self.ran = Some(task);
        self.phase = Phase::Effects(Some(task));
        self.tasks[task as usize].use_ticks(ticks);
    }

    /// The end of the arrivals of an instant: the horizon, where its time has come.
    fn horizon(&mut self, events: &mut EventBuf)
        requires whole { IsWhole self.old }
        requires phase { self.old.phase ≡ Phase.Arriving }
        requires goes_on { self.old.stopped ≡ false }
        requires none { NoArrival self.old.time self.old.arrivals.now }
        requires empty { events.old ≡ [] }
        ensures { IsStep self.old events.new self.new }
    {
        if self.time == self.until {
            self.stopped = true;
            events.tell(Event::Horizon { time: self.time });
            return;
        }
        self.phase = Phase::Use;
    }

    /// An arrival whose time has come: its value is kept, and where the task waits, it is released.
    fn arrive(&mut self, arrival: Arrival, others: &'a [Arrival], events: &mut EventBuf)
        requires whole { IsWhole self.old }
        requires phase { self.old.phase ≡ Phase.Arriving }
        requires goes_on { self.old.stopped ≡ false }
        requires first { self.old.arrivals.now ≡ arrival ∷ others.now }
        requires now { arrival.time ≡ self.old.time }
        requires empty { events.old ≡ [] }
        ensures { IsStep self.old events.new self.new }
    {
        self.arrivals = others;
        let Some(task) = place_of(self.tasks.as_slice(), arrival.task) else {
            return;
        };
        self.ask_at(task, arrival, events);
    }

    /// The arrival of a request for the task at this place, taken off the arrivals before.
    fn ask_at(&mut self, task: u32, arrival: Arrival, events: &mut EventBuf)
        requires whole { IsWholeAt (before_arrival arrival (snapshot_of self.old)) }
        requires phase { self.old.phase ≡ Phase.Arriving }
        requires goes_on { self.old.stopped ≡ false }
        requires now { arrival.time ≡ self.old.time }
        requires found { Some task ≡ option_map (λ t. t.0) (first_where (λ t. t.thread.unit == arrival.task) (map task_of self.old.tasks.items)) }
        ensures { StepsTelling (before_arrival arrival (snapshot_of self.old)) events.new (snapshot_of self.new) }
    {
        let asked = &mut self.tasks[task as usize];
        asked.arrive(arrival.value);
        let arrived = Event::Arrive {
            time: self.time,
            task: arrival.task,
            value: arrival.value,
        };
        let Readiness::Waiting = asked.readiness else {
            events.tell(arrived);
            return;
        };
        asked.release(&self.costs, &self.code);
        self.links.push_tail(task, asked.active);
        events.tell_both(
            arrived,
            Event::Release {
                time: self.time,
                task: asked.progress.stack.thread.unit,
                value: arrival.value,
            },
        );
    }

    /// Arrivals: the first of those left, where its time has come, and then the horizon.
    fn arriving(&mut self, events: &mut EventBuf)
        requires whole { IsWhole self.old }
        requires phase { self.old.phase ≡ Phase.Arriving }
        requires goes_on { self.old.stopped ≡ false }
        requires empty { events.old ≡ [] }
        ensures { IsStep self.old events.new self.new }
    {
        let Some((arrival, others)) = self.arrivals.split_first() else {
            self.horizon(events);
            return;
        };
        if arrival.time != self.time {
            self.horizon(events);
            return;
        }
        self.arrive(*arrival, others, events);
    }

    /// Delays: the release of the first sleeping task whose time has come.
    fn delays(&mut self, events: &mut EventBuf)
        requires whole { IsWhole self.old }
        requires phase { self.old.phase ≡ Phase.Delays }
        requires goes_on { self.old.stopped ≡ false }
        requires empty { events.old ≡ [] }
        ensures { IsStep self.old events.new self.new }
    {
        let Some(task) = self.links.wake_due(self.time) else {
            self.phase = Phase::Arriving;
            return;
        };
        let released = &mut self.tasks[task as usize];
        let value = released.gate.value;
        released.release(&self.costs, &self.code);
        self.links.push_tail(task, released.active);
        events.tell(Event::Release {
            time: self.time,
            task: released.progress.stack.thread.unit,
            value,
        });
    }

    /// The piece of a task, where its ticks are used.
    fn due(&self, task: u32) -> Option<Piece>
        requires known { task < length self.now.tasks.items }
        requires at_work { AreAtWork self.now.code self.now.tasks.items }
        ensures { IsDue self.now.tasks.items task result }
    {
        let active = &self.tasks[task as usize];
        if active.left == 0 {
            active.progress.piece
        } else {
            None
        }
    }

    /// The end of the effects of an instant. The task that had them goes before the other ready tasks of its active priority.
    fn end_effects(&mut self, task: u32)
        requires acting { IsActing (snapshot_of self.old) task }
        requires none { HasNoPiece self.old.tasks.items task }
        ensures { Steps (snapshot_of self.old) Nothing (snapshot_of self.new) }
    {
        let active = self.tasks[task as usize].active;
        self.links.push_head(task, active);
        self.phase = Phase::Delays;
    }

    /// The time up to which the running task goes on alone: that of the first release or arrival, or of the horizon. It is the present one
    /// where another task goes before it.
    fn alone_until(&self, task: u32) -> u64
        requires acting { IsActing (snapshot_of self.now) task }
        ensures { IsAlone (snapshot_of self.now) task result }
    {
        if is_outranked(&self.links, self.tasks[task as usize].active) {
            return self.time;
        }
        let most = first_release(&self.links, self.time, self.until);
        first_arrival(self.arrivals, self.time, most)
    }

    /// The effect of a piece on its own task, where it neither enters a protected object nor leaves one.
    fn own_effect(&mut self, task: u32, piece: Piece) -> Act
        requires acting { IsActing (snapshot_of self.old) task }
        requires piece { HasPiece self.old.tasks.items task piece }
        requires outside { (t : Task) → slice_get self.old.tasks.items task ≡ Some t → StaysOutside self.old.code piece }
        ensures acted { (t : Task) × (t' : Task) × HasActed self.old.tasks.items (snapshot_of self.new) task result t t' }
        ensures before { snapshot_of self.old ≡ with_tasks self.old.tasks.items (snapshot_of self.new) }
    {
        self.tasks[task as usize].act(&self.costs, &self.code, piece)
    }

    /// Goes on through pieces of the running task that are nothing to others, up to an instant at which something else may be due: no
    /// other part of the instants between has anything to do.
    fn go_on(&mut self, task: u32)
        requires acting { IsActing (snapshot_of self.old) task }
        ensures { (limit : ℕ) × GoesAlone (snapshot_of self.old) (snapshot_of self.new) task limit }
    {
        let limit = self.alone_until(task);
        let active = &mut self.tasks[task as usize];
        self.time = active.go_alone(&self.costs, &self.code, self.time, limit);
    }

    /// Effects: that of the piece of the task that used the tick before, where its ticks are used.
    fn effects(&mut self, running: Option<u32>, events: &mut EventBuf)
        requires whole { IsWhole self.old }
        requires phase { self.old.phase ≡ Phase.Effects running }
        requires goes_on { self.old.stopped ≡ false }
        requires empty { events.old ≡ [] }
        ensures { IsStep self.old events.new self.new }
    {
        let Some(task) = running else {
            self.phase = Phase::Delays;
            return;
        };
        self.go_on(task);
        let Some(piece) = self.due(task) else {
            self.end_effects(task);
            return;
        };
        self.effect(task, piece, events);
    }

    /// The effect of the piece of a task whose ticks are used.
    fn effect(&mut self, task: u32, piece: Piece, events: &mut EventBuf)
        requires acting { IsActing (snapshot_of self.old) task }
        requires piece { HasPiece self.old.tasks.items task piece }
        requires empty { events.old ≡ [] }
        ensures { IsStep self.old events.new self.new }
    {
        match self.tasks[task as usize].deed(&self.code, piece) {
            Deed::Own => self.act(task, piece, events),
            Deed::Enter(entry) => self.enter(task, piece, entry, events),
            Deed::Leave(entry) => self.leave(task, piece, entry, events),
            Deed::Ask(target) => self.ask(task, piece, target, events),
        }
    }

    /// The stop of the run: a task was to enter a section of this unit, whose ceiling is below the task's active priority.
    fn stop(&mut self, task: u32, unit: u32, ceiling: u32, events: &mut EventBuf)
        requires known { task < length self.old.tasks.items }
        ensures machine { HasStopped self.old self.new }
        ensures told { (t : Task) → slice_get self.old.tasks.items task ≡ Some t
            → events.new ≡ event.Stop self.old.time t.progress.stack.thread.unit unit t.active ceiling ∷ [] }
    {
        let caller = &self.tasks[task as usize];
        events.tell(Event::Stop {
            time: self.time,
            task: caller.progress.stack.thread.unit,
            unit,
            priority: caller.active,
            ceiling,
        });
        self.stopped = true;
    }

    /// The entry into a protected object, whose data the task takes, unless its active priority is above the ceiling.
    fn enter(&mut self, task: u32, piece: Piece, entry: Entry, events: &mut EventBuf)
        requires does { (t : Task) × IsDoing (snapshot_of self.old) task piece (Deed.Enter entry) t }
        ensures { IsStep self.old events.new self.new }
    {
        let object = &self.objects[entry.object];
        let unit = object.unit;
        let ceiling = object.ceiling;
        if self.tasks[task as usize].is_above(ceiling) {
            self.stop(task, unit, ceiling, events);
            return;
        }
        // No task is inside, so that the data are all at home.
        let object = &mut self.objects[entry.object];
        let caller = &mut self.tasks[task as usize];
        let values = caller.enter(&self.costs, &self.code, entry, &mut object.data);
        caller.go_inside(Section::Object(entry.object), ceiling);
        events.tell(Event::Enter {
            time: self.time,
            task: caller.progress.stack.thread.unit,
            unit: object.unit,
            op: entry.place as u32,
            values,
        });
    }

    /// The exit from a protected object, which takes its data back.
    fn leave(&mut self, task: u32, piece: Piece, entry: Entry, events: &mut EventBuf)
        requires does { (t : Task) × IsDoing (snapshot_of self.old) task piece (Deed.Leave entry) t }
        ensures { IsStep self.old events.new self.new }
    {
        let object = &mut self.objects[entry.object];
        let caller = &mut self.tasks[task as usize];
        let values = caller.leave(&self.costs, &self.code, entry, &mut object.data);
        caller.go_outside();
        events.tell(Event::Leave {
            time: self.time,
            task: caller.progress.stack.thread.unit,
            unit: object.unit,
            op: entry.place as u32,
            values,
        });
    }

    /// The entry into the control structure of a task, unless the active priority of the one that requests it is above the ceiling.
    fn ask(&mut self, task: u32, piece: Piece, target: usize, events: &mut EventBuf)
        requires does { (t : Task) × IsDoing (snapshot_of self.old) task piece (Deed.Ask target) t }
        requires empty { events.old ≡ [] }
        ensures { IsStep self.old events.new self.new }
    {
        let asked = &self.tasks[target];
        let unit = asked.progress.stack.thread.unit;
        let ceiling = ceiling_of(asked.progress.stack.thread.timing);
        if self.tasks[task as usize].is_above(ceiling) {
            self.stop(task, unit, ceiling, events);
            return;
        }
        self.own_effect(task, piece);
        self.tasks[task as usize].go_inside(Section::Control(target), ceiling);
    }

    /// The effect of a piece that neither enters a section nor leaves a protected object.
    fn act(&mut self, task: u32, piece: Piece, events: &mut EventBuf)
        requires does { (t : Task) × IsDoing (snapshot_of self.old) task piece Deed.Own t }
        requires empty { events.old ≡ [] }
        ensures { IsStep self.old events.new self.new }
    {
        match self.own_effect(task, piece) {
            Act::Silent => {}
            Act::Print(value) => events.tell(Event::Print {
                time: self.time,
                task: self.tasks[task as usize].progress.stack.thread.unit,
                value,
            }),
            Act::Ask(_) => unreachable!(),
            Act::Keep {
                task: target,
                value,
            } => self.tasks[target].keep(value),
            Act::Open(target) => self.tasks[target].open_gate(),
            Act::Ended {
                task: target,
                value,
            } => self.answer(task, target, value, events),
            Act::Finish => self.finish(task, events),
        }
    }

    /// The end of a request, by which its task leaves the control structure: the task that was requested is released, where it waits and
    /// its control structure is open.
    fn answer(&mut self, task: u32, target: usize, value: Option<u32>, events: &mut EventBuf)
        requires acted { (ts : List Task) × (t : Task) × (t' : Task) × HasActed ts (snapshot_of self.old) task (Act.Ended target value) t t' }
        ensures { (ts : List Task) (t t' : Task) → HasActed ts (snapshot_of self.old) task (Act.Ended target value) t t'
            → StepsTelling (with_tasks ts (snapshot_of self.old)) events.new (snapshot_of self.new) }
    {
        let active = &mut self.tasks[task as usize];
        let unit = active.progress.stack.thread.unit;
        active.go_outside();
        let asked = &mut self.tasks[target];
        let request = Event::Request {
            time: self.time,
            task: unit,
            target: asked.progress.stack.thread.unit,
            value,
        };
        if !asked.is_served() {
            events.tell(request);
            return;
        }
        let kept = asked.gate.value;
        asked.release(&self.costs, &self.code);
        self.links.push_tail(target as u32, asked.active);
        events.tell_both(
            request,
            Event::Release {
                time: self.time,
                task: asked.progress.stack.thread.unit,
                value: kept,
            },
        );
    }

    /// The end of an activation: the task sleeps until its next time, or waits for a request, and is released at once where its control
    /// structure is open.
    fn finish(&mut self, task: u32, events: &mut EventBuf)
        requires acted { (ts : List Task) × (t : Task) × (t' : Task) × HasActed ts (snapshot_of self.old) task Act.Finish t t' }
        ensures { (ts : List Task) (t t' : Task) → HasActed ts (snapshot_of self.old) task Act.Finish t t'
            → StepsTelling (with_tasks ts (snapshot_of self.old)) events.new (snapshot_of self.new) }
    {
        let active = &mut self.tasks[task as usize];
        let unit = active.progress.stack.thread.unit;
        let ended = Event::End {
            time: self.time,
            task: unit,
            used: active.used,
        };
        self.phase = Phase::Effects(None);
        if let Readiness::Asleep = active.readiness {
            self.links.sleep(task, active.next.max(self.time));
            events.tell(ended);
            return;
        }
        let value = active.gate.value;
        if !active.gate.open {
            events.tell(ended);
            return;
        }
        active.release(&self.costs, &self.code);
        self.links.push_tail(task, active.active);
        events.tell_both(
            ended,
            Event::Release {
                time: self.time,
                task: unit,
                value,
            },
        );
    }

    /// One step, or as many ticks as can be used at once, and what it tells.
    fn step(&mut self, events: &mut EventBuf)
        requires whole { IsWhole self.old }
        requires goes_on { self.old.stopped ≡ false }
        requires empty { events.old ≡ [] }
        ensures { IsStep self.old events.new self.new }
    {
        match self.phase {
            Phase::Effects(running) => self.effects(running, events),
            Phase::Delays => self.delays(events),
            Phase::Arriving => self.arriving(events),
            Phase::Use => self.use_ticks(),
        }
    }

    /// The next events, of which there is at least one, in a buffer that holds none before; in ticks of one processor.
    /// The run has not stopped before. It is over with the horizon, and with a ceiling that is violated. No memory is taken.
    /// What it asks of the machine, `whole`, is what `new` gave, and what each advance before has kept since the run went on.
    pub fn advance(&mut self, events: &mut EventBuf) -> Turn
        requires whole { IsWhole self.old }
        requires empty { events.old ≡ [] }
        requires goes_on { self.old.stopped ≡ false }
        ensures whole { self.new.stopped ≡ false → IsWhole self.new }
        // What is told from here on is these events, and what is told after them.
        ensures rest { (told : List Event) → Tells (running_of self.new) told → Tells (running_of self.old) (events.new ++ told) }
        ensures system { (running_of self.new).system ≡ (running_of self.old).system }
        ensures turned { Turned result events.new (running_of self.new) }
        ensures falls { FallsAt result (left (running_of self.old)) (left (running_of self.new)) }
        // The events are of the program that runs.
        ensures placed { (p : Program) (a : Arriving) → (running_of self.old).system ≡ system p a → EachEvent (IsPlaced p) events.new }
    {
        'steps: loop {
            self.step(events);
            if let Some((last, _)) = events.events().split_last() {
                return if self.stopped {
                    turn_of(last)
                } else {
                    Turn::More
                };
            }
        }
    }

    /// The queues that the machine keeps. A task's number in them is its place among the tasks, from 0. At the opening, and in every part of
    /// an instant but the effects of a task, the ready list is the ready tasks in order of dispatch; the sleeping tasks are so always.
    /// What it asks of the machine, `whole`, is what `new` gives, and what `advance` keeps until the run has stopped.
    pub fn queues(&self) -> &Links
        requires whole { IsWhole self.now }
        ensures ready { IsSettled (running_of self.now).state
            → AreQueued (running_of self.now).state.tasks (running_of self.now).state.orders result.now.ready }
        ensures asleep { AreSleeping (running_of self.now).state.tasks (running_of self.now).state.time result.now.asleep }
    {
        &self.links
    }
}
