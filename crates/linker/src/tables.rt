ghost use Rattle.std.specs.Prelude.{◌≡◌, ◌+◌, ℕ, suc, List, [], ◌∷◌, None, Some, IfOk, OnOk, if◌then◌else◌, is_some, map, option_map};
ghost use Rattle.seq_tree.specs.Names.{Name as NameBytes, same_name};
ghost use Rattle.seq_tree.specs.Trees.{operation_of};
ghost use Rattle.ada_tree.specs.Programs.{Unit as UnitTree};
ghost use Rattle.ada_tree.specs.Trees.{unit_of};
ghost use Rattle.machine.specs.Systems.{System, CallTarget, ProtectedUnit, TaskUnit, callee, op_named, libraries_from, objects_from, threads_from};
ghost use Rattle.name_sets.specs.Tables.{named};
ghost use Rattle.linker.specs.Callees.{AddsBodies, AreEntered, AreLed, IsFound, IsLed, IsSystemOf, Passes, body_of, lead_by, lead_found};
ghost use Rattle.linker.specs.Callees.{target_among};
ghost use Rattle.linker.specs.Leads.{Request as Requests, Nowhere as LeadsNowhere};
ghost use Rattle.linker.specs.Targets.{leads_of};

use crate::callees::{Calls, Target};
use crate::fill::{after, narrow};
use ada_tree::{Form, Unit};
use name_sets::NameTable;
use seq_tree::{Datum, Name, NoMemory, OpText, Param};
use std::alloc::Global;

/// An operation with a body, for which code of a program is written.
#[derive(Clone, Copy, Drop)]
pub struct OpBody<'a> {
    /// Where a protected object has it: the place of the object among the objects, and its own among the operations of the object.
    pub owner: Option<(usize, usize)>,
    /// The data of the object, as they are written.
    pub vars: &'a [Datum],
    /// The operation.
    pub op: &'a OpText,
}

/// What a name leads to among the operations of a unit: the place among all that have bodies, and the parameters.
#[derive(Clone, Copy, Drop)]
pub(crate) struct Found<'a> {
    pub place: u32,
    pub params: &'a [Param],
}

/// What the name of a unit leads to.
#[derive(Drop)]
pub(crate) enum Entry<'a> {
    /// Operations with bodies.
    Ops(NameTable<'a, Found<'a>>),
    /// A task that is requested by an operation.
    Task { task: u32, op: &'a Name },
    /// A task that is not requested.
    Nothing,
}

/// What calls of a program lead to. A call is looked up in the time of the logarithm of the numbers of units and of operations.
#[derive(Drop)]
pub(crate) struct Callees<'a> {
    units: NameTable<'a, Entry<'a>>,
    bodies: Vec<OpBody<'a>>,
}

/// Whether two names are one.
#[tactic(auto, using(seq_eval::proofs::Shared::Reading::names))]
fn is_same(one: &Name, other: &Name) -> bool
    ensures { result ≡ same_name one.now other.now }
{
    one.same(other)
}

/// What an operation that was found leads to.
fn op_target(op: Option<Found>) -> Target
    ensures { leads_of result ≡ lead_found op.entry }
{
    match op {
        None => Target::Nowhere,
        Some(op) => Target::Body {
            place: op.place,
            params: op.params,
        },
    }
}

/// What a call of a task leads to, where its requests have a name.
fn task_target<'a>(task: u32, wanted: &Name, op: &Name) -> Target<'a>
    ensures { leads_of result ≡ (if same_name wanted.now op.now then Requests task else LeadsNowhere) }
{
    if is_same(wanted, op) {
        Target::Request(task)
    } else {
        Target::Nowhere
    }
}

impl Calls for Callees<'_> {
    ghost leads = { λ c unit op. lead_by (named c.units unit) op };

    fn target(&self, unit: &Name, op: &Name) -> Target
        ensures { leads_of result ≡ lead_by (named self.now.units unit.now) op.now }
    {
        match self.units.find(unit) {
            None => Target::Nowhere,
            Some(Entry::Ops(table)) => op_target(table.get(op)),
            Some(Entry::Task { task, op: wanted }) => task_target(*task, wanted, op),
            Some(Entry::Nothing) => Target::Nowhere,
        }
    }
}

/// A table of the operations of a unit, whose bodies are added behind the others from the last to the first.
fn add_ops<'a>(
    alloc: Global,
    bodies: &mut Vec<OpBody<'a>>,
    object: Option<usize>,
    vars: &'a [Datum],
    ops: &'a [OpText],
) -> Result<NameTable<'a, Found<'a>>, NoMemory>
    ensures more { OnOk result (AddsBodies (map body_of bodies.old.items) (map body_of bodies.new.items)) }
    ensures found { IfOk result (λ table. (n : NameBytes)
        → IsFound (map body_of bodies.new.items) object vars.entry.now (named table n) (op_named n (map operation_of ops.entry.now))) }
{
    let mut table = NameTable::new(alloc);
    let mut at = ops.len();
    'ops: while at > 0 {
        at -= 1;
        let op = &ops[at];
        let place = narrow(bodies.len())?;
        let owner = owner_of(object, at);
        bodies.push(OpBody { owner, vars, op })?;
        let params = op.sig.params.as_slice();
        table.put(&op.sig.name, Found { place, params })?;
    }
    Ok(table)
}

/// A count with one more. The one error is that no number tells it.
fn one_more(count: usize) -> Result<usize, NoMemory>
    ensures { IfOk result (λ next. next ≡ suc count) }
{
    count.checked_add(1).ok_or(NoMemory)
}

/// The place of an operation, with that of its object.
fn owner_of(object: Option<usize>, place: usize) -> Option<(usize, usize)>
    ensures { result ≡ option_map (λ (k : ℕ). (k, place)) object }
{
    match object {
        None => None,
        Some(object) => Some((object, place)),
    }
}

impl<'a> Callees<'a> {
    /// Calls lead nowhere.
    fn new(alloc: Global) -> Callees<'a>
        ensures none { (n : NameBytes) → named result.units n ≡ None }
        ensures bodies { result.bodies.items ≡ [] }
    {
        Callees {
            units: NameTable::new(alloc),
            bodies: Vec::new(alloc),
        }
    }

    /// Whether calls of this name were entered.
    fn has(&self, unit: &Name) -> bool
        ensures { result ≡ is_some (named self.now.units unit.now) }
    {
        match self.units.find(unit) {
            None => false,
            Some(_) => true,
        }
    }

    /// Enters what calls of a name lead to, unless such calls were entered.
    fn enter(&mut self, unit: &'a Name, entry: Entry<'a>) -> Result<(), NoMemory>
        ensures { OnOk result ((y : System) (target : NameBytes → CallTarget) (left left' : NameBytes → NameBytes → CallTarget)
            → ((op : NameBytes) → IsLed (map body_of self.old.bodies.items) (target op) (lead_by (Some entry.entry) op))
            → Passes unit.entry.now target left left' → AreEntered y self.old.units (map body_of self.old.bodies.items) left
            → AreEntered y self.new.units (map body_of self.new.bodies.items) left') }
    {
        if self.has(unit) {
            return Ok(());
        }
        self.units.put(unit, entry)
    }

    /// Enters the operations of a unit, unless calls of its name were entered.
    fn enter_ops(
        &mut self,
        alloc: Global,
        unit: &'a Name,
        object: Option<usize>,
        vars: &'a [Datum],
        ops: &'a [OpText],
    ) -> Result<(), NoMemory>
        ensures { OnOk result ((y : System) (target : NameBytes → CallTarget) (left left' : NameBytes → NameBytes → CallTarget)
            → AreLed object vars.entry.now (map operation_of ops.entry.now) target
            → Passes unit.entry.now target left left' → AreEntered y self.old.units (map body_of self.old.bodies.items) left
            → AreEntered y self.new.units (map body_of self.new.bodies.items) left') }
    {
        if self.has(unit) {
            return Ok(());
        }
        let table = add_ops(alloc, &mut self.bodies, object, vars, ops)?;
        self.units.put(unit, Entry::Ops(table))
    }

    /// Enters a unit, where it is passive.
    fn add_passive(&mut self, alloc: Global, unit: &'a Unit) -> Result<(), NoMemory>
        ensures { OnOk result ((y : System) (us : List UnitTree) (n i m k : ℕ) (gs : List ProtectedUnit) (ts : List TaskUnit)
            → AreEntered y self.old.units (map body_of self.old.bodies.items) (target_among n (libraries_from i (unit_of unit.entry.now ∷ us)) m gs k ts)
            → (next : ℕ) × AreEntered y self.new.units (map body_of self.new.bodies.items) (target_among next (libraries_from (i + 1) us) m gs k ts)) }
    {
        match &unit.form {
            Form::Passive { ops } => self.enter_ops(alloc, &unit.name, None, &[], ops),
            Form::Shared { .. } => Ok(()),
            Form::Cyclic { .. } => Ok(()),
            Form::Sporadic { .. } => Ok(()),
        }
    }

    /// Enters a unit, where it is a protected object, and counts it.
    fn add_object(
        &mut self,
        alloc: Global,
        unit: &'a Unit,
        object: usize,
    ) -> Result<usize, NoMemory>
        ensures { IfOk result (λ next. (y : System) (us : List UnitTree) (i k : ℕ) (ts : List TaskUnit)
            → AreEntered y self.old.units (map body_of self.old.bodies.items) (target_among 0 [] object (objects_from i (unit_of unit.entry.now ∷ us)) k ts)
            → AreEntered y self.new.units (map body_of self.new.bodies.items) (target_among 0 [] next (objects_from (i + 1) us) k ts)) }
    {
        match &unit.form {
            Form::Passive { .. } => Ok(object),
            Form::Shared { vars, ops, .. } => {
                let next = one_more(object)?;
                self.enter_ops(alloc, &unit.name, Some(object), vars, ops)?;
                Ok(next)
            }
            Form::Cyclic { .. } => Ok(object),
            Form::Sporadic { .. } => Ok(object),
        }
    }

    /// Enters a unit, where it is a task, and counts it.
    fn add_task(&mut self, unit: &'a Unit, task: u32) -> Result<u32, NoMemory>
        ensures { IfOk result (λ next. (y : System) (durations : ℕ → List ℕ) (us : List UnitTree) (i : ℕ)
            → AreEntered y self.old.units (map body_of self.old.bodies.items)
            (target_among 0 [] 0 [] task (threads_from durations i (unit_of unit.entry.now ∷ us)))
            → AreEntered y self.new.units (map body_of self.new.bodies.items) (target_among 0 [] 0 [] next (threads_from durations (i + 1) us))) }
    {
        match &unit.form {
            Form::Passive { .. } => Ok(task),
            Form::Shared { .. } => Ok(task),
            Form::Cyclic { .. } => {
                let next = after(task)?;
                self.enter(&unit.name, Entry::Nothing)?;
                Ok(next)
            }
            Form::Sporadic { op, .. } => {
                let next = after(task)?;
                self.enter(&unit.name, Entry::Task { task, op: &op.name })?;
                Ok(next)
            }
        }
    }

    /// Enters the passive units.
    fn add_passives(&mut self, alloc: Global, units: &'a [Unit]) -> Result<(), NoMemory>
        ensures { OnOk result ((y : System) → IsSystemOf (map unit_of units.entry.now) y
            → AreEntered y self.old.units (map body_of self.old.bodies.items) (target_among 0 y.libraries 0 y.objects 0 y.threads)
            → AreEntered y self.new.units (map body_of self.new.bodies.items) (target_among 0 [] 0 y.objects 0 y.threads)) }
    {
        let mut left = units;
        'units: while let Some((unit, rest)) = left.split_first() {
            left = rest;
            self.add_passive(alloc, unit)?;
        }
        Ok(())
    }

    /// Enters the protected objects.
    fn add_objects(&mut self, alloc: Global, units: &'a [Unit]) -> Result<(), NoMemory>
        ensures { OnOk result ((y : System) → IsSystemOf (map unit_of units.entry.now) y
            → AreEntered y self.old.units (map body_of self.old.bodies.items) (target_among 0 [] 0 y.objects 0 y.threads)
            → AreEntered y self.new.units (map body_of self.new.bodies.items) (target_among 0 [] 0 [] 0 y.threads)) }
    {
        let mut object = 0;
        let mut left = units;
        'units: while let Some((unit, rest)) = left.split_first() {
            left = rest;
            let next = self.add_object(alloc, unit, object)?;
            object = next;
        }
        Ok(())
    }

    /// Enters the tasks.
    fn add_tasks(&mut self, units: &'a [Unit]) -> Result<(), NoMemory>
        ensures { OnOk result ((y : System) → IsSystemOf (map unit_of units.entry.now) y
            → AreEntered y self.old.units (map body_of self.old.bodies.items) (target_among 0 [] 0 [] 0 y.threads)
            → AreEntered y self.new.units (map body_of self.new.bodies.items) (target_among 0 [] 0 [] 0 [])) }
    {
        let mut task = 0;
        let mut left = units;
        'units: while let Some((unit, rest)) = left.split_first() {
            left = rest;
            let next = self.add_task(unit, task)?;
            task = next;
        }
        Ok(())
    }

    /// What calls of a program of these units lead to: passive units come first, then protected objects, then tasks, and of two of one kind
    /// and name the first one, as the definitions have it.
    pub(crate) fn of_units(alloc: Global, units: &'a [Unit]) -> Result<Callees<'a>, NoMemory>
        ensures { IfOk result (λ c. (y : System) → IsSystemOf (map unit_of units.entry.now) y → (unit op : NameBytes)
            → IsLed (map body_of c.bodies.items) (callee y unit op) (lead_by (named c.units unit) op)) }
    {
        let mut callees = Callees::new(alloc);
        callees.add_passives(alloc, units)?;
        callees.add_objects(alloc, units)?;
        callees.add_tasks(units)?;
        Ok(callees)
    }

    /// The operations with bodies, by the places to which calls lead.
    pub(crate) fn bodies(&self) -> &[OpBody<'a>]
        ensures { result.now ≡ self.now.bodies.items }
    {
        &self.bodies
    }

    /// The same, where calls are looked up no more.
    pub(crate) fn into_bodies(self) -> Vec<OpBody<'a>>
        ensures { result ≡ self.entry.bodies }
    {
        let Callees { bodies, .. } = self;
        bodies
    }
}
