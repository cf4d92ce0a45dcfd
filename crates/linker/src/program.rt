ghost use Rattle.std.specs.Prelude.{◌≡◌, ◌+◌, ◌++◌, ℕ, List, [], ◌∷◌, IfOk, OnOk, map};
ghost use Rattle.seq_tree.specs.Names.{Name as NameBytes};
ghost use Rattle.seq_tree.specs.Trees.{block_of, operation_of};
ghost use Rattle.ada_tree.specs.Programs.{Unit as UnitTree};
ghost use Rattle.ada_tree.specs.Trees.{unit_of};
ghost use Rattle.linker.specs.Bodies.{LinksBody};
ghost use Rattle.linker.specs.Callees.{body_of};
ghost use Rattle.linker.specs.Parts.{PartsLeft};
ghost use Rattle.linker.specs.Programs.{AreLinked, Part, datum_names, op_part, param_names, task_part};
ghost use Rattle.linker.specs.Scopes.{slots_of};
ghost use Rattle.linker.specs.Standing.{Lists, lists_of};
ghost use Rattle.linker.specs.declared.code.Ins.TheVariants as InsIs;
ghost use Rattle.machine.specs.Systems.{threads_from};

use crate::body::link_body;
use crate::callees::Calls;
use crate::code::{Code, Ins};
use crate::scope::Scope;
use crate::tables::{Callees, OpBody};
use ada_tree::{Form, Unit};
use seq_tree::{Block, Datum, NoMemory, Param};
use std::alloc::Global;

/// The units of a program as code.
#[derive(Drop)]
pub struct LinkedUnits<'a> {
    /// The code of all bodies and of the blocks of all tasks.
    pub code: Code,
    /// The operations with bodies, by the places that calls have of them.
    pub ops: Vec<OpBody<'a>>,
    /// Where the body of each of them starts.
    pub starts: Vec<u32>,
    /// Where the block of each task starts, in the order of the tasks.
    pub tasks: Vec<u32>,
}

/// Adds data inside the other names, the first one innermost.
fn add_data<'a>(scope: &mut Scope<'a>, vars: &'a [Datum]) -> Result<(), NoMemory>
    ensures { OnOk result ((ns : List NameBytes) → scope.old ≡ slots_of ns → scope.new ≡ slots_of (datum_names vars.entry.now ++ ns)) }
{
    let mut at = vars.len();
    'vars: while at > 0 {
        at -= 1;
        scope.add(&vars[at].name)?;
    }
    Ok(())
}

/// Adds parameters inside the other names, the first one innermost.
fn add_params<'a>(scope: &mut Scope<'a>, params: &'a [Param]) -> Result<(), NoMemory>
    ensures { OnOk result ((ns : List NameBytes) → scope.old ≡ slots_of ns → scope.new ≡ slots_of (param_names params.entry.now ++ ns)) }
{
    let mut at = params.len();
    'params: while at > 0 {
        at -= 1;
        scope.add(&params[at].name)?;
    }
    Ok(())
}

/// Links the body of an operation behind the code that is there, and tells where it starts.
fn link_op<'a, C: Calls>(
    alloc: Global,
    code: &mut Code,
    body: OpBody<'a>,
    calls: &C,
) -> Result<u32, NoMemory>
    ensures { IfOk result (λ start. LinksBody (C.leads calls.now) (slots_of ((op_part (body_of body.entry)).names)) (lists_of code.old)
        (lists_of code.new) start InsIs.Return (operation_of body.entry.op.now).block) }
{
    let mut scope = Scope::new(alloc);
    add_data(&mut scope, body.vars)?;
    add_data(&mut scope, &body.op.locals)?;
    add_params(&mut scope, &body.op.sig.params)?;
    link_body(code, &body.op.block, &mut scope, calls, Ins::Return)
}

/// Links the block of a task behind the code that is there, and tells where it starts.
fn link_task<'a, C: Calls>(
    alloc: Global,
    code: &mut Code,
    block: &'a Block,
    params: &'a [Param],
    vars: &'a [Datum],
    calls: &C,
) -> Result<u32, NoMemory>
    ensures { IfOk result (λ start. LinksBody (C.leads calls.now) (slots_of (param_names params.entry.now ++ datum_names vars.entry.now))
        (lists_of code.old) (lists_of code.new) start InsIs.Finish (block_of block.entry.now)) }
{
    let mut scope = Scope::new(alloc);
    add_data(&mut scope, vars)?;
    add_params(&mut scope, params)?;
    link_body(code, block, &mut scope, calls, Ins::Finish)
}

/// Links bodies one after another behind the code that is there, and tells where they start.
fn link_ops<'a, C: Calls>(
    alloc: Global,
    code: &mut Code,
    bodies: &[OpBody<'a>],
    calls: &C,
) -> Result<Vec<u32>, NoMemory>
    ensures { IfOk result (λ starts. PartsLeft (C.leads calls.now) InsIs.Return (lists_of code.old) (lists_of code.new)
        (map op_part (map body_of bodies.now)) [] starts.items) }
{
    let mut starts = Vec::new(alloc);
    let mut at = 0;
    'ops: while at < bodies.len() {
        let body = bodies[at];
        at += 1;
        let start = link_op(alloc, code, body, calls)?;
        starts.push(start)?;
    }
    Ok(starts)
}

/// Links the block of a unit that is a task, and adds where it starts to the others.
fn link_unit<'a, C: Calls>(
    alloc: Global,
    code: &mut Code,
    starts: &mut Vec<u32>,
    unit: &'a Unit,
    calls: &C,
) -> Result<(), NoMemory>
    ensures { OnOk result ((from : Lists) (whole : List Part) (durations : ℕ → List ℕ) (i : ℕ) (us : List UnitTree)
        → PartsLeft (C.leads calls.now) InsIs.Finish from (lists_of code.old) whole
        (map task_part (threads_from durations i (unit_of unit.entry.now ∷ us))) starts.old.items
        → PartsLeft (C.leads calls.now) InsIs.Finish from (lists_of code.new) whole (map task_part (threads_from durations (i + 1) us))
        starts.new.items) }
{
    match &unit.form {
        Form::Passive { .. } => Ok(()),
        Form::Shared { .. } => Ok(()),
        Form::Cyclic { vars, block, .. } => {
            let start = link_task(alloc, code, block, &[], vars, calls)?;
            starts.push(start)?;
            Ok(())
        }
        Form::Sporadic {
            op,
            vars,
            block,
            ..
        } => {
            let start = link_task(alloc, code, block, &op.params, vars, calls)?;
            starts.push(start)?;
            Ok(())
        }
    }
}

/// Links the blocks of tasks one after another behind the code that is there, and tells where they start.
fn link_tasks<'a, C: Calls>(
    alloc: Global,
    code: &mut Code,
    units: &'a [Unit],
    calls: &C,
) -> Result<Vec<u32>, NoMemory>
    ensures { IfOk result (λ starts. (durations : ℕ → List ℕ) → PartsLeft (C.leads calls.now) InsIs.Finish (lists_of code.old) (lists_of code.new)
        (map task_part (threads_from durations 0 (map unit_of units.entry.now))) [] starts.items) }
{
    let mut starts = Vec::new(alloc);
    let mut left = units;
    'units: while let Some((unit, rest)) = left.split_first() {
        left = rest;
        link_unit(alloc, code, &mut starts, unit, calls)?;
    }
    Ok(starts)
}

/// Links the units of a program: the body of each operation to which calls lead, and the block of each task. Each name and each call is
/// looked up once. The one error is a failed allocation, or more than 32 bits can count.
pub fn link_units<'a>(alloc: Global, units: &'a [Unit]) -> Result<LinkedUnits<'a>, NoMemory>
    ensures { IfOk result (AreLinked (map unit_of units.entry.now)) }
{
    let callees = Callees::of_units(alloc, units)?;
    let mut code = Code::new(alloc);
    let starts = link_ops(alloc, &mut code, callees.bodies(), &callees)?;
    let tasks = link_tasks(alloc, &mut code, units, &callees)?;
    let ops = callees.into_bodies();
    Ok(LinkedUnits {
        code,
        ops,
        starts,
        tasks,
    })
}
