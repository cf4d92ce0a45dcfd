ghost use Rattle.std.specs.Prelude.{◌≡◌, ◌≤◌, ◌<◌, map, length, vec_len, vec_capacity, IfOk};
ghost use Rattle.ada_tree.specs.Trees.{unit_of};
ghost use Rattle.task_runtime.specs.Libraries.{handed_threads};
ghost use Rattle.task_runtime.specs.Written.{thread_of};
ghost use Rattle.ceil_runtime.specs.Gathering.{Adds, AllThreads, IsThreadOf};

use ada_tree::{Form, Unit};
use arrivals_tree::WorkList;
use seq_tree::NoMemory;
use std::alloc::Global;
use task_runtime::{Thread, Timing};

/// Adds the task that a unit at a place is, where it is one.
fn add_thread<'a>(
    threads: &mut Vec<Thread<'a>>,
    units: &'a [Unit],
    work: &'a [WorkList],
    place: u32,
    unit: &'a Unit,
)
    requires room { vec_len threads.old < vec_capacity threads.old }
    ensures adds { Adds work.entry.now units.entry.now place unit.entry.now threads.old.items threads.new.items }
    ensures capacity { vec_capacity threads.new ≡ vec_capacity threads.old }
{
    match &unit.form {
        Form::Cyclic {
            priority,
            offset,
            period,
            vars,
            block,
        } => threads.push_reserved(Thread {
            units,
            work,
            unit: place,
            name: &unit.name,
            priority: *priority,
            timing: Timing::Periodic {
                offset: *offset,
                period: *period,
            },
            data: vars.as_slice(),
            stmts: block.stmts.as_slice(),
        }),
        Form::Sporadic {
            priority,
            ceiling,
            op,
            separation,
            jitter,
            external,
            vars,
            block,
        } => threads.push_reserved(Thread {
            units,
            work,
            unit: place,
            name: &unit.name,
            priority: *priority,
            timing: Timing::Requested {
                op,
                ceiling: *ceiling,
                separation: *separation,
                jitter: *jitter,
                external: *external,
            },
            data: vars.as_slice(),
            stmts: block.stmts.as_slice(),
        }),
        Form::Passive { .. } => {}
        Form::Shared { .. } => {}
    }
}

/// The tasks among units, in their order. A failed allocation is the one error.
pub fn threads_in<'a>(
    alloc: Global,
    units: &'a [Unit],
    work: &'a [WorkList],
) -> Result<Vec<Thread<'a>>, NoMemory>
    requires few { length units.now ≤ 500 }
    ensures all { IfOk result (λ ts. map thread_of ts.items ≡ handed_threads work.entry.now 0 (map unit_of units.entry.now)) }
    ensures each { IfOk result (λ ts. AllThreads (IsThreadOf work.entry.now units.entry.now) ts.items) }
    ensures few { IfOk result (λ ts. length ts.items ≤ length units.entry.now) }
{
    let mut threads = Vec::with_capacity(alloc, units.len())?;
    let mut place: u32 = 0;
    'units: for unit in units {
        add_thread(&mut threads, units, work, place, unit);
        place += 1;
    }
    Ok(threads)
}
