ghost use Rattle.std.specs.Prelude.{◌≡◌, ◌<◌, IfOk, length};
ghost use Rattle.seq_tree.specs.Lists.{Each};
ghost use Rattle.ada_tree.specs.Rules.{MeetsRules};
ghost use Rattle.ada_tree.specs.Trees.{program_of};
ghost use Rattle.trace_tree.specs.Lines.{unit_name};
ghost use Rattle.trace_tree.specs.Placed.{IsPlaced};
ghost use Rattle.guarantee.specs.Events.{named};
ghost use Rattle.guarantee.specs.Software.{program_software};
ghost use Rattle.law_traces.specs.Clear.{IsClear};
ghost use Rattle.design_accepts.specs.Units.{IsQuick, SaysOf};

use crate::called::called_in;
use crate::unaccepted::Unaccepted;
use ada_tree::{AdaProgram, Unit};
use seq_eval::Calls;
use seq_tree::{Name, NoMemory};
use std::alloc::Global;
use trace_read::Events;
use trace_scripts::{Scene, Wrong, first_wrong};

/// The unit at a place.
#[tactic(auto, using(crate::proofs::Scenery::name_steps))]
fn unit_at(program: &AdaProgram, place: usize) -> &Unit
    requires { place < length (program_of program.now).units }
    ensures { unit_name (program_of program.now) place ≡ result.now.name }
{
    &program.units[place]
}

/// The name of the unit at a place. No unit stands behind the last place; want of memory is answered there.
fn name_at(alloc: Global, program: &AdaProgram, place: usize) -> Result<Name, NoMemory>
    ensures { IfOk result (λ n. n ≡ unit_name (program_of program.now) place) }
{
    if place < program.units.len() {
        unit_at(program, place).name.copy(alloc)
    } else {
        Err(NoMemory)
    }
}

/// The first thread of a program that strays along a trace, or else the first object that isn't served.
pub(crate) fn judge_units(
    alloc: Global,
    program: &AdaProgram,
    events: &Events,
) -> Result<(), Unaccepted>
    requires meets { MeetsRules (program_of program.now) }
    requires quick { IsQuick (program_of program.now) }
    requires placed { Each (IsPlaced (program_of program.now)) events.now }
    ensures { (clear : IsClear (program_software (program_of program.now)))
        → SaysOf (program_software (program_of program.now)) clear.depth (named (program_of program.now) events.now) result }
{
    let called = called_in(alloc, program)?;
    let calls = Calls::of(
        alloc,
        called.passive.as_slice(),
        called.owners.as_slice(),
        called.shared.as_slice(),
        called.requests.as_slice(),
    )?;
    let scene = Scene {
        program,
        calls: &calls,
    };
    match first_wrong(alloc, &scene, events)? {
        None => Ok(()),
        Some(Wrong::Thread(place)) => Err(Unaccepted::Script {
            thread: name_at(alloc, program, place)?,
        }),
        Some(Wrong::Object(place)) => Err(Unaccepted::Shared {
            object: name_at(alloc, program, place)?,
        }),
    }
}
