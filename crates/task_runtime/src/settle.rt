ghost use Rattle.std.specs.Prelude.{slice_get};
ghost use Rattle.linker.specs.Standing.{lists_of};
ghost use Rattle.task_runtime.specs.Settling.{IsSomewhere, Settles, Still};

use linker::{Code, Ins};

/// The place where it goes on from a place in no time, behind jumps.
pub fn settled(code: &Code, at: usize) -> usize
    requires { IsSomewhere (lists_of code.now) at }
    ensures lands { Settles (lists_of code.now) at result }
    ensures still { Still (slice_get code.now.ins.items result) }
{
    let Ins::Jump(to) = code.ins[at] else {
        return at;
    };
    settled(code, to as usize)
}
