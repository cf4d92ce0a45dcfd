//! A program that is linked: where its bodies stand, and where its calls lead.

use super::looks::{check_same, check_that};
use crate::openings::TWO_OBJECTS;
use ada_read::read_ada;
use linker::{Ins, link_units};
use std::process::Abort;
use std::test::Fail;

/// Looks at some of the instructions.
fn check_code(rt: &impl Abort, ins: &[Ins]) {
    check_same(rt, &ins.len(), &11, "the instructions");
    check_that(rt, matches!(ins.get(2), Some(Ins::Work(2))), "some work");
    check_that(rt, matches!(ins.get(3), Some(Ins::Return)), "an end");
    let is_call = matches!(ins.get(5), Some(Ins::Call { op: 1, outs: 0, .. }));
    check_that(rt, is_call, "a call");
    check_that(
        rt,
        matches!(ins.get(8), Some(Ins::Finish)),
        "an end of a task",
    );
}

#[test]
fn the_units_of_a_program_are_linked(rt: HostRuntime) -> Result<(), Fail> {
    let program = read_ada(rt.alloc(), TWO_OBJECTS.as_bytes())?;
    let linked = link_units(rt.alloc(), &program.units)?;
    // The operations of both objects are `work` and an end, and behind them stand the calls of the three tasks.
    check_that(
        &rt,
        linked.starts.as_slice() == [0, 2].as_slice(),
        "where bodies begin",
    );
    check_that(
        &rt,
        linked.tasks.as_slice() == [4, 7, 9].as_slice(),
        "where tasks begin",
    );
    check_same(&rt, &linked.ops.len(), &2, "the operations");
    check_code(&rt, &linked.code.ins);
    Ok(())
}
