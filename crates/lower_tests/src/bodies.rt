//! The first fault of a body, and the ticks of a block.

use super::counts::{block, operation};
use super::looks::check_same;
use seq_check::{BodyFault, Scope, check_block};
use seq_cost::{Callee, TooDear, cost};
use seq_tree::{Costs, Name};
use std::alloc::Global;
use std::process::Abort;

/// Each kind of statement has another cost, so that it shows which was added.
const COSTS: Costs = Costs {
    assign: 1,
    test: 20,
    turn: 300,
    call: 1000,
    nothing: 5,
    put: 6,
    finish: 7,
};

#[test]
fn the_first_fault_of_a_body_is_told(rt: HostRuntime) {
    let mut scope = Scope {
        reads: Vec::new(rt.alloc()),
        writes: Vec::new(rt.alloc()),
        calls: Vec::new(rt.alloc()),
    };
    scope
        .reads
        .push(Name::make(rt.alloc(), b"x").expect(&rt, "memory"))
        .expect(&rt, "memory");
    for (text, fault) in [
        ("put (x); null; end", None),
        ("put (y); x := 1; end", Some(BodyFault::Unknown)),
        ("x := 1; put (y); end", Some(BodyFault::Assigned)),
    ] {
        let found = check_block(rt.alloc(), &mut scope, &block(&rt, rt.alloc(), text)).err();
        check_same(&rt, &found, &fault, text);
    }
}

#[test]
fn a_block_costs_its_dearest_path(rt: HostRuntime) {
    let mut callees = Vec::new(rt.alloc());
    callees
        .push(Callee {
            name: operation(&rt, rt.alloc(), "p", "f"),
            cost: 4000,
        })
        .expect(&rt, "memory");
    for (text, ticks) in [
        (
            "if x = 1 then p.f; else null; end if; put (x); end",
            Ok(5026),
        ),
        (
            "for i in word range 1 .. 2 loop x := i; end loop; end",
            Ok(602),
        ),
        (
            "null; work (1000000000); end",
            Err(TooDear { statement: 1 }),
        ),
    ] {
        let found = cost(&block(&rt, rt.alloc(), text), &COSTS, &callees);
        check_same(&rt, &found, &ticks, text);
    }
}
