//! Blocks that are followed along scripts of actions.

use super::counts::{block, operation};
use super::looks::{check_same, check_that};
use seq_eval::{Action, Env, Followed, follow};
use seq_tree::{Block, Callable, Costs, Datum, Expr, Mode, Name, OpSig, OpText, Param, Stmt};
use std::alloc::Global;
use std::process::Abort;

/// The least costs that may be.
const COSTS: Costs = Costs {
    assign: 1,
    test: 1,
    turn: 1,
    call: 2,
    nothing: 1,
    put: 1,
    finish: 1,
};

/// An action of a row: `task.op` of a request or `object.op` of another.
#[derive(Clone, Copy)]
enum Told {
    Enter(&'static str, &'static str, &'static [u32]),
    Leave(&'static str, &'static str, &'static [u32]),
    Request(&'static str, &'static str, Option<u32>),
    Print(u32),
}

/// A block, which is followed where x is 5, y is 0 and z is 0; a script; the answer; and y and z after it.
struct Row {
    text: &'static str,
    script: &'static [Told],
    answer: Followed,
    y: u32,
    z: u32,
}

const PRINTS: &str = "put (4294967295 + 1); end";

const TURNS: &str = "for i in word range 1 .. 3 loop put (i); end loop; end";

const SWAPS: &str = "q.swap (x, y, z); put (y - z); end";

const ASKS: &str = "s.start (x + 1); t.go; end";

const BOTH: &str = "p.both (x, y, z); put (y); end";

const ROWS: [Row; 21] = [
    Row {
        text: PRINTS,
        script: &[Told::Print(0)],
        answer: Followed::Done { low: 1, high: 1 },
        y: 0,
        z: 0,
    },
    Row {
        text: PRINTS,
        script: &[],
        answer: Followed::Short,
        y: 0,
        z: 0,
    },
    Row {
        text: PRINTS,
        script: &[Told::Print(1)],
        answer: Followed::Off(0),
        y: 0,
        z: 0,
    },
    Row {
        text: PRINTS,
        script: &[Told::Print(0), Told::Print(0)],
        answer: Followed::Off(1),
        y: 0,
        z: 0,
    },
    Row {
        text: "if x = 4 then put (1); elsif x = 5 then y := 7; put (2); else put (3); end if; work (9); end",
        script: &[Told::Print(2)],
        answer: Followed::Done { low: 5, high: 13 },
        y: 7,
        z: 0,
    },
    Row {
        text: TURNS,
        script: &[Told::Print(1), Told::Print(2), Told::Print(3)],
        answer: Followed::Done { low: 6, high: 6 },
        y: 0,
        z: 0,
    },
    Row {
        text: TURNS,
        script: &[Told::Print(1), Told::Print(2)],
        answer: Followed::Short,
        y: 0,
        z: 0,
    },
    Row {
        text: TURNS,
        script: &[
            Told::Print(1),
            Told::Print(2),
            Told::Print(3),
            Told::Print(3),
        ],
        answer: Followed::Off(3),
        y: 0,
        z: 0,
    },
    Row {
        text: "for i in word range 1 .. 9 loop put (i); exit when i = x - 3; y := i; end loop; put (x); end",
        script: &[Told::Print(1), Told::Print(2), Told::Print(5)],
        answer: Followed::Done { low: 8, high: 8 },
        y: 1,
        z: 0,
    },
    Row {
        text: "for i in word range 2 .. 1 loop put (i); end loop; null; end",
        script: &[],
        answer: Followed::Done { low: 1, high: 1 },
        y: 0,
        z: 0,
    },
    Row {
        text: "p.twice (x, y); put (y); end",
        script: &[Told::Print(10)],
        answer: Followed::Done { low: 5, high: 7 },
        y: 10,
        z: 0,
    },
    Row {
        text: "p.outer (x, y); put (y); end",
        script: &[Told::Print(11)],
        answer: Followed::Done { low: 8, high: 10 },
        y: 11,
        z: 0,
    },
    Row {
        text: BOTH,
        script: &[Told::Print(6)],
        answer: Followed::Done { low: 5, high: 5 },
        y: 6,
        z: 7,
    },
    Row {
        text: BOTH,
        script: &[Told::Print(7)],
        answer: Followed::Off(0),
        y: 0,
        z: 0,
    },
    Row {
        text: SWAPS,
        script: &[
            Told::Enter("q", "swap", &[5]),
            Told::Leave("q", "swap", &[9, 4]),
            Told::Print(5),
        ],
        answer: Followed::Done { low: 3, high: 3 },
        y: 9,
        z: 4,
    },
    Row {
        text: SWAPS,
        script: &[Told::Enter("q", "swap", &[6])],
        answer: Followed::Off(0),
        y: 0,
        z: 0,
    },
    Row {
        text: SWAPS,
        script: &[
            Told::Enter("q", "swap", &[5]),
            Told::Leave("q", "swap", &[9]),
        ],
        answer: Followed::Off(1),
        y: 0,
        z: 0,
    },
    Row {
        text: SWAPS,
        script: &[Told::Enter("q", "swap", &[5])],
        answer: Followed::Short,
        y: 0,
        z: 0,
    },
    Row {
        text: ASKS,
        script: &[
            Told::Request("s", "start", Some(6)),
            Told::Request("t", "go", None),
        ],
        answer: Followed::Done { low: 8, high: 8 },
        y: 0,
        z: 0,
    },
    Row {
        text: ASKS,
        script: &[Told::Request("s", "start", Some(7))],
        answer: Followed::Off(0),
        y: 0,
        z: 0,
    },
    Row {
        text: ASKS,
        script: &[
            Told::Request("s", "start", Some(6)),
            Told::Request("t", "start", None),
        ],
        answer: Followed::Off(1),
        y: 0,
        z: 0,
    },
];

/// A name.
fn name(rt: &impl Abort, alloc: Global, text: &str) -> Name {
    Name::make(alloc, text.as_bytes()).expect(rt, "memory")
}

/// The head of an operation: its name, the parameters that hand a value in, and those that hand one out.
type Head = (
    &'static str,
    &'static [&'static str],
    &'static [&'static str],
);

/// Adds parameters of a mode.
fn push_params(
    rt: &impl Abort,
    alloc: Global,
    params: &mut Vec<Param>,
    names: &[&str],
    mode: Mode,
) {
    for param in names {
        params
            .push(Param {
                name: name(rt, alloc, param),
                mode,
            })
            .expect(rt, "memory");
    }
}

/// The head of an operation.
fn sig(rt: &impl Abort, alloc: Global, head: Head) -> OpSig {
    let (op, ins, outs) = head;
    let mut params = Vec::new(alloc);
    push_params(rt, alloc, &mut params, ins, Mode::In);
    push_params(rt, alloc, &mut params, outs, Mode::Out);
    OpSig {
        name: name(rt, alloc, op),
        params,
    }
}

/// An operation with one local, k.
fn op(rt: &impl Abort, alloc: Global, head: Head, body: &str) -> OpText {
    let mut locals = Vec::new(alloc);
    locals
        .push(Datum {
            name: name(rt, alloc, "k"),
            value: 2,
        })
        .expect(rt, "memory");
    OpText {
        sig: sig(rt, alloc, head),
        locals,
        block: block(rt, alloc, body),
    }
}

/// An action.
fn action(rt: &impl Abort, alloc: Global, told: Told) -> Action {
    match told {
        Told::Enter(object, op, values) => Action::Enter {
            name: operation(rt, alloc, object, op),
            values: Vec::from_slice(alloc, values).expect(rt, "memory"),
        },
        Told::Leave(object, op, values) => Action::Leave {
            name: operation(rt, alloc, object, op),
            values: Vec::from_slice(alloc, values).expect(rt, "memory"),
        },
        Told::Request(task, op, value) => Action::Request {
            name: operation(rt, alloc, task, op),
            value,
        },
        Told::Print(value) => Action::Print(value),
    }
}

/// The passive operations of `p`, and their bodies.
const PASSIVE: &[(Head, &str)] = &[
    (("twice", &["n"], &["m"]), "m := n * k; work (3); end"),
    (("outer", &["n"], &["m"]), "p.twice (n, m); m := m + 1; end"),
    (("both", &["n"], &["a", "b"]), "a := n + 1; b := n + 2; end"),
];

/// The protected operation, and those that request tasks.
const SHARED: &[(&str, Head)] = &[("q", ("swap", &["a"], &["b", "c"]))];

const REQUESTS: &[(&str, Head)] = &[("s", ("start", &["v"], &[])), ("t", ("go", &[], &[]))];

/// The passive operations, and the object of each.
fn passive(rt: &impl Abort, alloc: Global) -> (Vec<OpText>, Vec<Name>) {
    let mut ops = Vec::new(alloc);
    let mut owners = Vec::new(alloc);
    for (head, body) in PASSIVE {
        ops.push(op(rt, alloc, *head, body)).expect(rt, "memory");
        owners.push(name(rt, alloc, "p")).expect(rt, "memory");
    }
    (ops, owners)
}

/// Operations of objects.
fn callables(rt: &impl Abort, alloc: Global, heads: &[(&str, Head)]) -> Vec<Callable> {
    let mut all = Vec::new(alloc);
    for (object, head) in heads {
        all.push(Callable {
            object: name(rt, alloc, object),
            sig: sig(rt, alloc, *head),
        })
        .expect(rt, "memory");
    }
    all
}

/// The variables before a block.
fn variables(rt: &impl Abort, alloc: Global) -> Env {
    let mut slots = Vec::new(alloc);
    for (text, value) in [("x", 5), ("y", 0), ("z", 0)] {
        slots
            .push((name(rt, alloc, text), value))
            .expect(rt, "memory");
    }
    Env { slots }
}

/// The script of a row.
fn script(rt: &impl Abort, alloc: Global, row: &Row) -> Vec<Action> {
    let mut all = Vec::new(alloc);
    for told in row.script {
        all.push(action(rt, alloc, *told)).expect(rt, "memory");
    }
    all
}

/// Follows a block along a script, where calls lead to these; each passive operation has an object.
fn followed(
    rt: &impl Abort,
    alloc: Global,
    block: &Block,
    passive: (&[OpText], &[Name]),
    shared: &[Callable],
    requests: &[Callable],
    env: &mut Env,
    script: &[Action],
) -> Followed {
    let (ops, owners) = passive;
    check_that(
        rt,
        owners.len() == ops.len(),
        "each operation has an object",
    );
    follow(
        alloc, block, &COSTS, ops, owners, shared, requests, env, script,
    )
    .expect(rt, "memory")
}

/// Looks at the answer of following the block of a row along its script, and at the variables after it.
fn check_followed(rt: &impl Abort, alloc: Global, row: &Row) {
    let (ops, owners) = passive(rt, alloc);
    let mut env = variables(rt, alloc);
    let answer = followed(
        rt,
        alloc,
        &block(rt, alloc, row.text),
        (&ops, &owners),
        &callables(rt, alloc, SHARED),
        &callables(rt, alloc, REQUESTS),
        &mut env,
        &script(rt, alloc, row),
    );
    check_same(rt, &answer, &row.answer, row.text);
    for (slot, wanted) in env.slots.iter().zip([5, row.y, row.z]) {
        check_same(rt, &slot.1, &wanted, row.text);
    }
}

#[test]
fn blocks_are_followed(rt: HostRuntime) {
    for row in &ROWS {
        check_followed(&rt, rt.alloc(), row);
    }
}

/// The name of the operation at a place in a chain.
fn link(rt: &impl Abort, alloc: Global, place: usize) -> Name {
    let letter = |n: usize| b'a'.wrapping_add((n % 26) as u8);
    let bytes = [b'f', letter(place / 676), letter(place / 26), letter(place)];
    Name::make(alloc, &bytes).expect(rt, "memory")
}

/// The body of the operation at a place in a chain: it calls the next one, and the last prints.
fn body(rt: &impl Abort, alloc: Global, place: usize) -> Stmt {
    if place == 14999 {
        return Stmt::Put(Expr::Number(7));
    }
    Stmt::Call {
        object: name(rt, alloc, "p"),
        op: link(rt, alloc, place.saturating_add(1)),
        actuals: Vec::new(alloc),
    }
}

/// The operation at a place in a chain.
fn chain_op(rt: &impl Abort, alloc: Global, place: usize) -> OpText {
    let mut stmts = Vec::new(alloc);
    stmts.push(body(rt, alloc, place)).expect(rt, "memory");
    OpText {
        sig: OpSig {
            name: link(rt, alloc, place),
            params: Vec::new(alloc),
        },
        locals: Vec::new(alloc),
        block: Block { stmts },
    }
}

#[test]
fn no_chain_of_calls_is_too_long(rt: HostRuntime) {
    let mut ops = Vec::new(rt.alloc());
    let mut owners = Vec::new(rt.alloc());
    for place in 0..15000_usize {
        ops.push(chain_op(&rt, rt.alloc(), place))
            .expect(&rt, "memory");
        owners
            .push(name(&rt, rt.alloc(), "p"))
            .expect(&rt, "memory");
    }
    let mut env = Env {
        slots: Vec::new(rt.alloc()),
    };
    let answer = followed(
        &rt,
        rt.alloc(),
        &block(&rt, rt.alloc(), "p.faaa; end"),
        (&ops, &owners),
        &[],
        &[],
        &mut env,
        &[Action::Print(7)],
    );
    let wanted = Followed::Done {
        low: 30001,
        high: 30001,
    };
    check_same(&rt, &answer, &wanted, "a chain of calls");
}
