//! Designs of examples, from the texts of their objects.
//!
//! | Key | The design |
//! |---|---|
//! | `whole` | these bytes |
//! | `root` | this object alone |
//! | `children` | these objects, in an active one |
//! | `head` | beside `root`: of version 2, with this between its version and its costs |
//! | `parenthesised` | of an object whose thread assigns a number in so many parentheses, on a line of its own |
//! | `sum` | of an object whose thread assigns a sum of so many operators, on a line of its own |
//! | `nested` | of so many objects, each in the one before it, on a line of its own and without an end |
//! | `doubling` | of passive objects of which each calls the next one twice, up to this many |
//! | `many` | of so many passive objects in an active one |
//! | `linked` | of a cyclic object that calls, so many times, an operation whose link leads to names of 64 bytes |
//! | none of these | of one cyclic object, with `object`, `attributes`, `thread` and the cost of `null;` in `null` |
//! | `design_len` | beside any: with spaces behind it, up to so many bytes |

use super::rows::{lengthened, number, value};
use super::texts::{counted, filled};
use std::alloc::Global;
use std::process::Abort;

/// The designs of the keys, the first that a row has; each row has an object.
const SHAPES: &[(&str, &str)] = &[
    ("whole", "{whole}"),
    (
        "children",
        "DESIGN d IS {costs}\nOBJECT r IS ACTIVE OBJECTS {children} END r;\nEND d;\n",
    ),
    (
        "head",
        "DESIGN d VERSION 2 IS {head} {costs}\n{root}\nEND d;\n",
    ),
    ("root", "DESIGN d IS {costs}\n{root}\nEND d;\n"),
    (
        "parenthesised",
        "DESIGN d IS {costs}\nOBJECT a IS CYCLIC ATTRIBUTES PERIOD = 10; DEADLINE = 10; THREAD_BUDGET = 1000;\n\
        DATA x : word := 0; THREAD\nx := {(*parenthesised}1{)*parenthesised};\nEND THREAD; END a;\nEND d;\n",
    ),
    (
        "sum",
        "DESIGN d IS {costs}\nOBJECT a IS CYCLIC ATTRIBUTES PERIOD = 10; DEADLINE = 10; THREAD_BUDGET = 1000;\n\
        DATA x : word := 0; THREAD\nx := 1{ + 1*sum};\nEND THREAD; END a;\nEND d;\n",
    ),
    (
        "linked",
        "DESIGN d IS {costs}\nOBJECT r IS ACTIVE OBJECTS OBJECT a IS ACTIVE PROVIDES f PAER; OBJECTS \
        OBJECT nnnnnnnnnnnnnnnnnnnnnnnnnnnnnnnnnnnnnnnnnnnnnnnnnnnnnnnnnnnnnnnn IS PROTECTED \
        PROVIDES mmmmmmmmmmmmmmmmmmmmmmmmmmmmmmmmmmmmmmmmmmmmmmmmmmmmmmmmmmmmmmmm PAER; \
        OPERATION mmmmmmmmmmmmmmmmmmmmmmmmmmmmmmmmmmmmmmmmmmmmmmmmmmmmmmmmmmmmmmmm IS BEGIN null; \
        END mmmmmmmmmmmmmmmmmmmmmmmmmmmmmmmmmmmmmmmmmmmmmmmmmmmmmmmmmmmmmmmm; \
        END nnnnnnnnnnnnnnnnnnnnnnnnnnnnnnnnnnnnnnnnnnnnnnnnnnnnnnnnnnnnnnnn; IMPLEMENTS f BY \
        nnnnnnnnnnnnnnnnnnnnnnnnnnnnnnnnnnnnnnnnnnnnnnnnnnnnnnnnnnnnnnnn.mmmmmmmmmmmmmmmmmmmmmmmmmmmmmmmmmmmmmmmmmmmmmmmmmmmmmmmmmmmmmmmm; \
        END a; OBJECT c IS CYCLIC ATTRIBUTES PERIOD = 1000000; DEADLINE = 1000000; THREAD_BUDGET = 1000000; \
        REQUIRES a.f; THREAD {a.f; *linked}END THREAD; END c; END r;\nEND d;\n",
    ),
    (
        "object",
        "DESIGN d IS\nCOSTS ASSIGN = 1; TEST = 1; TURN = 1; CALL = 2; NULL = {null}; PUT = 1; FINISH = 1; END COSTS;\n\
        OBJECT {object} IS CYCLIC\nATTRIBUTES {attributes}\nTHREAD {thread} END THREAD;\nEND {object};\nEND d;\n",
    ),
];

/// The template of a row's design, where it isn't made by counting.
fn shape(row: &str) -> &'static str {
    for (key, template) in SHAPES {
        if value(row, key).is_some() {
            return template;
        }
    }
    ""
}

/// The designs of the keys whose value is a count: the first number, what stands before the objects, the object of each number up to the
/// count, and what stands behind them.
const COUNTED: &[(&str, usize, &str, &str, &str)] = &[
    ("nested", 0, "", "OBJECT o{k} IS ACTIVE OBJECTS\n", ""),
    (
        "many",
        0,
        "OBJECT r IS ACTIVE OBJECTS ",
        "OBJECT p{k} IS PASSIVE PROVIDES f; OPERATION f IS BEGIN null; END f; END p{k}; ",
        "END r;",
    ),
    (
        "doubling",
        1,
        "OBJECT r IS ACTIVE OBJECTS ",
        "OBJECT p{k} IS PASSIVE PROVIDES f; REQUIRES p{next}.f; OPERATION f IS BEGIN p{next}.f; p{next}.f; END f; END p{k}; ",
        "OBJECT p{doubling} IS PASSIVE PROVIDES f; OPERATION f IS BEGIN null; END f; END p{doubling}; END r;",
    ),
];

/// The text of a row's design, without spaces behind it.
fn shape_text(rt: &impl Abort, alloc: Global, row: &str) -> Vec<u8> {
    for (key, from, before, object, behind) in COUNTED {
        if let Some(count) = value(row, key) {
            let objects = counted(rt, alloc, *from, number(count), object);
            let mut all = filled(rt, alloc, &["DESIGN d IS {costs}\n", before], row);
            all.extend_from_slice(objects.as_bytes())
                .expect(rt, "memory");
            all.extend_from_slice(&filled(rt, alloc, &[behind, "\nEND d;\n"], row))
                .expect(rt, "memory");
            return all;
        }
    }
    filled(rt, alloc, &[shape(row)], row)
}

/// The bytes of a row's design.
pub fn design_bytes(rt: &impl Abort, alloc: Global, row: &str) -> Vec<u8> {
    lengthened(rt, alloc, &shape_text(rt, alloc, row), row, "design_len")
}
