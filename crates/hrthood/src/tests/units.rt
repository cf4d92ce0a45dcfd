//! Ada texts of programs whose units a row has in a short form, one a line, in order.
//!
//! | Key | The unit |
//! |---|---|
//! | `passive` | `NAME PROFILE is LOCALS begin STATEMENTS`, its operation with its locals and its body |
//! | `protected` | `NAME CEILING PROFILE is DATA begin STATEMENTS`, its operation with the data of the object and its body |
//! | `cyclic` | `NAME PRIORITY OFFSET PERIOD is DATA begin STATEMENTS`, its task |
//! | `started` | `NAME PRIORITY CEILING SEPARATION JITTER PROFILE is DATA begin STATEMENTS`, its task, which others request |
//! | `external` | the same, where the requests come from outside |
//!
//! A profile is a name and the parameters, as `set (v : in word)`; the parameter of a request is `v`.

use super::texts::{beside, filled, joined};
use std::alloc::Global;
use std::process::Abort;

/// The keys of the words in the line of a unit of each kind, in order, before its profile.
const HEADS: &[(&str, &str)] = &[
    ("passive", "name"),
    ("protected", "name ceiling"),
    ("cyclic", "name priority offset period"),
    ("started", "name priority ceiling separation jitter"),
    ("external", "name priority ceiling separation jitter"),
];

/// The specification of a sporadic unit.
const SPORADIC_SPEC: &str =
    "package {name} is protected hrt_obcs is pragma priority ({ceiling}); procedure {profile}; entry hrt_wait (hrt_request : out word); \
    private hrt_value : word := 0; hrt_open : boolean := false; end hrt_obcs; procedure {profile} renames hrt_obcs.{operation}; \
    task hrt_thread is pragma priority ({priority}); end hrt_thread; hrt_separation : constant := {separation}; \
    hrt_jitter : constant := {jitter}; hrt_external : constant boolean := {external}; end {name};\n";

/// The specification of a unit of each kind.
pub const SPECS: &[(&str, &str)] = &[
    (
        "passive",
        "package {name} is procedure {profile}; end {name};\n",
    ),
    (
        "protected",
        "package {name} is protected hrt_object is pragma priority ({ceiling}); procedure {profile}; private {data} end hrt_object; \
        procedure {profile} renames hrt_object.{operation}; end {name};\n",
    ),
    (
        "cyclic",
        "package {name} is task hrt_thread is pragma priority ({priority}); end hrt_thread; end {name};\n",
    ),
    ("started", SPORADIC_SPEC),
    ("external", SPORADIC_SPEC),
];

/// The body of a sporadic unit.
const SPORADIC_BODY: &str =
    "package body {name} is {data} protected body hrt_obcs is procedure {profile} is begin hrt_value := {handed}; hrt_open := true; \
    end {operation}; entry hrt_wait (hrt_request : out word) when hrt_open is begin hrt_request := hrt_value; hrt_open := false; \
    end hrt_wait; end hrt_obcs; task body hrt_thread is {released} : word := 0; begin loop hrt_obcs.hrt_wait ({released}); \
    {statements} activation_end; end loop; end hrt_thread; end {name};\n";

/// The body of a unit of each kind.
pub const BODIES: &[(&str, &str)] = &[
    (
        "passive",
        "package body {name} is procedure {profile} is {data} begin {statements} end {operation}; end {name};\n",
    ),
    (
        "protected",
        "package body {name} is protected body hrt_object is procedure {profile} is begin {statements} end {operation}; end hrt_object; \
        end {name};\n",
    ),
    (
        "cyclic",
        "package body {name} is {data} task body hrt_thread is hrt_next : hrt.moment := hrt.after (hrt.epoch, {offset}); begin loop \
        delay until hrt_next; hrt_next := hrt.after (hrt_next, {period}); {statements} activation_end; end loop; end hrt_thread; \
        end {name};\n",
    ),
    ("started", SPORADIC_BODY),
    ("external", SPORADIC_BODY),
];

/// What stands before a separator and behind it; all stands before one that is missing.
pub fn cut<'x>(text: &'x str, separator: &'x str) -> (&'x str, &'x str) {
    match text.split_once(separator) {
        Some(parts) => parts,
        None => (text, ""),
    }
}

/// The first words of a unit by their keys, one a line.
fn head_row(rt: &impl Abort, alloc: Global, keys: &str, head: &str) -> String {
    let mut row = String::new(alloc);
    let mut words = head.split_whitespace();
    for key in keys.split_whitespace() {
        let word = words.next().unwrap_or("");
        row.push_str(&format!(in alloc; "{key}: {word}\n").expect(rt, "memory"))
            .expect(rt, "memory");
    }
    row
}

/// What stands behind the first word.
fn rest<'x>(text: &'x str) -> &'x str {
    cut(text, " ").1
}

/// The profile of a unit of this kind, behind its first words; a cyclic unit has none.
fn profile_of<'x>(kind: &'x str, head: &'x str) -> &'x str {
    match kind {
        "passive" => rest(head),
        "protected" => rest(rest(head)),
        "cyclic" => "",
        _ => rest(rest(rest(rest(rest(head))))),
    }
}

/// What a control structure keeps at a request of this profile, and how its task names what it gets.
fn request<'x>(profile: &'x str) -> &'x str {
    if cut(profile, "(").1.is_empty() {
        "handed: 0\nreleased: hrt_request\n"
    } else {
        "handed: v\nreleased: v\n"
    }
}

/// The values of the unit of a line by their keys, one a line.
fn unit_row<'x>(rt: &impl Abort, alloc: Global, kind: &'x str, unit: &'x str) -> String {
    let (head, behind) = cut(unit, " is ");
    let (data, statements) = cut(behind, "begin ");
    let words = head_row(rt, alloc, beside(HEADS, kind), head);
    let profile = profile_of(kind, head);
    let external = if kind == "external" { "true" } else { "false" };
    joined(
        rt,
        alloc,
        &[
            &words,
            request(profile),
            "profile: ",
            profile,
            "\noperation: ",
            cut(profile, " ").0,
            "\nexternal: ",
            external,
            "\ndata: ",
            data,
            "\nstatements: ",
            statements,
        ],
    )
}

/// Adds the units of a row in the short form, each by the template of its kind.
pub fn push_units(
    rt: &impl Abort,
    alloc: Global,
    all: &mut Vec<u8>,
    row: &str,
    templates: &[(&str, &'static str)],
) {
    for line in row.lines() {
        let (key, unit) = cut(line, ": ");
        let kind = key.trim_start();
        let template = beside(templates, kind);
        if !template.is_empty() {
            let text = filled(rt, alloc, &[template], &unit_row(rt, alloc, kind, unit));
            all.extend_from_slice(&text).expect(rt, "memory");
        }
    }
}
