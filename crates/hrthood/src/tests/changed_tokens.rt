//! Each token of an Ada text, of a design and of an arrivals file, cut, doubled and replaced.
//!
//! A row says what is done to each: the `kind` of the text, as `run_file` has them; the `file` that its refusals name; its tokens by the
//! name of the text in `tokens`; the places, from 0, of the `first` token that is changed and of the `end`; and `out`, which is written
//! where it is taken. Then it has the exceptions, each a line: what is done, the place of the token, and `taken`, or the line that
//! refuses the text, or the number of the line of the fault, where that isn't told at the first token that differs.

use super::rows::{check_told, lines, number, run_file, text};
use super::units::cut;
use std::alloc::Global;
use std::process::Abort;

/// The tokens of a text with a passive unit and a task, a space behind each.
pub const ADA: &str =
    "pragma task_dispatching_policy ( fifo_within_priorities ) ; pragma locking_policy ( ceiling_locking ) ; with \
    ada . real_time ; package hrt is type word is mod 2 ** 32 ; subtype moment is ada . real_time . time ; \
    assign_cost : constant := 1 ; test_cost : constant := 1 ; turn_cost : constant := 1 ; call_cost : constant := \
    2 ; null_cost : constant := 1 ; put_cost : constant := 1 ; finish_cost : constant := 1 ; function epoch return \
    moment ; function after ( start : moment ; ticks : natural ) return moment ; procedure work ( ticks : positive \
    ) ; procedure put ( value : word ) ; procedure activation_end ; end hrt ; with hrt ; use hrt ; package d is \
    package p is procedure f ( v : in word ; w : out word ) ; end p ; package a is task hrt_thread is pragma \
    priority ( 1 ) ; end hrt_thread ; end a ; end d ; package body d is package body p is procedure f ( v : in \
    word ; w : out word ) is x : word := 1 ; begin x := ( v + 1 ) * 2 ; if x = 4 then w := x ; else w := 1 ; end \
    if ; end f ; end p ; package body a is sum : word := 0 ; task body hrt_thread is hrt_next : hrt . moment := \
    hrt . after ( hrt . epoch , 0 ) ; begin loop delay until hrt_next ; hrt_next := hrt . after ( hrt_next , 100 ) \
    ; for i in word range 1 .. 4 loop exit when i = 4 ; put ( sum + i ) ; end loop ; activation_end ; end loop ; \
    end hrt_thread ; end a ; end d ; with d ; procedure hrt_main is begin null ; end hrt_main ; ";

/// That text. A replay has three turns up to tick 20, each with an output, and a fourth that leaves the loop: a turn, a test, an output
/// and the end take a tick each. It is a program still without the `else`, where two assignments follow each other.
const ADA_ROW: &str = "kind: ada
    file: ada
    tokens: @changed ada
    first: 0
    end: 331
    out: 0 release a
    out: 3 put a 1
    out: 6 put a 2
    out: 9 put a 3
    out: 12 end a used 12
    out: 20 horizon
    cut 218 taken
    cut 144 146
    replaced 134 136
    replaced 144 146
    cut 198 200
    cut 201 205
    cut 205 208
    doubled 201 210
    replaced 206 208
    cut 209 211
    cut 223 225
    cut 226 228
    cut 280 282
    replaced 292 294
    doubled 296 303";

/// The tokens of a text with units of every kind, a space behind each.
pub const UNITS: &str =
    "pragma task_dispatching_policy ( fifo_within_priorities ) ; pragma locking_policy ( ceiling_locking ) ; with ada \
    . real_time ; package hrt is type word is mod 2 ** 32 ; subtype moment is ada . real_time . time ; assign_cost : \
    constant := 1 ; test_cost : constant := 1 ; turn_cost : constant := 1 ; call_cost : constant := 2 ; null_cost : \
    constant := 1 ; put_cost : constant := 1 ; finish_cost : constant := 1 ; function epoch return moment ; function \
    after ( start : moment ; ticks : natural ) return moment ; procedure work ( ticks : positive ) ; procedure put ( \
    value : word ) ; procedure activation_end ; end hrt ; with hrt ; use hrt ; package d is package q is protected \
    hrt_object is pragma priority ( 3 ) ; procedure set ( v : in word ) ; procedure get ( v : in word ; w : out word \
    ) ; private last : word := 0 ; end hrt_object ; procedure set ( v : in word ) renames hrt_object . set ; \
    procedure get ( v : in word ; w : out word ) renames hrt_object . get ; end q ; package s is protected hrt_obcs \
    is pragma priority ( 3 ) ; procedure start ( v : in word ) ; entry hrt_wait ( hrt_request : out word ) ; private \
    hrt_value : word := 0 ; hrt_open : boolean := false ; end hrt_obcs ; procedure start ( v : in word ) renames \
    hrt_obcs . start ; task hrt_thread is pragma priority ( 2 ) ; end hrt_thread ; hrt_separation : constant := 50 ; \
    hrt_jitter : constant := 0 ; hrt_external : constant boolean := false ; end s ; package t is protected hrt_obcs \
    is pragma priority ( 3 ) ; procedure go ; entry hrt_wait ( hrt_request : out word ) ; private hrt_value : word \
    := 0 ; hrt_open : boolean := false ; end hrt_obcs ; procedure go renames hrt_obcs . go ; task hrt_thread is \
    pragma priority ( 3 ) ; end hrt_thread ; hrt_separation : constant := 80 ; hrt_jitter : constant := 5 ; \
    hrt_external : constant boolean := true ; end t ; package a is task hrt_thread is pragma priority ( 1 ) ; end \
    hrt_thread ; end a ; package p is procedure f ( v : in word ) ; end p ; end d ; package body d is package body q \
    is protected body hrt_object is procedure set ( v : in word ) is begin last := v ; end set ; procedure get ( v : \
    in word ; w : out word ) is n : word := 1 ; begin w := last + n ; end get ; end hrt_object ; end q ; package \
    body s is protected body hrt_obcs is procedure start ( v : in word ) is begin hrt_value := v ; hrt_open := true \
    ; end start ; entry hrt_wait ( hrt_request : out word ) when hrt_open is begin hrt_request := hrt_value ; \
    hrt_open := false ; end hrt_wait ; end hrt_obcs ; task body hrt_thread is v : word := 0 ; begin loop hrt_obcs . \
    hrt_wait ( v ) ; put ( v ) ; activation_end ; end loop ; end hrt_thread ; end s ; package body t is x : word := \
    0 ; protected body hrt_obcs is procedure go is begin hrt_value := 0 ; hrt_open := true ; end go ; entry hrt_wait \
    ( hrt_request : out word ) when hrt_open is begin hrt_request := hrt_value ; hrt_open := false ; end hrt_wait ; \
    end hrt_obcs ; task body hrt_thread is hrt_request : word := 0 ; begin loop hrt_obcs . hrt_wait ( hrt_request ) \
    ; q . get ( 1 , x ) ; activation_end ; end loop ; end hrt_thread ; end t ; package body a is task body \
    hrt_thread is hrt_next : hrt . moment := hrt . after ( hrt . epoch , 0 ) ; begin loop delay until hrt_next ; \
    hrt_next := hrt . after ( hrt_next , 100 ) ; s . start ( 7 ) ; p . f ( 1 ) ; activation_end ; end loop ; end \
    hrt_thread ; end a ; package body p is procedure f ( v : in word ) is begin put ( v ) ; end f ; end p ; end d ; \
    with d ; procedure hrt_main is begin null ; end hrt_main ; ";

/// That text, whose tokens before the program are those of the Ada text above. In a replay up to tick 20 the call and the request of `a`
/// take four ticks; then `s` puts in 4 and ends with 5, and `a` calls in 6 and 7, puts in 8 and ends with 9. Nothing requests `t`.
const UNITS_ROW: &str = "kind: ada
    file: ada
    tokens: @changed units
    first: 127
    end: 774
    out: 0 release a
    out: 4 request a s 7
    out: 4 release s 7
    out: 5 put s 7
    out: 6 end s used 2
    out: 9 put a 1
    out: 10 end a used 8
    out: 20 horizon
    cut 148 150
    cut 162 164
    cut 410 412
    cut 439 441
    cut 444 446
    cut 467 469
    cut 474 476
    cut 753 755
    doubled 558 563
    doubled 650 654
    doubled 712 717
    doubled 719 724
    doubled 749 754
    replaced 143 145
    replaced 148 150
    replaced 152 154
    replaced 162 164
    replaced 222 224
    replaced 405 407
    replaced 410 412
    replaced 471 474
    replaced 650 652
    replaced 712 714
    replaced 719 721";

/// The tokens of a design with an object of each kind, links, units of time and a range of priorities, a space behind each.
pub const DESIGN: &str =
    "design d version 2 is tick = 1 ms ; priorities 5 .. 9 ; costs assign = 1 ; test = 1 ; turn = 1 ; call = 2 ; \
    null = 1 ; put = 1 ; finish = 1 ; end costs ; object r is active provides set ( v : in word ) paer ; \
    objects object c is cyclic attributes period = 100 ms ; deadline = 50 ; thread_budget = 1000 ; requires p . \
    get ; s . start ; data x : word := 0 ; thread p . get ( 1 , x ) ; if x = 4 then s . start ( x ) ; elsif x > \
    2 then put ( x ) ; else null ; end if ; for i in word range 1 .. 3 loop exit when i = 2 ; work ( 2 ) ; end \
    loop ; x := ( x + 1 ) * 2 ; end thread ; end c ; object q is protected provides set ( v : in word ) paer ; \
    data level : word := 0 ; operation set is begin level := v ; end set ; end q ; object p is passive provides \
    get ( v : in word ; w : out word ) ; operation get is n : word := 1 ; begin w := v + n ; end get ; end p ; \
    object s is sporadic attributes separation = 100 ; deadline = 60 ; thread_budget = 500 ; provides start ( v \
    : in word ) aser ; thread put ( v ) ; end thread ; end s ; implements set by q . set ; end r ; end d ; ";

/// That design. A word that is kept nowhere, as `version`, is a name where one may stand. It is a design still without a unit of time, which
/// counts ticks, without the `else`, and without a constraint, where a rule is broken.
const DESIGN_ROW: &str = "kind: check d
    file: design
    tokens: @changed design
    first: 0
    end: 300
    out: ok d objects 5 threads 2
    cut 70 taken
    cut 128 taken
    cut 59 refused V05 r
    cut 185 refused V04 q
    cut 273 refused V04 s
    cut 1 3
    cut 61 63
    cut 89 91
    cut 96 98
    cut 106 108
    cut 118 120
    cut 131 133
    cut 134 136
    cut 159 163
    cut 163 166
    cut 187 189
    cut 194 196
    cut 197 199
    cut 202 204
    cut 224 226
    cut 226 228
    cut 235 237
    cut 242 244
    cut 288 290
    cut 294 296
    doubled 0 3
    doubled 47 50
    doubled 62 65
    doubled 100 104
    doubled 114 119
    doubled 124 129
    doubled 159 168
    doubled 173 176
    doubled 208 211
    doubled 248 251
    doubled 277 282
    doubled 289 292
    replaced 53 56
    replaced 58 61
    replaced 59 61
    replaced 70 72
    replaced 100 102
    replaced 114 117
    replaced 146 148
    replaced 164 166
    replaced 179 182
    replaced 184 187
    replaced 185 187
    replaced 214 217
    replaced 224 226
    replaced 239 242
    replaced 267 270
    replaced 272 275
    replaced 273 275";

/// The tokens of an arrivals file, a space behind each.
pub const ARRIVALS: &str = "UNTIL 20 ; WORK a 1 , 2 ; AT 6 s 7 ; ";

/// That file, for a task with a sporadic unit. The first activation of `a` takes one tick of its statement and that of its end, the
/// second two and one; that of `s`, which goes before it, takes four and one. A second `work` is the name of a task, a semicolon may end an
/// item early, and without its value the request is one still, which its task does not take.
const ARRIVALS_ROW: &str = "kind: arrivals
    file: arrivals
    tokens: @changed arrivals
    first: 0
    end: 14
    out: 0 release a
    out: 2 end a used 2
    out: 6 arrive s 7
    out: 6 release s 7
    out: 10 release a
    out: 11 end s used 5
    out: 14 end a used 3
    out: 20 release a
    out: 20 horizon
    cut 12 refused Q5 line 10
    doubled 3 6
    replaced 6 8
    replaced 12 14";

/// What is done to a token; replaced, a semicolon stands in its place.
pub const CHANGES: [&str; 3] = ["cut", "doubled", "replaced"];

/// What stands in the place of a token to which this is done, and how many times.
fn changed<'x>(token: &'x [u8], change: &str) -> (&'x [u8], usize) {
    match change {
        "cut" => (token, 0),
        "doubled" => (token, 2),
        "replaced" => (b";\n", 1),
        _ => (token, 1),
    }
}

/// The text of tokens, which have a space behind each, one a line, with this done to the token at a place.
fn changed_text(
    rt: &impl Abort,
    alloc: Global,
    tokens: &str,
    change: &str,
    place: usize,
) -> Vec<u8> {
    let mut text = Vec::new(alloc);
    let mut token = Vec::new(alloc);
    let mut index = 0_usize;
    for byte in tokens.as_bytes() {
        if *byte != b' ' {
            token.push(*byte).expect(rt, "memory");
            continue;
        }
        token.push(b'\n').expect(rt, "memory");
        let here = if index == place { change } else { "" };
        let (piece, count) = changed(&token, here);
        for _ in 0..count {
            text.extend_from_slice(piece).expect(rt, "memory");
        }
        token.clear();
        index = index.saturating_add(1);
    }
    text
}

/// What a row's exceptions say of this done to the token at a place; empty where it is none of them.
pub fn exception<'x>(row: &'x str, change: &str, place: usize) -> &'x str {
    for line in row.lines() {
        let (done, rest) = cut(line.trim_start(), " ");
        let (at, told) = cut(rest, " ");
        if done == change && number(at) == place {
            return told;
        }
    }
    ""
}

/// The line of the fault of a token to which this is done, by what the exceptions say of it.
fn line_of_fault(exception: &str, change: &str, place: usize) -> usize {
    if !exception.is_empty() {
        return number(exception);
    }
    let same = if change == "doubled" { 2 } else { 1 };
    place.saturating_add(same)
}

/// The line of the fault of a changed token of the design, where it is a design no more.
pub fn line_of_design_fault(change: &str, place: usize) -> usize {
    line_of_fault(exception(DESIGN_ROW, change, place), change, place)
}

/// The line that refuses a row's text with this done to the token at a place; empty where it is taken.
fn refusal(rt: &impl Abort, alloc: Global, row: &str, change: &str, place: usize) -> String {
    let said = exception(row, change, place);
    if said == "taken" {
        return String::new(alloc);
    }
    if said.starts_with("refused") {
        return format!(in alloc; "{said}\n").expect(rt, "memory");
    }
    let file = text(row, "file");
    let line = line_of_fault(said, change, place);
    format!(in alloc; "refused S1 {file} line {line} column 1\n").expect(rt, "memory")
}

/// Looks at what is told of a changed text of a row, which is refused with this line, or taken where it is empty.
fn check_changed(rt: &impl Abort, alloc: Global, row: &str, changed: &[u8], refusal: &str) {
    let taken = lines(rt, alloc, row, "out");
    let told = run_file(rt, alloc, text(row, "kind"), changed);
    if refusal.is_empty() {
        check_told(rt, &told, "done", &taken, b"", row);
    } else {
        check_told(rt, &told, "refused", b"", refusal.as_bytes(), refusal);
    }
}

/// Looks at what is told of a row's text with this done to the token at a place. It is taken where a semicolon stands in place of one.
fn check_token(rt: &impl Abort, alloc: Global, row: &str, change: &str, place: usize) {
    let tokens = text(row, "tokens");
    let whole = changed_text(rt, alloc, tokens, "", place);
    let changed = changed_text(rt, alloc, tokens, change, place);
    if changed == whole {
        return check_changed(rt, alloc, row, &changed, "");
    }
    check_changed(
        rt,
        alloc,
        row,
        &changed,
        &refusal(rt, alloc, row, change, place),
    )
}

/// Looks at what is told of a row's text with each of its tokens changed.
fn check_tokens(rt: &impl Abort, alloc: Global, row: &str) {
    for change in CHANGES {
        for place in number(text(row, "first"))..number(text(row, "end")) {
            check_token(rt, alloc, row, change, place);
        }
    }
}

#[test]
fn each_token_of_an_ada_text_changed(rt: HostRuntime) {
    check_tokens(&rt, rt.alloc(), ADA_ROW)
}

#[test]
fn each_token_of_units_of_every_kind_changed(rt: HostRuntime) {
    check_tokens(&rt, rt.alloc(), UNITS_ROW)
}

#[test]
fn each_token_of_a_design_changed(rt: HostRuntime) {
    check_tokens(&rt, rt.alloc(), DESIGN_ROW)
}

#[test]
fn each_token_of_arrivals_changed(rt: HostRuntime) {
    check_tokens(&rt, rt.alloc(), ARRIVALS_ROW)
}
