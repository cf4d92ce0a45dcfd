//! Texts that rows name, and the Ada text of a program of one task, or of one and units before it.
//!
//! | Key | What it says of `a.ada` |
//! |---|---|
//! | `ada` | these bytes, where it isn't the text of a program `d` with one cyclic task |
//! | `unit`, `priority`, `period`, `deadline`, `response` | the task's unit and its numbers, in ticks |
//! | `null` | the cost of `null;` |
//! | `heads`, `bodies` | the specifications and the bodies of the units before it |
//! | `vars`, `block` | the variables of its unit, and its block |
//! | `separation`, `jitter` | with them the program has, in place of the cyclic task, one `s` that is requested from outside with a word `v` |
//! | the keys of `units.rt` | where a row has one of them, the program has these units alone |
//! | `ada_cut` | so many bytes are missing at its end |
//! | `ada_len` | with spaces behind it, up to so many bytes |

use super::arrangements::ARRANGED_TEXT;
use super::backgrounds::{LOGGED, LOGGED_ROOT, LOGGED_TRACE, TURNS};
use super::changed_tokens::{ADA, ARRIVALS, DESIGN, UNITS};
use super::checks::{WRONG, WRONG_WITHOUT_CLASHES};
use super::formats::{COMMENTED, FORMATTED, TOO_GREAT};
use super::generates::{EVERY_KIND, EVERY_KIND_TEXT};
use super::replays::NO_UNITS;
use super::rows::{lengthened, number, text, value};
use super::sections::{SECTION_AT_THE_END, TWO_OBJECTS};
use super::units::{BODIES, SPECS, push_units};
use super::verifies::{LATE_REQUEST, STARTED_TRACE};
use std::alloc::Global;
use std::process::Abort;

/// What rows of every table have: a cyclic task of period 10 whose activations take 4 ticks.
pub const USUAL: &str = "unit: a
    priority: 1
    period: 10
    deadline: 10
    response: 4
    null: 1
    block: work (3);
    object: a
    attributes: PERIOD = 10; DEADLINE = 10; THREAD_BUDGET = 1000;
    thread: work (3);
    costs: COSTS ASSIGN = 1; TEST = 1; TURN = 1; CALL = 2; NULL = 1; PUT = 1; FINISH = 1; END COSTS;
    room: 100000
    err_room: 1000
    most: 100000";

/// The text of these pieces.
pub fn joined(rt: &impl Abort, alloc: Global, pieces: &[&str]) -> String {
    let mut all = String::new(alloc);
    for piece in pieces {
        all.push_str(piece).expect(rt, "memory");
    }
    all
}

/// The text with spaces behind it, up to this length.
pub fn padded(rt: &impl Abort, alloc: Global, text: &[u8], len: usize) -> Vec<u8> {
    let mut bytes = text.to_vec(alloc).expect(rt, "memory");
    bytes.resize(len, b' ').expect(rt, "memory");
    bytes
}

/// Adds what a key in a template stands for, by a row.
fn push_value(rt: &impl Abort, all: &mut Vec<u8>, row: &str, key: &str) {
    if let Some((piece, count)) = key.split_once('*') {
        for _ in 0..number(text(row, count)) {
            all.extend_from_slice(piece.as_bytes()).expect(rt, "memory");
        }
        return;
    }
    let found = text(row, key.trim_start());
    if key.starts_with(' ') && !found.is_empty() {
        all.push(b' ').expect(rt, "memory");
    }
    all.extend_from_slice(found.as_bytes()).expect(rt, "memory");
}

/// The text of these templates, in which `{key}` stands for the value of that key in the row, `{ key}` for a space and the value where
/// it isn't empty, and `{PIECE*key}` for the piece so many times. One function fills all templates, since many pieces in a function
/// are dear to prove.
pub fn filled(rt: &impl Abort, alloc: Global, templates: &[&str], row: &str) -> Vec<u8> {
    let mut all = Vec::new(alloc);
    for template in templates {
        for piece in template.split('{') {
            let (key, behind) = piece.split_once('}').unwrap_or(("", piece));
            push_value(rt, &mut all, row, key);
            all.extend_from_slice(behind.as_bytes())
                .expect(rt, "memory");
        }
    }
    all
}

/// The text of a template for each number of a range, one behind the other: `{k}` is the number, `{next}` the one behind it, `{twice}` two
/// times the number, and `{left}` what is left up to the end of the range. All texts that are made by counting come from here, since each loop
/// that makes one is dear to prove.
pub fn counted(rt: &impl Abort, alloc: Global, from: usize, end: usize, template: &str) -> String {
    let mut all = String::new(alloc);
    for k in from..end {
        let next = k.saturating_add(1);
        let twice = k.saturating_mul(2);
        let left = end.saturating_sub(k);
        let row = format!(in alloc; "k: {k}\nnext: {next}\ntwice: {twice}\nleft: {left}").expect(
            rt, "memory",
        );
        let piece = filled(rt, alloc, &[template], &row);
        all.push_str(str::from_utf8(&piece).unwrap_or(""))
            .expect(rt, "memory");
    }
    all
}

/// The comments before the text of the cyclic task.
const COMMENTS: &str = "-- design d
-- thread {unit} priority {priority} jitter 0 response {response} deadline {deadline}
";

/// The clauses on the processor and the unit `hrt`.
pub const HRT: &str = "pragma task_dispatching_policy (fifo_within_priorities);
pragma locking_policy (ceiling_locking);
with ada.real_time;
package hrt is
   type word is mod 2 ** 32;
   subtype moment is ada.real_time.time;
   assign_cost : constant := 1;
   test_cost : constant := 1;
   turn_cost : constant := 1;
   call_cost : constant := 2;
   null_cost : constant := {null};
   put_cost : constant := 1;
   finish_cost : constant := 1;
   function epoch return moment;
   function after (start : moment; ticks : natural) return moment;
   procedure work (ticks : positive);
   procedure put (value : word);
   procedure activation_end;
end hrt;
with hrt;
use hrt;
";

/// The specification of the sporadic unit `s` between its ceiling and its priority.
pub const ASKED_SPEC: &str = "         procedure start (v : in word);
         entry hrt_wait (hrt_request : out word);
      private
         hrt_value : word := 0;
         hrt_open : boolean := false;
      end hrt_obcs;
      procedure start (v : in word) renames hrt_obcs.start;
      task hrt_thread is
";

/// The body of the sporadic unit `s` up to what its task does.
pub const ASKED_BODY: &str = "   package body s is
      protected body hrt_obcs is
         procedure start (v : in word) is
         begin
            hrt_value := v;
            hrt_open := true;
         end start;
         entry hrt_wait (hrt_request : out word) when hrt_open is
         begin
            hrt_request := hrt_value;
            hrt_open := false;
         end hrt_wait;
      end hrt_obcs;
      task body hrt_thread is
         v : word := 0;
      begin
         loop
            hrt_obcs.hrt_wait (v);
";

/// What stands behind the units of the program `d`.
pub const MAIN: &str = "end d;
with d;
procedure hrt_main is
begin
   null;
end hrt_main;
";

/// The text of the program `d` with the cyclic task.
const TASK: &[&str] = &[
    COMMENTS,
    HRT,
    "package d is{ heads}
   package {unit} is
      task hrt_thread is
         pragma priority ({priority});
      end hrt_thread;
   end {unit};
end d;
package body d is{ bodies}
   package body {unit} is{ vars}
      task body hrt_thread is
         hrt_next : hrt.moment := hrt.after (hrt.epoch, 0);
      begin
         loop
            delay until hrt_next;
            hrt_next := hrt.after (hrt_next, {period});
            {block}
            activation_end;
         end loop;
      end hrt_thread;
   end {unit};
",
    MAIN,
];

/// The text of the program `d` with the sporadic task.
const ASKED_TASK: &[&str] = &[
    HRT,
    "package d is
   package s is
      protected hrt_obcs is
         pragma priority (1);
",
    ASKED_SPEC,
    "         pragma priority (1);
      end hrt_thread;
      hrt_separation : constant := {separation};
      hrt_jitter : constant := {jitter};
      hrt_external : constant boolean := true;
   end s;
end d;
package body d is
",
    ASKED_BODY,
    "            {block}
            activation_end;
         end loop;
      end hrt_thread;
   end s;
",
    MAIN,
];

/// The Ada text of the program `d` with a row's task: of the sporadic one where the row has a separation, and else of the cyclic one.
pub fn ada_text(rt: &impl Abort, alloc: Global, row: &str) -> Vec<u8> {
    match value(row, "separation") {
        Some(_) => filled(rt, alloc, ASKED_TASK, row),
        None => filled(rt, alloc, TASK, row),
    }
}

/// The text that a row means by a name: the Ada text of its task, that of the design of every kind of object, that by another order than that of
/// deadlines, or one that is known by it.
pub fn text_named(rt: &impl Abort, alloc: Global, row: &str, name: &str) -> Vec<u8> {
    match name {
        "ada" => ada_text(rt, alloc, row),
        "every kind text" => filled(rt, alloc, EVERY_KIND_TEXT, row),
        "another order text" => filled(rt, alloc, ARRANGED_TEXT, row),
        other => named(other).as_bytes().to_vec(alloc).expect(rt, "memory"),
    }
}

/// The Ada text of the program `d` with these specifications of units, and their bodies.
fn units_text(rt: &impl Abort, alloc: Global, row: &str, specs: &[u8]) -> Vec<u8> {
    let mut all = filled(rt, alloc, &[HRT, "package d is\n"], row);
    all.extend_from_slice(specs).expect(rt, "memory");
    all.extend_from_slice(b"end d;\npackage body d is\n")
        .expect(rt, "memory");
    push_units(rt, alloc, &mut all, row, BODIES);
    all.extend_from_slice(MAIN.as_bytes()).expect(rt, "memory");
    all
}

/// The text of a row's program.
fn program_text(rt: &impl Abort, alloc: Global, row: &str) -> Vec<u8> {
    let mut specs = Vec::new(alloc);
    push_units(rt, alloc, &mut specs, row, SPECS);
    if specs.is_empty() {
        return ada_text(rt, alloc, row);
    }
    units_text(rt, alloc, row, &specs)
}

/// The bytes of a row's Ada text.
pub fn ada_bytes(rt: &impl Abort, alloc: Global, row: &str) -> Vec<u8> {
    let mut bytes = match value(row, "ada") {
        Some(_) => text(row, "ada")
            .as_bytes()
            .to_vec(alloc)
            .expect(rt, "memory"),
        None => program_text(rt, alloc, row),
    };
    let cut = number(value(row, "ada_cut").unwrap_or(""));
    bytes.truncate(bytes.len().saturating_sub(cut));
    lengthened(rt, alloc, &bytes, row, "ada_len")
}

/// The text that stands beside this in a list; the empty one where there is none.
pub fn beside(list: &[(&str, &'static str)], name: &str) -> &'static str {
    for (known, text) in list {
        if *known == name {
            return text;
        }
    }
    ""
}

/// The text that is known by this name; the empty one where there is none. A function is the dearer to prove the more bytes of text it
/// names, and can't be proved from some 30,000 bytes on: so each long text is named in one function alone, which names a few.
pub fn named(name: &str) -> &'static str {
    let found = small_design(name);
    if !found.is_empty() {
        return found;
    }
    let found = part_of_rows(name);
    if !found.is_empty() {
        return found;
    }
    let found = large_design(name);
    if !found.is_empty() {
        return found;
    }
    let found = tokens(name);
    if !found.is_empty() {
        return found;
    }
    tokens_of_units(name)
}

/// Small designs and objects.
const SMALL_DESIGNS: &[(&str, &str)] = &[
    ("commented", COMMENTED),
    ("cyclic", CYCLIC),
    ("formatted", FORMATTED),
    ("inner calls", INNER_CALLS),
    ("inner start", INNER_START),
    ("logged", LOGGED),
    ("logged root", LOGGED_ROOT),
    ("milliseconds", IN_MILLISECONDS),
    ("section at the end", SECTION_AT_THE_END),
    ("started", STARTED),
    ("too great", TOO_GREAT),
    ("turns", TURNS),
    ("two objects", TWO_OBJECTS),
    ("wrong", WRONG),
    ("wrong without clashes", WRONG_WITHOUT_CLASHES),
];

fn small_design(name: &str) -> &'static str {
    beside(SMALL_DESIGNS, name)
}

/// Parts of rows, and small texts of programs and traces.
const PARTS: &[(&str, &str)] = &[
    ("asked", ASKED),
    ("asked without a value", ASKED_BARE),
    ("gives nothing", GIVES_NOTHING),
    ("late request", LATE_REQUEST),
    ("logged trace", LOGGED_TRACE),
    ("no command", NO_COMMAND),
    ("no units", NO_UNITS),
    ("protected", PROTECTED),
    ("requested", REQUESTED),
    ("started trace", STARTED_TRACE),
    ("starting", STARTING),
    ("three tasks", THREE_TASKS),
    ("trace", TRACE),
];

fn part_of_rows(name: &str) -> &'static str {
    beside(PARTS, name)
}

/// Large designs.
const LARGE_DESIGNS: &[(&str, &str)] = &[("every kind", EVERY_KIND), ("mine", MINE)];

fn large_design(name: &str) -> &'static str {
    beside(LARGE_DESIGNS, name)
}

/// Tokens of texts.
const TOKENS: &[(&str, &str)] = &[
    ("changed ada", ADA),
    ("changed arrivals", ARRIVALS),
    ("changed design", DESIGN),
];

fn tokens(name: &str) -> &'static str {
    beside(TOKENS, name)
}

/// Tokens of a large text.
const TOKENS_OF_UNITS: &[(&str, &str)] = &[("changed units", UNITS)];

fn tokens_of_units(name: &str) -> &'static str {
    beside(TOKENS_OF_UNITS, name)
}

/// One cyclic object that works for 3 ticks.
const CYCLIC: &str =
    "OBJECT a IS CYCLIC ATTRIBUTES PERIOD = 10; DEADLINE = 10; THREAD_BUDGET = 1000; \
     THREAD work (3); END THREAD; END a;";

/// A thread that starts another.
const STARTED: &str =
    "OBJECT p IS CYCLIC ATTRIBUTES PERIOD = 50; DEADLINE = 50; THREAD_BUDGET = 1000; REQUIRES s.start; \
     THREAD s.start (7); END THREAD; END p; \
     OBJECT s IS SPORADIC ATTRIBUTES SEPARATION = 50; DEADLINE = 20; THREAD_BUDGET = 1000; \
     PROVIDES start (v : in word) ASER; THREAD work (4); END THREAD; END s;";

/// Protected operations of which one calls another.
const INNER_CALLS: &str =
    "OBJECT l IS CYCLIC ATTRIBUTES PERIOD = 40; DEADLINE = 40; THREAD_BUDGET = 1000; REQUIRES q.set; \
     THREAD q.set; END THREAD; END l; \
     OBJECT h IS CYCLIC ATTRIBUTES PERIOD = 20; OFFSET = 7; DEADLINE = 10; THREAD_BUDGET = 1000; REQUIRES e.set; \
     THREAD e.set; END THREAD; END h; \
     OBJECT q IS PROTECTED PROVIDES set PAER; REQUIRES e.set; \
     OPERATION set IS BEGIN work (2); e.set; work (1); END set; END q; \
     OBJECT e IS PROTECTED PROVIDES set PAER; OPERATION set IS BEGIN work (2); END set; END e;";

/// A protected operation that starts a thread.
const INNER_START: &str =
    "OBJECT p IS CYCLIC ATTRIBUTES PERIOD = 50; DEADLINE = 50; THREAD_BUDGET = 1000; REQUIRES q.set; \
     THREAD q.set; END THREAD; END p; \
     OBJECT q IS PROTECTED PROVIDES set PAER; REQUIRES s.start; OPERATION set IS BEGIN s.start (7); END set; END q; \
     OBJECT s IS SPORADIC ATTRIBUTES SEPARATION = 50; DEADLINE = 20; THREAD_BUDGET = 1000; \
     PROVIDES start (v : in word) ASER; THREAD work (4); END THREAD; END s;";

/// Times with units.
const IN_MILLISECONDS: &str =
    "OBJECT a IS CYCLIC ATTRIBUTES PERIOD = 5 ms; DEADLINE = 5 ms; THREAD_BUDGET = 1000; \
     THREAD work (3); END THREAD; END a;";

/// The mine pump: twelve objects on three levels, six threads.
const MINE: &str = "DESIGN mine IS
COSTS ASSIGN = 1; TEST = 1; TURN = 1; CALL = 2; NULL = 1; PUT = 1; FINISH = 1; END COSTS;
OBJECT mine_control IS ACTIVE
OBJECTS
  OBJECT pump_controller IS ACTIVE
  PROVIDES set_safety (s : in Word) PAER;
  REQUIRES data_logger.log;
  OBJECTS
    OBJECT motor IS PROTECTED
    PROVIDES set_pump (want : in Word) PAER;
             set_safety (s : in Word) PAER;
             state (v : out Word) PSER;
    DATA pump : Word := 0; unsafe : Word := 0;
    OPERATION set_pump IS BEGIN
      if unsafe = 0 then pump := want; else pump := 0; end if;
    END set_pump;
    OPERATION set_safety IS BEGIN
      unsafe := s;
      if s = 1 then pump := 0; end if;
    END set_safety;
    OPERATION state IS BEGIN v := pump; END state;
    END motor;
    OBJECT water_handler IS SPORADIC
    ATTRIBUTES SEPARATION = 6000; DEADLINE = 200; THREAD_BUDGET = 20; ARRIVAL_JITTER = 5;
    PROVIDES water (high : in Word) ASER;
    REQUIRES motor.set_pump; data_logger.log;
    THREAD motor.set_pump (high); data_logger.log (high); END THREAD;
    END water_handler;
    OBJECT flow_sensor IS CYCLIC
    ATTRIBUTES PERIOD = 1000; DEADLINE = 900; THREAD_BUDGET = 20;
    REQUIRES motor.state; data_logger.log;
    DATA p : Word := 0;
    THREAD Work (5); motor.state (p); data_logger.log (p); END THREAD;
    END flow_sensor;
  IMPLEMENTS set_safety BY motor.set_safety;
  END pump_controller;
  OBJECT environment_monitor IS ACTIVE
  REQUIRES pump_controller.set_safety; data_logger.log; alarm_console.alert;
  OBJECTS
    OBJECT ch4_status IS PROTECTED
    PROVIDES write (v : in Word) PAER; read (v : out Word) PSER;
    DATA level : Word := 0;
    OPERATION write IS BEGIN level := v; END write;
    OPERATION read IS BEGIN v := level; END read;
    END ch4_status;
    OBJECT ch4_sensor IS CYCLIC
    ATTRIBUTES PERIOD = 80; DEADLINE = 30; THREAD_BUDGET = 25;
    REQUIRES ch4_status.write; pump_controller.set_safety; alarm_console.alert;
    DATA reading : Word := 0;
    THREAD
      Work (6);
      reading := (reading + 7) mod 50;
      ch4_status.write (reading);
      if reading >= 40 then
        pump_controller.set_safety (1);
        alarm_console.alert (reading);
      else
        pump_controller.set_safety (0);
      end if;
    END THREAD;
    END ch4_sensor;
    OBJECT co_sensor IS CYCLIC
    ATTRIBUTES PERIOD = 100; DEADLINE = 60; THREAD_BUDGET = 20;
    REQUIRES data_logger.log;
    DATA reading : Word := 0;
    THREAD
      Work (6); reading := (reading + 3) mod 20; data_logger.log (reading);
    END THREAD;
    END co_sensor;
    OBJECT air_flow IS CYCLIC
    ATTRIBUTES PERIOD = 100; DEADLINE = 100; THREAD_BUDGET = 20;
    REQUIRES ch4_status.read;
    DATA level : Word := 0;
    THREAD
      Work (4); ch4_status.read (level);
      if level >= 40 then Put (level); end if;
    END THREAD;
    END air_flow;
  END environment_monitor;
  OBJECT data_logger IS PROTECTED
  PROVIDES log (v : in Word) PAER;
  DATA count : Word := 0; last : Word := 0;
  OPERATION log IS BEGIN count := count + 1; last := v; Work (2); END log;
  END data_logger;
  OBJECT alarm_console IS SPORADIC
  ATTRIBUTES SEPARATION = 80; DEADLINE = 50; THREAD_BUDGET = 10;
  PROVIDES alert (v : in Word) ASER;
  THREAD Put (v); Work (4); END THREAD;
  END alarm_console;
END mine_control;
END mine;
";

/// What a replay of the usual task tells up to tick 20.
pub const TRACE: &str =
    "0 release a\n4 end a used 4\n10 release a\n14 end a used 4\n20 release a\n20 horizon\n";

/// Words that are no command.
const NO_COMMAND: &str = "status: usage
    err: usage: hrthood check D | analyse D | format D | generate D | replay A R | verify D R | sample N | background D | \
        accepts D R T | search D | scale D | explain D | arrange D";

/// A task with a passive operation that never assigns what it hands out.
const GIVES_NOTHING: &str = "heads: package p is procedure f (w : out word); end p;
    bodies: package body p is procedure f (w : out word) is begin null; end f; end p;
    vars: x : word := 5;";

/// A task with a sporadic unit whose requests come from outside.
const REQUESTED: &str =
    "heads: package s is protected hrt_obcs is pragma priority (2); procedure start (v : in word); \
        entry hrt_wait (hrt_request : out word); private hrt_value : word := 0; hrt_open : boolean := false; end hrt_obcs; \
        procedure start (v : in word) renames hrt_obcs.start; task hrt_thread is pragma priority (2); end hrt_thread; \
        hrt_separation : constant := 50; hrt_jitter : constant := 5; hrt_external : constant boolean := true; end s;
    bodies: package body s is protected body hrt_obcs is procedure start (v : in word) is begin hrt_value := v; hrt_open := true; \
        end start; entry hrt_wait (hrt_request : out word) when hrt_open is begin hrt_request := hrt_value; hrt_open := false; \
        end hrt_wait; end hrt_obcs; task body hrt_thread is v : word := 0; begin loop hrt_obcs.hrt_wait (v); work (4); activation_end; \
        end loop; end hrt_thread; end s;";

/// A sporadic task that works for 4 ticks.
const ASKED: &str = "separation: 500
    jitter: 0
    block: work (4);";

/// A task with a sporadic unit whose requests come from outside, and have no value.
const ASKED_BARE: &str =
    "heads: package s is protected hrt_obcs is pragma priority (2); procedure start; \
        entry hrt_wait (hrt_request : out word); private hrt_value : word := 0; hrt_open : boolean := false; end hrt_obcs; \
        procedure start renames hrt_obcs.start; task hrt_thread is pragma priority (2); end hrt_thread; \
        hrt_separation : constant := 50; hrt_jitter : constant := 5; hrt_external : constant boolean := true; end s;
    bodies: package body s is protected body hrt_obcs is procedure start is begin hrt_value := 0; hrt_open := true; \
        end start; entry hrt_wait (hrt_request : out word) when hrt_open is begin hrt_request := hrt_value; hrt_open := false; \
        end hrt_wait; end hrt_obcs; task body hrt_thread is hrt_request : word := 0; begin loop hrt_obcs.hrt_wait (hrt_request); \
        work (4); activation_end; end loop; end hrt_thread; end s;";

/// A task that requests a sporadic unit.
const STARTING: &str =
    "heads: package s is protected hrt_obcs is pragma priority (2); procedure start (v : in word); \
        entry hrt_wait (hrt_request : out word); private hrt_value : word := 0; hrt_open : boolean := false; end hrt_obcs; \
        procedure start (v : in word) renames hrt_obcs.start; task hrt_thread is pragma priority (2); end hrt_thread; \
        hrt_separation : constant := 10; hrt_jitter : constant := 0; hrt_external : constant boolean := false; end s;
    bodies: package body s is protected body hrt_obcs is procedure start (v : in word) is begin hrt_value := v; hrt_open := true; \
        end start; entry hrt_wait (hrt_request : out word) when hrt_open is begin hrt_request := hrt_value; hrt_open := false; \
        end hrt_wait; end hrt_obcs; task body hrt_thread is v : word := 0; begin loop hrt_obcs.hrt_wait (v); work (4); activation_end; \
        end loop; end hrt_thread; end s;
    block: s.start (7);";

/// A task with a protected unit and a passive one.
const PROTECTED: &str =
    "heads: package q is protected hrt_object is pragma priority (3); procedure set; private end hrt_object; \
        procedure set renames hrt_object.set; end q; package p is procedure f; end p;
    bodies: package body q is protected body hrt_object is procedure set is begin work (2); end set; end hrt_object; end q; \
        package body p is procedure f is begin null; end f; end p;
    block: q.set; p.f;";

/// The tasks of the second worked example of schedules: periods 7, 12 and 20, the shortest with the greatest priority.
const THREE_TASKS: &str = "unit: c
    period: 20
    heads: package a is task hrt_thread is pragma priority (3); end hrt_thread; end a; \
        package b is task hrt_thread is pragma priority (2); end hrt_thread; end b;
    bodies: package body a is task body hrt_thread is hrt_next : hrt.moment := hrt.after (hrt.epoch, 0); begin loop delay until hrt_next; \
        hrt_next := hrt.after (hrt_next, 7); work (2); activation_end; end loop; end hrt_thread; end a; \
        package body b is task body hrt_thread is hrt_next : hrt.moment := hrt.after (hrt.epoch, 0); begin loop delay until hrt_next; \
        hrt_next := hrt.after (hrt_next, 12); work (2); activation_end; end loop; end hrt_thread; end b;
    block: work (4);";
