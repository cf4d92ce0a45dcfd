ghost use Rattle.std.specs.Prelude.{◌≡◌, ◌+◌, ◌<◌, ◌≤◌, [], ◌∷◌, ◌++◌, codes, length, decimal, slice_get, Some};
ghost use Rattle.std.specs.List.{join_with_byte};
ghost use Rattle.seq_tree.specs.Trees.{signature_of};
ghost use Rattle.ada_tree.specs.Bodies.{heads};
ghost use Rattle.ada_tree.specs.Trees.{form_of, program_of};
ghost use Rattle.trace_tree.specs.Lines.{line, op_name, unit_name, unit_ops, value_words, words};
ghost use Rattle.trace_tree.specs.Placed.{IsPlaced};
ghost use Rattle.trace_text.specs.Spaced.{first_words, other_words, spaced};

use crate::line_buf::LineBuf;
use ada_tree::{AdaProgram, Form, Unit};
use seq_tree::{Name, OpSig};
use trace_tree::{Event, Values};

// The head of the operation at a place of a unit. That of a sporadic unit is its request operation.
#[tactic(auto, using(crate::proofs::Shared::Names::head_steps))]
fn head_at(form: &Form, place: usize) -> &OpSig
    requires { place < length (heads (form_of form.now)) }
    ensures { slice_get (heads (form_of form.now)) place ≡ Some (signature_of result.now) }
{
    match form {
        Form::Passive { ops } => &ops[place].sig,
        Form::Shared { ops, .. } => &ops[place].sig,
        Form::Cyclic { .. } => unreachable!(),
        Form::Sporadic { op, .. } => op,
    }
}

// The unit at a place.
#[tactic(auto, using(crate::proofs::Shared::Names::read_steps))]
fn unit_at(program: &AdaProgram, unit: u32) -> &Unit
    requires { unit < length (program_of program.now).units }
    ensures name { unit_name (program_of program.now) unit ≡ result.now.name }
    ensures ops { unit_ops (program_of program.now) unit ≡ heads (form_of result.now.form) }
{
    &program.units[unit as usize]
}

// The name of the operation at a place of a unit.
#[tactic(auto, using(crate::proofs::Shared::Names::read_steps))]
fn op_at(program: &AdaProgram, unit: u32, op: u32) -> &Name
    requires unit { unit < length (program_of program.now).units }
    requires op { op < length (unit_ops (program_of program.now) unit) }
    ensures { op_name (program_of program.now) unit op
        ≡ unit_name (program_of program.now) unit ++ (codes "." ++ result.now) }
{
    &head_at(&unit_at(program, unit).form, op as usize).name
}

// Adds the name of a unit after a space.
fn put_unit(program: &AdaProgram, unit: u32, into: &mut LineBuf)
    requires unit { unit < length (program_of program.now).units }
    requires room { length into.old + 65 ≤ 512 }
    ensures text { into.new ≡ into.old ++ spaced (unit_name (program_of program.now) unit ∷ []) }
    ensures len { length into.new ≤ length into.old + 65 }
{
    into.word(unit_at(program, unit).name.bytes());
}

// Adds the name of an operation of a unit after a space.
fn put_op(program: &AdaProgram, unit: u32, op: u32, into: &mut LineBuf)
    requires unit { unit < length (program_of program.now).units }
    requires op { op < length (unit_ops (program_of program.now) unit) }
    requires room { length into.old + 130 ≤ 512 }
    ensures text { into.new ≡ into.old ++ spaced (op_name (program_of program.now) unit op ∷ []) }
    ensures len { length into.new ≤ length into.old + 130 }
{
    put_unit(program, unit, into);
    into.put(b".");
    into.put(op_at(program, unit, op).bytes());
}

// What each line of a task begins with: the time, what happens, and the task.
fn put_head(program: &AdaProgram, time: u64, kind: &[u8], task: u32, into: &mut LineBuf)
    requires empty { into.old ≡ [] }
    requires kind { length kind.now ≤ 16 }
    requires task { task < length (program_of program.now).units }
    ensures text { into.new ≡ decimal time ++ spaced (kind.now ∷ unit_name (program_of program.now) task ∷ []) }
    ensures len { length into.new ≤ 102 }
{
    into.digits(time);
    into.word(kind);
    put_unit(program, task, into);
}

// Adds the unit that a task was to enter when the run stopped, and the levels that stopped it, each after a space.
#[tactic(auto, using(crate::proofs::Spacing::spaced_steps))]
fn put_stop(program: &AdaProgram, unit: u32, priority: u32, ceiling: u32, into: &mut LineBuf)
    requires unit { unit < length (program_of program.now).units }
    requires room { length into.old + 125 ≤ 512 }
    ensures text { into.new
        ≡ into.old
        ++ spaced (unit_name (program_of program.now) unit ∷ codes "priority" ∷ decimal priority ∷ codes "ceiling" ∷ decimal ceiling ∷ []) }
    ensures len { length into.new ≤ length into.old + 125 }
{
    put_unit(program, unit, into);
    into.word(b"priority");
    into.number(u64::from(priority));
    into.word(b"ceiling");
    into.number(u64::from(ceiling));
}

// What an event's line begins with: the time, what happens and, but for the horizon, the task.
#[tactic(auto, using(crate::proofs::Spacing::joined_steps))]
fn put_start(program: &AdaProgram, event: &Event, into: &mut LineBuf)
    requires empty { into.old ≡ [] }
    requires placed { IsPlaced (program_of program.now) event.now }
    ensures text { into.new ≡ join_with_byte 32 (first_words (program_of program.now) event.now) }
    ensures len { length into.new ≤ 102 }
{
    match event {
        Event::Release { time, task, .. } => put_head(program, *time, b"release", *task, into),
        Event::Arrive { time, task, .. } => put_head(program, *time, b"arrive", *task, into),
        Event::Enter { time, task, .. } => put_head(program, *time, b"enter", *task, into),
        Event::Leave { time, task, .. } => put_head(program, *time, b"leave", *task, into),
        Event::Request { time, task, .. } => put_head(program, *time, b"request", *task, into),
        Event::Print { time, task, .. } => put_head(program, *time, b"put", *task, into),
        Event::End { time, task, .. } => put_head(program, *time, b"end", *task, into),
        Event::Stop { time, task, .. } => put_head(program, *time, b"stop", *task, into),
        Event::Horizon { time } => {
            into.digits(*time);
            into.word(b"horizon");
        }
    }
}

// Adds an operation that is entered or left, and the values that are handed in or out, each after a space.
#[tactic(auto, using(crate::proofs::Spacing::spaced_steps))]
fn put_passage(program: &AdaProgram, unit: u32, op: u32, values: &Values, into: &mut LineBuf)
    requires unit { unit < length (program_of program.now).units }
    requires op { op < length (unit_ops (program_of program.now) unit) }
    requires room { length into.old + 298 ≤ 512 }
    ensures text { into.new
        ≡ into.old ++ spaced (op_name (program_of program.now) unit op ∷ value_words values.now) }
    ensures len { length into.new ≤ length into.old + 298 }
{
    put_op(program, unit, op, into);
    into.values(values);
}

// Adds the words behind those that an event's line begins with, each after a space.
#[tactic(auto, using(crate::proofs::Spacing::spaced_steps))]
fn put_rest(program: &AdaProgram, event: &Event, into: &mut LineBuf)
    requires placed { IsPlaced (program_of program.now) event.now }
    requires room { length into.old + 298 ≤ 512 }
    ensures text { into.new ≡ into.old ++ spaced (other_words (program_of program.now) event.now) }
    ensures len { length into.new ≤ length into.old + 298 }
{
    match event {
        Event::Release { value, .. } => into.value(value),
        Event::Arrive { value, .. } => into.value(value),
        Event::Enter {
            unit,
            op,
            values,
            ..
        } => put_passage(program, *unit, *op, values, into),
        Event::Leave {
            unit,
            op,
            values,
            ..
        } => put_passage(program, *unit, *op, values, into),
        Event::Request { target, value, .. } => {
            put_unit(program, *target, into);
            into.value(value);
        }
        Event::Print { value, .. } => into.number(u64::from(*value)),
        Event::End { used, .. } => {
            into.word(b"used");
            into.number(*used);
        }
        Event::Stop {
            unit,
            priority,
            ceiling,
            ..
        } => put_stop(program, *unit, *priority, *ceiling, into),
        Event::Horizon { .. } => {}
    }
}

// The words of an event's line, with a space between them.
#[tactic(auto, using(crate::proofs::Spacing::line_steps))]
fn put_words(program: &AdaProgram, event: &Event, into: &mut LineBuf)
    requires empty { into.old ≡ [] }
    requires placed { IsPlaced (program_of program.now) event.now }
    ensures text { into.new ≡ join_with_byte 32 (words (program_of program.now) event.now) }
    ensures len { length into.new ≤ 500 }
{
    put_start(program, event, into);
    put_rest(program, event, into);
}

/// Makes `into` hold exactly the line of an event, with its line feed; what it held before is dropped. The event's
/// tasks, units, targets and operations stand in the program. It asks for no memory.
#[tactic(auto, unfolding(trace_tree::specs::Lines::line))]
pub fn line(program: &AdaProgram, event: &Event, into: &mut LineBuf)
    requires { IsPlaced (program_of program.now) event.now }
    ensures { into.new ≡ line (program_of program.now) event.now }
{
    into.clear();
    put_words(program, event, into);
    into.put(b"\n");
}
