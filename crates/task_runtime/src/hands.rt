ghost use Rattle.std.specs.Prelude.{◌≡◌, ◌+◌, ◌≤◌, ◌++◌, true, List, length, vec_capacity};
ghost use Rattle.seq_tree.specs.Expressions.{Expression};
ghost use Rattle.seq_tree.specs.Names.{Name as NameBytes, are_distinct};
ghost use Rattle.seq_tree.specs.Operations.{out_names};
ghost use Rattle.seq_tree.specs.Variables.{Variables, kept, reads};
ghost use Rattle.linker.specs.Nodes.{AreOrdered};
ghost use Rattle.linker.specs.Slots.{set_all, vars_at};
ghost use Rattle.linker.specs.Programs.{datum_names, param_names};
ghost use Rattle.linker.specs.Scopes.{slots_of};
ghost use Rattle.linker.specs.Standing.{TargetsStand, ValuesStand, lists_of, values_in};
ghost use Rattle.task_runtime.specs.Stacked.{vars_of};
ghost use Rattle.task_runtime.specs.Handing.{TargetsAt, ValuesAt, target_slots, values_of};

use crate::slots::Slots;
use crate::values::Var;
use linker::{Code, Operand, value_at};
use seq_tree::{Datum, Mode, Param};
use trace_tree::Values;

/// Adds the values of the actuals that are handed in, in order: their operands stand in code from `first` on.
pub fn hand_in(values: &mut Values, code: &Code, first: usize, params: &[Param], slots: &Slots)
    requires ordered { AreOrdered code.now.nodes.items }
    requires room { length values.old + length params.now ≤ 8 }
    requires there { ValuesAt (lists_of code.now) first params.now }
    ensures { (scope : Variables) (es : List Expression) → ValuesStand (lists_of code.now) scope first (values_in params.now es)
        → values.new ≡ values.old ++ values_of (values_in params.now es) (vars_at scope slots.now.here) }
{
    let Some((param, params)) = params.split_first() else {
        return;
    };
    match param.mode {
        Mode::In => {
            values.push(value_at(&code.nodes, code.actuals[first], slots.here()));
            hand_in(values, code, first + 1, params, slots);
        }
        Mode::Out => hand_in(values, code, first, params, slots),
    }
}

/// How many parameters are handed in.
pub fn ins_len(params: &[Param]) -> usize
    ensures { (es : List Expression) → result ≡ length (values_in params.now es) }
{
    let Some((param, params)) = params.split_first() else {
        return 0;
    };
    match param.mode {
        Mode::In => ins_len(params) + 1,
        Mode::Out => ins_len(params),
    }
}

/// Adds the values of the parameters that are handed out, in order. They stand in the slots below `top`, the first one uppermost.
pub fn hand_out(values: &mut Values, top: usize, params: &[Param], slots: &Slots)
    requires room { length values.old + length params.now ≤ 8 }
    requires distinct { are_distinct (param_names params.now) ≡ true }
    requires fits { length params.now ≤ top }
    requires there { top ≤ length slots.now.here }
    ensures { (ns : List NameBytes) → length ns + length params.now ≡ top
        → values.new ≡ values.old ++ reads (out_names params.now) (vars_at (slots_of (param_names params.now ++ ns)) slots.now.here) }
{
    let Some((param, params)) = params.split_first() else {
        return;
    };
    match param.mode {
        Mode::In => hand_out(values, top - 1, params, slots),
        Mode::Out => {
            values.push(slots.get(top - 1));
            hand_out(values, top - 1, params, slots);
        }
    }
}

/// Stores values in the slots of actuals that are handed out, in order: so many slots stand in code from `first` on.
pub fn store(slots: &mut Slots, code: &Code, first: usize, count: usize, values: &[u32])
    requires { TargetsAt (lists_of code.now) first count (length slots.old.here) }
    ensures here { (scope : Variables) (ns : List NameBytes) → TargetsStand (lists_of code.now) scope first ns → length ns ≡ count
        → slots.new.here ≡ set_all (target_slots scope ns) values.now slots.old.here }
    ensures len { length slots.new.here ≡ length slots.old.here }
    ensures away { slots.new.away ≡ slots.old.away }
{
    if count == 0 {
        return;
    }
    let Some((value, values)) = values.split_first() else {
        return;
    };
    let Operand::Slot(slot) = code.actuals[first] else {
        unreachable!()
    };
    slots.put(slot as usize, *value);
    store(slots, code, first + 1, count - 1, values);
}

/// Puts these data, with the values that they have in the first slots, in place of what is kept.
pub fn keep_data<'a>(into: &mut Vec<Var<'a>>, data: &'a [Datum], slots: &Slots)
    requires room { length «data».now ≤ vec_capacity into.old }
    requires there { length «data».now ≤ length slots.now.here }
    ensures kept { (ns : List NameBytes) → are_distinct (ns ++ datum_names «data».entry.now) ≡ true
        → vars_of into.new.items ≡ kept «data».entry.now (vars_at (slots_of (ns ++ datum_names «data».entry.now)) slots.now.here) }
    ensures room { vec_capacity into.new ≡ vec_capacity into.old }
{
    into.clear();
    let mut at = data.len();
    'data: while at > 0 {
        at -= 1;
        into.push_reserved(Var {
            name: &data[at].name,
            value: slots.get(data.len() - 1 - at),
        });
    }
}
