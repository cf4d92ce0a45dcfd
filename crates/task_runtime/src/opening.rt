ghost use Rattle.std.specs.Prelude.{◌≡◌, ◌+◌, ◌≤◌, ◌++◌, List, length};
ghost use Rattle.seq_tree.specs.Names.{Name as NameBytes};
ghost use Rattle.seq_tree.specs.Variables.{entered, written};
ghost use Rattle.linker.specs.Slots.{vars_at};
ghost use Rattle.linker.specs.Programs.{datum_names, param_names};
ghost use Rattle.linker.specs.Scopes.{slots_of};
ghost use Rattle.task_runtime.specs.Fitting.{names_of};
ghost use Rattle.task_runtime.specs.Stacked.{vars_of};

use crate::slots::Slots;
use crate::values::Var;
use seq_tree::{Datum, Mode, Param};

/// Puts the values that an object lends in the first slots.
pub fn lend(slots: &mut Slots, data: &[Var])
    requires { length «data».now ≤ length slots.old.here }
    ensures vars { (ns : List NameBytes) → ns ≡ names_of (vars_of «data».now) → vars_at (slots_of ns) slots.new.here ≡ vars_of «data».now }
    ensures len { length slots.new.here ≡ length slots.old.here }
    ensures away { slots.new.away ≡ slots.old.away }
{
    let mut at = 0;
    'data: while at < data.len() {
        slots.put(at, data[at].value);
        at += 1;
    }
}

/// Puts data or locals in the slots below `top`, the first one uppermost, at their written values.
pub fn open_data(slots: &mut Slots, top: usize, data: &[Datum])
    requires fits { length «data».now ≤ top }
    requires room { top ≤ length slots.old.here }
    ensures vars { (ns : List NameBytes) → length ns + length «data».now ≡ top
        → vars_at (slots_of (datum_names «data».now ++ ns)) slots.new.here ≡ written «data».now ++ vars_at (slots_of ns) slots.old.here }
    ensures len { length slots.new.here ≡ length slots.old.here }
    ensures away { slots.new.away ≡ slots.old.away }
{
    let mut at = data.len();
    'data: while at > 0 {
        at -= 1;
        slots.put(top - 1 - at, data[at].value);
    }
}

/// Puts parameters in the slots below `top`, the first one uppermost, with the values handed in, and 0 for those that are handed out.
pub fn open_params(slots: &mut Slots, top: usize, params: &[Param], values: &[u32])
    requires fits { length params.now ≤ top }
    requires room { top ≤ length slots.old.here }
    ensures vars { (ns : List NameBytes) → length ns + length params.now ≡ top
        → vars_at (slots_of (param_names params.now ++ ns)) slots.new.here ≡ entered params.now values.now ++ vars_at (slots_of ns) slots.old.here }
    ensures len { length slots.new.here ≡ length slots.old.here }
    ensures away { slots.new.away ≡ slots.old.away }
{
    let Some((param, params)) = params.split_first() else {
        return;
    };
    match param.mode {
        Mode::In => match values.split_first() {
            Some((value, values)) => {
                open_params(slots, top - 1, params, values);
                slots.put(top - 1, *value);
            }
            None => {
                open_params(slots, top - 1, params, values);
                slots.put(top - 1, 0);
            }
        },
        Mode::Out => {
            open_params(slots, top - 1, params, values);
            slots.put(top - 1, 0);
        }
    }
}
