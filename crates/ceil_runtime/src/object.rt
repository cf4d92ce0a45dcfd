ghost use Rattle.std.specs.Prelude.{◌≡◌, ◌≤◌, ◌<◌, ◌^◌, length, map, take, vec_len, vec_capacity};
ghost use Rattle.task_runtime.specs.Fitting.{names_of};
ghost use Rattle.task_runtime.specs.Stacked.{vars_of};

use seq_tree::Datum;
use task_runtime::Var;

/// A protected object at work: its place among the units, its ceiling, how many operations it has, its data as they are written, and
/// its data now. A task that is inside has them among its variables meanwhile.
#[derive(Drop)]
pub struct Object<'a> {
    pub unit: u32,
    pub ceiling: u32,
    pub ops: usize,
    pub written: &'a [Datum],
    pub data: Vec<Var<'a>>,
    ghost names: { names_of (vars_of «data».items) ≡ take (vec_len «data») (map (λ d. d.name) written.now) },
    // Events have room for the places of so many.
    ghost few: { ops < 2 ^ 32 },
    ghost room: { length written.now ≤ vec_capacity «data» },
}
