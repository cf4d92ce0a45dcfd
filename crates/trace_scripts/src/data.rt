ghost use Rattle.std.specs.Prelude.{◌≡◌, ◌++◌, ◌∷◌, [], IfOk, OnOk, unwrap_or};
ghost use Rattle.name_sets.specs.Tables.{named};
ghost use Rattle.seq_tree.specs.Names.{Name as NameTree, same_name};
ghost use Rattle.seq_tree.specs.Operations.{out_names};
ghost use Rattle.seq_tree.specs.Trees.{operation_of};
ghost use Rattle.seq_tree.specs.Variables.{entered, kept, opened, read, reads, written};

use name_sets::NameTable;
use seq_eval::{Env, Lookup};
use seq_tree::{Datum, Mode, Name, NoMemory, OpText, Param};
use std::alloc::Global;

/// The value of a variable, and 0 where there is none of that name.
#[tactic(auto, using(seq_eval::proofs::Shared::Reading::found_read))]
fn value_of(env: &Env, name: &Name) -> u32
    ensures { result ≡ read name.now env.now.slots.items }
{
    env.value(name).unwrap_or(0)
}

/// Adds a variable behind the others.
fn add(alloc: Global, env: &mut Env, name: &Name, value: u32) -> Result<(), NoMemory>
    ensures { OnOk result (env.new.slots.items ≡ env.old.slots.items ++ (name.now, value) ∷ []) }
{
    env.slots.push((name.copy(alloc)?, value))?;
    Ok(())
}

/// Adds data or locals at their written values behind the others.
#[tactic(auto, using(crate::proofs::DataSteps::append_steps))]
fn add_written(alloc: Global, env: &mut Env, vars: &[Datum]) -> Result<(), NoMemory>
    ensures { OnOk result (env.new.slots.items ≡ env.old.slots.items ++ written vars.now) }
{
    'vars: for var in vars {
        add(alloc, env, &var.name, var.value)?;
    }
    Ok(())
}

/// Data at their written values.
pub(crate) fn first_data(alloc: Global, vars: &[Datum]) -> Result<Env, NoMemory>
    ensures { IfOk result (λ e. e.slots.items ≡ written vars.now) }
{
    let mut env = Env {
        slots: Vec::new(alloc),
    };
    add_written(alloc, &mut env, vars)?;
    Ok(env)
}

/// The values of variables by their names: of two of one name the first counts.
fn values_of<'a>(alloc: Global, env: &'a Env) -> Result<NameTable<'a, u32>, NoMemory>
    ensures { IfOk result (λ t. (n : NameTree) → unwrap_or (named t n) 0 ≡ read n env.entry.now.slots.items) }
{
    let mut table = NameTable::new(alloc);
    let mut at = env.slots.len();
    'slots: while at > 0 {
        at -= 1;
        let slot = &env.slots[at];
        table.put(&slot.0, slot.1)?;
    }
    Ok(table)
}

/// The value of a variable, and 0 where there is none of that name.
fn value_in(values: &NameTable<u32>, name: &Name) -> u32
    ensures { result ≡ unwrap_or (named values.now name.now) 0 }
{
    values.get(name).unwrap_or(0)
}

/// The data among variables, at the values that they have now.
#[tactic(auto, using(crate::proofs::DataSteps::append_steps))]
pub(crate) fn keep(alloc: Global, vars: &[Datum], env: &Env) -> Result<Env, NoMemory>
    ensures { IfOk result (λ e. e.slots.items ≡ kept vars.now env.now.slots.items) }
{
    let values = values_of(alloc, env)?;
    let mut kept_now = Env {
        slots: Vec::new(alloc),
    };
    'vars: for var in vars {
        add(
            alloc,
            &mut kept_now,
            &var.name,
            value_in(&values, &var.name),
        )?;
    }
    Ok(kept_now)
}

/// Adds parameters at entry behind the others.
#[tactic(auto, using(crate::proofs::DataSteps::append_steps))]
pub(crate) fn add_params(
    alloc: Global,
    env: &mut Env,
    params: &[Param],
    values: &[u32],
) -> Result<(), NoMemory>
    ensures { OnOk result (env.new.slots.items ≡ env.old.slots.items ++ entered params.now values.now) }
{
    let mut left = values;
    'params: for param in params {
        let value = match param.mode {
            Mode::Out => 0,
            Mode::In => match left.split_first() {
                None => 0,
                Some((value, rest)) => {
                    left = rest;
                    *value
                }
            },
        };
        add(alloc, env, &param.name, value)?;
    }
    Ok(())
}

/// Adds variables behind the others.
#[tactic(auto, using(crate::proofs::DataSteps::append_steps))]
pub(crate) fn add_all(env: &mut Env, data: Env) -> Result<(), NoMemory>
    ensures { OnOk result (env.new.slots.items ≡ env.old.slots.items ++ data.slots.items) }
{
    'slots: for slot in data.slots {
        env.slots.push(slot)?;
    }
    Ok(())
}

/// The variables of an operation's body as it begins.
#[tactic(auto, using(crate::proofs::DataSteps::append_steps))]
pub(crate) fn open(alloc: Global, op: &OpText, values: &[u32], data: Env) -> Result<Env, NoMemory>
    ensures { IfOk result (λ e. e.slots.items ≡ opened (operation_of op.now) values.now ++ data.slots.items) }
{
    let mut env = Env {
        slots: Vec::new(alloc),
    };
    add_params(alloc, &mut env, &op.sig.params, values)?;
    add_written(alloc, &mut env, &op.locals)?;
    add_all(&mut env, data)?;
    Ok(env)
}

/// The values of the parameters that are handed out, in order.
#[tactic(auto, using(crate::proofs::DataSteps::append_steps))]
pub(crate) fn results(alloc: Global, params: &[Param], env: &Env) -> Result<Vec<u32>, NoMemory>
    ensures { IfOk result (λ v. v.items ≡ reads (out_names params.now) env.now.slots.items) }
{
    let mut values = Vec::new(alloc);
    let mut left = params;
    'params: while let Some((param, rest)) = left.split_first() {
        left = rest;
        match param.mode {
            Mode::In => {}
            Mode::Out => values.push(value_of(env, &param.name))?,
        }
    }
    Ok(values)
}
