ghost use Rattle.std.specs.Prelude.{◌≡◌, List, [], ◌∷◌, ◌++◌, length, map, option_map, option_to_list, bytes_eq, IfOk, OnOk};
ghost use Rattle.seq_tree.specs.Names.{Name as NameBytes};
ghost use Rattle.seq_tree.specs.Operations.{out_names};
ghost use Rattle.seq_tree.specs.Trees.{expression_of};
ghost use Rattle.seq_tree.specs.Values.{handed, value};
ghost use Rattle.seq_tree.specs.Runs.{request_value};
ghost use Rattle.seq_eval.specs.Scopes.{opened_by};
ghost use Rattle.seq_tree.specs.Variables.{entered, reads, stored, target_by, targets, written};

use crate::scope::Scope;
use crate::values::eval;
use seq_tree::{Datum, Expr, Mode, Name, NoMemory, Param};
use std::alloc::Global;

/// The value of an expression: a name that no variable has counts as 0.
fn value_of(expr: &Expr, vars: &Scope) -> u32
    ensures { result ≡ value (expression_of expr.now) vars.now }
{
    eval(expr, vars)
}

/// Whether the values of the actuals that are handed in are these, in order.
pub(crate) fn hands(params: &[Param], actuals: &[Expr], vars: &Scope, values: &[u32]) -> bool
    ensures { result ≡ bytes_eq (handed params.now (map expression_of actuals.now) vars.now) values.now }
{
    let Some((param, params)) = params.split_first() else {
        return values.is_empty();
    };
    let Some((actual, actuals)) = actuals.split_first() else {
        return values.is_empty();
    };
    match param.mode {
        Mode::In => match values.split_first() {
            Some((value, values)) => {
                value_of(actual, vars) == *value && hands(params, actuals, vars, values)
            }
            None => false,
        },
        Mode::Out => hands(params, actuals, vars, values),
    }
}

/// Adds parameters with the values of the actuals that are handed in, and 0 for those that are handed out.
pub(crate) fn open_params<'a>(
    into: &mut Scope<'a>,
    params: &'a [Param],
    actuals: &[Expr],
    vars: &Scope,
) -> Result<(), NoMemory>
    ensures { OnOk result (into.new ≡ entered params.entry.now (handed params.entry.now (map expression_of actuals.now) vars.now) ++ into.old) }
{
    let Some((param, params)) = params.split_first() else {
        return Ok(());
    };
    let Some((actual, actuals)) = actuals.split_first() else {
        return open_nothing(into, param, params);
    };
    open_params(into, params, actuals, vars)?;
    into.push(&param.name, opened_value(param, actual, vars))
}

/// Adds parameters for which there is no value.
#[tactic(auto, using(crate::proofs::Entering::opening))]
fn open_nothing<'a>(
    into: &mut Scope<'a>,
    param: &'a Param,
    params: &'a [Param],
) -> Result<(), NoMemory>
    ensures { OnOk result (into.new ≡ entered (param.entry.now ∷ params.entry.now) [] ++ into.old) }
{
    let mut at = params.len();
    'params: while at > 0 {
        at -= 1;
        into.push(&params[at].name, 0)?;
    }
    into.push(&param.name, 0)
}

/// The value of a parameter at entry.
fn opened_value(param: &Param, actual: &Expr, vars: &Scope) -> u32
    ensures { result ≡ opened_by param.now.mode (value (expression_of actual.now) vars.now) }
{
    match param.mode {
        Mode::In => value_of(actual, vars),
        Mode::Out => 0,
    }
}

/// Adds locals at their written values.
pub(crate) fn open_locals<'a>(into: &mut Scope<'a>, locals: &'a [Datum]) -> Result<(), NoMemory>
    ensures { OnOk result (into.new ≡ written locals.entry.now ++ into.old) }
{
    let mut at = locals.len();
    'locals: while at > 0 {
        at -= 1;
        let local = &locals[at];
        into.push(&local.name, local.value)?;
    }
    Ok(())
}

/// The values of the parameters that are handed out, in order.
pub(crate) fn handed_out(
    alloc: Global,
    params: &[Param],
    vars: &Scope,
) -> Result<Vec<u32>, NoMemory>
    ensures { IfOk result (λ v. v.items ≡ reads (out_names params.now) vars.now) }
{
    let mut values = Vec::new(alloc);
    let mut left = params;
    'params: while let Some((param, rest)) = left.split_first() {
        left = rest;
        match param.mode {
            Mode::In => {}
            Mode::Out => values.push(vars.read(&param.name))?,
        }
    }
    Ok(values)
}

/// How many parameters are handed out.
#[tactic(auto, using(crate::proofs::Entering::counting))]
pub(crate) fn out_count(params: &[Param]) -> usize
    ensures { result ≡ length (out_names params.now) }
{
    let mut count = 0;
    'params: for param in params {
        match param.mode {
            Mode::In => {}
            Mode::Out => count += 1,
        }
    }
    count
}

/// The variable that an actual is, where it is handed out.
pub fn target<'a>(param: &Param, actual: &'a Expr) -> Option<&'a Name>
    ensures { (others : List NameBytes) → target_by param.now.mode (expression_of actual.entry.now) others
        ≡ option_to_list (option_map (λ n. n.now) result) ++ others }
{
    match param.mode {
        Mode::In => None,
        Mode::Out => match actual {
            Expr::Variable(name) => Some(name),
            Expr::Number(_) => None,
            Expr::Paren(_) => None,
            Expr::Not(_) => None,
            Expr::Binary(..) => None,
        },
    }
}

/// Stores values in the actuals that are handed out, in order.
pub(crate) fn store(vars: &mut Scope, params: &[Param], actuals: &[Expr], values: &[u32])
    ensures { vars.new ≡ stored (targets params.now (map expression_of actuals.now)) values.now vars.old }
{
    let Some((param, params)) = params.split_first() else {
        return;
    };
    let Some((actual, actuals)) = actuals.split_first() else {
        return;
    };
    let Some(name) = target(param, actual) else {
        store(vars, params, actuals, values);
        return;
    };
    let Some((value, values)) = values.split_first() else {
        return;
    };
    vars.write(name, *value);
    store(vars, params, actuals, values);
}

/// The value of a request, where it has one.
pub(crate) fn asked(actuals: &[Expr], vars: &Scope) -> Option<u32>
    ensures { result ≡ request_value (map expression_of actuals.now) vars.now }
{
    let (actual, _) = actuals.split_first()?;
    Some(value_of(actual, vars))
}
