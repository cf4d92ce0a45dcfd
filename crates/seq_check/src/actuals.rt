ghost use Rattle.std.specs.Prelude.{◌≡◌, ◌&&◌, ◌||◌, IfOk, OnOk, map};
ghost use Rattle.std.specs.List.{list_any};
ghost use Rattle.seq_tree.specs.Expressions.{Expression};
ghost use Rattle.seq_tree.specs.Faults.{actuals_fault, is_fixed, is_fixed_actual, is_no_variable, is_variable, out_actuals, repeats, stands_again};
ghost use Rattle.seq_tree.specs.Operations.{is_out};
ghost use Rattle.seq_tree.specs.Trees.{expression_of};
ghost use Rattle.name_sets.specs.Sets.{has};
ghost use Rattle.seq_check.specs.Answers.{answer_of};
ghost use Rattle.seq_check.specs.Places.{place_of};
ghost use Rattle.seq_check.specs.Seen.{is_same, is_seen};

use crate::fault::BodyFault;
use crate::place::{Place, same_name};
use name_sets::Names;
use seq_tree::{Expr, Mode, Name, NoMemory, Param};
use std::alloc::Global;

/// As many parameters as an operation of a program that meets the rules has at most.
const FEW: usize = 8;

/// Whether a parameter of this mode hands a value out.
pub(crate) fn is_out(mode: Mode) -> bool
    ensures { result ≡ is_out mode }
{
    match mode {
        Mode::In => false,
        Mode::Out => true,
    }
}

/// Whether a name is known here and can't be assigned.
pub(crate) fn is_fixed(name: &Name, place: &Place) -> bool
    ensures { result ≡ is_fixed (place_of place.now) name.now }
{
    place.reads(name) && !place.writes(name)
}

/// Whether an actual is a variable that can't be assigned here.
fn is_fixed_actual(actual: &Expr, place: &Place) -> bool
    ensures { result ≡ is_fixed_actual (place_of place.now) (expression_of actual.now) }
{
    match actual {
        Expr::Variable(name) => is_fixed(name, place),
        Expr::Number(_) | Expr::Paren(_) | Expr::Not(_) | Expr::Binary(..) => false,
    }
}

/// Whether an actual is no variable.
fn is_no_variable(actual: &Expr) -> bool
    ensures { result ≡ is_no_variable (expression_of actual.now) }
{
    match actual {
        Expr::Variable(_) => false,
        Expr::Number(_) | Expr::Paren(_) | Expr::Not(_) | Expr::Binary(..) => true,
    }
}

/// Whether an actual is this variable.
fn is_variable(name: &Name, actual: &Expr) -> bool
    ensures { result ≡ is_variable name.now (expression_of actual.now) }
{
    match actual {
        Expr::Variable(other) => same_name(name, other),
        Expr::Number(_) | Expr::Paren(_) | Expr::Not(_) | Expr::Binary(..) => false,
    }
}

/// Whether a variable stands again among actuals of `out` parameters.
fn stands_again(actual: &Expr, params: &[Param], actuals: &[Expr]) -> bool
    ensures { result ≡ stands_again (expression_of actual.now) (out_actuals params.now (map expression_of actuals.now)) }
{
    match actual {
        Expr::Variable(name) => params
            .iter()
            .zip(actuals.iter())
            .any(|(p, a)| is_out(p.mode) && is_variable(name, a)),
        Expr::Number(_) | Expr::Paren(_) | Expr::Not(_) | Expr::Binary(..) => false,
    }
}

/// Whether a variable is the actual of two `out` parameters, by a look at each two.
fn repeats_by_pairs(params: &[Param], actuals: &[Expr]) -> bool
    ensures { result ≡ repeats (out_actuals params.now (map expression_of actuals.now)) }
{
    let mut params = params;
    let mut actuals = actuals;
    'outs: while let (Some((param, later)), Some((actual, others))) = (
        params.split_first(),
        actuals.split_first(),
    ) {
        if is_out(param.mode) && stands_again(actual, later, others) {
            return true;
        }
        params = later;
        actuals = others;
    }
    false
}

/// Adds the variable that an actual is to a set, and says whether it was there.
fn add_variable<'a>(seen: &mut Names<'a>, actual: &'a Expr) -> Result<bool, NoMemory>
    ensures told { IfOk result (λ b. b ≡ is_seen (has seen.old) (expression_of actual.entry.now)) }
    ensures added { OnOk result ((x : Expression) → is_seen (has seen.new) x
        ≡ (is_same (expression_of actual.entry.now) x || is_seen (has seen.old) x)) }
{
    match actual {
        Expr::Variable(name) => Ok(!seen.add(name)?),
        Expr::Number(_) | Expr::Paren(_) | Expr::Not(_) | Expr::Binary(..) => Ok(false),
    }
}

/// Does the same where a parameter hands a value out.
fn add_out_actual<'a>(
    seen: &mut Names<'a>,
    param: &Param,
    actual: &'a Expr,
) -> Result<bool, NoMemory>
    ensures told { IfOk result (λ b. b ≡ (is_out param.now.mode && is_seen (has seen.old) (expression_of actual.entry.now))) }
    ensures added { OnOk result ((x : Expression) → is_seen (has seen.new) x
        ≡ ((is_out param.now.mode && is_same (expression_of actual.entry.now) x) || is_seen (has seen.old) x)) }
{
    match param.mode {
        Mode::In => Ok(false),
        Mode::Out => add_variable(seen, actual),
    }
}

/// Whether a variable is the actual of two `out` parameters, by a set of those before.
fn repeats_by_set(alloc: Global, params: &[Param], actuals: &[Expr]) -> Result<bool, NoMemory>
    ensures { IfOk result (λ b. b ≡ repeats (out_actuals params.now (map expression_of actuals.now))) }
{
    let mut seen = Names::new(alloc);
    let mut params = params;
    let mut actuals = actuals;
    'outs: while let (Some((param, later)), Some((actual, others))) = (
        params.split_first(),
        actuals.split_first(),
    ) {
        if add_out_actual(&mut seen, param, actual)? {
            return Ok(true);
        }
        params = later;
        actuals = others;
    }
    Ok(false)
}

/// Whether a variable is the actual of two `out` parameters. Of many parameters a set tells, where there is memory for one.
fn repeats(params: &[Param], actuals: &[Expr], place: &Place) -> bool
    ensures { result ≡ repeats (out_actuals params.now (map expression_of actuals.now)) }
{
    if params.len() <= FEW {
        return repeats_by_pairs(params, actuals);
    }
    match place.memory() {
        None => repeats_by_pairs(params, actuals),
        Some(alloc) => match repeats_by_set(alloc, params, actuals) {
            Ok(found) => found,
            Err(_) => repeats_by_pairs(params, actuals),
        },
    }
}

/// Whether an actual of an `out` parameter is a variable that can't be assigned here.
fn hands_out_fixed(params: &[Param], actuals: &[Expr], place: &Place) -> bool
    ensures { result ≡ list_any (is_fixed_actual (place_of place.now)) (out_actuals params.now (map expression_of actuals.now)) }
{
    params
        .iter()
        .zip(actuals.iter())
        .any(|(p, a)| is_out(p.mode) && is_fixed_actual(a, place))
}

/// Whether an actual of an `out` parameter is no variable.
fn hands_out_no_variable(params: &[Param], actuals: &[Expr]) -> bool
    ensures { result ≡ list_any is_no_variable (out_actuals params.now (map expression_of actuals.now)) }
{
    params
        .iter()
        .zip(actuals.iter())
        .any(|(p, a)| is_out(p.mode) && is_no_variable(a))
}

/// Tells the first fault of the actuals of a call, besides those of their expressions.
pub(crate) fn check_actuals(
    params: &[Param],
    actuals: &[Expr],
    place: &Place,
) -> Result<(), BodyFault>
    ensures { result ≡ answer_of (actuals_fault (place_of place.now) (out_actuals params.now (map expression_of actuals.now)) params.now
        (map expression_of actuals.now)) }
{
    if hands_out_fixed(params, actuals, place) {
        return Err(BodyFault::Assigned);
    }
    if hands_out_no_variable(params, actuals) || repeats(params, actuals, place) {
        return Err(BodyFault::Actual);
    }
    if params.len() != actuals.len() {
        return Err(BodyFault::Count);
    }
    Ok(())
}
