ghost use Rattle.std.specs.Prelude.{◌≡◌, ◌<◌, ◌≤◌, ◌∷◌, length, IfOk};
ghost use Rattle.std.specs.Char.{to_ascii_lowercase};
ghost use Rattle.std.specs.Str.{str_to_ascii_lowercase};
ghost use Rattle.seq_tree.specs.Expressions.{Variable};
ghost use Rattle.seq_tree.specs.Trees.{expression_of};
ghost use Rattle.sample_design.specs.Samples.{datum, op_name, param, two_digits};

use seq_tree::{Datum, Expr, Mode, Name, NoMemory, OpName, Param};
use std::alloc::Global;

/// A letter in lower case, and a number below 100 behind it in decimal.
#[tactic(auto, using(crate::proofs::Digits::digit_steps))]
pub(crate) fn numbered(alloc: Global, letter: u8, number: u32) -> Result<Name, NoMemory>
    requires letter { to_ascii_lowercase letter ≡ letter }
    requires small { number < 100 }
    ensures { IfOk result (λ n. n ≡ letter ∷ two_digits number) }
{
    if number < 10 {
        let bytes = [letter, 48 + number as u8];
        Name::folded(alloc, &bytes)
    } else {
        let bytes = [letter, 48 + (number / 10) as u8, 48 + (number % 10) as u8];
        Name::folded(alloc, &bytes)
    }
}

/// A variable in an expression, by the bytes of its name, which are folded to lower case here as everywhere below.
pub(crate) fn variable(alloc: Global, name: &[u8]) -> Result<Expr, NoMemory>
    requires { (0 < length name.now) × (length name.now ≤ 64) }
    ensures { IfOk result (λ e. expression_of e ≡ Variable (str_to_ascii_lowercase name.now)) }
{
    Ok(Expr::Variable(Name::folded(alloc, name)?))
}

/// A parameter.
pub(crate) fn param(alloc: Global, name: &[u8], mode: Mode) -> Result<Param, NoMemory>
    requires { (0 < length name.now) × (length name.now ≤ 64) }
    ensures { IfOk result (λ p. p ≡ param (str_to_ascii_lowercase name.now) mode) }
{
    Ok(Param {
        name: Name::folded(alloc, name)?,
        mode,
    })
}

/// A variable and the value that it is written with.
pub(crate) fn datum(alloc: Global, name: &[u8], value: u32) -> Result<Datum, NoMemory>
    requires { (0 < length name.now) × (length name.now ≤ 64) }
    ensures { IfOk result (λ d. d ≡ datum (str_to_ascii_lowercase name.now) value) }
{
    Ok(Datum {
        name: Name::folded(alloc, name)?,
        value,
    })
}

/// An operation of an object, by their names.
pub(crate) fn op_name(alloc: Global, object: &[u8], op: &[u8]) -> Result<OpName, NoMemory>
    requires object_short { (0 < length object.now) × (length object.now ≤ 64) }
    requires op_short { (0 < length op.now) × (length op.now ≤ 64) }
    ensures { IfOk result (λ o. o ≡ op_name (str_to_ascii_lowercase object.now) (str_to_ascii_lowercase op.now)) }
{
    Ok(OpName {
        object: Name::folded(alloc, object)?,
        op: Name::folded(alloc, op)?,
    })
}
