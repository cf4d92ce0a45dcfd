ghost use Rattle.std.specs.Prelude.{◌*◌, ◌++◌, [], ◌∷◌, codes, map, min, replicate};
ghost use Rattle.seq_tree.specs.Layout.{line_text};
ghost use Rattle.seq_tree.specs.Spelling.{actual_tokens, expression_tokens, line};
ghost use Rattle.seq_tree.specs.Trees.{expression_of};
ghost use Rattle.seq_tree.specs.declared.token.Token.TheVariants.{Word, Number, Sign};
ghost use Rattle.seq_tree.specs.declared.token.Mark.TheVariants.{LeftParen, RightParen, Semicolon, Dot, DotDot, Becomes};
ghost use Rattle.seq_print.specs.Printing.{Prints, Writes};

use crate::expression::{add_actuals, add_expression};
use crate::puts::{put, put_name, put_number};
use seq_tree::{Expr, Name, NoMemory};

/// The most spaces that a line begins with.
const SPACES: [u8; 30] = [b' '; 30];

/// Adds the spaces that a line of this level begins with, three a level and at most thirty; `NoMemory` leaves `into` as it was.
pub fn put_indent(into: &mut Vec<u8>, level: u32) -> Result<(), NoMemory>
    ensures { Prints result into.old.items into.new.items (replicate (min 30 (3 * level)) 32) }
{
    let count = 3 * level.min(10) as usize;
    let (spaces, _) = SPACES.split_at(count);
    put(into, spaces)
}

/// Adds a line of this level with these bytes; for want of memory a part of it may have been added.
#[tactic(auto, using(crate::proofs::Shared::Chains::writing))]
pub fn put_line(into: &mut Vec<u8>, level: u32, bytes: &[u8]) -> Result<(), NoMemory>
    ensures { Writes result into.old.items into.new.items (replicate (min 30 (3 * level)) 32 ++ (bytes.now ++ codes "\n")) }
{
    put_indent(into, level)?;
    put(into, bytes)?;
    put(into, b"\n")
}

/// Adds the line of an assignment.
pub(crate) fn add_assign(
    target: &Name,
    value: &Expr,
    level: u32,
    into: &mut Vec<u8>,
) -> Result<(), NoMemory>
    ensures { Writes result into.old.items into.new.items
        (line_text (line level (Word target.now ∷ Sign Becomes ∷ (expression_tokens (expression_of value.now) ++ Sign Semicolon ∷ [])))) }
{
    put_indent(into, level)?;
    put_name(into, b"", target, b" := ")?;
    add_expression(value, into)?;
    put(into, b";\n")
}

/// Adds the line of a condition, behind `if` or `elsif`.
pub(crate) fn add_condition(
    word: &[u8],
    condition: &Expr,
    level: u32,
    into: &mut Vec<u8>,
) -> Result<(), NoMemory>
    ensures { Writes result into.old.items into.new.items
        (line_text (line level (Word word.now ∷ (expression_tokens (expression_of condition.now) ++ Word (codes "then") ∷ [])))) }
{
    put_indent(into, level)?;
    put(into, word)?;
    put(into, b" ")?;
    add_expression(condition, into)?;
    put(into, b" then\n")
}

/// Adds the line that a loop begins with.
pub(crate) fn add_for(
    name: &Name,
    low: u32,
    high: u32,
    level: u32,
    into: &mut Vec<u8>,
) -> Result<(), NoMemory>
    ensures { Writes result into.old.items into.new.items
        (line_text (line level (Word (codes "for") ∷ Word name.now ∷ Word (codes "in") ∷ Word (codes "word") ∷ Word (codes "range") ∷ Number low
        ∷ Sign DotDot ∷ Number high ∷ Word (codes "loop") ∷ []))) }
{
    put_indent(into, level)?;
    put_name(into, b"for ", name, b" in word range ")?;
    put_number(into, b"", low, b" .. ")?;
    put_number(into, b"", high, b" loop\n")
}

/// Adds the line of an exit.
pub(crate) fn add_exit(condition: &Expr, level: u32, into: &mut Vec<u8>) -> Result<(), NoMemory>
    ensures { Writes result into.old.items into.new.items
        (line_text (line level (Word (codes "exit") ∷ Word (codes "when")
        ∷ (expression_tokens (expression_of condition.now) ++ Sign Semicolon ∷ [])))) }
{
    put_indent(into, level)?;
    put(into, b"exit when ")?;
    add_expression(condition, into)?;
    put(into, b";\n")
}

/// Adds the line of a call.
pub(crate) fn add_call(
    object: &Name,
    op: &Name,
    actuals: &[Expr],
    level: u32,
    into: &mut Vec<u8>,
) -> Result<(), NoMemory>
    ensures { Writes result into.old.items into.new.items
        (line_text (line level (Word object.now ∷ Sign Dot ∷ Word op.now ∷ (actual_tokens (map expression_of actuals.now) ++ Sign Semicolon ∷ [])))) }
{
    put_indent(into, level)?;
    put_name(into, b"", object, b".")?;
    put(into, op.bytes())?;
    add_actuals(actuals, into)?;
    put(into, b";\n")
}

/// Adds the line of a statement that takes ticks.
pub(crate) fn add_work(ticks: u32, level: u32, into: &mut Vec<u8>) -> Result<(), NoMemory>
    ensures { Writes result into.old.items into.new.items
        (line_text (line level (Word (codes "work") ∷ Sign LeftParen ∷ Number ticks ∷ Sign RightParen ∷ Sign Semicolon ∷ []))) }
{
    put_indent(into, level)?;
    put_number(into, b"work (", ticks, b");\n")
}

/// Adds the line of a statement that puts a value out.
pub(crate) fn add_put(value: &Expr, level: u32, into: &mut Vec<u8>) -> Result<(), NoMemory>
    ensures { Writes result into.old.items into.new.items
        (line_text (line level (Word (codes "put") ∷ Sign LeftParen
        ∷ (expression_tokens (expression_of value.now) ++ Sign RightParen ∷ Sign Semicolon ∷ [])))) }
{
    put_indent(into, level)?;
    put(into, b"put (")?;
    add_expression(value, into)?;
    put(into, b");\n")
}
