ghost use Rattle.std.specs.Prelude.{◌≡◌, IfOk};
ghost use Rattle.ada_tree.specs.Programs.{Program};
ghost use Rattle.ada_tree.specs.Reading.{Accepts};
ghost use Rattle.ada_tree.specs.Trees.{program_of};
ghost use Rattle.ada_read.specs.Answers.{Says, fault_of};
ghost use Rattle.ada_read.specs.Judged.{IsJudged};

use crate::fault::AdaFault;
use crate::program::whole;
use ada_rules::{RuleBreak, check_program};
use ada_tree::AdaProgram;
use seq_read::{Halt, place_of};
use seq_tree::{ADA_LIMIT, TextFault};
use std::alloc::Global;
use token_read::{LexFault, Tokens};

/// The most bytes that a text may have.
const MOST_BYTES: usize = ADA_LIMIT;

/// The fault of a text that has no tokens.
fn misread(fault: LexFault) -> AdaFault
    ensures { result ≡ fault_of fault }
{
    match fault {
        LexFault::Byte(place) => AdaFault::Text(TextFault::Byte(place)),
        LexFault::Number(place) => AdaFault::Text(TextFault::Number(place)),
        LexFault::Long(place) => AdaFault::Text(TextFault::Long(place)),
        LexFault::NoMemory => AdaFault::NoMemory,
    }
}

/// The program, where it meets the rules.
fn judged(alloc: Global, program: AdaProgram) -> Result<AdaProgram, AdaFault>
    ensures { IsJudged (program_of program) result }
{
    match check_program(alloc, &program) {
        Ok(()) => Ok(program),
        Err(RuleBreak::Rule { rule, unit }) => Err(AdaFault::Rule { rule, unit }),
        Err(RuleBreak::NoMemory) => Err(AdaFault::NoMemory),
    }
}

/// The program that a text is accepted as.
///
/// The answers in order: `FileTooLong` comes for a text of over 16,777,216 bytes; `Byte`, `Number` and `Long` for a text without
/// tokens, at their first fault; `Syntax` at the first token with which no text goes on, or at the end of the text, and `TooDeep` at
/// the token that brings nesting or a chain over its limit, whichever is first; `Rule` for a program that breaks a rule; `NoMemory`
/// for want of memory.
pub fn read_ada(alloc: Global, bytes: &[u8]) -> Result<AdaProgram, AdaFault>
    // What is answered is so.
    ensures says { Says bytes.now result }
    // A text that is accepted as a program is read as that one, unless memory runs out.
    ensures only { (p : Program) → Accepts bytes.now p → IfOk result (λ q. program_of q ≡ p) }
{
    if bytes.len() > MOST_BYTES {
        return Err(AdaFault::Text(TextFault::FileTooLong));
    }
    match Tokens::of(bytes) {
        Err(fault) => Err(misread(fault)),
        Ok(found) => match whole(alloc, found) {
            Ok(program) => judged(alloc, program),
            Err(Halt::NoMemory) => Err(AdaFault::NoMemory),
            Err(Halt::Syntax(left)) => {
                let place = place_of(bytes, found, left);
                Err(AdaFault::Text(TextFault::Syntax(place)))
            }
            Err(Halt::TooDeep(left)) => {
                let place = place_of(bytes, found, left);
                Err(AdaFault::Text(TextFault::TooDeep(place)))
            }
        },
    }
}
