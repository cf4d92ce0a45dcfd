ghost use Rattle.std.specs.Prelude.{◌≡◌, IfOk};
ghost use Rattle.ods_tree.specs.Designs as trees;
ghost use Rattle.ods_tree.specs.Reading.{Reads};
ghost use Rattle.ods_tree.specs.Trees.{design_of};
ghost use Rattle.ods_read.specs.Answers.{Says, fault_of};

use crate::design::whole;
use ods_tree::Design;
use seq_read::{Halt, place_of};
use seq_tree::{TEXT_LIMIT, TextFault};
use std::alloc::Global;
use token_read::{LexFault, Tokens};

/// The most bytes that a design may have.
const MOST_BYTES: usize = TEXT_LIMIT;

/// The fault of a text that has no tokens.
fn misread(fault: LexFault) -> TextFault
    ensures { result ≡ fault_of fault }
{
    match fault {
        LexFault::Byte(place) => TextFault::Byte(place),
        LexFault::Number(place) => TextFault::Number(place),
        LexFault::Long(place) => TextFault::Long(place),
        LexFault::NoMemory => TextFault::NoMemory,
    }
}

/// The design that a text reads as, of either version.
///
/// The answers in order: `FileTooLong` comes for a text of over 1,048,576 bytes; `Byte`, `Number` and `Long` for a text without
/// tokens, at their first fault; `Syntax` at the first token with which no design goes on, a unit of time without a version among
/// them, or at the end of the text, and `TooDeep` at the token that brings nesting or a chain over its limit, whichever is first;
/// `NoMemory` for want of memory.
pub fn read_design(alloc: Global, bytes: &[u8]) -> Result<Design, TextFault>
    // What is answered is so.
    ensures says { Says bytes.now result }
    // A text that has the tokens of a design is read as that one, unless memory runs out.
    ensures only { (x : trees.Design) → Reads bytes.now x → IfOk result (λ d. design_of d ≡ x) }
{
    if bytes.len() > MOST_BYTES {
        return Err(TextFault::FileTooLong);
    }
    match Tokens::of(bytes) {
        Err(fault) => Err(misread(fault)),
        Ok(found) => match whole(alloc, found) {
            Ok(design) => Ok(design),
            Err(Halt::NoMemory) => Err(TextFault::NoMemory),
            Err(Halt::Syntax(left)) => {
                let place = place_of(bytes, found, left);
                Err(TextFault::Syntax(place))
            }
            Err(Halt::TooDeep(left)) => {
                let place = place_of(bytes, found, left);
                Err(TextFault::TooDeep(place))
            }
        },
    }
}
