ghost use Rattle.std.specs.Prelude.{◌≡◌, ◌<◌, ◌≤◌, Ok, IfOk, length};
ghost use Rattle.ada_tree.specs.Trees.{program_of};
ghost use Rattle.arrivals_tree.specs.Arrived.{Arrives, horizon_limit};
ghost use Rattle.arrivals_tree.specs.Arriving.{Arrivals as Tree, arrivals_of};
ghost use Rattle.arrivals_tree.specs.ArrivalTexts.{arrival_tokens};
ghost use Rattle.arrivals_read.specs.Answers.{Says, fault_of};
ghost use Rattle.arrivals_read.specs.Found.{Tells};
ghost use Rattle.arrivals_read.specs.Texts.{text_of};
ghost use Rattle.seq_tree.specs.Lexis.{plain, tokens};
ghost use Rattle.token_read.specs.Lexemes.{word_bytes};
ghost use Rattle.seq_tree.specs.Limits.{text_limit};

use crate::checks::Cause;
use crate::fault::ArrivalFault;
use crate::items::{Refusal, items};
use crate::text::{Text, whole};
use ada_tree::AdaProgram;
use arrivals_tree::Arrivals;
use seq_read::place_of;
use seq_tree::{NoMemory, TEXT_LIMIT, TICK_LIMIT, TextFault};
use std::alloc::Global;
use token_read::{LexFault, TokenFault, Tokens, Word, place_behind};

/// The farthest horizon, in ticks.
const HORIZON_LIMIT: u32 = TICK_LIMIT;

/// The fault of a text that has no tokens.
fn misread(fault: LexFault) -> ArrivalFault
    ensures { result ≡ fault_of fault }
{
    match fault {
        LexFault::Byte(place) => ArrivalFault::Text(TextFault::Byte(place)),
        LexFault::Number(place) => ArrivalFault::Text(TextFault::Number(place)),
        LexFault::Long(place) => ArrivalFault::Text(TextFault::Long(place)),
        LexFault::NoMemory => ArrivalFault::NoMemory,
    }
}

/// What is wrong with an item of this name in this line, as it is told.
fn told(alloc: Global, cause: Cause, line: u32, name: Word) -> ArrivalFault
    ensures { Tells cause line (word_bytes name.entry) result }
{
    match (cause, name.name(alloc)) {
        (Cause::Falling, _) => ArrivalFault::Q1 { line },
        (Cause::Unknown, Ok(name)) => ArrivalFault::Q2 { line, name },
        (Cause::Early, Ok(object)) => ArrivalFault::Q3 { line, object },
        (Cause::Unfit, _) => ArrivalFault::Q5 { line },
        (_, Err(NoMemory)) => ArrivalFault::NoMemory,
    }
}

/// The arrivals that a text, which was read from these bytes, says of a program, where they are accepted.
fn accepted(
    alloc: Global,
    bytes: &[u8],
    text: &Text,
    program: &AdaProgram,
) -> Result<Arrivals, ArrivalFault>
    requires few { length (program_of program.now).units < 4294967296 }
    requires short { length bytes.now ≤ text_limit }
    requires sized { length (arrival_tokens (text_of text.now)) ≤ text_limit }
    requires spelled { plain (tokens bytes.now) ≡ Ok (arrival_tokens (text_of text.now)) }
    ensures { Says bytes.now (program_of program.now) result }
{
    if text.until > HORIZON_LIMIT {
        return Err(ArrivalFault::Q4 {
            value: text.until,
            limit: HORIZON_LIMIT,
        });
    }
    match items(alloc, program, text) {
        Ok(arrivals) => Ok(arrivals),
        Err(
            Refusal::Wrong {
                cause,
                name,
                before,
            },
        ) => {
            let place = place_behind(bytes, before);
            Err(told(alloc, cause, place.line, name))
        }
        Err(Refusal::NoMemory) => Err(ArrivalFault::NoMemory),
    }
}

/// The arrivals that a text says of a program.
///
/// The text is `UNTIL`, the horizon and `;`, then lists of durations as `WORK s 3, 4;`, then requests from outside as `AT 5 s 1;`,
/// all in ticks. A name means the program's first unit of it. Requests behind the horizon are checked as the others are.
///
/// The answers in order: `Text` with `FileTooLong` comes for a text of over 1,048,576 bytes, with `Byte`, `Number` or `Long` at its
/// first fault of the lexical grammar, and with `Syntax` at the first token with which no text of arrivals goes on, or at the end of
/// the text; `Q4` for a horizon of over 1,000,000,000; then, at the first item in which something is wrong, `Q1` for a time below
/// that of the request before, `Q2` for durations of what is no task or a request of what is no external sporadic task, `Q5` for a
/// duration of 0 and for a value that is missing or isn't asked for, and `Q3` for a separation that isn't kept, in this order within
/// an item. `NoMemory` may come wherever memory is asked for.
pub fn read_arrivals(
    alloc: Global,
    bytes: &[u8],
    program: &AdaProgram,
) -> Result<Arrivals, ArrivalFault>
    requires few { length (program_of program.now).units < 4294967296 }
    // What is answered is so.
    ensures says { Says bytes.now (program_of program.now) result }
    // A text that says arrivals that are accepted is read as those, unless memory runs out.
    ensures only { (a : Tree) → Arrives horizon_limit bytes.now (program_of program.now) a → IfOk result (λ b. arrivals_of b ≡ a) }
{
    if bytes.len() > TEXT_LIMIT {
        return Err(ArrivalFault::Text(TextFault::FileTooLong));
    }
    match Tokens::of(bytes) {
        Err(fault) => Err(misread(fault)),
        Ok(found) => match whole(alloc, found) {
            Ok(text) => accepted(alloc, bytes, &text, program),
            Err(TokenFault::NoMemory) => Err(ArrivalFault::NoMemory),
            Err(TokenFault::Syntax(left)) => {
                let place = place_of(bytes, found, left);
                Err(ArrivalFault::Text(TextFault::Syntax(place)))
            }
        },
    }
}
