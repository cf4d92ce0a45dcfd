ghost use Rattle.std.specs.Prelude.{◌≡◌, ◌++◌, List, ℕ, IfOk, MatchOption, length};
ghost use Rattle.ada_tree.specs.Trees.{program_of};
ghost use Rattle.ada_tree.specs.Rules.{MeetsRules};
ghost use Rattle.trace_tree.specs.Lines.{line};
ghost use Rattle.trace_tree.specs.Placed.{IsPlaced};
ghost use Rattle.law_traces.specs.Told.{HasPlainNames};
ghost use Rattle.trace_read.specs.Laws.{LinesGoOn};
ghost use Rattle.trace_read.specs.Lines.{IsFront, IsNext};

use crate::events::read;
use crate::split::split;
use crate::table::Table;
use ada_tree::AdaProgram;
use seq_tree::NoMemory;
use std::alloc::Global;
use trace_text::{LineBuf, line};
use trace_tree::Event;

/// Bytes that don't begin with the line of an event.
#[derive(Clone, Copy, Debug, PartialEq, Eq)]
pub struct NoLine;

/// A text as lines of events of a program, one after another.
#[derive(Drop)]
pub struct Lines<'a> {
    table: Table<'a>,
    left: &'a [u8],
    buffer: LineBuf,
}

/// The bytes behind the line of an event, where a text begins with that line. `buffer` is for the line.
fn behind<'a>(
    program: &AdaProgram,
    event: &Event,
    left: &'a [u8],
    buffer: &mut LineBuf,
) -> Option<&'a [u8]>
    requires { IsPlaced (program_of program.now) event.now }
    ensures { MatchOption result
        ((more : List ℕ) → left.entry.now ≡ line (program_of program.now) event.now ++ more → ⊥)
        (λ r. left.entry.now ≡ line (program_of program.now) event.now ++ r.now) }
{
    line(program, event, buffer);
    let written = buffer.bytes();
    if written.len() > left.len() {
        return None;
    }
    let (first, rest) = left.split_at(written.len());
    if first != written {
        return None;
    }
    Some(rest)
}

/// The event whose line a text begins with, and the bytes behind it. `buffer` is for its line.
fn front<'a>(table: &Table<'a>, left: &'a [u8], buffer: &mut LineBuf) -> Option<(Event, &'a [u8])>
    ensures { MeetsRules (program_of table.now.program.now) → HasPlainNames (program_of table.now.program.now)
        → IsFront (program_of table.now.program.now) left.entry.now result }
{
    let (text, _) = split(b'\n', left);
    match read(table, text) {
        None => None,
        Some(event) => match behind(table.program, &event, left, buffer) {
            None => None,
            Some(rest) => Some((event, rest)),
        },
    }
}

impl<'a> Lines<'a> {
    ghost use Rattle.trace_read.specs.Texts.{text_left, text_program};

    /// A text from its first byte on. Memory is taken for tables of the program's names alone; where it lacks, `NoMemory` is answered, and
    /// also for a program of more than 4,294,967,295 units, or operations of one unit.
    pub fn new(
        alloc: Global,
        program: &'a AdaProgram,
        text: &'a [u8],
    ) -> Result<Lines<'a>, NoMemory>
        ensures { IfOk result (λ l. (text_program l ≡ program_of program.entry.now) × (text_left l ≡ text.entry.now)) }
    {
        let table = Table::new(alloc, program)?;
        Ok(Lines {
            table,
            left: text,
            buffer: LineBuf::new(),
        })
    }

    /// How many bytes are left.
    pub(crate) fn len_left(&self) -> usize
        ensures { result ≡ length (text_left self.now) }
    {
        self.left.len()
    }

    /// The event whose line the bytes that are left begin with, and then the bytes behind it are left; nothing where no bytes are left; and
    /// `NoLine` where they begin with the line of no event, and then all is as before. No memory is taken.
    pub fn next(&mut self) -> Option<Result<Event, NoLine>>
        ensures next { MeetsRules (text_program self.old) → HasPlainNames (text_program self.old)
            → IsNext (text_program self.old) (text_left self.old) (text_left self.new) result }
        ensures program { text_program self.new ≡ text_program self.old }
    {
        if self.left.is_empty() {
            return None;
        }
        match front(&self.table, self.left, &mut self.buffer) {
            None => Some(Err(NoLine)),
            Some((event, rest)) => {
                self.left = rest;
                Some(Ok(event))
            }
        }
    }
}

/// A text that tells events goes on as its next line says: an event is the first that is told, the bytes behind it tell the others, no bytes
/// tell nothing, and bytes that begin with no line tell no events.
pub fn lines_go_on()
    ensures { LinesGoOn }
{}
