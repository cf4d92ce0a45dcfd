ghost use Rattle.std.specs.Prelude.{◌≡◌, ◌∷◌, ◌++◌, [], IfOk, OnOk};
ghost use Rattle.ada_tree.specs.Rules.{MeetsRules};
ghost use Rattle.law_traces.specs.Told.{HasPlainNames};
ghost use Rattle.trace_read.specs.Gathered.{Gathers};
ghost use Rattle.trace_read.specs.Texts.{table_program};
ghost use Rattle.trace_read.specs.declared.gather.Unread.TheVariants.{NoMemory as Lacking};

use crate::lines::Lines;
use crate::table::Table;
use crate::told::Events;
use seq_tree::NoMemory;
use std::alloc::Global;

/// Why a text has no list of events.
#[derive(Clone, Copy, Debug, PartialEq, Eq)]
pub enum Unread {
    /// The line of this number, from 1, is none of an event.
    Line {
        /// The number.
        line: u64,
    },
    /// Want of memory.
    NoMemory,
}

impl From<NoMemory> for Unread {
    ghost from_gives = { λ _ e. e ≡ Lacking };

    fn from(_e: NoMemory) -> Unread {
        Unread::NoMemory
    }
}

/// How many line feeds bytes have.
fn line_feeds(text: &[u8]) -> usize {
    let mut count: usize = 0;
    'bytes: for byte in text {
        if *byte == b'\n' {
            count = count.saturating_add(1);
        }
    }
    count
}

/// No bytes at which lines begin, with room for so many.
fn no_starts(alloc: Global, lines: usize) -> Result<Vec<u32>, NoMemory>
    ensures { IfOk result (λ v. v.items ≡ []) }
{
    Ok(Vec::with_capacity(alloc, lines)?)
}

/// Adds the byte at which a line begins.
fn push(starts: &mut Vec<u32>, start: u32) -> Result<(), NoMemory>
    ensures { OnOk result (starts.new.items ≡ starts.old.items ++ start ∷ []) }
{
    starts.push(start)?;
    Ok(())
}

/// The events of which a text has the lines, in order. `Line` comes exactly where a line is none of an event, with the first such line; a last
/// line without its line feed is none. The text is read twice, and no event is held: each is read again where it is asked for. Beside the text,
/// memory is taken for 12 bytes a line, for 4 a unit, and meanwhile as for a table and for 8 a unit. `NoMemory` is also answered for a text of more
/// than 4,294,967,295 bytes.
#[tactic(auto, using(crate::proofs::Gathering::counting))]
pub fn read_events<'t, 'p, 'x>(
    alloc: Global,
    table: &'t Table<'p>,
    text: &'x [u8],
) -> Result<Events<'t, 'p, 'x>, Unread>
    requires meets { MeetsRules (table_program table.now) }
    requires plain { HasPlainNames (table_program table.now) }
    ensures { Gathers (λ e. e) (table_program table.entry.now) text.entry.now result }
{
    if text.len() > 4294967295 {
        return Err(Unread::NoMemory);
    }
    let mut starts = no_starts(alloc, line_feeds(text))?;
    let mut lines = Lines::new(alloc, table.program, text)?;
    let mut start = 0;
    'lines: while let Some(next) = lines.next() {
        let Ok(_event) = next else {
            return Err(Unread::Line {
                line: starts.len() as u64 + 1,
            });
        };
        push(&mut starts, start)?;
        start = (text.len() - lines.len_left()) as u32;
    }
    Ok(Events::of(alloc, table, text, starts)?)
}
