ghost use Rattle.std.specs.Prelude.{◌≡◌, ◌∷◌, [], IfSome, MatchOption, drop, suc};
ghost use Rattle.ada_tree.specs.Trees.{program_of};
ghost use Rattle.law_traces.specs.Cuts.{cut};
ghost use Rattle.law_traces.specs.Told.{IsEvent};
ghost use Rattle.trace_read.specs.Chains.{AreStarts};
ghost use Rattle.trace_read.specs.Reading.{event_of};
ghost use Rattle.trace_read.specs.Telling.{events_in, told_by};
ghost use Rattle.trace_read.specs.Texts.{table_program};

use crate::events::read;
use crate::table::Table;
use crate::words::Words;
use trace_tree::Event;

/// The event that a line tells, without its line feed. It is one of the program.
fn event_in(table: &Table<'_>, line: &[u8]) -> Option<Event>
    ensures tells { result ≡ event_of (program_of table.now.program.now) (cut 32 line.now) }
    ensures fits { IfSome result (IsEvent (program_of table.now.program.now)) }
{
    read(table, line)
}

/// The next event that lines tell, where one is left. It is one of the program.
fn next_in(table: &Table<'_>, lines: &mut Words<'_>) -> Option<Event>
    ensures next { MatchOption result
        ((told_by (program_of table.now.program.now) lines.old ≡ []) × (told_by (program_of table.now.program.now) lines.new ≡ []))
        (λ e. told_by (program_of table.now.program.now) lines.old ≡ e ∷ told_by (program_of table.now.program.now) lines.new) }
    ensures fits { IfSome result (IsEvent (program_of table.now.program.now)) }
{
    'lines: while let Some(line) = lines.next() {
        if let Some(event) = event_in(table, line) {
            return Some(event);
        }
    }
    None
}

/// The event of a text at an index, where there is one. Lines begin at these bytes.
pub(crate) fn read_at(table: &Table<'_>, text: &[u8], starts: &[u32], at: u32) -> Option<Event>
    requires { AreStarts (table_program table.now) text.now starts.now }
    ensures read { MatchOption result (drop at (events_in (table_program table.now) text.now) ≡ [])
        (λ e. drop at (events_in (table_program table.now) text.now) ≡ e ∷ drop (suc at) (events_in (table_program table.now) text.now)) }
    ensures fits { IfSome result (IsEvent (table_program table.now)) }
{
    let index = at as usize;
    if index >= starts.len() {
        return None;
    }
    let (_, line) = text.split_at(starts[index] as usize);
    let mut lines = Words::new(b'\n', line);
    next_in(table, &mut lines)
}
