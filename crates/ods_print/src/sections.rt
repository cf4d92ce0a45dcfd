ghost use Rattle.std.specs.Prelude.{◌≡◌, ◌+◌, ◌++◌, min};
ghost use Rattle.seq_print.specs.Printing.{Writes};
ghost use Rattle.ods_print.specs.Parts.{heading, item_lines, lines_text};

use crate::items::Item;
use seq_print::put_line;
use seq_tree::NoMemory;

/// A level deeper; from ten levels on, lines begin with no more spaces.
pub(crate) fn deeper(level: u32) -> u32
    ensures { result ≡ min level 10 + 1 }
{
    level.min(10) + 1
}

/// Adds the lines of items.
pub(crate) fn add_items<T: Item>(
    items: &[T],
    level: u32,
    into: &mut Vec<u8>,
) -> Result<(), NoMemory>
    ensures { Writes result into.old.items into.new.items (lines_text (item_lines level T.parts items.now)) }
{
    'items: for item in items {
        item.add(level, into)?;
    }
    Ok(())
}

/// Adds the word of a section, where the section has items.
pub(crate) fn add_heading<T>(
    word: &[u8],
    items: &[T],
    level: u32,
    into: &mut Vec<u8>,
) -> Result<(), NoMemory>
    ensures { Writes result into.old.items into.new.items (heading level word.now items.now) }
{
    match items.split_first() {
        None => Ok(()),
        Some(_) => put_line(into, level, word),
    }
}

/// Adds a section: its word, and its items one level deeper, or nothing where it has none.
pub(crate) fn add_section<T: Item>(
    word: &[u8],
    items: &[T],
    level: u32,
    into: &mut Vec<u8>,
) -> Result<(), NoMemory>
    ensures { Writes result into.old.items into.new.items (heading level word.now items.now
        ++ lines_text (item_lines (min level 10 + 1) T.parts items.now)) }
{
    add_heading(word, items, level, into)?;
    add_items(items, deeper(level), into)
}
