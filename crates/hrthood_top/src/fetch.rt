ghost use Rattle.std.specs.Prelude.{◌≤◌, map};
ghost use Rattle.hrthood_top.specs.Fetches.{Fetches, FetchesAll, AreApart, file_tree, texts_of};

use crate::file_kind::{FileKind, limit_of};
use crate::texts::Texts;
use hood_io::{Fetched, Shelf};
use std::alloc::Global;

/// A file that a command names.
#[derive(Clone, Copy)]
pub(crate) struct File<'a> {
    pub kind: FileKind,
    pub name: &'a str,
}

/// Why the files of a command could not be had.
#[derive(Drop)]
pub(crate) enum Stop<'a> {
    /// One has more bytes than its kind may have.
    TooLong(FileKind),
    /// The one with this name could not be read.
    ReadFault(&'a str),
    /// Memory was wanted.
    NoMemory,
}

/// The bytes of a file.
fn fetch_text<'a, F: Shelf>(
    alloc: Global,
    shelf: &mut F,
    file: File<'a>,
) -> Result<Vec<u8>, Stop<'a>>
    ensures later { F.faults shelf.old ≤ F.faults shelf.new }
    ensures fetches { Fetches (λ v. v.items) result (file_tree file.entry) (F.told shelf.old) (F.told shelf.new) (F.faults shelf.old)
        (F.faults shelf.new) }
{
    let mut text = Vec::new(alloc);
    match shelf.fetch(alloc, file.name, limit_of(file.kind), &mut text) {
        Fetched::Done => Ok(text),
        Fetched::TooLong => Err(Stop::TooLong(file.kind)),
        Fetched::Failed => Err(Stop::ReadFault(file.name)),
        Fetched::NoMemory => Err(Stop::NoMemory),
    }
}

/// The bytes of the files of a command, which are fetched in their order; no two are of one kind.
pub(crate) fn fetch_files<'a, F: Shelf>(
    alloc: Global,
    shelf: &mut F,
    files: &[File<'a>],
) -> Result<Texts, Stop<'a>>
    requires { AreApart (map file_tree files.now) }
    ensures { FetchesAll texts_of result (map file_tree files.now) (F.told shelf.old) (F.told shelf.new) (F.faults shelf.old) (F.faults shelf.new) }
{
    let mut texts = Texts::new(alloc);
    'files: for file in files {
        let text = fetch_text(alloc, shelf, *file)?;
        texts.put(file.kind, text);
    }
    Ok(texts)
}
