ghost use Rattle.std.specs.Prelude.{◌≡◌, ◌≤◌, ◌+◌, ◌-◌, ◌^◌, [], Some, min, take, IfSome, OnOk};
ghost use Rattle.hood_io.specs.Shelves.{after_fetch, counted, opened, untold, Closes, IsFront, Says};

use crate::shelf::{Fetched, Shelf};
use std::alloc::Global;
use std::fs::File;
use std::io::{self, Read};
use std::rt::Files;

/// The files of the system, by their paths. It tells nothing of what they hold.
#[derive(Drop)]
pub struct FileShelf<'a, R: Files> {
    rt: &'a R,
    faults: u64,
}

impl<'a, R: Files> FileShelf<'a, R> {
    /// A shelf over the files that this runtime opens, with no faults.
    pub fn new(rt: &'a R) -> FileShelf<'a, R>
        ensures { result.faults ≡ 0 }
    {
        FileShelf { rt, faults: 0 }
    }
}

/// Makes `into` the first bytes that the reader has left: all of them, or one byte more than `limit`.
fn read_front<S: Read + Drop>(from: S, limit: usize, into: &mut Vec<u8>) -> io::Result<()>
    ensures whole { OnOk result (IfSome (S.remaining from) (λ xs. into.new.items ≡ take (min (limit + 1) (2 ^ 64 - 1)) xs)) }
    ensures front { IfSome (S.remaining from) (λ xs. IsFront into.new.items (Some xs)) }
{
    into.clear();
    from.take((limit as u64).saturating_add(1))
        .read_to_end(into)?;
    Ok(())
}

/// How a fetch ends, by how reading ended, and whether what was read is within the limit.
fn ending(read: io::Result<()>, within: bool) -> Fetched
    ensures { Closes read within result }
{
    match read {
        Ok(()) => {
            if within {
                Fetched::Done
            } else {
                Fetched::TooLong
            }
        }
        Err(e) if e.kind() == io::ErrorKind::OutOfMemory => Fetched::NoMemory,
        Err(_) => Fetched::Failed,
    }
}

/// What a fetch answers of a file that was opened, or could not be, and the count of faults after it: what every shelf says, of a shelf on
/// which each name is of this file, where the file tells its bytes.
fn fetch_opened<S: Read + Drop>(
    file: io::Result<S>,
    limit: usize,
    into: &mut Vec<u8>,
    faults: &mut u64,
) -> Fetched
    ensures later { faults.old ≤ faults.new }
    ensures front { IfSome (opened S.remaining file) (λ t. IsFront into.new.items (t.files [])) }
    ensures says { Says result (opened S.remaining file) [] limit into.new.items faults.old faults.new }
    ensures counted { faults.new ≡ counted result faults.old }
{
    into.clear();
    let read = match file {
        Ok(file) => read_front(file, limit, into),
        Err(error) => Err(error),
    };
    let answer = ending(read, into.len() <= limit);
    if answer == Fetched::Failed {
        *faults = faults.saturating_add(1);
    }
    answer
}

impl<'a, R: Files> Shelf for FileShelf<'a, R> {
    ghost told = { λ _. untold };

    ghost faults = { λ s. s.faults };

    /// Fails where the system does not open or read the file. The count of faults then rises by one, and else stays.
    fn fetch(&mut self, _alloc: Global, name: &str, limit: usize, into: &mut Vec<u8>) -> Fetched
        ensures later { self.old.faults ≤ self.new.faults }
        ensures told { untold ≡ after_fetch untold result name.now }
        ensures front { IfSome untold (λ t. IsFront into.new.items (t.files name.now)) }
        ensures says { Says result untold name.now limit into.new.items self.old.faults self.new.faults }

        // What the system's files say beyond others.
        ensures counted { self.new.faults ≡ counted result self.old.faults }
    {
        fetch_opened(File::open(self.rt, name), limit, into, &mut self.faults)
    }
}
