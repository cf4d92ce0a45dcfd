ghost use Rattle.std.specs.Prelude.{◌≡◌, ℕ, ◌≤◌, Option, IfSome};
ghost use Rattle.hood_io.specs.Shelves.{Told, after_fetch, IsFront, Says};

use std::alloc::Global;

/// How a fetch ended.
#[derive(Clone, Copy, Debug, PartialEq, Eq)]
pub enum Fetched {
    /// The file was read whole: it has at most as many bytes as the limit.
    Done,
    /// The file has more bytes than the limit; more than that many were read.
    TooLong,
    /// There is no such file, or reading it failed: the count of faults rose.
    Failed,
    /// Memory was refused. The fetch isn't in the log.
    NoMemory,
}

/// Where texts are fetched from, by name.
pub trait Shelf {
    /// The files that it holds and the fetches so far, where the shelf tells them.
    ghost told: { Self → Option Told };
    /// How many faults there were. The count stays at the greatest `u64` once it is there.
    ghost faults: { Self → ℕ };

    /// Reads the file `name` into `into`, which is emptied first, as long as it has at most `limit`
    /// bytes. After an answer other than `Done`, `into` holds a front of the file, maybe nothing.
    /// Each answer but `NoMemory` adds one entry to the log; no answer changes the files.
    fn fetch(&mut self, alloc: Global, name: &str, limit: usize, into: &mut Vec<u8>) -> Fetched
        ensures later { faults self.old ≤ faults self.new }
        ensures told { told self.new ≡ after_fetch (told self.old) result name.now }
        ensures front { IfSome (told self.old) (λ t. IsFront into.new.items (t.files name.now)) }
        ensures says { Says result (told self.old) name.now limit into.new.items (faults self.old) (faults self.new) };
}
