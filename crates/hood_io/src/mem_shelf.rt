ghost use Rattle.std.specs.Prelude.{◌≡◌, ◌≤◌, ◌++◌, ◌∷◌, [], Some, None, List, ℕ, IfOk, IfSome, MatchOption, if◌then◌else◌, is_ok, ◌&&◌, true};
ghost use Rattle.std.specs.Prelude.{false, position};
ghost use Rattle.std.specs.Str.{bytes_eq};
ghost use Rattle.hood_io.specs.Causes.{raised};
ghost use Rattle.hood_io.specs.Shelves.{after_fetch, counted, IsFront, Says};
ghost use Rattle.hood_io.specs.MemShelf.{files_of, log_of, fails_of, faults_of, told_of, fails_next, FailsAsPlanned, Copies};

use crate::memory::NoMemory;
use crate::shelf::{Fetched, Shelf};
use std::alloc::Global;

/// A file of a shelf in memory.
#[derive(Drop)]
struct File {
    name: Vec<u8>,
    bytes: Vec<u8>,
}

/// A fetch that is in the log: the name, and whether it failed.
#[derive(Drop)]
struct Fetch {
    name: Vec<u8>,
    failed: bool,
}

/// A shelf in memory, which tells its files and its log. A fetch fails where its place in the log,
/// from 0, is one of those that the shelf was made with, or where the file is absent.
#[derive(Drop)]
pub struct MemShelf {
    alloc: Global,
    files: Vec<File>,
    log: Vec<Fetch>,
    fails: Vec<u64>,
    faults: u64,
}

/// Appends the bytes to an empty list, and says whether they are within the limit.
fn copied(bytes: &[u8], limit: usize, into: &mut Vec<u8>) -> Fetched
    requires { into.old.items ≡ [] }
    ensures { Copies result bytes.now limit into.new.items }
{
    if into.extend_from_slice(bytes).is_err() {
        return Fetched::NoMemory;
    }
    if bytes.len() <= limit {
        Fetched::Done
    } else {
        Fetched::TooLong
    }
}

impl MemShelf {
    /// A shelf with no files, an empty log and no faults, whose fetches at the places `fails` of
    /// the log, from 0, fail. It keeps the allocator for its files and its log.
    pub fn new(alloc: Global, fails: &[u64]) -> Result<MemShelf, NoMemory>
        ensures files { IfOk result (λ s. (name : List ℕ) → files_of s name ≡ None) }
        ensures log { IfOk result (λ s. log_of s ≡ []) }
        ensures fails { IfOk result (λ s. fails_of s ≡ fails.now) }
        ensures faults { IfOk result (λ s. faults_of s ≡ 0) }
    {
        let fails = Vec::from_slice(alloc, fails)?;
        Ok(MemShelf {
            alloc,
            files: Vec::new(alloc),
            log: Vec::new(alloc),
            fails,
            faults: 0,
        })
    }

    /// Gives the file `name` these bytes, whether or not there was one. All else stays: the other
    /// files, the log, the places that fail and the count of faults. After `NoMemory` all is as
    /// before.
    pub fn put(&mut self, name: &str, bytes: &[u8]) -> Result<(), NoMemory>
        ensures files { (n : List ℕ) → files_of self.new n ≡ (if is_ok result && bytes_eq name.now n then Some bytes.now else files_of self.old n) }
        ensures log { log_of self.new ≡ log_of self.old }
        ensures fails { fails_of self.new ≡ fails_of self.old }
        ensures faults { faults_of self.new ≡ faults_of self.old }
    {
        let bytes = Vec::from_slice(self.alloc, bytes)?;
        match self.place_of(name) {
            Some(place) => self.files[place].bytes = bytes,
            None => {
                let name = Vec::from_slice(self.alloc, name.as_bytes())?;
                self.files.push(File { name, bytes })?;
            }
        }
        Ok(())
    }

    /// The place of the first file that has the name.
    fn place_of(&self, name: &str) -> Option<usize>
        ensures { result ≡ position (λ f. bytes_eq f.name.items name.now) self.now.files.items }
    {
        self.files
            .iter()
            .position(|file| file.name.as_slice() == name.as_bytes())
    }

    /// The bytes of the file, where the next fetch of it is not to fail.
    fn next_file(&self, name: &str) -> Option<&[u8]>
        ensures { MatchOption result (fails_next self.now name.now ≡ true) (λ b. (fails_next self.now name.now ≡ false)
            × (files_of self.now name.now ≡ Some b.now)) }
    {
        if self.fails.contains(&(self.log.len() as u64)) {
            return None;
        }
        match self.place_of(name) {
            Some(place) => Some(self.files[place].bytes.as_slice()),
            None => None,
        }
    }

    /// Adds a fetch to the log, and counts it where it failed. After `NoMemory` all is as before.
    fn note(&mut self, name: &str, failed: bool) -> Result<(), NoMemory>
        ensures files { files_of self.new ≡ files_of self.old }
        ensures log { log_of self.new ≡ (if is_ok result then log_of self.old ++ record { name = name.now; failed = failed }
            ∷ [] else log_of self.old) }
        ensures fails { fails_of self.new ≡ fails_of self.old }
        ensures later { faults_of self.old ≤ faults_of self.new }
        ensures faults { faults_of self.new ≡ (if is_ok result && failed then raised (faults_of self.old) else faults_of self.old) }
    {
        let name = Vec::from_slice(self.alloc, name.as_bytes())?;
        self.log.push(Fetch { name, failed })?;
        if failed {
            self.faults = self.faults.saturating_add(1);
        }
        Ok(())
    }
}

impl Shelf for MemShelf {
    ghost told = { told_of };

    ghost faults = { faults_of };

    /// Fails exactly where the place of this fetch in the log, from 0, is one of those that fail,
    /// or where the file is absent; the count of faults then rises by one, and else stays.
    fn fetch(&mut self, _alloc: Global, name: &str, limit: usize, into: &mut Vec<u8>) -> Fetched
        ensures later { faults_of self.old ≤ faults_of self.new }
        ensures told { told_of self.new ≡ after_fetch (told_of self.old) result name.now }
        ensures front { IfSome (told_of self.old) (λ t. IsFront into.new.items (t.files name.now)) }
        ensures says { Says result (told_of self.old) name.now limit into.new.items (faults_of self.old) (faults_of self.new) }

        // What a shelf in memory says beyond the others.
        ensures planned { FailsAsPlanned result (fails_next self.old name.now) }
        ensures fails { fails_of self.new ≡ fails_of self.old }
        ensures counted { faults_of self.new ≡ counted result (faults_of self.old) }
    {
        into.clear();
        let answer = match self.next_file(name) {
            Some(bytes) => copied(bytes, limit, into),
            None => Fetched::Failed,
        };
        if answer == Fetched::NoMemory {
            return Fetched::NoMemory;
        }
        if self.note(name, answer == Fetched::Failed).is_err() {
            return Fetched::NoMemory;
        }
        answer
    }
}
