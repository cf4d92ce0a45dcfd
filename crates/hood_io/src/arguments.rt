ghost use Rattle.std.specs.Prelude.{◌≡◌, IfErr, IfOk, drop};
ghost use Rattle.std.specs.Vec.Iter.{into_iter_items};
ghost use Rattle.hood_io.specs.Arguments.{AreHanded, IsWanted};

use crate::memory::NoMemory;
use std::alloc::Global;
use std::env::{self, Args, Env};
use std::io::{self, ErrorKind};

/// The words behind the first, which is the program's name.
#[tactic(auto, using(crate::proofs::LastWords::none_left))]
fn behind_first(alloc: Global, all: Args) -> Result<Vec<String>, NoMemory>
    ensures { IfOk result (λ w. w.items ≡ drop 1 (into_iter_items all)) }
{
    let mut all = all;
    let mut words = Vec::new(alloc);
    let _ = all.next();
    'words: while let Some(word) = all.next() {
        words.push(word)?;
    }
    Ok(words)
}

/// The words behind the first, of what the kit's library gives of a command line; none at all where a word is not UTF-8.
fn words_of(alloc: Global, all: io::Result<Args>) -> Result<Vec<String>, NoMemory>
    ensures handed { IfOk result (λ w. AreHanded into_iter_items all w.items) }
    ensures wanted { IfErr result (λ e. IsWanted all) }
{
    match all {
        Ok(all) => behind_first(alloc, all),
        Err(error) if error.kind() == ErrorKind::InvalidData => Ok(Vec::new(alloc)),
        Err(_) => Err(NoMemory),
    }
}

/// The words of the command line after the program's name. A word that is not UTF-8 is in no command, and there it answers no word
/// at all.
pub fn given_words<R: Env>(rt: &R, alloc: Global) -> Result<Vec<String>, NoMemory> {
    words_of(alloc, env::args(&(rt, alloc)))
}
