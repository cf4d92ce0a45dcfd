ghost use Rattle.std.specs.Prelude.{◌≡◌};
ghost use Rattle.seq_read.specs.declared.halt.Halt.TheVariants as halt;

use seq_tree::NoMemory;
use std::alloc::{AllocError, AllocFailed};

/// Why a reader of tokens stopped.
#[derive(Clone, Copy, Debug, PartialEq, Eq)]
pub enum Halt {
    /// No text goes on with the next token: so many tokens were left, that one among them.
    Syntax(usize),
    /// The next token brings nesting over its limit, or an operator too many into a chain: so many tokens were left, that one
    /// among them.
    TooDeep(usize),
    /// Want of memory.
    NoMemory,
}

impl From<NoMemory> for Halt {
    ghost from_gives = { λ _ e. e ≡ halt.NoMemory };

    fn from(_e: NoMemory) -> Halt {
        Halt::NoMemory
    }
}

impl From<AllocError> for Halt {
    ghost from_gives = { λ _ e. e ≡ halt.NoMemory };

    fn from(_e: AllocError) -> Halt {
        Halt::NoMemory
    }
}

impl<T: Drop> From<AllocFailed<T>> for Halt {
    ghost from_gives = { λ _ e. e ≡ halt.NoMemory };

    fn from(_e: AllocFailed<T>) -> Halt {
        Halt::NoMemory
    }
}
