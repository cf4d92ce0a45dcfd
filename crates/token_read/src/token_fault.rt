ghost use Rattle.std.specs.Prelude.{◌≡◌};
ghost use Rattle.token_read.specs.declared.token_fault.TokenFault.TheVariants.{NoMemory};

use std::alloc::{AllocError, AllocFailed};
use thiserror::Error;

/// Why tokens were not read.
#[derive(Clone, Copy, Debug, PartialEq, Eq, Error)]
pub enum TokenFault {
    /// How many tokens were left where no text goes on: the first of them is at fault, and with none the end of the text.
    #[error("no text goes on with the last {0} tokens")]
    Syntax(usize),
    /// Want of memory.
    #[error("out of memory")]
    NoMemory,
}

impl From<AllocError> for TokenFault {
    ghost from_gives = { λ _ e. e ≡ NoMemory };

    fn from(_e: AllocError) -> TokenFault {
        TokenFault::NoMemory
    }
}

impl<T: Drop> From<AllocFailed<T>> for TokenFault {
    ghost from_gives = { λ _ e. e ≡ NoMemory };

    fn from(_e: AllocFailed<T>) -> TokenFault {
        TokenFault::NoMemory
    }
}

impl From<seq_tree::NoMemory> for TokenFault {
    ghost from_gives = { λ _ e. e ≡ NoMemory };

    fn from(_e: seq_tree::NoMemory) -> TokenFault {
        TokenFault::NoMemory
    }
}
