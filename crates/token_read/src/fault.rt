ghost use Rattle.std.specs.Prelude.{◌≡◌};
ghost use Rattle.token_read.specs.declared.fault.LexFault.TheVariants as fault;

use seq_tree::{NoMemory, Place};
use std::alloc::AllocFailed;
use thiserror::Error;

/// Why a text has no tokens: its first fault, and that one's line and column, both from 1.
#[derive(Clone, Copy, Debug, PartialEq, Eq, Error)]
pub enum LexFault {
    /// A byte that begins no token, or a letter or underscore directly after a number.
    #[error("{}:{}: this byte begins no token", .0.line, .0.column)]
    Byte(Place),
    /// A number over 4,294,967,295, told at its first byte.
    #[error("{}:{}: the number is over 4,294,967,295", .0.line, .0.column)]
    Number(Place),
    /// A name over 64 bytes, told at its first byte.
    #[error("{}:{}: the name is over 64 bytes", .0.line, .0.column)]
    Long(Place),
    /// Want of memory: the text was not read to its end.
    #[error("out of memory")]
    NoMemory,
}

impl From<NoMemory> for LexFault {
    ghost from_gives = { λ _ e. e ≡ fault.NoMemory };

    fn from(_e: NoMemory) -> LexFault {
        LexFault::NoMemory
    }
}

impl<T: Drop> From<AllocFailed<T>> for LexFault {
    ghost from_gives = { λ _ e. e ≡ fault.NoMemory };

    fn from(_e: AllocFailed<T>) -> LexFault {
        LexFault::NoMemory
    }
}
