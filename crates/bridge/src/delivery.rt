ghost use Rattle.std.specs.Prelude.{◌≡◌};
ghost use Rattle.bridge.specs.declared.delivery.Refusal.TheVariants.{NoMemory};

use design_bounds::CeilingRow;
use ods_rules::Broken;
use rt_response::Miss;
use seq_tree::{Name, TextFault};
use std::alloc::{AllocError, AllocFailed};
use trace_text::NamedBound;

/// What is made of a design.
#[derive(Drop, Debug)]
pub struct Delivery {
    /// The Ada text, with the bounds in its head.
    pub text: Vec<u8>,
    /// The bounds of the threads by priority, the greatest first.
    pub bounds: Vec<NamedBound>,
    /// The ceilings of the protected objects, then of the sporadic ones.
    pub ceilings: Vec<CeilingRow>,
}

/// Why nothing is made of a design.
#[derive(Drop, Debug)]
pub enum Refusal {
    /// The bytes are not the text of a design; never for want of memory.
    Text(TextFault),
    /// The design breaks this rule; never for want of memory.
    Rule(Broken),
    /// A thread has a value over its limit, so that no bounds can be given.
    Miss {
        /// The thread.
        thread: Name,
        /// The value and the limit, in ticks.
        miss: Miss,
    },
    /// The Ada text would be over 16,777,216 bytes.
    Long,
    /// Want of memory.
    NoMemory,
}

impl From<AllocError> for Refusal {
    ghost from_gives = { λ _ e. e ≡ NoMemory };

    fn from(_e: AllocError) -> Refusal {
        Refusal::NoMemory
    }
}

impl<T: Drop> From<AllocFailed<T>> for Refusal {
    ghost from_gives = { λ _ e. e ≡ NoMemory };

    fn from(_e: AllocFailed<T>) -> Refusal {
        Refusal::NoMemory
    }
}

impl From<seq_tree::NoMemory> for Refusal {
    ghost from_gives = { λ _ e. e ≡ NoMemory };

    fn from(_e: seq_tree::NoMemory) -> Refusal {
        Refusal::NoMemory
    }
}
