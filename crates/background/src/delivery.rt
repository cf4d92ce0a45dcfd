ghost use Rattle.std.specs.Prelude.{◌≡◌};
ghost use Rattle.background.specs.declared.delivery.BackgroundRefusal.TheVariants.{NoMemory};

use ods_rules::Broken;
use rt_response::Miss;
use seq_tree::{Name, OpName};
use std::alloc::{AllocError, AllocFailed};
use trace_text::NamedBound;

/// What is wrong with the background objects of a design, which are its active objects without children: clients, which have a thread and
/// provide nothing, and servers, which have no thread and provide operations whose callers wait. Names are in lower case.
#[derive(Drop, Debug)]
pub enum BackgroundRule {
    /// An active object without children that is neither client nor server, or has attributes, or stands inside an object that isn't active.
    A1 {
        /// The object.
        object: Name,
    },
    /// An object that isn't active and requires an operation whose callers wait.
    A2 {
        /// The object.
        object: Name,
        /// The operation, as the object names it.
        target: OpName,
    },
    /// An object that isn't active and provides an operation whose callers wait.
    A3 {
        /// The object.
        object: Name,
    },
    /// A client or a server that requires an operation whose callers go on at once.
    A4 {
        /// The object.
        object: Name,
        /// The operation, as the object names it.
        target: OpName,
    },
    /// A cyclic or sporadic object without children that has a deadline of 1,000,000,000 ticks, as clients have.
    A5 {
        /// The object.
        object: Name,
    },
    /// A client that can request a sporadic object, itself or through protected operations.
    A6 {
        /// The client.
        object: Name,
        /// The sporadic object.
        target: Name,
    },
}

/// Why nothing is made of a design with background objects.
#[derive(Drop, Debug)]
pub enum BackgroundRefusal {
    /// Its background objects are wrong.
    Rule(BackgroundRule),
    /// Its version, or its hard part, breaks this rule of designs; never for want of memory.
    Broken(Broken),
    /// A hard thread has a value over its limit, so that no bounds can be given.
    Miss {
        /// The thread.
        thread: Name,
        /// The value and the limit, in ticks. The row counts from 0 among the hard threads, by priority from the greatest on.
        miss: Miss,
    },
    /// The Ada text would be over 16,777,216 bytes.
    Long,
    /// Want of memory.
    NoMemory,
}

/// What is made of a design with background objects.
#[derive(Drop, Debug)]
pub struct Background {
    /// The Ada text, with the bounds in its head.
    pub text: Vec<u8>,
    /// The bounds of the hard threads by priority, the greatest first, in ticks, and with the priorities of the text.
    pub bounds: Vec<NamedBound>,
    /// The ceilings of the protected objects and of the servers, as they are in the text and in the order of the text.
    pub ceilings: Vec<u32>,
}

impl From<Broken> for BackgroundRefusal {
    ghost use Rattle.background.specs.Told.{refusal_by};
    ghost use Rattle.ods_index.specs.Told.{is_memory};

    ghost from_gives = { λ broken e. e ≡ refusal_by (is_memory broken) broken };

    fn from(broken: Broken) -> BackgroundRefusal {
        if broken.is_memory() {
            BackgroundRefusal::NoMemory
        } else {
            BackgroundRefusal::Broken(broken)
        }
    }
}

impl From<AllocError> for BackgroundRefusal {
    ghost from_gives = { λ _ e. e ≡ NoMemory };

    fn from(_e: AllocError) -> BackgroundRefusal {
        BackgroundRefusal::NoMemory
    }
}

impl<T: Drop> From<AllocFailed<T>> for BackgroundRefusal {
    ghost from_gives = { λ _ e. e ≡ NoMemory };

    fn from(_e: AllocFailed<T>) -> BackgroundRefusal {
        BackgroundRefusal::NoMemory
    }
}

impl From<seq_tree::NoMemory> for BackgroundRefusal {
    ghost from_gives = { λ _ e. e ≡ NoMemory };

    fn from(_e: seq_tree::NoMemory) -> BackgroundRefusal {
        BackgroundRefusal::NoMemory
    }
}
