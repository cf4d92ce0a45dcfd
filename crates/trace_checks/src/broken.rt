ghost use Rattle.std.specs.Prelude.{◌≡◌};
ghost use Rattle.trace_checks.specs.declared.broken.Broken.TheVariants.{NoMemory as Lacking};

use seq_tree::{Name, NoMemory};

/// The first part of the machine of a design that a trace breaks, of those that one pass over its events tells.
#[derive(Drop, Debug)]
pub enum Broken {
    /// The line of this number, from 1, is none of an event.
    Line {
        /// The number.
        line: u64,
    },
    /// Times fall, an event is of no thread or a stop, or the horizon isn't the last event, and the only one.
    Times,
    /// A cyclic thread isn't released at its offset and at each period after it up to the horizon, and at no other time, without values.
    Cyclic {
        /// The thread.
        thread: Name,
    },
    /// The arrivals aren't those that are handed in, up to the horizon.
    Arrivals,
    /// A sporadic thread isn't released once for each request, in order, as soon as the activation before has ended, with its value.
    Requests {
        /// The thread.
        thread: Name,
    },
    /// Want of memory.
    NoMemory,
}

impl From<NoMemory> for Broken {
    ghost from_gives = { λ _ e. e ≡ Lacking };

    fn from(_e: NoMemory) -> Broken {
        Broken::NoMemory
    }
}
