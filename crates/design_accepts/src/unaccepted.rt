ghost use Rattle.std.specs.Prelude.{◌≡◌};
ghost use Rattle.design_accepts.specs.declared.unaccepted.Unaccepted.TheVariants.{NoMemory as Lacking};
ghost use Rattle.design_accepts.specs.Refusals.{refusal_of, unread_of};

use seq_tree::{Name, NoMemory};
use trace_checks::Broken;
use trace_read::Unread;

/// Why a text isn't accepted as a trace: the first part that it breaks.
#[derive(Drop, Debug)]
pub enum Unaccepted {
    /// A line is none of an event.
    Line {
        /// Its number, from 1.
        line: u64,
    },
    /// Times, tasks, stops or the horizon are wrong.
    Times,
    /// A cyclic thread isn't released as it should be.
    Cyclic {
        /// The first such thread in flattened order.
        thread: Name,
    },
    /// The arrivals aren't those that were given.
    Arrivals,
    /// The requests of a sporadic thread aren't served as they should be.
    Requests {
        /// The first such thread in flattened order.
        thread: Name,
    },
    /// The activations of a thread aren't runs of its block.
    Script {
        /// The first such thread in flattened order.
        thread: Name,
    },
    /// The operations of a protected object aren't run one by one.
    Shared {
        /// The first such object in flattened order.
        object: Name,
    },
    /// Want of memory.
    NoMemory,
}

impl From<NoMemory> for Unaccepted {
    ghost from_gives = { λ _ e. e ≡ Lacking };

    fn from(_e: NoMemory) -> Unaccepted {
        Unaccepted::NoMemory
    }
}

impl From<Unread> for Unaccepted {
    ghost from_gives = { λ u e. e ≡ unread_of u };

    fn from(unread: Unread) -> Unaccepted {
        match unread {
            Unread::Line { line } => Unaccepted::Line { line },
            Unread::NoMemory => Unaccepted::NoMemory,
        }
    }
}

impl From<Broken> for Unaccepted {
    ghost from_gives = { λ b e. e ≡ refusal_of b };

    fn from(broken: Broken) -> Unaccepted {
        match broken {
            Broken::Line { line } => Unaccepted::Line { line },
            Broken::Times => Unaccepted::Times,
            Broken::Cyclic { thread } => Unaccepted::Cyclic { thread },
            Broken::Arrivals => Unaccepted::Arrivals,
            Broken::Requests { thread } => Unaccepted::Requests { thread },
            Broken::NoMemory => Unaccepted::NoMemory,
        }
    }
}
