ghost use Rattle.std.specs.Prelude.{◌≡◌};
ghost use Rattle.ods_index.specs.declared.broken.Broken.TheVariants.{NoMemory};

use seq_check::BodyFault;
use seq_tree::{Name, OpName};
use std::alloc::{AllocError, AllocFailed};

/// A rule that a design breaks, with what is told of it: numbers, ticks, and names in lower case.
#[derive(Drop, Debug)]
pub enum Broken {
    /// Two things have one name: the later name.
    V01 {
        name: Name,
    },
    /// A name that is reserved in an Ada text, or kept for what the text uses itself.
    V02 {
        name: Name,
    },
    /// An object that includes what its kind may not, or not what it must.
    V03 {
        object: Name,
    },
    /// An object that provides what its kind may not, or an operation without waiting that hands out values.
    V04 {
        object: Name,
    },
    /// An object whose parts don't fit: bodies, thread, data or links.
    V05 {
        object: Name,
    },
    /// An object that requires an operation of an object that is neither sibling nor uncle.
    V06 {
        object: Name,
        target: OpName,
    },
    /// An object that requires an operation that isn't there.
    V07 {
        object: Name,
        target: OpName,
    },
    /// An object that requires an operation that its kind may not call.
    V08 {
        object: Name,
        target: OpName,
    },
    /// Operations call each other in a ring: the first on one.
    V09Calls {
        name: OpName,
    },
    /// Protected objects call each other in a ring: the first on one.
    V09Objects {
        object: Name,
    },
    /// Threads start each other in a ring: the first on one.
    V09Starts {
        thread: Name,
    },
    /// A sporadic object that has not one source, or is requested more than once on a path.
    V10 {
        object: Name,
        /// The threads that can request it, and 1 more where it is requested from outside.
        sources: u32,
        /// The most requests on one path of one activation, told as 2 where there are more.
        starts: u32,
    },
    /// An attribute that is missing, given twice, foreign or out of its range, a number of `work` that isn't 1 to 1,000,000,000,
    /// or an operation of more than 8 parameters; without an object, a cost that isn't 1 to 1,000.
    V11 {
        object: Option<Name>,
    },
    /// A terminal object that is active.
    V12 {
        object: Name,
    },
    /// The first fault of a body, never want of memory; without a part it is that of the thread.
    V13 {
        object: Name,
        part: Option<Name>,
        fault: BodyFault,
    },
    /// An activation that costs more than its budget, and at most 1,000,000,000 ticks.
    V14 {
        thread: Name,
        /// The cost of an activation, in ticks.
        cost: u32,
        /// What it may cost, in ticks.
        budget: u32,
    },
    /// More than 30 threads, or more than there are priorities.
    V15Threads {
        count: u32,
    },
    /// More than 500 objects.
    V15Objects {
        count: u32,
    },
    /// An activation, or the body of an operation, that costs more than 1,000,000,000 ticks; without a part it is the activation.
    V15Cost {
        object: Name,
        part: Option<Name>,
    },
    /// A thread that starts another more often than its separation allows; both numbers are ticks.
    V16 {
        starter: Name,
        period: u32,
        target: Name,
        separation: u32,
    },
    /// A tick that isn't 1 to 1,000,000,000 microseconds.
    V17Tick,
    /// Priorities that don't rise, or aren't 1 to 60.
    V17Priorities,
    /// An attribute that is no whole number of ticks, or over 4,294,967,295 of them.
    V17 {
        object: Name,
    },
    /// Want of memory.
    NoMemory,
}

impl Broken {
    ghost use Rattle.ods_index.specs.Told.{is_memory};

    /// Whether it is want of memory, and no rule.
    pub fn is_memory(&self) -> bool
        ensures { result ≡ is_memory self.now }
    {
        match self {
            Broken::V01 { .. } => false,
            Broken::V02 { .. } => false,
            Broken::V03 { .. } => false,
            Broken::V04 { .. } => false,
            Broken::V05 { .. } => false,
            Broken::V06 { .. } => false,
            Broken::V07 { .. } => false,
            Broken::V08 { .. } => false,
            Broken::V09Calls { .. } => false,
            Broken::V09Objects { .. } => false,
            Broken::V09Starts { .. } => false,
            Broken::V10 { .. } => false,
            Broken::V11 { .. } => false,
            Broken::V12 { .. } => false,
            Broken::V13 { .. } => false,
            Broken::V14 { .. } => false,
            Broken::V15Threads { .. } => false,
            Broken::V15Objects { .. } => false,
            Broken::V15Cost { .. } => false,
            Broken::V16 { .. } => false,
            Broken::V17Tick => false,
            Broken::V17Priorities => false,
            Broken::V17 { .. } => false,
            Broken::NoMemory => true,
        }
    }
}

impl From<AllocError> for Broken {
    ghost from_gives = { λ _ e. e ≡ NoMemory };

    fn from(_e: AllocError) -> Broken {
        Broken::NoMemory
    }
}

impl<T: Drop> From<AllocFailed<T>> for Broken {
    ghost from_gives = { λ _ e. e ≡ NoMemory };

    fn from(_e: AllocFailed<T>) -> Broken {
        Broken::NoMemory
    }
}

impl From<seq_tree::NoMemory> for Broken {
    ghost from_gives = { λ _ e. e ≡ NoMemory };

    fn from(_e: seq_tree::NoMemory) -> Broken {
        Broken::NoMemory
    }
}
