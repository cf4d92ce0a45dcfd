ghost use Rattle.std.specs.Prelude.{◌≡◌, ◌≤◌, ◌<◌, [], ◌∷◌, ◌++◌, length};

use std::marker::Model;

/// Up to eight values: the first `count` of `at`. Contracts see them as their list.
#[derive(Drop)]
pub struct Values {
    /// How many values there are, at most 8.
    pub count: u8,
    /// The values, and behind them what is of no account.
    pub at: [u32; 8],
}

impl Model for Values {
    ghost use Rattle.std.specs.Prelude.{List, ℕ, ◌≤◌, take};

    ghost Value = { List ℕ };

    ghost view = { λ v. take v.count v.at };

    ghost invariant = { λ v. v.count ≤ 8 };
}

impl Values {
    /// No values.
    pub fn new() -> Values
        ensures { result ≡ [] }
    {
        Values {
            count: 0,
            at: [0; 8],
        }
    }

    /// One more value behind the others, where there is room for it.
    pub fn push(&mut self, value: u32)
        requires { length self.old < 8 }
        ensures { self.new ≡ self.old ++ value ∷ [] }
    {
        self.at[usize::from(self.count)] = value;
        self.count += 1;
    }

    /// The values, at most 8.
    pub fn as_slice(&self) -> &[u32]
        ensures values { result.now ≡ self.now }
        ensures few { length result.now ≤ 8 }
    {
        &self.at[..usize::from(self.count)]
    }
}

/// What the processor tells. Times and lengths are in ticks, and times count from the opening. Tasks, units and targets
/// are places among the program's units, and operations are places among those of their unit, both from 0.
#[derive(Drop)]
pub enum Event {
    /// A task begins an activation, with the value that was requested, where there is one.
    Release {
        time: u64,
        task: u32,
        value: Option<u32>,
    },
    /// A request from outside reaches a sporadic task, with its value, where there is one.
    Arrive {
        time: u64,
        task: u32,
        value: Option<u32>,
    },
    /// A task enters a protected operation, with the values that are handed in.
    Enter {
        time: u64,
        task: u32,
        unit: u32,
        op: u32,
        values: Values,
    },
    /// A task leaves a protected operation, with the values that are handed out.
    Leave {
        time: u64,
        task: u32,
        unit: u32,
        op: u32,
        values: Values,
    },
    /// A task requests an activation of the task at `target`, with its value, where there is one.
    Request {
        time: u64,
        task: u32,
        target: u32,
        value: Option<u32>,
    },
    /// A task prints a value.
    Print {
        time: u64,
        task: u32,
        value: u32,
    },
    /// A task ends an activation, for which it used so many ticks.
    End {
        time: u64,
        task: u32,
        used: u64,
    },
    /// A task of an active priority above the ceiling of a unit was to enter it, and the run stops.
    Stop {
        time: u64,
        task: u32,
        unit: u32,
        priority: u32,
        ceiling: u32,
    },
    /// The run reaches its horizon.
    Horizon {
        time: u64,
    },
}
