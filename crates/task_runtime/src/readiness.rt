ghost use Rattle.std.specs.Prelude.{◌≡◌};
ghost use Rattle.machine.specs.States.{shut};
ghost use Rattle.task_runtime.specs.Readies.{gate_of};

/// Whether a task can run.
#[derive(Clone, Copy, Debug, PartialEq, Eq)]
pub enum Readiness {
    /// It sleeps until its next time.
    Asleep,
    /// It waits for a request.
    Waiting,
    /// It is ready.
    Ready,
}

/// The control structure of a task: the value that it keeps, and whether a request has opened it.
#[derive(Clone, Copy, Debug, PartialEq, Eq)]
pub struct Gate {
    pub value: Option<u32>,
    pub open: bool,
}

impl Gate {
    /// A control structure without a request.
    pub fn shut() -> Gate
        ensures { gate_of result ≡ shut }
    {
        Gate {
            value: None,
            open: false,
        }
    }
}
