/// How long the next `work` statements of a task take, in the order in which it comes to them.
#[derive(Drop, Debug)]
pub struct WorkList {
    /// The place of the task among the program's units, from 0.
    pub task: u32,
    /// The durations, in ticks.
    pub ticks: Vec<u32>,
}

/// A request from outside.
#[derive(Clone, Copy, Debug, PartialEq, Eq)]
pub struct Arrival {
    /// When it comes, in ticks from the opening.
    pub time: u64,
    /// The place of the task among the program's units, from 0.
    pub task: u32,
    /// The value that is handed in, where the request has a parameter.
    pub value: Option<u32>,
}

/// What is handed to a run.
#[derive(Drop, Debug)]
pub struct Arrivals {
    /// The horizon, in ticks from the opening.
    pub until: u64,
    /// The lists of durations, in the order of the text.
    pub work: Vec<WorkList>,
    /// The requests from outside, in the order of the text.
    pub items: Vec<Arrival>,
}
