use design_bounds::CeilingRow;
use late_response::Reach;
use rt_response::{Miss, ThreadRow};
use seq_tree::Name;

/// What blocks a thread: a section of a thread of lower priority.
#[derive(Drop, Debug)]
pub struct Blocker {
    /// The thread of lower priority.
    pub thread: Name,
    /// The protected object, or the sporadic thread whose control structure it is.
    pub object: Name,
    /// Its operation.
    pub op: Name,
}

/// A value that is over its limit, with its thread.
#[derive(Drop, Debug)]
pub struct Late {
    /// The thread.
    pub thread: Name,
    /// The value and the limit, in ticks.
    pub miss: Miss,
}

/// What is told of a thread.
#[derive(Drop, Debug)]
pub struct Reasons {
    /// The thread.
    pub name: Name,
    /// Its priority as it is written.
    pub priority: u32,
    /// What the response equations ask of it, in ticks.
    pub row: ThreadRow,
    /// What is known of its jitter and its response time.
    pub reach: Reach,
    /// What blocks it, where something does.
    pub blocker: Option<Blocker>,
}

/// What explains the bounds of a flat design, or why it has none.
#[derive(Drop)]
pub struct Explanation {
    /// The first value that is over its limit, where one is.
    pub late: Option<Late>,
    /// The threads by priority, from the greatest on.
    pub threads: Vec<Reasons>,
    /// For each thread its chain of requests: its place among the threads, that of the one that starts it, and so on.
    pub chains: Vec<Vec<u32>>,
    /// The ceilings of the protected objects, then of the sporadic ones, as they are written.
    pub ceilings: Vec<CeilingRow>,
    /// The sum of cost / period of all threads, in per mille, rounded down.
    pub utilisation: u64,
}
