/// What the response equations ask of a thread, in ticks. A table has its rows by priority, the
/// greatest first.
#[derive(Clone, Copy, Debug, PartialEq, Eq)]
pub struct ThreadRow {
    /// The least time from one nominal time to the next, 1 to 1,000,000,000.
    pub period: u32,
    /// The greatest response time that is allowed, 1 to the period.
    pub deadline: u32,
    /// How late after its nominal time a release may come, at most 1,000,000,000; not read where the
    /// row has a starter.
    pub jitter: u32,
    /// The greatest execution time of an activation, 1 to 1,000,000,000.
    pub cost: u32,
    /// The longest time for which threads of lower priority can be in the way, at most 1,000,000,000.
    pub block: u32,
    /// The row of the thread that requests this one, where one does.
    pub starter: Option<u32>,
}

/// A release jitter and a response time, in ticks. A response time counts from the release.
#[derive(Clone, Copy, Debug, PartialEq, Eq)]
pub struct Bound {
    /// How late after its nominal time a release may come.
    pub jitter: u32,
    /// The time from a release to its end.
    pub response: u32,
}

/// A limit of the response equations.
#[derive(Clone, Copy, Debug, PartialEq, Eq)]
pub enum Limit {
    /// The response time is at most the deadline.
    Deadline,
    /// The jitter and the response time together are at most the period.
    Separation,
}

/// The first value that is over its limit.
#[derive(Clone, Copy, Debug, PartialEq, Eq)]
pub struct Miss {
    /// The row: of those of this round with a value over its limit, the first.
    pub index: u32,
    /// The limit; the deadline goes before the separation.
    pub which: Limit,
    /// The value, in ticks.
    pub value: u128,
    /// What it may be at most, in ticks.
    pub limit: u32,
    /// The round, from 0.
    pub round: u64,
}
