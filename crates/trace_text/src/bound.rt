use seq_tree::Name;

/// The bound of a thread, with the numbers that it was computed from, in ticks.
#[derive(Drop, Debug)]
pub struct NamedBound {
    /// The thread.
    pub name: Name,
    /// Its priority as it is written; a greater one goes first.
    pub priority: u32,
    /// The least time from one nominal time to the next.
    pub period: u32,
    /// What its response time may be at most.
    pub deadline: u32,
    /// How late after its nominal time a release may come.
    pub jitter: u32,
    /// The greatest execution time of an activation.
    pub cost: u32,
    /// The longest time for which threads of lower priority can be in the way.
    pub block: u32,
    /// The time from a release to its end, at most.
    pub response: u32,
}
