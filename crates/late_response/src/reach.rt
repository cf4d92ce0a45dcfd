/// What is told of a row, in ticks.
#[derive(Clone, Copy, Debug, PartialEq, Eq)]
pub enum Reach {
    /// The least release jitter and the least response time, which may be over the row's limits.
    Solved {
        jitter: u64,
        response: u64,
    },
    /// The first round with a value over ten times one of the row's limits, and the jitter and the response time of that round: the least
    /// solution, if there is one, has no less.
    Beyond {
        round: u64,
        jitter: u64,
        response: u128,
    },
    /// A starter that has no solution here, `Beyond` or `Behind` itself: the row needs its response time.
    Behind {
        starter: u32,
    },
}
