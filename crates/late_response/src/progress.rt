use crate::reach::Reach;

/// What is known of a row in a round.
#[derive(Clone, Copy, Debug)]
pub struct Known {
    /// The jitter: that of the round, as long as a live row needs it.
    pub jitter: u64,
    /// For a live row, `Solved` with the values of the round.
    pub reach: Reach,
}

/// What a row that is given up counts for in the sum of all values: more than any response time of a live row.
pub const GIVEN_UP: u64 = 10_000_000_001;
