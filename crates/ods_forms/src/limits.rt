use seq_tree::TICK_LIMIT;

/// The greatest time, in ticks or microseconds, and the greatest number of `work`.
pub(crate) const MOST_TICKS: u32 = TICK_LIMIT;

/// The greatest number that is told.
pub(crate) const MOST_COUNT: u64 = 4_294_967_295;

/// The most parameters of an operation.
pub(crate) const MOST_PARAMS: usize = 8;

/// The greatest cost of a step.
pub(crate) const MOST_COST: u32 = 1000;

/// The greatest priority.
pub(crate) const MOST_PRIORITY: u32 = 60;
