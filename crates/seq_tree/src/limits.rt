/// The most bytes of the text of a design, and of arrivals.
pub const TEXT_LIMIT: usize = 1_048_576;

/// The most bytes of an Ada text, and of a trace.
pub const ADA_LIMIT: usize = 16_777_216;

/// The most ticks of a time, of a cost and of a horizon.
pub const TICK_LIMIT: u32 = 1_000_000_000;
