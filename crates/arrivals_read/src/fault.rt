use seq_tree::{Name, TextFault};
use thiserror::Error;

/// Why arrivals were not read. A line is that of an item's first token, from 1.
#[derive(Drop, Debug, Error)]
pub enum ArrivalFault {
    /// What is wrong with the text, and where: never `NoMemory`.
    #[error("the text is no arrivals: {0:?}")]
    Text(TextFault),
    /// A request is at a time below that of the one before it.
    #[error("line {line}: the time falls")]
    Q1 { line: u32 },
    /// Durations of what is no task of the program, or a request of what is no task that is requested from outside.
    #[error("line {line}: no such task")]
    Q2 { line: u32, name: Name },
    /// A request breaks the separation of its task.
    #[error("line {line}: the separation is broken")]
    Q3 { line: u32, object: Name },
    /// The horizon is over its limit; both in ticks.
    #[error("the horizon {value} is over {limit}")]
    Q4 { value: u32, limit: u32 },
    /// A request lacks its value, or has one that isn't asked for, or a duration is 0.
    #[error("line {line}: a value or a duration is wrong")]
    Q5 { line: u32 },
    /// Want of memory.
    #[error("out of memory")]
    NoMemory,
}
