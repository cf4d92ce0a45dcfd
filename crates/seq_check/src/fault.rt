use thiserror::Error;

/// Why a body is refused: the first fault of the first statement that has one.
#[derive(Clone, Copy, Debug, PartialEq, Eq, Error)]
pub enum BodyFault {
    /// A name that is not known.
    #[error("unknown name")]
    Unknown,
    /// A Word where a Boolean belongs, or the reverse, or a comparison without a name.
    #[error("a Word where a Boolean belongs, or the reverse, or a comparison without a name")]
    Sort,
    /// A divisor that is no literal, or 0.
    #[error("the divisor isn't a literal other than 0")]
    Divisor,
    /// An exit outside a loop.
    #[error("exit outside a loop")]
    Exit,
    /// A loop name or an `in` parameter is assigned, or is the actual of an `out` parameter.
    #[error("assignment to a loop name or an in parameter")]
    Assigned,
    /// The actual of an `out` parameter is no variable, or two of them in one call are the same variable.
    #[error("the actual of an out parameter isn't a variable of its own")]
    Actual,
    /// A wrong number of actuals.
    #[error("wrong number of actuals")]
    Count,
    /// Want of memory.
    #[error("out of memory")]
    NoMemory,
}
