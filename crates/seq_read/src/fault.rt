use thiserror::Error;

/// Why no block or expression was read: the index of the token at fault, which is the number of tokens where they end too early.
#[derive(Clone, Copy, Debug, PartialEq, Eq, Error)]
pub enum ReadFault {
    /// The first token with which none goes on, where those before it are none by themselves.
    #[error("none goes on with token {0}")]
    Syntax(usize),
    /// The token that opens the 65th nesting, or is the 33rd operator of a chain.
    #[error("token {0} nests or chains too deep")]
    TooDeep(usize),
    /// Want of memory.
    #[error("out of memory")]
    NoMemory,
}
