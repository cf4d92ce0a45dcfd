use crate::token::Place;

/// Why a text was not read.
#[derive(Clone, Copy, Debug, PartialEq, Eq)]
pub enum TextFault {
    /// A byte that begins no token, or a letter or underscore directly after a number.
    Byte(Place),
    /// A number over 4,294,967,295, told at its first byte.
    Number(Place),
    /// A name over 64 bytes, told at its first byte.
    Long(Place),
    /// The first token with which no text goes on, or the end of the text. The reader that answers it says of which texts.
    Syntax(Place),
    /// The token that brings nesting to 65, or the 33rd operator of a chain.
    TooDeep(Place),
    /// More bytes than a text of this kind may have.
    FileTooLong,
    /// Want of memory.
    NoMemory,
}
