//! Where texts come from and where they go: a shelf of named files, and a sink for bytes.
//!
//! It stands on no other crate. The promise is in the clauses of the two traits, `Shelf::fetch` and
//! `Sink::write`, and in `put_all`, which writes a text whole over any sink. `MemShelf` and
//! `MemSink` keep theirs in memory and tell all that they hold. `FileShelf`, `OutSink` and
//! `ErrSink` are the system's files, standard output and standard error, and tell only how many
//! faults there were. The two sinks are one `StreamSink`, whose `write` says beyond that what a
//! stream was given that tells its bytes. `given_words` are the words of the command line.
//!
//! Other crates may cite these proofs of it (`proofs/Shared`):
//!
//! - `Appending`: appending one piece after another: what a chain of writes appends, and where it stopped.
#![tactic(auto)]

mod arguments;
mod file_shelf;
mod mem_shelf;
mod mem_sink;
mod memory;
mod puts;
mod shelf;
mod sink;
mod standard;

pub use arguments::given_words;
pub use file_shelf::FileShelf;
pub use mem_shelf::MemShelf;
pub use mem_sink::MemSink;
pub use memory::NoMemory;
pub use puts::put_all;
pub use shelf::{Fetched, Shelf};
pub use sink::{Failed, Sink};
pub use standard::{ErrSink, OutSink, StreamSink};
