//! The bytes of a trace from anywhere, read as lines of events.
//!
//! It stands on `trace_text`, which writes the line of an event, on `name_sets` for tables of names, and on the laws of `law_traces` and
//! `law_trace_places`. `Lines::next` carries the promise: an event exactly where the bytes at hand begin with the line of one, and then the bytes
//! behind it. A line is read by its words, and its event is written again and compared, so that no other way of writing is taken. `read_events`
//! gives the events of a whole text as `Events`, that holds none of them: each is read again where it is asked for, by its index. Tables of the lines
//! lead from a deed of a task to its next one, and from an entry to its exit, so that no line between them is read.
//!
//! Other crates may cite these proofs of it (`proofs/Shared`):
//!
//! - `Deeds`: what stands behind a deed of a task is fewer than all that stands there, and begins with a deed of the task; the exit from the
//!   operation outside stands behind that from the one inside; and walks over events come nearer to the end.
//! - `Nexts`: one event more behind others: the text of all, and that its line takes some bytes.
#![tactic(auto)]

mod chains;
mod deeds;
mod events;
mod gather;
mod kind;
mod lines;
mod numbers;
mod reads;
mod split;
mod table;
mod told;
mod words;

pub use deeds::{Part, part_of};
pub use gather::{Unread, read_events};
pub use lines::{Lines, NoLine, lines_go_on};
pub use table::Table;
pub use told::Events;
