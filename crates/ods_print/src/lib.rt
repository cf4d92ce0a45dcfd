//! Designs as text.
//!
//! It stands on the designs of `ods_tree`, on the layout of `seq_tree` and on the printer of blocks of `seq_print`.
//! `format` carries its promise: exactly the text of a design. `reads_back` is its law: the text of a proper design, within its
//! limit of bytes, reads as the same design.
//!
//! Other crates may cite these proofs of it (`proofs/Shared`):
//!
//! - `Again`: the text of a design that was read reads as the same design again, within the limit of bytes.
//! - `PartLaws`: printed lines of parts read back as the tokens of the parts.
//! - `SoundLines`: each line of a design is sound: its capitals read as their words, and its dots stay apart.
#![tactic(auto)]

mod bodies;
mod design;
mod items;
mod law;
mod nodes;
mod sections;
mod words;

pub use design::format;
pub use law::reads_back;
