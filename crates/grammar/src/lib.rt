//! Readers of tokens with laws, for every grammar of the repository.
//!
//! It stands on nothing, and has no code: its definitions say what a reader is and what makes it right for a grammar
//! (`Reads`: what it takes is a text of the grammar, it takes each such text, and where it stops no text goes on), and its
//! laws give that for one token, one reader after another, a choice by the next token, a repetition and a value made of what
//! was read, and then for a whole text.
//!
//! Other crates may cite these proofs of it (`proofs/Shared`):
//!
//! - `From`: the law of lists whose items depend on those before them.
//! - `Laws`: the laws of the readers, one form after another.
//! - `Limits`: the law of readers with a limit that is reached.
//! - `Many`: the law of repetitions.
//! - `Picks`: the laws of a choice among several, and of one reader for each of a list.
//! - `Whole`: the law of a reader of a whole text.
//! - `Widening`: readers with limits against the same readers with wider ones.
#![tactic(auto)]
