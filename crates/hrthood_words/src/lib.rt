//! The words of the command line, and the command that they are.
//!
//! It stands on the kit's `clap` alone. Which verbs there are, and what each asks for, is one list: `VERBS` in the code and `verbs` of
//! `specs/Words` in the definitions, which the check compares. Commands, what the parser is told and the usage line are made from it.
//! `read_words` reads words by the parser and `plain_command` without it and without memory, both as `command_of` has them.
#![tactic(auto)]

mod command;
mod operands;
mod parsing;
mod reading;
mod verbs;

pub use command::Command;
pub use reading::{Unread, plain_command, read_words};
pub use verbs::{DesignVerb, Shape, VERBS, operands_text};
