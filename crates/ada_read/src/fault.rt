use ada_rules::AdaRule;
use seq_tree::{Name, TextFault};
use thiserror::Error;

/// Why an Ada text was not read.
#[derive(Drop, Debug, Error)]
pub enum AdaFault {
    /// What is wrong with the text, and where: never `NoMemory`.
    #[error("the text is no program: {0:?}")]
    Text(TextFault),
    /// The first rule that the program breaks, by number, and the first unit that breaks it, in order; no unit where package `hrt` or
    /// the whole list of units breaks it. Never want of memory.
    #[error("the program breaks a rule: {rule:?}")]
    Rule { rule: AdaRule, unit: Option<Name> },
    /// Want of memory.
    #[error("out of memory")]
    NoMemory,
}
