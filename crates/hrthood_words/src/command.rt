ghost use Rattle.std.specs.Prelude.{◌≡◌, IfSome, option_map};
ghost use Rattle.hrthood_words.specs.Views.{HasFewThreads, command_tree, operand_words};
ghost use Rattle.hrthood_words.specs.Words.{command_with, verb_command};

use crate::operands::{Operands, one_count, one_file, three_files, two_files};
use crate::verbs::{DesignVerb, Shape, shape_named};

/// What is to be done, with the names of files or a count of threads, from 1 to 30.
#[derive(Clone, Copy)]
pub enum Command<'a> {
    /// What a verb does that asks for a design alone.
    OnDesign {
        /// The verb.
        verb: DesignVerb,
        /// The name of the design.
        design: &'a str,
    },
    /// Replay an Ada text under arrivals.
    Replay {
        /// The name of the Ada text.
        ada: &'a str,
        /// The name of the arrivals.
        arrivals: &'a str,
    },
    /// Make the Ada text of a design, and replay it under arrivals.
    Verify {
        /// The name of the design.
        design: &'a str,
        /// The name of the arrivals.
        arrivals: &'a str,
    },
    /// Tell whether a trace is one of the design's machine under arrivals.
    Accepts {
        /// The name of the design.
        design: &'a str,
        /// The name of the arrivals.
        arrivals: &'a str,
        /// The name of the trace.
        trace: &'a str,
    },
    /// Make the sample of so many threads, verify it and sum up its run.
    Sample {
        /// How many threads it has.
        threads: u32,
    },
}

/// The command that a verb of this shape is with the words behind it, where it is one.
fn command_with<'a>(shape: Shape, words: Operands<'a>) -> Option<Command<'a>>
    ensures command { option_map command_tree result ≡ command_with shape (operand_words words.entry) }
    ensures few { IfSome result HasFewThreads }
{
    match shape {
        Shape::Design(verb) => {
            let design = one_file(words)?;
            Some(Command::OnDesign { verb, design })
        }
        Shape::AdaArrivals => {
            let (ada, arrivals) = two_files(words)?;
            Some(Command::Replay { ada, arrivals })
        }
        Shape::DesignArrivals => {
            let (design, arrivals) = two_files(words)?;
            Some(Command::Verify { design, arrivals })
        }
        Shape::DesignArrivalsTrace => {
            let (design, arrivals, trace) = three_files(words)?;
            Some(Command::Accepts {
                design,
                arrivals,
                trace,
            })
        }
        Shape::Count => {
            let threads = one_count(words)?;
            Some(Command::Sample { threads })
        }
    }
}

/// The command that a word is with the words behind it, where it is one.
pub(crate) fn verb_command<'a>(verb: &str, words: Operands<'a>) -> Option<Command<'a>>
    ensures command { option_map command_tree result ≡ verb_command verb.now (operand_words words.entry) }
    ensures few { IfSome result HasFewThreads }
{
    command_with(shape_named(verb)?, words)
}
