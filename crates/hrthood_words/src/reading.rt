ghost use Rattle.std.specs.Prelude.{◌≡◌, ◌⊎◌, Err, IfOk, IfSome, None, map, option_map, string_bytes, true};
ghost use Rattle.clap.specs.Words.{found_of, subcommand_rows_of};
ghost use Rattle.hrthood_words.specs.Parsing.{are_plain, asks_help, found_command, given_command, has_flags};
ghost use Rattle.hrthood_words.specs.Views.{HasFewThreads, ReadsAs, command_tree, operand_words};
ghost use Rattle.hrthood_words.specs.Words.{command_of};

use crate::command::{Command, verb_command};
use crate::operands::{Operands, is_file_name};
use crate::parsing::parse;
use clap::ArgMatches;
use clap::error::ErrorKind;
use std::alloc::Global;

/// Why no command is read.
#[derive(Clone, Copy)]
pub enum Unread {
    /// The words are no command.
    NoCommand,
    /// Memory was wanted to read a command.
    NoMemory,
}

/// The command that the words are, where they are one. It takes no memory and no parser.
pub fn plain_command<'a>(words: &'a [String]) -> Option<Command<'a>>
    ensures command { option_map command_tree result ≡ command_of (map string_bytes words.entry.now) }
    ensures few { IfSome result HasFewThreads }
{
    let (verb, words) = words.split_first()?;
    let (first, words) = words.split_first()?;
    let Some((second, words)) = words.split_first() else {
        return verb_command(verb.as_str(), Operands::One(first.as_str()));
    };
    match words.split_first() {
        None => verb_command(
            verb.as_str(),
            Operands::Two(first.as_str(), second.as_str()),
        ),
        Some((third, [])) => verb_command(
            verb.as_str(),
            Operands::Three(first.as_str(), second.as_str(), third.as_str()),
        ),
        Some(_) => None,
    }
}

/// The command that a verb is with what the parser found of its words, where it is one.
fn given_command<'a>(verb: &str, words: &ArgMatches<'a>) -> Option<Command<'a>>
    ensures command { option_map command_tree result ≡ given_command verb.now (found_of words.now) }
    ensures few { IfSome result HasFewThreads }
{
    let first = words.get_str("first")?;
    let Some(second) = words.get_str("second") else {
        return verb_command(verb, Operands::One(first));
    };
    match words.get_str("third") {
        Some(third) => verb_command(verb, Operands::Three(first, second, third)),
        None => verb_command(verb, Operands::Two(first, second)),
    }
}

/// The command that the parser found, where it is one.
fn found_command<'a>(matches: &ArgMatches<'a>) -> Option<Command<'a>>
    ensures command { option_map command_tree result ≡ found_command (subcommand_rows_of matches.now) }
    ensures few { IfSome result HasFewThreads }
{
    let (verb, words) = matches.subcommand()?;
    given_command(verb, words)
}

/// Whether a word is empty or begins with a dash.
fn has_flags(words: &[String]) -> bool
    ensures { result ≡ has_flags (map string_bytes words.now) }
{
    'words: for word in words {
        if !is_file_name(word.as_str()) {
            return true;
        }
    }
    false
}

/// Whether the first word asks for help.
fn asks_help(words: &[String]) -> bool
    ensures { result ≡ asks_help (map string_bytes words.now) }
{
    match words.first() {
        Some(verb) => verb.as_str() == "help",
        None => false,
    }
}

/// Why plain words are not read: memory was wanted for a command, or they are none.
fn why_unread(kind: ErrorKind, words: &[String]) -> Unread
    requires { (kind ≡ ErrorKind.OutOfMemory) ⊎ (command_of (map string_bytes words.now) ≡ None) }
    ensures { ReadsAs (Err result) (command_of (map string_bytes words.now)) }
{
    if kind != ErrorKind::OutOfMemory {
        return Unread::NoCommand;
    }
    // Words that are no command are told so, though memory was wanted.
    match plain_command(words) {
        Some(_) => Unread::NoMemory,
        None => Unread::NoCommand,
    }
}

/// The command that the words are, where they are one, as the kit's parser reads them.
pub fn read_words<'a>(alloc: Global, words: &'a [String]) -> Result<Command<'a>, Unread>
    ensures command { ReadsAs result (command_of (map string_bytes words.entry.now)) }
    ensures few { IfOk result HasFewThreads }
{
    // The parser takes words with a dash for flags and `help` for a question, so such words are read without it.
    if has_flags(words) || asks_help(words) {
        return plain_command(words).ok_or(Unread::NoCommand);
    }
    match parse(alloc, words) {
        Ok(matches) => found_command(&matches).ok_or(Unread::NoCommand),
        Err(fault) => Err(why_unread(fault.kind(), words)),
    }
}
