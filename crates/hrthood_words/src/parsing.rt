ghost use Rattle.std.specs.Prelude.{◌≡◌, IfOk, false, map, string_bytes};
ghost use Rattle.clap.specs.Words.{FailsBy, app_of, fault_of, rule_of, subcommand_of, subcommand_rows_of};
ghost use Rattle.hrthood_words.specs.Parsing.{IsVerb, command_line, needed, one_place, three_places, two_places, verb_tree, with_places, with_verbs};
ghost use Rattle.hrthood_words.specs.Views.{listed};

use crate::verbs::{Shape, VERBS};
use clap::{Arg, ArgMatches, Error};
use std::alloc::{AllocError, Global};

/// A word that must stand.
fn needed<'a>(alloc: Global, id: &'a str) -> Arg<'a>
    ensures rule { rule_of result ≡ needed id.entry.now }
    ensures local { result.global ≡ false }
{
    Arg::new(alloc, id).required(true)
}

/// A verb that one word must follow.
fn one_word<'a>(alloc: Global, verb: &'a str) -> Result<clap::Command<'a>, AllocError>
    ensures { IfOk result (IsVerb (with_places verb.entry.now one_place)) }
{
    clap::Command::new(alloc, verb).arg(needed(alloc, "first"))
}

/// A verb that two words must follow.
fn two_words<'a>(alloc: Global, verb: &'a str) -> Result<clap::Command<'a>, AllocError>
    ensures { IfOk result (IsVerb (with_places verb.entry.now two_places)) }
{
    clap::Command::new(alloc, verb)
        .arg(needed(alloc, "first"))?
        .arg(needed(alloc, "second"))
}

/// A verb that three words must follow.
fn three_words<'a>(alloc: Global, verb: &'a str) -> Result<clap::Command<'a>, AllocError>
    ensures { IfOk result (IsVerb (with_places verb.entry.now three_places)) }
{
    clap::Command::new(alloc, verb)
        .arg(needed(alloc, "first"))?
        .arg(needed(alloc, "second"))?
        .arg(needed(alloc, "third"))
}

/// What the parser is told of a verb.
fn verb_tree<'a>(
    alloc: Global,
    verb: &'a str,
    shape: Shape,
) -> Result<clap::Command<'a>, AllocError>
    ensures { IfOk result (IsVerb (verb_tree (verb.entry.now, shape))) }
{
    match shape {
        Shape::Design(_) | Shape::Count => one_word(alloc, verb),
        Shape::AdaArrivals | Shape::DesignArrivals => two_words(alloc, verb),
        Shape::DesignArrivalsTrace => three_words(alloc, verb),
    }
}

/// The command line with these verbs behind those that it has.
fn with_verbs<'a>(
    alloc: Global,
    line: clap::Command<'a>,
    words: &[(&'static str, Shape)],
) -> Result<clap::Command<'a>, AllocError>
    ensures { IfOk result (λ c. app_of c ≡ with_verbs (app_of line.entry) (map listed words.now)) }
{
    let mut line = line;
    'words: for word in words {
        let (verb, shape) = *word;
        line = line.subcommand(verb_tree(alloc, verb, shape)?)?;
    }
    Ok(line)
}

/// The command line: one of the verbs must stand.
fn command_line<'a>(alloc: Global) -> Result<clap::Command<'a>, AllocError>
    ensures { IfOk result (λ c. app_of c ≡ command_line) }
{
    let line = clap::Command::new(alloc, "hrthood")
        .no_binary_name(true)
        .subcommand_required(true);
    with_verbs(alloc, line, &VERBS)
}

/// What the parser finds in words.
pub(crate) fn parse<'a>(alloc: Global, words: &'a [String]) -> Result<ArgMatches<'a>, Error>
    ensures ok { IfOk result (λ m. subcommand_rows_of m ≡ subcommand_of command_line (map string_bytes words.entry.now)) }
    ensures kinds { FailsBy (fault_of command_line (map string_bytes words.entry.now)) result }
{
    command_line(alloc)?.try_get_matches_from(words)
}
