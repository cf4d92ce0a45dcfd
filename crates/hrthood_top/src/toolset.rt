ghost use Rattle.std.specs.Prelude.{◌≡◌, IfOk, List, Option, Some, map, string_bytes, ℕ};
ghost use Rattle.hrthood_words.specs.Words.{Command as Asked, command_of};
ghost use Rattle.hrthood_words.specs.Views.{HasFewThreads, ReadsAs, command_tree};
ghost use Rattle.hrthood_top.specs.Commands.{design_verb};
ghost use Rattle.hrthood_top.specs.declared.file_kind.FileKind.TheVariants.{Design};
ghost use Rattle.hrthood_top.specs.Ends.{Ends, EndsVerb, outside};
ghost use Rattle.hrthood_top.specs.Files.{Texts};
ghost use Rattle.hrthood_top.specs.Runs.{Runs};
ghost use Rattle.hrthood_top.specs.Samples.{EndsSample};
ghost use Rattle.hrthood_top.specs.Writing.{Streams};

use crate::accepts::accepts;
use crate::analyse::analyse_text;
use crate::arrange::arrange_text;
use crate::background_text::make_background;
use crate::check::check_text;
use crate::explain::explain_text;
use crate::fetch::{File, fetch_files};
use crate::file_kind::FileKind;
use crate::finish::{finish, tell_stop, tell_unread};
use crate::format::format_text;
use crate::generate::generate_text;
use crate::replay::replay;
use crate::sample::write_sample;
use crate::scale::scale_text;
use crate::search::search_text;
use crate::status::Status;
use crate::verify::verify;
use hood_io::{Shelf, Sink};
use hrthood_words::{Command, DesignVerb, Unread, plain_command, read_words};
use std::alloc::Global;

/// Does what a verb does with the text of a design, which is all that it asks for.
fn do_text<O: Sink, E: Sink>(
    alloc: Global,
    verb: DesignVerb,
    design: &[u8],
    out: &mut O,
    err: &mut E,
) -> Status
    ensures { (name : List ℕ) (texts : Texts) → texts Design ≡ design.now → Streams (design_verb verb name) texts result
        (O.written out.old) (O.written out.new) (O.faults out.old) (O.faults out.new)
        (E.written err.old) (E.written err.new) (E.faults err.old) (E.faults err.new) }
{
    match verb {
        DesignVerb::Check => finish(out, err, check_text(alloc, design)),
        DesignVerb::Analyse => finish(out, err, analyse_text(alloc, design)),
        DesignVerb::Format => finish(out, err, format_text(alloc, design)),
        DesignVerb::Generate => finish(out, err, generate_text(alloc, design)),
        DesignVerb::Search => finish(out, err, search_text(alloc, design)),
        DesignVerb::Scale => finish(out, err, scale_text(alloc, design)),
        DesignVerb::Background => finish(out, err, make_background(alloc, design)),
        DesignVerb::Explain => finish(out, err, explain_text(alloc, design)),
        DesignVerb::Arrange => finish(out, err, arrange_text(alloc, design)),
    }
}

/// Does what a verb does that asks for a design alone, from the design to what is written.
fn do_on_design<F: Shelf, O: Sink, E: Sink>(
    alloc: Global,
    verb: DesignVerb,
    design: &str,
    shelf: &mut F,
    out: &mut O,
    err: &mut E,
) -> Status
    ensures { EndsVerb result (design_verb verb design.now)
        (outside (F.told shelf.old) (F.faults shelf.old) (O.written out.old) (O.faults out.old) (E.written err.old) (E.faults err.old))
        (outside (F.told shelf.new) (F.faults shelf.new) (O.written out.new) (O.faults out.new) (E.written err.new) (E.faults err.new)) }
{
    let files = [File {
        kind: FileKind::Design,
        name: design,
    }];
    match fetch_files(alloc, shelf, &files) {
        Ok(texts) => do_text(alloc, verb, &texts.design, out, err),
        Err(stop) => tell_stop(err, stop),
    }
}

/// Does a command, from its files to what is written.
fn do_command<F: Shelf, O: Sink, E: Sink>(
    alloc: Global,
    command: Command<'_>,
    shelf: &mut F,
    out: &mut O,
    err: &mut E,
) -> Status
    requires { HasFewThreads command }
    ensures ends { Ends result (Some (command_tree command.entry))
        (outside (F.told shelf.old) (F.faults shelf.old) (O.written out.old) (O.faults out.old) (E.written err.old) (E.faults err.old))
        (outside (F.told shelf.new) (F.faults shelf.new) (O.written out.new) (O.faults out.new) (E.written err.new) (E.faults err.new)) }
    ensures summed { EndsSample result (Some (command_tree command.entry)) (O.written out.old) (O.written out.new) }
{
    match command {
        Command::OnDesign { verb, design } => do_on_design(alloc, verb, design, shelf, out, err),
        Command::Replay { ada, arrivals } => replay(alloc, ada, arrivals, shelf, out, err),
        Command::Verify { design, arrivals } => verify(alloc, design, arrivals, shelf, out, err),
        Command::Accepts {
            design,
            arrivals,
            trace,
        } => accepts(alloc, design, arrivals, trace, shelf, out, err),
        Command::Sample { threads } => write_sample(alloc, threads, out, err),
    }
}

/// Does the command that was read, or tells why none was.
fn do_read<F: Shelf, O: Sink, E: Sink>(
    alloc: Global,
    read: Result<Command<'_>, Unread>,
    shelf: &mut F,
    out: &mut O,
    err: &mut E,
) -> Status
    requires { IfOk read HasFewThreads }
    ensures { (is : Option Asked) → ReadsAs read.entry is → Runs result is
        (outside (F.told shelf.old) (F.faults shelf.old) (O.written out.old) (O.faults out.old) (E.written err.old) (E.faults err.old))
        (outside (F.told shelf.new) (F.faults shelf.new) (O.written out.new) (O.faults out.new) (E.written err.new) (E.faults err.new)) }
{
    match read {
        Ok(command) => do_command(alloc, command, shelf, out, err),
        Err(why) => tell_unread(err, why),
    }
}

/// All that the program does, for the words after its name: it fetches the files of the words in their order,
/// and writes to `out` only when everything but the writing has succeeded. A replay writes while it runs, once the run
/// can begin, and takes no memory from then on. `err` gets one line where the answer isn't `Done`.
pub fn run<F: Shelf, O: Sink, E: Sink>(
    alloc: Global,
    words: &[String],
    shelf: &mut F,
    out: &mut O,
    err: &mut E,
) -> Status
    // Usage exactly where the words are no command; each status with its cause; a sample is summed up; what can be done is done.
    ensures { Runs result (command_of (map string_bytes words.now))
        (outside (F.told shelf.old) (F.faults shelf.old) (O.written out.old) (O.faults out.old) (E.written err.old) (E.faults err.old))
        (outside (F.told shelf.new) (F.faults shelf.new) (O.written out.new) (O.faults out.new) (E.written err.new) (E.faults err.new)) }
{
    do_read(alloc, read_words(alloc, words), shelf, out, err)
}

/// Does what `run` does, and has its clause, but reads the words without the kit's parser and without memory. A program that calls it in
/// the place of `run` is compiled in less time, which a first answer without proof is glad of.
pub fn run_plain<F: Shelf, O: Sink, E: Sink>(
    alloc: Global,
    words: &[String],
    shelf: &mut F,
    out: &mut O,
    err: &mut E,
) -> Status
    ensures { Runs result (command_of (map string_bytes words.now))
        (outside (F.told shelf.old) (F.faults shelf.old) (O.written out.old) (O.faults out.old) (E.written err.old) (E.faults err.old))
        (outside (F.told shelf.new) (F.faults shelf.new) (O.written out.new) (O.faults out.new) (E.written err.new) (E.faults err.new)) }
{
    match plain_command(words) {
        Some(command) => do_read(alloc, Ok(command), shelf, out, err),
        None => do_read(alloc, Err(Unread::NoCommand), shelf, out, err),
    }
}
