ghost use Rattle.std.specs.Prelude.{◌≡◌, ℕ, List, [], IfOk, map, string_bytes, take, length, min};
ghost use Rattle.hood_io.specs.MemSink.{bytes_of};
ghost use Rattle.hood_io.specs.MemShelf.{files_of, log_of, faults_of};
ghost use Rattle.hrthood_words.specs.Words.{command_of};
ghost use Rattle.page.specs.Pages.{Answers, IsAnswer, IsFront, Ran};

use crate::given_words::given_words;
use crate::page_shelf::page_shelf;
use hood_io::{MemShelf, MemSink, NoMemory};
use hrthood_top::{Status, run_plain};
use std::alloc::Global;

/// A run that has ended.
#[derive(Drop)]
struct Run {
    status: Status,
    out: MemSink,
    err: MemSink,
}

/// Runs words over a shelf, with so much room for what is written.
fn run_over(
    alloc: Global,
    words: &[String],
    shelf: &mut MemShelf,
    out_room: usize,
    err_room: usize,
) -> Result<Run, NoMemory>
    requires { faults_of shelf.old ≡ 0 }
    ensures { IfOk result (λ r. Ran r.status (command_of (map string_bytes words.now))
        (record { files = files_of shelf.old; log = log_of shelf.old }) (bytes_of r.out) (bytes_of r.err)) }
{
    let mut out = MemSink::new(alloc, out_room)?;
    let mut err = MemSink::new(alloc, err_room)?;
    let status = run_plain(alloc, words, shelf, &mut out, &mut err);
    Ok(Run { status, out, err })
}

/// How a run ended: its exit status, and how many bytes it wrote to each text.
#[repr(C)]
#[derive(Drop)]
pub struct Answer {
    pub status: u8,
    pub out: usize,
    pub err: usize,
}

/// Copies as much of the text as fits to the front of the other, and answers how much.
fn copied(from: &[u8], to: &mut [u8]) -> usize
    ensures { IsFront (take result to.new) from.now result (length to.old) }
{
    let count = from.len().min(to.len());
    let (front, _) = from.split_at(count);
    let (place, _) = to.split_at_mut(count);
    place.copy_from_slice(front);
    count
}

/// Runs the words of a page over its texts, with so much room for what is written.
fn run_page(
    alloc: Global,
    words: (&[u8], &[u8], &[u8], &[u8]),
    texts: (&[u8], &[u8], &[u8], &[u8]),
    out_room: usize,
    err_room: usize,
) -> Result<Run, NoMemory>
    ensures { IfOk result (λ r. Answers r.status words.entry.0.now words.entry.1.now words.entry.2.now words.entry.3.now
        (record { design = texts.entry.0.now; program = texts.entry.1.now; arrivals = texts.entry.2.now; trace = texts.entry.3.now })
        (bytes_of r.out) (bytes_of r.err)) }
{
    let mut shelf = page_shelf(alloc, texts.0, texts.1, texts.2, texts.3)?;
    let words = given_words(alloc, words.0, words.1, words.2, words.3)?;
    run_over(alloc, &words, &mut shelf, out_room, err_room)
}

/// Runs the words of a page, of which an empty one is none, over its texts, whose names are `design`, `program`, `arrivals` and `trace`.
/// What the run writes to standard output stands at the front of `out`, and what it writes to standard error at that of `err`. Where memory
/// is wanted before the run begins, nothing is written, and the status is that of wanted memory.
#[unsafe(no_mangle)]
pub extern "C" fn page_run(
    alloc: Global,
    first: &[u8],
    second: &[u8],
    third: &[u8],
    fourth: &[u8],
    design: &[u8],
    program: &[u8],
    arrivals: &[u8],
    trace: &[u8],
    out: &mut [u8],
    err: &mut [u8],
    answer: &mut Answer,
)
    ensures { IsAnswer answer.new.status answer.new.out answer.new.err first.now second.now third.now fourth.now
        (record { design = design.now; program = program.now; arrivals = arrivals.now; trace = trace.now })
        (take answer.new.out out.new) (length out.old) (take answer.new.err err.new) (length err.old) }
{
    let words = (first, second, third, fourth);
    let texts = (design, program, arrivals, trace);
    match run_page(alloc, words, texts, out.len(), err.len()) {
        Ok(run) => {
            answer.status = run.status.code();
            answer.out = copied(run.out.bytes(), out);
            answer.err = copied(run.err.bytes(), err);
        }
        Err(NoMemory) => {
            answer.status = Status::NoMemory.code();
            answer.out = 0;
            answer.err = 0;
        }
    }
}
