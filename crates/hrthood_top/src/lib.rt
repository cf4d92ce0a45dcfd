//! The top of the toolset: from the words of the command line, files and standard streams to what is written and the status.
//!
//! It stands on `hrthood_words` for the command that the words are, on `bridge` for the Ada text of a design, on the readers of
//! `ada_read` and `arrivals_read` and the processor of `ceil_runtime` for a replay, and on `hood_io` for files and streams. `run` carries
//! its promise, and so does `run_plain`, which reads the words without the kit's parser; by `generated_text_replays` the promise holds
//! over two runs, of which the second never sees the design, and by `refused_exactly_where` a command has one cause of refusal at most,
//! and none where all of it can be written. A verb is one module of definitions and one of code (`docs/CHANGING.md`).
#![tactic(auto)]

mod accepts;
mod ada_lines;
mod analyse;
mod arrange;
mod arrival_lines;
mod background_text;
mod chain_lines;
mod check;
mod deadline_reports;
mod design_lines;
mod design_program;
mod explain;
mod fetch;
mod file_kind;
mod finish;
mod format;
mod generate;
mod line;
mod margin;
mod message;
mod page;
mod refusals;
mod replay;
mod report;
mod sample;
mod scale;
mod search;
mod status;
mod text_lines;
mod texts;
mod thread_lines;
mod thread_names;
mod toolset;
mod trace;
mod two_runs;
mod usage;
mod verify;
mod violation;

pub use accepts::AcceptsRefusal;
pub use arrange::arranged_as_generated;
pub use background_text::BackgroundRefusal;
pub use bridge::Untaken;
pub use deadline_reports::searched_as_analysed;
pub use file_kind::FileKind;
pub use format::FormatRefusal;
pub use generate::GenerateRefusal;
pub use refusals::refused_exactly_where;
pub use replay::ReplayRefusal;
pub use scale::ScaleRefusal;
pub use search::SearchRefusal;
pub use status::Status;
pub use thread_names::ThreadNames;
pub use toolset::{run, run_plain};
pub use two_runs::{
    arranged_text_replays, background_text_replays, generated_text_replays,
    scaled_design_generates, verified_trace_is_accepted,
};
pub use verify::VerifyRefusal;
