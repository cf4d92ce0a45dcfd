//! The laws of two runs, over definitions alone: one that makes the text of a design, and one that replays that text and never sees the
//! design. No code runs here.
//!
//! They stand on `law_runs`, which says of every design that the runs of its program are right, on `law_texts`, which says that the
//! text of every design is accepted as its program, and on the reader of Ada texts, by which a text is accepted as one program alone. Each is
//! the contract of a public function with an empty body. `generated_text_replays_right` carries the promise, and
//! `arranged_text_replays_right` that of a text by any ranking of the design's threads.
//!
//! Of designs with background objects the same is said by `background_text_replays_right`. That their runs are right, and that their texts are
//! accepted as their programs, is said by `law_backgrounds`.
//!
//! Other crates may cite these proofs of it (`proofs/Shared`):
//!
//! - `BackgroundReplays`: what is told by the program that a text is accepted as, where the text is that of a design with background
//!   objects.
//! - `OneProgram`: a text is accepted as one program.
//! - `RightReplays`: what is told by the program that a text is accepted as, where the text is that of a design.
#![tactic(auto)]

ghost use Rattle.std.specs.Prelude.{◌≡◌, ℕ, List};
ghost use Rattle.ada_tree.specs.Programs.{Program};
ghost use Rattle.ada_tree.specs.Reading.{Accepts};
ghost use Rattle.ods_tree.specs.Designs.{Design};
ghost use Rattle.ods_tree.specs.Reading.{Reads};
ghost use Rattle.law_replays.specs.Laws.{BackgroundReplayIsRight, BackgroundTextReplaysRight};

mod replays;

pub use replays::{
    arranged_text_replays_right, generated_text_replays_right, replay_is_right, replay_serves,
};

/// What a replay tells of a text that is accepted as the program of a design with background objects is permitted by the design, within the
/// bounds of its hard threads.
///
/// The design is one that a text can have, it is not refused, and `v` fits the rows of its hard threads, in ticks. The text is accepted as the
/// program `p`, and so it is as the design's own program; the arrivals are accepted for it, and `told` is what it means under them. `limit` is
/// the farthest horizon allowed, in ticks.
pub fn background_replay_is_right()
    ensures { (limit : ℕ) → BackgroundReplayIsRight limit }
{}

/// What a replay tells of the text of a design with background objects, by whatever program it is accepted as, is permitted by the design,
/// within the bounds of its hard threads.
///
/// The design was read from bytes, it is not refused, and `v` fits the rows of its hard threads, in ticks; its text is within the limit of
/// bytes. `limit` is the farthest horizon allowed, in ticks.
pub fn background_text_replays_right()
    ensures { (limit : ℕ) → BackgroundTextReplaysRight limit }
{}

/// The bytes of a text are one design at most: `check` and every other verb of a design speak of this one.
pub fn bytes_are_one_design()
    ensures { (bytes : List ℕ) (x y : Design) → Reads bytes x → Reads bytes y → x ≡ y }
{}

/// A text is accepted as one program at most, whatever design it was made of.
pub fn texts_are_one_program()
    ensures { (text : List ℕ) (p q : Program) → Accepts text p → Accepts text q → p ≡ q }
{}
