//! The text of every design that was read, meets the rules and has bounds: it reads back as the design's program, and it is guaranteed. No
//! code runs here.
//!
//! Each name and each number of such a design was read from a text, and what is computed of them is in its range; so a text can hold each
//! token of the program (`ada_print`) and each comment at its head (`ada_gen`), and the laws of the program (`law_runs`) speak of the
//! text. `texts_are_guaranteed` carries the promise. It holds by deadline-monotonic priorities since it holds by every ranking of the
//! design's threads by which the design has bounds (`ranked_texts_are_guaranteed`).
//!
//! Other crates may cite these proofs of it (`proofs/Shared`):
//!
//! - `LegibleDesigns`: the program of a design that meets the rules can stand in a text where the names and numbers of its objects can.
//! - `LegibleObjects`: where a text can hold each token of a design, it can hold the names and numbers of each of its objects.
//! - `LegibleTicks`: the objects of a design in ticks have the names and numbers of those that are written, but for their attributes.
//! - `LegibleUnits`: the text of a program can be read where its names and numbers can: line by line, for each kind of unit.
//! - `RankedTexts`: the same by any ranking of the design's threads, and what of a design that was read can be read again.
//! - `WrittenTexts`: the text of a design that was read from a text: its tokens are those of the design's program, and so it is guaranteed
//!   for the design.
#![tactic(auto)]

ghost use Rattle.std.specs.Prelude.{ℕ};
ghost use Rattle.law_texts.specs.Laws.{TextsReadBack, TextsAreAccepted, TextsAreGuaranteed};
ghost use Rattle.law_texts.specs.Ranked.{RankedTextsReadBack, RankedTextsAreAccepted, RankedTextsAreGuaranteed};

/// The text of a design that was read from bytes, meets the rules and has bounds has the tokens of the design's program, in ticks.
pub fn texts_read_back()
    ensures { TextsReadBack }
{}

/// Such a text is accepted as the design's program, where it is within the limit of bytes: it is proper and meets the rules of programs.
pub fn texts_are_accepted()
    ensures { TextsAreAccepted }
{}

/// Such a text is guaranteed for the design, in ticks, and its bounds, where it is within the limit of bytes: for all arrivals that keep the
/// separations, what its program does is allowed by the design, and every activation whose bound falls within the horizon ends within it.
///
/// `limit` is the farthest horizon allowed, in ticks.
pub fn texts_are_guaranteed()
    ensures { (limit : ℕ) → TextsAreGuaranteed limit }
{}

/// The text by any ranking of its threads of a design that was read from bytes, meets the rules and has bounds by that ranking has the tokens of
/// the design's program by it, in ticks.
pub fn ranked_texts_read_back()
    ensures { RankedTextsReadBack }
{}

/// Such a text is accepted as the design's program by that ranking, where it is within the limit of bytes.
pub fn ranked_texts_are_accepted()
    ensures { RankedTextsAreAccepted }
{}

/// Such a text is guaranteed for the design, in ticks, and its bounds by that ranking, where it is within the limit of bytes.
///
/// `limit` is the farthest horizon allowed, in ticks.
pub fn ranked_texts_are_guaranteed()
    ensures { (limit : ℕ) → RankedTextsAreGuaranteed limit }
{}
