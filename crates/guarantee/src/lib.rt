//! What is guaranteed of a design, in definitions alone: no code runs here.
//!
//! They say which traces a design allows, without priorities and without Ada, when a trace is within its bounds, which program and
//! which text a design has, and what it is that a text is guaranteed for a design. They stand on the definitions of designs, of the
//! analysis, of Ada programs, of traces and arrivals, and of the processor. `Guaranteed` is what contracts cite.
//!
//! Other crates may cite these proofs of it (`proofs/Shared`):
//!
//! - `Same`: the program of a design does what the design does: its software is the design's.
#![tactic(auto)]
