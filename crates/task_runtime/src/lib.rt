//! One task of the modelled processor at work over linked code: its variables are slots, what it has left to do is a place in code, and each
//! instruction does what the definitions of `machine` say that the task's first piece does.
//!
//! It stands on `linker`, whose code it runs. The words for a task are how it is written and when it is released, whether it can run, its
//! control structure, the sections that it is inside, and what its pieces are to others. What a task does is said over trees and lists: what
//! calls lead to, which statements have room for those inside them, what a piece does and what starts behind it (`specs/Callable.antt`,
//! `Fitting`, `Doing`, `Works`). `room_of` says how much room its calls need, so that no later call takes memory.
//!
//! What a task has left is read off its place, its slots and its frames, along the trees of its program (`specs/Lefts.antt`); the code itself is
//! in no definition of that, and a fact that is handed on from call to call says that it is linked to those trees (`specs/Sounds.antt`).
//! `ceil_runtime` runs many tasks on one processor.
//!
//! Other crates may cite these proofs of it (`proofs/Shared`):
//!
//! - `AtWork`: a task that goes on and enters a section or leaves one, and the act of a request's beginning.
//! - `Doings`: what a call does, by what it leads to.
//! - `ExampleSystem`: a system of three units, for examples.
//! - `FirstPieces`: a task that has a piece has some piece left.
//! - `Ruled`: a task of a program that meets the rules can work.
//! - `Runnable`: a task of a program that meets the rules can be run.
//! - `Sections`: no ends of sections are among the pieces of statements.
//! - `Starting`: each statement takes a tick, and how many effects may follow each other.
//! - `TaskStarts`: linked code has a start for each task.
//! - `TasksAtWork`: what holds of a task at work: what follows from its piece, and how its sections and effects are counted.
//! - `UnitsAt`: the units of a program by their places.
//! - `Workable`: a task that can run can work, where its calls are full and the names of what it calls differ.
#![tactic(auto)]

mod acting;
mod durations;
mod effects;
mod frames;
mod hands;
mod inside;
mod opening;
mod piece;
mod progress;
mod readiness;
mod reserve;
mod room;
mod sections;
mod settle;
mod slots;
mod stack;
mod task;
mod thread;
mod timing;
mod values;

pub use effects::Act;
pub use frames::Frames;
pub use inside::{Held, Section};
pub use piece::{Deed, Entry, Frame, Piece, Request};
pub use progress::{Progress, Start};
pub use readiness::{Gate, Readiness};
pub use reserve::{Room, rooms_of, task_room};
pub use room::room_of;
pub use slots::Slots;
pub use stack::Stack;
pub use task::Task;
pub use thread::{Thread, Timing, ceiling_of};
pub use values::Var;
