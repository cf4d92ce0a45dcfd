//! Mutual exclusion and blocking under ceiling locking on the modelled processor, as laws over its definitions: no code runs here.
//!
//! A task inside a protected object or a control structure is a holder (`specs/Sections.antt`). In every state that a run reaches, each ready
//! task that may run before a holder has a base priority above the holder's active priority (`specs/Holders.antt`). So no object is ever
//! inside two operations, no control structure is entered or read while it is held, no run stops where calls keep to ceilings, and a
//! level of priority waits for one section of one lower task at most. The last two are then said of a program whose tasks have a table,
//! with the rows' blocking. `proofs/Worked.antt` has a program that meets the premises of each law.
//!
//! Exclusion has a first consequence (`specs/Homes.antt`). A protected object lends its data to the task that enters it and takes them back
//! when the task leaves (`machine`). So an object that no task is inside has all its data, under the names and in the order in which they
//! are written, and a task that enters an object finds them so.
//!
//! Other crates may cite these proofs of it (`proofs/Shared`):
//!
//! - `Arrivals`: the arrivals left are the last of all arrivals.
//! - `Blocked`: blocking: while a level is pending, others use at most the ticks of one section of one lower task.
//! - `Ceiled`: no run of a program stops at a ceiling where its tasks and protected bodies call at ceilings of at least their own priority.
//! - `Ending`: the ends of protected bodies among the pieces of a task name the data that are written of their objects.
//! - `Entering`: in each state of a run, also under other order numbers, data are at home, and a task that enters an object finds them.
//! - `Excludes`: what the processor keeps of sections under the premises of exclusion: each is there and is held once.
//! - `Excluding`: no section is entered while it is held: the ranks of calls keep a task from its own sections, and ceilings keep others
//!   from them.
//! - `Fitting`: what a deed leaves of a task's pieces: they still fit, and their ends of sections are as before but for one that it enters
//!   or leaves.
//! - `Keeping`: the opening has what the processor keeps, and each step keeps it.
//! - `Kept`: what the processor keeps: each ready task that may run before a holder has a base priority above the holder's active priority.
//! - `Lending`: the opening has what the processor keeps of its objects' data, and each step keeps it.
//! - `Limited`: the sections of lower tasks, one inside another too, are within a row's blocking, so that the processor blocks its task no
//!   longer.
//! - `Moves`: what is kept by each thing that happens to one task: it goes on, enters a section, leaves one, ends, is released, or begins
//!   to run.
//! - `Passing`: what a step is to sections: it leaves them as they are, a task enters one, or a task leaves its innermost one; and what
//!   passages it tells.
//! - `Paying`: what is kept of the ticks that tasks owe: below a level, and in a window in which the level is pending.
//! - `Permissions`: which calls the laws allow inside which sections: of ranks that fall, to ceilings that rise, of tasks below a level,
//!   and all.
//! - `Pieces`: what stands among the pieces left to a task: the ends of the sections that it is inside, exits inside loops, and calls that
//!   may be made there.
//! - `Programs`: every program that meets the rules, under every accepted arrivals, has what exclusion needs.
//! - `Stopping`: where tasks call at ceilings of at least their active priority, no step tells a stop at a ceiling.
//! - `Tables`: a table's laws on the processor, from its ceilings and its blocking.
//! - `Turning`: mutual exclusion: in every run the passages of an object are an enter and a leave of the same task, again and again.
#![tactic(auto)]

ghost use Rattle.law_ceilings.specs.Laws.{HoldersAreSafe, ObjectsExclude, ControlsExclude, SystemsExclude, CeilingsHold, BlocksOnce};
ghost use Rattle.law_ceilings.specs.TableLaws.{TabledRunsGoOn, BlockingWithinRows};
ghost use Rattle.law_ceilings.specs.Homes.{DataAreHome, ProgramDataAreHome};
ghost use Rattle.std.specs.Prelude.{ℕ};

/// In every state that a run of a program that meets the rules reaches, under accepted arrivals up to any horizon, each ready
/// task that stands before a holder in the order of dispatch has a base priority above the holder's active priority; no section
/// is held twice, and a task that is not ready holds none (ISO/IEC 8652:2012, D.1 to D.3).
pub fn holders_are_safe()
    ensures { (limit : ℕ) → HoldersAreSafe limit }
{}

/// In every run of a program that meets the rules, under accepted arrivals up to any horizon, the enters and leaves of a
/// protected object are an enter and a leave of the same task, again and again (ISO/IEC 8652:2012, 9.5.1 and D.3).
pub fn objects_exclude()
    ensures { (limit : ℕ) → ObjectsExclude limit }
{}

/// In every such run no request finds a control structure held, and no task takes a value from a held one.
pub fn controls_exclude()
    ensures { (limit : ℕ) → ControlsExclude limit }
{}

/// The same of every system whose protected objects call each other in no ring: bodies may enter other objects and request tasks.
pub fn systems_exclude()
    ensures { SystemsExclude }
{}

/// Where tasks call and request at ceilings of at least their priority, and protected bodies at ceilings of at least their
/// own, no run stops at a ceiling (ISO/IEC 8652:2012, D.3).
pub fn ceilings_hold()
    ensures { CeilingsHold }
{}

/// While a task of at least a given priority is ready at every tick, the ticks that lower tasks use are at most the cost of
/// one section of one of them, on an object whose ceiling reaches that priority (Sha, Rajkumar and Lehoczky 1990).
pub fn blocking_holds()
    ensures { BlocksOnce }
{}

/// No run of a program whose tasks have a table stops at a ceiling (ISO/IEC 8652:2012, D.3), whatever the arrivals.
pub fn tabled_runs_go_on()
    ensures { TabledRunsGoOn }
{}

/// While some task of at least a tabled task's priority is ready at every tick, the ticks that other tasks use are at most the
/// blocking of its row (Sha, Rajkumar and Lehoczky 1990).
pub fn blocking_within_rows()
    ensures { BlockingWithinRows }
{}

/// In every state that a run of a system reaches, where the system has what exclusion needs, each protected object that no task is
/// inside has its data at home. An object that a task enters at the next step is such a one (ISO/IEC 8652:2012, 9.5.1 and D.3).
pub fn data_are_home()
    ensures { DataAreHome }
{}

/// The same in every run of a program that meets the rules, under accepted arrivals up to any horizon.
pub fn program_data_are_home()
    ensures { (limit : ℕ) → ProgramDataAreHome limit }
{}
