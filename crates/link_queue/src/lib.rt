//! The queues of a processor: the ready tasks in order of dispatch, and the sleeping tasks by time and then by task.
//!
//! It stands on no other crate. Contracts see two lists (`specs/Queues`): the ready tasks, each with its level, and the sleeping tasks,
//! each with its time. Each call of `Links` says in one clause exactly what the lists are after it:
//!
//! - `push_tail` and `push_head` make a task ready behind or before those of its level, and `sleep` puts one to sleep;
//! - `pop_head` takes the first ready task, and `wake_due` the first sleeping task where its time has come;
//! - `raise_head` and `lower_head` give the first ready task another level;
//! - `head` and `next_wake` tell the first entry of a list, and say of every table that no task stands twice, in one list or in both,
//!   and that each list is in its order.
//!
//! Both lists go through one table with a slot for each task, linked by index. So no call but `Links::new` takes memory, and the first
//! task of each list is found without a search.
//!
//! Other crates may cite these proofs of it (`proofs/Shared`):
//!
//! - `Lists`: lists of entries: what holds of each, their order, and what is put behind others.
#![tactic(auto)]

mod links;
mod memory;
mod table;

pub use links::Links;
pub use memory::NoMemory;
