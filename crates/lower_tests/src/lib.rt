//! Tests of calls of the lower crates: those that no verb comes to yet, and those of the system's files and streams.
//!
//! They stand apart from the crates that they test, so that none of these is proved twice, and below `run`, so that they are proved
//! beside it. No code runs in it.
#![tactic(auto)]

#[cfg(test)]
mod blocks;
#[cfg(test)]
mod bodies;
#[cfg(test)]
mod bounds;
#[cfg(test)]
mod counts;
#[cfg(test)]
mod follows;
#[cfg(test)]
mod linking;
#[cfg(test)]
mod looks;
#[cfg(test)]
mod openings;
#[cfg(test)]
mod queues;
#[cfg(test)]
mod streams;
