//! Laws of lists, places and sums, over the definitions of `seq_tree` alone: no code runs here.
//!
//! Other crates may cite these proofs of it (`proofs/Shared`):
//!
//! - `Depths`: where nodes lead to each other in no ring, they go no deeper than there are nodes.
//! - `Facts`: small facts: faults that are none, names that are the same, and the first item that passes a test.
//! - `Greatest`: the greatest of a number and those of a list: it is at least each, and at most what each is at most.
//! - `Lists`: items of lists: those that are made of numbered items, those that a test finds, and those of lists in lists.
//! - `Places`: items of a list by their places: as one of them changes, as the list grows at its end, and in lists that are made of others.
//! - `Reaching`: what nodes lead to through as many steps as there are nodes is closed: what it leads to is among it.
//! - `Weights`: what is counted along the dearest path of a block depends on what its calls count alone, and rises with it.
#![tactic(auto)]
