//! Examples that pin the definitions at the top: how a command ends, what each verb makes of its files and why it refuses them, and what the
//! crates below answer. Each holds of a case, or is broken by one that differs from it alone.
//!
//! Where a definition speaks of whole texts, its parts stand for these: the definition holds where all of its parts do, and is broken where one
//! of them is. Of files without a byte it is worked whole (`EmptyExamples`). The crate stands at the end of the chain, and nothing stands on it.
//! It has no calls, and nothing is promised by it.
#![tactic(auto)]
