//! The rules on what a design calls, starts, requests and costs: the first offender against V09, V10, V14, V15 and V16.
//!
//! All five are read off the graph of calls that the index of `ods_index` holds. It stands on that, on the rules of `design_rules`, the rings
//! of `rings`, and the ways and prices of `call_graph`. What threads start, themselves and through protected operations, is `Starts`; what the
//! blocks of the design cost is `Priced`, worked out once for both rules that ask for it. Each call of a rule carries its promise: it is silent
//! exactly where nothing offends against its rule, and else tells the first that does.
#![tactic(auto)]

mod bodies;
mod budgets;
mod call_rings;
mod callers;
mod costs;
mod edges;
mod keys;
mod object_rings;
mod once;
mod reacher;
mod requests;
mod separations;
mod services;
mod sizes;
mod sources;
mod spots;
mod start_rings;
mod starts;

pub use budgets::first_bad_budget;
pub use call_rings::first_ringed_op;
pub use costs::Priced;
pub use object_rings::first_ringed_object;
pub use separations::first_bad_spacing;
pub use sizes::first_bad_size;
pub use sources::first_bad_source;
pub use start_rings::first_ringed_thread;
pub use starts::threads_of;
