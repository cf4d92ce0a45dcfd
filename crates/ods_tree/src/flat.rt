use seq_tree::{Block, Costs, Datum, Name, OpSig, OpText};

/// When a thread is released, in ticks: at its own times, or at requests of an operation.
/// A sporadic thread with a jitter is requested from outside.
#[derive(Drop, Debug)]
pub enum Timing {
    /// At its own times.
    Cyclic {
        /// The time from one release to the next.
        period: u32,
        /// The time of the first release.
        offset: u32,
    },
    /// At requests.
    Sporadic {
        /// The operation by which it is requested.
        op: OpSig,
        /// The least time from one request to the next.
        separation: u32,
        /// By how much requests from outside may come late; none where another thread requests it.
        jitter: Option<u32>,
    },
}

/// A terminal passive object.
#[derive(Drop)]
pub struct FlatPassive {
    /// The name of the object.
    pub name: Name,
    /// Its operations.
    pub ops: Vec<OpText>,
}

/// A terminal protected object.
#[derive(Drop)]
pub struct FlatShared {
    /// The name of the object.
    pub name: Name,
    /// Its data, with their values at the start.
    pub vars: Vec<Datum>,
    /// Its operations.
    pub ops: Vec<OpText>,
}

/// A terminal cyclic or sporadic object.
#[derive(Drop)]
pub struct FlatThread {
    /// The name of the object.
    pub name: Name,
    /// When it is released.
    pub timing: Timing,
    /// The ticks from a release within which the activation must end.
    pub deadline: u32,
    /// Its data, with their values at the start.
    pub vars: Vec<Datum>,
    /// What it does at each activation.
    pub block: Block,
}

/// The terminal objects of a design by sort, each call naming a terminal operation.
#[derive(Drop)]
pub struct Flat {
    /// The name of the design.
    pub name: Name,
    /// The ticks that each kind of statement takes.
    pub costs: Costs,
    /// The passive objects, in flattened order.
    pub passive: Vec<FlatPassive>,
    /// The protected objects, in flattened order.
    pub shared: Vec<FlatShared>,
    /// The cyclic and sporadic objects, in flattened order.
    pub threads: Vec<FlatThread>,
}
