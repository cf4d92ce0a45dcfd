use seq_tree::{Callable, Name};

/// What is known at the beginning of a body.
#[derive(Drop, Debug)]
pub struct Scope {
    /// The names that can be read.
    pub reads: Vec<Name>,
    /// The names that can be assigned, as far as they can be read too.
    pub writes: Vec<Name>,
    /// The operations that can be called.
    pub calls: Vec<Callable>,
}
