/// What a piece is to others.
#[derive(Clone, Copy, Debug, PartialEq, Eq)]
pub enum Act {
    /// Nothing.
    Silent,
    /// This value is written.
    Print(u32),
    /// The request of the task at this place begins: its control structure is entered.
    Ask(usize),
    /// The value of a request is kept in the control structure of the task at this place.
    Keep { task: usize, value: Option<u32> },
    /// The barrier of the task at this place opens.
    Open(usize),
    /// The request of the task at this place is over: its control structure is left.
    Ended { task: usize, value: Option<u32> },
    /// The activation ends.
    Finish,
}
