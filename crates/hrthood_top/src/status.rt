ghost use Rattle.std.specs.Prelude.{◌≡◌};
ghost use Rattle.hrthood_top.specs.Exits.{exit_status};

/// How a run ended.
#[derive(Clone, Copy, Debug, PartialEq, Eq)]
pub enum Status {
    /// All was written.
    Done,
    /// A file, or what it says, is refused.
    Refused,
    /// The words are no command.
    Usage,
    /// A file could not be read.
    ReadFault,
    /// Standard output did not take all.
    WriteFault,
    /// Memory was wanted.
    NoMemory,
}

impl Status {
    /// The exit status of the process, from 0 to 5.
    pub fn code(self) -> u8
        ensures { result ≡ exit_status self }
    {
        match self {
            Status::Done => 0,
            Status::Refused => 1,
            Status::Usage => 2,
            Status::ReadFault => 3,
            Status::WriteFault => 4,
            Status::NoMemory => 5,
        }
    }
}
