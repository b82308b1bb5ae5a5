//! How a run ends, and its exit code.
ghost use Rattle.std.specs.Prelude.{◌≡◌};
ghost use Rattle.command_outcome.specs.Codes.{code_of};

/// How a run ended; `code` is the exit code of the program.
#[derive(Clone, Copy, Debug, PartialEq, Eq)]
pub enum Status {
    /// The answer was put.
    Done,
    /// The search used all its units.
    Stopped,
    /// The words ask for no job.
    Usage,
    /// A file has no reading, or is too long.
    Input,
    /// A file could not be read.
    ReadFault,
    /// A file could not be written, or the report could not be put.
    WriteFault,
    /// Out of memory.
    Memory,
    /// A certificate was refused.
    Refused,
    /// The checker used all its steps.
    Steps,
}

impl Status {
    /// The exit code, 0 to 8.
    pub fn code(&self) -> u8
        ensures { result ≡ code_of self.now }
    {
        match self {
            Status::Done => 0,
            Status::Stopped => 1,
            Status::Usage => 2,
            Status::Input => 3,
            Status::ReadFault => 4,
            Status::WriteFault => 5,
            Status::Memory => 6,
            Status::Refused => 7,
            Status::Steps => 8,
        }
    }
}
