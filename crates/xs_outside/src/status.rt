//! The exit statuses of the program.

ghost use Rattle.std.specs.Prelude.{◌≡◌};
ghost use Rattle.xs_outside.specs.Statuses.{code_of};

/// How a command ended.
#[derive(Clone, Copy, PartialEq, Eq, Debug)]
pub enum Status {
    /// What the command answers was written, and no task in the history was killed.
    Done,
    /// The history was written, and a task in it was killed.
    Killed,
    /// The input is no script of this version.
    Refused,
    /// The history isn't legal and whole.
    Illegal,
    /// Reading the input failed.
    ReadFault,
    /// Writing the output failed.
    WriteFault,
    /// There was no memory for the input or the run.
    NoMemory,
    /// The words are no command.
    Usage,
}

impl Status {
    /// The process's exit status.
    pub fn code(self) -> u8
        ensures { result ≡ code_of self }
    {
        match self {
            Status::Done => 0,
            Status::Killed => 1,
            Status::Refused => 2,
            Status::Illegal => 3,
            Status::ReadFault => 4,
            Status::WriteFault => 5,
            Status::NoMemory => 6,
            Status::Usage => 64,
        }
    }
}
