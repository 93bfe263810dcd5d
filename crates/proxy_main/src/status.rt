ghost use Rattle.std.specs.Prelude.{◌≡◌};
ghost use Rattle.proxy_main.specs.Words.{status_number};

/// How a command ended. Its number is the program's status.
#[derive(Clone, Copy, Debug, PartialEq, Eq)]
pub enum Status {
    /// The input came to its end.
    Done,
    /// The input was refused, and the last line written says why.
    Refused,
    /// The words were faulty.
    Usage,
    /// A read of the input failed.
    InputFault,
    /// A write of the output failed.
    OutputFault,
    /// Memory ran out.
    NoMemory,
    /// A read of a file failed.
    FilesFault,
    /// A port could not be bound.
    BindFault,
    /// A thread was refused.
    ThreadFault,
}

impl Status {
    /// The number that the process ends with, from 0 to 8.
    pub fn number(self) -> u8
        ensures { result ≡ status_number self }
    {
        match self {
            Status::Done => 0,
            Status::Refused => 1,
            Status::Usage => 2,
            Status::InputFault => 3,
            Status::OutputFault => 4,
            Status::NoMemory => 5,
            Status::FilesFault => 6,
            Status::BindFault => 7,
            Status::ThreadFault => 8,
        }
    }
}
