// How a run ends, by number and by line.
ghost use Rattle.std.specs.Prelude.{◌≡◌};
ghost use Rattle.utd_session.specs.Status.{number_of, line_of};

/// How a run ends.
#[derive(Clone, Copy, Debug, PartialEq, Eq)]
pub enum Status {
    AllAccepted,
    SomeRefused,
    BadUsage,
    ReadFailed,
    WriteFailed,
    NoMemory,
    TooLong,
    CannotDump,
}

impl Status {
    /// The number that the process ends with.
    pub fn number(self) -> u8
        ensures { result ≡ number_of self }
    {
        match self {
            Status::AllAccepted => 0,
            Status::SomeRefused => 1,
            Status::BadUsage => 2,
            Status::ReadFailed => 3,
            Status::WriteFailed => 4,
            Status::NoMemory => 5,
            Status::TooLong => 6,
            Status::CannotDump => 7,
        }
    }

    /// The line that goes to the standard error.
    #[tactic(auto, unfolding(crate::specs::Status::line_of))]
    pub fn line(self) -> &'static [u8]
        ensures { result.now ≡ line_of self }
    {
        match self {
            Status::AllAccepted | Status::SomeRefused => b"",
            Status::BadUsage => b"usage: utd [--generate N] [--dump]\n",
            Status::ReadFailed => b"utd: read failed\n",
            Status::WriteFailed => b"utd: write failed\n",
            Status::NoMemory => b"utd: out of memory\n",
            Status::TooLong => b"utd: more than 16777216 bytes\n",
            Status::CannotDump => b"utd: cannot dump\n",
        }
    }
}
