//! How a run ends.
ghost use Rattle.std.specs.Prelude.{◌≡◌};
ghost use Rattle.nfg_run.specs.Status.{status_code};

/// How a run ends.
#[derive(Clone, Copy, Debug, PartialEq, Eq)]
pub enum Status {
    /// All output was taken, and no line was refused.
    Done,
    /// A line of the script was refused.
    Refused,
    /// The words or the script aren't lawful.
    Bad,
    /// A file can't be read.
    ReadFault,
    /// There was no memory, and nothing was written.
    OutOfMemory,
    /// A write failed.
    WriteFault,
}

impl Status {
    /// The exit status of the process: 0 to 5, in the order of the variants.
    pub fn code(&self) -> u8
        ensures { result ≡ status_code self.now }
    {
        match self {
            Status::Done => 0,
            Status::Refused => 1,
            Status::Bad => 2,
            Status::ReadFault => 3,
            Status::OutOfMemory => 4,
            Status::WriteFault => 5,
        }
    }
}
