ghost use Rattle.std.specs.Prelude.{◌≡◌};
ghost use Rattle.dp_app.specs.Status.{code_of};

/// How a run ended.
#[derive(Clone, Copy, Debug, PartialEq, Eq)]
pub enum Status {
    Ok,
    /// The words are no command.
    Usage,
    /// A read of a file failed.
    ReadFault,
    /// A write of the output failed.
    WriteFault,
    /// The plant file is refused.
    BadPlant,
    /// The plant's gains have no certificate.
    GainsRefused,
    /// A line of the record is refused.
    BadRecord,
    /// A line of the script is refused.
    BadScript,
    /// Memory was wanted.
    Memory,
    /// A file is longer than its limit.
    TooLong,
}

impl Status {
    /// The exit code.
    pub fn code(&self) -> u8
        ensures { result ≡ code_of self.now }
    {
        match self {
            Status::Ok => 0,
            Status::Usage => 2,
            Status::ReadFault => 3,
            Status::WriteFault => 4,
            Status::BadPlant => 5,
            Status::GainsRefused => 6,
            Status::BadRecord => 7,
            Status::BadScript => 8,
            Status::Memory => 9,
            Status::TooLong => 10,
        }
    }
}
