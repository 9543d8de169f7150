ghost use Rattle.std.specs.Prelude.{◌≡◌};

/// How a run ended. The program ends with the status's number.
#[derive(Clone, Copy, Debug, PartialEq, Eq)]
pub enum Status {
    /// The command's output was written whole.
    Done,
    /// The application is not accepted.
    Refused,
    /// The words are no command.
    Usage,
    /// The schedule has a line that is no command.
    BadSchedule,
    /// A file could not be read.
    FileFault,
    /// The output could not be written.
    SinkFault,
    /// A message could not be sent or taken.
    WireFault,
    /// Memory ran out.
    NoMemory,
    /// A file has more than 1,048,576 bytes.
    TooLong,
    /// The application's start threw or was stopped.
    StartFailed,
    /// The port could not be listened on.
    DoorFault,
}

impl Status {
    ghost use Rattle.mt_top.specs.Status.{number_of};

    /// The status's number, from 0 to 10.
    pub fn code(self) -> u8
        ensures { result ≡ number_of self }
    {
        self as u8
    }
}
