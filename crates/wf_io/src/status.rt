//! How a command ends.

ghost use Rattle.std.specs.Prelude.{◌≡◌};
ghost use Rattle.wf_io.specs.Statuses.{status_code};

/// The outcome of a command.
#[derive(Clone, Copy, Debug, PartialEq, Eq)]
pub enum Status {
    /// The whole output was written.
    Done = 0,
    /// The arguments are not a command.
    Usage = 1,
    /// The input has a fault; the output before it and the fault line were written.
    BadTrace = 2,
    /// A read failed.
    ReadFault = 3,
    /// A write failed.
    WriteFault = 4,
    /// Memory ran out.
    NoMemory = 5,
}

impl Status {
    /// Returns the program's exit status, 0 to 5.
    pub fn code(self) -> u8
        ensures { result ≡ status_code self }
    {
        self as u8
    }

    /// Returns the line that the program writes to standard error, without its end. It is empty if standard
    /// output says everything.
    pub fn message(self) -> &'static str {
        match self {
            Status::Done | Status::BadTrace => "",
            Status::Usage => {
                "usage: wf replay | wf soak SEED CALLS | wf live SEED SENDERS FRAMES | wf session | wf replay --pcap | wf frames | wf uplink"
            }
            Status::ReadFault => "wf: read fault",
            Status::WriteFault => "wf: write fault",
            Status::NoMemory => "wf: no memory",
        }
    }
}
