//! The faults of a capture.

ghost use Rattle.std.specs.Prelude.{◌≡◌, ◌≤◌, length};
ghost use Rattle.wf_report.specs.ListedPackets.{kind_of};
ghost use Rattle.wf_report.specs.ListingLines.{kind_word};

use wf_io::pcap::PcapFault;

/// The kinds of faults of a capture.
#[derive(Clone, Copy)]
pub enum FaultKind {
    /// The input ends inside a header or a packet.
    Short,
    /// The file does not begin with a magic number.
    Magic,
    /// The version is not 2.4.
    Version,
    /// The link type is not 105.
    Link,
    /// More than 262,144 octets of a packet were captured.
    Long,
    /// A header or a packet goes beyond the first 1,099,511,627,776 octets, and so does the input.
    TooBig,
}

/// The first fault of a capture.
#[derive(Clone, Copy)]
pub struct Fault {
    /// The number of the packet, counted from 1; 0 is the file header.
    pub packet: u64,
    /// The kind of the fault.
    pub kind: FaultKind,
}

impl FaultKind {
    /// Returns the kind of a header's fault.
    pub(crate) fn of(fault: PcapFault) -> FaultKind
        ensures { result ≡ kind_of fault }
    {
        match fault {
            PcapFault::Short { .. } => FaultKind::Short,
            PcapFault::Magic => FaultKind::Magic,
            PcapFault::Version { .. } => FaultKind::Version,
            PcapFault::Link(_) => FaultKind::Link,
            PcapFault::Long { .. } => FaultKind::Long,
        }
    }

    /// Returns the word of the kind.
    pub(crate) fn word(self) -> &'static [u8]
        ensures word { result.now ≡ kind_word self }
        ensures short { length result.now ≤ 7 }
    {
        match self {
            FaultKind::Short => b"short",
            FaultKind::Magic => b"magic",
            FaultKind::Version => b"version",
            FaultKind::Link => b"link",
            FaultKind::Long => b"long",
            FaultKind::TooBig => b"too-big",
        }
    }
}
