ghost use Rattle.std.specs.Prelude.{◌≡◌};

use crate::bits::{Bits64, Bits256};
use crate::seq12::Seq12;

/// A BlockAckReq: asks for a BlockAck, and moves the recipient's window to `start`.
#[derive(Clone, Copy, Debug, PartialEq, Eq)]
pub struct Bar {
    /// The recipient's address.
    pub ra: [u8; 6],
    /// The transmitter's address.
    pub ta: [u8; 6],
    /// How long the medium is reserved after the frame, in microseconds.
    pub duration: u16,
    /// The traffic identifier, below 16.
    pub tid: u8,
    /// The first sequence number of the window.
    pub start: Seq12,
}

/// A BlockAck of 64 numbers.
#[derive(Clone, Copy, Debug, PartialEq, Eq)]
pub struct Ba {
    /// The recipient's address.
    pub ra: [u8; 6],
    /// The transmitter's address.
    pub ta: [u8; 6],
    /// How long the medium is reserved after the frame, in microseconds.
    pub duration: u16,
    /// The traffic identifier, below 16.
    pub tid: u8,
    /// The sequence number of offset 0.
    pub start: Seq12,
    /// The offsets from `start` of the numbers that arrived.
    pub bits: Bits64,
}

/// A BlockAck of 256 numbers.
#[derive(Clone, Copy, Debug, PartialEq, Eq)]
pub struct WideBa {
    /// The recipient's address.
    pub ra: [u8; 6],
    /// The transmitter's address.
    pub ta: [u8; 6],
    /// How long the medium is reserved after the frame, in microseconds.
    pub duration: u16,
    /// The traffic identifier, below 16.
    pub tid: u8,
    /// The sequence number of offset 0.
    pub start: Seq12,
    /// The offsets from `start` of the numbers that arrived.
    pub bits: Bits256,
}

/// The fields of a BlockAck of either form without the bitmap.
macro_rules! head_of {
    ($ba:expr) => {
        Bar {
            ra: $ba.ra,
            ta: $ba.ta,
            duration: $ba.duration,
            tid: $ba.tid,
            start: $ba.start,
        }
    };
}

impl Ba {
    ghost use Rattle.wf_octets.specs.BlockLayout.{head_of_ba};

    /// Returns the fields without the bitmap.
    pub(crate) fn head(&self) -> Bar
        ensures { result ≡ head_of_ba self.now }
    {
        head_of!(self)
    }
}

impl WideBa {
    ghost use Rattle.wf_octets.specs.BlockLayout.{head_of_wide};

    /// Returns the fields without the bitmap.
    pub(crate) fn head(&self) -> Bar
        ensures { result ≡ head_of_wide self.now }
    {
        head_of!(self)
    }
}
