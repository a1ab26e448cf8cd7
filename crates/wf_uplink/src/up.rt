//! What a call of the uplink reports.

ghost use Rattle.std.specs.Prelude.{◌≡◌};
ghost use Rattle.wf_uplink.specs.Shown.{nothing_up};

use crate::Items;

/// The result of a frame, a BlockAckReq or a timeout. It has about 8 kB, so a caller makes one and lends it
/// to each call.
#[derive(Drop)]
pub struct Up {
    /// The station that sent the frames.
    pub station: u16,
    /// The TID, 0 to 7.
    pub tid: u8,
    /// The charge for the frame or the request, in microseconds; 0 for a timeout.
    pub air: u32,
    /// The frame is old: its number was passed before, or is stored already.
    pub old: bool,
    /// An Ack answers the frame, since its TID has no agreement.
    pub ack: bool,
    /// The released frames and the gaps, in the order of their numbers.
    pub items: Items,
}

impl Up {
    /// Returns one without items, in which all numbers are 0.
    pub fn new() -> Up
        ensures { result ≡ nothing_up }
    {
        Up {
            station: 0,
            tid: 0,
            air: 0,
            old: false,
            ack: false,
            items: Items::new(),
        }
    }
}

/// The number of accepted frames, by what became of them: `frames` is the sum of `up`, `old` and `held`.
#[derive(Clone, Copy, Debug, PartialEq, Eq)]
pub struct Totals {
    /// Accepted frames.
    pub frames: u64,
    /// Released frames.
    pub up: u64,
    /// Old frames.
    pub old: u64,
    /// Stored frames.
    pub held: u64,
    /// Sequence numbers that were given up.
    pub missing: u64,
}
