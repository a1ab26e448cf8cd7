//! The events of a script.

use crate::uplink::frame::Frame;
use wf_air::time::Rate;

/// An event at the access point.
#[derive(Clone, Copy)]
pub enum Event {
    /// A station is opened.
    Open {
        /// The station's number.
        station: u16,
        /// The window of each of its TIDs, in sequence numbers.
        window: u16,
        /// The first sequence number of each of its TIDs.
        start: u16,
    },
    /// A station is opened whose TIDs have no agreement.
    Plain {
        /// The station's number.
        station: u16,
    },
    /// The rate of a station is set.
    Rate {
        /// The station's number.
        station: u16,
        /// The rate at which it sends from now on.
        rate: Rate,
    },
    /// Time passes.
    Tick {
        /// The time in microseconds, at most 10,000,000.
        by: u32,
    },
    /// A frame is received.
    Frame(Frame),
    /// A BlockAckReq is received.
    Bar(Frame),
}
