//! The messages about an agreement.

use wf_octets::seq12::Seq12;

/// A message about an agreement, which is a block acknowledgement action frame (IEEE 802.11-2012, 8.5.5).
#[derive(Clone, Copy, Debug, PartialEq, Eq)]
pub enum Action {
    /// ADDBA request: the originator requests an agreement.
    Request {
        /// The dialog token, which the response repeats.
        token: u8,
        /// The TID, below 8.
        tid: u8,
        /// The requested window; 0 leaves it to the recipient.
        window: u16,
        /// The first number of the window.
        start: Seq12,
    },
    /// ADDBA response: the recipient's answer.
    Response {
        /// The request's dialog token.
        token: u8,
        /// 0 if the agreement is made.
        status: u16,
        /// The TID, below 8.
        tid: u8,
        /// The window of the agreement.
        window: u16,
    },
    /// DELBA: ends the agreement.
    Teardown {
        /// The TID, below 8.
        tid: u8,
        /// Whether the originator sent it, and not the recipient.
        initiator: bool,
        /// The reason code.
        reason: u16,
    },
}
