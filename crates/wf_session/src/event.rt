//! The events of an agreement.

use wf_octets::seq12::Seq12;

/// An event at one of the two ends of an agreement. Each message that was ever sent can arrive at any time,
/// any number of times or never.
#[derive(Clone, Copy, Debug, PartialEq, Eq)]
pub enum Event {
    /// The originator requests an agreement.
    Ask {
        /// The requested window, 1 to 256.
        window: u16,
        /// The first number of the window.
        start: Seq12,
    },
    /// The originator repeats its last request.
    Again,
    /// The recipient's message with this number, counted from 0, arrives at the originator.
    ToOriginator(u32),
    /// The originator's message with this number, counted from 0, arrives at the recipient.
    ToRecipient(u32),
    /// The originator ends the agreement.
    CloseOriginator,
    /// The recipient ends the agreement.
    CloseRecipient,
    /// The originator loses its state, except its last token.
    RestartOriginator,
    /// The recipient loses its state, except its limit and its last token.
    RestartRecipient,
}
