//! One TID's block acknowledgement agreement, set up by messages (IEEE 802.11-2012, 9.21.2 and 9.21.4): both
//! ends, and the octets of the ADDBA request and response and of the DELBA.
//!
//! ```text
//! let mut originator = Offer::new(5, 0);                     // TID 5
//! let mut recipient = Accept::new(5, 64, 0);                 // windows of at most 64
//! let request = originator.ask(128, Seq12::of(500))?;
//! let response = recipient.hear(&request);                   // grants a window of 64
//! if let Some(response) = response {
//!     originator.hear(&response);
//! }
//! let agreed = originator.state();                           // token 1, window 64, start 500
//! ```
//!
//! `agreement_law` says that the two ends agree, however messages are lost, repeated or reordered, and
//! whichever end restarts. Each request has its own token, one above the last, so a TID can send 255 new
//! requests.
#![tactic(auto)]

mod accept;
mod action;
mod agreement;
mod decoding;
mod encoding;
mod event;
mod laws;
mod offer;

pub use accept::Accept;
pub use action::Action;
pub use agreement::Agreement;
pub use decoding::{ActionFault, decode_action};
pub use encoding::encode_action;
pub use event::Event;
pub use laws::{agreement_law, codec_law};
pub use offer::{Offer, OfferFault};
