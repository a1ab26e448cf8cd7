//! The receive half of one station (`Peer`). It handles all octets: `receive` takes octets off the air and
//! checks them. If a check fails, it returns the first that does and changes nothing. Otherwise the
//! scoreboard and the reordering buffer of the frame's traffic identifier (TID) handle its number or start.
//! `answer` writes the BlockAck of the scoreboard, with 256 bits for windows above 64 (IEEE 802.11-2012,
//! 9.21.7).
//!
//! ```text
//! let mut peer = Peer::new(alloc, own, base)?;
//! peer.reset(Seq12::of(500), 64);                  // each TID begins at 500 with a window of 64
//! let mut up = Ids::new();
//! let back = peer.receive(octets, id, &mut up)?;   // up: the ids that go up now, in order
//! let mut out = [0; 52];
//! let size = peer.answer(5, &mut out);             // the BlockAck of TID 5, 28 octets
//! ```
//!
//! The module `recipient` has the scoreboard and the reordering buffer of one agreement. When an agreement
//! ends, `Peer::end_tid` passes up what it stores. `PlainPeer` is the receive half for TIDs without an
//! agreement: it knows a repeated frame by its number and its Retry bit (9.3.2.10).
#![tactic(auto)]

mod agreement;
mod fault;
mod peer;
mod plain;
mod reading;
pub mod recipient;

pub use fault::PeerFault;
pub use peer::Peer;
pub use plain::{PlainPeer, is_repeat};
