//! The frames of block acknowledgement: BlockAckReq and BlockAck (IEEE 802.11-2012, 8.3.1.8, 8.3.1.9 and
//! 9.21), and the BlockAck of 256 numbers (IEEE 802.11ax-2021, 9.3.1.8.2).
//!
//! Writers write the layout with reserved bits 0. Readers return Ok exactly for octets of the layout, and
//! otherwise the first fault.

mod decoding;
mod encoding;
mod frames;

pub use decoding::{BlockFault, decode_ba, decode_bar, decode_wide};
pub use encoding::{encode_ba, encode_bar, encode_wide};
pub use frames::{Ba, Bar, WideBa};
