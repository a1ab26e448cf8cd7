//! Sets of offsets in 64 and 256 bits, as the bitmap of a BlockAck has them.
//!
//! Contracts see a set as the rising list of its offsets. Bit j of a word is offset j; in octets, the least
//! significant bit of the first octet is offset 0 (IEEE 802.11-2012, 8.3.1.9.3).

mod bits256;
mod bits64;

pub use bits64::Bits64;
pub use bits256::Bits256;
