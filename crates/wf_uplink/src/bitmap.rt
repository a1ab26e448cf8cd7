//! The content of a BlockAck.

use wf_octets::bits::Bits256;
use wf_octets::seq12::Seq12;

/// The content of a BlockAck (IEEE 802.11-2012, 8.3.1.9).
#[derive(Clone, Copy, Debug, PartialEq, Eq)]
pub struct Bitmap {
    /// The first number.
    pub start: Seq12,
    /// How far past the first number each number is that arrived; below 64 if `wide` is false.
    pub bits: Bits256,
    /// The bitmap has 256 bits, since the window is above 64; otherwise it has 64.
    pub wide: bool,
}
