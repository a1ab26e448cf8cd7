//! Converts a bitmap of 64 bits to one of 256.

ghost use Rattle.std.specs.Prelude.{◌≡◌};

use wf_octets::bits::{Bits64, Bits256};

/// Returns a bitmap of 256 bits with the same offsets as this one of 64, which is the bitmap of a compressed
/// BlockAck (IEEE 802.11-2012, 8.3.1.9.3).
pub fn widened(bits: Bits64) -> Bits256
    ensures { result ≡ bits }
{
    let mut octets = [0; 32];
    octets[..8].copy_from_slice(&bits.to_octets());
    Bits256::of_octets(octets)
}
