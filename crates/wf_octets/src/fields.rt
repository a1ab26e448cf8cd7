//! Fields of frames on the air: numbers of two octets, the low octet first, addresses of six octets, and
//! single bits (IEEE 802.11-2012, 8.2.2).

ghost use Rattle.std.specs.Prelude.{◌≡◌, ℕ, ◌+◌, ◌<◌, ◌≤◌, ◌++◌, length, take, drop};
ghost use Rattle.wf_octets.specs.Fields.{is_set, number_at, part, two_octets};

use byteorder::{ByteOrder, LittleEndian};

/// Returns the number in the two octets at `place`.
pub fn number_at(octets: &[u8], place: usize) -> u16
    requires { place + 2 ≤ length octets.now }
    ensures { result ≡ number_at octets.now place }
{
    LittleEndian::read_u16(&octets[place..])
}

/// Returns the address in the six octets at `place`.
pub fn address_at(octets: &[u8], place: usize) -> [u8; 6]
    requires { place + 6 ≤ length octets.now }
    ensures { result ≡ part octets.now place 6 }
{
    let mut address = [0; 6];
    address.copy_from_slice(&octets[place..place + 6]);
    address
}

/// Returns whether bit `k` of an octet is 1. Bit 0 is the least significant.
pub fn is_set(octet: u8, k: u32) -> bool
    requires { k < 8 }
    ensures { result ≡ is_set octet k }
{
    (octet >> k) & 1 == 1
}

/// Returns a number as two octets, the low one first.
pub fn two_octets(n: u16) -> [u8; 2]
    ensures octets { result ≡ two_octets n }
    ensures read_back { number_at (two_octets n) 0 ≡ n }
{
    let mut octets = [0; 2];
    LittleEndian::write_u16(&mut octets, n);
    octets
}

/// Writes a field at `place`, and returns the place after it.
pub fn put(out: &mut [u8], place: usize, field: &[u8]) -> usize
    requires { place + length field.now ≤ length out.old }
    ensures place { result ≡ place + length field.now }
    ensures up_to_it { take result out.new ≡ take place out.old ++ field.now }
    ensures past_it { (k : ℕ) → result ≤ k → drop k out.new ≡ drop k out.old }
{
    let end = place + field.len();
    out[place..end].copy_from_slice(field);
    end
}
