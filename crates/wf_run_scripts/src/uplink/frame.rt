//! The octets of a line `frame` or `bar`.

ghost use Rattle.std.specs.Prelude.{◌≡◌};
ghost use Rattle.std.specs.List.{list_all};
ghost use Rattle.wf_run_scripts.specs.UplinkOctets.{is_lower_digit, octets_of_word};

use hex::decode_to_slice;
use std::marker::Model;

/// The most octets in a line.
const MOST: usize = 50;

/// The octets of a received frame or BlockAckReq, at most 50.
#[derive(Clone, Copy)]
pub struct Frame {
    octets: [u8; MOST],
    size: usize,
}

impl Model for Frame {
    ghost use Rattle.std.specs.Prelude.{◌≡◌, ◌≤◌, ℕ, List, take, length};
    ghost use Rattle.std.proofs.Common.{sym};
    ghost use Rattle.wf_run_scripts.specs.UplinkOctets.{padded_octets};

    ghost Value = { List ℕ };

    ghost view = { λ f. take f.size f.octets };

    // the unused places are 0
    ghost invariant = { λ f. (f.octets ≡ padded_octets (take f.size f.octets)) ×
        (length (take f.size f.octets) ≡ f.size) × (f.size ≤ 50) };

    ghost inverse = { λ octets. record { octets = padded_octets octets; size = length octets } };

    ghost inverse_ok = { λ f h i. record { octets = sym h.0 i; size = h.1 i } };
}

/// Returns whether all octets are hexadecimal digits without capital letters.
fn are_lower_digits(word: &[u8]) -> bool
    ensures { result ≡ list_all is_lower_digit word.now }
{
    word.iter().all(|octet| (b'0' <= *octet && *octet <= b'9')
        || (b'a' <= *octet && *octet <= b'f'))
}

impl Frame {
    /// Returns the octets that a word encodes: 2 to 100 hexadecimal digits without capital letters, an even
    /// number of them. Returns `None` for any other word.
    pub fn read(word: &[u8]) -> Option<Frame>
        ensures { result ≡ octets_of_word word.now }
    {
        if word.len() < 2 || word.len() > 2 * MOST || !are_lower_digits(word) {
            return None;
        }
        let size = word.len() / 2;
        let mut octets = [0; MOST];
        match decode_to_slice(word, &mut octets[..size]) {
            Ok(()) => Some(Frame { octets, size }),
            Err(_) => None,
        }
    }

    /// Returns the octets.
    pub fn octets(&self) -> &[u8]
        ensures { result.now ≡ self.now }
    {
        &self.octets[..self.size]
    }
}
