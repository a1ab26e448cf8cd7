ghost use Rattle.std.specs.Prelude.{◌≡◌, ℕ, ◌+◌, ◌*◌, ◌/◌, ◌%◌, ◌<◌, ◌≤◌, [], length, slice_index};
ghost use Rattle.std.specs.Int.{bit_at};
ghost use Rattle.wf_def_lists.specs.Table.{has, with_member, bits_word};
ghost use Rattle.wf_octets.specs.Offsets.{IsOffsets, moved_down, offsets_in};

use std::marker::Model;

/// A set of offsets from 0 to 255, as in the bitmap of a wide BlockAck.
#[derive(Clone, Copy, Debug, PartialEq, Eq)]
pub struct Bits256 {
    words: [u64; 4],
}

impl Model for Bits256 {
    ghost use Rattle.std.specs.Prelude.{◌≡◌, ℕ, List, [], ◌∷◌, ◌<◌, ◌^◌, length, slice_index};
    ghost use Rattle.wf_octets.specs.BitsView.{set_of, number_of_bits};
    ghost use Rattle.wf_def_lists.specs.Table.{bits_word};
    ghost use Rattle.wf_octets.specs.BitsInverse.{words_of_four};

    ghost Value = { List ℕ };

    ghost view = { λ b. set_of 256 (number_of_bits 64 b.words) };

    ghost inverse = { λ xs. record { words = bits_word 0 xs ∷ bits_word 1 xs ∷ bits_word 2 xs ∷ bits_word 3 xs ∷ [] } };

    ghost invariant = { λ b. (length b.words ≡ 4) × ((k : ℕ) → slice_index b.words k < 2 ^ 64) };

    ghost inverse_ok = { λ b kept i. record { words = words_of_four b.words kept.0 kept.1 i } };
}

impl Bits256 {
    /// Returns the empty set.
    pub fn empty() -> Bits256
        ensures { result ≡ [] }
    {
        Bits256 { words: [0; 4] }
    }

    /// Returns word `i` of the set: bit j is 1 if offset `64*i + j` is in the set.
    pub fn word(self, i: u8) -> u64
        requires { i < 4 }
        ensures word { result ≡ bits_word i self }
        ensures offsets { IsOffsets 256 self }
    {
        self.words[usize::from(i)]
    }

    /// Returns the number of offsets in the set.
    pub fn count(self) -> u16
        ensures { result ≡ length self }
    {
        let mut count = 0;
        for word in &self.words {
            count += word.count_ones() as u16;
        }
        count
    }

    /// Adds the offset `i` to the set.
    pub fn set(&mut self, i: u16)
        requires { i < 256 }
        ensures set { self.new ≡ with_member i self.old }
        ensures offsets { IsOffsets 256 self.new }
    {
        self.words[usize::from(i / 64)] |= 1 << (i % 64);
    }

    /// Returns whether the offset `i` is in the set.
    pub fn has(self, i: u16) -> bool
        requires { i < 256 }
        ensures { result ≡ has self i }
    {
        (self.words[usize::from(i / 64)] >> (i % 64)) & 1 == 1
    }

    /// Subtracts `n` from every offset. Offsets below `n` are removed.
    pub fn shift(&mut self, n: u16)
        requires { n ≤ 256 }
        ensures moved { self.new ≡ moved_down n self.old }
        ensures offsets { IsOffsets 256 self.new }
    {
        let words = self.words;
        let from = usize::from(n);
        self.words = [
            word_from(&words, from),
            word_from(&words, from + 64),
            word_from(&words, from + 128),
            word_from(&words, from + 192),
        ];
    }

    /// Returns the set as a bitmap: the least significant bit of the first octet is offset 0.
    pub fn to_octets(self) -> [u8; 32]
        ensures { offsets_in result ≡ self }
    {
        let mut octets = [0; 32];
        for (i, octet) in octets.iter_mut().enumerate() {
            *octet = self.words[i / 8].to_le_bytes()[i % 8];
        }
        octets
    }

    /// Returns the set that a bitmap represents.
    pub fn of_octets(octets: [u8; 32]) -> Bits256
        ensures shown { result ≡ offsets_in octets }
        ensures offsets { IsOffsets 256 result }
    {
        Bits256 {
            words: [
                word_at(&octets, 0),
                word_at(&octets, 8),
                word_at(&octets, 16),
                word_at(&octets, 24),
            ],
        }
    }
}

/// Returns the 64 bits from bit `from` on. Bits after the last word are 0.
fn word_from(words: &[u64; 4], from: usize) -> u64
    requires { from ≤ 448 }
    ensures { (i : ℕ) → i < 64 → bit_at result i
        ≡ bit_at (slice_index words.now ((i + from) / 64)) ((i + from) % 64) }
{
    let low = word_or_zero(words, from / 64) >> (from % 64);
    match from % 64 {
        0 => low,
        by => low | word_or_zero(words, from / 64 + 1) << (64 - by),
    }
}

/// Returns word `k`, or 0 after the last word.
fn word_or_zero(words: &[u64; 4], k: usize) -> u64
    ensures { result ≡ slice_index words.now k }
{
    words.get(k).copied().unwrap_or(0)
}

/// Returns the eight octets from octet `from` on as a word, the least significant octet first.
fn word_at(octets: &[u8; 32], from: usize) -> u64
    requires { from ≤ 24 }
    ensures { (i : ℕ) → i < 64 → bit_at result i ≡ bit_at (slice_index octets.now (from + i / 8)) (i % 8) }
{
    u64::from_le_bytes([
        octets[from],
        octets[from + 1],
        octets[from + 2],
        octets[from + 3],
        octets[from + 4],
        octets[from + 5],
        octets[from + 6],
        octets[from + 7],
    ])
}
