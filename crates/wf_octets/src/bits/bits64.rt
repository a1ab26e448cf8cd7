ghost use Rattle.std.specs.Prelude.{◌≡◌, ◌<◌, ◌≤◌, [], length};
ghost use Rattle.wf_def_lists.specs.Table.{has, with_member, bits_word};
ghost use Rattle.wf_octets.specs.Offsets.{IsOffsets, moved_down, offsets_in};

use std::marker::Model;

/// A set of offsets from 0 to 63, as in the bitmap of a BlockAck.
#[derive(Clone, Copy, Debug, PartialEq, Eq)]
pub struct Bits64 {
    word: u64,
}

impl Model for Bits64 {
    ghost use Rattle.std.specs.Prelude.{ℕ, List, ◌<◌, ◌^◌};
    ghost use Rattle.wf_octets.specs.BitsView.{set_of};
    ghost use Rattle.wf_def_lists.specs.Table.{bits_word};
    ghost use Rattle.wf_octets.specs.BitsInverse.{word_of_one};

    ghost Value = { List ℕ };

    ghost view = { λ b. set_of 64 b.word };

    ghost inverse = { λ xs. record { word = bits_word 0 xs } };

    ghost invariant = { λ b. b.word < 2 ^ 64 };

    ghost inverse_ok = { λ b small i. record { word = word_of_one b.word small i } };
}

impl Bits64 {
    /// Returns the empty set.
    pub fn empty() -> Bits64
        ensures { result ≡ [] }
    {
        Bits64 { word: 0 }
    }

    /// Returns the set as a word: bit j is 1 if offset j is in the set.
    pub fn word(self) -> u64
        ensures word { result ≡ bits_word 0 self }
        ensures offsets { IsOffsets 64 self }
    {
        self.word
    }

    /// Returns the number of offsets in the set.
    pub fn count(self) -> u8
        ensures { result ≡ length self }
    {
        self.word.count_ones() as u8
    }

    /// Adds the offset `i` to the set.
    pub fn set(&mut self, i: u8)
        requires { i < 64 }
        ensures set { self.new ≡ with_member i self.old }
        ensures offsets { IsOffsets 64 self.new }
    {
        self.word |= 1 << i;
    }

    /// Returns whether the offset `i` is in the set.
    pub fn has(self, i: u8) -> bool
        requires { i < 64 }
        ensures { result ≡ has self i }
    {
        (self.word >> i) & 1 == 1
    }

    /// Subtracts `n` from every offset. Offsets below `n` are removed.
    pub fn shift(&mut self, n: u8)
        requires { n ≤ 64 }
        ensures moved { self.new ≡ moved_down n self.old }
        ensures offsets { IsOffsets 64 self.new }
    {
        self.word = if n < 64 { self.word >> n } else { 0 };
    }

    /// Returns the set as a bitmap: the least significant bit of the first octet is offset 0.
    pub fn to_octets(self) -> [u8; 8]
        ensures { offsets_in result ≡ self }
    {
        self.word.to_le_bytes()
    }

    /// Returns the set that a bitmap represents.
    pub fn of_octets(octets: [u8; 8]) -> Bits64
        ensures shown { result ≡ offsets_in octets }
        ensures offsets { IsOffsets 64 result }
    {
        Bits64 {
            word: u64::from_le_bytes(octets),
        }
    }
}
