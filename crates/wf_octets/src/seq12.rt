//! Sequence numbers of 12 bits.
//!
//! A station numbers the frames of one TID 0, 1, 2 and so on, and sends each number modulo 4096 (IEEE
//! 802.11-2012, 8.2.4.4.2). Two 12-bit numbers are compared by their distance modulo 4096. If the whole
//! numbers differ by at most 2047, this is the comparison of the whole numbers.

ghost use Rattle.std.specs.Prelude.{◌≡◌, ℕ, ◌+◌, ◌%◌, ◌<◌, ◌≤◌, IsTrue, ◌↔◌};
ghost use Rattle.wf_octets.specs.Distance.{distance, TwelveBitsStandFor};

use std::marker::Model;

/// A sequence number from 0 to 4095, which represents every whole number that is equal to it modulo 4096.
#[derive(Clone, Copy, Debug, Default, PartialEq, Eq)]
pub struct Seq12 {
    number: u16,
}

impl Model for Seq12 {
    ghost use Rattle.std.specs.Prelude.{ℕ, ◌<◌};

    ghost Value = { ℕ };

    ghost view = { λ s. s.number };

    ghost inverse = { λ n. record { number = n } };

    ghost invariant = { λ s. s.number < 4096 };
}

impl Seq12 {
    /// Returns the 12-bit number of the whole number `n`.
    pub fn of(n: u64) -> Seq12
        ensures { TwelveBitsStandFor result n }
    {
        Seq12 {
            number: (n % 4096) as u16,
        }
    }

    /// Returns the number, 0 to 4095.
    pub fn raw(self) -> u16
        ensures number { result ≡ self }
        ensures range { result < 4096 }
    {
        self.number
    }

    /// Returns the number `n` after this one, modulo 4096.
    pub fn plus(self, n: u16) -> Seq12
        ensures number { result ≡ (self + n) % 4096 }

        // for whole numbers
        ensures whole { (s : ℕ) → TwelveBitsStandFor self s → TwelveBitsStandFor result (s + n) }
    {
        Seq12 {
            number: ((u32::from(self.number) + u32::from(n)) % 4096) as u16,
        }
    }

    /// Returns the distance from `base` to this number, modulo 4096: 0 to 4095.
    pub fn ahead(self, base: Seq12) -> u16
        ensures number { result ≡ distance self base }
        ensures range { result < 4096 }

        // for whole numbers; it is their difference if that is 0 to 4095
        ensures whole { (n b : ℕ) → TwelveBitsStandFor self n → TwelveBitsStandFor base b → result ≡ distance n b }
        ensures near { (n b : ℕ) → TwelveBitsStandFor self n → TwelveBitsStandFor base b → b ≤ n → n < b + 4096 → b + result ≡ n }
    {
        (self.number + 4096 - base.number) % 4096
    }

    /// Returns whether this number is among the `size` numbers from `start` on.
    pub fn in_window(self, start: Seq12, size: u16) -> bool
        requires { (1 ≤ size) × (size ≤ 2048) }
        ensures number { IsTrue result ↔ (distance self start < size) }

        // for whole numbers that differ by at most 2047
        ensures whole { (n b : ℕ) → TwelveBitsStandFor self n → TwelveBitsStandFor start b → n ≤ b + 2047 → b ≤ n + 2047 →
            IsTrue result ↔ ((b ≤ n) × (n < b + size)) }
    {
        self.ahead(start) < size
    }

    /// Returns whether this number is 1 to 2047 after `base`.
    pub fn is_newer(self, base: Seq12) -> bool
        ensures number { IsTrue result ↔ ((1 ≤ distance self base) × (distance self base ≤ 2047)) }

        // for whole numbers that differ by at most 2047
        ensures whole { (n b : ℕ) → TwelveBitsStandFor self n → TwelveBitsStandFor base b → n ≤ b + 2047 → b ≤ n + 2047 →
            IsTrue result ↔ (b < n) }
    {
        let distance = self.ahead(base);
        (1..=2047).contains(&distance)
    }
}
