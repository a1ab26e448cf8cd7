//! The recipient's scoreboard: which numbers of the window arrived (IEEE 802.11-2012, 9.21.7.3 to 9.21.7.5).
//! It accepts every sequence of numbers, also with jumps.

ghost use Rattle.std.specs.Prelude.{◌≡◌, ◌≤◌, ◌<◌};
ghost use Rattle.wf_octets.specs.Offsets.{IsOffsets};
ghost use Rattle.wf_recv_peer.specs.Board.{empty_board, with_start_moved, after_number, after_start};

use std::marker::Model;
use wf_octets::bits::Bits256;
use wf_octets::seq12::Seq12;

/// The scoreboard of one agreement: a window of 1 to 256 numbers from a start on, and which of them arrived.
#[derive(Drop)]
pub struct Score {
    start: Seq12,
    size: u16,
    bits: Bits256,
}

impl Model for Score {
    ghost use Rattle.std.specs.Prelude.{◌≤◌};
    ghost use Rattle.wf_octets.specs.Offsets.{IsOffsets};
    ghost use Rattle.wf_recv_peer.specs.Board.{Board};

    ghost Value = { Board };

    ghost view = { λ s. record { start = s.start; size = s.size; offsets = s.bits } };

    ghost invariant = { λ s. (1 ≤ s.size) × (s.size ≤ 256) × IsOffsets s.size s.bits };
}

impl Score {
    /// Creates the scoreboard of a window of 256 numbers from 0 on, of which none arrived.
    pub fn new() -> Score
        ensures { result ≡ empty_board 0 256 }
    {
        Score {
            start: Seq12::of(0),
            size: 256,
            bits: Bits256::empty(),
        }
    }

    /// Begins a new agreement with first number `start` and a window of `size`, 1 to 256.
    pub fn reset(&mut self, start: Seq12, size: u16)
        requires { (1 ≤ size) × (size ≤ 256) }
        ensures { self.new ≡ empty_board start size }
    {
        self.start = start;
        self.size = size;
        self.bits = Bits256::empty();
    }

    /// Records a number that arrived.
    pub fn arrive(&mut self, seq: Seq12)
        ensures { self.new ≡ after_number seq self.old }
    {
        let ahead = seq.ahead(self.start);
        if seq.in_window(self.start, self.size) {
            self.bits.set(ahead);
        } else if seq.is_newer(self.start) {
            self.move_on(ahead + 1 - self.size);
            self.bits.set(self.size - 1);
        }
    }

    /// Handles the start of a BlockAckReq that arrived.
    pub fn bar(&mut self, start: Seq12)
        ensures { self.new ≡ after_start start self.old }
    {
        if start.is_newer(self.start) {
            self.move_on(start.ahead(self.start));
        }
    }

    /// Returns the content of a BlockAck: the start of the window, and how far past it each arrived number
    /// is.
    pub fn answer(&self) -> (Seq12, Bits256)
        ensures start { result.0 ≡ self.now.start }
        ensures bits { result.1 ≡ self.now.offsets }
        ensures within { IsOffsets self.now.size result.1 }
    {
        (self.start, self.bits)
    }

    /// Returns the size of the window, 1 to 256.
    pub fn size(&self) -> u16
        ensures size { result ≡ self.now.size }
        ensures least { 1 ≤ result }
        ensures most { result ≤ 256 }
    {
        self.size
    }

    fn move_on(&mut self, places: u16)
        ensures { self.new ≡ with_start_moved places self.old }
    {
        self.start = self.start.plus(places);
        self.bits.shift(places.min(256));
    }
}
