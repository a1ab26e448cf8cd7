//! What the access point knows of one TID besides its reordering.

ghost use Rattle.std.specs.Prelude.{◌≡◌, ◌≤◌, false, None};
ghost use Rattle.wf_recv_peer.specs.Board.{empty_board};
ghost use Rattle.wf_uplink.specs.Sides.{Agreed, Plain, unopened_side, is_plain_side, side_repeats, side_after, side_asked, agreed_board, bitmap_of};

use crate::bitmap::Bitmap;
use std::marker::Model;
use wf_frame::NARROW_WINDOW;
use wf_octets::seq12::Seq12;
use wf_recv_peer::is_repeat;
use wf_recv_peer::recipient::Score;

/// The scoreboard of a TID with an agreement, or, of one without, the number of the frame that was passed up
/// last.
#[derive(Drop)]
pub(crate) struct Side {
    plain: bool,
    score: Score,
    last: Option<Seq12>,
}

impl Model for Side {
    ghost use Rattle.wf_uplink.specs.Sides.{SideValue, side_in_memory};

    ghost Value = { SideValue };

    ghost view = { λ s. side_in_memory s.plain s.score s.last };
}

impl Side {
    /// Returns the side of a TID whose station is not open.
    pub(crate) fn new() -> Side
        ensures { result ≡ unopened_side }
    {
        Side {
            plain: false,
            score: Score::new(),
            last: None,
        }
    }

    /// Begins an agreement with first number `start` and a window of 1 to 256 numbers.
    pub(crate) fn agree(&mut self, start: Seq12, window: u16)
        requires { (1 ≤ window) × (window ≤ 256) }
        ensures { self.new ≡ Agreed (empty_board start window) }
    {
        self.plain = false;
        self.score.reset(start, window);
    }

    /// Begins without an agreement: no frame was passed up.
    pub(crate) fn begin_plain(&mut self)
        ensures { self.new ≡ Plain None }
    {
        self.plain = true;
        self.last = None;
    }

    /// Returns whether the TID has no agreement.
    pub(crate) fn is_plain(&self) -> bool
        ensures { result ≡ is_plain_side self.now }
    {
        self.plain
    }

    /// Returns whether a frame is a repeat, which only its number and its Retry bit tell; false under an
    /// agreement.
    pub(crate) fn repeats(&self, retry: bool, seq: Seq12) -> bool
        ensures { result ≡ side_repeats retry seq self.now }
    {
        self.plain && is_repeat(self.last, retry, seq)
    }

    /// Records the number of a frame.
    pub(crate) fn arrive(&mut self, seq: Seq12)
        ensures { self.new ≡ side_after seq self.old }
    {
        if self.plain {
            self.last = Some(seq);
        } else {
            self.score.arrive(seq);
        }
    }

    /// Moves the scoreboard to the start of a BlockAckReq, and returns the content of the BlockAck.
    pub(crate) fn ask(&mut self, start: Seq12) -> Bitmap
        requires { is_plain_side self.old ≡ false }
        ensures after { self.new ≡ side_asked start self.old }
        ensures bitmap { result ≡ bitmap_of (agreed_board self.new) }
    {
        self.score.bar(start);
        let (start, bits) = self.score.answer();
        Bitmap {
            start,
            bits,
            wide: self.score.size() > NARROW_WINDOW,
        }
    }
}
