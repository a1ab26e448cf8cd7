//! The parts of an answer that only a cell has, in structs of the caller's: the frames that a station passed
//! up, and its BlockAck. Each function here shows the answer to the last call.

ghost use Rattle.std.specs.Prelude.{◌≡◌, ◌<◌, ℕ, true, is_some, slice_index, IfSome};
ghost use Rattle.wf_c.specs.CellAnswers.{ShowsIds, ShowsPassedUp, block_of};
ghost use Rattle.wf_c.specs.Pulled.{ShowsAggregate};

use crate::cell::slot::CellSlot;
use crate::pulled::Frames;
use wf_frame::{Answer, Brief, Ids};

/// The frames that a station passed up, in order: the first `count` ids.
#[repr(C)]
#[derive(Drop)]
pub struct PassedUp {
    /// The ids.
    pub ids: [u64; 256],
    /// The number of frames, at most 256.
    pub count: u16,
}

impl PassedUp {
    // Shows the ids that an answer passes up; otherwise sets the count to 0.
    fn show(&mut self, answer: &Answer)
        ensures { ShowsPassedUp self.new answer.now.brief answer.now.ids }
    {
        match answer.brief {
            Brief::Released | Brief::Ceased { .. } => self.show_ids(&answer.ids),
            _ => self.count = 0,
        }
    }

    // Shows these ids.
    fn show_ids(&mut self, ids: &Ids)
        ensures { ShowsIds self.new ids.now }
    {
        let count = ids.len();
        for i in 0..count {
            self.show_id(i, ids.at(i));
        }
        self.count = count as u16;
    }

    // Shows an id in entry `i`.
    fn show_id(&mut self, i: usize, id: u64)
        requires within { i < 256 }
        ensures put { slice_index self.new.ids i ≡ id }
        ensures others { (k : ℕ) → k < i → slice_index self.new.ids k ≡ slice_index self.old.ids k }
    {
        self.ids[i] = id;
    }
}

/// A station's BlockAck.
#[repr(C)]
#[derive(Clone, Copy)]
pub struct Block {
    /// Its bitmap. Bit 0 is the least significant bit of the first word, and bit `n` is for the number `n`
    /// after the start.
    pub bits: [u64; 4],
    /// The first number of the bitmap, 0 to 4095.
    pub start: u16,
    /// 1 if the bitmap has 256 bits, and 0 if it has 64.
    pub wide: u8,
}

impl Block {
    // The BlockAck of an answer; all 0 if it has none.
    fn of(brief: Brief) -> Block
        ensures { result ≡ block_of brief }
    {
        match brief {
            Brief::Ba {
                start,
                b0,
                b1,
                b2,
                b3,
                wide,
            } => Block {
                bits: [b0, b1, b2, b3],
                start,
                wide: u8::from(wide),
            },
            _ => Block {
                bits: [0, 0, 0, 0],
                start: 0,
                wide: 0,
            },
        }
    }
}

/// Shows the frames that the last call sends; if it sends none, their count is 0.
#[unsafe(no_mangle)]
pub extern "C" fn wf_cell_frames(cell: &mut CellSlot, frames: &mut Frames)
    requires open { is_some cell.old.value ≡ true }
    ensures frames { IfSome cell.old.value (λ h. ShowsAggregate frames.new h.answer.brief h.answer.pairs) }
    ensures unchanged { cell.new.value ≡ cell.old.value }
{
    frames.show(&cell.held().answer);
}

/// Shows the ids of the frames that a station passed up by the last call; if there are none, their count is
/// 0.
#[unsafe(no_mangle)]
pub extern "C" fn wf_cell_released(cell: &mut CellSlot, up: &mut PassedUp)
    requires open { is_some cell.old.value ≡ true }
    ensures ids { IfSome cell.old.value (λ h. ShowsPassedUp up.new h.answer.brief h.answer.ids) }
    ensures unchanged { cell.new.value ≡ cell.old.value }
{
    up.show(&cell.held().answer);
}

/// Shows the BlockAck that the last call was answered with; otherwise all fields are 0.
#[unsafe(no_mangle)]
pub extern "C" fn wf_cell_block(cell: &mut CellSlot, block: &mut Block)
    requires open { is_some cell.old.value ≡ true }
    ensures block { IfSome cell.old.value (λ h. block.new ≡ block_of h.answer.brief) }
    ensures unchanged { cell.new.value ≡ cell.old.value }
{
    *block = Block::of(cell.held().answer.brief);
}
