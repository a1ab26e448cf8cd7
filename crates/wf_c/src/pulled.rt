//! The frames of an exchange, in a struct of the caller's.

ghost use Rattle.std.specs.Prelude.{◌≡◌, ◌<◌, ℕ};
ghost use Rattle.wf_c.specs.Numbers.{is_batch_kind};
ghost use Rattle.wf_c.specs.Pulled.{ShowsPair, ShowsPairs, ShowsAggregate, pair_shown, pairs_shown};

use wf_frame::{Answer, Brief, Kind, Pairs};

/// The frames of an exchange: the first `count` ids and sequence numbers. Those of a batch have no sequence
/// numbers: these are 0.
#[repr(C)]
#[derive(Drop)]
pub struct Frames {
    /// The ids.
    pub ids: [u64; 256],
    /// The sequence numbers, 0 to 4095.
    pub numbers: [u16; 256],
    /// The number of frames, at most 256.
    pub count: u16,
}

impl Frames {
    // Shows the frames of an answer that sends some; otherwise sets the count to 0.
    pub(crate) fn show(&mut self, answer: &Answer)
        ensures { ShowsAggregate self.new answer.now.brief answer.now.pairs }
    {
        match answer.brief {
            Brief::Send {
                request: None,
                kind,
                ..
            } => self.show_pairs(&answer.pairs, is_batch(kind)),
            _ => self.count = 0,
        }
    }

    // Shows these frames; those of a batch without their numbers.
    fn show_pairs(&mut self, pairs: &Pairs, batch: bool)
        ensures { ShowsPairs self.new (pairs_shown batch pairs.now) }
    {
        let count = pairs.len();
        for i in 0..count {
            self.show_pair(i, pair_shown(batch, pairs.at(i)));
        }
        self.count = count as u16;
    }

    // Shows a frame in entry `i`.
    fn show_pair(&mut self, i: usize, pair: (u64, u16))
        requires within { i < 256 }
        ensures put { ShowsPair self.new i pair }
        ensures others { (k : ℕ) (p : ℕ × ℕ) → k < i → ShowsPair self.old k p → ShowsPair self.new k p }
    {
        self.ids[i] = pair.0;
        self.numbers[i] = pair.1;
    }
}

// Returns whether the device numbers the frames of an exchange.
fn is_batch(kind: Kind) -> bool
    ensures { result ≡ is_batch_kind kind }
{
    matches!(kind, Kind::Batch)
}

// Returns the id and the number of a frame, or 0 for the number of a frame of a batch.
fn pair_shown(batch: bool, pair: (u64, u16)) -> (u64, u16)
    ensures { result ≡ pair_shown batch pair }
{
    if batch { (pair.0, 0) } else { pair }
}
