//! The readers for a driver that begins or ends an agreement: which numbers of a TID are not settled yet.

ghost use Rattle.std.specs.Prelude.{◌≡◌, ◌<◌, ℕ, length};
ghost use Rattle.wf_frame.specs.Frames.{FrameValue};
ghost use Rattle.wf_def_world.specs.World.{World, session};
ghost use Rattle.wf_send_parts.specs.Flying.{flying_numbers, is_drained};
ghost use Rattle.wf_send_half.specs.Half.{IsLive};
ghost use Rattle.wf_send_half_model.specs.Standing.{StandsFor};

use crate::Path;

impl Path {
    /// Returns how many sequence numbers of a live station's TID, 0 to 7, are on the air, in open exchanges.
    /// It looks at each number from the first that is not settled on.
    pub fn flying(&self, station: u16, tid: u8) -> u32
        requires live { IsLive self.now.half station }
        requires tid { tid < 8 }
        ensures { (w : World) (bodies : ℕ → FrameValue) → StandsFor self.now.half w bodies →
            result ≡ length (flying_numbers (session w station tid)) }
    {
        self.half.window(station, tid).flying_count()
    }

    /// Returns whether each sequence number of a live station's TID, 0 to 7, is settled, that is acknowledged
    /// or failed: then none waits to be sent or is on the air, and an agreement can begin (IEEE 802.11-2012,
    /// 10.5.2). Constant time.
    pub fn drained(&self, station: u16, tid: u8) -> bool
        requires live { IsLive self.now.half station }
        requires tid { tid < 8 }
        ensures { (w : World) (bodies : ℕ → FrameValue) → StandsFor self.now.half w bodies →
            result ≡ is_drained (session w station tid) }
    {
        self.half.window(station, tid).is_drained()
    }
}
