//! The readers for a driver that looks into the queues: their octets, and the state of CoDel in each.

ghost use Rattle.std.specs.Prelude.{◌≡◌, ◌<◌, ℕ};
ghost use Rattle.wf_frame.specs.Frames.{FrameValue};
ghost use Rattle.wf_def_codel.specs.Codel.{octets};
ghost use Rattle.wf_def_world.specs.World.{World, queue};
ghost use Rattle.wf_queue_flows.specs.Flows.{queues};
ghost use Rattle.wf_send_half.specs.Half.{IsLive};
ghost use Rattle.wf_send_half.specs.Queued.{queue_count, octets_queued};
ghost use Rattle.wf_send_half_model.specs.Standing.{StandsFor};

use crate::Path;
use wf_queue_flows::codel::Codel;

impl Path {
    /// Returns the octets of the bodies that a live station's TID, 0 to 7, has in the queues. It looks at
    /// each queue once.
    pub fn octets(&self, station: u16, tid: u8) -> u64
        requires live { IsLive self.now.half station }
        requires tid { tid < 8 }
        ensures { (w : World) (bodies : ℕ → FrameValue) → StandsFor self.now.half w bodies →
            result ≡ octets_queued w station tid }
    {
        self.half.octets(station, tid)
    }

    /// Returns the number of queues, which are numbered from 0: as many as the setting `flows` are shared,
    /// and then each TID has an overflow queue, by 8 times its station plus the TID. A frame goes to the
    /// queue of its flow's number modulo `flows`, or else to the overflow queue of its TID (`Flows::put`).
    pub fn queues(&self) -> u32
        ensures value { result ≡ queues self.now.half.flows }
        ensures world { (w : World) (bodies : ℕ → FrameValue) → StandsFor self.now.half w bodies →
            result ≡ queue_count w }
    {
        self.half.queues()
    }

    /// Returns the octets of the bodies in a queue.
    pub fn octets_of(&self, q: u32) -> u64
        requires { q < queues self.now.half.flows }
        ensures { (w : World) (bodies : ℕ → FrameValue) → StandsFor self.now.half w bodies →
            result ≡ octets (queue w q).items }
    {
        self.half.octets_of(q)
    }

    /// Returns the state of CoDel in a queue (RFC 8289). It stays when the queue is empty, and when no TID
    /// lists the queue.
    pub fn codel(&self, q: u32) -> Codel
        requires { q < queues self.now.half.flows }
        ensures { (w : World) (bodies : ℕ → FrameValue) → StandsFor self.now.half w bodies →
            result ≡ (queue w q).codel }
    {
        self.half.codel(q)
    }

    /// Returns the number of frames that CoDel dropped from a queue since the start, for whichever stations
    /// used it. It stays at 4,294,967,295 once it is there. Frames that are dropped for another cause, such
    /// as the limit, do not count.
    pub fn codel_drops(&self, q: u32) -> u32
        requires { q < queues self.now.half.flows }
        ensures { (w : World) (bodies : ℕ → FrameValue) → StandsFor self.now.half w bodies →
            result ≡ (queue w q).codel.dropped }
    {
        self.half.codel_drops(q)
    }
}
