//! Functions that report what the queues of a transmit half hold, in octets, and the state of CoDel in them.

ghost use Rattle.std.specs.Prelude.{◌≡◌, ◌<◌, ℕ};
ghost use Rattle.wf_frame.specs.Classes.{tid_number};
ghost use Rattle.wf_frame.specs.Frames.{FrameValue};
ghost use Rattle.wf_def_codel.specs.Codel.{octets};
ghost use Rattle.wf_def_world.specs.World.{World, queue};
ghost use Rattle.wf_queue_flows.specs.Flows.{queues, octets_of_tid};
ghost use Rattle.wf_send_half_model.specs.Standing.{StandsFor};
ghost use Rattle.wf_send_half.specs.Queued.{queue_count, octets_queued};

use crate::Transmit;
use wf_queue_flows::codel::Codel;

impl Transmit {
    /// Returns the octets of the bodies that a TID has in the queues. The station's number is below the
    /// setting `stations`. No count of them is kept: a call asks of each queue whether the TID lists it, in
    /// `flows` + 8 * `stations` steps, however many frames wait.
    pub fn octets(&self, station: u16, tid: u8) -> u64
        requires within { station < self.now.config.stations }
        requires tid { tid < 8 }
        ensures value { result ≡ octets_of_tid self.now.flows (tid_number station tid) }
        ensures world { (w : World) (bodies : ℕ → FrameValue) → StandsFor self.now w bodies →
            result ≡ octets_queued w station tid }
    {
        self.half.flows.octets(station, tid)
    }

    /// Returns the number of queues, which are numbered from 0: as many as the setting `flows` are shared,
    /// and then each TID has an overflow queue, by 8 times its station plus the TID.
    pub fn queues(&self) -> u32
        ensures value { result ≡ queues self.now.flows }
        ensures world { (w : World) (bodies : ℕ → FrameValue) → StandsFor self.now w bodies →
            result ≡ queue_count w }
    {
        self.half.flows.queues()
    }

    /// Returns the octets of the bodies in a queue.
    pub fn octets_of(&self, q: u32) -> u64
        requires { q < queues self.now.flows }
        ensures { (w : World) (bodies : ℕ → FrameValue) → StandsFor self.now w bodies →
            result ≡ octets (queue w q).items }
    {
        self.half.flows.octets_of(q)
    }

    /// Returns the state of CoDel in a queue. It stays when the queue is empty, and when no TID lists the
    /// queue.
    pub fn codel(&self, q: u32) -> Codel
        requires { q < queues self.now.flows }
        ensures { (w : World) (bodies : ℕ → FrameValue) → StandsFor self.now w bodies →
            result ≡ (queue w q).codel }
    {
        self.half.flows.codel_of(q)
    }

    /// Returns the number of frames that CoDel dropped from a queue since the start. It stays at
    /// 4,294,967,295 once it is there.
    pub fn codel_drops(&self, q: u32) -> u32
        requires { q < queues self.now.flows }
        ensures { (w : World) (bodies : ℕ → FrameValue) → StandsFor self.now w bodies →
            result ≡ (queue w q).codel.dropped }
    {
        self.codel(q).dropped()
    }
}
