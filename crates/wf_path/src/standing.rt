//! The readers for a driver before a pull: whether there is something to send, and how much.

ghost use Rattle.std.specs.Prelude.{◌≡◌, ◌<◌, ℕ, length, is_none};
ghost use Rattle.wf_frame.specs.Frames.{FrameValue};
ghost use Rattle.wf_frame.specs.declared.notes.Ask.TheVariants.{Pull};
ghost use Rattle.wf_frame.specs.declared.notes.Limits.{Limits};
ghost use Rattle.wf_frame.specs.declared.notes.Note.TheVariants.{Asked};
ghost use Rattle.wf_def_agreement.specs.Session.{waiting_numbers};
ghost use Rattle.wf_def_world.specs.FlowQueues.{frames_queued};
ghost use Rattle.wf_def_world.specs.Refusals.{refusal};
ghost use Rattle.wf_def_world.specs.World.{World, rotation, session};
ghost use Rattle.wf_send_half.specs.Half.{IsLive};
ghost use Rattle.wf_send_half.specs.Listed.{list_of};
ghost use Rattle.wf_send_half_model.specs.Standing.{StandsFor};

use crate::Path;
use wf_frame::Class;
use wf_rotation::Side;

impl Path {
    /// Returns whether a pull of a class would send now, whatever its limits: exactly if it would be refused
    /// neither as Full nor as Ahead nor as Idle.
    pub fn can_pull(&self, class: Class) -> bool
        ensures { (w : World) (bodies : ℕ → FrameValue) → StandsFor self.now.half w bodies →
            (limits : Limits) → result ≡ is_none (refusal w (Asked (Pull class limits))) }
    {
        self.half.can_pull(class)
    }

    /// Returns how many frames of a live station's TID, 0 to 7, are in flow queues.
    pub fn queued(&self, station: u16, tid: u8) -> u32
        requires live { IsLive self.now.half station }
        requires tid { tid < 8 }
        ensures { (w : World) (bodies : ℕ → FrameValue) → StandsFor self.now.half w bodies →
            result ≡ frames_queued w station tid }
    {
        self.half.queued(station, tid)
    }

    /// Returns the list of a class that a station is on, the new one or the old one. None if it is on
    /// neither, as a station that is not live. Two stations that stay on the old list share the airtime
    /// fairly.
    pub fn listed(&self, station: u16, class: Class) -> Option<Side>
        ensures { (w : World) (bodies : ℕ → FrameValue) → StandsFor self.now.half w bodies →
            result ≡ list_of (rotation w class) station }
    {
        self.half.listed(station, class)
    }

    /// Returns how many sequence numbers of a live station's TID, 0 to 7, wait to be sent.
    pub fn waiting(&self, station: u16, tid: u8) -> u32
        requires live { IsLive self.now.half station }
        requires tid { tid < 8 }
        ensures { (w : World) (bodies : ℕ → FrameValue) → StandsFor self.now.half w bodies →
            result ≡ length (waiting_numbers (session w station tid)) }
    {
        self.half.window(station, tid).waiting_count()
    }
}
