//! The jobs that a caller passes to a path.

ghost use Rattle.std.specs.Prelude.{◌≡◌, ℕ, ◌+◌, ◌≤◌};
ghost use Rattle.wf_frame.specs.Frames.{FrameValue, most_attempts};
ghost use Rattle.wf_frame.specs.declared.notes.ReplyNote.{ReplyNote};
ghost use Rattle.wf_def_lists.specs.Lengths.{greatest_body};
ghost use Rattle.wf_law_runs.specs.Queues.{HasLength, IsAtMost};
ghost use Rattle.wf_send_half.specs.Replies.{bodies_sent};
ghost use Rattle.wf_path.specs.Jobs.{note_of, frame_of, times_sent};

use wf_frame::{Ask, Note};
use wf_queue_parts::chain::Parcel;

/// A call: a frame to accept, or a call that carries none.
#[derive(Drop)]
pub enum Job {
    /// A frame for a station.
    Give(Parcel),
    /// A call without a frame.
    Call(Ask),
}

impl Job {
    /// Returns the call as numbers, as a history stores it. A frame is stored by its length, 1 to 2304
    /// octets.
    pub fn note(&self) -> Note
        ensures value { result ≡ note_of self.now }
        ensures some { HasLength result }
        ensures most { IsAtMost greatest_body result }
    {
        match self {
            Job::Give(parcel) => {
                let frame = parcel.frame();
                Note::Enqueue {
                    station: frame.station(),
                    tid: frame.tid(),
                    flow: frame.flow(),
                    len: frame.len(),
                }
            }
            Job::Call(ask) => Note::Asked(*ask),
        }
    }

    /// Returns the frame of the call, if it has one.
    pub fn parcel(self) -> Option<Parcel>
        ensures { result ≡ frame_of self }
    {
        match self {
            Job::Give(parcel) => Some(parcel),
            Job::Call(_) => None,
        }
    }
}

/// Each pull that sends a frame adds 1 to the frame's count of transmissions. The count stops at 255, far
/// above the setting `attempts`.
pub fn each_time_that_a_frame_is_sent_counts()
    ensures { (reply : ReplyNote) (bodies : ℕ → FrameValue) (id : ℕ) →
        (bodies id).attempts + times_sent reply id ≤ most_attempts →
        (bodies_sent reply bodies id).attempts ≡ (bodies id).attempts + times_sent reply id }
{}
