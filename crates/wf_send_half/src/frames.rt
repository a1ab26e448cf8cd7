//! Finished frames.

ghost use Rattle.std.specs.Prelude.{◌≡◌, ℕ, IfSome, IfNone};
ghost use Rattle.wf_frame.specs.Frames.{FrameValue};
ghost use Rattle.wf_frame.specs.declared.notes.Ask.TheVariants.{Reap};
ghost use Rattle.wf_frame.specs.declared.notes.Note.TheVariants.{Asked};
ghost use Rattle.wf_def_world.specs.World.{World};
ghost use Rattle.wf_queue_flows_refines.specs.Frames.{IsBodySettled};
ghost use Rattle.wf_send_half_model.specs.Standing.{StandsFor, Meets};
ghost use Rattle.wf_send_half.specs.Half.{HasWorld};
ghost use Rattle.wf_send_half.specs.Replies.{reaped_reply};

use crate::half::Half;
use wf_queue_parts::chain::Parcel;

impl Half {
    // Takes the first frame off the finished list (`Transmit::reap`).
    pub(crate) fn reap(&mut self) -> Option<Parcel>
        requires some { HasWorld self.old }
        ensures meets { (w : World) (bodies : ℕ → FrameValue) → StandsFor self.old w bodies →
            Meets w bodies (Asked Reap) self.new (reaped_reply result) }
        ensures parcel { IfSome result (λ p. (w : World) (bodies : ℕ → FrameValue) →
            StandsFor self.old w bodies → IsBodySettled bodies p) }
        ensures refused { IfNone result (self.new ≡ self.old) }
    {
        let parcel = self.flows.reap()?;
        self.inside -= 1;
        Some(parcel)
    }
}
