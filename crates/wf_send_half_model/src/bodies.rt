//! The bodies of the frames that a transmit half has, as a finite map from ids to octets.
//!
//! `body_of` (specs/Half) looks an id up among the frames in the flow queues, in the windows and on the
//! finished list. The laws here say that it finds exactly the frames that are inside: those that were
//! accepted and are not reaped, each with the body with which it was accepted. They also say how a call
//! changes which frames are inside. Each law is a function without a body; its contract states it.

ghost use Rattle.std.specs.Prelude.{◌≡◌, ℕ, List};
ghost use Rattle.wf_frame.specs.Frames.{FrameValue};
ghost use Rattle.wf_frame.specs.declared.notes.Note.{Note};
ghost use Rattle.wf_frame.specs.declared.settings.Config.{Config};
ghost use Rattle.wf_def_world.specs.World.{World, opening};
ghost use Rattle.wf_def_world.specs.Run.{Entry, world_after};
ghost use Rattle.wf_def_world.specs.Step.{step};
ghost use Rattle.wf_send_half_model.specs.Half.{TransmitValue, body_of};
ghost use Rattle.wf_send_half_model.specs.Standing.{StandsFor};
ghost use Rattle.wf_send_half_model.specs.Inside.{body_inside, inside_after, is_inside};

/// A half that represents a world has exactly the frames that are inside there, each with its body.
pub fn the_frames_inside_have_their_bodies()
    ensures { (v : TransmitValue) (w : World) (bodies : ℕ → FrameValue) → StandsFor v w bodies → (id : ℕ) →
        body_of v id ≡ body_inside w bodies id }
{}

/// A frame comes inside when a call answers that it is accepted, and leaves when a call answers that it is
/// reaped. No other call changes which frames are inside.
pub fn what_comes_in_and_goes_out()
    ensures { (config : Config) (history : List Entry) (note : Note) (id : ℕ) →
        let w : World = world_after (opening config) history in
        is_inside (step w note).world id ≡ inside_after w (step w note).reply note id }
{}
