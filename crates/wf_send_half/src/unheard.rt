//! The law of a transmit half whose driver knows receivers by BlockAcks alone. It is the contract of a
//! function without a body.

ghost use Rattle.std.specs.Prelude.{◌≡◌, ◌==◌, ℕ, List, Option, Some, find, IfSome, Result};
ghost use Rattle.wf_frame.specs.Classes.{class_of};
ghost use Rattle.wf_frame.specs.Frames.{FrameValue};
ghost use Rattle.wf_frame.specs.declared.classes.Class.{Class};
ghost use Rattle.wf_frame.specs.declared.notes.Refusal.{Refusal};
ghost use Rattle.wf_def_world.specs.World.{World, Exchange, exchange};
ghost use Rattle.wf_def_world.specs.CanSend.{is_ready};
ghost use Rattle.wf_law_driver.specs.Unheard.{IsUnheard};
ghost use Rattle.wf_send_half_model.specs.Half.{TransmitValue, is_ready_of};
ghost use Rattle.wf_send_half_model.specs.Standing.{StandsFor};
ghost use Rattle.wf_send_half.specs.Bits.{ended_reply};
ghost use Rattle.wf_send_half.specs.Driven.{outcome_after_done, world_after_done, IsAfterDone, MeetsUnheard};
ghost use Rattle.wf_send_half.specs.Replies.{reply_of_result};
ghost use Rattle.wf_send_half.specs.declared.finish.Ended.{Ended};

/// An exchange ends, whatever bits were heard and whatever airtime is given. A half that represented an
/// unheard world then represents the world in which exactly the numbers that the bits show arrived just
/// before the Done. This world is unheard too, and the reply is the Done's, so a half always has a world. The
/// same stations are ready as before, except the exchange's station in the class of its TID.
pub fn an_exchange_ends_as_a_driver_tells()
    ensures meets { (v u : TransmitValue) (w : World) (bodies : ℕ → FrameValue) → StandsFor v w bodies →
        IsUnheard w →
        (e : ℕ) (heard : Option (ℕ × List ℕ)) (air : Option ℕ) (result : Result Ended Refusal) →
        IsAfterDone v u e heard air result → (caller : ℕ) →
        MeetsUnheard bodies (outcome_after_done w caller e heard air) u
        (reply_of_result ended_reply result) }
    ensures ready { (v : TransmitValue) (w : World) (bodies : ℕ → FrameValue) → StandsFor v w bodies →
        IsUnheard w →
        (caller e : ℕ) (x : Exchange) → exchange w e ≡ Some x → (i : ℕ) (c : Class) →
        (i ≡ x.station → class_of x.tid ≡ c → ⊥) →
        (heard : Option (ℕ × List ℕ)) (air : Option ℕ) →
        is_ready (world_after_done w caller e heard air) c i ≡ is_ready w c i }
    ensures flags { (v u : TransmitValue) (w : World) (bodies : ℕ → FrameValue) → StandsFor v w bodies →
        IsUnheard w →
        (e : ℕ) (heard : Option (ℕ × List ℕ)) (air : Option ℕ) (result : Result Ended Refusal) →
        IsAfterDone v u e heard air result → (i : ℕ) (c : Class) →
        IfSome (find (λ x. x.number == e) v.opened) (λ x. i ≡ x.station → class_of x.tid ≡ c → ⊥) →
        is_ready_of u c i ≡ is_ready_of v c i }
{}
