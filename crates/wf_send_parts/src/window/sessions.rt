//! Laws about the queries of one window and about callers' loops over it, for each session that the window
//! represents. Each law is a function without a body; its contract states it.

ghost use Rattle.std.specs.Prelude.{◌≡◌, ℕ, ◌%◌, ◌<◌, ◌≤◌, nat_lt, true, false, List, [], ◌∷◌, ◌++◌, Some, None, option_map, length};
ghost use Rattle.std.specs.List.{list_any};
ghost use Rattle.wf_frame.specs.Frames.{FrameValue};
ghost use Rattle.wf_frame.specs.declared.classes.Cause.{Cause};
ghost use Rattle.wf_def_lists.specs.Lists.{IsRising};
ghost use Rattle.wf_def_lists.specs.Table.{has};
ghost use Rattle.wf_def_agreement.specs.Session.{Session, State, slot, start_of, next_number, waiting_numbers, is_settled, is_waiting, with_state, after_flush};
ghost use Rattle.wf_octets.specs.Distance.{distance};
ghost use Rattle.wf_send_parts.specs.Window.{WindowValue, WindowStandsFor, IsNumber, place_at, state_at, attempts_of, is_flying, holds_parcel, HasFrame, waits, some_fly, waiting_from, on_air};
ghost use Rattle.wf_send_parts.specs.Listing.{HasListed, IsListedNext};
ghost use Rattle.wf_send_parts.specs.Expelling.{has_flying, frame_left, frames_left, frames_dropped, HasExpelled};
ghost use Rattle.wf_send_parts.specs.Flushing.{IsFlushed, HasFlushed};

/// An unsettled number is from F to below N, so its 12 bits identify it. Its place in the window has its
/// state and, if it waits or flies, its attempts and its frame.
pub fn a_number_is_read()
    ensures within { (s : Session) (n seq : ℕ) → s.first ≤ n → is_settled (slot s n).state ≡ false →
        seq ≡ n % 4096 →
        IsNumber s n seq }
    ensures state { (w : WindowValue) (s : Session) (bodies : ℕ → FrameValue) (n seq : ℕ) →
        WindowStandsFor w s bodies → IsNumber s n seq →
        state_at w seq ≡ (slot s n).state }
    ensures attempts { (w : WindowValue) (s : Session) (bodies : ℕ → FrameValue) (n seq : ℕ) →
        WindowStandsFor w s bodies → IsNumber s n seq →
        holds_parcel (slot s n).state ≡ true → attempts_of (place_at w seq) ≡ (slot s n).attempts }
    ensures frame { (w : WindowValue) (s : Session) (bodies : ℕ → FrameValue) (n seq : ℕ) →
        WindowStandsFor w s bodies → IsNumber s n seq →
        holds_parcel (slot s n).state ≡ true → HasFrame (place_at w seq) (bodies (slot s n).id) }
{}

/// Some place waits, or flies, if, and only if, some number of the session does.
pub fn places_tell_of_numbers()
    ensures wait { (w : WindowValue) (s : Session) (bodies : ℕ → FrameValue) → WindowStandsFor w s bodies →
        list_any waits w.places ≡ nat_lt 0 (length (waiting_numbers s)) }
    ensures fly { (w : WindowValue) (s : Session) (bodies : ℕ → FrameValue) → WindowStandsFor w s bodies →
        some_fly w ≡ has_flying s }
    ensures none_fly { (w : WindowValue) (s : Session) (bodies : ℕ → FrameValue) →
        WindowStandsFor w s bodies →
        ((n : ℕ) → start_of s ≤ n → n < next_number s → is_flying (slot s n).state ≡ false) →
        some_fly w ≡ false }
{}

/// Calls of `next_waiting`, the first from F on and each later one from past the number before, list the
/// waiting numbers, each once and in ascending order.
pub fn waiting_numbers_are_listed()
    ensures begins { (w : WindowValue) (s : Session) (bodies : ℕ → FrameValue) → WindowStandsFor w s bodies →
        HasListed s [] w.start }
    ensures near { (w : WindowValue) (s : Session) (bodies : ℕ → FrameValue) (numbers : List ℕ) (from : ℕ) →
        WindowStandsFor w s bodies →
        HasListed s numbers from → distance from w.start ≤ length w.places }
    ensures next { (s : Session) (numbers : List ℕ) (from seq : ℕ) (so_far : HasListed s numbers from) →
        option_map on_air (waiting_from s so_far.number) ≡ Some seq → IsListedNext s numbers seq }
    ensures ends { (s : Session) (numbers : List ℕ) (from : ℕ) (so_far : HasListed s numbers from) →
        option_map on_air (waiting_from s so_far.number) ≡ None → numbers ≡ waiting_numbers s }
    ensures exactly { (s : Session) (n : ℕ) → s.first ≤ n →
        has (waiting_numbers s) n ≡ is_waiting (slot s n).state }
    ensures rising { (s : Session) → IsRising (start_of s) (waiting_numbers s) }
{}

/// If no number flies, calls of `expel` return the frames of the waiting numbers in order, with the fate
/// `left`, until None. Then no place is left.
pub fn frames_are_expelled_in_order()
    ensures begins { (w : WindowValue) (s : Session) (bodies : ℕ → FrameValue) → WindowStandsFor w s bodies →
        some_fly w ≡ false →
        HasExpelled w s bodies [] }
    ensures next { (w v : WindowValue) (s : Session) (bodies : ℕ → FrameValue) (frames : List FrameValue)
        (frame : FrameValue) (so_far : HasExpelled w s bodies frames) →
        start_of so_far.now < next_number so_far.now →
        frame ≡ frame_left bodies (slot so_far.now (start_of so_far.now)) →
        WindowStandsFor v (with_state State.Acked (start_of so_far.now) so_far.now) bodies →
        HasExpelled v s bodies (frames ++ frame ∷ []) }
    ensures ends { (w : WindowValue) (s : Session) (bodies : ℕ → FrameValue) (frames : List FrameValue)
        (so_far : HasExpelled w s bodies frames) →
        next_number so_far.now ≡ start_of so_far.now → (frames ≡ frames_left bodies s) × (w.places ≡ []) }
{}

/// Calls of `flush_next` for one cause, the first from F on and each later one from where the one before
/// says, return the frames of the waiting numbers in order, dropped for this cause, until None. Then the
/// window represents the session after the flush.
pub fn frames_are_flushed_in_order()
    ensures begins { (cause : Cause) (limit : ℕ) (w : WindowValue) (s : Session) (bodies : ℕ → FrameValue) →
        WindowStandsFor w s bodies →
        HasFlushed cause limit w s bodies [] w.start }
    ensures near { (cause : Cause) (limit : ℕ) (w : WindowValue) (s : Session) (bodies : ℕ → FrameValue)
        (frames : List FrameValue) (from : ℕ) →
        HasFlushed cause limit w s bodies frames from → distance from w.start ≤ length w.places }
    ensures next { (cause : Cause) (limit : ℕ) (w v : WindowValue) (s : Session) (bodies : ℕ → FrameValue)
        (frames : List FrameValue) (from : ℕ) (parcel : FrameValue) (next : ℕ)
        (so_far : HasFlushed cause limit w s bodies frames from) →
        IsFlushed cause limit so_far.now bodies so_far.search.number v parcel next →
        HasFlushed cause limit v s bodies (frames ++ parcel ∷ []) next }
    ensures ends { (cause : Cause) (limit : ℕ) (w v : WindowValue) (s : Session) (bodies : ℕ → FrameValue)
        (frames : List FrameValue) (from : ℕ) (so_far : HasFlushed cause limit w s bodies frames from) →
        waiting_from so_far.now so_far.search.number ≡ None → WindowStandsFor v so_far.now bodies →
        (frames ≡ frames_dropped cause bodies s) × WindowStandsFor v (after_flush limit s) bodies }
{}
