//! Laws about the windows of all TIDs and the sessions that they represent, for callers' loops. Each law is a
//! function without a body; its contract states it.

ghost use Rattle.std.specs.Prelude.{◌≡◌, ℕ, ◌+◌, ◌%◌, ◌<◌, ◌≤◌, Bool, true, false, is_some, List, [], ◌∷◌, length};
ghost use Rattle.wf_frame.specs.Frames.{FrameValue};
ghost use Rattle.wf_def_agreement.specs.Session.{Session, new_session, after_end, start_of, next_number, request_due};
ghost use Rattle.wf_octets.specs.Distance.{distance};
ghost use Rattle.wf_send_parts.specs.Window.{WindowValue, fresh_window, WindowStandsFor, IsNumber, may_give, can_take};
ghost use Rattle.wf_frame.specs.Classes.{tid_number};
ghost use Rattle.wf_send_parts.specs.Windows.{window_of, with_window};
ghost use Rattle.wf_send_parts.specs.Many.{AllStand, IsSameElsewhere, IsSameAtOthers, HasSameFrames};
ghost use Rattle.wf_send_parts.specs.Ending.{Ending, AreFlying, all_settled, HasLeft, IsSettledNext};

/// The window of one TID changes with its session. The other windows are unchanged, and all still represent
/// their sessions.
pub fn one_window_changes()
    ensures count { (windows : List WindowValue) (s t : ℕ) (w : WindowValue) →
        length (with_window windows s t w) ≡ length windows }
    ensures this { (windows : List WindowValue) (s t : ℕ) (w : WindowValue) →
        tid_number s t < length windows →
        window_of (with_window windows s t w) s t ≡ w }
    ensures others { (windows : List WindowValue) (s t : ℕ) (w : WindowValue) (x y : ℕ) → t < 8 → y < 8 →
        (x ≡ s → y ≡ t → ⊥) →
        window_of (with_window windows s t w) x y ≡ window_of windows x y }
    ensures stands { (windows : List WindowValue) (s t : ℕ) (w : WindowValue) (is_live : ℕ → Bool)
        (before after : ℕ → ℕ → Session) →
        (bodies : ℕ → FrameValue) → AllStand windows is_live before bodies → is_live s ≡ true → t < 8 →
        tid_number s t < length windows →
        IsSameElsewhere before after s t → WindowStandsFor w (after s t) bodies →
        AllStand (with_window windows s t w) is_live after bodies }
{}

/// A station joins, and its windows represent its new sessions; or it leaves, and its windows are empty.
/// Everything else is unchanged.
pub fn a_station_comes_or_goes()
    ensures joins { (windows others : List WindowValue) (was_live is_live : ℕ → Bool)
        (before after : ℕ → ℕ → Session) →
        (bodies : ℕ → FrameValue) (s : ℕ) → AllStand windows was_live before bodies →
        IsSameAtOthers windows others was_live is_live before after s → is_live s ≡ true →
        ((t : ℕ) → t < 8 → WindowStandsFor (window_of others s t) (after s t) bodies) →
        AllStand others is_live after bodies }
    ensures goes { (windows others : List WindowValue) (was_live is_live : ℕ → Bool)
        (before after : ℕ → ℕ → Session) →
        (bodies : ℕ → FrameValue) (s : ℕ) → AllStand windows was_live before bodies →
        IsSameAtOthers windows others was_live is_live before after s → is_live s ≡ false →
        ((t : ℕ) → t < 8 → (window_of others s t).places ≡ []) → AllStand others is_live after bodies }
{}

/// Queries of a window return the same as queries of each session that it represents: whether a request is
/// due, whether a fresh number may be given, and how many numbers there are from F on. A request with start f
/// is near the window if f is at most F and N at most f + w. A fresh window represents a new session.
pub fn a_window_tells_of_its_session()
    ensures request { (w : WindowValue) (s : Session) (bodies : ℕ → FrameValue) → WindowStandsFor w s bodies →
        is_some w.due ≡ request_due s }
    ensures give { (w : WindowValue) (s : Session) (bodies : ℕ → FrameValue) → WindowStandsFor w s bodies →
        can_take w ≡ may_give s }
    ensures numbers { (w : WindowValue) (s : Session) (bodies : ℕ → FrameValue) → WindowStandsFor w s bodies →
        start_of s + length w.places ≡ next_number s }
    ensures near { (w : WindowValue) (s : Session) (bodies : ℕ → FrameValue) (f start : ℕ) →
        WindowStandsFor w s bodies → start ≡ f % 4096 →
        f ≤ start_of s → next_number s ≤ f + s.size → distance w.start start + length w.places ≤ w.size }
    ensures fresh { (capacity size start n : ℕ) (bodies : ℕ → FrameValue) → start ≡ n % 4096 → size ≤ 256 →
        WindowStandsFor (fresh_window capacity size start) (new_session n size) bodies }
{}

/// Windows represent their sessions no matter which frames belong to ids that the sessions do not hold. So
/// accepting a frame, which gets a new id, changes nothing here.
pub fn only_held_frames_matter()
    ensures one { (w : WindowValue) (s : Session) (bodies others : ℕ → FrameValue) →
        WindowStandsFor w s bodies →
        HasSameFrames s bodies others → WindowStandsFor w s others }
    ensures all { (windows : List WindowValue) (is_live : ℕ → Bool) (sessions : ℕ → ℕ → Session)
        (bodies others : ℕ → FrameValue) →
        AllStand windows is_live sessions bodies →
        ((s t : ℕ) → is_live s ≡ true → t < 8 → HasSameFrames (sessions s t) bodies others) →
        AllStand windows is_live sessions others }
{}

/// The numbers of an exchange are settled one after the other. Each of them still flies when its turn comes,
/// with fewer attempts than the limit. At the end the window represents the session after all of them.
pub fn numbers_are_settled_in_order()
    ensures begins { (w : WindowValue) (s : Session) (bodies : ℕ → FrameValue) (ending : Ending)
        (numbers : List ℕ) →
        WindowStandsFor w s bodies → AreFlying s ending numbers →
        HasLeft w bodies ending numbers (all_settled ending numbers s) }
    ensures number { (w : WindowValue) (bodies : ℕ → FrameValue) (ending : Ending) (n : ℕ) (ns : List ℕ)
        (after : Session) (seq : ℕ) →
        (left : HasLeft w bodies ending (n ∷ ns) after) → seq ≡ n % 4096 → IsNumber left.now n seq }
    ensures flies { (w : WindowValue) (bodies : ℕ → FrameValue) (ending : Ending) (n : ℕ) (ns : List ℕ)
        (after : Session) (seq : ℕ) →
        HasLeft w bodies ending (n ∷ ns) after → seq ≡ n % 4096 → IsSettledNext w seq ending.limit }
    ensures next { (w v : WindowValue) (bodies : ℕ → FrameValue) (ending : Ending) (n : ℕ) (ns : List ℕ)
        (after : Session) →
        (left : HasLeft w bodies ending (n ∷ ns) after) →
        WindowStandsFor v (after_end ending.limit (ending.ends n) n left.now) bodies →
        HasLeft v bodies ending ns after }
    ensures ends { (w : WindowValue) (bodies : ℕ → FrameValue) (ending : Ending) (after : Session) →
        HasLeft w bodies ending [] after →
        WindowStandsFor w after bodies }
{}
