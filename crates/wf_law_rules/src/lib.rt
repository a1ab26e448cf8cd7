//! Laws about the shared definitions (`wf_def_*`). CoDel's closed form equals the dequeue of RFC 8289. CoDel
//! drops a frame only after its queue was a standing queue for an interval, and it drops a limited number of
//! frames in a given time. The pick in closed form has the result of the loop of "Ending the Anomaly". `root`
//! is the integer square root. A pick depends only on the needs and the readiness of the listed keys, and not
//! on the numbers of the keys.
//!
//! Each function here states a law: it has no body, and its contract contains the statement. For example,
//! `step_law` states that the step of CoDel's control law is the interval divided by the root of the count,
//! rounded down. Proofs of other crates use the laws and further lemmas through one module, proofs/Lemmas.
#![tactic(auto)]

ghost use Rattle.std.specs.Prelude.{◌≡◌, ℕ, List, Bool, None, IsTrue, IsFalse, ◌<◌, ◌^◌, ◌↔◌};
ghost use Rattle.wf_def_codel.specs.Codel.{Item, Codel, Params, dequeue, drops, drops_dropping, raised_count, ends_drops, root, step_of, IsRoot, IsGreatestStep};
ghost use Rattle.wf_def_codel.specs.CodelLoop.{stepped};
ghost use Rattle.wf_def_rotation.specs.Rotation.{Rotation, pick};
ghost use Rattle.wf_def_rotation.specs.Loop.{EndLaw, LoopLaw, VisitLaw};
ghost use Rattle.wf_law_rules.specs.CodelLaws.{RateLaw, StandingLaw};
ghost use Rattle.wf_law_rules.specs.FourKeys.{LoopEnds, FourKeysGive};
ghost use Rattle.wf_law_rules.specs.Renamed.{KeepsApart, Agrees, renamed, IsRenamed, IsSame, IsIdle};

/// CoDel's dequeue in closed form equals the dequeue of RFC 8289 (5.5), frame by frame. While dropping, the
/// number of drops is the least i such that look i is not ok or drop i is not due.
pub fn dequeue_is_the_loop()
    ensures stepped { (times : Params) (now : ℕ) (state : Codel) (items : List Item) →
        stepped times now state items ≡ dequeue times now state items }
    ensures ends { (times : Params) (now : ℕ) (state : Codel) (due : ℕ) (items : List Item) →
        IsTrue (ends_drops times now state due items (drops_dropping times now state due items)) }
    ensures least { (times : Params) (now : ℕ) (state : Codel) (due : ℕ) (items : List Item) (i : ℕ) →
        i < drops_dropping times now state due items → IsFalse (ends_drops times now state due items i) }
{}

/// A dequeue adds the frames that it drops to the number of frames that CoDel dropped from the queue, which
/// stays at 2^32 - 1 once it is there.
pub fn dropped_law()
    ensures { (times : Params) (now : ℕ) (state : Codel) (items : List Item) →
        (dequeue times now state items).state.dropped
        ≡ raised_count state.dropped (drops times now state items) }
{}

/// `root` returns the integer square root of a number below 4 ^ digits, and a number has only one.
pub fn root_law()
    ensures computed { (digits n : ℕ) → n < 4 ^ digits → IsRoot (root digits n) n }
    ensures one { (n d e : ℕ) → IsRoot d n → IsRoot e n → d ≡ e }
{}

/// The step of CoDel's control law (RFC 8289, 5.6) is the interval divided by the root of the count,
/// rounded down.
pub fn step_law()
    ensures { (interval count : ℕ) → interval < 2 ^ 32 → 0 < count →
        IsGreatestStep interval count (step_of interval count) }
{}

/// CoDel drops a frame only if its queue was a standing queue for an interval: since a look at least an
/// interval before the drop, each look saw a frame that had waited at least for the target, with more than
/// 2304 octets after it (specs/CodelLaws).
pub fn standing_law()
    ensures { StandingLaw }
{}

/// As long as CoDel drops, from a drop with the count 1 on and at one interval, drop n after the first comes
/// no sooner than the sum of the control law's first n steps. So if T is below the square of the interval, at
/// most (T / interval + 1)^2 frames are dropped in T microseconds. With n + 1 drops in T microseconds, the
/// root of n + 1 is at most 1 + (T + n) / (2 * interval) (specs/CodelLaws).
pub fn rate_law()
    ensures { RateLaw }
{}

/// The pick has the same result before and after a turn of the paper's loop that does not end it. If a key
/// wins in this turn, the pick gives it as the winner and changes nothing.
pub fn visit_law()
    ensures { VisitLaw }
{}

/// The paper's loop ends, and the pick gives the winner, the lists and the deficits with which it ends.
pub fn loop_law()
    ensures ends { EndLaw }
    ensures picks { LoopLaw }
{}

/// A worked example with four keys, computed by the loop and by the pick (specs/FourKeys).
pub fn four_keys()
    ensures visits { LoopEnds }
    ensures pick { FourKeysGive }
{}

/// If keys get other numbers and keep their needs and readiness, the pick has the same result with the
/// other numbers.
pub fn renamed_pick()
    ensures { (f : ℕ → ℕ) (r : Rotation) (need other_need : ℕ → ℕ) (ready other_ready : ℕ → Bool) →
        KeepsApart f → Agrees f r need other_need ready other_ready →
        IsRenamed f (pick need ready r) (pick other_need other_ready (renamed f r)) }
{}

/// A pick depends only on the needs and the readiness of the listed keys.
pub fn same_pick()
    ensures { (r : Rotation) (need other_need : ℕ → ℕ) (ready other_ready : ℕ → Bool) →
        Agrees (λ key. key) r need other_need ready other_ready →
        IsSame (pick need ready r) (pick other_need other_ready r) }
{}

/// A pick has no winner if and only if no listed key is ready.
pub fn idle_pick()
    ensures { (r : Rotation) (need : ℕ → ℕ) (ready : ℕ → Bool) →
        ((pick need ready r).winner ≡ None ↔ IsIdle ready r) }
{}
