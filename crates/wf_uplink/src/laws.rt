//! Laws of the uplink's world, which hold after every list of calls. Each is a function without a body, whose
//! contract states the law.

ghost use Rattle.std.specs.Prelude.{◌≡◌, ℕ, ◌<◌, List, [], ◌∷◌, ◌++◌};
ghost use Rattle.wf_recv_peer.specs.Board.{Board};
ghost use Rattle.wf_uplink.specs.Laws.{TidLaw, TotalsLaw, PlainLaw, IsCharged, IsRequestCharged, ReadsRight};
ghost use Rattle.wf_uplink.specs.World.{Delivery, Call, Open, OpenPlain, Receive, Request, Opened, Received, Requested, new_world, after_calls, answer};

/// Twelve bits are read as the number nearest to B: the one from B - 2048 to B + 2047 that is equal to them
/// modulo 4096. If it is below B, its frame is old.
pub fn reading_law()
    ensures { (n b : ℕ) → ReadsRight n b }
{}

/// For each TID of a station that was opened, after every list of calls: the released frames and the gaps are
/// in the order of the numbers, the numbers of the released frames rise strictly, and each number from the
/// first one to below B is released or in a gap exactly once.
pub fn tid_law()
    ensures { (stations : ℕ) (before later : List Call) (station window start tid : ℕ) → tid < 8 →
        answer (Open station window start) (after_calls (new_world stations) before) ≡ Opened →
        TidLaw (after_calls (new_world stations) (before ++ Open station window start ∷ []))
        station tid start later }
{}

/// After every list of calls, each accepted frame was released, was old, or is stored, and the totals equal
/// the sums over all answers.
pub fn totals_law()
    ensures { (stations : ℕ) (calls : List Call) → TotalsLaw stations calls }
{}

/// For each TID of a station that was opened without agreements, after every list of calls: the frames were
/// released in the order of their arrival, and a frame is old exactly if it has the Retry bit and the number
/// of the frame that was released last.
pub fn plain_law()
    ensures { (stations : ℕ) (before later : List Call) (station tid : ℕ) → tid < 8 →
        answer (OpenPlain station) (after_calls (new_world stations) before) ≡ Opened →
        PlainLaw (after_calls (new_world stations) (before ++ OpenPlain station ∷ [])) station tid later }
{}

/// Each accepted frame is charged its airtime at its station's rate, and that of its answer.
pub fn air_law()
    ensures { (stations : ℕ) (calls : List Call) (octets : List ℕ) (d : Delivery) →
        answer (Receive octets) (after_calls (new_world stations) calls) ≡ Received d →
        IsCharged (after_calls (new_world stations) calls) octets d }
{}

/// Each accepted BlockAckReq is charged its airtime and that of its BlockAck.
pub fn request_air_law()
    ensures { (stations : ℕ) (calls : List Call) (octets : List ℕ) (d : Delivery) (board : Board) →
        answer (Request octets) (after_calls (new_world stations) calls) ≡ Requested d board →
        IsRequestCharged (after_calls (new_world stations) calls) d board }
{}
