//! The stations' receive halves and the marks of the open exchanges represent the receivers of a world:
//! definitions and laws, no code. With wf_send_half_model, which does the same for the transmit half, this
//! covers the whole world.
//!
//! `Hears` (specs/Hearing) says when both agree, specs/Arriving what a transmission does to a receive half,
//! and specs/Refusing why a call is refused, by the marks. The laws say that they agree at the start, and how
//! each call has to change them so that they represent the world after the step, with the step's reply. Each
//! law is the contract of a function without a body. For example, `a_new_cell` says that new receive halves
//! without a mark represent the opening world.
#![tactic(auto)]

ghost use Rattle.std.specs.Prelude.{◌≡◌, ◌<◌, ◌≤◌, if◌then◌else◌, ℕ, ◌==◌, not, ◌++◌, Bool, List, [], ◌∷◌, Some, None, IfSome, option_map, filter, length, nat_lt, All, Option};
ghost use Rattle.wf_frame.specs.declared.classes.Class.{Class};
ghost use Rattle.wf_frame.specs.declared.notes.Ask.TheVariants.{Join, Offload, Plain, Begin, Cease, Flush, Pull, Arrive, Answer, Done, Unsent};
ghost use Rattle.wf_frame.specs.declared.notes.Limits.{Limits};
ghost use Rattle.wf_frame.specs.declared.notes.Note.{Note};
ghost use Rattle.wf_frame.specs.declared.notes.Note.TheVariants.{Asked};
ghost use Rattle.wf_frame.specs.declared.notes.Part.{Part};
ghost use Rattle.wf_frame.specs.declared.notes.Refusal.{Refusal};
ghost use Rattle.wf_frame.specs.declared.notes.ReplyNote.TheVariants.{Ack, Ba, Refused, Released, Send};
ghost use Rattle.wf_frame.specs.declared.settings.Config.{Config};
ghost use Rattle.wf_def_agreement.specs.Receiver.{Score};
ghost use Rattle.wf_def_lists.specs.Bounds.{greatest_window};
ghost use Rattle.wf_def_lists.specs.Table.{bits_word, has};
ghost use Rattle.wf_def_world.specs.World.{World, Exchange, exchange, is_wide, opening, receiver};
ghost use Rattle.wf_def_world.specs.Exchanges.{transmissions};
ghost use Rattle.wf_def_world.specs.Refusals.{exchange_has, refusal};
ghost use Rattle.wf_def_world.specs.Step.{plain_window, step};
ghost use Rattle.wf_law_runs.specs.Delivery.{is_batch};
ghost use Rattle.wf_send_parts.specs.declared.exchanges.opened.TheConstants.{MOST_OPEN};
ghost use Rattle.wf_recv_marks.specs.Marks.{new_mark, with_arrival, with_answer, with_changed};
ghost use Rattle.wf_recv_marks.specs.declared.marks.Mark.{Mark};
ghost use Rattle.wf_recv_peer.specs.Agreements.{PeerValue};
ghost use Rattle.wf_recv_peer.specs.Buffer.{request_outcome as buffer_requested};
ghost use Rattle.wf_send_half_model.specs.Flushing.{released_at_cease};
ghost use Rattle.wf_send_half_model.specs.Standing.{IsReached};
ghost use Rattle.wf_send_half.specs.Bits.{AreShown};
ghost use Rattle.wf_send_half.specs.Marks.{HasNotArrived as IsUntoldOf};
ghost use Rattle.wf_cell_model.specs.Answers.{KeepsShown};
ghost use Rattle.wf_cell_model.specs.Arriving.{peer_after, buffer_outcome_of_transmission, CarriesId, MayReach, IsUntold};
ghost use Rattle.wf_cell_model.specs.Catching.{twelve_bit_start, peers_caught_up, peers_renewed};
ghost use Rattle.wf_cell_model.specs.Hearing.{peer_of, agreement_of, with_peer, new_receive_half, AreNew, kept_of, mark_of, Hears};
ghost use Rattle.wf_cell_model.specs.Refusing.{mark_in, told_refusal, arrive_refusal, answer_refusal, done_refusal};

/// New receive halves without a mark represent the opening world.
pub fn a_new_cell()
    ensures { (c : Config) (peers : List PeerValue) → AreNew c.stations peers → Hears peers [] (opening c) }
{}

/// Any call leaves the receive halves and the marks unchanged, except a Join, an Offload, a Plain, a Begin, a
/// Cease, a Flush, a Pull, an Arrive, an Answer and a Done; so does a refused call.
pub fn a_call_that_no_receiver_hears()
    ensures untold { (peers : List PeerValue) (marks : List Mark) (w : World) (note : Note) → IsReached w →
        Hears peers marks w →
        IsUntold note → Hears peers marks (step w note).world }
    ensures refused { (peers : List PeerValue) (marks : List Mark) (w : World) (note : Note) (r : Refusal) →
        IsReached w → Hears peers marks w →
        refusal w note ≡ Some r → Hears peers marks (step w note).world }
{}

/// A station that joins has new agreements, with this window and from this number on. Both are in their
/// ranges. An offloaded one has the widest windows, from number 0 on, and one without agreements has windows
/// of one number.
pub fn a_station_joins()
    ensures hears { (peers : List PeerValue) (marks : List Mark) (w : World)
        (s window start exponent weight : ℕ) → IsReached w → Hears peers marks w →
        refusal w (Asked (Join s window start exponent weight)) ≡ None →
        Hears (with_peer s (new_receive_half s start window) peers) marks
        (step w (Asked (Join s window start exponent weight))).world }
    ensures offloaded { (peers : List PeerValue) (marks : List Mark) (w : World) (s exponent weight : ℕ) →
        IsReached w → Hears peers marks w →
        refusal w (Asked (Offload s exponent weight)) ≡ None →
        Hears (with_peer s (new_receive_half s 0 greatest_window) peers) marks
        (step w (Asked (Offload s exponent weight))).world }
    ensures plain { (peers : List PeerValue) (marks : List Mark) (w : World) (s start exponent weight : ℕ) →
        IsReached w → Hears peers marks w →
        refusal w (Asked (Plain s start exponent weight)) ≡ None →
        Hears (with_peer s (new_receive_half s start plain_window) peers) marks
        (step w (Asked (Plain s start exponent weight))).world }
    ensures plain_station { (w : World) (s start exponent weight : ℕ) →
        refusal w (Asked (Plain s start exponent weight)) ≡ None → s < w.config.stations }
    ensures plain_start { (w : World) (s start exponent weight : ℕ) →
        refusal w (Asked (Plain s start exponent weight)) ≡ None → start < 4096 }
    ensures offloaded_station { (w : World) (s exponent weight : ℕ) →
        refusal w (Asked (Offload s exponent weight)) ≡ None → s < w.config.stations }
    ensures station { (w : World) (s window start exponent weight : ℕ) →
        refusal w (Asked (Join s window start exponent weight)) ≡ None →
        s < w.config.stations }
    ensures window { (w : World) (s window start exponent weight : ℕ) →
        refusal w (Asked (Join s window start exponent weight)) ≡ None →
        (1 ≤ window) × (window ≤ 256) }
    ensures start { (w : World) (s window start exponent weight : ℕ) →
        refusal w (Asked (Join s window start exponent weight)) ≡ None →
        start < 4096 }
{}

/// A pull that finds a station opens an exchange, with a new mark. There is room for the mark, and its number
/// is above all others.
pub fn an_exchange_opens()
    ensures hears { (peers : List PeerValue) (marks : List Mark) (w : World) (c : Class)
        (limits : Limits) → IsReached w → Hears peers marks w →
        refusal w (Asked (Pull c limits)) ≡ None → Hears peers (marks ++ new_mark w.exchanges ∷ [])
        (step w (Asked (Pull c limits))).world }
    ensures number { (w : World) (c : Class) (limits : Limits) (e s t charge : ℕ) (part : Part)
        (more eosp : Bool) →
        IsReached w → (step w (Asked (Pull c limits))).reply ≡ Send e s t charge part more eosp →
        e ≡ w.exchanges }
    ensures room { (peers : List PeerValue) (marks : List Mark) (w : World) (c : Class)
        (limits : Limits) → IsReached w → Hears peers marks w →
        refusal w (Asked (Pull c limits)) ≡ None → length marks < MOST_OPEN }
    ensures above { (peers : List PeerValue) (marks : List Mark) (w : World) → IsReached w →
        Hears peers marks w →
        All (λ m. m.number < w.exchanges) marks }
{}

/// The end of an exchange removes its mark. If its TID has no agreement, the receive half catches up with the
/// window of the TID.
pub fn an_exchange_ends()
    ensures { (peers : List PeerValue) (marks : List Mark) (w : World) (e : ℕ) (heard : Bool)
        (air : Option ℕ) (x : Exchange) → IsReached w →
        Hears peers marks w → exchange w e ≡ Some x →
        refusal w (Asked (Done e heard air)) ≡ None →
        Hears (peers_caught_up (step w (Asked (Done e heard air))).world x.station x.tid peers)
        (filter (λ m. not (m.number == e)) marks) (step w (Asked (Done e heard air))).world }
{}

/// A TID is flushed. If it has no agreement, the receive half catches up with its window.
pub fn a_tid_is_flushed()
    ensures station { (w : World) (s t : ℕ) → refusal w (Asked (Flush s t)) ≡ None → s < w.config.stations }
    ensures tid { (w : World) (s t : ℕ) → refusal w (Asked (Flush s t)) ≡ None → t < 8 }
    ensures hears { (peers : List PeerValue) (marks : List Mark) (w : World) (s t : ℕ) → IsReached w →
        Hears peers marks w → refusal w (Asked (Flush s t)) ≡ None →
        Hears (peers_caught_up (step w (Asked (Flush s t))).world s t peers) marks
        (step w (Asked (Flush s t))).world }
{}

/// An agreement begins: the TID of the receive half starts again at the window's start, with this window,
/// which is in its range.
pub fn an_agreement_begins()
    ensures station { (w : World) (s t window : ℕ) → refusal w (Asked (Begin s t window)) ≡ None →
        s < w.config.stations }
    ensures tid { (w : World) (s t window : ℕ) → refusal w (Asked (Begin s t window)) ≡ None → t < 8 }
    ensures window { (w : World) (s t window : ℕ) → refusal w (Asked (Begin s t window)) ≡ None →
        (1 ≤ window) × (window ≤ 256) }
    ensures hears { (peers : List PeerValue) (marks : List Mark) (w : World) (s t window : ℕ) →
        IsReached w → Hears peers marks w → refusal w (Asked (Begin s t window)) ≡ None →
        Hears (peers_renewed (step w (Asked (Begin s t window))).world s t window peers) marks
        (step w (Asked (Begin s t window))).world }
{}

/// An agreement ends: the window of the receive half moves to its start after the call, as by a BlockAckReq,
/// which passes up exactly the reply's ids. Then the TID starts again there, with a window of one number.
pub fn an_agreement_ends()
    ensures station { (w : World) (s t : ℕ) → refusal w (Asked (Cease s t)) ≡ None → s < w.config.stations }
    ensures tid { (w : World) (s t : ℕ) → refusal w (Asked (Cease s t)) ≡ None → t < 8 }
    ensures hears { (peers : List PeerValue) (marks : List Mark) (w : World) (s t : ℕ) → IsReached w →
        Hears peers marks w → refusal w (Asked (Cease s t)) ≡ None →
        Hears (peers_renewed (step w (Asked (Cease s t))).world s t plain_window peers) marks
        (step w (Asked (Cease s t))).world }
    ensures up { (peers : List PeerValue) (marks : List Mark) (w : World) (s t : ℕ) → IsReached w →
        Hears peers marks w → refusal w (Asked (Cease s t)) ≡ None →
        (buffer_requested (twelve_bit_start (step w (Asked (Cease s t))).world s t)
        (agreement_of peers s t).buffer).up ≡ released_at_cease w s t }
{}

/// Transmission i of an open exchange arrives at its station, within the reach of its receiver. The agreement
/// of its TID gets its 12-bit number or start, the mark gets the index, and the ids that are passed up are
/// exactly those of the reply, which has none for a batch.
pub fn a_transmission_arrives()
    ensures station { (w : World) (e : ℕ) (x : Exchange) → IsReached w → exchange w e ≡ Some x →
        x.station < w.config.stations }
    ensures tid { (w : World) (e : ℕ) (x : Exchange) → IsReached w → exchange w e ≡ Some x → x.tid < 8 }
    ensures index { (w : World) (e i : ℕ) (x : Exchange) → IsReached w → exchange w e ≡ Some x →
        refusal w (Asked (Arrive e i)) ≡ None → i < 256 }
    ensures reach { (w : World) (e i : ℕ) (x : Exchange) → IsReached w → exchange w e ≡ Some x →
        refusal w (Asked (Arrive e i)) ≡ None → MayReach (receiver w x.station x.tid) i x.content }
    ensures hears { (peers : List PeerValue) (marks : List Mark) (w : World) (e i id : ℕ) (x : Exchange) →
        IsReached w → Hears peers marks w →
        exchange w e ≡ Some x → refusal w (Asked (Arrive e i)) ≡ None → CarriesId id i x.content →
        Hears (with_peer x.station (peer_after x.tid i id x.content (peer_of peers x.station)) peers)
        (with_changed e (with_arrival i) marks) (step w (Asked (Arrive e i))).world }
    ensures up { (peers : List PeerValue) (marks : List Mark) (w : World) (e i id : ℕ) (x : Exchange) →
        IsReached w → Hears peers marks w →
        exchange w e ≡ Some x → refusal w (Asked (Arrive e i)) ≡ None → CarriesId id i x.content →
        (step w (Asked (Arrive e i))).reply ≡ Released (if x.batch then [] else
        (buffer_outcome_of_transmission i id x.content (agreement_of peers x.station x.tid).buffer).up) }
{}

/// A station answers an open exchange: the mark keeps the start and the offsets of its scoreboard, and the
/// reply has them too, or is an Ack if the exchange is plain. The BlockAck is wide if the TID's window is
/// above 64.
pub fn an_answer_is_made()
    ensures hears { (peers : List PeerValue) (marks : List Mark) (w : World) (e : ℕ) (x : Exchange) →
        IsReached w → Hears peers marks w →
        exchange w e ≡ Some x → refusal w (Asked (Answer e)) ≡ None →
        let board = (agreement_of peers x.station x.tid).board in
        Hears peers (with_changed e (with_answer board.start board.offsets) marks)
        (step w (Asked (Answer e))).world }
    ensures reply { (peers : List PeerValue) (marks : List Mark) (w : World) (e : ℕ) (x : Exchange) →
        IsReached w → Hears peers marks w →
        exchange w e ≡ Some x → refusal w (Asked (Answer e)) ≡ None →
        let board = (agreement_of peers x.station x.tid).board in
        (step w (Asked (Answer e))).reply ≡ (if x.plain then Ack else
        Ba board.start (bits_word 0 board.offsets) (bits_word 1 board.offsets) (bits_word 2 board.offsets)
        (bits_word 3 board.offsets) (nat_lt 64 board.size)) }
    ensures wide { (peers : List PeerValue) (marks : List Mark) (w : World) (e : ℕ) (x : Exchange) →
        IsReached w → Hears peers marks w →
        exchange w e ≡ Some x → nat_lt 64 (agreement_of peers x.station x.tid).board.size
        ≡ is_wide w x.station x.tid }
{}

/// The marks determine which exchanges are open, and so why an Arrive, an Answer or a Done is refused, if it
/// is. An Arrive also depends on the number of transmissions of an open exchange and on whether its own never
/// went on the air, an Answer and a Done on whether it is a batch, and a Done on the airtime that it gives.
/// An Unsent that they do not refuse is for a transmission that has not arrived, of an exchange without an
/// answer.
pub fn the_marks_tell()
    ensures mark { (peers : List PeerValue) (marks : List Mark) (w : World) (e : ℕ) → Hears peers marks w →
        mark_in marks e ≡ option_map mark_of (exchange w e) }
    ensures arrive { (peers : List PeerValue) (marks : List Mark) (w : World) (e i count : ℕ) →
        Hears peers marks w →
        IfSome (exchange w e) (λ x. count ≡ transmissions x.content) →
        refusal w (Asked (Arrive e i)) ≡ arrive_refusal (mark_in marks e) count i
        (exchange_has (exchange w e) (λ x. has x.unsent i)) }
    ensures unsent { (peers : List PeerValue) (marks : List Mark) (w : World) (e i count : ℕ) (r : Refusal) →
        Hears peers marks w →
        IfSome (exchange w e) (λ x. count ≡ transmissions x.content) →
        told_refusal (mark_in marks e) count i ≡ Some r → refusal w (Asked (Unsent e i)) ≡ Some r }
    ensures untold { (peers : List PeerValue) (marks : List Mark) (w : World) (e i count : ℕ) →
        Hears peers marks w →
        told_refusal (mark_in marks e) count i ≡ None → IsUntoldOf w e i }
    ensures answer { (peers : List PeerValue) (marks : List Mark) (w : World) (e : ℕ) → Hears peers marks w →
        refusal w (Asked (Answer e)) ≡ answer_refusal (mark_in marks e) (is_batch (exchange w e)) }
    ensures done { (peers : List PeerValue) (marks : List Mark) (w : World) (e : ℕ) (heard : Bool)
        (air : Option ℕ) → Hears peers marks w →
        refusal w (Asked (Done e heard air))
        ≡ done_refusal w.config (mark_in marks e) (is_batch (exchange w e)) heard air }
{}

/// A kept answer shows the same numbers of its exchange as the answer: no offset is lost in a BlockAck with
/// 64 or 256 bits. So an exchange may end by the answer that its mark keeps.
pub fn the_kept_answer_is_shown()
    ensures shown { (w : World) (e : ℕ) (x : Exchange) (b : Score) → IsReached w → exchange w e ≡ Some x →
        x.answer ≡ Some b →
        AreShown w x b (Some (kept_of b)) }
    ensures mark { (peers : List PeerValue) (marks : List Mark) (w : World) (e : ℕ) (m : Mark)
        (kept : ℕ × List ℕ) → IsReached w → Hears peers marks w →
        mark_in marks e ≡ Some m → m.answer ≡ Some kept → KeepsShown w e kept }
{}

/// A reply is a refusal exactly if its call was refused, and has the same cause.
pub fn a_reply_tells()
    ensures why { (w : World) (note : Note) (r : Refusal) → (step w note).reply ≡ Refused r →
        refusal w note ≡ Some r }
    ensures refused { (w : World) (note : Note) (r : Refusal) → refusal w note ≡ Some r →
        (step w note).reply ≡ Refused r }
{}
