//! The window of one TID.
//!
//! In the clauses, F is the first unsettled number, N the next fresh number, w the size, and R the greatest
//! start of a request that ended as heard, all in each session that the window represents.

ghost use Rattle.std.specs.Prelude.{count_by, ◌≡◌, ℕ, suc, ◌+◌, ◌%◌, ◌<◌, ◌≤◌, true, false, [], None, length, max, is_ok, is_some, unwrap_or, option_map, slice_index_or, slice_set, nat_lt, nat_le, IfOk, IfErr, IfSome, IfNone};
ghost use Rattle.std.specs.List.{list_any};
ghost use Rattle.wf_frame.specs.Frames.{FrameValue};
ghost use Rattle.wf_frame.specs.declared.classes.Fate.TheVariants.{Dropped};
ghost use Rattle.wf_frame.specs.declared.classes.Cause.TheVariants.{Left};
ghost use Rattle.wf_def_agreement.specs.Session.{Session, State, slot, new_session, with_number_given, with_state, after_end, start_of, next_number, request_due, waiting_numbers};
ghost use Rattle.wf_def_world.specs.Exchanges.{repeat_distance, is_far};
ghost use Rattle.wf_octets.specs.Distance.{distance};
ghost use Rattle.wf_send_parts.specs.Places.{state_of_place, front, rest, passed_over};
ghost use Rattle.wf_send_parts.specs.Window.{fresh_window, WindowStandsFor, IsNumber, may_give, waiting_from, on_air, place_at, state_at, attempts_of, is_flying, holds_parcel, HasOwnFrame, waits, some_fly, can_take};
ghost use Rattle.wf_send_parts.specs.Sent.{with_one_sent, with_one_unsent};
ghost use Rattle.wf_send_parts.specs.Answers.{as_end, place_ended, answer_ended, settling_answer, with_fate};
ghost use Rattle.wf_send_parts.specs.Flushing.{IsFlushed};

use crate::window::ending::End;
use crate::window::passed::{MOST_UNACKED, NONE_PASSED, Passed};
use crate::window::place::{Place, is_waiting};
use crate::window::ring::Ring;
use std::alloc::{AllocError, Global};
use std::marker::Model;
use wf_frame::{Cause, Fate, Frame};
use wf_octets::seq12::Seq12;
use wf_queue_parts::chain::Parcel;

mod flying;

/// The outcome of a number whose exchange has ended.
#[derive(Drop)]
pub enum Settled {
    /// It was acknowledged. Contains its parcel, with the fate Acked.
    Acked(Parcel),
    /// It waits for another transmission.
    Waiting,
    /// It was sent as often as the limit allows, or is given up. Contains its parcel, with the fate
    /// Dropped(Retries).
    Failed(Parcel),
}

/// The originator's window of one TID: the numbers from F on, each with its parcel and its attempts, by
/// distance from F. If a request is due, it also has the distance of F from the last failed number. It counts
/// the numbers below F that are above the last acknowledged one. All numbers are modulo 4096.
#[derive(Drop)]
pub struct Window {
    ring: Ring,
    start: Seq12,
    size: u16,
    passed: Passed,
}

impl Model for Window {
    ghost use Rattle.wf_send_parts.specs.Window.{WindowValue, IsInOrder};

    ghost Value = { WindowValue };

    ghost view = { λ w. record {
      capacity = w.ring.capacity;
      size = w.size;
      start = w.start;
      places = w.ring.items;
      due = w.passed.due;
      unacked = w.passed.unacked;
    } };

    ghost invariant = { λ w. IsInOrder w.ring.capacity w.size w.ring.items w.passed.due };
}

// Drops the settled places at the front of the ring. Returns how many these were, and what is then kept of
// the numbers below F.
fn advance(ring: &mut Ring, passed: Passed) -> (u16, Passed)
    requires { unwrap_or passed.due 0 + length ring.old.items ≤ 256 }
    ensures items { ring.new ≡ record ring.old { items = rest state_of_place ring.old.items } }
    ensures moved { result.0 ≡ length (front state_of_place ring.old.items) }
    ensures passed { result.1 ≡ passed_over state_of_place passed (front state_of_place ring.old.items) }
{
    let mut moved = 0;
    let mut kept = passed;
    'moving: while ring.len() > 0 {
        kept = match ring.at(0) {
            Some(Place::Waiting { .. }) => return (moved, kept),
            Some(Place::Flying { .. }) => return (moved, kept),
            Some(Place::Failed) => kept.after_failed(),
            None => kept.after_acked(),
        };
        ring.drop_front();
        moved += 1;
    }
    (moved, kept)
}

fn attempts_in(place: &Option<Place>) -> u8
    requires { holds_parcel (state_of_place place.now) ≡ true }
    ensures { result ≡ attempts_of place.now }
{
    match place {
        Some(Place::Waiting { attempts, .. }) => *attempts,
        Some(Place::Flying { attempts, .. }) => *attempts,
        _ => unreachable!(),
    }
}

// Puts a place into a slot that is empty. An acknowledged number leaves its slot empty.
fn put_back(ring: &mut Ring, i: usize, place: Option<Place>)
    requires within { i < length ring.old.items }
    requires empty { slice_index_or ring.old.items i None ≡ None }
    ensures changed { ring.new ≡ record ring.old { items = slice_set ring.old.items i place } }
{
    if place.is_some() {
        let _ = ring.replace(i, place);
    }
}

// Takes the parcel of a waiting place. The place is settled afterwards.
fn take_waiting(ring: &mut Ring, i: usize) -> (Parcel, u8)
    requires { waits (slice_index_or ring.old.items i None) ≡ true }
    ensures found { Some (Place.Waiting result.0 result.1) ≡ slice_index_or ring.old.items i None }
    ensures changed { ring.new ≡ record ring.old { items = slice_set ring.old.items i None } }
{
    let Some(Place::Waiting { parcel, attempts }) = ring.replace(i, None) else {
        unreachable!()
    };
    (parcel, attempts)
}

// Takes the parcel of a flying place. The place is settled afterwards.
fn take_flying(ring: &mut Ring, i: usize) -> (Parcel, u8, u64)
    requires { is_flying (state_of_place (slice_index_or ring.old.items i None)) ≡ true }
    ensures found { Some (Place.Flying result.0 result.1 result.2) ≡ slice_index_or ring.old.items i None }
    ensures changed { ring.new ≡ record ring.old { items = slice_set ring.old.items i None } }
{
    let Some(
        Place::Flying {
            parcel,
            attempts,
            exchange,
        },
    ) = ring.replace(i, None)
    else {
        unreachable!()
    };
    (parcel, attempts, exchange)
}

// Returns the parcel with this fate set in its frame.
fn finished(mut parcel: Parcel, fate: Fate) -> Parcel
    ensures { result ≡ with_fate fate parcel }
{
    parcel.frame_mut().fate = fate;
    parcel
}

// Returns the place of a number that flew, after its exchange ended so for it, and the outcome. `attempts`
// were in vain before.
fn ended(parcel: Parcel, attempts: u8, end: End, limit: u8) -> (Option<Place>, Settled)
    requires { attempts < limit }
    ensures place { result.0 ≡ place_ended (as_end end) limit parcel attempts }
    ensures answer { result.1 ≡ answer_ended (as_end end) limit parcel attempts }
{
    let attempts = match end {
        End::Acknowledged => return (None, Settled::Acked(finished(parcel, Fate::Acked))),
        End::Missed => attempts + 1,
        End::GivenUp => limit,
        End::Unsent => attempts,
    };
    if attempts < limit {
        return (Some(Place::Waiting { parcel, attempts }), Settled::Waiting);
    }
    let parcel = finished(parcel, Fate::Dropped(Cause::Retries));
    (Some(Place::Failed), Settled::Failed(parcel))
}

impl Window {
    /// Creates a window without numbers, as after `reset` with start 0 and size `capacity`. `capacity`, 1 to
    /// 256, is the greatest size that `reset` may give it. Fails only if memory runs out.
    pub fn new(alloc: Global, capacity: u16) -> Result<Window, AllocError>
        requires { (1 ≤ capacity) × (capacity ≤ 256) }
        ensures stands { IfOk result (λ w. (bodies : ℕ → FrameValue) (n : ℕ) → n % 4096 ≡ 0 →
            WindowStandsFor w (new_session n capacity) bodies) }
        ensures fresh { IfOk result (λ w. w ≡ fresh_window capacity capacity 0) }
        ensures empty { IfOk result (λ w. w.places ≡ []) }
        ensures capacity { IfOk result (λ w. w.capacity ≡ capacity) }
    {
        let ring = Ring::new(alloc, capacity)?;
        Ok(Window {
            ring,
            start: Seq12::of(0),
            size: capacity,
            passed: NONE_PASSED,
        })
    }

    /// Begins a new session with first number `start` and a window of `size`, 1 to the capacity. The window
    /// must hold no parcel, so that each of its numbers is settled.
    pub fn reset(&mut self, start: Seq12, size: u16)
        requires empty { self.old.places ≡ [] }
        requires in_range { (1 ≤ size) × (size ≤ self.old.capacity) }
        ensures stands { (bodies : ℕ → FrameValue) (n : ℕ) → start ≡ n % 4096 →
            WindowStandsFor self.new (new_session n size) bodies }
        ensures fresh { self.new ≡ fresh_window self.old.capacity size start }
        ensures capacity { self.new.capacity ≡ self.old.capacity }
    {
        self.start = start;
        self.size = size;
        self.passed = NONE_PASSED;
    }

    /// Sets the size of the window, 1 to the capacity. All numbers must be settled. The peer knows F, as by
    /// `catch_up`.
    pub fn resize(&mut self, size: u16)
        requires empty { self.old.places ≡ [] }
        requires in_range { (1 ≤ size) × (size ≤ self.old.capacity) }
        ensures stands { (s : Session) (bodies : ℕ → FrameValue) → WindowStandsFor self.old s bodies →
            WindowStandsFor self.new (record s { heard = max s.heard (start_of s); size = size }) bodies }
        ensures shown { self.new ≡ record self.old { size = size; due = None } }
        ensures capacity { self.new.capacity ≡ self.old.capacity }
    {
        self.size = size;
        self.passed.due = None;
    }

    /// Returns F, the first number that is not settled. If all are settled, this is the next one.
    pub fn start(&self) -> Seq12
        ensures shown { result ≡ self.now.start }
        ensures number { (s : Session) (bodies : ℕ → FrameValue) → WindowStandsFor self.now s bodies →
            result ≡ start_of s % 4096 }
    {
        self.start
    }

    /// Returns N, the next fresh number.
    pub fn next(&self) -> Seq12
        ensures number { (s : Session) (bodies : ℕ → FrameValue) → WindowStandsFor self.now s bodies →
            result ≡ next_number s % 4096 }
    {
        self.start.plus(self.ring.len() as u16)
    }

    /// Returns w, the size of the window: how many numbers from F on may be sent.
    pub fn size(&self) -> u16
        ensures shown { result ≡ self.now.size }
        ensures number { (s : Session) (bodies : ℕ → FrameValue) → WindowStandsFor self.now s bodies →
            result ≡ s.size }
    {
        self.size
    }

    /// Returns whether a BlockAckReq is due: some failed number is at least R and below F.
    pub fn bar_due(&self) -> bool
        ensures shown { result ≡ is_some self.now.due }
        ensures due { (s : Session) (bodies : ℕ → FrameValue) → WindowStandsFor self.now s bodies →
            result ≡ request_due s }
    {
        self.passed.due.is_some()
    }

    /// Records that a BlockAckReq with this start was heard. The start is at most F, and N is at most w past
    /// it.
    pub fn bar_heard(&mut self, start: Seq12)
        requires { distance self.old.start start + length self.old.places ≤ self.old.size }
        ensures stands { (s : Session) (bodies : ℕ → FrameValue) (f : ℕ) → WindowStandsFor self.old s bodies →
            start ≡ f % 4096 → f ≤ start_of s → next_number s ≤ f + s.size →
            WindowStandsFor self.new (record s { heard = max s.heard f }) bodies }
        ensures capacity { self.new.capacity ≡ self.old.capacity }
    {
        if let Some(distance) = self.passed.due
            && self.start.ahead(start) < distance
        {
            self.passed.due = None;
        }
    }

    /// Records that the peer knows F: no request is due, as if a BlockAckReq with this start was heard.
    pub fn catch_up(&mut self)
        ensures stands { (s : Session) (bodies : ℕ → FrameValue) → WindowStandsFor self.old s bodies →
            WindowStandsFor self.new (record s { heard = max s.heard (start_of s) }) bodies }
        ensures capacity { self.new.capacity ≡ self.old.capacity }
    {
        self.bar_heard(self.start);
    }

    /// Returns whether F is 2,048 or more above the last acknowledged number. If no number above F is given,
    /// this is whether F is too far to be sent again without an agreement.
    pub fn is_far(&self) -> bool
        ensures shown { result ≡ nat_le repeat_distance self.now.unacked }
        ensures far { (s : Session) (bodies : ℕ → FrameValue) → WindowStandsFor self.now s bodies →
            next_number s ≤ suc (start_of s) → result ≡ is_far s (start_of s) }
    {
        self.passed.unacked >= MOST_UNACKED
    }

    /// Returns whether `give` accepts a parcel: no request is due, and N is below F + w.
    pub fn can_give(&self) -> bool
        ensures shown { result ≡ can_take self.now }
        ensures can { (s : Session) (bodies : ℕ → FrameValue) → WindowStandsFor self.now s bodies →
            result ≡ may_give s }
    {
        self.passed.due.is_none() && self.ring.len() < usize::from(self.size)
    }

    /// Gives the parcel the number N, with which it then waits, and returns N. If `can_give` is false,
    /// returns the parcel as the error and changes nothing.
    pub fn give(&mut self, parcel: Parcel) -> Result<Seq12, Parcel>
        ensures exactly { is_ok result ≡ can_take self.old }
        ensures given { IfOk result (λ seq. (s : Session) (bodies : ℕ → FrameValue) →
            WindowStandsFor self.old s bodies →
            parcel ≡ bodies parcel.id →
            (seq ≡ next_number s % 4096) × WindowStandsFor self.new (with_number_given s parcel.id) bodies) }
        ensures refused { IfErr result (λ back. (back ≡ parcel) × (self.new ≡ self.old)) }
        ensures capacity { self.new.capacity ≡ self.old.capacity }
    {
        if !self.can_give() {
            return Err(parcel);
        }
        let seq = self.start.plus(self.ring.len() as u16);
        self.ring.push_back(Some(Place::Waiting {
            parcel,
            attempts: 0,
        }));
        Ok(seq)
    }

    /// Lets a waiting number fly in this exchange, counts an attempt in its frame, and returns the frame's
    /// id.
    pub fn fly(&mut self, seq: Seq12, exchange: u64) -> u64
        requires { state_at self.old seq ≡ State.Waiting }
        ensures stands { (s : Session) (bodies : ℕ → FrameValue) (n : ℕ) → WindowStandsFor self.old s bodies →
            IsNumber s n seq → HasOwnFrame s n → WindowStandsFor self.new
            (with_state (State.Flying exchange) n s) (with_one_sent (slot s n).id bodies) }
        ensures id { (s : Session) (bodies : ℕ → FrameValue) (n : ℕ) → WindowStandsFor self.old s bodies →
            IsNumber s n seq → result ≡ (bodies (slot s n).id).id }
        ensures capacity { self.new.capacity ≡ self.old.capacity }
    {
        let i = usize::from(seq.ahead(self.start));
        let (mut parcel, attempts) = take_waiting(&mut self.ring, i);
        let id = parcel.frame().id;
        parcel.frame_mut().send();
        let _ = self.ring.replace(
            i,
            Some(Place::Flying {
                parcel,
                attempts,
                exchange,
            }),
        );
        id
    }

    /// Takes back one attempt in the frame of a flying number, whose transmission never went on the air. The
    /// number still flies.
    pub fn unsend(&mut self, seq: Seq12)
        requires { is_flying (state_at self.old seq) ≡ true }
        ensures stands { (s : Session) (bodies : ℕ → FrameValue) (n : ℕ) → WindowStandsFor self.old s bodies →
            IsNumber s n seq → HasOwnFrame s n → WindowStandsFor self.new s
            (with_one_unsent (slot s n).id bodies) }
        ensures capacity { self.new.capacity ≡ self.old.capacity }
    {
        let i = usize::from(seq.ahead(self.start));
        let (mut parcel, attempts, exchange) = take_flying(&mut self.ring, i);
        parcel.frame_mut().unsend();
        let _ = self.ring.replace(
            i,
            Some(Place::Flying {
                parcel,
                attempts,
                exchange,
            }),
        );
    }

    /// Settles a number whose exchange has ended so for it. If it was missed, its attempts rise by one, and
    /// it fails if they now equal `limit`; otherwise it waits again. If it was given up, it fails. If it
    /// never went on the air, it waits again with the same attempts.
    pub fn settle(&mut self, seq: Seq12, end: End, limit: u8) -> Settled
        requires flies { is_flying (state_at self.old seq) ≡ true }
        requires limit { attempts_of (place_at self.old seq) < limit }
        ensures stands { (s : Session) (bodies : ℕ → FrameValue) (n : ℕ) → WindowStandsFor self.old s bodies →
            IsNumber s n seq → WindowStandsFor self.new (after_end limit (as_end end) n s) bodies }
        ensures answer { (s : Session) (bodies : ℕ → FrameValue) (n : ℕ) → WindowStandsFor self.old s bodies →
            IsNumber s n seq → result ≡ settling_answer (as_end end) limit bodies (slot s n) }
        ensures capacity { self.new.capacity ≡ self.old.capacity }
    {
        let i = usize::from(seq.ahead(self.start));
        let (parcel, attempts, _) = take_flying(&mut self.ring, i);
        let (place, settled) = ended(parcel, attempts, end, limit);
        put_back(&mut self.ring, i, place);
        let (moved, passed) = advance(&mut self.ring, self.passed);
        self.start = self.start.plus(moved);
        self.passed = passed;
        settled
    }

    /// Returns whether some number waits.
    pub fn has_waiting(&self) -> bool
        ensures shown { result ≡ list_any waits self.now.places }
        ensures waiting { (s : Session) (bodies : ℕ → FrameValue) → WindowStandsFor self.now s bodies →
            result ≡ nat_lt 0 (length (waiting_numbers s)) }
    {
        self.ring.waiting > 0
    }

    /// Returns how many numbers wait.
    pub fn waiting_count(&self) -> u32
        ensures shown { result ≡ count_by waits self.now.places }
        ensures waiting { (s : Session) (bodies : ℕ → FrameValue) → WindowStandsFor self.now s bodies →
            result ≡ length (waiting_numbers s) }
    {
        self.ring.waiting as u32
    }

    /// Returns the first waiting number at or past `from`, which is F to N. None if, and only if, there is
    /// none.
    pub fn next_waiting(&self, from: Seq12) -> Option<Seq12>
        requires { distance from self.now.start ≤ length self.now.places }
        ensures waits { IfSome result (λ seq. state_at self.now seq ≡ State.Waiting) }
        ensures within { IfSome result (λ seq. (distance from self.now.start ≤ distance seq self.now.start) ×
            (distance seq self.now.start < length self.now.places)) }
        ensures number { (s : Session) (bodies : ℕ → FrameValue) (n : ℕ) → WindowStandsFor self.now s bodies →
            from ≡ n % 4096 → start_of s ≤ n → n ≤ next_number s →
            result ≡ option_map on_air (waiting_from s n) }
    {
        for i in usize::from(from.ahead(self.start))..self.ring.len() {
            if is_waiting(self.ring.at(i)) {
                return Some(self.start.plus(i as u16));
            }
        }
        None
    }

    /// Returns the frame of a number that waits or flies.
    pub fn frame(&self, seq: Seq12) -> &Frame
        requires { holds_parcel (state_at self.now seq) ≡ true }
        ensures { (s : Session) (bodies : ℕ → FrameValue) (n : ℕ) → WindowStandsFor self.now s bodies →
            IsNumber s n seq → result.now ≡ bodies (slot s n).id }
    {
        match self.ring.at(usize::from(seq.ahead(self.start))) {
            Some(Place::Waiting { parcel, .. }) => parcel.frame(),
            Some(Place::Flying { parcel, .. }) => parcel.frame(),
            _ => unreachable!(),
        }
    }

    /// Returns how many attempts of a number that waits or flies were in vain.
    pub fn attempts(&self, seq: Seq12) -> u8
        requires { holds_parcel (state_at self.now seq) ≡ true }
        ensures { (s : Session) (bodies : ℕ → FrameValue) (n : ℕ) → WindowStandsFor self.now s bodies →
            IsNumber s n seq → result ≡ (slot s n).attempts }
    {
        attempts_in(self.ring.at(usize::from(seq.ahead(self.start))))
    }

    /// Takes the parcel of the lowest number that holds one, with the fate Dropped(Left); the number then
    /// counts as acknowledged. None if, and only if, no number holds one. No number may fly.
    pub fn expel(&mut self) -> Option<Parcel>
        requires { some_fly self.old ≡ false }
        ensures none { IfNone result ((s : Session) (bodies : ℕ → FrameValue) →
            WindowStandsFor self.old s bodies →
            (next_number s ≡ start_of s) × WindowStandsFor self.new s bodies) }
        ensures some { IfSome result (λ p. (s : Session) (bodies : ℕ → FrameValue) →
            WindowStandsFor self.old s bodies →
            (start_of s < next_number s) ×
            (p ≡ with_fate (Dropped Left) (bodies (slot s (start_of s)).id)) ×
            WindowStandsFor self.new (with_state State.Acked (start_of s) s) bodies) }
        ensures fewer { IfSome result (λ _. length self.new.places < length self.old.places) }
        ensures still { some_fly self.new ≡ false }
        ensures capacity { self.new.capacity ≡ self.old.capacity }
    {
        if self.ring.len() == 0 {
            return None;
        }
        let (parcel, _) = take_waiting(&mut self.ring, 0);
        let (moved, passed) = advance(&mut self.ring, self.passed);
        self.start = self.start.plus(moved);
        self.passed = passed;
        Some(finished(parcel, Fate::Dropped(Cause::Left)))
    }
    /// Takes the parcel of the first waiting number at or past `from`, which is F to N, with the fate
    /// Dropped(cause); the number then fails. Also returns where to search for the next one. None if, and
    /// only if, there is none.
    pub fn flush_next(&mut self, from: Seq12, cause: Cause) -> Option<(Parcel, Seq12)>
        requires { distance from self.old.start ≤ length self.old.places }
        ensures none { IfNone result ((s : Session) (bodies : ℕ → FrameValue) (n : ℕ) →
            WindowStandsFor self.old s bodies → from ≡ n % 4096 → start_of s ≤ n → n ≤ next_number s →
            (waiting_from s n ≡ None) × WindowStandsFor self.new s bodies) }
        ensures some { IfSome result (λ found. (limit : ℕ) (s : Session) (bodies : ℕ → FrameValue) (n : ℕ) →
            WindowStandsFor self.old s bodies → from ≡ n % 4096 → start_of s ≤ n → n ≤ next_number s →
            IsFlushed cause limit s bodies n self.new found.0 found.1) }
        ensures fewer { IfSome result (λ _. count_by waits self.new.places < count_by waits self.old.places) }
        ensures capacity { self.new.capacity ≡ self.old.capacity }
    {
        let Some(seq) = self.next_waiting(from) else {
            return None;
        };
        let i = usize::from(seq.ahead(self.start));
        let (parcel, _) = take_waiting(&mut self.ring, i);
        let _ = self.ring.replace(i, Some(Place::Failed));
        let (moved, passed) = advance(&mut self.ring, self.passed);
        self.start = self.start.plus(moved);
        self.passed = passed;
        let past = (i as u16 + 1).saturating_sub(moved);
        Some((
            finished(parcel, Fate::Dropped(cause)),
            self.start.plus(past),
        ))
    }
}
