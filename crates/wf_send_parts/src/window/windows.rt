//! One window for each TID of each station.

ghost use Rattle.std.specs.Prelude.{◌≡◌, ◌≢◌, ℕ, ◌+◌, ◌*◌, ◌%◌, ◌<◌, ◌≤◌, true, false, [], None, count_by, length, max, is_ok, replicate, IfOk, IfErr, IfSome, IfNone};
ghost use Rattle.wf_frame.specs.Frames.{FrameValue};
ghost use Rattle.wf_frame.specs.declared.classes.Fate.TheVariants.{Dropped};
ghost use Rattle.wf_frame.specs.declared.classes.Cause.TheVariants.{Left};
ghost use Rattle.wf_def_lists.specs.Bounds.{greatest_window};
ghost use Rattle.wf_def_agreement.specs.Session.{Session, State, slot, new_session, with_number_given, with_state, after_end, start_of, next_number};
ghost use Rattle.wf_octets.specs.Distance.{distance};
ghost use Rattle.wf_send_parts.specs.Window.{fresh_window, WindowStandsFor, IsNumber, place_at, state_at, attempts_of, is_flying, HasOwnFrame, waits, waiting_from, some_fly, can_take};
ghost use Rattle.wf_send_parts.specs.Sent.{with_one_sent, with_one_unsent};
ghost use Rattle.wf_send_parts.specs.Answers.{as_end, settling_answer, with_fate};
ghost use Rattle.wf_send_parts.specs.Flushing.{IsFlushed};
ghost use Rattle.wf_frame.specs.Classes.{tid_number};
ghost use Rattle.wf_send_parts.specs.Windows.{WindowsHaveRoom, new_window, window_of, with_window};

use crate::window::{End, Settled, Window};
use std::alloc::{AllocError, Global};
use std::marker::Model;
use wf_frame::{Cause, tid_number};
use wf_octets::seq12::Seq12;
use wf_queue_parts::chain::Parcel;

/// The number of TIDs of a station.
const TIDS: u8 = 8;

/// The greatest size of a window, in numbers.
const GREATEST_WINDOW: u16 = 256;

/// The windows of TIDs 0 to 7 of each station. Contracts see them as a list, by `tid_number`. Only `new`
/// allocates.
pub struct Windows {
    windows: Vec<Window>,
}

// Written by hand so that dropping a `Windows` needs the proof of one call, not of the drop of each place.
impl Drop for Windows {
    fn drop(self) {
        let Windows { windows: _windows } = self;
    }
}

impl Model for Windows {
    ghost use Rattle.std.specs.Prelude.{List};
    ghost use Rattle.wf_send_parts.specs.Window.{WindowValue};
    ghost use Rattle.wf_send_parts.specs.Windows.{WindowsHaveRoom};

    ghost Value = { List WindowValue };

    ghost view = { λ w. w.windows.items };

    ghost invariant = { λ w. WindowsHaveRoom w.windows.items };
}

impl Windows {
    /// Creates windows for `stations` stations, 1 to 256. Each is as `Window::new` makes it for the greatest
    /// size, 256. Fails only if memory runs out.
    pub fn new(alloc: Global, stations: u32) -> Result<Windows, AllocError>
        requires { (1 ≤ stations) × (stations ≤ 256) }
        ensures { IfOk result (λ made. made ≡ replicate (8 * stations) new_window) }
    {
        let count = usize::from(TIDS) * stations as usize;
        let mut windows = Vec::with_capacity(alloc, count)?;
        'making: for _ in 0..count {
            windows.push_reserved(Window::new(alloc, GREATEST_WINDOW)?);
        }
        Ok(Windows { windows })
    }

    /// Returns the window of a TID.
    pub fn at(&self, station: u16, tid: u8) -> &Window
        requires tid { tid < 8 }
        requires within { tid_number station tid < length self.now }
        ensures { result.now ≡ window_of self.now station tid }
    {
        &self.windows[tid_number(station, tid) as usize]
    }

    /// Begins a new session of a TID, as `Window::reset`, with first number `start` and a window of `size`, 1
    /// to 256. The window must hold no parcel.
    pub fn reset(&mut self, station: u16, tid: u8, start: Seq12, size: u16)
        requires tid { tid < 8 }
        requires within { tid_number station tid < length self.old }
        requires empty { (window_of self.old station tid).places ≡ [] }
        requires in_range { (1 ≤ size) × (size ≤ greatest_window) }
        ensures stands { (bodies : ℕ → FrameValue) (n : ℕ) → start ≡ n % 4096 →
            WindowStandsFor (window_of self.new station tid) (new_session n size) bodies }
        ensures fresh { self.new ≡ with_window self.old station tid
            (fresh_window greatest_window size start) }
        ensures count { length self.new ≡ length self.old }
    {
        self.windows[tid_number(station, tid) as usize].reset(start, size);
    }

    /// Sets the size of the window of a TID, 1 to 256, as `Window::resize`. All its numbers must be settled.
    pub fn resize(&mut self, station: u16, tid: u8, size: u16)
        requires tid { tid < 8 }
        requires within { tid_number station tid < length self.old }
        requires empty { (window_of self.old station tid).places ≡ [] }
        requires in_range { (1 ≤ size) × (size ≤ greatest_window) }
        ensures stands { (s : Session) (bodies : ℕ → FrameValue) →
            WindowStandsFor (window_of self.old station tid) s bodies →
            WindowStandsFor (window_of self.new station tid)
            (record s { heard = max s.heard (start_of s); size = size }) bodies }
        ensures others { self.new ≡ with_window self.old station tid (window_of self.new station tid) }
        ensures room { WindowsHaveRoom self.new }
        ensures count { length self.new ≡ length self.old }
    {
        self.windows[tid_number(station, tid) as usize].resize(size);
    }

    /// Begins new sessions of all eight TIDs of a station, each as by `reset`.
    pub fn reset_all(&mut self, station: u16, start: Seq12, size: u16)
        requires within { tid_number station 7 < length self.old }
        requires empty { (t : ℕ) → t < 8 → (window_of self.old station t).places ≡ [] }
        requires in_range { (1 ≤ size) × (size ≤ greatest_window) }
        ensures stands { (t : ℕ) (bodies : ℕ → FrameValue) (n : ℕ) → t < 8 → start ≡ n % 4096 →
            WindowStandsFor (window_of self.new station t) (new_session n size) bodies }
        ensures fresh { (t : ℕ) → t < 8 → window_of self.new station t
            ≡ fresh_window greatest_window size start }
        ensures others { (s t : ℕ) → s ≢ station → t < 8 → window_of self.new s t ≡ window_of self.old s t }
        ensures count { length self.new ≡ length self.old }
    {
        for tid in 0..TIDS {
            self.reset(station, tid, start, size);
        }
    }

    /// Records that a BlockAckReq with this start was heard, as `Window::bar_heard`.
    pub fn bar_heard(&mut self, station: u16, tid: u8, start: Seq12)
        requires tid { tid < 8 }
        requires within { tid_number station tid < length self.old }
        requires near { distance (window_of self.old station tid).start start + length
            (window_of self.old station tid).places
            ≤ (window_of self.old station tid).size }
        ensures stands { (s : Session) (bodies : ℕ → FrameValue) (f : ℕ) →
            WindowStandsFor (window_of self.old station tid) s bodies →
            start ≡ f % 4096 → f ≤ start_of s → next_number s ≤ f + s.size →
            WindowStandsFor (window_of self.new station tid) (record s { heard = max s.heard f }) bodies }
        ensures others { self.new ≡ with_window self.old station tid (window_of self.new station tid) }
        ensures room { WindowsHaveRoom self.new }
        ensures count { length self.new ≡ length self.old }
    {
        self.windows[tid_number(station, tid) as usize].bar_heard(start);
    }

    /// Records that the peer knows the first number of a TID that is not settled, as `Window::catch_up`.
    pub fn catch_up(&mut self, station: u16, tid: u8)
        requires tid { tid < 8 }
        requires within { tid_number station tid < length self.old }
        ensures stands { (s : Session) (bodies : ℕ → FrameValue) →
            WindowStandsFor (window_of self.old station tid) s bodies →
            WindowStandsFor (window_of self.new station tid)
            (record s { heard = max s.heard (start_of s) }) bodies }
        ensures others { self.new ≡ with_window self.old station tid (window_of self.new station tid) }
        ensures room { WindowsHaveRoom self.new }
        ensures count { length self.new ≡ length self.old }
    {
        self.windows[tid_number(station, tid) as usize].catch_up();
    }

    /// Gives the parcel the next fresh number of a TID, as `Window::give`. If the window's `can_give` is
    /// false, returns the parcel as the error.
    pub fn give(&mut self, station: u16, tid: u8, parcel: Parcel) -> Result<Seq12, Parcel>
        requires tid { tid < 8 }
        requires within { tid_number station tid < length self.old }
        ensures exactly { is_ok result ≡ can_take (window_of self.old station tid) }
        ensures given { IfOk result (λ seq. (s : Session) (bodies : ℕ → FrameValue) →
            WindowStandsFor (window_of self.old station tid) s bodies → parcel ≡ bodies parcel.id →
            (seq ≡ next_number s % 4096) × WindowStandsFor (window_of self.new station tid)
            (with_number_given s parcel.id) bodies) }
        ensures refused { IfErr result (λ back. (back ≡ parcel) × (self.new ≡ self.old)) }
        ensures others { self.new ≡ with_window self.old station tid (window_of self.new station tid) }
        ensures room { WindowsHaveRoom self.new }
        ensures count { length self.new ≡ length self.old }
    {
        self.windows[tid_number(station, tid) as usize].give(parcel)
    }

    /// Lets a waiting number of a TID fly in this exchange and returns its frame's id, as `Window::fly`.
    pub fn fly(&mut self, station: u16, tid: u8, seq: Seq12, exchange: u64) -> u64
        requires tid { tid < 8 }
        requires within { tid_number station tid < length self.old }
        requires waits { state_at (window_of self.old station tid) seq ≡ State.Waiting }
        ensures stands { (s : Session) (bodies : ℕ → FrameValue) (n : ℕ) →
            WindowStandsFor (window_of self.old station tid) s bodies →
            IsNumber s n seq → HasOwnFrame s n → WindowStandsFor (window_of self.new station tid)
            (with_state (State.Flying exchange) n s) (with_one_sent (slot s n).id bodies) }
        ensures id { (s : Session) (bodies : ℕ → FrameValue) (n : ℕ) →
            WindowStandsFor (window_of self.old station tid) s bodies →
            IsNumber s n seq → result ≡ (bodies (slot s n).id).id }
        ensures others { self.new ≡ with_window self.old station tid (window_of self.new station tid) }
        ensures room { WindowsHaveRoom self.new }
        ensures count { length self.new ≡ length self.old }
    {
        self.windows[tid_number(station, tid) as usize].fly(seq, exchange)
    }

    /// Takes back one attempt in the frame of a flying number of a TID, as `Window::unsend`.
    pub fn unsend(&mut self, station: u16, tid: u8, seq: Seq12)
        requires tid { tid < 8 }
        requires within { tid_number station tid < length self.old }
        requires flies { is_flying (state_at (window_of self.old station tid) seq) ≡ true }
        ensures stands { (s : Session) (bodies : ℕ → FrameValue) (n : ℕ) →
            WindowStandsFor (window_of self.old station tid) s bodies →
            IsNumber s n seq → HasOwnFrame s n → WindowStandsFor (window_of self.new station tid) s
            (with_one_unsent (slot s n).id bodies) }
        ensures others { self.new ≡ with_window self.old station tid (window_of self.new station tid) }
        ensures room { WindowsHaveRoom self.new }
        ensures count { length self.new ≡ length self.old }
    {
        self.windows[tid_number(station, tid) as usize].unsend(seq);
    }

    /// Settles a number of a TID whose exchange has ended so for it, as `Window::settle`. `limit` is how
    /// often it may be sent.
    pub fn settle(&mut self, station: u16, tid: u8, seq: Seq12, end: End, limit: u8) -> Settled
        requires tid { tid < 8 }
        requires within { tid_number station tid < length self.old }
        requires flies { is_flying (state_at (window_of self.old station tid) seq) ≡ true }
        requires limit { attempts_of (place_at (window_of self.old station tid) seq) < limit }
        ensures stands { (s : Session) (bodies : ℕ → FrameValue) (n : ℕ) →
            WindowStandsFor (window_of self.old station tid) s bodies →
            IsNumber s n seq → WindowStandsFor (window_of self.new station tid)
            (after_end limit (as_end end) n s) bodies }
        ensures answer { (s : Session) (bodies : ℕ → FrameValue) (n : ℕ) →
            WindowStandsFor (window_of self.old station tid) s bodies →
            IsNumber s n seq → result ≡ settling_answer (as_end end) limit bodies (slot s n) }
        ensures others { self.new ≡ with_window self.old station tid (window_of self.new station tid) }
        ensures room { WindowsHaveRoom self.new }
        ensures count { length self.new ≡ length self.old }
    {
        self.windows[tid_number(station, tid) as usize].settle(seq, end, limit)
    }

    /// Takes the parcel of the lowest number of a TID that holds one, with the fate Dropped(Left), as
    /// `Window::expel`. None if, and only if, no number holds one. No number of the TID may fly.
    pub fn expel(&mut self, station: u16, tid: u8) -> Option<Parcel>
        requires tid { tid < 8 }
        requires within { tid_number station tid < length self.old }
        requires none_fly { some_fly (window_of self.old station tid) ≡ false }
        ensures none { IfNone result ((s : Session) (bodies : ℕ → FrameValue) →
            WindowStandsFor (window_of self.old station tid) s bodies →
            (next_number s ≡ start_of s) × WindowStandsFor (window_of self.new station tid) s bodies) }
        ensures some { IfSome result (λ p. (s : Session) (bodies : ℕ → FrameValue) →
            WindowStandsFor (window_of self.old station tid) s bodies → (start_of s < next_number s) ×
            (p ≡ with_fate (Dropped Left) (bodies (slot s (start_of s)).id)) ×
            WindowStandsFor (window_of self.new station tid) (with_state State.Acked (start_of s) s) bodies) }
        ensures fewer { IfSome result (λ _. length (window_of self.new station tid).places
            < length (window_of self.old station tid).places) }
        ensures still { some_fly (window_of self.new station tid) ≡ false }
        ensures others { self.new ≡ with_window self.old station tid (window_of self.new station tid) }
        ensures room { WindowsHaveRoom self.new }
        ensures count { length self.new ≡ length self.old }
    {
        self.windows[tid_number(station, tid) as usize].expel()
    }
    /// Takes the parcel of the first waiting number of a TID at or past `from`, with the fate
    /// Dropped(cause), as `Window::flush_next`. Also returns where to search for the next one.
    pub fn flush_next(
        &mut self,
        station: u16,
        tid: u8,
        from: Seq12,
        cause: Cause,
    ) -> Option<(Parcel, Seq12)>
        requires tid { tid < 8 }
        requires within { tid_number station tid < length self.old }
        requires near { distance from (window_of self.old station tid).start
            ≤ length (window_of self.old station tid).places }
        ensures none { IfNone result ((s : Session) (bodies : ℕ → FrameValue) (n : ℕ) →
            WindowStandsFor (window_of self.old station tid) s bodies →
            from ≡ n % 4096 → start_of s ≤ n → n ≤ next_number s → (waiting_from s n ≡ None) ×
            WindowStandsFor (window_of self.new station tid) s bodies) }
        ensures some { IfSome result (λ found. (limit : ℕ) (s : Session) (bodies : ℕ → FrameValue) (n : ℕ) →
            WindowStandsFor (window_of self.old station tid) s bodies →
            from ≡ n % 4096 → start_of s ≤ n → n ≤ next_number s →
            IsFlushed cause limit s bodies n (window_of self.new station tid) found.0 found.1) }
        ensures fewer { IfSome result (λ _. count_by waits (window_of self.new station tid).places
            < count_by waits (window_of self.old station tid).places) }
        ensures others { self.new ≡ with_window self.old station tid (window_of self.new station tid) }
        ensures room { WindowsHaveRoom self.new }
        ensures count { length self.new ≡ length self.old }
    {
        self.windows[tid_number(station, tid) as usize].flush_next(from, cause)
    }
}
