//! Agreements that begin and end (IEEE 802.11-2012, 10.5): the modes of TIDs.

ghost use Rattle.std.specs.Prelude.{◌≡◌, ◌<◌, ◌≤◌, ℕ, not, true, Some, None, if◌then◌else◌, IfOk, IfErr};
ghost use Rattle.std.specs.Result.{result_err};
ghost use Rattle.wf_frame.specs.Frames.{FrameValue};
ghost use Rattle.wf_frame.specs.declared.notes.Ask.TheVariants.{Hold, Begin, Free, Cease};
ghost use Rattle.wf_frame.specs.declared.notes.Note.TheVariants.{Asked};
ghost use Rattle.wf_frame.specs.declared.notes.Refusal.TheVariants.{NotHeld};
ghost use Rattle.wf_frame.specs.declared.notes.ReplyNote.TheVariants.{Held, Begun, Freed, Ceased};
ghost use Rattle.wf_def_world.specs.World.{World, is_live};
ghost use Rattle.wf_def_world.specs.Exchanges.{caught_up_if_plain};
ghost use Rattle.wf_def_world.specs.Refusals.{refusal};
ghost use Rattle.wf_send_half_model.specs.Half.{is_held_back_of, is_plain_of};
ghost use Rattle.wf_send_half_model.specs.Changes.{after_listing, after_mode};
ghost use Rattle.wf_send_half_model.specs.Flushing.{released_at_cease};
ghost use Rattle.wf_send_half_model.specs.Standing.{Parts, StandsFor, Meets};
ghost use Rattle.wf_send_half.specs.Half.{HasWorld, HasUnheardWorld, IsLive};
ghost use Rattle.wf_send_half.specs.Replies.{reply_of_result};

use crate::Transmit;
use crate::half::Half;
use crate::refuse::{check_tid, check_window, refuse_where};
use wf_frame::{Cause, Refusal};
use wf_send_parts::stations::Mode;

/// The window of a TID whose frames are sent one at a time, in numbers.
pub(crate) const PLAIN_WINDOW: u16 = 1;

impl Transmit {
    /// No frame of a TID gets a sequence number from now on, so that an agreement can begin. The numbers that
    /// wait are still sent. Returns the next number, 0 to 4095: the start of the ADDBA Request (IEEE
    /// 802.11-2012, 10.5.2). Refused as BadStation, BadTid, NoStation, Offloaded if the device of the station
    /// makes its agreements, Agreed if the TID has an agreement, or Held if it is held already.
    pub fn hold(&mut self, station: u16, tid: u8) -> Result<u16, Refusal>
        ensures meets { (w : World) (bodies : ℕ → FrameValue) → StandsFor self.old w bodies →
            Meets w bodies (Asked (Hold station tid)) self.new (reply_of_result Held result) }
        ensures refused { IfErr result (λ _. self.new ≡ self.old) }
        ensures unheard { HasUnheardWorld self.new }
    {
        match self.half.hold(station, tid) {
            Ok(start) => {
                self.ready.set_all(&self.half, station);
                Ok(start)
            }
            Err(reason) => Err(reason),
        }
    }

    /// A held TID has an agreement with a window of `window` frames from now on, 1 to 256. No request is due.
    /// Refused as BadStation, BadTid, BadWindow, NoStation, NotHeld if the TID is not held, Open if exchanges
    /// of the TID are open, or Waits if numbers of it wait to be sent.
    pub fn begin(&mut self, station: u16, tid: u8, window: u16) -> Result<(), Refusal>
        ensures meets { (w : World) (bodies : ℕ → FrameValue) → StandsFor self.old w bodies →
            Meets w bodies (Asked (Begin station tid window)) self.new
            (reply_of_result (λ _. Begun) result) }
        ensures refused { IfErr result (λ _. self.new ≡ self.old) }
        ensures unheard { HasUnheardWorld self.new }
    {
        match self.half.begin(station, tid, window) {
            Ok(()) => {
                self.ready.set_all(&self.half, station);
                Ok(())
            }
            Err(reason) => Err(reason),
        }
    }

    /// A held TID sends its frames one at a time from now on, each with an Ack. Refused as BadStation,
    /// BadTid, NoStation, or NotHeld if the TID is not held.
    pub fn free(&mut self, station: u16, tid: u8) -> Result<(), Refusal>
        ensures meets { (w : World) (bodies : ℕ → FrameValue) → StandsFor self.old w bodies →
            Meets w bodies (Asked (Free station tid)) self.new (reply_of_result (λ _. Freed) result) }
        ensures refused { IfErr result (λ _. self.new ≡ self.old) }
        ensures unheard { HasUnheardWorld self.new }
    {
        match self.half.free(station, tid) {
            Ok(()) => {
                self.ready.set_all(&self.half, station);
                Ok(())
            }
            Err(reason) => Err(reason),
        }
    }

    /// The agreement of a TID ends (IEEE 802.11-2012, 10.5.3), and the TID is held. The frames of the
    /// numbers that wait are dropped as Ended. They go last on the finished list, by number; the numbers
    /// fail. Returns how many they were. A request that is due is forgotten. The frames in the flow queues
    /// stay. Refused as BadStation, BadTid, NoStation, NotAgreed if the TID has no agreement, or Open if
    /// exchanges of the TID are open.
    pub fn cease(&mut self, station: u16, tid: u8) -> Result<u32, Refusal>
        ensures meets { (w : World) (bodies : ℕ → FrameValue) → StandsFor self.old w bodies →
            Meets w bodies (Asked (Cease station tid)) self.new
            (reply_of_result (λ dropped. Ceased dropped (released_at_cease w station tid)) result) }
        ensures refused { IfErr result (λ _. self.new ≡ self.old) }
        ensures unheard { HasUnheardWorld self.new }
    {
        match self.half.cease(station, tid) {
            Ok(dropped) => {
                self.ready.set_all(&self.half, station);
                Ok(dropped)
            }
            Err(reason) => Err(reason),
        }
    }
}

impl Half {
    // No frame of a TID gets a number from now on (`Transmit::hold`).
    pub(crate) fn hold(&mut self, station: u16, tid: u8) -> Result<u16, Refusal>
        requires some { HasWorld self.old }
        ensures meets { (w : World) (bodies : ℕ → FrameValue) → StandsFor self.old w bodies →
            Meets w bodies (Asked (Hold station tid)) self.new (reply_of_result Held result) }
        ensures refused { IfErr result (λ _. self.new ≡ self.old) }
    {
        self.check_hold(station, tid)?;
        self.set_mode(station, tid, Mode::OnHold);
        Ok(self.windows.at(station, tid).next().raw())
    }

    // A held TID has an agreement from now on (`Transmit::begin`).
    pub(crate) fn begin(&mut self, station: u16, tid: u8, window: u16) -> Result<(), Refusal>
        requires some { HasWorld self.old }
        ensures meets { (w : World) (bodies : ℕ → FrameValue) → StandsFor self.old w bodies →
            Meets w bodies (Asked (Begin station tid window)) self.new
            (reply_of_result (λ _. Begun) result) }
        ensures refused { IfErr result (λ _. self.new ≡ self.old) }
    {
        self.check_begin(station, tid, window)?;
        self.windows.resize(station, tid, window);
        self.set_mode(station, tid, Mode::Agreed);
        Ok(())
    }

    // A held TID sends its frames one at a time from now on (`Transmit::free`).
    pub(crate) fn free(&mut self, station: u16, tid: u8) -> Result<(), Refusal>
        requires some { HasWorld self.old }
        ensures meets { (w : World) (bodies : ℕ → FrameValue) → StandsFor self.old w bodies →
            Meets w bodies (Asked (Free station tid)) self.new (reply_of_result (λ _. Freed) result) }
        ensures refused { IfErr result (λ _. self.new ≡ self.old) }
    {
        self.check_free(station, tid)?;
        self.set_mode(station, tid, Mode::Plain);
        Ok(())
    }

    // The agreement of a TID ends, and the TID is held (`Transmit::cease`).
    pub(crate) fn cease(&mut self, station: u16, tid: u8) -> Result<u32, Refusal>
        requires some { HasWorld self.old }
        ensures meets { (w : World) (bodies : ℕ → FrameValue) → StandsFor self.old w bodies →
            Meets w bodies (Asked (Cease station tid)) self.new
            (reply_of_result (λ dropped. Ceased dropped (released_at_cease w station tid)) result) }
        ensures refused { IfErr result (λ _. self.new ≡ self.old) }
    {
        self.check_cease(station, tid)?;
        let dropped = self.drop_waiting(station, tid, Cause::Ended);
        self.windows.resize(station, tid, PLAIN_WINDOW);
        self.set_mode(station, tid, Mode::OnHold);
        Ok(dropped)
    }

    // Sets the mode of a TID, and lists its station where it belongs on a list.
    fn set_mode(&mut self, station: u16, tid: u8, mode: Mode)
        requires within { station < self.old.config.stations }
        requires tid { tid < 8 }
        ensures { self.new ≡ after_listing (after_mode self.old station tid mode) station }
    {
        self.modes.set(station, tid, mode);
        self.list(station);
    }

    // Checks that a TID may be held.
    fn check_hold(&self, station: u16, tid: u8) -> Result<(), Refusal>
        ensures refused { (w : World) (bodies : ℕ → FrameValue) → StandsFor self.now w bodies →
            result_err result ≡ refusal w (Asked (Hold station tid)) }
        ensures within { IfOk result (λ _. station < self.now.config.stations) }
        ensures tid { IfOk result (λ _. tid < 8) }
        ensures live { IfOk result (λ _. IsLive self.now station) }
    {
        self.live_tid(station, tid)?;
        refuse_where(self.members.is_offloaded(station), Refusal::Offloaded)?;
        let mode = self.modes.at(station, tid);
        refuse_where(mode.is_agreed(), Refusal::Agreed)?;
        refuse_where(mode.is_on_hold(), Refusal::Held)?;
        refuse_where(
            self.members.member(station).rate.is_single(),
            Refusal::Legacy,
        )
    }

    // Checks that a TID may have an agreement with this window.
    fn check_begin(&self, station: u16, tid: u8, window: u16) -> Result<(), Refusal>
        ensures refused { (w : World) (bodies : ℕ → FrameValue) → StandsFor self.now w bodies →
            result_err result ≡ refusal w (Asked (Begin station tid window)) }
        ensures within { IfOk result (λ _. station < self.now.config.stations) }
        ensures tid { IfOk result (λ _. tid < 8) }
        ensures live { IfOk result (λ _. IsLive self.now station) }
        ensures window { IfOk result (λ _. (1 ≤ window) × (window ≤ 256)) }
    {
        self.in_range(station)?;
        check_tid(tid)?;
        check_window(window)?;
        self.live(station)?;
        self.held(station, tid)?;
        let count = self.opened.of_tid(station, tid);
        refuse_where(0 < count, Refusal::Open { count })?;
        let count = self.windows.at(station, tid).waiting_count();
        refuse_where(0 < count, Refusal::Waits { count })
    }

    // Checks that a TID may send its frames one at a time.
    fn check_free(&self, station: u16, tid: u8) -> Result<(), Refusal>
        ensures refused { (w : World) (bodies : ℕ → FrameValue) → StandsFor self.now w bodies →
            result_err result ≡ refusal w (Asked (Free station tid)) }
        ensures within { IfOk result (λ _. station < self.now.config.stations) }
        ensures tid { IfOk result (λ _. tid < 8) }
    {
        self.live_tid(station, tid)?;
        self.held(station, tid)
    }

    // Checks that the agreement of a TID may end.
    fn check_cease(&self, station: u16, tid: u8) -> Result<(), Refusal>
        ensures refused { (w : World) (bodies : ℕ → FrameValue) → StandsFor self.now w bodies →
            result_err result ≡ refusal w (Asked (Cease station tid)) }
        ensures within { IfOk result (λ _. station < self.now.config.stations) }
        ensures tid { IfOk result (λ _. tid < 8) }
        ensures live { IfOk result (λ _. IsLive self.now station) }
    {
        self.live_tid(station, tid)?;
        refuse_where(!self.modes.at(station, tid).is_agreed(), Refusal::NotAgreed)?;
        let count = self.opened.of_tid(station, tid);
        refuse_where(0 < count, Refusal::Open { count })
    }

    // Checks that a TID is held.
    fn held(&self, station: u16, tid: u8) -> Result<(), Refusal>
        requires within { station < self.now.config.stations }
        requires tid { tid < 8 }
        ensures { result_err result ≡ (if not (is_held_back_of self.now station tid)
            then Some NotHeld else None) }
    {
        refuse_where(!self.modes.at(station, tid).is_on_hold(), Refusal::NotHeld)
    }

    // Returns whether a TID sends its frames one at a time, each with an Ack.
    pub(crate) fn is_plain(&self, station: u16, tid: u8) -> bool
        requires within { station < self.now.config.stations }
        requires tid { tid < 8 }
        ensures { result ≡ is_plain_of self.now station tid }
    {
        !(self.members.is_offloaded(station) || self.modes.at(station, tid).is_agreed())
    }

    // Without an agreement no request tells the peer where the window of a TID starts: it takes each number
    // without those below it, or the device of an offloaded station announces the start of the window to its
    // peer. So no request is due. Nothing changes for a TID with an agreement.
    pub(crate) fn catch_up(&mut self, station: u16, tid: u8)
        requires within { station < self.old.config.stations }
        requires tid { tid < 8 }
        ensures caught_up { (w : World) (bodies : ℕ → FrameValue) → Parts self.old w bodies →
            is_live w station ≡ true →
            Parts self.new (caught_up_if_plain w station tid) bodies }
        ensures rest { self.new ≡ record self.old { windows = self.new.windows } }
    {
        if !self.modes.at(station, tid).is_agreed() {
            self.windows.catch_up(station, tid);
        }
    }
}
