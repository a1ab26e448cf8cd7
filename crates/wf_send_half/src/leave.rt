//! A station leaves: TID by TID, the frames of its window are finished, and its flow queues are purged.

ghost use Rattle.std.specs.Prelude.{◌≡◌, ◌<◌, ℕ, ◌+◌, true, false, None, length, IfOk, IfErr};
ghost use Rattle.wf_frame.specs.Frames.{FrameValue};
ghost use Rattle.wf_frame.specs.declared.notes.Ask.TheVariants.{Leave};
ghost use Rattle.wf_frame.specs.declared.notes.Note.TheVariants.{Asked};
ghost use Rattle.wf_frame.specs.declared.notes.ReplyNote.TheVariants.{Left};
ghost use Rattle.wf_def_world.specs.World.{World};
ghost use Rattle.wf_def_world.specs.Refusals.{refusal};
ghost use Rattle.wf_send_parts.specs.Windows.{WindowsHaveRoom, window_of};
ghost use Rattle.wf_send_half_model.specs.Half.{TransmitValue};
ghost use Rattle.wf_send_half_model.specs.Leaving.{IsLeaving, IsExpelled};
ghost use Rattle.wf_send_half_model.specs.Standing.{StandsFor, Meets};
ghost use Rattle.wf_send_half.specs.Half.{HasWorld};
ghost use Rattle.wf_send_half.specs.Leaving.{GivesFrames, MayLeave, SomeLeaves, SomeGives};
ghost use Rattle.std.specs.Result.{result_err};
ghost use Rattle.wf_send_half.specs.Replies.{reply_of_result};

use crate::half::Half;
use crate::refuse::refuse_where;
use wf_frame::{Cause, Fate, Refusal};

impl Half {
    // A station leaves, and its frames are dropped (`Transmit::leave`).
    pub(crate) fn leave(&mut self, station: u16) -> Result<u32, Refusal>
        requires some { HasWorld self.old }
        ensures meets { (w : World) (bodies : ℕ → FrameValue) → StandsFor self.old w bodies →
            Meets w bodies (Asked (Leave station)) self.new (reply_of_result Left result) }
        ensures refused { IfErr result (λ _. self.new ≡ self.old) }
    {
        self.check_leave(station)?;
        let dropped = self.drop_all(station);
        self.tally.settle_all(Fate::Dropped(Cause::Left), dropped);
        self.sched.leave(station);
        self.members.leave(station);
        Ok(dropped)
    }

    // Checks that a station is live and has no open exchange.
    fn check_leave(&self, station: u16) -> Result<(), Refusal>
        ensures refused { (w : World) (bodies : ℕ → FrameValue) → StandsFor self.now w bodies →
            result_err result ≡ refusal w (Asked (Leave station)) }
        ensures within { IfOk result (λ _. station < self.now.config.stations) }
    {
        self.in_range(station)?;
        self.live(station)?;
        let count = self.opened.of_station(station);
        refuse_where(0 < count, Refusal::Open { count })
    }

    // Drops the frames of a station, TID by TID, and returns their number. They are not settled yet.
    fn drop_all(&mut self, station: u16) -> u32
        requires some { MayLeave self.old station }
        ensures left { (w : World) (bodies : ℕ → FrameValue) → StandsFor self.old w bodies →
            refusal w (Asked (Leave station)) ≡ None →
            IsLeaving self.old w bodies station 8 self.new result }
        ensures room { WindowsHaveRoom self.new.windows }
    {
        let mut dropped = 0;
        for tid in 0..8 {
            dropped += self.drop_tid(station, tid);
        }
        dropped
    }

    // Drops the frames of a TID, those of its window and then those of its queues, and returns their number.
    fn drop_tid(&mut self, station: u16, tid: u8) -> u32
        requires tid { tid < 8 }
        requires some { SomeLeaves self.old station tid }
        ensures left { (before : TransmitValue) (w : World) (bodies : ℕ → FrameValue) (dropped : ℕ) →
            IsLeaving before w bodies station tid self.old dropped →
            IsLeaving before w bodies station (tid + 1) self.new (dropped + result) }
        ensures room { WindowsHaveRoom self.new.windows }
    {
        let expelled = self.expel_all(station, tid);
        expelled + self.flows.purge(station, tid)
    }

    // Finishes the frames in the window of a TID, by their sequence numbers, and returns their number.
    fn expel_all(&mut self, station: u16, tid: u8) -> u32
        requires tid { tid < 8 }
        requires some { SomeLeaves self.old station tid }
        ensures expelled { (before : TransmitValue) (w : World) (bodies : ℕ → FrameValue) (dropped : ℕ) →
            IsLeaving before w bodies station tid self.old dropped →
            IsExpelled before w bodies station tid self.new (dropped + result) }
        ensures room { WindowsHaveRoom self.new.windows }
    {
        let mut count = 0;
        'expelling: while self.expel_one(station, tid) {
            count += 1;
        }
        count
    }

    // Finishes the frame with the lowest sequence number in the window of a TID. False if the window is
    // empty.
    fn expel_one(&mut self, station: u16, tid: u8) -> bool
        requires tid { tid < 8 }
        requires some { SomeGives self.old station tid }
        ensures given { result ≡ true → (before : TransmitValue) (w : World) (bodies : ℕ → FrameValue)
            (dropped : ℕ) →
            GivesFrames before w bodies station tid self.old dropped →
            GivesFrames before w bodies station tid self.new (dropped + 1) }
        ensures empty { result ≡ false → (before : TransmitValue) (w : World) (bodies : ℕ → FrameValue)
            (dropped : ℕ) →
            GivesFrames before w bodies station tid self.old dropped →
            IsExpelled before w bodies station tid self.new dropped }
        ensures room { WindowsHaveRoom self.new.windows }
        ensures fewer { result ≡ true → length (window_of self.new.windows station tid).places
            < length (window_of self.old.windows station tid).places }
    {
        match self.windows.expel(station, tid) {
            Some(parcel) => {
                self.flows.finish(parcel);
                true
            }
            None => false,
        }
    }
}
