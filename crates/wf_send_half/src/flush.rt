//! A flush of a TID: the frames of its waiting numbers and of its flow queues are dropped. The end of an
//! agreement drops those of its waiting numbers too.

ghost use Rattle.std.specs.Prelude.{◌≡◌, ◌<◌, ◌+◌, ℕ, true, count_by, IfSome, IfNone, IfOk, IfErr};
ghost use Rattle.std.specs.Result.{result_err};
ghost use Rattle.wf_frame.specs.Frames.{FrameValue};
ghost use Rattle.wf_frame.specs.declared.notes.Ask.TheVariants.{Flush};
ghost use Rattle.wf_frame.specs.declared.notes.Note.TheVariants.{Asked};
ghost use Rattle.wf_frame.specs.declared.notes.ReplyNote.TheVariants.{Flushed};
ghost use Rattle.wf_def_world.specs.World.{World, is_live};
ghost use Rattle.wf_def_world.specs.Refusals.{refusal};
ghost use Rattle.wf_send_parts.specs.Window.{waits};
ghost use Rattle.wf_send_parts.specs.Windows.{window_of};
ghost use Rattle.wf_send_half_model.specs.Half.{TransmitValue};
ghost use Rattle.wf_send_half_model.specs.Flushing.{HasNumbersFlushed};
ghost use Rattle.wf_send_half_model.specs.Standing.{StandsFor, Meets};
ghost use Rattle.wf_send_half.specs.Flushing.{HasLive, GivesFlushed, SomeFlushes};
ghost use Rattle.wf_send_half.specs.Half.{HasWorld, IsLive};
ghost use Rattle.wf_send_half.specs.Replies.{reply_of_result};

use crate::half::Half;
use wf_frame::{Cause, Fate, Refusal};
use wf_octets::seq12::Seq12;

impl Half {
    // Drops the frames of a TID that are not on the air (`Transmit::flush`).
    pub(crate) fn flush(&mut self, station: u16, tid: u8) -> Result<u32, Refusal>
        requires some { HasWorld self.old }
        ensures meets { (w : World) (bodies : ℕ → FrameValue) → StandsFor self.old w bodies →
            Meets w bodies (Asked (Flush station tid)) self.new (reply_of_result Flushed result) }
        ensures refused { IfErr result (λ _. self.new ≡ self.old) }
    {
        self.check_flush(station, tid)?;
        let numbered = self.drop_waiting(station, tid, Cause::Flushed);
        let queued = self.flows.flush(station, tid);
        self.tally.settle_all(Fate::Dropped(Cause::Flushed), queued);
        self.catch_up(station, tid);
        self.list(station);
        Ok(numbered + queued)
    }

    // Checks a flush.
    fn check_flush(&self, station: u16, tid: u8) -> Result<(), Refusal>
        ensures refused { (w : World) (bodies : ℕ → FrameValue) → StandsFor self.now w bodies →
            result_err result ≡ refusal w (Asked (Flush station tid)) }
        ensures within { IfOk result (λ _. station < self.now.config.stations) }
        ensures tid { IfOk result (λ _. tid < 8) }
        ensures live { IfOk result (λ _. IsLive self.now station) }
    {
        self.live_tid(station, tid)
    }

    // Drops the frames of the waiting numbers of a TID for this cause, in the order of the numbers, which
    // fail. Returns how many they were.
    pub(crate) fn drop_waiting(&mut self, station: u16, tid: u8, cause: Cause) -> u32
        requires tid { tid < 8 }
        requires some { HasLive self.old station }
        ensures flushed { (w : World) (bodies : ℕ → FrameValue) → StandsFor self.old w bodies →
            is_live w station ≡ true →
            HasNumbersFlushed cause self.old w bodies station tid self.new result }
    {
        let mut from = self.windows.at(station, tid).start();
        let mut dropped = 0;
        'dropping: while let Some(next) = self.drop_one(station, tid, from, cause) {
            from = next;
            dropped += 1;
        }
        dropped
    }

    // Drops the frame of the first waiting number of a TID at or past `from` for this cause. The number
    // fails. Returns where to search for the next one. None if no number waits there.
    fn drop_one(&mut self, station: u16, tid: u8, from: Seq12, cause: Cause) -> Option<Seq12>
        requires tid { tid < 8 }
        requires some { SomeFlushes cause self.old station tid from }
        ensures next { IfSome result (λ next. (before : TransmitValue) (w : World) (bodies : ℕ → FrameValue)
            (dropped : ℕ) →
            GivesFlushed cause before w bodies station tid self.old dropped from →
            GivesFlushed cause before w bodies station tid self.new (dropped + 1) next) }
        ensures ends { IfNone result ((before : TransmitValue) (w : World) (bodies : ℕ → FrameValue)
            (dropped : ℕ) →
            GivesFlushed cause before w bodies station tid self.old dropped from →
            HasNumbersFlushed cause before w bodies station tid self.new dropped) }
        ensures fewer { IfSome result (λ _. count_by waits (window_of self.new.windows station tid).places
            < count_by waits (window_of self.old.windows station tid).places) }
    {
        let (parcel, next) = self.windows.flush_next(station, tid, from, cause)?;
        self.finish(parcel);
        Some(next)
    }
}
