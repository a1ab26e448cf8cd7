//! Agreements that begin and end, at both ends.

ghost use Rattle.std.specs.Prelude.{◌≡◌, ℕ, true};
ghost use Rattle.wf_frame.specs.Frames.{FrameValue};
ghost use Rattle.wf_frame.specs.Answers.{reply_of};
ghost use Rattle.wf_frame.specs.declared.notes.Ask.TheVariants.{Begin, Cease};
ghost use Rattle.wf_frame.specs.declared.notes.Note.TheVariants.{Asked};
ghost use Rattle.wf_def_world.specs.World.{World};
ghost use Rattle.wf_path.specs.Jobs.{changes_nothing};
ghost use Rattle.wf_path.specs.Paths.{IsSmall};
ghost use Rattle.wf_cell.specs.Engines.{EngineHasWorld, EngineIsIn, EngineMeets};

use crate::engine::Engine;
use wf_frame::{Answer, Brief};
use wf_path::{PathAsk, PathJob};

/// The window of a TID without an agreement, in numbers.
pub(crate) const PLAIN_WINDOW: u16 = 1;

impl Engine {
    // Begins the agreement of a TID that is held. The TID begins again at its receive half.
    pub(crate) fn begin(&mut self, station: u16, tid: u8, window: u16, answer: &mut Answer)
        requires some { EngineHasWorld self.old }
        requires small { IsSmall self.old.half }
        ensures meets { (w : World) (bodies : ℕ → FrameValue) → EngineIsIn self.old w bodies →
            EngineMeets w bodies (Asked (Begin station tid window)) self.new (reply_of answer.new) }
        ensures path_kept { changes_nothing (reply_of answer.new) ≡ true →
            self.new.half ≡ self.old.half }
    {
        let ask = PathAsk::Begin {
            station,
            tid,
            window,
        };
        let _ = self.path.call(PathJob::Call(ask), answer);
        match answer.brief {
            Brief::Begun => {
                let start = self.path.start_of(station, tid);
                self.peers.renew(station, tid, start, window);
            }
            _ => {}
        }
    }

    // Ends the agreement of a TID. Its receive half passes up the frames that it stores, and the TID begins
    // again there.
    pub(crate) fn cease(&mut self, station: u16, tid: u8, answer: &mut Answer)
        requires some { EngineHasWorld self.old }
        requires small { IsSmall self.old.half }
        ensures meets { (w : World) (bodies : ℕ → FrameValue) → EngineIsIn self.old w bodies →
            EngineMeets w bodies (Asked (Cease station tid)) self.new (reply_of answer.new) }
        ensures path_kept { changes_nothing (reply_of answer.new) ≡ true →
            self.new.half ≡ self.old.half }
    {
        let ask = PathAsk::Cease { station, tid };
        let _ = self.path.call(PathJob::Call(ask), answer);
        match answer.brief {
            Brief::Ceased { .. } => {
                let start = self.path.start_of(station, tid);
                answer.ids.clear();
                self.peers.move_to(station, tid, start, &mut answer.ids);
                self.peers.renew(station, tid, start, PLAIN_WINDOW);
            }
            _ => {}
        }
    }
}
