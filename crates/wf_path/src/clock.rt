//! Moving a path's clock to a time.

ghost use Rattle.std.specs.Prelude.{◌≡◌, ℕ, IfOk, IfErr, OnOk};
ghost use Rattle.std.specs.Result.{result_err};
ghost use Rattle.wf_frame.specs.Frames.{FrameValue};
ghost use Rattle.wf_def_world.specs.World.{World};
ghost use Rattle.wf_send_half.specs.Clock.{at_time, time_fault};
ghost use Rattle.wf_send_half_model.specs.Standing.{StandsFor};
ghost use Rattle.wf_path.specs.Paths.{IsPath, IsSmall};

use crate::Path;
use wf_frame::Refusal;

impl Path {
    /// Moves the clock on to `now`, in microseconds, and returns it. It changes what as many ticks as are
    /// needed would change, in constant time. Refused as BadTick if `now` is before the clock or is 2^61 or
    /// more.
    pub fn advance(&mut self, now: u64) -> Result<u64, Refusal>
        ensures fault { result_err result ≡ time_fault self.old.half.clock now }
        ensures time { IfOk result (λ time. time ≡ now) }
        ensures stands { OnOk result ((w : World) (bodies : ℕ → FrameValue) →
            StandsFor self.old.half w bodies → StandsFor self.new.half (at_time w now) bodies) }
        ensures refused { IfErr result (λ _. self.new ≡ self.old) }
        ensures small { IsSmall self.old.half → IsSmall self.new.half }
        ensures addresses { self.new.addresses ≡ self.old.addresses }
        ensures path { IsPath self.new.half }
    {
        self.half.advance(now)
    }
}
