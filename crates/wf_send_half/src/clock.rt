//! Moving the clock to a time.

ghost use Rattle.std.specs.Prelude.{◌≡◌, ◌≤◌, ℕ, IfOk, IfErr, OnOk};
ghost use Rattle.std.specs.Result.{result_err};
ghost use Rattle.wf_frame.specs.Frames.{FrameValue};
ghost use Rattle.wf_def_world.specs.World.{World};
ghost use Rattle.wf_send_half_model.specs.Standing.{StandsFor};
ghost use Rattle.wf_send_half.specs.Clock.{at_time, time_fault};
ghost use Rattle.wf_send_half.specs.Half.{HasUnheardWorld};

use crate::Transmit;
use crate::half::Half;
use crate::refuse::refuse_where;
use wf_frame::Refusal;

/// The clock is moved to times below this, in microseconds. The clock has to stay below 2^62, so there is
/// room for later ticks.
const LATEST: u64 = 1 << 61;

// Checks a time that a clock is to be moved to.
fn check_time(clock: u64, now: u64) -> Result<(), Refusal>
    ensures fault { result_err result ≡ time_fault clock now }
    ensures later { IfOk result (λ _. clock ≤ now) }
{
    refuse_where(now < clock || LATEST <= now, Refusal::BadTick)
}

impl Half {
    // Moves the clock on to a time (`Transmit::advance`).
    fn advance(&mut self, now: u64) -> Result<u64, Refusal>
        ensures fault { result_err result ≡ time_fault self.old.clock now }
        ensures later { IfOk result (λ _. self.old.clock ≤ now) }
        ensures time { IfOk result (λ time. time ≡ now) }
        ensures moved { OnOk result (self.new ≡ record self.old { clock = now }) }
        ensures refused { IfErr result (λ _. self.new ≡ self.old) }
    {
        check_time(self.clock, now)?;
        self.clock = now;
        Ok(now)
    }
}

impl Transmit {
    /// Moves the clock on to `now`, in microseconds, and returns it. It changes what as many ticks as are
    /// needed would change, in constant time. Refused as BadTick if `now` is before the clock or is 2^61 or
    /// more.
    pub fn advance(&mut self, now: u64) -> Result<u64, Refusal>
        ensures fault { result_err result ≡ time_fault self.old.clock now }
        ensures time { IfOk result (λ time. time ≡ now) }
        ensures moved { OnOk result (self.new ≡ record self.old { clock = now }) }
        ensures stands { OnOk result ((w : World) (bodies : ℕ → FrameValue) → StandsFor self.old w bodies →
            StandsFor self.new (at_time w now) bodies) }
        ensures refused { IfErr result (λ _. self.new ≡ self.old) }
        ensures unheard { HasUnheardWorld self.new }
    {
        self.half.advance(now)
    }
}
