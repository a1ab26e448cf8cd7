//! Moving the clock to a time.

ghost use Rattle.std.specs.Prelude.{◌≡◌, true, is_some, pos};
ghost use Rattle.wf_c.specs.Calls.{Becomes, HoldsSmall};
ghost use Rattle.wf_c.specs.Clock.{IsAdvanced};

use crate::held::Held;
use crate::reply::Reply;
use crate::slot::PathSlot;
use wf_frame::Brief;

impl Held {
    // Moves the clock on to `now`, or is refused.
    fn advance(&mut self, now: u64) -> Reply
        ensures { IsAdvanced self.old now self.new result }
    {
        match self.path.advance(now) {
            Ok(time) => Reply::of(Brief::Now { now: time }),
            Err(reason) => Reply::of(Brief::Refused(reason)),
        }
    }
}

/// Moves the clock on to `now`, in microseconds, in constant time. It changes what as many ticks as are
/// needed would change, and answers as one tick. Returns 0; or 6 if `now` is before the clock or is 2^61 or
/// more, and then nothing has changed.
#[unsafe(no_mangle)]
pub extern "C" fn wf_path_advance(path: &mut PathSlot, now: u64, reply: &mut Reply) -> i32
    requires open { is_some path.old.value ≡ true }
    requires small { HoldsSmall path.old.value }
    ensures advanced { Becomes (λ h k. IsAdvanced h now k reply.new) path.old.value path.new.value }
    ensures code { result ≡ pos reply.new.refusal }
{
    *reply = path.held().advance(now);
    i32::from(reply.refusal)
}
