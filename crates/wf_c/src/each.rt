//! The end of an exchange by what a device reports of each of its transmissions.

ghost use Rattle.std.specs.Prelude.{◌≡◌, ◌<◌, ◌≤◌, ◌∷◌, [], ℕ, map, length, take, true, false, is_some, pos};
ghost use Rattle.wf_frame.specs.Frames.{FrameValue};
ghost use Rattle.wf_def_world.specs.World.{World, exchange as exchange_in};
ghost use Rattle.wf_send_half_model.specs.Standing.{StandsFor};
ghost use Rattle.wf_path.specs.Each.{none_sent, air_of_none, outcome_of_ack};
ghost use Rattle.wf_path.specs.Paths.{IsSmall};
ghost use Rattle.wf_c.specs.Bodies.{IsUntouched};
ghost use Rattle.wf_c.specs.Calls.{Becomes, HoldsFor, HoldsSmall};
ghost use Rattle.wf_c.specs.Each.{IsExchangeEndedEach, IsEndRefused, bad_outcome, has_bad_outcome, outcome_shown, refusal_of_many};
ghost use Rattle.wf_c.specs.Numbers.{given_number, is_up};

use crate::exchanges::given_number;
use crate::held::Held;
use crate::reply::Reply;
use crate::slot::PathSlot;
use wf_frame::{Brief, Refusal};
use wf_path::Outcome;

/// The code of numbers one of which is no number of an outcome.
const BAD_OUTCOME: i32 = 68;

/// The most transmissions of an exchange.
const MOST: usize = 256;

// The outcome with this number; a number above 3 shows the last one.
fn outcome_of_number(number: u8) -> Outcome
    ensures { result ≡ outcome_shown number }
{
    match number {
        0 => Outcome::Acked,
        1 => Outcome::Retry,
        2 => Outcome::Unsent,
        _ => Outcome::GaveUp,
    }
}

// Writes the outcomes with these numbers to the front of the list.
fn put_outcomes(numbers: &[u8], outcomes: &mut [Outcome; MOST])
    requires { length numbers.now ≤ 256 }
    ensures { take (length numbers.now) outcomes.new ≡ map outcome_shown numbers.now }
{
    for i in 0..numbers.len() {
        outcomes[i] = outcome_of_number(numbers[i]);
    }
}

// Returns whether one of these numbers is no number of an outcome.
fn has_bad_outcome(numbers: &[u8]) -> bool
    ensures { result ≡ has_bad_outcome numbers.now }
{
    numbers.iter().any(|number| 3 < *number)
}

impl Held {
    // Ends an exchange by the outcomes of its transmissions.
    fn end_each(&mut self, exchange: u64, numbers: &[u8], air: Option<u32>) -> Reply
        requires small { IsSmall self.old.path.half }
        requires few { length numbers.now ≤ 256 }
        ensures { IsExchangeEndedEach self.old exchange (map outcome_shown numbers.now) air self.new result }
    {
        let mut outcomes = [Outcome::Retry; MOST];
        put_outcomes(numbers, &mut outcomes);
        self.answer.brief = self
            .path
            .done_each(exchange, &outcomes[..numbers.len()], air);
        Reply::of(self.answer.brief)
    }

    // Ends an exchange of one transmission by whether its Ack was heard.
    fn end_by_ack(&mut self, exchange: u64, acked: bool, air: Option<u32>) -> Reply
        requires small { IsSmall self.old.path.half }
        ensures { IsExchangeEndedEach self.old exchange (outcome_of_ack acked ∷ []) air self.new result }
    {
        self.answer.brief = self.path.done_ack(exchange, acked, air);
        Reply::of(self.answer.brief)
    }

    // Ends an exchange of which nothing went on the air.
    fn cancel(&mut self, exchange: u64) -> Reply
        requires small { IsSmall self.old.path.half }
        ensures { IsExchangeEndedEach self.old exchange (none_sent self.old.path.half exchange)
            (air_of_none self.old.path.half.config) self.new result }
    {
        self.answer.brief = self.path.cancel(exchange);
        Reply::of(self.answer.brief)
    }

    // Refuses to end an exchange by more than 256 outcomes: no exchange has as many transmissions.
    fn refuse_many(&mut self, exchange: u64) -> Reply
        ensures { (w : World) (bodies : ℕ → FrameValue) → StandsFor self.old.path.half w bodies →
            IsEndRefused self.old (refusal_of_many (exchange_in w exchange)) self.new result }
    {
        let reason = match self.path.sent(exchange) {
            Some(_) => Refusal::BadIndex,
            None => Refusal::NoExchange,
        };
        Reply::of(Brief::Refused(reason))
    }
}

/// Ends an exchange by the outcomes of its transmissions, in their order: 0 for an acknowledged one, 1 for
/// one that may be tried again, 2 for one that never went on the air, and 3 for one that the device will not
/// try again. For a batch 1 is the same as 3, since the device has repeated its frames. The station is
/// charged `air` microseconds, or the computed charge if `air` is 0. Returns 0; 68 if an outcome is above 3,
/// and then nothing has changed; 12 if the exchange is not open; 9 if it has another number of transmissions;
/// 32 if one of them has a mark already; or 8 if `air` is above the setting `charge`.
#[unsafe(no_mangle)]
pub extern "C" fn wf_path_done_each(
    path: &mut PathSlot,
    exchange: u64,
    outcomes: &[u8],
    air: u32,
    reply: &mut Reply,
) -> i32
    requires open { is_some path.old.value ≡ true }
    requires small { HoldsSmall path.old.value }
    ensures ended { has_bad_outcome outcomes.now ≡ false → length outcomes.now ≤ 256 →
        Becomes (λ h k. IsExchangeEndedEach h exchange (map outcome_shown outcomes.now) (given_number air) k
        reply.new × (result ≡ pos reply.new.refusal)) path.old.value path.new.value }
    ensures many { has_bad_outcome outcomes.now ≡ false → 256 < length outcomes.now →
        (w : World) (bodies : ℕ → FrameValue) → HoldsFor path.old.value w bodies →
        Becomes (λ h k. IsEndRefused h (refusal_of_many (exchange_in w exchange)) k
        reply.new × (result ≡ pos reply.new.refusal)) path.old.value path.new.value }
    ensures bad { has_bad_outcome outcomes.now ≡ true →
        IsUntouched path.old.value path.new.value reply.old reply.new result bad_outcome }
{
    if has_bad_outcome(outcomes) {
        return BAD_OUTCOME;
    }
    let held = path.held();
    if MOST < outcomes.len() {
        *reply = held.refuse_many(exchange);
    } else {
        *reply = held.end_each(exchange, outcomes, given_number(air));
    }
    i32::from(reply.refusal)
}

/// Ends a plain exchange; `acked` other than 0 says that its frame was acknowledged. The station is charged
/// `air` microseconds, or the computed charge if `air` is 0. Returns 0; 12 if the exchange is not open; 9 if
/// it has more than one transmission; 32 if its transmission has a mark already; or 8 if `air` is above the
/// setting `charge`.
#[unsafe(no_mangle)]
pub extern "C" fn wf_path_done_ack(
    path: &mut PathSlot,
    exchange: u64,
    acked: u8,
    air: u32,
    reply: &mut Reply,
) -> i32
    requires open { is_some path.old.value ≡ true }
    requires small { HoldsSmall path.old.value }
    ensures ended { Becomes (λ h k. IsExchangeEndedEach h exchange (outcome_of_ack (is_up acked) ∷ [])
        (given_number air) k reply.new) path.old.value path.new.value }
    ensures code { result ≡ pos reply.new.refusal }
{
    *reply = path
        .held()
        .end_by_ack(exchange, acked != 0, given_number(air));
    i32::from(reply.refusal)
}

/// Ends an exchange of which nothing went on the air: its frames wait again. The station is charged 1
/// microsecond, or the computed charge if the setting `charge` is 0. Returns 0; 12 if the exchange is not
/// open; or 32 if one of its transmissions has a mark already.
#[unsafe(no_mangle)]
pub extern "C" fn wf_path_cancel(path: &mut PathSlot, exchange: u64, reply: &mut Reply) -> i32
    requires open { is_some path.old.value ≡ true }
    requires small { HoldsSmall path.old.value }
    ensures ended { Becomes (λ h k. IsExchangeEndedEach h exchange (none_sent h.path.half exchange)
        (air_of_none h.path.half.config) k reply.new) path.old.value path.new.value }
    ensures code { result ≡ pos reply.new.refusal }
{
    *reply = path.held().cancel(exchange);
    i32::from(reply.refusal)
}
