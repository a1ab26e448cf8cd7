//! The end of an exchange by what became of each of its transmissions, for a device that reports each frame.

ghost use Rattle.std.specs.Prelude.{◌≡◌, ◌<◌, ◌≤◌, if◌then◌else◌, ◌==◌, ◌∷◌, [], find, length, IfOk, IfSome};
ghost use Rattle.std.specs.Option.{option_map_or};
ghost use Rattle.std.specs.Result.{result_err};
ghost use Rattle.wf_def_lists.specs.Table.{with_member};
ghost use Rattle.wf_send_parts.specs.Exchanges.{transmissions_of};
ghost use Rattle.wf_path.specs.Each.{is_outcome_acked, IsEndedEach, each_refusal, each_fault, some_acked, outcome_of_ack, none_sent, air_of_none};
ghost use Rattle.wf_path.specs.Heard.{AreNumbersNear, IsNarrow, IsMarked, offsets_acked, heard_of};
ghost use Rattle.wf_path.specs.Paths.{IsPath, IsSmall};

use crate::Path;
use wf_frame::{Brief, Config, Refusal};
use wf_octets::bits::Bits256;
use wf_octets::seq12::Seq12;
use wf_send_parts::exchanges::{Numbers, Open, Sending};

/// The outcome of a transmission.
#[derive(Clone, Copy, Debug, PartialEq, Eq)]
pub enum Outcome {
    /// It was acknowledged.
    Acked,
    /// It was not acknowledged, and may be tried again. In a batch this is the same as `GaveUp`, since the
    /// device has repeated it.
    Retry,
    /// It never went on the air.
    Unsent,
    /// It was not acknowledged, and the device will not try it again.
    GaveUp,
}

/// The most transmissions of an exchange.
const MOST: usize = 256;

/// Returns the distances from `first` of the numbers whose transmissions were acknowledged.
fn offsets_acked(first: Seq12, numbers: &Numbers, outcomes: &[Outcome]) -> Bits256
    requires long { length outcomes.now ≡ length numbers.now }
    requires near { AreNumbersNear first numbers.now }
    ensures { result ≡ offsets_acked first [] numbers.now outcomes.now }
{
    let mut offsets = Bits256::empty();
    for i in 0..numbers.len() {
        offsets = with_outcome(offsets, numbers.at(i).ahead(first), outcomes[i]);
    }
    offsets
}

/// Returns these offsets, with one more if its transmission was acknowledged.
fn with_outcome(mut offsets: Bits256, offset: u16, outcome: Outcome) -> Bits256
    requires { offset < 256 }
    ensures { result ≡ (if is_outcome_acked outcome then with_member offset offsets else offsets) }
{
    match outcome {
        Outcome::Acked => offsets.set(offset),
        _ => {}
    }
    offsets
}

/// Returns whether any transmission was acknowledged.
fn some_acked(outcomes: &[Outcome]) -> bool
    ensures { result ≡ some_acked outcomes.now }
{
    outcomes
        .iter()
        .any(|outcome| matches!(outcome, Outcome::Acked))
}

/// Returns the BlockAck that shows exactly the numbers whose transmissions were acknowledged, if there are
/// any, or that answers a request.
fn heard_of(sending: &Sending, outcomes: &[Outcome]) -> Option<(Seq12, Bits256)>
    requires long { length outcomes.now ≡ transmissions_of sending.now }
    requires near { IsNarrow sending.now }
    ensures { result ≡ heard_of sending.now outcomes.now }
{
    if !some_acked(outcomes) {
        return None;
    }
    match sending {
        Sending::Data(numbers) => {
            let first = numbers.at(0);
            Some((first, offsets_acked(first, numbers, outcomes)))
        }
        Sending::Request(start) => Some((*start, Bits256::empty())),
    }
}

/// Returns why an open exchange does not end with these outcomes and this airtime, if it does not.
fn fault_of(config: &Config, outcomes: &[Outcome], air: Option<u32>, open: &Open) -> Option<Refusal>
    ensures { result ≡ each_fault config.now outcomes.now air open.now }
{
    if outcomes.len() != usize::from(open.count()) {
        Some(Refusal::BadIndex)
    } else if open.unsent.count() != 0 || open.given_up.count() != 0 {
        Some(Refusal::Marked)
    } else if config.is_bad_air(air) {
        Some(Refusal::BadAir)
    } else {
        None
    }
}

/// Returns the airtime of an exchange of which nothing went on the air: 1 microsecond, if the settings take
/// it.
fn air_of_none(config: &Config) -> Option<u32>
    ensures { result ≡ air_of_none config.now }
{
    if config.charge > 0 { Some(1) } else { None }
}

impl Path {
    /// Ends an exchange by what became of each of its transmissions, in their order. Those that never went on
    /// the air and those that the device will not try again are marked first. Then the exchange ends as by
    /// `done_bits` with a BlockAck that shows exactly the acknowledged numbers, or without one if there are
    /// none; a request is heard if it was acknowledged. So a batch ends, whose device reports each frame: one
    /// that went on the air and was not acknowledged fails. Refused, with nothing changed, as NoExchange if
    /// the exchange is not open, BadIndex if it has another number of transmissions, Marked if one of them
    /// has a mark already, or BadAir if `air` is 0 or above the setting `charge`.
    pub fn done_each(&mut self, exchange: u64, outcomes: &[Outcome], air: Option<u32>) -> Brief
        requires small { IsSmall self.old.half }
        ensures { IsEndedEach self.old exchange outcomes.now air self.new result }
    {
        match self.check_each(exchange, outcomes, air) {
            Ok(heard) => {
                self.mark_each(exchange, outcomes);
                self.done_bits(exchange, heard, air)
            }
            Err(reason) => Brief::Refused(reason),
        }
    }

    /// Ends an exchange of one transmission by whether its Ack was heard (IEEE 802.11-2012, 8.3.1.4), as
    /// `done_each` does. So a plain exchange ends. If the Ack was not heard, the frame fails if it was sent
    /// `attempts` times or if its number is 2,048 or more past the last acknowledged one, else it waits
    /// again. Refused as NoExchange, BadIndex if the exchange has more transmissions, Marked or BadAir.
    pub fn done_ack(&mut self, exchange: u64, acked: bool, air: Option<u32>) -> Brief
        requires small { IsSmall self.old.half }
        ensures { IsEndedEach self.old exchange (outcome_of_ack acked ∷ []) air self.new result }
    {
        let outcome = if acked {
            Outcome::Acked
        } else {
            Outcome::Retry
        };
        self.done_each(exchange, &[outcome], air)
    }

    /// Ends an exchange of which nothing went on the air, as `done_each` does: each of its frames waits
    /// again, and counts no transmission. Its station is charged 1 microsecond, or the computed charge if the
    /// setting `charge` is 0. Refused as NoExchange or Marked.
    pub fn cancel(&mut self, exchange: u64) -> Brief
        requires small { IsSmall self.old.half }
        ensures { IsEndedEach self.old exchange (none_sent self.old.half exchange)
            (air_of_none self.old.half.config) self.new result }
    {
        let count = self.count_of(exchange);
        let air = air_of_none(&self.config());
        self.done_each(exchange, &[Outcome::Unsent; MOST][..count], air)
    }

    // Returns how many transmissions an exchange has, at most 256; 0 if it is not open.
    fn count_of(&self, exchange: u64) -> usize
        ensures count { result ≡ option_map_or (λ x. transmissions_of x.sending)
            (find (λ x. x.number == exchange) self.now.half.opened) 0 }
        ensures few { result ≤ 256 }
    {
        match self.half.exchange(exchange) {
            Some(open) => usize::from(open.count()),
            None => 0,
        }
    }

    // Returns the BlockAck by which an exchange ends, if any, or why it does not end.
    fn check_each(
        &self,
        exchange: u64,
        outcomes: &[Outcome],
        air: Option<u32>,
    ) -> Result<Option<(Seq12, Bits256)>, Refusal>
        ensures refused { result_err result ≡ each_refusal self.now.half exchange outcomes.now air }
        ensures heard { IfOk result (λ heard. IfSome (find (λ x. x.number == exchange) self.now.half.opened)
            (λ x. heard ≡ heard_of x.sending outcomes.now)) }
        ensures path { IsPath self.now.half }
    {
        let Some(open) = self.half.exchange(exchange) else {
            return Err(Refusal::NoExchange);
        };
        match fault_of(&self.config(), outcomes, air, open) {
            Some(reason) => Err(reason),
            None => Ok(heard_of(&open.sending, outcomes)),
        }
    }

    // Marks each transmission that never went on the air, and each that the device will not try again.
    fn mark_each(&mut self, exchange: u64, outcomes: &[Outcome])
        requires { length outcomes.now ≤ 256 }
        ensures marked { IsMarked self.old.half self.new.half exchange 0 outcomes.now }
        ensures addresses { self.new.addresses ≡ self.old.addresses }
    {
        for i in 0..outcomes.len() {
            self.mark(exchange, i as u16, outcomes[i]);
        }
    }

    // Marks a transmission if it never went on the air, or if the device will not try it again.
    fn mark(&mut self, exchange: u64, index: u16, outcome: Outcome)
        ensures marked { IsMarked self.old.half self.new.half exchange index (outcome ∷ []) }
        ensures addresses { self.new.addresses ≡ self.old.addresses }
    {
        match outcome {
            Outcome::Unsent => {
                let _ = self.half.unsent(exchange, index);
            }
            Outcome::GaveUp => {
                let _ = self.half.give_up(exchange, index);
            }
            _ => {}
        }
    }
}
