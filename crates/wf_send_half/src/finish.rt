//! The end of an exchange.

ghost use Rattle.std.specs.Prelude.{◌≡◌, ◌≢◌, ◌<◌, ◌==◌, ℕ, Bool, true, false, Some, length, find, is_ok, is_none, is_some, Option, IfOk, IfErr, IfNone, IfSome, List};
ghost use Rattle.wf_frame.specs.Classes.{tid_number};
ghost use Rattle.wf_frame.specs.Frames.{FrameValue};
ghost use Rattle.wf_frame.specs.declared.classes.Fate.TheVariants.{Held};
ghost use Rattle.wf_def_world.specs.World.{World, Mpdu, Exchange, exchange as exchange_in};
ghost use Rattle.wf_def_world.specs.CanSend.{is_request};
ghost use Rattle.wf_def_world.specs.Exchanges.{charge_of};
ghost use Rattle.wf_def_world.specs.Step.{done_outcome};
ghost use Rattle.wf_send_half_model.specs.Half.{TransmitValue};
ghost use Rattle.wf_send_half_model.specs.Standing.{StandsFor, Meets, Parts, numbers_on_air, open_of};
ghost use Rattle.wf_send_half_model.specs.Ending.{IsEnding, after_close, after_finish, after_answer};
ghost use Rattle.wf_send_half.specs.Bits.{is_shown, end_of_index, without_unsent, EndAlike, report_of, has_bad_air, is_answer_impossible, end_refusal, CanFinish, IsToSettle, IsClosed, GoesBy, with_one_more, all_ended, ended_reply, closed_reply, HasClosed, IsChargeSmall, IsNoBatch, IsToldAs, AreShown, AreArrived, NoneIsShown, count_shown, count_shown_of};
ghost use Rattle.wf_send_half.specs.Half.{HasWorld};
ghost use Rattle.wf_send_half.specs.Replies.{reply_of_result};
ghost use Rattle.wf_def_agreement.specs.Receiver.{Score};
ghost use Rattle.wf_def_agreement.specs.Session.{End as SessionEnd};
ghost use Rattle.wf_law_driver.specs.Inferred.{is_wholly_unsent};
ghost use Rattle.wf_send_parts.specs.Answers.{as_end};
ghost use Rattle.wf_frame.specs.declared.notes.Ask.TheVariants.{Done};
ghost use Rattle.wf_frame.specs.declared.notes.Note.TheVariants.{Asked};
ghost use Rattle.wf_send_half.specs.Counts.{AreCounted, HasFate};

use crate::half::Half;
use crate::pending::pay_back_ended;
use wf_frame::{Class, GREATEST_WINDOW, NARROW_WINDOW, Refusal};
use wf_octets::bits::Bits256;
use wf_octets::seq12::Seq12;
use wf_queue_parts::chain::Parcel;
use wf_send_parts::exchanges::{Numbers, Open, Sending};
use wf_send_parts::window::{End, Settled};

/// The numbers of frames of an exchange that ended, by their fate. They are at most 256 together.
#[derive(Clone, Copy)]
pub struct Ended {
    /// The number of acknowledged frames.
    pub acked: u16,
    /// The number of frames that wait for another transmission.
    pub waiting: u16,
    /// The number of frames that were sent as often as the setting `attempts` allows or were given up, and
    /// are dropped.
    pub failed: u16,
}

/// An exchange that ended, with the facts that set the flags.
#[derive(Clone, Copy)]
pub(crate) struct Closed {
    pub(crate) ended: Ended,
    /// Its station.
    pub(crate) station: u16,
    /// The class of its TID.
    pub(crate) class: Class,
    /// Whether its station is ready now in this class.
    pub(crate) is_ready: bool,
}

/// The report on an exchange that ends: the BlockAck that was heard, and the marks of the device.
#[derive(Clone, Copy)]
pub(crate) struct Report {
    /// Whether a number that is not acknowledged is not sent again: the device repeats the frames of a batch
    /// itself, and without an agreement the number may be too far above the last acknowledged one.
    pub(crate) last: bool,
    /// Whether BlockAcks of the TID have 256 bits.
    pub(crate) wide: bool,
    /// The start and the bits of the BlockAck that was heard, if one was.
    pub(crate) heard: Option<(Seq12, Bits256)>,
    /// The indices of the transmissions that never went on the air.
    pub(crate) unsent: Bits256,
    /// The indices of those that the device will not try again.
    pub(crate) given_up: Bits256,
}

// Returns how an exchange ends for the number of transmission `index`, 0 to 255.
fn end_at(report: &Report, index: u16, number: Seq12) -> End
    requires { index < 256 }
    ensures { as_end result ≡ end_of_index report.now index number }
{
    if report.unsent.has(index) {
        End::Unsent
    } else if is_shown(report.wide, &report.heard, number) {
        End::Acknowledged
    } else if report.last || report.given_up.has(index) {
        End::GivenUp
    } else {
        End::Missed
    }
}

// Returns whether the BlockAck that was heard, if any, shows a number.
fn is_shown(wide: bool, heard: &Option<(Seq12, Bits256)>, number: Seq12) -> bool
    ensures { result ≡ is_shown wide heard.now number }
{
    match heard {
        Some((start, bits)) => {
            let offset = number.ahead(*start);
            offset < (if wide { GREATEST_WINDOW } else { NARROW_WINDOW }) && bits.has(offset)
        }
        None => false,
    }
}

impl Half {
    // Ends an exchange (`Transmit::done`).
    pub(crate) fn done(
        &mut self,
        exchange: u64,
        heard: Option<(Seq12, Bits256)>,
        air: Option<u32>,
    ) -> Result<Closed, Refusal>
        requires some { HasWorld self.old }
        requires small { IsChargeSmall self.old exchange }
        ensures lost { IfNone heard ((w : World) (bodies : ℕ → FrameValue) → StandsFor self.old w bodies →
            IsNoBatch w exchange →
            Meets w bodies (Asked (Done exchange false air)) self.new (reply_of_result closed_reply result)) }
        ensures shown { IfSome heard (λ score. (w : World) (bodies : ℕ → FrameValue) (x : Exchange)
            (b : Score) → StandsFor self.old w bodies →
            exchange_in w exchange ≡ Some x → x.batch ≡ false → x.answer ≡ Some b →
            AreShown w x b (Some score) →
            Meets w bodies (Asked (Done exchange true air)) self.new (reply_of_result closed_reply result)) }
        ensures none_shown { (w : World) (bodies : ℕ → FrameValue) (x : Exchange) →
            StandsFor self.old w bodies →
            exchange_in w exchange ≡ Some x → x.batch ≡ false → is_request x.content ≡ false →
            is_wholly_unsent x ≡ false → NoneIsShown w x heard →
            Meets w bodies (Asked (Done exchange false air)) self.new (reply_of_result closed_reply result) }
        ensures arrived { (w : World) (bodies : ℕ → FrameValue) (x : Exchange) (told : Bool) →
            StandsFor self.old w bodies →
            exchange_in w exchange ≡ Some x → x.batch ≡ true → IsToldAs x heard told → AreArrived w x heard →
            Meets w bodies (Asked (Done exchange told air)) self.new (reply_of_result closed_reply result) }
        ensures found { is_ok result ≡ is_none (end_refusal self.old exchange heard air) }
        ensures refused { IfErr result (λ reason. (end_refusal self.old exchange heard air ≡ Some reason) ×
            (self.new ≡ self.old)) }
        ensures acked { IfOk result (λ closed. IfSome (find (λ x. x.number == exchange) self.old.opened) (λ x.
            closed.ended.acked ≡ count_shown_of self.old heard x)) }
        ensures closed { IfOk result (HasClosed self.old self.new exchange) }
    {
        if self.is_answer_impossible(exchange, &heard) {
            return Err(Refusal::NoAnswer);
        }
        if self.has_bad_air(exchange, air) {
            return Err(Refusal::BadAir);
        }
        let Some(open) = self.opened.take_out(exchange) else {
            return Err(Refusal::NoExchange);
        };
        let charge = air.unwrap_or(open.charge);
        let is_on = self.config.pending == 1;
        pay_back_ended(
            &mut self.sched,
            open.station,
            open.class,
            open.charge,
            is_on,
        );
        self.sched.charge(open.station, open.class, charge);
        self.members.charge(open.station, open.class, charge);
        let ended = self.settle(&open, &heard);
        let class = Class::of_tid(open.tid);
        let is_ready = self.list_in(open.station, class);
        Ok(Closed {
            ended,
            station: open.station,
            class,
            is_ready,
        })
    }

    // Returns whether something was heard for an exchange that is open, but that has no answer: it is no
    // batch, and nothing of it went on the air.
    fn is_answer_impossible(&self, exchange: u64, heard: &Option<(Seq12, Bits256)>) -> bool
        ensures { result ≡ is_answer_impossible self.now exchange heard.now }
    {
        heard.is_some()
            && match self.opened.find(exchange) {
                Some(open) => !open.batch && open.is_wholly_unsent(),
                None => false,
            }
    }

    // Returns whether an exchange is open and this airtime is out of range. It looks the exchange up only if
    // the airtime is out of range.
    fn has_bad_air(&self, exchange: u64, air: Option<u32>) -> bool
        ensures { result ≡ has_bad_air self.now exchange air }
    {
        self.config.is_bad_air(air) && self.opened.find(exchange).is_some()
    }

    // Settles the transmissions of an exchange that is closed and charged: each number of an aggregate by the
    // BlockAck that was heard and the marks of the device, and a request if anything was heard.
    fn settle(&mut self, open: &Open, heard: &Option<(Seq12, Bits256)>) -> Ended
        requires some { IsClosed self.old open.now }
        ensures settled { (v : TransmitValue) (w : World) (bodies : ℕ → FrameValue) (e : ℕ) (x : Exchange)
            (answered : Bool) (air : Option ℕ) →
            StandsFor v w bodies → exchange_in w e ≡ Some x → open.now ≡ open_of x →
            self.old ≡ after_close v open.now (charge_of air x) → GoesBy w x heard.now answered →
            Parts self.new (done_outcome w x answered air).world bodies }
        ensures reply { (v : TransmitValue) (w : World) (bodies : ℕ → FrameValue) (e : ℕ) (x : Exchange)
            (answered : Bool) (air : Option ℕ) →
            StandsFor v w bodies → exchange_in w e ≡ Some x → open.now ≡ open_of x →
            self.old ≡ after_close v open.now (charge_of air x) → GoesBy w x heard.now answered →
            ended_reply result ≡ (done_outcome w x answered air).reply }
        ensures acked { result.acked ≡ count_shown_of self.old heard.now open.now }
        ensures config { self.new.config ≡ self.old.config }
    {
        match &open.sending {
            Sending::Data(numbers) => {
                let report = self.report_on(open, heard);
                let ended = self.settle_all(open.station, open.tid, numbers, &report);
                self.catch_up(open.station, open.tid);
                ended
            }
            Sending::Request(start) => {
                if heard.is_some() {
                    self.windows.bar_heard(open.station, open.tid, *start);
                }
                Ended {
                    acked: 0,
                    waiting: 0,
                    failed: 0,
                }
            }
        }
    }

    // Returns the report on an exchange that ends.
    fn report_on(&self, open: &Open, heard: &Option<(Seq12, Bits256)>) -> Report
        requires tid { open.now.tid < 8 }
        requires within { tid_number open.now.station open.now.tid < length self.now.windows }
        ensures { result ≡ report_of self.now open.now heard.now }
    {
        let window = self.windows.at(open.station, open.tid);
        Report {
            last: open.batch || (open.plain && window.is_far()),
            wide: window.size() > NARROW_WINDOW,
            heard: *heard,
            unsent: open.unsent,
            given_up: open.given_up,
        }
    }

    // Settles each number of an aggregate, in order, by the report on its transmission.
    fn settle_all(&mut self, station: u16, tid: u8, numbers: &Numbers, report: &Report) -> Ended
        requires some { IsToSettle self.old station tid numbers.now (end_of_index report.now) }
        requires room { CanFinish self.old (length numbers.now) }
        ensures settled { (w after : World) (bodies : ℕ → FrameValue) (e : ℕ) (ends : ℕ → SessionEnd)
            (mpdus : List Mpdu) → IsEnding self.old w bodies station tid e ends mpdus after →
            EndAlike (end_of_index report.now) ends 0 mpdus →
            numbers.now ≡ numbers_on_air mpdus → Parts self.new after bodies }
        ensures counted { (w after : World) (bodies : ℕ → FrameValue) (e : ℕ) (ends : ℕ → SessionEnd)
            (mpdus : List Mpdu) → IsEnding self.old w bodies station tid e ends mpdus after →
            EndAlike (end_of_index report.now) ends 0 mpdus →
            numbers.now ≡ numbers_on_air mpdus → AreCounted after station tid mpdus result }
        ensures acked { result.acked ≡ count_shown report.now.wide report.now.heard
            (without_unsent 0 report.now.unsent numbers.now) }
        ensures config { self.new.config ≡ self.old.config }
    {
        let limit = self.config.attempts as u8;
        let mut ended = Ended {
            acked: 0,
            waiting: 0,
            failed: 0,
        };
        for i in 0..numbers.len() {
            let number = numbers.at(i);
            let end = end_at(report, i as u16, number);
            let answer = self.windows.settle(station, tid, number, end, limit);
            self.account_for(answer, &mut ended);
        }
        ended
    }

    // Counts how a window settled a number, and finishes its frame if it has its fate.
    fn account_for(&mut self, answer: Settled, ended: &mut Ended)
        requires fate { HasFate answer }
        requires room { CanFinish self.old 1 }
        requires few { all_ended ended.old < 256 }
        ensures half { self.new ≡ after_answer self.old answer }
        ensures ended { ended.new ≡ with_one_more ended.old answer }
    {
        match answer {
            Settled::Acked(parcel) => {
                self.finish(parcel);
                ended.acked += 1;
            }
            Settled::Waiting => ended.waiting += 1,
            Settled::Failed(parcel) => {
                self.finish(parcel);
                ended.failed += 1;
            }
        }
    }

    // Finishes a frame that has its fate.
    pub(crate) fn finish(&mut self, parcel: Parcel)
        requires fate { parcel.fate ≢ Held }
        requires room { CanFinish self.old 1 }
        ensures { self.new ≡ after_finish self.old parcel }
    {
        self.tally.settle(parcel.frame().fate);
        self.flows.finish(parcel);
    }
}
