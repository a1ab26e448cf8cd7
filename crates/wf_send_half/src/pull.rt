//! The next exchange of a class.

ghost use Rattle.std.specs.Prelude.{◌≡◌, ◌↔◌, ◌<◌, ◌^◌, ◌≤◌, ◌-◌, ◌==◌, ◌&&◌, negsuc, pos, ◌-ℤ◌, ◌≤ℤ◌, ℕ, List, [], All, true, false, nat_le, count_by, length};
ghost use Rattle.wf_frame.specs.Classes.{class_of, has_class, same_class};
ghost use Rattle.wf_frame.specs.Frames.{FrameValue};
ghost use Rattle.wf_frame.specs.Answers.{reply_with};
ghost use Rattle.wf_frame.specs.declared.answers.Brief.TheVariants.{Send, Refused};
ghost use Rattle.wf_frame.specs.declared.notes.Ask.TheVariants.{Pull};
ghost use Rattle.wf_frame.specs.declared.notes.Note.TheVariants.{Asked};
ghost use Rattle.wf_frame.specs.declared.notes.Refusal.TheVariants.{Full, Ahead, Idle};
ghost use Rattle.wf_air.specs.Sizes.{SizeStandsFor};
ghost use Rattle.wf_def_lists.specs.Bounds.{greatest_air};
ghost use Rattle.wf_law_runs.specs.Rotations.{NoneReady};
ghost use Rattle.wf_sched.specs.ClassRotas.{deficit};
ghost use Rattle.wf_send_parts.specs.Exchanges.{airtime_of};
ghost use Rattle.wf_send_parts.specs.Sleepers.{sleeper, is_told_in};
ghost use Rattle.wf_def_world.specs.World.{World, Mpdu};
ghost use Rattle.wf_send_half_model.specs.Half.{is_plain_of, is_ready_of, is_ahead_of};
ghost use Rattle.wf_send_half_model.specs.Standing.{StandsFor, Meets, numbers_on_air};
ghost use Rattle.wf_send_half_model.specs.Changes.{after_listing_in};
ghost use Rattle.wf_send_half_model.specs.Filling.{IsTakingOff, charge_in};
ghost use Rattle.wf_send_half_model.specs.Pulling.{sending_tid_of, after_turn, has_some_of, has_more_in_of, has_more_of, more_data_of, ends_period_of, open_next, after_sending};
ghost use Rattle.wf_send_half.specs.Replies.{bodies_sent};
ghost use Rattle.wf_send_half.specs.Half.{HasWorld, IsLive};
ghost use Rattle.wf_send_half.specs.Pulls.{bounds_in, IsSenderTold, TellsWhoIsReady, TakesAggregates, IsSameButFrames, HasTakingOff, IsFlying, HasToPrepare, IsPreparedFor, start_sent, kind_of, kind_in};

use crate::bounds::Bounds;
use crate::fill::Aggregate;
use crate::half::Half;
use crate::pending::charge_opened;
use wf_air::fit::AggregateSize;
use wf_frame::{Brief, Class, Kind, Limits, NARROW_WINDOW, Pairs, Refusal};
use wf_octets::bits::Bits256;
use wf_send_parts::exchanges::{Numbers, Open, Sending};

/// The outcome of a pull.
#[derive(Clone, Copy)]
pub(crate) struct Pulled {
    /// The answer.
    pub(crate) brief: Brief,
    /// Whether the station that sends, if one does, is ready in the class after the pull.
    pub(crate) is_ready: bool,
}

/// The transmissions of an exchange, its charge in microseconds, and the start of a request.
#[derive(Drop)]
pub(crate) struct Prepared {
    sending: Sending,
    charge: u32,
    request: Option<u16>,
}

// Returns how an exchange sends its frames.
fn kind_of(batch: bool, plain: bool) -> Kind
    ensures { result ≡ kind_of batch plain }
{
    if batch {
        Kind::Batch
    } else if plain {
        Kind::Plain
    } else {
        Kind::Aggregate
    }
}

impl Half {
    // Opens the next exchange of a class within these limits (`Transmit::pull`). `ready` has an entry for
    // each station; for a listed station the entry says whether it is ready in the class. `is_idle` says
    // that none is ready there.
    pub(crate) fn pull(
        &mut self,
        class: Class,
        limits: Limits,
        ready: &[bool],
        is_idle: bool,
        pairs: &mut Pairs,
    ) -> Pulled
        requires some { HasWorld self.old }
        requires told { TellsWhoIsReady self.old class ready.now }
        requires idle { (w : World) (bodies : ℕ → FrameValue) → StandsFor self.old w bodies →
            (is_idle ≡ true) ↔ NoneReady w class }
        requires clock { self.old.clock < 2 ^ 62 }
        requires exchanges { self.old.exchanges < 2 ^ 62 }
        ensures meets { (w : World) (bodies : ℕ → FrameValue) → StandsFor self.old w bodies →
            Meets w (bodies_sent (reply_with result.brief pairs.new []) bodies) (Asked (Pull class limits))
            self.new (reply_with result.brief pairs.new []) }
        ensures ready { IsSenderTold self.new class result }
        ensures full { nat_le self.old.config.inflight
            (count_by (λ x. same_class x.class class) self.old.opened) ≡ true →
            (result.brief ≡ Refused (Full (count_by (λ x. same_class x.class class) self.old.opened))) ×
            (self.new ≡ self.old) }
        ensures ahead { nat_le self.old.config.inflight
            (count_by (λ x. same_class x.class class) self.old.opened) ≡ false →
            is_ahead_of self.old ≡ true →
            (result.brief ≡ Refused (Ahead (airtime_of self.old.opened))) × (self.new ≡ self.old) }
        ensures idle { self.old.config.pending ≡ 1 → result.brief ≡ Refused Idle → self.new ≡ self.old }
    {
        let count = self.opened.of_class(class);
        if self.config.inflight <= count {
            return Pulled {
                brief: Brief::Refused(Refusal::Full { count }),
                is_ready: false,
            };
        }
        if self.is_ahead() {
            let owed = self.opened.airtime();
            return Pulled {
                brief: Brief::Refused(Refusal::Ahead { owed }),
                is_ready: false,
            };
        }
        if self.stays_idle(is_idle) {
            return Pulled {
                brief: Brief::Refused(Refusal::Idle),
                is_ready: false,
            };
        }
        match self.sched.pick(class, ready) {
            Some(station) => {
                let tid = self.take_turn(station, class);
                let bounds = self.bounds(class, limits);
                let prepared = self.prepare(station, tid, bounds, pairs);
                self.put_on_air(station, tid, class, prepared)
            }
            None => Pulled {
                brief: Brief::Refused(Refusal::Idle),
                is_ready: false,
            },
        }
    }

    // Returns whether a pull stops before it picks: with the setting `pending`, if no station is ready.
    fn stays_idle(&self, is_idle: bool) -> bool
        ensures { result ≡ ((self.now.config.pending == 1) && is_idle) }
    {
        self.config.pending == 1 && is_idle
    }

    // Opens an exchange, which spends the credit of its station, or frames of its service period. With the
    // setting `pending` the station's standing falls by the charge.
    fn put_on_air(&mut self, station: u16, tid: u8, class: Class, prepared: Prepared) -> Pulled
        requires within { station < self.old.config.stations }
        requires tid { tid < 8 }
        requires small { self.old.exchanges < 2 ^ 62 }
        requires room { length self.old.opened < 32 }
        requires charge { prepared.charge ≤ greatest_air }
        requires above { All (λ x. x.number < self.old.exchanges) self.old.opened }
        requires request { prepared.request ≡ start_sent prepared.sending }
        requires low { negsuc (2 ^ 62 - 1) ≤ℤ (deficit self.old.sched class station -ℤ pos prepared.charge) }
        ensures opened { self.new ≡ after_listing_in
            (after_sending self.old station tid class prepared.charge prepared.sending) station class }
        ensures brief { result.brief ≡ Send self.old.exchanges station tid prepared.charge
            (start_sent prepared.sending)
            (kind_in self.old station tid)
            (open_next self.old station tid class prepared.charge prepared.sending).more
            (open_next self.old station tid class prepared.charge prepared.sending).eosp }
        ensures ready { result.is_ready ≡ is_ready_of self.new class station }
    {
        let exchange = self.exchanges;
        let charge = prepared.charge;
        let request = prepared.request;
        let frames = prepared.sending.frames();
        let more = self.has_more_data(station, class, &prepared.sending);
        let eosp = self.is_last(station, class, &prepared.sending, more);
        let batch = self.members.is_offloaded(station);
        let plain = self.is_plain(station, tid);
        self.opened.push(Open {
            number: exchange,
            station,
            tid,
            class,
            charge,
            sending: prepared.sending,
            more,
            eosp,
            batch,
            plain,
            unsent: Bits256::empty(),
            given_up: Bits256::empty(),
        });
        self.exchanges += 1;
        let is_on = self.config.pending == 1;
        charge_opened(&mut self.sched, station, class, charge, is_on);
        self.sleepers.spend(station, class, frames, eosp);
        let is_ready = self.list_in(station, class);
        let brief = Brief::Send {
            exchange,
            station,
            tid,
            air: charge,
            request,
            kind: kind_of(batch, plain),
            more,
            eosp,
        };
        Pulled { brief, is_ready }
    }

    // Returns the More Data bit of an exchange of a class that sends this: something waits for a station that
    // sleeps. In a service period it is about the delivery-enabled classes, otherwise about those of a poll.
    fn has_more_data(&self, station: u16, class: Class, sending: &Sending) -> bool
        requires within { station < self.now.config.stations }
        ensures { result ≡ more_data_of self.now station class sending.now }
    {
        let sleeper = self.sleepers.at(station);
        sleeper.asleep && !sending.is_request() && self.has_more_told(station, class)
    }

    // Returns whether an exchange of a class that sends this is the last of a service period: nothing is left
    // of it, or nothing waits. `more` is the More Data bit of the exchange.
    fn is_last(&self, station: u16, class: Class, sending: &Sending, more: bool) -> bool
        requires within { station < self.now.config.stations }
        requires more { more ≡ more_data_of self.now station class sending.now }
        ensures { result ≡ ends_period_of self.now station class sending.now }
    {
        let sleeper = self.sleepers.at(station);
        sleeper.is_served(class)
            && !sending.is_request()
            && (sleeper.is_used_up(sending.frames()) || !more)
    }

    // Returns whether a number waits or a frame is queued on some TID of a station, of the classes of a poll.
    pub(crate) fn has_more(&self, station: u16) -> bool
        requires within { station < self.now.config.stations }
        ensures { result ≡ has_more_of self.now station }
    {
        self.has_more_in(station, self.sleepers.at(station).polled())
    }

    // Returns this for the classes that the More Data bit of an exchange of a class is about.
    fn has_more_told(&self, station: u16, class: Class) -> bool
        requires within { station < self.now.config.stations }
        ensures { result ≡ has_more_in_of self.now station
            (is_told_in (sleeper self.now.sleepers station) class) }
    {
        self.has_more_in(station, self.sleepers.at(station).told(class))
    }

    // Returns this for these classes.
    fn has_more_in(&self, station: u16, classes: u8) -> bool
        requires within { station < self.now.config.stations }
        ensures { result ≡ has_more_in_of self.now station (has_class classes) }
    {
        self.has_some(station, 0, classes)
            || self.has_some(station, 1, classes)
            || self.has_some(station, 2, classes)
            || self.has_some(station, 3, classes)
            || self.has_some(station, 4, classes)
            || self.has_some(station, 5, classes)
            || self.has_some(station, 6, classes)
            || self.has_some(station, 7, classes)
    }

    // Returns whether a TID is of one of these classes, and a number of it waits or a frame is queued.
    fn has_some(&self, station: u16, tid: u8, classes: u8) -> bool
        requires within { station < self.now.config.stations }
        requires tid { tid < 8 }
        ensures { result ≡ (has_class classes (class_of tid) && has_some_of self.now station tid) }
    {
        Class::of_tid(tid).is_in(classes)
            && (self.windows.at(station, tid).has_waiting() || self.flows.queued(station, tid) > 0)
    }

    // Prepares a request if one is due, else an aggregate within these bounds, whose numbers fly from then
    // on.
    fn prepare(&mut self, station: u16, tid: u8, bounds: Bounds, pairs: &mut Pairs) -> Prepared
        requires within { station < self.old.config.stations }
        requires tid { tid < 8 }
        requires live { IsLive self.old station }
        requires small { self.old.clock < 2 ^ 62 }
        requires takes { TakesAggregates self.old station }
        requires some { 1 ≤ bounds.frames }
        requires few { bounds.frames ≤ 256 }
        requires due { HasToPrepare self.old station tid (bounds_in bounds) }
        ensures prepared { IsPreparedFor self.old self.new station tid (bounds_in bounds) result.charge
            pairs.new result.sending }
        ensures same { IsSameButFrames self.old self.new }
        ensures request { result.request ≡ start_sent result.sending }
    {
        let window = self.windows.at(station, tid);
        if window.bar_due() {
            let start = window.start();
            let rate = self.members.member(station).rate;
            return Prepared {
                sending: Sending::Request(start),
                charge: rate.request_charge(self.config.answers, window.size() > NARROW_WINDOW),
                request: Some(start.raw()),
            };
        }
        let limits = self.size_limits(station, bounds);
        let mut aggregate = Aggregate {
            numbers: Numbers::new(),
            size: AggregateSize::new(
                self.members.member(station).rate,
                limits,
                self.config.answers,
                self.windows.at(station, tid).size() > NARROW_WINDOW,
            ),
        };
        self.fill(station, tid, limits.frames, &mut aggregate);
        let charge = self.charge_of(station, tid, &aggregate);
        self.fly_all(station, tid, &aggregate.numbers, pairs);
        Prepared {
            sending: Sending::Data(aggregate.numbers),
            charge,
            request: None,
        }
    }

    // Returns the charge of an aggregate, or of one frame that an Ack answers, in microseconds.
    fn charge_of(&self, station: u16, tid: u8, aggregate: &Aggregate) -> u32
        requires within { station < self.now.config.stations }
        requires tid { tid < 8 }
        requires some { 1 ≤ aggregate.now.size.count }
        ensures { (lens : List ℕ) → SizeStandsFor aggregate.now.size lens →
            result ≡ charge_in aggregate.now.size (is_plain_of self.now station tid) lens }
    {
        if self.is_plain(station, tid) || aggregate.size.is_single() {
            aggregate.size.plain_air()
        } else {
            aggregate.size.air()
        }
    }

    // Returns the TID that sends: the TID whose turn it is, if it can send, else the other. The next turn
    // belongs to the TID that does not send.
    fn take_turn(&mut self, station: u16, class: Class) -> u8
        requires within { station < self.old.config.stations }
        requires live { IsLive self.old station }
        ensures tid { result ≡ sending_tid_of self.old station class }
        ensures low { result < 8 }
        ensures turned { self.new ≡ after_turn self.old station class result }
    {
        let [lower, upper] = class.tids();
        let member = self.members.member(station);
        let (first, other) = if member.upper[class.number()] {
            (upper, lower)
        } else {
            (lower, upper)
        };
        let tid = if self.can_send(station, first) {
            first
        } else {
            other
        };
        self.members.set_upper(station, class, tid == lower);
        tid
    }

    // Marks numbers as in flight in the next exchange, and writes each with the id of its frame, which counts
    // it.
    fn fly_all(&mut self, station: u16, tid: u8, numbers: &Numbers, pairs: &mut Pairs)
        requires within { station < self.old.config.stations }
        requires tid { tid < 8 }
        requires off { HasTakingOff self.old station tid numbers.now }
        ensures flown { (w : World) (bodies : ℕ → FrameValue) (mpdus : List Mpdu) (after : World) →
            IsTakingOff self.old w bodies station tid self.old.exchanges mpdus after →
            numbers.now ≡ numbers_on_air mpdus →
            IsFlying self.new bodies station tid self.old.exchanges mpdus after (length mpdus) pairs.new }
        ensures others { self.new ≡ record self.old { windows = self.new.windows } }
    {
        pairs.clear();
        for i in 0..numbers.len() {
            let number = numbers.at(i);
            let id = self.windows.fly(station, tid, number, self.exchanges);
            pairs.push((id, number.raw()));
        }
    }
}
