//! Which stations are ready, and how the scheduler lists them.

ghost use Rattle.std.specs.Prelude.{◌≡◌, ◌<◌, ◌&&◌, not, ℕ};
ghost use Rattle.wf_frame.specs.Frames.{FrameValue};
ghost use Rattle.wf_def_world.specs.World.{World};
ghost use Rattle.wf_def_world.specs.CanSend.{is_ready};
ghost use Rattle.wf_sched.specs.ClassRotas.{deficit};
ghost use Rattle.wf_send_parts.specs.Exchanges.{airtime_to};
ghost use Rattle.wf_send_parts.specs.Window.{can_take};
ghost use Rattle.wf_send_parts.specs.Windows.{window_of};
ghost use Rattle.wf_send_half_model.specs.Half.{can_send_of, is_held_back_of, is_below_aql_of, may_receive_of, has_live_credit_of, is_ready_of, pending_air_of, is_debtor_of};
ghost use Rattle.wf_send_half_model.specs.Standing.{StandsFor};
ghost use Rattle.wf_send_half_model.specs.Changes.{after_listing, after_listing_in};
ghost use Rattle.wf_send_half.specs.Half.{can_send_in_of};

use crate::half::Half;
use wf_frame::Class;

impl Half {
    /// Returns whether a station is ready in a class: it is live, one of the class's two TIDs can send, and
    /// it may receive. The station's number is below the setting `stations`.
    pub(crate) fn is_ready(&self, station: u16, class: Class) -> bool
        requires within { station < self.now.config.stations }
        ensures value { result ≡ is_ready_of self.now class station }
        ensures world { (w : World) (bodies : ℕ → FrameValue) → StandsFor self.now w bodies →
            result ≡ is_ready w class station }
    {
        self.members.is_live(station)
            && self.can_send_in(station, class)
            && self.may_receive(station, class)
    }

    // Returns whether a station may receive in a class: it is not stopped, it is awake or has a credit for
    // the class or a service period, and its airtime in flight is below the setting `aql`.
    fn may_receive(&self, station: u16, class: Class) -> bool
        requires within { station < self.now.config.stations }
        ensures value { result ≡ may_receive_of self.now station class }
    {
        let sleeper = self.sleepers.at(station);
        !sleeper.stopped && sleeper.is_reachable(class) && self.is_below_aql(station, class)
    }

    // Returns whether the airtime in flight to a station in a class is below the setting `aql`, which is no
    // limit if it is 0.
    fn is_below_aql(&self, station: u16, class: Class) -> bool
        requires within { station < self.now.config.stations }
        ensures value { result ≡ is_below_aql_of self.now station class }
    {
        self.config.aql == 0 || self.opened.airtime_to(station, class) < self.config.aql
    }

    // Returns whether a station has a credit that blocks a poll: with the setting `credits`, only one in
    // whose class it can send.
    pub(crate) fn has_live_credit(&self, station: u16) -> bool
        requires within { station < self.now.config.stations }
        ensures value { result ≡ has_live_credit_of self.now station }
    {
        match self.sleepers.credit(station) {
            Some(class) => self.config.credits == 0 || self.can_send_in(station, class),
            None => false,
        }
    }

    // Returns whether one of the two TIDs of a class can send.
    pub(crate) fn can_send_in(&self, station: u16, class: Class) -> bool
        requires within { station < self.now.config.stations }
        ensures value { result ≡ can_send_in_of self.now station class }
    {
        let [lower, upper] = class.tids();
        self.can_send(station, lower) || self.can_send(station, upper)
    }

    // Returns whether a TID can send. If a request is due: whether none is in an open exchange. Else: whether
    // a number waits, or a frame is queued that can get a number.
    pub(crate) fn can_send(&self, station: u16, tid: u8) -> bool
        requires within { station < self.now.config.stations }
        requires tid { tid < 8 }
        ensures value { result ≡ can_send_of self.now station tid }
    {
        let window = self.windows.at(station, tid);
        if window.bar_due() {
            !self.opened.asks(station, tid)
        } else {
            window.has_waiting()
                || (self.flows.queued(station, tid) > 0 && self.can_number(station, tid))
        }
    }

    // Returns whether no frame of a TID gets a number.
    pub(crate) fn is_held_back(&self, station: u16, tid: u8) -> bool
        requires within { station < self.now.config.stations }
        requires tid { tid < 8 }
        ensures { result ≡ is_held_back_of self.now station tid }
    {
        self.modes.at(station, tid).is_on_hold()
    }

    // Returns whether a frame of a TID can get a number: the window has room, and the TID is not held.
    pub(crate) fn can_number(&self, station: u16, tid: u8) -> bool
        requires within { station < self.now.config.stations }
        requires tid { tid < 8 }
        ensures { result ≡ (can_take (window_of self.now.windows station tid)
            && not (is_held_back_of self.now station tid)) }
    {
        self.windows.at(station, tid).can_give() && !self.modes.at(station, tid).is_on_hold()
    }

    // Returns the computed airtime of a station's open exchanges in a class, in microseconds.
    pub(crate) fn in_flight(&self, station: u16, class: Class) -> u32
        requires within { station < self.now.config.stations }
        ensures { result ≡ airtime_to self.now.opened station class }
    {
        self.opened.airtime_to(station, class)
    }

    // Returns the airtime in flight that counts against a station's deficit in a class, in microseconds: none
    // without the setting `pending`.
    pub(crate) fn pending_air(&self, station: u16, class: Class) -> u32
        requires within { station < self.now.config.stations }
        ensures { result ≡ pending_air_of self.now station class }
    {
        if self.config.pending == 1 {
            self.opened.airtime_to(station, class)
        } else {
            0
        }
    }

    // Returns what a station may still use in a class, in microseconds: its deficit less the airtime in
    // flight that counts.
    pub(crate) fn standing(&self, station: u16, class: Class) -> i64
        requires within { station < self.now.config.stations }
        ensures { result ≡ deficit self.now.sched class station }
    {
        self.sched.deficit(station, class)
    }

    // Returns whether a station is live and has nothing left to use in a class, with the setting `pending`.
    fn is_debtor(&self, station: u16, class: Class) -> bool
        requires within { station < self.now.config.stations }
        ensures { result ≡ is_debtor_of self.now class station }
    {
        self.config.pending == 1
            && self.members.is_live(station)
            && self.sched.deficit(station, class) <= 0
    }

    // Lists a station in each class in which it belongs on a list and is on none.
    pub(crate) fn list(&mut self, station: u16)
        requires within { station < self.old.config.stations }
        ensures { self.new ≡ after_listing self.old station }
    {
        self.list_in(station, Class::Bk);
        self.list_in(station, Class::Be);
        self.list_in(station, Class::Vi);
        self.list_in(station, Class::Vo);
    }

    // Lists a station in a class if it belongs on a list there and is on none, and returns whether it is
    // ready in the class. This is enough after a call that makes it ready, or a debtor, in no other class.
    pub(crate) fn list_in(&mut self, station: u16, class: Class) -> bool
        requires within { station < self.old.config.stations }
        ensures listed { self.new ≡ after_listing_in self.old station class }
        ensures ready { result ≡ is_ready_of self.new class station }
    {
        let is_ready = self.is_ready(station, class);
        if is_ready || self.is_debtor(station, class) {
            self.sched.list(station, class, is_ready);
        }
        is_ready
    }
}
