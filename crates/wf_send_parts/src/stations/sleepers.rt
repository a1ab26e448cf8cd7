//! Which stations sleep, their credits and service periods, which stations are stopped, and of which BSS each
//! is.

ghost use Rattle.std.specs.Prelude.{◌≡◌, ◌<◌, ◌≤◌, ◌&&◌, Some, None, IfOk, IfSome, true, false, length, replicate};
ghost use Rattle.wf_frame.specs.Classes.{has_class};
ghost use Rattle.wf_frame.specs.declared.classes.Class.{Class};

use std::alloc::{AllocError, Global};
use std::marker::Model;
use wf_frame::{Class, GREATEST_CLASSES};

/// A station of BSS 0 that is awake, without a credit or a delivery-enabled class, and not stopped.
const AWAKE: Sleeper = Sleeper {
    asleep: false,
    credit: None,
    stopped: false,
    bss: 0,
    delivery: 0,
    most: 0,
    service: None,
};

/// The power-save state of a station, whether its driver stopped it, and its BSS.
#[derive(Clone, Copy, Debug, PartialEq, Eq)]
pub struct Sleeper {
    /// Whether it sleeps.
    pub asleep: bool,
    /// The class of which one exchange may be sent to it while it sleeps.
    pub credit: Option<Class>,
    /// Whether no pull picks it.
    pub stopped: bool,
    /// The number of its BSS, for whose beacons it wakes.
    pub bss: u8,
    /// Its delivery-enabled classes (IEEE 802.11-2012, 10.2.1.5): bit c is 1 if class number c is one.
    pub delivery: u8,
    /// The most frames of a service period. 0 means no limit.
    pub most: u8,
    /// How many frames are left of its service period, if one is open. 0 means no limit.
    pub service: Option<u8>,
}

impl Sleeper {
    ghost use Rattle.wf_send_parts.specs.Sleepers.{is_polled_in, is_reachable_in, is_served_in, is_told_in, is_used_up, service_limit_in};

    /// Returns whether an exchange of a class is part of its service period: one is open, and the class is
    /// delivery-enabled.
    pub fn is_served(self, class: Class) -> bool
        ensures { result ≡ is_served_in self class }
    {
        self.service.is_some() && class.is_in(self.delivery) && self.asleep
    }

    /// Returns whether it receives in a class now: it is awake, or has a credit for the class or a service
    /// period.
    pub fn is_reachable(self, class: Class) -> bool
        ensures { result ≡ is_reachable_in self class }
    {
        !self.asleep || self.credit == Some(class) || self.is_served(class)
    }

    /// Returns the classes of its polls, as a set: those that are not delivery-enabled, or all four if all
    /// are.
    pub fn polled(self) -> u8
        ensures { (c : Class) → has_class result c ≡ is_polled_in self c }
    {
        if self.delivery == GREATEST_CLASSES {
            GREATEST_CLASSES
        } else {
            GREATEST_CLASSES - self.delivery % (GREATEST_CLASSES + 1)
        }
    }

    /// Returns the classes that the More Data bit of an exchange of a class is about, as a set: in a service
    /// period those that are delivery-enabled, otherwise those of a poll.
    pub fn told(self, class: Class) -> u8
        ensures { (c : Class) → has_class result c ≡ is_told_in self class c }
    {
        if self.is_served(class) {
            self.delivery
        } else {
            self.polled()
        }
    }

    /// Returns the most frames of an exchange of a class if it is part of a service period with a limit:
    /// those that are left, 1 to 255.
    pub fn service_limit(self, class: Class) -> Option<u8>
        ensures exact { result ≡ service_limit_in self class }
        ensures some { IfSome result (λ left. 1 ≤ left) }
    {
        match self.service {
            Some(left) if self.is_served(class) && left > 0 => Some(left),
            _ => None,
        }
    }

    /// Returns whether this number of frames is all that is left of its service period.
    pub fn is_used_up(self, frames: u16) -> bool
        ensures { result ≡ is_used_up self frames }
    {
        match self.service {
            Some(left) => left > 0 && u16::from(left) <= frames,
            None => false,
        }
    }
}

/// All stations, awake or asleep, with their credits and service periods, stopped or not. Contracts see them
/// as a list by number.
#[derive(Drop)]
pub struct Sleepers {
    stations: Vec<Sleeper>,
}

impl Model for Sleepers {
    ghost use Rattle.std.specs.Prelude.{List};
    ghost use Rattle.wf_send_parts.specs.declared.stations.sleepers.Sleeper.{Sleeper};

    ghost Value = { List Sleeper };

    ghost view = { λ s. s.stations.items };
}

impl Sleepers {
    ghost use Rattle.wf_send_parts.specs.Sleepers.{awake, sleeper, with_sleeper, woken, sleeper_spent};

    /// Creates `stations` stations, 1 to 256, all awake, without a credit, not stopped, and of BSS 0. None
    /// has a delivery-enabled class. Fails only if memory runs out.
    pub fn new(alloc: Global, stations: u32) -> Result<Sleepers, AllocError>
        requires { (1 ≤ stations) × (stations ≤ 256) }
        ensures { IfOk result (λ made. made ≡ replicate stations awake) }
    {
        Ok(Sleepers {
            stations: vec![in alloc; AWAKE; stations as usize]?,
        })
    }

    /// Makes a station awake, without a credit or a delivery-enabled class, not stopped, and of BSS 0.
    pub fn reset(&mut self, station: u16)
        requires { station < length self.old }
        ensures { self.new ≡ with_sleeper self.old station awake }
    {
        self.stations[usize::from(station)] = AWAKE;
    }

    /// Returns the state of a station.
    pub fn at(&self, station: u16) -> Sleeper
        requires { station < length self.now }
        ensures { result ≡ sleeper self.now station }
    {
        self.stations[usize::from(station)]
    }

    /// Returns whether a station sleeps.
    pub fn asleep(&self, station: u16) -> bool
        requires { station < length self.now }
        ensures { result ≡ (sleeper self.now station).asleep }
    {
        self.stations[usize::from(station)].asleep
    }

    /// Puts a station to sleep.
    pub fn sleep(&mut self, station: u16)
        requires { station < length self.old }
        ensures { self.new ≡ with_sleeper self.old station
            (record (sleeper self.old station) { asleep = true }) }
    {
        self.stations[usize::from(station)].asleep = true;
    }

    /// Wakes a station, clears its credit and ends its service period.
    pub fn wake(&mut self, station: u16)
        requires { station < length self.old }
        ensures { self.new ≡ with_sleeper self.old station (woken (sleeper self.old station)) }
    {
        let sleeper = &mut self.stations[usize::from(station)];
        sleeper.asleep = false;
        sleeper.credit = None;
        sleeper.service = None;
    }

    /// Gives a sleeping station a credit for this class, instead of one that it may have.
    pub fn grant(&mut self, station: u16, class: Class)
        requires within { station < length self.old }
        requires asleep { (sleeper self.old station).asleep ≡ true }
        ensures { self.new ≡ with_sleeper self.old station
            (record (sleeper self.old station) { credit = Some class }) }
    {
        self.stations[usize::from(station)].credit = Some(class);
    }

    /// Returns a station's credit. None if it was given none, or has spent it or woken since.
    pub fn credit(&self, station: u16) -> Option<Class>
        requires { station < length self.now }
        ensures { result ≡ (sleeper self.now station).credit }
    {
        self.stations[usize::from(station)].credit
    }

    /// An exchange of a class goes to a station, with this number of frames, 0 for a request. If it is part
    /// of a service period, it uses them, and `eosp` says that it ends the period. It spends a credit, unless
    /// it is part of a service period and the credit is for another class.
    pub fn spend(&mut self, station: u16, class: Class, frames: u16, eosp: bool)
        requires { station < length self.old }
        ensures { self.new ≡ with_sleeper self.old station
            (sleeper_spent class frames eosp (sleeper self.old station)) }
    {
        let sleeper = &mut self.stations[usize::from(station)];
        let is_served = sleeper.is_served(class);
        if !is_served || sleeper.credit == Some(class) {
            sleeper.credit = None;
        }
        if is_served {
            sleeper.service = match sleeper.service {
                Some(left) if !eosp => Some(u16::from(left).saturating_sub(frames) as u8),
                _ => None,
            };
        }
    }

    /// Gives a station these delivery-enabled classes, and service periods of at most `most` frames, 0 for no
    /// limit.
    pub fn set_delivery(&mut self, station: u16, classes: u8, most: u8)
        requires { station < length self.old }
        ensures { self.new ≡ with_sleeper self.old station
            (record (sleeper self.old station) { delivery = classes; most = most }) }
    {
        let sleeper = &mut self.stations[usize::from(station)];
        sleeper.delivery = classes;
        sleeper.most = most;
    }

    /// Returns the number of a station's BSS.
    pub fn bss(&self, station: u16) -> u8
        requires { station < length self.now }
        ensures { result ≡ (sleeper self.now station).bss }
    {
        self.stations[usize::from(station)].bss
    }

    /// Makes a station one of this BSS.
    pub fn set_bss(&mut self, station: u16, bss: u8)
        requires { station < length self.old }
        ensures { self.new ≡ with_sleeper self.old station
            (record (sleeper self.old station) { bss = bss }) }
    {
        self.stations[usize::from(station)].bss = bss;
    }

    /// Opens a service period of a sleeping station.
    pub fn open(&mut self, station: u16)
        requires within { station < length self.old }
        requires asleep { (sleeper self.old station).asleep ≡ true }
        ensures { self.new ≡ with_sleeper self.old station
            (record (sleeper self.old station) { service = Some (sleeper self.old station).most }) }
    {
        let sleeper = &mut self.stations[usize::from(station)];
        sleeper.service = Some(sleeper.most);
    }

    /// Ends a station's service period.
    pub fn close(&mut self, station: u16)
        requires { station < length self.old }
        ensures { self.new ≡ with_sleeper self.old station
            (record (sleeper self.old station) { service = None }) }
    {
        self.stations[usize::from(station)].service = None;
    }

    /// Returns whether no pull picks a station.
    pub fn stopped(&self, station: u16) -> bool
        requires { station < length self.now }
        ensures { result ≡ (sleeper self.now station).stopped }
    {
        self.stations[usize::from(station)].stopped
    }

    /// Stops a station, or starts it again.
    pub fn set_stopped(&mut self, station: u16, stopped: bool)
        requires { station < length self.old }
        ensures { self.new ≡ with_sleeper self.old station
            (record (sleeper self.old station) { stopped = stopped }) }
    {
        self.stations[usize::from(station)].stopped = stopped;
    }
}
