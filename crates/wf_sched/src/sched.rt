//! The scheduler: a rotation of stations for each of the four access classes.

ghost use Rattle.std.specs.Prelude.{◌≡◌, ◌↔◌, ◌*◌, ◌^◌, ◌<◌, ◌≤◌, ◌-◌, true, false, length, map, IfOk, IfNone, IfSome, IsErr, MatchResult, pos, negsuc, ◌+ℤ◌, ◌-ℤ◌, ◌≤ℤ◌, ◌<ℤ◌};
ghost use Rattle.wf_def_lists.specs.Bounds.{deepest_deficit};
ghost use Rattle.wf_def_rotation.specs.Rotation.{has_key};
ghost use Rattle.wf_def_lists.specs.Table.{has};
ghost use Rattle.wf_law_rules.specs.Renamed.{IsIdle};
ghost use Rattle.wf_rotation.specs.Rotas.{is_ready, lesser};
ghost use Rattle.wf_rotation.specs.Lists.{side_of};
ghost use Rattle.wf_sched.specs.ClassRotas.{class_rota_of, new_scheduler, class_rota, class_rotation, deficit, IsNowhere, with_class_rota, with_deficit, with_listing, after_join, with_quantum, after_station_left, pick_of_class, IsAfterPick, IsSchedulerSized};

use crate::Debt;
use std::alloc::{AllocError, Global};
use std::marker::Model;
use wf_frame::Class;
use wf_rotation::{Rota, Side};

/// The scheduler: for each access class a rotation of the stations that may have frames to send, and each
/// station's deficit of airtime in microseconds. Stations are numbered from 0.
///
/// Each class has one `Rota`, since a station can be on the lists of several classes at once.
pub struct Sched {
    /// One for each class, the least urgent first. Each has one rotation, whose keys are the stations.
    rotas: [Rota; 4],
    /// The airtime in microseconds that a station of weight 1 gets at each visit: 100 to 10,000.
    quantum: u32,
    stations: u32,
}

// Written out, so that the proof of a function that drops a `Sched` has one call instead of the drop of each
// rotation.
impl Drop for Sched {
    fn drop(self) {
        let Sched {
            rotas: _rotas,
            quantum: _,
            stations: _,
        } = self;
    }
}

impl Model for Sched {
    ghost use Rattle.std.specs.Prelude.{map};
    ghost use Rattle.wf_sched.specs.ClassRotas.{SchedValue, class_rota_of, AreRotasKept};

    ghost Value = { SchedValue };

    ghost view = { λ s. record {
      stations = s.stations;
      quantum = s.quantum;
      classes = map class_rota_of s.rotas;
    } };

    ghost invariant = { λ s. AreRotasKept s.rotas s.stations s.quantum };
}

impl Sched {
    /// Creates a scheduler for 1 to 256 stations, none of which is listed. `quantum` is the airtime in
    /// microseconds that a station of weight 1 gets at each visit: 100 to 10,000. Fails if there is no
    /// memory. No other call allocates.
    pub fn new(alloc: Global, stations: u32, quantum: u32) -> Result<Sched, AllocError>
        requires some { 1 ≤ stations }
        requires few { stations ≤ 256 }
        requires least { 100 ≤ quantum }
        requires most { quantum ≤ 10000 }
        ensures { IfOk result (λ sched. sched ≡ new_scheduler stations quantum) }
    {
        let rotas = [
            Rota::new(alloc, stations, 1, quantum)?,
            Rota::new(alloc, stations, 1, quantum)?,
            Rota::new(alloc, stations, 1, quantum)?,
            Rota::new(alloc, stations, 1, quantum)?,
        ];
        Ok(Sched {
            rotas,
            quantum,
            stations,
        })
    }

    /// Returns the station's deficit in a class, in microseconds.
    pub fn deficit(&self, station: u16, class: Class) -> i64
        requires { station < self.now.stations }
        ensures value { result ≡ deficit self.now class station }
        ensures sized { IsSchedulerSized self.now }
    {
        self.rotas[class.number()].deficit(u32::from(station))
    }

    /// Subtracts the airtime of an exchange, in microseconds, from the station's deficit in a class.
    pub fn charge(&mut self, station: u16, class: Class, air: u32)
        requires known { station < self.old.stations }
        requires low { negsuc (2 ^ 62 - 1) ≤ℤ (deficit self.old class station -ℤ pos air) }
        ensures { self.new ≡ with_deficit self.old class station (deficit self.old class station -ℤ pos air) }
    {
        let rota = &mut self.rotas[class.number()];
        rota.charge(u32::from(station), air);
    }

    /// Adds airtime that was charged before, in microseconds, to the station's deficit in a class.
    pub fn pay_back(&mut self, station: u16, class: Class, air: u32)
        requires known { station < self.old.stations }
        requires high { (deficit self.old class station +ℤ pos air) ≤ℤ pos (2 ^ 32 - 1) }
        ensures { self.new ≡ with_deficit self.old class station (deficit self.old class station +ℤ pos air) }
    {
        let rota = &mut self.rotas[class.number()];
        rota.pay_back(u32::from(station), air);
    }

    /// Subtracts the airtime of a frame that the station sent, in microseconds, from its deficit in a class,
    /// and returns the new deficit ("Ending the Anomaly", section 3.2: received airtime is charged too).
    /// Fails with `Debt` if the deficit would be below -`debt` microseconds; then nothing changes.
    pub fn rx(&mut self, station: u16, class: Class, air: u32, debt: u32) -> Result<i64, Debt>
        requires { station < self.old.stations }
        ensures refused { IsErr result ↔
            (deficit self.old class station -ℤ pos air) <ℤ deepest_deficit debt }
        ensures outcome { MatchResult result
            (λ left. (left ≡ deficit self.old class station -ℤ pos air) ×
            (self.new ≡ with_deficit self.old class station left))
            (λ refusal. (refusal.deficit ≡ deficit self.old class station) × (self.new ≡ self.old)) }
    {
        let deficit = self.deficit(station, class);
        if deficit < i64::from(air) - i64::from(debt) {
            return Err(Debt { deficit });
        }
        self.charge(station, class, air);
        Ok(deficit - i64::from(air))
    }

    /// Sets the station's quantum and its deficit in each class to the quantum times its weight, 1 to 16. The
    /// station must be on no list.
    pub fn join(&mut self, station: u16, weight: u8)
        requires known { station < self.old.stations }
        requires unlisted { IsNowhere self.old station }
        requires some { 1 ≤ weight }
        requires most { weight ≤ 16 }
        ensures { self.new ≡ record self.old {
          classes = map (after_join station (self.old.quantum * weight)) self.old.classes;
        } }
    {
        let key = u32::from(station);
        let quantum = self.quantum * u32::from(weight);
        for rota in self.rotas.iter_mut() {
            rota.set_quantum(key, quantum);
            rota.reset(key);
        }
    }

    /// Sets the station's quantum in each class to the quantum times this weight, 1 to 16, and returns it.
    /// Its deficits are unchanged.
    pub fn set_weight(&mut self, station: u16, weight: u8) -> u32
        requires known { station < self.old.stations }
        requires some { 1 ≤ weight }
        requires most { weight ≤ 16 }
        ensures quantum { result ≡ self.old.quantum * weight }
        ensures changed { self.new ≡ record self.old {
          classes = map (with_quantum station (self.old.quantum * weight)) self.old.classes;
        } }
    {
        let key = u32::from(station);
        let weighted = self.quantum * u32::from(weight);
        for rota in self.rotas.iter_mut() {
            rota.set_quantum(key, weighted);
        }
        weighted
    }

    /// Lowers the station's deficit in a class to `most` microseconds, at least -2^62, if it is above that.
    pub fn lower(&mut self, station: u16, class: Class, most: i64)
        requires known { station < self.old.stations }
        requires low { negsuc (2 ^ 62 - 1) ≤ℤ most }
        ensures { self.new ≡ with_deficit self.old class station
            (lesser (deficit self.old class station) most) }
    {
        let rota = &mut self.rotas[class.number()];
        rota.lower(u32::from(station), most);
    }

    /// Takes the station off the lists of each class. Constant time.
    pub fn leave(&mut self, station: u16)
        requires { station < self.old.stations }
        ensures { self.new ≡ record self.old { classes = map (after_station_left station) self.old.classes } }
    {
        for rota in self.rotas.iter_mut() {
            rota.remove(u32::from(station));
        }
    }

    /// Puts the station on a list of a class, unless it is on one already: last on the new list if it is
    /// ready, otherwise last on the old list, where its debts age. Constant time.
    pub fn list(&mut self, station: u16, class: Class, is_ready: bool)
        requires { station < self.old.stations }
        ensures { self.new ≡
            with_class_rota self.old class (with_listing is_ready station (class_rota self.old class)) }
    {
        let key = u32::from(station);
        let rota = &mut self.rotas[class.number()];
        if rota.where_is(key).is_some() {
            return;
        }
        if is_ready {
            rota.add_new(0, key);
        } else {
            rota.add_old(0, key);
        }
    }

    /// Returns the list of the class on which the station is, or None if it is on neither. Constant time. A
    /// caller uses it to check before a `join` that the station is on no list.
    pub fn listed(&self, station: u16, class: Class) -> Option<Side>
        requires { station < self.now.stations }
        ensures none { IfNone result (has_key (class_rotation self.now class) station ≡ false) }
        ensures some { IfSome result
            (λ side. has (side_of (class_rotation self.now class) side) station ≡ true) }
    {
        match self.rotas[class.number()].where_is(u32::from(station)) {
            None => None,
            Some((_list, side)) => Some(side),
        }
    }

    /// Picks the station whose turn it is in a class, or None if no listed station is ready (algorithm 3 of
    /// "Ending the Anomaly"). `ready` has one entry for each station.
    pub fn pick(&mut self, class: Class, ready: &[bool]) -> Option<u16>
        requires { length ready.now ≡ self.old.stations }
        ensures winner { result ≡ (pick_of_class self.old class ready.now).winner }
        ensures turned { IsAfterPick (class_rota self.old class) (pick_of_class self.old class ready.now)
            (class_rota self.new class) }
        ensures others { self.new ≡ with_class_rota self.old class (class_rota self.new class) }
        ensures none { IfNone result (IsIdle (is_ready ready.now) (class_rotation self.old class)) }
        ensures known { IfSome result (λ station. station < self.old.stations) }
        ensures listed { IfSome result (λ station. has_key (class_rotation self.old class) station ≡ true) }
        ensures is_ready { IfSome result (λ station. is_ready ready.now station ≡ true) }
    {
        let rota = &mut self.rotas[class.number()];
        let key = rota.pick(0, ready).winner?;
        Some(key as u16)
    }
}
