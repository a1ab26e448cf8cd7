//! The flow queues: frames are put in and taken out, and those of a TID are purged or flushed.

ghost use Rattle.std.specs.Prelude.{◌≡◌, ℕ, ◌+◌, ◌<◌, ◌≤◌, ◌^◌, ◌↔◌, true, false, length, [], ◌∷◌, ◌++◌, IfOk, IfSome, IfNone, OnSome, IsSome, MatchOption, Some, None, option_map};
ghost use Rattle.wf_frame.specs.Settings.{first_out_of_range};
ghost use Rattle.wf_queue_flows.specs.CodelParams.{params_of};
ghost use Rattle.wf_queue_flows.specs.Backlog.{frames_at, queue_octets, codel_at, in_queues, held_in_backlog, first_id, after_head_drop, after_emptying, unchanged, IsLongest};
ghost use Rattle.wf_frame.specs.Classes.{tid_number};
ghost use Rattle.wf_queue_flows.specs.Flows.{settings, tids, queues, is_listed, frames_of_tid, octets_of_tid, flows_at_limit, longest_queue, loses_next, dropped_for_limit, queue_for, after_limit, with_listed_queue, with_appended, after_put, taken_for_tid, after_purge, after_tid_flush, empty_flows, AreListedOnce, TakeGives};
ghost use Rattle.wf_queue_flows.specs.Kept.{CanList, without_queue};

use crate::backlog::{Backlog, Taken};
use crate::codel::{Codel, Params};
use std::alloc::{AllocError, Global};
use std::marker::Model;
use wf_frame::{Cause, Config, tid_number};
use wf_queue_parts::chain::Parcel;
use wf_rotation::Rota;

/// A frame that was dropped for the limit, with its station and TID.
#[derive(Clone, Copy)]
pub struct Lost {
    pub id: u64,
    pub station: u16,
    pub tid: u8,
}

/// A queue, and the number of the TID that lists it: 8 times the station plus the TID.
#[derive(Clone, Copy)]
struct Listed {
    list: u32,
    queue: u32,
}

// Returns how many frames queue `at` loses if the head of the queue `over` is dropped: 1 or 0.
fn frames_lost(over: Option<Listed>, at: u32) -> u32
    ensures none { IfNone over (result ≡ 0) }
    ensures here { IfSome over (λ from. from.queue ≡ at → result ≡ 1) }
    ensures elsewhere { IfSome over (λ from. (from.queue ≡ at → ⊥) → result ≡ 0) }
{
    match over {
        Some(from) if from.queue == at => 1,
        _ => 0,
    }
}

/// The flow queues of all stations, and the list of the finished frames.
///
/// There are `flows` queues that all TIDs share, and one more for each TID, its overflow queue. A queue
/// belongs to the TID whose rotation lists it ("Ending the Anomaly", section 3.1).
#[derive(Drop)]
pub struct Flows {
    flows: u32,
    stations: u32,
    limit: u32,
    flow_quantum: u32,
    keep_order: u32,
    codel_reset: u32,
    waiting: Backlog,
    rota: Rota,
    queued: Vec<u32>,
}

impl Model for Flows {
    ghost use Rattle.wf_queue_flows.specs.Flows.{FlowsValue};
    ghost use Rattle.wf_queue_flows.specs.Kept.{AreFlowsKept};

    ghost Value = { FlowsValue };

    ghost view = { λ f. record {
      flows = f.flows;
      stations = f.stations;
      limit = f.limit;
      flow_quantum = f.flow_quantum;
      keep_order = f.keep_order;
      codel_reset = f.codel_reset;
      backlog = f.waiting;
      rotas = f.rota;
    } };

    ghost invariant = { λ f. AreFlowsKept
        (record {
          flows = f.flows;
          stations = f.stations;
          limit = f.limit;
          flow_quantum = f.flow_quantum;
          keep_order = f.keep_order;
          codel_reset = f.codel_reset;
          backlog = f.waiting;
          rotas = f.rota;
        }) f.queued.items };
}

impl Flows {
    /// Creates empty flow queues with the numbers of stations and queues, the limit, the room, the flow
    /// quantum and `codel_reset` of these settings. Fails if there is no memory. No other call allocates.
    pub fn new(alloc: Global, config: Config) -> Result<Flows, AllocError>
        requires { first_out_of_range config ≡ None }
        ensures made { IfOk result (λ f. f ≡ empty_flows config) }
        ensures empty { IfOk result (λ f. held_in_backlog f.backlog ≡ 0) }
    {
        let tids = 8 * config.stations;
        let queues = config.flows + tids;
        let queued = vec![in alloc; 0; tids as usize]?;
        let rota = Rota::new(alloc, queues, tids, config.flow_quantum)?;
        let waiting = Backlog::new(alloc, queues, config.room)?;
        Ok(Flows {
            flows: config.flows,
            stations: config.stations,
            limit: config.limit,
            flow_quantum: config.flow_quantum,
            keep_order: config.keep_order,
            codel_reset: config.codel_reset,
            waiting,
            rota,
            queued,
        })
    }

    /// Returns the number of frames of a TID in the queues.
    pub fn queued(&self, station: u16, tid: u8) -> u32
        requires station { station < self.now.stations }
        requires tid { tid < 8 }
        ensures { result ≡ frames_of_tid self.now (tid_number station tid) }
    {
        self.queued[tid_number(station, tid) as usize]
    }

    /// Returns the number of frames of all TIDs in the queues. The contract also states what holds at each
    /// moment: exactly one TID lists a queue that has frames.
    pub fn total(&self) -> u32
        ensures total { result ≡ in_queues self.now.backlog }
        ensures listed { AreListedOnce self.now }
    {
        self.waiting.queued
    }

    /// Returns the number of queues, which are numbered from 0: the shared queues, and then an overflow queue
    /// for each TID, by 8 times its station plus the TID.
    pub fn queues(&self) -> u32
        ensures { result ≡ queues self.now }
    {
        self.flows + 8 * self.stations
    }

    /// Returns the octets of the bodies in a queue.
    pub fn octets_of(&self, q: u32) -> u64
        requires { q < queues self.now }
        ensures { result ≡ queue_octets (frames_at self.now.backlog q) }
    {
        self.waiting.octets_of(q)
    }

    /// Returns the CoDel state of a queue.
    pub fn codel_of(&self, q: u32) -> Codel
        requires { q < queues self.now }
        ensures { result ≡ codel_at self.now.backlog q }
    {
        self.waiting.codel_of(q)
    }

    /// Returns the octets of the bodies in the queues that a TID lists. It looks at each queue number once.
    pub fn octets(&self, station: u16, tid: u8) -> u64
        requires station { station < self.now.stations }
        requires tid { tid < 8 }
        ensures { result ≡ octets_of_tid self.now (tid_number station tid) }
    {
        let list = tid_number(station, tid);
        let mut octets = 0;
        for q in 0..self.queues() {
            if self.lists(list, q) {
                octets += self.waiting.octets_of(q);
            }
        }
        octets
    }

    /// Puts a frame into a queue of its station and TID (algorithm 1 of "Ending the Anomaly"). The queue
    /// is the flow's number modulo `flows`, or the TID's overflow queue if another TID lists that queue.
    /// With `keep_order`, it is also the overflow queue while that has a frame of that queue's flows. If
    /// the queues already hold `limit` frames or more, the head of the longest queue is dropped and
    /// returned; else this returns None. `now` is the clock in microseconds, which is the frame's stamp.
    pub fn put(&mut self, parcel: Parcel, now: u64) -> Option<Lost>
        requires station { parcel.station < self.old.stations }
        requires tid { parcel.tid < 8 }
        requires stamp { parcel.stamp ≡ now }
        requires room { held_in_backlog self.old.backlog < self.old.backlog.room }
        ensures put { self.new ≡ after_put self.old (tid_number parcel.station parcel.tid) parcel }
        ensures dropped { option_map (λ lost. lost.id) result ≡ dropped_for_limit self.old }
        ensures station { IfSome result (λ lost. lost.station < self.old.stations) }
        ensures tid { IfSome result (λ lost. lost.tid < 8) }
        ensures loses { IfSome result (λ lost. loses_next self.old lost.station lost.tid ≡ true) }
        ensures only { (s t : ℕ) → t < 8 → loses_next self.old s t ≡ true →
            option_map {U = ℕ × ℕ} (λ lost. (lost.station, lost.tid)) result ≡ Some (s, t) }
        ensures full { IsSome result ↔ (self.old.limit ≤ in_queues self.old.backlog) }
        ensures greatest { OnSome result
            (IsLongest self.old.backlog (longest_queue self.old.backlog)) }
        ensures held { held_in_backlog self.new.backlog ≡ held_in_backlog self.old.backlog + 1 }
        ensures settings { settings self.new ≡ settings self.old }
    {
        let list = tid_number(parcel.frame().station(), parcel.frame().tid());
        let flow = parcel.frame().flow();
        let over = self.over_limit();
        let q = self.queue_for(list, flow, over);
        self.list_queue(list, q);
        match over {
            None => {
                self.waiting.push(q, parcel);
                self.queued[list as usize] += 1;
                None
            }
            Some(from) => Some(self.exchange(from, Listed { list, queue: q }, parcel)),
        }
    }

    /// Takes a frame of a TID out (algorithm 2 of "Ending the Anomaly"): deficit round robin picks one of its
    /// queues, and CoDel takes a frame from that queue. Also returns the number of frames that CoDel dropped.
    /// `now` is the clock in microseconds, below 2^62. Returns None if the TID has no frame in a queue; then
    /// nothing changes, and an emptied queue stays listed until a later take passes over it.
    pub fn take(&mut self, station: u16, tid: u8, now: u64, params: Params) -> Option<Taken>
        requires station { station < self.old.stations }
        requires tid { tid < 8 }
        requires time { now < 2 ^ 62 }
        ensures none { IfNone result (frames_of_tid self.old (tid_number station tid) ≡ 0) }
        ensures unchanged { IfNone result (self.new ≡ self.old) }
        ensures some { IfSome result (λ _. 0 < frames_of_tid self.old (tid_number station tid)) }
        ensures taken { IfSome result (λ t. TakeGives self.new t.parcel
            (taken_for_tid self.old (tid_number station tid) now (params_of params))) }
        ensures dropped { IfSome result (λ t. frames_of_tid self.new (tid_number station tid) + t.dropped + 1
            ≡ frames_of_tid self.old (tid_number station tid)) }
        ensures held { IfSome result
            (λ _. held_in_backlog self.new.backlog + 1 ≡ held_in_backlog self.old.backlog) }
        ensures settings { settings self.new ≡ settings self.old }
    {
        let list = tid_number(station, tid);
        if self.queued[list as usize] == 0 {
            return None;
        }
        let waiting = &self.waiting;
        let q = self
            .rota
            .pick(list, waiting.ready.as_slice())
            .winner
            .unwrap();
        let Some(taken) = self.waiting.take(q, now, params) else {
            unreachable!()
        };
        let left = self.queued[list as usize] - taken.dropped - 1;
        self.queued[list as usize] = left;
        self.rota.charge(q, u32::from(taken.parcel.frame().len()));
        Some(taken)
    }

    /// Drops all frames of a TID whose station leaves, and returns their number. They go last on the finished
    /// list as `Dropped(Left)`, in the order of queue numbers and each queue from its head. The TID's queues
    /// leave its rotation, and their CoDel states become new.
    ///
    /// It purges the least of the TID's queues until the TID has none. A TID without queues takes constant
    /// time.
    pub fn purge(&mut self, station: u16, tid: u8) -> u32
        requires station { station < self.old.stations }
        requires tid { tid < 8 }
        ensures purged { self.new ≡ after_purge self.old (tid_number station tid) }
        ensures count { result ≡ frames_of_tid self.old (tid_number station tid) }
        ensures held { held_in_backlog self.new.backlog ≡ held_in_backlog self.old.backlog }
        ensures settings { settings self.new ≡ settings self.old }
    {
        let list = tid_number(station, tid);
        let count = self.queued[list as usize];
        while let Some(q) = self.rota.least_key(list) {
            self.purge_queue(list, q);
        }
        count
    }

    /// Drops all frames of a TID that is flushed, and returns their number. They go last on the finished list
    /// as `Dropped(Flushed)`, in the order of queue numbers and each queue from its head. The TID's queues
    /// stay in its rotation, with their deficits and CoDel states.
    ///
    /// It looks at each queue number once. A TID without frames takes constant time.
    pub fn flush(&mut self, station: u16, tid: u8) -> u32
        requires station { station < self.old.stations }
        requires tid { tid < 8 }
        ensures flushed { self.new ≡ after_tid_flush self.old (tid_number station tid) }
        ensures count { result ≡ frames_of_tid self.old (tid_number station tid) }
        ensures held { held_in_backlog self.new.backlog ≡ held_in_backlog self.old.backlog }
        ensures settings { settings self.new ≡ settings self.old }
    {
        let list = tid_number(station, tid);
        let count = self.queued[list as usize];
        if count == 0 {
            return 0;
        }
        for q in 0..self.queues() {
            if self.lists(list, q) {
                self.empty_queue(list, q, Cause::Flushed);
            }
        }
        count
    }

    /// Puts a frame last on the finished list, unchanged.
    pub fn finish(&mut self, parcel: Parcel)
        requires { held_in_backlog self.old.backlog < self.old.backlog.room }
        ensures { self.new ≡ record self.old {
          backlog = record self.old.backlog { finished = self.old.backlog.finished ++ parcel ∷ [] };
        } }
    {
        self.waiting.finish(parcel);
    }

    /// Takes the first frame off the finished list, or returns None if the list is empty.
    pub fn reap(&mut self) -> Option<Parcel>
        ensures first { MatchOption result (self.old.backlog.finished ≡ [])
            (λ p. self.old.backlog.finished ≡ p ∷ self.new.backlog.finished) }
        ensures unchanged { IfNone result (self.new ≡ self.old) }
        ensures others { self.new ≡ record self.old {
          backlog = record self.old.backlog { finished = self.new.backlog.finished };
        } }
    {
        self.waiting.reap()
    }

    // Returns the longest queue if the queues hold `limit` frames or more; its head has to be dropped.
    fn over_limit(&mut self) -> Option<Listed>
        ensures roomy { IfNone result (flows_at_limit self.old ≡ false) }
        ensures full { IfSome result (λ _. flows_at_limit self.old ≡ true) }
        ensures longest { IfSome result (λ from. from.queue ≡ longest_queue self.old.backlog) }
        ensures greatest { IfSome result (λ from. IsLongest self.old.backlog from.queue) }
        ensures frames { IfSome result (λ from. 0 < length (frames_at self.old.backlog from.queue)) }
        ensures queue { IfSome result (λ from. from.queue < queues self.old) }
        ensures list { IfSome result (λ from. from.list < tids self.old) }
        ensures lists { IfSome result (λ from. is_listed self.old from.list from.queue ≡ true) }
        ensures only { IfSome result (λ from. (i : ℕ) → is_listed self.old i from.queue ≡ true →
            i ≡ from.list) }
        ensures same { self.new ≡ self.old }
    {
        if self.waiting.queued < self.limit {
            return None;
        }
        let q = self.waiting.longest()?;
        let (list, _) = self.rota.where_is(q)?;
        Some(Listed { list, queue: q })
    }

    // Drops the head of a queue for the limit, and puts a frame last in a queue. Returns the dropped frame.
    fn exchange(&mut self, from: Listed, to: Listed, parcel: Parcel) -> Lost
        requires loser { from.list < tids self.old }
        requires from { from.queue < queues self.old }
        requires lists { is_listed self.old from.list from.queue ≡ true }
        requires frames { 0 < length (frames_at self.old.backlog from.queue) }
        requires list { to.list < tids self.old }
        requires to { to.queue < queues self.old }
        requires listed { is_listed self.old to.list to.queue ≡ true }
        requires room { held_in_backlog self.old.backlog < self.old.backlog.room }
        ensures exchanged { self.new ≡ with_appended
            (record self.old { backlog = after_head_drop self.old.backlog from.queue }) to.queue parcel }
        ensures id { Some result.id ≡ first_id (frames_at self.old.backlog from.queue) }
        ensures station { result.station < self.old.stations }
        ensures tid { result.tid < 8 }
        ensures whose { tid_number result.station result.tid ≡ from.list }
        ensures held { held_in_backlog self.new.backlog ≡ held_in_backlog self.old.backlog + 1 }
    {
        let id = self.waiting.exchange(from.queue, to.queue, parcel);
        self.queued[from.list as usize] -= 1;
        self.queued[to.list as usize] += 1;
        Lost {
            id,
            station: (from.list / 8) as u16,
            tid: (from.list % 8) as u8,
        }
    }

    // Returns the queue for a frame of a flow, once the head of the queue `over` is dropped: the shared
    // queue, or the overflow queue of the TID if another TID lists the shared queue. If flows keep their
    // order, it is also the overflow queue while that has a frame of the shared queue's flows. The queues
    // stay as they are.
    fn queue_for(&mut self, list: u32, flow: u32, over: Option<Listed>) -> u32
        requires list { list < tids self.old }
        requires roomy { IfNone over (flows_at_limit self.old ≡ false) }
        requires full { IfSome over (λ _. flows_at_limit self.old ≡ true) }
        requires longest { IfSome over (λ from. from.queue ≡ longest_queue self.old.backlog) }
        ensures queue { result ≡ queue_for (after_limit self.old) list flow }
        ensures below { result < queues self.old }
        ensures own { CanList self.old list result }
        ensures same { self.new ≡ self.old }
    {
        let flows = self.flows;
        let (shared, own) = (flow % flows, flows + list);
        if let Some((other, _)) = self.rota.where_is(shared) {
            if other != list {
                return own;
            }
        }
        if self.keep_order == 1 {
            let lost = frames_lost(over, own);
            if self.waiting.holds_flow(own, lost, flows, shared) {
                return own;
            }
        }
        shared
    }

    // Lists a queue that no other TID lists, with a fresh deficit, unless it is listed already. With
    // `codel_reset`, the queue's CoDel does not drop at first.
    fn list_queue(&mut self, list: u32, q: u32)
        requires list { list < tids self.old }
        requires queue { q < queues self.old }
        requires own { CanList self.old list q }
        ensures listed { self.new ≡ with_listed_queue self.old list q }
        ensures stands { is_listed self.new list q ≡ true }
        ensures stay { (i k : ℕ) → is_listed self.old i k ≡ true → is_listed self.new i k ≡ true }
        ensures frames { self.new.backlog.queues ≡ self.old.backlog.queues }
        ensures finished { self.new.backlog.finished ≡ self.old.backlog.finished }
        ensures room { self.new.backlog.room ≡ self.old.backlog.room }
        ensures flows { self.new.flows ≡ self.old.flows }
        ensures stations { self.new.stations ≡ self.old.stations }
    {
        match self.rota.where_is(q) {
            None => {
                self.rota.add_fresh(list, q);
                self.waiting.start_listed(q, self.codel_reset);
            }
            Some(_) => {}
        }
    }

    // Returns whether a TID lists a queue.
    fn lists(&self, list: u32, q: u32) -> bool
        requires { q < queues self.now }
        ensures { result ≡ is_listed self.now list q }
    {
        match self.rota.where_is(q) {
            Some((other, _)) => other == list,
            None => false,
        }
    }

    // Drops the frames of a queue that a TID lists, for this cause.
    fn empty_queue(&mut self, list: u32, q: u32, cause: Cause)
        requires list { list < tids self.old }
        requires queue { q < queues self.old }
        requires listed { is_listed self.old list q ≡ true }
        ensures emptied { self.new ≡ record
            self.old { backlog = after_emptying cause unchanged self.old.backlog q } }
        ensures held { held_in_backlog self.new.backlog ≡ held_in_backlog self.old.backlog }
    {
        self.queued[list as usize] -= self.waiting.empty_queue(q, cause);
    }

    // Drops the frames of a queue that a TID lists, and takes the queue off its rotation.
    fn purge_queue(&mut self, list: u32, q: u32)
        requires list { list < tids self.old }
        requires queue { q < queues self.old }
        requires listed { is_listed self.old list q ≡ true }
        ensures gone { self.new ≡ without_queue self.old q }
        ensures held { held_in_backlog self.new.backlog ≡ held_in_backlog self.old.backlog }
    {
        self.queued[list as usize] -= self.waiting.purge(q);
        self.rota.remove(q);
    }
}
