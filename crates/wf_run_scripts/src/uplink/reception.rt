//! The uplink of 256 stations, with a clock and its answers.

ghost use Rattle.std.specs.Prelude.{◌≡◌, ◌≢◌, ◌+◌, ◌*◌, ◌^◌, ◌<◌, ◌≤◌, ◌∷◌, [], true, replicate, IfOk, OnOk, OnErr, Err};
ghost use Rattle.std.specs.Io.KnownBytes.{append_known};
ghost use Rattle.wf_io.specs.Faults.{HasRisen, CountsFaults};
ghost use Rattle.wf_io.specs.Fronts.{HoldsFront};
ghost use Rattle.wf_def_lists.specs.Bounds.{greatest_tick};
ghost use Rattle.wf_uplink.specs.Shown.{totals_of};
ghost use Rattle.wf_uplink.specs.World.{Open, OpenPlain, SetRate, Receive, Request, Tick, Expire, tids_of_station, after_call, after_calls};
ghost use Rattle.wf_run_scripts.specs.UplinkAnswers.{stations, first, calls_text, totals_line};
ghost use Rattle.wf_run_scripts.specs.UplinkRoom.{can_count, lacks_room};

use crate::uplink::answers::{
    print_fault, print_now, print_opened, print_request_fault, print_set, print_totals,
};
use crate::uplink::told::{write_request, write_up};
use std::alloc::{AllocError, Global};
use std::marker::Model;
use wf_air::time::Rate;
use wf_frame::COUNT_LIMIT;
use wf_io::{Failed, Line, Sink};
use wf_trace::script::{Unanswered, write_line};
use wf_uplink::{Up, Uplink};

/// The number of stations.
const STATIONS: u32 = 256;

/// The most holes that can be due at once: one for each TID of each station.
const MOST_DUE: u32 = 8 * STATIONS;

/// The uplink of the access point, and the clock.
#[derive(Drop)]
pub struct Reception {
    uplink: Uplink,
    clock: u64,
    up: Up,
}

impl Model for Reception {
    ghost use Rattle.std.specs.Prelude.{◌≡◌};
    ghost use Rattle.wf_uplink.specs.World.{World};

    ghost Value = { World };

    ghost view = { λ r. r.uplink };

    ghost invariant = { λ r. r.clock ≡ r.uplink.clock };
}

impl Reception {
    /// Returns an uplink without open stations, with the clock at 0. Fails only if memory runs out.
    #[inline(never)]
    pub fn new(alloc: Global) -> Result<Reception, AllocError>
        ensures { IfOk result (λ r. r ≡ first) }
    {
        let uplink = Uplink::new(alloc, STATIONS)?;
        Ok(Reception {
            uplink,
            clock: 0,
            up: Up::new(),
        })
    }

    // Returns whether one more frame, or one more hole, can be counted.
    fn has_room(&self) -> bool
        ensures exactly { result ≡ can_count self.now }
        ensures small { result ≡ true → (self.now.frames < 2 ^ 62) × (self.now.missing < 2 ^ 62) }
    {
        let totals = self.uplink.totals();
        totals.frames < COUNT_LIMIT && totals.missing < COUNT_LIMIT
    }

    // Advances the clock by at most 10,000,000 microseconds, and returns it. Fails if it would reach 2^62.
    fn pass(&mut self, by: u32) -> Result<u64, Unanswered>
        requires { by ≤ greatest_tick }
        ensures now { IfOk result (λ now. now ≡ self.old.clock + by) }
        ensures after { OnOk result (self.new ≡ after_call (Tick by) self.old) }
        ensures fails { OnErr result (2 ^ 62 ≤ self.old.clock + by) }
        ensures memory { OnErr result (result ≡ Err Unanswered.Memory) }
    {
        if self.clock >= COUNT_LIMIT - u64::from(by) {
            return Err(Unanswered::Memory);
        }
        self.uplink.tick(by);
        self.clock += u64::from(by);
        Ok(self.clock)
    }

    /// Opens a station, and writes whether it was opened.
    #[tactic(auto, using(crate::proofs::UplinkCalls::text_single, crate::proofs::UplinkCalls::after_single))]
    pub fn open<K: Sink>(
        &mut self,
        station: u16,
        window: u16,
        start: u16,
        sink: &mut K,
    ) -> Result<(), Unanswered>
        ensures written { OnOk result
            (K.held sink.new ≡ append_known (K.held sink.old)
            (calls_text self.old (Open station window start ∷ []))) }
        ensures after { OnOk result (self.new ≡ after_calls self.old (Open station window start ∷ [])) }
        ensures front { OnErr result
            (HoldsFront (K.held sink.old) (K.held sink.new)
            (calls_text self.old (Open station window start ∷ []))) }
        ensures memory { result ≢ Err Unanswered.Memory }
        ensures counted { K.faults sink.old ≤ K.faults sink.new }
        ensures cause { result ≡ Err Unanswered.Sink → HasRisen (K.faults sink.old) (K.faults sink.new) }
        ensures quiet { result ≢ Err Unanswered.Sink → K.faults sink.new ≡ K.faults sink.old }
    {
        let mut line = Line::new();
        print_opened(self.uplink.open(station, window, start), &mut line);
        write_line(sink, &line)
    }

    /// Opens a station without agreements, and writes whether it was opened.
    #[tactic(auto, using(crate::proofs::UplinkCalls::text_single, crate::proofs::UplinkCalls::after_single))]
    pub fn open_plain<K: Sink>(&mut self, station: u16, sink: &mut K) -> Result<(), Unanswered>
        ensures written { OnOk result
            (K.held sink.new ≡ append_known (K.held sink.old)
            (calls_text self.old (OpenPlain station ∷ []))) }
        ensures after { OnOk result (self.new ≡ after_calls self.old (OpenPlain station ∷ [])) }
        ensures front { OnErr result
            (HoldsFront (K.held sink.old) (K.held sink.new)
            (calls_text self.old (OpenPlain station ∷ []))) }
        ensures memory { result ≢ Err Unanswered.Memory }
        ensures counted { K.faults sink.old ≤ K.faults sink.new }
        ensures cause { result ≡ Err Unanswered.Sink → HasRisen (K.faults sink.old) (K.faults sink.new) }
        ensures quiet { result ≢ Err Unanswered.Sink → K.faults sink.new ≡ K.faults sink.old }
    {
        let mut line = Line::new();
        print_opened(self.uplink.open_plain(station), &mut line);
        write_line(sink, &line)
    }

    /// Sets the rate of a station, and writes whether it was set.
    #[tactic(auto, using(crate::proofs::UplinkCalls::text_single, crate::proofs::UplinkCalls::after_single))]
    pub fn set_rate<K: Sink>(
        &mut self,
        station: u16,
        rate: Rate,
        sink: &mut K,
    ) -> Result<(), Unanswered>
        ensures written { OnOk result
            (K.held sink.new ≡ append_known (K.held sink.old)
            (calls_text self.old (SetRate station rate ∷ []))) }
        ensures after { OnOk result (self.new ≡ after_calls self.old (SetRate station rate ∷ [])) }
        ensures front { OnErr result
            (HoldsFront (K.held sink.old) (K.held sink.new)
            (calls_text self.old (SetRate station rate ∷ []))) }
        ensures memory { result ≢ Err Unanswered.Memory }
        ensures counted { K.faults sink.old ≤ K.faults sink.new }
        ensures cause { result ≡ Err Unanswered.Sink → HasRisen (K.faults sink.old) (K.faults sink.new) }
        ensures quiet { result ≢ Err Unanswered.Sink → K.faults sink.new ≡ K.faults sink.old }
    {
        let mut line = Line::new();
        print_set(self.uplink.set_rate(station, rate), &mut line);
        write_line(sink, &line)
    }

    /// Receives the octets of a frame, and writes the frames that are passed up, or why it is refused. Fails
    /// if a total has reached 2^62 or the sink fails.
    #[tactic(auto, using(crate::proofs::UplinkCalls::text_single, crate::proofs::UplinkCalls::after_single))]
    pub fn receive<K: Sink>(&mut self, octets: &[u8], sink: &mut K) -> Result<(), Unanswered>
        ensures written { OnOk result
            (K.held sink.new ≡ append_known (K.held sink.old)
            (calls_text self.old (Receive octets.now ∷ []))) }
        ensures after { OnOk result (self.new ≡ after_calls self.old (Receive octets.now ∷ [])) }
        ensures front { OnErr result
            (HoldsFront (K.held sink.old) (K.held sink.new) (calls_text self.old (Receive octets.now ∷ []))) }
        ensures memory { result ≡ Err Unanswered.Memory →
            lacks_room self.old (Receive octets.now ∷ []) ≡ true }
        ensures counted { K.faults sink.old ≤ K.faults sink.new }
        ensures cause { result ≡ Err Unanswered.Sink → HasRisen (K.faults sink.old) (K.faults sink.new) }
        ensures quiet { result ≢ Err Unanswered.Sink → K.faults sink.new ≡ K.faults sink.old }
    {
        if !self.has_room() {
            return Err(Unanswered::Memory);
        }
        match self.uplink.receive(octets, &mut self.up) {
            Ok(()) => write_up(&self.up, true, sink),
            Err(fault) => {
                let mut line = Line::new();
                print_fault(fault, &mut line);
                write_line(sink, &line)
            }
        }
    }

    /// Receives the octets of a BlockAckReq, and writes the frames that are passed up and the BlockAck, or
    /// why it is refused. Fails if a total has reached 2^62 or the sink fails.
    #[tactic(auto, using(crate::proofs::UplinkCalls::after_single))]
    pub fn request<K: Sink>(&mut self, octets: &[u8], sink: &mut K) -> Result<(), Unanswered>
        ensures written { OnOk result
            (K.held sink.new ≡ append_known (K.held sink.old)
            (calls_text self.old (Request octets.now ∷ []))) }
        ensures after { OnOk result (self.new ≡ after_calls self.old (Request octets.now ∷ [])) }
        ensures front { OnErr result
            (HoldsFront (K.held sink.old) (K.held sink.new) (calls_text self.old (Request octets.now ∷ []))) }
        ensures memory { result ≡ Err Unanswered.Memory →
            lacks_room self.old (Request octets.now ∷ []) ≡ true }
        ensures counted { K.faults sink.old ≤ K.faults sink.new }
        ensures cause { result ≡ Err Unanswered.Sink → HasRisen (K.faults sink.old) (K.faults sink.new) }
        ensures quiet { result ≢ Err Unanswered.Sink → K.faults sink.new ≡ K.faults sink.old }
    {
        if !self.has_room() {
            return Err(Unanswered::Memory);
        }
        match self.uplink.request(octets, &mut self.up) {
            Ok(bitmap) => write_request(&self.up, bitmap, sink),
            Err(fault) => {
                let mut line = Line::new();
                print_request_fault(fault, &mut line);
                write_line(sink, &line)
            }
        }
    }

    // Gives up each hole that is due, in order, and writes the frames that are passed up.
    fn give_up<K: Sink>(&mut self, sink: &mut K) -> Result<(), Unanswered>
        ensures written { OnOk result
            (K.held sink.new ≡ append_known (K.held sink.old)
            (calls_text self.old (replicate (tids_of_station * stations) Expire))) }
        ensures after { OnOk result
            (self.new ≡ after_calls self.old (replicate (tids_of_station * stations) Expire)) }
        ensures front { OnErr result
            (HoldsFront (K.held sink.old) (K.held sink.new)
            (calls_text self.old (replicate (tids_of_station * stations) Expire))) }
        ensures memory { result ≡ Err Unanswered.Memory →
            lacks_room self.old (replicate (tids_of_station * stations) Expire) ≡ true }
        ensures counted { K.faults sink.old ≤ K.faults sink.new }
        ensures cause { result ≡ Err Unanswered.Sink → HasRisen (K.faults sink.old) (K.faults sink.new) }
        ensures quiet { result ≢ Err Unanswered.Sink → K.faults sink.new ≡ K.faults sink.old }
    {
        for _ in 0..MOST_DUE {
            if !self.has_room() {
                return Err(Unanswered::Memory);
            }
            if !self.uplink.expired(&mut self.up) {
                return Ok(());
            }
            write_up(&self.up, false, sink)?;
        }
        Ok(())
    }

    /// Advances the clock by at most 10,000,000 microseconds, and writes it. Then gives up each hole that is
    /// due, and writes the frames that are passed up.
    pub fn tick<K: Sink>(&mut self, by: u32, sink: &mut K) -> Result<(), Unanswered>
        requires { by ≤ greatest_tick }
        ensures written { OnOk result
            (K.held sink.new ≡ append_known (K.held sink.old)
            (calls_text self.old (Tick by ∷ replicate (tids_of_station * stations) Expire))) }
        ensures after { OnOk result
            (self.new ≡ after_calls self.old (Tick by ∷ replicate (tids_of_station * stations) Expire)) }
        ensures front { OnErr result
            (HoldsFront (K.held sink.old) (K.held sink.new)
            (calls_text self.old (Tick by ∷ replicate (tids_of_station * stations) Expire))) }
        ensures memory { result ≡ Err Unanswered.Memory →
            lacks_room self.old (Tick by ∷ replicate (tids_of_station * stations) Expire) ≡ true }
        ensures counted { K.faults sink.old ≤ K.faults sink.new }
        ensures cause { result ≡ Err Unanswered.Sink → HasRisen (K.faults sink.old) (K.faults sink.new) }
        ensures quiet { result ≢ Err Unanswered.Sink → K.faults sink.new ≡ K.faults sink.old }
    {
        let now = self.pass(by)?;
        let mut line = Line::new();
        print_now(now, &mut line);
        write_line(sink, &line)?;
        self.give_up(sink)
    }

    /// Writes the totals: the number of frames, and how many had each outcome.
    pub fn tell<K: Sink>(&self, sink: &mut K) -> Result<(), Failed>
        ensures written { OnOk result
            (K.held sink.new ≡ append_known (K.held sink.old) (totals_line (totals_of self.now))) }
        ensures front { HoldsFront (K.held sink.old) (K.held sink.new) (totals_line (totals_of self.now)) }
        ensures cause { CountsFaults (K.faults sink.old) (K.faults sink.new) result }
    {
        let mut line = Line::new();
        print_totals(self.uplink.totals(), &mut line);
        wf_io::write_line(sink, &line)
    }
}
