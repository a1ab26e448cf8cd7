//! The uplink of all stations, and its calls.

ghost use Rattle.std.specs.Prelude.{◌≡◌, ◌+◌, ◌*◌, ◌^◌, ◌<◌, ◌≤◌, ◌∷◌, true, false, [], length, map, replicate, slice_index_or, slice_set, IfOk, OnOk, OnErr, IfSome, is_some, is_ok, None, Some, if◌then◌else◌};
ghost use Rattle.wf_def_air.specs.Airtime.{data_charge, plain_charge};
ghost use Rattle.wf_def_air.specs.Fit.{plain_octets, overhead_octets};
ghost use Rattle.wf_def_lists.specs.Lengths.{greatest_body};
ghost use Rattle.wf_recv_peer.specs.Board.{empty_board, after_start};
ghost use Rattle.wf_recv_peer.specs.Plain.{retry_of};
ghost use Rattle.wf_uplink.specs.Requests.{request_tid, request_start};
ghost use Rattle.wf_uplink.specs.Reordering.{unopened, arrived, requested, timed_out, is_none_stored, waits_since_of};
ghost use Rattle.wf_uplink.specs.Sides.{Agreed, Plain, unopened_side, is_plain_side, side_repeats, agreed_board, bitmap_of};
ghost use Rattle.wf_uplink.specs.Shown.{item_of, up_of, totals_of};
ghost use Rattle.wf_uplink.specs.Soundness.{latest};
ghost use Rattle.std.specs.Result.{result_err};
ghost use Rattle.wf_uplink.specs.Frames.{sender_of as sender_in, tid_in_control, sequence_of};
ghost use Rattle.wf_uplink.specs.World.{Open, OpenPlain, SetRate, Receive, Request, Tick, Expire, new_world, rate_of, is_open, place_of as place_at, tid_side, side_of_frame, open_fault, open_plain_fault, begun, sided, receive_fault, first_request_fault, rates_of_answers, frame_air_of, delivery_of, request_delivery, board_shown, arrival_outcome, arrived_at, plain_taken, plain_passed, accepted, is_old, passed_for, recorded, asked_outcome, moved_at, asked_at, first_due, timeout_of, after_call};

use crate::bitmap::Bitmap;
use crate::fault::{Closed, OpenFault, RequestFault, UplinkFault};
use crate::items::{Items, UpItem};
use crate::reading::{
    body_of, data_header, is_from, is_request_from, request_in, requester_of, sender_of,
};
use crate::sequencer::Sequencer;
use crate::side::Side;
use crate::up::{Totals, Up};
use crate::waits::Waits;
use std::alloc::{AllocError, Global};
use std::marker::Model;
use wf_air::fit::OVERHEAD_OCTETS;
use wf_air::time::Rate;
use wf_frame::{GREATEST_START, GREATEST_WINDOW};
use wf_octets::seq12::Seq12;

/// The number of TIDs of a station.
const TIDS: u32 = 8;

/// The setting `answers` that charges have: the access point answers at 24 Mbit/s.
const RATES_OF_ANSWERS: u32 = 0;

/// The receiving side of an access point: puts the frames of each TID of each station in the order of their
/// sequence numbers, and gives up a hole after 100,000 microseconds (`expired`).
///
/// Only `new` allocates memory.
#[derive(Drop)]
pub struct Uplink {
    clock: u64,
    rates: Vec<Option<Rate>>,
    sequencers: Vec<Sequencer>,
    sides: Vec<Side>,
    waits: Waits,
    frames: u64,
    up: u64,
    back: u64,
    missing: u64,
}

impl Model for Uplink {
    ghost use Rattle.wf_uplink.specs.Soundness.{IsSound, IsWatched, world_of};
    ghost use Rattle.wf_uplink.specs.World.{World};

    ghost Value = { World };

    ghost view = { λ u.
        world_of u.clock u.rates.items u.sequencers.items u.sides.items u.frames u.up u.back u.missing };

    ghost invariant = { λ u.
        let w =
        world_of u.clock u.rates.items u.sequencers.items u.sides.items u.frames u.up u.back u.missing in
        IsSound w × IsWatched w u.waits };
}

/// A data frame of an open station: its sender, its TID, whether that has no agreement, the twelve bits of
/// its sequence number, its Retry bit, and its charge in microseconds.
#[derive(Drop)]
struct Heard {
    station: u16,
    tid: u8,
    plain: bool,
    seq: Seq12,
    retry: bool,
    air: u32,
}

/// A BlockAckReq of an open station for a TID with an agreement: its sender, its TID, its start, and the
/// sender's rate.
#[derive(Drop)]
struct Asked {
    station: u16,
    tid: u8,
    start: Seq12,
    rate: Rate,
}

fn new_sequencers(alloc: Global, count: u32) -> Result<Vec<Sequencer>, AllocError>
    ensures { IfOk result (λ made. made.items ≡ replicate count unopened) }
{
    let mut made = Vec::with_capacity(alloc, count as usize)?;
    for _ in 0..count {
        made.push(Sequencer::new(alloc)?)?;
    }
    Ok(made)
}

fn new_sides(alloc: Global, count: u32) -> Result<Vec<Side>, AllocError>
    ensures { IfOk result (λ made. made.items ≡ replicate count unopened_side) }
{
    let mut made = Vec::with_capacity(alloc, count as usize)?;
    for _ in 0..count {
        made.push(Side::new())?;
    }
    Ok(made)
}

/// Resets the reorderings of the eight TIDs of a station.
fn begin(sequencers: &mut [Sequencer], station: u16, window: u16, start: u16)
    requires window { (1 ≤ window) × (window ≤ 256) }
    requires start { start ≤ 4095 }
    requires within { 8 * station + 8 ≤ length sequencers.old }
    ensures { sequencers.new ≡ begun 8 station window start sequencers.old }
{
    for tid in 0..8u8 {
        sequencers[place_of(station, tid)].reset(start, window);
    }
}

/// Begins agreements for the eight TIDs of a station.
fn agree(sides: &mut [Side], station: u16, window: u16, start: u16)
    requires window { (1 ≤ window) × (window ≤ 256) }
    requires start { start ≤ 4095 }
    requires within { 8 * station + 8 ≤ length sides.old }
    ensures { sides.new ≡ sided 8 station (Agreed (empty_board start window)) sides.old }
{
    let first = Seq12::of(u64::from(start));
    for tid in 0..8u8 {
        sides[place_of(station, tid)].agree(first, window);
    }
}

/// Opens the eight TIDs of a station without agreements.
fn begin_plain(sides: &mut [Side], station: u16)
    requires { 8 * station + 8 ≤ length sides.old }
    ensures { sides.new ≡ sided 8 station (Plain None) sides.old }
{
    for tid in 0..8u8 {
        sides[place_of(station, tid)].begin_plain();
    }
}

/// Passes up the frame with this id and number, unless it is a repeat.
fn pass_one(repeat: bool, id: u64, seq: Seq12, items: &mut Items)
    requires { items.old ≡ [] }
    ensures { items.new ≡ map item_of (plain_passed repeat id seq) }
{
    if !repeat {
        let seq = seq.raw();
        items.push(UpItem::Frame { id, seq });
    }
}

/// Returns the charge in microseconds of a frame with a body of this many octets, whose TID has an agreement
/// or none.
fn frame_air(rate: Rate, body: u32, plain: bool) -> u32
    requires { body ≤ greatest_body }
    ensures { result ≡ (if plain then plain_charge rates_of_answers rate (plain_octets rate (body ∷ []))
        else data_charge rates_of_answers rate (body + overhead_octets) false) }
{
    let octets = body + OVERHEAD_OCTETS;
    if plain {
        rate.plain_charge(rate.plain_octets(octets), RATES_OF_ANSWERS)
    } else {
        rate.data_charge(octets, RATES_OF_ANSWERS, false)
    }
}

/// Takes the frame with this id at the reordering of a place. Returns whether the frame is old, and the clock
/// at which the reordering's wait began, if it waits.
fn arrive_at(
    sequencers: &mut [Sequencer],
    place: usize,
    bits: Seq12,
    id: u64,
    now: u64,
    items: &mut Items,
) -> (bool, Option<u64>)
    requires place { place < length sequencers.old }
    requires low { (slice_index_or sequencers.old place unopened).start < 2 ^ 63 + 4096 }
    requires empty { items.old ≡ [] }
    ensures old { result.0 ≡ (arrived bits id now (slice_index_or sequencers.old place unopened)).old }
    ensures since { result.1 ≡
        waits_since_of (arrived bits id now (slice_index_or sequencers.old place unopened)).after }
    ensures after { sequencers.new ≡
        slice_set sequencers.old place
        (arrived bits id now (slice_index_or sequencers.old place unopened)).after }
    ensures items { items.new ≡
        map item_of (arrived bits id now (slice_index_or sequencers.old place unopened)).passed }
{
    let sequencer = &mut sequencers[place];
    let old = sequencer.arrive(bits, id, now, items);
    (old, sequencer.waits_since())
}

/// Moves the window of the reordering of a place to the start of a BlockAckReq. Returns the clock at which
/// its wait began, if it waits.
fn ask_at(
    sequencers: &mut [Sequencer],
    place: usize,
    start: Seq12,
    now: u64,
    items: &mut Items,
) -> Option<u64>
    requires place { place < length sequencers.old }
    requires low { (slice_index_or sequencers.old place unopened).start < 2 ^ 63 + 4096 }
    requires empty { items.old ≡ [] }
    ensures since { result ≡
        waits_since_of (requested start now (slice_index_or sequencers.old place unopened)).after }
    ensures after { sequencers.new ≡
        slice_set sequencers.old place
        (requested start now (slice_index_or sequencers.old place unopened)).after }
    ensures items { items.new ≡
        map item_of (requested start now (slice_index_or sequencers.old place unopened)).passed }
{
    let sequencer = &mut sequencers[place];
    sequencer.ask(start, now, items);
    sequencer.waits_since()
}

/// Gives up the hole of the reordering of a place, which is due. Returns the clock at which its wait began,
/// if it still waits.
fn time_out_at(
    sequencers: &mut [Sequencer],
    place: usize,
    now: u64,
    items: &mut Items,
) -> Option<u64>
    requires place { place < length sequencers.old }
    requires low { (slice_index_or sequencers.old place unopened).start < 2 ^ 63 + 4096 }
    requires some { is_none_stored (slice_index_or sequencers.old place unopened).stored ≡ false }
    requires empty { items.old ≡ [] }
    ensures since { result ≡
        waits_since_of (timed_out now (slice_index_or sequencers.old place unopened)).after }
    ensures after { sequencers.new ≡
        slice_set sequencers.old place (timed_out now (slice_index_or sequencers.old place unopened)).after }
    ensures items { items.new ≡
        map item_of (timed_out now (slice_index_or sequencers.old place unopened)).passed }
{
    let sequencer = &mut sequencers[place];
    sequencer.time_out(now, items);
    sequencer.waits_since()
}

/// Returns the index of the reordering of a station's TID.
fn place_of(station: u16, tid: u8) -> usize
    ensures { result ≡ place_at station tid }
{
    8 * usize::from(station) + usize::from(tid)
}

impl Uplink {
    /// Returns the uplink of `stations` stations, 1 to 256, none of which is open. The clock is 0.
    ///
    /// Fails if memory runs out. No other call allocates.
    pub fn new(alloc: Global, stations: u32) -> Result<Uplink, AllocError>
        requires { (1 ≤ stations) × (stations ≤ 256) }
        ensures { IfOk result (λ u. u ≡ new_world stations) }
    {
        let rates = vec![in alloc; None; stations as usize]?;
        let sequencers = new_sequencers(alloc, TIDS * stations)?;
        let sides = new_sides(alloc, TIDS * stations)?;
        let waits = Waits::new(alloc)?;
        Ok(Uplink {
            clock: 0,
            rates,
            sequencers,
            sides,
            waits,
            frames: 0,
            up: 0,
            back: 0,
            missing: 0,
        })
    }

    /// Opens a station, with a window and a first number that apply to each of its eight TIDs, at the lowest
    /// rate. Fails with the first check of `OpenFault` that fails.
    #[tactic(auto, unfolding(crate::specs::World::after_call))]
    pub fn open(&mut self, station: u16, window: u16, start: u16) -> Result<(), OpenFault>
        // it fails exactly if a check fails, with the first one
        ensures fault { result_err result ≡ open_fault station window start self.old }
        ensures clock { self.new.clock ≡ self.old.clock }
        ensures after { self.new ≡ after_call (Open station window start) self.old }
    {
        let number = usize::from(station);
        if number >= self.rates.len() {
            return Err(OpenFault::BadStation);
        }
        if window < 1 || window > GREATEST_WINDOW {
            return Err(OpenFault::BadWindow);
        }
        if start > GREATEST_START {
            return Err(OpenFault::BadStart);
        }
        if self.rates[number].is_some() {
            return Err(OpenFault::Live);
        }
        self.rates[number] = Some(Rate::lowest());
        begin(&mut self.sequencers, station, window, start);
        agree(&mut self.sides, station, window, start);
        Ok(())
    }

    /// Opens a station whose TIDs have no agreement, at the lowest rate: a frame is passed up when it
    /// arrives, unless it is a repeat. Fails with the first check that fails, `BadStation` or `Live`.
    #[tactic(auto, unfolding(crate::specs::World::after_call))]
    pub fn open_plain(&mut self, station: u16) -> Result<(), OpenFault>
        // it fails exactly if a check fails, with the first one
        ensures fault { result_err result ≡ open_plain_fault station self.old }
        ensures clock { self.new.clock ≡ self.old.clock }
        ensures after { self.new ≡ after_call (OpenPlain station) self.old }
    {
        let number = usize::from(station);
        if number >= self.rates.len() {
            return Err(OpenFault::BadStation);
        }
        if self.rates[number].is_some() {
            return Err(OpenFault::Live);
        }
        self.rates[number] = Some(Rate::lowest());
        begin_plain(&mut self.sides, station);
        Ok(())
    }

    /// Sets the rate of a station. Fails exactly if the station is not open.
    #[tactic(auto, unfolding(crate::specs::World::after_call))]
    pub fn set_rate(&mut self, station: u16, rate: Rate) -> Result<(), Closed>
        ensures refused { is_ok result ≡ is_open self.old station }
        ensures clock { self.new.clock ≡ self.old.clock }
        ensures after { self.new ≡ after_call (SetRate station rate) self.old }
    {
        if self.rate_of(station).is_none() {
            return Err(Closed);
        }
        self.rates[usize::from(station)] = Some(rate);
        Ok(())
    }

    /// Returns the rate of a station, if it is open.
    fn rate_of(&self, station: u16) -> Option<Rate>
        ensures { result ≡ rate_of self.now station }
    {
        let number = usize::from(station);
        if number < self.rates.len() {
            self.rates[number]
        } else {
            None
        }
    }

    /// Takes the octets of a received frame. Writes the released frames, the gaps and the charge to `up`.
    /// Fails with the first check of `UplinkFault` that fails, and then leaves `up` unchanged.
    #[tactic(auto, unfolding(crate::specs::World::after_call))]
    pub fn receive(&mut self, octets: &[u8], up: &mut Up) -> Result<(), UplinkFault>
        requires frames { self.old.frames < 2 ^ 62 }
        requires missing { self.old.missing < 2 ^ 62 }

        // it fails exactly if a check fails, with the first one
        ensures fault { result_err result ≡ receive_fault octets.now self.old }
        ensures clock { self.new.clock ≡ self.old.clock }
        ensures after { self.new ≡ after_call (Receive octets.now) self.old }
        ensures up { OnOk result (up.exit.now ≡ up_of (delivery_of octets.now self.old)) }
        ensures unchanged { OnErr result (up.exit.now ≡ up.entry.now) }
    {
        let heard = self.heard(octets)?;
        up.station = heard.station;
        up.tid = heard.tid;
        up.air = heard.air;
        up.ack = heard.plain;
        up.old = self.accept(&heard, &mut up.items);
        self.record(&heard);
        Ok(())
    }

    /// Takes the octets of a received BlockAckReq, and returns the content of the BlockAck that answers it.
    /// Writes the released frames, the gaps and the charge to `up`. Fails with the first check of
    /// `RequestFault` that fails, and then leaves `up` unchanged.
    #[tactic(auto, unfolding(crate::specs::World::after_call))]
    pub fn request(&mut self, octets: &[u8], up: &mut Up) -> Result<Bitmap, RequestFault>
        requires frames { self.old.frames < 2 ^ 62 }
        requires missing { self.old.missing < 2 ^ 62 }

        // it fails exactly if a check fails, with the first one
        ensures fault { result_err result ≡ first_request_fault octets.now self.old }
        ensures clock { self.new.clock ≡ self.old.clock }
        ensures after { self.new ≡ after_call (Request octets.now) self.old }
        ensures up { OnOk result (up.exit.now ≡ up_of (request_delivery octets.now self.old)) }
        ensures bitmap { IfOk result (λ bitmap. bitmap ≡ bitmap_of (board_shown octets.now self.old)) }
        ensures unchanged { OnErr result (up.exit.now ≡ up.entry.now) }
    {
        let asked = self.asked(octets)?;
        up.station = asked.station;
        up.tid = asked.tid;
        up.old = false;
        up.ack = false;
        self.move_to(&asked, &mut up.items);
        let bitmap = self.show(&asked);
        up.air = asked.rate.request_charge(RATES_OF_ANSWERS, bitmap.wide);
        Ok(bitmap)
    }

    /// Returns whether a TID of an open station has no agreement.
    fn is_plain(&self, station: u16, tid: u8) -> bool
        requires live { is_open self.now station ≡ true }
        requires tid { tid < 8 }
        ensures { result ≡ is_plain_side (tid_side self.now station tid) }
    {
        self.sides[place_of(station, tid)].is_plain()
    }

    /// Reads a data frame of an open station. Fails with the first check that fails.
    fn heard(&self, octets: &[u8]) -> Result<Heard, UplinkFault>
        ensures fault { result_err result ≡ receive_fault octets.now self.now }
        ensures station { IfOk result (λ heard. heard.station ≡ sender_in octets.now) }
        ensures tid { IfOk result (λ heard. heard.tid ≡ tid_in_control octets.now) }
        ensures live { IfOk result (λ heard. is_open self.now heard.station ≡ true) }
        ensures low { IfOk result (λ heard. heard.tid < 8) }
        ensures plain { IfOk result (λ heard.
            heard.plain ≡ is_plain_side (side_of_frame octets.now self.now)) }
        ensures seq { IfOk result (λ heard. heard.seq ≡ sequence_of octets.now) }
        ensures retry { IfOk result (λ heard. heard.retry ≡ retry_of octets.now) }
        ensures air { IfOk result (λ heard. heard.air ≡ frame_air_of (side_of_frame octets.now self.now)
            (rate_of self.now (sender_in octets.now)) octets.now) }
    {
        let header = data_header(octets)?;
        let station = sender_of(&header);
        let rate = match self.rate_of(station) {
            Some(rate) => rate,
            None => return Err(UplinkFault::NotMine),
        };
        if !is_from(&header, station) {
            return Err(UplinkFault::NotMine);
        }
        let length = body_of(header.tid, octets)?;
        let plain = self.is_plain(station, header.tid);
        Ok(Heard {
            station,
            tid: header.tid,
            plain,
            seq: header.seq,
            retry: header.retry,
            air: frame_air(rate, length, plain),
        })
    }

    /// Reads a BlockAckReq of an open station for a TID with an agreement. Fails with the first check that
    /// fails.
    fn asked(&self, octets: &[u8]) -> Result<Asked, RequestFault>
        ensures fault { result_err result ≡ first_request_fault octets.now self.now }
        ensures station { IfOk result (λ asked. asked.station ≡ sender_in octets.now) }
        ensures tid { IfOk result (λ asked. asked.tid ≡ request_tid octets.now) }
        ensures live { IfOk result (λ asked. is_open self.now asked.station ≡ true) }
        ensures low { IfOk result (λ asked. asked.tid < 8) }
        ensures agreed { IfOk result (λ asked.
            is_plain_side (tid_side self.now asked.station asked.tid) ≡ false) }
        ensures start { IfOk result (λ asked. asked.start ≡ request_start octets.now) }
        ensures rate { IfOk result (λ asked. rate_of self.now (sender_in octets.now) ≡ Some asked.rate) }
    {
        let bar = request_in(octets)?;
        let station = requester_of(&bar);
        let rate = match self.rate_of(station) {
            Some(rate) => rate,
            None => return Err(RequestFault::NotMine),
        };
        if !is_request_from(&bar, station) {
            return Err(RequestFault::NotMine);
        }
        if bar.tid > 7 {
            return Err(RequestFault::Tid(bar.tid));
        }
        if self.is_plain(station, bar.tid) {
            return Err(RequestFault::NotAgreed);
        }
        Ok(Asked {
            station,
            tid: bar.tid,
            start: bar.start,
            rate,
        })
    }

    /// Takes a frame, and writes the released frames and the gaps to `items`. Returns whether the frame is
    /// old.
    fn accept(&mut self, heard: &Heard, items: &mut Items) -> bool
        requires frames { self.old.frames < 2 ^ 62 }
        requires missing { self.old.missing < 2 ^ 62 }
        requires live { is_open self.old heard.now.station ≡ true }
        requires tid { heard.now.tid < 8 }
        requires plain { heard.now.plain ≡ is_plain_side (tid_side self.old heard.now.station heard.now.tid) }
        ensures after { self.new ≡ accepted (tid_side self.old heard.now.station heard.now.tid)
            (place_at heard.now.station heard.now.tid) heard.now.retry heard.now.seq self.old }
        ensures old { result ≡ is_old (tid_side self.old heard.now.station heard.now.tid)
            (place_at heard.now.station heard.now.tid) heard.now.retry heard.now.seq self.old }
        ensures items { items.new ≡
            map item_of (passed_for (tid_side self.old heard.now.station heard.now.tid)
            (place_at heard.now.station heard.now.tid) heard.now.retry heard.now.seq self.old) }
    {
        if heard.plain {
            self.take(heard, items)
        } else {
            self.arrive(heard, items)
        }
    }

    /// Takes a frame whose TID has no agreement, and writes it to `items` unless it is a repeat. Returns
    /// whether it is one.
    fn take(&mut self, heard: &Heard, items: &mut Items) -> bool
        requires frames { self.old.frames < 2 ^ 62 }
        requires live { is_open self.old heard.now.station ≡ true }
        requires tid { heard.now.tid < 8 }
        ensures old { result ≡ side_repeats heard.now.retry heard.now.seq
            (tid_side self.old heard.now.station heard.now.tid) }
        ensures after { self.new ≡ plain_taken (side_repeats heard.now.retry heard.now.seq
            (tid_side self.old heard.now.station heard.now.tid)) self.old }
        ensures items { items.new ≡ map item_of (plain_passed (side_repeats heard.now.retry heard.now.seq
            (tid_side self.old heard.now.station heard.now.tid)) self.old.frames heard.now.seq) }
    {
        items.clear();
        let repeat = self.sides[place_of(heard.station, heard.tid)].repeats(heard.retry, heard.seq);
        pass_one(repeat, self.frames, heard.seq, items);
        self.frames += 1;
        self.up += u64::from(!repeat);
        self.back += u64::from(repeat);
        repeat
    }

    /// Records the number of a frame at its TID's side.
    fn record(&mut self, heard: &Heard)
        requires live { is_open self.old heard.now.station ≡ true }
        requires tid { heard.now.tid < 8 }
        ensures { self.new ≡ recorded (place_at heard.now.station heard.now.tid) heard.now.seq self.old }
    {
        self.sides[place_of(heard.station, heard.tid)].arrive(heard.seq);
    }

    /// Moves the window of the reordering of a TID to the start of a BlockAckReq, and writes the released
    /// frames and the gaps to `items`.
    fn move_to(&mut self, asked: &Asked, items: &mut Items)
        requires frames { self.old.frames < 2 ^ 62 }
        requires missing { self.old.missing < 2 ^ 62 }
        requires live { is_open self.old asked.now.station ≡ true }
        requires tid { asked.now.tid < 8 }
        ensures after { self.new ≡
            moved_at (place_at asked.now.station asked.now.tid) asked.now.start self.old }
        ensures items { items.new ≡ map item_of
            (asked_outcome (place_at asked.now.station asked.now.tid) asked.now.start self.old).passed }
    {
        items.clear();
        let place = place_of(asked.station, asked.tid);
        let since = ask_at(&mut self.sequencers, place, asked.start, self.clock, items);
        self.waits.set(place, since);
        let (released, given_up) = items.counts();
        self.up += released;
        self.missing += given_up;
    }

    /// Moves the scoreboard of a TID to the start of a BlockAckReq, and returns the content of the BlockAck.
    fn show(&mut self, asked: &Asked) -> Bitmap
        requires live { is_open self.old asked.now.station ≡ true }
        requires tid { asked.now.tid < 8 }
        requires agreed { is_plain_side (tid_side self.old asked.now.station asked.now.tid) ≡ false }
        ensures after { self.new ≡
            asked_at (place_at asked.now.station asked.now.tid) asked.now.start self.old }
        ensures bitmap { result ≡ bitmap_of (after_start asked.now.start
            (agreed_board (tid_side self.old asked.now.station asked.now.tid))) }
    {
        self.sides[place_of(asked.station, asked.tid)].ask(asked.start)
    }

    /// Takes a frame at the reordering of its TID, and writes the released frames and the gaps to `items`.
    /// Returns whether the frame is old.
    fn arrive(&mut self, heard: &Heard, items: &mut Items) -> bool
        requires frames { self.old.frames < 2 ^ 62 }
        requires missing { self.old.missing < 2 ^ 62 }
        requires live { is_open self.old heard.now.station ≡ true }
        requires tid { heard.now.tid < 8 }
        ensures after { self.new ≡
            arrived_at (place_at heard.now.station heard.now.tid) heard.now.seq self.old }
        ensures old { result ≡
            (arrival_outcome (place_at heard.now.station heard.now.tid) heard.now.seq self.old).old }
        ensures items { items.new ≡
            map item_of
            (arrival_outcome (place_at heard.now.station heard.now.tid) heard.now.seq self.old).passed }
    {
        items.clear();
        let place = place_of(heard.station, heard.tid);
        let (old, since) = arrive_at(
            &mut self.sequencers,
            place,
            heard.seq,
            self.frames,
            self.clock,
            items,
        );
        self.waits.set(place, since);
        let (released, given_up) = items.counts();
        self.frames += 1;
        self.up += released;
        self.missing += given_up;
        self.back += u64::from(old);
        old
    }

    /// Moves the clock on by `by` microseconds, at most 10,000,000.
    #[tactic(auto, unfolding(crate::specs::World::after_call))]
    pub fn tick(&mut self, by: u32)
        requires step { by ≤ 10000000 }
        requires clock { self.old.clock + by < latest }
        ensures clock { self.new.clock ≡ self.old.clock + by }
        ensures after { self.new ≡ after_call (Tick by) self.old }
    {
        self.clock += u64::from(by);
    }

    /// Gives up the hole of the first TID that is due, by station and then by TID, and writes the released
    /// frames and the gaps to `up`. Returns false if none is due; `up` is then unchanged. Call it until it
    /// returns false.
    #[tactic(auto, unfolding(crate::specs::World::after_call))]
    pub fn expired(&mut self, up: &mut Up) -> bool
        requires frames { self.old.frames < 2 ^ 62 }
        requires missing { self.old.missing < 2 ^ 62 }
        ensures due { result ≡ is_some (first_due self.old) }
        ensures clock { self.new.clock ≡ self.old.clock }
        ensures after { self.new ≡ after_call Expire self.old }
        ensures up { IfSome (first_due self.old) (λ place. up.exit.now ≡ up_of (timeout_of place self.old)) }
        ensures unchanged { first_due self.old ≡ None → up.exit.now ≡ up.entry.now }
    {
        let place = match self.waits.first_due(self.clock) {
            Some(place) => place,
            None => return false,
        };
        up.station = (place / 8) as u16;
        up.tid = (place % 8) as u8;
        up.air = 0;
        up.old = false;
        up.ack = false;
        up.items.clear();
        let since = time_out_at(&mut self.sequencers, place, self.clock, &mut up.items);
        self.waits.set(place, since);
        let (released, given_up) = up.items.counts();
        self.up += released;
        self.missing += given_up;
        true
    }

    /// Returns the number of accepted frames, by what became of them.
    pub fn totals(&self) -> Totals
        ensures { result ≡ totals_of self.now }
    {
        Totals {
            frames: self.frames,
            up: self.up,
            old: self.back,
            held: self.frames - self.up - self.back,
            missing: self.missing,
        }
    }
}
