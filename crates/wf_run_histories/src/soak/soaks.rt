//! The soak: a long random history, which is a function of a seed and a number of calls.

ghost use Rattle.std.specs.Prelude.{◌≡◌, ◌-◌, ◌%◌, ◌≤◌, ◌<◌, false, IfOk, OnOk, Some, None, length, if◌then◌else◌};
ghost use Rattle.wf_frame.specs.Answers.{reply_of};
ghost use Rattle.wf_frame.specs.Settings.{standard};
ghost use Rattle.wf_frame.specs.declared.notes.Ask.TheVariants.{Plain, Pull, Rate, Reap};
ghost use Rattle.wf_frame.specs.declared.notes.AskedRate.TheVariants.{Vht};
ghost use Rattle.wf_frame.specs.declared.notes.Note.TheVariants.{Asked};
ghost use Rattle.wf_path.specs.Jobs.{note_of};
ghost use Rattle.wf_run_histories.specs.Lengths.{HaveSoakLengths};
ghost use Rattle.wf_run_histories.specs.Soak.{IsLater, frame_for, soak_begun, call, reply_to, stations_join, station_joins, frame_put, air_used, sleeper_called, transmission_sent, lets_arrive, missed, all_sent, some_arrive, exchange_ended, after_answer_if, exchange_played, sending, sending_played, class_in_round, has_agreements, has_devices, join_of, first_join, limit_if, limits_in, device_call, device_called, agreement_call, agreement_called, after_pull, after_all_reaps, round_played, rounds_played, soak_history, drawn, word, is_nothing};

use crate::soak::workers::{standard_join, standard_rate};
use rand_core::utils::NextWord;
use rand_pcg::Lcg64Xsh32;
use std::alloc::{AllocError, Global};
use std::marker::Model;
use wf_cell::{Cell, Job};
use wf_frame::{Answer, Ask, AskedRate, Brief, Class, Config, Frame, Limits, Refusal};
use wf_queue_parts::chain::Parcel;

/// Which calls a soak draws.
#[derive(Clone, Copy)]
pub enum SoakKind {
    /// Those of drivers that have block acknowledgement agreements on all TIDs.
    Standard,
    /// Also those of offloaded stations, limits of pulls, marks of transmissions and flushes.
    Devices,
    /// Also those of plain stations and of agreements that begin and end.
    Agreements,
}

impl SoakKind {
    /// Returns whether a soak has the calls of offloaded stations.
    fn has_devices(self) -> bool
        ensures { result ≡ has_devices self }
    {
        !matches!(self, SoakKind::Standard)
    }

    /// Returns whether a soak has the calls of agreements.
    fn has_agreements(self) -> bool
        ensures { result ≡ has_agreements self }
    {
        matches!(self, SoakKind::Agreements)
    }
}

/// A soak in progress: its kind, the cell with the calls so far, the generator of random words, and the
/// number of calls that are left.
#[derive(Drop)]
struct SoakRun {
    alloc: Global,
    kind: SoakKind,
    cell: Cell,
    words: Lcg64Xsh32,
    left: u32,
}

impl Model for SoakRun {
    ghost use Rattle.std.specs.Prelude.{◌≡◌, ◌+◌, ◌≤◌, length};
    ghost use Rattle.wf_frame.specs.Settings.{standard};
    ghost use Rattle.wf_run_histories.specs.Soak.{Soak};

    ghost Value = { Soak };

    ghost view = { λ k. record {
      kind = k.kind;
      past = k.cell.past.history;
      words = k.words;
      left = k.left;
    } };

    ghost invariant = { λ k. (k.cell.past.config ≡ standard)
        × (length k.cell.past.history + k.left ≤ 1000000) };
}

/// Returns the cell after the soak of a seed and a number of calls, 1 to 1,000,000: the standard settings,
/// sixteen stations, and rounds of enqueues, pulls, losses and reaps until that number of calls was made.
/// A soak of devices has offloaded stations, limits of pulls and marks of transmissions, and each of its
/// pulls is followed by a call for a station and its device. A soak of agreements also has plain stations,
/// and a call for the agreement of a TID follows that call. Fails only if memory runs out.
#[inline(never)]
#[tactic(auto, unfolding(crate::specs::Soak::soak_history), using(crate::proofs::SoakLengths::soak_lengths))]
pub fn soak(alloc: Global, seed: u64, calls: u32, kind: SoakKind) -> Result<Cell, AllocError>
    requires { (1 ≤ calls) × (calls ≤ 1000000) }
    ensures made { IfOk result
        (λ c. c.past ≡ record { config = standard; history = soak_history seed calls kind }) }
    ensures counted { IfOk result (λ c. length (soak_history seed calls kind) ≡ calls) }
    ensures lengths { HaveSoakLengths (soak_history seed calls kind) }
{
    let mut soak = SoakRun::new(alloc, seed, calls, kind)?;
    let mut answer = Answer::new();
    soak.stations_join(&mut answer);
    soak.rounds_played(calls, &mut answer)?;
    Ok(soak.cell)
}

impl SoakRun {
    #[inline(never)]
    fn new(alloc: Global, seed: u64, calls: u32, kind: SoakKind) -> Result<SoakRun, AllocError>
        requires { calls ≤ 1000000 }
        ensures { IfOk result (λ k. k ≡ soak_begun seed calls kind) }
    {
        let cell = Cell::of(alloc, Config::standard())?;
        Ok(SoakRun {
            alloc,
            kind,
            cell,
            words: Lcg64Xsh32::new(seed, 0),
            left: calls,
        })
    }

    /// Makes a call if one is left, and returns whether it did.
    fn call(&mut self, job: Job, answer: &mut Answer) -> bool
        ensures made { self.new ≡ call (note_of job) self.old }
        ensures reply { (if result then Some (reply_of answer.new) else None)
            ≡ reply_to (note_of job) self.old }
        ensures later { IsLater self.old self.new }
        ensures left { self.new.left ≡ self.old.left - 1 }
    {
        if self.left == 0 {
            return false;
        }
        self.left -= 1;
        let _ = self.cell.step(0, job, answer);
        true
    }

    /// Makes a call without a frame if one is left, and returns whether it did.
    fn ask(&mut self, ask: Ask, answer: &mut Answer) -> bool
        ensures made { self.new ≡ call (Asked ask) self.old }
        ensures reply { (if result then Some (reply_of answer.new) else None)
            ≡ reply_to (Asked ask) self.old }
        ensures later { IsLater self.old self.new }
        ensures left { self.new.left ≡ self.old.left - 1 }
    {
        self.call(Job::Call(ask), answer)
    }

    /// Draws the next random word.
    fn draw(&mut self) -> u32
        ensures drawn { self.new ≡ drawn self.old }
        ensures word { result ≡ word self.old }
    {
        self.words.next_word()
    }

    fn station_joins(&mut self, station: u16, answer: &mut Answer)
        requires { station < 16 }
        ensures made { self.new ≡ station_joins station self.old }
        ensures later { IsLater self.old self.new }
    {
        self.ask(first_join(self.kind, station), answer);
        self.ask(standard_rate(station), answer);
    }

    /// Makes the sixteen stations join, and sets their rates.
    fn stations_join(&mut self, answer: &mut Answer)
        ensures made { self.new ≡ stations_join 0 16 self.old }
        ensures later { IsLater self.old self.new }
    {
        for station in 0..16u16 {
            self.station_joins(station, answer);
        }
    }

    /// Enqueues the frame that the next word determines, for the station that it determines. Fails only if
    /// memory runs out.
    fn frame_put(&mut self, answer: &mut Answer) -> Result<(), AllocError>
        ensures made { OnOk result (self.new ≡ frame_put self.old) }
        ensures later { OnOk result (IsLater self.old self.new) }
        ensures left { OnOk result (self.new.left ≡ self.old.left - 1) }
    {
        let word = self.draw();
        let job = job_for(self.alloc, word)?;
        self.call(job, answer);
        Ok(())
    }

    /// Charges a station for receiving, every eighth round.
    fn air_used(&mut self, round: u32, answer: &mut Answer)
        ensures made { self.new ≡ air_used round self.old }
        ensures later { IsLater self.old self.new }
    {
        if round % 8 != 0 {
            return;
        }
        self.ask(
            Ask::Rx {
                station: (round / 8 % 16) as u16,
                class: Class::Be,
                air: 200,
            },
            answer,
        );
    }

    /// Every 64 rounds, makes a station sleep; it polls 16 rounds later and wakes 32 rounds later.
    fn sleeper_called(&mut self, round: u32, answer: &mut Answer)
        ensures made { self.new ≡ sleeper_called round self.old }
        ensures later { IsLater self.old self.new }
    {
        let station = (round / 64 % 16) as u16;
        match round % 64 {
            0 => {
                self.ask(Ask::Sleep { station }, answer);
            }
            16 => {
                self.ask(Ask::Poll { station }, answer);
            }
            32 => {
                self.ask(Ask::Wake { station }, answer);
            }
            _ => {}
        }
    }

    /// Marks a transmission that does not arrive, in a soak of devices: one of three never went on the air,
    /// and one of three is given up.
    fn missed(&mut self, word: u32, exchange: u64, index: u16, answer: &mut Answer)
        ensures made { self.new ≡ missed (has_devices self.old.kind) word exchange index self.old }
        ensures later { IsLater self.old self.new }
    {
        if !self.kind.has_devices() {
            return;
        }
        match word / 10 % 3 {
            0 => {
                self.ask(Ask::Unsent { exchange, index }, answer);
            }
            1 => {
                self.ask(Ask::GiveUp { exchange, index }, answer);
            }
            _ => {}
        }
    }

    /// Plays one transmission, and returns whether it arrives: it does for nine of ten words.
    fn transmission_sent(&mut self, exchange: u64, index: u16, answer: &mut Answer) -> bool
        ensures made { self.new ≡ transmission_sent exchange index self.old }
        ensures arrived { result ≡ lets_arrive self.old }
        ensures later { IsLater self.old self.new }
    {
        let word = self.draw();
        if word % 10 == 0 {
            self.missed(word, exchange, index, answer);
            return false;
        }
        self.ask(Ask::Arrive { exchange, index }, answer);
        true
    }

    /// Plays each transmission of an exchange in order, and returns whether one arrived.
    fn all_sent(&mut self, exchange: u64, count: u16, answer: &mut Answer) -> bool
        ensures made { self.new ≡ all_sent exchange 0 count self.old }
        ensures arrived { result ≡ some_arrive exchange 0 count self.old }
        ensures later { IsLater self.old self.new }
    {
        let mut some = false;
        for index in 0..count {
            let arrived = self.transmission_sent(exchange, index, answer);
            some |= arrived;
        }
        some
    }

    fn answered_if(&mut self, answered: bool, exchange: u64, answer: &mut Answer)
        ensures made { self.new ≡ after_answer_if answered exchange self.old }
        ensures later { IsLater self.old self.new }
    {
        if answered {
            self.ask(Ask::Answer { exchange }, answer);
        }
    }

    /// Ends an exchange. If it was answered, the answer is heard for nineteen of twenty words.
    fn exchange_ended(&mut self, answered: bool, exchange: u64, answer: &mut Answer)
        ensures made { self.new ≡ exchange_ended answered exchange self.old }
        ensures later { IsLater self.old self.new }
    {
        let word = self.draw();
        let heard = answered && word % 20 != 0;
        self.ask(
            Ask::Done {
                exchange,
                heard,
                air: None,
            },
            answer,
        );
    }

    #[tactic(auto, unfolding(crate::specs::Soak::exchange_played))]
    fn exchange_played(&mut self, exchange: u64, count: u16, answer: &mut Answer)
        ensures made { self.new ≡ exchange_played exchange count self.old }
        ensures later { IsLater self.old self.new }
    {
        let answered = self.all_sent(exchange, count, answer);
        self.answered_if(answered, exchange, answer);
        self.exchange_ended(answered, exchange, answer);
    }

    /// Plays the exchange that a pull has begun, if it has begun one.
    fn sending_played(&mut self, sending: Option<(u64, u16)>, answer: &mut Answer)
        ensures made { self.new ≡ sending_played sending self.old }
        ensures later { IsLater self.old self.new }
    {
        if let Some((exchange, count)) = sending {
            self.exchange_played(exchange, count, answer);
        }
    }

    /// Pulls a class if a call is left. Returns the number of the exchange that this begins, and its number
    /// of transmissions.
    fn pull(&mut self, class: Class, limits: Limits, answer: &mut Answer) -> Option<(u64, u16)>
        ensures made { self.new ≡ call (Asked (Pull class limits)) self.old }
        ensures sending { result ≡ sending (reply_to (Asked (Pull class limits)) self.old) }
        ensures later { IsLater self.old self.new }
    {
        if self.ask(Ask::Pull { class, limits }, answer) {
            sending(answer)
        } else {
            None
        }
    }

    /// In a soak of devices, makes the call for a station and its device that the next word determines.
    #[tactic(auto, unfolding(crate::specs::Soak::device_called))]
    fn device_called(&mut self, answer: &mut Answer)
        ensures made { self.new ≡ device_called self.old }
        ensures later { IsLater self.old self.new }
    {
        if self.kind.has_devices() {
            let word = self.draw();
            self.ask(device_call(word), answer);
        }
    }

    /// In a soak of agreements, makes the call for the agreement of a TID that the next word determines.
    #[tactic(auto, unfolding(crate::specs::Soak::agreement_called))]
    fn agreement_called(&mut self, answer: &mut Answer)
        ensures made { self.new ≡ agreement_called self.old }
        ensures later { IsLater self.old self.new }
    {
        if self.kind.has_agreements() {
            let word = self.draw();
            self.ask(agreement_call(word), answer);
        }
    }

    /// Pulls a class, and plays the exchange that this begins.
    #[tactic(auto, unfolding(crate::specs::Soak::after_pull))]
    fn pulled(&mut self, class: Class, limits: Limits, answer: &mut Answer)
        ensures made { self.new ≡ after_pull class limits self.old }
        ensures later { IsLater self.old self.new }
    {
        let sending = self.pull(class, limits, answer);
        self.device_called(answer);
        self.agreement_called(answer);
        self.sending_played(sending, answer);
    }

    /// Reaps if a call is left. Returns whether the reap was made and found no finished frame.
    fn reap(&mut self, answer: &mut Answer) -> bool
        ensures made { self.new ≡ call (Asked Reap) self.old }
        ensures nothing { result ≡ is_nothing (reply_to (Asked Reap) self.old) }
        ensures later { IsLater self.old self.new }
        ensures left { self.new.left ≡ self.old.left - 1 }
    {
        self.ask(Ask::Reap, answer) && is_nothing(answer)
    }

    /// Reaps until no finished frame or no call is left.
    fn all_reaped(&mut self, answer: &mut Answer)
        ensures made { self.new ≡ after_all_reaps self.old }
        ensures later { IsLater self.old self.new }
    {
        for _ in 0..self.left {
            if self.reap(answer) {
                return;
            }
        }
    }

    #[tactic(auto, unfolding(crate::specs::Soak::round_played))]
    fn round_played(&mut self, round: u32, answer: &mut Answer) -> Result<(), AllocError>
        ensures made { OnOk result (self.new ≡ round_played round self.old) }
        ensures later { OnOk result (IsLater self.old self.new) }
        ensures left { OnOk result (self.new.left ≤ self.old.left - 1) }
    {
        let limits = limits_in(self.kind.has_devices(), round);
        self.frame_put(answer)?;
        self.frame_put(answer)?;
        self.frame_put(answer)?;
        self.frame_put(answer)?;
        self.ask(Ask::Tick { by: 1000 }, answer);
        self.air_used(round, answer);
        self.sleeper_called(round, answer);
        self.pulled(class_in_round(round), limits, answer);
        self.all_reaped(answer);
        Ok(())
    }

    /// Plays rounds until no call is left, at most `most` of them. Fails only if memory runs out.
    fn rounds_played(&mut self, most: u32, answer: &mut Answer) -> Result<(), AllocError>
        ensures made { OnOk result (self.new ≡ rounds_played most 0 self.old) }
        ensures later { OnOk result (IsLater self.old self.new) }
        ensures ended { OnOk result (self.new.left ≤ self.old.left - most) }
    {
        for round in 0..most {
            if self.left == 0 {
                return Ok(());
            }
            self.round_played(round, answer)?;
        }
        Ok(())
    }
}

/// Returns the enqueue that a word determines. Fails only if memory runs out.
fn job_for(alloc: Global, word: u32) -> Result<Job, AllocError>
    ensures { IfOk result (λ job. note_of job ≡ frame_for (word % 16) word) }
{
    let frame = Frame::sample(
        alloc,
        (word % 16) as u16,
        (word / 16 % 8) as u8,
        word / 128 % 256,
        (64 + word / 32768 % 1437) as u16,
    )?;
    match Parcel::new(alloc, frame) {
        Ok(parcel) => Ok(Job::Give(parcel)),
        Err((refused, _)) => Err(refused),
    }
}

fn class_in_round(round: u32) -> Class
    ensures { result ≡ class_in_round round }
{
    match round % 4 {
        0 => Class::Bk,
        1 => Class::Be,
        2 => Class::Vi,
        _ => Class::Vo,
    }
}

/// Returns the join of a station that is offloaded, or a standard one with this first number.
fn join_of(offloaded: bool, station: u16, start: u16) -> Ask
    ensures { result ≡ join_of offloaded station start }
{
    if offloaded {
        Ask::Offload {
            station,
            exponent: 3,
            weight: 1,
        }
    } else {
        standard_join(station, start)
    }
}

/// Returns the first join of a station.
fn first_join(kind: SoakKind, station: u16) -> Ask
    requires { station < 16 }
    ensures { result ≡ first_join kind station }
{
    let start = 4080 + station;
    if kind.has_agreements() && station % 4 == 2 {
        plain_join(station, start)
    } else {
        join_of(kind.has_devices() && station % 2 == 1, station, start)
    }
}

/// Returns the join of a plain station with this first number.
fn plain_join(station: u16, start: u16) -> Ask
    ensures { result ≡ Plain station start 3 1 }
{
    Ask::Plain {
        station,
        start,
        exponent: 3,
        weight: 1,
    }
}

/// Returns the call for the agreement of a TID that a word determines.
#[tactic(auto, unfolding(crate::specs::Soak::agreement_call))]
fn agreement_call(word: u32) -> Ask
    ensures { result ≡ agreement_call word }
{
    let station = (word / 8 % 16) as u16;
    let tid = (word / 128 % 8) as u8;
    let rest = word / 1024;
    match word % 8 {
        0 | 1 => Ask::Hold { station, tid },
        2 | 3 => Ask::Begin {
            station,
            tid,
            window: (1 + rest % 256) as u16,
        },
        4 => Ask::Free { station, tid },
        5 | 6 => Ask::Cease { station, tid },
        _ => plain_join(station, (rest % 4096) as u16),
    }
}

/// Returns the call for a station and its device that a word determines.
#[tactic(auto, unfolding(crate::specs::Soak::device_call))]
fn device_call(word: u32) -> Ask
    ensures { result ≡ device_call word }
{
    let station = (word / 12 % 16) as u16;
    let rest = word / 192;
    match word % 12 {
        0 | 1 => Ask::Weight {
            station,
            weight: (1 + rest % 16) as u8,
        },
        2 => Ask::Stop { station },
        3 | 4 => Ask::Start { station },
        5 | 6 => Ask::Flush {
            station,
            tid: (rest % 8) as u8,
        },
        7 => Ask::Leave { station },
        8 => join_of(true, station, 0),
        9 => join_of(false, station, (rest % 4096) as u16),
        10 => vht_rate(station, (rest % 10) as u8),
        _ => Ask::Ampdu {
            station,
            octets: 4096 + rest % 65536,
        },
    }
}

/// Returns a rate of VHT on 80 MHz with two streams.
fn vht_rate(station: u16, mcs: u8) -> Ask
    ensures { result ≡ Rate station (Vht mcs 80 false 2) }
{
    Ask::Rate {
        station,
        rate: AskedRate::Vht {
            mcs,
            mhz: 80,
            short: false,
            streams: 2,
        },
    }
}

/// Returns the limit of a pull, if it is limited.
fn limit_if(limited: bool, most: u32) -> Option<u32>
    ensures { result ≡ limit_if limited most }
{
    if limited { Some(most) } else { None }
}

/// Returns the limits of a round's pull: none, except in a soak of devices.
fn limits_in(device: bool, round: u32) -> Limits
    ensures { result ≡ limits_in device round }
{
    Limits {
        frames: limit_if(device && round % 3 == 0, 1 + round % 8),
        air: limit_if(device && round % 5 == 0, 100 + round % 2000),
    }
}

/// Returns the number of the exchange that an answer begins, and its number of transmissions.
fn sending(answer: &Answer) -> Option<(u64, u16)>
    ensures { result ≡ sending (Some (reply_of answer.now)) }
{
    match answer.brief {
        Brief::Send {
            exchange,
            request,
            ..
        } => match request {
            Some(_) => Some((exchange, 1)),
            None => Some((exchange, answer.pairs.len() as u16)),
        },
        _ => None,
    }
}

fn is_nothing(answer: &Answer) -> bool
    ensures { result ≡ is_nothing (Some (reply_of answer.now)) }
{
    matches!(answer.brief, Brief::Refused(Refusal::Nothing))
}
