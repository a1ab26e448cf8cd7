//! Functions that report the state of a transmit half and do not change it.

ghost use Rattle.std.specs.Prelude.{◌≡◌, ◌<◌, ◌==◌, ◌&&◌, ℕ, pos, ◌+ℤ◌, length, is_none, is_some, find, option_map, Some, if◌then◌else◌};
ghost use Rattle.wf_frame.specs.Classes.{tid_number};
ghost use Rattle.wf_frame.specs.Frames.{FrameValue};
ghost use Rattle.wf_frame.specs.declared.notes.Ask.TheVariants.{Pull};
ghost use Rattle.wf_frame.specs.declared.notes.Limits.{Limits};
ghost use Rattle.wf_frame.specs.declared.notes.Note.TheVariants.{Asked};
ghost use Rattle.wf_def_world.specs.Refusals.{refusal};
ghost use Rattle.wf_def_world.specs.Group.{bss_count};
ghost use Rattle.wf_def_world.specs.World.{World, station as world_station, is_live, is_offloaded, share, rotation, inside, owed};
ghost use Rattle.wf_queue_flows.specs.Flows.{frames_of_tid};
ghost use Rattle.wf_sched.specs.ClassRotas.{deficit};
ghost use Rattle.wf_send_parts.specs.Exchanges.{airtime_to};
ghost use Rattle.wf_send_parts.specs.Members.{member, is_offloaded_in, charged_in, received_in};
ghost use Rattle.wf_send_parts.specs.Modes.{mode_of};
ghost use Rattle.wf_send_parts.specs.Sleepers.{sleeper};
ghost use Rattle.wf_send_parts.specs.Tally.{counts_of};
ghost use Rattle.wf_send_parts.specs.Windows.{window_of};
ghost use Rattle.wf_send_half_model.specs.Half.{pending_air_of};
ghost use Rattle.wf_send_half_model.specs.Pulling.{has_more_of};
ghost use Rattle.wf_send_half_model.specs.Standing.{StandsFor, counts_in};
ghost use Rattle.wf_send_half.specs.Half.{IsLive};
ghost use Rattle.wf_send_half.specs.Listed.{list_of};

use crate::Transmit;
use wf_frame::{Class, Config};
use wf_rotation::Side;
use wf_send_parts::exchanges::Open;
use wf_send_parts::stations::{Mode, Tally};
use wf_send_parts::window::Window;

impl Transmit {
    /// Returns the settings.
    pub fn config(&self) -> Config
        ensures value { result ≡ self.now.config }
        ensures world { (w : World) (bodies : ℕ → FrameValue) → StandsFor self.now w bodies →
            result ≡ w.config }
    {
        self.half.config
    }

    /// Returns the clock, in microseconds.
    pub fn now(&self) -> u64
        ensures value { result ≡ self.now.clock }
        ensures world { (w : World) (bodies : ℕ → FrameValue) → StandsFor self.now w bodies →
            result ≡ w.clock }
    {
        self.half.clock
    }

    /// Returns how many exchanges were opened.
    pub fn exchanges(&self) -> u64
        ensures value { result ≡ self.now.exchanges }
        ensures world { (w : World) (bodies : ℕ → FrameValue) → StandsFor self.now w bodies →
            result ≡ w.exchanges }
    {
        self.half.exchanges
    }

    /// Returns how many exchanges are open, at most 32.
    pub fn open_count(&self) -> u32
        ensures value { result ≡ length self.now.opened }
        ensures world { (w : World) (bodies : ℕ → FrameValue) → StandsFor self.now w bodies →
            result ≡ length w.opened }
    {
        self.half.opened.len()
    }

    /// Returns how many frames were accepted and not reaped.
    pub fn inside(&self) -> u32
        ensures value { result ≡ self.now.inside }
        ensures world { (w : World) (bodies : ℕ → FrameValue) → StandsFor self.now w bodies →
            result ≡ inside w }
    {
        self.half.inside
    }

    /// Returns how many frames were accepted, and how many of them have each fate.
    pub fn tally(&self) -> Tally
        ensures value { counts_of result ≡ self.now.tally }
        ensures world { (w : World) (bodies : ℕ → FrameValue) → StandsFor self.now w bodies →
            counts_of result ≡ counts_in w }
    {
        self.half.tally
    }

    /// Returns whether a station is live. A number past the last station is not.
    pub fn is_live(&self, station: u16) -> bool
        ensures value { result ≡ is_some (member self.now.members station) }
        ensures world { (w : World) (bodies : ℕ → FrameValue) → StandsFor self.now w bodies →
            result ≡ is_live w station }
    {
        u32::from(station) < self.half.config.stations && self.half.members.is_live(station)
    }

    /// Returns whether a station is live and offloaded: its device numbers, aggregates and repeats its
    /// frames.
    pub fn is_offloaded(&self, station: u16) -> bool
        ensures value { result ≡ is_offloaded_in self.now.members station }
        ensures world { (w : World) (bodies : ℕ → FrameValue) → StandsFor self.now w bodies →
            result ≡ is_offloaded w station }
    {
        u32::from(station) < self.half.config.stations && self.half.members.is_offloaded(station)
    }

    /// Returns the number of BSSs, 1 to 16. Each has a number below it.
    pub fn bss_count(&self) -> u32
        ensures value { result ≡ bss_count self.now.config.bsses }
        ensures world { (w : World) (bodies : ℕ → FrameValue) → StandsFor self.now w bodies →
            result ≡ bss_count w.config.bsses }
    {
        self.half.bss_count()
    }

    /// Returns the number of a station's BSS. That of a station that is not live is 0.
    pub fn bss(&self, station: u16) -> u8
        ensures value { result ≡ (if is_some (member self.now.members station)
            then (sleeper self.now.sleepers station).bss else 0) }
        ensures world { (w : World) (bodies : ℕ → FrameValue) → StandsFor self.now w bodies →
            result ≡ (world_station w station).bss }
    {
        if self.is_live(station) {
            self.half.sleepers.bss(station)
        } else {
            0
        }
    }

    /// Returns the mode of a TID: whether it has an agreement. The station's number is below the setting
    /// `stations`.
    pub fn mode(&self, station: u16, tid: u8) -> Mode
        requires within { station < self.now.config.stations }
        requires tid { tid < 8 }
        ensures { result ≡ mode_of self.now.modes station tid }
    {
        self.half.modes.at(station, tid)
    }

    /// Returns the deficit of a live station in a class, in microseconds.
    pub fn deficit(&self, station: u16, class: Class) -> i64
        requires live { IsLive self.now station }
        ensures value { result ≡
            deficit self.now.sched class station +ℤ pos (pending_air_of self.now station class) }
        ensures world { (w : World) (bodies : ℕ → FrameValue) → StandsFor self.now w bodies →
            result ≡ (share w station class).deficit }
    {
        let pending = self.half.pending_air(station, class);
        self.half.standing(station, class) + i64::from(pending)
    }

    /// Returns the list of a class that a station is on, the new one or the old one. None if it is on
    /// neither, as a station that is not live.
    pub fn listed(&self, station: u16, class: Class) -> Option<Side>
        ensures { (w : World) (bodies : ℕ → FrameValue) → StandsFor self.now w bodies →
            result ≡ list_of (rotation w class) station }
    {
        self.half.listed(station, class)
    }

    /// Returns the airtime of a live station's exchanges in a class since its join, in microseconds.
    pub fn charged(&self, station: u16, class: Class) -> u64
        requires live { IsLive self.now station }
        ensures value { option_map (λ m. charged_in m class) (member self.now.members station) ≡ Some result }
        ensures world { (w : World) (bodies : ℕ → FrameValue) → StandsFor self.now w bodies →
            result ≡ (share w station class).charged }
    {
        self.half.members.member(station).charged[class.number()]
    }

    /// Returns the airtime that a live station itself used in a class since its join, in microseconds.
    pub fn received(&self, station: u16, class: Class) -> u64
        requires live { IsLive self.now station }
        ensures value { option_map (λ m. received_in m class) (member self.now.members station)
            ≡ Some result }
        ensures world { (w : World) (bodies : ℕ → FrameValue) → StandsFor self.now w bodies →
            result ≡ (share w station class).received }
    {
        self.half.members.member(station).received[class.number()]
    }

    /// Returns the computed airtime of a live station's open exchanges in a class, in microseconds.
    pub fn in_flight(&self, station: u16, class: Class) -> u32
        requires live { IsLive self.now station }
        ensures value { result ≡ airtime_to self.now.opened station class }
        ensures world { (w : World) (bodies : ℕ → FrameValue) → StandsFor self.now w bodies →
            result ≡ owed station class w.opened }
    {
        self.half.in_flight(station, class)
    }

    /// Returns the open exchange with this number. None if it is not open.
    pub fn exchange(&self, number: u64) -> Option<&Open>
        ensures { option_map (λ x. x.now) result ≡ find (λ x. x.number == number) self.now.opened }
    {
        self.half.opened.find(number)
    }

    /// Returns the window of a TID. The station's number is below the setting `stations`.
    pub fn window(&self, station: u16, tid: u8) -> &Window
        requires within { station < self.now.config.stations }
        requires tid { tid < 8 }
        ensures { result.now ≡ window_of self.now.windows station tid }
    {
        self.half.windows.at(station, tid)
    }

    /// Returns whether a pull of a class would send now, whatever its limits: exactly if it would be refused
    /// neither as Full nor as Ahead nor as Idle.
    pub fn can_pull(&self, class: Class) -> bool
        ensures { (w : World) (bodies : ℕ → FrameValue) → StandsFor self.now w bodies → (limits : Limits) →
            result ≡ is_none (refusal w (Asked (Pull class limits))) }
    {
        self.half.may_open(class) && self.ready.has_any(class)
    }

    /// Returns how many frames of a TID are in flow queues. The station's number is below the setting
    /// `stations`.
    pub fn queued(&self, station: u16, tid: u8) -> u32
        requires within { station < self.now.config.stations }
        requires tid { tid < 8 }
        ensures { result ≡ frames_of_tid self.now.flows (tid_number station tid) }
    {
        self.half.flows.queued(station, tid)
    }

    /// Returns the bit of a station in the TIM (IEEE 802.11-2012, 8.4.2.7): whether it is live and sleeps,
    /// and a number waits or a frame is queued for it on some TID of the classes of a poll (10.2.1.5).
    pub fn has_traffic(&self, station: u16) -> bool
        requires within { station < self.now.config.stations }
        ensures { result ≡ (is_some (member self.now.members station)
            && ((sleeper self.now.sleepers station).asleep && has_more_of self.now station)) }
    {
        self.half.members.is_live(station)
            && self.half.sleepers.asleep(station)
            && self.half.has_more(station)
    }
}
