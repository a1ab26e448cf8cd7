//! The path, and its readers.

ghost use Rattle.std.specs.Prelude.{◌≡◌, ◌↔◌, ℕ, pos, ◌+ℤ◌, Some, Err, length, is_some, option_map, IfOk};
ghost use Rattle.wf_frame.specs.Frames.{FrameValue};
ghost use Rattle.wf_frame.specs.Settings.{first_out_of_range};
ghost use Rattle.wf_frame.specs.declared.settings.Field.{Field};
ghost use Rattle.wf_def_world.specs.World.{World, opening, is_live, share, owed};
ghost use Rattle.wf_send_parts.specs.Tally.{counts_of};
ghost use Rattle.wf_sched.specs.ClassRotas.{deficit};
ghost use Rattle.wf_send_parts.specs.Exchanges.{airtime_to};
ghost use Rattle.wf_send_parts.specs.Members.{member, charged_in, received_in};
ghost use Rattle.wf_send_half.specs.Half.{IsLive};
ghost use Rattle.wf_send_half_model.specs.Half.{pending_air_of};
ghost use Rattle.wf_send_half_model.specs.Standing.{StandsFor, counts_in};
ghost use Rattle.wf_path.specs.Addresses.{made_up};
ghost use Rattle.wf_path.specs.Paths.{IsPath, HasCountsBelow, IsSmall};

use crate::NewFault;
use crate::addresses::AddressBook;
use std::alloc::Global;
use std::marker::Model;
use wf_frame::{Class, Config};
use wf_send_half::Transmit;
use wf_send_parts::stations::Tally;

/// The transmit path. A contract sees its transmit half, and says what a call makes of each world of a run
/// that the half represents (`wf_send_half_model`); there is always one. A contract also sees the addresses,
/// which only `set_base`, `set_address`, `set_bss_address` and `set_aid` change. Only `new` allocates memory.
pub struct Path {
    pub(crate) half: Transmit,
    pub(crate) addresses: AddressBook,
}

// Written by hand, so that the proof of a drop is one call rather than the drop of each list.
impl Drop for Path {
    fn drop(self) {
        let Path {
            half: _half,
            addresses: _addresses,
        } = self;
    }
}

impl Model for Path {
    ghost use Rattle.wf_path.specs.Paths.{PathValue, IsPath};

    ghost Value = { PathValue };

    ghost view = { λ p. record { half = p.half; addresses = p.addresses } };

    ghost invariant = { λ p. IsPath p.half };
}

impl Path {
    /// Makes a path with these settings: no station is live, no frame was accepted, and the addresses are the
    /// placeholders. Refused as BadConfig with the first setting that is out of its range, if there is one,
    /// or as NoMemory.
    pub fn new(alloc: Global, config: Config) -> Result<Path, NewFault>
        ensures bad { (f : Field) → (result ≡ Err (NewFault.BadConfig f)) ↔
            (first_out_of_range config ≡ Some f) }
        ensures stands { IfOk result (λ made. (bodies : ℕ → FrameValue) →
            StandsFor made.half (opening config) bodies) }
        ensures small { IfOk result (λ made. IsSmall made.half) }
        ensures none { IfOk result (λ made. HasCountsBelow 1 made.half) }
        ensures addresses { IfOk result (λ made. made.addresses ≡ made_up) }
        ensures path { IfOk result (λ made. IsPath made.half) }
    {
        if let Some(field) = config.check() {
            return Err(NewFault::BadConfig(field));
        }
        let addresses = AddressBook::new(alloc)?;
        let half = Transmit::new(alloc, config)?;
        Ok(Path { half, addresses })
    }

    /// Returns the settings. By clause `path` there is a world that the path represents.
    pub fn config(&self) -> Config
        ensures value { result ≡ self.now.half.config }
        ensures world { (w : World) (bodies : ℕ → FrameValue) → StandsFor self.now.half w bodies →
            result ≡ w.config }
        ensures path { IsPath self.now.half }
    {
        self.half.config()
    }

    /// Returns the clock, in microseconds.
    pub fn now(&self) -> u64
        ensures value { result ≡ self.now.half.clock }
        ensures world { (w : World) (bodies : ℕ → FrameValue) → StandsFor self.now.half w bodies →
            result ≡ w.clock }
    {
        self.half.now()
    }

    /// Returns how many exchanges were opened.
    pub fn exchanges(&self) -> u64
        ensures value { result ≡ self.now.half.exchanges }
        ensures world { (w : World) (bodies : ℕ → FrameValue) → StandsFor self.now.half w bodies →
            result ≡ w.exchanges }
    {
        self.half.exchanges()
    }

    /// Returns how many exchanges are open, at most 32.
    pub fn open_count(&self) -> u32
        ensures value { result ≡ length self.now.half.opened }
        ensures world { (w : World) (bodies : ℕ → FrameValue) → StandsFor self.now.half w bodies →
            result ≡ length w.opened }
    {
        self.half.open_count()
    }

    /// Returns whether a station is live. A number past the last station is not.
    pub fn live(&self, station: u16) -> bool
        ensures value { result ≡ is_some (member self.now.half.members station) }
        ensures world { (w : World) (bodies : ℕ → FrameValue) → StandsFor self.now.half w bodies →
            result ≡ is_live w station }
    {
        self.half.is_live(station)
    }

    /// Returns how many frames were accepted, and how many of them have each fate.
    pub fn tally(&self) -> Tally
        ensures value { counts_of result ≡ self.now.half.tally }
        ensures world { (w : World) (bodies : ℕ → FrameValue) → StandsFor self.now.half w bodies →
            counts_of result ≡ counts_in w }
    {
        self.half.tally()
    }

    /// Returns the deficit of a live station in a class, in microseconds.
    pub fn deficit(&self, station: u16, class: Class) -> i64
        requires live { IsLive self.now.half station }
        ensures value { result ≡
            deficit self.now.half.sched class station +ℤ pos (pending_air_of self.now.half station class) }
        ensures world { (w : World) (bodies : ℕ → FrameValue) → StandsFor self.now.half w bodies →
            result ≡ (share w station class).deficit }
    {
        self.half.deficit(station, class)
    }

    /// Returns the airtime of a live station's exchanges in a class since its join, in microseconds.
    pub fn charged(&self, station: u16, class: Class) -> u64
        requires live { IsLive self.now.half station }
        ensures value { option_map (λ m. charged_in m class) (member self.now.half.members station)
            ≡ Some result }
        ensures world { (w : World) (bodies : ℕ → FrameValue) → StandsFor self.now.half w bodies →
            result ≡ (share w station class).charged }
    {
        self.half.charged(station, class)
    }

    /// Returns the airtime that a live station itself used in a class since its join, in microseconds.
    pub fn received(&self, station: u16, class: Class) -> u64
        requires live { IsLive self.now.half station }
        ensures value { option_map (λ m. received_in m class) (member self.now.half.members station)
            ≡ Some result }
        ensures world { (w : World) (bodies : ℕ → FrameValue) → StandsFor self.now.half w bodies →
            result ≡ (share w station class).received }
    {
        self.half.received(station, class)
    }

    /// Returns the computed airtime of a live station's open exchanges in a class, in microseconds.
    pub fn in_flight(&self, station: u16, class: Class) -> u32
        requires live { IsLive self.now.half station }
        ensures value { result ≡ airtime_to self.now.half.opened station class }
        ensures world { (w : World) (bodies : ℕ → FrameValue) → StandsFor self.now.half w bodies →
            result ≡ owed station class w.opened }
    {
        self.half.in_flight(station, class)
    }
}
