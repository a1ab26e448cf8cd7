//! The modes of the TIDs of all stations.

ghost use Rattle.std.specs.Prelude.{◌≡◌, ◌≢◌, ℕ, ◌*◌, ◌<◌, ◌≤◌, IfOk, length, replicate};
ghost use Rattle.wf_frame.specs.Classes.{tid_number};
ghost use Rattle.wf_def_world.specs.World.{has_agreement, holds_back};
ghost use Rattle.wf_send_parts.specs.Modes.{as_mode, mode_of, is_set_in, any_set_in, with_mode_of};

use std::alloc::{AllocError, Global};
use std::marker::Model;
use wf_frame::tid_number;

/// The number of TIDs of a station.
const TIDS: u8 = 8;

/// Whether a TID has a block acknowledgement agreement (IEEE 802.11-2012, 10.5).
#[derive(Clone, Copy, Debug, PartialEq, Eq)]
pub enum Mode {
    /// It has none. Its frames are sent one at a time, each answered by an Ack, unless the station's device
    /// numbers and repeats them.
    Plain,
    /// It has none, and no frame gets a number, so that an agreement can begin.
    OnHold,
    /// It has one.
    Agreed,
}

impl Mode {
    /// Returns whether there is an agreement.
    pub fn is_agreed(self) -> bool
        ensures { result ≡ has_agreement (as_mode self) }
    {
        matches!(self, Mode::Agreed)
    }

    /// Returns whether no frame gets a number.
    pub fn is_on_hold(self) -> bool
        ensures { result ≡ holds_back (as_mode self) }
    {
        matches!(self, Mode::OnHold)
    }
}

/// The modes of TIDs 0 to 7 of each station. Contracts see them as a list, by `tid_number`. Only `new`
/// allocates.
#[derive(Drop)]
pub struct Modes {
    modes: Vec<Mode>,
}

impl Model for Modes {
    ghost use Rattle.std.specs.Prelude.{List};
    ghost use Rattle.wf_send_parts.specs.declared.stations.modes.Mode.{Mode};

    ghost Value = { List Mode };

    ghost view = { λ m. m.modes.items };
}

impl Modes {
    /// Creates the modes of `stations` stations, 1 to 256. All TIDs are plain. Fails only if memory runs out.
    pub fn new(alloc: Global, stations: u32) -> Result<Modes, AllocError>
        requires { (1 ≤ stations) × (stations ≤ 256) }
        ensures { IfOk result (λ made. made ≡ replicate (8 * stations) Mode.Plain) }
    {
        let count = usize::from(TIDS) * stations as usize;
        Ok(Modes {
            modes: vec![in alloc; Mode::Plain; count]?,
        })
    }

    /// Returns the mode of a TID.
    pub fn at(&self, station: u16, tid: u8) -> Mode
        requires tid { tid < 8 }
        requires within { tid_number station tid < length self.now }
        ensures { result ≡ mode_of self.now station tid }
    {
        self.modes[tid_number(station, tid) as usize]
    }

    /// Returns whether some TID of a station has an agreement or is held.
    pub fn any_set(&self, station: u16) -> bool
        requires within { tid_number station 7 < length self.now }
        ensures { result ≡ any_set_in self.now station }
    {
        self.is_set(station, 0)
            || self.is_set(station, 1)
            || self.is_set(station, 2)
            || self.is_set(station, 3)
            || self.is_set(station, 4)
            || self.is_set(station, 5)
            || self.is_set(station, 6)
            || self.is_set(station, 7)
    }

    // Returns whether a TID has an agreement or is held.
    fn is_set(&self, station: u16, tid: u8) -> bool
        requires tid { tid < 8 }
        requires within { tid_number station tid < length self.now }
        ensures { result ≡ is_set_in self.now station tid }
    {
        let mode = self.at(station, tid);
        mode.is_agreed() || mode.is_on_hold()
    }

    /// Sets the mode of a TID.
    pub fn set(&mut self, station: u16, tid: u8, mode: Mode)
        requires tid { tid < 8 }
        requires within { tid_number station tid < length self.old }
        ensures set { self.new ≡ with_mode_of self.old station tid mode }
        ensures count { length self.new ≡ length self.old }
    {
        self.modes[tid_number(station, tid) as usize] = mode;
    }

    /// Sets the modes of all eight TIDs of a station.
    pub fn set_all(&mut self, station: u16, mode: Mode)
        requires within { tid_number station 7 < length self.old }
        ensures set { (t : ℕ) → t < 8 → mode_of self.new station t ≡ mode }
        ensures others { (s t : ℕ) → s ≢ station → t < 8 → mode_of self.new s t ≡ mode_of self.old s t }
        ensures count { length self.new ≡ length self.old }
    {
        for tid in 0..TIDS {
            self.set(station, tid, mode);
        }
    }
}
