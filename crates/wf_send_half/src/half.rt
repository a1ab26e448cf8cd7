//! The parts of the transmit half.

ghost use Rattle.std.specs.Prelude.{◌≡◌, ◌≤◌, ℕ, None, is_some, not, ◌&&◌, nat_le, count_by, IfOk};
ghost use Rattle.wf_frame.specs.Classes.{same_class};
ghost use Rattle.wf_frame.specs.Frames.{FrameValue};
ghost use Rattle.wf_frame.specs.Settings.{first_out_of_range};
ghost use Rattle.wf_def_world.specs.Group.{bss_count};
ghost use Rattle.wf_def_world.specs.World.{World, opening, is_live, rotation};
ghost use Rattle.wf_send_parts.specs.Members.{member};
ghost use Rattle.wf_send_half_model.specs.Half.{is_ahead_of};
ghost use Rattle.wf_send_half_model.specs.Standing.{StandsFor};
ghost use Rattle.wf_send_half.specs.Listed.{list_of};

use std::alloc::{AllocError, Global};
use std::marker::Model;
use wf_frame::{Class, Config};
use wf_queue_flows::Flows;
use wf_rotation::Side;
use wf_sched::Sched;
use wf_send_parts::exchanges::Opened;
use wf_send_parts::groups::Groups;
use wf_send_parts::stations::{Members, Modes, Sleepers, Tally};
use wf_send_parts::window::Windows;

/// The transmit half without the flags of `Transmit`. A contract sees its parts, and says what a call makes
/// of each world of a run that the half represents (`wf_send_half_model`).
pub(crate) struct Half {
    pub(crate) config: Config,
    pub(crate) clock: u64,
    pub(crate) exchanges: u64,
    /// The number of frames that were accepted and not reaped.
    pub(crate) inside: u32,
    pub(crate) flows: Flows,
    pub(crate) sched: Sched,
    pub(crate) windows: Windows,
    pub(crate) modes: Modes,
    pub(crate) members: Members,
    pub(crate) sleepers: Sleepers,
    pub(crate) opened: Opened,
    pub(crate) tally: Tally,
    pub(crate) groups: Groups,
}

// Written by hand, so that the proof of a drop is one call rather than the drop of each part.
impl Drop for Half {
    fn drop(self) {
        let Half {
            config: _,
            clock: _,
            exchanges: _,
            inside: _,
            flows: _flows,
            sched: _sched,
            windows: _windows,
            modes: _modes,
            members: _members,
            sleepers: _sleepers,
            opened: _opened,
            tally: _,
            groups: _groups,
        } = self;
    }
}

impl Model for Half {
    ghost use Rattle.wf_send_parts.specs.Tally.{counts_of};
    ghost use Rattle.wf_send_half_model.specs.Half.{TransmitValue};
    ghost use Rattle.wf_send_half.specs.Half.{HasSizes};

    ghost Value = { TransmitValue };

    ghost view = { λ t. record {
      config = t.config;
      clock = t.clock;
      exchanges = t.exchanges;
      inside = t.inside;
      flows = t.flows;
      sched = t.sched;
      windows = t.windows;
      modes = t.modes;
      members = t.members;
      sleepers = t.sleepers;
      opened = t.opened;
      tally = counts_of t.tally;
      groups = t.groups;
    } };

    ghost invariant = { λ t. HasSizes (record {
      config = t.config;
      clock = t.clock;
      exchanges = t.exchanges;
      inside = t.inside;
      flows = t.flows;
      sched = t.sched;
      windows = t.windows;
      modes = t.modes;
      members = t.members;
      sleepers = t.sleepers;
      opened = t.opened;
      tally = counts_of t.tally;
      groups = t.groups;
    }) };
}

// Returns the number of BSSs.
fn bss_count(config: Config) -> u32
    ensures exact { result ≡ bss_count config.bsses }
    ensures most { config.bsses ≤ 16 → result ≤ 16 }
{
    config.bsses.max(1)
}

impl Half {
    /// Makes a half in which no station is live and to which no frame came. Each setting must be in its range
    /// (`Config::check`).
    pub(crate) fn new(alloc: Global, config: Config) -> Result<Half, AllocError>
        requires { first_out_of_range config ≡ None }
        ensures { IfOk result (λ made. (bodies : ℕ → FrameValue) → StandsFor made (opening config) bodies) }
    {
        let opened = Opened::new(alloc)?;
        let sleepers = Sleepers::new(alloc, config.stations)?;
        let members = Members::new(alloc, config.stations)?;
        let modes = Modes::new(alloc, config.stations)?;
        let windows = Windows::new(alloc, config.stations)?;
        let sched = Sched::new(alloc, config.stations, config.quantum)?;
        let flows = Flows::new(alloc, config)?;
        let groups = Groups::new(alloc, bss_count(config), config.buffered)?;
        Ok(Half {
            config,
            clock: 0,
            exchanges: 0,
            inside: 0,
            flows,
            sched,
            windows,
            modes,
            members,
            sleepers,
            opened,
            tally: Tally::new(),
            groups,
        })
    }

    // Returns the number of BSSs (`Transmit::bss_count`).
    pub(crate) fn bss_count(&self) -> u32
        ensures { result ≡ bss_count self.now.config.bsses }
    {
        bss_count(self.config)
    }

    // Returns whether a station is live (`Transmit::is_live`).
    fn is_live(&self, station: u16) -> bool
        ensures value { result ≡ is_some (member self.now.members station) }
        ensures world { (w : World) (bodies : ℕ → FrameValue) → StandsFor self.now w bodies →
            result ≡ is_live w station }
    {
        u32::from(station) < self.config.stations && self.members.is_live(station)
    }

    // Returns the list of a class that a station is on (`Transmit::listed`).
    pub(crate) fn listed(&self, station: u16, class: Class) -> Option<Side>
        ensures { (w : World) (bodies : ℕ → FrameValue) → StandsFor self.now w bodies →
            result ≡ list_of (rotation w class) station }
    {
        if self.is_live(station) {
            self.sched.listed(station, class)
        } else {
            None
        }
    }

    // Returns whether fewer exchanges of a class are open than the setting `inflight` allows, and the
    // airtime in flight has not reached its limit.
    pub(crate) fn may_open(&self, class: Class) -> bool
        ensures { result ≡ (not (nat_le self.now.config.inflight
            (count_by (λ x. same_class x.class class) self.now.opened)) && not (is_ahead_of self.now)) }
    {
        self.opened.of_class(class) < self.config.inflight && !self.is_ahead()
    }

    // Returns whether the airtime in flight in all classes has reached the setting `aql_total`, which is no
    // limit if it is 0.
    pub(crate) fn is_ahead(&self) -> bool
        ensures { result ≡ is_ahead_of self.now }
    {
        0 < self.config.aql_total && self.config.aql_total <= self.opened.airtime()
    }
}
