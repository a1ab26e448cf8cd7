//! Service periods of stations that sleep (U-APSD; IEEE 802.11-2012, 10.2.1.5). `PathAsk::Service` makes the
//! calls about them.

ghost use Rattle.std.specs.Prelude.{◌≡◌, ◌&&◌, ℕ, is_some, if◌then◌else◌};
ghost use Rattle.wf_frame.specs.Frames.{FrameValue};
ghost use Rattle.wf_frame.specs.declared.notes.Ask.TheVariants.{Service};
ghost use Rattle.wf_def_world.specs.World.{World, station as world_station};
ghost use Rattle.wf_law_runs.specs.Services.{is_in_service};
ghost use Rattle.wf_send_half_model.specs.Standing.{StandsFor};
ghost use Rattle.wf_send_parts.specs.Members.{member};
ghost use Rattle.wf_send_parts.specs.Sleepers.{sleeper};
ghost use Rattle.wf_path.specs.Paths.{IsAnsweredBriefly};

use crate::Path;
use wf_frame::{Brief, ServiceAsk};

impl Path {
    // Makes a call about the service periods of a station.
    pub(crate) fn service(&mut self, ask: ServiceAsk) -> Brief
        ensures { IsAnsweredBriefly self.old (Service ask) self.new result }
    {
        match self.half.service(ask) {
            Ok(answer) => Brief::Service(answer),
            Err(reason) => Brief::Refused(reason),
        }
    }

    /// Returns whether a service period of a station is open; it is not if the station is not live. If pulls
    /// of all delivery-enabled classes are Idle meanwhile, the driver waits until no exchange to the station
    /// is open, sends a QoS Null frame with the EOSP bit, and calls `ServiceAsk::End`.
    pub fn is_in_service(&self, station: u16) -> bool
        ensures value { result ≡ (is_some (member self.now.half.members station)
            && is_some (sleeper self.now.half.sleepers station).service) }
        ensures world { (w : World) (bodies : ℕ → FrameValue) → StandsFor self.now.half w bodies →
            result ≡ is_in_service w station }
    {
        self.half.is_in_service(station)
    }

    /// Returns the delivery-enabled classes of a station, 0 to 15: bit c is 1 if class number c is one. A
    /// station that is not live has none.
    pub fn delivery(&self, station: u16) -> u8
        ensures value { result ≡ (if is_some (member self.now.half.members station)
            then (sleeper self.now.half.sleepers station).delivery else 0) }
        ensures world { (w : World) (bodies : ℕ → FrameValue) → StandsFor self.now.half w bodies →
            result ≡ (world_station w station).delivery }
    {
        self.half.delivery(station)
    }
}
