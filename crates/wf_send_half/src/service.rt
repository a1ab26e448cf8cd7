//! Service periods of stations that sleep.

ghost use Rattle.std.specs.Prelude.{◌≡◌, ◌&&◌, ℕ, is_some, if◌then◌else◌, IfErr};
ghost use Rattle.wf_frame.specs.Frames.{FrameValue};
ghost use Rattle.wf_frame.specs.declared.notes.Ask.TheVariants.{Service};
ghost use Rattle.wf_frame.specs.declared.notes.Note.TheVariants.{Asked};
ghost use Rattle.wf_frame.specs.declared.notes.ReplyNote.TheVariants.{Service as Services};
ghost use Rattle.wf_frame.specs.declared.notes.ServiceAsk.TheVariants.{Set, Trigger, End};
ghost use Rattle.wf_def_world.specs.Service.{station_served};
ghost use Rattle.wf_def_world.specs.World.{World, station as world_station};
ghost use Rattle.wf_law_runs.specs.Services.{is_in_service};
ghost use Rattle.wf_send_parts.specs.Members.{member};
ghost use Rattle.wf_send_parts.specs.Sleepers.{sleeper};
ghost use Rattle.wf_send_half_model.specs.Standing.{StandsFor, Meets};
ghost use Rattle.wf_send_half.specs.Half.{HasUnheardWorld};
ghost use Rattle.wf_send_half.specs.Replies.{reply_of_result};

use crate::Transmit;
use crate::half::Half;
use wf_frame::{Refusal, ServiceAsk, ServiceReply};

// Returns the station of a call.
fn station_served(ask: ServiceAsk) -> u16
    ensures { result ≡ station_served ask }
{
    match ask {
        ServiceAsk::Set { station, .. }
        | ServiceAsk::Trigger { station }
        | ServiceAsk::End { station } => station,
    }
}

impl Half {
    // Makes a call about the service periods of a station (`Transmit::service`).
    pub(crate) fn service(&mut self, ask: ServiceAsk) -> Result<ServiceReply, Refusal>
        ensures meets { (w : World) (bodies : ℕ → FrameValue) → StandsFor self.old w bodies →
            Meets w bodies (Asked (Service ask)) self.new (reply_of_result Services result) }
        ensures refused { IfErr result (λ _. self.new ≡ self.old) }
    {
        match ask {
            ServiceAsk::Set {
                station,
                classes,
                most,
            } => self.set_delivery(station, classes, most),
            ServiceAsk::Trigger { station } => self.trigger(station),
            ServiceAsk::End { station } => self.end_service(station),
        }
    }

    // Sets a station's delivery-enabled classes, and the most frames of a service period.
    fn set_delivery(&mut self, station: u16, classes: u8, most: u8) -> Result<ServiceReply, Refusal>
        ensures meets { (w : World) (bodies : ℕ → FrameValue) → StandsFor self.old w bodies →
            Meets w bodies (Asked (Service (Set station classes most))) self.new
            (reply_of_result Services result) }
        ensures refused { IfErr result (λ _. self.new ≡ self.old) }
    {
        self.check_delivery(station, classes, most)?;
        self.sleepers.set_delivery(station, classes, most);
        self.list(station);
        Ok(ServiceReply::Set)
    }

    // Opens a service period of a station.
    fn trigger(&mut self, station: u16) -> Result<ServiceReply, Refusal>
        ensures meets { (w : World) (bodies : ℕ → FrameValue) → StandsFor self.old w bodies →
            Meets w bodies (Asked (Service (Trigger station))) self.new
            (reply_of_result Services result) }
        ensures refused { IfErr result (λ _. self.new ≡ self.old) }
    {
        let class = self.check_trigger(station)?;
        self.sleepers.open(station);
        self.list(station);
        Ok(ServiceReply::Triggered { class })
    }

    // Ends the service period of a station.
    fn end_service(&mut self, station: u16) -> Result<ServiceReply, Refusal>
        ensures meets { (w : World) (bodies : ℕ → FrameValue) → StandsFor self.old w bodies →
            Meets w bodies (Asked (Service (End station))) self.new
            (reply_of_result Services result) }
        ensures refused { IfErr result (λ _. self.new ≡ self.old) }
    {
        self.check_end(station)?;
        self.sleepers.close(station);
        self.list(station);
        Ok(ServiceReply::Ended)
    }
}

impl Transmit {
    /// Makes a call about the service periods of a station (U-APSD; IEEE 802.11-2012, 10.2.1.5). Set is
    /// refused as BadStation, BadClasses if the classes are above 15, NoStation, or Asleep. Trigger opens a
    /// service period, and its answer has the most urgent delivery-enabled class in which the station can
    /// send; it is refused as BadStation, NoStation, Awake, Polled if one is open, or Nothing if the station
    /// can send in none. End is refused as BadStation, NoStation, or Nothing if none is open.
    pub fn service(&mut self, ask: ServiceAsk) -> Result<ServiceReply, Refusal>
        ensures meets { (w : World) (bodies : ℕ → FrameValue) → StandsFor self.old w bodies →
            Meets w bodies (Asked (Service ask)) self.new (reply_of_result Services result) }
        ensures refused { IfErr result (λ _. self.new ≡ self.old) }
        ensures unheard { HasUnheardWorld self.new }
    {
        match self.half.service(ask) {
            Ok(reply) => {
                self.ready.set_all(&self.half, station_served(ask));
                Ok(reply)
            }
            Err(reason) => Err(reason),
        }
    }

    /// Returns whether a service period of a station is open. That of a station that is not live is not.
    pub fn is_in_service(&self, station: u16) -> bool
        ensures value { result ≡ (is_some (member self.now.members station)
            && is_some (sleeper self.now.sleepers station).service) }
        ensures world { (w : World) (bodies : ℕ → FrameValue) → StandsFor self.now w bodies →
            result ≡ is_in_service w station }
    {
        self.is_live(station) && self.half.sleepers.at(station).service.is_some()
    }

    /// Returns the delivery-enabled classes of a station, 0 to 15: bit c is 1 if class number c is one. A
    /// station that is not live has none.
    pub fn delivery(&self, station: u16) -> u8
        ensures value { result ≡ (if is_some (member self.now.members station)
            then (sleeper self.now.sleepers station).delivery else 0) }
        ensures world { (w : World) (bodies : ℕ → FrameValue) → StandsFor self.now w bodies →
            result ≡ (world_station w station).delivery }
    {
        if self.is_live(station) {
            self.half.sleepers.at(station).delivery
        } else {
            0
        }
    }
}
