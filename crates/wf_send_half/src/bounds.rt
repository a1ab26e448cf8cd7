//! How much the exchange of a pull may send: the settings, the limits that the driver gives, and what the
//! station's receiver takes.

ghost use Rattle.std.specs.Prelude.{◌≡◌, ◌<◌, ◌≤◌, IfSome};
ghost use Rattle.wf_def_lists.specs.Bounds.{greatest_ampdu};
ghost use Rattle.wf_air.specs.Rates.{longest_single};
ghost use Rattle.wf_def_world.specs.Exchanges.{bounds_of, cap_of, limited};
ghost use Rattle.wf_send_parts.specs.Members.{member};
ghost use Rattle.wf_send_half_model.specs.Pulling.{frames_allowed_of};
ghost use Rattle.wf_send_half.specs.Half.{IsLive};
ghost use Rattle.wf_send_half.specs.Pulls.{bounds_in, size_limits_of, TakesAggregates};

use crate::half::Half;
use wf_air::fit::SizeLimits;
use wf_air::time::Rate;
use wf_frame::{Class, Limits};
use wf_send_parts::stations::Sleeper;

/// The bounds of a pull: its class, the most frames, 1 to 256, and the greatest data time of an aggregate in
/// microseconds.
#[derive(Clone, Copy)]
pub(crate) struct Bounds {
    pub(crate) class: Class,
    pub(crate) frames: u16,
    pub(crate) air: u32,
}

// Returns the lesser of a number and of a limit, if there is one.
fn limited(limit: Option<u32>, number: u32) -> u32
    ensures { result ≡ limited limit number }
{
    match limit {
        Some(limit) => limit.min(number),
        None => number,
    }
}

// Returns the most frames of an exchange at a rate to a station, in a pull with these bounds: one if the rate
// has no aggregates, or the station asks for one by a poll; in a service period those that are left.
fn frames_allowed(sleeper: Sleeper, rate: Rate, bounds: Bounds) -> u16
    requires some { 1 ≤ bounds.frames }
    requires few { bounds.frames ≤ 256 }
    ensures exact { result ≡ frames_allowed_of sleeper rate (bounds_in bounds) }
    ensures some { 1 ≤ result }
    ensures few { result ≤ 256 }
{
    if (sleeper.asleep && !sleeper.is_served(bounds.class)) || rate.is_single() {
        return 1;
    }
    match sleeper.service_limit(bounds.class) {
        Some(left) => u16::from(left).min(bounds.frames),
        None => bounds.frames,
    }
}

impl Half {
    // Returns the bounds of a pull of a class with these limits: one frame may go whatever they are.
    pub(crate) fn bounds(&self, class: Class, limits: Limits) -> Bounds
        ensures exact { bounds_in result ≡ bounds_of self.now.config class limits }
        ensures some { 1 ≤ result.frames }
        ensures few { result.frames ≤ 256 }
    {
        let frames = limited(limits.frames, self.config.agg).max(1);
        Bounds {
            class,
            frames: frames as u16,
            air: limited(limits.air, self.cap(class)),
        }
    }

    // Returns the greatest data time of an aggregate of a class, in microseconds: its own setting, if that is
    // not 0, otherwise the setting `cap`.
    pub(crate) fn cap(&self, class: Class) -> u32
        ensures { result ≡ cap_of self.now.config class }
    {
        let own = match class {
            Class::Vi => self.config.cap_vi,
            Class::Vo => self.config.cap_vo,
            Class::Bk | Class::Be => 0,
        };
        if own == 0 { self.config.cap } else { own }
    }

    // Returns the limits of an aggregate to a live station in a pull with these bounds.
    pub(crate) fn size_limits(&self, station: u16, bounds: Bounds) -> SizeLimits
        requires within { station < self.now.config.stations }
        requires live { IsLive self.now station }
        requires takes { TakesAggregates self.now station }
        requires some { 1 ≤ bounds.frames }
        requires few { bounds.frames ≤ 256 }
        ensures exact { IfSome (member self.now.members station) (λ m.
            result ≡ size_limits_of self.now station (bounds_in bounds) m) }
        ensures least { longest_single ≤ result.octets }
        ensures most { result.octets ≤ greatest_ampdu }
        ensures some { 1 ≤ result.frames }
        ensures few { result.frames ≤ 256 }
    {
        let member = self.members.member(station);
        SizeLimits {
            octets: member.rate.most_octets(member.exponent, member.ampdu),
            frames: frames_allowed(self.sleepers.at(station), member.rate, bounds),
            time: bounds.air,
        }
    }
}
