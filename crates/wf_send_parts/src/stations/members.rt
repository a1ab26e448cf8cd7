//! The live stations, by number.

ghost use Rattle.std.specs.Prelude.{◌≡◌, ◌<◌, ◌≤◌, ◌^◌, true, Some, None, is_some, IfOk, IfSome, length, replicate, slice_set};

use std::alloc::{AllocError, Global};
use std::marker::Model;
use wf_air::time::Rate;
use wf_frame::Class;

/// The state of a live station.
#[derive(Clone, Copy)]
pub struct Member {
    /// The rate at which frames are sent to it.
    pub rate: Rate,
    /// The maximum A-MPDU length exponent, 0 to 3 (IEEE 802.11-2012, 8.4.2.58.3).
    pub exponent: u8,
    /// The most octets of an aggregate of VHT or HE to it, if that was stated: 4,096 to 6,500,631 (IEEE
    /// 802.11ax-2021, 26.6.1).
    pub ampdu: Option<u32>,
    /// Whether its device numbers, aggregates and repeats its frames.
    pub offloaded: bool,
    /// By class, from background to voice: whether it is the turn of the upper of the class's two TIDs.
    pub upper: [bool; 4],
    /// By class: the airtime charged for its exchanges since its join, in microseconds.
    pub charged: [u64; 4],
    /// By class: the receive charges since its join, in microseconds.
    pub received: [u64; 4],
}

/// All stations, live or not. Contracts see them as a list by number, with None for a station that is not
/// live. Only `new` allocates.
#[derive(Drop)]
pub struct Members {
    stations: Vec<Option<Member>>,
}

impl Model for Members {
    ghost use Rattle.std.specs.Prelude.{List, Option};
    ghost use Rattle.wf_send_parts.specs.declared.stations.members.Member.{Member};

    ghost Value = { List (Option Member) };

    ghost view = { λ m. m.stations.items };
}

impl Members {
    ghost use Rattle.wf_send_parts.specs.Members.{new_member, member, is_offloaded_in, on_member, with_rate, with_ampdu, with_upper, charged_in, with_charge, received_in, with_receipt};

    /// Creates `stations` stations, 1 to 256, of which none is live. Fails only if memory runs out.
    pub fn new(alloc: Global, stations: u32) -> Result<Members, AllocError>
        requires { (1 ≤ stations) × (stations ≤ 256) }
        ensures { IfOk result (λ made. made ≡ replicate stations None) }
    {
        Ok(Members {
            stations: vec![in alloc; None; stations as usize]?,
        })
    }

    /// Makes a station live, at the lowest rate, with no stated length of aggregates, the lower TID's turn in
    /// each class and no airtime charged. `offloaded` is whether its device numbers its frames.
    pub fn join(&mut self, station: u16, exponent: u8, offloaded: bool)
        requires { station < length self.old }
        ensures { self.new ≡ slice_set self.old station (Some (new_member exponent offloaded)) }
    {
        self.stations[usize::from(station)] = Some(Member {
            rate: Rate::lowest(),
            exponent,
            ampdu: None,
            offloaded,
            upper: [false; 4],
            charged: [0; 4],
            received: [0; 4],
        });
    }

    /// Makes a station no longer live, and drops its state.
    pub fn leave(&mut self, station: u16)
        requires { station < length self.old }
        ensures { self.new ≡ slice_set self.old station None }
    {
        self.stations[usize::from(station)] = None;
    }

    /// Returns whether a station is live.
    pub fn is_live(&self, station: u16) -> bool
        requires { station < length self.now }
        ensures { result ≡ is_some (member self.now station) }
    {
        self.stations[usize::from(station)].is_some()
    }

    /// Returns whether a station is live and offloaded: its device numbers, aggregates and repeats its
    /// frames.
    pub fn is_offloaded(&self, station: u16) -> bool
        requires { station < length self.now }
        ensures { result ≡ is_offloaded_in self.now station }
    {
        match &self.stations[usize::from(station)] {
            Some(member) => member.offloaded,
            None => false,
        }
    }

    /// Returns the state of a live station.
    pub fn member(&self, station: u16) -> &Member
        requires within { station < length self.now }
        requires live { is_some (member self.now station) ≡ true }
        ensures { member self.now station ≡ Some result.now }
    {
        match &self.stations[usize::from(station)] {
            Some(member) => member,
            None => unreachable!(),
        }
    }

    /// Sets the rate of a station. Does nothing if it is not live.
    pub fn set_rate(&mut self, station: u16, rate: Rate)
        requires { station < length self.old }
        ensures { self.new ≡ on_member self.old station (with_rate rate) }
    {
        if let Some(member) = &mut self.stations[usize::from(station)] {
            member.rate = rate;
        }
    }

    /// States the most octets of an aggregate of VHT or HE to a station. Does nothing if it is not live.
    pub fn set_ampdu(&mut self, station: u16, octets: u32)
        requires { station < length self.old }
        ensures { self.new ≡ on_member self.old station (with_ampdu octets) }
    {
        if let Some(member) = &mut self.stations[usize::from(station)] {
            member.ampdu = Some(octets);
        }
    }

    /// Gives the turn in a class to the upper TID if `upper`, otherwise to the lower. Does nothing if the
    /// station is not live.
    pub fn set_upper(&mut self, station: u16, class: Class, upper: bool)
        requires { station < length self.old }
        ensures { self.new ≡ on_member self.old station (with_upper class upper) }
    {
        if let Some(member) = &mut self.stations[usize::from(station)] {
            member.upper[class.number()] = upper;
        }
    }

    /// Adds `air` microseconds to the airtime of a station's exchanges. Does nothing if the station is not
    /// live.
    pub fn charge(&mut self, station: u16, class: Class, air: u32)
        requires within { station < length self.old }
        requires small { IfSome (member self.old station) (λ m. charged_in m class < 2 ^ 62) }
        ensures { self.new ≡ on_member self.old station (with_charge class air) }
    {
        if let Some(member) = &mut self.stations[usize::from(station)] {
            member.charged[class.number()] += u64::from(air);
        }
    }

    /// Adds `air` microseconds to a station's receive charges. Does nothing if the station is not live.
    pub fn add_received(&mut self, station: u16, class: Class, air: u32)
        requires within { station < length self.old }
        requires small { IfSome (member self.old station) (λ m. received_in m class < 2 ^ 62) }
        ensures { self.new ≡ on_member self.old station (with_receipt class air) }
    {
        if let Some(member) = &mut self.stations[usize::from(station)] {
            member.received[class.number()] += u64::from(air);
        }
    }
}
