//! The open exchanges, in the order of their numbers.

ghost use Rattle.std.specs.Prelude.{◌≡◌, ◌<◌, ◌≤◌, ◌==◌, ◌&&◌, ◌++◌, ◌∷◌, [], not, length, filter, find, count_by, map, option_map, position, IfOk, All};
ghost use Rattle.wf_frame.specs.Classes.{same_class};
ghost use Rattle.wf_def_lists.specs.Bounds.{greatest_air};
ghost use Rattle.wf_def_lists.specs.Lists.{IsRising};
ghost use Rattle.wf_send_parts.specs.Counted.{airtime_place};

use std::alloc::{AllocError, Global};
use std::marker::Model;
use wf_frame::{Class, FixedList};
use wf_octets::bits::Bits256;
use wf_octets::seq12::Seq12;

/// The greatest number of open exchanges: eight for each of the four classes.
pub const MOST_OPEN: usize = 32;

/// The greatest number of stations: the greatest value of the setting `stations`.
pub const MOST_STATIONS: usize = 256;

/// At most 256 sequence numbers, in the order in which they are sent.
pub type Numbers = FixedList<Seq12>;

/// The content of an exchange.
#[derive(Drop)]
pub enum Sending {
    /// An aggregate of the frames with these sequence numbers, in this order.
    Data(Numbers),
    /// A BlockAckReq with this start (IEEE 802.11-2012, 8.3.1.8).
    Request(Seq12),
}

impl Sending {
    ghost use Rattle.wf_send_parts.specs.Exchanges.{frames_carried, sending_is_request};

    /// Returns whether it is a BlockAckReq.
    pub fn is_request(&self) -> bool
        ensures { result ≡ sending_is_request self.now }
    {
        matches!(self, Sending::Request(_))
    }

    /// Returns how many frames it sends, of which a request has none.
    pub fn frames(&self) -> u16
        ensures count { result ≡ frames_carried self.now }
        ensures most { result ≤ 256 }
    {
        match self {
            Sending::Data(numbers) => numbers.len() as u16,
            Sending::Request(_) => 0,
        }
    }
}

/// An open exchange.
#[derive(Drop)]
pub struct Open {
    /// Its number. Exchanges are numbered from 0, in the order in which they open.
    pub number: u64,
    /// The station that it sends to.
    pub station: u16,
    /// The TID, 0 to 7.
    pub tid: u8,
    /// The class to which it is charged.
    pub class: Class,
    /// The airtime that it is charged when it ends, in microseconds.
    pub charge: u32,
    /// The frames or the request that it sends.
    pub sending: Sending,
    /// The More Data bit of its frames (8.2.4.1.8).
    pub more: bool,
    /// Whether it is the last exchange of a service period: the EOSP bit of its last frame (8.2.4.5.3).
    pub eosp: bool,
    /// Whether the station's device numbers, aggregates and repeats its frames.
    pub batch: bool,
    /// Whether it sends one frame without an agreement, which an Ack answers.
    pub plain: bool,
    /// The indices of the transmissions that never went on the air, counted from 0.
    pub unsent: Bits256,
    /// The indices of the transmissions that the device will not try again.
    pub given_up: Bits256,
}

impl Open {
    ghost use Rattle.wf_send_parts.specs.Exchanges.{transmissions_of, number_carried, sending_is_request, is_request_of, has_mark, has_nothing_sent};

    /// Returns how many transmissions it has: one for each frame, or one for a request.
    pub fn count(&self) -> u16
        ensures count { result ≡ transmissions_of self.now.sending }
        ensures most { result ≤ 256 }
    {
        match &self.sending {
            Sending::Data(numbers) => numbers.len() as u16,
            Sending::Request(_) => 1,
        }
    }

    /// Returns the sequence number of the frame in transmission `index`, counted from 0. None if the exchange
    /// is a request, or has no such transmission.
    pub fn number_at(&self, index: u16) -> Option<Seq12>
        ensures { result ≡ number_carried self.now.sending index }
    {
        match &self.sending {
            Sending::Data(numbers) if usize::from(index) < numbers.len() => {
                Some(numbers.at(usize::from(index)))
            }
            _ => None,
        }
    }

    /// Returns whether it is a BlockAckReq.
    pub fn is_request(&self) -> bool
        ensures { result ≡ sending_is_request self.now.sending }
    {
        self.sending.is_request()
    }

    /// Returns whether the transmission of this index, 0 to 255, has a mark: it never went on the air, or the
    /// device will not try it again.
    pub fn is_marked(&self, index: u16) -> bool
        requires { index < 256 }
        ensures { result ≡ has_mark self.now index }
    {
        self.unsent.has(index) || self.given_up.has(index)
    }

    /// Returns whether none of its transmissions went on the air. Linear in `count`.
    pub fn is_wholly_unsent(&self) -> bool
        ensures { result ≡ has_nothing_sent self.now }
    {
        for index in 0..self.count() {
            if !self.unsent.has(index) {
                return false;
            }
        }
        true
    }

    // Returns whether it is a BlockAckReq to this TID of the station.
    fn is_request_of(&self, station: u16, tid: u8) -> bool
        ensures { result ≡ is_request_of station tid self.now }
    {
        self.station == station && self.tid == tid && self.is_request()
    }
}

/// At most 32 open exchanges, in the order of their numbers, to stations below 256. Contracts see them as a
/// list. Only `new` allocates.
#[derive(Drop)]
pub struct Opened {
    list: Vec<Open>,
    /// The sum of their charges, in microseconds.
    airtime: u32,
    /// The sum of the charges of those to each station in each class, in microseconds: by class, the least
    /// urgent first, then by station.
    airtimes: Vec<u32>,
}

// Returns the place of a station's airtime in a class.
fn airtime_place(station: u16, class: Class) -> usize
    ensures { result ≡ airtime_place station class }
{
    class.number() * MOST_STATIONS + usize::from(station)
}

impl Model for Opened {
    ghost use Rattle.std.specs.Prelude.{List, vec_capacity};
    ghost use Rattle.wf_send_parts.specs.declared.exchanges.opened.Open.{Open};
    ghost use Rattle.wf_send_parts.specs.Counted.{KnowsAirtime};

    ghost Value = { List Open };

    ghost view = { λ o. o.list.items };

    ghost invariant = { λ o. KnowsAirtime o.list.items (vec_capacity o.list) o.airtime o.airtimes.items };
}

impl Opened {
    ghost use Rattle.wf_send_parts.specs.Exchanges.{exchange_number, asks, airtime_of, airtime_to, with_unsent, with_given_up, with_exchange_changed};

    /// Creates it with no open exchange. Fails only if memory runs out.
    pub fn new(alloc: Global) -> Result<Opened, AllocError>
        ensures { IfOk result (λ made. made ≡ []) }
    {
        let airtimes = vec![in alloc; 0; 4 * MOST_STATIONS]?;
        let list = Vec::with_capacity(alloc, MOST_OPEN)?;
        Ok(Opened {
            list,
            airtime: 0,
            airtimes,
        })
    }

    /// Adds an open exchange. Fewer than 32 may be open before, all with lower numbers. Its station is below
    /// 256, and its charge at most 65,535 microseconds.
    pub fn push(&mut self, exchange: Open)
        requires room { length self.old < MOST_OPEN }
        requires above { All (λ other. other.number < exchange.number) self.old }
        requires station { exchange.station < MOST_STATIONS }
        requires small { exchange.charge ≤ greatest_air }
        ensures { self.new ≡ self.old ++ exchange ∷ [] }
    {
        self.airtime += exchange.charge;
        self.airtimes[airtime_place(exchange.station, exchange.class)] += exchange.charge;
        self.list.push_reserved(exchange);
    }

    /// Returns the open exchange with this number. None if there is none.
    pub fn find(&self, number: u64) -> Option<&Open>
        ensures { option_map (λ x. x.now) result ≡ find (λ x. x.number == number) self.now }
    {
        self.list.iter().find(|exchange| exchange.number == number)
    }

    /// Removes the open exchange with this number and returns it. None if there is none.
    pub fn take_out(&mut self, number: u64) -> Option<Open>
        ensures taken { result ≡ find (λ x. x.number == number) self.old }
        ensures rest { self.new ≡ filter (λ x. not (x.number == number)) self.old }
    {
        match self.place_of(number) {
            Some(place) => {
                let exchange = self.list.remove(place);
                self.airtime -= exchange.charge;
                self.airtimes[airtime_place(exchange.station, exchange.class)] -= exchange.charge;
                Some(exchange)
            }
            None => None,
        }
    }

    /// Records that the transmission of this index, 0 to 255, of the open exchange with this number never
    /// went on the air. Does nothing if it is not open.
    pub fn mark_unsent(&mut self, number: u64, index: u16)
        requires { index < 256 }
        ensures { self.new ≡ with_exchange_changed number (with_unsent index) self.old }
    {
        match self.place_of(number) {
            Some(place) => self.list[place].unsent.set(index),
            None => {}
        }
    }

    /// Records that the device will not try the transmission of this index, 0 to 255, of the open exchange
    /// with this number again. Does nothing if it is not open.
    pub fn mark_given_up(&mut self, number: u64, index: u16)
        requires { index < 256 }
        ensures { self.new ≡ with_exchange_changed number (with_given_up index) self.old }
    {
        match self.place_of(number) {
            Some(place) => self.list[place].given_up.set(index),
            None => {}
        }
    }

    // Returns the place of the open exchange with this number.
    fn place_of(&self, number: u64) -> Option<usize>
        ensures { result ≡ position (λ x. x.number == number) self.now }
    {
        self.list
            .iter()
            .position(|exchange| exchange.number == number)
    }

    /// Returns how many exchanges are open.
    pub fn len(&self) -> u32
        ensures count { result ≡ length self.now }
        ensures most { result ≤ MOST_OPEN }
        ensures rising { IsRising 0 (map exchange_number self.now) }
    {
        self.list.len() as u32
    }

    /// Returns the airtime in flight: the sum of the charges of the open exchanges, in microseconds.
    pub fn airtime(&self) -> u32
        ensures { result ≡ airtime_of self.now }
    {
        self.airtime
    }

    /// Returns the airtime in flight to this station in a class: the sum of the charges of its open exchanges
    /// of the class, in microseconds. Constant time.
    pub fn airtime_to(&self, station: u16, class: Class) -> u32
        requires { station < MOST_STATIONS }
        ensures { result ≡ airtime_to self.now station class }
    {
        self.airtimes[airtime_place(station, class)]
    }

    /// Returns how many exchanges to this station are open.
    pub fn of_station(&self, station: u16) -> u32
        ensures { result ≡ count_by (λ x. x.station == station) self.now }
    {
        self.list
            .iter()
            .filter(|exchange| exchange.station == station)
            .count() as u32
    }

    /// Returns how many exchanges to this TID of the station are open.
    pub fn of_tid(&self, station: u16, tid: u8) -> u32
        ensures { result ≡ count_by (λ x. (x.station == station) && (x.tid == tid)) self.now }
    {
        self.list
            .iter()
            .filter(|exchange| exchange.station == station && exchange.tid == tid)
            .count() as u32
    }

    /// Returns how many exchanges of this class are open.
    pub fn of_class(&self, class: Class) -> u32
        ensures { result ≡ count_by (λ x. same_class x.class class) self.now }
    {
        self.list
            .iter()
            .filter(|exchange| exchange.class.number() == class.number())
            .count() as u32
    }

    /// Returns whether a BlockAckReq to this TID of the station is open.
    pub fn asks(&self, station: u16, tid: u8) -> bool
        ensures { result ≡ asks self.now station tid }
    {
        self.list
            .iter()
            .any(|exchange| exchange.is_request_of(station, tid))
    }
}
