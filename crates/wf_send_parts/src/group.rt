//! Group frames: data frames whose first address is the address of a group of stations (`GroupQueue`).

ghost use Rattle.std.specs.Prelude.{◌≡◌, ◌≤◌, ◌+◌, ◌%◌, ◌^◌, ◌&&◌, Some, IfOk, IfErr, OnOk, false};
ghost use Rattle.std.specs.Result.{result_err};
ghost use Rattle.wf_frame.specs.declared.notes.GroupAsk.TheVariants.{Accept, Pull, Done as Ends};
ghost use Rattle.wf_frame.specs.declared.notes.GroupReply.TheVariants.{Beacon as Beacons, Send as Sends};
ghost use Rattle.wf_def_world.specs.Group.{group_air, id_of};
ghost use Rattle.wf_send_parts.specs.Group.{HasGroupBelow, group_state, no_group_frames, with_group_frame, with_beacon, may_go_of, flight_in, with_flight, with_flight_ended, group_refusal, flight_reply, group_counts, latest_beacon};

use std::alloc::{AllocError, Global};
use std::collections::VecDeque;
use std::marker::Model;
use wf_air::time::Rate;
use wf_frame::{GroupReply, Refusal};

/// The size of the MAC header of a Data frame without QoS, in octets (IEEE 802.11-2012, 8.3.2.1).
const HEADER_OCTETS: u32 = 24;

/// The size of a frame check sequence, in octets (8.2.4.8).
const CHECK_OCTETS: u32 = 4;

/// The lowest rate of OFDM, at which group frames are sent, in Mbit/s (18.2.2.3).
const SLOW_MBPS: u8 = 6;

/// Sequence numbers on the air are below this (8.2.4.4.2).
const NUMBERS: u64 = 4096;

/// More than the airtime of a group frame, in microseconds.
pub const GROUP_AIR_LIMIT: u64 = 131_072;

/// A group frame, whose body stays with its owner.
#[derive(Clone, Copy, Debug, PartialEq, Eq)]
pub struct GroupFrame {
    /// Its id: how many group frames were accepted before it.
    pub id: u64,
    /// The length of its body, in octets.
    pub len: u16,
    /// What its owner knows it by.
    pub tag: u64,
    /// Its destination: Address 1 (8.3.2.1).
    pub to: [u8; 6],
}

/// The group frame that is on the air.
#[derive(Clone, Copy, Debug, PartialEq, Eq)]
pub struct GroupFlight {
    pub frame: GroupFrame,
    /// Its sequence number, 0 to 4095.
    pub number: u16,
    /// Its More Data bit (8.2.4.1.8).
    pub more: bool,
}

/// Counts of group frames.
#[derive(Clone, Copy, Debug, PartialEq, Eq)]
pub struct GroupCounts {
    /// All accepted frames.
    pub accepted: u64,
    /// Those that were sent.
    pub sent: u64,
    /// Those that are queued, at most 65,535.
    pub queued: u32,
    /// Those that are on the air, 0 or 1.
    pub flying: u32,
    /// The airtime of those that were sent, in microseconds.
    pub air: u64,
    /// How many sequence numbers were taken: one for each beacon and for each frame that went on the air.
    pub numbers: u64,
}

/// The latest beacon (10.2.1.3), as its TIM element shows it (8.4.2.7).
#[derive(Clone, Copy, Debug, PartialEq, Eq)]
pub struct Beacon {
    /// The DTIM count: how many beacons go before the next DTIM beacon. 0 before the first beacon.
    pub count: u8,
    /// The DTIM period in beacons, 1 to 255.
    pub period: u8,
    /// Whether it announced group frames: bit 0 of the bitmap control.
    pub announced: bool,
}

/// The group frames that wait, the one that is on the air, and what the beacons announce. While a station
/// sleeps, a group frame goes only after a DTIM beacon that announced it (10.2.1.4). Only `new` allocates.
#[derive(Drop)]
pub struct GroupQueue {
    queue: VecDeque<GroupFrame>,
    flying: Option<GroupFlight>,
    count: u8,
    announced: bool,
    /// Queued frames with a lower id may go while a station sleeps.
    served_below: u64,
    number: u64,
    accepted: u64,
    sent: u64,
    air: u64,
}

impl Model for GroupQueue {
    ghost use Rattle.std.specs.Prelude.{◌≤◌, ◌*◌};
    ghost use Rattle.std.specs.VecDeque.{deque_capacity};
    ghost use Rattle.wf_send_parts.specs.Group.{GroupValue, group_air_limit};

    ghost Value = { GroupValue };

    ghost view = { λ g. record {
      capacity = deque_capacity g.queue;
      count = g.count;
      announced = g.announced;
      served_below = g.served_below;
      queued = g.queue.items;
      flying = g.flying;
      number = g.number;
      accepted = g.accepted;
      sent = g.sent;
      air = g.air;
    } };

    ghost invariant = { λ g. (deque_capacity g.queue ≤ 65535) × (g.air ≤ group_air_limit * g.sent) };
}

// Returns the airtime of a group frame with a body of `len` octets and `overhead` octets of encryption, in
// microseconds: it is sent with OFDM at the lowest rate, and has no answer.
fn group_air(overhead: u32, len: u16) -> u32
    requires { overhead ≤ 32 }
    ensures { result ≡ group_air overhead len }
{
    let octets = HEADER_OCTETS + u32::from(len) + overhead + CHECK_OCTETS;
    Rate::ofdm(SLOW_MBPS).unwrap().data_time(octets)
}

impl GroupQueue {
    /// Creates it with no group frame, and with room for `buffered` queued ones, at most 65,535. Fails only
    /// if memory runs out.
    pub fn new(alloc: Global, buffered: u32) -> Result<GroupQueue, AllocError>
        requires { buffered ≤ 65535 }
        ensures { IfOk result (λ made. made ≡ no_group_frames buffered) }
    {
        let queue = VecDeque::with_capacity(alloc, buffered as usize)?;
        Ok(GroupQueue {
            queue,
            flying: None,
            count: 0,
            announced: false,
            served_below: 0,
            number: 0,
            accepted: 0,
            sent: 0,
            air: 0,
        })
    }

    /// Accepts a frame with a body of `len` octets, its owner's tag and its destination, and returns its id.
    /// Refused as Buffered if as many are queued as there is room for.
    pub fn accept(&mut self, len: u16, tag: u64, to: [u8; 6]) -> Result<u64, Refusal>
        requires small { HasGroupBelow (2 ^ 62) self.old }
        ensures fault { result_err result ≡ group_refusal false (Accept len) self.old }
        ensures id { IfOk result (λ id. id ≡ self.old.accepted) }
        ensures queued { OnOk result (self.new ≡ with_group_frame len tag to self.old) }
        ensures refused { IfErr result (λ _. self.new ≡ self.old) }
        ensures room { self.new.capacity ≡ self.old.capacity }
    {
        let queued = self.queue.len();
        if self.queue.capacity() <= queued {
            return Err(Refusal::Buffered {
                queued: queued as u32,
            });
        }
        let id = self.accepted;
        self.accepted += 1;
        self.queue
            .push_back_reserved(GroupFrame { id, len, tag, to });
        Ok(id)
    }

    /// A beacon goes out, with this DTIM period, 1 or more. A DTIM beacon announces the frames that are
    /// queued.
    pub fn beacon(&mut self, period: u8) -> GroupReply
        requires small { HasGroupBelow (2 ^ 62) self.old }
        requires some { 1 ≤ period }
        ensures answer { result ≡ Beacons self.new.count self.new.announced }
        ensures counted { self.new ≡ with_beacon period self.old }
    {
        self.count = if self.count == 0 {
            period - 1
        } else {
            self.count - 1
        };
        self.announced = self.count == 0 && 0 < self.queue.len();
        self.served_below = if self.count == 0 { self.accepted } else { 0 };
        self.number += 1;
        GroupReply::Beacon {
            count: self.count,
            follows: self.announced,
        }
    }

    /// Puts the first queued frame on the air. `sleeps` is whether a station sleeps, and `overhead` the
    /// octets of encryption of a frame, at most 32. Refused as Flying if a frame is on the air, or as Idle if
    /// no queued frame may go now.
    pub fn pull(&mut self, sleeps: bool, overhead: u32) -> Result<GroupReply, Refusal>
        requires small { HasGroupBelow (2 ^ 62) self.old }
        requires overhead { overhead ≤ 32 }
        ensures fault { result_err result ≡ group_refusal sleeps Pull self.old }
        ensures answer { IfOk result (λ answer. answer ≡ flight_reply overhead sleeps self.old) }
        ensures flies { OnOk result (self.new ≡ with_flight sleeps self.old) }
        ensures refused { IfErr result (λ _. self.new ≡ self.old) }
        ensures room { self.new.capacity ≡ self.old.capacity }
    {
        if self.flying.is_some() {
            return Err(Refusal::Flying);
        }
        if !self.may_go(sleeps) {
            return Err(Refusal::Idle);
        }
        let frame = self.queue.pop_front().unwrap();
        Ok(self.fly(frame, sleeps, overhead))
    }

    // Puts a frame, which was the first queued one, on the air.
    fn fly(&mut self, frame: GroupFrame, sleeps: bool, overhead: u32) -> GroupReply
        requires small { HasGroupBelow (2 ^ 62) self.old }
        requires overhead { overhead ≤ 32 }
        ensures answer { result ≡ Sends frame.id (self.old.number % 4096) (group_air overhead frame.len)
            (sleeps && may_go_of sleeps self.old) }
        ensures flies { self.new ≡ record self.old {
          flying = Some (flight_in sleeps self.old frame);
          number = self.old.number + 1;
        } }
    {
        let number = (self.number % NUMBERS) as u16;
        self.number += 1;
        let more = sleeps && self.may_go(sleeps);
        self.flying = Some(GroupFlight {
            frame,
            number,
            more,
        });
        GroupReply::Send {
            id: frame.id,
            number,
            air: group_air(overhead, frame.len),
            more,
        }
    }

    /// Ends the transmission of the frame that is on the air, and returns its id. `overhead` is the octets of
    /// encryption of a frame, at most 32. Refused as Nothing if no frame is on the air.
    pub fn done(&mut self, overhead: u32) -> Result<u64, Refusal>
        requires small { HasGroupBelow (2 ^ 62) self.old }
        requires overhead { overhead ≤ 32 }
        ensures fault { result_err result ≡ group_refusal false Ends self.old }
        ensures id { IfOk result (λ id. id ≡ id_of (group_state self.old).flying) }
        ensures ended { OnOk result (self.new ≡ with_flight_ended overhead self.old) }
        ensures refused { IfErr result (λ _. self.new ≡ self.old) }
        ensures room { self.new.capacity ≡ self.old.capacity }
    {
        let Some(flight) = self.flying else {
            return Err(Refusal::Nothing);
        };
        self.flying = None;
        self.sent += 1;
        self.air += u64::from(group_air(overhead, flight.frame.len));
        Ok(flight.frame.id)
    }

    // Returns whether a queued frame may go now, by whether a station sleeps.
    fn may_go(&self, sleeps: bool) -> bool
        ensures { result ≡ may_go_of sleeps self.now }
    {
        match self.queue.front() {
            Some(frame) => !sleeps || frame.id < self.served_below,
            None => false,
        }
    }

    /// Returns the frame that is on the air, if there is one.
    pub fn flight(&self) -> Option<GroupFlight>
        ensures { result ≡ self.now.flying }
    {
        self.flying
    }

    /// Returns the counts of group frames.
    pub fn counts(&self) -> GroupCounts
        ensures { result ≡ group_counts self.now }
    {
        GroupCounts {
            accepted: self.accepted,
            sent: self.sent,
            queued: self.queue.len() as u32,
            flying: u32::from(self.flying.is_some()),
            air: self.air,
            numbers: self.number,
        }
    }

    /// Returns the latest beacon. Its DTIM period is `period`.
    pub fn latest_beacon(&self, period: u8) -> Beacon
        ensures { result ≡ latest_beacon period self.now }
    {
        Beacon {
            count: self.count,
            period,
            announced: self.announced,
        }
    }
}
