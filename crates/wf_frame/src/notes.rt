//! Calls and their answers as numbers. Station numbers count from 0; times are in microseconds.

use crate::{Class, Fate, Ids, Pairs};

/// The numbers of a rate, as a caller gives them. `mcs` is the modulation and coding scheme, `mhz` the
/// width of the channel, `short` a guard interval of 400 ns instead of 800, `guard` the guard interval in
/// nanoseconds, and `streams` the number of spatial streams. A rate outside the given ranges is refused,
/// and so are ten combinations of VHT, and a rate that the setting `legacy` does not allow.
#[derive(Clone, Copy, Debug, PartialEq, Eq)]
pub enum AskedRate {
    /// A rate of HT (IEEE 802.11-2012, clause 20): MCS 0 to 15, 20 or 40 MHz.
    Ht {
        mcs: u8,
        mhz: u8,
        short: bool,
    },
    /// A rate of VHT to one station (IEEE 802.11-2016, clause 21): MCS 0 to 9, 20, 40, 80 or 160 MHz, 1 to 8
    /// streams.
    Vht {
        mcs: u8,
        mhz: u8,
        short: bool,
        streams: u8,
    },
    /// A rate of HE to one station (IEEE 802.11ax-2021, clause 27): MCS 0 to 11, 20, 40, 80 or 160 MHz, 800,
    /// 1600 or 3200 ns, 1 to 8 streams.
    He {
        mcs: u8,
        mhz: u8,
        guard: u16,
        streams: u8,
    },
    /// A rate of OFDM (IEEE 802.11-2012, clause 18): 6, 9, 12, 18, 24, 36, 48 or 54 Mbit/s.
    Ofdm {
        mbps: u8,
    },
    /// A rate of DSSS with its long preamble (IEEE 802.11-2012, clause 17): 2, 4, 11 or 22 half Mbit/s.
    Dsss {
        half_mbps: u8,
    },
}

/// The limits of a pull, which a driver gives for what its device can take now. An aggregate has at most
/// `frames` frames, and its data take at most `air` microseconds; `None` limits nothing. One frame, and a
/// BlockAckReq, go whatever the limits are.
#[derive(Clone, Copy, Debug, PartialEq, Eq)]
pub struct Limits {
    pub frames: Option<u32>,
    pub air: Option<u32>,
}

impl Limits {
    /// Limits that limit nothing.
    pub const NONE: Limits = Limits {
        frames: None,
        air: None,
    };
}

/// A call that brings no frame for a station: one of twenty-nine. An argument outside its given range is
/// refused.
#[derive(Clone, Copy, Debug, PartialEq, Eq)]
pub enum Ask {
    /// A station joins, with its window size in frames (1 to 256), first sequence number (0 to 4095),
    /// maximum A-MPDU length exponent (0 to 3; IEEE 802.11-2012, 8.4.2.58.3) and weight (1 to 16).
    Join {
        station: u16,
        window: u16,
        start: u16,
        exponent: u8,
        weight: u8,
    },
    /// A station leaves; its frames are dropped.
    Leave {
        station: u16,
    },
    /// Data to a station has this rate from now on.
    Rate {
        station: u16,
        rate: AskedRate,
    },
    /// The clock moves forward by 0 to 10,000,000 microseconds.
    Tick {
        by: u32,
    },
    /// The driver asks for the next exchange of a class, within these limits.
    Pull {
        class: Class,
        limits: Limits,
    },
    /// A transmission of an open exchange reached its station. `index` counts the transmissions from 0.
    Arrive {
        exchange: u64,
        index: u16,
    },
    /// The station answers an open exchange with a BlockAck.
    Answer {
        exchange: u64,
    },
    /// An exchange ends. `heard` is whether its answer was heard. It is charged the airtime `air`, 1 to
    /// `charge` microseconds, or if that is `None` the airtime of its Send.
    Done {
        exchange: u64,
        heard: bool,
        air: Option<u32>,
    },
    /// A station goes to sleep.
    Sleep {
        station: u16,
    },
    /// A station wakes.
    Wake {
        station: u16,
    },
    /// A sleeping station asks for one frame (PS-Poll).
    Poll {
        station: u16,
    },
    /// A station used this airtime to send in a class: 1 to 65,535 microseconds.
    Rx {
        station: u16,
        class: Class,
        air: u32,
    },
    /// The caller takes the next finished frame.
    Reap,
    /// A station takes aggregates of at most this many octets at a rate of VHT or HE until it leaves: 4,096
    /// to 6,500,631 (IEEE 802.11ax-2021, 26.6.1). Until then its exponent bounds them, at a rate of HT
    /// always.
    Ampdu {
        station: u16,
        octets: u32,
    },
    /// No pull picks the station until it is started.
    Stop {
        station: u16,
    },
    /// Pulls may pick the station again.
    Start {
        station: u16,
    },
    /// A transmission of an open exchange never went on the air. `index` counts the transmissions from 0.
    Unsent {
        exchange: u64,
        index: u16,
    },
    /// The device will not try a transmission of an open exchange again. `index` counts the transmissions
    /// from 0.
    GiveUp {
        exchange: u64,
        index: u16,
    },
    /// The frames of a TID (0 to 7) that are not on the air are dropped.
    Flush {
        station: u16,
        tid: u8,
    },
    /// A station joins whose device numbers, aggregates and repeats its frames, with its maximum A-MPDU
    /// length exponent (0 to 3; IEEE 802.11-2012, 8.4.2.58.3) and weight (1 to 16).
    Offload {
        station: u16,
        exponent: u8,
        weight: u8,
    },
    /// A station has this weight (1 to 16) from now on.
    Weight {
        station: u16,
        weight: u8,
    },
    /// A station joins without block acknowledgement agreements, with its first sequence number (0 to 4095),
    /// maximum A-MPDU length exponent (0 to 3; IEEE 802.11-2012, 8.4.2.58.3) and weight (1 to 16). Its frames
    /// go one at a time, each with an Ack.
    Plain {
        station: u16,
        start: u16,
        exponent: u8,
        weight: u8,
    },
    /// No frame of a TID (0 to 7) gets a sequence number from now on, so that an agreement can begin.
    Hold {
        station: u16,
        tid: u8,
    },
    /// A TID (0 to 7) that is held has an agreement from now on, with its window in frames (1 to 256; IEEE
    /// 802.11-2012, 10.5.2).
    Begin {
        station: u16,
        tid: u8,
        window: u16,
    },
    /// A TID (0 to 7) that is held sends its frames one at a time from now on.
    Free {
        station: u16,
        tid: u8,
    },
    /// The agreement of a TID (0 to 7) ends (IEEE 802.11-2012, 10.5.3), and the TID is held. The frames that
    /// have sequence numbers and are not acknowledged are dropped.
    Cease {
        station: u16,
        tid: u8,
    },
    /// A call about the group frames of a BSS.
    Group(GroupCall),
    /// A call about the service periods of a station.
    Service(ServiceAsk),
    /// A station is of this BSS from now on, 0 to `bsses` - 1.
    Bss {
        station: u16,
        bss: u8,
    },
}

/// A call about the group frames and the beacons of this BSS, 0 to `bsses` - 1. Each BSS has its own.
#[derive(Clone, Copy, Debug, PartialEq, Eq)]
pub struct GroupCall {
    pub bss: u8,
    pub ask: GroupAsk,
}

/// A call about group frames: data frames whose first address is the address of a group. They are apart from
/// the frames of stations, and their ids count separately.
#[derive(Clone, Copy, Debug, PartialEq, Eq)]
pub enum GroupAsk {
    /// A group frame is accepted, with the length of its body, 1 to 2304 octets.
    Accept { len: u16 },
    /// A beacon goes out (IEEE 802.11-2012, 10.2.1.3).
    Beacon,
    /// The driver asks for the next group frame.
    Pull,
    /// The transmission of the group frame that is on the air has ended.
    Done,
}

/// A call about the service periods of a station that sleeps (U-APSD; IEEE 802.11-2012, 10.2.1.5): while one
/// is open, the station may receive frames of its delivery-enabled classes.
#[derive(Clone, Copy, Debug, PartialEq, Eq)]
pub enum ServiceAsk {
    /// A station has these delivery-enabled classes from now on, 0 to 15: bit c is 1 if class number c is one
    /// (0 bk .. 3 vo). A service period has at most `most` frames, and any number if it is 0.
    Set { station: u16, classes: u8, most: u8 },
    /// A sleeping station sent a trigger frame, with which a service period begins.
    Trigger { station: u16 },
    /// The device sent a QoS Null frame with the EOSP bit, which ends a service period.
    End { station: u16 },
}

/// A call as numbers.
#[derive(Clone, Copy, Debug, PartialEq, Eq)]
pub enum Note {
    /// A frame for a station, with its TID (0 to 7), its flow, and the length of its body (1 to 2304
    /// octets).
    Enqueue {
        station: u16,
        tid: u8,
        flow: u32,
        len: u16,
    },
    /// A call that brings no frame.
    Asked(Ask),
}

/// The content of an exchange: frames with their sequence numbers, frames that a device numbers, one frame
/// without an agreement, or a BlockAckReq with its start. Sequence numbers are 0 to 4095.
#[derive(Drop)]
pub enum Part {
    /// The id and the sequence number of each frame of an aggregate.
    Mpdus(Pairs),
    /// The ids of the frames of a batch, for a station whose device numbers them.
    Batch(Ids),
    /// The id and the sequence number of one frame, which an Ack answers.
    Plain(Pairs),
    /// The start of a BlockAckReq.
    Request(u16),
}

/// Why a call was refused. The comment of each variant is its sentence in include/wf.h and docs/MACHINE.md;
/// its number and its word are in the table in `refusals`.
#[derive(Clone, Copy, Debug, PartialEq, Eq)]
pub enum Refusal {
    // begin refusals: tools/tables writes these lines
    /// The station number is not below `stations`.
    BadStation,
    /// The window is not 1 to 256.
    BadWindow,
    /// The first sequence number is above 4095.
    BadStart,
    /// The A-MPDU length exponent is above 3.
    BadExponent,
    /// The rate does not exist: its format does not have this MCS, width, guard interval, number of streams
    /// or speed, or it is one of the ten combinations that VHT leaves out; or the setting `legacy` does not
    /// allow it.
    BadRate,
    /// The clock would move by more than 10,000,000 microseconds.
    BadTick,
    /// The TID is above 7.
    BadTid,
    /// `rx`: the airtime is 0 or above 65,535 microseconds; `done`: the airtime that is given is 0 or above
    /// `charge`.
    BadAir,
    /// The exchange has no transmission of that index.
    BadIndex,
    /// The station is live already.
    Live,
    /// The station is not live.
    NoStation,
    /// No open exchange has that number.
    NoExchange,
    /// The call says that the BlockAck was heard, but the station has not answered the exchange.
    NoAnswer,
    /// The station has `count` open exchanges.
    Open { count: u32 },
    /// `inside` frames are accepted and not yet reaped: as many as `room`.
    Room { inside: u32 },
    /// The station sleeps, and `queued` frames of the class are queued for it: `sleeping` or more.
    Sleeping { queued: u32 },
    /// `count` exchanges of the class are open: as many as `inflight`.
    Full { count: u32 },
    /// `pull`: no station of the class is ready; after this refusal alone something may have changed.
    /// `gpull`: no group frame may go now.
    Idle,
    /// The exchange was answered already.
    Answered,
    /// That transmission arrived already.
    Arrived,
    /// There is nothing to answer, to send, to reap or to end.
    Nothing,
    /// `sleep`: the station is asleep already; `apsd` and `bss`: the station is asleep.
    Asleep,
    /// The station is awake.
    Awake,
    /// `poll`: the station has a credit that is not spent yet; `trigger`: its service period is open
    /// already.
    Polled,
    /// The deficit, which stays at `deficit`, would fall below -`debt` microseconds.
    Debt { deficit: i64 },
    /// The history has `calls` entries; this call is not added to it.
    HistoryFull,
    /// The weight is not 1 to 16.
    BadWeight,
    /// `owed` microseconds of computed airtime are in flight in all classes: `aql_total` or more.
    Ahead { owed: u32 },
    /// The greatest aggregate is not 4,096 to 6,500,631 octets.
    BadAmpdu,
    /// The station is stopped already.
    Stopped,
    /// The station is not stopped.
    Started,
    /// That transmission has a mark: it never went on the air, or the device will not try it again.
    Marked,
    /// The device of the station makes its agreements.
    Offloaded,
    /// `hold`: the TID has an agreement; `rate` to OFDM or DSSS: a TID of the station has one or is held.
    Agreed,
    /// The TID is held already.
    Held,
    /// The TID is not held.
    NotHeld,
    /// The TID has no agreement.
    NotAgreed,
    /// `count` sequence numbers of the TID wait to be sent.
    Waits { count: u32 },
    /// The rate of the station is one of OFDM or DSSS, at which it has no agreement.
    Legacy,
    /// `queued` group frames are queued: as many as `buffered`.
    Buffered { queued: u32 },
    /// A group frame is on the air.
    Flying,
    /// The delivery-enabled classes are not 0 to 15.
    BadClasses,
    /// The BSS number is not below `bsses`, or not 0 if `bsses` is 0.
    BadBss,
    // end refusals
}

/// The answer to a call as one value. Code never makes one, since it would have up to 4 kB: calls fill an
/// `Answer`, and contracts say which `ReplyNote` it is.
#[derive(Drop)]
pub enum ReplyNote {
    /// The station is live.
    Joined,
    /// The station left, and this number of its frames were dropped.
    Left {
        dropped: u32,
    },
    /// The rate, the greatest aggregate or the weight is set.
    Set,
    /// The clock after the tick, in microseconds.
    Now {
        now: u64,
    },
    /// The frame's new id, and the id of the frame that was dropped for the limit, if any.
    Accepted {
        id: u64,
        dropped: Option<u64>,
    },
    /// The exchange to send: its number, station, TID (0 to 7), charge in microseconds, and content. `more`
    /// is the More Data bit, and `eosp` the EOSP bit of its last frame (IEEE 802.11-2012, 8.2.4.5.3).
    Send {
        exchange: u64,
        station: u16,
        tid: u8,
        air: u32,
        part: Part,
        more: bool,
        eosp: bool,
    },
    /// The ids of the frames that the receiver released, in order.
    Released {
        ids: Ids,
    },
    /// The receiver's BlockAck: its start (0 to 4095) and its bitmap, whose offsets 0 to 63 are the bits of
    /// `b0`. If `wide`, the bitmap has 256 bits, otherwise 64.
    Ba {
        start: u16,
        b0: u64,
        b1: u64,
        b2: u64,
        b3: u64,
        wide: bool,
    },
    /// How many of the exchange's frames are acknowledged, wait again, and are dropped.
    Done {
        acked: u16,
        waiting: u16,
        failed: u16,
    },
    /// The station is asleep.
    Slept,
    /// The station is awake.
    Woken,
    /// The sleeping station has a credit for one exchange of this class.
    Polled {
        class: Class,
    },
    /// The deficit after the charge, in microseconds.
    Charged {
        deficit: i64,
    },
    /// The id and the fate of the first finished frame.
    Reaped {
        id: u64,
        fate: Fate,
    },
    /// The station is stopped.
    Stopped,
    /// The station is started.
    Started,
    /// The transmission is marked.
    Marked,
    /// The TID was flushed, and this number of its frames were dropped.
    Flushed {
        dropped: u32,
    },
    /// The receiver's Ack.
    Ack,
    /// The TID is held; an agreement may begin with this sequence number (0 to 4095).
    Held {
        start: u16,
    },
    /// The TID has an agreement.
    Begun,
    /// The TID sends its frames one at a time.
    Freed,
    /// The agreement ended: this number of frames were dropped, and the receiver released these, in order.
    Ceased {
        dropped: u32,
        ids: Ids,
    },
    /// The answer to a call about group frames.
    Group(GroupReply),
    /// The answer to a call about service periods.
    Service(ServiceReply),
    /// The call was refused.
    Refused(Refusal),
}

/// The answer to a call about the service periods of a station.
#[derive(Clone, Copy, Debug, PartialEq, Eq)]
pub enum ServiceReply {
    /// The delivery-enabled classes are set.
    Set,
    /// A service period is open; this is the most urgent delivery-enabled class that can send.
    Triggered { class: Class },
    /// The service period ended.
    Ended,
}

/// The answer to a call about group frames, whose ids are apart from those of other frames.
#[derive(Clone, Copy, Debug, PartialEq, Eq)]
pub enum GroupReply {
    /// The id of the group frame that was accepted.
    Queued {
        id: u64,
    },
    /// The DTIM count of the beacon (0 to 254), and whether it announces group frames: bit 0 of the bitmap
    /// control of its TIM element (IEEE 802.11-2012, 8.4.2.7).
    Beacon {
        count: u8,
        follows: bool,
    },
    /// The group frame to send: its id, its sequence number (0 to 4095) and its airtime in microseconds.
    /// `more` is the More Data bit.
    Send {
        id: u64,
        number: u16,
        air: u32,
        more: bool,
    },
    /// The id of the group frame whose transmission ended.
    Done {
        id: u64,
    },
}
