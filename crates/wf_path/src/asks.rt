//! The calls that a path takes, as types.

ghost use Rattle.std.specs.Prelude.{◌≡◌, IfOk, IfErr};
ghost use Rattle.wf_path.specs.Jobs.{job_of, ask_about};
ghost use Rattle.wf_path.specs.declared.asks.PathAsk.TheVariants.{Join, Offload, Plain, Begin};
ghost use Rattle.wf_path.specs.declared.job.Job.TheVariants.{Call};

use wf_frame::{Ask, AskedRate, Class, GroupCall, Limits, ServiceAsk};
use wf_queue_parts::chain::Parcel;

/// A call of a path.
#[derive(Drop)]
pub enum PathJob {
    /// A frame for a station.
    Give(Parcel),
    /// The driver asks for the next exchange of a class, within these limits: `Limits::NONE` if its device
    /// has none. Its answer may have a list of frames. Refused as Full, Ahead or Idle, whatever the limits
    /// are.
    Pull(Class, Limits),
    /// A call that brings and returns no frame, and whose answer has no lists.
    Call(PathAsk),
    /// The caller takes the next finished frame.
    Reap,
}

/// A call of a path that brings and returns no frame, and whose answer has no lists: one of twenty-four. An
/// argument outside its given range is refused.
#[derive(Clone, Copy, Debug, PartialEq, Eq)]
pub enum PathAsk {
    /// A station joins, with its window size in frames (1 to 256), first sequence number (0 to 4095),
    /// maximum A-MPDU length exponent (0 to 3; IEEE 802.11-2012, 8.4.2.58.3) and weight (1 to 16).
    Join {
        station: u16,
        window: u16,
        start: u16,
        exponent: u8,
        weight: u8,
    },
    /// A station leaves; its frames are dropped.
    Leave {
        station: u16,
    },
    /// Data to a station has this rate from now on. Refused as BadStation, BadRate, NoStation, or Agreed if
    /// it is a rate of OFDM or DSSS and a TID of the station has an agreement or is held.
    Rate {
        station: u16,
        rate: AskedRate,
    },
    /// The clock moves forward by 0 to 10,000,000 microseconds.
    Tick {
        by: u32,
    },
    /// A station goes to sleep.
    Sleep {
        station: u16,
    },
    /// A station wakes.
    Wake {
        station: u16,
    },
    /// A sleeping station asks for one frame (PS-Poll).
    Poll {
        station: u16,
    },
    /// A station used this airtime to send in a class: 1 to 65,535 microseconds.
    Rx {
        station: u16,
        class: Class,
        air: u32,
    },
    /// A station takes aggregates of at most this many octets at a rate of VHT or HE until it leaves: 4,096
    /// to 6,500,631 (IEEE 802.11ax-2021, 26.6.1). Until then its exponent bounds them, at a rate of HT
    /// always. Refused as BadStation, BadAmpdu or NoStation.
    Ampdu {
        station: u16,
        octets: u32,
    },
    /// No pull picks the station until it is started. Refused as BadStation, NoStation or Stopped.
    Stop {
        station: u16,
    },
    /// Pulls may pick the station again. Refused as BadStation, NoStation or Started.
    Start {
        station: u16,
    },
    /// A transmission of an open exchange never went on the air: its frame waits again when the exchange
    /// ends, and this transmission does not count. `index` counts the transmissions from 0. Refused as
    /// NoExchange, BadIndex or Marked.
    Unsent {
        exchange: u64,
        index: u16,
    },
    /// The device will not try a transmission of an open exchange again: if it is not acknowledged, its frame
    /// is dropped when the exchange ends. Refused as NoExchange, BadIndex or Marked.
    GiveUp {
        exchange: u64,
        index: u16,
    },
    /// The frames of a TID that are not on the air are dropped. Refused as BadStation, BadTid or NoStation.
    Flush {
        station: u16,
        tid: u8,
    },
    /// A station joins whose device numbers, aggregates and repeats its frames: each exchange to it is a
    /// batch, and `Path::done_each` says what became of its frames. It has a maximum A-MPDU length exponent
    /// (0 to 3; IEEE 802.11-2012, 8.4.2.58.3) and a weight (1 to 16). Refused as BadStation, BadExponent,
    /// BadWeight or Live.
    Offload {
        station: u16,
        exponent: u8,
        weight: u8,
    },
    /// A station has this weight from now on, 1 to 16. Refused as BadStation, BadWeight or NoStation.
    Weight {
        station: u16,
        weight: u8,
    },
    /// A station joins without block acknowledgement agreements: each of its exchanges sends one frame, and
    /// `Path::done_ack` ends it. It has a first sequence number (0 to 4095), a maximum A-MPDU length exponent
    /// (0 to 3; IEEE 802.11-2012, 8.4.2.58.3) and a weight (1 to 16). Refused as BadStation, BadStart,
    /// BadExponent, BadWeight or Live.
    Plain {
        station: u16,
        start: u16,
        exponent: u8,
        weight: u8,
    },
    /// No frame of a TID (0 to 7) gets a sequence number from now on, so that an agreement can begin. Refused
    /// as BadStation, BadTid, NoStation, Offloaded, Agreed, Held or Legacy.
    Hold {
        station: u16,
        tid: u8,
    },
    /// A TID (0 to 7) that is held has an agreement from now on, with its window in frames (1 to 256; IEEE
    /// 802.11-2012, 10.5.2). Refused as BadStation, BadTid, BadWindow, NoStation, NotHeld, Open or Waits.
    Begin {
        station: u16,
        tid: u8,
        window: u16,
    },
    /// A TID (0 to 7) that is held sends its frames one at a time from now on. Refused as BadStation, BadTid,
    /// NoStation or NotHeld.
    Free {
        station: u16,
        tid: u8,
    },
    /// The agreement of a TID (0 to 7) ends (IEEE 802.11-2012, 10.5.3), and the TID is held. The frames that
    /// have sequence numbers and are not acknowledged are dropped. Refused as BadStation, BadTid, NoStation,
    /// NotAgreed or Open.
    Cease {
        station: u16,
        tid: u8,
    },
    /// A call about the group frames of a BSS. One that is accepted so has the tag 0, and all stations are
    /// its destination; `Path::accept_group` accepts one with a tag and a destination.
    Group(GroupCall),
    /// A call about the service periods of a station that sleeps (U-APSD; IEEE 802.11-2012, 10.2.1.5). Set
    /// is refused as BadStation, BadClasses, NoStation or Asleep; Trigger as BadStation, NoStation, Awake,
    /// Polled or Nothing; End as BadStation, NoStation or Nothing.
    Service(ServiceAsk),
    /// Sets the BSS of a station, 0 to `bsses` - 1: while it sleeps it hears the beacons of this
    /// BSS, and frames to and from it have the BSS's address. Refused as BadStation, BadBss,
    /// NoStation or Asleep.
    Bss {
        station: u16,
        bss: u8,
    },
}

/// A call of the machine about an open exchange. A path does not take it: it has no receivers, and
/// `Path::done_bits` and `Path::done_bytes` end an exchange.
#[derive(Clone, Copy, Debug, PartialEq, Eq)]
pub enum ExchangeAsk {
    /// A transmission of the exchange reached its station. `index` counts the transmissions from 0.
    Arrive {
        exchange: u64,
        index: u16,
    },
    /// The station answers the exchange with a BlockAck, or with an Ack if it is plain.
    Answer {
        exchange: u64,
    },
    /// The exchange ends. `heard` is whether its answer was heard. It is charged the airtime `air`, 1 to
    /// `charge` microseconds, or if that is `None` the airtime of its Send.
    Done {
        exchange: u64,
        heard: bool,
        air: Option<u32>,
    },
}

impl PathAsk {
    // Returns the call by which a station joins.
    fn join(station: u16, window: u16, start: u16, exponent: u8, weight: u8) -> PathAsk
        ensures value { result ≡ Join station window start exponent weight }
    {
        PathAsk::Join {
            station,
            window,
            start,
            exponent,
            weight,
        }
    }

    // Returns the call by which a station joins whose device numbers its frames.
    fn offload(station: u16, exponent: u8, weight: u8) -> PathAsk
        ensures value { result ≡ Offload station exponent weight }
    {
        PathAsk::Offload {
            station,
            exponent,
            weight,
        }
    }

    // Returns the call by which a station joins without agreements.
    fn plain(station: u16, start: u16, exponent: u8, weight: u8) -> PathAsk
        ensures value { result ≡ Plain station start exponent weight }
    {
        PathAsk::Plain {
            station,
            start,
            exponent,
            weight,
        }
    }

    // Returns the call by which the agreement of a TID begins.
    fn begin(station: u16, tid: u8, window: u16) -> PathAsk
        ensures value { result ≡ Begin station tid window }
    {
        PathAsk::Begin {
            station,
            tid,
            window,
        }
    }
}

impl PathJob {
    /// Returns the path's call that is this call of the machine, or the call about an open exchange that it
    /// is.
    pub fn of(ask: Ask) -> Result<PathJob, ExchangeAsk>
        ensures path { IfOk result (λ job. Call ask ≡ job_of job) }
        ensures exchange { IfErr result (λ about. ask ≡ ask_about about) }
    {
        match ask {
            Ask::Join {
                station,
                window,
                start,
                exponent,
                weight,
            } => Ok(PathJob::Call(PathAsk::join(station, window, start, exponent, weight))),
            Ask::Leave { station } => Ok(PathJob::Call(PathAsk::Leave { station })),
            Ask::Rate { station, rate } => Ok(PathJob::Call(PathAsk::Rate { station, rate })),
            Ask::Tick { by } => Ok(PathJob::Call(PathAsk::Tick { by })),
            Ask::Pull { class, limits } => Ok(PathJob::Pull(class, limits)),
            Ask::Arrive { exchange, index } => Err(ExchangeAsk::Arrive { exchange, index }),
            Ask::Answer { exchange } => Err(ExchangeAsk::Answer { exchange }),
            Ask::Done {
                exchange,
                heard,
                air,
            } => Err(ExchangeAsk::Done {
                exchange,
                heard,
                air,
            }),
            Ask::Sleep { station } => Ok(PathJob::Call(PathAsk::Sleep { station })),
            Ask::Wake { station } => Ok(PathJob::Call(PathAsk::Wake { station })),
            Ask::Poll { station } => Ok(PathJob::Call(PathAsk::Poll { station })),
            Ask::Rx {
                station,
                class,
                air,
            } => Ok(PathJob::Call(PathAsk::Rx {
                station,
                class,
                air,
            })),
            Ask::Reap => Ok(PathJob::Reap),
            Ask::Ampdu { station, octets } => Ok(PathJob::Call(PathAsk::Ampdu { station, octets })),
            Ask::Stop { station } => Ok(PathJob::Call(PathAsk::Stop { station })),
            Ask::Start { station } => Ok(PathJob::Call(PathAsk::Start { station })),
            Ask::Unsent { exchange, index } => Ok(PathJob::Call(PathAsk::Unsent {
                exchange,
                index,
            })),
            Ask::GiveUp { exchange, index } => Ok(PathJob::Call(PathAsk::GiveUp {
                exchange,
                index,
            })),
            Ask::Flush { station, tid } => Ok(PathJob::Call(PathAsk::Flush { station, tid })),
            Ask::Offload {
                station,
                exponent,
                weight,
            } => Ok(PathJob::Call(PathAsk::offload(station, exponent, weight))),
            Ask::Weight { station, weight } => Ok(PathJob::Call(PathAsk::Weight {
                station,
                weight,
            })),
            Ask::Plain {
                station,
                start,
                exponent,
                weight,
            } => Ok(PathJob::Call(PathAsk::plain(station, start, exponent, weight))),
            Ask::Hold { station, tid } => Ok(PathJob::Call(PathAsk::Hold { station, tid })),
            Ask::Begin {
                station,
                tid,
                window,
            } => Ok(PathJob::Call(PathAsk::begin(station, tid, window))),
            Ask::Free { station, tid } => Ok(PathJob::Call(PathAsk::Free { station, tid })),
            Ask::Cease { station, tid } => Ok(PathJob::Call(PathAsk::Cease { station, tid })),
            Ask::Group(call) => Ok(PathJob::Call(PathAsk::Group(call))),
            Ask::Service(ask) => Ok(PathJob::Call(PathAsk::Service(ask))),
            Ask::Bss { station, bss } => Ok(PathJob::Call(PathAsk::Bss { station, bss })),
        }
    }
}
