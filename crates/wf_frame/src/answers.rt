//! The buffer of an answer: a brief, and the two lists that a brief may refer to.
//!
//! An answer by value would contain a list of up to 4 kB, which would be copied each time that it is passed
//! on. So a caller makes one `Answer` and lends it to each call.

ghost use Rattle.std.specs.Prelude.{◌≡◌, []};
ghost use Rattle.wf_frame.specs.declared.notes.Refusal.TheVariants.{Nothing};
ghost use Rattle.wf_frame.specs.declared.answers.Brief.TheVariants.{Refused};

use crate::{Class, Fate, GroupReply, Ids, Pairs, Refusal, ServiceReply};

/// How an exchange sends its frames.
#[derive(Clone, Copy, Debug, PartialEq, Eq)]
pub enum Kind {
    /// As an aggregate under a block acknowledgement agreement.
    Aggregate,
    /// As a batch, whose frames the station's device numbers: only their ids have a meaning.
    Batch,
    /// As one frame without an agreement, which an Ack answers.
    Plain,
}

/// An answer without its lists: what happened, in a few numbers.
#[derive(Clone, Copy, Debug, PartialEq, Eq)]
pub enum Brief {
    /// The station is live.
    Joined,
    /// The station left, and this number of its frames were dropped.
    Left {
        dropped: u32,
    },
    /// The rate, the greatest aggregate or the weight is set.
    Set,
    /// The clock after the tick, in microseconds.
    Now {
        now: u64,
    },
    /// The frame's new id, and the id of the frame that was dropped for the limit, if any.
    Accepted {
        id: u64,
        dropped: Option<u64>,
    },
    /// The exchange to send: its number, station, TID (0 to 7) and charge in microseconds. If `request` is
    /// given, it sends a BlockAckReq with this start (0 to 4095), otherwise the frames of `Answer::pairs`, as
    /// `kind` says. `more` is the More Data bit, and `eosp` the EOSP bit of its last frame (IEEE 802.11-2012,
    /// 8.2.4.5.3).
    Send {
        exchange: u64,
        station: u16,
        tid: u8,
        air: u32,
        request: Option<u16>,
        kind: Kind,
        more: bool,
        eosp: bool,
    },
    /// The receiver released the frames of `Answer::ids`, in order.
    Released,
    /// The receiver's BlockAck: its start (0 to 4095) and its bitmap, whose offsets 0 to 63 are the bits of
    /// `b0`. If `wide`, the bitmap has 256 bits, otherwise 64.
    Ba {
        start: u16,
        b0: u64,
        b1: u64,
        b2: u64,
        b3: u64,
        wide: bool,
    },
    /// How many of the exchange's frames are acknowledged, wait again, and are dropped.
    Done {
        acked: u16,
        waiting: u16,
        failed: u16,
    },
    /// The station is asleep.
    Slept,
    /// The station is awake.
    Woken,
    /// The sleeping station has a credit for one exchange of this class.
    Polled {
        class: Class,
    },
    /// The deficit after the charge, in microseconds.
    Charged {
        deficit: i64,
    },
    /// The id and the fate of the first finished frame.
    Reaped {
        id: u64,
        fate: Fate,
    },
    /// The station is stopped.
    Stopped,
    /// The station is started.
    Started,
    /// The transmission is marked.
    Marked,
    /// The TID was flushed, and this number of its frames were dropped.
    Flushed {
        dropped: u32,
    },
    /// The receiver's Ack.
    Ack,
    /// The TID is held; an agreement may begin with this sequence number (0 to 4095).
    Held {
        start: u16,
    },
    /// The TID has an agreement.
    Begun,
    /// The TID sends its frames one at a time.
    Freed,
    /// The agreement ended, and this number of frames were dropped. The receiver released the frames of
    /// `Answer::ids`, in order.
    Ceased {
        dropped: u32,
    },
    /// The answer to a call about group frames.
    Group(GroupReply),
    /// The answer to a call about service periods.
    Service(ServiceReply),
    /// The call was refused.
    Refused(Refusal),
}

/// The answer to a call, in a buffer that a caller lends to one call after another. Each call writes its
/// whole answer, so it does not matter what an earlier call left.
#[derive(Drop)]
pub struct Answer {
    /// The kind of event. A list has a meaning only if the brief refers to it.
    pub brief: Brief,
    /// The id and the sequence number (0 to 4095) of each frame of an aggregate; at most 256.
    pub pairs: Pairs,
    /// The ids of the frames that were released, in order; at most 256.
    pub ids: Ids,
}

impl Answer {
    /// Returns an answer to no call: its lists are empty, and its brief is the refusal `Nothing`.
    pub fn new() -> Answer
        ensures { result ≡ record { brief = Refused Nothing; pairs = []; ids = [] } }
    {
        Answer {
            brief: Brief::Refused(Refusal::Nothing),
            pairs: Pairs::new(),
            ids: Ids::new(),
        }
    }
}
