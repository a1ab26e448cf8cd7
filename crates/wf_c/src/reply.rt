//! The answer to a call, as numbers in a struct of the caller's.

ghost use Rattle.std.specs.Prelude.{◌≡◌, pos, true};
ghost use Rattle.wf_frame.specs.Classes.{class_number};
ghost use Rattle.wf_frame.specs.Refusals.{refusal_number};
ghost use Rattle.wf_frame.specs.declared.answers.Brief.TheVariants.{Send, Done, Reaped, Group, Service};
ghost use Rattle.wf_c.specs.Numbers.{blank, flag_of, is_batch_kind, is_kind_alone, is_plain_kind, numbers_of, with_refusal, with_dropped, with_request_start};

use wf_frame::{Brief, Class, Fate, GroupReply, Kind, Refusal, ServiceReply};

/// The answer to a call. `kind` says which answer it is, and which other fields have a meaning; all others
/// are 0.
#[repr(C)]
#[derive(Clone, Copy)]
pub struct Reply {
    /// The exchange to send.
    pub exchange: u64,
    /// The id of the frame that was accepted or reaped, or of the group frame.
    pub id: u64,
    /// The id of the frame that was dropped because the flow queues were full, if `has_dropped` is 1.
    pub dropped: u64,
    /// The clock, in microseconds.
    pub now: u64,
    /// The deficit after the charge, in microseconds; for the refusal `Debt` the unchanged one.
    pub deficit: i64,
    /// The airtime of the exchange or of the group frame to send, in microseconds; for the refusal `Ahead`
    /// that in flight.
    pub air: u32,
    /// The number of frames that a leave, a flush or the end of an agreement dropped; the DTIM count; for a
    /// refusal, how many are open, inside, queued or waiting.
    pub count: u32,
    /// The station to send to.
    pub station: u16,
    /// The start of the BlockAckReq to send, if `request` is 1, or of the agreement that may begin, or the
    /// sequence number of the group frame to send: 0 to 4095.
    pub start: u16,
    /// The number of the exchange's frames that are acknowledged.
    pub acked: u16,
    /// The number of its frames that wait to be sent again.
    pub waiting: u16,
    /// The number of its frames that are dropped.
    pub failed: u16,
    /// The kind of answer: 0 to 29.
    pub kind: u8,
    /// Why the call was refused: 1 to 43, or 0 if it was not.
    pub refusal: u8,
    /// The TID to send for: 0 to 7.
    pub tid: u8,
    /// The class of the credit, or the first class to pull in a service period: 0 to 3.
    pub class: u8,
    /// The fate of the frame that was reaped: 0 to 7.
    pub fate: u8,
    /// 1 if a frame was dropped because the flow queues were full, else 0.
    pub has_dropped: u8,
    /// 1 if the exchange sends a BlockAckReq instead of frames, else 0.
    pub request: u8,
    /// 1 if the station has more to be sent or another group frame follows (the More Data bit), or if the
    /// beacon announces group frames, else 0.
    pub more: u8,
    /// 1 if the exchange sends frames that the station's device numbers, else 0.
    pub batch: u8,
    /// 1 if the exchange sends one frame without an agreement, which an Ack answers, else 0.
    pub plain: u8,
    /// 1 if the exchange ends the service period of its station (the EOSP bit of its last frame), else 0.
    pub eosp: u8,
}

/// All fields 0.
const BLANK: Reply = Reply {
    exchange: 0,
    id: 0,
    dropped: 0,
    now: 0,
    deficit: 0,
    air: 0,
    count: 0,
    station: 0,
    start: 0,
    acked: 0,
    waiting: 0,
    failed: 0,
    kind: 0,
    refusal: 0,
    tid: 0,
    class: 0,
    fate: 0,
    has_dropped: 0,
    request: 0,
    more: 0,
    batch: 0,
    plain: 0,
    eosp: 0,
};

impl Reply {
    // The fields of an answer.
    pub(crate) fn of(brief: Brief) -> Reply
        ensures { result ≡ numbers_of brief }
    {
        match brief {
            Brief::Left { dropped } => dropping(1, dropped),
            Brief::Now { now } => Reply { now, ..of_kind(3) },
            Brief::Accepted { id, dropped } => accepted(id, dropped),
            Brief::Send {
                exchange,
                station,
                tid,
                air,
                request,
                kind,
                more,
                eosp,
            } => sending(exchange, station, tid, air, request, kind, (more, eosp)),
            Brief::Done {
                acked,
                waiting,
                failed,
            } => ended(acked, waiting, failed),
            Brief::Polled { class } => Reply {
                class: number_of_class(class),
                ..of_kind(11)
            },
            Brief::Charged { deficit } => Reply {
                deficit,
                ..of_kind(12)
            },
            Brief::Reaped { id, fate } => reaped(id, fate),
            Brief::Flushed { dropped } => dropping(18, dropped),
            Brief::Held { start } => Reply {
                start,
                ..of_kind(20)
            },
            Brief::Ceased { dropped } => dropping(23, dropped),
            Brief::Group(answer) => of_group(answer),
            Brief::Service(answer) => of_service(answer),
            Brief::Refused(refusal) => refused(refusal),
            brief => alone(brief),
        }
    }
}

// An answer with no field except its kind; there is no other answer here.
fn alone(brief: Brief) -> Reply
    requires { is_kind_alone brief ≡ true }
    ensures { result ≡ numbers_of brief }
{
    match brief {
        Brief::Joined => of_kind(0),
        Brief::Set => of_kind(2),
        Brief::Released => of_kind(6),
        Brief::Ba { .. } => of_kind(7),
        Brief::Slept => of_kind(9),
        Brief::Woken => of_kind(10),
        Brief::Stopped => of_kind(15),
        Brief::Started => of_kind(16),
        Brief::Marked => of_kind(17),
        Brief::Ack => of_kind(19),
        Brief::Begun => of_kind(21),
        Brief::Freed => of_kind(22),
        _ => BLANK,
    }
}

// An answer with no field except its kind.
fn of_kind(kind: u8) -> Reply
    ensures { result ≡ record blank { kind = kind } }
{
    Reply { kind, ..BLANK }
}

// An answer of this kind that says how many frames were dropped.
fn dropping(kind: u8, count: u32) -> Reply
    ensures { result ≡ record blank { kind = kind; count = count } }
{
    Reply {
        count,
        ..of_kind(kind)
    }
}

// The answer to an enqueue.
fn accepted(id: u64, dropped: Option<u64>) -> Reply
    ensures { result ≡ with_dropped dropped (record blank { kind = 4; id = id }) }
{
    match dropped {
        Some(dropped) => Reply {
            id,
            dropped,
            has_dropped: 1,
            ..of_kind(4)
        },
        None => Reply { id, ..of_kind(4) },
    }
}

// The answer to a pull, with only the start of its BlockAckReq, if it has one.
fn requested(request: Option<u16>) -> Reply
    ensures { result ≡ with_request_start request (record blank { kind = 5 }) }
{
    match request {
        Some(start) => Reply {
            start,
            request: 1,
            ..of_kind(5)
        },
        None => of_kind(5),
    }
}

// The flags of how an exchange sends its frames: whether the device numbers them, and whether it is one frame
// without an agreement.
fn flags_of_kind(kind: Kind) -> (u8, u8)
    ensures { result ≡ (flag_of (is_batch_kind kind), flag_of (is_plain_kind kind)) }
{
    match kind {
        Kind::Aggregate => (0, 0),
        Kind::Batch => (1, 0),
        Kind::Plain => (0, 1),
    }
}

// The answer to a pull. `bits` are the More Data bit and the EOSP bit.
fn sending(
    exchange: u64,
    station: u16,
    tid: u8,
    air: u32,
    request: Option<u16>,
    kind: Kind,
    bits: (bool, bool),
) -> Reply
    ensures { result ≡ numbers_of (Send exchange station tid air request kind bits.0 bits.1) }
{
    let (batch, plain) = flags_of_kind(kind);
    let (more, eosp) = bits;
    Reply {
        exchange,
        station,
        tid,
        air,
        more: u8::from(more),
        batch,
        plain,
        eosp: u8::from(eosp),
        ..requested(request)
    }
}

// The answer to the end of an exchange.
fn ended(acked: u16, waiting: u16, failed: u16) -> Reply
    ensures { result ≡ numbers_of (Done acked waiting failed) }
{
    Reply {
        acked,
        waiting,
        failed,
        ..of_kind(8)
    }
}

// The answer to a reap.
fn reaped(id: u64, fate: Fate) -> Reply
    ensures { result ≡ numbers_of (Reaped id fate) }
{
    Reply {
        id,
        fate: fate.number(),
        ..of_kind(13)
    }
}

// The answer to a call about group frames.
fn of_group(answer: GroupReply) -> Reply
    ensures { result ≡ numbers_of (Group answer) }
{
    match answer {
        GroupReply::Queued { id } => Reply { id, ..of_kind(24) },
        GroupReply::Beacon { count, follows } => Reply {
            count: u32::from(count),
            more: u8::from(follows),
            ..of_kind(25)
        },
        GroupReply::Send {
            id,
            number,
            air,
            more,
        } => Reply {
            id,
            start: number,
            air,
            more: u8::from(more),
            ..of_kind(26)
        },
        GroupReply::Done { id } => Reply { id, ..of_kind(27) },
    }
}

// The answer to a call about service periods.
fn of_service(answer: ServiceReply) -> Reply
    ensures { result ≡ numbers_of (Service answer) }
{
    match answer {
        ServiceReply::Set => of_kind(2),
        ServiceReply::Triggered { class } => Reply {
            class: number_of_class(class),
            ..of_kind(28)
        },
        ServiceReply::Ended => of_kind(29),
    }
}

// The answer to a refused call.
fn refused(refusal: Refusal) -> Reply
    ensures { result ≡ with_refusal refusal (record blank { kind = 14; refusal = refusal_number refusal }) }
{
    let reply = Reply {
        refusal: refusal.number(),
        ..of_kind(14)
    };
    match refusal {
        // begin refusals: tools/tables writes these lines
        Refusal::Open { count } => Reply { count, ..reply },
        Refusal::Room { inside } => Reply {
            count: inside,
            ..reply
        },
        Refusal::Sleeping { queued } => Reply {
            count: queued,
            ..reply
        },
        Refusal::Full { count } => Reply { count, ..reply },
        Refusal::Debt { deficit } => Reply { deficit, ..reply },
        Refusal::Ahead { owed } => Reply { air: owed, ..reply },
        Refusal::Waits { count } => Reply { count, ..reply },
        Refusal::Buffered { queued } => Reply {
            count: queued,
            ..reply
        },
        // end refusals
        _ => reply,
    }
}

// The number of a class, 0 to 3, from the least urgent on.
pub(crate) fn number_of_class(class: Class) -> u8
    ensures { result ≡ class_number class }
{
    class.number() as u8
}

// The code of a refusal: its number.
pub(crate) fn refusal_code(refusal: Refusal) -> i32
    ensures { result ≡ pos (refusal_number refusal) }
{
    i32::from(refusal.number())
}
