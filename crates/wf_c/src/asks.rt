//! The calls that neither enqueue nor reap a frame.
//!
//! Each writes its answer to the caller's `Reply`, and returns its refusal, or 0 if it was not refused.

ghost use Rattle.std.specs.Prelude.{◌≡◌, true, is_some, pos, IfSome, IfNone, OnSome};
ghost use Rattle.wf_frame.specs.declared.notes.Ask.TheVariants.{Join, Leave, Rate, Tick, Pull, Sleep, Wake, Poll, Rx, Ampdu, Stop, Start, Unsent, GiveUp, Flush, Offload, Weight, Plain, Hold, Begin, Free, Cease};
ghost use Rattle.wf_frame.specs.declared.notes.AskedRate.TheVariants.{Ht, Vht, He, Ofdm, Dsss};
ghost use Rattle.wf_frame.specs.Calls.{no_limits};
ghost use Rattle.wf_path.specs.Jobs.{as_ask};
ghost use Rattle.wf_c.specs.Bodies.{IsUntouched};
ghost use Rattle.wf_c.specs.Calls.{Becomes, HoldsSmall, IsCalled};
ghost use Rattle.wf_c.specs.Numbers.{bad_class, class_shown, is_up, limits_given};
ghost use Rattle.wf_c.specs.Pulled.{ShowsAggregate};

use crate::exchanges::given_number;
use crate::pulled::Frames;
use crate::reply::Reply;
use crate::slot::PathSlot;
use wf_frame::{AskedRate, Class, Limits};
use wf_path::PathAsk;

impl PathSlot {
    // Makes a call that brings and returns no frame, and whose answer has no lists.
    pub(crate) fn ask(&mut self, ask: PathAsk, reply: &mut Reply) -> i32
        requires open { is_some self.old.value ≡ true }
        requires small { HoldsSmall self.old.value }
        ensures called { Becomes (λ h k. IsCalled h (as_ask ask) k reply.new) self.old.value self.new.value }
        ensures code { result ≡ pos reply.new.refusal }
    {
        *reply = self.held().ask(ask);
        i32::from(reply.refusal)
    }

    // Opens the next exchange of a class, within these limits. Returns `BAD_CLASS` if the class is above 3,
    // and then nothing has changed.
    fn pull(&mut self, class: u8, limits: Limits, reply: &mut Reply, frames: &mut Frames) -> i32
        requires open { is_some self.old.value ≡ true }
        requires small { HoldsSmall self.old.value }
        ensures called { IfSome (class_shown class) (λ c. Becomes (λ h k. IsCalled h
            (Pull c limits) k reply.new × (result ≡ pos reply.new.refusal)) self.old.value self.new.value) }
        ensures frames { OnSome (class_shown class) (IfSome self.new.value
            (λ k. ShowsAggregate frames.new k.answer.brief k.answer.pairs)) }
        ensures refused { IfNone (class_shown class)
            (IsUntouched self.old.value self.new.value reply.old reply.new result bad_class) }
        ensures kept { IfNone (class_shown class) (frames.new ≡ frames.old) }
    {
        let Some(class) = class_of_number(class) else {
            return BAD_CLASS;
        };
        let held = self.held();
        *reply = held.pull(class, limits);
        frames.show(&held.answer);
        i32::from(reply.refusal)
    }
}

/// The code of a class above 3.
pub(crate) const BAD_CLASS: i32 = 67;

// The class of a number. None if it is above 3.
pub(crate) fn class_of_number(number: u8) -> Option<Class>
    ensures { result ≡ class_shown number }
{
    match number {
        0 => Some(Class::Bk),
        1 => Some(Class::Be),
        2 => Some(Class::Vi),
        3 => Some(Class::Vo),
        _ => None,
    }
}

/// Makes a station live: its window in frames, first sequence number, A-MPDU length exponent and weight.
#[unsafe(no_mangle)]
pub extern "C" fn wf_path_join(
    path: &mut PathSlot,
    station: u16,
    window: u16,
    start: u16,
    exponent: u8,
    weight: u8,
    reply: &mut Reply,
) -> i32
    requires open { is_some path.old.value ≡ true }
    requires small { HoldsSmall path.old.value }
    ensures called { Becomes (λ h k. IsCalled h
        (Join station window start exponent weight) k reply.new) path.old.value path.new.value }
    ensures code { result ≡ pos reply.new.refusal }
{
    let ask = PathAsk::Join {
        station,
        window,
        start,
        exponent,
        weight,
    };
    path.ask(ask, reply)
}

/// Makes a station live whose device numbers, aggregates and repeats its frames: its A-MPDU length exponent
/// and weight.
#[unsafe(no_mangle)]
pub extern "C" fn wf_path_join_offload(
    path: &mut PathSlot,
    station: u16,
    exponent: u8,
    weight: u8,
    reply: &mut Reply,
) -> i32
    requires open { is_some path.old.value ≡ true }
    requires small { HoldsSmall path.old.value }
    ensures called { Becomes (λ h k. IsCalled h
        (Offload station exponent weight) k reply.new) path.old.value path.new.value }
    ensures code { result ≡ pos reply.new.refusal }
{
    let ask = PathAsk::Offload {
        station,
        exponent,
        weight,
    };
    path.ask(ask, reply)
}

/// Makes a station live without agreements: its first sequence number, A-MPDU length exponent and weight. Its
/// frames go one at a time.
#[unsafe(no_mangle)]
pub extern "C" fn wf_path_plain(
    path: &mut PathSlot,
    station: u16,
    start: u16,
    exponent: u8,
    weight: u8,
    reply: &mut Reply,
) -> i32
    requires open { is_some path.old.value ≡ true }
    requires small { HoldsSmall path.old.value }
    ensures called { Becomes (λ h k. IsCalled h
        (Plain station start exponent weight) k reply.new) path.old.value path.new.value }
    ensures code { result ≡ pos reply.new.refusal }
{
    let ask = PathAsk::Plain {
        station,
        start,
        exponent,
        weight,
    };
    path.ask(ask, reply)
}

/// Gives no frame of a TID a sequence number from now on, so that an agreement can begin.
#[unsafe(no_mangle)]
pub extern "C" fn wf_path_hold(path: &mut PathSlot, station: u16, tid: u8, reply: &mut Reply) -> i32
    requires open { is_some path.old.value ≡ true }
    requires small { HoldsSmall path.old.value }
    ensures called { Becomes (λ h k. IsCalled h
        (Hold station tid) k reply.new) path.old.value path.new.value }
    ensures code { result ≡ pos reply.new.refusal }
{
    path.ask(PathAsk::Hold { station, tid }, reply)
}

/// Begins the agreement of a TID that is held, with its window in frames.
#[unsafe(no_mangle)]
pub extern "C" fn wf_path_begin(
    path: &mut PathSlot,
    station: u16,
    tid: u8,
    window: u16,
    reply: &mut Reply,
) -> i32
    requires open { is_some path.old.value ≡ true }
    requires small { HoldsSmall path.old.value }
    ensures called { Becomes (λ h k. IsCalled h
        (Begin station tid window) k reply.new) path.old.value path.new.value }
    ensures code { result ≡ pos reply.new.refusal }
{
    let ask = PathAsk::Begin {
        station,
        tid,
        window,
    };
    path.ask(ask, reply)
}

/// Lets a TID that is held send its frames one at a time.
#[unsafe(no_mangle)]
pub extern "C" fn wf_path_free_tid(
    path: &mut PathSlot,
    station: u16,
    tid: u8,
    reply: &mut Reply,
) -> i32
    requires open { is_some path.old.value ≡ true }
    requires small { HoldsSmall path.old.value }
    ensures called { Becomes (λ h k. IsCalled h
        (Free station tid) k reply.new) path.old.value path.new.value }
    ensures code { result ≡ pos reply.new.refusal }
{
    path.ask(PathAsk::Free { station, tid }, reply)
}

/// Ends the agreement of a TID, which is then held. Its frames that have sequence numbers are dropped.
#[unsafe(no_mangle)]
pub extern "C" fn wf_path_cease(
    path: &mut PathSlot,
    station: u16,
    tid: u8,
    reply: &mut Reply,
) -> i32
    requires open { is_some path.old.value ≡ true }
    requires small { HoldsSmall path.old.value }
    ensures called { Becomes (λ h k. IsCalled h
        (Cease station tid) k reply.new) path.old.value path.new.value }
    ensures code { result ≡ pos reply.new.refusal }
{
    path.ask(PathAsk::Cease { station, tid }, reply)
}

/// Sets a station's weight.
#[unsafe(no_mangle)]
pub extern "C" fn wf_path_weight(
    path: &mut PathSlot,
    station: u16,
    weight: u8,
    reply: &mut Reply,
) -> i32
    requires open { is_some path.old.value ≡ true }
    requires small { HoldsSmall path.old.value }
    ensures called { Becomes (λ h k. IsCalled h (Weight station weight) k reply.new) path.old.value
        path.new.value }
    ensures code { result ≡ pos reply.new.refusal }
{
    path.ask(PathAsk::Weight { station, weight }, reply)
}

/// Makes a station leave. Its frames are dropped.
#[unsafe(no_mangle)]
pub extern "C" fn wf_path_leave(path: &mut PathSlot, station: u16, reply: &mut Reply) -> i32
    requires open { is_some path.old.value ≡ true }
    requires small { HoldsSmall path.old.value }
    ensures called { Becomes (λ h k. IsCalled h (Leave station) k reply.new) path.old.value path.new.value }
    ensures code { result ≡ pos reply.new.refusal }
{
    path.ask(PathAsk::Leave { station }, reply)
}

/// Sets a station's rate, a rate of HT; `short` other than 0 means the short guard interval.
#[unsafe(no_mangle)]
pub extern "C" fn wf_path_rate_ht(
    path: &mut PathSlot,
    station: u16,
    mcs: u8,
    mhz: u8,
    short: u8,
    reply: &mut Reply,
) -> i32
    requires open { is_some path.old.value ≡ true }
    requires small { HoldsSmall path.old.value }
    ensures called { Becomes (λ h k. IsCalled h
        (Rate station (Ht mcs mhz (is_up short))) k reply.new) path.old.value path.new.value }
    ensures code { result ≡ pos reply.new.refusal }
{
    let rate = AskedRate::Ht {
        mcs,
        mhz,
        short: short != 0,
    };
    path.ask(PathAsk::Rate { station, rate }, reply)
}

/// Sets a station's rate, a rate of VHT; `short` other than 0 means the short guard interval.
#[unsafe(no_mangle)]
pub extern "C" fn wf_path_rate_vht(
    path: &mut PathSlot,
    station: u16,
    mcs: u8,
    mhz: u8,
    short: u8,
    streams: u8,
    reply: &mut Reply,
) -> i32
    requires open { is_some path.old.value ≡ true }
    requires small { HoldsSmall path.old.value }
    ensures called { Becomes (λ h k. IsCalled h
        (Rate station (Vht mcs mhz (is_up short) streams)) k reply.new) path.old.value path.new.value }
    ensures code { result ≡ pos reply.new.refusal }
{
    let rate = AskedRate::Vht {
        mcs,
        mhz,
        short: short != 0,
        streams,
    };
    path.ask(PathAsk::Rate { station, rate }, reply)
}

/// Sets a station's rate, a rate of HE, with a guard interval of `guard` nanoseconds.
#[unsafe(no_mangle)]
pub extern "C" fn wf_path_rate_he(
    path: &mut PathSlot,
    station: u16,
    mcs: u8,
    mhz: u8,
    guard: u16,
    streams: u8,
    reply: &mut Reply,
) -> i32
    requires open { is_some path.old.value ≡ true }
    requires small { HoldsSmall path.old.value }
    ensures called { Becomes (λ h k. IsCalled h
        (Rate station (He mcs mhz guard streams)) k reply.new) path.old.value path.new.value }
    ensures code { result ≡ pos reply.new.refusal }
{
    let rate = AskedRate::He {
        mcs,
        mhz,
        guard,
        streams,
    };
    path.ask(PathAsk::Rate { station, rate }, reply)
}

/// Sets a station's rate, a rate of OFDM of `mbps` Mbit/s.
#[unsafe(no_mangle)]
pub extern "C" fn wf_path_rate_ofdm(
    path: &mut PathSlot,
    station: u16,
    mbps: u8,
    reply: &mut Reply,
) -> i32
    requires open { is_some path.old.value ≡ true }
    requires small { HoldsSmall path.old.value }
    ensures called { Becomes (λ h k. IsCalled h (Rate station (Ofdm mbps)) k reply.new)
        path.old.value path.new.value }
    ensures code { result ≡ pos reply.new.refusal }
{
    let rate = AskedRate::Ofdm { mbps };
    path.ask(PathAsk::Rate { station, rate }, reply)
}

/// Sets a station's rate, a rate of DSSS of `half_mbps` half Mbit/s.
#[unsafe(no_mangle)]
pub extern "C" fn wf_path_rate_dsss(
    path: &mut PathSlot,
    station: u16,
    half_mbps: u8,
    reply: &mut Reply,
) -> i32
    requires open { is_some path.old.value ≡ true }
    requires small { HoldsSmall path.old.value }
    ensures called { Becomes (λ h k. IsCalled h (Rate station (Dsss half_mbps)) k reply.new)
        path.old.value path.new.value }
    ensures code { result ≡ pos reply.new.refusal }
{
    let rate = AskedRate::Dsss { half_mbps };
    path.ask(PathAsk::Rate { station, rate }, reply)
}

/// Moves the clock on by `by` microseconds.
#[unsafe(no_mangle)]
pub extern "C" fn wf_path_tick(path: &mut PathSlot, by: u32, reply: &mut Reply) -> i32
    requires open { is_some path.old.value ≡ true }
    requires small { HoldsSmall path.old.value }
    ensures called { Becomes (λ h k. IsCalled h (Tick by) k reply.new) path.old.value path.new.value }
    ensures code { result ≡ pos reply.new.refusal }
{
    path.ask(PathAsk::Tick { by }, reply)
}

/// Puts a station to sleep.
#[unsafe(no_mangle)]
pub extern "C" fn wf_path_sleep(path: &mut PathSlot, station: u16, reply: &mut Reply) -> i32
    requires open { is_some path.old.value ≡ true }
    requires small { HoldsSmall path.old.value }
    ensures called { Becomes (λ h k. IsCalled h (Sleep station) k reply.new) path.old.value path.new.value }
    ensures code { result ≡ pos reply.new.refusal }
{
    path.ask(PathAsk::Sleep { station }, reply)
}

/// Wakes a station.
#[unsafe(no_mangle)]
pub extern "C" fn wf_path_wake(path: &mut PathSlot, station: u16, reply: &mut Reply) -> i32
    requires open { is_some path.old.value ≡ true }
    requires small { HoldsSmall path.old.value }
    ensures called { Becomes (λ h k. IsCalled h (Wake station) k reply.new) path.old.value path.new.value }
    ensures code { result ≡ pos reply.new.refusal }
{
    path.ask(PathAsk::Wake { station }, reply)
}

/// Gives a credit to a sleeping station that asks for one frame (PS-Poll).
#[unsafe(no_mangle)]
pub extern "C" fn wf_path_poll(path: &mut PathSlot, station: u16, reply: &mut Reply) -> i32
    requires open { is_some path.old.value ≡ true }
    requires small { HoldsSmall path.old.value }
    ensures called { Becomes (λ h k. IsCalled h (Poll station) k reply.new) path.old.value path.new.value }
    ensures code { result ≡ pos reply.new.refusal }
{
    path.ask(PathAsk::Poll { station }, reply)
}

/// Sets the most octets of aggregates of VHT and HE to a station, 4,096 to 6,500,631.
#[unsafe(no_mangle)]
pub extern "C" fn wf_path_ampdu(
    path: &mut PathSlot,
    station: u16,
    octets: u32,
    reply: &mut Reply,
) -> i32
    requires open { is_some path.old.value ≡ true }
    requires small { HoldsSmall path.old.value }
    ensures called { Becomes (λ h k. IsCalled h
        (Ampdu station octets) k reply.new) path.old.value path.new.value }
    ensures code { result ≡ pos reply.new.refusal }
{
    path.ask(PathAsk::Ampdu { station, octets }, reply)
}

/// Stops a station: no pull picks it until it is started.
#[unsafe(no_mangle)]
pub extern "C" fn wf_path_stop(path: &mut PathSlot, station: u16, reply: &mut Reply) -> i32
    requires open { is_some path.old.value ≡ true }
    requires small { HoldsSmall path.old.value }
    ensures called { Becomes (λ h k. IsCalled h (Stop station) k reply.new) path.old.value path.new.value }
    ensures code { result ≡ pos reply.new.refusal }
{
    path.ask(PathAsk::Stop { station }, reply)
}

/// Starts a station that is stopped: pulls may pick it again.
#[unsafe(no_mangle)]
pub extern "C" fn wf_path_start(path: &mut PathSlot, station: u16, reply: &mut Reply) -> i32
    requires open { is_some path.old.value ≡ true }
    requires small { HoldsSmall path.old.value }
    ensures called { Becomes (λ h k. IsCalled h (Start station) k reply.new) path.old.value path.new.value }
    ensures code { result ≡ pos reply.new.refusal }
{
    path.ask(PathAsk::Start { station }, reply)
}

/// Drops the frames of a TID that are not on the air.
#[unsafe(no_mangle)]
pub extern "C" fn wf_path_flush(
    path: &mut PathSlot,
    station: u16,
    tid: u8,
    reply: &mut Reply,
) -> i32
    requires open { is_some path.old.value ≡ true }
    requires small { HoldsSmall path.old.value }
    ensures called { Becomes (λ h k. IsCalled h
        (Flush station tid) k reply.new) path.old.value path.new.value }
    ensures code { result ≡ pos reply.new.refusal }
{
    path.ask(PathAsk::Flush { station, tid }, reply)
}

/// Says that a transmission of an open exchange never went on the air. `index` counts the transmissions from
/// 0.
#[unsafe(no_mangle)]
pub extern "C" fn wf_path_unsent(
    path: &mut PathSlot,
    exchange: u64,
    index: u16,
    reply: &mut Reply,
) -> i32
    requires open { is_some path.old.value ≡ true }
    requires small { HoldsSmall path.old.value }
    ensures called { Becomes (λ h k. IsCalled h
        (Unsent exchange index) k reply.new) path.old.value path.new.value }
    ensures code { result ≡ pos reply.new.refusal }
{
    path.ask(PathAsk::Unsent { exchange, index }, reply)
}

/// Says that the device will not try a transmission of an open exchange again. `index` counts the
/// transmissions from 0.
#[unsafe(no_mangle)]
pub extern "C" fn wf_path_give_up(
    path: &mut PathSlot,
    exchange: u64,
    index: u16,
    reply: &mut Reply,
) -> i32
    requires open { is_some path.old.value ≡ true }
    requires small { HoldsSmall path.old.value }
    ensures called { Becomes (λ h k. IsCalled h
        (GiveUp exchange index) k reply.new) path.old.value path.new.value }
    ensures code { result ≡ pos reply.new.refusal }
{
    path.ask(PathAsk::GiveUp { exchange, index }, reply)
}

/// Charges a station for `air` microseconds that it used to send in a class. Returns 67 if the class is above
/// 3, and then nothing has changed.
#[unsafe(no_mangle)]
pub extern "C" fn wf_path_rx(
    path: &mut PathSlot,
    station: u16,
    class: u8,
    air: u32,
    reply: &mut Reply,
) -> i32
    requires open { is_some path.old.value ≡ true }
    requires small { HoldsSmall path.old.value }
    ensures called { IfSome (class_shown class) (λ c. Becomes (λ h k. IsCalled h
        (Rx station c air) k reply.new × (result ≡ pos reply.new.refusal)) path.old.value path.new.value) }
    ensures refused { IfNone (class_shown class)
        (IsUntouched path.old.value path.new.value reply.old reply.new result bad_class) }
{
    match class_of_number(class) {
        Some(class) => path.ask(
            PathAsk::Rx {
                station,
                class,
                air,
            },
            reply,
        ),
        None => BAD_CLASS,
    }
}

/// Opens the next exchange of a class. If it sends frames, `frames` gets them;
/// otherwise their count is 0. Returns 67 if the class is above 3, and then nothing has changed.
#[unsafe(no_mangle)]
pub extern "C" fn wf_path_pull(
    path: &mut PathSlot,
    class: u8,
    reply: &mut Reply,
    frames: &mut Frames,
) -> i32
    requires open { is_some path.old.value ≡ true }
    requires small { HoldsSmall path.old.value }
    ensures called { IfSome (class_shown class) (λ c. Becomes (λ h k. IsCalled h
        (Pull c no_limits) k reply.new × (result ≡ pos reply.new.refusal)) path.old.value path.new.value) }
    ensures frames { OnSome (class_shown class) (IfSome path.new.value
        (λ k. ShowsAggregate frames.new k.answer.brief k.answer.pairs)) }
    ensures refused { IfNone (class_shown class)
        (IsUntouched path.old.value path.new.value reply.old reply.new result bad_class) }
    ensures kept { IfNone (class_shown class) (frames.new ≡ frames.old) }
{
    path.pull(class, Limits::NONE, reply, frames)
}

/// Opens the next exchange of a class with at most `most` frames, whose data take at most `air` microseconds.
/// 0 limits nothing, and one frame goes whatever the limits are. Otherwise like `wf_path_pull`.
#[unsafe(no_mangle)]
pub extern "C" fn wf_path_pull_limited(
    path: &mut PathSlot,
    class: u8,
    most: u32,
    air: u32,
    reply: &mut Reply,
    frames: &mut Frames,
) -> i32
    requires open { is_some path.old.value ≡ true }
    requires small { HoldsSmall path.old.value }
    ensures called { IfSome (class_shown class) (λ c. Becomes (λ h k. IsCalled h
        (Pull c (limits_given most air)) k reply.new × (result ≡ pos reply.new.refusal))
        path.old.value path.new.value) }
    ensures frames { OnSome (class_shown class) (IfSome path.new.value
        (λ k. ShowsAggregate frames.new k.answer.brief k.answer.pairs)) }
    ensures refused { IfNone (class_shown class)
        (IsUntouched path.old.value path.new.value reply.old reply.new result bad_class) }
    ensures kept { IfNone (class_shown class) (frames.new ≡ frames.old) }
{
    let limits = Limits {
        frames: given_number(most),
        air: given_number(air),
    };
    path.pull(class, limits, reply, frames)
}
