//! The values of a call's arguments, and the call with given values.

ghost use Rattle.std.specs.Prelude.{◌≡◌, ◌≤◌, [], ◌∷◌, length, Some};
ghost use Rattle.wf_frame.specs.declared.notes.Note.TheVariants.{Asked};
ghost use Rattle.wf_frame.specs.declared.notes.Ask.TheVariants.{Join, Rate, Pull, Arrive, Done, Group, Service};
ghost use Rattle.wf_frame.specs.declared.calls.Argument.TheVariants.{Station, Exchange, Index, Tid, Bss};
ghost use Rattle.wf_frame.specs.Calls.{note_form, form_of_rate, form_of_limits, limits, form_of_group, in_bss, form_of_service, values_of_service, note_values, note_made, enqueued, ask_of, arguments_of, IsPrintable, NumbersAreInRange};

use crate::Class;
use crate::calls::{CallForm, RateFormat, Value};
use crate::notes::{Ask, AskedRate, GroupAsk, GroupCall, Limits, Note, ServiceAsk};
use arrayvec::ArrayVec;

impl Note {
    /// Returns the form of its line.
    pub fn form(&self) -> CallForm
        ensures { result ≡ note_form self.now }
    {
        match self {
            Note::Enqueue { .. } => CallForm::Enqueue,
            Note::Asked(ask) => ask.form(),
        }
    }

    /// Returns the values of its arguments, in order; `of_values` makes the same call of them. A value may
    /// be out of range for a line: only exchange numbers below 2^32 and lengths of 1 to 2304 octets are in
    /// range.
    pub fn values(&self) -> ArrayVec<Value, 6>
        ensures values { result.items ≡ note_values self.now }
        ensures range { IsPrintable self.now → NumbersAreInRange self.now }
        ensures back { note_made (note_form self.now) (note_values self.now) ≡ Some self.now }
    {
        match self {
            Note::Enqueue {
                station,
                tid,
                flow,
                len,
            } => listed(&[
                Value::Short(*station),
                Value::Octet(*tid),
                Value::Long(*flow),
                Value::Short(*len),
            ]),
            Note::Asked(ask) => ask.values(),
        }
    }

    /// Returns the call of a form with these values, or `None` if they are no values of its arguments.
    pub fn of_values(form: CallForm, values: &[Value]) -> Option<Note>
        ensures { result ≡ note_made form values.now }
    {
        match form {
            CallForm::Enqueue => enqueue(values),
            _ => ask_made(form, values).map(|ask| Note::Asked(ask)),
        }
    }
}

impl Ask {
    // The form of its line.
    fn form(self) -> CallForm
        ensures { result ≡ note_form (Asked self) }
    {
        match self {
            Ask::Join { .. } => CallForm::Join,
            Ask::Leave { .. } => CallForm::Leave,
            Ask::Rate { rate, .. } => rate.form(),
            Ask::Tick { .. } => CallForm::Tick,
            Ask::Pull { limits, .. } => limits.form(),
            Ask::Arrive { .. } => CallForm::Arrive,
            Ask::Answer { .. } => CallForm::Answer,
            Ask::Done { air: None, .. } => CallForm::Done,
            Ask::Done { air: Some(_), .. } => CallForm::DoneAir,
            Ask::Sleep { .. } => CallForm::Sleep,
            Ask::Wake { .. } => CallForm::Wake,
            Ask::Poll { .. } => CallForm::Poll,
            Ask::Rx { .. } => CallForm::Rx,
            Ask::Reap => CallForm::Reap,
            Ask::Ampdu { .. } => CallForm::Ampdu,
            Ask::Stop { .. } => CallForm::Stop,
            Ask::Start { .. } => CallForm::Start,
            Ask::Unsent { .. } => CallForm::Unsent,
            Ask::GiveUp { .. } => CallForm::GiveUp,
            Ask::Flush { .. } => CallForm::Flush,
            Ask::Offload { .. } => CallForm::Offload,
            Ask::Weight { .. } => CallForm::Weight,
            Ask::Plain { .. } => CallForm::Plain,
            Ask::Hold { .. } => CallForm::Hold,
            Ask::Begin { .. } => CallForm::Begin,
            Ask::Free { .. } => CallForm::Free,
            Ask::Cease { .. } => CallForm::Cease,
            Ask::Group(call) => call.ask.form(),
            Ask::Service(ask) => ask.form(),
            Ask::Bss { .. } => CallForm::Bss,
        }
    }

    // The values of its arguments, in order.
    fn values(self) -> ArrayVec<Value, 6>
        ensures values { result.items ≡ note_values (Asked self) }
        ensures range { IsPrintable (Asked self) → NumbersAreInRange (Asked self) }
    {
        match self {
            Ask::Join {
                station,
                window,
                start,
                exponent,
                weight,
            } => join_values(station, window, start, exponent, weight),
            Ask::Leave { station }
            | Ask::Sleep { station }
            | Ask::Wake { station }
            | Ask::Poll { station }
            | Ask::Stop { station }
            | Ask::Start { station } => listed(&[Value::Short(station)]),
            Ask::Rate { station, rate } => rate.values(station),
            Ask::Tick { by } => listed(&[Value::Long(by)]),
            Ask::Pull { class, limits } => limits.values(class),
            Ask::Arrive { exchange, index }
            | Ask::Unsent { exchange, index }
            | Ask::GiveUp { exchange, index } => transmission_values(exchange, index),
            Ask::Answer { exchange } => listed(&[Value::Exchange(exchange)]),
            Ask::Done {
                exchange,
                heard,
                air,
            } => end_values(exchange, heard, air),
            Ask::Rx {
                station,
                class,
                air,
            } => listed(&[Value::Short(station), Value::Class(class), Value::Long(air)]),
            Ask::Reap => listed(&[]),
            Ask::Ampdu { station, octets } => {
                listed(&[Value::Short(station), Value::Long(octets)])
            }
            Ask::Flush { station, tid }
            | Ask::Hold { station, tid }
            | Ask::Free { station, tid }
            | Ask::Cease { station, tid } => listed(&[Value::Short(station), Value::Octet(tid)]),
            Ask::Plain {
                station,
                start,
                exponent,
                weight,
            } => listed(&[
                Value::Short(station),
                Value::Short(start),
                Value::Octet(exponent),
                Value::Octet(weight),
            ]),
            Ask::Begin {
                station,
                tid,
                window,
            } => listed(&[
                Value::Short(station),
                Value::Octet(tid),
                Value::Short(window),
            ]),
            Ask::Offload {
                station,
                exponent,
                weight,
            } => listed(&[
                Value::Short(station),
                Value::Octet(exponent),
                Value::Octet(weight),
            ]),
            Ask::Weight { station, weight } => {
                listed(&[Value::Short(station), Value::Octet(weight)])
            }
            Ask::Group(call) => call.values(),
            Ask::Service(ask) => ask.values(),
            Ask::Bss { station, bss } => { listed(&[Value::Short(station), Value::Octet(bss)]) }
        }
    }
}

impl GroupAsk {
    // The form of its line.
    fn form(self) -> CallForm
        ensures { result ≡ form_of_group self }
    {
        match self {
            GroupAsk::Accept { .. } => CallForm::Group,
            GroupAsk::Beacon => CallForm::Beacon,
            GroupAsk::Pull => CallForm::Gpull,
            GroupAsk::Done => CallForm::Gdone,
        }
    }
}

impl GroupCall {
    // The values of its arguments, in order.
    fn values(self) -> ArrayVec<Value, 6>
        ensures values { result.items ≡ note_values (Asked (Group self)) }
        ensures range { IsPrintable (Asked (Group self)) → NumbersAreInRange (Asked (Group self)) }
    {
        let bss = Value::Octet(self.bss);
        match self.ask {
            GroupAsk::Accept { len } => listed(&[Value::Short(len), bss]),
            GroupAsk::Beacon | GroupAsk::Pull | GroupAsk::Done => listed(&[bss]),
        }
    }
}

impl ServiceAsk {
    // The form of its line.
    fn form(self) -> CallForm
        ensures { result ≡ form_of_service self }
    {
        match self {
            ServiceAsk::Set { .. } => CallForm::Apsd,
            ServiceAsk::Trigger { .. } => CallForm::Trigger,
            ServiceAsk::End { .. } => CallForm::Eosp,
        }
    }

    // The values of its arguments, in order.
    fn values(self) -> ArrayVec<Value, 6>
        ensures values { result.items ≡ values_of_service self }
        ensures range { NumbersAreInRange (Asked (Service self)) }
    {
        match self {
            ServiceAsk::Set {
                station,
                classes,
                most,
            } => listed(&[
                Value::Short(station),
                Value::Octet(classes),
                Value::Octet(most),
            ]),
            ServiceAsk::Trigger { station } | ServiceAsk::End { station } => {
                listed(&[Value::Short(station)])
            }
        }
    }
}

impl AskedRate {
    // The form of its line.
    fn form(self) -> CallForm
        ensures { result ≡ form_of_rate self }
    {
        match self {
            AskedRate::Ht { .. } => CallForm::Rate,
            AskedRate::Vht { .. } => CallForm::RateVht,
            AskedRate::He { .. } => CallForm::RateHe,
            AskedRate::Ofdm { .. } => CallForm::RateOfdm,
            AskedRate::Dsss { .. } => CallForm::RateDsss,
        }
    }

    // The values of its arguments, the station first.
    fn values(self, station: u16) -> ArrayVec<Value, 6>
        ensures values { result.items ≡ note_values (Asked (Rate station self)) }
        ensures range { NumbersAreInRange (Asked (Rate station self)) }
    {
        let station = Value::Short(station);
        match self {
            AskedRate::Ht { mcs, mhz, short } => listed(&[
                station,
                Value::Octet(mcs),
                Value::Octet(mhz),
                Value::Guard(short),
            ]),
            AskedRate::Vht {
                mcs,
                mhz,
                short,
                streams,
            } => listed(&[
                station,
                Value::Format(RateFormat::Vht),
                Value::Octet(mcs),
                Value::Octet(mhz),
                Value::Guard(short),
                Value::Octet(streams),
            ]),
            AskedRate::He {
                mcs,
                mhz,
                guard,
                streams,
            } => listed(&[
                station,
                Value::Format(RateFormat::He),
                Value::Octet(mcs),
                Value::Octet(mhz),
                Value::Short(guard),
                Value::Octet(streams),
            ]),
            AskedRate::Ofdm { mbps } => listed(&[
                station,
                Value::Format(RateFormat::Ofdm),
                Value::Octet(mbps),
            ]),
            AskedRate::Dsss { half_mbps } => listed(&[
                station,
                Value::Format(RateFormat::Dsss),
                Value::Octet(half_mbps),
            ]),
        }
    }
}

impl Limits {
    // The form of the line of a pull.
    fn form(self) -> CallForm
        ensures { result ≡ form_of_limits self.frames self.air }
    {
        match (self.frames, self.air) {
            (None, None) => CallForm::Pull,
            (Some(_), None) => CallForm::PullFrames,
            (None, Some(_)) => CallForm::PullAir,
            (Some(_), Some(_)) => CallForm::PullLimited,
        }
    }

    // The values of the arguments of a pull of this class.
    fn values(self, class: Class) -> ArrayVec<Value, 6>
        ensures values { result.items ≡ note_values (Asked (Pull class self)) }
        ensures range { IsPrintable (Asked (Pull class self)) → NumbersAreInRange (Asked (Pull class self)) }
    {
        let class = Value::Class(class);
        match (self.frames, self.air) {
            (None, None) => listed(&[class]),
            (Some(frames), None) => listed(&[class, Value::Frames, Value::Long(frames)]),
            (None, Some(air)) => listed(&[class, Value::Air, Value::Long(air)]),
            (Some(frames), Some(air)) => listed(&[
                class,
                Value::Frames,
                Value::Long(frames),
                Value::Air,
                Value::Long(air),
            ]),
        }
    }
}

// A list of these values.
fn listed(values: &[Value]) -> ArrayVec<Value, 6>
    requires { length values.now ≤ 6 }
    ensures { result.items ≡ values.now }
{
    let mut list = ArrayVec::new();
    let _all_fit = list.try_extend_from_slice(values);
    list
}

// The values of a Join.
fn join_values(
    station: u16,
    window: u16,
    start: u16,
    exponent: u8,
    weight: u8,
) -> ArrayVec<Value, 6>
    ensures { result.items ≡ note_values (Asked (Join station window start exponent weight)) }
{
    listed(&[
        Value::Short(station),
        Value::Short(window),
        Value::Short(start),
        Value::Octet(exponent),
        Value::Octet(weight),
    ])
}

// The values of a call on one transmission of an exchange.
fn transmission_values(exchange: u64, index: u16) -> ArrayVec<Value, 6>
    ensures { result.items ≡ note_values (Asked (Arrive exchange index)) }
{
    listed(&[Value::Exchange(exchange), Value::Short(index)])
}

// The values of a Done, which include its airtime if it gives one.
fn end_values(exchange: u64, heard: bool, air: Option<u32>) -> ArrayVec<Value, 6>
    ensures values { result.items ≡ note_values (Asked (Done exchange heard air)) }
    ensures range { IsPrintable (Asked (Done exchange heard air)) →
        NumbersAreInRange (Asked (Done exchange heard air)) }
{
    match air {
        None => listed(&[Value::Exchange(exchange), Value::Heard(heard)]),
        Some(air) => listed(&[
            Value::Exchange(exchange),
            Value::Heard(heard),
            Value::Air,
            Value::Long(air),
        ]),
    }
}

// The Enqueue call with these values.
fn enqueue(values: &[Value]) -> Option<Note>
    ensures { result ≡ enqueued values.now }
{
    let [
        Value::Short(station),
        Value::Octet(tid),
        Value::Long(flow),
        Value::Short(len),
    ] = values
    else {
        return None;
    };
    Some(Note::Enqueue {
        station: *station,
        tid: *tid,
        flow: *flow,
        len: *len,
    })
}

// The call without a frame that has this form and these values.
fn ask_made(form: CallForm, values: &[Value]) -> Option<Ask>
    ensures { result ≡ ask_of form values.now }
{
    match form {
        CallForm::Join => join(values),
        CallForm::Leave
        | CallForm::Sleep
        | CallForm::Wake
        | CallForm::Poll
        | CallForm::Stop
        | CallForm::Start
        | CallForm::Trigger
        | CallForm::Eosp => to_station(form, values),
        CallForm::Rate => ht(values),
        CallForm::RateVht => vht(values),
        CallForm::RateHe => he(values),
        CallForm::RateOfdm => ofdm(values),
        CallForm::RateDsss => dsss(values),
        CallForm::Tick => tick(values),
        CallForm::Enqueue => None,
        CallForm::Pull => pull(values),
        CallForm::PullFrames => pull_frames(values),
        CallForm::PullAir => pull_air(values),
        CallForm::PullLimited => pull_limited(values),
        CallForm::Arrive | CallForm::Unsent | CallForm::GiveUp => of_transmission(form, values),
        CallForm::Answer => answer(values),
        CallForm::Done => done(values),
        CallForm::DoneAir => done_air(values),
        CallForm::Rx => rx(values),
        CallForm::Ampdu => ampdu(values),
        CallForm::Flush | CallForm::Hold | CallForm::Free | CallForm::Cease => to_tid(form, values),
        CallForm::Offload => offload(values),
        CallForm::Weight => weigh(values),
        CallForm::Plain => plain(values),
        CallForm::Begin => begin(values),
        CallForm::Group => group(values),
        CallForm::Beacon | CallForm::Gpull | CallForm::Gdone => of_bss(form, values),
        CallForm::Apsd => apsd(values),
        CallForm::Reap => reap(values),
        CallForm::Bss => bss(values),
    }
}

// The call with these values whose one argument is a station.
fn to_station(form: CallForm, values: &[Value]) -> Option<Ask>
    requires { arguments_of form ≡ Station ∷ [] }
    ensures { result ≡ ask_of form values.now }
{
    let [Value::Short(station)] = *values else {
        return None;
    };
    match form {
        CallForm::Leave => Some(Ask::Leave { station }),
        CallForm::Sleep => Some(Ask::Sleep { station }),
        CallForm::Wake => Some(Ask::Wake { station }),
        CallForm::Poll => Some(Ask::Poll { station }),
        CallForm::Stop => Some(Ask::Stop { station }),
        CallForm::Start => Some(Ask::Start { station }),
        CallForm::Trigger => Some(Ask::Service(ServiceAsk::Trigger { station })),
        CallForm::Eosp => Some(Ask::Service(ServiceAsk::End { station })),
        _ => None,
    }
}

// The call with these values on a TID of a station.
fn to_tid(form: CallForm, values: &[Value]) -> Option<Ask>
    requires { arguments_of form ≡ Station ∷ Tid ∷ [] }
    ensures { result ≡ ask_of form values.now }
{
    let [Value::Short(station), Value::Octet(tid)] = *values else {
        return None;
    };
    match form {
        CallForm::Flush => Some(Ask::Flush { station, tid }),
        CallForm::Hold => Some(Ask::Hold { station, tid }),
        CallForm::Free => Some(Ask::Free { station, tid }),
        CallForm::Cease => Some(Ask::Cease { station, tid }),
        _ => None,
    }
}

// The call with these values on one transmission of an exchange.
fn of_transmission(form: CallForm, values: &[Value]) -> Option<Ask>
    requires { arguments_of form ≡ Exchange ∷ Index ∷ [] }
    ensures { result ≡ ask_of form values.now }
{
    let [Value::Exchange(exchange), Value::Short(index)] = *values else {
        return None;
    };
    match form {
        CallForm::Arrive => Some(Ask::Arrive { exchange, index }),
        CallForm::Unsent => Some(Ask::Unsent { exchange, index }),
        CallForm::GiveUp => Some(Ask::GiveUp { exchange, index }),
        _ => None,
    }
}

// A Rate call.
fn rated(station: u16, rate: AskedRate) -> Ask
    ensures { result ≡ Rate station rate }
{
    Ask::Rate { station, rate }
}

// The Join call with these values.
fn join(values: &[Value]) -> Option<Ask>
    ensures { result ≡ ask_of CallForm.Join values.now }
{
    let [
        Value::Short(station),
        Value::Short(window),
        Value::Short(start),
        Value::Octet(exponent),
        Value::Octet(weight),
    ] = values
    else {
        return None;
    };
    Some(Ask::Join {
        station: *station,
        window: *window,
        start: *start,
        exponent: *exponent,
        weight: *weight,
    })
}

// The Rate call with the values of an HT rate.
fn ht(values: &[Value]) -> Option<Ask>
    ensures { result ≡ ask_of CallForm.Rate values.now }
{
    let [
        Value::Short(station),
        Value::Octet(mcs),
        Value::Octet(mhz),
        Value::Guard(short),
    ] = values
    else {
        return None;
    };
    Some(rated(
        *station,
        AskedRate::Ht {
            mcs: *mcs,
            mhz: *mhz,
            short: *short,
        },
    ))
}

// The Rate call with the values of a VHT rate.
fn vht(values: &[Value]) -> Option<Ask>
    ensures { result ≡ ask_of CallForm.RateVht values.now }
{
    let [
        Value::Short(station),
        Value::Format(RateFormat::Vht),
        Value::Octet(mcs),
        Value::Octet(mhz),
        Value::Guard(short),
        Value::Octet(streams),
    ] = values
    else {
        return None;
    };
    Some(rated(
        *station,
        AskedRate::Vht {
            mcs: *mcs,
            mhz: *mhz,
            short: *short,
            streams: *streams,
        },
    ))
}

// The Rate call with the values of an HE rate.
fn he(values: &[Value]) -> Option<Ask>
    ensures { result ≡ ask_of CallForm.RateHe values.now }
{
    let [
        Value::Short(station),
        Value::Format(RateFormat::He),
        Value::Octet(mcs),
        Value::Octet(mhz),
        Value::Short(guard),
        Value::Octet(streams),
    ] = values
    else {
        return None;
    };
    Some(rated(
        *station,
        AskedRate::He {
            mcs: *mcs,
            mhz: *mhz,
            guard: *guard,
            streams: *streams,
        },
    ))
}

// The Rate call with the values of a rate of OFDM.
fn ofdm(values: &[Value]) -> Option<Ask>
    ensures { result ≡ ask_of CallForm.RateOfdm values.now }
{
    let [
        Value::Short(station),
        Value::Format(RateFormat::Ofdm),
        Value::Octet(mbps),
    ] = values
    else {
        return None;
    };
    Some(rated(*station, AskedRate::Ofdm { mbps: *mbps }))
}

// The Rate call with the values of a rate of DSSS.
fn dsss(values: &[Value]) -> Option<Ask>
    ensures { result ≡ ask_of CallForm.RateDsss values.now }
{
    let [
        Value::Short(station),
        Value::Format(RateFormat::Dsss),
        Value::Octet(half_mbps),
    ] = values
    else {
        return None;
    };
    Some(rated(
        *station,
        AskedRate::Dsss {
            half_mbps: *half_mbps,
        },
    ))
}

// The Pull call with these values, which include no limit.
fn pull(values: &[Value]) -> Option<Ask>
    ensures { result ≡ ask_of CallForm.Pull values.now }
{
    let [Value::Class(class)] = *values else {
        return None;
    };
    Some(Ask::Pull {
        class,
        limits: Limits::NONE,
    })
}

// The Pull call with these values, which include a limit on frames.
fn pull_frames(values: &[Value]) -> Option<Ask>
    ensures { result ≡ ask_of CallForm.PullFrames values.now }
{
    let [Value::Class(class), Value::Frames, Value::Long(frames)] = *values else {
        return None;
    };
    Some(Ask::Pull {
        class,
        limits: Limits {
            frames: Some(frames),
            air: None,
        },
    })
}

// The Pull call with these values, which include a limit on the data's airtime.
fn pull_air(values: &[Value]) -> Option<Ask>
    ensures { result ≡ ask_of CallForm.PullAir values.now }
{
    let [Value::Class(class), Value::Air, Value::Long(air)] = *values else {
        return None;
    };
    Some(Ask::Pull {
        class,
        limits: Limits {
            frames: None,
            air: Some(air),
        },
    })
}

// The Pull call with these values, which include both limits.
fn pull_limited(values: &[Value]) -> Option<Ask>
    ensures { result ≡ ask_of CallForm.PullLimited values.now }
{
    let [
        Value::Class(class),
        Value::Frames,
        Value::Long(frames),
        Value::Air,
        Value::Long(air),
    ] = *values
    else {
        return None;
    };
    Some(Ask::Pull {
        class,
        limits: Limits {
            frames: Some(frames),
            air: Some(air),
        },
    })
}

// The Tick call with these values.
fn tick(values: &[Value]) -> Option<Ask>
    ensures { result ≡ ask_of CallForm.Tick values.now }
{
    let [Value::Long(by)] = *values else {
        return None;
    };
    Some(Ask::Tick { by })
}

// The Answer call with these values.
fn answer(values: &[Value]) -> Option<Ask>
    ensures { result ≡ ask_of CallForm.Answer values.now }
{
    let [Value::Exchange(exchange)] = *values else {
        return None;
    };
    Some(Ask::Answer { exchange })
}

// The Ampdu call with these values.
fn ampdu(values: &[Value]) -> Option<Ask>
    ensures { result ≡ ask_of CallForm.Ampdu values.now }
{
    let [Value::Short(station), Value::Long(octets)] = *values else {
        return None;
    };
    Some(Ask::Ampdu { station, octets })
}

// The Offload call with these values.
fn offload(values: &[Value]) -> Option<Ask>
    ensures { result ≡ ask_of CallForm.Offload values.now }
{
    let [
        Value::Short(station),
        Value::Octet(exponent),
        Value::Octet(weight),
    ] = *values
    else {
        return None;
    };
    Some(Ask::Offload {
        station,
        exponent,
        weight,
    })
}

// The Weight call with these values.
fn weigh(values: &[Value]) -> Option<Ask>
    ensures { result ≡ ask_of CallForm.Weight values.now }
{
    let [Value::Short(station), Value::Octet(weight)] = *values else {
        return None;
    };
    Some(Ask::Weight { station, weight })
}

// The Plain call with these values.
fn plain(values: &[Value]) -> Option<Ask>
    ensures { result ≡ ask_of CallForm.Plain values.now }
{
    let [
        Value::Short(station),
        Value::Short(start),
        Value::Octet(exponent),
        Value::Octet(weight),
    ] = *values
    else {
        return None;
    };
    Some(Ask::Plain {
        station,
        start,
        exponent,
        weight,
    })
}

// The Begin call with these values.
fn begin(values: &[Value]) -> Option<Ask>
    ensures { result ≡ ask_of CallForm.Begin values.now }
{
    let [
        Value::Short(station),
        Value::Octet(tid),
        Value::Short(window),
    ] = *values
    else {
        return None;
    };
    Some(Ask::Begin {
        station,
        tid,
        window,
    })
}

// The call with these values that accepts a group frame.
fn group(values: &[Value]) -> Option<Ask>
    ensures { result ≡ ask_of CallForm.Group values.now }
{
    let [Value::Short(len), Value::Octet(bss)] = *values else {
        return None;
    };
    Some(about(bss, GroupAsk::Accept { len }))
}

// A call about the group frames of a BSS.
fn about(bss: u8, ask: GroupAsk) -> Ask
    ensures { result ≡ Group (in_bss bss ask) }
{
    Ask::Group(GroupCall { bss, ask })
}

// The call with these values whose one argument is a BSS.
fn of_bss(form: CallForm, values: &[Value]) -> Option<Ask>
    requires { arguments_of form ≡ Bss ∷ [] }
    ensures { result ≡ ask_of form values.now }
{
    let [Value::Octet(bss)] = *values else {
        return None;
    };
    match form {
        CallForm::Beacon => Some(about(bss, GroupAsk::Beacon)),
        CallForm::Gpull => Some(about(bss, GroupAsk::Pull)),
        CallForm::Gdone => Some(about(bss, GroupAsk::Done)),
        _ => None,
    }
}

// The Bss call with these values.
fn bss(values: &[Value]) -> Option<Ask>
    ensures { result ≡ ask_of CallForm.Bss values.now }
{
    let [Value::Short(station), Value::Octet(bss)] = *values else {
        return None;
    };
    Some(Ask::Bss { station, bss })
}

// The call with these values that sets the delivery-enabled classes of a station.
fn apsd(values: &[Value]) -> Option<Ask>
    ensures { result ≡ ask_of CallForm.Apsd values.now }
{
    let [
        Value::Short(station),
        Value::Octet(classes),
        Value::Octet(most),
    ] = *values
    else {
        return None;
    };
    Some(Ask::Service(ServiceAsk::Set {
        station,
        classes,
        most,
    }))
}

// The Reap call with these values.
fn reap(values: &[Value]) -> Option<Ask>
    ensures { result ≡ ask_of CallForm.Reap values.now }
{
    let [] = values else {
        return None;
    };
    Some(Ask::Reap)
}

// The Done call with these values, which include no airtime.
fn done(values: &[Value]) -> Option<Ask>
    ensures { result ≡ ask_of CallForm.Done values.now }
{
    let [Value::Exchange(exchange), Value::Heard(heard)] = *values else {
        return None;
    };
    Some(Ask::Done {
        exchange,
        heard,
        air: None,
    })
}

// The Done call with these values, which include an airtime.
fn done_air(values: &[Value]) -> Option<Ask>
    ensures { result ≡ ask_of CallForm.DoneAir values.now }
{
    let [
        Value::Exchange(exchange),
        Value::Heard(heard),
        Value::Air,
        Value::Long(measured),
    ] = *values
    else {
        return None;
    };
    Some(Ask::Done {
        exchange,
        heard,
        air: Some(measured),
    })
}

// The Rx call with these values.
fn rx(values: &[Value]) -> Option<Ask>
    ensures { result ≡ ask_of CallForm.Rx values.now }
{
    let [Value::Short(station), Value::Class(class), Value::Long(air)] = values else {
        return None;
    };
    Some(Ask::Rx {
        station: *station,
        class: *class,
        air: *air,
    })
}
