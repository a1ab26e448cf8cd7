//! The table of calls: the number of each form's call, its word and its line; the arguments of each form;
//! and the values that an argument may have.

ghost use Rattle.std.specs.Prelude.{◌≡◌, ◌<◌, ◌≤◌, length};
ghost use Rattle.wf_frame.specs.Calls.{IsOfAgreement, IsOfGroup, IsOfService, form_number, call_word, form_line, forms, call_named, call_numbered, arguments_of, argument_kind, default_of, format_word as word_of_format, format_named};

use crate::Class;

/// The greatest number of frames that a line gives to a pull as its limit.
const GREATEST_FRAMES: u32 = 65_535;

/// No row of the table.
const NO_ROW: (u8, &[u8], &[u8]) = (0, b"", b"");

/// A form of a call's line. A rate has five forms, one for each format, a pull has four, by the limits that
/// it gives, and the end of an exchange has two; each other call has one. The comment of each variant is its
/// sentence in the table of docs/TRACE.md. Names in capitals stand in the line.
#[derive(Clone, Copy)]
pub enum CallForm {
    /// A station joins: S, its window W, its first sequence number START, its A-MPDU length exponent X, and
    /// its weight, which is 1 if it is left out.
    Join,
    /// A station leaves.
    Leave,
    /// From now on data to the station is sent at this HT rate.
    Rate,
    /// From now on data to the station is sent at this VHT rate with N streams.
    RateVht,
    /// From now on data to the station is sent at this HE rate with N streams; GUARD is in nanoseconds.
    RateHe,
    /// From now on data to the station is sent with OFDM at MBIT Mbit/s, one frame at a time.
    RateOfdm,
    /// From now on data to the station is sent with DSSS at HALF_MBIT half Mbit/s, one frame at a time.
    RateDsss,
    /// The clock moves on.
    Tick,
    /// A frame for a station is enqueued; LENGTH is the length of its body in octets.
    Enqueue,
    /// The driver asks for the next exchange of a class.
    Pull,
    /// The same, with at most N frames.
    PullFrames,
    /// The same, with data of at most this airtime.
    PullAir,
    /// The same, with both limits.
    PullLimited,
    /// One transmission of an exchange reached its station; INDEX counts from 0.
    Arrive,
    /// The station answers an exchange with a BlockAck.
    Answer,
    /// An exchange ends, with its answer heard or lost.
    Done,
    /// The same, and the exchange took this airtime.
    DoneAir,
    /// A station goes to sleep.
    Sleep,
    /// A station wakes.
    Wake,
    /// A sleeping station asks for one frame.
    Poll,
    /// A station used airtime to send in a class.
    Rx,
    /// The caller takes the next finished frame.
    Reap,
    /// A station takes VHT and HE aggregates of at most OCTETS until it leaves.
    Ampdu,
    /// No pull picks the station from now on.
    Stop,
    /// Pulls may pick the station again.
    Start,
    /// A transmission never went on the air; INDEX counts from 0.
    Unsent,
    /// The device will not try a transmission again; INDEX counts from 0.
    GiveUp,
    /// The frames of a TID that are not on the air are dropped.
    Flush,
    /// A station joins whose device numbers, aggregates and repeats its frames: S, its A-MPDU length exponent
    /// X, and its weight G (1 if it is left out).
    Offload,
    /// A station has the weight G from now on.
    Weight,
    /// A station joins without agreements: S, its first number START, its A-MPDU length exponent X, and its
    /// weight G (1 if it is left out).
    Plain,
    /// No frame of a TID gets a number from now on.
    Hold,
    /// A held TID has an agreement with the window W from now on.
    Begin,
    /// A held TID sends its frames one at a time from now on.
    Free,
    /// The agreement of a TID ends, and the TID is held.
    Cease,
    /// A frame for a group of stations of the BSS B (0 if it is left out) is accepted; LENGTH is the length
    /// of its body in octets.
    Group,
    /// A beacon of the BSS B (0 if it is left out) goes out.
    Beacon,
    /// The driver asks for the next group frame of the BSS B (0 if it is left out).
    Gpull,
    /// The transmission of a group frame of the BSS B (0 if it is left out) ended.
    Gdone,
    /// The station has these delivery-enabled classes from now on: CLASSES is the sum of 1 for bk, 2 for be,
    /// 4 for vi and 8 for vo; MAX is the most frames of a service period, 0 for no limit.
    Apsd,
    /// A sleeping station begins a service period by a trigger frame.
    Trigger,
    /// The device ended a service period by a frame without data.
    Eosp,
    /// A station is of the BSS B from now on.
    Bss,
}

/// The format of a rate, if its line has a word for it. A rate of HT has none.
#[derive(Clone, Copy)]
pub enum RateFormat {
    Vht,
    He,
    Ofdm,
    Dsss,
}

/// An argument of a call.
#[derive(Clone, Copy)]
pub enum Argument {
    /// The number of a station.
    Station,
    /// The window of a station that joins, in frames.
    Window,
    /// The first sequence number of a station that joins.
    Start,
    /// The A-MPDU length exponent of a station that joins.
    Exponent,
    /// The weight of a station that joins.
    Weight,
    /// The weight that a station gets.
    NewWeight,
    /// The format of a rate that is not of HT.
    Format,
    /// The modulation and coding scheme.
    Mcs,
    /// The width of the channel, in MHz.
    Mhz,
    /// The guard interval of HT or VHT: the long or the short one.
    Guard,
    /// The guard interval of HE, in nanoseconds.
    Nanoseconds,
    /// The spatial streams of VHT or HE.
    Streams,
    /// The speed of OFDM in Mbit/s.
    Speed,
    /// The speed of DSSS in half Mbit/s.
    HalfSpeed,
    /// The number of microseconds by which the clock moves.
    By,
    /// The TID of a frame.
    Tid,
    /// The flow of a frame.
    Flow,
    /// The length of a frame's body, in octets.
    Length,
    /// An access class.
    Class,
    /// The number of an exchange.
    Exchange,
    /// The index of a transmission, counted from 0.
    Index,
    /// Whether the answer to an exchange was heard.
    Heard,
    /// The word before the airtime that the end of an exchange gives, or that a pull allows.
    Measured,
    /// An airtime, in microseconds.
    Air,
    /// The word before the number of frames that a pull allows.
    Framed,
    /// The most frames that a pull allows.
    Frames,
    /// The most microseconds that a pull allows for the data of an exchange.
    Allowed,
    /// The most octets of an aggregate.
    Octets,
    /// The delivery-enabled classes of a station.
    Classes,
    /// The most frames of a service period.
    Most,
    /// The BSS of group frames.
    Bss,
    /// The BSS that a station gets.
    NewBss,
}

/// The kind of an argument: which values it may have.
#[derive(Clone, Copy)]
pub enum Arg {
    /// A number 0 to 65535.
    Short,
    /// A number 0 to 255.
    Octet,
    /// A number 0 to 4294967295.
    Long,
    /// The number of an exchange, of which a line names 0 to 4294967295.
    Exchange,
    /// The length of a frame: 1 to 2304 octets.
    Length,
    /// A weight, 0 to 255, which is 1 if it is left out.
    Weight,
    /// A BSS, 0 to 255, which is 0 if it is left out.
    Bss,
    /// `bk`, `be`, `vi` or `vo`.
    Class,
    /// `vht`, `he`, `ofdm` or `dsss`.
    Format,
    /// `long` or `short`.
    Guard,
    /// `heard` or `lost`.
    Heard,
    /// `air`.
    Air,
    /// `frames`.
    Frames,
    /// A number from low to high.
    Number { low: u32, high: u32 },
    /// `a` or `b`: an end of an agreement, the originator or the recipient.
    End,
}

/// The value of an argument.
#[derive(Clone, Copy)]
pub enum Value {
    Short(u16),
    Octet(u8),
    Long(u32),
    /// The number of an exchange.
    Exchange(u64),
    Class(Class),
    Format(RateFormat),
    /// Whether the guard interval is the short one.
    Guard(bool),
    /// Whether the answer was heard.
    Heard(bool),
    /// The word before an airtime.
    Air,
    /// The word before a number of frames.
    Frames,
    /// Whether the end is the recipient.
    End(bool),
}

impl Default for Arg {
    fn default() -> Self {
        Arg::Short
    }
}

impl Default for Value {
    fn default() -> Self {
        Value::Octet(0)
    }
}

const CALLS: [CallForm; 35] = [
    CallForm::Join,
    CallForm::Leave,
    CallForm::Rate,
    CallForm::Tick,
    CallForm::Enqueue,
    CallForm::Pull,
    CallForm::Arrive,
    CallForm::Answer,
    CallForm::Done,
    CallForm::Sleep,
    CallForm::Wake,
    CallForm::Poll,
    CallForm::Rx,
    CallForm::Reap,
    CallForm::Ampdu,
    CallForm::Stop,
    CallForm::Start,
    CallForm::Unsent,
    CallForm::GiveUp,
    CallForm::Flush,
    CallForm::Offload,
    CallForm::Weight,
    CallForm::Plain,
    CallForm::Hold,
    CallForm::Begin,
    CallForm::Free,
    CallForm::Cease,
    CallForm::Group,
    CallForm::Beacon,
    CallForm::Gpull,
    CallForm::Gdone,
    CallForm::Apsd,
    CallForm::Trigger,
    CallForm::Eosp,
    CallForm::Bss,
];

const FORMS: [CallForm; 43] = [
    CallForm::Join,
    CallForm::Leave,
    CallForm::Rate,
    CallForm::RateVht,
    CallForm::RateHe,
    CallForm::RateOfdm,
    CallForm::RateDsss,
    CallForm::Tick,
    CallForm::Enqueue,
    CallForm::Pull,
    CallForm::PullFrames,
    CallForm::PullAir,
    CallForm::PullLimited,
    CallForm::Arrive,
    CallForm::Answer,
    CallForm::Done,
    CallForm::DoneAir,
    CallForm::Sleep,
    CallForm::Wake,
    CallForm::Poll,
    CallForm::Rx,
    CallForm::Reap,
    CallForm::Ampdu,
    CallForm::Stop,
    CallForm::Start,
    CallForm::Unsent,
    CallForm::GiveUp,
    CallForm::Flush,
    CallForm::Offload,
    CallForm::Weight,
    CallForm::Plain,
    CallForm::Hold,
    CallForm::Begin,
    CallForm::Free,
    CallForm::Cease,
    CallForm::Group,
    CallForm::Beacon,
    CallForm::Gpull,
    CallForm::Gdone,
    CallForm::Apsd,
    CallForm::Trigger,
    CallForm::Eosp,
    CallForm::Bss,
];

impl RateFormat {
    /// Returns the word of the format.
    pub fn word(self) -> &'static [u8]
        ensures word { result.now ≡ word_of_format self }
        ensures short { length result.now ≤ 4 }
    {
        match self {
            RateFormat::Vht => b"vht",
            RateFormat::He => b"he",
            RateFormat::Ofdm => b"ofdm",
            RateFormat::Dsss => b"dsss",
        }
    }

    /// Returns the format with this word, or `None` if there is none.
    pub fn named(word: &[u8]) -> Option<RateFormat>
        ensures { result ≡ format_named word.now }
    {
        match word {
            b"vht" => Some(RateFormat::Vht),
            b"he" => Some(RateFormat::He),
            b"ofdm" => Some(RateFormat::Ofdm),
            b"dsss" => Some(RateFormat::Dsss),
            _ => None,
        }
    }
}

impl CallForm {
    // The row of the table: the number, the word, and the line with names for its arguments.
    fn row(self) -> (u8, &'static [u8], &'static [u8])
        ensures number { result.0 ≡ form_number self }
        ensures word { result.1.now ≡ call_word self }
        ensures line { result.2.now ≡ form_line self }
        ensures range { result.0 < 35 }
        ensures short { length result.1.now ≤ 7 }
    {
        match self {
            CallForm::Join => (0, b"join", b"join S W START X [WEIGHT]"),
            CallForm::Leave => (1, b"leave", b"leave S"),
            CallForm::Rate => (2, b"rate", b"rate S MCS MHZ GUARD"),
            CallForm::RateVht => (2, b"rate", b"rate S vht MCS MHZ GUARD N"),
            CallForm::RateHe => (2, b"rate", b"rate S he MCS MHZ GUARD N"),
            CallForm::RateOfdm => (2, b"rate", b"rate S ofdm MBIT"),
            CallForm::RateDsss => (2, b"rate", b"rate S dsss HALF_MBIT"),
            CallForm::Tick => (3, b"tick", b"tick MICROSECONDS"),
            CallForm::Enqueue => (4, b"enq", b"enq S TID FLOW LENGTH"),
            CallForm::Pull | CallForm::PullFrames | CallForm::PullAir | CallForm::PullLimited =>
                self.pull_row(),
            CallForm::Arrive => (6, b"arrive", b"arrive EXCHANGE INDEX"),
            CallForm::Answer => (7, b"answer", b"answer EXCHANGE"),
            CallForm::Done => (8, b"done", b"done EXCHANGE HEARD"),
            CallForm::DoneAir => (8, b"done", b"done EXCHANGE HEARD air MICROSECONDS"),
            CallForm::Sleep => (9, b"sleep", b"sleep S"),
            CallForm::Wake => (10, b"wake", b"wake S"),
            CallForm::Poll => (11, b"poll", b"poll S"),
            CallForm::Rx => (12, b"rx", b"rx S CLASS MICROSECONDS"),
            CallForm::Reap => (13, b"reap", b"reap"),
            CallForm::Ampdu => (14, b"ampdu", b"ampdu S OCTETS"),
            CallForm::Stop => (15, b"stop", b"stop S"),
            CallForm::Start => (16, b"start", b"start S"),
            CallForm::Unsent => (17, b"unsent", b"unsent EXCHANGE INDEX"),
            CallForm::GiveUp => (18, b"giveup", b"giveup EXCHANGE INDEX"),
            CallForm::Flush => (19, b"flush", b"flush S TID"),
            CallForm::Offload => (20, b"offload", b"offload S X [G]"),
            CallForm::Weight => (21, b"weight", b"weight S G"),
            CallForm::Plain => (22, b"plain", b"plain S START X [G]"),
            CallForm::Hold | CallForm::Begin | CallForm::Free | CallForm::Cease => {
                self.agreement_row()
            }
            CallForm::Group
            | CallForm::Beacon
            | CallForm::Gpull
            | CallForm::Gdone
            | CallForm::Bss => self.group_row(),
            CallForm::Apsd | CallForm::Trigger | CallForm::Eosp => self.service_row(),
        }
    }

    // The rows of a pull.
    fn pull_row(self) -> (u8, &'static [u8], &'static [u8])
        requires { form_number self ≡ 5 }
        ensures number { result.0 ≡ form_number self }
        ensures word { result.1.now ≡ call_word self }
        ensures line { result.2.now ≡ form_line self }
        ensures range { result.0 < 35 }
        ensures short { length result.1.now ≤ 7 }
    {
        match self {
            CallForm::Pull => (5, b"pull", b"pull CLASS"),
            CallForm::PullFrames => (5, b"pull", b"pull CLASS frames N"),
            CallForm::PullAir => (5, b"pull", b"pull CLASS air MICROSECONDS"),
            CallForm::PullLimited => (5, b"pull", b"pull CLASS frames N air MICROSECONDS"),
            _ => NO_ROW,
        }
    }

    // The rows of the calls about agreements.
    fn agreement_row(self) -> (u8, &'static [u8], &'static [u8])
        requires { IsOfAgreement self }
        ensures number { result.0 ≡ form_number self }
        ensures word { result.1.now ≡ call_word self }
        ensures line { result.2.now ≡ form_line self }
        ensures range { result.0 < 35 }
        ensures short { length result.1.now ≤ 7 }
    {
        match self {
            CallForm::Hold => (23, b"hold", b"hold S TID"),
            CallForm::Begin => (24, b"begin", b"begin S TID W"),
            CallForm::Free => (25, b"free", b"free S TID"),
            CallForm::Cease => (26, b"cease", b"cease S TID"),
            _ => NO_ROW,
        }
    }

    // The rows of the calls about a BSS.
    fn group_row(self) -> (u8, &'static [u8], &'static [u8])
        requires { IsOfGroup self }
        ensures number { result.0 ≡ form_number self }
        ensures word { result.1.now ≡ call_word self }
        ensures line { result.2.now ≡ form_line self }
        ensures range { result.0 < 35 }
        ensures short { length result.1.now ≤ 7 }
    {
        match self {
            CallForm::Group => (27, b"group", b"group LENGTH [B]"),
            CallForm::Beacon => (28, b"beacon", b"beacon [B]"),
            CallForm::Gpull => (29, b"gpull", b"gpull [B]"),
            CallForm::Gdone => (30, b"gdone", b"gdone [B]"),
            CallForm::Bss => (34, b"bss", b"bss S B"),
            _ => NO_ROW,
        }
    }

    // The rows of the calls about service periods.
    fn service_row(self) -> (u8, &'static [u8], &'static [u8])
        requires { IsOfService self }
        ensures number { result.0 ≡ form_number self }
        ensures word { result.1.now ≡ call_word self }
        ensures line { result.2.now ≡ form_line self }
        ensures range { result.0 < 35 }
        ensures short { length result.1.now ≤ 7 }
    {
        match self {
            CallForm::Apsd => (31, b"apsd", b"apsd S CLASSES MAX"),
            CallForm::Trigger => (32, b"trigger", b"trigger S"),
            CallForm::Eosp => (33, b"eosp", b"eosp S"),
            _ => NO_ROW,
        }
    }

    /// Returns all forms, in the order of the help.
    pub fn all() -> [CallForm; 43]
        ensures { result ≡ forms }
    {
        FORMS
    }

    /// Returns the number of its call in C: 0 to 34.
    pub fn number(self) -> u8
        ensures number { result ≡ form_number self }
        ensures range { result < 35 }
    {
        self.row().0
    }

    /// Returns the first form of the call with this number, or `None` if there is none.
    pub fn numbered(number: u8) -> Option<CallForm>
        ensures { result ≡ call_numbered number }
    {
        CALLS.iter().copied().find(|call| call.number() == number)
    }

    /// Returns the word that its line begins with.
    pub fn word(self) -> &'static [u8]
        ensures word { result.now ≡ call_word self }
        ensures short { length result.now ≤ 7 }
    {
        self.row().1
    }

    /// Returns its line with names for its arguments, as help shows it: `join S W START X [WEIGHT]`.
    pub fn line(self) -> &'static [u8]
        ensures { result.now ≡ form_line self }
    {
        self.row().2
    }

    /// Returns the first form of the call with this word, or `None` if there is none.
    pub fn named(word: &[u8]) -> Option<CallForm>
        ensures { result ≡ call_named word.now }
    {
        CALLS.iter().copied().find(|call| call.word() == word)
    }

    /// Returns its arguments, in order; at most 6.
    pub fn arguments(self) -> &'static [Argument]
        ensures arguments { result.now ≡ arguments_of self }
        ensures most { length result.now ≤ 6 }
    {
        match self {
            CallForm::Join => &[
                Argument::Station,
                Argument::Window,
                Argument::Start,
                Argument::Exponent,
                Argument::Weight,
            ],
            CallForm::Rate
            | CallForm::RateVht
            | CallForm::RateHe
            | CallForm::RateOfdm
            | CallForm::RateDsss => self.rate_arguments(),
            CallForm::Tick => &[Argument::By],
            CallForm::Enqueue => &[
                Argument::Station,
                Argument::Tid,
                Argument::Flow,
                Argument::Length,
            ],
            CallForm::Pull | CallForm::PullFrames | CallForm::PullAir | CallForm::PullLimited =>
                self.pull_arguments(),
            CallForm::Arrive | CallForm::Unsent | CallForm::GiveUp => {
                &[Argument::Exchange, Argument::Index]
            }
            CallForm::Answer => &[Argument::Exchange],
            CallForm::Done => &[Argument::Exchange, Argument::Heard],
            CallForm::DoneAir => &[
                Argument::Exchange,
                Argument::Heard,
                Argument::Measured,
                Argument::Air,
            ],
            CallForm::Leave
            | CallForm::Sleep
            | CallForm::Wake
            | CallForm::Poll
            | CallForm::Stop
            | CallForm::Start
            | CallForm::Trigger
            | CallForm::Eosp => &[Argument::Station],
            CallForm::Apsd => &[Argument::Station, Argument::Classes, Argument::Most],
            CallForm::Rx => &[Argument::Station, Argument::Class, Argument::Air],
            CallForm::Reap => &[],
            CallForm::Group => &[Argument::Length, Argument::Bss],
            CallForm::Beacon | CallForm::Gpull | CallForm::Gdone => &[Argument::Bss],
            CallForm::Bss => &[Argument::Station, Argument::NewBss],
            CallForm::Ampdu => &[Argument::Station, Argument::Octets],
            CallForm::Flush | CallForm::Hold | CallForm::Free | CallForm::Cease => {
                &[Argument::Station, Argument::Tid]
            }
            CallForm::Plain => &[
                Argument::Station,
                Argument::Start,
                Argument::Exponent,
                Argument::Weight,
            ],
            CallForm::Begin => &[Argument::Station, Argument::Tid, Argument::Window],
            CallForm::Offload => &[Argument::Station, Argument::Exponent, Argument::Weight],
            CallForm::Weight => &[Argument::Station, Argument::NewWeight],
        }
    }

    // The arguments of a pull.
    fn pull_arguments(self) -> &'static [Argument]
        requires { form_number self ≡ 5 }
        ensures arguments { result.now ≡ arguments_of self }
        ensures most { length result.now ≤ 6 }
    {
        match self {
            CallForm::PullFrames => &[Argument::Class, Argument::Framed, Argument::Frames],
            CallForm::PullAir => &[Argument::Class, Argument::Measured, Argument::Allowed],
            CallForm::PullLimited => &[
                Argument::Class,
                Argument::Framed,
                Argument::Frames,
                Argument::Measured,
                Argument::Allowed,
            ],
            _ => &[Argument::Class],
        }
    }

    // The arguments of a rate.
    fn rate_arguments(self) -> &'static [Argument]
        requires { form_number self ≡ 2 }
        ensures arguments { result.now ≡ arguments_of self }
        ensures most { length result.now ≤ 6 }
    {
        match self {
            CallForm::RateVht => &[
                Argument::Station,
                Argument::Format,
                Argument::Mcs,
                Argument::Mhz,
                Argument::Guard,
                Argument::Streams,
            ],
            CallForm::RateHe => &[
                Argument::Station,
                Argument::Format,
                Argument::Mcs,
                Argument::Mhz,
                Argument::Nanoseconds,
                Argument::Streams,
            ],
            CallForm::RateOfdm => &[Argument::Station, Argument::Format, Argument::Speed],
            CallForm::RateDsss => &[Argument::Station, Argument::Format, Argument::HalfSpeed],
            _ => &[
                Argument::Station,
                Argument::Mcs,
                Argument::Mhz,
                Argument::Guard,
            ],
        }
    }
}

impl Argument {
    /// Returns its kind.
    pub fn kind(self) -> Arg
        ensures { result ≡ argument_kind self }
    {
        match self {
            Argument::Station
            | Argument::Window
            | Argument::Start
            | Argument::Index
            | Argument::Nanoseconds => Arg::Short,
            Argument::Exponent
            | Argument::Mcs
            | Argument::Mhz
            | Argument::Streams
            | Argument::Speed
            | Argument::HalfSpeed
            | Argument::NewWeight
            | Argument::Tid
            | Argument::Classes
            | Argument::Most
            | Argument::NewBss => Arg::Octet,
            Argument::By | Argument::Flow | Argument::Air | Argument::Octets => Arg::Long,
            Argument::Exchange => Arg::Exchange,
            Argument::Weight => Arg::Weight,
            Argument::Bss => Arg::Bss,
            Argument::Length => Arg::Length,
            Argument::Class => Arg::Class,
            Argument::Format => Arg::Format,
            Argument::Guard => Arg::Guard,
            Argument::Heard => Arg::Heard,
            Argument::Measured => Arg::Air,
            Argument::Framed => Arg::Frames,
            Argument::Frames => Arg::Number {
                low: 1,
                high: GREATEST_FRAMES,
            },
            Argument::Allowed => Arg::Number {
                low: 1,
                high: u32::MAX,
            },
        }
    }
}

impl Arg {
    /// Returns the value that it has if it is left out, or `None` if it may not be left out.
    pub fn default_value(self) -> Option<Value>
        ensures { result ≡ default_of self }
    {
        match self {
            Arg::Weight => Some(Value::Octet(1)),
            Arg::Bss => Some(Value::Octet(0)),
            _ => None,
        }
    }
}
