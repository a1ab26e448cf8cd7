//! A call of a cell, as numbers in a struct of the caller's.

ghost use Rattle.std.specs.Prelude.{◌≡◌, length, map};
ghost use Rattle.wf_frame.specs.Classes.{all_classes, class_among};
ghost use Rattle.wf_frame.specs.Calls.{arguments_of, form_number, form_of_end, form_of_limits, note_form};
ghost use Rattle.wf_c.specs.CallNumbers.{asked, blank_call, form_shown, format_number, format_shown, note_in, call_noted, numbers_of_call, form_of_class, form_of_format, form_of_length, value_in, with_argument, with_arguments, without_frame};
ghost use Rattle.wf_c.specs.Numbers.{given_number as number_given};

use crate::exchanges::given_number;
use crate::reply::number_of_class;
use arrayvec::ArrayVec;
use wf_frame::{Argument, Ask, CallForm, Class, GREATEST_BODY, Note, RateFormat, Value};

/// A call. `kind` says which call it is, and which other fields have a meaning; in an entry all others are 0.
#[repr(C)]
#[derive(Clone, Copy)]
pub struct CallNumbers {
    /// The exchange that a transmission belongs to, that is answered, or that ends.
    pub exchange: u64,
    /// The flow of a frame.
    pub flow: u32,
    /// How far the clock moves, in microseconds.
    pub by: u32,
    /// The airtime that a station used, that the end of an exchange gives, or that a pull allows, in
    /// microseconds; 0 gives none.
    pub air: u32,
    /// The most frames that a pull allows; 0 gives none.
    pub frames: u32,
    /// The most octets of an aggregate.
    pub octets: u32,
    /// The station.
    pub station: u16,
    /// The window of a join or of an agreement, in frames.
    pub window: u16,
    /// The first sequence number of a join.
    pub start: u16,
    /// The index of a transmission of the exchange, from 0 on.
    pub index: u16,
    /// The length of the body of a frame or of a group frame, in octets.
    pub length: u16,
    /// The guard interval of a rate of HE, in nanoseconds.
    pub guard: u16,
    /// The kind of call: 0 to 34.
    pub kind: u8,
    /// The TID of a frame, of a flush or of an agreement.
    pub tid: u8,
    /// The class of a pull, or of airtime that a station used: 0 to 3.
    pub class: u8,
    /// The A-MPDU length exponent of a join.
    pub exponent: u8,
    /// The weight of a station.
    pub weight: u8,
    /// The format of a rate: 0 for HT, 1 for VHT, 2 for HE, 3 for OFDM, 4 for DSSS.
    pub form: u8,
    /// The MCS of a rate.
    pub mcs: u8,
    /// The width of a rate's channel, in MHz.
    pub mhz: u8,
    /// Other than 0 for the short guard interval of HT or VHT.
    pub short: u8,
    /// The spatial streams of VHT or HE.
    pub streams: u8,
    /// Other than 0 if the BlockAck of an exchange was heard.
    pub heard: u8,
    /// The speed of a rate of OFDM in Mbit/s, or of DSSS in half Mbit/s.
    pub speed: u8,
    /// The delivery-enabled classes of a station, 0 to 15: bit c is 1 if class number c is one.
    pub classes: u8,
    /// The most frames of a service period; 0 limits nothing.
    pub most: u8,
    /// The BSS that a call about group frames is about, or that a station gets.
    pub bss: u8,
}

// All fields 0.
const BLANK: CallNumbers = CallNumbers {
    exchange: 0,
    flow: 0,
    by: 0,
    air: 0,
    frames: 0,
    octets: 0,
    station: 0,
    window: 0,
    start: 0,
    index: 0,
    length: 0,
    guard: 0,
    kind: 0,
    tid: 0,
    class: 0,
    exponent: 0,
    weight: 0,
    form: 0,
    mcs: 0,
    mhz: 0,
    short: 0,
    streams: 0,
    heard: 0,
    speed: 0,
    classes: 0,
    most: 0,
    bss: 0,
};

// The number of a format. 0 is the number of HT, which is no value of the argument.
fn number_of_format(format: RateFormat) -> u8
    ensures { result ≡ format_number format }
{
    match format {
        RateFormat::Vht => 1,
        RateFormat::He => 2,
        RateFormat::Ofdm => 3,
        RateFormat::Dsss => 4,
    }
}

// The format with this number.
fn format_of_number(number: u8) -> RateFormat
    ensures { result ≡ format_shown number }
{
    match number {
        1 => RateFormat::Vht,
        2 => RateFormat::He,
        3 => RateFormat::Ofdm,
        _ => RateFormat::Dsss,
    }
}

// The form of a rate call, by the number of its format.
fn form_of_rate(number: u8) -> Option<CallForm>
    ensures { result ≡ form_of_format number }
{
    match number {
        0 => Some(CallForm::Rate),
        1 => Some(CallForm::RateVht),
        2 => Some(CallForm::RateHe),
        3 => Some(CallForm::RateOfdm),
        4 => Some(CallForm::RateDsss),
        _ => None,
    }
}

// The form of a Done, by the airtime that it gives, if any.
fn form_of_end(air: u32) -> CallForm
    ensures { result ≡ form_of_end (number_given air) }
{
    match given_number(air) {
        None => CallForm::Done,
        Some(_) => CallForm::DoneAir,
    }
}

// The form of a Pull, by the limits that it gives, if any.
fn form_of_limits(frames: u32, air: u32) -> CallForm
    ensures { result ≡ form_of_limits (number_given frames) (number_given air) }
{
    match (given_number(frames), given_number(air)) {
        (None, None) => CallForm::Pull,
        (Some(_), None) => CallForm::PullFrames,
        (None, Some(_)) => CallForm::PullAir,
        (Some(_), Some(_)) => CallForm::PullLimited,
    }
}

// The form of a call that has a class, by the number of the class. None if the number is above 3.
fn form_of_class(form: CallForm, class: u8) -> Option<CallForm>
    ensures { result ≡ form_of_class form class }
{
    if 3 < class { None } else { Some(form) }
}

// The form of a call that brings a body, by the length of the body in octets. None if no body has this
// length.
fn form_of_length(form: CallForm, len: u16) -> Option<CallForm>
    ensures { result ≡ form_of_length form len }
{
    match len {
        1..=GREATEST_BODY => Some(form),
        _ => None,
    }
}

// The class that a field shows; a number above 3 shows the last one.
fn class_of_field(number: u8) -> Class
    ensures { result ≡ class_among all_classes number }
{
    match number {
        0 => Class::Bk,
        1 => Class::Be,
        2 => Class::Vi,
        _ => Class::Vo,
    }
}

impl CallNumbers {
    // The value of an argument that the fields show.
    fn value(&self, argument: Argument) -> Value
        ensures { result ≡ value_in self.now argument }
    {
        match argument {
            Argument::Station => Value::Short(self.station),
            Argument::Window => Value::Short(self.window),
            Argument::Start => Value::Short(self.start),
            Argument::Exponent => Value::Octet(self.exponent),
            Argument::Weight | Argument::NewWeight => Value::Octet(self.weight),
            Argument::Format => Value::Format(format_of_number(self.form)),
            Argument::Mcs => Value::Octet(self.mcs),
            Argument::Mhz => Value::Octet(self.mhz),
            Argument::Guard => Value::Guard(self.short != 0),
            Argument::Nanoseconds => Value::Short(self.guard),
            Argument::Streams => Value::Octet(self.streams),
            Argument::Speed | Argument::HalfSpeed => Value::Octet(self.speed),
            Argument::By => Value::Long(self.by),
            Argument::Tid => Value::Octet(self.tid),
            Argument::Flow => Value::Long(self.flow),
            Argument::Length => Value::Short(self.length),
            Argument::Class => Value::Class(class_of_field(self.class)),
            Argument::Exchange => Value::Exchange(self.exchange),
            Argument::Index => Value::Short(self.index),
            Argument::Heard => Value::Heard(self.heard != 0),
            Argument::Measured => Value::Air,
            Argument::Air | Argument::Allowed => Value::Long(self.air),
            Argument::Framed => Value::Frames,
            Argument::Frames => Value::Long(self.frames),
            Argument::Octets => Value::Long(self.octets),
            Argument::Classes => Value::Octet(self.classes),
            Argument::Most => Value::Octet(self.most),
            Argument::Bss | Argument::NewBss => Value::Octet(self.bss),
        }
    }

    // Writes the value of an argument to its field.
    fn show(&mut self, argument: Argument, value: Value)
        ensures { self.new ≡ with_argument self.old argument value }
    {
        match (argument, value) {
            (Argument::Station, Value::Short(number)) => self.station = number,
            (Argument::Window, Value::Short(number)) => self.window = number,
            (Argument::Start, Value::Short(number)) => self.start = number,
            (Argument::Exponent, Value::Octet(number)) => self.exponent = number,
            (Argument::Weight | Argument::NewWeight, Value::Octet(number)) => self.weight = number,
            (Argument::Format, Value::Format(format)) => self.form = number_of_format(format),
            (Argument::Mcs, Value::Octet(number)) => self.mcs = number,
            (Argument::Mhz, Value::Octet(number)) => self.mhz = number,
            (Argument::Guard, Value::Guard(short)) => self.short = u8::from(short),
            (Argument::Nanoseconds, Value::Short(number)) => self.guard = number,
            (Argument::Streams, Value::Octet(number)) => self.streams = number,
            (Argument::Speed | Argument::HalfSpeed, Value::Octet(number)) => self.speed = number,
            (Argument::By, Value::Long(number)) => self.by = number,
            (Argument::Tid, Value::Octet(number)) => self.tid = number,
            (Argument::Flow, Value::Long(number)) => self.flow = number,
            (Argument::Length, Value::Short(number)) => self.length = number,
            (Argument::Class, Value::Class(class)) => self.class = number_of_class(class),
            (Argument::Exchange, Value::Exchange(number)) => self.exchange = number,
            (Argument::Index, Value::Short(number)) => self.index = number,
            (Argument::Heard, Value::Heard(heard)) => self.heard = u8::from(heard),
            (Argument::Air | Argument::Allowed, Value::Long(number)) => self.air = number,
            (Argument::Frames, Value::Long(number)) => self.frames = number,
            (Argument::Octets, Value::Long(number)) => self.octets = number,
            (Argument::Classes, Value::Octet(number)) => self.classes = number,
            (Argument::Most, Value::Octet(number)) => self.most = number,
            (Argument::Bss | Argument::NewBss, Value::Octet(number)) => self.bss = number,
            _ => {}
        }
    }

    // The form that the fields show.
    fn form(&self) -> Option<CallForm>
        ensures { result ≡ form_shown self.now }
    {
        match CallForm::numbered(self.kind)? {
            CallForm::Rate => form_of_rate(self.form),
            CallForm::Done => Some(form_of_end(self.air)),
            CallForm::Pull => form_of_class(form_of_limits(self.frames, self.air), self.class),
            CallForm::Rx => form_of_class(CallForm::Rx, self.class),
            CallForm::Group => form_of_length(CallForm::Group, self.length),
            call => Some(call),
        }
    }

    // The values of a form's arguments that the fields show.
    fn values(&self, form: CallForm) -> ArrayVec<Value, 6>
        ensures { result.items ≡ map (value_in self.now) (arguments_of form) }
    {
        let mut values = ArrayVec::new();
        for argument in form.arguments() {
            values.push(self.value(*argument));
        }
        values
    }

    // The call of a form, with the values that the fields show.
    fn note(&self, form: CallForm) -> Option<Note>
        ensures { result ≡ note_in self.now form }
    {
        Note::of_values(form, self.values(form).as_slice())
    }

    // The call that the fields show.
    #[tactic(auto, unfolding(crate::specs::CallNumbers::call_noted))]
    pub(crate) fn call_noted(&self) -> Option<Note>
        ensures { result ≡ call_noted self.now }
    {
        let form = self.form()?;
        self.note(form)
    }

    // The call that the fields show, if it neither enqueues nor reaps a frame.
    #[tactic(auto, unfolding(crate::specs::CallNumbers::asked))]
    pub(crate) fn asked(&self) -> Option<Ask>
        ensures { result ≡ asked self.now }
    {
        without_frame(self.call_noted()?)
    }

    // The fields of a call: its arguments, and its number in the table of calls.
    pub(crate) fn of(note: Note) -> CallNumbers
        ensures fields { result ≡ numbers_of_call note }
        ensures kind { result.kind ≡ form_number (note_form note) }
    {
        let form = note.form();
        let values = note.values();
        CallNumbers {
            kind: form.number(),
            ..of_values(form.arguments(), values.as_slice())
        }
    }
}

// The call, if it neither enqueues nor reaps a frame.
fn without_frame(note: Note) -> Option<Ask>
    ensures { result ≡ without_frame note }
{
    match note {
        Note::Enqueue { .. } | Note::Asked(Ask::Reap) => None,
        Note::Asked(ask) => Some(ask),
    }
}

// The fields that show these values of arguments, with kind 0.
fn of_values(arguments: &[Argument], values: &[Value]) -> CallNumbers
    requires same { length arguments.now ≡ length values.now }
    ensures { result ≡ with_arguments blank_call arguments.now values.now }
{
    let mut numbers = BLANK;
    for i in 0..values.len() {
        numbers.show(arguments[i], values[i]);
    }
    numbers
}
