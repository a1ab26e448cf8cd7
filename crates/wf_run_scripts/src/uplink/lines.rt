//! Parses a line of a script.

ghost use Rattle.std.specs.Prelude.{◌≡◌, IfOk, slice_get, option_copied};
ghost use Rattle.wf_trace.specs.Notes.{guard_at};
ghost use Rattle.wf_trace.specs.Words.{words};
ghost use Rattle.wf_run_scripts.specs.UplinkLines.{IsValid, AreOpening, ArePlain, AreRate, opening_of, plain_of, rate_of, has_no_width, open_meant, plain_meant, rate_meant, tick_meant, octets_meant, frame_meant, bar_meant, meant};

use crate::uplink::event::Event;
use crate::uplink::frame::Frame;
use crate::uplink::verb::Verb;
use wf_air::time::Rate;
use wf_frame::GREATEST_TICK;
use wf_trace::{Arg, FaultKind, Value, long_at, next_word, read_all};

/// The number of a station, the size of a window, or a sequence number. The uplink checks its range.
const SHORT: Arg = Arg::Number {
    low: 0,
    high: 65_535,
};

const MCS: Arg = Arg::Number { low: 0, high: 15 };

/// The width of a channel, in MHz.
const MHZ: Arg = Arg::Number { low: 20, high: 40 };

/// The time that passes, in microseconds.
const TICK: Arg = Arg::Number {
    low: 0,
    high: GREATEST_TICK,
};

// Returns the event that opens a station, from these arguments.
fn opening(values: &[Value]) -> Event
    requires { AreOpening values.now }
    ensures { result ≡ opening_of values.now }
{
    Event::Open {
        station: long_at(values, 0) as u16,
        window: long_at(values, 1) as u16,
        start: long_at(values, 2) as u16,
    }
}

fn open_from(line: &[u8]) -> Result<Event, FaultKind>
    ensures says { result ≡ open_meant (words line.now) }
    ensures valid { IfOk result IsValid }
{
    match read_all(&[SHORT, SHORT, SHORT], line) {
        Ok(values) => Ok(opening(values.as_slice())),
        Err(kind) => Err(kind),
    }
}

// Returns the event that opens a station without agreements, from these arguments.
fn plain(values: &[Value]) -> Event
    requires { ArePlain values.now }
    ensures { result ≡ plain_of values.now }
{
    Event::Plain {
        station: long_at(values, 0) as u16,
    }
}

fn plain_from(line: &[u8]) -> Result<Event, FaultKind>
    ensures says { result ≡ plain_meant (words line.now) }
    ensures valid { IfOk result IsValid }
{
    match read_all(&[SHORT], line) {
        Ok(values) => Ok(plain(values.as_slice())),
        Err(kind) => Err(kind),
    }
}

// Returns whether the guard interval is the short one.
fn is_short(values: &[Value]) -> bool
    ensures { result ≡ guard_at values.now 3 }
{
    match values.get(3) {
        Some(Value::Guard(short)) => *short,
        _ => false,
    }
}

// Returns the event that sets a rate, from these arguments.
fn rate(values: &[Value]) -> Event
    requires { AreRate values.now }
    ensures { result ≡ rate_of values.now }
{
    let mcs = long_at(values, 1) as u8;
    let mhz = long_at(values, 2) as u8;
    let rate = Rate::ht(mcs, mhz, is_short(values)).unwrap_or(Rate::lowest());
    Event::Rate {
        station: long_at(values, 0) as u16,
        rate,
    }
}

// Returns the third word of a line.
fn third_word(line: &[u8]) -> Option<&[u8]>
    ensures { option_copied result ≡ slice_get (words line.now) 2 }
{
    let (_, rest) = next_word(line)?;
    let (_, rest) = next_word(rest)?;
    let (word, _) = next_word(rest)?;
    Some(word)
}

// Returns whether the line has a word for the channel's width that is neither `20` nor `40`.
fn is_no_width(line: &[u8]) -> bool
    ensures { result ≡ has_no_width (words line.now) }
{
    match third_word(line) {
        Some(word) => word != b"20".as_slice() && word != b"40".as_slice(),
        None => false,
    }
}

fn rate_from(line: &[u8]) -> Result<Event, FaultKind>
    ensures says { result ≡ rate_meant (words line.now) }
    ensures valid { IfOk result IsValid }
{
    if is_no_width(line) {
        return Err(FaultKind::Word);
    }
    match read_all(&[SHORT, MCS, MHZ, Arg::Guard], line) {
        Ok(values) => Ok(rate(values.as_slice())),
        Err(kind) => Err(kind),
    }
}

fn tick_from(line: &[u8]) -> Result<Event, FaultKind>
    ensures says { result ≡ tick_meant (words line.now) }
    ensures valid { IfOk result IsValid }
{
    match read_all(&[TICK], line) {
        Ok(values) => Ok(Event::Tick {
            by: long_at(values.as_slice(), 0),
        }),
        Err(kind) => Err(kind),
    }
}

// Returns the octets of a line `frame` or `bar`.
fn octets_from(line: &[u8]) -> Result<Frame, FaultKind>
    ensures { result ≡ octets_meant (words line.now) }
{
    let Some((word, rest)) = next_word(line) else {
        return Err(FaultKind::Count);
    };
    if next_word(rest).is_some() {
        return Err(FaultKind::Count);
    }
    match Frame::read(word) {
        Some(frame) => Ok(frame),
        None => Err(FaultKind::Number),
    }
}

fn frame_from(line: &[u8]) -> Result<Event, FaultKind>
    ensures says { result ≡ frame_meant (words line.now) }
    ensures valid { IfOk result IsValid }
{
    match octets_from(line) {
        Ok(frame) => Ok(Event::Frame(frame)),
        Err(kind) => Err(kind),
    }
}

fn bar_from(line: &[u8]) -> Result<Event, FaultKind>
    ensures says { result ≡ bar_meant (words line.now) }
    ensures valid { IfOk result IsValid }
{
    match octets_from(line) {
        Ok(frame) => Ok(Event::Bar(frame)),
        Err(kind) => Err(kind),
    }
}

/// Returns the event of a line, or the first fault of the line: `word` if the first word is not an event, or
/// a word argument of a rate is not allowed; `count` if the number of words is wrong; `number` if a number or
/// the octets are malformed; `range` if a number is out of its range.
pub fn event_from(line: &[u8]) -> Result<Event, FaultKind>
    ensures says { result ≡ meant (words line.now) }
    ensures valid { IfOk result IsValid }
{
    let Some((word, rest)) = next_word(line) else {
        return Err(FaultKind::Word);
    };
    match Verb::named(word) {
        Some(Verb::Open) => open_from(rest),
        Some(Verb::Plain) => plain_from(rest),
        Some(Verb::Rate) => rate_from(rest),
        Some(Verb::Tick) => tick_from(rest),
        Some(Verb::Frame) => frame_from(rest),
        Some(Verb::Bar) => bar_from(rest),
        None => Err(FaultKind::Word),
    }
}
