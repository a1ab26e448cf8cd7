//! The meaning of a line in its place.

ghost use Rattle.std.specs.Prelude.{◌≡◌, ◌∷◌};
ghost use Rattle.wf_trace.specs.Words.{words};
ghost use Rattle.wf_trace.specs.Grammar.{call_form, frames_form};
ghost use Rattle.wf_trace.specs.Meanings.{entry_of, caller_of, caller_first, meant, HasRoomForLine};

use crate::args::read_named;
use crate::fault::FaultKind;
use crate::settings::read_head;
use crate::words::{in_range, next_word};
use wf_frame::{CallForm, Config, Note, RateFormat};

/// The meaning of a line: the head, a call of a caller, or the end.
#[derive(Clone, Copy)]
pub enum Meaning {
    Head(Config),
    Entry(u32, Note),
    Finish,
}

/// The place of a line after the head: how many calls the head allows, and how many came before this line.
#[derive(Clone, Copy)]
pub struct Place {
    pub limit: u32,
    pub count: u32,
}

/// The greatest number of a caller.
pub const GREATEST_CALLER: u32 = 65_535;

// Returns the form of a rate's line, given its words after the first. The second of them may be a format.
fn rate_form(line: &[u8]) -> CallForm
    ensures { result ≡ call_form CallForm.Rate (words line.now) }
{
    let Some((_, rest)) = next_word(line) else {
        return CallForm::Rate;
    };
    let Some((format, _)) = next_word(rest) else {
        return CallForm::Rate;
    };
    match RateFormat::named(format) {
        None => CallForm::Rate,
        Some(RateFormat::Vht) => CallForm::RateVht,
        Some(RateFormat::He) => CallForm::RateHe,
        Some(RateFormat::Ofdm) => CallForm::RateOfdm,
        Some(RateFormat::Dsss) => CallForm::RateDsss,
    }
}

// Returns the form of a `pull` line that has a limit on frames, given its words after `frames`. The second of
// them may be `air`.
fn frames_form(line: &[u8]) -> CallForm
    ensures { result ≡ frames_form (words line.now) }
{
    let Some((_, rest)) = next_word(line) else {
        return CallForm::PullFrames;
    };
    let Some((word, _)) = next_word(rest) else {
        return CallForm::PullFrames;
    };
    match word {
        b"air" => CallForm::PullLimited,
        _ => CallForm::PullFrames,
    }
}

// Returns the form of a `pull` line, given its words after the first. The second of them may be `frames` or
// `air`.
fn pull_form(line: &[u8]) -> CallForm
    ensures { result ≡ call_form CallForm.Pull (words line.now) }
{
    let Some((_, rest)) = next_word(line) else {
        return CallForm::Pull;
    };
    let Some((word, rest)) = next_word(rest) else {
        return CallForm::Pull;
    };
    match word {
        b"frames" => frames_form(rest),
        b"air" => CallForm::PullAir,
        _ => CallForm::Pull,
    }
}

// Returns the form of a `done` line, given its words after the first. The third of them may be `air`.
fn done_form(line: &[u8]) -> CallForm
    ensures { result ≡ call_form CallForm.Done (words line.now) }
{
    let Some((_, rest)) = next_word(line) else {
        return CallForm::Done;
    };
    let Some((_, rest)) = next_word(rest) else {
        return CallForm::Done;
    };
    let Some((word, _)) = next_word(rest) else {
        return CallForm::Done;
    };
    match word {
        b"air" => CallForm::DoneAir,
        _ => CallForm::Done,
    }
}

// Returns the call with this caller, name and arguments, if a call is allowed in this place.
fn call(caller: u32, place: Option<Place>, name: &[u8], line: &[u8]) -> Result<Meaning, FaultKind>
    ensures says { result ≡ entry_of caller place (name.now ∷ words line.now) }
    ensures room { HasRoomForLine result place }
{
    let Some(call) = CallForm::named(name) else {
        return Err(FaultKind::Word);
    };
    let form = match call {
        CallForm::Rate => rate_form(line),
        CallForm::Pull => pull_form(line),
        CallForm::Done => done_form(line),
        _ => call,
    };
    let values = read_named(form.arguments(), line)?;
    let Some(note) = Note::of_values(form, values.as_slice()) else {
        return Err(FaultKind::Word);
    };
    let Some(place) = place else {
        return Err(FaultKind::NoHead);
    };
    if place.limit <= place.count {
        return Err(FaultKind::TooLong);
    }
    Ok(Meaning::Entry(caller, note))
}

// The same, given the words after the caller.
fn behind_caller(caller: u32, place: Option<Place>, line: &[u8]) -> Result<Meaning, FaultKind>
    ensures says { result ≡ entry_of caller place (words line.now) }
    ensures room { HasRoomForLine result place }
{
    match next_word(line) {
        Some((name, rest)) => call(caller, place, name, rest),
        None => Err(FaultKind::Word),
    }
}

// The same, given the word of the caller without its `@`, and the words after it.
fn called(caller: &[u8], place: Option<Place>, line: &[u8]) -> Result<Meaning, FaultKind>
    ensures says { result ≡ caller_first (caller_of caller.now) place (words line.now) }
    ensures room { HasRoomForLine result place }
{
    match in_range(0, GREATEST_CALLER, caller) {
        Ok(caller) => behind_caller(caller, place, line),
        Err(fault) => match behind_caller(0, place, line) {
            Ok(_) => Err(fault),
            Err(other) => Err(fault.earlier(other)),
        },
    }
}

/// Returns the meaning of a line in its place. The error is the first of its faults, in the order of the
/// kinds.
pub fn meaning_of(place: Option<Place>, line: &[u8]) -> Result<Meaning, FaultKind>
    ensures says { result ≡ meant place (words line.now) }
    ensures room { HasRoomForLine result place }
{
    let Some((word, rest)) = next_word(line) else {
        return Err(FaultKind::Word);
    };
    let Some((first, caller)) = word.split_first() else {
        return Err(FaultKind::Word);
    };
    if *first == b'@' {
        return called(caller, place, rest);
    }
    if word == b"cell".as_slice() {
        return match (place, read_head(rest)) {
            (Some(_), _) => Err(FaultKind::Word),
            (None, Ok(config)) => Ok(Meaning::Head(config)),
            (None, Err(fault)) => Err(fault),
        };
    }
    if word == b"end".as_slice() {
        return if next_word(rest).is_some() {
            Err(FaultKind::Count)
        } else if place.is_none() {
            Err(FaultKind::NoHead)
        } else {
            Ok(Meaning::Finish)
        };
    }
    call(0, place, word, rest)
}
