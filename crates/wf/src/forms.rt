//! The forms of the lines of traces and scripts, as the help shows them, and the values that their arguments
//! may have. The forms of a trace's calls come from the table in wf_frame. checks/help compares the forms of
//! the scripts with the help.

use crate::saying::{say, say_number};
use arrayvec::ArrayVec;
use wf_frame::{CallForm, GREATEST_START, GREATEST_TICK, GREATEST_WINDOW};
use wf_io::Line;
use wf_run::help::Command;
use wf_trace::{Arg, next_word};

/// The most forms that a command has: those of a trace's 43 calls, of its head and of its end.
const MOST_FORMS: usize = 45;

/// The most arguments that a form has.
const MOST_ARGS: usize = 6;

/// The form of a trace's head.
const HEAD: &[u8] = b"cell [NAME=NUMBER ..]";

const END: &[u8] = b"end";

const SESSION: [&[u8]; 6] = [
    b"ask W START",
    b"again",
    b"to X I",
    b"close X",
    b"restart X",
    b"end",
];

const UPLINK: [&[u8]; 7] = [
    b"open S W START",
    b"plain S",
    b"rate S MCS MHZ GUARD",
    b"tick MICROSECONDS",
    b"frame HEX",
    b"bar HEX",
    b"end",
];

// Returns the forms of the lines of a trace.
fn trace_forms() -> ArrayVec<&'static [u8], MOST_FORMS> {
    let mut found = ArrayVec::new();
    let _ = found.try_push(HEAD);
    for call in CallForm::all() {
        let _ = found.try_push(call.line());
    }
    let _ = found.try_push(END);
    found
}

// Copies forms into a vector.
fn listed(forms: &[&'static [u8]]) -> ArrayVec<&'static [u8], MOST_FORMS> {
    let mut found = ArrayVec::new();
    for form in forms {
        let _ = found.try_push(*form);
    }
    found
}

/// Returns the forms of the lines that a command reads.
pub fn forms(command: Command) -> ArrayVec<&'static [u8], MOST_FORMS> {
    match command {
        Command::Session => listed(&SESSION),
        Command::Uplink => listed(&UPLINK),
        _ => trace_forms(),
    }
}

/// Returns the first word of a form.
pub fn word_of(form: &'static [u8]) -> &'static [u8] {
    match next_word(form) {
        Some((word, _)) => word,
        None => form,
    }
}

// Returns the form that has this first word and this second argument, such as the format in `rate S vht ..`.
fn form_with(command: Command, word: &[u8], second: &[u8]) -> Option<&'static [u8]> {
    for form in forms(command).iter().copied() {
        if word_of(form) == word && name_of(form, 1) == second {
            return Some(form);
        }
    }
    None
}

/// Returns the form of a line with this first word and these words after it. If several forms begin with this
/// word, it is the form with the line's format or limits, or the form with `air` if the line has that word;
/// otherwise it is the first.
pub fn form_named(command: Command, word: &[u8], rest: &[u8]) -> Option<&'static [u8]> {
    if let Some(second) = second_word(rest) {
        if let Some(form) = form_with(command, word, second) {
            return Some(with_air(form, rest));
        }
    }
    for form in forms(command).iter().copied() {
        if word_of(form) == word {
            return Some(with_air(form, rest));
        }
    }
    None
}

// Returns the form of a `done`, or of a `pull` with a limit on frames, that has an airtime, if the line has
// the word `air` there. Other forms are returned unchanged.
fn with_air(form: &'static [u8], rest: &[u8]) -> &'static [u8] {
    match third_word(rest) {
        Some(b"air") if form == CallForm::Done.line() => return CallForm::DoneAir.line(),
        _ => {}
    }
    match fourth_word(rest) {
        Some(b"air") if form == CallForm::PullFrames.line() => CallForm::PullLimited.line(),
        _ => form,
    }
}

// Returns the second word of a line.
fn second_word(line: &[u8]) -> Option<&[u8]> {
    let (_, rest) = next_word(line)?;
    let (word, _) = next_word(rest)?;
    Some(word)
}

/// Returns the third word of a line.
pub fn third_word(line: &[u8]) -> Option<&[u8]> {
    let (_, rest) = next_word(line)?;
    second_word(rest)
}

// Returns the fourth word of a line.
fn fourth_word(line: &[u8]) -> Option<&[u8]> {
    let (_, rest) = next_word(line)?;
    third_word(rest)
}

/// Returns the name of an argument of a form, by its place, counted from 0.
pub fn name_of(form: &'static [u8], place: usize) -> &'static [u8] {
    let mut rest = form;
    let mut name = form;
    for _ in 0..place.saturating_add(2).min(8) {
        match next_word(rest) {
            Some((word, behind)) => {
                name = word;
                rest = behind;
            }
            None => return b"it",
        }
    }
    match name {
        b"[WEIGHT]" => b"WEIGHT",
        b"[G]" => b"G",
        b"[B]" => b"B",
        _ => name,
    }
}

const SHORT: Arg = Arg::Number {
    low: 0,
    high: 65_535,
};

const SESSION_WINDOW: Arg = Arg::Number {
    low: 1,
    high: GREATEST_WINDOW as u32,
};

const SESSION_START: Arg = Arg::Number {
    low: 0,
    high: GREATEST_START as u32,
};

const UPLINK_MCS: Arg = Arg::Number { low: 0, high: 15 };

const UPLINK_MHZ: Arg = Arg::Number { low: 20, high: 40 };

const UPLINK_TICK: Arg = Arg::Number {
    low: 0,
    high: GREATEST_TICK,
};

fn session_args(word: &[u8]) -> &'static [Arg] {
    match word {
        b"ask" => &[SESSION_WINDOW, SESSION_START],
        b"to" => &[Arg::End, Arg::Long],
        b"close" | b"restart" => &[Arg::End],
        _ => &[],
    }
}

// No kind of argument describes the octets of a frame. The kind of `frame` and `bar` here is a placeholder,
// and `say_uplink_arg` recognizes both by their forms.
fn uplink_args(word: &[u8]) -> &'static [Arg] {
    match word {
        b"open" => &[SHORT, SHORT, SHORT],
        b"rate" => &[SHORT, UPLINK_MCS, UPLINK_MHZ, Arg::Guard],
        b"tick" => &[UPLINK_TICK],
        b"plain" => &[SHORT],
        b"frame" | b"bar" => &[Arg::Long],
        _ => &[],
    }
}

// Returns the kinds of the arguments of the call with this form.
fn trace_args(form: &'static [u8]) -> ArrayVec<Arg, MOST_ARGS> {
    let mut args = ArrayVec::new();
    for call in CallForm::all() {
        if call.line() == form {
            for argument in call.arguments() {
                let _ = args.try_push(argument.kind());
            }
        }
    }
    args
}

// Copies the kinds of arguments into a vector.
fn listed_args(listed: &[Arg]) -> ArrayVec<Arg, MOST_ARGS> {
    let mut args = ArrayVec::new();
    let _ = args.try_extend_from_slice(listed);
    args
}

/// Returns the kinds of the arguments of a form.
pub fn args(command: Command, form: &'static [u8]) -> ArrayVec<Arg, MOST_ARGS> {
    match command {
        Command::Session => listed_args(session_args(word_of(form))),
        Command::Uplink => listed_args(uplink_args(word_of(form))),
        _ => trace_args(form),
    }
}

/// Appends a range of numbers.
pub fn say_range(low: u32, high: u32, out: &mut Line) {
    say_number(u64::from(low), out);
    say(&[b" to "], out);
    say_number(u64::from(high), out);
}

/// Appends the values that a kind of argument allows.
pub fn say_wanted(arg: Arg, out: &mut Line) {
    match arg {
        Arg::Short => say(&[b"0 to 65535"], out),
        Arg::Octet | Arg::Weight | Arg::Bss => say(&[b"0 to 255"], out),
        Arg::Long | Arg::Exchange => say(&[b"0 to 4294967295"], out),
        Arg::Length => say(&[b"1 to 2304"], out),
        Arg::Class => say(&[b"bk, be, vi or vo"], out),
        Arg::Format => say(&[b"vht or he"], out),
        Arg::Guard => say(&[b"long or short"], out),
        Arg::Heard => say(&[b"heard or lost"], out),
        Arg::Air => say(&[b"air"], out),
        Arg::Frames => say(&[b"frames"], out),
        Arg::End => say(&[b"a or b"], out),
        Arg::Number { low, high } => say_range(low, high, out),
    }
}
