//! Explains the fault in the words of a call or an event.

use crate::forms::{args, form_named, forms, name_of, say_wanted, third_word, word_of};
use crate::saying::{say, say_number};
use crate::unknown::is_near;
use wf_io::Line;
use wf_run::help::Command;
use wf_trace::{Arg, FaultKind, next_word, read_all};

// Returns the place, the kind and the word of the first argument that has a fault of this kind.
fn first_judged<'a>(
    kind: FaultKind,
    args: &[Arg],
    line: &'a [u8],
) -> Option<(usize, Arg, &'a [u8])> {
    let mut rest = line;
    for (place, arg) in args.iter().enumerate() {
        let (word, behind) = next_word(rest)?;
        match read_all(&[*arg], word) {
            Err(found) if found == kind => return Some((place, *arg, word)),
            _ => {}
        }
        rest = behind;
    }
    None
}

// Returns how many arguments are missing, and the first word after the last argument.
fn missing<'a>(args: &[Arg], line: &'a [u8]) -> (u64, Option<&'a [u8]>) {
    let mut rest = line;
    let mut count: u64 = 0;
    for arg in args {
        match next_word(rest) {
            Some((_, behind)) => rest = behind,
            None => {
                if read_all(&[*arg], b"").is_err() {
                    count = count.saturating_add(1);
                }
            }
        }
    }
    match next_word(rest) {
        Some((word, _)) => (count, Some(word)),
        None => (count, None),
    }
}

// Appends how many words are missing, or that there are too many.
fn say_count(form: &'static [u8], args: &[Arg], line: &[u8], out: &mut Line) {
    match missing(args, line) {
        (_, Some([b'#', ..])) => say(
            &[
                b"a comment follows \"",
                form,
                b"\": move it to a separate line",
            ],
            out,
        ),
        (_, Some(word)) => say(
            &[b"\"", word, b"\": too many words; expected \"", form, b"\""],
            out,
        ),
        (1, None) => say(&[b"1 word is missing: expected \"", form, b"\""], out),
        (count, None) => {
            say_number(count, out);
            say(&[b" words are missing: expected \"", form, b"\""], out);
        }
    }
}

// Appends the name of the faulty argument, its word, and the values that are allowed.
fn say_arg(kind: FaultKind, form: &'static [u8], args: &[Arg], line: &[u8], out: &mut Line) {
    let Some((place, arg, word)) = first_judged(kind, args, line) else {
        say(&[kind.word(), b" (see wf help faults)"], out);
        return;
    };
    say(&[name_of(form, place), b" is \""], out);
    say(&[word, b"\": expected "], out);
    if kind == FaultKind::Number || kind == FaultKind::Range {
        say(&[b"a number from "], out);
    }
    say_wanted(arg, out);
    if kind == FaultKind::Number {
        say(&[b", without leading zeros"], out);
    }
}

// Appends that there is no call or event with this word, and a similar word if there is one.
fn say_unknown(command: Command, word: &[u8], out: &mut Line) {
    let (called, topic) = match command {
        Command::Session => (b"event".as_slice(), b"session".as_slice()),
        Command::Uplink => (b"event".as_slice(), b"uplink".as_slice()),
        _ => (b"call".as_slice(), b"replay".as_slice()),
    };
    say(&[b"\"", word, b"\": unknown ", called], out);
    for form in forms(command).iter().copied() {
        if is_near(word, word_of(form)) {
            say(&[b"; did you mean ", word_of(form), b"?"], out);
            return;
        }
    }
    say(&[b" (wf help ", topic, b" lists all)"], out);
}

// Appends the faulty argument of an uplink's event and the values that are allowed. The uplink command itself
// checks the octets of a frame and the width of a channel, so these two have messages here.
fn say_uplink_arg(kind: FaultKind, form: &'static [u8], args: &[Arg], line: &[u8], out: &mut Line) {
    let has_hex = form == b"frame HEX".as_slice() || form == b"bar HEX".as_slice();
    let is_hex = kind == FaultKind::Number && has_hex;
    let is_width = kind == FaultKind::Word && form == b"rate S MCS MHZ GUARD".as_slice();
    match (next_word(line), third_word(line)) {
        (Some((word, _)), _) if is_hex => say(
            &[
                b"HEX is \"",
                word,
                b"\": expected 2 to 100 digits 0-9 and a-f, an even number of them",
            ],
            out,
        ),
        (_, Some(word)) if is_width && word != b"20".as_slice() && word != b"40".as_slice() => {
            say(&[b"MHZ is \"", word, b"\": expected 20 or 40"], out)
        }
        _ => say_arg(kind, form, args, line, out),
    }
}

/// Appends an explanation of the fault in a line that should be a call or an event.
pub fn say_call(command: Command, kind: FaultKind, line: &[u8], out: &mut Line) {
    let Some((word, rest)) = next_word(line) else {
        say(
            &[b"the call is missing: expected one after the caller"],
            out,
        );
        return;
    };
    let Some(form) = form_named(command, word, rest) else {
        say_unknown(command, word, out);
        return;
    };
    let args = args(command, form);
    match (kind, command) {
        (FaultKind::Count, _) => say_count(form, args.as_slice(), rest, out),
        (_, Command::Uplink) => say_uplink_arg(kind, form, args.as_slice(), rest, out),
        _ => say_arg(kind, form, args.as_slice(), rest, out),
    }
}
