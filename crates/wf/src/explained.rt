//! Explains a fault of a trace or a script on standard error, in addition to the fault line on standard
//! output.

use crate::calls::say_call;
use crate::heads::say_head;
use crate::noted::NotedSource;
use crate::octets::say_octets;
use crate::saying::{say, say_number};
use wf_io::{Line, Source, value_of};
use wf_run::help::Command;
use wf_trace::{Fault, FaultKind, in_range, is_plain_number, next_word};

/// The greatest number of a caller.
const GREATEST_CALLER: u32 = 65_535;

const KINDS: [FaultKind; 10] = [
    FaultKind::TooBig,
    FaultKind::LongLine,
    FaultKind::NotAscii,
    FaultKind::Word,
    FaultKind::Count,
    FaultKind::Number,
    FaultKind::Range,
    FaultKind::NoHead,
    FaultKind::NoEnd,
    FaultKind::TooLong,
];

// Returns the kind of fault that has this word.
fn kind_named(word: &[u8]) -> Option<FaultKind> {
    KINDS.iter().copied().find(|kind| kind.word() == word)
}

// Parses the line `fault line N KIND`, without its octet 10.
fn fault_told(line: &[u8]) -> Option<Fault> {
    let (first, rest) = next_word(line)?;
    let (second, rest) = next_word(rest)?;
    let (number, rest) = next_word(rest)?;
    let (kind, rest) = next_word(rest)?;
    if first != b"fault".as_slice() || second != b"line".as_slice() || !rest.is_empty() {
        return None;
    }
    if !is_plain_number(number) {
        return None;
    }
    Some(Fault {
        line: value_of(number)?,
        kind: kind_named(kind)?,
    })
}

// Appends an explanation of the fault in a line that begins with this caller.
fn say_called(caller: &[u8], kind: FaultKind, line: &[u8], out: &mut Line) {
    match in_range(0, GREATEST_CALLER, caller) {
        Err(found) if found == kind => {
            say(
                &[
                    b"the caller is \"@",
                    caller,
                    b"\": expected @ and a number from 0 to 65535",
                ],
                out,
            );
        }
        _ => match next_word(line) {
            Some((b"cell", _)) => say(&[b"\"cell\" takes no caller: only calls do"], out),
            Some((b"end", _)) => say(&[b"\"end\" takes no caller: only calls do"], out),
            _ => say_call(Command::Replay, kind, line, out),
        },
    }
}

// Appends an explanation of the fault in the words of a line.
fn say_words(command: Command, kind: FaultKind, line: &[u8], out: &mut Line) {
    match (command, next_word(line)) {
        (Command::Replay, Some(([b'@', caller @ ..], rest))) => {
            say_called(caller, kind, rest, out);
        }
        (Command::Replay, Some((b"cell", rest))) => say_head(kind, rest, out),
        _ => say_call(command, kind, line, out),
    }
}

// Appends an explanation of the fault in a line.
fn say_kind(command: Command, kind: FaultKind, line: &[u8], out: &mut Line) {
    match (kind, command) {
        (FaultKind::TooBig, _) => say(
            &[b"the line does not end within the first 1099511627776 octets of the input"],
            out,
        ),
        (FaultKind::LongLine, _) => say(
            &[b"the line is too long: expected at most 160 octets"],
            out,
        ),
        (FaultKind::NotAscii, _) => say_octets(line, out),
        (FaultKind::NoHead, _) => say(
            &[b"the head is missing: expected \"cell [NAME=NUMBER ..]\" as the first line"],
            out,
        ),
        (FaultKind::NoEnd, _) => say(
            &[b"the line \"end\" is missing: expected it as the last line"],
            out,
        ),
        (FaultKind::TooLong, Command::Replay) => say(
            &[b"there are too many calls: the setting \"calls\" of the head allows no more"],
            out,
        ),
        (FaultKind::TooLong, _) => say(
            &[b"there are too many events: expected at most 65536"],
            out,
        ),
        (FaultKind::Word | FaultKind::Count | FaultKind::Number | FaultKind::Range, _) => {
            say_words(command, kind, line, out);
        }
    }
}

// Returns whether the explanation of this kind needs the faulty line.
fn is_of_words(kind: FaultKind) -> bool {
    match kind {
        FaultKind::NotAscii
        | FaultKind::Word
        | FaultKind::Count
        | FaultKind::Number
        | FaultKind::Range => true,
        _ => false,
    }
}

// Appends one line: the number of the faulty line, and an explanation of its fault. If the text
// of the faulty line is not known and is needed, it appends only the kind of the fault.
fn say_fault(command: Command, fault: Fault, line: Option<&[u8]>, out: &mut Line) {
    say(&[b"wf: line "], out);
    say_number(fault.line, out);
    say(&[b": "], out);
    match line {
        None if is_of_words(fault.kind) => say(&[fault.kind.word()], out),
        None => say_kind(command, fault.kind, &[], out),
        Some(line) => say_kind(command, fault.kind, line, out),
    }
    say(&[b"\n"], out);
}

/// Appends a line that explains the fault of a run.
///
/// `told` is the last line of the output; if it is a fault line, its number says which line of `source` to
/// explain. For a capture, which has no fault line, the appended line says to run `wf replay` on the same
/// trace. Otherwise nothing is appended.
pub fn explain<S: Source>(
    command: Option<Command>,
    told: &[u8],
    source: &mut NotedSource<S>,
    out: &mut Line,
) {
    match (command, fault_told(told)) {
        (Some(Command::Capture), _) => say(
            &[b"wf: a capture has no such line: run wf replay on the same trace to get it\n"],
            out,
        ),
        (Some(command), Some(fault)) => {
            say_fault(command, fault, source.line(fault.line), out);
        }
        _ => {}
    }
}
