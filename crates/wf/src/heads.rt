//! Explains the fault in a trace's head.

use crate::forms::say_range;
use crate::saying::say;
use crate::unknown::is_near;
use wf_frame::Field;
use wf_io::Line;
use wf_trace::{FaultKind, in_range, next_word, parts_of};

/// The most words of a line, since it has at most 160 octets.
const MOST_WORDS: usize = 81;

// Returns whether one of the words sets the setting with this name.
fn is_set(name: &[u8], line: &[u8]) -> bool {
    let mut rest = line;
    for _ in 0..MOST_WORDS {
        let Some((word, behind)) = next_word(rest) else {
            return false;
        };
        if let Some((other, _)) = parts_of(word) {
            if other == name {
                return true;
            }
        }
        rest = behind;
    }
    false
}

// Appends that there is no setting with this name, and a similar name if there is one.
fn say_unknown(name: &[u8], out: &mut Line) {
    say(&[b"unknown setting"], out);
    for field in Field::all() {
        if is_near(name, field.word()) {
            say(&[b"; did you mean ", field.word(), b"?"], out);
            return;
        }
    }
    say(&[b" (wf help replay lists all)"], out);
}

// Appends an explanation of the fault in a word, if it has one of this kind, and returns whether it has.
// `behind` holds the words after it.
fn say_setting(kind: FaultKind, word: &[u8], behind: &[u8], out: &mut Line) -> bool {
    let Some((name, value)) = parts_of(word) else {
        if kind == FaultKind::Word {
            say(&[b"\"", word, b"\": expected a setting NAME=NUMBER"], out);
        }
        return kind == FaultKind::Word;
    };
    let Some(field) = Field::named(name) else {
        if kind == FaultKind::Word {
            say(&[b"\"", word, b"\": "], out);
            say_unknown(name, out);
        }
        return kind == FaultKind::Word;
    };
    if kind == FaultKind::Word {
        if is_set(name, behind) {
            say(&[b"\"", word, b"\": ", name, b" is set twice"], out);
            return true;
        }
        return false;
    }
    say_value(kind, word, field, value, out)
}

// Appends an explanation of the fault in the value of a setting, if it has one of this kind, and returns
// whether it has.
fn say_value(kind: FaultKind, word: &[u8], field: Field, value: &[u8], out: &mut Line) -> bool {
    match in_range(field.least(), field.most(), value) {
        Err(FaultKind::Range) if kind == FaultKind::Range => {
            say(&[b"\"", word, b"\": "], out);
            say(&[b"expected a number from "], out);
            say_range(field.least(), field.most(), out);
            true
        }
        Err(FaultKind::Number) if kind == FaultKind::Number => {
            say(&[b"\"", word, b"\": "], out);
            say(&[b"expected a number from "], out);
            say_range(field.least(), field.most(), out);
            say(&[b", without leading zeros"], out);
            true
        }
        _ => false,
    }
}

/// Appends an explanation of the fault in a head. `line` holds the words after `cell`.
pub fn say_head(kind: FaultKind, line: &[u8], out: &mut Line) {
    let mut rest = line;
    for _ in 0..MOST_WORDS {
        let Some((word, behind)) = next_word(rest) else {
            break;
        };
        if say_setting(kind, word, behind, out) {
            return;
        }
        rest = behind;
    }
    say(
        &[b"\"cell\": unexpected second head; a trace has one, its first line"],
        out,
    );
}
