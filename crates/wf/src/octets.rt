//! Explains which octet of a line is not printable ASCII.

use crate::saying::{say, say_number};
use wf_io::Line;

const EXPECTED: &[u8] = b"expected only printable ASCII characters";

// Returns whether an octet is a printable ASCII character other than space.
fn is_letter(octet: u8) -> bool {
    32 < octet && octet <= 126
}

// Returns the part of the line that begins at its first octet that is not printable ASCII.
fn from_flaw(line: &[u8]) -> &[u8] {
    for (i, octet) in line.iter().enumerate() {
        if !is_letter(*octet) && *octet != b' ' {
            let (_, rest) = line.split_at(i);
            return rest;
        }
    }
    &[]
}

// Returns the first word of printable characters.
fn word_in(line: &[u8]) -> &[u8] {
    for (i, octet) in line.iter().enumerate() {
        if is_letter(*octet) {
            let (_, rest) = line.split_at(i);
            return letters_of(rest);
        }
    }
    &[]
}

// Returns the printable characters at the front of a line, up to the first other octet.
fn letters_of(line: &[u8]) -> &[u8] {
    for (i, octet) in line.iter().enumerate() {
        if !is_letter(*octet) {
            let (word, _) = line.split_at(i);
            return word;
        }
    }
    line
}

// Appends the name or the number of an octet.
fn say_octet(octet: u8, out: &mut Line) {
    match octet {
        9 => say(&[b"a tab (octet 9)"], out),
        13 => say(&[b"a carriage return (octet 13)"], out),
        _ => {
            say(&[b"the octet "], out);
            say_number(u64::from(octet), out);
        }
    }
}

/// Appends which octet of a line is not printable ASCII, and its place.
pub fn say_octets(line: &[u8], out: &mut Line) {
    let [octet, rest @ ..] = from_flaw(line) else {
        say(&[b"not-ascii (see wf help faults)"], out);
        return;
    };
    say_octet(*octet, out);
    match (*octet, word_in(rest)) {
        (13, []) => say(
            &[b" ends the line: convert a text from Windows with dos2unix"],
            out,
        ),
        (_, []) => say(&[b" ends the line: ", EXPECTED], out),
        (_, word) => say(&[b" is before \"", word, b"\": ", EXPECTED], out),
    }
}
