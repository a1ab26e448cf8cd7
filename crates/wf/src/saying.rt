//! Appends the parts of a message to a line, as long as they fit.

use wf_io::Line;

/// The most octets of a line.
const MOST: usize = 8192;

/// The most digits of a number.
const DIGITS: usize = 20;

// Appends octets, if they fit.
fn add(octets: &[u8], out: &mut Line) {
    let len = out.octets().len();
    if len <= MOST && octets.len() <= MOST - len {
        out.push_all(octets);
    }
}

/// Appends each part that fits.
pub fn say(parts: &[&[u8]], out: &mut Line) {
    for part in parts {
        add(part, out);
    }
}

/// Appends a number in decimal digits, if 20 octets fit.
pub fn say_number(number: u64, out: &mut Line) {
    if out.octets().len() <= MOST - DIGITS {
        out.push_number(number);
    }
}
