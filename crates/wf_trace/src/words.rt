//! The words of a line, and words that are numbers.

ghost use Rattle.std.specs.Prelude.{◌≡◌, ◌<◌, ◌≤◌, ◌∷◌, [], length, IfOk, MatchOption};
ghost use Rattle.std.specs.List.{list_all};
ghost use Rattle.wf_io.specs.Digits.{is_digit};
ghost use Rattle.wf_trace.specs.Words.{words, skipped, is_plain_number as is_plain, number_of, in_range};

use crate::fault::FaultKind;

/// The most digits of a number in a trace.
const MOST_DIGITS: usize = 10;

/// Returns the first word of a line, and the rest of the line after it. Returns `None` if it has no word.
pub fn next_word(line: &[u8]) -> Option<(&[u8], &[u8])>
    ensures { MatchOption result (words line.now ≡ [])
        (λ found. (words line.now ≡ found.0.now ∷ words found.1.now)
        × (length found.1.now < length line.now)) }
{
    let mut from = 0;
    for (to, octet) in line.iter().enumerate() {
        if *octet != b' ' {
            continue;
        }
        if from < to {
            return Some((&line[from..to], &line[to..]));
        }
        from = to + 1;
    }
    if from == line.len() {
        return None;
    }
    Some((&line[from..], b""))
}

/// Returns whether a line is skipped: it has no words, or is a comment. Only its first octet that is not a
/// space matters.
pub fn is_skipped(line: &[u8]) -> bool
    ensures { result ≡ skipped (words line.now) }
{
    for octet in line {
        if *octet != b' ' {
            return *octet == b'#';
        }
    }
    true
}

fn are_digits(word: &[u8]) -> bool
    ensures { result ≡ list_all is_digit word.now }
{
    word.iter().all(|octet| b'0' <= *octet && *octet <= b'9')
}

/// Returns whether a word is a number: decimal digits without a leading zero, except `0` itself.
pub fn is_plain_number(word: &[u8]) -> bool
    ensures { result ≡ is_plain word.now }
{
    match word {
        [] => false,
        [first, more @ ..] => are_digits(word) && (more.is_empty() || *first != b'0'),
    }
}

/// Returns the number that a word is, from `low` to `high`. A number has one to ten decimal digits without
/// a leading zero, except `0` itself. The error is `Number` if the word is not a number, and `Range` if it
/// is out of range.
pub fn in_range(low: u32, high: u32, word: &[u8]) -> Result<u32, FaultKind>
    ensures reads { result ≡ in_range low high (number_of word.now) }
    ensures within { IfOk result (λ n. (low ≤ n) × (n ≤ high)) }
{
    if MOST_DIGITS < word.len() || matches!(word, [] | [b'0', _, ..]) {
        return Err(FaultKind::Number);
    }
    let mut value = 0;
    for octet in word {
        let octet = *octet;
        if octet < b'0' || b'9' < octet {
            return Err(FaultKind::Number);
        }
        value = value * 10 + u64::from(octet - b'0');
    }
    if value < u64::from(low) || u64::from(high) < value {
        return Err(FaultKind::Range);
    }
    Ok(value as u32)
}
