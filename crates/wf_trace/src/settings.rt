//! Reads the settings of a head.

ghost use Rattle.std.specs.Prelude.{◌≡◌, ◌<◌, Some, None, List, Bool, Result, MatchOption, replicate, false};
ghost use Rattle.wf_frame.specs.Settings.{standard};
ghost use Rattle.wf_trace.specs.Words.{words};
ghost use Rattle.wf_trace.specs.Settings.{value_read, place_of, split_once, named_field, set_one, after_fault, read_words};

use crate::fault::{FaultKind, first_of};
use crate::words::{in_range, next_word};
use wf_frame::{Config, Field};

// Returns the value of a setting, if the word is a number in its range.
fn value_of(field: Field, word: &[u8]) -> Result<u32, FaultKind>
    ensures { result ≡ value_read field word.now }
{
    in_range(field.least(), field.most(), word)
}

// Returns the index of a setting among those that were seen, from 0 on.
fn place(field: Field) -> usize
    ensures value { result ≡ place_of field }
    ensures below { result < 28 }
{
    usize::from(field.number()) - 1
}

/// Splits a setting's word at its first `=` into name and value. Returns `None` if the word has no `=`.
pub fn parts_of(word: &[u8]) -> Option<(&[u8], &[u8])>
    ensures { MatchOption result (split_once word.now ≡ None)
        (λ p. split_once word.now ≡ Some (p.0.now, p.1.now)) }
{
    for (i, octet) in word.iter().enumerate() {
        if *octet == b'=' {
            let (name, rest) = word.split_at(i);
            let (_, value) = rest.split_at(1);
            return Some((name, value));
        }
    }
    None
}

// Returns the setting that a word sets, with the text of its value.
fn setting(word: &[u8]) -> Option<(Field, &[u8])>
    ensures { MatchOption result (named_field (split_once word.now) ≡ None)
        (λ p. named_field (split_once word.now) ≡ Some (p.0, p.1.now)) }
{
    let (name, value) = parts_of(word)?;
    let field = Field::named(name)?;
    Some((field, value))
}

// Applies a setting's word to the settings, and returns its fault, if it has one.
fn apply(word: &[u8], seen: &mut [bool; 28], config: &mut Config) -> Option<FaultKind>
    ensures { (others : List Bool → Config → Result Config FaultKind) →
        set_one (named_field (split_once word.now)) seen.old config.old others
        ≡ after_fault result (others seen.new config.new) }
{
    let Some((field, value)) = setting(word) else {
        return Some(FaultKind::Word);
    };
    if seen[place(field)] {
        return Some(FaultKind::Word);
    }
    seen[place(field)] = true;
    match value_of(field, value) {
        Ok(value) => {
            field.set(config, value);
            None
        }
        Err(other) => Some(other),
    }
}

/// Returns the settings of a head, given its words after `cell`. The error is the first of its faults, in
/// the order of the kinds.
pub fn read_head(line: &[u8]) -> Result<Config, FaultKind>
    ensures { result ≡ read_words (words line.now) (replicate 28 false) standard }
{
    let mut config = Config::standard();
    let mut seen = [false; 28];
    let mut fault = None;
    let mut rest = line;
    while let Some((word, behind)) = next_word(rest) {
        if let Some(other) = apply(word, &mut seen, &mut config) {
            fault = Some(first_of(fault, other));
        }
        rest = behind;
    }
    match fault {
        None => Ok(config),
        Some(fault) => Err(fault),
    }
}
