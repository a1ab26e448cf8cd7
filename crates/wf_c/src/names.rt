//! The words for numbers. Refusals, fates and settings have the words of their tables in wf_frame.

ghost use Rattle.std.specs.Prelude.{◌≡◌, ◌≤◌, ℕ, List, length, pos};
ghost use Rattle.wf_frame.specs.Answers.{reply_with};
ghost use Rattle.wf_frame.specs.declared.answers.Brief.{Brief};
ghost use Rattle.wf_frame.specs.declared.classes.Fate.{Fate};
ghost use Rattle.wf_frame.specs.declared.notes.Refusal.{Refusal};
ghost use Rattle.wf_frame.specs.Classes.{fate_number, fate_word};
ghost use Rattle.wf_frame.specs.Refusals.{refusal_number};
ghost use Rattle.wf_def_world.specs.Text.{refusal_words, reply_words};
ghost use Rattle.wf_c.specs.Names.{block_word, code_word, fate_word_at, first_word, answer_word, name_text, own_word, refusal_word_at, setting_word_at, word_at};
ghost use Rattle.wf_c.specs.Numbers.{numbers_of};

use wf_frame::{Fate, Field, Refusal};

/// The word for a number without a meaning.
const UNKNOWN: &[u8] = b"?";

// Writes a word, and fills the rest of the buffer with zeros.
fn write_name(word: &[u8], name: &mut [u8; 16])
    requires short { length word.now ≤ 15 }
    ensures { name.new ≡ name_text word.now }
{
    *name = [0; 16];
    name[..word.len()].copy_from_slice(word);
}

/// Writes the word for a code; `?` for a number that is no code.
#[unsafe(no_mangle)]
pub extern "C" fn wf_code_name(code: i32, name: &mut [u8; 16])
    ensures { name.new ≡ name_text (word_at code_word code) }
{
    let word = if code < 0 {
        UNKNOWN
    } else {
        word_of_code(code as u32)
    };
    write_name(word, name);
}

// The word for a code.
fn word_of_code(code: u32) -> &'static [u8]
    ensures word { result.now ≡ code_word code }
    ensures short { length result.now ≤ 15 }
{
    match code {
        1..=59 => word_of_refusal(code),
        71..=78 => word_of_block(code),
        101..=132 => b"bad-setting",
        _ => word_of_own(code),
    }
}

// The word for a refusal, by its number.
fn word_of_refusal(code: u32) -> &'static [u8]
    ensures word { result.now ≡ refusal_word_at code }
    ensures short { length result.now ≤ 15 }
{
    match Refusal::of_number(code) {
        Some(refusal) => refusal.word(),
        None => UNKNOWN,
    }
}

// The word for why octets are not a BlockAck, 71 to 78.
fn word_of_block(code: u32) -> &'static [u8]
    ensures word { result.now ≡ block_word code }
    ensures short { length result.now ≤ 15 }
{
    match code {
        71 => b"block-length",
        72 => b"block-kind",
        73 => b"block-basic",
        74 => b"block-multi",
        75 => b"block-fragment",
        76 => b"block-narrow",
        77 => b"not-mine",
        78 => b"wrong-tid",
        _ => UNKNOWN,
    }
}

// The word for another code, 0 and 60 to 69.
fn word_of_own(code: u32) -> &'static [u8]
    ensures word { result.now ≡ own_word code }
    ensures short { length result.now ≤ 15 }
{
    match code {
        0 => b"ok",
        60 => b"no-memory",
        61 => b"bad-length",
        62 => b"small-buffer",
        63 => b"bad-call",
        64 => b"bad-address",
        65 => b"no-body",
        66 => b"bad-aid",
        67 => b"bad-class",
        68 => b"bad-outcome",
        69 => b"in-use",
        _ => UNKNOWN,
    }
}

/// Writes the word for a kind of answer, 0 to 29, the first word of its line in a trace; `?` for any other
/// number.
#[unsafe(no_mangle)]
pub extern "C" fn wf_kind_name(kind: i32, name: &mut [u8; 16])
    ensures { name.new ≡ name_text (word_at answer_word kind) }
{
    let word = if kind < 0 {
        UNKNOWN
    } else {
        word_of_kind(kind as u32)
    };
    write_name(word, name);
}

// The first word of an answer's line, by the kind of the answer.
fn word_of_kind(kind: u32) -> &'static [u8]
    ensures word { result.now ≡ answer_word kind }
    ensures short { length result.now ≤ 15 }
{
    match kind {
        0 => b"joined",
        1 => b"left",
        2 => b"set",
        3 => b"now",
        4 => b"accepted",
        5 => b"send",
        6 => b"released",
        7 => b"ba",
        8 => b"done",
        9 => b"slept",
        10 => b"woken",
        11 => b"polled",
        12 => b"charged",
        13 => b"reaped",
        14 => b"refused",
        15 => b"stopped",
        16 => b"started",
        17 => b"marked",
        18 => b"flushed",
        19 => b"ack",
        20 => b"held",
        21 => b"begun",
        22 => b"freed",
        23 => b"ceased",
        24 => b"queued",
        25 => b"beacon",
        26 => b"gsend",
        27 => b"gdone",
        28 => b"triggered",
        29 => b"ended",
        _ => UNKNOWN,
    }
}

/// Writes the word for a fate, 0 to 7; `?` for any other number.
#[unsafe(no_mangle)]
pub extern "C" fn wf_fate_name(fate: i32, name: &mut [u8; 16])
    ensures { name.new ≡ name_text (word_at fate_word_at fate) }
{
    let word = if fate < 0 {
        UNKNOWN
    } else {
        word_of_fate(fate as u32)
    };
    write_name(word, name);
}

// The word for a fate, by its number.
fn word_of_fate(fate: u32) -> &'static [u8]
    ensures word { result.now ≡ fate_word_at fate }
    ensures short { length result.now ≤ 15 }
{
    match Fate::of_number(fate) {
        Some(fate) => fate.word(),
        None => UNKNOWN,
    }
}

/// Writes the word for a setting, by its place, 1 to 28; `?` for any other number.
#[unsafe(no_mangle)]
pub extern "C" fn wf_setting_name(place: i32, name: &mut [u8; 16])
    ensures { name.new ≡ name_text (word_at setting_word_at place) }
{
    let word = if place < 0 {
        UNKNOWN
    } else {
        word_of_setting(place as u32)
    };
    write_name(word, name);
}

// The word for a setting, by its place, which is its number.
fn word_of_setting(place: u32) -> &'static [u8]
    ensures word { result.now ≡ setting_word_at place }
    ensures short { length result.now ≤ 15 }
{
    match Field::of_number(place) {
        Some(field) => field.word(),
        None => UNKNOWN,
    }
}

/// The words for refusals, kinds of answers and fates equal the words of the machine's text.
pub fn words_law()
    ensures refusals { (r : Refusal) →
        word_at code_word (pos (refusal_number r)) ≡ first_word (refusal_words r) }
    ensures kinds { (b : Brief) (pairs : List (ℕ × ℕ)) (ids : List ℕ) →
        word_at answer_word (pos (numbers_of b).kind) ≡ first_word (reply_words (reply_with b pairs ids)) }
    ensures fates { (f : Fate) → word_at fate_word_at (pos (fate_number f)) ≡ fate_word f }
{}
