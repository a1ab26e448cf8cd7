//! Writes the canonical line of an entry.

ghost use Rattle.std.specs.Prelude.{◌≡◌, ◌+◌, ◌<◌, ◌≤◌, ◌++◌, [], length, map, true, Some, Ok};
ghost use Rattle.std.specs.List.{join_with_byte, list_all};
ghost use Rattle.wf_io.specs.Words.{words_text, width_of, spaced};
ghost use Rattle.wf_frame.specs.Calls.{default_of, argument_kind};
ghost use Rattle.wf_trace.specs.declared.meaning.Place.{Place};
ghost use Rattle.wf_trace.specs.declared.meaning.Meaning.TheVariants.{Entry};
ghost use Rattle.wf_trace.specs.Lines.{is_printable, longest_line};
ghost use Rattle.wf_trace.specs.Meanings.{greatest_caller};
ghost use Rattle.wf_trace.specs.Words.{words as words_of};
ghost use Rattle.wf_trace.specs.Meanings.{meant};
ghost use Rattle.wf_trace.specs.Grammar.{guard_word as word_of_guard, heard_word as word_of_heard, end_word as word_of_end};
ghost use Rattle.wf_trace.specs.Printing.{is_left_out as is_default, value_word, words_of_value, words_of_values, note_words, note_text, note_line, IsPrintable, NumbersAreInRange};

use wf_frame::{Arg, Argument, Note, Value};
use wf_io::{Line, Word};

// The word of a guard interval.
fn guard_word(short: bool) -> &'static [u8]
    ensures word { result.now ≡ word_of_guard short }
    ensures short { length result.now ≤ 5 }
{
    if short { b"short" } else { b"long" }
}

// The word that says whether an answer was heard.
fn heard_word(heard: bool) -> &'static [u8]
    ensures word { result.now ≡ word_of_heard heard }
    ensures short { length result.now ≤ 5 }
{
    if heard { b"heard" } else { b"lost" }
}

// The word of an end of an agreement.
fn end_word(recipient: bool) -> &'static [u8]
    ensures word { result.now ≡ word_of_end recipient }
    ensures short { length result.now ≤ 5 }
{
    if recipient { b"b" } else { b"a" }
}

// The word of a value.
fn word_of(value: Value) -> Word
    ensures word { words_text result ≡ value_word value }
    ensures short { width_of result ≤ 20 }
{
    match value {
        Value::Short(number) => Word::Number(u64::from(number)),
        Value::Octet(number) => Word::Number(u64::from(number)),
        Value::Long(number) => Word::Number(u64::from(number)),
        Value::Exchange(number) => Word::Number(number),
        Value::Class(class) => Word::Text(class.word()),
        Value::Format(format) => Word::Text(format.word()),
        Value::Guard(short) => Word::Text(guard_word(short)),
        Value::Heard(heard) => Word::Text(heard_word(heard)),
        Value::Air => Word::Text(b"air"),
        Value::Frames => Word::Text(b"frames"),
        Value::End(recipient) => Word::Text(end_word(recipient)),
    }
}

// Whether a value is left out: it is the default of its argument.
fn is_left_out(arg: Arg, value: Value) -> bool
    ensures { result ≡ is_default (default_of arg) value }
{
    match (arg.default_value(), value) {
        (Some(Value::Octet(usual)), Value::Octet(number)) => number == usual,
        _ => false,
    }
}

// Appends a space and the word of an argument's value, unless it is left out.
fn push_value(out: &mut Line, arg: Arg, value: Value)
    requires { length out.old ≤ 200 }
    ensures text { out.new ≡ out.old ++ spaced (words_of_value arg value) }
    ensures len { length out.new ≤ length out.old + 21 }
{
    if !is_left_out(arg, value) {
        out.push_words(&[word_of(value)]);
    }
}

// Appends the words of the values of arguments, each after a space.
fn push_values(out: &mut Line, arguments: &[Argument], values: &[Value])
    requires room { length out.old ≤ 29 }
    requires same { length arguments.now ≡ length values.now }
    requires few { length values.now ≤ 6 }
    ensures text { out.new ≡ out.old
        ++ spaced (words_of_values (map argument_kind arguments.now) values.now) }
    ensures len { length out.new ≤ 160 }
{
    for i in 0..values.len() {
        push_value(out, arguments[i].kind(), values[i]);
    }
}

// Appends the words of a call.
fn push_note(note: &Note, out: &mut Line)
    requires room { length out.old ≤ 22 }
    requires printable { IsPrintable note.now }
    ensures text { out.new ≡ out.old ++ join_with_byte 32 (note_words note.now) }
    ensures len { length out.new ≤ 160 }
    ensures range { NumbersAreInRange note.now }
{
    let form = note.form();
    let values = note.values();
    out.push_all(form.word());
    push_values(out, form.arguments(), values.as_slice());
}

/// Writes the canonical line of an entry to `out`, which must be empty: the words of the call, separated by
/// one space, and the octet 10. `@` and the caller come first, unless the caller is 0. The weight of a
/// `join` is left out if it is 1, the BSS of a call about group frames if it is 0, the format of a `rate` if
/// it is HT, and the airtime of a `done` if it gives none. An exchange number must be below 2^32, and a
/// length 1 to 2304 octets: a line has no room for others. After a head that allows one more call the line is
/// read as this entry.
pub fn print_note(caller: u32, note: &Note, out: &mut Line)
    requires empty { out.old ≡ [] }
    requires caller { caller ≤ greatest_caller }
    requires printable { IsPrintable note.now }
    ensures line { out.new ≡ note_line caller note.now }
    ensures read { (place : Place) → place.count < place.limit →
        meant (Some place) (words_of (note_text caller note.now)) ≡ Ok (Entry caller note.now) }
    ensures short { length (note_text caller note.now) ≤ longest_line }
    ensures plain { list_all is_printable (note_text caller note.now) ≡ true }
    ensures range { NumbersAreInRange note.now }
{
    if caller != 0 {
        out.push(b'@');
        out.push_number(u64::from(caller));
        out.push(b' ');
    }
    push_note(note, out);
    out.push(b'\n');
}
