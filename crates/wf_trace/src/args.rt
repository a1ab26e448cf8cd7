//! Reads the arguments of a line.

ghost use Rattle.std.specs.Prelude.{◌≡◌, ◌+◌, ◌<◌, ◌≤◌, ◌∷◌, List, length, map};
ghost use Rattle.wf_trace.specs.Words.{words};
ghost use Rattle.wf_frame.specs.declared.calls.Arg.{Arg as Kind};
ghost use Rattle.wf_frame.specs.Calls.{argument_kind};
ghost use Rattle.wf_trace.specs.Grammar.{known_value, read_arg, result_seen, behind as behind_fault, read_args};

use crate::fault::{FaultKind, first_of};
use crate::words::{in_range, next_word};
use arrayvec::ArrayVec;
use wf_frame::{Arg, Argument, Class, GREATEST_BODY, RateFormat, Value};

// Returns the value of an argument whose values are words, or `None` if this is none of them.
fn known(arg: Arg, word: &[u8]) -> Option<Value>
    ensures { result ≡ known_value arg word.now }
{
    match (arg, word) {
        (Arg::Class, _) => match Class::named(word) {
            Some(class) => Some(Value::Class(class)),
            None => None,
        },
        (Arg::Format, _) => match RateFormat::named(word) {
            Some(format) => Some(Value::Format(format)),
            None => None,
        },
        (Arg::Guard, b"long") => Some(Value::Guard(false)),
        (Arg::Guard, b"short") => Some(Value::Guard(true)),
        (Arg::Heard, b"heard") => Some(Value::Heard(true)),
        (Arg::Heard, b"lost") => Some(Value::Heard(false)),
        (Arg::Air, b"air") => Some(Value::Air),
        (Arg::Frames, b"frames") => Some(Value::Frames),
        (Arg::End, b"a") => Some(Value::End(false)),
        (Arg::End, b"b") => Some(Value::End(true)),
        _ => None,
    }
}

// Returns the value of an argument, given its word.
fn read_one(arg: Arg, word: &[u8]) -> Result<Value, FaultKind>
    ensures { result ≡ read_arg arg word.now }
{
    match arg {
        Arg::Short => Ok(Value::Short(in_range(0, u32::from(u16::MAX), word)? as u16)),
        Arg::Octet | Arg::Weight | Arg::Bss => Ok(Value::Octet(
            in_range(0, u32::from(u8::MAX), word)? as u8,
        )),
        Arg::Long => Ok(Value::Long(in_range(0, u32::MAX, word)?)),
        Arg::Exchange => Ok(Value::Exchange(u64::from(in_range(0, u32::MAX, word)?))),
        Arg::Number { low, high } => Ok(Value::Long(in_range(low, high, word)?)),
        Arg::Length => Ok(Value::Short(in_range(1, u32::from(GREATEST_BODY), word)? as u16)),
        Arg::Class | Arg::Format | Arg::Guard | Arg::Heard | Arg::Air | Arg::Frames | Arg::End =>
            known(arg, word).ok_or(FaultKind::Word),
    }
}

// Reads the next argument of a line into `values`, or its fault into `fault`. Returns the rest of the line.
#[tactic(auto, using(crate::proofs::ArgLaws::behind_other))]
fn take<'a>(
    arg: Arg,
    line: &'a [u8],
    values: &mut ArrayVec<Value, 6>,
    fault: &mut Option<FaultKind>,
) -> &'a [u8]
    requires { length values.old.items < 6 }
    ensures reads { (args : List Kind) →
        behind_fault fault.old values.old.items (read_args (arg ∷ args) (words line.now))
        ≡ behind_fault fault.new values.new.items (read_args args (words result.now)) }
    ensures len { length values.new.items ≤ length values.old.items + 1 }
{
    let (value, behind) = match next_word(line) {
        Some((word, rest)) => (read_one(arg, word), rest),
        None => (arg.default_value().ok_or(FaultKind::Count), line),
    };
    match value {
        Ok(value) => values.push(value),
        Err(other) => *fault = Some(first_of(*fault, other)),
    }
    behind
}

/// Returns the values of a line's arguments. The error is the first of their faults, in the order of the
/// kinds.
pub fn read_all(args: &[Arg], line: &[u8]) -> Result<ArrayVec<Value, 6>, FaultKind>
    requires { length args.now ≤ 6 }
    ensures { result_seen (λ values. values.items) result ≡ read_args args.now (words line.now) }
{
    let mut values = ArrayVec::new();
    let mut fault = None;
    let mut rest = line;
    for arg in args {
        rest = take(*arg, rest, &mut values, &mut fault);
    }
    match (next_word(rest), fault) {
        (Some(_), fault) => Err(first_of(fault, FaultKind::Count)),
        (None, Some(fault)) => Err(fault),
        (None, None) => Ok(values),
    }
}

/// The same as `read_all`, for the arguments of a call.
pub fn read_named(arguments: &[Argument], line: &[u8]) -> Result<ArrayVec<Value, 6>, FaultKind>
    requires { length arguments.now ≤ 6 }
    ensures { result_seen (λ values. values.items) result ≡
        read_args (map argument_kind arguments.now) (words line.now) }
{
    let mut values = ArrayVec::new();
    let mut fault = None;
    let mut rest = line;
    for argument in arguments {
        rest = take(argument.kind(), rest, &mut values, &mut fault);
    }
    match (next_word(rest), fault) {
        (Some(_), fault) => Err(first_of(fault, FaultKind::Count)),
        (None, Some(fault)) => Err(fault),
        (None, None) => Ok(values),
    }
}
