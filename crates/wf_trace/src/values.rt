//! Reads the values of arguments by their index, for lines that are not calls.

ghost use Rattle.std.specs.Prelude.{◌≡◌};
ghost use Rattle.wf_trace.specs.Notes.{long_at as long_among, end_at as end_among};

use wf_frame::Value;

/// Returns the number of 32 bits at index `i`, counted from 0, or 0 if there is none.
pub fn long_at(values: &[Value], i: usize) -> u32
    ensures { result ≡ long_among values.now i }
{
    match values.get(i) {
        Some(Value::Long(number)) => *number,
        _ => 0,
    }
}

/// Returns whether the value at index `i` is the recipient's end, or false if it is no end.
pub fn end_at(values: &[Value], i: usize) -> bool
    ensures { result ≡ end_among values.now i }
{
    match values.get(i) {
        Some(Value::End(recipient)) => *recipient,
        _ => false,
    }
}
