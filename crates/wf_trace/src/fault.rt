//! The faults of a trace.

ghost use Rattle.std.specs.Prelude.{◌≡◌, ◌≤◌, [], length};
ghost use Rattle.wf_trace.specs.Faults.{earlier_fault, first_fault, kind_name, fault_line};

use wf_io::{Line, Word};

/// What is wrong with a line. If a line has several faults, the first kind in this order is reported.
#[derive(Clone, Copy, Debug, PartialEq, Eq)]
pub enum FaultKind {
    /// The line does not end within the first 1,099,511,627,776 octets.
    TooBig,
    /// The line has more than 160 octets.
    LongLine,
    /// An octet is not a printable ASCII character.
    NotAscii,
    /// A word is missing, is unknown, or is not allowed in its place.
    Word,
    /// The number of words is wrong.
    Count,
    /// A word has to be a number and is not.
    Number,
    /// A number is out of its range.
    Range,
    /// The head is missing before this line.
    NoHead,
    /// The input ends without an `end` line.
    NoEnd,
    /// The line is a call, and the head allows no more.
    TooLong,
}

/// The first fault of a trace: its line, counted from 1, and its kind.
#[derive(Clone, Copy, Debug, PartialEq, Eq)]
pub struct Fault {
    pub line: u64,
    pub kind: FaultKind,
}

/// Why no further line comes.
#[derive(Clone, Copy, Debug, PartialEq, Eq)]
pub enum End {
    /// The input ended.
    Over,
    /// A line has a fault in its octets.
    Flaw(FaultKind),
}

impl FaultKind {
    /// Returns which of two faults of a line is reported: the first in the order of the kinds.
    pub fn earlier(self, other: FaultKind) -> FaultKind
        ensures { result ≡ earlier_fault self other }
    {
        if self as u8 <= other as u8 {
            self
        } else {
            other
        }
    }

    /// Returns the word of the kind in texts.
    pub fn word(self) -> &'static [u8]
        ensures name { result.now ≡ kind_name self }
        ensures short { length result.now ≤ 9 }
    {
        match self {
            FaultKind::TooBig => b"too-big",
            FaultKind::LongLine => b"long-line",
            FaultKind::NotAscii => b"not-ascii",
            FaultKind::Word => b"word",
            FaultKind::Count => b"count",
            FaultKind::Number => b"number",
            FaultKind::Range => b"range",
            FaultKind::NoHead => b"no-head",
            FaultKind::NoEnd => b"no-end",
            FaultKind::TooLong => b"too-long",
        }
    }
}

/// Returns which fault of a line is reported, if `fault` was found before `other`.
pub fn first_of(fault: Option<FaultKind>, other: FaultKind) -> FaultKind
    ensures { result ≡ first_fault fault other }
{
    match fault {
        None => other,
        Some(fault) => fault.earlier(other),
    }
}

/// Writes the line of a fault, `fault line N KIND`, to `out`, which must be empty.
pub fn print_fault(fault: Fault, out: &mut Line)
    requires { out.old ≡ [] }
    ensures { out.new ≡ fault_line fault }
{
    out.push_line(
        b"fault",
        &[
            Word::Text(b"line"),
            Word::Number(fault.line),
            Word::Text(fault.kind.word()),
        ],
    );
}
