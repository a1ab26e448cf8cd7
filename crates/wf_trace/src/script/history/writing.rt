//! Writes the trace of a history.

ghost use Rattle.std.specs.Prelude.{◌≡◌, ◌+◌, ◌≤◌, ◌++◌, List, ℕ, [], length, take, OnOk};
ghost use Rattle.std.specs.Io.KnownBytes.{append_known};
ghost use Rattle.wf_io.specs.Faults.{CountsFaults};
ghost use Rattle.wf_io.specs.Fronts.{HoldsFront};
ghost use Rattle.wf_trace.specs.Traces.{ArePrintable, CanBeNamed, entry_lines, trace_of};

use crate::print_note;
use crate::script::history::history::Entries;
use wf_io::{Failed, Line, Sink, write_all, write_line};

// The number of lines that are written at once. Each has at most 161 octets, so they fit the buffer of a
// `Line`.
const LINES: u64 = 50;

// Appends the canonical lines of the entries from `from` up to but not including `to`.
fn push_entries<H: Entries>(history: &H, from: u64, to: u64, out: &mut Line)
    requires empty { out.old ≡ [] }
    requires inside { (from ≤ to) × (to ≤ length (H.entries history.now)) × (to ≤ from + 50) }
    requires printable { ArePrintable (H.entries history.now) }
    ensures lines { entry_lines (take from (H.entries history.now)) ++ out.new
        ≡ entry_lines (take to (H.entries history.now)) }
    ensures range { CanBeNamed (take from (H.entries history.now)) →
        CanBeNamed (take to (H.entries history.now)) }
{
    let mut line = Line::new();
    for i in from..to {
        let (caller, note) = history.entry(i);
        line.clear();
        print_note(caller, &note, &mut line);
        out.push_all(line.octets());
    }
}

// Writes the canonical lines of the entries from `from` up to but not including `to`.
fn write_entries<H: Entries, K: Sink>(
    history: &H,
    from: u64,
    to: u64,
    sink: &mut K,
) -> Result<(), Failed>
    requires inside { (from ≤ to) × (to ≤ length (H.entries history.now)) × (to ≤ from + 50) }
    requires printable { ArePrintable (H.entries history.now) }
    ensures written { OnOk result ((lines : List ℕ) × (K.held sink.new ≡ append_known (K.held sink.old) lines)
        × (entry_lines (take from (H.entries history.now)) ++ lines
        ≡ entry_lines (take to (H.entries history.now)))) }
    ensures front { (lines : List ℕ) × HoldsFront (K.held sink.old) (K.held sink.new) lines
        × (entry_lines (take from (H.entries history.now)) ++ lines
        ≡ entry_lines (take to (H.entries history.now))) }
    ensures range { CanBeNamed (take from (H.entries history.now)) →
        CanBeNamed (take to (H.entries history.now)) }
    ensures cause { CountsFaults (K.faults sink.old) (K.faults sink.new) result }
{
    let mut out = Line::new();
    push_entries(history, from, to, &mut out);
    write_line(sink, &out)
}

// Writes the canonical lines of all entries.
fn write_all_entries<H: Entries, K: Sink>(history: &H, sink: &mut K) -> Result<(), Failed>
    requires { ArePrintable (H.entries history.now) }
    ensures written { OnOk result (K.held sink.new
        ≡ append_known (K.held sink.old) (entry_lines (H.entries history.now))) }
    ensures front { HoldsFront (K.held sink.old) (K.held sink.new) (entry_lines (H.entries history.now)) }
    ensures range { OnOk result (CanBeNamed (H.entries history.now)) }
    ensures cause { CountsFaults (K.faults sink.old) (K.faults sink.new) result }
{
    let count = history.len();
    let mut from = 0;
    while from < count {
        let to = from + LINES.min(count - from);
        write_entries(history, from, to, sink)?;
        from = to;
    }
    Ok(())
}

/// Writes the trace of a history with the standard settings: the line `cell`, the canonical line of each
/// entry, and the line `end`. The caller and the numbers of each entry must fit a line. If it fails, a
/// prefix of the trace may have been written.
pub fn write_trace<H: Entries, K: Sink>(history: &H, sink: &mut K) -> Result<(), Failed>
    requires printable { ArePrintable (H.entries history.now) }
    ensures written { OnOk result (K.held sink.new
        ≡ append_known (K.held sink.old) (trace_of (H.entries history.now))) }
    ensures front { HoldsFront (K.held sink.old) (K.held sink.new) (trace_of (H.entries history.now)) }
    ensures range { OnOk result (CanBeNamed (H.entries history.now)) }
    ensures cause { CountsFaults (K.faults sink.old) (K.faults sink.new) result }
{
    write_all(sink, b"cell\n")?;
    write_all_entries(history, sink)?;
    write_all(sink, b"end\n")?;
    Ok(())
}
