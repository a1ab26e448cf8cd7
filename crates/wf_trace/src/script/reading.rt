//! Reads the next item of a script.

ghost use Rattle.std.specs.Prelude.{◌≡◌, ◌<◌, ℕ, List, Some, None, IfOk, OnErr, IsSome, Ok, if◌then◌else◌};
ghost use Rattle.std.specs.Io.KnownBytes.{IsAtEnd};
ghost use Rattle.wf_io.specs.Faults.{CountsFaults};
ghost use Rattle.wf_trace.specs.Words.{words};
ghost use Rattle.wf_trace.specs.Cutting.{room};
ghost use Rattle.wf_trace.specs.Numbering.{HasNoLine};
ghost use Rattle.wf_trace.specs.Scripts.{within, is_end, ended};
ghost use Rattle.wf_trace.specs.ScriptReading.{Reads, OnEvent, IfEvent};

use crate::script::answers::Answers;
use crate::script::ending::Ending;
use crate::{Cut, Fault, FaultKind, Piece, next_word};
use wf_io::{Failed, Source};

/// An item of a script.
#[derive(Clone, Copy)]
pub enum Item<E> {
    /// An event.
    Event(E),
    /// The end of the script.
    Ended(Ending),
}

// Returns the ending of a line whose first word is `end`.
fn ending_of(number: u64, line: &[u8]) -> Option<Ending>
    ensures { result ≡ (if is_end (words line.now) then Some (ended number (words line.now)) else None) }
{
    match next_word(line) {
        Some((word, rest)) if word == b"end".as_slice() => {
            if next_word(rest).is_none() {
                Some(Ending::Finish)
            } else {
                Some(Ending::Bad(Fault {
                    line: number,
                    kind: FaultKind::Count,
                }))
            }
        }
        _ => None,
    }
}

// Returns the event of a line after `count` other events.
fn event_of<C: Answers>(count: u64, line: &[u8]) -> Result<C::Event, FaultKind>
    ensures says { result ≡ within C.grammar.most count (C.grammar.meant (words line.now)) }
    ensures valid { IfOk result C.valid }
{
    let event = C::read(line)?;
    match C::most() {
        Some(most) if most <= count => Err(FaultKind::TooLong),
        _ => Ok(event),
    }
}

/// Returns the next item of a script after `count` events.
pub fn next_item<C: Answers, S: Source>(
    cut: &mut Cut,
    count: u64,
    source: &mut S,
) -> Result<Item<C::Event>, Failed>
    ensures reads { (octets : List ℕ) × Reads C.grammar count cut.old (S.left source.old) result cut.new
        (S.left source.new) octets }
    ensures valid { IfEvent result C.valid }
    ensures held { OnErr result (HasNoLine cut.new) }
    ensures progress { OnEvent result (room cut.new.cutter < room cut.old.cutter) }
    ensures over { result ≡ Ok (Item.Ended Ending.Finish) → IsSome cut.new.cutter.ended →
        IsAtEnd (S.left source.new) }
    ensures sticky { IsSome cut.old.cutter.ended → IsSome cut.new.cutter.ended }
    ensures cause { CountsFaults (S.faults source.old) (S.faults source.new) result }
{
    let line = match cut.next(source)? {
        Piece::Text { line } => line,
        Piece::Ended { line } => {
            return Ok(Item::Ended(Ending::Bad(Fault {
                line,
                kind: FaultKind::NoEnd,
            })));
        }
        Piece::Bad(fault) => return Ok(Item::Ended(Ending::Bad(fault))),
    };
    if let Some(ending) = ending_of(line, cut.octets()) {
        return Ok(Item::Ended(ending));
    }
    match event_of::<C>(count, cut.octets()) {
        Ok(event) => Ok(Item::Event(event)),
        Err(kind) => Ok(Item::Ended(Ending::Bad(Fault { line, kind }))),
    }
}
