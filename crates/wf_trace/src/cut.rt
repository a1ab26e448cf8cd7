//! Cuts the octets of a source into numbered lines.

ghost use Rattle.std.specs.Prelude.{◌≡◌, ◌+◌, ◌-◌, ◌<◌, ◌≤◌, ◌++◌, [], List, ℕ, Bool, length, drop, slice_index, true, false, MatchOption, IfNone, IfOk, IsOk, IfSome, OnErr, Some, None, IsSome, Ok};
ghost use Rattle.std.specs.Io.KnownBytes.{prepend_known, IsAtEnd};
ghost use Rattle.wf_io.specs.Faults.{CountsFaults};
ghost use Rattle.wf_trace.specs.Lines.{flaw};
ghost use Rattle.wf_trace.specs.Scanning.{has_end};

use crate::fault::{End, Fault, FaultKind};
use crate::words::is_skipped;
use arrayvec::ArrayVec;
use std::alloc::{AllocError, Global};
use std::marker::Model;
use wf_io::{Failed, MOST_OCTETS, Source};

/// The most octets of a line, without its octet 10.
const LONGEST_LINE: usize = 160;

const BUFFER: usize = 4096;

/// What comes next in an input.
#[derive(Clone, Copy)]
pub enum Piece {
    /// A line that is not skipped: its number, counted from 1. `Cut::octets` returns its octets.
    Text { line: u64 },
    /// The end of the input: the number of the line after the last.
    Ended { line: u64 },
    /// The first line with a fault of kind `TooBig`, `LongLine` or `NotAscii`.
    Bad(Fault),
}

/// What was found among the octets in the buffer.
#[derive(Clone, Copy)]
pub enum Found {
    Line,
    TooBig,
}

// Returns the number of octets up to and including the last end of a line, or 0 if no line ends.
fn lines_len(octets: &[u8]) -> usize
    ensures within { result ≤ length octets.now }
    ensures behind { has_end (drop result octets.now) ≡ false }
    ensures end { 0 < result → slice_index octets.now (result - 1) ≡ 10 }
{
    let mut len = octets.len();
    while len > 0 {
        if octets[len - 1] == b'\n' {
            return len;
        }
        len -= 1;
    }
    0
}

/// Cuts the octets of a source into lines, and returns those that are not skipped. A line is skipped if it
/// has no words, or if its first octet that is not a space is `#`.
#[derive(Drop)]
pub struct Cut {
    /// The octets of the last read. Those from `from` to `to` are still to be looked at. The last end of a
    /// line is directly before `ends`; if there is none, `ends` is 0.
    buffer: Vec<u8>,
    from: usize,
    to: usize,
    ends: usize,
    /// The line that has begun, up to 161 octets of it.
    text: ArrayVec<u8, 161>,
    /// The number of octets that were looked at.
    looked: u64,
    /// Whether the line in `text` has ended and was returned.
    given: bool,
    /// Why no further line is cut, once that is known.
    end: Option<End>,
    /// The number of lines that were cut.
    count: u64,
    /// The piece that ended the input, once it was returned.
    ended: Option<Piece>,
}

impl Model for Cut {
    ghost use Rattle.std.specs.Prelude.{◌≡◌, ◌≤◌, ◌+◌, length, slice_range};
    ghost use Rattle.wf_trace.specs.Lines.{longest_trace};
    ghost use Rattle.wf_trace.specs.Scanning.{buffer_size, LineEndsAt};
    ghost use Rattle.wf_trace.specs.Cutting.{room_of};
    ghost use Rattle.wf_trace.specs.Numbering.{Numbering, IsLastPiece};

    ghost Value = { Numbering };

    ghost view = { λ c. record {
      cutter = record {
        scanner = record {
          looked = c.looked;
          line = c.text.items;
          waiting = slice_range c.buffer.items c.from c.to;
        };
        given = c.given;
        ended = c.end;
      };
      line = c.count + 1;
      ended = c.ended;
    } };

    ghost invariant = { λ c. (c.from ≤ c.to) × (c.to ≤ length c.buffer.items)
        × (length c.buffer.items ≡ buffer_size) × (c.looked ≤ longest_trace)
        × LineEndsAt c.buffer.items c.ends c.to
        × (c.count + room_of c.looked c.end ≤ longest_trace + 1) × IsLastPiece c.ended };
}

impl Cut {
    ghost use Rattle.wf_trace.specs.Lines.{longest_trace};
    ghost use Rattle.wf_trace.specs.Scanning.{has_end, begins_word, Finds, Keeps};
    ghost use Rattle.wf_trace.specs.Cutting.{TakesPieces, Follows, to_come, room, will_read as will_cut};
    ghost use Rattle.wf_trace.specs.Pieces.{pieces, ending_piece};
    ghost use Rattle.wf_trace.specs.Numbering.{pieces_left, line_of, will_read, HasText, HasNoLine, OnText, Cuts};

    /// Returns a cutter at the start of an input. Allocates a buffer of 4096 octets; later calls do not
    /// allocate.
    pub fn new(alloc: Global) -> Result<Self, AllocError>
        ensures pieces { IfOk result (λ c.
            (closed : Bool) (octets : List ℕ) → pieces_left c closed octets ≡ pieces closed octets) }
        ensures fresh { IfOk result (λ c. c.ended ≡ None) }
    {
        let buffer = vec![in alloc; 0; BUFFER]?;
        Ok(Cut {
            buffer,
            from: 0,
            to: 0,
            ends: 0,
            text: ArrayVec::new(),
            looked: 0,
            given: false,
            end: None,
            count: 0,
            ended: None,
        })
    }

    /// Returns the line that was cut last, without its octet 10. The last result of `next` must have been
    /// `Text`.
    pub fn octets(&self) -> &[u8]
        requires { HasText self.now }
        ensures { result.now ≡ line_of self.now }
    {
        self.text.as_slice()
    }

    /// Returns whether the next call of `next` may read the source. It does not read if the end is known,
    /// or if the buffer has a whole line whose first octet is neither a space nor `#`.
    pub fn will_read(&self) -> bool
        ensures { result ≡ will_read self.now }
    {
        if self.ended.is_some() {
            return false;
        }
        if self.end.is_some() {
            return false;
        }
        if !self.given {
            return true;
        }
        if self.from >= self.ends {
            return true;
        }
        let first = self.buffer[self.from];
        first == b'\n' || first == b' ' || first == b'#'
    }

    // Ends the input with a fault of the line that has begun.
    fn fail(&mut self, kind: FaultKind) -> Option<End>
        ensures end { result ≡ Some (End.Flaw kind) }
        ensures stays { self.new ≡ record self.old {
          cutter = record self.old.cutter { ended = Some (End.Flaw kind) };
        } }
    {
        self.end = Some(End::Flaw(kind));
        self.end
    }

    // Returns no end if the line in `text`, which has ended, is free of faults, otherwise the first of its
    // faults.
    fn judge(&mut self) -> Option<End>
        ensures judged { MatchOption (flaw self.old.cutter.scanner.looked self.old.cutter.scanner.line)
            ((result ≡ None) × (self.new.cutter ≡ record self.old.cutter { given = true }))
            (λ kind. (result ≡ Some (End.Flaw kind))
            × (self.new.cutter ≡ record self.old.cutter { ended = Some (End.Flaw kind) })) }
        ensures stays { self.new ≡ record self.old { cutter = self.new.cutter } }
    {
        if self.text.len() > LONGEST_LINE {
            return self.fail(FaultKind::LongLine);
        }
        for octet in self.text.as_slice() {
            if *octet < 32 || 126 < *octet {
                return self.fail(FaultKind::NotAscii);
            }
        }
        self.given = true;
        None
    }

    // Cuts the rest of the input as a line or, if it is empty, ends the input.
    fn finish(&mut self) -> Option<End>
        requires going { self.old.cutter.ended ≡ None }
        requires fresh { self.old.cutter.given ≡ false }
        requires dry { self.old.cutter.scanner.waiting ≡ [] }
        ensures ended { IsSome self.new.cutter.ended }
        ensures looked { self.new.cutter.scanner.looked ≡ self.old.cutter.scanner.looked }
        ensures given { IfNone result (self.new.cutter.given ≡ true) }
        ensures follows { Follows (Ok result) self.new.cutter
            (to_come self.old.cutter true []) (to_come self.new.cutter true []) }
        ensures stays { self.new ≡ record self.old { cutter = self.new.cutter } }
    {
        if self.text.is_empty() {
            self.end = Some(End::Over);
            return Some(End::Over);
        }
        let flaw = self.judge();
        if flaw.is_none() {
            self.end = Some(End::Over);
        }
        flaw
    }

    // Looks at the octets in the buffer up to the end of a line.
    fn scan(&mut self) -> Option<Found>
        ensures finds { Finds self.old.cutter.scanner result self.new.cutter.scanner }
        ensures keeps { Keeps self.old.cutter.scanner result self.new.cutter.scanner }
        ensures dry { IfNone result (self.new.cutter.scanner.waiting ≡ []) }
        ensures looked { IfNone result (self.new.cutter.scanner.looked
            ≡ self.old.cutter.scanner.looked + length self.old.cutter.scanner.waiting) }
        ensures grows { self.old.cutter.scanner.looked ≤ self.new.cutter.scanner.looked }
        ensures line { result ≡ Some Found.Line →
            self.old.cutter.scanner.looked < self.new.cutter.scanner.looked }
        ensures stays { self.new ≡ record self.old {
          cutter = record self.old.cutter { scanner = self.new.cutter.scanner };
        } }
        ensures most { self.new.cutter.scanner.looked ≤ longest_trace }
    {
        while self.from < self.to {
            let octet = self.buffer[self.from];
            self.from += 1;
            if self.looked == MOST_OCTETS {
                return Some(Found::TooBig);
            }
            self.looked += 1;
            if octet == b'\n' {
                return Some(Found::Line);
            }
            if self.text.len() <= LONGEST_LINE {
                self.text.push(octet);
            }
        }
        None
    }

    // Reads octets from the source. If it reads none, the input has ended.
    fn refill<S: Source>(&mut self, source: &mut S) -> Result<usize, Failed>
        requires { self.old.cutter.scanner.waiting ≡ [] }
        ensures same { self.new.cutter ≡ record self.old.cutter {
          scanner = record self.old.cutter.scanner { waiting = self.new.cutter.scanner.waiting };
        } }
        ensures stays { self.new ≡ record self.old { cutter = self.new.cutter } }
        ensures octets { S.left source.old
            ≡ prepend_known self.new.cutter.scanner.waiting (S.left source.new) }
        ensures count { IfOk result (λ n. n ≡ length self.new.cutter.scanner.waiting) }
        ensures end { IfOk result (λ n. n ≡ 0 → IsAtEnd (S.left source.old)) }
        ensures failed { OnErr result (self.new.cutter.scanner.waiting ≡ []) }
        ensures cause { CountsFaults (S.faults source.old) (S.faults source.new) result }
    {
        self.from = 0;
        self.to = 0;
        self.ends = 0;
        self.to = source.read(&mut self.buffer)?;
        self.ends = lines_len(&self.buffer[..self.to]);
        Ok(self.to)
    }

    // Cuts the next line. Its first octets may have been looked at already.
    fn advance<S: Source>(&mut self, source: &mut S) -> Result<Option<End>, Failed>
        requires going { self.old.cutter.ended ≡ None }
        requires fresh { self.old.cutter.given ≡ false }
        ensures takes { (octets : List ℕ) ×
            TakesPieces self.old.cutter (S.left source.old) result self.new.cutter (S.left source.new)
            octets }
        ensures held { OnErr result
            ((self.new.cutter.scanner.waiting ≡ []) × (self.new.cutter.given ≡ false)
            × (self.new.cutter.ended ≡ None)) }
        ensures given { result ≡ Ok None → self.new.cutter.given ≡ true }
        ensures progress { result ≡ Ok None → room self.new.cutter < room self.old.cutter }
        ensures grows { room self.new.cutter ≤ room self.old.cutter }
        ensures over { result ≡ Ok None → IsSome self.new.cutter.ended → IsAtEnd (S.left source.new) }
        ensures quiet { has_end self.old.cutter.scanner.waiting ≡ true →
            (source.new ≡ source.old) × IsOk result }
        ensures word { has_end self.old.cutter.scanner.waiting ≡ true →
            begins_word (self.old.cutter.scanner.line ++ self.old.cutter.scanner.waiting) ≡ true →
            result ≡ Ok None → begins_word self.new.cutter.scanner.line ≡ true }
        ensures stays { self.new ≡ record self.old { cutter = self.new.cutter } }
        ensures cause { CountsFaults (S.faults source.old) (S.faults source.new) result }
    {
        'lines: loop {
            match self.scan() {
                Some(Found::Line) => return Ok(self.judge()),
                Some(Found::TooBig) => {
                    self.end = Some(End::Flaw(FaultKind::TooBig));
                    return Ok(Some(End::Flaw(FaultKind::TooBig)));
                }
                None => {}
            }
            if self.refill(source)? == 0 {
                return Ok(self.finish());
            }
        }
    }

    // Cuts the next line, or returns why there is none, which each later call returns again. After a
    // failure the octets that were read are kept.
    fn cut<S: Source>(&mut self, source: &mut S) -> Result<Option<End>, Failed>
        ensures takes { (octets : List ℕ) ×
            TakesPieces self.old.cutter (S.left source.old) result self.new.cutter (S.left source.new)
            octets }
        ensures held { OnErr result
            ((self.new.cutter.scanner.waiting ≡ []) × (self.new.cutter.given ≡ false)
            × (self.new.cutter.ended ≡ None)) }
        ensures given { result ≡ Ok None → self.new.cutter.given ≡ true }
        ensures progress { result ≡ Ok None → room self.new.cutter < room self.old.cutter }
        ensures grows { room self.new.cutter ≤ room self.old.cutter }
        ensures over { result ≡ Ok None → IsSome self.new.cutter.ended → IsAtEnd (S.left source.new) }
        ensures sticky { IsSome self.old.cutter.ended → IsSome self.new.cutter.ended }
        ensures quiet { will_cut self.old.cutter ≡ false → (source.new ≡ source.old) × IsOk result }
        ensures word { will_cut self.old.cutter ≡ false → result ≡ Ok None →
            begins_word self.new.cutter.scanner.line ≡ true }
        ensures stays { self.new ≡ record self.old { cutter = self.new.cutter } }
        ensures cause { CountsFaults (S.faults source.old) (S.faults source.new) result }
    {
        if let Some(end) = self.end {
            return Ok(Some(end));
        }
        if self.given {
            self.text.clear();
            self.given = false;
        }
        self.advance(source)
    }

    // Ends the input with this piece.
    fn stop(&mut self, end: End) -> Piece
        ensures piece { Some result ≡ ending_piece self.old.line (Some end) }
        ensures stays { self.new ≡ record self.old { ended = Some result } }
    {
        let line = self.count + 1;
        let piece = match end {
            End::Over => Piece::Ended { line },
            End::Flaw(kind) => Piece::Bad(Fault { line, kind }),
        };
        self.ended = Some(piece);
        piece
    }

    /// Returns the next piece. After `Ended` or `Bad` each later call returns the same piece. Fails only if
    /// the source counted a fault; the octets that were read are kept, so a later call continues from
    /// there. Does not allocate.
    pub fn next<S: Source>(&mut self, source: &mut S) -> Result<Piece, Failed>
        ensures again { IfSome self.old.ended (λ piece.
            (result ≡ Ok piece) × (self.new ≡ self.old) × (S.left source.new ≡ S.left source.old)) }
        ensures cuts { (octets : List ℕ) ×
            Cuts self.old (S.left source.old) result self.new (S.left source.new) octets }
        ensures text { OnText result (HasText self.new) }
        ensures held { OnErr result (HasNoLine self.new) }
        ensures progress { OnText result (room self.new.cutter < room self.old.cutter) }
        ensures over { OnText result (IsSome self.new.cutter.ended → IsAtEnd (S.left source.new)) }
        ensures sticky { IsSome self.old.cutter.ended → IsSome self.new.cutter.ended }
        ensures quiet { will_read self.old ≡ false → (source.new ≡ source.old) × IsOk result }
        ensures cause { CountsFaults (S.faults source.old) (S.faults source.new) result }
    {
        if let Some(piece) = self.ended {
            return Ok(piece);
        }
        'lines: loop {
            match self.cut(source) {
                Ok(None) => {}
                Ok(Some(end)) => return Ok(self.stop(end)),
                Err(failed) => return Err(failed),
            }
            self.count += 1;
            if !is_skipped(self.text.as_slice()) {
                return Ok(Piece::Text { line: self.count });
            }
        }
    }
}
