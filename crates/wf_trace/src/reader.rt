//! Reads a trace.

ghost use Rattle.std.specs.Prelude.{◌≡◌, List, ℕ, Bool, false, Some, None, IfOk, IsOk, IsSome, IfSome, OnErr, Ok};
ghost use Rattle.std.specs.Io.KnownBytes.{IsAtEnd};
ghost use Rattle.wf_io.specs.Faults.{CountsFaults};
ghost use Rattle.wf_trace.specs.Reading.{missing as missing_behind};

use crate::cut::{Cut, Piece};
use crate::fault::{Fault, FaultKind};
use crate::meaning::{Meaning, Place, meaning_of};
use std::alloc::{AllocError, Global};
use std::marker::Model;
use wf_frame::{Config, Note};
use wf_io::{Failed, Source};

/// An item of a trace.
#[derive(Clone, Copy, Debug, PartialEq, Eq)]
pub enum Item {
    /// The head, with its settings.
    Head(Config),
    /// A call, with its caller.
    Entry(u32, Note),
    /// The line `end`.
    Finish,
    /// The first fault.
    Bad(Fault),
}

// Returns the fault of an input that ends in this place: a head or an end is missing.
fn missing(place: Option<Place>) -> FaultKind
    ensures { result ≡ missing_behind place }
{
    match place {
        None => FaultKind::NoHead,
        Some(_) => FaultKind::NoEnd,
    }
}

/// Reads a trace from a source, item by item.
#[derive(Drop)]
pub struct TraceReader {
    cut: Cut,
    place: Option<Place>,
    ended: Option<Item>,
}

impl Model for TraceReader {
    ghost use Rattle.wf_trace.specs.Reader.{Reader};
    ghost use Rattle.wf_trace.specs.Endings.{IsEndOfTrace};

    ghost Value = { Reader };

    ghost view = { λ r. record { cut = r.cut; place = r.place; ended = r.ended } };

    ghost invariant = { λ r. IsEndOfTrace r.ended };
}

impl TraceReader {
    ghost use Rattle.wf_trace.specs.Reading.{reading};
    ghost use Rattle.wf_trace.specs.Reader.{Reads, IsHeld, IsPlaced, Goes, rest, will_read};

    /// Returns a reader at the start of a trace. Allocates a buffer of 4096 octets; later calls do not
    /// allocate.
    pub fn new(alloc: Global) -> Result<Self, AllocError>
        ensures reading { IfOk result (λ r.
            (closed : Bool) (octets : List ℕ) → rest r closed octets ≡ reading closed octets) }
        ensures fresh { IfOk result (λ r. (r.ended ≡ None) × (r.place ≡ None)) }
    {
        let cut = Cut::new(alloc)?;
        Ok(TraceReader {
            cut,
            place: None,
            ended: None,
        })
    }

    /// Returns whether the next call of `next` may read the source. It does not read if the ending is
    /// known, or if the buffer has a whole line whose first octet is neither a space nor `#`.
    pub fn will_read(&self) -> bool
        ensures { result ≡ will_read self.now }
    {
        self.ended.is_none() && self.cut.will_read()
    }

    // Ends the reading with a fault.
    fn stop(&mut self, fault: Fault) -> Item
        ensures item { result ≡ Item.Bad fault }
        ensures stays { self.new ≡ record self.old { ended = Some (Item.Bad fault) } }
    {
        let item = Item::Bad(fault);
        self.ended = Some(item);
        item
    }

    /// Returns the next item. After `Finish` or `Bad` each later call returns the same item. Fails only if
    /// the source counted a fault; the octets that were read are kept, so a later call continues from
    /// there. Does not allocate.
    pub fn next<S: Source>(&mut self, source: &mut S) -> Result<Item, Failed>
        ensures again { IfSome self.old.ended (λ item.
            (result ≡ Ok item) × (self.new ≡ self.old) × (S.left source.new ≡ S.left source.old)) }
        ensures reads { (octets : List ℕ) ×
            Reads self.old (S.left source.old) result self.new (S.left source.new) octets }
        ensures held { OnErr result (IsHeld self.new) }
        ensures goes { Goes result self.old self.new }
        ensures placed { self.old.ended ≡ None → IsPlaced result self.old.place self.new.place }
        ensures over { self.old.ended ≡ None → result ≡ Ok Item.Finish → IsSome self.new.cut.cutter.ended →
            IsAtEnd (S.left source.new) }
        ensures sticky { IsSome self.old.cut.cutter.ended → IsSome self.new.cut.cutter.ended }
        ensures quiet { will_read self.old ≡ false → (source.new ≡ source.old) × IsOk result }
        ensures cause { CountsFaults (S.faults source.old) (S.faults source.new) result }
    {
        if let Some(item) = self.ended {
            return Ok(item);
        }
        let line = match self.cut.next(source) {
            Ok(Piece::Text { line }) => line,
            Ok(Piece::Ended { line }) => {
                let kind = missing(self.place);
                return Ok(self.stop(Fault { line, kind }));
            }
            Ok(Piece::Bad(fault)) => return Ok(self.stop(fault)),
            Err(failed) => return Err(failed),
        };
        match meaning_of(self.place, self.cut.octets()) {
            Ok(Meaning::Head(config)) => {
                self.place = Some(Place {
                    limit: config.calls,
                    count: 0,
                });
                Ok(Item::Head(config))
            }
            Ok(Meaning::Entry(caller, note)) => {
                if let Some(place) = &mut self.place {
                    place.count += 1;
                }
                Ok(Item::Entry(caller, note))
            }
            Ok(Meaning::Finish) => {
                self.ended = Some(Item::Finish);
                Ok(Item::Finish)
            }
            Err(kind) => Ok(self.stop(Fault { line, kind })),
        }
    }
}
