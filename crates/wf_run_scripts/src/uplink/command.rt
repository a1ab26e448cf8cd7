//! The command `uplink`, over any source and sink.

ghost use Rattle.std.specs.Prelude.{◌≡◌, ℕ, List, Some};
ghost use Rattle.wf_trace.specs.CommandEnds.{CommandEnds};
ghost use Rattle.wf_run_scripts.specs.UplinkOutcome.{UplinkOutcome, UplinkAnswered, UplinkLaw};

use crate::uplink::event::Event;
use crate::uplink::lines::event_from;
use crate::uplink::reception::Reception;
use std::alloc::Global;
use wf_io::{Failed, Sink, Source, Status};
use wf_trace::FaultKind;
use wf_trace::script::{Answers, Unanswered, converse};

impl Answers for Reception {
    ghost use Rattle.wf_run_scripts.specs.UplinkLines.{IsValid, grammar};
    ghost use Rattle.wf_run_scripts.specs.UplinkAnswers.{manner};

    type Event = Event;

    ghost grammar = { grammar };

    ghost manner = { manner };

    ghost valid = { IsValid };

    fn most() -> Option<u64> {
        None
    }

    fn read(line: &[u8]) -> Result<Event, FaultKind> {
        event_from(line)
    }

    fn answer<K: Sink>(&mut self, event: Event, sink: &mut K) -> Result<(), Unanswered> {
        match event {
            Event::Open {
                station,
                window,
                start,
            } => self.open(station, window, start, sink),
            Event::Plain { station } => self.open_plain(station, sink),
            Event::Rate { station, rate } => self.set_rate(station, rate, sink),
            Event::Tick { by } => self.tick(by, sink),
            Event::Frame(frame) => self.receive(frame.octets(), sink),
            Event::Bar(frame) => self.request(frame.octets(), sink),
        }
    }

    fn close<K: Sink>(&self, sink: &mut K) -> Result<(), Failed> {
        self.tell(sink)
    }
}

/// Reads a script from the source and runs it on an uplink of 256 stations.
///
/// It writes the answer to each event before it reads the next one, and after the line `end` the totals. If
/// the script has a fault, it writes the fault line instead. Octets after the `end` line are ignored.
///
/// It allocates only before it reads. After that, `Status::NoMemory` means that the clock or a total has no
/// room left below 2^62.
#[inline(never)]
pub fn uplink<S: Source, K: Sink>(alloc: Global, source: &mut S, sink: &mut K) -> Status
    ensures ends { CommandEnds S.left S.faults K.held K.faults UplinkOutcome UplinkAnswered
        source.old source.new sink.old sink.new result }
    ensures law { (input : List ℕ) → S.left source.old ≡ Some input → UplinkLaw input }
{
    let Ok(mut reception) = Reception::new(alloc) else {
        return Status::NoMemory;
    };
    converse(alloc, &mut reception, source, sink)
}
