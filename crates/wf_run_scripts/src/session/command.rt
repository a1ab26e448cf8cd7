//! The command `session`, over any source and sink.

ghost use Rattle.std.specs.Prelude.{◌≡◌, ℕ, List, Some};
ghost use Rattle.wf_trace.specs.CommandEnds.{CommandEnds};
ghost use Rattle.wf_run_scripts.specs.SessionOutcome.{SessionOutcome, SessionAnswered, SessionLaw};

use crate::session::answers::{print_answer, print_closing};
use crate::session::lines::event_from;
use crate::session::parley::Parley;
use std::alloc::Global;
use wf_io::{Failed, Line, Sink, Source, Status};
use wf_session::Event;
use wf_trace::FaultKind;
use wf_trace::script::{Answers, Unanswered, converse, write_line};

/// The most events of a script.
const MOST: u64 = 65_536;

impl Answers for Parley {
    ghost use Rattle.wf_run_scripts.specs.SessionLines.{IsValidEvent, grammar};
    ghost use Rattle.wf_run_scripts.specs.SessionAnswers.{manner};

    type Event = Event;

    ghost grammar = { grammar };

    ghost manner = { manner };

    ghost valid = { IsValidEvent };

    fn most() -> Option<u64> {
        Some(MOST)
    }

    fn read(line: &[u8]) -> Result<Event, FaultKind> {
        event_from(line)
    }

    fn answer<K: Sink>(&mut self, event: Event, sink: &mut K) -> Result<(), Unanswered> {
        let Ok(refusal) = self.happen(event) else {
            return Err(Unanswered::Memory);
        };
        let mut line = Line::new();
        print_answer(refusal, self, &mut line);
        write_line(sink, &line)
    }

    fn close<K: Sink>(&self, sink: &mut K) -> Result<(), Failed> {
        let mut line = Line::new();
        print_closing(self, &mut line);
        wf_io::write_line(sink, &line)
    }
}

/// Reads a script from the source and runs it on both ends of TID 0. The recipient gives windows of at most
/// 64 numbers.
///
/// It writes the answer to each event before it reads the next one. After the line `end` it writes how many
/// messages each end sent, and the agreement. If the script has a fault, it writes the fault line instead.
/// Octets after the `end` line are ignored.
#[inline(never)]
pub fn session<S: Source, K: Sink>(alloc: Global, source: &mut S, sink: &mut K) -> Status
    ensures ends { CommandEnds S.left S.faults K.held K.faults SessionOutcome SessionAnswered
        source.old source.new sink.old sink.new result }
    ensures law { (input : List ℕ) → S.left source.old ≡ Some input → SessionLaw input }
{
    let mut parley = Parley::new(alloc, 0, 64);
    converse(alloc, &mut parley, source, sink)
}
