//! The command `replay`.

ghost use Rattle.std.specs.Prelude.{◌≡◌, ℕ, List, Some, true};
ghost use Rattle.wf_trace.specs.CommandEnds.{CommandEnds};
ghost use Rattle.wf_trace.specs.Reading.{reading};
ghost use Rattle.wf_trace_laws.specs.Endings.{TraceAnswered};
ghost use Rattle.wf_trace_laws.specs.Laws.{HasLaws};
ghost use Rattle.wf_run_replay.specs.Outcome.{StatusSays};

use crate::answers::AnswerLines;
use crate::{Stage, play};
use std::alloc::Global;
use wf_io::{Sink, Source, Status};

/// Reads a trace from the source and replays it.
///
/// It writes the answer lines of all calls that it has read before it reads the source again, and the summary
/// after the `end` line. If the trace has a fault, it writes the fault line instead of the summary. Octets
/// after the `end` line are ignored.
#[inline(never)]
pub fn replay<S: Source, K: Sink>(alloc: Global, source: &mut S, sink: &mut K) -> Status
    ensures ends { CommandEnds S.left S.faults K.held K.faults StatusSays TraceAnswered
        source.old source.new sink.old sink.new result }
    ensures laws { (input : List ℕ) → S.left source.old ≡ Some input → HasLaws (reading true input) }
{
    let Ok(mut lines) = AnswerLines::new(alloc) else {
        return Status::NoMemory;
    };
    play::<AnswerLines, Stage, S, K>(alloc, &mut lines, source, sink)
}
