//! The command `replay --pcap`, over any source and sink.

ghost use Rattle.std.specs.Prelude.{◌≡◌, ℕ, List, Some};
ghost use Rattle.wf_trace.specs.CommandEnds.{CommandEnds};
ghost use Rattle.wf_trace_laws.specs.Endings.{TraceAnswered};
ghost use Rattle.wf_run_replay.specs.CaptureOutcome.{CaptureOutcome, CaptureLaw};

use crate::capture::packets::Packets;
use crate::{Stage, play};
use std::alloc::Global;
use wf_io::{Sink, Source, Status};

/// Replays a trace from the source, and writes a capture file.
///
/// It writes the file header first. For each call, before the source is read again, it writes a packet for
/// each transmission of the exchange that the call begins, or for the BlockAck that answers an exchange. The
/// time of a packet is the clock in microseconds. If the trace has a fault, the capture has the calls before
/// it. Octets after the `end` line are ignored.
#[inline(never)]
pub fn capture<S: Source, K: Sink>(alloc: Global, source: &mut S, sink: &mut K) -> Status
    ensures ends { CommandEnds S.left S.faults K.held K.faults CaptureOutcome TraceAnswered
        source.old source.new sink.old sink.new result }
    ensures law { (input : List ℕ) → S.left source.old ≡ Some input → CaptureLaw input }
{
    play::<Packets, Stage, S, K>(alloc, &mut Packets, source, sink)
}
