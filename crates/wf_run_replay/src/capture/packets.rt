//! The packets of a capture, call by call.

use crate::{Plays, Tells};
use wf_frame::Answer;
use wf_io::{Failed, Sink};
use wf_report::captures::{write_head, write_packets};
use wf_trace::Fault;

/// Writes the file header, and the packets of each call at once. It writes nothing for the end of the trace
/// or for a fault.
#[derive(Clone, Copy)]
pub(crate) struct Packets;

impl Tells for Packets {
    ghost use Rattle.std.specs.Prelude.{[]};
    ghost use Rattle.wf_run_replay.specs.Captured.{telling};

    ghost telling = { telling };

    ghost waiting = { λ packets. [] };

    fn tell_front<K: Sink>(&mut self, sink: &mut K) -> Result<(), Failed> {
        write_head(sink)
    }

    fn tell_call<M: Plays, K: Sink>(
        &mut self,
        stage: &M,
        answer: &Answer,
        _due: bool,
        sink: &mut K,
    ) -> Result<(), Failed> {
        write_packets(stage.cell(), answer, sink)
    }

    fn tell_end<M: Plays, K: Sink>(
        &mut self,
        _stage: &Option<M>,
        _sink: &mut K,
    ) -> Result<(), Failed> {
        Ok(())
    }

    fn tell_fault<K: Sink>(&mut self, _fault: Fault, _sink: &mut K) -> Result<(), Failed> {
        Ok(())
    }
}
