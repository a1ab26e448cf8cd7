//! The answer lines of a replay.

ghost use Rattle.std.specs.Prelude.{◌≡◌, [], IfOk, OnOk, option_map};
ghost use Rattle.std.specs.Io.KnownBytes.{append_known};
ghost use Rattle.wf_io.specs.Faults.{CountsFaults};
ghost use Rattle.wf_io.specs.Fronts.{HoldsFront};
ghost use Rattle.wf_run_replay.specs.Running.{closing_of};

use crate::outgoing::Outgoing;
use crate::{Plays, Tells};
use std::alloc::{AllocError, Global};
use wf_frame::Answer;
use wf_io::{Failed, Line, Sink};
use wf_report::{print_reply, summary};
use wf_trace::{Fault, print_fault};

/// The answer lines of a replay. They wait until the source is read again. `line` is the buffer for the next
/// one.
#[derive(Drop)]
pub(crate) struct AnswerLines {
    outgoing: Outgoing,
    line: Line,
}

// Writes the summary, if there is a cell.
fn close<M: Plays, K: Sink>(stage: &Option<M>, sink: &mut K) -> Result<(), Failed>
    ensures written { OnOk result (K.held sink.new
        ≡ append_known (K.held sink.old) (closing_of (option_map M.past stage.now))) }
    ensures front { HoldsFront (K.held sink.old) (K.held sink.new)
        (closing_of (option_map M.past stage.now)) }
    ensures cause { CountsFaults (K.faults sink.old) (K.faults sink.new) result }
{
    match stage {
        Some(stage) => summary(stage.cell(), sink),
        None => Ok(()),
    }
}

impl AnswerLines {
    /// Returns an `AnswerLines` without lines. It allocates the room for waiting lines here, and nothing
    /// later.
    pub(crate) fn new(alloc: Global) -> Result<Self, AllocError>
        ensures { IfOk result (λ lines. lines.outgoing ≡ []) }
    {
        let outgoing = Outgoing::new(alloc)?;
        let line = Line::new();
        Ok(AnswerLines { outgoing, line })
    }
}

impl Tells for AnswerLines {
    ghost use Rattle.wf_run_replay.specs.Running.{telling};

    ghost telling = { telling };

    ghost waiting = { λ lines. lines.outgoing };

    fn tell_front<K: Sink>(&mut self, _sink: &mut K) -> Result<(), Failed> {
        Ok(())
    }

    fn tell_call<M: Plays, K: Sink>(
        &mut self,
        _stage: &M,
        answer: &Answer,
        due: bool,
        sink: &mut K,
    ) -> Result<(), Failed> {
        self.line.clear();
        print_reply(answer, &mut self.line);
        self.outgoing.put(self.line.octets(), due, sink)
    }

    fn tell_end<M: Plays, K: Sink>(
        &mut self,
        stage: &Option<M>,
        sink: &mut K,
    ) -> Result<(), Failed> {
        match self.outgoing.send(sink) {
            Ok(()) => close(stage, sink),
            Err(failed) => Err(failed),
        }
    }

    fn tell_fault<K: Sink>(&mut self, fault: Fault, sink: &mut K) -> Result<(), Failed> {
        self.line.clear();
        print_fault(fault, &mut self.line);
        self.outgoing.put(self.line.octets(), true, sink)
    }
}
