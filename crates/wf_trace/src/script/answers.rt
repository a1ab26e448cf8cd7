//! The interface of a command that answers scripts.

ghost use Rattle.std.specs.Prelude.{◌≡◌, ◌≢◌, ◌≤◌, true, Option, IfOk, OnOk, OnErr, Result, Err};
ghost use Rattle.std.specs.Io.KnownBytes.{append_known};
ghost use Rattle.wf_io.specs.Faults.{HasRisen, CountsFaults};
ghost use Rattle.wf_trace.specs.Words.{words};
ghost use Rattle.wf_io.specs.Fronts.{HoldsFront};
ghost use Rattle.wf_trace.specs.Scripts.{Grammar};
ghost use Rattle.wf_trace.specs.ScriptTexts.{Manner};

use crate::FaultKind;
use wf_io::{Failed, Line, Sink};

/// Why an answer was not written completely.
#[derive(Clone, Copy)]
pub enum Unanswered {
    /// The sink failed.
    Sink,
    /// Out of memory.
    Memory,
}

/// A command that answers the events of a script.
pub trait Answers {
    /// An event: the meaning of a line.
    type Event: Copy;

    /// The meaning of a line, given its words, and the most events of a script.
    ghost grammar: { Grammar Self.Event };

    /// What is written for an event, how the event changes the command, and whether it may run out of
    /// memory.
    ghost manner: { Manner Self.Event Self };

    /// What holds for each event that was read.
    ghost valid: { Self.Event → Type 0 };

    /// Returns the most events of a script, or `None` if there is no limit.
    fn most() -> Option<u64>
        ensures { result ≡ grammar.most };

    /// Returns the event of a line, which is not the line `end`. The error is the line's first fault.
    fn read(line: &[u8]) -> Result<Self::Event, FaultKind>
        ensures says { result ≡ grammar.meant (words line.now) }
        ensures valid { IfOk result valid };

    /// Handles an event and writes its answer. After an error a part of the answer may have been written.
    /// Runs out of memory only at events at which that is allowed.
    fn answer<K: Sink>(&mut self, event: Self::Event, sink: &mut K) -> Result<(), Unanswered>
        requires { valid event }
        ensures written { OnOk result (K.held sink.new
            ≡ append_known (K.held sink.old) (manner.answer self.old event)) }
        ensures after { OnOk result (self.new ≡ manner.after self.old event) }
        ensures front { OnErr result (HoldsFront (K.held sink.old) (K.held sink.new)
            (manner.answer self.old event)) }
        ensures memory { result ≡ Err Unanswered.Memory → manner.wants self.old event ≡ true }
        ensures counted { K.faults sink.old ≤ K.faults sink.new }
        ensures cause { result ≡ Err Unanswered.Sink → HasRisen (K.faults sink.old) (K.faults sink.new) }
        ensures quiet { result ≢ Err Unanswered.Sink → K.faults sink.new ≡ K.faults sink.old };

    /// Writes the lines after the line `end`. After an error a part of them may have been written.
    fn close<K: Sink>(&self, sink: &mut K) -> Result<(), Failed>
        ensures written { OnOk result (K.held sink.new
            ≡ append_known (K.held sink.old) (manner.closing self.now)) }
        ensures front { HoldsFront (K.held sink.old) (K.held sink.new) (manner.closing self.now) }
        ensures cause { CountsFaults (K.faults sink.old) (K.faults sink.new) result };
}

/// Writes a line as `wf_io::write_line` does. Fails with `Sink` if the sink fails.
pub fn write_line<K: Sink>(sink: &mut K, line: &Line) -> Result<(), Unanswered>
    ensures written { OnOk result (K.held sink.new ≡ append_known (K.held sink.old) line.now) }
    ensures front { HoldsFront (K.held sink.old) (K.held sink.new) line.now }
    ensures counted { K.faults sink.old ≤ K.faults sink.new }
    ensures cause { OnErr result (HasRisen (K.faults sink.old) (K.faults sink.new)) }
    ensures quiet { result ≢ Err Unanswered.Sink → K.faults sink.new ≡ K.faults sink.old }
    ensures sink { OnErr result (result ≡ Err Unanswered.Sink) }
{
    match wf_io::write_line(sink, line) {
        Ok(()) => Ok(()),
        Err(_) => Err(Unanswered::Sink),
    }
}
